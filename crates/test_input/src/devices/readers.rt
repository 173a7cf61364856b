//! A device over a reader.

use crate::devices::answers::{NOW, answers, answers_many, fails, is_idle, is_raw, wakes_by};
use crate::devices::ends::cooked;
use crossterm_read::source::{Device, DeviceSource, EventSource, RawFlag, ReadDevice};
use crossterm_types::event::{Event, InternalEvent, KeyCode};
use std::alloc::Global;
use std::io::{self, Cursor, ErrorKind, Read};
use test_support::expect;

/// Whether a device over a list of bytes reports them, and then the end for good.
fn answers_a_list(flag: RawFlag) -> bool {
    let mut device = ReadDevice::new(&b"abc"[..], flag);
    answers(&mut device, None, b"abc")
        && answers(&mut device, None, b"")
        && answers(&mut device, NOW, b"")
}

/// Whether a buffer at a time is reported.
fn answers_by_buffers(flag: RawFlag) -> bool {
    let mut device = ReadDevice::new(Cursor::new([7u8; 1025]), flag);
    answers_many(&mut device, None, 7, 1024)
        && answers_many(&mut device, None, 7, 1)
        && answers(&mut device, None, b"")
}

#[test]
fn a_reader_is_answered_to_its_end(rt: HostRuntime) -> io::Result<()> {
    expect!(rt; answers_a_list(cooked(rt.alloc())?));
    expect!(rt; answers_by_buffers(cooked(rt.alloc())?));
    Ok(())
}

/// A reader that gives `x` after three errors.
#[derive(Drop)]
struct Faulty {
    reads: u8,
}

impl Read for Faulty {
    fn read(&mut self, buf: &mut [u8]) -> io::Result<usize> {
        self.reads = self.reads.saturating_add(1);
        match self.reads {
            1 => Err(io::Error::from(ErrorKind::WouldBlock)),
            2 => Err(io::Error::from(ErrorKind::Interrupted)),
            3 => Err(io::Error::from(ErrorKind::Other)),
            _ => match buf.first_mut() {
                Some(first) => {
                    *first = b'x';
                    Ok(1)
                }
                None => Ok(0),
            },
        }
    }
}

/// Whether an error is a failure if it says more than that nothing came.
fn answers_faults(flag: RawFlag) -> bool {
    let mut device = ReadDevice::new(Faulty { reads: 0 }, flag);
    let idle = is_idle(&mut device, None) && is_idle(&mut device, None) && device.failures() == 0;
    let fails = fails(&mut device, ErrorKind::Other) && device.failures() == 1;
    idle && fails && answers(&mut device, None, b"x") && device.failures() == 1
}

#[test]
fn an_error_is_answered_and_counted(rt: HostRuntime) -> io::Result<()> {
    expect!(rt; answers_faults(cooked(rt.alloc())?));
    Ok(())
}

/// Whether bytes come in the mode that the flag says then, and whether waking changes anything.
fn follows_its_flag(flag: &RawFlag, shared: RawFlag) -> bool {
    let mut device = ReadDevice::new(Cursor::new([7u8; 2500]), shared);
    let cooked = wakes_by(device.waker()) && !is_raw(&mut device);
    flag.set(true);
    cooked && is_raw(&mut device)
}

#[test]
fn bytes_come_in_the_mode_of_the_flag(rt: HostRuntime) -> io::Result<()> {
    let flag = cooked(rt.alloc())?;
    expect!(rt; follows_its_flag(&flag, flag.share()?));
    Ok(())
}

/// Whether what was read is the event of a key.
pub fn is_key(read: io::Result<Option<InternalEvent>>, code: KeyCode) -> bool {
    matches!(read, Ok(Some(InternalEvent::Event(Event::Key(key)))) if key.code == code)
}

/// Whether a source over a device over a reader gives keys, and then the end.
fn gives_keys<S: EventSource<Global> + Drop>(mut source: S) -> bool {
    is_key(source.try_read(None), KeyCode::Char('a'))
        && is_key(source.try_read(None), KeyCode::Up)
        && matches!(source.try_read(None), Err(error) if error.kind() == ErrorKind::UnexpectedEof)
}

#[test]
fn a_source_reads_a_reader(rt: HostRuntime) -> io::Result<()> {
    let device = ReadDevice::new(&b"a\x1b[A"[..], cooked(rt.alloc())?);
    expect!(rt; gives_keys(DeviceSource::new(rt.alloc(), device)));
    Ok(())
}
