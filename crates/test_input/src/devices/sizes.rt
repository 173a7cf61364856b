//! Sizes, in lines of text.

use crate::devices::answers::{
    NOW, answers, fails, is_idle, is_woken, resizes, sends, waits_out, wakes_by,
};
use crate::devices::ends::{SizedEnds, piped_beside, polled, sized};
use crossterm_read::source::Device;
use std::alloc::Global;
use std::fs::{File, Files, OpenOptions};
use std::io::{self, ErrorKind, Write};
use std::os::fd::AsRawFd;
use std::time::Clock;
use test_support::expect;

// Longer than what is read at once.
const LONG: [u8; 256] = [b'x'; 256];

/// What comes, and the size that is reported then: that of the last whole line, if it is one.
static LINES: [(&[u8], Option<(u16, u16)>); 19] = [
    (b"24 80\n", Some((80, 24))),
    (b"1 2\n3 4\n30 10", Some((4, 3))),
    (b"0\n", Some((100, 30))),
    (b"65535 0\nx\n", Some((0, 65535))),
    (b"\n", None),
    (b"24\n", None),
    (b"24 \n", None),
    (b" 24 80\n", None),
    (b"24  80\n", None),
    (b"24 80 1\n", None),
    (b"24 80 \n", None),
    (b"-1 80\n", None),
    (b"+1 80\n", None),
    (b"24 65536\n", None),
    (b"99999999999999999999 80\n", None),
    (b"24;80\n", None),
    (&LONG, None),
    (b"24 80\n", None),
    (b"24 80\n", Some((80, 24))),
];

/// Whether a device reports this size, or none, and nothing more, once these bytes have come.
fn comes(ends: &mut SizedEnds, bytes: &[u8], size: Option<(u16, u16)>) -> bool {
    let came = match size {
        Some((columns, rows)) => {
            sends(&mut ends.sizes, bytes) && resizes(&mut ends.device, columns, rows)
        }
        None => sends(&mut ends.sizes, bytes),
    };
    came && is_idle(&mut ends.device, NOW)
}

#[test]
fn whole_lines_are_sizes(rt: HostRuntime) -> io::Result<()> {
    let mut ends = sized(&rt, rt.alloc())?;
    for (bytes, size) in LINES {
        expect!(rt; comes(&mut ends, bytes, size));
    }
    Ok(())
}

/// Whether a wake-up goes before a size, that before bytes, and each comes.
fn answers_in_turn(ends: &mut SizedEnds) -> bool {
    let sent = sends(&mut ends.input, b"ab") && sends(&mut ends.sizes, b"24 80\n");
    let device = &mut ends.device;
    sent && wakes_by(device.waker())
        && is_woken(device, None)
        && resizes(device, 80, 24)
        && answers(device, None, b"ab")
        && is_idle(device, NOW)
}

/// Whether bytes come, and limits are waited out, once no more sizes come.
fn outlives_its_sizes<R: Clock>(rt: &R, ends: SizedEnds) -> bool {
    let SizedEnds {
        mut device,
        mut input,
        sizes,
    } = ends;
    drop(sizes);
    is_idle(&mut device, NOW)
        && waits_out(rt, &mut device, 30)
        && sends(&mut input, b"ab")
        && answers(&mut device, None, b"ab")
        && device.failures() == 0
}

#[test]
fn sizes_and_bytes_come_in_turn(rt: HostRuntime) -> io::Result<()> {
    let mut ends = sized(&rt, rt.alloc())?;
    expect!(rt; answers_in_turn(&mut ends));
    expect!(rt; outlives_its_sizes(&rt, ends));
    Ok(())
}

/// A file that is ready, and can't be read: the end of a pipe that is written to, which nobody reads.
fn unreadable<R: Files<File = File>>(rt: &R, alloc: Global) -> io::Result<File> {
    let (_reader, writer) = io::pipe(rt)?;
    let fd = writer.as_raw_fd();
    let path = format!(in alloc; "/proc/self/fd/{fd}")?;
    OpenOptions::new().write(true).open(rt, path.as_str())
}

/// Whether a failure of sizes is reported once, and the input goes on.
fn outlives_a_failure<D: Device, W: Write, R: Clock>(rt: &R, device: &mut D, far: &mut W) -> bool {
    sends(far, b"ab")
        && fails(device, ErrorKind::Uncategorized)
        && device.failures() == 1
        && answers(device, None, b"ab")
        && waits_out(rt, device, 30)
}

/// Whether a failure of the input is reported each time.
fn fails_again<D: Device>(device: &mut D) -> bool {
    let kind = ErrorKind::Uncategorized;
    fails(device, kind) && fails(device, kind) && device.failures() == 2
}

#[test]
fn a_failure_is_answered(rt: HostRuntime) -> io::Result<()> {
    let input = unreadable(&rt, rt.alloc())?;
    expect!(rt; fails_again(&mut polled(&rt, rt.alloc(), input, None)?));
    let sizes = unreadable(&rt, rt.alloc())?;
    let (mut device, mut far) = piped_beside(&rt, rt.alloc(), Some(sizes))?;
    expect!(rt; outlives_a_failure(&rt, &mut device, &mut far));
    Ok(())
}
