//! A device over a descriptor that the system can watch.
ghost use Rattle.std.specs.Prelude.{◌≡◌, List, [], ◌∷◌, false, length, IfOk, None, Ok, is_some};
ghost use Rattle.crossterm_read.specs.Device.{CountWithin, device_answer};
ghost use Rattle.crossterm_read.specs.Reading.{IsFault, ReadingAnswers, SizesAnswer, reading_answering};
ghost use Rattle.crossterm_read.specs.Waking.{WakesAs};
ghost use Rattle.crossterm_read.specs.declared.source.waker.Kind.TheVariants.{Mio};

use crate::source::failures::answer_at;
use crate::source::reader::read_once;
use crate::source::sizes::Sizes;
use crate::source::watch::{INPUT, Ready, SIZES, Watch};
use crate::source::{Answer, Device, RawFlag, Waker};
use std::alloc::{Allocator, Global};
use std::fs::File;
use std::io::{self, ErrorKind, Read};
use std::net::Net;
use std::os::fd::AsRawFd;
use std::sync::Arc;
use std::time::Duration;

/// A device that reports what comes from a terminal, a pipe, a socket or a file. It waits as long as the limit says, and no longer.
///
/// The descriptor may be one that blocks: it is read only if the system says that something is there, and what is there comes at once. A
/// regular file can't be watched, and is read without waiting. A wake-up goes before a size, and that before bytes, however many come; what
/// was passed over comes with a later answer. It answers `Idle` before the limit if a signal came, or sizes ended or had no whole line.
///
/// ```
/// let raw = RawFlag::new(alloc)?;
/// let device = PolledDevice::new(&rt, alloc, rt.stdin(), raw.share()?, None)?;
/// let source = DeviceSource::new(alloc, device);
/// ```
#[derive(Drop)]
pub struct PolledDevice<R, A: Allocator = Global> {
    input: R,
    sizes: Option<Sizes>,
    watch: Watch,
    raw: RawFlag<A>,
    failures: u64,
}

impl<R: Read + AsRawFd + Drop, A: Allocator> PolledDevice<R, A> {
    /// A device that reports what this reader returns from here on, with the mode that the flag says then.
    ///
    /// `sizes` reports the sizes of the terminal, in lines `ROWS COLUMNS` as `stty size` writes them. A line that is no size is passed
    /// over. They may end, as a FIFO does once nobody has it open for writing. If they end or can't be read, no more come, and the input
    /// goes on. `alloc` gives memory for what waits.
    ///
    /// # Errors
    ///
    /// `OutOfMemory` if memory was refused, or the system's if it can't watch the input or the sizes. Then all that was handed in is gone.
    pub fn new<N: Net>(
        rt: &N,
        alloc: Global,
        input: R,
        raw: RawFlag<A>,
        sizes: Option<File>,
    ) -> io::Result<Self>
        ensures input { IfOk result (λ device. device.input ≡ input) }
        // If nothing reports sizes, no size is ever reported.
        ensures sizes { IfOk result (λ device. is_some device.sizes ≡ is_some sizes) }
        ensures failures { IfOk result (λ device. device.failures ≡ 0) }
    {
        let mut watch = Watch::new(rt, alloc)?;
        watch.add(input.as_raw_fd(), INPUT)?;
        if let Some(file) = &sizes {
            watch.add(file.as_raw_fd(), SIZES)?;
        }
        Ok(PolledDevice {
            input,
            sizes: sizes.map(Sizes::new),
            watch,
            raw,
            failures: 0,
        })
    }
}

// Whether a read into so many bytes took all that was there: it took some, and fewer than there was room for. A terminal that isn't in raw mode
// returns a line at a time.
fn is_all(answer: &io::Result<Answer>, room: usize) -> bool {
    match answer {
        Ok(Answer::Bytes { count, raw }) => *raw && *count > 0 && *count < room,
        Ok(_) | Err(_) => false,
    }
}

impl<R: Read + AsRawFd + Drop, A: Allocator + Clone> PolledDevice<R, A> {
    // Sizes come no more.
    fn end_sizes(&mut self)
        ensures sizes { is_some self.new.sizes ≡ false }
        ensures input { self.new.input ≡ self.old.input }
        ensures failures { self.new.failures ≡ self.old.failures }
    {
        if let Some(sizes) = self.sizes.take() {
            self.watch.remove(sizes.fd(), SIZES);
        }
    }

    // Asks the system anew what is ready, and waits for it within the limit.
    fn wait(&mut self, limit: Option<Duration>) -> io::Result<Ready>
        ensures sizes { is_some self.old.sizes ≡ false → is_some self.new.sizes ≡ false }
        ensures input { self.new.input ≡ self.old.input }
        ensures failures { self.new.failures ≡ self.old.failures }
    {
        self.watch.ask(self.input.as_raw_fd(), INPUT)?;
        if let Some(sizes) = &self.sizes {
            if let Err(error) = self.watch.ask(sizes.fd(), SIZES) {
                self.end_sizes();
                return Err(error);
            }
        }
        self.watch.wait(limit)
    }

    // Columns and rows that were reported last.
    fn read_size(&mut self) -> io::Result<Option<(u16, u16)>>
        ensures none { is_some self.old.sizes ≡ false → result ≡ Ok None }
        ensures sizes { is_some self.old.sizes ≡ false → is_some self.new.sizes ≡ false }
        ensures input { self.new.input ≡ self.old.input }
        ensures failures { self.new.failures ≡ self.old.failures }
    {
        let Some(sizes) = &mut self.sizes else {
            return Ok(None);
        };
        match sizes.read() {
            Ok(size) => Ok(size),
            Err(error) => match error.kind() {
                ErrorKind::WouldBlock | ErrorKind::Interrupted => Ok(None),
                ErrorKind::UnexpectedEof => {
                    self.end_sizes();
                    Ok(None)
                }
                _ => {
                    self.end_sizes();
                    Err(error)
                }
            },
        }
    }

    // Answers once, and counts no failure.
    fn try_answer(&mut self, buf: &mut [u8], limit: Option<Duration>) -> io::Result<Answer>
        requires { length buf.now ≡ 1024 }
        ensures answered { ReadingAnswers (R.remaining self.old.input) (device_answer result buf.new ∷ []) (R.remaining self.new.input) }
        ensures sizes { SizesAnswer (is_some self.old.sizes) (device_answer result buf.new ∷ []) (is_some self.new.sizes) }
        ensures count { IfOk result (λ a. CountWithin a (length buf.new)) }
        ensures failures { self.new.failures ≡ self.old.failures }
    {
        let ready = self.wait(limit)?;
        if ready.woken {
            return Ok(Answer::Woken);
        }
        if ready.sizes {
            if let Some((columns, rows)) = self.read_size()? {
                return Ok(Answer::Resize(columns, rows));
            }
        }
        if !ready.input {
            return Ok(Answer::Idle);
        }
        let answer = read_once(&mut self.input, buf, &self.raw);
        self.watch.note_read(INPUT, is_all(&answer, buf.len()));
        answer
    }
}

impl<R: Read + AsRawFd + Drop, A: Allocator + Clone> Device for PolledDevice<R, A> {
    // What it reports are its reader's next bytes, if the reader says what it returns, and sizes only if something reports them.
    ghost answering = { reading_answering (λ s. R.remaining s.input) (λ s. is_some s.sizes) };

    ghost failed = { λ s. s.failures };

    // What says that nothing came yet is no error.
    ghost fails = { IsFault };

    ghost wakes = { λ s. WakesAs (record { kind = Mio s.watch.waker }) };

    fn answer(&mut self, buf: &mut [u8], limit: Option<Duration>) -> io::Result<Answer> {
        match self.try_answer(buf, limit) {
            Ok(answer) => Ok(answer),
            Err(error) => answer_at(&mut self.failures, error),
        }
    }

    fn failures(&self) -> u64 {
        self.failures
    }

    /// What wakes who waits for this device. The error is `OutOfMemory`.
    fn waker(&self) -> io::Result<Waker> {
        Ok(Waker::from_mio(Arc::try_clone(&self.watch.waker)?))
    }
}
