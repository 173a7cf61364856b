//! What events come from.
ghost use Rattle.std.specs.Prelude.{◌≡◌, ◌⊎◌, ◌-◌, ◌==◌, ◌≤◌, ◌<◌, ℕ, List, [], ◌∷◌, ◌++◌, take, drop, Option, IfOk, IfErr, OnOk, ⊤};
ghost use Rattle.std.specs.IoError.{error_kind};
ghost use Rattle.std.specs.declared.io.ErrorKind.TheVariants.{OutOfMemory};
ghost use Rattle.std.specs.declared.time.Duration.{Duration};
ghost use Rattle.crossterm_parse.specs.Marked.{bytes_of, marked};
ghost use Rattle.crossterm_parse.specs.View.{Represents, paste_length};
ghost use Rattle.crossterm_parse.specs.declared.marked.Marked.{Marked};
ghost use Rattle.crossterm_read.specs.Answers.{SourceAnswer, answer_of, IsOwn};
ghost use Rattle.crossterm_read.specs.Device.{AsksWith};
ghost use Rattle.crossterm_read.specs.Sources.{Source, SourceDrawn, source_none, source_on, Hands};
ghost use Rattle.crossterm_read.specs.declared.source.waker.Waker.{Waker};

mod device;
mod failures;
mod polled;
mod raw_flag;
mod reader;
mod script;
mod sizes;
mod socket;
mod waker;
mod watch;

use crossterm_parse::parse::Parser;
use crossterm_types::event::{Event, InternalEvent};
pub use device::{Answer, Device};
pub use polled::PolledDevice;
pub use raw_flag::RawFlag;
pub use reader::ReadDevice;
pub use script::{Act, Script};
pub use socket::SocketDevice;
use std::alloc::{Allocator, Global};
use std::io;
use std::marker::Model;
use std::time::Duration;
pub use waker::Waker;

/// Gives events, one after another.
pub trait EventSource<A: Allocator>: Drop {
    /// From one state of the source, these answers lead to another.
    ghost drawn: { Self → List SourceAnswer → Self → Type 0 };

    /// How often the device failed.
    ghost failed: { Self → ℕ };

    /// The limits that the device was asked with, in order: none, if the source doesn't say more.
    ghost asked: { Self → List (Option Duration) } = { λ _. [] };

    /// The wakers of the device.
    ghost wakes: { Self → Waker → Type 0 } = { λ _ _. ⊤ };

    /// The next event, or `None`: nothing came within the limit, or bytes came that ended no event, perhaps long before it.
    ///
    /// # Errors
    ///
    /// `OutOfMemory` if memory was refused, `UnexpectedEof` at the end of input, `Interrupted` if the source was woken, and else the
    /// device's. After each of them the source goes on from where it was.
    fn try_read(&mut self, limit: Option<Duration>) -> io::Result<Option<InternalEvent<A>>>
        // What it returns is drawn.
        ensures drawn { drawn self.old (answer_of result ∷ []) self.new }
        // The device is asked once at most, with this very limit.
        ensures asked { AsksWith limit (asked self.old) (asked self.new) }
        // An error that isn't a source's own comes only if the device's failures rose. They never fall, and rise at no other answer.
        ensures rise { failed self.old ≤ failed self.new }
        ensures ok { OnOk result (failed self.new ≡ failed self.old) }
        ensures err { IfErr result (λ e. IsOwn (error_kind e) ⊎ (failed self.old < failed self.new)) };

    /// How often the device failed.
    fn failures(&self) -> u64
        ensures { result ≡ failed self.now };

    /// A waker of the device.
    ///
    /// # Errors
    ///
    /// `OutOfMemory` if memory was refused.
    fn waker(&self) -> io::Result<Waker>
        ensures waker { IfOk result (wakes self.now) }
        ensures err { IfErr result (λ e. error_kind e ≡ OutOfMemory) };

    // If nothing is drawn, nothing changes, and what is drawn in two runs is drawn in one.
    ghost none_drawn: { (s : Self) → drawn s [] s };

    ghost drawn_on: { (s t u : Self) (xs ys : List SourceAnswer) → drawn s xs t → drawn t ys u → drawn s (xs ++ ys) u };
}

/// The events of a device.
///
/// It asks the device with a buffer of 1024 bytes, and hands them to the parser. Bytes that the parser couldn't take for want of
/// memory are kept, with their mode, and are handed in again.
#[derive(Drop)]
pub struct DeviceSource<D, A: Allocator = Global> {
    parser: Parser<A>,
    buffer: [u8; 1024],
    // The bytes of the buffer from here to the end are untaken.
    from: usize,
    end: usize,
    raw: bool,
    device: D,
}

impl<D, A: Allocator> Model for DeviceSource<D, A> {
    ghost Value = { Source D };

    ghost view = { λ s. record { parser = s.parser; untaken = marked (take (s.end - s.from) (drop s.from s.buffer)) (s.end == 1024) s.raw; device = s.device } };

    ghost invariant = { λ s. (s.from ≤ s.end) × (s.end ≤ 1024) };
}

impl<D: Device, A: Allocator + Clone> DeviceSource<D, A> {
    /// A source that has asked its device for nothing yet.
    pub fn new(alloc: A, device: D) -> Self
        ensures waiting { result.parser.waiting ≡ [] }
        ensures represents { Represents result.parser [] }
        ensures untaken { result.untaken ≡ [] }
        ensures device { result.device ≡ device }
    {
        DeviceSource::bounded(alloc, device, usize::MAX)
    }

    /// The same, which keeps a paste of so many bytes at most. If a longer one comes, each question is answered `OutOfMemory` from then on.
    ///
    /// ```
    /// let source = DeviceSource::bounded(alloc, device, 16 << 20);
    /// ```
    pub fn bounded(alloc: A, device: D, longest_paste: usize) -> Self
        ensures waiting { result.parser.waiting ≡ [] }
        ensures represents { Represents result.parser [] }
        ensures untaken { result.untaken ≡ [] }
        ensures device { result.device ≡ device }
    {
        DeviceSource {
            parser: Parser::bounded(alloc, longest_paste),
            buffer: [0; 1024],
            from: 0,
            end: 0,
            raw: false,
            device,
        }
    }

    /// How many bytes of the open paste came after its start, of those that the parser has taken: 0 if no paste is open. This takes no memory.
    ///
    /// A server bounds the memory that one of its guests takes by this, as `Parser::paste_len` says.
    ///
    /// ```
    /// if source.paste_len() > 1 << 20 {
    ///     return Err(io::Error::from(ErrorKind::InvalidData));
    /// }
    /// ```
    pub fn paste_len(&self) -> usize
        ensures { (before : List Marked) → Represents self.now.parser before → result ≡ paste_length (bytes_of before) }
    {
        self.parser.paste_len()
    }

    /// The device, as to ask what it knows of itself.
    ///
    /// ```
    /// if let Some(stop) = reader.source().device().stopped() {
    ///     eprintln!(rt; "the recording ended: {stop}")?;
    /// }
    /// ```
    pub fn device(&self) -> &D
        ensures { result.now ≡ self.now.device }
    {
        &self.device
    }

    // Gives the first event of the untaken bytes.
    #[inline(always)]
    fn hand(&mut self) -> io::Result<Option<InternalEvent<A>>>
        requires { self.old.parser.waiting ≡ [] }
        ensures hands { Hands self.old (answer_of result) self.new }
        ensures device { self.new.device ≡ self.old.device }
        ensures err { IfErr result (λ e. IsOwn (error_kind e)) }
    {
        let buffer: &[u8] = &self.buffer;
        let untaken = &buffer[self.from..self.end];
        let (event, taken) = self.parser.take_first(untaken, self.end == 1024, self.raw);
        self.from += taken;
        if let Some(event) = event {
            return Ok(Some(event));
        }
        if self.from == self.end {
            return Ok(None);
        }
        Err(io::Error::from(io::ErrorKind::OutOfMemory))
    }
}

impl<D: Device, A: Allocator + Clone> EventSource<A> for DeviceSource<D, A> {
    ghost drawn = { SourceDrawn D.answering.answered };

    ghost failed = { λ s. D.failed s.device };

    ghost asked = { λ s. D.asked s.device };

    ghost wakes = { λ s. D.wakes s.device };

    ghost none_drawn = { source_none D.answering.answered D.answering.none };

    ghost drawn_on = { source_on D.answering.answered D.answering.on };

    #[inline(always)]
    fn try_read(&mut self, limit: Option<Duration>) -> io::Result<Option<InternalEvent<A>>> {
        if let Some(event) = self.parser.next() {
            return Ok(Some(event));
        }
        if self.from < self.end {
            return self.hand();
        }
        match self.device.answer(&mut self.buffer, limit) {
            Ok(Answer::Bytes { count, raw }) => {
                if count == 0 {
                    return Err(io::Error::from(io::ErrorKind::UnexpectedEof));
                }
                self.from = 0;
                self.end = count;
                self.raw = raw;
                self.hand()
            }
            Ok(Answer::Resize(columns, rows)) => {
                Ok(Some(InternalEvent::Event(Event::Resize(columns, rows))))
            }
            Ok(Answer::Woken) => Err(io::Error::from(io::ErrorKind::Interrupted)),
            Ok(Answer::Idle) => Ok(None),
            Err(error) => Err(error),
        }
    }

    fn failures(&self) -> u64 {
        self.device.failures()
    }

    fn waker(&self) -> io::Result<Waker> {
        self.device.waker()
    }
}
