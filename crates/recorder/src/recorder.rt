//! A device whose answers are written before they are handed on.
ghost use Rattle.std.specs.Prelude.{◌≡◌, ◌≤◌, ◌↔◌, ℕ, List, [], ◌∷◌, length, Option, None, Some, IfOk, IsTrue, false};
ghost use Rattle.crossterm_read.specs.Device.{CountWithin, device_answer};
ghost use Rattle.recorder.specs.Answering.{recorder_answering};
ghost use Rattle.recorder.specs.Recording.{HasRoomFor, IsPossible, Recording, Uses, WritesEntries, millis, recorded};
ghost use Rattle.recorder.specs.inside.Said.{Notes, said_by, noted_answer};

use crate::line::{Noted, push_entry};
use crate::watch::Watch;
use crossterm_command::write_bytes;
use crossterm_read::source::{Answer, Device, Waker};
use crossterm_types::event::timeout::Clock;
use std::alloc::{Allocator, Global};
use std::io::{self, ErrorKind, Write};
use std::marker::Model;
use std::time::Duration;
use thiserror::Error;

/// Why a recording ended before its session.
#[derive(Clone, Copy, Debug, PartialEq, Eq, Error)]
pub enum Stop {
    /// What came next had no room, as `Recorder::most` bounds it. The recording ends with a whole line.
    #[error("no room is left")]
    Cut,
    /// The writer failed with an error of this kind, and may have taken a part of a line. Or memory for a line was refused.
    #[error("the writer failed: {0:?}")]
    Failed(ErrorKind),
}

/// A device over a device, which writes each answer as a line before it hands it on, and before it the time.
///
/// It answers what its device answers, whatever becomes of the recording: at the first failure of its writer it stops writing, and
/// keeps why. The end of input isn't written: a script of the lines ends by itself.
///
/// ```
/// let device = Recorder::new(alloc, device, file, SystemClock::new(&rt)).most(1_048_576);
/// let mut reader = InternalEventReader::new(alloc, DeviceSource::new(alloc, device));
/// ```
#[derive(Drop)]
pub struct Recorder<D, W, C: Clock, A: Allocator = Global> {
    device: D,
    writer: W,
    clock: C,
    line: Vec<u8, A>,
    room: Option<u64>,
    stop: Option<Stop>,
    watch: Option<Watch<A>>,
}

impl<D, W, C: Clock, A: Allocator> Model for Recorder<D, W, C, A> {
    ghost Value = { Recording D W };

    ghost view = { λ r. record { device = r.device; writer = r.writer; clock = C.latest r.clock; room = r.room; stop = r.stop } };
}

// The line of an answer, if it has one.
fn line_of<'a>(answer: &io::Result<Answer>, buf: &'a [u8]) -> Option<Noted<'a>>
    requires within { IfOk answer.now (λ a. CountWithin a (length buf.now)) }
    requires most { length buf.now ≤ 1024 }
    ensures is_answer { IsPossible (device_answer answer.now buf.now) }
    ensures line { said_by result ≡ recorded (device_answer answer.now buf.now ∷ []) }
{
    match answer {
        Ok(Answer::Bytes { count, raw }) => {
            if *count == 0 {
                None
            } else {
                let bytes = &buf[..*count];
                Some(Noted::Bytes { bytes, raw: *raw })
            }
        }
        Ok(Answer::Resize(columns, rows)) => Some(Noted::Resized(*columns, *rows)),
        Ok(Answer::Woken) => Some(Noted::Woken),
        Ok(Answer::Idle) => Some(Noted::Idle),
        Err(e) => Some(Noted::Fault(e.kind())),
    }
}

// The milliseconds that a clock reports.
fn moment<C: Clock>(clock: &mut C) -> u32
    ensures time { result ≡ millis (C.latest clock.new) }
    ensures later { millis (C.latest clock.old) ≤ millis (C.latest clock.new) }
{
    let time = clock.now().as_millis();
    if time < 4_294_967_295 {
        time as u32
    } else {
        4_294_967_295
    }
}

// Takes so many bytes of the room, if it has as many, and returns whether it had.
fn take_room(room: &mut Option<u64>, count: usize) -> bool
    ensures uses { IsTrue result → Uses room.old count room.new }
    ensures full { result ≡ false → HasRoomFor room.old count → ⊥ }
{
    match *room {
        None => true,
        Some(left) => {
            let count = count as u64;
            if left < count {
                return false;
            }
            *room = Some(left - count);
            true
        }
    }
}

// Writes an entry, and returns why the recording ends, if it does.
fn write_entry<W: Write, A: Allocator>(
    writer: &mut W,
    line: &mut Vec<u8, A>,
    room: &mut Option<u64>,
    time: u32,
    noted: Noted<'_>,
) -> Option<Stop>
    ensures { WritesEntries W.contents None room.old writer.old ((time, noted_answer noted.entry) ∷ []) result room.new writer.new }
{
    line.clear();
    if push_entry(line, time, noted).is_err() {
        return Some(Stop::Failed(ErrorKind::OutOfMemory));
    }
    if !take_room(room, line.len()) {
        return Some(Stop::Cut);
    }
    match write_bytes(writer, line.as_slice()) {
        Ok(()) => None,
        Err(e) => Some(Stop::Failed(e.kind())),
    }
}

// Writes what is said with its time, if something is and nothing stopped the recording.
fn record<W: Write, C: Clock, A: Allocator>(
    writer: &mut W,
    clock: &mut C,
    line: &mut Vec<u8, A>,
    room: &mut Option<u64>,
    stop: &mut Option<Stop>,
    noted: Option<Noted<'_>>,
)
    ensures { Notes W.contents (C.latest clock.old) stop.old room.old writer.old (said_by noted.entry) (C.latest clock.new) stop.new room.new writer.new }
{
    let Some(noted) = noted else {
        return;
    };
    if stop.is_none() {
        let time = moment(clock);
        *stop = write_entry(writer, line, room, time, noted);
    }
}

impl<D: Device, W: Write + Drop, C: Clock + Drop, A: Allocator> Recorder<D, W, C, A> {
    /// A recorder that has written nothing yet. Times count from the time of its clock.
    pub fn new(alloc: A, device: D, writer: W, clock: C) -> Self
        ensures { result ≡ record { device = device; writer = writer; clock = C.latest clock; room = None; stop = None } }
    {
        Recorder {
            device,
            writer,
            clock,
            line: Vec::new(alloc),
            room: None,
            stop: None,
            watch: None,
        }
    }

    /// The same recorder, which writes so many bytes at most from now on.
    pub fn most(mut self, bytes: u64) -> Self
        ensures { result ≡ record { device = self.device; writer = self.writer; clock = self.clock; room = Some bytes; stop = self.stop } }
    {
        self.room = Some(bytes);
        self
    }

    /// The same recorder, which also reports to a watch why it ended.
    pub fn watched(mut self, watch: Watch<A>) -> Self
        ensures { result ≡ record { device = self.device; writer = self.writer; clock = self.clock; room = self.room; stop = self.stop } }
    {
        self.watch = Some(watch);
        self.report();
        self
    }

    // Reports why the recording ended, if it did and there is a watch.
    fn report(&self) {
        if let (Some(stop), Some(watch)) = (self.stop, &self.watch) {
            watch.report(stop);
        }
    }

    /// The writer, with what it was given.
    pub fn into_writer(self) -> W
        ensures { result ≡ self.writer }
    {
        let Recorder { writer, .. } = self;
        writer
    }

    /// Why the recording ended, after which nothing was written; `None` while it goes on.
    pub fn stopped(&self) -> Option<Stop>
        ensures { result ≡ self.now.stop }
    {
        self.stop
    }
}

impl<D: Device, W: Write + Drop, C: Clock + Drop, A: Allocator> Device for Recorder<D, W, C, A> {
    ghost answering = { recorder_answering W.contents D.answering };

    ghost failed = { λ s. D.failed s.device };

    ghost fails = { D.fails };

    ghost asked = { λ s. D.asked s.device };

    ghost wakes = { λ s. D.wakes s.device };

    fn answer(&mut self, buf: &mut [u8], limit: Option<Duration>) -> io::Result<Answer> {
        let answer = self.device.answer(buf, limit);
        let went_on = self.stop.is_none();
        let line = line_of(&answer, buf);
        record(
            &mut self.writer,
            &mut self.clock,
            &mut self.line,
            &mut self.room,
            &mut self.stop,
            line,
        );
        if went_on {
            self.report();
        }
        answer
    }

    fn failures(&self) -> u64 {
        self.device.failures()
    }

    fn waker(&self) -> io::Result<Waker> {
        self.device.waker()
    }
}
