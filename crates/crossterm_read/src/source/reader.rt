//! A device over a reader.
ghost use Rattle.std.specs.Prelude.{◌≡◌, false, List, [], ◌∷◌, length, IfOk, IsOkAnd};
ghost use Rattle.crossterm_read.specs.Device.{CountWithin, device_answer};
ghost use Rattle.crossterm_read.specs.Reading.{IsFault, NoneResized, ReadingAnswers, reading_answering};
ghost use Rattle.crossterm_read.specs.Waking.{IsSure};

use crate::source::failures::answer_at;
use crate::source::{Answer, Device, RawFlag, Waker};
use std::alloc::{Allocator, Global};
use std::io::{self, Read};
use std::time::Duration;

/// A device that reports the bytes of a reader, as they come.
///
/// Each answer is one read, which waits as the reader does, whatever the limit. Over a reader that never waits it doesn't either: if that
/// returns `WouldBlock` or `Interrupted`, nothing came yet. So a program that serves many has one for each, and asks those that are ready.
///
/// ```
/// let device = ReadDevice::new(input, RawFlag::new(alloc)?);
/// let mut reader = InternalEventReader::new(alloc, DeviceSource::new(alloc, device));
/// ```
#[derive(Drop)]
pub struct ReadDevice<R, A: Allocator = Global> {
    input: R,
    raw: RawFlag<A>,
    failures: u64,
}

impl<R: Read + Drop, A: Allocator> ReadDevice<R, A> {
    /// A device that reports what this reader returns from here on, with the mode that the flag says then.
    pub fn new(input: R, raw: RawFlag<A>) -> Self
        ensures input { result.input ≡ input }
        ensures failures { result.failures ≡ 0 }
    {
        ReadDevice {
            input,
            raw,
            failures: 0,
        }
    }
}

/// Reads once, and answers with what came, and the mode that the flag says then.
#[tactic(auto, using(crate::proofs::Reading::read_answers))]
pub(crate) fn read_once<R: Read + Drop, A: Allocator + Clone>(
    input: &mut R,
    buf: &mut [u8],
    raw: &RawFlag<A>,
) -> io::Result<Answer>
    requires { length buf.now ≡ 1024 }
    ensures answered { ReadingAnswers (R.remaining input.old) (device_answer result buf.new ∷ []) (R.remaining input.new) }
    ensures sizes { NoneResized (device_answer result buf.new ∷ []) }
    ensures count { IfOk result (λ a. CountWithin a (length buf.new)) }
{
    let count = input.read(buf)?;
    let raw = raw.get();
    Ok(Answer::Bytes { count, raw })
}

impl<R: Read + Drop, A: Allocator + Clone> Device for ReadDevice<R, A> {
    // What it reports are its reader's next bytes, if the reader says what it returns, and no size.
    ghost answering = { reading_answering (λ s. R.remaining s.input) (λ _. false) };

    ghost failed = { λ s. s.failures };

    // What says that nothing came yet is no error.
    ghost fails = { IsFault };

    ghost wakes = { λ _. IsSure };

    fn answer(&mut self, buf: &mut [u8], _limit: Option<Duration>) -> io::Result<Answer> {
        match read_once(&mut self.input, buf, &self.raw) {
            Ok(answer) => Ok(answer),
            Err(error) => answer_at(&mut self.failures, error),
        }
    }

    fn failures(&self) -> u64 {
        self.failures
    }

    /// Its waker is there always, and wakes nobody.
    fn waker(&self) -> io::Result<Waker>
        ensures { IsOkAnd result IsSure }
    {
        Ok(Waker::none())
    }
}
