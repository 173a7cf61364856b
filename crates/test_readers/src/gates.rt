//! Devices for streams: they live as long as the stream's worker, and report by flags what becomes of them.

ghost use Rattle.std.specs.Prelude.{◌≡◌, length};
ghost use Rattle.crossterm_read.specs.Device.{CountWithin};

use crossterm_read::source::{Answer, Device, Waker};
use std::alloc::{AllocError, Global};
use std::io;
use std::io::ErrorKind;
use std::sync::atomic::{AtomicBool, Ordering};
use std::sync::{Arc, Wait};
use std::time::Duration;
use test_support::{TURNS, is_raised_within, nap, rest};

/// What a test and its device report to each other.
#[derive(Drop)]
pub struct Gate {
    is_open: AtomicBool,
    asked_forever: AtomicBool,
    has_ended: AtomicBool,
    is_gone: AtomicBool,
}

impl Gate {
    /// A gate that is shut.
    pub fn new() -> Gate {
        Gate {
            is_open: AtomicBool::new(false),
            asked_forever: AtomicBool::new(false),
            has_ended: AtomicBool::new(false),
            is_gone: AtomicBool::new(false),
        }
    }

    /// Lets the device report its letter.
    pub fn open(&self) {
        self.is_open.store(true, Ordering::SeqCst);
    }

    /// Whether the device is asked without a limit from now on, before the turns are over.
    pub fn await_endless_question<R: Wait>(&self, rt: &R) -> bool {
        self.asked_forever.store(false, Ordering::SeqCst);
        is_raised_within(rt, &self.asked_forever, TURNS)
    }

    /// Whether the device was asked until its input ended.
    pub fn has_ended(&self) -> bool {
        self.has_ended.load(Ordering::SeqCst)
    }

    /// Whether the device is dropped long before it would end by itself.
    pub fn await_drop<R: Wait>(&self, rt: &R) -> bool {
        is_raised_within(rt, &self.is_gone, TURNS / 5)
    }
}

/// A device that reports the letter `a` once its gate is open, and only to who asks without a limit. Its waker wakes it. After its turns
/// the input ends.
pub struct Gated<R: Drop> {
    rt: R,
    gate: Arc<Gate>,
    rings: Arc<AtomicBool>,
    // How many wake-ups it still passes over.
    missed: u32,
    turns: u32,
}

impl<R: Wait + Drop> Gated<R> {
    /// A device behind this gate.
    pub fn new(rt: R, alloc: Global, gate: &Arc<Gate>) -> Result<Gated<R>, AllocError> {
        Ok(Gated {
            rt,
            gate: Arc::try_clone(gate)?,
            rings: Arc::new(alloc, AtomicBool::new(false))?,
            missed: 0,
            turns: TURNS,
        })
    }

    /// The same device, which passes over so many wake-ups, as if they came to another who has it. It has half of its turns.
    pub fn missing(mut self, wakes: u32) -> Gated<R> {
        self.missed = wakes;
        self.turns = TURNS / 2;
        self
    }

    // One turn of who asks without a limit.
    fn turn(&mut self, buf: &mut [u8]) -> Answer
        requires { length buf.old ≡ 1024 }
        ensures count { CountWithin result (length buf.new) }
    {
        self.gate.asked_forever.store(true, Ordering::SeqCst);
        nap(&self.rt);
        if self.gate.is_open.swap(false, Ordering::SeqCst) {
            buf[0] = b'a';
            return Answer::Bytes {
                count: 1,
                raw: false,
            };
        }
        if self.turns == 0 {
            self.gate.has_ended.store(true, Ordering::SeqCst);
        }
        rest(&mut self.turns)
    }
}

impl<R: Drop> Drop for Gated<R> {
    fn drop(self) {
        let Gated {
            rt: _,
            gate,
            rings: _,
            missed: _,
            turns: _,
        } = self;
        gate.is_gone.store(true, Ordering::SeqCst);
    }
}

impl<R: Wait + Drop> Device for Gated<R> {
    fn answer(&mut self, buf: &mut [u8], limit: Option<Duration>) -> io::Result<Answer> {
        if self.rings.swap(false, Ordering::SeqCst) {
            if self.missed == 0 {
                return Ok(Answer::Woken);
            }
            self.missed -= 1;
        }
        match limit {
            Some(_) => Ok(Answer::Idle),
            None => Ok(self.turn(buf)),
        }
    }

    fn failures(&self) -> u64 {
        0
    }

    fn waker(&self) -> io::Result<Waker> {
        Ok(Waker::from_flag(Arc::try_clone(&self.rings)?))
    }
}

/// A device that fails once when it is asked without a limit, reports the letter `a` once when it is asked so again, and else is idle. Its
/// waker wakes it. After its turns the input ends.
#[derive(Drop)]
pub struct FailsOnce<R> {
    rt: R,
    rings: Arc<AtomicBool>,
    failures: u64,
    has_answered: bool,
    turns: u32,
}

impl<R: Wait + Drop> FailsOnce<R> {
    /// A device that hasn't failed yet.
    pub fn new(rt: R, alloc: Global) -> Result<FailsOnce<R>, AllocError> {
        Ok(FailsOnce {
            rt,
            rings: Arc::new(alloc, AtomicBool::new(false))?,
            failures: 0,
            has_answered: false,
            turns: TURNS,
        })
    }
}

impl<R: Wait + Drop> Device for FailsOnce<R> {
    ghost failed = { λ device. device.failures };

    fn answer(&mut self, buf: &mut [u8], limit: Option<Duration>) -> io::Result<Answer> {
        if self.rings.swap(false, Ordering::SeqCst) {
            return Ok(Answer::Woken);
        }
        if limit.is_some() {
            return Ok(Answer::Idle);
        }
        nap(&self.rt);
        if self.failures == 0 {
            self.failures = 1;
            return Err(io::Error::from(ErrorKind::InvalidData));
        }
        if !self.has_answered {
            self.has_answered = true;
            buf[0] = b'a';
            return Ok(Answer::Bytes {
                count: 1,
                raw: false,
            });
        }
        Ok(rest(&mut self.turns))
    }

    fn failures(&self) -> u64 {
        self.failures
    }

    fn waker(&self) -> io::Result<Waker> {
        Ok(Waker::from_flag(Arc::try_clone(&self.rings)?))
    }
}
