//! A device with a bell.

use crossterm_read::source::{Answer, Device, Waker};
use std::alloc::{AllocError, Global};
use std::io;
use std::sync::atomic::{AtomicBool, Ordering};
use std::sync::{Arc, Wait};
use std::time::Duration;
use test_support::{TURNS, is_raised_within, nap, rest};

/// What a device reports to its test.
#[derive(Drop)]
pub struct Signs {
    asked: AtomicBool,
    asked_forever: AtomicBool,
}

impl Signs {
    /// Nothing was asked yet.
    pub fn new() -> Signs {
        Signs {
            asked: AtomicBool::new(false),
            asked_forever: AtomicBool::new(false),
        }
    }

    // The device is asked.
    fn note(&self, limit: Option<Duration>) {
        if limit.is_none() {
            self.asked_forever.store(true, Ordering::SeqCst);
        }
        self.asked.store(true, Ordering::SeqCst);
    }

    /// Whether the device was asked before the turns were over.
    pub fn await_question<R: Wait>(&self, rt: &R) -> bool {
        is_raised(rt, &self.asked)
    }

    /// Whether the device was asked without a limit before the turns were over.
    pub fn await_endless_question<R: Wait>(&self, rt: &R) -> bool {
        is_raised(rt, &self.asked_forever)
    }
}

/// Whether a flag is raised before the turns are over.
fn is_raised<R: Wait>(rt: &R, flag: &AtomicBool) -> bool {
    is_raised_within(rt, flag, TURNS)
}

/// A device that is idle until its bell rings. Then it is woken, and reports `ab` once. After its turns the input ends.
#[derive(Drop)]
pub struct Bell<'a, R> {
    rt: &'a R,
    signs: &'a Signs,
    rings: Arc<AtomicBool>,
    rung: bool,
    turns: u32,
}

impl<'a, R: Wait> Bell<'a, R> {
    /// A device whose bell hasn't rung yet.
    pub fn new(rt: &'a R, alloc: Global, signs: &'a Signs) -> Result<Bell<'a, R>, AllocError> {
        Ok(Bell {
            rt,
            signs,
            rings: Arc::new(alloc, AtomicBool::new(false))?,
            rung: false,
            turns: TURNS,
        })
    }
}

impl<R: Wait> Device for Bell<'_, R> {
    fn answer(&mut self, buf: &mut [u8], limit: Option<Duration>) -> io::Result<Answer> {
        self.signs.note(limit);
        nap(self.rt);
        if self.rings.swap(false, Ordering::SeqCst) {
            self.rung = true;
            return Ok(Answer::Woken);
        }
        if self.rung {
            self.rung = false;
            buf[0] = b'a';
            buf[1] = b'b';
            return Ok(Answer::Bytes {
                count: 2,
                raw: false,
            });
        }
        Ok(rest(&mut self.turns))
    }

    fn failures(&self) -> u64 {
        0
    }

    fn waker(&self) -> io::Result<Waker> {
        Ok(Waker::from_flag(Arc::try_clone(&self.rings)?))
    }
}
