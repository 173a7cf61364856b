//! A device of letters.

use crossterm::event::source::{Answer, Device, Waker};
use std::io;
use std::time::Duration;

/// Letters without end, `a` to `z` in turn, so many an answer as far as there is room.
#[derive(Drop)]
pub(super) struct Letters {
    next: u8,
    at_once: usize,
}

impl Letters {
    pub(super) fn new(at_once: usize) -> Letters {
        Letters {
            next: b'a',
            at_once,
        }
    }
}

impl Device for Letters {
    fn answer(&mut self, buf: &mut [u8], _limit: Option<Duration>) -> io::Result<Answer> {
        let count = self.at_once.min(buf.len());
        for byte in &mut buf[..count] {
            *byte = self.next;
            self.next = if self.next < b'z' {
                self.next + 1
            } else {
                b'a'
            };
        }
        Ok(Answer::Bytes { count, raw: true })
    }

    fn failures(&self) -> u64 {
        0
    }

    fn waker(&self) -> io::Result<Waker> {
        Ok(Waker::none())
    }
}
