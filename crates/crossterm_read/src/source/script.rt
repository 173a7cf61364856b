//! A device in memory.
ghost use Rattle.std.specs.Prelude.{◌≡◌, ◌≤◌, drop, take, min, length, IsOkAnd};
ghost use Rattle.crossterm_read.specs.Scripted.{device_answers, device_answers_from, ScriptLeft, script_answering};
ghost use Rattle.crossterm_read.specs.Waking.{IsSure};

use crate::source::{Answer, Device, Waker};
use std::alloc::{Allocator, Global};
use std::io;
use std::marker::Model;
use std::time::Duration;

/// One act of a script.
#[derive(Drop)]
#[derive_where(Debug)]
pub enum Act<A: Allocator = Global> {
    /// Some bytes, and whether they come in raw mode. An empty piece is passed over, and one of more than 1024 bytes comes in
    /// buffers of 1024 and a rest.
    Piece {
        /// The bytes.
        bytes: Vec<u8, A>,
        /// Whether they come in raw mode.
        raw: bool,
    },
    /// A new size: columns and rows.
    Resize(u16, u16),
    /// A wake-up.
    Woken,
    /// Nothing yet.
    Idle,
    /// A failure of this kind.
    Fault(io::ErrorKind),
}

/// A device that reports what it was made of, and then the end of input.
///
/// ```
/// let mut acts = Vec::new(alloc);
/// acts.push(Act::Resize(80, 24))?;
/// acts.push(Act::Piece { bytes: Vec::from_slice(alloc, b"\x1b[A")?, raw: true })?;
/// let source = DeviceSource::new(alloc, Script::new(acts));
/// ```
#[derive(Drop)]
pub struct Script<A: Allocator = Global> {
    acts: Vec<Act<A>, A>,
    // The act that is reported next, and how many of its bytes were reported.
    next: usize,
    at: usize,
    failures: u64,
}

impl<A: Allocator> Model for Script<A> {
    ghost Value = { ScriptLeft };

    ghost view = { λ s. record { left = device_answers_from (drop s.next s.acts.items) s.at; failed = s.failures } };

    ghost invariant = { λ s. s.failures ≤ s.next };
}

impl<A: Allocator> Script<A> {
    /// A device that reports these acts in order.
    pub fn new(acts: Vec<Act<A>, A>) -> Self
        ensures { result ≡ record { left = device_answers acts.items; failed = 0 } }
    {
        Script {
            acts,
            next: 0,
            at: 0,
            failures: 0,
        }
    }
}

// Fills a buffer with the first bytes, and returns how many.
fn fill(bytes: &[u8], buf: &mut [u8]) -> usize
    requires { length buf.now ≡ 1024 }
    ensures count { result ≡ min 1024 (length bytes.now) }
    ensures within { result ≤ length buf.new }
    ensures answered { take result buf.new ≡ take 1024 bytes.now }
{
    let count = bytes.len().min(1024);
    buf[..count].copy_from_slice(&bytes[..count]);
    count
}

impl<A: Allocator> Device for Script<A> {
    ghost answering = { script_answering };

    ghost failed = { λ s. s.failed };

    ghost wakes = { λ _. IsSure };

    fn answer(&mut self, buf: &mut [u8], _limit: Option<Duration>) -> io::Result<Answer> {
        while self.next < self.acts.len() {
            let act = &self.acts[self.next];
            if let Act::Piece { bytes, raw } = act {
                if self.at < bytes.len() {
                    let count = fill(&bytes[self.at..], buf);
                    self.at += count;
                    return Ok(Answer::Bytes { count, raw: *raw });
                }
            }
            self.next += 1;
            self.at = 0;
            match act {
                Act::Piece { .. } => {}
                Act::Resize(columns, rows) => return Ok(Answer::Resize(*columns, *rows)),
                Act::Woken => return Ok(Answer::Woken),
                Act::Idle => return Ok(Answer::Idle),
                Act::Fault(kind) => {
                    self.failures += 1;
                    return Err(io::Error::from(*kind));
                }
            }
        }
        Ok(Answer::Bytes {
            count: 0,
            raw: false,
        })
    }

    fn failures(&self) -> u64 {
        self.failures
    }

    /// A script's waker is there always, and wakes nobody.
    fn waker(&self) -> io::Result<Waker>
        ensures { IsOkAnd result IsSure }
    {
        Ok(Waker::none())
    }
}
