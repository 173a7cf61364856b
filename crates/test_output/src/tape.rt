//! A writer that takes little, is interrupted or fails.

use std::alloc::Global;
use std::io::{self, ErrorKind, Write};

/// Takes some bytes and stops once, is interrupted before it takes bytes, and counts its flushes.
#[derive(Drop)]
pub struct Tape {
    pub bytes: Vec<u8>,
    /// How many bytes it takes a call.
    pub step: usize,
    /// How many bytes it takes before it stops.
    pub room: usize,
    /// The error that it stops with; with none it takes 0 bytes.
    pub stop: Option<ErrorKind>,
    /// How often it is interrupted before it takes bytes.
    pub interrupts: u32,
    /// How many of these are still to come.
    pub left: u32,
    /// How often it was flushed since it last took bytes.
    pub flushes: u32,
    /// Whether a flush fails.
    pub is_stuck: bool,
}

impl Tape {
    /// One that takes so many bytes a call and in all, stops so, and is interrupted so often before it takes bytes.
    pub fn with(
        alloc: Global,
        step: usize,
        room: usize,
        stop: Option<ErrorKind>,
        interrupts: u32,
    ) -> Tape {
        Tape {
            bytes: Vec::new(alloc),
            step,
            room,
            stop,
            interrupts,
            left: interrupts,
            flushes: 0,
            is_stuck: false,
        }
    }

    /// One that takes all bytes of a test.
    pub fn new(alloc: Global) -> Tape {
        Tape::failing_at(alloc, usize::MAX)
    }

    /// One that fails once, after so many bytes.
    pub fn failing_at(alloc: Global, room: usize) -> Tape {
        Tape::with(alloc, usize::MAX, room, Some(ErrorKind::BrokenPipe), 0)
    }

    /// One that takes so many bytes a call.
    pub fn narrow(alloc: Global, step: usize) -> Tape {
        Tape::with(alloc, step, usize::MAX, None, 0)
    }

    /// One that is interrupted so often before it takes bytes.
    pub fn interrupted(alloc: Global, interrupts: u32) -> Tape {
        Tape::with(alloc, usize::MAX, usize::MAX, None, interrupts)
    }

    /// Whether it holds these bytes, and was flushed so often after them.
    pub fn holds(&self, bytes: &[u8], flushes: u32) -> bool {
        self.bytes.as_slice() == bytes && self.flushes == flushes
    }
}

impl Write for Tape {
    fn write(&mut self, buf: &[u8]) -> io::Result<usize> {
        if self.left > 0 {
            self.left -= 1;
            return Err(io::Error::from(ErrorKind::Interrupted));
        }
        self.left = self.interrupts;
        if self.room == 0 {
            self.room = usize::MAX;
            return match self.stop {
                Some(kind) => Err(io::Error::from(kind)),
                None => Ok(0),
            };
        }
        let count = buf.len().min(self.step).min(self.room);
        self.flushes = 0;
        self.bytes.extend_from_slice(&buf[..count])?;
        self.room -= count;
        Ok(count)
    }

    fn flush(&mut self) -> io::Result<()> {
        if self.is_stuck {
            return Err(io::Error::from(ErrorKind::BrokenPipe));
        }
        self.flushes = self.flushes.saturating_add(1);
        Ok(())
    }
}
