//! A writer that fails once, and counts what comes after.

use std::alloc::Global;
use std::io::{self, ErrorKind, Write};

/// Takes some bytes, fails at the next write or flush, and takes all that comes after; it counts its calls.
#[derive(Drop)]
pub struct Witness {
    bytes: Vec<u8>,
    /// How many bytes it takes before it fails.
    room: usize,
    /// What it fails with. A write that fails with `WriteZero` takes nothing and answers 0, as a full writer does.
    fault: ErrorKind,
    has_failed: bool,
    /// How often it was called after it failed.
    later: u32,
    /// How often it was flushed in its whole life.
    flushes: u32,
}

impl Witness {
    /// One that fails after so many bytes.
    pub fn new(alloc: Global, room: usize, fault: ErrorKind) -> Witness {
        Witness {
            bytes: Vec::new(alloc),
            room,
            fault,
            has_failed: false,
            later: 0,
            flushes: 0,
        }
    }

    /// Whether it took these bytes.
    pub fn has(&self, bytes: &[u8]) -> bool {
        self.bytes.as_slice() == bytes
    }

    /// Whether it took these bytes, and then those.
    pub fn has_both(&self, bytes: &[u8], then: &[u8]) -> bool {
        match self.bytes.as_slice().strip_prefix(bytes) {
            Some(rest) => rest == then,
            None => false,
        }
    }

    /// Whether it took these bytes, was flushed so often in its whole life, and was called so often after it failed.
    pub fn saw(&self, bytes: &[u8], flushes: u32, later: u32) -> bool {
        self.has(bytes) && self.flushes == flushes && self.later == later
    }

    /// Fails if nothing more is taken, once.
    fn fail_at_end(&mut self) -> io::Result<()> {
        if self.has_failed {
            self.later = self.later.saturating_add(1);
            return Ok(());
        }
        if self.room == 0 {
            self.has_failed = true;
            self.room = usize::MAX;
            return Err(io::Error::from(self.fault));
        }
        Ok(())
    }
}

impl Write for Witness {
    fn write(&mut self, buf: &[u8]) -> io::Result<usize> {
        match self.fail_at_end() {
            Err(error) if error.kind() == ErrorKind::WriteZero => return Ok(0),
            outcome => outcome?,
        }
        let count = buf.len().min(self.room);
        self.bytes.extend_from_slice(&buf[..count])?;
        self.room -= count;
        Ok(count)
    }

    fn flush(&mut self) -> io::Result<()> {
        self.flushes = self.flushes.saturating_add(1);
        self.fail_at_end()
    }
}
