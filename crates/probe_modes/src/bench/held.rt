//! A reader that holds many replies, while keys come and are taken.

use crate::bench::input::print;
use crate::bench::reading::Reading;
use crate::bench::timing::least;
use crate::fault::Fault;
use crossterm::event::filter::PrimaryDeviceAttributesFilter;
use crossterm::event::source::{RawFlag, ReadDevice};
use std::alloc::Allocator;
use std::io::{self, Read, Write};
use std::rt::Clock;

/// A reply that reports the cursor's place.
const REPLY: &[u8] = b"\x1b[1;1R";

/// So many replies, and letters without end after them.
#[derive(Drop)]
struct Typed {
    replies: u32,
}

impl Read for Typed {
    fn read(&mut self, buf: &mut [u8]) -> io::Result<usize> {
        if self.replies == 0 || buf.len() < REPLY.len() {
            buf.fill(b'k');
            return Ok(buf.len());
        }
        self.replies -= 1;
        buf[..REPLY.len()].copy_from_slice(REPLY);
        Ok(REPLY.len())
    }
}

/// A reader that holds so many replies, behind which keys come.
fn behind<A: Allocator + Clone>(
    alloc: A,
    replies: u32,
) -> Result<Reading<ReadDevice<Typed, A>, A>, Fault> {
    let raw = match RawFlag::new(alloc.clone()?) {
        Ok(raw) => raw,
        Err(_) => return Err(Fault::OutOfMemory),
    };
    let mut reading = Reading::new(alloc, ReadDevice::new(Typed { replies }, raw))?;
    match reading
        .reader
        .poll_within(replies, &PrimaryDeviceAttributesFilter)
    {
        Ok(_) => Ok(reading),
        Err(_) => Err(Fault::OutOfMemory),
    }
}

/// Prints the least time that one key takes behind so many held replies.
pub fn time<C: Clock, A: Allocator + Clone, W: Write>(
    clock: &C,
    alloc: A,
    replies: u32,
    writer: &mut W,
) -> Result<(), Fault> {
    let mut behind = behind(alloc, replies)?;
    let nanos = least(clock, &mut behind, 1)?;
    print(writer, format_args!("ns a key {nanos}"))
}
