//! Scripts from tables.

use crossterm_read::read::Held;
use crossterm_read::source::{Act, DeviceSource, Script};
use std::alloc::{AllocError, Allocator, Global};
use std::io;

/// An act of a script.
pub enum Part {
    /// A text so many times, and whether it comes in raw mode.
    Text(&'static [u8], u32, bool),
    Resize(u16, u16),
    Woken,
    Idle,
    Fault(io::ErrorKind),
}

fn piece(alloc: Global, text: &[u8], times: u32, raw: bool) -> Result<Act, AllocError> {
    let mut bytes = Vec::new(alloc);
    for _ in 0..times {
        bytes.extend_from_slice(text)?;
    }
    Ok(Act::Piece { bytes, raw })
}

fn act_of(alloc: Global, part: &Part) -> Result<Act, AllocError> {
    match part {
        Part::Text(text, times, raw) => piece(alloc, text, *times, *raw),
        Part::Resize(columns, rows) => Ok(Act::Resize(*columns, *rows)),
        Part::Woken => Ok(Act::Woken),
        Part::Idle => Ok(Act::Idle),
        Part::Fault(kind) => Ok(Act::Fault(*kind)),
    }
}

/// The acts of these parts.
pub fn acts_of(alloc: Global, parts: &[Part]) -> Result<Vec<Act>, AllocError> {
    let mut acts = Vec::new(alloc);
    for part in parts {
        acts.push(act_of(alloc, part)?)?;
    }
    Ok(acts)
}

/// A script of these parts.
pub fn script_of(alloc: Global, parts: &[Part]) -> Result<Script, AllocError> {
    Ok(Script::new(acts_of(alloc, parts)?))
}

/// A source over a script of these parts.
pub fn source_of(alloc: Global, parts: &[Part]) -> Result<DeviceSource<Script>, AllocError> {
    Ok(DeviceSource::new(alloc, script_of(alloc, parts)?))
}

/// How many events are held.
pub fn count_of<A: Allocator>(held: Held<'_, A>) -> usize {
    let mut count = 0usize;
    for _ in held {
        count = count.saturating_add(1);
    }
    count
}
