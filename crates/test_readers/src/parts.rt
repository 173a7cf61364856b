//! What several files share: scripts that a table can hold, and what several took of the same events.

use crossterm_read::source::{Act, Script};
use std::alloc::{AllocError, Global};
use std::io::ErrorKind;
use test_support::{Reader, script_of, text};

/// What a script reports.
#[derive(Clone, Copy)]
pub enum Given {
    /// A text, in one piece.
    Text(&'static [u8]),
    /// Nothing, so many times.
    Idle(u32),
    /// A wake-up.
    Woken,
    /// A fault of kind `Other`.
    Fault,
}

/// Adds a part of a script.
fn add(alloc: Global, acts: &mut Vec<Act>, part: Given) -> Result<(), AllocError> {
    match part {
        Given::Text(bytes) => acts.push(text(alloc, bytes)?)?,
        Given::Idle(times) => {
            for _ in 0..times {
                acts.push(Act::Idle)?;
            }
        }
        Given::Woken => acts.push(Act::Woken)?,
        Given::Fault => acts.push(Act::Fault(ErrorKind::Other))?,
    }
    Ok(())
}

/// The acts of a script.
pub fn acts_of(alloc: Global, script: &[Given]) -> Result<Vec<Act>, AllocError> {
    let mut acts = Vec::new(alloc);
    for part in script {
        add(alloc, &mut acts, *part)?;
    }
    Ok(acts)
}

/// A reader over a script.
pub fn reader_over(alloc: Global, script: &[Given]) -> Result<Reader<Script>, AllocError> {
    Ok(script_of(alloc, acts_of(alloc, script)?))
}

/// A reader over a script of pieces of one letter each: these letters, so many times.
pub fn one_by_one(alloc: Global, letters: &[u8], times: u32) -> Result<Reader<Script>, AllocError> {
    let mut acts = Vec::new(alloc);
    for _ in 0..times {
        for letter in letters {
            acts.push(text(alloc, &[*letter])?)?;
        }
    }
    Ok(script_of(alloc, acts))
}

/// Whether numbers rise.
fn rise(taken: &[u64]) -> bool {
    let mut least = 0u64;
    for number in taken {
        if *number < least {
            return false;
        }
        least = number.saturating_add(1);
    }
    true
}

/// Whether one of these alone has a number.
fn is_taken_once(parts: &[Vec<u64>], number: u64) -> bool {
    let mut takers = 0u32;
    for part in parts {
        if part.contains(&number) {
            takers = takers.saturating_add(1);
        }
    }
    takers == 1
}

/// Whether each took numbers that rise, and all of them together are the numbers below a count.
pub fn are_all(parts: &[Vec<u64>], count: u64) -> bool {
    let mut taken = 0u64;
    for part in parts {
        if !rise(part) {
            return false;
        }
        taken = taken.saturating_add(part.len() as u64);
    }
    for number in 0..count {
        if !is_taken_once(parts, number) {
            return false;
        }
    }
    taken == count
}
