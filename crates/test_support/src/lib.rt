//! What the crates of tests have in common: `expect!`, readers over devices and scripts, passes for threads, and waits that end.
//!
//! A crate with tests is proved twice, with them and without. So tests are in crates of their own, `test_values` to `test_programs`, and
//! what they share in this one, which has none.
#![tactic(auto)]

ghost use Rattle.std.specs.Prelude.{ℕ};
ghost use Rattle.crossterm_read.specs.Device.{CountWithin};

mod clocks;
mod expects;
mod heaps;
mod seats;

pub use clocks::Ticking;
use crossterm_read::read::InternalEventReader;
use crossterm_read::source::{Act, Answer, Device, DeviceSource, Script};
use crossterm_types::event::Event;
pub use crossterm_types::event::timeout::Still;
pub use expects::is_text;
pub use heaps::{Calls, Came, is_refused_below_a_size};
pub use seats::{Seat, alone, two};
use std::alloc::{AllocError, Global};
use std::io;
use std::sync::atomic::{AtomicBool, Ordering};
use std::sync::{Condvar, Wait};
use std::time::Duration;

/// How many turns a device or a test waits: each takes a millisecond.
pub const TURNS: u32 = 10_000;

/// The reader of one thread over a device.
pub type Reader<D> = InternalEventReader<DeviceSource<D>>;

/// The next of the random numbers, of 16 bits: the same ones follow from the same state.
pub fn random(state: &mut u32) -> u32 {
    *state = state.wrapping_mul(1_664_525).wrapping_add(1_013_904_223);
    *state >> 16
}

/// A pause of this length.
pub fn sleep<R: Wait>(rt: &R, time: Duration) {
    let quiet = Condvar::new();
    quiet.sleep(rt, quiet.notifications(), time);
}

/// A pause of a millisecond.
pub fn nap<R: Wait>(rt: &R) {
    sleep(rt, Duration::from_millis(1));
}

/// Whether a flag is raised within so many turns.
pub fn is_raised_within<R: Wait>(rt: &R, flag: &AtomicBool, turns: u32) -> bool {
    for _ in 0..turns {
        if flag.load(Ordering::SeqCst) {
            return true;
        }
        nap(rt);
    }
    false
}

/// What a device answers that has nothing to report: it is idle for its turns, and then the input ends.
pub fn rest(turns: &mut u32) -> Answer
    ensures { (size : ℕ) → CountWithin result size }
{
    if *turns == 0 {
        return Answer::Bytes {
            count: 0,
            raw: false,
        };
    }
    *turns -= 1;
    Answer::Idle
}

/// A reader over a device that holds nothing yet.
pub fn reader_of<D: Device>(alloc: Global, device: D) -> Reader<D> {
    InternalEventReader::new(alloc, DeviceSource::new(alloc, device))
}

/// An act of a script that reports this text.
pub fn text(alloc: Global, bytes: &[u8]) -> Result<Act, AllocError> {
    Ok(Act::Piece {
        bytes: Vec::from_slice(alloc, bytes)?,
        raw: false,
    })
}

/// A reader over a script.
pub fn script_of(alloc: Global, acts: Vec<Act>) -> Reader<Script> {
    reader_of(alloc, Script::new(acts))
}

/// A reader over a script that reports this text, in one piece.
pub fn over_bytes(alloc: Global, bytes: &[u8]) -> Result<Reader<Script>, AllocError> {
    let mut acts = Vec::new(alloc);
    acts.push(text(alloc, bytes)?)?;
    Ok(script_of(alloc, acts))
}

/// A key's letter, and `?` for all else.
pub fn letter_of(event: &Event) -> char {
    match event {
        Event::Key(key) => key.code.as_char().unwrap_or('?'),
        _ => '?',
    }
}

/// The letter that was read, or `None` for a fault.
pub fn letter_in(read: io::Result<Event>) -> Option<char> {
    match read {
        Ok(event) => Some(letter_of(&event)),
        Err(_) => None,
    }
}
