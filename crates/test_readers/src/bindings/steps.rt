//! Steps over a reader that threads share.

use crate::bindings::lists::matcher_of;
use crate::parts::one_by_one;
use crossterm_read::source::{DeviceSource, Script};
use keymap::{Matcher, Outcome};
use std::alloc::Global;
use std::sync::Wait;
use std::thread::Threads;
use std::time::Duration;
use std::{io, thread};
use test_support::{Seat, Still, expect, two};

/// How many letters the script has.
const LETTERS: u32 = 1000;

type Source = DeviceSource<Script>;

/// Steps once, and returns whether that gave the action; `None` is a fault.
fn step_once<R: Wait>(rt: &R, seat: &mut Seat<Source>, matcher: &mut Matcher) -> Option<bool> {
    let limit = Some(Duration::ZERO);
    match matcher.step(rt, &seat.shared, &mut seat.pass, limit, &mut Still) {
        Ok(Some(Outcome::Action(0))) => Some(true),
        Ok(_) => Some(false),
        Err(_) => None,
    }
}

/// Steps to the end of input, and counts the actions.
fn step_all<R: Wait>(rt: &R, mut seat: Seat<Source>, mut matcher: Matcher) -> u32 {
    let mut count: u32 = 0;
    for _ in rt.forever() {
        match step_once(rt, &mut seat, &mut matcher) {
            Some(true) => count = count.saturating_add(1),
            Some(false) => {}
            None => break,
        }
    }
    count
}

/// Reads to the end of input, and counts the letters.
fn read_all<R: Wait>(rt: &R, mut seat: Seat<Source>) -> u32 {
    let mut count: u32 = 0;
    for _ in rt.forever() {
        match seat.letter(rt) {
            Some(_) => count = count.saturating_add(1),
            None => break,
        }
    }
    count
}

/// Whether two threads, of which one steps and the other reads, take each letter once.
fn is_each_once<R: Wait + Threads + Sync>(rt: &R, alloc: Global) -> io::Result<bool> {
    let Some(matcher) = matcher_of(alloc, &["g"]) else {
        return Ok(false);
    };
    let (one, other) = two(rt, alloc, one_by_one(alloc, b"g", LETTERS)?)?;
    let (stepped, read) = thread::join(
        rt,
        move || step_all(rt, one, matcher),
        move || read_all(rt, other),
    );
    Ok(stepped.saturating_add(read) == LETTERS)
}

#[test]
fn a_thread_steps_and_another_reads(rt: HostRuntime) -> io::Result<()> {
    expect!(rt; is_each_once(&rt, rt.alloc())?);
    Ok(())
}
