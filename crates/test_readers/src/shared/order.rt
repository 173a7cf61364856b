//! Each event comes to one pass, in the order of arrival.
ghost use Rattle.std.specs.Prelude.{All};
ghost use Rattle.crossterm_read.specs.Shared.{IsPassOf};

use crate::parts::{are_all, one_by_one};
use crossterm_read::read::{EventReader, Pass};
use crossterm_read::source::{DeviceSource, Script};
use std::alloc::{AllocError, Global};
use std::sync::Wait;
use std::thread::Threads;
use std::{io, thread};
use test_support::{Reader, Seat, expect, letter_in};

/// How often the script has the alphabet, and how many letters that are.
const TIMES: u32 = 40;

const LETTERS: u64 = 1040;

/// The letter at a place of the script.
fn letter_at(place: u64) -> u8 {
    match u8::try_from(place % 26) {
        Ok(place) => b'a' + place,
        Err(_) => b'?',
    }
}

/// A script of pieces of one letter each.
fn letters(alloc: Global) -> Result<Reader<Script>, AllocError> {
    one_by_one(alloc, b"abcdefghijklmnopqrstuvwxyz", TIMES)
}

type Source = DeviceSource<Script>;

/// The arrival number of the letter that was read last, and `u64::MAX` if the script has another letter there.
fn number_of(letter: char, last: Option<u64>) -> u64 {
    match last {
        Some(number) if letter == char::from(letter_at(number)) => number,
        _ => u64::MAX,
    }
}

/// Reads to the end of input, and returns the arrival numbers of the letters: none without a seat, and fewer if memory is refused.
fn drain<R: Wait>(rt: &R, alloc: Global, seat: io::Result<Seat<Source>>) -> Vec<u64> {
    let mut taken = Vec::new(alloc);
    let Ok(mut seat) = seat else {
        return taken;
    };
    for _ in rt.forever() {
        let Some(letter) = seat.letter(rt) else {
            break;
        };
        if taken.push(number_of(letter, seat.pass.last())).is_err() {
            break;
        }
    }
    taken
}

/// Two seats at a reader, if there was memory.
type Two = (io::Result<Seat<Source>>, io::Result<Seat<Source>>);

/// Two more shares of a reader, each with a pass.
fn two_of(shared: &EventReader<Source>, passes: &mut Vec<Pass<Source>>) -> Two
    requires { All (IsPassOf shared.now) passes.old.items }
    ensures { All (IsPassOf shared.now) passes.new.items }
{
    let one = Seat::next(shared, passes);
    (one, Seat::next(shared, passes))
}

/// What two threads read.
fn drained<R: Wait + Threads + Sync>(rt: &R, alloc: Global, two: Two) -> (Vec<u64>, Vec<u64>) {
    let (one, other) = two;
    thread::join(
        rt,
        move || drain(rt, alloc, one),
        move || drain(rt, alloc, other),
    )
}

/// Whether four threads take each event once.
fn is_each_once<R: Wait + Threads + Sync>(rt: &R, alloc: Global) -> io::Result<bool> {
    let (shared, mut passes) = EventReader::new(rt, alloc, letters(alloc)?, 4)?;
    let one = two_of(&shared, &mut passes);
    let other = two_of(&shared, &mut passes);
    let ((a, b), (c, d)) = thread::join(
        rt,
        move || drained(rt, alloc, one),
        move || drained(rt, alloc, other),
    );
    Ok(are_all(&[a, b, c, d], LETTERS))
}

#[test]
fn four_passes_take_each_event_once(rt: HostRuntime) -> io::Result<()> {
    expect!(rt; is_each_once(&rt, rt.alloc())?);
    Ok(())
}

/// Whether a pass reads on after it met another that has read.
fn reads_on<R: Wait>(
    rt: &R,
    shared: &EventReader<Source>,
    mut one: Pass<Source>,
    mut other: Pass<Source>,
) -> bool
    requires { IsPassOf shared.now one × IsPassOf shared.now other }
{
    let first = letter_in(shared.read(rt, &mut one)) == Some('a');
    let second = letter_in(shared.read(rt, &mut other)) == Some('b');
    shared.meet(&mut one, other);
    let third = letter_in(shared.read(rt, &mut one)) == Some('c');
    first && second && third && one.last() == Some(2)
}

/// Whether two passes meet.
fn meets<R: Wait>(rt: &R, alloc: Global) -> io::Result<bool> {
    let (shared, mut passes) = EventReader::new(rt, alloc, letters(alloc)?, 2)?;
    match (passes.pop(), passes.pop()) {
        (Some(other), Some(one)) => Ok(reads_on(rt, &shared, one, other)),
        _ => Ok(false),
    }
}

#[test]
fn a_pass_reads_on_after_a_meeting(rt: HostRuntime) -> io::Result<()> {
    expect!(rt; meets(&rt, rt.alloc())?);
    Ok(())
}
