//! A matcher of many bindings, which is fed key after key.

use crate::bench::input::print;
use crate::bench::timing::{Work, least};
use crate::fault::Fault;
use crossterm::event::{KeyCode, KeyEvent, KeyModifiers};
use keymap::{Keymap, Matcher};
use std::alloc::{AllocError, Allocator};
use std::io::Write;
use std::rt::Clock;

const LETTERS: [char; 26] = [
    'a', 'b', 'c', 'd', 'e', 'f', 'g', 'h', 'i', 'j', 'k', 'l', 'm', 'n', 'o', 'p', 'q', 'r', 's',
    't', 'u', 'v', 'w', 'x', 'y', 'z',
];

/// How far the next list that is typed lies behind the last one.
const STRIDE: u32 = 7919;

/// How many chords a list has, by its number: 3 to 8.
fn length_of(number: u32) -> usize {
    3 + (number % 6) as usize
}

/// The chord of a list at a place: three chords distinguish up to 17,576 lists, and the others are the last of these.
fn chord_of(number: u32, place: usize) -> KeyEvent {
    let rest = match place {
        0 => number,
        1 => number / 26,
        _ => number / 676,
    };
    let letter = LETTERS[(rest % 26) as usize];
    KeyEvent::new(KeyCode::Char(letter), KeyModifiers::CONTROL)
}

/// The chords of a list, in the place of others.
fn spell<A: Allocator>(chords: &mut Vec<KeyEvent, A>, number: u32) -> Result<(), AllocError> {
    chords.clear();
    for place in 0..length_of(number) {
        chords.push(chord_of(number, place))?;
    }
    Ok(())
}

/// A keymap with so many lists.
fn bound<A: Allocator + Clone>(alloc: &A, count: u32) -> Result<Keymap<A>, Fault> {
    let mut keymap = Keymap::new(alloc.clone()?);
    let mut chords = Vec::new(alloc.clone()?);
    for number in 0..count {
        spell(&mut chords, number)?;
        if keymap.bind(&chords, "action").is_err() {
            return Err(Fault::OutOfMemory);
        }
    }
    Ok(keymap)
}

/// A matcher, and the list that is being typed.
#[derive(Drop)]
struct Typed<A: Allocator> {
    matcher: Matcher<A>,
    count: u32,
    number: u32,
    place: usize,
}

impl<A: Allocator> Typed<A> {
    /// Goes to the next key.
    fn go_on(&mut self) {
        self.place = self.place.saturating_add(1);
        if self.place >= length_of(self.number) {
            self.place = 0;
            self.number = self.number.wrapping_add(STRIDE) % self.count.max(1);
        }
    }
}

impl<A: Allocator> Work for Typed<A> {
    /// A key is fed, and what it gives is taken.
    fn run(&mut self) -> Result<(), Fault> {
        if self
            .matcher
            .feed(chord_of(self.number, self.place))
            .is_err()
        {
            return Err(Fault::OutOfMemory);
        }
        for _ in 0..8 {
            if self.matcher.next().is_none() {
                break;
            }
        }
        self.go_on();
        Ok(())
    }
}

/// Prints the least time that a key takes if so many lists are bound, each of which is typed in turn. Up to 17,576 lists are.
pub fn time<C: Clock, A: Allocator + Clone, W: Write>(
    clock: &C,
    alloc: A,
    count: u32,
    writer: &mut W,
) -> Result<(), Fault> {
    let count = count.min(17_576);
    let matcher = Matcher::new(alloc.clone()?, bound(&alloc, count)?);
    let mut typed = Typed {
        matcher,
        count,
        number: 0,
        place: 0,
    };
    let nanos = least(clock, &mut typed, 1)?;
    print(writer, format_args!("ns a key {nanos}"))
}
