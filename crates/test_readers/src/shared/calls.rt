//! What calls of one thread through a shared reader come to: queries, polls, letters, and the length of an open paste.

use crate::parts::Given::{Fault, Idle, Text, Woken};
use crate::parts::{Given, reader_over};
use crossterm_flags::KeyboardEnhancementFlags;
use crossterm_read::source::{DeviceSource, Script};
use crossterm_types::event::Event;
use crossterm_types::event::filter::AnyFilter;
use crossterm_types::event::timeout::Clock;
use std::alloc::Global;
use std::io::{self, ErrorKind};
use std::sync::Wait;
use std::time::Duration;
use test_support::{Seat, Still, Ticking, alone, expect, letter_of};

/// A call.
#[derive(Clone, Copy)]
enum Call {
    /// A query for the cursor's place, with a limit of 50 ms.
    Place,
    /// A query for the flags, with the same limit.
    Flags,
    /// A poll with limit zero.
    Poll,
    /// The next letter.
    Read,
    /// The same, with a limit of 50 ms.
    Within,
    /// How much of a paste is open.
    Open,
}

/// What a call comes to.
#[derive(Clone, Copy, PartialEq)]
enum Came {
    /// A column and a row.
    At(u16, u16),
    /// Flags, by their number.
    Bits(u8),
    /// No flags.
    NoBits,
    /// What a poll returns.
    Ready(bool),
    /// A letter.
    Letter(char),
    /// No event in time.
    Nothing,
    /// A length.
    Length(usize),
    /// Nobody knows the length.
    NoLength,
    /// A fault.
    Failed(ErrorKind),
}

/// What a query for the place comes to.
fn placed(place: io::Result<(u16, u16)>) -> Came {
    match place {
        Ok((column, row)) => Came::At(column, row),
        Err(error) => Came::Failed(error.kind()),
    }
}

/// What a query for the flags comes to.
fn flagged(flags: io::Result<Option<KeyboardEnhancementFlags>>) -> Came {
    match flags {
        Ok(Some(flags)) => Came::Bits(flags.bits()),
        Ok(None) => Came::NoBits,
        Err(error) => Came::Failed(error.kind()),
    }
}

/// What a poll comes to.
fn polled(ready: io::Result<bool>) -> Came {
    match ready {
        Ok(ready) => Came::Ready(ready),
        Err(error) => Came::Failed(error.kind()),
    }
}

/// What a read comes to.
fn read(event: io::Result<Event>) -> Came {
    match event {
        Ok(event) => Came::Letter(letter_of(&event)),
        Err(error) => Came::Failed(error.kind()),
    }
}

/// What a read within a limit comes to.
fn read_in_time(event: io::Result<Option<Event>>) -> Came {
    match event {
        Ok(Some(event)) => Came::Letter(letter_of(&event)),
        Ok(None) => Came::Nothing,
        Err(error) => Came::Failed(error.kind()),
    }
}

type Source = DeviceSource<Script>;

/// What a call comes to, by this clock.
fn answer_to<R: Wait, C: Clock>(
    rt: &R,
    seat: &mut Seat<Source>,
    clock: &mut C,
    call: Call,
) -> Came {
    let limit = Duration::from_millis(50);
    match call {
        Call::Place => placed(seat.shared.position_by(rt, &mut seat.pass, limit, clock)),
        Call::Flags => flagged(seat.shared.keyboard_by(rt, &mut seat.pass, limit, clock)),
        Call::Poll => polled(seat.poll(rt, Some(Duration::ZERO), AnyFilter::Event)),
        Call::Read => read(seat.read(rt)),
        Call::Within => read_in_time(seat.shared.read_for(rt, &mut seat.pass, Some(limit), clock)),
        Call::Open => match seat.shared.paste_len(rt, &mut seat.pass) {
            Some(length) => Came::Length(length),
            None => Came::NoLength,
        },
    }
}

/// What is tested, a script, and calls: what each comes to, and the arrival number of the event that the pass took last.
type Row = (
    &'static str,
    &'static [Given],
    &'static [(Call, Came, Option<u64>)],
);

/// Whether calls come to this, in order.
fn come_to<R: Wait, C: Clock>(
    rt: &R,
    seat: &mut Seat<Source>,
    clock: &mut C,
    calls: &[(Call, Came, Option<u64>)],
) -> bool {
    if seat.pass.last().is_some() {
        return false;
    }
    for (call, want, last) in calls {
        if answer_to(rt, seat, clock, *call) != *want || seat.pass.last() != *last {
            return false;
        }
    }
    true
}

/// Whether the calls of a row come to what it says, by this clock.
fn holds<R: Wait, C: Clock>(rt: &R, alloc: Global, clock: &mut C, row: &Row) -> bool {
    let Ok(reader) = reader_over(alloc, row.1) else {
        return false;
    };
    match alone(rt, alloc, reader) {
        Ok(mut seat) => come_to(rt, &mut seat, clock, row.2),
        Err(_) => false,
    }
}

const REPLIES: Given = Text(b"\x1b[20;10R\x1b[?1u\x1b[?62c");

const OTHER: Came = Came::Failed(ErrorKind::Other);

/// By a clock that never moves, so that no limit passes.
static ROWS: [Row; 12] = [
    (
        "a place is taken past a held letter, which stays",
        &[Text(b"a\x1b[20;10R")],
        &[
            (Call::Place, Came::At(9, 19), Some(1)),
            (Call::Read, Came::Letter('a'), Some(0)),
        ],
    ),
    (
        "flags come with the attributes after them, and attributes alone are no flags",
        &[Text(b"\x1b[?1u\x1b[?62c\x1b[?62c")],
        &[
            (Call::Flags, Came::Bits(1), Some(1)),
            (Call::Flags, Came::NoBits, Some(2)),
        ],
    ),
    (
        "a wake-up ends a query for the place",
        &[Woken, REPLIES],
        &[
            (Call::Place, OTHER, None),
            (Call::Place, Came::At(9, 19), Some(0)),
        ],
    ),
    (
        "a fault ends a query for the place",
        &[Fault, REPLIES],
        &[
            (Call::Place, OTHER, None),
            (Call::Place, Came::At(9, 19), Some(0)),
        ],
    ),
    (
        "a wake-up ends a query for the flags",
        &[Woken, REPLIES],
        &[
            (Call::Flags, OTHER, None),
            (Call::Flags, Came::Bits(1), Some(2)),
        ],
    ),
    (
        "a fault ends a query for the flags",
        &[Fault, REPLIES],
        &[
            (Call::Flags, OTHER, None),
            (Call::Flags, Came::Bits(1), Some(2)),
        ],
    ),
    (
        "a poll with limit zero asks once, and sees what is held",
        &[Idle(1), Text(b"a")],
        &[
            (Call::Poll, Came::Ready(false), None),
            (Call::Poll, Came::Ready(true), None),
            (Call::Poll, Came::Ready(true), None),
        ],
    ),
    (
        "what a poll found is read first, and stays in front of what comes later",
        &[Text(b"ab\x1b[20;10Rc")],
        &[
            (Call::Poll, Came::Ready(true), None),
            (Call::Place, Came::At(9, 19), Some(2)),
            (Call::Poll, Came::Ready(true), Some(2)),
            (Call::Read, Came::Letter('a'), Some(0)),
            (Call::Read, Came::Letter('b'), Some(1)),
            (Call::Poll, Came::Ready(true), Some(1)),
            (Call::Within, Came::Letter('c'), Some(3)),
        ],
    ),
    (
        "a read within a limit takes what comes",
        &[Text(b"a"), Text(b"\x1b[20;10Rb")],
        &[
            (Call::Within, Came::Letter('a'), Some(0)),
            (Call::Within, Came::Letter('b'), Some(2)),
            (Call::Place, Came::At(9, 19), Some(1)),
        ],
    ),
    (
        "a wake-up ends a read within a limit",
        &[Woken, Text(b"a")],
        &[
            (Call::Within, Came::Nothing, None),
            (Call::Within, Came::Letter('a'), Some(0)),
        ],
    ),
    (
        "a fault ends a read within a limit",
        &[Fault, Text(b"a")],
        &[
            (Call::Within, OTHER, None),
            (Call::Within, Came::Letter('a'), Some(0)),
        ],
    ),
    (
        "an open paste has a length, before a piece comes and after each",
        &[
            Text(b"\x1b[200~"),
            Text(b"ab"),
            Text(b"c\x1b[20"),
            Text(b"1~"),
        ],
        &[
            (Call::Open, Came::Length(0), None),
            (Call::Poll, Came::Ready(false), None),
            (Call::Open, Came::Length(0), None),
            (Call::Poll, Came::Ready(false), None),
            (Call::Open, Came::Length(2), None),
            (Call::Poll, Came::Ready(false), None),
            (Call::Open, Came::Length(7), None),
            (Call::Poll, Came::Ready(true), None),
            (Call::Open, Came::Length(0), None),
        ],
    ),
];

#[test]
fn calls_come_to_their_answers(rt: HostRuntime) {
    for row in &ROWS {
        expect!(rt; holds(&rt, rt.alloc(), &mut Still, row), row.0);
    }
}

/// By a clock that goes on by a millisecond each time that it is looked at.
static SLOW: [Row; 3] = [
    (
        "queries end when the clock has passed their limit",
        &[Idle(400)],
        &[(Call::Place, OTHER, None), (Call::Flags, OTHER, None)],
    ),
    (
        "a read within a limit ends when the clock has passed it",
        &[Idle(40), Text(b"a")],
        &[
            (Call::Within, Came::Nothing, None),
            (Call::Within, Came::Letter('a'), Some(0)),
        ],
    ),
    (
        "flags need no attributes, if none follow in time",
        &[Text(b"\x1b[?1u"), Idle(400)],
        &[(Call::Flags, Came::Bits(1), Some(0))],
    ),
];

#[test]
fn limits_end_calls(rt: HostRuntime) {
    for row in &SLOW {
        expect!(rt; holds(&rt, rt.alloc(), &mut Ticking::new(), row), row.0);
    }
}
