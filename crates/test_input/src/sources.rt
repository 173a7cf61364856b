//! A script as a device, and what a source makes of it.

use crate::scripts::{Part, acts_of, source_of};
use crossterm_read::source::{Answer, Device, DeviceSource, EventSource, Script, Waker};
use crossterm_types::event::{Event, InternalEvent};
use std::alloc::AllocError;
use std::io::{self, ErrorKind};
use std::time::Duration;
use test_support::expect;

static PARTS: [Part; 5] = [
    Part::Text(b"ab", 1, false),
    Part::Idle,
    Part::Resize(80, 24),
    Part::Woken,
    Part::Fault(ErrorKind::Other),
];

/// The limit of a question, what is given within it, and how often the device has failed then.
type Row = (Option<Duration>, char, u64);

/// What a source over `PARTS` gives, by letters.
static GIVEN: [Row; 7] = [
    (None, 'a', 0),
    (Some(Duration::ZERO), 'b', 0),
    (None, '-', 0),
    (None, 'R', 0),
    (None, 'I', 0),
    (None, 'F', 1),
    (None, 'E', 1),
];

/// A key's own letter, and `R` for the resize to 80 columns and 24 rows.
fn letter_of(event: &InternalEvent) -> char {
    match event {
        InternalEvent::Event(Event::Key(key)) => key.code.as_char().unwrap_or('?'),
        InternalEvent::Event(Event::Resize(80, 24)) => 'R',
        _ => '?',
    }
}

/// `I` for an interrupted call, `F` for the script's fault, and `E` for the end of input.
fn letter_of_fault(kind: ErrorKind) -> char {
    match kind {
        ErrorKind::Interrupted => 'I',
        ErrorKind::Other => 'F',
        ErrorKind::UnexpectedEof => 'E',
        _ => '?',
    }
}

/// What a source gives, by its letter; `-` is nothing.
fn letter(outcome: io::Result<Option<InternalEvent>>) -> char {
    match outcome {
        Ok(Some(event)) => letter_of(&event),
        Ok(None) => '-',
        Err(error) => letter_of_fault(error.kind()),
    }
}

fn goes_on(source: &mut DeviceSource<Script>, row: &Row) -> bool {
    let (limit, given, failures) = *row;
    letter(source.try_read(limit)) == given && source.failures() == failures
}

/// Whether there is a waker, and it wakes.
fn wakes(waker: io::Result<Waker>) -> bool {
    match waker {
        Ok(waker) => waker.wake().is_ok(),
        Err(_) => false,
    }
}

#[test]
fn events_and_faults_come_one_by_one(rt: HostRuntime) -> Result<(), AllocError> {
    let mut source = source_of(rt.alloc(), &PARTS)?;
    for row in &GIVEN {
        expect!(rt; goes_on(&mut source, row));
    }
    expect!(rt; wakes(source.waker()));
    Ok(())
}

static ACTS: [Part; 6] = [
    Part::Text(b"", 1, true),
    Part::Text(b"a", 1500, true),
    Part::Resize(80, 24),
    Part::Woken,
    Part::Idle,
    Part::Fault(ErrorKind::Other),
];

/// What a script of `ACTS` answers until it fails.
static ANSWERS: [Answer; 5] = [
    Answer::Bytes {
        count: 1024,
        raw: true,
    },
    Answer::Bytes {
        count: 476,
        raw: true,
    },
    Answer::Resize(80, 24),
    Answer::Woken,
    Answer::Idle,
];

/// The end of input.
const END: Answer = Answer::Bytes {
    count: 0,
    raw: false,
};

fn is_same(answer: Answer, wanted: Answer) -> bool {
    match (answer, wanted) {
        (
            Answer::Bytes { count, raw },
            Answer::Bytes {
                count: many,
                raw: mode,
            },
        ) => count == many && raw == mode,
        (Answer::Resize(columns, rows), Answer::Resize(wide, high)) => {
            columns == wide && rows == high
        }
        (Answer::Woken, Answer::Woken) => true,
        (Answer::Idle, Answer::Idle) => true,
        _ => false,
    }
}

/// What a script answers, or `None` for a fault.
fn answer(script: &mut Script) -> Option<Answer> {
    let mut buf = [0u8; 1024];
    match script.answer(&mut buf, None) {
        Ok(answer) => Some(answer),
        Err(_) => None,
    }
}

fn answers(script: &mut Script, wanted: Answer) -> bool {
    match answer(script) {
        Some(answer) => is_same(answer, wanted),
        None => false,
    }
}

/// Whether the script fails once, is at its end then, and has a waker.
fn fails_and_ends(script: &mut Script) -> bool {
    let before = script.failures();
    let fails = answer(script).is_none();
    let after = script.failures();
    fails && before == 0 && after == 1 && answers(script, END) && wakes(script.waker())
}

#[test]
fn acts_are_answered_in_order(rt: HostRuntime) -> Result<(), AllocError> {
    let mut script = Script::new(acts_of(rt.alloc(), &ACTS)?);
    for wanted in &ANSWERS {
        expect!(rt; answers(&mut script, *wanted));
    }
    expect!(rt; fails_and_ends(&mut script));
    expect!(rt; wakes(Ok(Waker::none())));
    Ok(())
}
