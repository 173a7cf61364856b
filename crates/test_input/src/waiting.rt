//! Polls with a limit of time, reads without one, and queries.

use crate::scripts::{Part, count_of, source_of};
use crossterm_read::read::InternalEventReader;
use crossterm_read::source::{Answer, Device, DeviceSource, EventSource, Script, Waker};
use crossterm_types::event::filter::EventFilter;
use crossterm_types::event::{Event, InternalEvent};
use std::alloc::{AllocError, Global};
use std::io::{self, ErrorKind};
use std::sync::Wait;
use std::time::Duration;
use test_support::{Ticking, expect};

/// Whether a limit is of so many milliseconds, or there is none.
fn is_limit(limit: Option<Duration>, millis: Option<u64>) -> bool {
    match (limit, millis) {
        (Some(limit), Some(millis)) => limit == Duration::from_millis(millis),
        (None, None) => true,
        _ => false,
    }
}

/// A device that is idle while it is asked with the limits that it expects, in milliseconds, fails at another one, and has a new size after the last.
#[derive(Drop)]
struct Expecting {
    limits: &'static [Option<u64>],
    asked: usize,
    failures: u64,
}

impl Expecting {
    fn new(limits: &'static [Option<u64>]) -> Expecting {
        Expecting {
            limits,
            asked: 0,
            failures: 0,
        }
    }
}

impl Device for Expecting {
    ghost failed = { λ s. s.failures };

    fn answer(&mut self, _buf: &mut [u8], limit: Option<Duration>) -> io::Result<Answer> {
        match self.limits.get(self.asked) {
            None => Ok(Answer::Resize(80, 24)),
            Some(expected) if is_limit(limit, *expected) => {
                self.asked += 1;
                Ok(Answer::Idle)
            }
            Some(_) => {
                if self.failures == u64::MAX {
                    return Ok(Answer::Idle);
                }
                self.failures += 1;
                Err(io::Error::from(ErrorKind::InvalidInput))
            }
        }
    }

    fn failures(&self) -> u64 {
        self.failures
    }

    fn waker(&self) -> io::Result<Waker> {
        Ok(Waker::none())
    }
}

type Reader<D> = InternalEventReader<DeviceSource<D>>;

fn reader_of<D: Device>(alloc: Global, device: D) -> Reader<D> {
    InternalEventReader::new(alloc, DeviceSource::new(alloc, device))
}

fn script_of(alloc: Global, parts: &[Part]) -> Result<Reader<Script>, AllocError> {
    Ok(InternalEventReader::new(alloc, source_of(alloc, parts)?))
}

/// Whether a poll within a limit answers so.
fn polls<S: EventSource<Global>, R: Wait>(
    rt: &R,
    reader: &mut InternalEventReader<S>,
    limit: Option<Duration>,
    want: bool,
) -> bool {
    matches!(reader.poll(rt, limit, &mut Ticking::new(), &EventFilter), Ok(ready) if ready == want)
}

static IDLE_AND_LETTER: [Part; 2] = [Part::Idle, Part::Text(b"a", 1, false)];

#[test]
fn no_time_asks_once(rt: HostRuntime) -> Result<(), AllocError> {
    let mut reader = script_of(rt.alloc(), &IDLE_AND_LETTER)?;
    expect!(rt; polls(&rt, &mut reader, Some(Duration::ZERO), false));
    expect!(rt; polls(&rt, &mut reader, Some(Duration::ZERO), true));
    expect!(rt; polls(&rt, &mut reader, Some(Duration::ZERO), true));
    Ok(())
}

/// What is left of 4 ms, if the clock goes on by 1 ms each time that it is looked at.
static LEFT: [Option<u64>; 2] = [Some(3), Some(1)];

static ENDLESS: [Option<u64>; 2] = [None, None];

/// Whether each question has what is left of the limit, and none after it has passed.
fn waits_so_long<R: Wait>(rt: &R, alloc: Global) -> bool {
    let mut reader = reader_of(alloc, Expecting::new(&LEFT));
    polls(rt, &mut reader, Some(Duration::from_millis(4)), false)
}

/// Whether each question is without a limit, to the first event.
fn waits_without_end<R: Wait>(rt: &R, alloc: Global) -> bool {
    let mut reader = reader_of(alloc, Expecting::new(&ENDLESS));
    polls(rt, &mut reader, None, true)
}

fn is_resize(event: io::Result<InternalEvent>) -> bool {
    matches!(event, Ok(InternalEvent::Event(Event::Resize(80, 24))))
}

/// Whether a read goes on to the first event.
fn reads_at_last<R: Wait>(rt: &R, alloc: Global) -> bool {
    let mut reader = reader_of(alloc, Expecting::new(&ENDLESS));
    is_resize(reader.read(rt, &EventFilter))
}

#[test]
fn limits_are_what_is_left(rt: HostRuntime) {
    expect!(rt; waits_so_long(&rt, rt.alloc()));
    expect!(rt; waits_without_end(&rt, rt.alloc()));
    expect!(rt; reads_at_last(&rt, rt.alloc()));
}

static WOKEN: [Part; 3] = [
    Part::Woken,
    Part::Resize(80, 24),
    Part::Fault(ErrorKind::Other),
];

/// Whether a wake-up ends a poll.
fn is_ended<R: Wait>(rt: &R, reader: &mut Reader<Script>) -> bool {
    polls(rt, reader, None, false) && polls(rt, reader, None, true)
}

/// Whether a read goes on after a wake-up and answers a fault.
fn goes_on<R: Wait>(rt: &R, reader: &mut Reader<Script>) -> bool {
    is_resize(reader.read(rt, &EventFilter))
        && matches!(reader.read(rt, &EventFilter), Err(error) if error.kind() == ErrorKind::Other)
}

#[test]
fn wake_ups_end_polls_alone(rt: HostRuntime) -> Result<(), AllocError> {
    expect!(rt; is_ended(&rt, &mut script_of(rt.alloc(), &WOKEN)?));
    expect!(rt; goes_on(&rt, &mut script_of(rt.alloc(), &WOKEN)?));
    Ok(())
}

static LETTER_AND_PLACE: [Part; 1] = [Part::Text(b"a\x1b[20;10R", 1, false)];

/// Whether an answer is this place, or the error that none came.
fn is_place(answer: io::Result<(u16, u16)>, want: Option<(u16, u16)>) -> bool {
    match answer {
        Ok(place) => want == Some(place),
        Err(error) => want.is_none() && error.kind() == ErrorKind::Other,
    }
}

/// Whether the cursor's place is returned within these tries, and the letter alone is held.
fn is_placed(reader: &mut Reader<Script>, tries: u32, want: Option<(u16, u16)>) -> bool {
    is_place(reader.position_within(tries), want) && count_of(reader.held()) == 1
}

#[test]
fn positions_are_reported_within_tries(rt: HostRuntime) -> Result<(), AllocError> {
    let (place, alloc) = (Some((9, 19)), rt.alloc());
    expect!(rt; is_placed(&mut script_of(alloc, &LETTER_AND_PLACE)?, 2, place));
    expect!(rt; is_placed(&mut script_of(alloc, &LETTER_AND_PLACE)?, 1, None));
    Ok(())
}
