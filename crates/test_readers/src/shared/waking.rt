//! A waker ends a poll, whoever polls.

use crate::shared::bell::{Bell, Signs};
use crossterm_read::read::EventReader;
use crossterm_read::source::{DeviceSource, EventSource};
use crossterm_types::event::filter::AnyFilter;
use std::alloc::Global;
use std::sync::Wait;
use std::thread::Threads;
use std::time::Duration;
use std::{io, thread};
use test_support::{Seat, Still, TURNS, expect, nap, reader_of, two};

/// Whether a waker of the reader wakes.
fn wakes<S: EventSource<Global>>(shared: &EventReader<S>) -> bool {
    match shared.waker() {
        Ok(waker) => waker.wake().is_ok(),
        Err(_) => false,
    }
}

/// Whether a poll with this limit returns this, by a clock that never moves.
fn polls_within<S: EventSource<Global>, R: Wait>(
    rt: &R,
    seat: &mut Seat<S>,
    limit: Duration,
    want: bool,
) -> bool {
    matches!(seat.shared.poll(rt, &mut seat.pass, limit, &mut Still), Ok(ready) if ready == want)
}

/// Whether a poll with limit zero answers so.
fn polls_at_once<S: EventSource<Global>, R: Wait>(rt: &R, seat: &mut Seat<S>, want: bool) -> bool {
    polls_within(rt, seat, Duration::ZERO, want)
}

/// Whether one of the next 10,000 polls with limit zero answers true.
fn polls_at_last<S: EventSource<Global>, R: Wait>(rt: &R, seat: &mut Seat<S>) -> bool {
    for _ in 0..TURNS {
        if polls_at_once(rt, seat, true) {
            return true;
        }
        nap(rt);
    }
    false
}

/// Polls with a limit of a second until a waker ends that, then again and again until a letter is there, and reads it.
fn woken_letter<S: EventSource<Global>, R: Wait>(rt: &R, mut seat: Seat<S>) -> Option<char> {
    let is_woken = polls_within(rt, &mut seat, Duration::from_secs(1), false);
    if is_woken && polls_at_last(rt, &mut seat) {
        return seat.letter(rt);
    }
    None
}

type Source<'a, R> = DeviceSource<Bell<'a, R>>;

/// One thread polls and reads, and another wakes it: the letter that was read, and whether the waker woke.
fn poll_and_wake<'a, R: Wait + Threads + Sync>(
    rt: &R,
    signs: &Signs,
    one: Seat<Source<'a, R>>,
    share: &EventReader<Source<'a, R>>,
) -> (Option<char>, bool) {
    thread::join(
        rt,
        move || woken_letter(rt, one),
        || signs.await_question(rt) && wakes(share),
    )
}

/// Whether the second letter comes to a pass, if the first one came to another, and nothing after it.
fn has_the_second<S: EventSource<Global>, R: Wait>(
    rt: &R,
    mut seat: Seat<S>,
    first: Option<char>,
) -> bool {
    first == Some('a') && seat.letter(rt) == Some('b') && polls_at_once(rt, &mut seat, false)
}

/// Whether a poll is woken from another thread, and each letter comes to one pass, the second one to the other.
fn is_woken<R: Wait + Threads + Sync>(rt: &R, alloc: Global) -> io::Result<bool> {
    let signs = Signs::new();
    let bell = Bell::new(rt, alloc, &signs)?;
    let (one, other) = two(rt, alloc, reader_of(alloc, bell))?;
    let (first, woken) = poll_and_wake(rt, &signs, one, &other.shared);
    Ok(has_the_second(rt, other, first) && woken)
}

#[test]
fn a_poll_is_woken_from_another_thread(rt: HostRuntime) -> io::Result<()> {
    expect!(rt; is_woken(&rt, rt.alloc())?);
    Ok(())
}

/// Whether a poll without a limit answers false.
fn polls_endlessly<S: EventSource<Global>, R: Wait>(rt: &R, mut seat: Seat<S>) -> bool {
    matches!(seat.poll(rt, None, AnyFilter::Event), Ok(false))
}

/// Whether a query with limit zero ends with `Other`.
fn queries_in_vain<S: EventSource<Global>, R: Wait>(rt: &R, seat: &mut Seat<S>) -> bool {
    let place = seat
        .shared
        .position_by(rt, &mut seat.pass, Duration::ZERO, &mut Still);
    matches!(place, Err(error) if error.kind() == io::ErrorKind::Other)
}

/// Whether polls and queries with limit zero are in vain, once the device was asked without a limit, and then a waker wakes.
fn polls_meanwhile<S: EventSource<Global>, R: Wait>(
    rt: &R,
    signs: &Signs,
    mut seat: Seat<S>,
) -> bool {
    let asked = signs.await_endless_question(rt);
    let empty = polls_at_once(rt, &mut seat, false) && queries_in_vain(rt, &mut seat);
    let woken = wakes(&seat.shared);
    asked && empty && woken
}

/// Whether nobody waits for a thread that waits for the device: one polls without a limit until another has polled with limit zero, and
/// woken it.
fn waits_alone<R: Wait + Threads + Sync>(rt: &R, alloc: Global) -> io::Result<bool> {
    let signs = Signs::new();
    let bell = Bell::new(rt, alloc, &signs)?;
    let (one, other) = two(rt, alloc, reader_of(alloc, bell))?;
    let (ended, polled) = thread::join(
        rt,
        move || polls_endlessly(rt, one),
        || polls_meanwhile(rt, &signs, other),
    );
    Ok(ended && polled)
}

#[test]
fn no_time_is_lost_where_another_has_the_reader(rt: HostRuntime) -> io::Result<()> {
    expect!(rt; waits_alone(&rt, rt.alloc())?);
    Ok(())
}
