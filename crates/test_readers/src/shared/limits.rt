//! Limits by a clock that goes on, while nobody else has the reader.

use crate::parts::Given::{Idle, Text};
use crate::parts::reader_over;
use crossterm_flags::KeyboardEnhancementFlags;
use crossterm_read::source::{Answer, Device, DeviceSource, EventSource, Script, Waker};
use crossterm_types::event::timeout::Clock;
use std::alloc::Global;
use std::io;
use std::sync::Wait;
use std::sync::atomic::{AtomicU32, Ordering};
use std::time::Duration;
use test_support::{Seat, Ticking, alone, expect, letter_in, reader_of};

/// Whether 100 ms have gone, and not many more.
fn has_gone_on(clock: &Ticking) -> bool {
    let last = clock.last();
    last >= Duration::from_millis(100) && last < Duration::from_millis(110)
}

/// Whether a poll ends when the clock has passed its limit, and leaves what comes later.
fn ends_in_time<R: Wait>(rt: &R, seat: Seat<DeviceSource<Script>>) -> bool {
    let Seat { shared, mut pass } = seat;
    let mut clock = Ticking::new();
    let ready = shared.poll(rt, &mut pass, Duration::from_millis(100), &mut clock);
    let ended = matches!(ready, Ok(false)) && has_gone_on(&clock);
    ended && letter_in(shared.read(rt, &mut pass)) == Some('a')
}

#[test]
fn a_limit_passes(rt: HostRuntime) -> io::Result<()> {
    let reader = reader_over(rt.alloc(), &[Idle(200), Text(b"a")])?;
    expect!(rt; ends_in_time(&rt, alone(&rt, rt.alloc(), reader)?));
    Ok(())
}

/// With how many milliseconds a query for the flags asks each time, and what it gets then: the clock goes on by one each time that it is
/// looked at, and the wait for the attributes is as long again.
static QUESTIONS: [(u64, &[u8]); 4] = [(49, b""), (47, b"\x1b[?1u"), (49, b""), (47, b"\x1b[?62c")];

/// A device that counts the questions that have the limits of these. It is idle if it has nothing to report.
#[derive(Drop)]
struct Asked<'a> {
    turn: usize,
    right: &'a AtomicU32,
}

impl Device for Asked<'_> {
    fn answer(&mut self, buf: &mut [u8], limit: Option<Duration>) -> io::Result<Answer> {
        let Some((millis, bytes)) = QUESTIONS.get(self.turn) else {
            return Ok(Answer::Bytes {
                count: 0,
                raw: false,
            });
        };
        self.turn += 1;
        if matches!(limit, Some(limit) if limit == Duration::from_millis(*millis)) {
            self.right.fetch_add(1, Ordering::SeqCst);
        }
        if bytes.is_empty() {
            return Ok(Answer::Idle);
        }
        let count = bytes.len().min(buf.len());
        buf[..count].copy_from_slice(&bytes[..count]);
        Ok(Answer::Bytes { count, raw: false })
    }

    fn failures(&self) -> u64 {
        0
    }

    fn waker(&self) -> io::Result<Waker> {
        Ok(Waker::none())
    }
}

/// Whether these are the flags that have the number 1.
fn is_first(flags: io::Result<Option<KeyboardEnhancementFlags>>) -> bool {
    matches!(flags, Ok(Some(flags)) if flags.bits() == 1)
}

/// Whether a query for the flags gets them, and takes the attributes after them.
fn is_reported<S: EventSource<Global>, R: Wait>(rt: &R, seat: Seat<S>) -> bool {
    let Seat { shared, mut pass } = seat;
    let limit = Duration::from_millis(50);
    let flags = shared.keyboard_by(rt, &mut pass, limit, &mut Ticking::new());
    is_first(flags) && pass.last() == Some(1)
}

/// Whether each wait of a query for the flags asks with what is left of its own limit.
fn asks_twice_as_long<R: Wait>(rt: &R, alloc: Global) -> bool {
    let right = AtomicU32::new(0);
    let device = Asked {
        turn: 0,
        right: &right,
    };
    match alone(rt, alloc, reader_of(alloc, device)) {
        Ok(seat) => is_reported(rt, seat) && right.load(Ordering::SeqCst) == 4,
        Err(_) => false,
    }
}

#[test]
fn attributes_are_awaited_as_long_again(rt: HostRuntime) {
    expect!(rt; asks_twice_as_long(&rt, rt.alloc()));
}
