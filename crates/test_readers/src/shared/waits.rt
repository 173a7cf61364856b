//! Three threads share a reader: one has it for a second, in a device that sleeps, and two wait for it.

use crossterm_read::read::EventReader;
use crossterm_read::source::{Answer, Device, EventSource, Waker};
use crossterm_types::event::Event;
use crossterm_types::event::filter::AnyFilter;
use crossterm_types::event::timeout::SystemClock;
use std::alloc::Global;
use std::rt::Clock;
use std::sync::Wait;
use std::sync::atomic::{AtomicBool, Ordering};
use std::thread::Threads;
use std::time::Duration;
use std::{io, thread};
use test_support::{Seat, TURNS, expect, is_raised_within, reader_of, sleep};

/// A device that sleeps at the first question, then is woken, and then reports the letter `a` at each.
#[derive(Drop)]
pub struct Sleeper<'a, R> {
    rt: &'a R,
    asked: &'a AtomicBool,
    time: Duration,
    questions: u8,
}

impl<'a, R: Wait> Sleeper<'a, R> {
    /// One that sleeps for a second, and raises the flag before.
    pub fn new(rt: &'a R, asked: &'a AtomicBool) -> Sleeper<'a, R> {
        Sleeper::lasting(rt, asked, Duration::from_secs(1))
    }

    /// One that sleeps for so long.
    fn lasting(rt: &'a R, asked: &'a AtomicBool, time: Duration) -> Sleeper<'a, R> {
        Sleeper {
            rt,
            asked,
            time,
            questions: 0,
        }
    }
}

impl<R: Wait> Device for Sleeper<'_, R> {
    fn answer(&mut self, buf: &mut [u8], _limit: Option<Duration>) -> io::Result<Answer> {
        if self.questions == 0 {
            self.questions = 1;
            self.asked.store(true, Ordering::SeqCst);
            sleep(self.rt, self.time);
            return Ok(Answer::Woken);
        }
        buf[0] = b'a';
        Ok(Answer::Bytes {
            count: 1,
            raw: false,
        })
    }

    fn failures(&self) -> u64 {
        0
    }

    fn waker(&self) -> io::Result<Waker> {
        Ok(Waker::none())
    }
}

/// A seat at a reader, if there was memory.
type Place<S> = io::Result<Seat<S>>;

/// What a poll by a clock that never moves comes to: each of its waits takes the whole limit.
fn polls<S: EventSource<Global>, R: Wait>(
    rt: &R,
    seat: Place<S>,
    limit: Option<Duration>,
) -> &'static str {
    let Ok(mut seat) = seat else {
        return "no seat";
    };
    match seat.poll(rt, limit, AnyFilter::Event) {
        Ok(true) => "true",
        Ok(false) => "false",
        Err(_) => "a fault",
    }
}

/// Waits without a limit, and reads.
fn reads<S: EventSource<Global>, R: Wait>(rt: &R, seat: Place<S>) -> &'static str {
    let Ok(mut seat) = seat else {
        return "no seat";
    };
    match seat.read(rt) {
        Ok(Event::Key(_)) => "a key",
        Ok(_) => "an event",
        Err(_) => "a fault",
    }
}

/// What two threads came to that wait for the reader once the device is asked, one of them for 3 s at most.
fn both_wait<S: EventSource<Global> + Send, R: Wait + Threads + Sync>(
    rt: &R,
    asked: &AtomicBool,
    one: Place<S>,
    other: Place<S>,
) -> (&'static str, &'static str) {
    let _ = is_raised_within(rt, asked, TURNS);
    let limit = Some(Duration::from_secs(3));
    thread::join(rt, move || reads(rt, one), move || polls(rt, other, limit))
}

/// What the thread that has the reader comes to, the one that reads, and the one that polls for 3 s at most.
fn three_share<R: Wait + Threads + Sync>(
    rt: &R,
    alloc: Global,
) -> io::Result<(&'static str, &'static str, &'static str)> {
    let asked = AtomicBool::new(false);
    let reader = reader_of(alloc, Sleeper::new(rt, &asked));
    let (shared, mut passes) = EventReader::new(rt, alloc, reader, 3)?;
    let first = Seat::next(&shared, &mut passes);
    let one = Seat::next(&shared, &mut passes);
    let other = Seat::next(&shared, &mut passes);
    let (held, (read, polled)) = thread::join(
        rt,
        move || polls(rt, first, None),
        || both_wait(rt, &asked, one, other),
    );
    Ok((held, read, polled))
}

#[test]
fn who_waits_for_the_reader_has_its_turn(rt: HostRuntime) -> io::Result<()> {
    let (held, read, polled) = three_share(&rt, rt.alloc())?;
    expect!(rt; held == "false");
    expect!(rt; read == "a key");
    expect!(rt; polled == "true");
    Ok(())
}

/// What a poll by the system's clock comes to, once the device is asked, and a read with the same limit after it.
fn polls_in_time<S: EventSource<Global>, R: Wait + Clock>(
    rt: &R,
    asked: &AtomicBool,
    seat: Place<S>,
    limit: Duration,
) -> &'static str {
    let _ = is_raised_within(rt, asked, TURNS);
    let Ok(Seat { shared, mut pass }) = seat else {
        return "no seat";
    };
    let mut clock = SystemClock::new(rt);
    match shared.poll(rt, &mut pass, limit, &mut clock) {
        Ok(false) => {}
        Ok(true) => return "true",
        Err(_) => return "a fault",
    }
    match shared.read_for(rt, &mut pass, Some(limit), &mut clock) {
        Ok(None) => "nothing",
        Ok(Some(_)) => "an event",
        Err(_) => "a fault",
    }
}

/// What a poll and a read of 100 ms come to while another thread has the reader for three seconds.
fn times_out<R: Wait + Threads + Sync + Clock>(rt: &R, alloc: Global) -> io::Result<&'static str> {
    let asked = AtomicBool::new(false);
    let sleeper = Sleeper::lasting(rt, &asked, Duration::from_secs(3));
    let (shared, mut passes) = EventReader::new(rt, alloc, reader_of(alloc, sleeper), 2)?;
    let first = Seat::next(&shared, &mut passes);
    let one = Seat::next(&shared, &mut passes);
    let limit = Duration::from_millis(100);
    let (_, polled) = thread::join(
        rt,
        move || polls(rt, first, None),
        || polls_in_time(rt, &asked, one, limit),
    );
    Ok(polled)
}

#[test]
fn a_limit_passes_while_another_has_the_reader(rt: HostRuntime) -> io::Result<()> {
    expect!(rt; times_out(&rt, rt.alloc())? == "nothing");
    Ok(())
}
