//! Two threads share a terminal: one reads its events, the other draws the time each second.
//!
//! `example clock` runs it in a terminal; Esc or Ctrl-C ends it.

use crossterm::event::source::DeviceSource;
use crossterm::event::timeout::{Clock, SystemClock};
use crossterm::event::{Event, KeyCode, KeyEvent, KeyModifiers};
use own_terminal::{Events, Input, Tty};
use std::io::{self, ErrorKind, Write};
use std::sync::{Condvar, CondvarTimeouts, Mutex, Wait};
use std::thread::{self, Threads};
use std::time::{self, Duration};

/// How many events came, and whether it was the last one.
#[derive(Clone, Copy)]
struct Count {
    events: u64,
    is_over: bool,
}

/// What the threads share.
#[derive(Drop)]
struct Board {
    count: Mutex<Count>,
    changed: Condvar,
}

impl Board {
    fn new() -> Board {
        let count = Count {
            events: 0,
            is_over: false,
        };
        Board {
            count: Mutex::new(count),
            changed: Condvar::new(),
        }
    }

    /// One event came.
    fn add(&self, rt: &impl Wait) {
        let mut count = self.count.lock(rt);
        count.events = count.events.saturating_add(1);
    }

    /// Both threads are to end.
    fn end(&self, rt: &impl Wait) {
        let mut count = self.count.lock(rt);
        count.is_over = true;
        drop(count);
        self.changed.notify_all();
    }

    /// What the count is now.
    fn count(&self, rt: &impl Wait) -> Count {
        *self.count.lock(rt)
    }

    /// What the count is after a second, or when it is over.
    fn count_after_a_second<R: Wait + time::Clock>(&self, rt: &R) -> Count {
        let count = self.count.lock(rt);
        let (count, _) = self
            .changed
            .wait_timeout_while(rt, count, Duration::from_secs(1), |count| !count.is_over);
        *count
    }
}

fn is_quit(event: &Event) -> bool {
    *event == Event::Key(KeyCode::Esc.into())
        || *event == Event::Key(KeyEvent::new(KeyCode::Char('c'), KeyModifiers::CONTROL))
}

/// Counts events until the last one, or until the other thread has ended.
fn count_each<R: Wait + time::Clock>(
    rt: &R,
    events: &mut Events<DeviceSource<Input>>,
    board: &Board,
) -> io::Result<()> {
    let mut clock = SystemClock::new(rt);
    for _ in rt.forever() {
        if board.count(rt).is_over {
            break;
        }
        if let Some(event) = events.read_within(rt, Duration::from_secs(1), &mut clock)? {
            board.add(rt);
            if is_quit(&event) {
                break;
            }
        }
    }
    Ok(())
}

/// Draws the time and the count each second, until it is over.
fn draw_each_second<R: Wait + time::Clock>(
    rt: &R,
    tty: &mut Tty<'_, R>,
    board: &Board,
) -> io::Result<()> {
    for _ in rt.forever() {
        let count = board.count_after_a_second(rt);
        if count.is_over {
            break;
        }
        let seconds = tty.clock.now().as_secs();
        write!(tty.out, "\r{seconds} s, {} events; Esc ends", count.events)?;
        tty.out.flush()?;
    }
    Ok(())
}

/// What the one thread does. The other one ends with it.
fn count_events<R: Wait + time::Clock>(
    rt: &R,
    events: &mut Events<DeviceSource<Input>>,
    board: &Board,
) -> io::Result<()> {
    let counted = count_each(rt, events, board);
    board.end(rt);
    counted
}

/// What the other thread does. The first one ends with it.
fn draw_clock<R: Wait + time::Clock>(
    rt: &R,
    tty: &mut Tty<'_, R>,
    board: &Board,
) -> io::Result<()> {
    let drawn = draw_each_second(rt, tty, board);
    board.end(rt);
    drawn
}

/// Draws and counts until Esc, Ctrl-C, or the end of input.
///
/// # Errors
///
/// Those of the terminal and its writer, but for the end of input.
pub fn run<R: Threads + Wait + time::Clock + Sync>(
    rt: &R,
    tty: &mut Tty<'_, R>,
    events: &mut Events<DeviceSource<Input>>,
) -> io::Result<()> {
    tty.enable_raw_mode()?;
    let board = Board::new();
    // The second closure runs in this thread, and the first one after it if no further thread can be had.
    let (drawn, counted) = thread::join(
        rt,
        || draw_clock(rt, tty, &board),
        || count_events(rt, events, &board),
    );
    match counted {
        Err(error) if error.kind() == ErrorKind::UnexpectedEof => drawn,
        counted => counted.and(drawn),
    }
}
