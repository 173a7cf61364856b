//! The length of an open paste, while another thread has the reader.

use crate::shared::waits::Sleeper;
use crossterm_read::source::DeviceSource;
use crossterm_types::event::filter::AnyFilter;
use std::alloc::Global;
use std::sync::Wait;
use std::sync::atomic::AtomicBool;
use std::thread::Threads;
use std::{io, thread};
use test_support::{Seat, TURNS, expect, is_raised_within, reader_of, two};

type Source<'a, R> = DeviceSource<Sleeper<'a, R>>;

/// What a look comes to once the device was asked.
fn looks<R: Wait>(rt: &R, asked: &AtomicBool, seat: Seat<Source<'_, R>>) -> Option<usize> {
    let Seat { shared, mut pass } = seat;
    let _ = is_raised_within(rt, asked, TURNS);
    shared.paste_len(rt, &mut pass)
}

/// Whether a poll without a limit is woken.
fn is_woken<R: Wait>(rt: &R, mut seat: Seat<Source<'_, R>>) -> bool {
    matches!(seat.poll(rt, None, AnyFilter::Event), Ok(false))
}

/// Whether a look waits for nobody, and returns nothing then.
fn waits_for_nobody<R: Wait + Threads + Sync>(rt: &R, alloc: Global) -> io::Result<bool> {
    let asked = AtomicBool::new(false);
    let (one, other) = two(rt, alloc, reader_of(alloc, Sleeper::new(rt, &asked)))?;
    let (woken, looked) = thread::join(rt, move || is_woken(rt, one), || looks(rt, &asked, other));
    Ok(woken && looked.is_none())
}

#[test]
fn an_open_paste_has_no_length_while_another_has_the_reader(rt: HostRuntime) -> io::Result<()> {
    expect!(rt; waits_for_nobody(&rt, rt.alloc())?);
    Ok(())
}
