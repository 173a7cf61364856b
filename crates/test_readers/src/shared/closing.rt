//! The last share gives the reader back.

use crossterm_read::source::{DeviceSource, Script};
use crossterm_types::event::InternalEvent;
use crossterm_types::event::filter::{AnyFilter, EventFilter};
use std::io;
use std::sync::Wait;
use std::time::Duration;
use test_support::{Reader, Seat, alone, expect, letter_of, over_bytes, two};

type Source = DeviceSource<Script>;

/// The letter of an event, and `?` for a reply.
fn own_letter(event: &InternalEvent) -> char {
    match event {
        InternalEvent::Event(event) => letter_of(event),
        _ => '?',
    }
}

/// Whether the letters `ab` are held, in this order.
fn holds_two(reader: &Reader<Script>) -> bool {
    let mut held = reader.held();
    let first = held.next().map(own_letter);
    let second = held.next().map(own_letter);
    first == Some('a') && second == Some('b') && held.next().is_none()
}

/// Whether the next letter is this one.
fn reads<R: Wait>(rt: &R, reader: &mut Reader<Script>, want: char) -> bool {
    matches!(reader.read(rt, &EventFilter), Ok(event) if own_letter(&event) == want)
}

/// Whether the reader holds two letters, and goes on from the end of the last call.
fn goes_on<R: Wait>(rt: &R, closed: Option<Reader<Script>>) -> bool {
    match closed {
        Some(mut reader) => {
            let holds = holds_two(&reader);
            holds
                && reads(rt, &mut reader, 'a')
                && reads(rt, &mut reader, 'b')
                && reads(rt, &mut reader, 'c')
        }
        None => false,
    }
}

/// Whether a poll with limit zero returns this.
fn polls<R: Wait>(rt: &R, seat: &mut Seat<Source>, filter: AnyFilter, want: bool) -> bool {
    matches!(seat.poll(rt, Some(Duration::ZERO), filter), Ok(ready) if ready == want)
}

/// Whether a reader is closed by the last of two shares alone, with what polls held.
fn is_closed_last<R: Wait>(rt: &R, mut one: Seat<Source>, other: Seat<Source>) -> bool {
    // The first poll holds `a`. The second asks once, since no event of its kind is held, and so holds `b`.
    let first = polls(rt, &mut one, AnyFilter::Event, true);
    let second = polls(rt, &mut one, AnyFilter::Cursor, false);
    let shares = one.close(rt).is_none();
    first && second && shares && goes_on(rt, other.close(rt))
}

#[test]
fn the_last_share_gives_what_was_left(rt: HostRuntime) -> io::Result<()> {
    let (one, other) = two(&rt, rt.alloc(), over_bytes(rt.alloc(), b"abc")?)?;
    expect!(rt; is_closed_last(&rt, one, other));
    Ok(())
}

/// Whether a share that was dropped counts no more.
fn is_closed_alone<R: Wait>(rt: &R, mut seat: Seat<Source>) -> bool {
    let is_dropped = seat.shared.share().is_ok();
    is_dropped && seat.letter(rt) == Some('a') && seat.close(rt).is_some()
}

#[test]
fn a_share_that_is_dropped_is_none(rt: HostRuntime) -> io::Result<()> {
    let seat = alone(&rt, rt.alloc(), over_bytes(rt.alloc(), b"abc")?)?;
    expect!(rt; is_closed_alone(&rt, seat));
    Ok(())
}
