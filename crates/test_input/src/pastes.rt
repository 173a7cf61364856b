//! Pastes that are long or cut, and the calls that count steps.

ghost use Rattle.std.specs.Prelude.{◌≡◌, ◌<◌, ⊤};

use crate::refused::endless;
use crossterm_parse::meaning::Meaning;
use crossterm_parse::outlet::Outlet;
use crossterm_parse::parse::Parser;
use crossterm_parse::paste::PasteText;
use crossterm_parse::state::State;
use crossterm_parse::steps::Steps;
use crossterm_read::read::{Call, Reply, Trace, play};
use crossterm_read::source::Act;
use crossterm_types::event::filter::AnyFilter;
use crossterm_types::event::{Event, InternalEvent};
use std::alloc::{AllocError, Global};
use std::io;
use std::marker::Brand;
use std::sync::ledger::{Blank, Ledger};
use test_support::{expect, is_text, text};

fn is_pasted(event: Option<InternalEvent>, want: &str) -> bool {
    match event {
        Some(InternalEvent::Event(Event::Paste(text))) => text.as_str() == want,
        _ => false,
    }
}

/// Whether a paste is one event if its bytes are cut by these bits, but its first two are together.
fn pastes_hi(alloc: Global, cuts: u32) -> bool {
    let mut parser: Parser<Global> = Parser::new(alloc);
    let mut left = cuts;
    parser.feed(b"\x1b[", left & 1 == 0, false);
    for byte in b"200~hi\x1b[201" {
        left >>= 1;
        parser.feed(&[*byte], left & 1 == 0, false);
    }
    parser.feed(b"~", false, false);
    is_pasted(parser.next(), "hi") && parser.next().is_none()
}

#[test]
fn a_paste_is_one_however_it_is_cut(rt: HostRuntime) {
    let mut holds = true;
    for cuts in 0..4096u32 {
        holds = holds && pastes_hi(rt.alloc(), cuts);
    }
    expect!(rt; holds, "each of 4096 cuttings");
}

/// The beginning of a paste, and a million pieces of one letter.
fn endless_paste(alloc: Global) -> Result<Vec<Act>, AllocError> {
    let mut acts = Vec::new(alloc);
    acts.push(text(alloc, b"\x1b[200~")?)?;
    for _ in 0..1_000_000u32 {
        acts.push(text(alloc, b"x")?)?;
    }
    Ok(acts)
}

/// What one read of a million and one tries gives.
fn trace_of_one_read(alloc: Global) -> io::Result<Trace> {
    let acts = endless_paste(alloc)?;
    let filter = AnyFilter::Event;
    let read = Call::Read {
        tries: 1_000_001,
        filter,
    };
    play(alloc, acts, &[read])
}

fn gives_nothing(trace: &Trace) -> bool {
    matches!(trace.replies.as_slice(), [Reply::Event(None)]) && trace.held.is_empty()
}

#[test]
fn an_endless_paste_gives_nothing_yet(rt: HostRuntime) -> io::Result<()> {
    let trace = trace_of_one_read(rt.alloc())?;
    expect!(rt; gives_nothing(&trace));
    Ok(())
}

/// Whether a paste is this often this letter and nothing else.
fn is_pasted_often(event: Option<InternalEvent>, letter: u8, count: usize) -> bool {
    match event {
        Some(InternalEvent::Event(Event::Paste(text))) => {
            text.len() == count && text.as_bytes().iter().all(|byte| *byte == letter)
        }
        _ => false,
    }
}

/// How many bytes a long paste has: 1 MiB.
const LONG: usize = 1 << 20;

/// Whether so many letters between the two ends of a paste are taken, and are one event.
fn pastes_long(alloc: Global, bytes: &[u8]) -> bool {
    let mut parser: Parser<Global> = Parser::new(alloc);
    let taken = parser.feed(bytes, false, false);
    let is_one = is_pasted_often(parser.next(), b'x', LONG) && parser.next().is_none();
    taken == bytes.len() && is_one
}

#[test]
fn a_long_paste_ends(rt: HostRuntime) -> Result<(), AllocError> {
    let bytes = endless(rt.alloc(), b"\x1b[200~", (b'x', LONG), b"\x1b[201~")?;
    expect!(rt; pastes_long(rt.alloc(), &bytes));
    Ok(())
}

/// An outlet with room for a few events, which counts what it is given.
#[derive(Drop)]
struct Counter {
    room: usize,
    given: usize,
}

impl Outlet for Counter {
    ghost given = { λ _ _ _. ⊤ };

    ghost room = { λ counter. counter.room };

    ghost typed_room = { λ counter. counter.room };

    ghost given_none = { λ _. tt };

    ghost given_on = { λ _ _ _ _ _ _ _. tt };

    fn has_room(&mut self) -> bool {
        self.room > 0
    }

    fn room_now(&self) -> usize {
        self.room
    }

    fn give(&mut self, _meaning: Meaning) {
        self.room -= 1;
        self.given = self.given.saturating_add(1);
    }

    fn typed_room_now(&self) -> usize {
        self.room
    }

    fn give_typed(&mut self, _c: char) -> bool {
        if self.room == 0 {
            return false;
        }
        self.room -= 1;
        self.given = self.given.saturating_add(1);
        true
    }

    fn give_letters(&mut self, letters: &[u8]) {
        self.room -= letters.len();
        self.given = self.given.saturating_add(letters.len());
    }
}

/// A bound that holds of the state of a sequence: it is copied.
fn copied<T: Copy>(value: &T) -> T
    ensures { result ≡ value.now }
{
    *value
}

/// Whether text, a character in UTF-8 and the front of a key are taken at once, and the key's last byte waits until there is room.
fn waits_for_room<L: Ledger>(steps: &mut Steps<L>) -> bool {
    let mut counter = Counter { room: 3, given: 0 };
    let mut state = copied(&State::Ground);
    let piece = b"ab\xc3\xa9\x1b[1;5A";
    let taken = state.take(piece, false, false, &mut counter, steps);
    let waits = taken + 1 == piece.len() && counter.given == 3;
    let means = matches!(state.meaning(b'A', false), Some(Meaning::Key(_)));
    if !waits || !means || state.is_paste() {
        return false;
    }
    counter.room = 1;
    let last = state.take(b"A", false, false, &mut counter, steps);
    last == 1 && counter.given == 4 && matches!(state, State::Ground)
}

/// Whether the start of a paste is taken and nothing behind it, and its end is met.
fn stops_at_a_paste<L: Ledger>(steps: &mut Steps<L>) -> bool {
    let mut counter = Counter { room: 0, given: 0 };
    let mut state = State::Ground;
    let start = b"\x1b[200~a";
    let taken = state.take(start, false, false, &mut counter, steps);
    if taken + 1 != start.len() || !state.is_paste() {
        return false;
    }
    for byte in b"\x1b[201" {
        if !state.is_paste() || !state.put_in_paste(*byte, steps) {
            return false;
        }
    }
    let goes_on = state.is_paste() && state.put_in_paste(b'~', steps);
    state.end();
    !goes_on && !state.is_paste()
}

/// Whether a text is what was put in, without the five bytes of its end.
fn keeps<L: Ledger>(alloc: Global, steps: &mut Steps<L>) -> bool {
    let mut text: PasteText<Global> = PasteText::new(alloc);
    let mut holds = matches!(text.extend(b"a\x1b", steps), Ok(1));
    for byte in b"\x1b[201" {
        holds = holds && text.push(*byte).is_ok();
    }
    let seen = text.look(0, steps) == Some(b'a') && text.look(6, steps).is_none();
    holds && seen && is_text(text.close(steps), "a")
}

/// Whether a letter is taken if the steps are counted.
fn advances<L: Ledger>(alloc: Global, steps: &mut Steps<L>) -> bool {
    let mut parser: Parser<Global> = Parser::new(alloc);
    parser.advance(b"a", false, false, steps) == 1 && parser.next().is_some()
}

/// Each call that counts steps, once.
fn counts<L: Ledger>(alloc: Global, blank: Blank) -> bool
    requires name { blank.name ≡ L.name }
    requires parts { (blank.parts ≡ L.parts) × (0 < L.parts) }
{
    let mut steps: Steps<L> = Steps::new(blank);
    keeps(alloc, &mut steps)
        && waits_for_room(&mut steps)
        && stops_at_a_paste(&mut steps)
        && advances(alloc, &mut steps)
}

fn counts_anew(alloc: Global) -> bool {
    counts::<Brand>(alloc, Blank::new(1))
}

#[test]
fn each_counted_call_once(rt: HostRuntime) {
    expect!(rt; counts_anew(rt.alloc()));
}
