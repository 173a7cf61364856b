//! The parser's calls.
ghost use Rattle.std.specs.Prelude.{◌≡◌, ◌≢◌, ◌⊎◌, ◌↔◌, ◌≤◌, ◌<◌, List, length, take, IsTrue, []};
ghost use Rattle.crossterm_parse.specs.States.{StateRepresents, is_paste};
ghost use Rattle.crossterm_parse.specs.Marked.{bytes_of, marked};
ghost use Rattle.crossterm_parse.specs.declared.marked.Marked.{Marked};
ghost use Rattle.crossterm_c.specs.Feeding.{Feeds};
ghost use Rattle.crossterm_c.specs.State.{state_at};
ghost use Rattle.crossterm_c.specs.Text.{WritesLossy};

use crate::feed::{feed, is_lone_letter};
use crate::state::{GelvanhState, flatten, state_of};
use crate::table::Table;
use crate::text::write_text;
use crossterm_parse::meaning::ascii_key;
use crossterm_parse::state::State;
use numbers::{GelvanhEvent, of_key};
use std::marker::Brand;
use std::sync::ledger::Blank;

/// Takes bytes of a terminal, and returns how many. `count` is how many events they gave, which are in front of `events`.
///
/// It stops when all are taken, before the first event that has no place in the table, and after the byte with which a paste opens or is
/// over; then the others are handed in again. So if a paste was open before the call, all bytes taken are of it: the caller keeps them, and if the paste is over,
/// its event is the only one, and its text that of the bytes kept but the last six (`gelvanh_paste_text`).
///
/// What is behind these events is the call's to use, and so are the numbers of `state` that its kind doesn't use.
///
/// `more` says that bytes of the same answer of the terminal follow at once, so that ESC at the end is no Esc key yet. `raw` is the mode
/// that the bytes came in: there a line feed is Ctrl-J, and Enter otherwise.
#[unsafe(no_mangle)]
pub extern "C" fn gelvanh_feed(
    state: &mut GelvanhState,
    piece: &[u8],
    more: bool,
    raw: bool,
    events: &mut [GelvanhEvent],
    count: &mut usize,
) -> usize
    ensures taken { result ≤ length piece.now }
    ensures count { count.new ≤ length events.old }
    // The events are the meanings of the parts of the only division, and the numbers represent the rest.
    ensures feeds { Feeds (state_at state.old) (state_at state.new) (take count.new events.new) (take result piece.now) (take result (marked piece.now more raw)) }
    ensures all { (result ≡ length piece.now) ⊎ (count.new ≡ length events.old) ⊎ (is_paste (state_at state.new) ≢ is_paste (state_at state.old)) }
    // With room for an event, some of the bytes are taken.
    ensures some { 0 < length events.old → 0 < length piece.now → 0 < result }
{
    if !events.is_empty() && is_lone_letter(state, piece) {
        events[0] = of_key(ascii_key(piece[0]));
        *count = 1;
        return 1;
    }
    let mut open = state_of(state);
    let mut table = Table {
        is_held: false,
        events,
        held: &mut [],
        end: 0,
        number: 0,
    };
    let taken = feed::<Brand>(&mut open, piece, more, raw, &mut table, Blank::new(1));
    let Table {
        is_held: _,
        events,
        held: _,
        end,
        number: _,
    } = table;
    let _ = &*events;
    *state = flatten(&open);
    *count = end;
    taken
}

/// Whether bytes were taken that are no whole sequence yet.
#[unsafe(no_mangle)]
pub extern "C" fn gelvanh_is_undecided(state: &GelvanhState) -> bool
    ensures { (before : List Marked) → StateRepresents (state_at state.now) (bytes_of before) → (IsTrue result ↔ (before ≢ [])) }
{
    !matches!(state_of(state), State::Ground)
}

/// Whether a paste is open, whose bytes the caller keeps.
#[unsafe(no_mangle)]
pub extern "C" fn gelvanh_is_pasting(state: &GelvanhState) -> bool
    ensures { result ≡ is_paste (state_at state.now) }
{
    state.kind == 10
}

/// Writes the text of a paste's bytes, with U+FFFD for each maximal part that isn't UTF-8, as far as the next character has room.
///
/// It returns how many bytes were read: if they aren't all, the text of the others is still missing. `written` is how many bytes of the
/// slice were written. What is behind them is the call's to use.
#[unsafe(no_mangle)]
pub extern "C" fn gelvanh_paste_text(bytes: &[u8], text: &mut [u8], written: &mut usize) -> usize
    ensures { WritesLossy bytes.now text.new written.new result }
{
    write_text(bytes, text, written)
}
