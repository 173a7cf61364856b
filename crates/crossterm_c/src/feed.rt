//! Bytes to events.
ghost use Rattle.std.specs.Prelude.{◌≡◌, ◌≢◌, ◌⊎◌, ◌≤◌, ◌<◌, ◌+◌, not, true, false, Bool, ℕ, List, ◌++◌, length, take, get_or, IsTrue};
ghost use Rattle.crossterm_types.specs.Seen.{Seen};
ghost use Rattle.crossterm_parse.specs.Bytes.{IsLetter};
ghost use Rattle.crossterm_parse.specs.States.{is_paste};
ghost use Rattle.crossterm_parse.specs.Putting.{PutsAll};
ghost use Rattle.crossterm_parse.specs.Marked.{marked};
ghost use Rattle.crossterm_c.specs.Feeding.{Pastes, view_of};
ghost use Rattle.crossterm_c.specs.State.{state_at};
ghost use Rattle.crossterm_c.specs.inside.Table.{FillsBy, table_capacity};

use crate::state::GelvanhState;
use crate::table::Table;
use crossterm_parse::paste::{Met, before_escape};
use crossterm_parse::state::State;
use crossterm_parse::steps::Steps;
use numbers::paste_end;
use std::sync::ledger::{Blank, Ledger};

/// Whether a letter comes alone, and no sequence is open: it is a key by itself.
#[inline(always)]
pub(crate) fn is_lone_letter(state: &GelvanhState, piece: &[u8]) -> bool
    ensures { IsTrue result → (state_at state.now ≡ State.Ground) × (length piece.now ≡ 1) × IsLetter (get_or piece.now 0 0) }
{
    state.kind == 0 && (piece.len() == 1 && matches!(piece[0], 32..=126))
}

/// Takes bytes outside of a paste: all, those up to the start of a paste, or those before the first event for which the table has no room.
/// It returns how many.
fn feed_sequences<L: Ledger>(
    state: &mut State,
    piece: &[u8],
    more: bool,
    raw: bool,
    table: &mut Table<'_>,
    steps: &mut Steps<L>,
) -> usize
    requires outside { is_paste state.old ≡ false }
    requires within { table.old.end ≤ table_capacity table.old }
    ensures taken { result ≤ length piece.now }
    ensures fills { (bytes : List ℕ) → FillsBy state.old state.new table.old table.new bytes (take result (marked piece.now more raw)) }
    ensures all { (result ≡ length piece.now) ⊎ (table.new.end ≡ table_capacity table.new) ⊎ (is_paste state.new ≡ true) }
    ensures few { table.new.end ≤ table.old.end + result }
    ensures some { table.old.end < table_capacity table.old → 0 < length piece.now → 0 < result }
{
    state.take(piece, more, raw, table, steps)
}

/// Takes the bytes of an open paste before the next ESC, if none of its end is met, and returns how many.
#[inline(always)]
fn skip_text<L: Ledger>(state: &State, bytes: &[u8], steps: &mut Steps<L>) -> usize
    requires { is_paste state.now ≡ true }
    ensures within { result ≤ length bytes.now }
    ensures puts { (kept : List ℕ) (waiting : List Seen) → PutsAll (view_of state.now kept waiting) (view_of state.now (kept ++ take result bytes.now) waiting) (take result bytes.now) }
{
    match state {
        State::Paste(Met::Nothing) => {
            let count = before_escape(bytes);
            steps.count(count as u64);
            count
        }
        _ => 0,
    }
}

/// Takes the bytes of an open paste: all, or those up to its end. It returns how many, and whether the paste is over.
fn feed_paste<L: Ledger>(state: &mut State, piece: &[u8], steps: &mut Steps<L>) -> (usize, bool)
    requires { is_paste state.old ≡ true }
    ensures taken { result.0 ≤ length piece.now }
    ensures pastes { (more raw : Bool) → Pastes state.old state.new (take result.0 piece.now) result.1 (take result.0 (marked piece.now more raw)) }
    ensures all { (result.0 ≡ length piece.now) ⊎ (result.1 ≡ true) }
    ensures some { 0 < length piece.now → 0 < result.0 }
    ensures ends { IsTrue result.1 → 0 < result.0 }
    ensures pasting { is_paste state.new ≡ not result.1 }
{
    let mut place = 0;
    while place < piece.len() {
        place += skip_text(state, &piece[place..], steps);
        if place == piece.len() {
            return (place, false);
        }
        if !state.put_in_paste(piece[place], steps) {
            state.end();
            return (place + 1, true);
        }
        place += 1;
    }
    (place, false)
}

/// Takes bytes, and puts their events into a table, behind the places that are filled. It returns how many. Steps are counted in a new ledger,
/// which costs nothing.
pub(crate) fn feed<L: Ledger>(
    state: &mut State,
    piece: &[u8],
    more: bool,
    raw: bool,
    table: &mut Table<'_>,
    blank: Blank,
) -> usize
    requires name { blank.name ≡ L.name }
    requires parts { (blank.parts ≡ L.parts) × (0 < L.parts) }
    requires within { table.old.end ≤ table_capacity table.old }
    ensures taken { result ≤ length piece.now }
    ensures fills { FillsBy state.old state.new table.old table.new (take result piece.now) (take result (marked piece.now more raw)) }
    ensures all { (result ≡ length piece.now) ⊎ (table.new.end ≡ table_capacity table.new) ⊎ (is_paste state.new ≢ is_paste state.old) }
    ensures few { table.new.end ≤ table.old.end + result }
    ensures some { table.old.end < table_capacity table.old → 0 < length piece.now → 0 < result }
{
    let mut steps: Steps<L> = Steps::new(blank);
    if !state.is_paste() {
        return feed_sequences(state, piece, more, raw, table, &mut steps);
    }
    if table.is_full() {
        return 0;
    }
    let (taken, over) = feed_paste(state, piece, &mut steps);
    if over {
        table.push(paste_end());
    }
    taken
}
