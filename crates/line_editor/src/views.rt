//! The part of a line that is seen in one row.
ghost use Rattle.std.specs.Prelude.{◌≡◌, ◌<◌, ◌≤◌, ◌+◌, ◌-◌, ℕ, length, slice_index};
ghost use Rattle.std.specs.List.{AllWithin};
ghost use Rattle.std.specs.Str.{chars, IsCharBoundary};
ghost use Rattle.unicode_segmentation.specs.Segments.{chars_before, chars_from};
ghost use Rattle.line_editor.specs.Splits.{split_at};
ghost use Rattle.line_editor.specs.Views.{columns_of, end_seen, last_seen, place_or, start, start_at, start_or};
ghost use Rattle.line_editor.specs.inside.Ascii.{IsPrintable};

use crate::places::{char_after, char_before, is_between};
use unicode_width::UnicodeWidthChar;

/// The columns that a character takes.
pub(crate) fn columns_of(c: char) -> usize
    ensures value { result ≡ columns_of c }
    ensures few { result ≤ 3 }
{
    if matches!(c, ' '..='~') {
        return 1;
    }
    match c.width() {
        None => 0,
        Some(width) => width,
    }
}

/// A start, or another one if it isn't between clusters.
fn start_or(text: &str, start: (usize, usize), best: (usize, usize)) -> (usize, usize)
    requires start { IsCharBoundary text.now start.0 }
    requires best { IsCharBoundary text.now best.0 }
    ensures boundary { IsCharBoundary text.now result.0 }
    ensures value { start_at text.now result ≡ start_or (start_at text.now start) (start_at text.now best) }
    ensures back { (at : ℕ) → start.0 ≤ at → best.0 ≤ at → result.0 ≤ at }
    ensures few { (n : ℕ) → start.1 ≤ n → best.1 ≤ n → result.1 ≤ n }
{
    if is_between(text, start.0) {
        start
    } else {
        best
    }
}

/// How many printable characters of ASCII are right before a place. No more than `most` are counted.
fn ascii_behind(text: &str, at: usize, most: usize) -> usize
    requires { at ≤ length text.now }
    ensures back { result ≤ at }
    ensures few { result ≤ most }
    ensures printable { AllWithin IsPrintable text.now (at - result) at }
    ensures all { result < at → result < most → IsPrintable (slice_index text.now (at - result - 1)) → ⊥ }
{
    let bytes = text.as_bytes();
    let mut count = 0;
    while count < at && count < most {
        let byte = bytes[at - count - 1];
        if byte < b' ' || byte > b'~' {
            return count;
        }
        count += 1;
    }
    count
}

/// The byte offset at which what is seen starts, and the columns from there to the cursor.
pub(crate) fn start_seen(text: &str, at: usize, room: u16) -> (usize, usize)
    requires { IsCharBoundary text.now at }
    ensures boundary { IsCharBoundary text.now result.0 }
    ensures back { result.0 ≤ at }
    ensures value { start_at text.now result ≡ start room (split_at text.now at) }
    ensures few { result.1 ≤ 65535 }
{
    let most = usize::from(room.saturating_sub(1));
    let mut place = at;
    let mut used = 0usize;
    let mut best = (at, 0usize);
    while place > 0 {
        let near = ascii_behind(text, place, most - used);
        if near > 1 {
            place -= near;
            used += near;
            // Each place between two of these characters is between clusters.
            best = start_or(text, (place, used), (place + 1, used - 1));
        } else {
            let (begin, c) = char_before(text, place);
            let more = used + columns_of(c);
            if more > most {
                return best;
            }
            best = start_or(text, (begin, more), best);
            place = begin;
            used = more;
        }
    }
    best
}

/// A place, or another one if it isn't between clusters.
fn place_or(text: &str, place: usize, best: usize) -> usize
    requires place { IsCharBoundary text.now place }
    requires best { IsCharBoundary text.now best }
    ensures boundary { IsCharBoundary text.now result }
    ensures value { split_at text.now result ≡ place_or (split_at text.now place) (split_at text.now best) }
    ensures on { (at : ℕ) → at ≤ place → at ≤ best → at ≤ result }
{
    if is_between(text, place) { place } else { best }
}

/// How many printable characters of ASCII are right behind a place. No more than `most` are counted.
fn ascii_ahead(text: &str, at: usize, most: usize) -> usize
    requires { at ≤ length text.now }
    ensures on { at + result ≤ length text.now }
    ensures few { result ≤ most }
    ensures printable { AllWithin IsPrintable text.now at (at + result) }
    ensures all { at + result < length text.now → result < most → IsPrintable (slice_index text.now (at + result)) → ⊥ }
{
    let bytes = text.as_bytes();
    let mut count = 0;
    while count < bytes.len() - at && count < most {
        let byte = bytes[at + count];
        if byte < b' ' || byte > b'~' {
            return count;
        }
        count += 1;
    }
    count
}

/// The byte offset at which what is seen ends, if so many columns are before the cursor.
pub(crate) fn end_seen(text: &str, at: usize, column: usize, room: u16) -> usize
    requires boundary { IsCharBoundary text.now at }
    requires column { column ≤ 65535 }
    ensures boundary { IsCharBoundary text.now result }
    ensures on { at ≤ result }
    ensures value { split_at text.now result ≡ end_seen room column (split_at text.now at) }
{
    let most = usize::from(room);
    let mut place = at;
    let mut used = column;
    let mut best = at;
    while place < text.len() {
        let near = ascii_ahead(text, place, most.saturating_sub(used));
        if near > 1 {
            place += near;
            used += near;
            // Each place between two of these characters is between clusters.
            best = place_or(text, place, place - 1);
        } else {
            let (c, end) = char_after(text, place);
            let more = used + columns_of(c);
            if more > most {
                return best;
            }
            best = place_or(text, end, best);
            place = end;
            used = more;
        }
    }
    best
}
