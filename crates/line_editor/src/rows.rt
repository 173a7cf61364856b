//! The rows of a line, between which there are line feeds.
ghost use Rattle.std.specs.Prelude.{◌≡◌, ◌≤◌, MatchOption, None, Some, false, true};
ghost use Rattle.std.specs.Str.{IsCharBoundary};
ghost use Rattle.unicode_segmentation.specs.Segments.{chars_before, chars_from};
ghost use Rattle.line_editor.specs.Rows.{begins_row, columns_back, ends_row, place_in_row, next_row, place_along, row_place};
ghost use Rattle.line_editor.specs.Splits.{ahead, last_stop, split_at};

use crate::places::{Stop, ahead, char_after, char_before};
use crate::views::columns_of;

/// The start of the row of a place.
fn row_start(text: &str, at: usize) -> usize
    requires { IsCharBoundary text.now at }
    ensures boundary { IsCharBoundary text.now result }
    ensures back { result ≤ at }
    ensures start { split_at text.now result ≡ last_stop begins_row (chars_before text.now at) (chars_from text.now at) }
{
    let mut place = at;
    while place > 0 {
        let (start, c) = char_before(text, place);
        if c == '\n' {
            return place;
        }
        place = start;
    }
    place
}

/// The end of the row of a place.
fn row_end(text: &str, at: usize) -> usize
    requires { IsCharBoundary text.now at }
    ensures boundary { IsCharBoundary text.now result }
    ensures on { at ≤ result }
    ensures end { split_at text.now result ≡ ahead ends_row (chars_before text.now at) (chars_from text.now at) }
{
    let mut place = at;
    while place < text.len() {
        let (c, end) = char_after(text, place);
        if c == '\n' {
            return place;
        }
        place = end;
    }
    place
}

/// The columns of its row that are before a place. They may be more than a `usize` holds.
fn columns_back(text: &str, at: usize) -> u128
    requires { IsCharBoundary text.now at }
    ensures { result ≡ columns_back (chars_before text.now at) }
{
    let mut columns = 0u128;
    let mut place = at;
    while place > 0 {
        let (begin, c) = char_before(text, place);
        if c == '\n' {
            return columns;
        }
        columns += columns_of(c) as u128;
        place = begin;
    }
    columns
}

/// The place behind as many characters of a row as have room in so many columns.
fn place_along(text: &str, at: usize, columns: u128) -> usize
    requires { IsCharBoundary text.now at }
    ensures boundary { IsCharBoundary text.now result }
    ensures on { at ≤ result }
    ensures place { split_at text.now result ≡ place_along columns (chars_before text.now at) (chars_from text.now at) }
{
    let mut place = at;
    let mut room = columns;
    while place < text.len() {
        let (c, next) = char_after(text, place);
        let more = columns_of(c) as u128;
        if c == '\n' || room < more {
            return place;
        }
        room -= more;
        place = next;
    }
    place
}

/// The place in a row, given by its start, that is in the column of another place.
fn place_in_row(text: &str, at: usize, start: usize) -> usize
    requires at { IsCharBoundary text.now at }
    requires start { IsCharBoundary text.now start }
    ensures boundary { IsCharBoundary text.now result }
    ensures place { split_at text.now result ≡ place_in_row (split_at text.now at) (split_at text.now start) }
{
    let place = place_along(text, start, columns_back(text, at));
    ahead(text, place, Stop::Cluster)
}

/// The start of the row above that of a place.
fn start_above(text: &str, at: usize) -> Option<usize>
    requires { IsCharBoundary text.now at }
    ensures { MatchOption result (next_row true (split_at text.now at) ≡ None)
        (λ start. IsCharBoundary text.now start × (next_row true (split_at text.now at) ≡ Some (split_at text.now start))) }
{
    let start = row_start(text, at);
    if start == 0 {
        return None;
    }
    let (end, _) = char_before(text, start);
    Some(row_start(text, end))
}

/// The start of the row below that of a place.
fn start_below(text: &str, at: usize) -> Option<usize>
    requires { IsCharBoundary text.now at }
    ensures { MatchOption result (next_row false (split_at text.now at) ≡ None)
        (λ start. IsCharBoundary text.now start × (next_row false (split_at text.now at) ≡ Some (split_at text.now start))) }
{
    let end = row_end(text, at);
    if end >= text.len() {
        return None;
    }
    let (_, start) = char_after(text, end);
    Some(start)
}

/// The start of the row above or below that of a place.
fn next_row(text: &str, at: usize, up: bool) -> Option<usize>
    requires { IsCharBoundary text.now at }
    ensures { MatchOption result (next_row up (split_at text.now at) ≡ None)
        (λ start. IsCharBoundary text.now start × (next_row up (split_at text.now at) ≡ Some (split_at text.now start))) }
{
    match up {
        true => start_above(text, at),
        false => start_below(text, at),
    }
}

/// The place in the row above or below that is in the same column.
pub(crate) fn row_place(text: &str, at: usize, up: bool) -> Option<usize>
    requires { IsCharBoundary text.now at }
    ensures { MatchOption result (row_place up (split_at text.now at) ≡ None)
        (λ place. IsCharBoundary text.now place × (row_place up (split_at text.now at) ≡ Some (split_at text.now place))) }
{
    match next_row(text, at, up) {
        None => None,
        Some(start) => Some(place_in_row(text, at, start)),
    }
}
