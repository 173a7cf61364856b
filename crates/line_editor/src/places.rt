//! Places in a text to which the cursor goes.
ghost use Rattle.std.specs.Prelude.{◌≡◌, ◌<◌, ◌≤◌, length, reverse};
ghost use Rattle.std.specs.Str.{chars, IsCharBoundary};
ghost use Rattle.unicode_segmentation.specs.Segments.{breaks_at, chars_before, chars_from};
ghost use Rattle.unicode_segmentation.specs.Steps.{IsCharAt, IsOneChar};
ghost use Rattle.line_editor.specs.Places.{IsBack, IsForward, is_between, target_place, stops};
ghost use Rattle.line_editor.specs.Splits.{ahead, last_stop, split_at};
ghost use Rattle.line_editor.specs.Words.{begins_blank, begins_unblank, begins_with_word, ends_in_word, takes_no_column, unblanked};

use crate::texts::split_last;
use unicode_segmentation::GraphemeCursor;
use unicode_width::UnicodeWidthChar;

/// A place at which the cursor stops. Each is between two extended grapheme clusters (UAX 29) or at an end of the line.
#[derive(Clone, Copy, PartialEq, Eq, Debug)]
pub enum Stop {
    /// Any place between clusters.
    Cluster,
    /// Before a word. Words are of letters and digits, with the marks on them.
    WordStart,
    /// Behind a word.
    WordEnd,
    /// Behind white space, and before a character that is none.
    Blank,
    /// No place but the ends of the line.
    Edge,
}

/// How far an action reaches from the cursor.
///
/// ```
/// let word_back = Target::Back(Stop::WordStart);
/// ```
#[derive(Clone, Copy, PartialEq, Eq, Debug)]
pub enum Target {
    /// The last stop before the cursor, and the line's start if there is none.
    Back(Stop),
    /// The first stop behind the cursor, and the line's end if there is none.
    Forward(Stop),
}

/// Whether a character takes no column, as a combining accent.
fn is_mark(c: char) -> bool
    ensures { result ≡ takes_no_column c }
{
    match c.width() {
        None => false,
        Some(width) => width == 0,
    }
}

/// Whether a text ends in a word, or in marks on a word.
fn ends_in_word(text: &str) -> bool
    ensures { result ≡ ends_in_word (reverse (chars text.now)) }
{
    let mut rest = text;
    while let Some((c, front)) = split_last(rest) {
        if c.is_alphanumeric() {
            return true;
        }
        if !is_mark(c) {
            return false;
        }
        rest = front;
    }
    false
}

/// Whether a text begins with a word.
fn begins_with_word(text: &str) -> bool
    ensures { result ≡ begins_with_word (chars text.now) }
{
    match text.chars().next() {
        None => false,
        Some(c) => c.is_alphanumeric(),
    }
}

/// Whether a text begins with a character that isn't white space.
fn begins_unblank(text: &str) -> bool
    ensures { result ≡ begins_unblank (chars text.now) }
{
    match text.chars().next() {
        None => false,
        Some(c) => !c.is_whitespace(),
    }
}

/// Whether a text ends in a character that isn't white space.
fn ends_unblank(text: &str) -> bool
    ensures { result ≡ begins_unblank (reverse (chars text.now)) }
{
    match split_last(text) {
        None => false,
        Some((c, _)) => !c.is_whitespace(),
    }
}

/// Whether a text begins with white space.
pub(crate) fn begins_blank(text: &str) -> bool
    ensures { result ≡ begins_blank (chars text.now) }
{
    match text.chars().next() {
        None => false,
        Some(c) => c.is_whitespace(),
    }
}

/// Whether a text ends in white space.
pub(crate) fn ends_blank(text: &str) -> bool
    ensures { result ≡ begins_blank (reverse (chars text.now)) }
{
    match split_last(text) {
        None => false,
        Some((c, _)) => c.is_whitespace(),
    }
}

/// Whether a place is between two clusters.
pub(crate) fn is_between(text: &str, at: usize) -> bool
    requires { IsCharBoundary text.now at }
    ensures { result ≡ breaks_at is_between text.now at }
{
    let bytes = text.as_bytes();
    if at > 0 && at < bytes.len() {
        // No two characters of one byte are joined but CR and LF.
        if bytes[at - 1] < 128 && bytes[at] < 128 && bytes[at] != b'\n' {
            return true;
        }
    }
    is_between_any(text, at)
}

/// The same for any characters.
#[inline(never)]
fn is_between_any(text: &str, at: usize) -> bool
    requires { IsCharBoundary text.now at }
    ensures { result ≡ breaks_at is_between text.now at }
{
    let mut cursor = GraphemeCursor::new(at, text.len(), true);
    match cursor.is_boundary(text, 0) {
        Ok(is_boundary) => is_boundary,
        Err(_) => unreachable!(),
    }
}

/// Whether a stop is at a place.
fn is_stop(text: &str, at: usize, stop: Stop) -> bool
    requires { IsCharBoundary text.now at }
    ensures { result ≡ breaks_at (stops stop) text.now at }
{
    let (before, after) = (&text[..at], &text[at..]);
    let is_there = match stop {
        Stop::Cluster => true,
        Stop::WordStart => begins_with_word(after) && !ends_in_word(before),
        Stop::WordEnd => ends_in_word(before) && !begins_with_word(after),
        Stop::Blank => begins_unblank(after) && !ends_unblank(before),
        Stop::Edge => false,
    };
    is_there && is_between(text, at)
}

/// The character at a place, and its end.
pub(crate) fn char_after(text: &str, at: usize) -> (char, usize)
    requires boundary { IsCharBoundary text.now at }
    requires inside { at < length text.now }
    ensures { IsCharAt text.now at result.0 result.1 }
{
    let limit = text.len();
    let mut chars = text[at..limit].chars();
    match chars.next() {
        Some(c) => (c, limit - chars.as_str().len()),
        None => unreachable!(),
    }
}

/// The character before a place, and its start.
pub(crate) fn char_before(text: &str, at: usize) -> (usize, char)
    requires boundary { IsCharBoundary text.now at }
    requires inside { 0 < at }
    ensures { IsCharAt text.now result.0 result.1 at }
{
    let mut chars = text[0..at].chars();
    match chars.next_back() {
        Some(c) => (chars.as_str().len(), c),
        None => unreachable!(),
    }
}

/// The end of the character at a place.
fn end_of_char(text: &str, at: usize) -> usize
    requires boundary { IsCharBoundary text.now at }
    requires inside { at < length text.now }
    ensures { IsOneChar text.now at result }
{
    let (_, end) = char_after(text, at);
    end
}

/// The start of the character before a place.
fn start_of_char(text: &str, at: usize) -> usize
    requires boundary { IsCharBoundary text.now at }
    requires inside { 0 < at }
    ensures { IsOneChar text.now result at }
{
    let (start, _) = char_before(text, at);
    start
}

/// The first stop from a place on, and the end of the text if there is none.
pub(crate) fn ahead(text: &str, at: usize, stop: Stop) -> usize
    requires { IsCharBoundary text.now at }
    ensures boundary { IsCharBoundary text.now result }
    ensures on { at ≤ result }
    ensures first { split_at text.now result ≡ ahead (stops stop) (chars_before text.now at) (chars_from text.now at) }
{
    let mut place = at;
    while place < text.len() {
        if is_stop(text, place, stop) {
            return place;
        }
        place = end_of_char(text, place);
    }
    place
}

/// The last stop back from a place, and the start of the text if there is none.
pub(crate) fn behind(text: &str, at: usize, stop: Stop) -> usize
    requires { IsCharBoundary text.now at }
    ensures boundary { IsCharBoundary text.now result }
    ensures back { result ≤ at }
    ensures last { split_at text.now result ≡ last_stop (stops stop) (chars_before text.now at) (chars_from text.now at) }
{
    let mut place = at;
    while place > 0 {
        if is_stop(text, place, stop) {
            return place;
        }
        place = start_of_char(text, place);
    }
    place
}

/// The place to which a target brings a cursor.
pub(crate) fn place_of(text: &str, at: usize, target: Target) -> usize
    requires { IsCharBoundary text.now at }
    ensures boundary { IsCharBoundary text.now result }
    ensures back { IsBack target → result ≤ at }
    ensures on { IsForward target → at ≤ result }
    ensures place { split_at text.now result ≡ target_place target (split_at text.now at) }
{
    match target {
        Target::Back(Stop::Edge) => 0,
        Target::Forward(Stop::Edge) => text.len(),
        Target::Back(stop) => {
            if at == 0 {
                return 0;
            }
            behind(text, start_of_char(text, at), stop)
        }
        Target::Forward(stop) => {
            if at >= text.len() {
                return at;
            }
            ahead(text, end_of_char(text, at), stop)
        }
    }
}

/// The start of the white space before a place.
pub(crate) fn unblanked_before(text: &str, at: usize) -> usize
    requires { IsCharBoundary text.now at }
    ensures boundary { IsCharBoundary text.now result }
    ensures back { result ≤ at }
    ensures rest { chars_before text.now result ≡ unblanked (chars_before text.now at) }
{
    let mut place = at;
    while place > 0 {
        let (start, c) = char_before(text, place);
        if !c.is_whitespace() {
            return place;
        }
        place = start;
    }
    place
}

/// The end of the white space at a place.
pub(crate) fn unblanked_behind(text: &str, at: usize) -> usize
    requires { IsCharBoundary text.now at }
    ensures boundary { IsCharBoundary text.now result }
    ensures on { at ≤ result }
    ensures rest { chars_from text.now result ≡ unblanked (chars_from text.now at) }
{
    let mut place = at;
    while place < text.len() {
        let (c, end) = char_after(text, place);
        if !c.is_whitespace() {
            return place;
        }
        place = end;
    }
    place
}
