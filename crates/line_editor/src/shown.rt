//! The part of a text that comes into a line.
ghost use Rattle.std.specs.Prelude.{◌≡◌, ◌∷◌, false, true, IfOk, MatchOption};
ghost use Rattle.std.specs.Str.{chars};
ghost use Rattle.std.specs.String.{string_bytes};
ghost use Rattle.line_editor.specs.Bounds.{size};
ghost use Rattle.line_editor.specs.Shown.{AreRows, begins_behind_gap, begins_with_feed, comes_in, is_gap, is_shown, pasted_part};

use crate::texts::split_first;
use std::alloc::{AllocError, Allocator};
use unicode_width::UnicodeWidthChar;

/// Whether a character is shown: it is no control character, and takes two columns at most.
pub(crate) fn is_shown(c: char) -> bool
    ensures { result ≡ is_shown c }
{
    match c.width() {
        None => false,
        Some(width) => width <= 2,
    }
}

/// Whether a character comes into a line: it is shown, or it is a line feed and lines may have several rows.
pub(crate) fn comes_in(multiline: bool, c: char) -> bool
    ensures { result ≡ comes_in multiline c }
{
    multiline && c == '\n' || is_shown(c)
}

/// Whether a character is a tab or a part of a line's end.
fn is_gap(c: char) -> bool
    ensures { result ≡ is_gap c }
{
    c == '\t' || c == '\n' || c == '\r'
}

/// Whether a text begins with another character.
fn begins_behind_gap(text: &str) -> bool
    ensures { result ≡ begins_behind_gap (chars text.now) }
{
    if let Some((c, _)) = split_first(text) {
        return !is_gap(c);
    }
    false
}

/// The character that comes into a line of one row for one of a paste, before the rest of the paste. Of some line ends and tabs the last one
/// gives a blank, unless nothing is behind it.
fn blanked_char(c: char, rest: &str) -> Option<char>
    ensures { MatchOption result (pasted_part false (c ∷ chars rest.now) ≡ pasted_part false (chars rest.now))
        (λ d. (pasted_part false (c ∷ chars rest.now) ≡ d ∷ pasted_part false (chars rest.now)) × (comes_in false d ≡ true)) }
{
    if is_gap(c) {
        return if begins_behind_gap(rest) {
            Some(' ')
        } else {
            None
        };
    }
    if is_shown(c) { Some(c) } else { None }
}

/// Whether a text begins with a line feed.
fn begins_with_feed(text: &str) -> bool
    ensures { result ≡ begins_with_feed (chars text.now) }
{
    let Some((c, _)) = split_first(text) else {
        return false;
    };
    c == '\n'
}

/// The character that comes into a line of several rows for one of a paste, before the rest of the paste. A line end gives a line feed, and
/// a tab a blank.
fn fed_char(c: char, rest: &str) -> Option<char>
    ensures { MatchOption result (pasted_part true (c ∷ chars rest.now) ≡ pasted_part true (chars rest.now))
        (λ d. (pasted_part true (c ∷ chars rest.now) ≡ d ∷ pasted_part true (chars rest.now)) × (comes_in true d ≡ true)) }
{
    if c == '\r' {
        return if begins_with_feed(rest) {
            None
        } else {
            Some('\n')
        };
    }
    if c == '\t' {
        return Some(' ');
    }
    if comes_in(true, c) { Some(c) } else { None }
}

/// The character that comes into a line for one of a paste, before the rest of the paste.
fn pasted_char(multiline: bool, c: char, rest: &str) -> Option<char>
    ensures { MatchOption result (pasted_part multiline (c ∷ chars rest.now) ≡ pasted_part multiline (chars rest.now))
        (λ d. (pasted_part multiline (c ∷ chars rest.now) ≡ d ∷ pasted_part multiline (chars rest.now)) × (comes_in multiline d ≡ true)) }
{
    match multiline {
        true => fed_char(c, rest),
        false => blanked_char(c, rest),
    }
}

/// The bytes of what comes into a line for a paste.
pub(crate) fn pasted_len(multiline: bool, text: &str) -> usize
    ensures { result ≡ size (pasted_part multiline (chars text.now)) }
{
    let mut len = 0usize;
    let mut rest = text;
    while let Some((c, back)) = split_first(rest) {
        if let Some(shown) = pasted_char(multiline, c, back) {
            len += shown.len_utf8();
        }
        rest = back;
    }
    len
}

/// The text that comes into a line for a paste.
pub(crate) fn pasted<A: Allocator>(
    alloc: A,
    multiline: bool,
    text: &str,
) -> Result<String<A>, AllocError>
    ensures text { IfOk result (λ new. chars (string_bytes new) ≡ pasted_part multiline (chars text.now)) }
    ensures shown { IfOk result (λ new. AreRows (chars (string_bytes new))) }
{
    let mut new = String::new(alloc);
    let mut rest = text;
    while let Some((c, back)) = split_first(rest) {
        if let Some(shown) = pasted_char(multiline, c, back) {
            new.push(shown)?;
        }
        rest = back;
    }
    Ok(new)
}
