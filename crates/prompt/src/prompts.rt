//! A prompt, and what is shown of it.
ghost use Rattle.std.specs.Prelude.{◌≡◌, ◌≤◌, IfOk, IfSome, chars, max, not, string_bytes};
ghost use Rattle.line_editor.specs.Views as views;
ghost use Rattle.prompt.specs.Pictures.{hint_behind, most_columns, prompt_columns, prompt_has_room, shown_hint};
ghost use Rattle.prompt.specs.Prompts.{has_control};
ghost use Rattle.prompt.specs.Drawing.{IsParted, search_text};
ghost use Rattle.prompt.specs.Shown.{runs_of};

use crossterm::style::StyledContent;
use std::alloc::{AllocError, Global};
use unicode_width::UnicodeWidthChar;

/// Whether a text has a control character.
pub(crate) fn has_control(text: &str) -> bool
    ensures { result ≡ has_control (chars text.now) }
{
    for c in text.chars() {
        if c.is_control() {
            return true;
        }
    }
    false
}

/// Whether a prompt of this text is shown: it has no control character.
///
/// ```
/// assert!(rt; is_shown("> "));
/// ```
pub fn is_shown(text: &str) -> bool
    ensures { result ≡ not (has_control (chars text.now)) }
{
    !has_control(text)
}

/// What is shown in the prompt's place while an incremental search goes on, as readline does: its direction, and what it looks for.
///
/// # Errors
///
/// `AllocError` if memory was refused.
///
/// ```
/// if let Some(pattern) = editor.pattern() {
///     let text = search_text(alloc, pattern, editor.is_ahead())?;
///     rows.draw(&mut out, &Shown::new(text.as_str(), editor.line()))?;
/// }
/// ```
pub fn search_text(alloc: Global, pattern: &str, is_ahead: bool) -> Result<String, AllocError>
    ensures { IfOk result (λ text. string_bytes text ≡ search_text is_ahead pattern.now) }
{
    let mut text = String::new(alloc);
    text.push_str("(")?;
    text.push_str(if is_ahead {
        "i-search"
    } else {
        "reverse-i-search"
    })?;
    text.push_str(")`")?;
    text.push_str(pattern)?;
    text.push_str("': ")?;
    Ok(text)
}

/// The columns that a character takes.
pub(crate) fn columns_of(c: char) -> usize
    ensures value { result ≡ views.columns_of c }
    ensures few { result ≤ 3 }
{
    match c.width() {
        None => 0,
        Some(width) => width,
    }
}

/// The columns that a character takes at most: one of no column may be replaced by one of one.
fn most_of(c: char) -> u16
    ensures { result ≡ max (views.columns_of c) 1 }
{
    columns_of(c).max(1) as u16
}

/// The columns that a text takes at most.
fn most_columns(text: &str) -> u16
    ensures { result ≡ most_columns (chars text.now) }
{
    let mut columns = 0u16;
    for c in text.chars() {
        columns = columns.saturating_add(most_of(c));
    }
    columns
}

/// The columns that a prompt leaves to the line at least.
const ROOM: u16 = 8;

/// The columns that a text and the parts behind it take at most.
fn prompt_columns(text: &str, parts: &[StyledContent<&str>]) -> u16
    ensures { result ≡ prompt_columns (runs_of text.now parts.now) }
{
    let mut columns = 0u16;
    for part in parts {
        columns = columns.saturating_add(most_columns(part.content()));
    }
    most_columns(text).saturating_add(columns)
}

/// Whether a prompt is shown in a row of so many columns. It isn't if it leaves too few.
pub(crate) fn has_room(text: &str, parts: &[StyledContent<&str>], columns: u16) -> bool
    ensures { result ≡ prompt_has_room columns (runs_of text.now parts.now) }
{
    columns.saturating_sub(prompt_columns(text, parts)) >= ROOM
}

/// What is shown of a hint in so many columns: all of it, or nothing if it has no room or has a control character.
fn shown_hint(hint: &str, room: u16) -> &str
    ensures { result.now ≡ shown_hint room hint.now }
{
    if most_columns(hint) > room || has_control(hint) {
        ""
    } else {
        hint
    }
}

/// The part of a hint that is shown in so many columns behind a line, which has this text behind its cursor.
pub(crate) fn hint_behind<'a>(after: &str, hint: &'a str, room: u16) -> &'a str
    ensures { result.now ≡ hint_behind after.now room hint.now }
{
    if after.is_empty() {
        shown_hint(hint, room)
    } else {
        ""
    }
}

/// The parts of a text at a place, if another text begins with the second one.
fn split_if<'a>(text: &'a str, place: usize, after: &str) -> Option<(&'a str, &'a str)>
    ensures { IfSome result (λ parts. IsParted text.now parts.0.now parts.1.now after.now) }
{
    match text.split_at_checked(place) {
        None => None,
        Some((front, rest)) => {
            if after.starts_with(rest) {
                Some((front, rest))
            } else {
                None
            }
        }
    }
}

/// Parts what is seen of a line at the cursor, which is in this column of it. The line goes on with the text `after` from there.
pub(crate) fn parted<'a>(text: &'a str, column: usize, after: &str) -> (&'a str, &'a str)
    ensures { IsParted text.now result.0.now result.1.now after.now }
{
    let mut used = 0usize;
    for (place, c) in text.char_indices() {
        if used >= column {
            if let Some(parts) = split_if(text, place, after) {
                return parts;
            }
        }
        used = used.saturating_add(columns_of(c));
    }
    (text, "")
}
