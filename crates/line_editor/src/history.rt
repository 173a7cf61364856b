//! A history as a text, and the history that a text holds.
ghost use Rattle.std.specs.Prelude.{◌≡◌, ◌<◌, ◌++◌, ◌∷◌, [], false, List, ℕ, IfOk, OnOk, encode_utf8_all, length};
ghost use Rattle.std.specs.Str.{chars};
ghost use Rattle.std.specs.String.{string_bytes};
ghost use Rattle.line_editor.specs.History.{escaped, history_of, line_read, line_saved, saved, unescaped, with_line};
ghost use Rattle.line_editor.specs.Shown.{pasted_part};
ghost use Rattle.line_editor.specs.inside.Lines.{IsFirstLine};

use crate::limits::Limits;
use crate::lines::Line;
use crate::places::char_after;
use crate::recent::RecentLines;
use crate::shown::{pasted, pasted_len};
use crate::texts::split_first;
use std::alloc::{AllocError, Allocator};

/// Adds a character to a text, escaped.
fn push_escaped<A: Allocator>(text: &mut String<A>, c: char) -> Result<(), AllocError>
    ensures { (rest : List ℕ) → OnOk result (string_bytes text.old ++ encode_utf8_all (escaped (c ∷ rest)) ≡ string_bytes text.new ++ encode_utf8_all (escaped rest)) }
{
    match c {
        '\n' => text.push_str("\\n"),
        '\\' => text.push_str("\\\\"),
        _ => text.push(c),
    }
}

/// Adds a line to a text, escaped if lines may have several rows.
fn push_saved<A: Allocator>(
    text: &mut String<A>,
    multiline: bool,
    line: &str,
) -> Result<(), AllocError>
    ensures { OnOk result (string_bytes text.new ≡ string_bytes text.old ++ encode_utf8_all (line_saved multiline (chars line.now))) }
{
    if !multiline {
        text.push_str(line)?;
        return Ok(());
    }
    let mut rest = line;
    while let Some((c, back)) = split_first(rest) {
        push_escaped(text, c)?;
        rest = back;
    }
    Ok(())
}

/// Adds a line and a line feed to a text.
fn push_line<A: Allocator>(
    text: &mut String<A>,
    multiline: bool,
    line: &str,
) -> Result<(), AllocError>
    ensures { OnOk result (string_bytes text.new ≡ string_bytes text.old ++ encode_utf8_all (line_saved multiline (chars line.now) ++ 10 ∷ [])) }
{
    push_saved(text, multiline, line)?;
    text.push('\n')?;
    Ok(())
}

/// The text of one line in the text of a history, with its line feed.
pub(crate) fn saved_line<A: Allocator>(
    alloc: A,
    multiline: bool,
    line: &str,
) -> Result<String<A>, AllocError>
    ensures text { IfOk result (λ text. chars (string_bytes text) ≡ line_saved multiline (chars line.now) ++ 10 ∷ []) }
    ensures bytes { IfOk result (λ text. string_bytes text ≡ encode_utf8_all (line_saved multiline (chars line.now) ++ 10 ∷ [])) }
{
    let mut saved = String::new(alloc);
    push_line(&mut saved, multiline, line)?;
    Ok(saved)
}

/// The text of a history: its lines, the oldest first, with a line feed behind each.
pub(crate) fn saved<A: Allocator>(
    alloc: A,
    multiline: bool,
    history: &RecentLines<A>,
) -> Result<String<A>, AllocError>
    ensures { IfOk result (λ text. chars (string_bytes text) ≡ saved multiline history.now) }
{
    let mut text = String::new(alloc);
    let mut at = history.len();
    while at > 0 {
        at -= 1;
        if let Some(line) = history.text_at(at) {
            push_line(&mut text, multiline, line)?;
        }
    }
    Ok(text)
}

/// The first line of a text, and what is behind its line feed.
fn first_line(text: &str) -> (&str, &str)
    requires { 0 < length text.now }
    ensures line { IsFirstLine (chars text.now) (chars result.0.now) (chars result.1.now) }
    ensures shorter { length result.1.now < length text.now }
{
    let mut end = 0usize;
    while end < text.len() {
        let (c, next) = char_after(text, end);
        if c == '\n' {
            return (&text[..end], &text[next..]);
        }
        end = next;
    }
    (text, "")
}

/// Adds the character that one of an escaped text means, and returns whether this is a backslash that waits for the next one.
fn push_unescaped<A: Allocator>(
    text: &mut String<A>,
    behind: bool,
    c: char,
) -> Result<bool, AllocError>
    ensures { (rest : List ℕ) → IfOk result (λ waits. string_bytes text.old ++ encode_utf8_all (unescaped behind (c ∷ rest)) ≡ string_bytes text.new ++ encode_utf8_all (unescaped waits rest)) }
{
    match (behind, c) {
        (true, 'n') => text.push('\n')?,
        (true, '\\') => text.push('\\')?,
        (true, _) => {
            text.push('\\')?;
            text.push(c)?;
        }
        (false, '\\') => return Ok(true),
        (false, _) => text.push(c)?,
    }
    Ok(false)
}

/// Adds a backslash that waits at the end of an escaped text, if one does.
fn push_waiting<A: Allocator>(text: &mut String<A>, waits: bool) -> Result<(), AllocError>
    ensures { OnOk result (string_bytes text.new ≡ string_bytes text.old ++ encode_utf8_all (unescaped waits [])) }
{
    if waits {
        text.push('\\')?;
    }
    Ok(())
}

/// The text that was escaped.
fn unescaped<A: Allocator>(alloc: A, text: &str) -> Result<String<A>, AllocError>
    ensures { IfOk result (λ new. chars (string_bytes new) ≡ unescaped false (chars text.now)) }
{
    let mut new = String::new(alloc);
    let mut behind = false;
    let mut rest = text;
    while let Some((c, back)) = split_first(rest) {
        behind = push_unescaped(&mut new, behind, c)?;
        rest = back;
    }
    push_waiting(&mut new, behind)?;
    Ok(new)
}

/// A line becomes the newest of a history, if what comes of it into a line has room.
fn add_line<A: Allocator + Clone>(
    history: &mut RecentLines<A>,
    alloc: &A,
    limits: Limits,
    line: &str,
) -> Result<(), AllocError>
    ensures { OnOk result (history.new ≡ with_line limits (pasted_part limits.multiline (chars line.now)) history.old) }
{
    let len = pasted_len(limits.multiline, line);
    if len == 0 || limits.bytes < len {
        return Ok(());
    }
    let text = pasted(alloc.clone()?, limits.multiline, line)?;
    let line = Line::of_parts(alloc.clone()?, text.as_str(), "")?;
    history.add(line, limits.lines)
}

/// A line of a history's text becomes the newest of a history, if it has room.
fn load_line<A: Allocator + Clone>(
    history: &mut RecentLines<A>,
    alloc: &A,
    limits: Limits,
    line: &str,
) -> Result<(), AllocError>
    ensures { OnOk result (history.new ≡ with_line limits (line_read limits.multiline (chars line.now)) history.old) }
{
    if !limits.multiline {
        return add_line(history, alloc, limits, line);
    }
    let line = unescaped(alloc.clone()?, line)?;
    add_line(history, alloc, limits, line.as_str())
}

/// The history that a text holds.
pub(crate) fn history_of<A: Allocator + Clone>(
    alloc: &A,
    limits: Limits,
    text: &str,
) -> Result<RecentLines<A>, AllocError>
    ensures { IfOk result (λ history. history ≡ history_of limits (chars text.now)) }
{
    let mut history = RecentLines::new(alloc.clone()?);
    let mut rest = text;
    while !rest.is_empty() {
        let (line, back) = first_line(rest);
        load_line(&mut history, alloc, limits, line)?;
        rest = back;
    }
    Ok(history)
}
