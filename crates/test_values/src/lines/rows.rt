//! Lines of several rows: the answers of rustyline 9.1.2 to many edits, pastes, keys, and the text of a history.

use super::rustyline_rows::ROW_EDITS;
use super::{action_of, key_of, multiline};
use crossterm_types::event::{Event, KeyEvent};
use line_editor::{Action, EditFault, Editor, Limits, Line};
use std::alloc::{Allocator, Global};
use test_support::expect;

/// Whether a text is this, with line feeds as slashes.
fn is_in_rows(text: &str, want: &str) -> bool {
    let mut wanted = want.chars();
    for c in text.chars() {
        let shown = if c == '\n' { '/' } else { c };
        if wanted.next() != Some(shown) {
            return false;
        }
    }
    wanted.next().is_none()
}

/// Whether a line is this, with its cursor at the bar and line feeds as slashes.
fn has_rows<A: Allocator>(line: &Line<A>, want: &str) -> bool {
    match want.split_once('|') {
        Some((before, after)) => {
            is_in_rows(line.before(), before) && is_in_rows(line.after(), after)
        }
        None => false,
    }
}

/// The editor after the edits of a row, in lines of several rows. An edit that isn't known does nothing.
fn edited_in_rows(alloc: Global, edits: &str) -> Result<Editor, EditFault> {
    let mut editor = Editor::new(alloc, multiline())?;
    for edit in edits.split(' ') {
        if let Some(action) = action_of(edit) {
            editor.act(action)?;
        }
    }
    Ok(editor)
}

/// Whether a line has these rows after the edits before them.
fn are_in_rows(alloc: Global, row: &str) -> Result<bool, EditFault> {
    let Some((edits, line)) = row.split_once(" = ") else {
        return Ok(false);
    };
    Ok(has_rows(edited_in_rows(alloc, edits)?.line(), line))
}

/// Rows with characters of two columns and of none. The cursor keeps its column.
static WIDE_ROWS: [&str; 4] = [
    "i漢 i字 E ia ib ic ^ = 漢|字/abc",
    "i漢 i字 E ia ib ic id ie ^ = 漢字|/abcde",
    "ia ib ic E i漢 i字 ^ v = abc/漢|字",
    "ie i\u{301} ib E ic ^ = e\u{301}|b/c",
];

#[test]
fn rows_are_those_of_rustyline(rt: HostRuntime) {
    let mut count = 0u32;
    for row in ROW_EDITS.lines() {
        expect!(rt; are_in_rows(rt.alloc(), row) == Ok(true), row);
        count = count.saturating_add(1);
    }
    expect!(rt; count == 150);
    for row in &WIDE_ROWS {
        expect!(rt; are_in_rows(rt.alloc(), row) == Ok(true), row);
    }
}

/// Pastes behind `>`, and the rows after them.
static ROW_PASTES: [(&str, &str); 5] = [
    ("echo one\necho two", ">echo one/echo two|"),
    ("a\r\nb\rc\n\n\rd", ">a/b/c///d|"),
    ("a\t\tb\n", ">a  b/|"),
    ("\u{7}a\u{1b}[31m\u{85}", ">a[31m|"),
    ("\r\n", ">/|"),
];

/// Whether the rows after a paste are these.
fn pastes_rows(alloc: Global, row: &(&str, &str)) -> Result<bool, EditFault> {
    let mut editor = Editor::new(alloc, multiline())?;
    editor.paste(">")?;
    editor.paste(row.0)?;
    Ok(has_rows(editor.line(), row.1))
}

#[test]
fn pastes_keep_their_rows(rt: HostRuntime) {
    for row in &ROW_PASTES {
        expect!(rt; pastes_rows(rt.alloc(), row) == Ok(true), row.0);
    }
}

/// Whether a line has these rows after some keys, with these limits.
fn is_after_keys(alloc: Global, limits: Limits, keys: &str, want: &str) -> Result<bool, EditFault> {
    let mut editor = Editor::new(alloc, limits)?;
    editor.load_history("old\n")?;
    for key in keys.split(' ') {
        if let Some((code, modifiers)) = key_of(key) {
            let event: Event = Event::Key(KeyEvent::new(code, modifiers));
            editor.turn(&event)?;
        }
    }
    Ok(has_rows(editor.line(), want))
}

#[test]
fn keys_go_by_rows_before_the_history(rt: HostRuntime) {
    let alloc = rt.alloc();
    let one = Limits::default();
    expect!(rt; is_after_keys(alloc, multiline(), "a A-Enter b Up", "a|/b") == Ok(true));
    expect!(rt; is_after_keys(alloc, multiline(), "a A-Enter b Up Up", "old|") == Ok(true));
    expect!(rt; is_after_keys(alloc, multiline(), "a A-Enter b Up Up Down", "a|/b") == Ok(true));
    expect!(rt; is_after_keys(alloc, multiline(), "a A-Enter b C-p", "old|") == Ok(true));
    expect!(rt; is_after_keys(alloc, multiline(), "C-r l A-Enter", "old/|") == Ok(true));
    expect!(rt; is_after_keys(alloc, one, "a A-Enter b Up", "old|") == Ok(true));
    expect!(rt; is_after_keys(alloc, one, "a A-Enter b Up Down", "ab|") == Ok(true));
}

#[test]
fn a_history_keeps_rows(rt: HostRuntime) -> Result<(), EditFault> {
    let mut editor = Editor::new(rt.alloc(), multiline())?;
    for line in ["one \\\n  two", "\\n", "\\.", "three\\"] {
        editor.paste(line)?;
        editor.accept()?;
    }
    let saved = editor.history_text()?;
    expect!(rt; saved.as_str() == "one \\\\\\n  two\n\\\\n\n\\\\.\nthree\\\\\n");
    let mut other = Editor::new(rt.alloc(), multiline())?;
    other.load_history(saved.as_str())?;
    expect!(rt; other.history_text()?.as_str() == saved.as_str());
    other.load_history("a\\.b\\\n\\n\\\\n\n")?;
    other.act(Action::Older)?;
    expect!(rt; has_rows(other.line(), "/\\n|"));
    other.act(Action::Older)?;
    expect!(rt; has_rows(other.line(), "a\\.b\\|"));
    Ok(())
}

/// Lines, and their texts in a history's file: of lines of several rows, and of one row.
const SAVED: [(&str, &str, &str); 5] = [
    ("", "\n", "\n"),
    ("echo one", "echo one\n", "echo one\n"),
    (
        "one \\\n  tw\u{F6}",
        "one \\\\\\n  tw\u{F6}\n",
        "one \\\n  tw\u{F6}\n",
    ),
    ("\\n", "\\\\n\n", "\\n\n"),
    ("\n\n", "\\n\\n\n", "\n\n\n"),
];

#[test]
fn lines_are_saved_one_by_one(rt: HostRuntime) -> Result<(), EditFault> {
    let rows = Editor::new(rt.alloc(), multiline())?;
    let row = Editor::new(rt.alloc(), Limits::default())?;
    for (line, escaped, plain) in SAVED {
        expect!(rt; rows.saved_line(line)?.as_str() == escaped, line);
        expect!(rt; row.saved_line(line)?.as_str() == plain, line);
    }
    Ok(())
}
