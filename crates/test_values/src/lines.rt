//! Lines that are edited: the default keys of GNU readline, as its manual says, the answers of GNU readline 8.2 and rustyline 9.1.2 to many
//! keys, and memory that is refused.

mod readline;
mod readline_history;
mod readline_words;
mod rows;
mod rustyline;
mod rustyline_rows;

use crossterm_types::event::{Event, KeyCode, KeyEvent, KeyModifiers};
use line_editor::{Action, Case, EditFault, Editor, Limits, Line, Outcome, Stop, Target};
use linked_list_allocator::LocalHeap;
use readline::SCRIPTS;
use readline_history::EDITED;
use readline_words::{LAST_WORDS, WORDS};
use rustyline::{EDITS, WORD_EDITS};
use std::alloc::{AllocError, Allocator, Global};
use std::{format, io};
use test_support::{Calls, Came, expect, is_refused_below_a_size, is_text};

/// A key by its code and its modifiers.
type Key = (KeyCode, KeyModifiers);

/// What keys do to a line, by a command of readline. The cursor is at the bar.
struct Row {
    command: &'static str,
    line: &'static str,
    keys: &'static [Key],
    after: &'static str,
}

const NONE: KeyModifiers = KeyModifiers::NONE;

const CONTROL: KeyModifiers = KeyModifiers::CONTROL;

const ALT: KeyModifiers = KeyModifiers::ALT;

/// Commands by their default keys. The history has `first line`, and after it `second line`.
static ROWS: [Row; 46] = [
    Row {
        command: "self-insert",
        line: "o|e",
        keys: &[(KeyCode::Char('n'), NONE)],
        after: "on|e",
    },
    Row {
        command: "beginning-of-line",
        line: "one two|",
        keys: &[(KeyCode::Char('a'), CONTROL)],
        after: "|one two",
    },
    Row {
        command: "beginning-of-line",
        line: "one| two",
        keys: &[(KeyCode::Home, NONE)],
        after: "|one two",
    },
    Row {
        command: "end-of-line",
        line: "|one two",
        keys: &[(KeyCode::Char('e'), CONTROL)],
        after: "one two|",
    },
    Row {
        command: "end-of-line",
        line: "one| two",
        keys: &[(KeyCode::End, NONE)],
        after: "one two|",
    },
    Row {
        command: "forward-char",
        line: "o|ne",
        keys: &[(KeyCode::Char('f'), CONTROL)],
        after: "on|e",
    },
    Row {
        command: "forward-char",
        line: "o|ne",
        keys: &[(KeyCode::Right, NONE)],
        after: "on|e",
    },
    Row {
        command: "backward-char",
        line: "o|ne",
        keys: &[(KeyCode::Char('b'), CONTROL)],
        after: "|one",
    },
    Row {
        command: "backward-char",
        line: "o|ne",
        keys: &[(KeyCode::Left, NONE)],
        after: "|one",
    },
    Row {
        command: "forward-word",
        line: "|one two",
        keys: &[(KeyCode::Char('f'), ALT)],
        after: "one| two",
    },
    Row {
        command: "forward-word",
        line: "one| two",
        keys: &[(KeyCode::Right, CONTROL)],
        after: "one two|",
    },
    Row {
        command: "backward-word",
        line: "one two|",
        keys: &[(KeyCode::Char('b'), ALT)],
        after: "one |two",
    },
    Row {
        command: "backward-word",
        line: "one t|wo",
        keys: &[(KeyCode::Left, CONTROL)],
        after: "one |two",
    },
    Row {
        command: "delete-char",
        line: "o|ne",
        keys: &[(KeyCode::Char('d'), CONTROL)],
        after: "o|e",
    },
    Row {
        command: "delete-char",
        line: "o|ne",
        keys: &[(KeyCode::Delete, NONE)],
        after: "o|e",
    },
    Row {
        command: "backward-delete-char",
        line: "on|e",
        keys: &[(KeyCode::Backspace, NONE)],
        after: "o|e",
    },
    Row {
        command: "backward-delete-char",
        line: "on|e",
        keys: &[(KeyCode::Char('h'), CONTROL)],
        after: "o|e",
    },
    Row {
        command: "transpose-chars",
        line: "a|bc",
        keys: &[(KeyCode::Char('t'), CONTROL)],
        after: "ba|c",
    },
    Row {
        command: "transpose-chars",
        line: "abc|",
        keys: &[(KeyCode::Char('t'), CONTROL)],
        after: "acb|",
    },
    Row {
        command: "transpose-chars",
        line: "|abc",
        keys: &[(KeyCode::Char('t'), CONTROL)],
        after: "|abc",
    },
    Row {
        command: "kill-line",
        line: "one| two",
        keys: &[(KeyCode::Char('k'), CONTROL)],
        after: "one|",
    },
    Row {
        command: "unix-line-discard",
        line: "one| two",
        keys: &[(KeyCode::Char('u'), CONTROL)],
        after: "| two",
    },
    Row {
        command: "kill-word",
        line: "|one two",
        keys: &[(KeyCode::Char('d'), ALT)],
        after: "| two",
    },
    Row {
        command: "kill-word",
        line: "one| two",
        keys: &[(KeyCode::Char('d'), ALT)],
        after: "one|",
    },
    Row {
        command: "backward-kill-word",
        line: "one two-three|",
        keys: &[(KeyCode::Backspace, ALT)],
        after: "one two-|",
    },
    Row {
        command: "unix-word-rubout",
        line: "one two-three|",
        keys: &[(KeyCode::Char('w'), CONTROL)],
        after: "one |",
    },
    Row {
        command: "yank",
        line: "one| two",
        keys: &[
            (KeyCode::Char('k'), CONTROL),
            (KeyCode::Char('a'), CONTROL),
            (KeyCode::Char('y'), CONTROL),
        ],
        after: " two|one",
    },
    Row {
        command: "undo",
        line: "one|",
        keys: &[
            (KeyCode::Char('k'), CONTROL),
            (KeyCode::Char('u'), CONTROL),
            (KeyCode::Char('_'), CONTROL),
        ],
        after: "one|",
    },
    Row {
        command: "undo, as terminals report it",
        line: "one|",
        keys: &[(KeyCode::Char('u'), CONTROL), (KeyCode::Char('7'), CONTROL)],
        after: "one|",
    },
    Row {
        command: "previous-history",
        line: "|",
        keys: &[(KeyCode::Char('p'), CONTROL)],
        after: "second line|",
    },
    Row {
        command: "previous-history",
        line: "|",
        keys: &[(KeyCode::Up, NONE), (KeyCode::Up, NONE)],
        after: "first line|",
    },
    Row {
        command: "next-history",
        line: "new|",
        keys: &[(KeyCode::Up, NONE), (KeyCode::Char('n'), CONTROL)],
        after: "new|",
    },
    Row {
        command: "next-history",
        line: "new|",
        keys: &[
            (KeyCode::Up, NONE),
            (KeyCode::Up, NONE),
            (KeyCode::Down, NONE),
        ],
        after: "second line|",
    },
    // Kills side by side are one text. These lines are those of bash 5.2, by `read -e`.
    Row {
        command: "kill-word",
        line: "|a b c",
        keys: &[
            (KeyCode::Char('d'), ALT),
            (KeyCode::Char('d'), ALT),
            (KeyCode::End, NONE),
            (KeyCode::Char('y'), CONTROL),
        ],
        after: " ca b|",
    },
    Row {
        command: "unix-word-rubout",
        line: "a b c|",
        keys: &[
            (KeyCode::Char('w'), CONTROL),
            (KeyCode::Char('w'), CONTROL),
            (KeyCode::Char('y'), CONTROL),
        ],
        after: "a b c|",
    },
    Row {
        command: "backward-kill-word",
        line: "a b c d|",
        keys: &[
            (KeyCode::Backspace, ALT),
            (KeyCode::Backspace, ALT),
            (KeyCode::Char('y'), CONTROL),
            (KeyCode::Char('y'), CONTROL),
        ],
        after: "a b c dc d|",
    },
    Row {
        command: "kill-line",
        line: "a b c|",
        keys: &[
            (KeyCode::Char('w'), CONTROL),
            (KeyCode::Char('k'), CONTROL),
            (KeyCode::Char('w'), CONTROL),
            (KeyCode::Char('y'), CONTROL),
        ],
        after: "a b |",
    },
    Row {
        command: "unix-line-discard",
        line: "one |two",
        keys: &[
            (KeyCode::Char('u'), CONTROL),
            (KeyCode::Char('k'), CONTROL),
            (KeyCode::Char('y'), CONTROL),
        ],
        after: "one two|",
    },
    Row {
        command: "unix-word-rubout",
        line: "a b c|",
        keys: &[
            (KeyCode::Char('w'), CONTROL),
            (KeyCode::Left, NONE),
            (KeyCode::End, NONE),
            (KeyCode::Char('w'), CONTROL),
            (KeyCode::Char('y'), CONTROL),
        ],
        after: "a b |",
    },
    Row {
        command: "upcase-word",
        line: "o|ne two",
        keys: &[(KeyCode::Char('u'), ALT)],
        after: "oNE| two",
    },
    Row {
        command: "downcase-word",
        line: "O|NE TWO",
        keys: &[(KeyCode::Char('l'), ALT)],
        after: "One| TWO",
    },
    Row {
        command: "capitalize-word",
        line: "one| tWO",
        keys: &[(KeyCode::Char('c'), ALT)],
        after: "one Two|",
    },
    Row {
        command: "transpose-words",
        line: "one, t|wo",
        keys: &[(KeyCode::Char('t'), ALT)],
        after: "two, one|",
    },
    Row {
        command: "delete-horizontal-space",
        line: "a | b",
        keys: &[(KeyCode::Char('\\'), ALT)],
        after: "a|b",
    },
    Row {
        command: "yank-last-arg",
        line: "a|",
        keys: &[(KeyCode::Char('.'), ALT)],
        after: "aline|",
    },
    Row {
        command: "not bound",
        line: "one|",
        keys: &[
            (KeyCode::F(5), NONE),
            (KeyCode::Char('q'), ALT),
            (KeyCode::Tab, NONE),
        ],
        after: "one|",
    },
];
/// Pasted texts, and the line that each gives behind `>`.
static PASTES: [(&str, &str); 6] = [
    ("cd /tmp\nrm x", ">cd /tmp rm x|"),
    ("echo one\r\n\r\necho two\r\n", ">echo one echo two|"),
    ("\ta\tb\rc\t\n", "> a b c|"),
    ("\n", ">|"),
    ("a \n b", ">a   b|"),
    ("a\u{7}b\u{85}c", ">abc|"),
];

/// An editor with a line, and the cursor at its bar.
fn editor_of(alloc: Global, line: &str) -> Result<Editor, EditFault> {
    let mut editor = Editor::new(alloc, Limits::default())?;
    editor.load_history("first line\nsecond line\n")?;
    if let Some((before, after)) = line.split_once('|') {
        editor.paste(before)?;
        editor.paste(after)?;
        for _ in after.chars() {
            editor.act(Action::Go(Target::Back(Stop::Cluster)))?;
        }
    }
    Ok(editor)
}

/// Whether a line with its cursor at the bar is this.
fn is_line<A: Allocator>(line: &Line<A>, want: &str) -> bool {
    match want.split_once('|') {
        Some((before, after)) => line.before() == before && line.after() == after,
        None => false,
    }
}

/// The line after a row's keys is what the row says.
fn does_so(alloc: Global, row: &Row) -> Result<bool, EditFault> {
    let mut editor = editor_of(alloc, row.line)?;
    for (code, modifiers) in row.keys {
        let event: Event = Event::Key(KeyEvent::new(*code, *modifiers));
        editor.turn(&event)?;
    }
    Ok(is_line(editor.line(), row.after))
}

#[test]
fn keys_do_what_the_manual_of_readline_says(rt: HostRuntime) {
    for row in &ROWS {
        expect!(rt; does_so(rt.alloc(), row) == Ok(true), row.command);
    }
}

/// The line after a paste is what its row says.
fn pastes_so(alloc: Global, row: &(&str, &str)) -> Result<bool, EditFault> {
    let mut editor = editor_of(alloc, ">|")?;
    editor.paste(row.0)?;
    Ok(is_line(editor.line(), row.1))
}

#[test]
fn line_ends_and_tabs_of_a_paste_are_blanks(rt: HostRuntime) {
    for row in &PASTES {
        expect!(rt; pastes_so(rt.alloc(), row) == Ok(true), row.0);
    }
}

/// The line after `a` and so many searches in a history with two equal lines.
fn searched(alloc: Global, searches: u32) -> Result<Editor, EditFault> {
    let mut editor = Editor::new(alloc, Limits::default())?;
    editor.load_history("a one\na two\na two\n")?;
    editor.act(Action::Insert('a'))?;
    for _ in 0..searches {
        editor.act(Action::Search)?;
    }
    Ok(editor)
}

#[test]
fn a_search_skips_the_line_that_is_shown(rt: HostRuntime) -> Result<(), EditFault> {
    expect!(rt; is_line(searched(rt.alloc(), 1)?.line(), "a| two"));
    expect!(rt; is_line(searched(rt.alloc(), 2)?.line(), "a| one"));
    expect!(rt; is_line(searched(rt.alloc(), 3)?.line(), "a| one"));
    Ok(())
}

/// The key of a word of a script.
fn key_of(word: &str) -> Option<Key> {
    let code = match word {
        "SP" => KeyCode::Char(' '),
        "BS" | "A-BS" => KeyCode::Backspace,
        "Del" => KeyCode::Delete,
        "Enter" | "A-Enter" => KeyCode::Enter,
        "Esc" => KeyCode::Esc,
        "Home" => KeyCode::Home,
        "End" => KeyCode::End,
        "Left" => KeyCode::Left,
        "Right" => KeyCode::Right,
        "Up" => KeyCode::Up,
        "Down" => KeyCode::Down,
        "PgUp" => KeyCode::PageUp,
        "PgDn" => KeyCode::PageDown,
        _ => KeyCode::Char(word.chars().next_back()?),
    };
    if word.starts_with("C-") {
        return Some((code, CONTROL));
    }
    Some((code, if word.starts_with("A-") { ALT } else { NONE }))
}

/// The history before most scripts.
const HISTORY: &str = "first line\nsecond line\nthird fine\nfirst again\n";

/// Whether the line after a script's keys, behind a history, is what its row says.
fn goes_so(alloc: Global, history: &str, row: &str) -> Result<bool, EditFault> {
    let Some((keys, line)) = row.split_once(" = ") else {
        return Ok(false);
    };
    let mut editor = Editor::new(alloc, Limits::default())?;
    editor.load_history(history)?;
    for word in keys.split(' ') {
        let Some((code, modifiers)) = key_of(word) else {
            return Ok(false);
        };
        let event: Event = Event::Key(KeyEvent::new(code, modifiers));
        editor.turn(&event)?;
    }
    Ok(is_line(editor.line(), line))
}

#[test]
fn scripts_give_the_lines_of_readline(rt: HostRuntime) {
    for rows in &[SCRIPTS, WORDS, EDITED] {
        for row in rows.lines() {
            expect!(rt; goes_so(rt.alloc(), HISTORY, row) == Ok(true), row);
        }
    }
    for row in LAST_WORDS.lines() {
        expect!(rt; goes_so(rt.alloc(), "", row) == Ok(true), row);
    }
}

/// The history's text after four lines are accepted, of which one begins with a blank and one equals the line before it.
fn kept_by(alloc: Global, limits: Limits) -> Result<String, EditFault> {
    let mut editor = Editor::new(alloc, limits)?;
    for line in ["one", " two", "one", "one"] {
        editor.paste(line)?;
        editor.accept()?;
    }
    editor.history_text()
}

#[test]
fn limits_leave_lines_out_of_the_history(rt: HostRuntime) -> Result<(), EditFault> {
    let all = Limits::default();
    let dups = Limits {
        ignore_dups: true,
        ..all
    };
    let space = Limits {
        ignore_space: true,
        ..all
    };
    let both = Limits {
        ignore_space: true,
        ..dups
    };
    expect!(rt; kept_by(rt.alloc(), all)?.as_str() == "one\n two\none\none\n");
    expect!(rt; kept_by(rt.alloc(), dups)?.as_str() == "one\n two\none\n");
    expect!(rt; kept_by(rt.alloc(), space)?.as_str() == "one\none\none\n");
    expect!(rt; kept_by(rt.alloc(), both)?.as_str() == "one\n");
    Ok(())
}

/// What comes of a key on a line.
fn outcome_of(alloc: Global, line: &str, key: &Key) -> Result<Outcome, EditFault> {
    let mut editor = editor_of(alloc, line)?;
    let event: Event = Event::Key(KeyEvent::new(key.0, key.1));
    editor.turn(&event)
}

/// Whether the line that comes of a key is this.
fn accepts(alloc: Global, line: &str, key: &Key, want: &str) -> bool {
    match outcome_of(alloc, line, key) {
        Ok(Outcome::Line(text)) => text.as_str() == want,
        _ => false,
    }
}

#[test]
fn lines_are_accepted_interrupted_and_closed(rt: HostRuntime) {
    let alloc = rt.alloc();
    let end = (KeyCode::Char('d'), CONTROL);
    expect!(rt; accepts(alloc, "o|ne", &(KeyCode::Enter, NONE), "one"));
    expect!(rt; accepts(alloc, "o|ne", &(KeyCode::Char('j'), CONTROL), "one"));
    expect!(rt; outcome_of(alloc, "o|ne", &(KeyCode::Char('c'), CONTROL)) == Ok(Outcome::Interrupted));
    expect!(rt; outcome_of(alloc, "o|ne", &(KeyCode::Char('L'), CONTROL)) == Ok(Outcome::Clear));
    expect!(rt; outcome_of(alloc, "o|ne", &(KeyCode::Char('g'), CONTROL)) == Ok(Outcome::Ring));
    expect!(rt; outcome_of(alloc, "o|ne", &(KeyCode::Char('r'), CONTROL)) == Ok(Outcome::Going));
    expect!(rt; outcome_of(alloc, "|", &end) == Ok(Outcome::Closed));
    expect!(rt; outcome_of(alloc, "one|", &end) == Ok(Outcome::Going));
}

/// The character that an edit inserts.
fn inserted(edit: &str) -> Option<char> {
    match edit.strip_prefix('i') {
        Some("SP") => Some(' '),
        Some(rest) => rest.chars().next(),
        None => None,
    }
}

/// The action of an edit.
fn action_of(edit: &str) -> Option<Action> {
    match edit {
        "l" => Some(Action::Go(Target::Back(Stop::Cluster))),
        "r" => Some(Action::Go(Target::Forward(Stop::Cluster))),
        "h" => Some(Action::Go(Target::Back(Stop::Edge))),
        "e" => Some(Action::Go(Target::Forward(Stop::Edge))),
        "p" => Some(Action::Go(Target::Back(Stop::WordStart))),
        "n" => Some(Action::Go(Target::Forward(Stop::WordEnd))),
        "b" => Some(Action::Erase(Target::Back(Stop::Cluster))),
        "d" => Some(Action::Erase(Target::Forward(Stop::Cluster))),
        "k" => Some(Action::Kill(Target::Forward(Stop::Edge))),
        "u" => Some(Action::Kill(Target::Back(Stop::Edge))),
        "w" => Some(Action::Kill(Target::Back(Stop::WordStart))),
        "W" => Some(Action::Kill(Target::Forward(Stop::WordEnd))),
        "t" => Some(Action::Transpose),
        "U" => Some(Action::CaseWord(Case::Upper)),
        "L" => Some(Action::CaseWord(Case::Lower)),
        "C" => Some(Action::CaseWord(Case::Title)),
        "T" => Some(Action::TransposeWords),
        "E" => Some(Action::Insert('\n')),
        "^" => Some(Action::RowUp),
        "v" => Some(Action::RowDown),
        _ => inserted(edit).map(Action::Insert),
    }
}

/// Whether rustyline has the same line after the edits of a row.
fn are_alike(alloc: Global, row: &str) -> Result<bool, EditFault> {
    let Some((edits, line)) = row.split_once(" = ") else {
        return Ok(false);
    };
    let mut editor = Editor::new(alloc, Limits::default())?;
    for edit in edits.split(' ') {
        match action_of(edit) {
            Some(action) => editor.act(action)?,
            None => return Ok(false),
        }
    }
    Ok(is_line(editor.line(), line))
}

#[test]
fn edits_give_the_lines_of_rustyline(rt: HostRuntime) {
    let mut count = 0u32;
    for row in EDITS.lines() {
        expect!(rt; are_alike(rt.alloc(), row) == Ok(true), row);
        count = count.saturating_add(1);
    }
    expect!(rt; count == 297);
    for row in WORD_EDITS.lines() {
        expect!(rt; are_alike(rt.alloc(), row) == Ok(true), row);
        count = count.saturating_add(1);
    }
    expect!(rt; count == 476);
}

/// Limits by which lines have several rows.
fn multiline() -> Limits {
    Limits {
        multiline: true,
        ..Limits::default()
    }
}

/// All actions that may need memory, in an order in which each has something to do.
static ACTIONS: [Action; 37] = [
    Action::Older,
    Action::Newer,
    Action::Insert('o'),
    Action::Insert('n'),
    Action::Insert('e'),
    Action::Insert(' '),
    Action::Insert('t'),
    Action::Transpose,
    Action::Erase(Target::Back(Stop::Cluster)),
    Action::Undo,
    Action::Redo,
    Action::Kill(Target::Back(Stop::WordStart)),
    Action::Yank,
    Action::YankPop,
    Action::Go(Target::Back(Stop::Edge)),
    Action::Search,
    Action::SearchForward,
    Action::Kill(Target::Forward(Stop::Edge)),
    Action::LastWord,
    Action::LastWord,
    Action::Yank,
    Action::Insert(' '),
    Action::Yank,
    Action::TransposeWords,
    Action::Go(Target::Back(Stop::Edge)),
    Action::CaseWord(Case::Upper),
    Action::EraseBlanks,
    Action::Older,
    Action::Insert('x'),
    Action::Newer,
    Action::Older,
    Action::Undo,
    Action::Insert('\n'),
    Action::Insert('y'),
    Action::RowUp,
    Action::RowDown,
    Action::RowDown,
];

/// The keys of incremental searches, in an order in which each has something to do.
static SEARCH_KEYS: [Key; 8] = [
    (KeyCode::Char('r'), CONTROL),
    (KeyCode::Char('t'), NONE),
    (KeyCode::Char('w'), NONE),
    (KeyCode::Backspace, NONE),
    (KeyCode::Char('r'), CONTROL),
    (KeyCode::Char('s'), CONTROL),
    (KeyCode::Char('g'), CONTROL),
    (KeyCode::Char('y'), CONTROL),
];

/// The lengths of both parts of the line, and of what is looked for.
fn lengths(editor: &Editor<&LocalHeap>) -> (usize, usize, usize) {
    let line = editor.line();
    let pattern = editor.pattern().unwrap_or("");
    (line.before().len(), line.after().len(), pattern.len())
}

/// What came of a call, by the lengths before it and after it.
fn came(
    done: Result<(), EditFault>,
    before: (usize, usize, usize),
    after: (usize, usize, usize),
) -> Came {
    match done {
        Ok(()) => Came::Done,
        Err(EditFault::Memory) if after == before => Came::Refused,
        Err(_) => Came::Wrong,
    }
}

/// Whether an action that is refused leaves the lengths.
fn came_of(editor: &mut Editor<&LocalHeap>, action: Action) -> Came {
    let before = lengths(editor);
    let done = editor.act(action);
    came(done, before, lengths(editor))
}

/// Whether a key that is refused leaves the lengths.
fn came_of_key(editor: &mut Editor<&LocalHeap>, key: &Key) -> Came {
    let before = lengths(editor);
    let event: Event = Event::Key(KeyEvent::new(key.0, key.1));
    let done = match editor.turn(&event) {
        Ok(_) => Ok(()),
        Err(fault) => Err(fault),
    };
    came(done, before, lengths(editor))
}

/// What comes of all actions, of accepting the line, and of its text and the history's.
fn came_of_all(heap: &LocalHeap) -> Result<Came, EditFault> {
    let mut editor = Editor::new(heap, multiline())?;
    editor.load_history("two\n")?;
    for action in &ACTIONS {
        match came_of(&mut editor, *action) {
            Came::Done => {}
            came => return Ok(came),
        }
    }
    for key in &SEARCH_KEYS {
        match came_of_key(&mut editor, key) {
            Came::Done => {}
            came => return Ok(came),
        }
    }
    let line = editor.accept()?;
    editor.saved_line(line.as_str())?;
    editor.history_text()?;
    Ok(Came::Done)
}

/// All actions over a heap.
struct Actions;

impl Calls for Actions {
    fn over(&self, heap: &LocalHeap) -> Result<Came, AllocError> {
        match came_of_all(heap) {
            Ok(came) => Ok(came),
            Err(_) => Ok(Came::Refused),
        }
    }
}

#[test]
fn each_allocation_is_refused_and_leaves_the_line(rt: HostRuntime) -> Result<(), AllocError> {
    expect!(rt; is_refused_below_a_size(rt.alloc(), &Actions)?);
    Ok(())
}

#[test]
fn a_line_that_is_too_long_is_an_error_that_says_so(rt: HostRuntime) {
    let fault = EditFault::TooLong;
    let want = "the line would be too long";
    expect!(rt; is_text(format!(in rt.alloc(); "{fault}"), want));
    expect!(rt; is_text(format!(in rt.alloc(); "{}", io::Error::from(fault)), want));
}
