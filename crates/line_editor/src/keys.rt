//! The commands of keys: the Emacs bindings of GNU readline.
ghost use Rattle.std.specs.Prelude.{◌≡◌};
ghost use Rattle.line_editor.specs.Keys as spec;

use crate::actions::{Action, Case};
use crate::places::{Stop, Target};
use crossterm_types::event::{KeyCode, KeyEvent, KeyEventKind};

/// The command of a key, as an editor takes it.
#[derive(Clone, Copy, PartialEq, Eq, Debug)]
pub enum KeyCommand {
    /// An action.
    Act(Action),
    /// To accept the line (`accept-line`).
    Accept,
    /// To let the line go (Ctrl-C).
    Interrupt,
    /// To erase the cluster at the cursor, or to close an empty line (`delete-char`, which is an end of file on an empty line).
    EraseOrClose,
    /// To draw the line anew at the top of an empty window (`clear-screen`).
    Clear,
    /// To begin an incremental search, or to go on to an older line (`reverse-search-history`).
    SearchBack,
    /// To begin one, or to go on to a newer line (`forward-search-history`).
    SearchAhead,
    /// To give an incremental search up (`abort`).
    Abort,
    /// To take what an incremental search found (Esc).
    EndSearch,
}

/// The command of a key without Control and Alt.
fn plain(code: KeyCode) -> Option<KeyCommand>
    ensures { result ≡ spec.unmodified code }
{
    let action = match code {
        KeyCode::Char(c) => Action::Insert(c),
        KeyCode::Enter => return Some(KeyCommand::Accept),
        KeyCode::Esc => return Some(KeyCommand::EndSearch),
        KeyCode::Backspace => Action::Erase(Target::Back(Stop::Cluster)),
        KeyCode::Delete => Action::Erase(Target::Forward(Stop::Cluster)),
        KeyCode::Left => Action::Go(Target::Back(Stop::Cluster)),
        KeyCode::Right => Action::Go(Target::Forward(Stop::Cluster)),
        KeyCode::Home => Action::Go(Target::Back(Stop::Edge)),
        KeyCode::End => Action::Go(Target::Forward(Stop::Edge)),
        KeyCode::Up => Action::RowUp,
        KeyCode::Down => Action::RowDown,
        KeyCode::PageUp => Action::Search,
        KeyCode::PageDown => Action::SearchForward,
        _ => return None,
    };
    Some(KeyCommand::Act(action))
}

/// The command of a character with Control.
fn control_char(c: char) -> Option<KeyCommand>
    ensures { result ≡ spec.row_in spec.control_rows c }
{
    let action = match c {
        'a' => Action::Go(Target::Back(Stop::Edge)),
        'b' => Action::Go(Target::Back(Stop::Cluster)),
        'c' => return Some(KeyCommand::Interrupt),
        'd' => return Some(KeyCommand::EraseOrClose),
        'e' => Action::Go(Target::Forward(Stop::Edge)),
        'f' => Action::Go(Target::Forward(Stop::Cluster)),
        'g' => return Some(KeyCommand::Abort),
        'h' => Action::Erase(Target::Back(Stop::Cluster)),
        'j' => return Some(KeyCommand::Accept),
        'k' => Action::Kill(Target::Forward(Stop::Edge)),
        'l' => return Some(KeyCommand::Clear),
        'm' => return Some(KeyCommand::Accept),
        'n' => Action::Newer,
        'p' => Action::Older,
        'r' => return Some(KeyCommand::SearchBack),
        's' => return Some(KeyCommand::SearchAhead),
        't' => Action::Transpose,
        'u' => Action::Kill(Target::Back(Stop::Edge)),
        'w' => Action::Kill(Target::Back(Stop::Blank)),
        'y' => Action::Yank,
        '_' => Action::Undo,
        '7' => Action::Undo,
        _ => return None,
    };
    Some(KeyCommand::Act(action))
}

/// The command of a key with Control.
fn control(code: KeyCode) -> Option<KeyCommand>
    ensures { result ≡ spec.control_key code }
{
    match code {
        KeyCode::Char(c) => control_char(c.to_ascii_lowercase()),
        KeyCode::Left => Some(KeyCommand::Act(Action::Go(Target::Back(Stop::WordStart)))),
        KeyCode::Right => Some(KeyCommand::Act(Action::Go(Target::Forward(Stop::WordEnd)))),
        _ => None,
    }
}

/// The command of a character with Alt.
fn alt_char(c: char) -> Option<KeyCommand>
    ensures { result ≡ spec.row_in spec.alt_rows c }
{
    let action = match c {
        'b' => Action::Go(Target::Back(Stop::WordStart)),
        'd' => Action::Kill(Target::Forward(Stop::WordEnd)),
        'f' => Action::Go(Target::Forward(Stop::WordEnd)),
        'y' => Action::YankPop,
        'c' => Action::CaseWord(Case::Title),
        'l' => Action::CaseWord(Case::Lower),
        'u' => Action::CaseWord(Case::Upper),
        't' => Action::TransposeWords,
        '.' => Action::LastWord,
        '\\' => Action::EraseBlanks,
        _ => return None,
    };
    Some(KeyCommand::Act(action))
}

/// The command of a key with Alt.
fn alt(code: KeyCode) -> Option<KeyCommand>
    ensures { result ≡ spec.alt code }
{
    match code {
        KeyCode::Char(c) => alt_char(c.to_ascii_lowercase()),
        KeyCode::Backspace => Some(KeyCommand::Act(Action::Kill(Target::Back(Stop::WordStart)))),
        KeyCode::Enter => Some(KeyCommand::Act(Action::Insert('\n'))),
        _ => None,
    }
}

/// The command of a key with Control and Alt.
fn both(code: KeyCode) -> Option<KeyCommand>
    ensures { result ≡ spec.control_alt_key code }
{
    match code {
        KeyCode::Char('_') => Some(KeyCommand::Act(Action::Redo)),
        KeyCode::Char('7') => Some(KeyCommand::Act(Action::Redo)),
        _ => None,
    }
}

/// The command of a key, by the Emacs bindings of GNU readline, and `None` if the key is bound to nothing or was let go.
///
/// | Keys | Command of readline |
/// |---|---|
/// | a character, also with Shift | `self-insert` |
/// | Ctrl-A, Home; Ctrl-E, End | `beginning-of-line`, `end-of-line` |
/// | Ctrl-B, Left; Ctrl-F, Right | `backward-char`, `forward-char` |
/// | Alt-B, Ctrl-Left; Alt-F, Ctrl-Right | `backward-word`, `forward-word` |
/// | Backspace, Ctrl-H; Ctrl-D, Delete | `backward-delete-char`, `delete-char` |
/// | Ctrl-K; Ctrl-U | `kill-line`, `unix-line-discard` |
/// | Alt-D; Alt-Backspace; Ctrl-W | `kill-word`, `backward-kill-word`, `unix-word-rubout` |
/// | Ctrl-Y; Alt-Y | `yank`, `yank-pop` |
/// | Ctrl-T; Alt-T | `transpose-chars`, `transpose-words` |
/// | Alt-U; Alt-L; Alt-C | `upcase-word`, `downcase-word`, `capitalize-word` |
/// | `Alt-\` | `delete-horizontal-space` |
/// | Alt-. | `yank-last-arg` |
/// | Ctrl-_ | `undo` |
/// | Up, Ctrl-P; Down, Ctrl-N | `previous-history`, `next-history`; Up and Down go by rows first in a line of several |
/// | Ctrl-R; Ctrl-S | `reverse-search-history`, `forward-search-history` |
/// | Ctrl-G | `abort` |
/// | Page Up; Page Down | `history-search-backward`, `history-search-forward` |
/// | Ctrl-L | `clear-screen` |
/// | Enter, Ctrl-J, Ctrl-M | `accept-line` |
/// | Ctrl-C | an interrupt |
/// | Ctrl-Alt-_ | a redo, which readline hasn't |
/// | Alt-Enter | a line feed, if lines may have several rows (`Limits::multiline`) |
///
/// These are 33 usual commands, of which bash binds 31 by default, and 85 in all. Terminals report Ctrl-_ as Ctrl-7, and both are bound. Shift makes no
/// difference but in the character, and large letters with Control or Alt are as small ones.
///
/// The differences from readline:
///
/// | Here | In readline |
/// |---|---|
/// | a search back skips each line that equals the one that is shown | behind a text it skips one that equals the line it found before, and else none |
/// | behind a line that a search for a text found, Up and a search for any line go on from that line | they go on from the line before the search |
/// | a search forward for any line comes at last to the unfinished line | only if the search back began there |
/// | the unfinished line comes back with its cursor | with the cursor at its end, and not at all after Page Up or Page Down from a line of the history |
/// | Ctrl-W takes every white space for the end of a word | blanks and tabs alone |
/// | an edited line of the history is as it was accepted once a line is accepted or let go | that is so of the accepted line alone |
/// | searches and Alt-. look at lines as they were accepted; what a search brings in place of an edit is a change of that line | as they were edited |
/// | Ctrl-_ takes back all characters that were typed side by side | 20 at a time, each one beyond ASCII by itself, and all with what was written just before at that place |
/// | an undo brings the cursor back to its place | it is behind the text that comes back |
/// | Ctrl-T in a line of one character is no change | it is one to undo if that character is beyond ASCII |
/// | Alt-Y is undone as one change | the yanked text is taken out and the other put in, one after the other |
/// | Alt-. takes what is between white space | a word of the shell: one in quotes is whole, and a semicolon or a bar ends one |
/// | each Alt-. is undone as a change of its own | an undo takes the word out, however often another took its place |
/// | `Alt-\` erases every white space | blanks and tabs alone |
/// | a letter whose other case is several characters in Unicode stays | a few of them, as İ and ᾳ, become the one letter that C has for them |
/// | a letter behind a mark that has no letter before it is brought into a case too | it stays |
/// | a blank with a mark on it ends no word for Ctrl-W and Alt-. | it does |
/// | the last 60 kills are kept | the last 10 |
/// | an incremental search goes from line to line, with the cursor at the end of what it finds | from match to match, with the cursor at its start |
/// | it looks in the accepted lines alone | in the line too |
/// | one that finds nothing leaves the cursor | the cursor may move |
/// | Ctrl-S goes to a newer line at once | it turns a search back around first |
/// | Ctrl-R on nothing rings | it looks for what was looked for last |
/// | Ctrl-W, Ctrl-Y and a paste take what was found, as other keys do | they bring more into what is looked for |
/// | Ctrl-C gives a search up | it lets the line go |
/// | what Backspace brings back stays the line that is shown | an older line with the shorter text may come |
/// | line ends and tabs of a paste are blanks, or line feeds and blanks in a line of several rows | they are kept |
///
/// ```
/// let key = KeyEvent::new(KeyCode::Char('k'), KeyModifiers::CONTROL);
/// assert_eq!(rt; command_of(&key), Some(KeyCommand::Act(Action::Kill(Target::Forward(Stop::Edge)))));
/// ```
pub fn command_of(key: &KeyEvent) -> Option<KeyCommand>
    ensures { result ≡ spec.command_of key.now }
{
    match key.kind {
        KeyEventKind::Release => None,
        KeyEventKind::Press | KeyEventKind::Repeat => match key.modifiers.bits() & 254 {
            0 => plain(key.code),
            2 => control(key.code),
            4 => alt(key.code),
            6 => both(key.code),
            _ => None,
        },
    }
}
