//! Actions by name, so that a file of key bindings can say them.
ghost use Rattle.std.specs.Prelude.{◌≡◌, Some};
ghost use Rattle.std.specs.Str.{chars};
ghost use Rattle.crossterm_flags.specs.Variants.{value_in};
ghost use Rattle.line_editor.specs.Names as spec;

use crate::actions::{Action, Case};
use crate::places::{Stop, Target};
use crate::texts::{is_nothing, split_first};
use std::fmt;

impl fmt::Display for Target {
    ghost output = { λ target. Some (spec.target_name target) };

    fn fmt<W: fmt::Write>(&self, f: &mut fmt::Formatter<W>) -> fmt::Result {
        match self {
            Target::Back(Stop::Cluster) => write!(f, "char-back"),
            Target::Forward(Stop::Cluster) => write!(f, "char-forward"),
            Target::Back(Stop::WordStart) => write!(f, "word-back"),
            Target::Forward(Stop::WordStart) => write!(f, "word-start-forward"),
            Target::Back(Stop::WordEnd) => write!(f, "word-end-back"),
            Target::Forward(Stop::WordEnd) => write!(f, "word-forward"),
            Target::Back(Stop::Blank) => write!(f, "blank-back"),
            Target::Forward(Stop::Blank) => write!(f, "blank-forward"),
            Target::Back(Stop::Edge) => write!(f, "line-start"),
            Target::Forward(Stop::Edge) => write!(f, "line-end"),
        }
    }
}

impl fmt::Display for Action {
    ghost output = { λ action. Some (spec.action_name action) };

    fn fmt<W: fmt::Write>(&self, f: &mut fmt::Formatter<W>) -> fmt::Result {
        match self {
            Action::Insert(' ') => write!(f, "insert-space"),
            Action::Insert('\n') => write!(f, "insert-newline"),
            Action::Insert(c) => write!(f, "insert-{c}"),
            Action::Go(target) => write!(f, "go-{target}"),
            Action::Erase(target) => write!(f, "erase-{target}"),
            Action::Kill(target) => write!(f, "kill-{target}"),
            Action::Yank => write!(f, "yank"),
            Action::YankPop => write!(f, "yank-pop"),
            Action::Transpose => write!(f, "transpose"),
            Action::Undo => write!(f, "undo"),
            Action::Redo => write!(f, "redo"),
            Action::Older => write!(f, "older"),
            Action::Newer => write!(f, "newer"),
            Action::RowUp => write!(f, "row-up"),
            Action::RowDown => write!(f, "row-down"),
            Action::Search => write!(f, "search"),
            Action::SearchForward => write!(f, "search-forward"),
            Action::CaseWord(Case::Upper) => write!(f, "upcase-word"),
            Action::CaseWord(Case::Lower) => write!(f, "downcase-word"),
            Action::CaseWord(Case::Title) => write!(f, "capitalize-word"),
            Action::TransposeWords => write!(f, "transpose-words"),
            Action::EraseBlanks => write!(f, "erase-blanks"),
            Action::LastWord => write!(f, "last-word"),
        }
    }
}

/// The target of a name.
fn target_named(name: &str) -> Option<Target>
    ensures { result ≡ value_in spec.target_rows name.now }
{
    match name {
        "char-back" => Some(Target::Back(Stop::Cluster)),
        "char-forward" => Some(Target::Forward(Stop::Cluster)),
        "word-back" => Some(Target::Back(Stop::WordStart)),
        "word-start-forward" => Some(Target::Forward(Stop::WordStart)),
        "word-end-back" => Some(Target::Back(Stop::WordEnd)),
        "word-forward" => Some(Target::Forward(Stop::WordEnd)),
        "blank-back" => Some(Target::Back(Stop::Blank)),
        "blank-forward" => Some(Target::Forward(Stop::Blank)),
        "line-start" => Some(Target::Back(Stop::Edge)),
        "line-end" => Some(Target::Forward(Stop::Edge)),
        _ => None,
    }
}

/// The action of a name that has neither a target nor a character.
fn word_named(name: &str) -> Option<Action>
    ensures { result ≡ value_in spec.action_rows name.now }
{
    match name {
        "yank" => Some(Action::Yank),
        "yank-pop" => Some(Action::YankPop),
        "transpose" => Some(Action::Transpose),
        "undo" => Some(Action::Undo),
        "redo" => Some(Action::Redo),
        "older" => Some(Action::Older),
        "newer" => Some(Action::Newer),
        "row-up" => Some(Action::RowUp),
        "row-down" => Some(Action::RowDown),
        "search" => Some(Action::Search),
        "search-forward" => Some(Action::SearchForward),
        "upcase-word" => Some(Action::CaseWord(Case::Upper)),
        "downcase-word" => Some(Action::CaseWord(Case::Lower)),
        "capitalize-word" => Some(Action::CaseWord(Case::Title)),
        "transpose-words" => Some(Action::TransposeWords),
        "erase-blanks" => Some(Action::EraseBlanks),
        "last-word" => Some(Action::LastWord),
        _ => None,
    }
}

/// The character of a text that has one.
fn one_char(text: &str) -> Option<char>
    ensures { result ≡ spec.one_char (chars text.now) }
{
    match split_first(text) {
        None => None,
        Some((c, rest)) => { if is_nothing(rest) { Some(c) } else { None } }
    }
}

/// The character of a name.
fn char_named(name: &str) -> Option<char>
    ensures { result ≡ spec.char_named name.now }
{
    match one_char(name) {
        Some(c) => Some(c),
        None => match name {
            "space" => Some(' '),
            "newline" => Some('\n'),
            _ => None,
        },
    }
}

/// The action of a verb and what follows it.
fn verb_named(verb: &str, rest: &str) -> Option<Action>
    ensures { result ≡ spec.verb_named verb.now rest.now }
{
    match verb {
        "go" => target_named(rest).map(Action::Go),
        "erase" => target_named(rest).map(Action::Erase),
        "kill" => target_named(rest).map(Action::Kill),
        "insert" => char_named(rest).map(Action::Insert),
        _ => None,
    }
}

impl Action {
    /// The action of a name, and `None` if there is no such. `Display` writes the names.
    ///
    /// | Names | Actions |
    /// |---|---|
    /// | `insert-x`, `insert-space`, `insert-newline` | typing of a character |
    /// | `go-`, `erase-` or `kill-`, and a target's name | moves, erasures and kills |
    /// | `upcase-word`, `downcase-word`, `capitalize-word` | words in another case |
    /// | `yank`, `yank-pop`, `transpose`, `undo`, `redo`, `older`, `newer`, `row-up`, `row-down`, `search`, `search-forward`, `transpose-words`, `erase-blanks`, `last-word` | the others |
    ///
    /// Targets are `char-back`, `char-forward`, `word-back`, `word-forward`, `word-end-back`, `word-start-forward`, `blank-back`,
    /// `blank-forward`, `line-start` and `line-end`.
    ///
    /// ```
    /// assert_eq!(rt; Action::from_name("kill-word-back"), Some(Action::Kill(Target::Back(Stop::WordStart))));
    /// ```
    pub fn from_name(name: &str) -> Option<Action>
        ensures { result ≡ spec.action_named name.now }
    {
        match word_named(name) {
            Some(action) => Some(action),
            None => match name.split_once('-') {
                None => None,
                Some((verb, rest)) => verb_named(verb, rest),
            },
        }
    }
}
