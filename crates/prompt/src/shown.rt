//! What is shown of a line.
ghost use Rattle.std.specs.Prelude.{◌≡◌, [], map};
ghost use Rattle.prompt.specs.Shown as spec;
ghost use Rattle.prompt.specs.Shown.{runs_of};

use crate::prompts::has_control;
use crossterm::style::StyledContent;
use line_editor::Line;
use std::alloc::{Allocator, Global};
use std::marker::Model;

/// Whether a text or one of some parts has a control character.
pub(crate) fn have_control(text: &str, parts: &[StyledContent<&str>]) -> bool
    ensures { result ≡ spec.have_control (runs_of text.now parts.now) }
{
    if has_control(text) {
        return true;
    }
    for part in parts {
        if has_control(part.content()) {
            return true;
        }
    }
    false
}

/// What is shown of a line: the prompt before it, a hint behind it, and candidates below it.
///
/// ```
/// let shown = Shown::new("> ", editor.line()).with_hint("your name");
/// rows.draw(&mut out, &shown)?;
/// ```
#[derive(Drop)]
pub struct Shown<'a, A: Allocator = Global> {
    // The prompt: a text without a style, and styled parts behind it.
    pub(crate) text: &'a str,
    pub(crate) parts: &'a [StyledContent<&'a str>],
    pub(crate) line: &'a Line<A>,
    pub(crate) hint: &'a str,
    pub(crate) candidates: &'a [&'a str],
}

impl<'a, A: Allocator> Model for Shown<'a, A> {
    ghost use Rattle.std.specs.Prelude.{map};
    ghost use Rattle.prompt.specs.Shown as spec;

    ghost Value = { spec.Shown };

    ghost view = { λ s. record { prompt = spec.runs_of s.text.now s.parts.now; line = s.line.now; hint = s.hint.now; candidates = map (λ n. n.now) s.candidates.now } };
}

impl<'a, A: Allocator> Shown<'a, A> {
    /// A line behind a prompt.
    ///
    /// ```
    /// let shown = Shown::new("> ", editor.line());
    /// ```
    pub fn new(prompt: &'a str, line: &'a Line<A>) -> Shown<'a, A>
        ensures { result ≡ record { prompt = runs_of prompt.now []; line = line.now; hint = []; candidates = [] } }
    {
        Shown {
            text: prompt,
            parts: &[],
            line,
            hint: "",
            candidates: &[],
        }
    }

    /// A line behind a prompt of several parts, each in its style.
    ///
    /// ```
    /// let prompt = ["~/src".blue(), "> ".bold()];
    /// let shown = Shown::styled(&prompt, editor.line());
    /// ```
    pub fn styled(prompt: &'a [StyledContent<&'a str>], line: &'a Line<A>) -> Shown<'a, A>
        ensures { result ≡ record { prompt = runs_of [] prompt.now; line = line.now; hint = []; candidates = [] } }
    {
        Shown {
            text: "",
            parts: prompt,
            line,
            hint: "",
            candidates: &[],
        }
    }

    /// The same with a hint, which is shown dimmed behind the line if the cursor is at the line's end and its row has room for all of it. One
    /// with a control character isn't shown.
    ///
    /// ```
    /// let shown = Shown::new("> ", editor.line()).with_hint("your name");
    /// ```
    pub fn with_hint(self, hint: &'a str) -> Shown<'a, A>
        ensures { result ≡ record self.entry { hint = hint.now } }
    {
        Shown { hint, ..self }
    }

    /// The same with texts with which the line may go on: they are listed in columns below it, as far as the window has rows. With any there is no
    /// hint. A line in one row lists none.
    ///
    /// ```
    /// let shown = Shown::new("> ", editor.line()).with_candidates(&["help", "history"]);
    /// ```
    pub fn with_candidates(self, candidates: &'a [&'a str]) -> Shown<'a, A>
        ensures { result ≡ record self.entry { candidates = map (λ n. n.now) candidates.now } }
    {
        Shown { candidates, ..self }
    }
}
