//! Lines, the newest first.
ghost use Rattle.std.specs.Prelude.{◌≡◌, [], ◌∷◌, IfOk, IfSome, OnOk, OnErr, drop, length, slice_get, take};
ghost use Rattle.std.specs.Option.{option_map};
ghost use Rattle.std.specs.Str.{chars};
ghost use Rattle.line_editor.specs.Edits.{last_word};
ghost use Rattle.line_editor.specs.Seeking.{first_number, is_wanted, last_number, wanted};
ghost use Rattle.line_editor.specs.Shown.{AreRows};
ghost use Rattle.line_editor.specs.Splits.{line_text};
ghost use Rattle.line_editor.specs.States.{first_with, is_newest, last_with, last_word_of};

use crate::lines::Line;
use crate::places::{Stop, Target, unblanked_before};
use crate::texts::{is_same, is_wanted, other_rest};
use std::alloc::{AllocError, Allocator, Global};
use std::collections::VecDeque;
use std::marker::Model;

/// Lines, of which the newest is the first.
#[derive(Drop)]
pub(crate) struct RecentLines<A: Allocator = Global> {
    lines: VecDeque<Line<A>, A>,
}

impl<A: Allocator> Model for RecentLines<A> {
    ghost use Rattle.std.specs.Prelude.{List};
    ghost use Rattle.line_editor.specs.Splits.{Split};

    ghost Value = { List Split };

    ghost view = { λ r. r.lines.items };
}

/// The last word between white space of a line whose cursor is at its end.
fn last_word<A: Allocator>(line: &Line<A>) -> &str
    ensures text { chars result.now ≡ last_word line.now }
    ensures shown { AreRows (chars result.now) }
{
    let text = line.cut(Target::Back(Stop::Blank));
    let end = unblanked_before(text, text.len());
    &text[0..end]
}

impl<A: Allocator> RecentLines<A> {
    /// No lines.
    pub(crate) fn new(alloc: A) -> RecentLines<A>
        ensures { result ≡ [] }
    {
        RecentLines {
            lines: VecDeque::new(alloc),
        }
    }

    /// How many lines there are.
    pub(crate) fn len(&self) -> usize
        ensures { result ≡ length self.now }
    {
        self.lines.len()
    }

    /// Lets all lines go.
    pub(crate) fn clear(&mut self)
        ensures { self.new ≡ [] }
    {
        self.lines.clear();
    }

    /// Adds a line, and lets the oldest ones go beyond a limit.
    ///
    /// # Errors
    ///
    /// `AllocError` if memory was refused. Then nothing has changed.
    pub(crate) fn add(&mut self, line: Line<A>, limit: usize) -> Result<(), AllocError>
        ensures ok { OnOk result (self.new ≡ take limit (line ∷ self.old)) }
        ensures err { OnErr result (self.new ≡ self.old) }
    {
        self.lines.reserve(1)?;
        self.lines.push_front_reserved(line);
        self.lines.truncate(limit);
        Ok(())
    }
}

impl<A: Allocator> RecentLines<A> {
    /// The line with so many newer ones, if there is one.
    pub(crate) fn get(&self, at: usize) -> Option<&Line<A>>
        ensures { option_map (λ line. line.now) result ≡ slice_get self.now at }
    {
        self.lines.get(at)
    }

    /// The text of the line with so many newer ones, if there is one.
    pub(crate) fn text_at(&self, at: usize) -> Option<&str>
        ensures text { option_map (λ text. chars text.now) result ≡ option_map line_text (slice_get self.now at) }
        ensures shown { IfSome result (λ text. AreRows (chars text.now)) }
    {
        match self.lines.get(at) {
            None => None,
            Some(line) => Some(line.text()),
        }
    }

    /// The last word between white space of the line with so many newer ones, or no text if there is no such line.
    pub(crate) fn last_word(&self, at: usize) -> &str
        ensures text { chars result.now ≡ last_word_of (slice_get self.now at) }
        ensures shown { AreRows (chars result.now) }
    {
        match self.lines.get(at) {
            None => "",
            Some(line) => last_word(line),
        }
    }

    /// Whether a text is that of the newest line.
    pub(crate) fn is_newest(&self, text: &str) -> bool
        ensures { result ≡ is_newest (chars text.now) self.now }
    {
        match self.text_at(0) {
            None => false,
            Some(newest) => is_same(text, newest),
        }
    }

    /// The first line behind so many newer ones that begins with a text, and isn't the line that is shown: its number from 1, and the rest
    /// of it.
    pub(crate) fn find(&self, front: &str, shown: &str, from: usize) -> Option<(usize, &str)>
        ensures found { option_map (λ found. (found.0, chars found.1.now)) result ≡ first_with (chars front.now) (chars shown.now) from (drop from self.now) }
        ensures shown { IfSome result (λ found. AreRows (chars found.1.now)) }
    {
        for at in from..self.lines.len() {
            if let Some(text) = self.text_at(at) {
                if let Some(rest) = other_rest(text, front, shown) {
                    return Some((at + 1, rest));
                }
            }
        }
        None
    }

    /// The last of so many lines from the newest on that begins with a text, and isn't the line that is shown: its number from 1, and the
    /// rest of it.
    pub(crate) fn find_newer(&self, front: &str, shown: &str, count: usize) -> Option<(usize, &str)>
        ensures found { option_map (λ found. (found.0, chars found.1.now)) result ≡ last_with (chars front.now) (chars shown.now) count self.now }
        ensures shown { IfSome result (λ found. AreRows (chars found.1.now)) }
    {
        let mut number = count;
        while number > 0 {
            if let Some(text) = self.text_at(number - 1) {
                if let Some(rest) = other_rest(text, front, shown) {
                    return Some((number, rest));
                }
            }
            number -= 1;
        }
        None
    }

    /// Whether a line with so many newer ones has a pattern that isn't empty. If a text is shown, it must be another one.
    fn has(&self, at: usize, pattern: &str, shown: Option<&str>) -> bool
        ensures { result ≡ is_wanted (wanted (chars pattern.now) (option_map (λ text. chars text.now) shown.entry)) (slice_get self.now at) }
    {
        match self.text_at(at) {
            None => false,
            Some(text) => is_wanted(text, pattern, shown),
        }
    }

    /// The number, from 1, of the first line behind so many newer ones that has a pattern.
    pub(crate) fn number_from(
        &self,
        pattern: &str,
        shown: Option<&str>,
        from: usize,
    ) -> Option<usize>
        ensures { result ≡ first_number (wanted (chars pattern.now) (option_map (λ text. chars text.now) shown.entry)) from (drop from self.now) }
    {
        for at in from..self.lines.len() {
            if self.has(at, pattern, shown) {
                return Some(at + 1);
            }
        }
        None
    }

    /// The number of the last of so many lines from the newest on that has a pattern.
    pub(crate) fn number_before(
        &self,
        pattern: &str,
        shown: Option<&str>,
        count: usize,
    ) -> Option<usize>
        ensures { result ≡ last_number (wanted (chars pattern.now) (option_map (λ text. chars text.now) shown.entry)) count self.now }
    {
        let mut number = count;
        while number > 0 {
            if self.has(number - 1, pattern, shown) {
                return Some(number);
            }
            number -= 1;
        }
        None
    }
}

impl<A: Allocator + Clone> RecentLines<A> {
    /// The line with so many newer ones, if there is one, once more.
    ///
    /// # Errors
    ///
    /// `AllocError` if memory was refused.
    pub(crate) fn copy_of(&self, at: usize) -> Result<Option<Line<A>>, AllocError>
        ensures { IfOk result (λ line. line ≡ slice_get self.now at) }
    {
        match self.lines.get(at) {
            None => Ok(None),
            Some(line) => {
                let line = line.copy()?;
                Ok(Some(line))
            }
        }
    }
}
