//! The incremental search of an editor: what is typed is looked for in the accepted lines.
ghost use Rattle.std.specs.Prelude.{◌≡◌, ◌-◌, IfOk, IfSome, OnErr, OnOk, not, slice_get};
ghost use Rattle.std.specs.Option.{option_map};
ghost use Rattle.std.specs.Str.{chars};
ghost use Rattle.line_editor.specs.Seeking.{begun, brought, found_here, found_next, given_up, has_found, is_ahead, is_more, is_seeking, pattern_of, put_back, rings_less, rings_more, rings_next, rings_with, sought_less, sought_more, sought_next, sought_on, sought_with};
ghost use Rattle.line_editor.specs.Shown.{AreRows};
ghost use Rattle.line_editor.specs.Splits.{line_text};
ghost use Rattle.line_editor.specs.States.{gone_to};
ghost use Rattle.line_editor.specs.Turns.{search_key};

use crate::actions::Action;
use crate::editor::Editor;
use crate::keys::KeyCommand;
use crate::last::{Last, Seek, rung};
use crate::lines::Line;
use crate::places::{Stop, Target};
use crate::shown::comes_in;
use std::alloc::{AllocError, Allocator};

/// A key, as an incremental search that goes on takes it.
#[derive(Clone, Copy, PartialEq, Eq, Debug)]
pub(crate) enum SearchKey {
    /// A character of what is looked for.
    More(char),
    /// Its last cluster is taken back.
    Less,
    /// The search is given up.
    GiveUp,
}

/// The key of a command, as a search takes it, if it doesn't end one.
pub(crate) fn search_key(command: KeyCommand) -> Option<SearchKey>
    ensures { result ≡ search_key command }
{
    match command {
        KeyCommand::Act(Action::Insert('\n')) => None,
        KeyCommand::Act(Action::Insert(c)) => Some(SearchKey::More(c)),
        KeyCommand::Act(Action::Erase(Target::Back(Stop::Cluster))) => Some(SearchKey::Less),
        KeyCommand::Interrupt => Some(SearchKey::GiveUp),
        _ => None,
    }
}

/// Whether an incremental search goes on after an action.
fn is_seeking(last: Last) -> bool
    ensures { result ≡ is_seeking last }
{
    match last {
        Last::Seeking(_) => true,
        Last::Other | Last::Walked | Last::Killed | Last::Yanked | Last::Took(_) => false,
    }
}

/// Whether it goes to newer lines.
fn is_ahead(last: Last) -> bool
    ensures { result ≡ is_ahead last }
{
    match last {
        Last::Seeking(seek) => seek.ahead,
        Last::Other | Last::Walked | Last::Killed | Last::Yanked | Last::Took(_) => false,
    }
}

/// Whether it has found a line.
fn has_found(last: Last) -> bool
    ensures { result ≡ has_found last }
{
    match last {
        Last::Seeking(seek) => seek.found,
        Last::Other | Last::Walked | Last::Killed | Last::Yanked | Last::Took(_) => false,
    }
}

impl<A: Allocator> Editor<A> {
    /// The text that an incremental search looks for, while one goes on. The line is the one that it found.
    ///
    /// ```
    /// if let Some(pattern) = editor.pattern() {
    ///     write!(out, "(i-search)`{pattern}': ")?;
    /// }
    /// ```
    pub fn pattern(&self) -> Option<&str>
        ensures text { option_map (λ text. chars text.now) result ≡ pattern_of self.now }
        ensures shown { IfSome result (λ text. AreRows (chars text.now)) }
    {
        if is_seeking(self.last) {
            return Some(self.pattern.text());
        }
        None
    }

    /// Whether an incremental search goes on, and goes to newer lines.
    ///
    /// ```
    /// let name = if editor.is_ahead() { "i-search" } else { "reverse-i-search" };
    /// ```
    pub fn is_ahead(&self) -> bool
        ensures { result ≡ is_ahead self.now.last }
    {
        is_ahead(self.last)
    }

    /// Whether an incremental search goes on.
    pub(crate) fn is_seeking(&self) -> bool
        ensures { result ≡ is_seeking self.now.last }
    {
        is_seeking(self.last)
    }

    /// Whether a character comes into what is looked for.
    fn is_more(&self, c: char) -> bool
        ensures { result ≡ is_more c self.now }
    {
        let len = self.pattern.text().len();
        comes_in(self.limits.multiline, c)
            && len <= self.limits.bytes
            && c.len_utf8() <= self.limits.bytes - len
    }

    /// The next line with what is looked for, and another text.
    fn found_next(&self, ahead: bool) -> Option<usize>
        ensures { result ≡ found_next ahead self.now }
    {
        let pattern = self.pattern.text();
        let shown = Some(self.draft.line().text());
        if ahead {
            let count = self.back.saturating_sub(1);
            return self.history.number_before(pattern, shown, count);
        }
        self.history.number_from(pattern, shown, self.back)
    }

    /// The next line with a pattern, from the one that is shown on.
    fn found_here(&self, pattern: &str) -> Option<usize>
        ensures { result ≡ found_here (chars pattern.now) (is_ahead self.now.last) self.now }
    {
        if is_ahead(self.last) {
            return self.history.number_before(pattern, None, self.back);
        }
        let from = self.back.saturating_sub(1);
        self.history.number_from(pattern, None, from)
    }
}

impl<A: Allocator + Clone> Editor<A> {
    /// Shows a line of the history by its number.
    fn bring_to(&mut self, number: usize) -> Result<(), AllocError>
        ensures ok { OnOk result (self.new ≡ gone_to number (slice_get self.old.history (number - 1)) self.old) }
        ensures err { OnErr result (self.new ≡ self.old) }
    {
        let at = number.saturating_sub(1);
        match self.history.copy_of(at)? {
            None => Ok(()),
            Some(line) => self.show_at(number, line),
        }
    }

    /// The same, unless the search shows it already.
    fn bring(&mut self, number: usize) -> Result<(), AllocError>
        ensures ok { OnOk result (self.new ≡ brought number self.old) }
        ensures err { OnErr result (self.new ≡ self.old) }
    {
        if has_found(self.last) && self.back == number {
            return Ok(());
        }
        self.bring_to(number)
    }

    /// Goes on to what was found.
    fn seek(&mut self, ahead: bool, found: Option<usize>) -> Result<(), AllocError>
        ensures ok { OnOk result (self.new ≡ sought_on ahead found self.old) }
        ensures err { OnErr result (self.new ≡ self.old) }
    {
        match found {
            None => {
                let found = has_found(self.last);
                self.last = Last::Seeking(Seek { ahead, found });
                Ok(())
            }
            Some(number) => {
                self.bring(number)?;
                self.last = Last::Seeking(Seek { ahead, found: true });
                Ok(())
            }
        }
    }

    /// Begins to look for nothing.
    fn begin_search(&mut self, ahead: bool) -> Result<(), AllocError>
        ensures ok { OnOk result (self.new ≡ begun ahead self.old) }
        ensures err { OnErr result (self.new ≡ self.old) }
    {
        let line = self.draft.line().copy()?;
        self.began = line;
        self.began_back = self.back;
        self.pattern.clear();
        let found = false;
        self.last = Last::Seeking(Seek { ahead, found });
        Ok(())
    }

    /// Begins a search, or goes on to the next line. Returns whether none was found.
    pub(crate) fn seek_next(&mut self, ahead: bool) -> Result<bool, AllocError>
        ensures ok { OnOk result (self.new ≡ sought_next ahead self.old) }
        ensures rings { IfOk result (λ rings. rings ≡ rings_next ahead self.old) }
        ensures err { OnErr result (self.new ≡ self.old) }
    {
        if !is_seeking(self.last) {
            self.begin_search(ahead)?;
            return Ok(false);
        }
        let found = self.found_next(ahead);
        self.seek(ahead, found)?;
        Ok(found.is_none())
    }

    /// Goes on with another pattern. Returns whether it wasn't found.
    fn seek_with(&mut self, pattern: Line<A>) -> Result<bool, AllocError>
        ensures ok { OnOk result (self.new ≡ sought_with pattern self.old) }
        ensures rings { IfOk result (λ rings. rings ≡ rings_with (line_text pattern) self.old) }
        ensures err { OnErr result (self.new ≡ self.old) }
    {
        let found = self.found_here(pattern.text());
        let ahead = is_ahead(self.last);
        self.seek(ahead, found)?;
        self.pattern = pattern;
        Ok(found.is_none())
    }

    /// Looks for a character more. Returns whether it wasn't found, or doesn't come into what is looked for.
    pub(crate) fn seek_more(&mut self, c: char) -> Result<bool, AllocError>
        ensures ok { OnOk result (self.new ≡ sought_more c self.old) }
        ensures rings { IfOk result (λ rings. rings ≡ rings_more c self.old) }
        ensures err { OnErr result (self.new ≡ self.old) }
    {
        if !self.is_more(c) {
            return Ok(true);
        }
        let pattern = self.pattern.copy_with(c)?;
        self.seek_with(pattern)
    }

    /// Looks for a cluster less. Returns whether the rest wasn't found.
    pub(crate) fn seek_less(&mut self) -> Result<bool, AllocError>
        ensures ok { OnOk result (self.new ≡ sought_less self.old) }
        ensures rings { IfOk result (λ rings. rings ≡ rings_less self.old) }
        ensures err { OnErr result (self.new ≡ self.old) }
    {
        let pattern = self.pattern.copy_without(Target::Back(Stop::Cluster))?;
        self.seek_with(pattern)
    }

    /// Shows the line from which the search began.
    fn put_back(&mut self) -> Result<(), AllocError>
        ensures ok { OnOk result (self.new ≡ put_back self.old) }
        ensures err { OnErr result (self.new ≡ self.old) }
    {
        if !has_found(self.last) {
            return Ok(());
        }
        let line = self.began.copy()?;
        self.show_at(self.began_back, line)
    }

    /// Gives the search up. Returns whether there is none.
    pub(crate) fn give_up(&mut self) -> Result<bool, AllocError>
        ensures ok { OnOk result (self.new ≡ given_up self.old) }
        ensures rings { IfOk result (λ rings. rings ≡ not (is_seeking self.old.last)) }
        ensures err { OnErr result (self.new ≡ self.old) }
    {
        let last = self.last;
        self.put_back()?;
        self.last = rung(last);
        Ok(!is_seeking(last))
    }
}
