//! The history of an editor: lines that were accepted are shown and edited, and searched by their beginning.
ghost use Rattle.std.specs.Prelude.{◌≡◌, ◌+◌, false, true, IfOk, OnOk, OnErr};
ghost use Rattle.std.specs.Str.{chars};
ghost use Rattle.line_editor.specs.Shown.{AreRows};
ghost use Rattle.line_editor.specs.Edits.{empty_line};
ghost use Rattle.line_editor.specs.States.{brought_to, by_row, found, found_newer, gone_to, left_at, line_at, line_or, newer_from, row_beside, searched_forward, searched_to, sought};

use crate::editor::Editor;
use crate::last::Last;
use crate::left::{Left, line_of, take_or_begin};
use crate::lines::Line;
use crate::places::{Stop, Target};
use crate::texts::is_nothing;
use std::alloc::{AllocError, Allocator};
use std::mem;

impl<A: Allocator + Clone> Editor<A> {
    /// Shows a line of some place in the history. The line that is left for it, and one that was left there before, keep what can be undone
    /// of them.
    pub(crate) fn show_at(&mut self, place: usize, line: Line<A>) -> Result<(), AllocError>
        ensures ok { OnOk result (self.new ≡ brought_to place line self.old) }
        ensures err { OnErr result (self.new ≡ self.old) }
    {
        let steps = self.limits.steps;
        if place == self.back {
            self.draft.show(line, steps)?;
            return Ok(());
        }
        self.left.reserve(1)?;
        let next = take_or_begin(&mut self.left, &self.alloc, place, line, steps)?;
        let draft = mem::replace(&mut self.draft, next);
        let place_left = self.back;
        self.left.push_front_reserved(Left {
            place: place_left,
            draft,
        });
        self.back = place;
        Ok(())
    }

    /// The line that isn't from the history.
    fn unfinished(&self) -> Result<Line<A>, AllocError>
        ensures { IfOk result (λ line. line ≡ line_or empty_line (left_at 0 self.now.left)) }
    {
        match line_of(&self.left, 0) {
            Some(line) => line.copy(),
            None => Ok(Line::new(self.alloc.clone()?)),
        }
    }

    /// The line at a place, as it was left or accepted.
    fn line_at(&self, place: usize) -> Result<Option<Line<A>>, AllocError>
        ensures { IfOk result (λ line. line ≡ line_at place self.now) }
    {
        if place == 0 {
            let line = self.unfinished()?;
            return Ok(Some(line));
        }
        match self.history.get(place - 1) {
            None => Ok(None),
            Some(accepted) => {
                let mut line = match line_of(&self.left, place) {
                    Some(left) => left.copy()?,
                    None => accepted.copy()?,
                };
                line.go(Target::Forward(Stop::Edge));
                Ok(Some(line))
            }
        }
    }

    /// Shows the line at a place, if there is one.
    fn go_to(&mut self, place: usize) -> Result<(), AllocError>
        ensures ok { OnOk result (self.new ≡ gone_to place (line_at place self.old) self.old) }
        ensures err { OnErr result (self.new ≡ self.old) }
    {
        match self.line_at(place)? {
            None => Ok(()),
            Some(line) => self.show_at(place, line),
        }
    }

    /// Shows the next older line.
    pub(crate) fn older(&mut self) -> Result<(), AllocError>
        ensures ok { OnOk result (self.new ≡ gone_to (self.old.back + 1) (line_at (self.old.back + 1) self.old) self.old) }
        ensures err { OnErr result (self.new ≡ self.old) }
    {
        let back = self.back;
        if back >= self.history.len() {
            return Ok(());
        }
        self.go_to(back + 1)
    }

    /// Shows the next newer line, and at last the one that isn't from the history.
    pub(crate) fn newer(&mut self) -> Result<(), AllocError>
        ensures ok { OnOk result (self.new ≡ newer_from self.old.back self.old) }
        ensures err { OnErr result (self.new ≡ self.old) }
    {
        let back = self.back;
        if back == 0 {
            return Ok(());
        }
        self.go_to(back - 1)
    }

    /// Brings the cursor into the row above, or shows the next older line if it is in the first row.
    pub(crate) fn row_up(&mut self) -> Result<(), AllocError>
        ensures ok { OnOk result (self.new ≡ by_row (row_beside true self.old) (gone_to (self.old.back + 1) (line_at (self.old.back + 1) self.old) self.old) self.old) }
        ensures err { OnErr result (self.new ≡ self.old) }
    {
        if self.limits.multiline && self.draft.go_row(true) {
            return Ok(());
        }
        self.older()
    }

    /// Brings the cursor into the row below, or shows the next newer line if it is in the last row.
    pub(crate) fn row_down(&mut self) -> Result<(), AllocError>
        ensures ok { OnOk result (self.new ≡ by_row (row_beside false self.old) (newer_from self.old.back self.old) self.old) }
        ensures err { OnErr result (self.new ≡ self.old) }
    {
        if self.limits.multiline && self.draft.go_row(false) {
            return Ok(());
        }
        self.newer()
    }

    /// The text that a search looks for at the beginning of lines.
    pub(crate) fn sought(&self) -> &str
        ensures text { chars result.now ≡ sought self.now }
        ensures shown { AreRows (chars result.now) }
    {
        match self.last {
            Last::Walked => "",
            Last::Other | Last::Killed | Last::Yanked | Last::Took(_) | Last::Seeking(_) => {
                self.draft.line().before()
            }
        }
    }

    /// Shows the next older line that begins with the text before the cursor, and isn't the same line.
    pub(crate) fn search(&mut self) -> Result<(), AllocError>
        ensures ok { OnOk result (self.new ≡ searched_to (found self.old) self.old) }
        ensures err { OnErr result (self.new ≡ self.old) }
    {
        let front = self.sought();
        match self
            .history
            .find(front, self.draft.line().text(), self.back)
        {
            None => Ok(()),
            Some((back, rest)) => {
                let line = Line::found(self.alloc.clone()?, front, rest)?;
                self.show_at(back, line)
            }
        }
    }

    /// Shows the next newer line that begins with the text before the cursor, and isn't the same line.
    fn search_newer(&mut self) -> Result<(), AllocError>
        ensures ok { OnOk result (self.new ≡ searched_to (found_newer self.old) self.old) }
        ensures err { OnErr result (self.new ≡ self.old) }
    {
        let front = self.sought();
        let count = self.back.saturating_sub(1);
        match self
            .history
            .find_newer(front, self.draft.line().text(), count)
        {
            None => Ok(()),
            Some((back, rest)) => {
                let line = Line::found(self.alloc.clone()?, front, rest)?;
                self.show_at(back, line)
            }
        }
    }

    /// The same, or the next newer line if nothing is looked for.
    pub(crate) fn search_forward(&mut self) -> Result<(), AllocError>
        ensures ok { OnOk result (self.new ≡ searched_forward (sought self.old) self.old) }
        ensures err { OnErr result (self.new ≡ self.old) }
    {
        if is_nothing(self.sought()) {
            return self.newer();
        }
        self.search_newer()
    }
}
