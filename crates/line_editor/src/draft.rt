//! A line, with the changes that lead to the lines before it and to those that were undone.
ghost use Rattle.std.specs.Prelude.{◌≡◌, ◌≤◌, false, true, [], MatchBool, None, OnErr, OnOk, Some};
ghost use Rattle.std.specs.Str.{chars, IsCharBoundary};
ghost use Rattle.line_editor.specs.Edits.{empty_line, erased, inserted, line_with, transposed};
ghost use Rattle.line_editor.specs.Places.{target_place};
ghost use Rattle.line_editor.specs.Shown.{AreRows};
ghost use Rattle.line_editor.specs.Rows.{row_place};
ghost use Rattle.line_editor.specs.Splits.{Split, split_at};
ghost use Rattle.line_editor.specs.States.{draft_changed, shown_as};
ghost use Rattle.line_editor.specs.inside.Changes.{line_bytes, draft_redone, draft_typed, draft_undone};

use crate::changes::{Change, count, end_first, note, reach_first, step};
use crate::lines::Line;
use crate::places::Target;
use crate::texts::is_same;
use std::alloc::{AllocError, Allocator, Global};
use std::collections::VecDeque;
use std::marker::Model;

/// A line that is edited, with what leads to the lines before it and to those that were undone.
#[derive(Drop)]
pub(crate) struct Draft<A: Allocator = Global> {
    line: Line<A>,
    past: VecDeque<Change<A>, A>,
    undone: VecDeque<Change<A>, A>,
    // Whether a character was typed last.
    typing: bool,
}

impl<A: Allocator> Model for Draft<A> {
    ghost use Rattle.line_editor.specs.States.{DraftState};
    ghost use Rattle.line_editor.specs.inside.Changes.{AreChanges, line_bytes, lines_by};

    ghost Value = { DraftState };

    ghost view = { λ d. record {
      line = d.line;
      past = lines_by (line_bytes d.line) d.past.items;
      undone = lines_by (line_bytes d.line) d.undone.items;
      typing = d.typing;
    } };

    ghost invariant = { λ d. AreChanges d.line d.past.items d.undone.items d.typing };
}

impl<A: Allocator> Draft<A> {
    /// A line, and nothing before it.
    pub(crate) fn new(line: Line<A>, past: A, undone: A) -> Draft<A>
        ensures { result ≡ record { line = line; past = []; undone = []; typing = false } }
    {
        Draft {
            line,
            past: VecDeque::new(past),
            undone: VecDeque::new(undone),
            typing: false,
        }
    }

    /// The line.
    pub(crate) fn line(&self) -> &Line<A>
        ensures { result.now ≡ self.now.line }
    {
        &self.line
    }

    /// Lets the text and all changes go. Their memory stays.
    pub(crate) fn clear(&mut self)
        ensures { self.new ≡ record { line = empty_line; past = []; undone = []; typing = false } }
    {
        self.line.clear();
        self.past.clear();
        self.undone.clear();
        self.typing = false;
    }

    /// Brings the cursor to a target.
    pub(crate) fn go(&mut self, target: Target)
        ensures { self.new ≡ record self.old { line = target_place target self.old.line; typing = false } }
    {
        self.line.go(target);
        self.typing = false;
    }

    /// Brings the cursor into the row above or below, and returns whether there is one.
    pub(crate) fn go_row(&mut self, up: bool) -> bool
        ensures { MatchBool result ((d : Split) × (row_place up self.old.line ≡ Some d) × (self.new ≡ record self.old { line = d; typing = false }))
            ((row_place up self.old.line ≡ None) × (self.new ≡ self.old)) }
    {
        if !self.line.go_row(up) {
            return false;
        }
        self.typing = false;
        true
    }

    /// Another line takes the line's place.
    pub(crate) fn change(&mut self, line: Line<A>, steps: usize) -> Result<(), AllocError>
        ensures ok { OnOk result (self.new ≡ draft_changed steps line self.old) }
        ensures err { OnErr result (self.new ≡ self.old) }
    {
        self.past.reserve(1)?;
        let change = self.line.give_way_to(line);
        note(&mut self.past, change, steps);
        self.undone.clear();
        self.typing = false;
        Ok(())
    }
}

impl<A: Allocator> Draft<A> {
    /// Shows the line as another one has it: with its cursor if both have the same text, and otherwise as a change.
    pub(crate) fn show(&mut self, line: Line<A>, steps: usize) -> Result<(), AllocError>
        ensures ok { OnOk result (self.new ≡ shown_as steps line self.old) }
        ensures err { OnErr result (self.new ≡ self.old) }
    {
        if !is_same(line.text(), self.line.text()) {
            return self.change(line, steps);
        }
        self.line = line;
        self.typing = false;
        Ok(())
    }
}

impl<A: Allocator + Clone> Draft<A> {
    /// Writes a text at the cursor.
    pub(crate) fn put(&mut self, text: &str, steps: usize) -> Result<(), AllocError>
        requires { AreRows (chars text.now) }
        ensures ok { OnOk result (self.new ≡ draft_changed steps (inserted (chars text.now) self.old.line) self.old) }
        ensures err { OnErr result (self.new ≡ self.old) }
    {
        self.past.reserve(1)?;
        let change = self.line.put(text)?;
        note(&mut self.past, change, steps);
        self.undone.clear();
        self.typing = false;
        Ok(())
    }

    /// Erases what a target reaches.
    pub(crate) fn erase(&mut self, target: Target, steps: usize) -> Result<(), AllocError>
        ensures ok { OnOk result (self.new ≡ draft_changed steps (erased target self.old.line) self.old) }
        ensures err { OnErr result (self.new ≡ self.old) }
    {
        self.past.reserve(1)?;
        let change = self.line.erase(target)?;
        note(&mut self.past, change, steps);
        self.undone.clear();
        self.typing = false;
        Ok(())
    }

    /// Puts a text in place of what is between two places.
    pub(crate) fn replace(
        &mut self,
        from: usize,
        to: usize,
        with: &str,
        steps: usize,
    ) -> Result<(), AllocError>
        requires order { from ≤ to }
        requires from { IsCharBoundary (line_bytes self.old.line) from }
        requires to { IsCharBoundary (line_bytes self.old.line) to }
        requires with { AreRows (chars with.now) }
        ensures ok { OnOk result (self.new
            ≡ draft_changed steps (line_with (split_at (line_bytes self.old.line) from) (chars with.now) (split_at (line_bytes self.old.line) to)) self.old) }
        ensures err { OnErr result (self.new ≡ self.old) }
    {
        self.past.reserve(1)?;
        let change = self.line.splice(from, to, with)?;
        note(&mut self.past, change, steps);
        self.undone.clear();
        self.typing = false;
        Ok(())
    }

    /// Exchanges two clusters.
    pub(crate) fn exchange(&mut self, steps: usize) -> Result<(), AllocError>
        ensures ok { OnOk result (self.new ≡ draft_changed steps (transposed self.old.line) self.old) }
        ensures err { OnErr result (self.new ≡ self.old) }
    {
        self.past.reserve(1)?;
        let change = self.line.exchange()?;
        note(&mut self.past, change, steps);
        self.undone.clear();
        self.typing = false;
        Ok(())
    }

    /// Types a text behind what was typed just before.
    fn type_more(&mut self, text: &str) -> Result<(), AllocError>
        requires text { AreRows (chars text.now) }
        requires typing { self.old.typing ≡ true }
        ensures ok { OnOk result (self.new ≡ record self.old { line = inserted (chars text.now) self.old.line; undone = [] }) }
        ensures err { OnErr result (self.new ≡ self.old) }
    {
        reach_first(&mut self.past, self.line.text(), self.line.at())?;
        let end = self.line.insert(text)?;
        end_first(&mut self.past, end);
        self.undone.clear();
        Ok(())
    }

    /// Types a text.
    pub(crate) fn type_text(&mut self, text: &str, steps: usize) -> Result<(), AllocError>
        requires { AreRows (chars text.now) }
        ensures ok { OnOk result (self.new ≡ draft_typed steps (inserted (chars text.now) self.old.line) self.old) }
        ensures err { OnErr result (self.new ≡ self.old) }
    {
        if self.typing {
            return self.type_more(text);
        }
        self.past.reserve(1)?;
        let change = self.line.put(text)?;
        note(&mut self.past, change, steps);
        self.undone.clear();
        self.typing = true;
        Ok(())
    }

    /// Brings back the newest line of the past, if there is one.
    pub(crate) fn undo(&mut self) -> Result<(), AllocError>
        ensures ok { OnOk result (self.new ≡ draft_undone self.old.past self.old) }
        ensures err { OnErr result (self.new ≡ self.old) }
    {
        if count(&self.past) == 0 {
            return Ok(());
        }
        step(&mut self.line, &mut self.past, &mut self.undone)?;
        self.typing = false;
        Ok(())
    }

    /// Brings back the line that was undone last, if there is one.
    pub(crate) fn redo(&mut self) -> Result<(), AllocError>
        ensures ok { OnOk result (self.new ≡ draft_redone self.old.undone self.old) }
        ensures err { OnErr result (self.new ≡ self.old) }
    {
        let changes = count(&self.undone);
        if changes == 0 {
            return Ok(());
        }
        step(&mut self.line, &mut self.undone, &mut self.past)?;
        self.typing = false;
        Ok(())
    }
}
