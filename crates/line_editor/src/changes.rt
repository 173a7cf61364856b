//! Changes of a line. Each turns the line back into the one before it.
ghost use Rattle.std.specs.Prelude.{◌≡◌, ◌≤◌, ◌<◌, ◌∷◌, OnErr, OnOk, length, take};
ghost use Rattle.std.specs.VecDeque.{deque_capacity, deque_len};
ghost use Rattle.std.specs.Str.{IsCharBoundary};
ghost use Rattle.line_editor.specs.Recent.{first_or, pushed_if, rest_of};
ghost use Rattle.line_editor.specs.inside.Changes.{AllFit, EndsBy, line_bytes, ended, first_ended, first_reached, lines_by, reached};

use crate::lines::Line;
use std::alloc::{AllocError, Allocator, Global};
use std::collections::VecDeque;
use std::marker::Model;

/// A change that turns a line into another one: `text` in place of what is between two places, and the cursor at `at`.
#[derive(Drop)]
pub(crate) struct Change<A: Allocator = Global> {
    pub(crate) from: usize,
    pub(crate) to: usize,
    pub(crate) text: String<A>,
    pub(crate) at: usize,
}

impl<A: Allocator> Model for Change<A> {
    ghost use Rattle.std.specs.String.{string_bytes};
    ghost use Rattle.line_editor.specs.inside.Changes.{Splice};

    ghost Value = { Splice };

    ghost view = { λ c. record { from = c.from; to = c.to; text = string_bytes c.text; at = c.at } };
}

impl<A: Allocator> Change<A> {
    /// It ends at a place behind it: what is between is put back as it is.
    fn reach(&mut self, text: &str, at: usize) -> Result<(), AllocError>
        requires to { IsCharBoundary text.now self.old.to }
        requires at { IsCharBoundary text.now at }
        requires on { self.old.to ≤ at }
        ensures ok { OnOk result (self.new ≡ reached text.now at self.old) }
        ensures err { OnErr result (self.new ≡ self.old) }
    {
        if self.to == at {
            return Ok(());
        }
        self.text.push_str(&text[self.to..at])?;
        self.to = at;
        Ok(())
    }

    /// It takes the place of all up to a place.
    fn end(&mut self, end: usize)
        ensures { self.new ≡ ended end self.old }
    {
        self.to = end;
    }
}

/// How many changes there are.
pub(crate) fn count<A: Allocator>(changes: &VecDeque<Change<A>, A>) -> usize
    ensures { result ≡ length changes.now.items }
{
    changes.len()
}

/// The newest change ends at a place behind it. It leads to the same line.
pub(crate) fn reach_first<A: Allocator>(
    changes: &mut VecDeque<Change<A>, A>,
    text: &str,
    at: usize,
) -> Result<(), AllocError>
    requires fit { AllFit text.now changes.old.items }
    requires at { IsCharBoundary text.now at }
    requires ends { EndsBy at changes.old.items }
    ensures ok { OnOk result (changes.new.items ≡ first_reached text.now at changes.old.items) }
    ensures err { OnErr result (changes.new.items ≡ changes.old.items) }
{
    match changes.get_mut(0) {
        None => Ok(()),
        Some(change) => change.reach(text, at),
    }
}

/// The newest change takes the place of all up to a place.
pub(crate) fn end_first<A: Allocator>(changes: &mut VecDeque<Change<A>, A>, end: usize)
    ensures { changes.new.items ≡ first_ended end changes.old.items }
{
    match changes.get_mut(0) {
        None => {}
        Some(change) => change.end(end),
    }
}

/// Adds a change, for which there is room, and lets the oldest ones go beyond a limit.
pub(crate) fn note<A: Allocator>(
    changes: &mut VecDeque<Change<A>, A>,
    change: Change<A>,
    limit: usize,
)
    requires { deque_len changes.old < deque_capacity changes.old }
    ensures { changes.new.items ≡ take limit (change ∷ changes.old.items) }
{
    changes.push_front_reserved(change);
    changes.truncate(limit);
}

/// Does the newest change, if there is one, and what takes it back is the newest of the other list.
pub(crate) fn step<A: Allocator + Clone>(
    line: &mut Line<A>,
    changes: &mut VecDeque<Change<A>, A>,
    others: &mut VecDeque<Change<A>, A>,
) -> Result<(), AllocError>
    requires changes { AllFit (line_bytes line.old) changes.old.items }
    requires others { AllFit (line_bytes line.old) others.old.items }
    ensures line { OnOk result (line.new ≡ first_or line.old (lines_by (line_bytes line.old) changes.old.items)) }
    ensures changes { OnOk result (lines_by (line_bytes line.new) changes.new.items ≡ rest_of (lines_by (line_bytes line.old) changes.old.items)) }
    ensures others { OnOk result (lines_by (line_bytes line.new) others.new.items
        ≡ pushed_if (lines_by (line_bytes line.old) changes.old.items) line.old (lines_by (line_bytes line.old) others.old.items)) }
    ensures fit { OnOk result (AllFit (line_bytes line.new) changes.new.items) }
    ensures fit_others { OnOk result (AllFit (line_bytes line.new) others.new.items) }
    ensures line_err { OnErr result (line.new ≡ line.old) }
    ensures changes_err { OnErr result (changes.new.items ≡ changes.old.items) }
    ensures others_err { OnErr result (others.new.items ≡ others.old.items) }
{
    others.reserve(1)?;
    let back = match changes.get(0) {
        None => return Ok(()),
        Some(change) => line.take_back(change)?,
    };
    let _ = changes.pop_front();
    others.push_front_reserved(back);
    Ok(())
}
