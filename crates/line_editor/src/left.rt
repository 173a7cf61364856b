//! Lines that were left for others.
ghost use Rattle.std.specs.Prelude.{◌≡◌, ◌<◌, ◌≤◌, IfOk, OnErr, OnOk, length, remove, slice_index_or, slice_set};
ghost use Rattle.std.specs.Option.{option_map};
ghost use Rattle.std.specs.VecDeque.{deque_capacity, deque_len};
ghost use Rattle.line_editor.specs.Splits.{Split};
ghost use Rattle.line_editor.specs.States.{draft_at, left_at, shown_as, left_but};
ghost use Rattle.line_editor.specs.inside.Lines.{position_in};

use crate::draft::Draft;
use crate::lines::Line;
use std::alloc::{AllocError, Allocator, Global};
use std::collections::VecDeque;
use std::marker::Model;

/// A line that was left for another one, with its place: how far back in the history it is, or 0 if it isn't from there.
#[derive(Drop)]
pub(crate) struct Left<A: Allocator = Global> {
    pub(crate) place: usize,
    pub(crate) draft: Draft<A>,
}

impl<A: Allocator> Model for Left<A> {
    ghost use Rattle.line_editor.specs.States.{LeftLine};

    ghost Value = { LeftLine };

    ghost view = { λ l. record { place = l.place; draft = l.draft } };
}

/// The position of a place's line among those that were left.
fn position_of<A: Allocator>(left: &VecDeque<Left<A>, A>, place: usize) -> Option<usize>
    ensures { result ≡ position_in place 0 left.now.items }
{
    for at in 0..left.len() {
        if let Some(line) = left.get(at) {
            if line.place == place {
                return Some(at);
            }
        }
    }
    None
}

/// The line that was left at a place, if one was.
pub(crate) fn line_of<A: Allocator>(left: &VecDeque<Left<A>, A>, place: usize) -> Option<&Line<A>>
    ensures { option_map (λ line. line.now) result ≡ left_at place left.now.items }
{
    match position_of(left, place) {
        None => None,
        Some(at) => match left.get(at) {
            None => unreachable!(),
            Some(line) => Some(line.draft.line()),
        },
    }
}

/// Shows one of the lines as another line has it.
fn show<A: Allocator>(
    left: &mut VecDeque<Left<A>, A>,
    at: usize,
    line: Line<A>,
    steps: usize,
) -> Result<(), AllocError>
    requires { at < length left.old.items }
    ensures ok { OnOk result ((m : _) → m ≡ slice_index_or left.old.items at m → left.new.items ≡ slice_set left.old.items at (record m { draft = shown_as steps line m.draft })) }
    ensures err { OnErr result (left.new.items ≡ left.old.items) }
    ensures len { deque_len left.new ≡ deque_len left.old }
    ensures capacity { deque_capacity left.new ≡ deque_capacity left.old }
{
    match left.get_mut(at) {
        None => Ok(()),
        Some(found) => found.draft.show(line, steps),
    }
}

/// Takes the line of a place out of those that were left, as another line has it. If none was left there, this line is begun.
pub(crate) fn take_or_begin<A: Allocator + Clone>(
    left: &mut VecDeque<Left<A>, A>,
    alloc: &A,
    place: usize,
    line: Line<A>,
    steps: usize,
) -> Result<Draft<A>, AllocError>
    ensures draft { IfOk result (λ draft. draft ≡ draft_at steps place line left.old.items) }
    ensures ok { OnOk result (left.new.items ≡ left_but place left.old.items) }
    ensures err { OnErr result (left.new.items ≡ left.old.items) }
    ensures len { deque_len left.new ≤ deque_len left.old }
    ensures capacity { deque_capacity left.new ≡ deque_capacity left.old }
{
    match position_of(left, place) {
        None => Ok(Draft::new(line, alloc.clone()?, alloc.clone()?)),
        Some(at) => {
            show(left, at, line, steps)?;
            match left.remove(at) {
                None => unreachable!(),
                Some(found) => Ok(found.draft),
            }
        }
    }
}
