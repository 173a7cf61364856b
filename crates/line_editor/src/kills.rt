//! The texts that were killed.
ghost use Rattle.std.specs.Prelude.{◌≡◌, ◌<◌, ◌≤◌, ◌∷◌, take};
ghost use Rattle.std.specs.List.{AllByRecursion};
ghost use Rattle.std.specs.Str.{chars};
ghost use Rattle.std.specs.VecDeque.{deque_capacity, deque_len};
ghost use Rattle.line_editor.specs.Kills.{kill_at, kills_before, next_place, texts};
ghost use Rattle.line_editor.specs.Shown.{AreRows};

use crate::last::Last;
use std::alloc::Allocator;
use std::collections::VecDeque;

/// The kill with so many newer ones, or no text if there is none.
pub(crate) fn kill_at<A: Allocator>(kills: &VecDeque<String<A>, A>, at: usize) -> &str
    requires { AllByRecursion AreRows (texts kills.now.items) }
    ensures text { chars result.now ≡ kill_at (texts kills.now.items) at }
    ensures shown { AreRows (chars result.now) }
{
    match kills.get(at) {
        None => "",
        Some(text) => text.as_str(),
    }
}

/// Lets the newest kill go if the next one is joined to it.
fn make_way<A: Allocator>(kills: &mut VecDeque<String<A>, A>, last: Last)
    ensures items { kills.new.items ≡ kills_before last kills.old.items }
    ensures len { deque_len kills.new ≤ deque_len kills.old }
    ensures capacity { deque_capacity kills.new ≡ deque_capacity kills.old }
{
    match last {
        Last::Killed => {
            let _ = kills.pop_front();
        }
        Last::Other | Last::Walked | Last::Yanked | Last::Took(_) | Last::Seeking(_) => {}
    }
}

/// Adds a kill, for which there is room, in place of the newest one if that is joined to it. The oldest ones go beyond a limit.
pub(crate) fn keep<A: Allocator>(
    kills: &mut VecDeque<String<A>, A>,
    text: String<A>,
    last: Last,
    limit: usize,
)
    requires { deque_len kills.old < deque_capacity kills.old }
    ensures { kills.new.items ≡ take limit (text ∷ kills_before last kills.old.items) }
{
    make_way(kills, last);
    kills.push_front_reserved(text);
    kills.truncate(limit);
}

/// The place in the ring behind a place.
pub(crate) fn next_place(at: usize, count: usize) -> usize
    ensures { result ≡ next_place at count }
{
    if at < count && at + 1 < count {
        at + 1
    } else {
        0
    }
}
