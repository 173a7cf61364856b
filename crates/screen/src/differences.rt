//! The next place at which cells differ.
ghost use Rattle.std.specs.Prelude.{◌≡◌, ◌≢◌, ◌<◌, ◌≤◌, ℕ, get_or, length};
ghost use Rattle.screen.specs.Cells.{blank};

use crate::cells::{Cell, is_same};

/// A place from which on there may be a difference: all cells before it, from one on, are the same. It compares two at a time.
fn skip_pairs(before: &[Cell], after: &[Cell], from: usize) -> usize
    requires length { length before.now ≡ length after.now }
    requires from { from ≤ length after.now }
    ensures from { from ≤ result }
    ensures bound { result ≤ length after.now }
    ensures same { (k : ℕ) → from ≤ k → k < result → get_or before.now k blank ≡ get_or after.now k blank }
{
    let mut at = from;
    while at + 1 < after.len() {
        // With `&`, which is no branch.
        if !(is_same(&before[at], &after[at]) & is_same(&before[at + 1], &after[at + 1])) {
            return at;
        }
        at += 2;
    }
    at
}

/// The first place, from one on, at which cells differ. If there is none, it is behind the last one.
#[inline(never)]
fn find_difference(before: &[Cell], after: &[Cell], from: usize) -> usize
    requires length { length before.now ≡ length after.now }
    requires from { from ≤ length after.now }
    ensures from { from ≤ result }
    ensures bound { result ≤ length after.now }
    ensures same { (k : ℕ) → from ≤ k → k < result → get_or before.now k blank ≡ get_or after.now k blank }
    ensures differ { result < length after.now → get_or before.now result blank ≢ get_or after.now result blank }
{
    for at in skip_pairs(before, after, from)..after.len() {
        if !is_same(&before[at], &after[at]) {
            return at;
        }
    }
    after.len()
}

/// The same. Neighbours of a cell that differs often differ too, so the first one is looked at without a call.
#[inline]
pub(crate) fn next_difference(before: &[Cell], after: &[Cell], from: usize) -> usize
    requires length { length before.now ≡ length after.now }
    requires from { from ≤ length after.now }
    ensures from { from ≤ result }
    ensures bound { result ≤ length after.now }
    ensures same { (k : ℕ) → from ≤ k → k < result → get_or before.now k blank ≡ get_or after.now k blank }
    ensures differ { result < length after.now → get_or before.now result blank ≢ get_or after.now result blank }
{
    if from >= after.len() || !is_same(&before[from], &after[from]) {
        return from;
    }
    find_difference(before, after, from + 1)
}
