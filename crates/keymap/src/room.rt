//! Room for outcomes, which is made before any of them comes.
ghost use Rattle.std.specs.Prelude.{◌≡◌, ◌<◌, ◌≤◌, ◌+◌, [], OnOk, OnErr};
ghost use Rattle.std.specs.VecDeque.{deque_len, deque_capacity};
ghost use Rattle.keymap.specs.Matching.{room_made};
ghost use Rattle.keymap.specs.inside.Room.{room_in};

use crate::outcome::Outcome;
use std::alloc::{AllocError, Allocator};
use std::collections::VecDeque;

// For how many more outcomes room is made at least.
const LEAST: usize = 16;

// No outcomes wait, and there is no room for any.
pub(crate) fn no_outcomes<A: Allocator>(alloc: A) -> VecDeque<Outcome<A>, A>
    ensures items { result.items ≡ [] }
    ensures room { room_in result ≡ 0 }
{
    VecDeque::from_vec(Vec::new(alloc))
}

// Makes room for so many more outcomes, unless it is there.
pub(crate) fn make_room<A: Allocator>(
    waiting: &mut VecDeque<Outcome<A>, A>,
    count: usize,
) -> Result<(), AllocError>
    requires { count ≤ 16 }
    ensures items { waiting.new.items ≡ waiting.old.items }
    ensures len { deque_len waiting.new ≡ deque_len waiting.old }
    ensures enough { OnOk result (deque_len waiting.new + count ≤ deque_capacity waiting.new) }
    ensures made { OnOk result (room_in waiting.new ≡ room_made count (room_in waiting.old) (deque_len waiting.old)) }
    ensures full { OnErr result (room_in waiting.old < count) }
    ensures err { OnErr result (deque_capacity waiting.new ≡ deque_capacity waiting.old) }
{
    let len = waiting.len();
    if count <= waiting.capacity() - len {
        return Ok(());
    }
    waiting.reserve_exact(len.max(LEAST))
}
