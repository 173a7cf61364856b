//! Calls over ever larger heaps, so that each block of memory is refused in turn.

use linked_list_allocator::LocalHeap;
use std::alloc::{AllocError, Global};

/// What came of calls that need memory.
#[derive(Clone, Copy, PartialEq, Eq)]
pub enum Came {
    /// All as it should.
    Done,
    /// Memory was refused, and what is left is as it should be.
    Refused,
    /// Something else.
    Wrong,
}

/// Calls that take their memory of a heap.
pub trait Calls {
    /// Makes them, and lets go of all that was made.
    fn over(&self, heap: &LocalHeap) -> Result<Came, AllocError>;
}

/// Makes the calls over a heap of this size. Afterwards no memory may be in use.
fn over_a_size<C: Calls>(alloc: Global, calls: &C, size: usize) -> Result<Came, AllocError> {
    let heap = LocalHeap::new(alloc, size)?;
    let came = calls.over(&heap)?;
    if heap.used() == 0 {
        return Ok(came);
    }
    Ok(Came::Wrong)
}

/// Whether memory is refused over each heap below some size. Sizes rise by less than any block, so that each block is refused in turn.
pub fn is_refused_below_a_size<C: Calls>(alloc: Global, calls: &C) -> Result<bool, AllocError> {
    for step in 1..1024usize {
        match over_a_size(alloc, calls, 16 * step)? {
            Came::Refused => {}
            Came::Done => return Ok(step > 1),
            Came::Wrong => return Ok(false),
        }
    }
    Ok(false)
}
