//! What one thread holds of a shared reader.
ghost use Rattle.std.specs.Prelude.{◌≡◌, ◌<◌, [], true, None, is_some};
ghost use Rattle.crossbeam_queue.specs.Passes.{view};
ghost use Rattle.crossterm_read.specs.History.{Sits, last_from};

use crate::read::shared::rule::SlotPass;
use std::alloc::{Allocator, Global};

/// What one thread holds of a shared reader, and hands in at each call.
///
/// In proofs it carries what the thread knows: the calls that it has seen, of its own and of other passes, in the order of the one history
/// of all calls.
#[derive(Drop)]
pub struct Pass<S, A: Allocator = Global> {
    pub(crate) slot_pass: SlotPass<S, A>,
    pub(crate) last: Option<u64>,
    pub ghost clear: { slot_pass.me.1 ≡ [] },
    pub ghost sits: { Sits (view slot_pass) },
    pub ghost taken: { last ≡ last_from None (view slot_pass).mine },
}

impl<S, A: Allocator> Pass<S, A> {
    // A pass of the reader over this one of the slot, which has made no call.
    pub(crate) fn in_slot(slot_pass: SlotPass<S, A>) -> Pass<S, A>
        requires clear { slot_pass.me.1 ≡ [] }
        requires sits { Sits (view slot_pass) }
        requires idle { (view slot_pass).mine ≡ [] }
        ensures { result.slot_pass ≡ slot_pass }
    {
        Pass {
            slot_pass,
            last: None,
        }
    }

    /// The arrival number of the event that this pass took last: how many events the reader was given before it.
    pub fn last(&self) -> Option<u64>
        ensures { result ≡ last_from None (view self.now.slot_pass).mine }
    {
        self.last
    }
}
