//! Calls whose memory is refused.

use crate::queueing::kind;
use crossterm::clipboard::{ClipboardSelection, CopyToClipboard};
use crossterm::style::Attribute;
use linked_list_allocator::LocalHeap;
use std::alloc::AllocError;
use std::io::ErrorKind;
use test_support::expect;

const REFUSED: Option<ErrorKind> = Some(ErrorKind::OutOfMemory);

/// Whether each call that needs memory is refused by this heap.
fn are_refused(heap: &LocalHeap) -> bool {
    kind(ClipboardSelection::from_str(heap, "c")) == REFUSED
        && kind(CopyToClipboard::to_clipboard_from(heap, "foo")) == REFUSED
        && kind(CopyToClipboard::to_primary_from(heap, "foo")) == REFUSED
        && kind(Attribute::Underdashed.sgr(heap)) == REFUSED
}

#[test]
fn refused_memory_is_answered(rt: HostRuntime) -> Result<(), AllocError> {
    let heap = LocalHeap::new(rt.alloc(), 16)?;
    // The one block that the heap has, so that each later allocation is refused.
    let block = vec![in &heap; 0u8]?;
    expect!(rt; are_refused(&heap) && block.len() == 1);
    Ok(())
}
