//! A parser whose memory is refused.

use crossterm_parse::parse::Parser;
use linked_list_allocator::LocalHeap;
use std::alloc::{AllocError, Global};
use test_support::expect;

type Poor<'a> = Parser<&'a LocalHeap>;

/// Whether so many of these bytes are taken.
fn takes(parser: &mut Poor<'_>, bytes: &[u8], count: usize) -> bool {
    parser.feed(bytes, false, false) == count
}

/// A front, so many times the same byte, and a back.
pub fn endless(
    alloc: Global,
    front: &[u8],
    (byte, count): (u8, usize),
    back: &[u8],
) -> Result<Vec<u8>, AllocError> {
    let mut bytes = Vec::from_slice(alloc, front)?;
    bytes.resize(front.len().saturating_add(count), byte)?;
    bytes.extend_from_slice(back)?;
    Ok(bytes)
}

/// Whether an event is given.
fn gives(parser: &mut Poor<'_>) -> bool {
    parser.next().is_some()
}

/// Whether all bytes of the endless sequence are taken, and no event comes of them.
fn passes(parser: &mut Poor<'_>, bytes: &[u8]) -> bool {
    takes(parser, bytes, 1_000_004) && !gives(parser) && !parser.is_undecided()
}

/// Whether so many of these bytes are taken, and three events are given and no more.
fn gives_three(parser: &mut Poor<'_>, bytes: &[u8], count: usize) -> bool {
    let gives_them = takes(parser, bytes, count) && gives(parser) && gives(parser) && gives(parser);
    gives_them && !gives(parser)
}

/// Whether memory is refused, so that a key isn't taken, and letters and the beginning of a sequence are.
fn is_refused(parser: &mut Poor<'_>) -> bool {
    let refuses = parser.reserve(1).is_err() && takes(parser, b"\r", 0);
    refuses && gives_three(parser, b"abc\x1b[", 5)
}

/// Whether a parser over this heap takes the endless sequence, and nothing that takes memory.
fn takes_no_memory(heap: &LocalHeap, bytes: &[u8]) -> bool {
    let mut parser = Parser::new(heap);
    passes(&mut parser, bytes) && is_refused(&mut parser)
}

#[test]
fn an_endless_sequence_takes_no_memory(rt: HostRuntime) -> Result<(), AllocError> {
    let bytes = endless(rt.alloc(), b"\x1b[1", (b';', 1_000_000), b"A")?;
    // A heap with no room for an event: each allocation is refused.
    let heap = LocalHeap::new(rt.alloc(), 16)?;
    expect!(rt; takes_no_memory(&heap, &bytes));
    Ok(())
}

type Block<'a> = Vec<u8, &'a LocalHeap>;

/// A block of so many bytes.
fn block_of(heap: &LocalHeap, size: usize) -> Result<Block<'_>, AllocError> {
    let mut block = Vec::new(heap);
    block.reserve_exact(size)?;
    Ok(block)
}

/// Takes four blocks of a size, or as many as the heap has.
fn take_four<'a>(
    heap: &'a LocalHeap,
    size: usize,
    blocks: &mut Vec<Block<'a>>,
) -> Result<(), AllocError> {
    for _ in 0..4u32 {
        if let Ok(block) = block_of(heap, size) {
            blocks.push(block)?;
        }
    }
    Ok(())
}

/// All that is left of the heap, in ever smaller blocks, so that each later allocation is refused.
fn all_blocks(alloc: Global, heap: &LocalHeap) -> Result<Vec<Block<'_>>, AllocError> {
    let mut blocks = Vec::new(alloc);
    for size in &[2048usize, 1024, 512, 256, 128, 64, 32, 16, 8] {
        take_four(heap, *size, &mut blocks)?;
    }
    Ok(blocks)
}

/// Whether the room that a parser reserved stays its own, if all the rest is used up.
fn keeps_its_room(alloc: Global, heap: &LocalHeap) -> bool {
    let mut parser = Parser::new(heap);
    let reserved = parser.reserve(3).is_ok();
    let blocks = all_blocks(alloc, heap);
    reserved && blocks.is_ok() && gives_three(&mut parser, b"\r\t\x7f", 3)
}

#[test]
fn what_was_reserved_is_taken(rt: HostRuntime) -> Result<(), AllocError> {
    let heap = LocalHeap::new(rt.alloc(), 4096)?;
    expect!(rt; keeps_its_room(rt.alloc(), &heap));
    Ok(())
}
