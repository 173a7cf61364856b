//! What `probe keys` prints if its memory is refused.

use crate::expect;
use linked_list_allocator::LocalHeap;
use probe_modes::keys::run_keys;
use std::alloc::{AllocError, Allocator, Global};
use std::sync::Wait;

/// What comes of an input, and after it the line of the fault, which has no end. The program's memory is handed in.
fn answer<H: Wait, A: Allocator + Clone>(
    rt: &H,
    memory: A,
    alloc: Global,
    input: &[u8],
) -> Result<Vec<u8>, AllocError> {
    let mut output = Vec::new(alloc);
    let mut reader = input;
    if let Err(fault) = run_keys(rt, memory, &mut reader, &mut output) {
        let line = format!(in alloc; "{fault}")?;
        output.extend_from_slice(line.as_bytes())?;
    }
    Ok(output)
}

/// What needs memory: bindings, acts, and keys that wait.
const BOUND: &[u8] =
    b"bind top Char:67/0,Char:67/0\nbind go Char:67/0\npiece 6767\nidle\npiece 67\nresize 80 24\n";

/// All that comes of it, if no memory is refused.
const WHOLE: &[u8] = b"action top\naction go\nresize 80 24\nfault UnexpectedEof\n";

/// The lines before the last one, and the last one.
fn last_line(output: &[u8]) -> (&[u8], &[u8]) {
    let text = output.strip_suffix(b"\n").unwrap_or(output);
    match text.iter().rposition(|byte| *byte == b'\n') {
        Some(place) => text.split_at(place + 1),
        None => (&[], text),
    }
}

/// Whether this may come of it if memory is refused: a beginning of the lines, and then that there is none.
fn is_refused_memory(output: &[u8]) -> bool {
    let (before, last) = last_line(output);
    let is_named = last == b"probe: out of memory".as_slice()
        || last == b"fault OutOfMemory".as_slice();
    is_named && WHOLE.starts_with(before)
}

/// Whether all comes of it over a heap of this size; else `None`, if memory is refused. Afterwards none is in use.
fn is_whole<H: Wait>(rt: &H, alloc: Global, size: usize) -> Result<Option<bool>, AllocError> {
    let heap = LocalHeap::new(alloc, size)?;
    let output = answer(rt, &heap, alloc, BOUND)?;
    if heap.used() != 0 {
        return Ok(Some(false));
    }
    if is_refused_memory(output.as_slice()) {
        return Ok(None);
    }
    Ok(Some(output.as_slice() == WHOLE))
}

/// Whether memory is refused over each heap below some size. Sizes rise by less than any block, so that each block is refused in turn.
fn is_refused_below_a_size<H: Wait>(rt: &H, alloc: Global) -> Result<bool, AllocError> {
    for step in 1..4096usize {
        match is_whole(rt, alloc, 16 * step)? {
            None => {}
            Some(is_whole) => return Ok(is_whole && step > 1),
        }
    }
    Ok(false)
}

#[test]
fn refused_memory_of_keys_is_named(rt: HostRuntime) -> Result<(), AllocError> {
    let holds = is_refused_below_a_size(&rt, rt.alloc())?;
    expect(&rt, holds, "refused memory");
    Ok(())
}
