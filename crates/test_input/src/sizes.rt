//! Inputs with sizes: long lists of acts and calls, queues that grow, and memory that comes back.

use crossterm_parse::parse::Parser;
use crossterm_read::read::{Call, Reply, Trace, play};
use crossterm_read::source::Act;
use crossterm_types::event::filter::AnyFilter;
use crossterm_types::event::{Event, InternalEvent, KeyCode};
use linked_list_allocator::LocalHeap;
use std::alloc::{AllocError, Allocator, Global};
use std::io;
use test_support::{expect, text};

/// How many pieces of one letter a long script has.
const ACTS: usize = 5_000;

/// A letter that follows from its place.
fn letter(place: usize) -> u8 {
    b'a' + (place % 26) as u8
}

fn is_letter<A: Allocator>(event: Option<&InternalEvent<A>>, place: usize) -> bool {
    match event {
        Some(InternalEvent::Event(Event::Key(key))) => {
            key.code == KeyCode::Char(char::from(letter(place)))
        }
        _ => false,
    }
}

fn long_script(alloc: Global) -> Result<Vec<Act>, AllocError> {
    let mut acts = Vec::new(alloc);
    for place in 0..ACTS {
        acts.push(text(alloc, &[letter(place)])?)?;
    }
    Ok(acts)
}

/// Four calls a letter: a poll that finds it, a read that takes it, and two that find nothing more.
fn long_calls(alloc: Global) -> Result<Vec<Call>, AllocError> {
    let filter = AnyFilter::Event;
    let mut calls = Vec::new(alloc);
    for _ in 0..ACTS {
        calls.extend_from_slice(&[
            Call::Poll { tries: 1, filter },
            Call::Read { tries: 0, filter },
            Call::Take { filter },
            Call::Read { tries: 0, filter },
        ])?;
    }
    Ok(calls)
}

/// Whether four replies are those to the letter of a place.
fn are_of_letter(replies: &[Reply], place: usize) -> bool {
    match replies {
        [
            Reply::Poll(true),
            Reply::Event(event),
            Reply::Event(None),
            Reply::Event(None),
        ] => is_letter(event.as_ref(), place),
        _ => false,
    }
}

fn is_long_trace(trace: &Trace) -> bool {
    let mut holds = trace.replies.len() == 4 * ACTS && trace.held.is_empty();
    for (place, replies) in trace.replies.as_slice().chunks(4).enumerate() {
        holds = holds && are_of_letter(replies, place);
    }
    holds
}

fn long_trace(alloc: Global) -> io::Result<Trace> {
    let script = long_script(alloc)?;
    let calls = long_calls(alloc)?;
    play(alloc, script, calls.as_slice())
}

#[test]
fn many_calls_over_many_acts_are_played(rt: HostRuntime) -> io::Result<()> {
    let trace = long_trace(rt.alloc())?;
    expect!(rt; is_long_trace(&trace));
    Ok(())
}

/// Whether so many letters wait in the parser at once, and are given in order after some that were given before.
fn queues(parser: &mut Parser, count: usize) -> bool {
    let mut holds = true;
    for place in 0..count {
        holds = holds && parser.feed(&[letter(place)], false, false) == 1;
    }
    for place in 0..count {
        holds = holds && is_letter(parser.next().as_ref(), place);
    }
    holds && parser.next().is_none()
}

/// One more letter than each power of two, up to 4,096.
const COUNTS: [usize; 13] = [2, 3, 5, 9, 17, 33, 65, 129, 257, 513, 1025, 2049, 4097];

#[test]
fn queues_grow_past_each_power_of_two(rt: HostRuntime) {
    let mut parser: Parser = Parser::new(rt.alloc());
    let mut holds = true;
    for count in COUNTS {
        holds = holds && queues(&mut parser, count);
    }
    expect!(rt; holds, "one more than each power of two");
}

/// How large the heaps are.
const HEAP: usize = 1 << 17;

/// Whether the heap has a block of a size.
fn has_block(heap: &LocalHeap, size: usize) -> bool {
    let mut block: Vec<u8, &LocalHeap> = Vec::new(heap);
    block.reserve_exact(size).is_ok()
}

/// The greatest block that the heap has, to within 64 bytes.
fn greatest_block(heap: &LocalHeap) -> usize {
    let mut size = 0usize;
    for part in [
        65_536usize,
        32_768,
        16_384,
        8_192,
        4_096,
        2_048,
        1_024,
        512,
        256,
        128,
        64,
    ] {
        if has_block(heap, size.saturating_add(part)) {
            size = size.saturating_add(part);
        }
    }
    size
}

/// The fronts of sequences that needn't end, and the byte that goes on with each.
static ENDLESS: [(&[u8], u8); 7] = [
    (b"\x1b[", b'0'),
    (b"\x1b[1;2", b'5'),
    (b"\x1b[1", b';'),
    (b"\x1b[<", b'0'),
    (b"\x1b[<0;1;1", b';'),
    (b"\x1b[?", b'1'),
    (b"\x1b[?1", b';'),
];

/// Whether so long a sequence is taken, and all of the heap stays free while it is open.
fn leaves_all_free(heap: &LocalHeap, (front, byte): (&[u8], u8)) -> bool {
    let free = greatest_block(heap);
    let mut parser: Parser<&LocalHeap> = Parser::new(heap);
    let mut holds = parser.feed(front, true, false) == front.len();
    for _ in 0..100_000u32 {
        holds = holds && parser.feed(&[byte], true, false) == 1;
    }
    holds && parser.is_undecided() && greatest_block(heap) == free
}

#[test]
fn endless_sequences_leave_the_heap_as_it_was(rt: HostRuntime) -> Result<(), AllocError> {
    let heap = LocalHeap::new(rt.alloc(), HEAP)?;
    for sequence in ENDLESS {
        expect!(rt; leaves_all_free(&heap, sequence), "an endless sequence");
    }
    Ok(())
}

/// Opens a paste of so many letters, ends it, and takes its event.
fn pastes(parser: &mut Parser<&LocalHeap>, count: u32) -> bool {
    let mut holds = parser.feed(b"\x1b[200~", true, false) == 6;
    for _ in 0..count {
        holds = holds && parser.feed(b"x", true, false) == 1;
    }
    let ended = parser.feed(b"\x1b[201~", false, false) == 6;
    holds && ended && matches!(parser.next(), Some(InternalEvent::Event(Event::Paste(_))))
}

/// Whether each of some pastes leaves as much of the heap free as there was before it, with room for its event.
fn gives_back(heap: &LocalHeap) -> bool {
    let mut parser: Parser<&LocalHeap> = Parser::new(heap);
    let mut holds = parser.reserve(1).is_ok();
    let free = greatest_block(heap);
    for count in [0u32, 1, 100, 20_000] {
        holds = holds && pastes(&mut parser, count) && greatest_block(heap) == free;
    }
    holds
}

#[test]
fn pastes_that_were_taken_give_their_memory_back(rt: HostRuntime) -> Result<(), AllocError> {
    let heap = LocalHeap::new(rt.alloc(), HEAP)?;
    expect!(rt; gives_back(&heap));
    Ok(())
}
