//! Each allocation of some sessions is refused in turn: what came before is given, and with memory again all the rest comes, each once.

use crate::scripts::{Part, acts_of, count_of};
use crossterm_read::read::InternalEventReader;
use crossterm_read::source::{Act, DeviceSource, Script};
use crossterm_types::event::filter::EventFilter;
use crossterm_types::event::{Event, InternalEvent, KeyCode, KeyboardEnhancementFlags};
use linked_list_allocator::LocalHeap;
use std::alloc::{AllocError, Allocator, Global};
use std::io::{self, ErrorKind};
use test_support::expect;

/// How large the heaps are.
const HEAP: usize = 1 << 19;

/// More calls than any session here needs.
const CALLS: usize = 2_000;

/// How many bytes are free at first, and over how many heaps a session is played.
const LEAST: usize = 64;

const STEPS: usize = 400;

/// A session: the parts of its script, how many `a` its first piece has before them, and by how many bytes the free memory grows. That
/// is less than any block, so each allocation is refused once at least.
type Session = (&'static [Part], u32, usize);

static TWO_PIECES: [Part; 2] = [Part::Text(b"\x1b", 1, false), Part::Text(b"\x1b", 1, false)];

static ONE_PIECE: [Part; 1] = [Part::Text(b"\x1b\x1b", 1, false)];

/// After 1,023 letters the first piece is a full one, which ESC ends: it is no key yet.
static FULL_PIECE: [Part; 2] = [Part::Text(b"\x1b", 1, false), Part::Text(b"[A", 1, false)];

/// A paste, byte by byte after its first one.
static PASTE: [Part; 14] = [
    Part::Text(b"\x1b[", 1, false),
    Part::Text(b"2", 1, false),
    Part::Text(b"0", 1, false),
    Part::Text(b"0", 1, false),
    Part::Text(b"~", 1, false),
    Part::Text(b"h", 1, false),
    Part::Text(b"\xff", 1, false),
    Part::Text(b"i", 1, false),
    Part::Text(b"\x1b", 1, false),
    Part::Text(b"[", 1, false),
    Part::Text(b"2", 1, false),
    Part::Text(b"0", 1, false),
    Part::Text(b"1", 1, false),
    Part::Text(b"~", 1, false),
];

/// Keys, a fault, a resize and a wake-up.
static ACTS: [Part; 5] = [
    Part::Text(b"a", 1, false),
    Part::Fault(ErrorKind::Other),
    Part::Resize(80, 24),
    Part::Woken,
    Part::Text(b"b", 1, false),
];

/// The script of a session: letters are in one piece with its first part.
fn script_of(alloc: Global, session: &Session) -> Result<Script, AllocError> {
    let mut acts = acts_of(alloc, session.0)?;
    if let Some(Act::Piece { bytes, .. }) = acts.as_mut_slice().first_mut() {
        let mut longer = Vec::from_elem(alloc, b'a', session.1 as usize)?;
        longer.extend_from_slice(bytes.as_slice())?;
        *bytes = longer;
    }
    Ok(Script::new(acts))
}

/// A number that distinguishes the events of these sessions.
fn number_of<A: Allocator>(event: &InternalEvent<A>) -> u32 {
    match event {
        InternalEvent::Event(Event::Key(key)) => match key.code {
            KeyCode::Char(c) => u32::from(c),
            KeyCode::Esc => 0x11_0000,
            KeyCode::Up => 0x11_0001,
            _ => 0x11_0002,
        },
        InternalEvent::Event(Event::Paste(text)) if text.as_str() == "h\u{fffd}i" => 0x11_0003,
        InternalEvent::Event(Event::Resize(80, 24)) => 0x11_0004,
        _ => 0x11_0005,
    }
}

/// The numbers of no event, of a fault, of memory that was refused, and of the end of input.
const NONE: u32 = 0x11_0006;

const FAULT: u32 = 0x11_0007;

const REFUSED: u32 = 0x11_0008;

const END: u32 = 0x11_0009;

/// The number of what came of a read.
fn number_in<A: Allocator>(read: io::Result<Option<InternalEvent<A>>>) -> u32 {
    match read {
        Ok(Some(event)) => number_of(&event),
        Ok(None) => NONE,
        Err(error) => match error.kind() {
            ErrorKind::OutOfMemory => REFUSED,
            ErrorKind::UnexpectedEof => END,
            _ => FAULT,
        },
    }
}

type Poor<'a> = InternalEventReader<DeviceSource<Script, &'a LocalHeap>, &'a LocalHeap>;

type Block<'a> = Vec<u8, &'a LocalHeap>;

/// All of a heap but so many bytes.
fn all_but(heap: &LocalHeap, free: usize) -> Result<Block<'_>, AllocError> {
    let mut block = Vec::new(heap);
    block.reserve_exact(HEAP - HEAP.min(free))?;
    Ok(block)
}

/// What is read until the end of input, and whether memory was refused. From the first refusal on the block's memory is free.
fn read_all<'a>(
    alloc: Global,
    reader: &mut Poor<'a>,
    block: Block<'a>,
) -> Result<(Vec<u32>, bool), AllocError> {
    let mut seen = Vec::new(alloc);
    let mut taken = Some(block);
    for _ in 0..CALLS {
        match number_in(reader.read_within(99, &EventFilter)) {
            REFUSED => taken = None,
            END => break,
            number => seen.push(number)?,
        }
    }
    Ok((seen, taken.is_none()))
}

/// What a session gives over a heap with so many free bytes, and whether memory was refused.
fn played(alloc: Global, session: &Session, free: usize) -> Result<(Vec<u32>, bool), AllocError> {
    let script = script_of(alloc, session)?;
    let heap = LocalHeap::new(alloc, HEAP)?;
    let block = all_but(&heap, free)?;
    let mut reader = InternalEventReader::new(&heap, DeviceSource::new(&heap, script));
    read_all(alloc, &mut reader, block)
}

/// How often a call was refused memory in a session, if it gives the same over each heap.
fn sweep(alloc: Global, session: &Session) -> Result<Option<u32>, AllocError> {
    let (want, _) = played(alloc, session, HEAP)?;
    let mut refusals = 0u32;
    for step in 0..STEPS {
        let (seen, is_refused) = played(
            alloc,
            session,
            LEAST.saturating_add(step.saturating_mul(session.2)),
        )?;
        if seen.as_slice() != want.as_slice() {
            return Ok(None);
        }
        refusals = refusals.saturating_add(u32::from(is_refused));
    }
    Ok(Some(refusals))
}

#[test]
fn refused_memory_loses_no_event(rt: HostRuntime) -> Result<(), AllocError> {
    let sessions: [Session; 5] = [
        (&TWO_PIECES, 0, 8),
        (&ONE_PIECE, 0, 8),
        (&FULL_PIECE, 1_023, 220),
        (&PASTE, 0, 4),
        (&ACTS, 0, 8),
    ];
    for session in &sessions {
        let refusals = sweep(rt.alloc(), session)?;
        expect!(rt; refusals.is_some_and(|count| (1..STEPS as u32).contains(&count)));
    }
    Ok(())
}

/// What a terminal that knows the protocol answers to the two requests of the query.
static FLAGS: [Part; 1] = [Part::Text(b"\x1b[?1u\x1b[?62c", 1, false)];

/// Whether a query gets its flags and holds nothing then, and whether memory was refused before.
fn queried<'a>(reader: &mut Poor<'a>, block: Block<'a>) -> (bool, bool) {
    let mut taken = Some(block);
    for _ in 0..CALLS {
        match reader.keyboard_within(3) {
            Ok(flags) => {
                let is_reported = flags
                    == Some(KeyboardEnhancementFlags::DISAMBIGUATE_ESCAPE_CODES);
                return (is_reported && count_of(reader.held()) == 0, taken.is_none());
            }
            Err(error) if error.kind() == ErrorKind::OutOfMemory => taken = None,
            Err(_) => break,
        }
    }
    (false, taken.is_none())
}

/// Whether it does so over a heap with so many free bytes.
fn queries(alloc: Global, free: usize) -> Result<(bool, bool), AllocError> {
    let script = Script::new(acts_of(alloc, &FLAGS)?);
    let heap = LocalHeap::new(alloc, HEAP)?;
    let block = all_but(&heap, free)?;
    let mut reader = InternalEventReader::new(&heap, DeviceSource::new(&heap, script));
    Ok(queried(&mut reader, block))
}

#[test]
fn refused_memory_loses_no_reply(rt: HostRuntime) -> Result<(), AllocError> {
    let mut refusals = 0u32;
    for step in 0..STEPS {
        let (is_reported, is_refused) = queries(rt.alloc(), LEAST + 8 * step)?;
        expect!(rt; is_reported);
        refusals = refusals.saturating_add(u32::from(is_refused));
    }
    expect!(rt; 0 < refusals && refusals < STEPS as u32);
    Ok(())
}
