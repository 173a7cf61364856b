//! The calls of a reader, with a filter from outside.

use crate::scripts::{Part, count_of, script_of, source_of};
use crossterm_read::read::InternalEventReader;
use crossterm_read::source::{DeviceSource, Script};
use crossterm_types::event::filter::{AnyFilter, Classes, EventFilter, Filter};
use crossterm_types::event::{Event, InternalEvent, KeyCode};
use linked_list_allocator::LocalHeap;
use std::alloc::{AllocError, Allocator, Global};
use std::cell::Cell;
use test_support::expect;

// Admits no event.
struct Nothing;

impl Filter for Nothing {
    ghost use Rattle.std.specs.Prelude.{false};

    ghost admits = { λ _ _. false };

    fn eval<A: Allocator>(&self, _event: &InternalEvent<A>) -> bool {
        false
    }
}

type Reader = InternalEventReader<DeviceSource<Script>>;

static LETTERS: [Part; 2] = [Part::Text(b"ab", 1, false), Part::Woken];

fn reader_of(alloc: Global, parts: &[Part]) -> Result<Reader, AllocError> {
    let source = source_of(alloc, parts)?;
    Ok(InternalEventReader::new(alloc, source))
}

fn is_char(event: &InternalEvent, c: char) -> bool {
    match event {
        InternalEvent::Event(Event::Key(key)) => key.code == KeyCode::Char(c),
        _ => false,
    }
}

fn is_some_char(event: Option<InternalEvent>, c: char) -> bool {
    match event {
        Some(event) => is_char(&event, c),
        None => false,
    }
}

/// Whether this character is held first, and so many events after it.
fn holds(reader: &Reader, c: char, more: usize) -> bool {
    let mut held = reader.held();
    match held.next() {
        Some(event) => is_char(event, c) && count_of(held) == more,
        None => false,
    }
}

/// Whether a filter that admits nothing is given nothing, and nothing of what comes is lost.
fn skips(reader: &mut Reader) -> bool {
    let reads_nothing = matches!(reader.read_within(2, &Nothing), Ok(None));
    reads_nothing && reader.take(&Nothing).is_none() && holds(reader, 'a', 1)
}

/// Whether what is held is ready at once, is taken in order, and is read.
fn gives(reader: &mut Reader) -> bool {
    let is_ready = matches!(reader.poll_within(0, &AnyFilter::Event), Ok(true));
    let takes = is_some_char(reader.take(&AnyFilter::Event), 'a') && holds(reader, 'b', 0);
    let read = reader.read_within(1, &AnyFilter::Event);
    is_ready && takes && is_some_char(read.unwrap_or(None), 'b')
}

#[test]
fn skipped_events_stay_first(rt: HostRuntime) -> Result<(), AllocError> {
    let mut reader = reader_of(rt.alloc(), &LETTERS)?;
    expect!(rt; skips(&mut reader));
    expect!(rt; gives(&mut reader));
    Ok(())
}

static MANY_LETTERS: [Part; 2] = [Part::Text(b"b", 1, false), Part::Text(b"a", 2000, false)];

/// Whether each of 2001 events that aren't admitted is held.
fn holds_all(reader: &mut Reader) -> bool {
    matches!(reader.read_within(2001, &Nothing), Ok(None)) && holds(reader, 'b', 2000)
}

#[test]
fn many_skipped_events_are_held(rt: HostRuntime) -> Result<(), AllocError> {
    let mut reader = reader_of(rt.alloc(), &MANY_LETTERS)?;
    expect!(rt; holds_all(&mut reader));
    Ok(())
}

// Admits resizes alone, which are no class of their own.
struct Resizes;

impl Filter for Resizes {
    ghost use Rattle.test_input.specs.Filters.{is_resize};

    ghost admits = { λ _. is_resize };

    fn eval<A: Allocator>(&self, event: &InternalEvent<A>) -> bool {
        matches!(event, InternalEvent::Event(Event::Resize(_, _)))
    }
}

static MIXED: [Part; 5] = [
    Part::Text(b"a", 1, false),
    Part::Resize(80, 24),
    Part::Text(b"\x1b[1;1Rb", 1, false),
    Part::Resize(100, 30),
    Part::Woken,
];

fn is_resize(event: Option<InternalEvent>, columns: u16, rows: u16) -> bool {
    match event {
        Some(InternalEvent::Event(Event::Resize(c, r))) => c == columns && r == rows,
        _ => false,
    }
}

/// Whether both resizes are taken in their order, and the rest stays in its own.
fn takes_resizes(reader: &mut Reader) -> bool {
    let all_came = matches!(reader.poll_within(8, &Nothing), Ok(false));
    let first = is_resize(reader.take(&Resizes), 80, 24);
    let second = is_resize(reader.take(&Resizes), 100, 30);
    all_came && first && second && reader.take(&Resizes).is_none() && holds(reader, 'a', 2)
}

#[test]
fn a_filter_without_classes_takes_in_order(rt: HostRuntime) -> Result<(), AllocError> {
    let mut reader = reader_of(rt.alloc(), &MIXED)?;
    expect!(rt; takes_resizes(&mut reader));
    Ok(())
}

// Admits the user's events, as a class, and counts how often it is asked for one.
#[derive(Drop)]
struct Counting {
    asked: Cell<u32>,
}

impl Filter for Counting {
    ghost use Rattle.crossterm_types.specs.Admitting.{is_event};

    ghost admits = { λ _. is_event };

    fn eval<A: Allocator>(&self, event: &InternalEvent<A>) -> bool {
        self.asked.set(self.asked.get().saturating_add(1));
        matches!(event, InternalEvent::Event(_))
    }

    fn classes(&self) -> Option<Classes> {
        EventFilter.classes()
    }
}

static KEY_BEHIND_REPLIES: [Part; 2] = [
    Part::Text(b"\x1b[1;1R", 10_000, false),
    Part::Text(b"k", 1, false),
];

/// Whether the one key that comes after the replies is taken, and no event but it is evaluated.
fn takes_unasked(reader: &mut Reader) -> bool {
    let filter = Counting {
        asked: Cell::new(0),
    };
    let all_came = matches!(reader.read_within(10_001, &Nothing), Ok(None));
    let is_taken = is_some_char(reader.take(&filter), 'k') && reader.take(&filter).is_none();
    all_came && is_taken && filter.asked.get() <= 1 && count_of(reader.held()) == 10_000
}

#[test]
fn a_key_behind_replies_is_taken_unasked(rt: HostRuntime) -> Result<(), AllocError> {
    let mut reader = reader_of(rt.alloc(), &KEY_BEHIND_REPLIES)?;
    expect!(rt; takes_unasked(&mut reader));
    Ok(())
}

type Poor<'a> = InternalEventReader<DeviceSource<Script, &'a LocalHeap>, &'a LocalHeap>;

static LETTERS_AND_REPLIES: [Part; 1] = [Part::Text(b"a\x1b[1;1R", 40, false)];

/// How many events came before memory was refused.
fn came(reader: &mut Poor<'_>) -> usize {
    let mut count = 0usize;
    for _ in 0..80u32 {
        match reader.poll_within(1, &Nothing) {
            Ok(_ready) => count = count.saturating_add(1),
            Err(_refused) => break,
        }
    }
    count
}

/// Whether each event that came before a refusal is held, over a heap of this size, and how many they are.
fn held_at(alloc: Global, size: usize) -> Result<Option<usize>, AllocError> {
    let script = script_of(alloc, &LETTERS_AND_REPLIES)?;
    let heap = LocalHeap::new(alloc, size)?;
    let mut reader = InternalEventReader::new(&heap, DeviceSource::new(&heap, script));
    let count = came(&mut reader);
    let held = count_of(reader.held());
    Ok((held == count).then_some(count))
}

/// Whether what came is held over a heap of each size, and all come over the largest.
fn keeps_what_came(alloc: Global) -> Result<bool, AllocError> {
    let mut most = 0;
    let mut is_kept = true;
    for step in 0..800usize {
        match held_at(alloc, 128 * (step + 1))? {
            Some(count) => most = count.max(most),
            None => is_kept = false,
        }
    }
    Ok(is_kept && most == 80)
}

#[test]
fn refused_rooms_leave_what_is_held(rt: HostRuntime) -> Result<(), AllocError> {
    let is_kept = keeps_what_came(rt.alloc())?;
    expect!(rt; is_kept);
    Ok(())
}
