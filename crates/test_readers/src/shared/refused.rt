//! A shared reader whose memory is refused.

use crate::parts::{Given, acts_of};
use crossterm_read::read::{EventReader, InternalEventReader, Pass};
use crossterm_read::source::{DeviceSource, Script, Waker};
use crossterm_types::event::filter::EventFilter;
use linked_list_allocator::LocalHeap;
use std::alloc::{AllocError, Global};
use std::io;
use std::io::ErrorKind;
use std::sync::Wait;
use test_support::{Calls, Came, expect, is_refused_below_a_size, script_of};

type Source<'a> = DeviceSource<Script, &'a LocalHeap>;

type Opened<'a> = (
    EventReader<Source<'a>, &'a LocalHeap>,
    Vec<Pass<Source<'a>, &'a LocalHeap>, &'a LocalHeap>,
);

/// A script of one letter, over memory of its own.
fn letter(alloc: Global) -> Result<Script, AllocError> {
    Ok(Script::new(acts_of(alloc, &[Given::Text(b"a")])?))
}

/// A reader that holds a letter is shared. All its memory is this heap's.
fn open<'a, R: Wait>(
    rt: &R,
    heap: &'a LocalHeap,
    script: Script,
    passes: usize,
) -> io::Result<Opened<'a>> {
    let mut reader = InternalEventReader::new(heap, DeviceSource::new(heap, script));
    reader.poll_within(1, &EventFilter)?;
    EventReader::new(rt, heap, reader, passes)
}

/// What came of it, if three passes are wanted.
fn came_of(opened: io::Result<Opened<'_>>) -> Came {
    match opened {
        Ok((_shared, passes)) if passes.len() == 3 => Came::Done,
        Err(error) if error.kind() == ErrorKind::OutOfMemory => Came::Refused,
        _ => Came::Wrong,
    }
}

/// A reader is opened for three passes.
#[derive(Drop)]
struct Opening<'a, R> {
    rt: &'a R,
    alloc: Global,
}

impl<R: Wait> Calls for Opening<'_, R> {
    fn over(&self, heap: &LocalHeap) -> Result<Came, AllocError> {
        Ok(came_of(open(self.rt, heap, letter(self.alloc)?, 3)))
    }
}

#[test]
fn memory_that_is_refused_leaves_nothing(rt: HostRuntime) -> io::Result<()> {
    let alloc = rt.alloc();
    expect!(rt; is_refused_below_a_size(alloc, &Opening { rt: &rt, alloc })?);
    Ok(())
}

/// Whether a waker and another of it take no memory of a heap that has so much in use, and wake.
fn wakes(waker: io::Result<Waker>, heap: &LocalHeap, used: usize) -> bool {
    let Ok(waker) = waker else {
        return false;
    };
    match waker.share() {
        Ok(other) => other.wake().is_ok() && heap.used() == used,
        Err(_) => false,
    }
}

/// Whether a share and a waker take no memory.
fn shares_for_nothing<R: Wait>(rt: &R, alloc: Global) -> io::Result<bool> {
    let heap = LocalHeap::new(alloc, 65536)?;
    let (shared, _passes) = open(rt, &heap, letter(alloc)?, 1)?;
    let used = heap.used();
    match shared.share() {
        Ok(share) => Ok(wakes(share.waker(), &heap, used)),
        Err(_) => Ok(false),
    }
}

#[test]
fn sharing_takes_no_memory(rt: HostRuntime) -> io::Result<()> {
    expect!(rt; shares_for_nothing(&rt, rt.alloc())?);
    Ok(())
}

/// How many passes there are, of so many that were asked for.
fn passes_of<R: Wait>(rt: &R, alloc: Global, passes: usize) -> Option<usize> {
    match EventReader::new(rt, alloc, script_of(alloc, Vec::new(alloc)), passes) {
        Ok((_shared, made)) => Some(made.len()),
        Err(_) => None,
    }
}

#[test]
fn a_reader_has_as_many_passes_as_it_was_asked_for(rt: HostRuntime) {
    for passes in [0, 3] {
        expect!(rt; passes_of(&rt, rt.alloc(), passes) == Some(passes));
    }
}
