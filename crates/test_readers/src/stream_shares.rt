//! A stream takes its part of what passes read beside it.

use crate::parts::are_all;
use crate::stream::stream_by;
use crossterm_read::read::EventReader;
use crossterm_read::source::{Act, DeviceSource, Script};
use crossterm_read::stream::EventStream;
use crossterm_types::event::Event;
use futures::task::Poll;
use futures::test::MockTask;
use std::alloc::{AllocError, AllocGlobal, Global};
use std::random::RandomSource;
use std::sync::Wait;
use std::thread::Threads;
use std::{io, thread};
use test_support::{Reader, Seat, TURNS, expect, nap, script_of};

/// How many events there are, and how many each of the three takes at most: together they take all only if each takes its part.
const EVENTS: u16 = 300;

const PART: usize = 100;

type Source = DeviceSource<Script>;

/// A reader over a script of as many sizes. Each has its arrival number for its columns.
fn sizes(alloc: Global) -> Result<Reader<Script>, AllocError> {
    let mut acts = Vec::new(alloc);
    for place in 0..EVENTS {
        acts.push(Act::Resize(place, 1))?;
    }
    Ok(script_of(alloc, acts))
}

/// The number of an event, and none of another one or a fault.
fn number_of(event: io::Result<Event>) -> Option<u64> {
    match event {
        Ok(Event::Resize(place, 1)) => Some(u64::from(place)),
        _ => None,
    }
}

/// A seat at the reader, if there was memory.
type Place = io::Result<Seat<Source>>;

/// What a pass reads of its part: nothing without a seat, and less if memory is refused. A number that isn't the pass's own last one ends it.
fn read_part<R: Wait>(rt: &R, alloc: Global, seat: Place) -> Vec<u64> {
    let mut taken = Vec::new(alloc);
    let Ok(mut seat) = seat else {
        return taken;
    };
    for _ in 0..PART {
        let Some(number) = number_of(seat.read(rt)) else {
            break;
        };
        if seat.pass.last() != Some(number) || taken.push(number).is_err() {
            break;
        }
    }
    taken
}

/// What two threads read of their parts.
fn read_parts<R: Wait + Threads + Sync>(
    rt: &R,
    alloc: Global,
    one: Place,
    other: Place,
) -> (Vec<u64>, Vec<u64>) {
    thread::join(
        rt,
        move || read_part(rt, alloc, one),
        move || read_part(rt, alloc, other),
    )
}

/// The number of the next event of a stream, before the turns are over.
fn next_of<R: Wait + Drop>(
    rt: &R,
    task: &MockTask,
    stream: &mut EventStream<Source, R>,
) -> Option<u64> {
    for _ in 0..TURNS {
        match task.enter(|cx| stream.poll_event(cx)) {
            Poll::Ready(event) => return number_of(event),
            Poll::Pending => nap(rt),
        }
    }
    None
}

/// What a stream gives of its part.
fn stream_part<R: Wait + Drop>(
    rt: &R,
    alloc: Global,
    task: &MockTask,
    stream: &mut EventStream<Source, R>,
) -> Vec<u64> {
    let mut taken = Vec::new(alloc);
    for _ in 0..PART {
        match next_of(rt, task, stream) {
            Some(number) if taken.push(number).is_ok() => {}
            _ => break,
        }
    }
    taken
}

/// Whether two passes and a stream take each event once.
fn is_each_once<R>(rt: R, alloc: Global) -> io::Result<bool>
where
    R: Threads + Wait + RandomSource + AllocGlobal + Copy + Send + Sync + Drop + 'static,
{
    let task = MockTask::new(&rt)?;
    let (shared, mut passes) = EventReader::new(&rt, alloc, sizes(alloc)?, 4)?;
    let mut stream = stream_by(rt, alloc, &shared, &mut passes)?;
    let one = Seat::next(&shared, &mut passes);
    let other = Seat::next(&shared, &mut passes);
    let ((first, second), third) = thread::join(
        &rt,
        move || read_parts(&rt, alloc, one, other),
        || stream_part(&rt, alloc, &task, &mut stream),
    );
    Ok(are_all(&[first, second, third], u64::from(EVENTS)))
}

#[test]
fn two_passes_and_a_stream_take_each_event_once(rt: HostRuntime) -> io::Result<()> {
    expect!(rt; is_each_once(rt, rt.alloc())?);
    Ok(())
}
