//! A session whose events another thread reads too, and one with a stream of them.

use crate::noted::{Noted, terminal_by};
use crossterm::event::source::{DeviceSource, RawFlag, Script};
use crossterm::event::{Event, EventStream};
use futures::StreamExt;
use futures::executor::block_on;
use own_terminal::{Events, Session};
use std::alloc::{AllocError, AllocGlobal, Global};
use std::io::{self, ErrorKind};
use std::random::RandomSource;
use std::sync::Wait;
use std::sync::atomic::AtomicU32;
use std::thread::{self, Threads};
use std::time::{self, Duration};
use test_support::{Still, expect, letter_in, letter_of, text};

/// What is read: each letter once.
const LETTERS: &[u8] = b"abcdefghijklmnopqrstuvwxyz";

/// One bit for each letter.
const ALL: u32 = 0x3ff_ffff;

type Source = DeviceSource<Script>;

type Shared<'a> = Session<Source, Noted<'a>, Vec<u8>, Still>;

/// A device that reports the letters, and then the end of input.
fn letters(alloc: Global) -> Result<Script, AllocError> {
    Ok(Script::new(Vec::from_array(alloc, [text(alloc, LETTERS)?])?))
}

/// The letters so far with one more, and none if it came before. An `a` is 97.
fn with_letter(seen: u32, letter: char) -> u32 {
    let place = (letter as u32).wrapping_sub(97);
    if place >= 26 {
        return 0;
    }
    let bit = 1u32 << place;
    if seen & bit == 0 { seen | bit } else { 0 }
}

/// What the session's own thread reads to the end of input.
fn read_by_session<R: Wait>(rt: &R, session: &mut Shared<'_>) -> u32 {
    let mut seen = 0;
    for _ in rt.forever() {
        match session.read_within(rt, Duration::from_secs(1)) {
            Ok(Some(event)) => seen = with_letter(seen, letter_of(&event)),
            Ok(None) => {}
            Err(_) => break,
        }
    }
    seen
}

/// The next event of a share: one that comes at once, or else what it waits for.
fn next_of<R: Wait>(rt: &R, events: &mut Events<Source>) -> io::Result<Event> {
    match events.read_within(rt, Duration::ZERO, &mut Still) {
        Ok(Some(event)) => Ok(event),
        Ok(None) => events.read(rt),
        Err(error) => Err(error),
    }
}

/// What another thread reads to the end of input.
fn read_by_share<R: Wait>(rt: &R, events: &mut Events<Source>) -> u32 {
    let mut seen = 0;
    for _ in rt.forever() {
        match letter_in(next_of(rt, events)) {
            Some(letter) => seen = with_letter(seen, letter),
            None => break,
        }
    }
    seen
}

/// A session over the letters, and one more share of its events.
fn begun<'a, R: Wait>(
    rt: &R,
    alloc: Global,
    calls: &'a AtomicU32,
) -> io::Result<(Shared<'a>, Vec<Events<Source>>)> {
    let device = letters(alloc)?;
    let term = terminal_by(RawFlag::new(alloc)?, calls, None);
    Session::over_shared(rt, alloc, device, term, Vec::new(alloc), Still, 1)
}

/// Whether two threads read all letters, and none of them twice.
fn is_each_read_once<R: Threads + Wait + Sync>(
    rt: &R,
    mut session: Shared<'_>,
    mut others: Vec<Events<Source>>,
) -> bool {
    let Some(mut events) = others.pop() else {
        return false;
    };
    let (ours, theirs) = thread::join(
        rt,
        || read_by_session(rt, &mut session),
        || read_by_share(rt, &mut events),
    );
    others.is_empty() && ours & theirs == 0 && ours | theirs == ALL
}

#[test]
fn two_threads_read_each_event_of_a_session_once(rt: HostRuntime) -> io::Result<()> {
    for _ in 0..20u32 {
        let calls = AtomicU32::new(0);
        let (session, others) = begun(&rt, rt.alloc(), &calls)?;
        expect!(rt; is_each_read_once(&rt, session, others));
    }
    Ok(())
}

/// What a stream gives.
#[derive(Clone, Copy, PartialEq)]
enum Given {
    Letter(char),
    Fault(ErrorKind),
    Nothing,
}

/// What came of a wait for a stream's next event.
fn given_by(next: io::Result<Option<io::Result<Event>>>) -> Given {
    match next {
        Ok(Some(Ok(event))) => Given::Letter(letter_of(&event)),
        Ok(Some(Err(error))) => Given::Fault(error.kind()),
        _ => Given::Nothing,
    }
}

/// What a stream gives up to its first error, and that error.
fn streamed<R: AllocGlobal + RandomSource + time::Clock + Wait + Drop>(
    rt: &R,
    events: &mut EventStream<Source, R>,
) -> (u32, Given) {
    let mut seen = 0;
    for _ in rt.forever() {
        match given_by(block_on(rt, events.next())) {
            Given::Letter(letter) => seen = with_letter(seen, letter),
            other => return (seen, other),
        }
    }
    (seen, Given::Nothing)
}

#[test]
fn a_stream_beside_a_session_gives_each_event(rt: HostRuntime) -> io::Result<()> {
    let alloc = rt.alloc();
    for _ in 0..20u32 {
        let calls = AtomicU32::new(0);
        let term = terminal_by(RawFlag::new(alloc)?, &calls, None);
        let (mut session, mut events) = Session::over_streaming(
            rt,
            alloc,
            letters(alloc)?,
            term,
            Vec::new(alloc),
            Still,
        )?;
        let streamed = streamed(&rt, &mut events);
        expect!(rt; streamed == (ALL, Given::Fault(ErrorKind::UnexpectedEof)));
        expect!(rt; session.leave().is_ok() && session.out.is_empty());
    }
    Ok(())
}
