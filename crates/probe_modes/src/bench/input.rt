//! What the parser makes of the input.

use crate::bench::timing::{Work, least};
use crate::fault::Fault;
use crossterm::event::sys::unix::parse::Parser;
use crossterm::event::{Event, InternalEvent};
use std::alloc::Allocator;
use std::fmt;
use std::io::{Read, Write};
use std::rt::Clock;

/// How many bytes the parser is handed at once: a terminal's source reads as many.
const PIECE: usize = 1024;

/// How many events there are of each kind.
#[derive(Clone, Copy)]
pub struct Counts {
    keys: u64,
    mouse: u64,
    pastes: u64,
    focus: u64,
    resizes: u64,
    replies: u64,
}

impl Counts {
    fn new() -> Counts {
        Counts {
            keys: 0,
            mouse: 0,
            pastes: 0,
            focus: 0,
            resizes: 0,
            replies: 0,
        }
    }

    fn count<A: Allocator>(&mut self, event: &InternalEvent<A>) {
        let kind = match event {
            InternalEvent::Event(Event::Key(_)) => &mut self.keys,
            InternalEvent::Event(Event::Mouse(_)) => &mut self.mouse,
            InternalEvent::Event(Event::Paste(_)) => &mut self.pastes,
            InternalEvent::Event(Event::FocusGained | Event::FocusLost) => &mut self.focus,
            InternalEvent::Event(Event::Resize(_, _)) => &mut self.resizes,
            InternalEvent::CursorPosition(_, _)
            | InternalEvent::KeyboardEnhancementFlags(_)
            | InternalEvent::PrimaryDeviceAttributes => &mut self.replies,
        };
        *kind = kind.wrapping_add(1);
    }

    /// Takes all events that wait, and counts them.
    fn take<A: Allocator + Clone>(&mut self, parser: &mut Parser<A>) {
        for _ in 0..u64::MAX {
            match parser.next() {
                Some(event) => self.count(&event),
                None => break,
            }
        }
    }

    /// Counts the events of some bytes, all of which a new parser is handed.
    pub fn of<A: Allocator + Clone>(alloc: A, bytes: &[u8]) -> Result<Counts, Fault> {
        let mut parser = Parser::new(alloc);
        let mut counts = Counts::new();
        let mut left = bytes.len();
        for piece in bytes.chunks(PIECE) {
            left = left.saturating_sub(piece.len());
            if parser.feed(piece, left > 0, false) < piece.len() {
                return Err(Fault::OutOfMemory);
            }
            counts.take(&mut parser);
        }
        Ok(counts)
    }

    /// How many events there are of all kinds.
    fn all(&self) -> u64 {
        self.keys
            .saturating_add(self.mouse)
            .saturating_add(self.pastes)
            .saturating_add(self.focus)
            .saturating_add(self.resizes)
            .saturating_add(self.replies)
    }
}

impl fmt::Display for Counts {
    fn fmt<W: fmt::Write>(&self, f: &mut fmt::Formatter<W>) -> fmt::Result {
        let Counts {
            keys,
            mouse,
            pastes,
            focus,
            resizes,
            replies,
        } = *self;
        write!(
            f,
            "keys {keys} mouse {mouse} pastes {pastes} focus {focus} resizes {resizes} replies {replies}"
        )
    }
}

fn read_all<A: Allocator, R: Read>(alloc: A, reader: &mut R) -> Result<Vec<u8, A>, Fault> {
    let mut bytes = Vec::new(alloc);
    match reader.read_to_end(&mut bytes) {
        Ok(_) => Ok(bytes),
        Err(error) => Err(Fault::of_read(&error)),
    }
}

/// The input with the parser over it, as work.
#[derive(Drop)]
struct Parsing<'a, A: Allocator> {
    alloc: A,
    bytes: &'a [u8],
}

impl<A: Allocator + Clone> Work for Parsing<'_, A> {
    fn run(&mut self) -> Result<(), Fault> {
        Counts::of(self.alloc.clone()?, self.bytes)?;
        Ok(())
    }
}

/// Prints how many bytes the reader has, and their events by kind.
pub fn count<A: Allocator + Clone, R: Read, W: Write>(
    alloc: A,
    reader: &mut R,
    writer: &mut W,
) -> Result<(), Fault> {
    let bytes = read_all(alloc.clone()?, reader)?;
    let counts = Counts::of(alloc, bytes.as_slice())?;
    let count = bytes.len();
    print(writer, format_args!("bytes {count} {counts}"))
}

/// Prints the least time of a byte that the reader has, and how many events there are.
pub fn time<C: Clock, A: Allocator + Clone, R: Read, W: Write>(
    clock: &C,
    alloc: A,
    reader: &mut R,
    writer: &mut W,
) -> Result<(), Fault> {
    let bytes = read_all(alloc.clone()?, reader)?;
    let events = Counts::of(alloc.clone()?, bytes.as_slice())?.all();
    let mut work = Parsing {
        alloc,
        bytes: bytes.as_slice(),
    };
    let nanos = least(clock, &mut work, bytes.len())?;
    print(writer, format_args!("ns a byte {nanos} events {events}"))
}

/// Prints a value as a line.
pub fn print<T: fmt::Display + Drop, W: Write>(writer: &mut W, value: T) -> Result<(), Fault> {
    match writeln!(writer, "{value}") {
        Ok(()) => Ok(()),
        Err(error) => Err(Fault::of_write(&error)),
    }
}
