//! Prints a line for each event of the bytes that a terminal sends, by its names.
//!
//! `example keylog < FILE` reads them as they were recorded, in raw mode; a last line says so if a sequence is open at the end.

use crossterm::event::sys::unix::parse::Parser;
use crossterm::event::{Event, InternalEvent, KeyEvent, KeyEventKind, MouseEvent};
use std::alloc::Global;
use std::fmt;
use std::io::{self, ErrorKind, Read, Write};

/// An event as a line without its end.
#[derive(Drop)]
struct Line<'a>(&'a InternalEvent);

fn write_key<W: fmt::Write>(f: &mut fmt::Formatter<W>, key: &KeyEvent) -> fmt::Result {
    let (code, modifiers) = (key.code, key.modifiers);
    if modifiers.is_empty() {
        write!(f, "{code}")?;
    } else {
        write!(f, "{modifiers}+{code}")?;
    }
    match key.kind {
        KeyEventKind::Press => Ok(()),
        KeyEventKind::Repeat => f.write_str(" held"),
        KeyEventKind::Release => f.write_str(" let go"),
    }
}

fn write_mouse<W: fmt::Write>(f: &mut fmt::Formatter<W>, mouse: &MouseEvent) -> fmt::Result {
    let MouseEvent {
        kind,
        column,
        row,
        ..
    } = *mouse;
    write!(f, "mouse {kind:?} at {column}, {row}")
}

impl fmt::Display for Line<'_> {
    fn fmt<W: fmt::Write>(&self, f: &mut fmt::Formatter<W>) -> fmt::Result {
        match self.0 {
            InternalEvent::Event(Event::Key(key)) => write_key(f, key),
            InternalEvent::Event(Event::Mouse(mouse)) => write_mouse(f, mouse),
            InternalEvent::Event(Event::Paste(text)) => write!(f, "paste {text:?}"),
            InternalEvent::Event(event) => write!(f, "{event:?}"),
            reply => write!(f, "reply {reply:?}"),
        }
    }
}

/// Reads to the end, and writes the lines.
///
/// # Errors
///
/// Those of the input and the output, and `OutOfMemory` if memory was refused.
pub fn run<R: Read, W: Write>(alloc: Global, input: &mut R, out: &mut W) -> io::Result<()> {
    let mut parser = Parser::new(alloc);
    let mut piece = [0u8; 1024];
    for _ in 0..u64::MAX {
        let count = input.read(&mut piece)?;
        if count == 0 {
            break;
        }
        // If the piece is full, more bytes may follow at once, so that ESC at its end is no key yet.
        if parser.feed(&piece[..count], count == piece.len(), true) < count {
            return Err(io::Error::from(ErrorKind::OutOfMemory));
        }
        for event in parser.events() {
            let line = Line(&event);
            writeln!(out, "{line}")?;
        }
    }
    if parser.is_undecided() {
        writeln!(out, "(an open sequence)")?;
    }
    out.flush()
}
