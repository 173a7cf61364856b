//! A writer that fails at each byte of a frame, and at some of a long one, and the frame after it.

use crate::frames::paper::{Paper, Sheet};
use crossterm_command::{ColorOutput, CommandFault};
use screen::{DrawFault, Screen};
use std::alloc::{AllocError, Global};
use std::io::{self, ErrorKind, Write};
use test_support::expect;

/// Takes one byte a call, and fails after so many.
#[derive(Drop)]
pub struct Short {
    pub bytes: Vec<u8>,
    pub room: usize,
}

impl Write for Short {
    fn write(&mut self, buf: &[u8]) -> io::Result<usize> {
        if self.room == 0 {
            return Err(io::Error::from(ErrorKind::BrokenPipe));
        }
        self.room -= 1;
        let count = buf.len().min(1);
        self.bytes.extend_from_slice(&buf[..count])?;
        Ok(count)
    }

    fn flush(&mut self) -> io::Result<()> {
        Ok(())
    }
}

/// What came of two frames.
#[derive(Clone, Copy, PartialEq, Eq)]
enum Came {
    Whole,
    Broken,
    Wrong,
}

/// A sheet of two rows with a text in all cells of the second but the last.
fn sheet(alloc: Global, width: u16, text: &str, style: u32) -> Result<Sheet, AllocError> {
    let mut sheet = Sheet::new(alloc, width, 2)?;
    for column in 0..width.saturating_sub(1) {
        sheet.set(column, 1, text, style);
    }
    Ok(sheet)
}

/// The kind of the writer's own error. Another fault is shown by a kind that no writer here fails with.
pub fn own_kind(fault: DrawFault) -> ErrorKind {
    match fault {
        DrawFault::Command(CommandFault::Writer(error)) => error.kind(),
        _ => ErrorKind::InvalidData,
    }
}

/// A screen and a paper, and sheets for a frame and the next one.
#[derive(Drop)]
struct Frames {
    screen: Screen,
    paper: Paper,
    first: Sheet,
    second: Sheet,
}

/// These, of two rows.
fn all_of(alloc: Global, width: u16) -> Result<Frames, AllocError> {
    Ok(Frames {
        screen: Screen::new(alloc, width, 2)?,
        paper: Paper::new(alloc, width, 2)?,
        first: sheet(alloc, width, "Ж\u{301}", 3)?,
        second: sheet(alloc, width, "x", 1)?,
    })
}

/// Draws a frame that breaks off after so many bytes, and then another one, which has to be shown.
fn breaks_at(alloc: Global, frames: Frames, room: usize) -> Came {
    let Frames {
        mut screen,
        mut paper,
        first,
        second,
    } = frames;
    let mut short = Short {
        bytes: Vec::new(alloc),
        room,
    };
    let cursor = Some((3, 1));
    let drawn = screen.draw(&mut short, ColorOutput::Enabled, &first.buffer, cursor);
    paper.write(&short.bytes);
    match drawn.err().map(own_kind) {
        None if paper.shows(&first.marks, cursor) => return Came::Whole,
        Some(ErrorKind::BrokenPipe) if short.bytes.len() == room => {}
        _ => return Came::Wrong,
    }
    let mut bytes: Vec<u8> = Vec::new(alloc);
    let drawn = screen.draw(&mut bytes, ColorOutput::Enabled, &second.buffer, None);
    paper.is_spoilt = false;
    paper.write(&bytes);
    if drawn.is_ok() && paper.shows(&second.marks, None) {
        return Came::Broken;
    }
    Came::Wrong
}

/// Whether each frame is shown that comes after a broken one, and how many bytes a whole one has.
fn are_shown(alloc: Global) -> Result<bool, AllocError> {
    for room in 0..1000usize {
        match breaks_at(alloc, all_of(alloc, 4)?, room) {
            Came::Broken => {}
            Came::Whole => return Ok(room > 40),
            Came::Wrong => return Ok(false),
        }
    }
    Ok(false)
}

/// Whether frames are that come after a long one, which is given to the writer in parts.
fn are_long_shown(alloc: Global) -> Result<bool, AllocError> {
    for room in [0, 1, 3000, 4095, 4096, 4097, 7000, 8191] {
        if breaks_at(alloc, all_of(alloc, 5000)?, room) != Came::Broken {
            return Ok(false);
        }
    }
    Ok(true)
}

#[test]
fn frames_after_a_broken_one_are_shown(rt: HostRuntime) -> Result<(), AllocError> {
    expect!(rt; are_shown(rt.alloc())?);
    expect!(rt; are_long_shown(rt.alloc())?);
    Ok(())
}
