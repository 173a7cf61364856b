//! A recording in the format asciicast v2: what was typed as input, and what `replay` prints of each event as output, which players show.

use super::{Replay, answers_of, next};
use bstr::ByteSlice;
use crossterm::event::source::Act;
use recorder::reading::Session;
use serde_json::Value;
use std::alloc::{AllocError, Global};
use std::format;
use std::io::{self, Write};
use std::time::Clock;

/// Adds bytes to those that are held, and returns their text, with U+FFFD for what is no character. The beginning of a character at the
/// end is held on.
fn take_text(alloc: Global, held: &mut Vec<u8>, bytes: &[u8]) -> Result<String, AllocError> {
    held.extend_from_slice(bytes)?;
    let mut text = String::new(alloc);
    let mut open = Vec::new(alloc);
    for chunk in held.as_slice().utf8_chunks() {
        text.push_str(chunk.valid())?;
        match chunk.invalid().to_str() {
            Ok(_) => {}
            Err(error) if error.error_len().is_none() => open.extend_from_slice(chunk.invalid())?,
            Err(_) => text.push('\u{fffd}')?,
        }
    }
    *held = open;
    Ok(text)
}

/// Writes a line: the seconds since the beginning, what it is, and its text.
fn write_row<W: Write>(
    alloc: Global,
    time: u32,
    kind: &str,
    text: String,
    out: &mut W,
) -> io::Result<()> {
    let (seconds, millis) = (time / 1000, time % 1000);
    let text = Value::String(text).to_string(alloc)?;
    writeln!(out, "[{seconds}.{millis:03}, \"{kind}\", {text}]")
}

/// The size that a line `# size COLUMNS ROWS` says.
fn size_in(line: &[u8]) -> Option<(u16, u16)> {
    let mut words = line.to_str().ok()?.split(' ');
    match (
        words.next(),
        words.next(),
        words.next(),
        words.next(),
        words.next(),
    ) {
        (Some("#"), Some("size"), Some(columns), Some(rows), None) => {
            Some((columns.parse().ok()?, rows.parse().ok()?))
        }
        _ => None,
    }
}

/// A recording that is written, as far as it was.
#[derive(Drop)]
pub(super) struct Cast {
    alloc: Global,
    session: Session,
    /// How many of its acts were written, and how many answers a script made of these.
    acts: usize,
    answers: usize,
    /// The beginning of a character that was cut.
    held: Vec<u8>,
}

impl Cast {
    /// A recording of which nothing was written.
    pub(super) fn new(alloc: Global, session: Session) -> Cast {
        Cast {
            alloc,
            session,
            acts: 0,
            answers: 0,
            held: Vec::new(alloc),
        }
    }

    /// The size that the first line of the recording's text says; else the first that was reported, and 80 by 24 if none was.
    fn first_size(&self, text: &[u8]) -> (u16, u16) {
        if let Some(size) = text.lines().next().and_then(size_in) {
            return size;
        }
        for act in self.session.acts.iter() {
            if let Act::Resize(columns, rows) = act {
                return (*columns, *rows);
            }
        }
        (80, 24)
    }

    /// Writes the first line, with the first size.
    pub(super) fn write_header<W: Write>(&self, text: &[u8], out: &mut W) -> io::Result<()> {
        let (width, height) = self.first_size(text);
        writeln!(
            out,
            "{{\"version\": 2, \"width\": {width}, \"height\": {height}}}"
        )
    }

    /// Writes an act: bytes that came, or a resize.
    fn write_act<W: Write>(&mut self, at: usize, out: &mut W) -> io::Result<()> {
        let time = self.session.times.get(at).copied().unwrap_or(0);
        match self.session.acts.get(at) {
            Some(Act::Piece { bytes, .. }) => {
                let text = take_text(self.alloc, &mut self.held, bytes.as_slice())?;
                write_row(self.alloc, time, "i", text, out)
            }
            Some(Act::Resize(columns, rows)) => {
                let text = format!(in self.alloc; "{columns}x{rows}")?;
                write_row(self.alloc, time, "r", text, out)
            }
            _ => Ok(()),
        }
    }

    /// Writes the acts of which so many answers were made.
    fn write_until<W: Write>(&mut self, answers: usize, out: &mut W) -> io::Result<()> {
        for _ in self.acts..self.session.acts.len() {
            if self.answers >= answers {
                break;
            }
            let count = self.session.acts.get(self.acts).map_or(1, answers_of);
            self.answers = self.answers.saturating_add(count);
            let at = self.acts;
            self.write_act(at, out)?;
            self.acts = at.saturating_add(1);
        }
        Ok(())
    }

    /// Writes what came, and after it each event and failure that came of it, as `replay` prints them.
    pub(super) fn write<C: Clock, W: Write>(
        &mut self,
        reader: &mut Replay<'_, C>,
        out: &mut W,
    ) -> io::Result<()> {
        for _ in 0..u64::MAX {
            let Some((time, next)) = next(reader) else {
                break;
            };
            self.write_until(reader.source().device().answered, out)?;
            let mut line = Vec::new(self.alloc);
            super::write_line(time, next, &mut line)?;
            if line.pop().is_some() {
                line.extend_from_slice(b"\r\n")?;
                let text = take_text(self.alloc, &mut Vec::new(self.alloc), line.as_slice())?;
                write_row(self.alloc, time, "o", text, out)?;
            }
        }
        self.write_until(usize::MAX, out)
    }
}
