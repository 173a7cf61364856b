//! Commands and devices of one's own: rings the bell at the key `b`, and shows each other key twice.
//!
//! `example own_command < FILE` answers the keys of a device that it has, and then those of the file.

use crossterm::event::filter::EventFilter;
use crossterm::event::read::InternalEventReader;
use crossterm::event::source::{Answer, Device, DeviceSource, Waker};
use crossterm::event::{Event, InternalEvent, KeyCode};
use crossterm::style::{ColorOutput, Print};
use crossterm::{Command, QueueableCommand, execute};
use std::alloc::Global;
use std::fmt;
use std::io::{self, ErrorKind, Read, Write};
use std::time::Duration;

/// Rings the bell (BEL of ECMA-48, 8.3.3).
#[derive(Clone, Copy)]
struct Bell;

impl Command for Bell {
    ghost use Rattle.std.specs.Prelude.{Some, codes};

    ghost text = { λ _ _. Some (codes "\u{7}") };

    fn write_ansi<W: fmt::Write>(&self, f: &mut W, _colors: ColorOutput) -> fmt::Result {
        f.write_str("\x07")
    }
}

/// Shows the character before the cursor so often again (REP of ECMA-48, 8.3.103).
#[derive(Clone, Copy)]
struct Again(u8);

impl Command for Again {
    ghost use Rattle.std.specs.Prelude.{◌++◌, Some, codes};
    ghost use Rattle.std.specs.Fmt.{decimal};

    ghost text = { λ c _. Some (codes "\u{1b}[" ++ (decimal c.0 ++ codes "b")) };

    fn write_ansi<W: fmt::Write>(&self, f: &mut W, _colors: ColorOutput) -> fmt::Result {
        let count = self.0;
        write!(f, "\x1b[{count}b")
    }
}

/// Reports some pieces in order, and then the end of input. It never fails, and claims nothing of what it reports.
#[derive(Drop)]
struct Pieces {
    pieces: &'static [&'static [u8]],
    next: usize,
}

impl Device for Pieces {
    fn answer(&mut self, buf: &mut [u8], _limit: Option<Duration>) -> io::Result<Answer> {
        let Some(piece) = self.pieces.get(self.next) else {
            return Ok(Answer::Bytes {
                count: 0,
                raw: true,
            });
        };
        self.next += 1;
        let count = piece.len().min(buf.len());
        buf[..count].copy_from_slice(&piece[..count]);
        Ok(Answer::Bytes { count, raw: true })
    }

    fn failures(&self) -> u64 {
        0
    }

    fn waker(&self) -> io::Result<Waker> {
        Ok(Waker::none())
    }
}

/// Reports what a reader returns, and may fail as it does: then it counts its failures, and says so.
#[derive(Drop)]
struct Input<R> {
    reader: R,
    failures: u64,
}

impl<R: Read + Drop> Device for Input<R> {
    ghost failed = { λ input. input.failures };

    fn answer(&mut self, buf: &mut [u8], _limit: Option<Duration>) -> io::Result<Answer> {
        match self.reader.read(buf) {
            Ok(count) => Ok(Answer::Bytes { count, raw: true }),
            Err(error) => match self.failures.checked_add(1) {
                Some(failures) => {
                    self.failures = failures;
                    Err(error)
                }
                // An error may be returned only if the count rises.
                None => Ok(Answer::Idle),
            },
        }
    }

    fn failures(&self) -> u64 {
        self.failures
    }

    fn waker(&self) -> io::Result<Waker> {
        Ok(Waker::none())
    }
}

/// Shows a key twice.
fn show_twice<W: Write>(w: &mut W, code: KeyCode) -> io::Result<()> {
    execute!(w, ColorOutput::Enabled, Print(code), Again(1))
}

/// Answers a key.
fn answer_key<W: Write>(w: &mut W, code: KeyCode) -> io::Result<()> {
    match code {
        KeyCode::Char('b') => execute!(w, ColorOutput::Enabled, Bell),
        code => show_twice(w, code),
    }
}

/// Answers the keys of a device until its end.
fn answer_all<D: Device, W: Write>(alloc: Global, device: D, w: &mut W) -> io::Result<()> {
    let mut reader = InternalEventReader::new(alloc, DeviceSource::new(alloc, device));
    for _ in 0..u64::MAX {
        match reader.read_within(1, &EventFilter) {
            Ok(Some(InternalEvent::Event(Event::Key(key)))) => answer_key(w, key.code)?,
            Ok(_) => {}
            Err(error) if error.kind() == ErrorKind::UnexpectedEof => break,
            Err(error) => return Err(error),
        }
    }
    Ok(())
}

/// Answers the keys of some pieces, and then those of a reader.
///
/// # Errors
///
/// Those of the reader and the output, and `OutOfMemory` if memory was refused.
pub fn run<R: Read + Drop, W: Write>(alloc: Global, reader: R, out: &mut W) -> io::Result<()> {
    let pieces = Pieces {
        pieces: &[b"ab\x1b[", b"Ab"],
        next: 0,
    };
    answer_all(alloc, pieces, out)?;
    let input = Input {
        reader,
        failures: 0,
    };
    answer_all(alloc, input, out)
}
