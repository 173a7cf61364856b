//! Texts that are written between frames.
ghost use Rattle.std.specs.Prelude.{◌≡◌, ◌-◌, IfSome, OnErr, OnOk};
ghost use Rattle.std.specs.Io.KnownBytes.{Appends};
ghost use Rattle.crossterm_command.specs.Writing.{AppendsFront};
ghost use Rattle.crossterm_command.specs.declared.color_output.ColorOutput.TheVariants.{Enabled};
ghost use Rattle.prompt.specs.Frames.{bell, erasure};

use arrayvec::ArrayString;
use crossterm::Command;
use crossterm::cursor::{MoveToColumn, MoveUp};
use crossterm::style::ColorOutput;
use crossterm::terminal::{Clear, ClearType};
use crossterm_command::write_text;
use std::fmt;
use std::io::{self, ErrorKind, Write};

pub(crate) const COLORS: ColorOutput = ColorOutput::Enabled;

/// The columns that are drawn in a window: all but the last, so that no terminal wraps the row.
pub(crate) fn drawn_columns(columns: u16) -> u16
    ensures { result ≡ columns - 1 }
{
    columns.saturating_sub(1)
}

/// Writes a text, and flushes.
pub(crate) fn write_flushed<W: Write>(out: &mut W, text: &str) -> io::Result<()>
    ensures ok { OnOk result (Appends (W.contents out.old) (W.contents out.new) text.now) }
    ensures err { OnErr result (AppendsFront (W.contents out.old) (W.contents out.new) text.now) }
{
    match write_text(out, text) {
        Ok(()) => out.flush(),
        Err(error) => Err(error),
    }
}

/// Writes a command of a short text. At an error a beginning was written.
pub(crate) fn send<W: Write, C: Command>(out: &mut W, command: &C) -> io::Result<()>
    ensures ok { OnOk result (IfSome (C.text command.now Enabled) (Appends (W.contents out.old) (W.contents out.new))) }
    ensures err { OnErr result (IfSome (C.text command.now Enabled) (AppendsFront (W.contents out.old) (W.contents out.new))) }
{
    let mut text = ArrayString::<48>::new();
    match command.write_ansi(&mut text, ColorOutput::Enabled) {
        Ok(()) => write_text(out, text.as_str()),
        Err(fmt::Error) => Err(io::Error::from(ErrorKind::Other)),
    }
}

/// Brings the cursor so many rows up, and erases from there on.
pub(crate) fn erase<W: Write>(out: &mut W, rows: u16) -> io::Result<()>
    ensures ok { OnOk result (Appends (W.contents out.old) (W.contents out.new) (erasure rows)) }
    ensures err { OnErr result (AppendsFront (W.contents out.old) (W.contents out.new) (erasure rows)) }
{
    let below = (MoveToColumn(0), Clear(ClearType::FromCursorDown));
    if rows > 0 {
        send(out, &(MoveUp(rows), below))
    } else {
        send(out, &below)
    }
}

/// Rings the bell.
pub(crate) fn ring<W: Write>(out: &mut W) -> io::Result<()>
    ensures ok { OnOk result (Appends (W.contents out.old) (W.contents out.new) bell) }
    ensures err { OnErr result (AppendsFront (W.contents out.old) (W.contents out.new) bell) }
{
    write_flushed(out, "\x07")
}
