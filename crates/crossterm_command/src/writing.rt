//! From a command's text to a writer.
ghost use Rattle.std.specs.Prelude.{◌≡◌, OnOk, OnErr, IfErr};
ghost use Rattle.std.specs.Io.KnownBytes.{Appends};
ghost use Rattle.crossterm_command.specs.Writing.{AppendsFront, AppendsText, WriterTakes};
ghost use Rattle.crossterm_command.specs.Faults.{Stopped, Unsent};

use crate::tries::Tries;
use crate::{ColorOutput, Command, CommandFault};
use std::io::ErrorKind;
use std::{fmt, io};

/// Writes all of a text, however few bytes a call takes. An interrupted write is tried again at most 64 times in a row; a write that takes
/// 0 bytes is `WriteZero`.
///
/// # Errors
///
/// The writer's own, and then a beginning of the text was written.
pub fn write_text<W: io::Write>(writer: &mut W, text: &str) -> io::Result<()>
    ensures ok { OnOk result (Appends (W.contents writer.old) (W.contents writer.new) text.now) }
    ensures err { OnErr result (AppendsFront (W.contents writer.old) (W.contents writer.new) text.now) }
{
    write_bytes(writer, text.as_bytes())
}

/// Writes all of some bytes, as `write_text` does a text.
///
/// # Errors
///
/// Those of `write_text`; the writer has taken a front of the bytes then.
pub fn write_bytes<W: io::Write>(writer: &mut W, bytes: &[u8]) -> io::Result<()>
    ensures ok { OnOk result (Appends (W.contents writer.old) (W.contents writer.new) bytes.now) }
    ensures err { OnErr result (AppendsFront (W.contents writer.old) (W.contents writer.new) bytes.now) }
{
    let mut rest = bytes;
    let mut tries = Tries::new();
    while !rest.is_empty() {
        match writer.write(rest) {
            Ok(0) => return Err(io::Error::from(ErrorKind::WriteZero)),
            Ok(n) => {
                rest = &rest[n..];
                tries = Tries::new();
            }
            Err(e) => {
                if !tries.take(&e) {
                    return Err(e);
                }
            }
        }
    }
    Ok(())
}

/// A writer that keeps its first fault, and drops the text that comes after it.
struct Adapter<'a, W> {
    inner: &'a mut W,
    fault: Option<io::Error>,
}

impl<W: io::Write> fmt::Write for Adapter<'_, W> {
    ghost write_str_gives = { λ s bs t. (t.inner.ghost_name ≡ s.inner.ghost_name)
        × WriterTakes (W.contents s.inner.now) s.fault bs (W.contents t.inner.now) t.fault };

    fn write_str(&mut self, s: &str) -> fmt::Result {
        if self.fault.is_none() {
            self.fault = write_text(self.inner, s).err();
        }
        Ok(())
    }
}

/// Writes a command's text as it comes, without a copy and without memory: `queue` with an error that says who failed.
///
/// # Errors
///
/// `Writer` if the writer alone failed, and then a beginning of the text was written. `Text` if the command failed by itself, and `Both` if
/// both did.
pub fn write_command<W: io::Write, C: Command>(
    writer: &mut W,
    colors: ColorOutput,
    command: &C,
) -> Result<(), CommandFault>
    ensures ok { OnOk result (AppendsText (W.contents writer.old) (W.contents writer.new) (C.text command.now colors)) }
    ensures err { IfErr result (λ fault. Stopped fault (C.text command.now colors) (C.fails command.now colors)
        (W.contents writer.old) (W.contents writer.new)) }
{
    let mut adapter = Adapter {
        inner: writer,
        fault: None,
    };
    let result = command.write_ansi(&mut adapter, colors);
    let Adapter { inner, fault } = adapter;
    let _ = &*inner;
    match (result, fault) {
        (Ok(()), None) => Ok(()),
        (Ok(()), Some(e)) => Err(CommandFault::Writer(e)),
        (Err(fmt::Error), None) => Err(CommandFault::Text),
        (Err(fmt::Error), Some(e)) => Err(CommandFault::Both(e)),
    }
}

/// Writes a command's text as `write_command` does, and flushes: `execute` with an error that says who failed.
///
/// # Errors
///
/// Those of `write_command`; `Flush` if only the flush failed, and then the whole text was written.
pub fn send_command<W: io::Write, C: Command>(
    writer: &mut W,
    colors: ColorOutput,
    command: &C,
) -> Result<(), CommandFault>
    ensures ok { OnOk result (AppendsText (W.contents writer.old) (W.contents writer.new) (C.text command.now colors)) }
    ensures err { IfErr result (λ fault. Unsent fault (C.text command.now colors) (C.fails command.now colors)
        (W.contents writer.old) (W.contents writer.new)) }
{
    match write_command(writer, colors, command) {
        Ok(()) => match writer.flush() {
            Ok(()) => Ok(()),
            Err(e) => Err(CommandFault::Flush(e)),
        },
        Err(fault) => Err(fault),
    }
}
