//! Commands on every writer.
ghost use Rattle.std.specs.Prelude.{◌≡◌, ◌≢◌, ◌⊎◌, IfOk, OnOk, OnErr, IfErr};
ghost use Rattle.std.specs.IoError.{error_kind};
ghost use Rattle.std.specs.Borrow.{sem, RestsIfErr};
ghost use Rattle.crossterm_command.specs.Writing.{AppendsFrontOfText, AppendsText, Stops};

use crate::{ColorOutput, Command, send_command, write_command};
use std::io::{self, ErrorKind};

// Writes a command's text: what `queue` and `queue_command` do.
fn queue_on<W: io::Write, C: Command + Drop>(
    writer: &mut W,
    colors: ColorOutput,
    command: C,
) -> io::Result<()>
    ensures ok { OnOk result (AppendsText (W.contents writer.old) (W.contents writer.new) (C.text command colors)) }
    ensures err { IfErr result (λ e. Stops (error_kind e) (C.text command colors) (C.fails command colors)
        (W.contents writer.old) (W.contents writer.new)) }
{
    match write_command(writer, colors, &command) {
        Ok(()) => Ok(()),
        Err(fault) => Err(io::Error::from(fault)),
    }
}

// Writes a command's text and flushes: what `execute` and `execute_command` do.
fn execute_on<W: io::Write, C: Command + Drop>(
    writer: &mut W,
    colors: ColorOutput,
    command: C,
) -> io::Result<()>
    ensures ok { OnOk result (AppendsText (W.contents writer.old) (W.contents writer.new) (C.text command colors)) }
    ensures err { IfErr result (λ e. Stops (error_kind e) (C.text command colors) (C.fails command colors)
        (W.contents writer.old) (W.contents writer.new)) }
{
    match send_command(writer, colors, &command) {
        Ok(()) => Ok(()),
        Err(fault) => Err(io::Error::from(fault)),
    }
}

/// Writes a command's text: `queue` without handing the writer back.
///
/// # Errors
///
/// The writer's own if it alone failed, else one of kind `Other`. If the kind isn't `Other`, a beginning of the text was written.
pub fn queue_command<W: io::Write, C: Command + Drop>(
    writer: &mut W,
    colors: ColorOutput,
    command: C,
) -> io::Result<()>
    ensures ok { OnOk result (AppendsText (W.contents writer.old) (W.contents writer.new) (C.text command colors)) }
    ensures front { IfErr result (λ e. error_kind e ≢ ErrorKind.Other → AppendsFrontOfText (W.contents writer.old) (W.contents writer.new)
        (C.text command colors)) }
    ensures cause { OnErr result (AppendsFrontOfText (W.contents writer.old) (W.contents writer.new) (C.text command colors)
        ⊎ C.fails command colors) }
{
    queue_on(writer, colors, command)
}

/// Writes a command's text and flushes: `execute` without handing the writer back.
///
/// # Errors
///
/// The writer's own if it alone failed, else one of kind `Other`. If the kind isn't `Other`, a beginning of the text was written, and the
/// whole if only the flush failed.
pub fn execute_command<W: io::Write, C: Command + Drop>(
    writer: &mut W,
    colors: ColorOutput,
    command: C,
) -> io::Result<()>
    ensures ok { OnOk result (AppendsText (W.contents writer.old) (W.contents writer.new) (C.text command colors)) }
    ensures front { IfErr result (λ e. error_kind e ≢ ErrorKind.Other → AppendsFrontOfText (W.contents writer.old) (W.contents writer.new)
        (C.text command colors)) }
    ensures cause { OnErr result (AppendsFrontOfText (W.contents writer.old) (W.contents writer.new) (C.text command colors)
        ⊎ C.fails command colors) }
{
    execute_on(writer, colors, command)
}

/// Writes commands on a writer.
pub trait QueueableCommand: io::Write {
    /// Writes a command's text, and gives the writer back.
    ///
    /// A write that is interrupted is tried again, at most 64 times in a row.
    ///
    /// # Errors
    ///
    /// The writer's own if it alone failed (`WriteZero` if it took 0 bytes), and then a beginning of the text was written. One of kind
    /// `Other` if the command failed by itself.
    ///
    /// ```
    /// w.queue(colors, MoveTo(0, 0))?.queue(colors, Print("ab"))?;
    /// ```
    fn queue<C: Command + Drop>(&mut self, colors: ColorOutput, command: C) -> io::Result<&mut Self>
    where
        Self: Sized,
        ensures* err { sem 𝓛 (RestsIfErr Self.row self.entry (λ w. w.ghost_name) result (λ last. IfErr result (λ e.
            Stops (error_kind e) (C.text command colors) (C.fails command colors) (Self.contents self.old) (Self.contents last)))) }
        ensures same { IfOk result (λ w. w.ghost_name ≡ self.entry.ghost_name) }
        ensures ok { IfOk result (λ w. AppendsText (Self.contents self.old) (Self.contents w.now) (C.text command colors)) };

    /// Writes a command's text: what `queue!` does with all of its commands as one, on a `W` and on a `&mut W`.
    ///
    /// # Errors
    ///
    /// Those of `queue_command`.
    fn queue_row<C: Command + Drop>(&mut self, colors: ColorOutput, command: C) -> io::Result<()>
    where
        Self: Sized,
        ensures ok { OnOk result (AppendsText (Self.contents self.old) (Self.contents self.new) (C.text command colors)) }
        ensures front { IfErr result (λ e. error_kind e ≢ ErrorKind.Other → AppendsFrontOfText (Self.contents self.old) (Self.contents self.new)
            (C.text command colors)) }
        ensures cause { OnErr result (AppendsFrontOfText (Self.contents self.old) (Self.contents self.new) (C.text command colors)
            ⊎ C.fails command colors) };

    /// Writes a command's text and flushes: what `execute!` does with all of its commands as one.
    ///
    /// # Errors
    ///
    /// Those of `execute_command`.
    fn execute_row<C: Command + Drop>(&mut self, colors: ColorOutput, command: C) -> io::Result<()>
    where
        Self: Sized,
        ensures ok { OnOk result (AppendsText (Self.contents self.old) (Self.contents self.new) (C.text command colors)) }
        ensures front { IfErr result (λ e. error_kind e ≢ ErrorKind.Other → AppendsFrontOfText (Self.contents self.old) (Self.contents self.new)
            (C.text command colors)) }
        ensures cause { OnErr result (AppendsFrontOfText (Self.contents self.old) (Self.contents self.new) (C.text command colors)
            ⊎ C.fails command colors) };

    /// The writer itself: what `queue!` and `execute!` look at if they have no command, so that they take a `W` and a `&mut W`.
    fn as_writer(&mut self) -> &mut Self
    where
        Self: Sized,
        ensures same { result.ghost_name ≡ self.entry.ghost_name }
        ensures now { result.now ≡ self.old };
}

impl<W: io::Write> QueueableCommand for W {
    fn queue_row<C: Command + Drop>(&mut self, colors: ColorOutput, command: C) -> io::Result<()> {
        queue_command(self, colors, command)
    }

    fn execute_row<C: Command + Drop>(
        &mut self,
        colors: ColorOutput,
        command: C,
    ) -> io::Result<()> {
        execute_command(self, colors, command)
    }

    fn as_writer(&mut self) -> &mut W {
        self
    }

    fn queue<C: Command + Drop>(
        &mut self,
        colors: ColorOutput,
        command: C,
    ) -> io::Result<&mut Self> {
        match queue_on(self, colors, command) {
            Ok(()) => Ok(self),
            Err(e) => Err(e),
        }
    }
}

/// Writes commands on a writer, and flushes it.
pub trait ExecutableCommand: io::Write {
    /// Writes a command's text, flushes, and gives the writer back.
    ///
    /// # Errors
    ///
    /// That of `queue`, or the flush's, and then the whole text was written.
    ///
    /// ```
    /// w.execute(colors, Print("ab"))?;
    /// ```
    fn execute<C: Command + Drop>(
        &mut self,
        colors: ColorOutput,
        command: C,
    ) -> io::Result<&mut Self>
    where
        Self: Sized,
        ensures* err { sem 𝓛 (RestsIfErr Self.row self.entry (λ w. w.ghost_name) result (λ last. IfErr result (λ e.
            Stops (error_kind e) (C.text command colors) (C.fails command colors) (Self.contents self.old) (Self.contents last)))) }
        ensures same { IfOk result (λ w. w.ghost_name ≡ self.entry.ghost_name) }
        ensures ok { IfOk result (λ w. AppendsText (Self.contents self.old) (Self.contents w.now) (C.text command colors)) };
}

impl<W: io::Write> ExecutableCommand for W {
    fn execute<C: Command + Drop>(
        &mut self,
        colors: ColorOutput,
        command: C,
    ) -> io::Result<&mut Self> {
        match execute_on(self, colors, command) {
            Ok(()) => Ok(self),
            Err(e) => Err(e),
        }
    }
}
