//! A command shown by its text.
ghost use Rattle.std.specs.Fmt.{DisplaysOnOk};
ghost use Rattle.crossterm_command.specs.declared.color_output.ColorOutput.TheVariants.{Enabled};

use crate::{ColorOutput, Command};
use std::fmt;

/// Writes a command's text with colours on a formatter: the body of its `Display`.
///
/// # Errors
///
/// `fmt::Error` if the formatter failed, or the command by itself.
pub fn execute_fmt<W: fmt::Write, C: Command>(f: &mut fmt::Formatter<W>, command: &C) -> fmt::Result
    ensures { DisplaysOnOk W.write_str_gives f.old result (C.text command.now Enabled) f.new }
{
    command.write_ansi(f, ColorOutput::Enabled)
}
