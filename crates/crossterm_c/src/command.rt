//! Commands as numbers.
ghost use Rattle.std.specs.Prelude.{◌≡◌, IsSomeAnd};
ghost use Rattle.crossterm_c.specs.Command.{AnswersTo, command_text, outcome_at, output_of};

mod cursor;
mod event;
mod style;
mod terminal;
pub(crate) mod text;

use crate::outlet::Answer;
use crossterm::style::ColorOutput;
use numbers::GelvanhColor;

/// A command that has no text of its own. Which fields count depends on its kind.
#[repr(C)]
#[derive(Clone, Copy, Debug, PartialEq, Eq)]
pub struct GelvanhCommand {
    /// Which: its place in the list of all commands.
    pub kind: u32,
    /// The bits of attributes.
    pub attributes: u32,
    /// A column, a row, a count, the place of a variant, or the bits of flags.
    pub first: u16,
    /// A row.
    pub second: u16,
    /// The colour of the text.
    pub foreground: GelvanhColor,
    /// The colour behind the text.
    pub background: GelvanhColor,
    /// The colour of the line below the text.
    pub underline: GelvanhColor,
}

/// Whether colours are written.
pub(crate) fn output_of(colors: bool) -> ColorOutput
    ensures { result ≡ output_of colors }
{
    if colors {
        ColorOutput::Enabled
    } else {
        ColorOutput::Disabled
    }
}

/// Writes the command that the numbers name.
fn write_any(command: &GelvanhCommand, colors: ColorOutput, slice: &mut [u8]) -> Answer
    ensures { AnswersTo (command_text colors command.now) slice.old slice.new result.length result.outcome }
{
    if command.kind < 16 {
        return cursor::write_cursor(command, slice);
    }
    if command.kind < 27 {
        return terminal::write_terminal(command, slice);
    }
    if command.kind < 35 {
        return event::write_event(command, slice);
    }
    style::write_style(command, colors, slice)
}

/// Writes a command that has no text of its own into a slice.
///
/// It returns 0 if the text was written, and `length` is how many bytes it has; 1 if it has more bytes than the slice, and nothing
/// was written; 2 if the numbers name no command, and nothing was written; 3 if the command failed by itself, which none is known to:
/// then the slice may hold anything, and `length` is 0 as with 2.
/// `colors` is false if colours aren't to be written, as with `NO_COLOR`.
#[unsafe(no_mangle)]
pub extern "C" fn gelvanh_command(
    command: &GelvanhCommand,
    colors: bool,
    slice: &mut [u8],
    length: &mut usize,
) -> u32
    ensures { IsSomeAnd (outcome_at result) (λ outcome. AnswersTo (command_text (output_of colors) command.now) slice.old slice.new length.new outcome) }
{
    write_any(command, output_of(colors), slice).report(length)
}
