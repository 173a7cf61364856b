//! Steps: what leads a block's cursor from row to row.
ghost use Rattle.std.specs.Prelude.{Some};
ghost use Rattle.crossterm_command.specs.Tokens.{text_of};
ghost use Rattle.screen.specs.inside.Blocks.{step_tokens};

use crossterm::cursor::{MoveDown, MoveToColumn, MoveUp, Show};
use crossterm::style::{Attribute, Print, SetAttribute};
use crossterm::terminal::{Clear, ClearType};
use crossterm_command::{ColorOutput, Command};
use std::fmt;

/// One thing that is asked of a terminal between the frames of a block's rows.
#[derive(Clone, Copy)]
pub(crate) enum Step {
    /// So many rows up.
    Up(u16),
    /// So many rows down, in which the block has rows.
    Down(u16),
    /// To a column of the cursor's row.
    Column(u16),
    /// To the start of a further row, which becomes blank. Below a terminal's last row all rows move up for it.
    Add,
    /// To the start of the cursor's row, with the plain style and a visible cursor.
    Settle,
    /// All cells from the cursor to the end of its row become blank.
    Erase,
}

impl Command for Step {
    ghost text = { λ step _. Some (text_of (step_tokens step)) };

    fn write_ansi<W: fmt::Write>(&self, f: &mut W, colors: ColorOutput) -> fmt::Result {
        match self {
            Step::Up(rows) => MoveUp(*rows).write_ansi(f, colors),
            Step::Down(rows) => MoveDown(*rows).write_ansi(f, colors),
            Step::Column(column) => MoveToColumn(*column).write_ansi(f, colors),
            Step::Add => (Print("\r\n"), Clear(ClearType::UntilNewLine)).write_ansi(f, colors),
            Step::Settle => {
                (SetAttribute(Attribute::Reset), (Show, MoveToColumn(0))).write_ansi(f, colors)
            }
            Step::Erase => Clear(ClearType::UntilNewLine).write_ansi(f, colors),
        }
    }
}
