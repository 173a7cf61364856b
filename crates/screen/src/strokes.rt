//! Strokes: what a frame is written by.
ghost use Rattle.std.specs.Prelude.{◌≡◌, ◌⊎◌, ◌∷◌, OnOk, Some, map};
ghost use Rattle.std.specs.Fmt.{WritesInCalls};
ghost use Rattle.crossterm_command.specs.Tokens.{text_of};
ghost use Rattle.crossterm_command.specs.Tokens.Token.{Char};
ghost use Rattle.screen.specs.inside.Strokes.{replaced, row_tokens, tokens, written};

use crate::marks::Marks;
use crossterm::cursor::{Hide, MoveTo, MoveToColumn, Show};
use crossterm::style::{Attribute, Print, SetAttribute, SetStyle};
use crossterm::terminal::{BeginSynchronizedUpdate, Clear, ClearType, EndSynchronizedUpdate};
use crossterm_command::{ColorOutput, Command};
use crossterm_style::ContentStyle;
use std::fmt;

/// One thing that is asked of a terminal.
#[derive(Clone, Copy, Debug)]
pub(crate) enum Stroke {
    /// What follows is shown at once, up to the end.
    Begin,
    End,
    /// All cells become blank.
    Erase,
    /// Moves the cursor to a column and a row.
    Move(u16, u16),
    /// Sets a style, whatever was set before.
    Style(ContentStyle),
    /// Sets the colours that are there, if colours are written.
    Colors(ContentStyle),
    /// Prints a character and its marks.
    Print(char, Marks),
    /// Shows the cursor.
    Show,
    Hide,
}

/// Writes a character and its marks. Apart from the other strokes, of which most are characters without marks.
#[inline(never)]
fn write_marked<W: fmt::Write>(f: &mut W, symbol: char, marks: Marks) -> fmt::Result
    ensures { OnOk result (WritesInCalls W.write_str_gives f.old (text_of (Char symbol ∷ map Char marks)) f.new
        ⊎ W.write_str_gives f.old (text_of (Char symbol ∷ map Char marks)) f.new) }
{
    (Print(symbol), Print(marks)).write_ansi(f, ColorOutput::Enabled)
}

impl Command for Stroke {
    ghost text = { λ stroke colors. Some (text_of (tokens colors stroke)) };

    fn write_ansi<W: fmt::Write>(&self, f: &mut W, colors: ColorOutput) -> fmt::Result {
        match self {
            Stroke::Begin => BeginSynchronizedUpdate.write_ansi(f, colors),
            Stroke::End => EndSynchronizedUpdate.write_ansi(f, colors),
            Stroke::Erase => Clear(ClearType::All).write_ansi(f, colors),
            Stroke::Move(column, row) => MoveTo(*column, *row).write_ansi(f, colors),
            Stroke::Style(style) => {
                (SetAttribute(Attribute::Reset), SetStyle(*style)).write_ansi(f, colors)
            }
            Stroke::Colors(change) => match colors {
                ColorOutput::Enabled => SetStyle(*change).write_ansi(f, colors),
                ColorOutput::Disabled => Ok(()),
            },
            Stroke::Print(symbol, marks) => {
                if marks.is_empty() {
                    Print(*symbol).write_ansi(f, colors)
                } else {
                    write_marked(f, *symbol, *marks)
                }
            }
            Stroke::Show => Show.write_ansi(f, colors),
            Stroke::Hide => Hide.write_ansi(f, colors),
        }
    }
}

/// What is asked in the cursor's row in place of a stroke.
#[derive(Clone, Copy)]
pub(crate) enum RowStroke {
    /// All cells of the row become blank.
    Erase,
    /// Moves the cursor to a column.
    Move(u16),
}

impl Command for RowStroke {
    ghost text = { λ stroke _. Some (text_of (row_tokens stroke)) };

    fn write_ansi<W: fmt::Write>(&self, f: &mut W, colors: ColorOutput) -> fmt::Result {
        match self {
            RowStroke::Erase => {
                (MoveToColumn(0), Clear(ClearType::UntilNewLine)).write_ansi(f, colors)
            }
            RowStroke::Move(column) => MoveToColumn(*column).write_ansi(f, colors),
        }
    }
}

/// What replaces a stroke, if all is to stay in the cursor's row and the stroke doesn't.
fn replaced(in_row: bool, stroke: &Stroke) -> Option<RowStroke>
    ensures { result ≡ replaced in_row stroke.now }
{
    if in_row {
        match stroke {
            Stroke::Erase => Some(RowStroke::Erase),
            Stroke::Move(column, _) => Some(RowStroke::Move(*column)),
            _ => None,
        }
    } else {
        None
    }
}

/// A stroke on the whole screen, or in the cursor's row.
#[derive(Clone, Copy)]
pub(crate) struct Written<'a> {
    pub(crate) in_row: bool,
    pub(crate) stroke: &'a Stroke,
}

impl<'a> Command for Written<'a> {
    ghost text = { λ w colors. Some (text_of (written w.in_row colors w.stroke.now)) };

    fn write_ansi<W: fmt::Write>(&self, f: &mut W, colors: ColorOutput) -> fmt::Result {
        match replaced(self.in_row, self.stroke) {
            Some(other) => other.write_ansi(f, colors),
            None => self.stroke.write_ansi(f, colors),
        }
    }
}
