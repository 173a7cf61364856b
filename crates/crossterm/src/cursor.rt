//! Commands of the cursor, and its place.
//!
//! Each command shows (`Display`) as the text that it writes.
ghost use Rattle.std.specs.Prelude.{◌≡◌, Some, ◌+◌};
ghost use Rattle.crossterm_command.specs.Controls.{private, reset, set};
ghost use Rattle.crossterm_command.specs.declared.color_output.ColorOutput.TheVariants.{Enabled};
ghost use Rattle.crossterm_command.specs.Tokens.{text_of};
ghost use Rattle.crossterm.specs.Sequences.{all_shapes, by, cursor_style, move_to};

pub mod sys;

use crate::command::{Command, execute_fmt, write_number, write_numbers};
use crate::csi;
use crate::style::ColorOutput;
use std::fmt;
pub use sys::unix::{position, position_within};

/// Moves the cursor to a column and a row, both from 0 (CUP: ECMA-48, 8.3.21).
///
/// The text counts from 1: `MoveTo(65535, 0)` writes `ESC [ 1 ; 65536 H`.
///
/// ```
/// queue!(w, colors, MoveTo(2, 0), Print("in the third column"))?;
/// ```
#[derive(Clone, Copy, PartialEq, Eq, Debug)]
pub struct MoveTo(pub u16, pub u16);

impl Command for MoveTo {
    ghost text = { λ c _. Some (text_of (move_to c.0 c.1)) };

    fn write_ansi<W: fmt::Write>(&self, f: &mut W, _colors: ColorOutput) -> fmt::Result {
        write_numbers(
            f,
            csi!(),
            (u32::from(self.1) + 1, u32::from(self.0) + 1),
            "H",
        )
    }
}

impl fmt::Display for MoveTo {
    ghost output = { λ c. ⟦<MoveTo as Command>⟧.text c Enabled };

    fn fmt<W: fmt::Write>(&self, f: &mut fmt::Formatter<W>) -> fmt::Result {
        execute_fmt(f, self)
    }
}

/// Moves the cursor to a column, from 0, in its row (CHA: ECMA-48, 8.3.9).
#[derive(Clone, Copy, PartialEq, Eq, Debug)]
pub struct MoveToColumn(pub u16);

impl Command for MoveToColumn {
    ghost text = { λ c _. Some (text_of (by (c.0 + 1) "G")) };

    fn write_ansi<W: fmt::Write>(&self, f: &mut W, _colors: ColorOutput) -> fmt::Result {
        let column = self.0;
        write_number(f, csi!(), u32::from(column) + 1, "G")
    }
}

impl fmt::Display for MoveToColumn {
    ghost output = { λ c. ⟦<MoveToColumn as Command>⟧.text c Enabled };

    fn fmt<W: fmt::Write>(&self, f: &mut fmt::Formatter<W>) -> fmt::Result {
        execute_fmt(f, self)
    }
}

/// Moves the cursor to a row, from 0, in its column (VPA: ECMA-48, 8.3.158).
#[derive(Clone, Copy, PartialEq, Eq, Debug)]
pub struct MoveToRow(pub u16);

impl Command for MoveToRow {
    ghost text = { λ c _. Some (text_of (by (c.0 + 1) "d")) };

    fn write_ansi<W: fmt::Write>(&self, f: &mut W, _colors: ColorOutput) -> fmt::Result {
        let row = self.0;
        write_number(f, csi!(), u32::from(row) + 1, "d")
    }
}

impl fmt::Display for MoveToRow {
    ghost output = { λ c. ⟦<MoveToRow as Command>⟧.text c Enabled };

    fn fmt<W: fmt::Write>(&self, f: &mut fmt::Formatter<W>) -> fmt::Result {
        execute_fmt(f, self)
    }
}

/// Moves the cursor to the first column, some lines down (CNL: ECMA-48, 8.3.12).
#[derive(Clone, Copy, PartialEq, Eq, Debug)]
pub struct MoveToNextLine(pub u16);

impl Command for MoveToNextLine {
    ghost text = { λ c _. Some (text_of (by c.0 "E")) };

    fn write_ansi<W: fmt::Write>(&self, f: &mut W, _colors: ColorOutput) -> fmt::Result {
        write_number(f, csi!(), u32::from(self.0), "E")
    }
}

impl fmt::Display for MoveToNextLine {
    ghost output = { λ c. ⟦<MoveToNextLine as Command>⟧.text c Enabled };

    fn fmt<W: fmt::Write>(&self, f: &mut fmt::Formatter<W>) -> fmt::Result {
        execute_fmt(f, self)
    }
}

/// Moves the cursor to the first column, some lines up (CPL: ECMA-48, 8.3.13).
#[derive(Clone, Copy, PartialEq, Eq, Debug)]
pub struct MoveToPreviousLine(pub u16);

impl Command for MoveToPreviousLine {
    ghost text = { λ c _. Some (text_of (by c.0 "F")) };

    fn write_ansi<W: fmt::Write>(&self, f: &mut W, _colors: ColorOutput) -> fmt::Result {
        write_number(f, csi!(), u32::from(self.0), "F")
    }
}

impl fmt::Display for MoveToPreviousLine {
    ghost output = { λ c. ⟦<MoveToPreviousLine as Command>⟧.text c Enabled };

    fn fmt<W: fmt::Write>(&self, f: &mut fmt::Formatter<W>) -> fmt::Result {
        execute_fmt(f, self)
    }
}

/// Moves the cursor some rows up (CUU: ECMA-48, 8.3.22). Most terminals take 0 as 1.
#[derive(Clone, Copy, PartialEq, Eq, Debug)]
pub struct MoveUp(pub u16);

impl Command for MoveUp {
    ghost text = { λ c _. Some (text_of (by c.0 "A")) };

    fn write_ansi<W: fmt::Write>(&self, f: &mut W, _colors: ColorOutput) -> fmt::Result {
        write_number(f, csi!(), u32::from(self.0), "A")
    }
}

impl fmt::Display for MoveUp {
    ghost output = { λ c. ⟦<MoveUp as Command>⟧.text c Enabled };

    fn fmt<W: fmt::Write>(&self, f: &mut fmt::Formatter<W>) -> fmt::Result {
        execute_fmt(f, self)
    }
}

/// Moves the cursor some columns to the right (CUF: ECMA-48, 8.3.20). Most terminals take 0 as 1.
#[derive(Clone, Copy, PartialEq, Eq, Debug)]
pub struct MoveRight(pub u16);

impl Command for MoveRight {
    ghost text = { λ c _. Some (text_of (by c.0 "C")) };

    fn write_ansi<W: fmt::Write>(&self, f: &mut W, _colors: ColorOutput) -> fmt::Result {
        write_number(f, csi!(), u32::from(self.0), "C")
    }
}

impl fmt::Display for MoveRight {
    ghost output = { λ c. ⟦<MoveRight as Command>⟧.text c Enabled };

    fn fmt<W: fmt::Write>(&self, f: &mut fmt::Formatter<W>) -> fmt::Result {
        execute_fmt(f, self)
    }
}

/// Moves the cursor some rows down (CUD: ECMA-48, 8.3.19). Most terminals take 0 as 1.
#[derive(Clone, Copy, PartialEq, Eq, Debug)]
pub struct MoveDown(pub u16);

impl Command for MoveDown {
    ghost text = { λ c _. Some (text_of (by c.0 "B")) };

    fn write_ansi<W: fmt::Write>(&self, f: &mut W, _colors: ColorOutput) -> fmt::Result {
        write_number(f, csi!(), u32::from(self.0), "B")
    }
}

impl fmt::Display for MoveDown {
    ghost output = { λ c. ⟦<MoveDown as Command>⟧.text c Enabled };

    fn fmt<W: fmt::Write>(&self, f: &mut fmt::Formatter<W>) -> fmt::Result {
        execute_fmt(f, self)
    }
}

/// Moves the cursor some columns to the left (CUB: ECMA-48, 8.3.18). Most terminals take 0 as 1.
#[derive(Clone, Copy, PartialEq, Eq, Debug)]
pub struct MoveLeft(pub u16);

impl Command for MoveLeft {
    ghost text = { λ c _. Some (text_of (by c.0 "D")) };

    fn write_ansi<W: fmt::Write>(&self, f: &mut W, _colors: ColorOutput) -> fmt::Result {
        write_number(f, csi!(), u32::from(self.0), "D")
    }
}

impl fmt::Display for MoveLeft {
    ghost output = { λ c. ⟦<MoveLeft as Command>⟧.text c Enabled };

    fn fmt<W: fmt::Write>(&self, f: &mut fmt::Formatter<W>) -> fmt::Result {
        execute_fmt(f, self)
    }
}

/// Saves the cursor's place (DECSC: xterm ctlseqs, `ESC 7`).
#[derive(Clone, Copy, PartialEq, Eq, Debug)]
pub struct SavePosition;

impl Command for SavePosition {
    ghost text = { λ _ _. Some (text_of (private "7")) };

    fn write_ansi<W: fmt::Write>(&self, f: &mut W, _colors: ColorOutput) -> fmt::Result {
        f.write_str("\x1b7")
    }
}

impl fmt::Display for SavePosition {
    ghost output = { λ c. ⟦<SavePosition as Command>⟧.text c Enabled };

    fn fmt<W: fmt::Write>(&self, f: &mut fmt::Formatter<W>) -> fmt::Result {
        execute_fmt(f, self)
    }
}

/// Moves the cursor to the saved place (DECRC: xterm ctlseqs, `ESC 8`).
#[derive(Clone, Copy, PartialEq, Eq, Debug)]
pub struct RestorePosition;

impl Command for RestorePosition {
    ghost text = { λ _ _. Some (text_of (private "8")) };

    fn write_ansi<W: fmt::Write>(&self, f: &mut W, _colors: ColorOutput) -> fmt::Result {
        f.write_str("\x1b8")
    }
}

impl fmt::Display for RestorePosition {
    ghost output = { λ c. ⟦<RestorePosition as Command>⟧.text c Enabled };

    fn fmt<W: fmt::Write>(&self, f: &mut fmt::Formatter<W>) -> fmt::Result {
        execute_fmt(f, self)
    }
}

/// Hides the cursor (DECTCEM: xterm ctlseqs, `CSI ? 25 l`).
///
/// ```
/// execute!(w, colors, Hide)?;
/// draw(w)?;
/// execute!(w, colors, Show)?;
/// ```
#[derive(Clone, Copy, PartialEq, Eq, Debug)]
pub struct Hide;

impl Command for Hide {
    ghost text = { λ _ _. Some (text_of (reset "25")) };

    fn write_ansi<W: fmt::Write>(&self, f: &mut W, _colors: ColorOutput) -> fmt::Result {
        f.write_str(csi!("?25l"))
    }
}

impl fmt::Display for Hide {
    ghost output = { λ c. ⟦<Hide as Command>⟧.text c Enabled };

    fn fmt<W: fmt::Write>(&self, f: &mut fmt::Formatter<W>) -> fmt::Result {
        execute_fmt(f, self)
    }
}

/// Shows the cursor (DECTCEM: xterm ctlseqs, `CSI ? 25 h`).
#[derive(Clone, Copy, PartialEq, Eq, Debug)]
pub struct Show;

impl Command for Show {
    ghost text = { λ _ _. Some (text_of (set "25")) };

    fn write_ansi<W: fmt::Write>(&self, f: &mut W, _colors: ColorOutput) -> fmt::Result {
        f.write_str(csi!("?25h"))
    }
}

impl fmt::Display for Show {
    ghost output = { λ c. ⟦<Show as Command>⟧.text c Enabled };

    fn fmt<W: fmt::Write>(&self, f: &mut fmt::Formatter<W>) -> fmt::Result {
        execute_fmt(f, self)
    }
}

/// Lets the cursor blink (xterm ctlseqs, `CSI ? 12 h`).
#[derive(Clone, Copy, PartialEq, Eq, Debug)]
pub struct EnableBlinking;

impl Command for EnableBlinking {
    ghost text = { λ _ _. Some (text_of (set "12")) };

    fn write_ansi<W: fmt::Write>(&self, f: &mut W, _colors: ColorOutput) -> fmt::Result {
        f.write_str(csi!("?12h"))
    }
}

impl fmt::Display for EnableBlinking {
    ghost output = { λ c. ⟦<EnableBlinking as Command>⟧.text c Enabled };

    fn fmt<W: fmt::Write>(&self, f: &mut fmt::Formatter<W>) -> fmt::Result {
        execute_fmt(f, self)
    }
}

/// Stops the cursor's blinking (xterm ctlseqs, `CSI ? 12 l`).
#[derive(Clone, Copy, PartialEq, Eq, Debug)]
pub struct DisableBlinking;

impl Command for DisableBlinking {
    ghost text = { λ _ _. Some (text_of (reset "12")) };

    fn write_ansi<W: fmt::Write>(&self, f: &mut W, _colors: ColorOutput) -> fmt::Result {
        f.write_str(csi!("?12l"))
    }
}

impl fmt::Display for DisableBlinking {
    ghost output = { λ c. ⟦<DisableBlinking as Command>⟧.text c Enabled };

    fn fmt<W: fmt::Write>(&self, f: &mut fmt::Formatter<W>) -> fmt::Result {
        execute_fmt(f, self)
    }
}

/// The cursor's shape (DECSCUSR: xterm ctlseqs, `CSI Ps SP q`).
///
/// ```
/// execute!(w, colors, SetCursorStyle::SteadyBar)?;
/// ```
#[derive(Clone, Copy, PartialEq, Eq, Debug, Hash)]
pub enum SetCursorStyle {
    /// The shape that the user has set.
    DefaultUserShape,
    BlinkingBlock,
    SteadyBlock,
    BlinkingUnderScore,
    SteadyUnderScore,
    BlinkingBar,
    SteadyBar,
}

impl SetCursorStyle {
    /// All shapes, in declared order.
    pub fn all<'a>() -> &'a [SetCursorStyle]
        ensures { result.now ≡ all_shapes }
    {
        &[
            SetCursorStyle::DefaultUserShape,
            SetCursorStyle::BlinkingBlock,
            SetCursorStyle::SteadyBlock,
            SetCursorStyle::BlinkingUnderScore,
            SetCursorStyle::SteadyUnderScore,
            SetCursorStyle::BlinkingBar,
            SetCursorStyle::SteadyBar,
        ]
    }
}

impl Command for SetCursorStyle {
    ghost text = { λ c _. Some (text_of (cursor_style c)) };

    fn write_ansi<W: fmt::Write>(&self, f: &mut W, _colors: ColorOutput) -> fmt::Result {
        let text = match self {
            SetCursorStyle::DefaultUserShape => csi!("0 q"),
            SetCursorStyle::BlinkingBlock => csi!("1 q"),
            SetCursorStyle::SteadyBlock => csi!("2 q"),
            SetCursorStyle::BlinkingUnderScore => csi!("3 q"),
            SetCursorStyle::SteadyUnderScore => csi!("4 q"),
            SetCursorStyle::BlinkingBar => csi!("5 q"),
            SetCursorStyle::SteadyBar => csi!("6 q"),
        };
        f.write_str(text)
    }
}

impl fmt::Display for SetCursorStyle {
    ghost output = { λ c. ⟦<SetCursorStyle as Command>⟧.text c Enabled };

    fn fmt<W: fmt::Write>(&self, f: &mut fmt::Formatter<W>) -> fmt::Result {
        execute_fmt(f, self)
    }
}
