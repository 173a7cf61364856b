//! Commands of the terminal, its modes and its size.
//!
//! `Clear`, `ScrollUp`, `ScrollDown` and `SetSize` show (`Display`) as the text that they write.
ghost use Rattle.std.specs.Prelude.{Some};
ghost use Rattle.std.specs.Option.{option_map};
ghost use Rattle.crossterm_command.specs.Controls.{reset, set};
ghost use Rattle.crossterm_command.specs.declared.color_output.ColorOutput.TheVariants.{Enabled};
ghost use Rattle.crossterm_command.specs.Tokens.{text_of};
ghost use Rattle.crossterm.specs.Sequences.{clear, scroll, set_size, set_title};

mod size;
pub mod sys;
mod value;

use crate::command::{Command, execute_fmt, write_number, write_numbers};
use crate::csi;
use crate::style::ColorOutput;
pub use size::{WindowSize, tput_value};
use std::fmt;
use std::fmt::Display;
pub use sys::stty::{SttyDevice, SttyMode};
pub use sys::unix::{
    ModeDevice, Terminal, query_keyboard_enhancement_flags, supports_keyboard_enhancement,
};

/// Lines end at the last column (DECAWM: xterm ctlseqs, `CSI ? 7 l`).
#[derive(Clone, Copy, PartialEq, Eq, Debug)]
pub struct DisableLineWrap;

impl Command for DisableLineWrap {
    ghost text = { λ _ _. Some (text_of (reset "7")) };

    fn write_ansi<W: fmt::Write>(&self, f: &mut W, _colors: ColorOutput) -> fmt::Result {
        f.write_str(csi!("?7l"))
    }
}

/// Lines go on in the next row (DECAWM: xterm ctlseqs, `CSI ? 7 h`).
#[derive(Clone, Copy, PartialEq, Eq, Debug)]
pub struct EnableLineWrap;

impl Command for EnableLineWrap {
    ghost text = { λ _ _. Some (text_of (set "7")) };

    fn write_ansi<W: fmt::Write>(&self, f: &mut W, _colors: ColorOutput) -> fmt::Result {
        f.write_str(csi!("?7h"))
    }
}

/// Saves the cursor and shows the alternate screen, cleared (xterm ctlseqs, `CSI ? 1049 h`).
///
/// ```
/// execute!(w, colors, EnterAlternateScreen)?;
/// draw(w)?;
/// execute!(w, colors, LeaveAlternateScreen)?;
/// ```
#[derive(Clone, Copy, PartialEq, Eq, Debug)]
pub struct EnterAlternateScreen;

impl Command for EnterAlternateScreen {
    ghost text = { λ _ _. Some (text_of (set "1049")) };

    fn write_ansi<W: fmt::Write>(&self, f: &mut W, _colors: ColorOutput) -> fmt::Result {
        f.write_str(csi!("?1049h"))
    }
}

/// Shows the normal screen and restores the cursor (xterm ctlseqs, `CSI ? 1049 l`).
#[derive(Clone, Copy, PartialEq, Eq, Debug)]
pub struct LeaveAlternateScreen;

impl Command for LeaveAlternateScreen {
    ghost text = { λ _ _. Some (text_of (reset "1049")) };

    fn write_ansi<W: fmt::Write>(&self, f: &mut W, _colors: ColorOutput) -> fmt::Result {
        f.write_str(csi!("?1049l"))
    }
}

/// What `Clear` clears.
#[derive(Clone, Copy, PartialEq, Eq, PartialOrd, Ord, Hash, Debug)]
pub enum ClearType {
    /// All cells.
    All,
    /// All cells and the lines that were scrolled out.
    Purge,
    /// All cells from the cursor on.
    FromCursorDown,
    /// All cells up to the cursor.
    FromCursorUp,
    /// All cells in the cursor's row.
    CurrentLine,
    /// All cells from the cursor to the end of its row.
    UntilNewLine,
}

/// Clears cells (ED and EL: ECMA-48, 8.3.39 and 8.3.41; `Purge`: xterm ctlseqs, `CSI 3 J`).
///
/// ```
/// queue!(w, colors, MoveTo(0, 5), Clear(ClearType::UntilNewLine))?;
/// ```
#[derive(Clone, Copy, PartialEq, Eq, Debug)]
pub struct Clear(pub ClearType);

impl Command for Clear {
    ghost text = { λ c _. Some (text_of (clear c.0)) };

    fn write_ansi<W: fmt::Write>(&self, f: &mut W, _colors: ColorOutput) -> fmt::Result {
        let text = match self.0 {
            ClearType::All => csi!("2J"),
            ClearType::Purge => csi!("3J"),
            ClearType::FromCursorDown => csi!("J"),
            ClearType::FromCursorUp => csi!("1J"),
            ClearType::CurrentLine => csi!("2K"),
            ClearType::UntilNewLine => csi!("K"),
        };
        f.write_str(text)
    }
}

impl fmt::Display for Clear {
    ghost output = { λ c. ⟦<Clear as Command>⟧.text c Enabled };

    fn fmt<W: fmt::Write>(&self, f: &mut fmt::Formatter<W>) -> fmt::Result {
        execute_fmt(f, self)
    }
}

/// Scrolls some rows up; 0 writes nothing (SU: ECMA-48, 8.3.147).
#[derive(Clone, Copy, PartialEq, Eq, Debug)]
pub struct ScrollUp(pub u16);

impl Command for ScrollUp {
    ghost text = { λ c _. Some (text_of (scroll c.0 "S")) };

    fn write_ansi<W: fmt::Write>(&self, f: &mut W, _colors: ColorOutput) -> fmt::Result {
        if self.0 == 0 {
            return Ok(());
        }
        write_number(f, csi!(), u32::from(self.0), "S")
    }
}

impl fmt::Display for ScrollUp {
    ghost output = { λ c. ⟦<ScrollUp as Command>⟧.text c Enabled };

    fn fmt<W: fmt::Write>(&self, f: &mut fmt::Formatter<W>) -> fmt::Result {
        execute_fmt(f, self)
    }
}

/// Scrolls some rows down; 0 writes nothing (SD: ECMA-48, 8.3.113).
#[derive(Clone, Copy, PartialEq, Eq, Debug)]
pub struct ScrollDown(pub u16);

impl Command for ScrollDown {
    ghost text = { λ c _. Some (text_of (scroll c.0 "T")) };

    fn write_ansi<W: fmt::Write>(&self, f: &mut W, _colors: ColorOutput) -> fmt::Result {
        if self.0 == 0 {
            return Ok(());
        }
        write_number(f, csi!(), u32::from(self.0), "T")
    }
}

impl fmt::Display for ScrollDown {
    ghost output = { λ c. ⟦<ScrollDown as Command>⟧.text c Enabled };

    fn fmt<W: fmt::Write>(&self, f: &mut fmt::Formatter<W>) -> fmt::Result {
        execute_fmt(f, self)
    }
}

/// Sets the size of the text area: columns and rows (xterm ctlseqs, `CSI 8 ; rows ; columns t`).
#[derive(Clone, Copy, PartialEq, Eq, Debug)]
pub struct SetSize(pub u16, pub u16);

impl Command for SetSize {
    ghost text = { λ c _. Some (text_of (set_size c.0 c.1)) };

    fn write_ansi<W: fmt::Write>(&self, f: &mut W, _colors: ColorOutput) -> fmt::Result {
        write_numbers(f, csi!("8;"), (u32::from(self.1), u32::from(self.0)), "t")
    }
}

impl fmt::Display for SetSize {
    ghost output = { λ c. ⟦<SetSize as Command>⟧.text c Enabled };

    fn fmt<W: fmt::Write>(&self, f: &mut fmt::Formatter<W>) -> fmt::Result {
        execute_fmt(f, self)
    }
}

/// Sets the window's title (xterm ctlseqs, `OSC 0`).
///
/// The text is written as it is: one that holds an escape or a bell ends the title there.
///
/// ```
/// execute!(w, colors, SetTitle("three files"))?;
/// ```
#[derive(Clone, Copy, PartialEq, Eq, Debug)]
pub struct SetTitle<T>(pub T);

impl<T: Display> Command for SetTitle<T> {
    ghost text = { λ c _. option_map (λ title. text_of (set_title title)) (T.output c.0) };

    fn write_ansi<W: fmt::Write>(&self, f: &mut W, _colors: ColorOutput) -> fmt::Result {
        let title = &self.0;
        write!(f, "\x1b]0;{title}\x07")
    }
}

/// The text of `BeginSynchronizedUpdate`.
pub(crate) const BEGIN_UPDATE: &str = csi!("?2026h");

/// The text of `EndSynchronizedUpdate`.
pub(crate) const END_UPDATE: &str = csi!("?2026l");

/// What follows is shown at once, when the update ends (synchronized output, `CSI ? 2026 h`).
#[derive(Clone, Copy, PartialEq, Eq, Debug)]
pub struct BeginSynchronizedUpdate;

impl Command for BeginSynchronizedUpdate {
    ghost text = { λ _ _. Some (text_of (set "2026")) };

    fn write_ansi<W: fmt::Write>(&self, f: &mut W, _colors: ColorOutput) -> fmt::Result {
        f.write_str(BEGIN_UPDATE)
    }
}

/// Shows what came since the update began (synchronized output, `CSI ? 2026 l`).
#[derive(Clone, Copy, PartialEq, Eq, Debug)]
pub struct EndSynchronizedUpdate;

impl Command for EndSynchronizedUpdate {
    ghost text = { λ _ _. Some (text_of (reset "2026")) };

    fn write_ansi<W: fmt::Write>(&self, f: &mut W, _colors: ColorOutput) -> fmt::Result {
        f.write_str(END_UPDATE)
    }
}
