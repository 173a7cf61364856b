//! Commands that set which events a terminal reports.
ghost use Rattle.std.specs.Prelude.{Some, codes};
ghost use Rattle.crossterm_command.specs.Controls.{control, reset, set};
ghost use Rattle.crossterm_command.specs.Tokens.{text_of};
ghost use Rattle.crossterm.specs.Sequences.{disable_mouse, enable_mouse, push_flags};

use crate::command::{Command, write_number};
use crate::csi;
use crate::style::ColorOutput;
use crossterm_types::event::KeyboardEnhancementFlags;
use std::fmt;

/// The mouse is reported: buttons, drags and moves, as numbers and as far as 223 columns and beyond (xterm ctlseqs, modes 1000, 1002,
/// 1003, 1015 and 1006).
///
/// ```
/// execute!(w, colors, EnableMouseCapture)?;
/// // Until this, clicks and moves come as `Event::Mouse`.
/// execute!(w, colors, DisableMouseCapture)?;
/// ```
#[derive(Clone, Copy, PartialEq, Eq, Debug)]
pub struct EnableMouseCapture;

impl Command for EnableMouseCapture {
    ghost text = { λ _ _. Some (text_of enable_mouse) };

    fn write_ansi<W: fmt::Write>(&self, f: &mut W, _colors: ColorOutput) -> fmt::Result {
        f.write_str(concat!(
            "\x1b[?1000h",
            "\x1b[?1002h",
            "\x1b[?1003h",
            "\x1b[?1015h",
            "\x1b[?1006h",
        ))
    }
}

/// The mouse isn't reported any more: the same modes, off in the other order.
#[derive(Clone, Copy, PartialEq, Eq, Debug)]
pub struct DisableMouseCapture;

impl Command for DisableMouseCapture {
    ghost text = { λ _ _. Some (text_of disable_mouse) };

    fn write_ansi<W: fmt::Write>(&self, f: &mut W, _colors: ColorOutput) -> fmt::Result {
        f.write_str(concat!(
            "\x1b[?1006l",
            "\x1b[?1015l",
            "\x1b[?1003l",
            "\x1b[?1002l",
            "\x1b[?1000l",
        ))
    }
}

/// The terminal reports when it gains or loses the focus (xterm ctlseqs, mode 1004).
#[derive(Clone, Copy, PartialEq, Eq, Debug)]
pub struct EnableFocusChange;

impl Command for EnableFocusChange {
    ghost text = { λ _ _. Some (text_of (set "1004")) };

    fn write_ansi<W: fmt::Write>(&self, f: &mut W, _colors: ColorOutput) -> fmt::Result {
        f.write_str(csi!("?1004h"))
    }
}

/// The focus isn't reported any more (xterm ctlseqs, mode 1004).
#[derive(Clone, Copy, PartialEq, Eq, Debug)]
pub struct DisableFocusChange;

impl Command for DisableFocusChange {
    ghost text = { λ _ _. Some (text_of (reset "1004")) };

    fn write_ansi<W: fmt::Write>(&self, f: &mut W, _colors: ColorOutput) -> fmt::Result {
        f.write_str(csi!("?1004l"))
    }
}

/// A pasted text comes between marks, as one event (xterm ctlseqs, mode 2004).
#[derive(Clone, Copy, PartialEq, Eq, Debug)]
pub struct EnableBracketedPaste;

impl Command for EnableBracketedPaste {
    ghost text = { λ _ _. Some (text_of (set "2004")) };

    fn write_ansi<W: fmt::Write>(&self, f: &mut W, _colors: ColorOutput) -> fmt::Result {
        f.write_str(csi!("?2004h"))
    }
}

/// A pasted text comes as if it were typed (xterm ctlseqs, mode 2004).
#[derive(Clone, Copy, PartialEq, Eq, Debug)]
pub struct DisableBracketedPaste;

impl Command for DisableBracketedPaste {
    ghost text = { λ _ _. Some (text_of (reset "2004")) };

    fn write_ansi<W: fmt::Write>(&self, f: &mut W, _colors: ColorOutput) -> fmt::Result {
        f.write_str(csi!("?2004l"))
    }
}

/// Turns on flags of kitty's keyboard protocol, on top of those that are set (`CSI > flags u`).
///
/// ```
/// let flags = KeyboardEnhancementFlags::DISAMBIGUATE_ESCAPE_CODES
///     | KeyboardEnhancementFlags::REPORT_EVENT_TYPES;
/// execute!(w, colors, PushKeyboardEnhancementFlags(flags))?;
/// // Until this, releases of keys come too.
/// execute!(w, colors, PopKeyboardEnhancementFlags)?;
/// ```
#[derive(Clone, Copy, PartialEq, Eq, Debug)]
pub struct PushKeyboardEnhancementFlags(pub KeyboardEnhancementFlags);

impl Command for PushKeyboardEnhancementFlags {
    ghost text = { λ c _. Some (text_of (push_flags c.0.0)) };

    fn write_ansi<W: fmt::Write>(&self, f: &mut W, _colors: ColorOutput) -> fmt::Result {
        write_number(f, csi!(">"), u32::from(self.0.bits()), "u")
    }
}

/// Drops the flags that were pushed last (kitty's keyboard protocol, `CSI < 1 u`).
#[derive(Clone, Copy, PartialEq, Eq, Debug)]
pub struct PopKeyboardEnhancementFlags;

impl Command for PopKeyboardEnhancementFlags {
    ghost text = { λ _ _. Some (text_of (control (codes "<1") "u")) };

    fn write_ansi<W: fmt::Write>(&self, f: &mut W, _colors: ColorOutput) -> fmt::Result {
        f.write_str(csi!("<1u"))
    }
}
