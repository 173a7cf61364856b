//! Commands of colours.
//!
//! Each selects a graphic rendition (SGR: ECMA-48, 8.3.117) and is written by one call.
ghost use Rattle.std.specs.Prelude.{OnOk, Some};
ghost use Rattle.crossterm_command.specs.declared.color_output.ColorOutput.TheVariants.{Enabled};
ghost use Rattle.crossterm_command.specs.Tokens.{text_of};
ghost use Rattle.crossterm_style.specs.Styles.{reset_functions, color_functions, colors_functions};

use crate::{Color, ColorOutput, Colored, Colors};
use arrayvec::ArrayString;
use crossterm_command::{Command, execute_fmt};
use std::fmt;

/// Writes the sequence that sets a colour.
fn write_color<W: fmt::Write>(f: &mut W, colored: Colored, colors: ColorOutput) -> fmt::Result
    ensures { OnOk result (W.write_str_gives f.old (text_of (color_functions colors colored)) f.new) }
{
    let mut text = ArrayString::<24>::new();
    text.push_str("\x1b[");
    colored.push_to(&mut text, colors);
    text.push_str("m");
    f.write_str(text.as_str())
}

/// Writes the sequence that sets a foreground and a background.
fn write_both<W: fmt::Write>(
    f: &mut W,
    foreground: Color,
    background: Color,
    colors: ColorOutput,
) -> fmt::Result
    ensures { OnOk result (W.write_str_gives f.old (text_of (colors_functions colors (Some foreground) (Some background))) f.new) }
{
    let mut text = ArrayString::<40>::new();
    text.push_str("\x1b[");
    Colored::ForegroundColor(foreground).push_to(&mut text, colors);
    text.push_str(";");
    Colored::BackgroundColor(background).push_to(&mut text, colors);
    text.push_str("m");
    f.write_str(text.as_str())
}

/// Sets the colour of the text. If colours are not written, this is `ESC [ m`.
#[derive(Clone, Copy, PartialEq, Eq, Debug)]
pub struct SetForegroundColor(pub Color);

impl Command for SetForegroundColor {
    ghost use Rattle.crossterm_style.specs.declared.types.colored.Colored.TheVariants.{ForegroundColor};

    ghost text = { λ c colors. Some (text_of (color_functions colors (ForegroundColor c.0))) };

    fn write_ansi<W: fmt::Write>(&self, f: &mut W, colors: ColorOutput) -> fmt::Result {
        write_color(f, Colored::ForegroundColor(self.0), colors)
    }
}

impl fmt::Display for SetForegroundColor {
    ghost output = { λ c. ⟦<SetForegroundColor as Command>⟧.text c Enabled };

    fn fmt<W: fmt::Write>(&self, f: &mut fmt::Formatter<W>) -> fmt::Result {
        execute_fmt(f, self)
    }
}

/// Sets the colour behind the text. If colours are not written, this is `ESC [ m`.
#[derive(Clone, Copy, PartialEq, Eq, Debug)]
pub struct SetBackgroundColor(pub Color);

impl Command for SetBackgroundColor {
    ghost use Rattle.crossterm_style.specs.declared.types.colored.Colored.TheVariants.{BackgroundColor};

    ghost text = { λ c colors. Some (text_of (color_functions colors (BackgroundColor c.0))) };

    fn write_ansi<W: fmt::Write>(&self, f: &mut W, colors: ColorOutput) -> fmt::Result {
        write_color(f, Colored::BackgroundColor(self.0), colors)
    }
}

impl fmt::Display for SetBackgroundColor {
    ghost output = { λ c. ⟦<SetBackgroundColor as Command>⟧.text c Enabled };

    fn fmt<W: fmt::Write>(&self, f: &mut fmt::Formatter<W>) -> fmt::Result {
        execute_fmt(f, self)
    }
}

/// Sets the colour of the line below the text. If colours are not written, this is `ESC [ m`.
#[derive(Clone, Copy, PartialEq, Eq, Debug)]
pub struct SetUnderlineColor(pub Color);

impl Command for SetUnderlineColor {
    ghost use Rattle.crossterm_style.specs.declared.types.colored.Colored.TheVariants.{UnderlineColor};

    ghost text = { λ c colors. Some (text_of (color_functions colors (UnderlineColor c.0))) };

    fn write_ansi<W: fmt::Write>(&self, f: &mut W, colors: ColorOutput) -> fmt::Result {
        write_color(f, Colored::UnderlineColor(self.0), colors)
    }
}

/// Sets the colours of the text and behind it that are there, by one sequence.
///
/// If colours are not written, this is `ESC [ ; m` for both and `ESC [ m` for one.
///
/// ```
/// queue!(w, colors, SetColors(Colors::new(Color::White, Color::DarkBlue)), Print("ab"))?;
/// ```
#[derive(Clone, Copy, PartialEq, Eq, Debug)]
pub struct SetColors(pub Colors);

impl Command for SetColors {
    ghost text = { λ c colors. Some (text_of (colors_functions colors c.0.foreground c.0.background)) };

    fn write_ansi<W: fmt::Write>(&self, f: &mut W, colors: ColorOutput) -> fmt::Result {
        let Colors {
            foreground,
            background,
        } = self.0;
        match (foreground, background) {
            (Some(foreground), Some(background)) => write_both(f, foreground, background, colors),
            (Some(color), None) => write_color(f, Colored::ForegroundColor(color), colors),
            (None, Some(color)) => write_color(f, Colored::BackgroundColor(color), colors),
            (None, None) => Ok(()),
        }
    }
}

impl fmt::Display for SetColors {
    ghost output = { λ c. ⟦<SetColors as Command>⟧.text c Enabled };

    fn fmt<W: fmt::Write>(&self, f: &mut fmt::Formatter<W>) -> fmt::Result {
        execute_fmt(f, self)
    }
}

/// Resets all colours and attributes.
#[derive(Clone, Copy, PartialEq, Eq, Debug)]
pub struct ResetColor;

impl Command for ResetColor {
    ghost text = { λ _ _. Some (text_of reset_functions) };

    fn write_ansi<W: fmt::Write>(&self, f: &mut W, _colors: ColorOutput) -> fmt::Result {
        f.write_str("\x1b[0m")
    }
}

impl fmt::Display for ResetColor {
    ghost output = { λ c. ⟦<ResetColor as Command>⟧.text c Enabled };

    fn fmt<W: fmt::Write>(&self, f: &mut fmt::Formatter<W>) -> fmt::Result {
        execute_fmt(f, self)
    }
}
