//! Commands that set all of a style.
ghost use Rattle.std.specs.Prelude.{◌≡◌, OnOk, Some};
ghost use Rattle.crossterm_command.specs.Writing.{Writes};
ghost use Rattle.crossterm_command.specs.declared.color_output.ColorOutput.TheVariants.{Enabled};
ghost use Rattle.crossterm_command.specs.Tokens.{text_of};
ghost use Rattle.crossterm_style.specs.Acts.{either_there, end_acts, reset_acts, reset_where, style_acts, where_there};
ghost use Rattle.crossterm_style.specs.Styles.{styled_text, act_tokens};
ghost use Rattle.crossterm_style.specs.declared.types.colored.Colored.TheVariants.{BackgroundColor, ForegroundColor, UnderlineColor};

use crate::{
    Color, ContentStyle, ResetColor, SetAttributes, SetBackgroundColor, SetForegroundColor,
    SetUnderlineColor, StyledContent,
};
use crossterm_command::{ColorOutput, Command, execute_fmt};
use std::fmt;
use std::fmt::Display;

/// Sets a background that is there.
fn set_background<W: fmt::Write>(
    f: &mut W,
    colors: ColorOutput,
    color: Option<Color>,
) -> fmt::Result
    ensures { OnOk result (Writes W.write_str_gives f.old (Some (text_of (act_tokens colors (where_there BackgroundColor color)))) f.new) }
{
    match color {
        Some(color) => SetBackgroundColor(color).write_ansi(f, colors),
        None => Ok(()),
    }
}

/// Sets a foreground that is there.
fn set_foreground<W: fmt::Write>(
    f: &mut W,
    colors: ColorOutput,
    color: Option<Color>,
) -> fmt::Result
    ensures { OnOk result (Writes W.write_str_gives f.old (Some (text_of (act_tokens colors (where_there ForegroundColor color)))) f.new) }
{
    match color {
        Some(color) => SetForegroundColor(color).write_ansi(f, colors),
        None => Ok(()),
    }
}

/// Sets an underline's colour that is there.
fn set_underline<W: fmt::Write>(f: &mut W, colors: ColorOutput, color: Option<Color>) -> fmt::Result
    ensures { OnOk result (Writes W.write_str_gives f.old (Some (text_of (act_tokens colors (where_there UnderlineColor color)))) f.new) }
{
    match color {
        Some(color) => SetUnderlineColor(color).write_ansi(f, colors),
        None => Ok(()),
    }
}

/// Sets a style: its background, foreground, underline colour and attributes, in this order, each if it is there.
#[derive(Clone, Copy, PartialEq, Eq, Debug)]
pub struct SetStyle(pub ContentStyle);

impl Command for SetStyle {
    ghost text = { λ c colors. Some (text_of (act_tokens colors (style_acts c.0))) };

    fn write_ansi<W: fmt::Write>(&self, f: &mut W, colors: ColorOutput) -> fmt::Result {
        set_background(f, colors, self.0.background_color)?;
        set_foreground(f, colors, self.0.foreground_color)?;
        set_underline(f, colors, self.0.underline_color)?;
        SetAttributes(self.0.attributes).write_ansi(f, colors)
    }
}

/// The terminal's own colour, if one is to be set.
fn reset_where(there: bool) -> Option<Color>
    ensures { result ≡ reset_where there }
{
    if there { Some(Color::Reset) } else { None }
}

/// Whether one of two colours is there.
fn either_there(color: Option<Color>, other: Option<Color>) -> bool
    ensures { result ≡ either_there color other }
{
    match (color, other) {
        (None, None) => false,
        _ => true,
    }
}

/// Sets the terminal's own background, and its own foreground, each if it is to be set.
fn reset_colors<W: fmt::Write>(
    f: &mut W,
    colors: ColorOutput,
    background: bool,
    foreground: bool,
) -> fmt::Result
    ensures { OnOk result (Writes W.write_str_gives f.old (Some (text_of (act_tokens colors (reset_acts background foreground)))) f.new) }
{
    set_background(f, colors, reset_where(background))?;
    set_foreground(f, colors, reset_where(foreground))
}

/// Ends a style: all is reset if it has attributes, else a background, and then the foreground if it or the underline has a colour.
fn end_style<W: fmt::Write>(f: &mut W, colors: ColorOutput, style: ContentStyle) -> fmt::Result
    ensures { OnOk result (Writes W.write_str_gives f.old (Some (text_of (act_tokens colors (end_acts style)))) f.new) }
{
    if !style.attributes.is_empty() {
        return ResetColor.write_ansi(f, colors);
    }
    let background = either_there(style.background_color, None);
    let foreground = either_there(style.foreground_color, style.underline_color);
    reset_colors(f, colors, background, foreground)
}

/// Prints a content in its style, and then ends the style.
///
/// The content is written as it is: one that holds an escape may read as something else than characters.
#[derive(Clone, Copy, Debug)]
pub struct PrintStyledContent<D>(pub StyledContent<D>);

impl<D: Display> Command for PrintStyledContent<D> {
    ghost text = { λ c colors. styled_text colors c.0.style (D.output c.0.content) };

    fn write_ansi<W: fmt::Write>(&self, f: &mut W, colors: ColorOutput) -> fmt::Result {
        let content = &self.0.content;
        SetStyle(self.0.style).write_ansi(f, colors)?;
        write!(f, "{content}")?;
        end_style(f, colors, self.0.style)
    }
}

impl<D: Display> Display for PrintStyledContent<D> {
    ghost output = { λ c. ⟦<PrintStyledContent<D> as Command>⟧.text c Enabled };

    fn fmt<W: fmt::Write>(&self, f: &mut fmt::Formatter<W>) -> fmt::Result {
        execute_fmt(f, self)
    }
}
