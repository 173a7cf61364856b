//! Commands of style.
ghost use Rattle.std.specs.Prelude.{◌≡◌, IfSome, None};
ghost use Rattle.std.specs.Option.{MatchOption};
ghost use Rattle.crossterm_c.specs.Command.{AnswersSlice, AnswersTo, colors_at, command_style, style_text};

use super::GelvanhCommand;
use crate::outlet::{Answer, write};
use crossterm::Command;
use crossterm::style::{
    ColorOutput, Colors, ContentStyle, ResetColor, SetAttribute, SetAttributes, SetBackgroundColor,
    SetColors, SetForegroundColor, SetStyle, SetUnderlineColor,
};
use numbers::{GelvanhStyle, attribute_of, attributes_of, color_of, style_of, there_of};

/// The style of a command, if each of its parts is one.
pub(super) fn command_style(command: &GelvanhCommand) -> Option<ContentStyle>
    ensures { result ≡ command_style command.now }
{
    style_of(&GelvanhStyle {
        foreground: command.foreground,
        background: command.background,
        underline: command.underline,
        attributes: command.attributes,
    })
}

/// The two colours of a command, if each is one or is missing.
fn colors_of(command: &GelvanhCommand) -> Option<Colors>
    ensures { result ≡ colors_at command.now }
{
    let foreground = there_of(command.foreground)?;
    let background = there_of(command.background)?;
    Some(Colors {
        foreground,
        background,
    })
}

/// Writes a command, if the numbers name one.
#[inline(always)]
fn write_some<C: Command + Drop>(
    command: Option<C>,
    colors: ColorOutput,
    slice: &mut [u8],
) -> Answer
    ensures { MatchOption command (AnswersTo None slice.old slice.new result.length result.outcome)
        (λ c. IfSome (C.text c colors) (λ text. AnswersSlice text slice.old slice.new result.length result.outcome)) }
{
    match command {
        Some(command) => write(&command, colors, slice),
        None => Answer::nothing(),
    }
}

/// Writes a command of colours, of attributes or of a whole style.
pub(super) fn write_style(command: &GelvanhCommand, colors: ColorOutput, slice: &mut [u8]) -> Answer
    ensures { AnswersTo (style_text colors command.now) slice.old slice.new result.length result.outcome }
{
    match command.kind {
        35 => write_some(
            color_of(command.foreground).map(SetForegroundColor),
            colors,
            slice,
        ),
        36 => write_some(
            color_of(command.background).map(SetBackgroundColor),
            colors,
            slice,
        ),
        37 => write_some(
            color_of(command.underline).map(SetUnderlineColor),
            colors,
            slice,
        ),
        38 => write_some(colors_of(command).map(SetColors), colors, slice),
        39 => match attribute_of(command.first) {
            Some(attribute) => write(&SetAttribute(attribute), colors, slice),
            None => Answer::nothing(),
        },
        40 => write_some(
            attributes_of(command.attributes).map(SetAttributes),
            colors,
            slice,
        ),
        41 => write_some(command_style(command).map(SetStyle), colors, slice),
        43 => write(&ResetColor, colors, slice),
        _ => Answer::nothing(),
    }
}
