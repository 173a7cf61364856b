//! Commands of style by their names and arguments.

use crate::fault::Wrong;
use crate::input::{number, text};
use crate::names::is_named;
use crossterm::AnyCommand;
use crossterm::style::{
    Attribute, Attributes, Color, Colors, ContentStyle, PrintStyledContent, SetAttribute,
    SetAttributes, SetBackgroundColor, SetColors, SetForegroundColor, SetStyle, SetUnderlineColor,
};
use std::alloc::Allocator;

/// A part of a colour.
fn part(word: &str) -> Result<u8, Wrong> {
    number(word).ok_or(Wrong::Argument)
}

/// What is before and after a mark.
fn cut(words: &str, mark: char) -> Result<(&str, &str), Wrong> {
    words.split_once(mark).ok_or(Wrong::Argument)
}

/// A colour by its parts.
fn by_parts(parts: &str) -> Result<Color, Wrong> {
    let (r, rest) = cut(parts, ',')?;
    let (g, b) = cut(rest, ',')?;
    Ok(Color::Rgb {
        r: part(r)?,
        g: part(g)?,
        b: part(b)?,
    })
}

/// A colour by its name, as `ansi:N` or as `rgb:R,G,B`.
fn color(word: &str) -> Result<Color, Wrong> {
    if let Some(place) = word.strip_prefix("ansi:") {
        return Ok(Color::AnsiValue(part(place)?));
    }
    if let Some(parts) = word.strip_prefix("rgb:") {
        return by_parts(parts);
    }
    Color::try_from(word).ok().ok_or(Wrong::Argument)
}

/// A colour, or `-` for none.
fn optional_color(word: &str) -> Result<Option<Color>, Wrong> {
    match word {
        "-" => Ok(None),
        _ => Ok(Some(color(word)?)),
    }
}

/// An attribute by its name.
fn attribute(name: &str) -> Result<Attribute, Wrong> {
    for attribute in Attribute::iterator() {
        if is_named(&attribute, name) {
            return Ok(attribute);
        }
    }
    Err(Wrong::Argument)
}

/// Attributes by their names with commas between, or `-` for none.
fn attributes(names: &str) -> Result<Attributes, Wrong> {
    let mut all = Attributes::none();
    if names == "-" {
        return Ok(all);
    }
    for name in names.split(',') {
        all.set(attribute(name)?);
    }
    Ok(all)
}

/// A foreground and a background.
fn both_colors(words: &str) -> Result<Colors, Wrong> {
    let (foreground, background) = cut(words, ' ')?;
    Ok(Colors {
        foreground: optional_color(foreground)?,
        background: optional_color(background)?,
    })
}

/// A foreground, a background, an underline's colour, and attributes.
fn content_style(words: &str) -> Result<ContentStyle, Wrong> {
    let (foreground, rest) = cut(words, ' ')?;
    let (background, rest) = cut(rest, ' ')?;
    let (underline, names) = cut(rest, ' ')?;
    Ok(ContentStyle {
        foreground_color: optional_color(foreground)?,
        background_color: optional_color(background)?,
        underline_color: optional_color(underline)?,
        attributes: attributes(names)?,
    })
}

/// A style, and a text after it.
fn styled_content<A: Allocator + Clone>(
    alloc: &A,
    words: &str,
) -> Result<PrintStyledContent<String<A>>, Wrong> {
    let (style, content) = words.rsplit_once(' ').ok_or(Wrong::Argument)?;
    let style = content_style(style)?;
    let content = text(alloc.clone()?, content)?;
    Ok(PrintStyledContent(style.apply(content)))
}

/// A command that sets colours.
fn coloring<A: Allocator>(word: &str, argument: &str) -> Result<AnyCommand<A>, Wrong> {
    match word {
        "SetForegroundColor" => Ok(AnyCommand::SetForegroundColor(SetForegroundColor(color(
            argument,
        )?))),
        "SetBackgroundColor" => Ok(AnyCommand::SetBackgroundColor(SetBackgroundColor(color(
            argument,
        )?))),
        "SetUnderlineColor" => Ok(AnyCommand::SetUnderlineColor(SetUnderlineColor(color(
            argument,
        )?))),
        "SetColors" => Ok(AnyCommand::SetColors(SetColors(both_colors(argument)?))),
        _ => Err(Wrong::Word),
    }
}

/// A command of style by its name and arguments.
pub fn styling<A: Allocator + Clone>(
    alloc: &A,
    word: &str,
    argument: &str,
) -> Result<AnyCommand<A>, Wrong> {
    match word {
        "SetAttribute" => Ok(AnyCommand::SetAttribute(SetAttribute(attribute(argument)?))),
        "SetAttributes" => Ok(AnyCommand::SetAttributes(SetAttributes(attributes(argument)?))),
        "SetStyle" => Ok(AnyCommand::SetStyle(SetStyle(content_style(argument)?))),
        "PrintStyledContent" => Ok(AnyCommand::PrintStyledContent(styled_content(
            alloc, argument,
        )?)),
        _ => coloring(word, argument),
    }
}
