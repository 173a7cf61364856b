//! Frames by their bytes, written by hand from ECMA-48.

use crate::sizes::all_attributes;
use crossterm::cursor::{Hide, MoveTo};
use crossterm::style::{Attribute, Print, SetAttribute, SetStyle};
use crossterm::terminal::{BeginSynchronizedUpdate, Clear, ClearType, EndSynchronizedUpdate};
use crossterm::{QueueableCommand, queue};
use crossterm_command::ColorOutput;
use crossterm_style::{Color, ContentStyle};
use screen::{Buffer, Screen};
use std::alloc::{AllocError, Global};
use test_support::expect;

/// What begins each frame, and what ends one whose cursor is hidden.
const BEGIN: &str = "\x1b[?2026h";

const END: &str = "\x1b[0m\x1b[?25l\x1b[?2026l";

/// A screen, and a buffer of its size.
pub fn pair(alloc: Global, width: u16, height: u16) -> Result<(Screen, Buffer), AllocError> {
    let screen = Screen::new(alloc, width, height)?;
    match Buffer::new(alloc, width, height) {
        Ok(buffer) => Ok((screen, buffer)),
        Err(error) => Err(error),
    }
}

/// What a frame is to write between its beginning and its end.
fn writes(screen: &mut Screen, alloc: Global, buffer: &Buffer, wanted: &str) -> bool {
    let mut bytes: Vec<u8> = Vec::new(alloc);
    if screen
        .draw(&mut bytes, ColorOutput::Enabled, buffer, None)
        .is_err()
    {
        return false;
    }
    let Some(rest) = bytes.as_slice().strip_prefix(BEGIN.as_bytes()) else {
        return false;
    };
    rest.strip_suffix(END.as_bytes()) == Some(wanted.as_bytes())
}

/// A style with a red foreground.
fn red() -> ContentStyle {
    ContentStyle {
        foreground_color: Some(Color::AnsiValue(9)),
        ..ContentStyle::new()
    }
}

fn are_written(alloc: Global, mut screen: Screen, mut buffer: Buffer) -> bool {
    let blank = writes(&mut screen, alloc, &buffer, "\x1b[0m\x1b[2J");
    let nothing = writes(&mut screen, alloc, &buffer, "");
    let set = buffer.set(2, 1, 'a', red()).is_ok()
        && buffer.set(3, 1, 'b', red()).is_ok()
        && buffer.set(19, 1, 'c', red()).is_ok()
        && buffer.set(0, 2, 'd', ContentStyle::new()).is_ok();
    let some = "\x1b[2;3H\x1b[0m\x1b[38;5;9mab\x1b[2;20Hc\x1b[3;1H\x1b[0md";
    let changed = writes(&mut screen, alloc, &buffer, some);
    let still = writes(&mut screen, alloc, &buffer, "");
    blank && nothing && set && changed && still
}

#[test]
fn neighbours_are_grouped_and_the_rest_is_left(rt: HostRuntime) -> Result<(), AllocError> {
    let (screen, buffer) = pair(rt.alloc(), 20, 3)?;
    expect!(rt; are_written(rt.alloc(), screen, buffer));
    Ok(())
}

fn palette(number: u8) -> Option<Color> {
    if number == 0 {
        return None;
    }
    Some(Color::AnsiValue(number))
}

/// Sets characters side by side, each in a foreground and a background of the palette (0 is none), and bold or not.
fn paint(buffer: &mut Buffer, cells: &[(char, u8, u8, bool)]) -> bool {
    let mut column = 0u16;
    for (symbol, front, back, is_bold) in cells {
        let mut style = ContentStyle::new();
        style.foreground_color = palette(*front);
        style.background_color = palette(*back);
        if *is_bold {
            style.attributes.set(Attribute::Bold);
        }
        if buffer.set(column, 0, *symbol, style).is_err() {
            return false;
        }
        column = column.saturating_add(1);
    }
    true
}

/// Whether only the colours are written if styles differ in colours alone, or a reset if that is shorter.
fn are_recolored(alloc: Global, mut screen: Screen, mut buffer: Buffer) -> bool {
    let blank = writes(&mut screen, alloc, &buffer, "\x1b[0m\x1b[2J");
    let colors = [
        ('a', 9, 0, false),
        ('b', 9, 4, false),
        ('c', 10, 4, false),
        ('d', 10, 0, false),
        ('e', 0, 0, false),
        ('f', 0, 4, false),
        ('g', 0, 4, true),
        ('h', 9, 4, true),
    ];
    let is_set = paint(&mut buffer, &colors);
    let wanted =
        "\x1b[1;1H\x1b[0m\x1b[38;5;9ma\x1b[48;5;4mb\x1b[38;5;10mc\x1b[49md\x1b[0me\x1b[48;5;4mf\x1b[0m\x1b[48;5;4m\x1b[1mg\x1b[38;5;9mh";
    blank && is_set && writes(&mut screen, alloc, &buffer, wanted)
}

/// Whether of colours nothing is written between cells if none are to be written, so that what is bold stays bold.
fn are_uncolored(alloc: Global, mut screen: Screen, mut buffer: Buffer) -> bool {
    let is_set = paint(&mut buffer, &[('a', 9, 0, true), ('b', 10, 4, true)]);
    let mut bytes: Vec<u8> = Vec::new(alloc);
    let drawn = screen.draw(&mut bytes, ColorOutput::Disabled, &buffer, None);
    let wanted = b"\x1b[1;1H\x1b[0m\x1b[m\x1b[1mab\x1b[0m\x1b[?25l\x1b[?2026l";
    is_set && drawn.is_ok() && bytes.as_slice().ends_with(wanted)
}

#[test]
fn colours_alone_are_written_where_the_rest_is_set(rt: HostRuntime) -> Result<(), AllocError> {
    let (screen, buffer) = pair(rt.alloc(), 9, 1)?;
    expect!(rt; are_recolored(rt.alloc(), screen, buffer));
    let (screen, buffer) = pair(rt.alloc(), 2, 1)?;
    expect!(rt; are_uncolored(rt.alloc(), screen, buffer));
    Ok(())
}

/// A style with all that there is, whose text is the longest.
fn longest(color: u8) -> ContentStyle {
    let color = Some(Color::Rgb {
        r: 255,
        g: 200,
        b: color,
    });
    ContentStyle {
        foreground_color: color,
        background_color: color,
        underline_color: color,
        attributes: all_attributes(),
    }
}

const ON: ColorOutput = ColorOutput::Enabled;

/// Sets each of 60 cells in the longest style, another one than its neighbours have, and writes by commands what a frame of them is.
fn write_longest(buffer: &mut Buffer, out: &mut Vec<u8>) -> bool {
    let is_begun = queue!(out, ON, BeginSynchronizedUpdate).is_ok()
        && queue!(out, ON, SetAttribute(Attribute::Reset)).is_ok()
        && queue!(out, ON, Clear(ClearType::All), MoveTo(0, 0)).is_ok();
    for column in 0..60u8 {
        let is_set = buffer
            .set(u16::from(column), 0, 'x', longest(column))
            .is_ok();
        let is_written = queue!(out, ON, SetAttribute(Attribute::Reset)).is_ok()
            && queue!(out, ON, SetStyle(longest(column)), Print('x')).is_ok();
        if !is_set || !is_written {
            return false;
        }
    }
    let is_ended = queue!(out, ON, SetAttribute(Attribute::Reset), Hide).is_ok()
        && queue!(out, ON, EndSynchronizedUpdate).is_ok();
    is_begun && is_ended
}

/// Whether a row of the longest styles is written as by commands.
fn are_long_written(alloc: Global, mut screen: Screen, mut buffer: Buffer) -> bool {
    let mut wanted: Vec<u8> = Vec::new(alloc);
    let is_wanted = write_longest(&mut buffer, &mut wanted);
    let mut bytes: Vec<u8> = Vec::new(alloc);
    let drawn = screen.draw(&mut bytes, ON, &buffer, None);
    is_wanted && drawn.is_ok() && bytes == wanted && bytes.len() > 8192
}

#[test]
fn the_longest_styles_are_written(rt: HostRuntime) -> Result<(), AllocError> {
    let (screen, buffer) = pair(rt.alloc(), 60, 1)?;
    expect!(rt; are_long_written(rt.alloc(), screen, buffer));
    Ok(())
}
