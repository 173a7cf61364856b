//! Strips by their bytes, written by hand from ECMA-48.

use crate::frames::failing::{Short, own_kind};
use crossterm_command::ColorOutput;
use crossterm_style::ContentStyle;
use screen::{Buffer, DrawFault, Strip};
use std::alloc::{AllocError, Global};
use std::io::ErrorKind;
use test_support::expect;

const ON: ColorOutput = ColorOutput::Enabled;

/// What a frame of `ab` is if nothing is known of the row.
const FIRST: &str =
    "\x1b[?2026h\x1b[0m\x1b[1G\x1b[K\x1b[1G\x1b[0mab\x1b[0m\x1b[3G\x1b[?25h\x1b[?2026l";

/// Texts of a strip of six columns, the column that the cursor is to have, and what is written.
const WIDE: [(&str, Option<u16>, &str); 6] = [
    ("ab", Some(2), FIRST),
    (
        "abcdef",
        Some(5),
        "\x1b[?2026h\x1b[3G\x1b[0mcdef\x1b[0m\x1b[6G\x1b[?25h\x1b[?2026l",
    ),
    (
        "x",
        Some(1),
        "\x1b[?2026h\x1b[1G\x1b[0mx     \x1b[0m\x1b[2G\x1b[?25h\x1b[?2026l",
    ),
    (
        "x漢y",
        None,
        "\x1b[?2026h\x1b[2G\x1b[0m漢y\x1b[0m\x1b[?25l\x1b[?2026l",
    ),
    ("x漢y", None, "\x1b[?2026h\x1b[0m\x1b[?25l\x1b[?2026l"),
    (
        "xy",
        Some(0),
        "\x1b[?2026h\x1b[2G\x1b[0my  \x1b[0m\x1b[1G\x1b[?25h\x1b[?2026l",
    ),
];

/// The same of three columns, after the size has changed.
const NARROW: [(&str, Option<u16>, &str); 2] = [
    (
        "xyz",
        Some(0),
        "\x1b[?2026h\x1b[0m\x1b[1G\x1b[K\x1b[1G\x1b[0mxyz\x1b[0m\x1b[1G\x1b[?25h\x1b[?2026l",
    ),
    (
        "xy",
        None,
        "\x1b[?2026h\x1b[3G\x1b[0m \x1b[0m\x1b[?25l\x1b[?2026l",
    ),
];

/// A frame that relies on nothing, with the cursor behind four columns of a text that is shown.
const STILL: &str = "\x1b[?2026h\x1b[0m\x1b[5G\x1b[?25h\x1b[?2026l";

/// Texts of a strip of six columns, each drawn right behind the one before it.
const NEXT: [(&str, Option<u16>, &str); 10] = [
    ("ab", Some(2), FIRST),
    ("abc", Some(3), "c"),
    ("abc", Some(3), ""),
    ("abc ", Some(4), " "),
    ("abc", Some(0), "\x1b[1G"),
    ("xbc", Some(1), "x"),
    // A letter that is shown already is shorter than a move over it.
    ("xb漢", Some(4), "b漢"),
    ("xb漢", None, "\x1b[?2026h\x1b[0m\x1b[?25l\x1b[?2026l"),
    ("xb漢", Some(4), STILL),
    // Behind the strip's last column nobody knows the cursor's place.
    ("qrstuv", Some(5), "\x1b[1Gqrstuv\x1b[6G"),
];

/// A buffer of one row with a text.
fn row_of(alloc: Global, width: u16, text: &str) -> Option<Buffer> {
    let mut buffer = Buffer::new(alloc, width, 1).ok()?;
    if buffer.print(0, 0, text, ContentStyle::new()).is_err() {
        return None;
    }
    Some(buffer)
}

/// Whether a strip writes this for a text.
fn writes(alloc: Global, strip: &mut Strip, text: &str, cursor: Option<u16>, wanted: &str) -> bool {
    let Some(buffer) = row_of(alloc, strip.width(), text) else {
        return false;
    };
    let mut bytes: Vec<u8> = Vec::new(alloc);
    let drawn = strip.draw(&mut bytes, ON, &buffer, cursor);
    drawn.is_ok() && bytes.as_slice() == wanted.as_bytes()
}

/// The same of a frame right behind the last one.
fn writes_next(
    alloc: Global,
    strip: &mut Strip,
    text: &str,
    cursor: Option<u16>,
    wanted: &str,
) -> bool {
    let Some(buffer) = row_of(alloc, strip.width(), text) else {
        return false;
    };
    let mut bytes: Vec<u8> = Vec::new(alloc);
    let drawn = strip.draw_next(&mut bytes, ON, &buffer, cursor);
    drawn.is_ok() && bytes.as_slice() == wanted.as_bytes()
}

/// Whether a frame right behind the last one that is refused or breaks off writes a beginning of it, and what the next one writes then.
fn are_next_broken(alloc: Global, strip: &mut Strip) -> bool {
    let Some(buffer) = row_of(alloc, strip.width(), "xyz") else {
        return false;
    };
    for room in 0..3usize {
        strip.forget();
        if !writes_next(alloc, strip, "ab", Some(2), FIRST)
            || !writes_next(alloc, strip, "ab", Some(0), "\x1b[1G")
        {
            return false;
        }
        let mut short = Short {
            bytes: Vec::new(alloc),
            room,
        };
        // A refusal writes nothing, and the row is known as before.
        let refused = strip.draw_next(&mut short, ON, &buffer, Some(6));
        if !matches!(refused, Err(DrawFault::Cursor)) {
            return false;
        }
        let drawn = strip.draw_next(&mut short, ON, &buffer, Some(3));
        let is_begun = b"xyz".starts_with(&short.bytes) && short.bytes.len() == room;
        if !is_begun || drawn.err().map(own_kind) != Some(ErrorKind::BrokenPipe) {
            return false;
        }
        if !writes_next(alloc, strip, "ab", Some(2), FIRST) {
            return false;
        }
    }
    true
}

fn are_written(alloc: Global, strip: &mut Strip, rows: &[(&str, Option<u16>, &str)]) -> bool {
    for (text, cursor, wanted) in rows {
        if !writes(alloc, strip, text, *cursor, wanted) {
            return false;
        }
    }
    true
}

/// Whether a buffer of another size is refused, with nothing written.
fn is_size_refused(alloc: Global, strip: &mut Strip, width: u16, height: u16) -> bool {
    let Ok(buffer) = Buffer::new(alloc, width, height) else {
        return false;
    };
    let mut bytes: Vec<u8> = Vec::new(alloc);
    let drawn = strip.draw(&mut bytes, ON, &buffer, None);
    matches!(drawn, Err(DrawFault::Size)) && bytes.is_empty()
}

/// Whether a cursor outside of a strip of three columns is refused, and the row is known as before.
fn is_cursor_refused(alloc: Global, strip: &mut Strip) -> bool {
    let Some(buffer) = row_of(alloc, 3, "xy") else {
        return false;
    };
    let mut bytes: Vec<u8> = Vec::new(alloc);
    let drawn = strip.draw(&mut bytes, ON, &buffer, Some(3));
    let still = "\x1b[?2026h\x1b[0m\x1b[?25l\x1b[?2026l";
    matches!(drawn, Err(DrawFault::Cursor))
        && bytes.is_empty()
        && writes(alloc, strip, "xy", None, still)
}

/// Whether a frame that breaks off after any number of bytes is a beginning of the whole one, and the next frame writes all.
fn are_broken(alloc: Global, strip: &mut Strip) -> bool {
    let Some(buffer) = row_of(alloc, strip.width(), "ab") else {
        return false;
    };
    for room in 0..FIRST.len() {
        strip.forget();
        let mut short = Short {
            bytes: Vec::new(alloc),
            room,
        };
        let drawn = strip.draw(&mut short, ON, &buffer, Some(2));
        let is_begun = FIRST.as_bytes().starts_with(&short.bytes) && short.bytes.len() == room;
        let is_broken = drawn.err().map(own_kind) == Some(ErrorKind::BrokenPipe);
        if !is_begun || !is_broken || !writes(alloc, strip, "ab", Some(2), FIRST) {
            return false;
        }
    }
    true
}

#[test]
fn strips_of_who_draws_alone_write_what_changed(rt: HostRuntime) -> Result<(), AllocError> {
    let alloc = rt.alloc();
    let mut strip = Strip::new(alloc, 6)?;
    for (text, cursor, wanted) in &NEXT {
        expect!(rt; writes_next(alloc, &mut strip, text, *cursor, wanted));
    }
    expect!(rt; writes_next(alloc, &mut strip, "xb漢", Some(4), "\x1b[1Gxb漢  \x1b[5G"));
    strip.forget_cursor();
    expect!(rt; writes_next(alloc, &mut strip, "xb漢", Some(4), STILL));
    expect!(rt; are_next_broken(alloc, &mut strip));
    Ok(())
}

#[test]
fn strips_write_in_their_row(rt: HostRuntime) -> Result<(), AllocError> {
    let alloc = rt.alloc();
    let mut strip = Strip::new(alloc, 6)?;
    expect!(rt; are_written(alloc, &mut strip, &WIDE));
    expect!(rt; strip.resize(3).is_ok() && strip.width() == 3);
    expect!(rt; are_written(alloc, &mut strip, &NARROW));
    expect!(rt; is_size_refused(alloc, &mut strip, 4, 1));
    expect!(rt; is_size_refused(alloc, &mut strip, 2, 1));
    expect!(rt; is_size_refused(alloc, &mut strip, 3, 2));
    expect!(rt; is_cursor_refused(alloc, &mut strip));
    expect!(rt; are_broken(alloc, &mut strip));
    Ok(())
}
