//! The parts of which colours are read.
ghost use Rattle.std.specs.Prelude.{◌≡◌, ◌==◌, ◌<◌, IfOk, length, string_bytes};
ghost use Rattle.std.specs.List.{slice_split};
ghost use Rattle.std.specs.Option.{option_map};
ghost use Rattle.crossterm_style.specs.Values.{byte_of, fields_rgb, hex_byte, hex_digit, hex_rgb, holds, three_of, without};

use crate::Color;
use std::alloc::{AllocError, Allocator};

/// Whether a text has a part.
pub(crate) fn holds(text: &str, part: &str) -> bool
    ensures { result ≡ holds part.now text.now }
{
    text.contains(part)
}

/// A text without a part, wherever it is.
pub(crate) fn without<A: Allocator>(
    alloc: A,
    text: &str,
    part: &str,
) -> Result<String<A>, AllocError>
    requires { 0 < length part.now }
    ensures { IfOk result (λ t. string_bytes t ≡ without part.now text.now) }
{
    text.replace(alloc, part, "")
}

/// A number below 256 in decimal digits, which a plus may precede.
pub(crate) fn byte(text: &str) -> Option<u8>
    ensures { result ≡ byte_of text.now }
{
    text.parse::<u8>().ok()
}

/// The fields of a text that has three, with commas between.
fn three(text: &str) -> Option<(&str, &str, &str)>
    ensures { option_map (λ p. (p.0.now, p.1.now, p.2.now)) result ≡ three_of (slice_split (λ b. b == 44) text.now) }
{
    let Some((first, rest)) = text.split_once(',') else {
        return None;
    };
    let Some((second, third)) = rest.split_once(',') else {
        return None;
    };
    match third.split_once(',') {
        Some(_) => None,
        None => Some((first, second, third)),
    }
}

/// A colour of three fields with commas between.
pub(crate) fn rgb(text: &str) -> Option<Color>
    ensures { result ≡ fields_rgb (slice_split (λ b. b == 44) text.now) }
{
    let (r, g, b) = three(text)?;
    Some(Color::Rgb {
        r: byte(r)?,
        g: byte(g)?,
        b: byte(b)?,
    })
}

/// A hexadecimal digit.
fn hex_digit(digit: u8) -> Option<u8>
    ensures { result ≡ hex_digit digit }
{
    match char::from(digit).to_digit(16) {
        Some(value) => Some(value as u8),
        None => None,
    }
}

/// Two hexadecimal digits, or a plus and one.
fn hex_byte(first: u8, second: u8) -> Option<u8>
    ensures { result ≡ hex_byte first second }
{
    if first == b'+' {
        return hex_digit(second);
    }
    let high = hex_digit(first)?;
    let low = hex_digit(second)?;
    Some(high * 16 + low)
}

/// A colour of `#` and six bytes, each two of them a part.
pub(crate) fn hex(text: &str) -> Option<Color>
    ensures { result ≡ hex_rgb text.now }
{
    let bytes = text.as_bytes();
    if bytes.len() != 7 || bytes[0] != b'#' {
        return None;
    }
    Some(Color::Rgb {
        r: hex_byte(bytes[1], bytes[2])?,
        g: hex_byte(bytes[3], bytes[4])?,
        b: hex_byte(bytes[5], bytes[6])?,
    })
}
