//! Control sequences with numbers, gathered and written by one call.
ghost use Rattle.std.specs.Prelude.{◌≡◌, ◌++◌, ◌+◌, ◌≤◌, OnOk, length, codes};
ghost use Rattle.std.specs.Fmt.{decimal};
ghost use Rattle.arrayvec.specs.ArrayString.{array_string_len};

use arrayvec::ArrayString;
use crossterm_style::digits::push_digits;
use itoa::Buffer;
use std::fmt;

/// Pushes the decimal digits of a number, of which there are ten at most.
#[inline(always)]
fn push_number(text: &mut ArrayString<32>, number: u32)
    requires { array_string_len text.old + 10 ≤ 32 }
    ensures pushed { text.new.bytes ≡ text.old.bytes ++ decimal number }
    ensures short { length (decimal number) ≤ 10 }
{
    // Most columns and rows, for which three characters are cheaper than a buffer.
    if number < 256 {
        push_digits(text, number as u8);
        return;
    }
    let mut digits = Buffer::new();
    text.push_str(digits.format(number));
}

/// Writes a number between the beginning of a sequence, which is at most 4 bytes long, and its end.
#[inline(always)]
pub(crate) fn write_number<W: fmt::Write>(
    f: &mut W,
    beginning: &str,
    number: u32,
    end: &str,
) -> fmt::Result
    requires beginning { length beginning.now ≤ 4 }
    requires end { length end.now ≤ 4 }
    ensures { OnOk result (W.write_str_gives f.old (beginning.now ++ decimal number ++ end.now) f.new) }
{
    let mut text = ArrayString::<32>::new();
    text.push_str(beginning);
    push_number(&mut text, number);
    text.push_str(end);
    f.write_str(text.as_str())
}

/// Writes two numbers, with a semicolon between, in the same way.
#[inline(always)]
pub(crate) fn write_numbers<W: fmt::Write>(
    f: &mut W,
    beginning: &str,
    numbers: (u32, u32),
    end: &str,
) -> fmt::Result
    requires beginning { length beginning.now ≤ 4 }
    requires end { length end.now ≤ 4 }
    ensures { OnOk result (W.write_str_gives f.old
        (beginning.now ++ (decimal numbers.0 ++ (codes ";" ++ decimal numbers.1)) ++ end.now) f.new) }
{
    let mut text = ArrayString::<32>::new();
    text.push_str(beginning);
    push_number(&mut text, numbers.0);
    text.push_str(";");
    push_number(&mut text, numbers.1);
    text.push_str(end);
    f.write_str(text.as_str())
}
