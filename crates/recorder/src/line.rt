//! Acts as lines of text.
ghost use Rattle.std.specs.Prelude.{◌≡◌, ◌<◌, ℕ, List, [], ◌∷◌, ◌++◌, OnErr, OnOk, IfOk, length, slice_index, take};
ghost use Rattle.hex.specs.Hex.{encode_lower, lower_digits};
ghost use Rattle.crossterm_read.specs.Device.{Bytes, Resized, Fault};
ghost use Rattle.recorder.specs.Lines as spec;
ghost use Rattle.recorder.specs.inside.Said.{noted_answer};

use crate::kinds::kind_name;
use crossterm_read::source::Act;
use itoa::Buffer;
use std::alloc::{AllocError, Allocator};
use std::io::{ErrorKind, Write};

/// What a line says.
#[derive(Clone, Copy)]
pub(crate) enum Noted<'a> {
    Bytes { bytes: &'a [u8], raw: bool },
    Resized(u16, u16),
    Woken,
    Idle,
    Fault(ErrorKind),
}

// The digit of a number below 16.
fn digit(n: u8) -> u8
    requires { n < 16 }
    ensures { result ≡ slice_index lower_digits n }
{
    let digits: &[u8] = b"0123456789abcdef";
    digits[usize::from(n)]
}

// Appends a word.
fn push_word<A: Allocator>(out: &mut Vec<u8, A>, word: &str) -> Result<(), AllocError>
    ensures ok { OnOk result (out.new.items ≡ out.old.items ++ word.now) }
    ensures keeps { take (length out.old.items) out.new.items ≡ out.old.items }
{
    out.extend_from_slice(word.as_bytes())
}

// Appends hexadecimal digits.
#[tactic(auto, unfolding(hex::specs::Hex::encode_with))]
fn push_hex<A: Allocator>(out: &mut Vec<u8, A>, bytes: &[u8]) -> Result<(), AllocError>
    ensures ok { OnOk result (out.new.items ≡ out.old.items ++ encode_lower bytes.now) }
    ensures keeps { take (length out.old.items) out.new.items ≡ out.old.items }
{
    for byte in bytes {
        out.push(digit(*byte / 16))?;
        out.push(digit(*byte % 16))?;
    }
    Ok(())
}

// Appends the line of bytes.
fn push_bytes<A: Allocator>(out: &mut Vec<u8, A>, bytes: &[u8], raw: bool) -> Result<(), AllocError>
    ensures ok { OnOk result (out.new.items ≡ out.old.items ++ spec.line (Bytes bytes.now raw)) }
    ensures keeps { take (length out.old.items) out.new.items ≡ out.old.items }
{
    if raw {
        push_word(out, "raw ")?;
        push_hex(out, bytes)?;
        return Ok(());
    }
    push_word(out, "piece ")?;
    push_hex(out, bytes)?;
    Ok(())
}

// Appends the line of a size.
fn push_size<A: Allocator>(out: &mut Vec<u8, A>, columns: u16, rows: u16) -> Result<(), AllocError>
    ensures ok { OnOk result (out.new.items ≡ out.old.items ++ spec.line (Resized columns rows)) }
    ensures keeps { take (length out.old.items) out.new.items ≡ out.old.items }
{
    let mut digits = Buffer::new();
    push_word(out, "resize ")?;
    push_word(out, digits.format(columns))?;
    push_word(out, " ")?;
    push_word(out, digits.format(rows))?;
    Ok(())
}

// Appends the line of a fault.
fn push_fault<A: Allocator>(out: &mut Vec<u8, A>, kind: ErrorKind) -> Result<(), AllocError>
    ensures ok { OnOk result (out.new.items ≡ out.old.items ++ spec.line (Fault kind)) }
    ensures keeps { take (length out.old.items) out.new.items ≡ out.old.items }
{
    push_word(out, "fault ")?;
    push_word(out, kind_name(kind))?;
    Ok(())
}

// Appends the line of an answer, without its end.
fn push_line<A: Allocator>(out: &mut Vec<u8, A>, noted: Noted<'_>) -> Result<(), AllocError>
    ensures ok { OnOk result (out.new.items ≡ out.old.items ++ spec.line (noted_answer noted.entry)) }
    ensures keeps { take (length out.old.items) out.new.items ≡ out.old.items }
{
    match noted {
        Noted::Bytes { bytes, raw } => push_bytes(out, bytes, raw),
        Noted::Resized(columns, rows) => push_size(out, columns, rows),
        Noted::Woken => push_word(out, "wake"),
        Noted::Idle => push_word(out, "idle"),
        Noted::Fault(kind) => push_fault(out, kind),
    }
}

// Appends the line of an answer and its end.
fn push_noted<A: Allocator>(out: &mut Vec<u8, A>, noted: Noted<'_>) -> Result<(), AllocError>
    ensures ok { OnOk result (out.new.items ≡ out.old.items ++ spec.lines (noted_answer noted.entry ∷ [])) }
    ensures keeps { take (length out.old.items) out.new.items ≡ out.old.items }
{
    push_line(out, noted)?;
    out.push(b'\n')?;
    Ok(())
}

// Appends the line of a time and its end.
fn push_stamp<A: Allocator>(out: &mut Vec<u8, A>, time: u32) -> Result<(), AllocError>
    ensures { OnOk result (out.new.items ≡ out.old.items ++ spec.stamp time ++ 10 ∷ []) }
{
    match writeln!(out, "# {time}") {
        Ok(()) => Ok(()),
        Err(_) => Err(AllocError),
    }
}

/// Appends what came at a time: the line of the time, in milliseconds, and that of the answer.
pub(crate) fn push_entry<A: Allocator>(
    out: &mut Vec<u8, A>,
    time: u32,
    noted: Noted<'_>,
) -> Result<(), AllocError>
    ensures { OnOk result (out.new.items ≡ out.old.items ++ spec.text ((time, noted_answer noted.entry) ∷ [])) }
{
    push_stamp(out, time)?;
    push_noted(out, noted)?;
    Ok(())
}

// What an act says in one line.
fn said<A: Allocator>(act: &Act<A>) -> Noted<'_>
    ensures { noted_answer result ≡ spec.act_answer act.now }
{
    match act {
        Act::Piece { bytes, raw } => Noted::Bytes {
            bytes: bytes.as_slice(),
            raw: *raw,
        },
        Act::Resize(columns, rows) => Noted::Resized(*columns, *rows),
        Act::Woken => Noted::Woken,
        Act::Idle => Noted::Idle,
        Act::Fault(kind) => Noted::Fault(*kind),
    }
}

/// Appends an act to a text, as one line: `piece HEX`, `raw HEX`, `resize COLUMNS ROWS`, `wake`, `idle` or `fault KIND`.
///
/// ```
/// let act: Act = Act::Resize(80, 24);
/// write_act(&mut text, &act)?;    // resize 80 24
/// ```
///
/// # Errors
///
/// Memory was refused, and then the text is as it was.
pub fn write_act<A: Allocator, B: Allocator>(
    out: &mut Vec<u8, B>,
    act: &Act<A>,
) -> Result<(), AllocError>
    ensures ok { OnOk result (out.new.items ≡ out.old.items ++ spec.lines (spec.act_answer act.now ∷ [])) }
    ensures err { OnErr result (out.new.items ≡ out.old.items) }
{
    let count = out.len();
    match push_noted(out, said(act)) {
        Ok(()) => Ok(()),
        Err(refused) => {
            out.truncate(count);
            Err(refused)
        }
    }
}
