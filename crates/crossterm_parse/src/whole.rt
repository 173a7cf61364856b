//! Plain sequences that are whole: those of `ESC O`, of `ESC [` and a final byte, and of plain numbers, each of six digits at most.
//!
//! One is read at once, with its numbers in registers: nearly all keys and reports of the mouse come so. What isn't plain, or isn't whole yet,
//! is read byte by byte into a `State`, with the same meaning.
ghost use Rattle.std.specs.Prelude.{◌≡◌, ◌<◌, ℕ, Bool, List, length, IfSome, IsTrue};
ghost use Rattle.crossterm_parse.specs.Bytes.{is_digit};
ghost use Rattle.crossterm_parse.specs.Transitions.{empty_parameters, readings_at, state_after, Whole};
ghost use Rattle.crossterm_parse.specs.inside.InFront.{AreNumbers, EndsFrom, IsNumber, in_first, in_kind, in_second, in_third, kept_of};
ghost use Rattle.crossterm_parse.specs.Meaning.{after_csi};
ghost use Rattle.crossterm_parse.specs.Putting.{GivesInFront};
ghost use Rattle.crossterm_parse.specs.declared.number.Number.TheVariants.{Value};
ghost use Rattle.crossterm_parse.specs.declared.state.State.TheVariants.{Escape, Csi, Sgr};

use crate::character::character_in;
use crate::meaning::{Meaning, meaning_after_csi, meaning_after_ss3, typed_key};
use crate::numbered::{is_final_byte, is_mouse_final};
use crate::readings::Readings;
use crate::state::State;

/// A number in front, and the byte behind it.
#[derive(Clone, Copy)]
pub struct WholeNumber {
    pub value: u32,
    /// Its last digit.
    pub digit: u8,
    /// The byte behind it.
    pub end: u8,
    /// How many bytes it has, with the one behind it.
    pub count: usize,
}

/// A sequence in front that is whole.
#[derive(Clone, Copy)]
pub struct WholeSequence {
    pub meaning: Option<Meaning>,
    /// How many bytes it has.
    pub count: usize,
}

// A number that isn't smaller has six digits, and takes no more.
const SIX_DIGITS: u32 = 100_000;

/// Whether the byte is a digit.
fn is_digit(byte: u8) -> bool
    ensures { result ≡ is_digit byte }
{
    matches!(byte, b'0'..=b'9')
}

/// The number in front, if it has six digits at most and a byte behind it.
#[inline(always)]
fn number_in(bytes: &[u8]) -> Option<WholeNumber>
    ensures { IfSome result (λ it. IsNumber bytes.now it) }
{
    let mut value = 0;
    let mut digit = 0;
    for (i, byte) in bytes.iter().enumerate() {
        if value < SIX_DIGITS && is_digit(*byte) {
            digit = *byte;
            value = value * 10 + u32::from(digit - b'0');
        } else if i > 0 {
            return Some(WholeNumber {
                value,
                digit,
                end: *byte,
                count: i + 1,
            });
        } else {
            return None;
        }
    }
    None
}

/// What is read of one number.
#[inline(always)]
fn one(first: WholeNumber) -> Readings
    ensures { result ≡ readings_at (kept_of (in_first (Value first.value)) first.digit) }
{
    Readings {
        first: Some(first.value),
        second: None,
        third: None,
        code: Some(first.value),
        alternate: None,
        mask: None,
        kind: None,
        last: first.digit,
        utf8: true,
    }
}

/// What is read of a number, and of a second one behind `;`.
#[inline(always)]
fn two(first: WholeNumber, second: WholeNumber) -> Readings
    ensures { result ≡ readings_at (kept_of (in_second first.value (Value second.value)) second.digit) }
{
    Readings {
        second: Some(second.value),
        mask: Some(second.value),
        last: second.digit,
        ..one(first)
    }
}

/// What is read of a number, of a second one behind `;`, and of its kind behind `:`.
#[inline(always)]
fn with_kind(first: WholeNumber, mask: WholeNumber, kind: WholeNumber) -> Readings
    ensures { result ≡ readings_at (kept_of (in_kind first.value mask.value (Value kind.value)) kind.digit) }
{
    Readings {
        mask: Some(mask.value),
        kind: Some(kind.value),
        last: kind.digit,
        ..one(first)
    }
}

/// What is read of three numbers with `;` between them.
#[inline(always)]
fn three(first: WholeNumber, second: WholeNumber, third: WholeNumber) -> Readings
    ensures { result ≡ readings_at (kept_of (in_third first.value second.value (Value third.value)) third.digit) }
{
    Readings {
        third: Some(third.value),
        last: third.digit,
        ..two(first, second)
    }
}

/// The report of the mouse in front, behind `ESC [ <`.
#[inline(always)]
fn report_in(bytes: &[u8]) -> Option<WholeSequence>
    ensures { IfSome result (λ it. (raw : Bool) → EndsFrom (Sgr empty_parameters) bytes.now raw it) }
{
    let code = number_in(bytes)?;
    if code.end != b';' {
        return None;
    }
    let column = number_in(&bytes[code.count..])?;
    if column.end != b';' {
        return None;
    }
    let place = code.count + column.count;
    let row = number_in(&bytes[place..])?;
    if !is_mouse_final(row.end) {
        return None;
    }
    Some(WholeSequence {
        meaning: three(code, column, row).sgr(row.end),
        count: place + row.count,
    })
}

/// The sequence of numbers behind `ESC [`, if the byte behind them is a final byte.
#[inline(always)]
fn ended(readings: Readings, end: u8, count: usize, raw: bool) -> Option<WholeSequence>
    ensures { (bytes : List ℕ) → AreNumbers bytes readings end count → IfSome result (λ it. EndsFrom Csi bytes raw it) }
{
    if !is_final_byte(end) {
        return None;
    }
    Some(WholeSequence {
        meaning: readings.meaning(end, raw),
        count,
    })
}

/// The numbered sequence in front, behind `ESC [`: of a number, of two with `;` between them, or of three with `:` before the third one. It calls
/// `ended` once, since with three copies of that LLVM no longer inlines `control_in`, for its size.
#[inline(always)]
fn numbered_in(bytes: &[u8], raw: bool) -> Option<WholeSequence>
    ensures { IfSome result (λ it. EndsFrom Csi bytes.now raw it) }
{
    let first = number_in(bytes)?;
    let (readings, end, count) = if first.end != b';' {
        if first.value == 200 {
            return None;
        }
        (one(first), first.end, first.count)
    } else {
        let mask = number_in(&bytes[first.count..])?;
        let place = first.count + mask.count;
        if mask.end != b':' {
            (two(first, mask), mask.end, place)
        } else {
            let kind = number_in(&bytes[place..])?;
            (with_kind(first, mask, kind), kind.end, place + kind.count)
        }
    };
    ended(readings, end, count, raw)
}

/// Whether a sequence is whole with the byte behind `ESC [`.
#[inline(always)]
fn is_whole(byte: u8) -> bool
    ensures { IsTrue result → (raw pause : Bool) → state_after Csi byte raw pause ≡ Whole (after_csi byte) }
{
    let mut state = State::Csi;
    !state.introduce(byte)
}

/// The sequence in front, behind `ESC [`.
#[inline(always)]
fn control_in(bytes: &[u8], raw: bool) -> Option<WholeSequence>
    ensures { IfSome result (λ it. EndsFrom Csi bytes.now raw it) }
{
    if bytes.is_empty() {
        return None;
    }
    match bytes[0] {
        b'0'..=b'9' => numbered_in(bytes, raw),
        b'<' => match report_in(&bytes[1..]) {
            Some(report) => Some(WholeSequence {
                meaning: report.meaning,
                count: 1 + report.count,
            }),
            None => None,
        },
        last if is_whole(last) => Some(WholeSequence {
            meaning: meaning_after_csi(last),
            count: 1,
        }),
        _ => None,
    }
}

/// The sequence in front, behind ESC.
#[inline(always)]
pub fn sequence_in(bytes: &[u8], raw: bool) -> Option<WholeSequence>
    ensures { IfSome result (λ it. EndsFrom Escape bytes.now raw it) }
{
    if bytes.len() < 2 {
        return None;
    }
    match bytes[0] {
        b'O' => Some(WholeSequence {
            meaning: meaning_after_ss3(bytes[1]),
            count: 2,
        }),
        b'[' => match control_in(&bytes[1..], raw) {
            Some(sequence) => Some(WholeSequence {
                meaning: sequence.meaning,
                count: 1 + sequence.count,
            }),
            None => None,
        },
        _ => None,
    }
}

/// What a character of two bytes or more, or a plain sequence, means that is whole in front, and how many bytes it has.
#[inline(always)]
pub fn meaning_in(bytes: &[u8], raw: bool) -> Option<(Meaning, usize)>
    requires { 0 < length bytes.now }
    ensures { IfSome result (λ it. GivesInFront bytes.now raw it.0 it.1) }
{
    match bytes[0] {
        27 => {
            let sequence = sequence_in(&bytes[1..], raw)?;
            let meaning = sequence.meaning?;
            Some((meaning, 1 + sequence.count))
        }
        0xC2..=0xF4 => {
            let (c, size) = character_in(bytes)?;
            Some((Meaning::Key(typed_key(c)), size))
        }
        _ => None,
    }
}
