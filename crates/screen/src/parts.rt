//! The parts of a text: a character with its marks.
ghost use Rattle.std.specs.Prelude.{◌≡◌, ◌<◌, ◌≤◌, [], ◌∷◌, MatchOption, length};
ghost use Rattle.std.specs.Str.{chars};
ghost use Rattle.screen.specs.inside.FirstParts.{HoldsMarks, IsFirstPart, behind_marks, first_marks};

use crate::marks::{Marks, is_mark_of};

/// A character with its marks, or with the first three of more.
#[derive(Clone, Copy)]
pub(crate) struct Part {
    pub(crate) symbol: char,
    pub(crate) marks: Marks,
    /// Whether there are more marks than these.
    pub(crate) is_long: bool,
}

/// The first character of a text, and the text behind it.
fn split_first(text: &str) -> Option<(char, &str)>
    ensures { MatchOption result (chars text.now ≡ [])
        (λ (c, rest). (chars text.now ≡ c ∷ chars rest.now) × (length rest.now < length text.now)) }
{
    let mut chars = text.chars();
    match chars.next() {
        Some(c) => Some((c, chars.as_str())),
        None => None,
    }
}

/// The marks that a text begins with behind a character, whether there are more than three, and the text behind them.
fn split_marks(before: char, text: &str) -> (Marks, bool, &str)
    ensures held { HoldsMarks result.1 result.0 (first_marks before (chars text.now)) }
    ensures back { chars result.2.now ≡ behind_marks before (chars text.now) }
    ensures len { length result.2.now ≤ length text.now }
{
    let mut marks = Marks::none();
    let mut is_long = false;
    let mut last = before;
    let mut rest = text;
    while let Some((symbol, back)) = split_first(rest) {
        if !is_mark_of(last, symbol) {
            break;
        }
        if !marks.push(symbol) {
            is_long = true;
        }
        last = symbol;
        rest = back;
    }
    (marks, is_long, rest)
}

/// The first part of any text, and the text behind it.
#[inline(never)]
fn split_part(text: &str) -> Option<(Part, &str)>
    ensures { MatchOption result (chars text.now ≡ [])
        (λ (part, back). IsFirstPart (chars text.now) part (chars back.now) × (length back.now < length text.now)) }
{
    match split_first(text) {
        None => None,
        Some((symbol, rest)) => {
            let (marks, is_long, back) = split_marks(symbol, rest);
            let part = Part {
                symbol,
                marks,
                is_long,
            };
            Some((part, back))
        }
    }
}

/// The first part of a text, and the text behind it.
#[inline(always)]
pub(crate) fn first_part(text: &str) -> Option<(Part, &str)>
    ensures { MatchOption result (chars text.now ≡ [])
        (λ (part, back). IsFirstPart (chars text.now) part (chars back.now) × (length back.now < length text.now)) }
{
    let bytes = text.as_bytes();
    if bytes.len() >= 2 {
        // No character of one byte is a mark.
        if bytes[0] < 128 && bytes[1] < 128 {
            let part = Part {
                symbol: bytes[0] as char,
                marks: Marks::none(),
                is_long: false,
            };
            return Some((part, &text[1..text.len()]));
        }
    }
    split_part(text)
}
