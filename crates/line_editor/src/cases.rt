//! Characters and texts in capitals and in small letters.
ghost use Rattle.std.specs.Prelude.{◌≡◌, IfOk};
ghost use Rattle.std.specs.Str.{chars};
ghost use Rattle.std.specs.String.{string_bytes};
ghost use Rattle.line_editor.specs.Bounds.{size};
ghost use Rattle.line_editor.specs.Cases.{case_behind, cased, in_case, lower, upper};

use crate::actions::Case;
use crate::shown::is_shown;
use crate::texts::split_first;
use std::alloc::{AllocError, Allocator};

/// A character as a capital, and the character itself if that isn't one character, or isn't shown.
fn upper(c: char) -> char
    ensures { result ≡ upper c }
{
    let mut chars = c.to_uppercase();
    match (chars.next(), chars.next()) {
        (Some(only), None) => { if is_shown(only) { only } else { c } }
        _ => c,
    }
}

/// A character as a small letter, and the character itself if that isn't one character, or isn't shown.
fn lower(c: char) -> char
    ensures { result ≡ lower c }
{
    let mut chars = c.to_lowercase();
    match (chars.next(), chars.next()) {
        (Some(only), None) => { if is_shown(only) { only } else { c } }
        _ => c,
    }
}

/// A character in a case.
fn in_case(case: Case, c: char) -> char
    ensures { result ≡ in_case case c }
{
    match case {
        Case::Upper => upper(c),
        Case::Lower => lower(c),
        Case::Title => upper(c),
    }
}

/// The case of what is behind a character.
fn case_behind(case: Case, c: char) -> Case
    ensures { result ≡ case_behind case c }
{
    match case {
        Case::Upper => Case::Upper,
        Case::Lower => Case::Lower,
        Case::Title => {
            if c.is_alphanumeric() {
                Case::Lower
            } else {
                Case::Title
            }
        }
    }
}

/// The bytes of a text in a case. They may be more than a `usize` holds.
pub(crate) fn cased_len(case: Case, text: &str) -> u128
    ensures { result ≡ size (cased case (chars text.now)) }
{
    let mut len = 0u128;
    let mut case = case;
    let mut rest = text;
    while let Some((c, back)) = split_first(rest) {
        len += in_case(case, c).len_utf8() as u128;
        case = case_behind(case, c);
        rest = back;
    }
    len
}

/// A text in a case.
pub(crate) fn cased<A: Allocator>(alloc: A, case: Case, text: &str) -> Result<String<A>, AllocError>
    ensures { IfOk result (λ new. chars (string_bytes new) ≡ cased case (chars text.now)) }
{
    let mut new = String::new(alloc);
    let mut case = case;
    let mut rest = text;
    while let Some((c, back)) = split_first(rest) {
        new.push(in_case(case, c))?;
        case = case_behind(case, c);
        rest = back;
    }
    Ok(new)
}
