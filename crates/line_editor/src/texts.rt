//! Texts by their characters.
ghost use Rattle.std.specs.Prelude.{◌≡◌, ◌<◌, ℕ, List, [], ◌∷◌, ◌++◌, IfOk, IfSome, MatchBool, MatchOption, is_some, length, reverse};
ghost use Rattle.std.specs.Option.{option_map};
ghost use Rattle.std.specs.Str.{bytes_eq, chars, IsUtf8};
ghost use Rattle.std.specs.String.{string_bytes};
ghost use Rattle.line_editor.specs.Seeking.{contains, wanted};
ghost use Rattle.line_editor.specs.Shown.{AreRows};
ghost use Rattle.line_editor.specs.States.{begins_with_space, behind_front, other_rest};

use std::alloc::{AllocError, Allocator};

/// The last character of a text, and the text before it.
pub(crate) fn split_last(text: &str) -> Option<(char, &str)>
    ensures { MatchOption result (reverse (chars text.now) ≡ [])
        (λ (c, front). (reverse (chars text.now) ≡ c ∷ reverse (chars front.now)) × (length front.now < length text.now)) }
{
    let mut chars = text.chars();
    match chars.next_back() {
        Some(c) => Some((c, chars.as_str())),
        None => None,
    }
}

/// The first character of a text, and the text behind it.
pub(crate) fn split_first(text: &str) -> Option<(char, &str)>
    ensures { MatchOption result (chars text.now ≡ [])
        (λ (c, rest). (chars text.now ≡ c ∷ chars rest.now) × (length rest.now < length text.now)) }
{
    let mut chars = text.chars();
    match chars.next() {
        Some(c) => Some((c, chars.as_str())),
        None => None,
    }
}

/// Whether a text has no characters.
pub(crate) fn is_nothing(text: &str) -> bool
    ensures { MatchBool result (chars text.now ≡ []) ((c : ℕ) × (rest : List ℕ) × (chars text.now ≡ c ∷ rest)) }
{
    match split_first(text) {
        None => true,
        Some(_) => false,
    }
}

/// Whether a text begins with a blank.
pub(crate) fn begins_with_space(text: &str) -> bool
    ensures { result ≡ begins_with_space (chars text.now) }
{
    match split_first(text) {
        None => false,
        Some((c, _)) => c == ' ',
    }
}

/// The bytes of a text, which is in UTF-8.
pub(crate) fn utf8_len(text: &str) -> usize
    ensures utf8 { IsUtf8 text.now }
    ensures len { result ≡ length text.now }
{
    text.len()
}

/// The text before a character, of one that ends in it.
fn before_char<'a>(text: &'a str, c: char) -> Option<&'a str>
    ensures { MatchOption result ((front : List ℕ) → behind_front (c ∷ front) (reverse (chars text.now)) ≡ None)
        (λ rest. (reverse (chars text.now) ≡ c ∷ reverse (chars rest.now)) × (length rest.now < length text.now)) }
{
    match split_last(text) {
        None => None,
        Some((d, rest)) => {
            if c != d {
                return None;
            }
            Some(rest)
        }
    }
}

/// The text before an end, of one that ends in it.
pub(crate) fn before_end<'a>(text: &'a str, end: &str) -> Option<&'a str>
    ensures { option_map (λ rest. reverse (chars rest.now)) result ≡ behind_front (reverse (chars end.now)) (reverse (chars text.now)) }
{
    let mut rest = text;
    let mut wanted = end;
    while let Some((c, front)) = split_last(wanted) {
        match before_char(rest, c) {
            None => return None,
            Some(back) => rest = back,
        }
        wanted = front;
    }
    Some(rest)
}

/// The text behind a character, of one that begins with it.
fn past_char<'a>(text: &'a str, c: char) -> Option<&'a str>
    ensures { MatchOption result ((front : List ℕ) → behind_front (c ∷ front) (chars text.now) ≡ None)
        (λ rest. (chars text.now ≡ c ∷ chars rest.now) × (length rest.now < length text.now)) }
{
    match split_first(text) {
        None => None,
        Some((d, rest)) => {
            if c != d {
                return None;
            }
            Some(rest)
        }
    }
}

/// The text behind a front, of one that begins with it.
pub(crate) fn behind_front<'a>(text: &'a str, front: &str) -> Option<&'a str>
    ensures behind { option_map (λ rest. chars rest.now) result ≡ behind_front (chars front.now) (chars text.now) }
    ensures shown { AreRows (chars text.now) → IfSome result (λ rest. AreRows (chars rest.now)) }
{
    let mut rest = text;
    let mut wanted = front;
    while let Some((c, front)) = split_first(wanted) {
        match past_char(rest, c) {
            None => return None,
            Some(back) => rest = back,
        }
        wanted = front;
    }
    Some(rest)
}

/// Whether two texts are the same.
pub(crate) fn is_same(text: &str, other: &str) -> bool
    ensures { result ≡ bytes_eq (chars text.now) (chars other.now) }
{
    text == other
}

/// Whether a text begins with another one.
fn begins_with(text: &str, front: &str) -> bool
    ensures { result ≡ is_some (behind_front (chars front.now) (chars text.now)) }
{
    behind_front(text, front).is_some()
}

/// Whether a text contains another one.
pub(crate) fn contains(text: &str, pattern: &str) -> bool
    ensures { result ≡ contains (chars pattern.now) (chars text.now) }
{
    let mut rest = text;
    while !begins_with(rest, pattern) {
        match split_first(rest) {
            None => return false,
            Some((_, back)) => rest = back,
        }
    }
    true
}

/// Whether a text has a pattern that isn't empty, and isn't the text that is shown, if one is.
pub(crate) fn is_wanted(text: &str, pattern: &str, shown: Option<&str>) -> bool
    ensures { result ≡ wanted (chars pattern.now) (option_map (λ other. chars other.now) shown.entry) (chars text.now) }
{
    match shown {
        None => !is_nothing(pattern) && contains(text, pattern),
        Some(other) => !is_same(text, other) && (!is_nothing(pattern) && contains(text, pattern)),
    }
}

/// Two texts, one behind the other.
pub(crate) fn joined<A: Allocator>(
    alloc: A,
    front: &str,
    rest: &str,
) -> Result<String<A>, AllocError>
    requires front { AreRows (chars front.now) }
    requires rest { AreRows (chars rest.now) }
    ensures text { IfOk result (λ new. chars (string_bytes new) ≡ chars front.now ++ chars rest.now) }
    ensures shown { IfOk result (λ new. AreRows (chars (string_bytes new))) }
{
    let mut new = String::from_str(alloc, front)?;
    new.push_str(rest)?;
    Ok(new)
}

/// The text behind a front, of one that begins with it, unless it is the text that is shown.
pub(crate) fn other_rest<'a>(text: &'a str, front: &str, shown: &str) -> Option<&'a str>
    ensures rest { option_map (λ rest. chars rest.now) result ≡ other_rest (chars front.now) (chars shown.now) (chars text.now) }
    ensures shown { AreRows (chars text.now) → IfSome result (λ rest. AreRows (chars rest.now)) }
{
    if is_same(text, shown) {
        return None;
    }
    behind_front(text, front)
}
