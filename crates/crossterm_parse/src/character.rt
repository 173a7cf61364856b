//! A character in UTF-8 that is open.
//!
//! Only crates of this tree use this module, which may change with each version.
ghost use Rattle.std.specs.Prelude.{◌≡◌, ◌∷◌, [], ◌++◌, false, IfSome, IsTrue, IsFalse};
ghost use Rattle.bstr.specs.Utf8.{decoded};
ghost use Rattle.crossterm_parse.specs.Tracking.{begun_bytes};
ghost use Rattle.crossterm_parse.specs.Recognizer.{is_lead, is_continuing, further_after};
ghost use Rattle.crossterm_parse.specs.Transitions.{IsCharacterOf, More, open_character_meaning, grown, over};

use crate::meaning::{Meaning, plus_alt, typed_character};
use bstr::decode_utf8;

/// The bytes of a character so far.
#[derive(Clone, Copy)]
pub struct Character {
    /// Whether an escape precedes them.
    pub escaped: bool,
    pub begun: Begun,
}

/// One to three bytes, the first of which leads a character.
#[derive(Clone, Copy)]
pub enum Begun {
    One(u8),
    Two(u8, u8),
    Three(u8, u8, u8),
}

/// Whether the byte leads a character.
pub fn is_lead_byte(byte: u8) -> bool
    ensures { result ≡ is_lead byte }
{
    matches!(byte, 0xC0..=0xF7)
}

/// Whether the byte continues a character.
pub fn is_continuing_byte(byte: u8) -> bool
    ensures { result ≡ is_continuing byte }
{
    matches!(byte, 0x80..=0xBF)
}

/// How many more bytes continue a character after the first that does.
pub fn further_bytes(lead: u8) -> u8
    ensures { result ≡ further_after lead }
{
    match lead {
        0..=0xDF => 0,
        0xE0..=0xEF => 1,
        _ => 2,
    }
}

/// The character in UTF-8 in front, of two bytes or more, and how many it has.
#[inline(never)]
fn any_character_in(bytes: &[u8]) -> Option<(char, usize)>
    ensures { IfSome result (λ it. IsCharacterOf bytes.now it.0 it.1) }
{
    match decode_utf8(bytes) {
        (Some(c), size) if size > 1 => Some((c, size)),
        _ => None,
    }
}

/// The character in UTF-8 in front, if it has two or three bytes, and a byte or more follows.
#[inline(always)]
fn short_character_in(bytes: &[u8]) -> Option<(char, usize)>
    ensures { IfSome result (λ it. IsCharacterOf bytes.now it.0 it.1) }
{
    if bytes.len() < 3 || !is_continuing_byte(bytes[1]) {
        return None;
    }
    let (lead, second) = (bytes[0], u32::from(bytes[1] - 0x80));
    if lead < 0xE0 {
        if lead < 0xC2 {
            return None;
        }
        return Some((char::from_u32(u32::from(lead - 0xC0) * 64 + second)?, 2));
    }
    if lead >= 0xF0 || !is_continuing_byte(bytes[2]) {
        return None;
    }
    let code = (u32::from(lead - 0xE0) * 64 + second) * 64 + u32::from(bytes[2] - 0x80);
    if code < 0x800 {
        return None;
    }
    Some((char::from_u32(code)?, 3))
}

/// The character in UTF-8 in front, of two bytes or more, and how many it has.
#[inline(always)]
pub(crate) fn character_in(bytes: &[u8]) -> Option<(char, usize)>
    ensures { IfSome result (λ it. IsCharacterOf bytes.now it.0 it.1) }
{
    match short_character_in(bytes) {
        Some(found) => Some(found),
        None => any_character_in(bytes),
    }
}

impl Begun {
    /// The character of the bytes with one more.
    pub fn character_with(self, byte: u8) -> Option<char>
        ensures { result ≡ (decoded (begun_bytes self ++ byte ∷ [])).char }
    {
        match self {
            Begun::One(lead) => decode_utf8(&[lead, byte]).0,
            Begun::Two(lead, second) => decode_utf8(&[lead, second, byte]).0,
            Begun::Three(lead, second, third) => decode_utf8(&[lead, second, third, byte]).0,
        }
    }
}

impl Character {
    /// What the character means that is over with the byte.
    pub fn meaning(&self, byte: u8) -> Option<Meaning>
        ensures { result ≡ open_character_meaning self.now byte }
    {
        let meaning = match self.begun.character_with(byte) {
            Some(c) => Some(typed_character(c)),
            None => None,
        };
        if self.escaped {
            plus_alt(meaning)
        } else {
            meaning
        }
    }

    /// Takes one more byte, if the character goes on with it, and returns whether it does.
    pub fn put(&mut self, byte: u8) -> bool
        ensures yes { IsTrue result → grown self.old.escaped self.old.begun byte ≡ More self.new.begun }
        ensures escaped { self.new.escaped ≡ self.old.escaped }
        ensures no { IsFalse result → grown self.old.escaped self.old.begun byte ≡ over self.old.escaped (decoded (begun_bytes self.old.begun ++ byte ∷ [])).char }
        ensures same { IsFalse result → self.new ≡ self.old }
    {
        if !is_continuing_byte(byte) {
            return false;
        }
        match self.begun {
            Begun::One(lead) if further_bytes(lead) > 0 => {
                self.begun = Begun::Two(lead, byte);
                true
            }
            Begun::Two(lead, second) if further_bytes(lead) > 1 => {
                self.begun = Begun::Three(lead, second, byte);
                true
            }
            _ => false,
        }
    }
}
