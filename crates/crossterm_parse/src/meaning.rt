//! What a whole sequence means.
//!
//! Only crates of this tree use this module, which may change with each version.
ghost use Rattle.std.specs.Prelude.{◌≡◌, ◌≢◌, ◌≤◌, ◌<◌, ◌&&◌, nat_le};
ghost use Rattle.unicode.specs.Binary.{is_uppercase};
ghost use Rattle.bstr.specs.Utf8.{decoded};
ghost use Rattle.crossterm_parse.specs.Mouse.{less};
ghost use Rattle.crossterm_parse.specs.Numbered.{x10_by};
ghost use Rattle.crossterm_parse.specs.Transitions.{reading};
ghost use Rattle.crossterm_parse.specs.Meaning.{pressed_with, typed, single, decoded_character, letter_meaning, after_ss3, after_csi, linux_key, flags_reply, with_alt};

use crate::letters::letter_key;
use crate::mouse::{byte_less, report};
use crate::number::{Number, byte_of};
use crate::uppercase::is_uppercase;
use bstr::decode_utf8;
use crossterm_types::event::{
    Event, InternalEvent, KeyCode, KeyEvent, KeyModifiers, KeyboardEnhancementFlags, MouseEvent,
};
use std::alloc::Allocator;

/// What a sequence means that has no text of its own.
#[derive(Clone, Copy)]
pub enum Meaning {
    Key(KeyEvent),
    Mouse(MouseEvent),
    FocusGained,
    FocusLost,
    /// Column and row, from 0.
    CursorPosition(u16, u16),
    KeyboardEnhancementFlags(KeyboardEnhancementFlags),
    PrimaryDeviceAttributes,
}

impl<A: Allocator> From<Meaning> for InternalEvent<A> {
    ghost use Rattle.crossterm_types.specs.Seen.{seen};
    ghost use Rattle.crossterm_parse.specs.Meaning.{seen_meaning};

    ghost from_gives = { λ meaning event. seen event ≡ seen_meaning meaning };

    fn from(meaning: Meaning) -> InternalEvent<A> {
        match meaning {
            Meaning::Key(key) => InternalEvent::Event(Event::Key(key)),
            Meaning::Mouse(mouse) => InternalEvent::Event(Event::Mouse(mouse)),
            Meaning::FocusGained => InternalEvent::Event(Event::FocusGained),
            Meaning::FocusLost => InternalEvent::Event(Event::FocusLost),
            Meaning::CursorPosition(column, row) => InternalEvent::CursorPosition(column, row),
            Meaning::KeyboardEnhancementFlags(flags) => {
                InternalEvent::KeyboardEnhancementFlags(flags)
            }
            Meaning::PrimaryDeviceAttributes => InternalEvent::PrimaryDeviceAttributes,
        }
    }
}

/// A key that is pressed with these modifiers.
fn pressed_key(code: KeyCode, modifiers: KeyModifiers) -> Meaning
    ensures { result ≡ pressed_with code modifiers.0 }
{
    Meaning::Key(KeyEvent::new(code, modifiers))
}

/// A key that is pressed alone.
pub fn pressed_alone(code: KeyCode) -> Meaning
    ensures { result ≡ pressed_with code 0 }
{
    pressed_key(code, KeyModifiers::NONE)
}

/// Whether the byte is one of `A` to `Z`.
fn is_capital(byte: u8) -> bool
    ensures { result ≡ nat_le 65 byte && nat_le byte 90 }
{
    matches!(byte, b'A'..=b'Z')
}

/// Whether a character is upper case, by Unicode's property `Uppercase`.
#[inline(always)]
fn is_upper(c: char) -> bool
    ensures { result ≡ is_uppercase c }
{
    let code = c as u32;
    if code < 127 {
        is_capital(code as u8)
    } else {
        is_uppercase(c)
    }
}

/// The key of a character that was typed: with SHIFT if it is upper case.
#[inline(always)]
pub fn typed_key(c: char) -> KeyEvent
    ensures { Meaning.Key result ≡ typed c }
{
    let modifiers = if is_upper(c) {
        KeyModifiers::SHIFT
    } else {
        KeyModifiers::NONE
    };
    KeyEvent::new(KeyCode::Char(c), modifiers)
}

/// A character that was typed.
pub fn typed_character(c: char) -> Meaning
    ensures { result ≡ typed c }
{
    Meaning::Key(typed_key(c))
}

/// The key of a byte from space to tilde.
pub fn ascii_key(byte: u8) -> KeyEvent
    requires { (32 ≤ byte) × (byte < 127) }
    ensures { Meaning.Key result ≡ typed byte }
{
    let modifiers = if is_capital(byte) {
        KeyModifiers::SHIFT
    } else {
        KeyModifiers::NONE
    };
    KeyEvent::new(KeyCode::Char(byte as char), modifiers)
}

/// The key of a byte below 128 that isn't ESC: a control byte, one from space to tilde, or DEL.
pub fn byte_key(byte: u8, raw: bool) -> KeyEvent
    requires { (byte < 128) × (byte ≢ 27) }
    ensures { single raw byte ≡ Some (Meaning.Key result) }
{
    match byte {
        0 => KeyEvent::new(KeyCode::Char(' '), KeyModifiers::CONTROL),
        9 => KeyEvent::new(KeyCode::Tab, KeyModifiers::NONE),
        10 if raw => KeyEvent::new(KeyCode::Char('j'), KeyModifiers::CONTROL),
        10 | 13 => KeyEvent::new(KeyCode::Enter, KeyModifiers::NONE),
        1..=26 => KeyEvent::new(
            KeyCode::Char((byte - 1 + b'a') as char),
            KeyModifiers::CONTROL,
        ),
        28..=31 => KeyEvent::new(
            KeyCode::Char((byte - 28 + b'4') as char),
            KeyModifiers::CONTROL,
        ),
        32..=126 => ascii_key(byte),
        _ => KeyEvent::new(KeyCode::Backspace, KeyModifiers::NONE),
    }
}

/// What a byte means by itself.
pub fn meaning_of_byte(byte: u8, raw: bool) -> Option<Meaning>
    ensures { result ≡ single raw byte }
{
    match byte {
        27 | 128..=255 => None,
        _ => Some(Meaning::Key(byte_key(byte, raw))),
    }
}

/// The same key with ALT.
pub fn plus_alt(meaning: Option<Meaning>) -> Option<Meaning>
    ensures { result ≡ with_alt meaning }
{
    match meaning {
        Some(Meaning::Key(key)) => Some(Meaning::Key(KeyEvent {
            modifiers: key.modifiers | KeyModifiers::ALT,
            ..key
        })),
        _ => None,
    }
}

/// A column or a row of a byte.
fn place_in(byte: u8) -> Option<u16>
    ensures { result ≡ less 33 byte }
{
    match byte_less(33, byte) {
        Some(place) => Some(u16::from(place)),
        None => None,
    }
}

/// What a final letter means by itself.
fn meaning_of_letter(last: u8) -> Option<Meaning>
    ensures { result ≡ letter_meaning last }
{
    match letter_key(last) {
        Some(code) => Some(pressed_alone(code)),
        None => None,
    }
}

/// What the last byte of `ESC O b` means.
pub fn meaning_after_ss3(byte: u8) -> Option<Meaning>
    ensures { result ≡ after_ss3 byte }
{
    match byte {
        b'R' => Some(pressed_alone(KeyCode::F(3))),
        _ => meaning_of_letter(byte),
    }
}

/// What the last byte of `ESC [ b` means.
pub fn meaning_after_csi(byte: u8) -> Option<Meaning>
    ensures { result ≡ after_csi byte }
{
    match byte {
        b'I' => Some(Meaning::FocusGained),
        b'O' => Some(Meaning::FocusLost),
        b'Z' => Some(pressed_key(KeyCode::BackTab, KeyModifiers::SHIFT)),
        _ => meaning_of_letter(byte),
    }
}

/// What the three bytes after `ESC [ M` mean.
pub fn meaning_of_x10(code: u8, column: u8, row: u8) -> Option<Meaning>
    ensures { result ≡ x10_by code column row }
{
    let column = place_in(column);
    match report(byte_less(32, code), column, place_in(row)) {
        Some(event) => Some(Meaning::Mouse(event)),
        None => None,
    }
}

/// What the last byte of `ESC [ [ b` means.
pub fn meaning_of_linux_key(byte: u8) -> Option<Meaning>
    ensures { result ≡ linux_key byte }
{
    match byte {
        b'A'..=b'E' => Some(pressed_alone(KeyCode::F(byte - b'@'))),
        _ => None,
    }
}

/// The flags that a reply reports by the number that its text is: none if that isn't one of 8 bits.
pub fn meaning_of_flags(number: Number) -> Option<Meaning>
    ensures { result ≡ flags_reply (reading number) }
{
    match byte_of(number.value()) {
        Some(bits) => Some(Meaning::KeyboardEnhancementFlags(
            KeyboardEnhancementFlags::from_bits_retain(bits & 31),
        )),
        None => None,
    }
}

/// What the bytes of a character mean: that character, or nothing if they are none.
pub fn meaning_of_character(bytes: &[u8]) -> Option<Meaning>
    ensures { result ≡ decoded_character (decoded bytes.now).char }
{
    match decode_utf8(bytes) {
        (Some(c), _) => Some(typed_character(c)),
        (None, _) => None,
    }
}
