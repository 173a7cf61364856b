//! What is read of a numbered sequence, and what that means.
//!
//! Only crates of this tree use this module, which may change with each version.
ghost use Rattle.std.specs.Prelude.{◌≡◌};
ghost use Rattle.crossterm_parse.specs.Mouse.{less, mouse_report};
ghost use Rattle.crossterm_parse.specs.Number.{coordinate};
ghost use Rattle.crossterm_parse.specs.ModifierField.{or_empty_modifier_field};
ghost use Rattle.crossterm_parse.specs.Numbered.{key_with, modifier_field_of, tilde_code, tilde_meaning, cursor_meaning, numbered_letter, bits_have_shift, functional_meaning, code_meaning, rxvt_meaning, sgr_by, numbered_by};

use crate::functional::{FunctionalKey, character, key_of_point};
use crate::letters::letter_key;
use crate::meaning::Meaning;
use crate::modifier_field::ModifierField;
use crate::mouse::{byte_less, ended_by, report};
use crate::number::byte_of;
use crossterm_types::event::{KeyCode, KeyEvent, KeyEventState, KeyModifiers, MouseEvent};

/// What is read of a numbered sequence, from its first digit to before its final byte.
#[derive(Clone, Copy)]
pub struct Readings {
    /// The first field, as one number.
    pub first: Option<u32>,
    /// The second field, as one number.
    pub second: Option<u32>,
    /// The third field, as one number.
    pub third: Option<u32>,
    /// The first part of the first field: a code point.
    pub code: Option<u32>,
    /// The second part of the first field: the code point's alternate.
    pub alternate: Option<u32>,
    /// The first part of the second field: the mask of the modifiers.
    pub mask: Option<u32>,
    /// The second part of the second field: the kind.
    pub kind: Option<u32>,
    /// The last byte.
    pub last: u8,
    /// Whether the bytes are UTF-8.
    pub utf8: bool,
}

fn key_with_modifiers(code: KeyCode, modifier_field: ModifierField) -> Meaning
    ensures { result ≡ key_with code modifier_field }
{
    Meaning::Key(KeyEvent {
        code,
        modifiers: modifier_field.modifiers,
        kind: modifier_field.kind,
        state: modifier_field.state,
    })
}

/// The key of a number before the final `~`.
fn tilde_key(number: u8) -> Option<KeyCode>
    ensures { result ≡ tilde_code number }
{
    match number {
        1 | 7 => Some(KeyCode::Home),
        2 => Some(KeyCode::Insert),
        3 => Some(KeyCode::Delete),
        4 | 8 => Some(KeyCode::End),
        5 => Some(KeyCode::PageUp),
        6 => Some(KeyCode::PageDown),
        11..=15 => Some(KeyCode::F(number - 10)),
        17..=21 => Some(KeyCode::F(number - 11)),
        23..=26 => Some(KeyCode::F(number - 12)),
        28..=29 => Some(KeyCode::F(number - 15)),
        31..=34 => Some(KeyCode::F(number - 17)),
        _ => None,
    }
}

/// A coordinate, counted from 0, of a number that counts from 1.
#[inline(always)]
fn coordinate_of(number: Option<u32>) -> Option<u16>
    ensures { result ≡ coordinate number }
{
    match number {
        Some(place) if place > 0 && place <= 65535 => Some((place - 1) as u16),
        _ => None,
    }
}

/// A key of a code point, with its modifier field, and with its alternate if SHIFT is there.
fn meaning_of_functional(
    modifier_field: ModifierField,
    alternate: Option<u32>,
    key: FunctionalKey,
) -> Meaning
    ensures { result ≡ functional_meaning modifier_field alternate key }
{
    let modifiers = modifier_field.modifiers | key.modifiers;
    let state = modifier_field.state | key.state;
    let shifted = match alternate {
        Some(point) if modifiers.contains(KeyModifiers::SHIFT) => character(point),
        _ => None,
    };
    Meaning::Key(match shifted {
        Some(c) => KeyEvent {
            code: KeyCode::Char(c),
            modifiers: KeyModifiers::from_bits_retain(modifiers.bits() & 0xFE),
            kind: modifier_field.kind,
            state,
        },
        None => KeyEvent {
            code: key.code,
            modifiers,
            kind: modifier_field.kind,
            state,
        },
    })
}

impl Readings {
    #[inline(always)]
    fn modifier_field(&self) -> Option<ModifierField>
        ensures { result ≡ modifier_field_of self.now }
    {
        ModifierField::read(byte_of(self.mask), byte_of(self.kind))
    }

    #[inline(always)]
    fn modifier_field_or_empty(&self) -> ModifierField
        ensures { result ≡ or_empty_modifier_field (modifier_field_of self.now) }
    {
        match self.modifier_field() {
            Some(modifier_field) => modifier_field,
            None => ModifierField::empty(),
        }
    }

    #[inline(always)]
    fn tilde(&self) -> Option<Meaning>
        ensures { result ≡ tilde_meaning self.now }
    {
        let code = tilde_key(byte_of(self.first)?)?;
        Some(key_with_modifiers(code, self.modifier_field_or_empty()))
    }

    #[inline(always)]
    fn code_point(&self, raw: bool) -> Option<Meaning>
        ensures { result ≡ code_meaning raw self.now }
    {
        let modifier_field = self.modifier_field_or_empty();
        let shift = modifier_field.modifiers.contains(KeyModifiers::SHIFT);
        let key = key_of_point(self.code?, raw, shift)?;
        Some(meaning_of_functional(modifier_field, self.alternate, key))
    }

    #[inline(always)]
    fn cursor(&self) -> Option<Meaning>
        ensures { result ≡ cursor_meaning self.now }
    {
        let row = coordinate_of(self.first)?;
        let column = coordinate_of(self.second)?;
        Some(Meaning::CursorPosition(column, row))
    }

    #[inline(always)]
    fn mouse(&self, code: Option<u8>) -> Option<MouseEvent>
        ensures { result ≡ mouse_report code (coordinate self.now.second) (coordinate self.now.third) }
    {
        let column = coordinate_of(self.second);
        report(code, column, coordinate_of(self.third))
    }

    #[inline(always)]
    fn rxvt(&self) -> Option<Meaning>
        ensures { result ≡ rxvt_meaning self.now }
    {
        let code = match byte_of(self.first) {
            Some(code) => byte_less(32, code),
            None => None,
        };
        match self.mouse(code) {
            Some(event) => Some(Meaning::Mouse(event)),
            None => None,
        }
    }

    /// What a report of the mouse after `ESC [ <` means with this final byte.
    #[inline(always)]
    pub fn sgr(&self, last: u8) -> Option<Meaning>
        ensures { result ≡ sgr_by last self.now }
    {
        if !self.utf8 {
            return None;
        }
        match self.mouse(byte_of(self.first)) {
            Some(event) => Some(Meaning::Mouse(ended_by(last, event))),
            None => None,
        }
    }

    #[inline(always)]
    fn letter(&self, last: u8) -> Option<Meaning>
        ensures { result ≡ numbered_letter last self.now }
    {
        let code = letter_key(last)?;
        let modifier_field = match self.modifier_field() {
            Some(modifier_field) => modifier_field,
            None => ModifierField::fallback(self.last)?,
        };
        Some(key_with_modifiers(
            code,
            ModifierField {
                state: KeyEventState::NONE,
                ..modifier_field
            },
        ))
    }

    /// What the sequence means with this final byte.
    #[inline(always)]
    pub fn meaning(&self, last: u8, raw: bool) -> Option<Meaning>
        ensures { result ≡ numbered_by raw last self.now }
    {
        if !self.utf8 {
            return None;
        }
        match last {
            b'~' => self.tilde(),
            b'u' => self.code_point(raw),
            b'R' => self.cursor(),
            b'M' => self.rxvt(),
            _ => self.letter(last),
        }
    }
}
