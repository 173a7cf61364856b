//! The modifier field of a numbered sequence: which modifiers and locks were on, and whether the key was pressed, repeated or released.
ghost use Rattle.std.specs.Prelude.{◌≡◌, Some};
ghost use Rattle.crossterm_parse.specs.Bits.{where_bit};
ghost use Rattle.crossterm_parse.specs.ModifierField.{mask_modifiers, mask_state, press_kind, modifier_field, empty_modifier_field, fallback};

use crossterm_types::event::{KeyEventKind, KeyEventState, KeyModifiers};

/// What the modifier field means.
#[derive(Clone, Copy)]
pub struct ModifierField {
    pub modifiers: KeyModifiers,
    pub kind: KeyEventKind,
    pub state: KeyEventState,
}

/// A value if a bit is there, else nothing.
pub fn value_of_bit(bits: u8, bit: u8, value: u8) -> u8
    ensures { result ≡ where_bit bits bit value }
{
    if bits & bit == bit { value } else { 0 }
}

/// The modifiers of a mask.
fn modifiers_in(mask: u8) -> KeyModifiers
    ensures { result.0 ≡ mask_modifiers mask }
{
    let bits = mask.saturating_sub(1);
    let low = value_of_bit(bits, 1, 1) | value_of_bit(bits, 2, 4);
    let middle = value_of_bit(bits, 4, 2) | value_of_bit(bits, 8, 8);
    let high = value_of_bit(bits, 16, 16) | value_of_bit(bits, 32, 32);
    KeyModifiers::from_bits_retain(low | middle | high)
}

/// The state of a mask.
fn state_in(mask: u8) -> KeyEventState
    ensures { result.0 ≡ mask_state mask }
{
    let locks = mask.saturating_sub(1);
    KeyEventState::from_bits_retain(value_of_bit(locks, 64, 2) | value_of_bit(locks, 128, 4))
}

fn kind_in(kind: Option<u8>) -> KeyEventKind
    ensures { result ≡ press_kind kind }
{
    match kind {
        Some(2) => KeyEventKind::Repeat,
        Some(3) => KeyEventKind::Release,
        _ => KeyEventKind::Press,
    }
}

impl ModifierField {
    /// No modifier, and pressed.
    pub fn empty() -> ModifierField
        ensures { result ≡ empty_modifier_field }
    {
        ModifierField {
            modifiers: KeyModifiers::NONE,
            kind: KeyEventKind::Press,
            state: KeyEventState::NONE,
        }
    }

    /// What a mask and a kind mean, or nothing if there is no mask.
    pub fn read(mask: Option<u8>, kind: Option<u8>) -> Option<ModifierField>
        ensures { result ≡ modifier_field mask kind }
    {
        match mask {
            Some(mask) => Some(ModifierField {
                modifiers: modifiers_in(mask),
                kind: kind_in(kind),
                state: state_in(mask),
            }),
            None => None,
        }
    }

    /// What the last byte means if the field can't be read: it is the mask, if it is a digit.
    pub fn fallback(last: u8) -> Option<ModifierField>
        ensures { result ≡ fallback last }
    {
        match last {
            b'0'..=b'9' => ModifierField::read(Some(last - b'0'), None),
            _ => None,
        }
    }
}
