//! Chords, as the lines of events spell them.

use crate::fault::Wrong;
use crate::input::number;
use crate::names::by_name;
use crossterm::event::{KeyCode, KeyEvent, KeyModifiers, MediaKeyCode, ModifierKeyCode};

/// The keys that have a name and no field.
static PLAIN: [KeyCode; 23] = [
    KeyCode::Backspace,
    KeyCode::Enter,
    KeyCode::Left,
    KeyCode::Right,
    KeyCode::Up,
    KeyCode::Down,
    KeyCode::Home,
    KeyCode::End,
    KeyCode::PageUp,
    KeyCode::PageDown,
    KeyCode::Tab,
    KeyCode::BackTab,
    KeyCode::Delete,
    KeyCode::Insert,
    KeyCode::Null,
    KeyCode::Esc,
    KeyCode::CapsLock,
    KeyCode::ScrollLock,
    KeyCode::NumLock,
    KeyCode::PrintScreen,
    KeyCode::Pause,
    KeyCode::Menu,
    KeyCode::KeypadBegin,
];

static MEDIA: [MediaKeyCode; 13] = [
    MediaKeyCode::Play,
    MediaKeyCode::Pause,
    MediaKeyCode::PlayPause,
    MediaKeyCode::Reverse,
    MediaKeyCode::Stop,
    MediaKeyCode::FastForward,
    MediaKeyCode::Rewind,
    MediaKeyCode::TrackNext,
    MediaKeyCode::TrackPrevious,
    MediaKeyCode::Record,
    MediaKeyCode::LowerVolume,
    MediaKeyCode::RaiseVolume,
    MediaKeyCode::MuteVolume,
];

static MODIFIERS: [ModifierKeyCode; 14] = [
    ModifierKeyCode::LeftShift,
    ModifierKeyCode::LeftControl,
    ModifierKeyCode::LeftAlt,
    ModifierKeyCode::LeftSuper,
    ModifierKeyCode::LeftHyper,
    ModifierKeyCode::LeftMeta,
    ModifierKeyCode::RightShift,
    ModifierKeyCode::RightControl,
    ModifierKeyCode::RightAlt,
    ModifierKeyCode::RightSuper,
    ModifierKeyCode::RightHyper,
    ModifierKeyCode::RightMeta,
    ModifierKeyCode::IsoLevel3Shift,
    ModifierKeyCode::IsoLevel5Shift,
];

/// A character by its code point in lower case hexadecimal digits.
fn character(digits: &str) -> Option<KeyCode> {
    if digits.starts_with('+') || digits.bytes().any(|b| b.is_ascii_uppercase()) {
        return None;
    }
    let point = u32::from_str_radix(digits, 16).ok()?;
    Some(KeyCode::Char(char::from_u32(point)?))
}

/// A function key by its number.
fn function(word: &str) -> Option<KeyCode> {
    Some(KeyCode::F(number(word.strip_prefix('F')?)?))
}

/// A key that has a field, by its kind and what follows the colon.
fn with_field(kind: &str, field: &str) -> Result<KeyCode, Wrong> {
    match kind {
        "Char" => character(field).ok_or(Wrong::Argument),
        "Media" => Ok(KeyCode::Media(by_name(&MEDIA, field)?)),
        "Modifier" => Ok(KeyCode::Modifier(by_name(&MODIFIERS, field)?)),
        _ => Err(Wrong::Argument),
    }
}

fn code(word: &str) -> Result<KeyCode, Wrong> {
    match (word.split_once(':'), function(word)) {
        (Some((kind, field)), _) => with_field(kind, field),
        (None, Some(code)) => Ok(code),
        (None, None) => by_name(&PLAIN, word),
    }
}

/// A chord: a key's code, and the bits of its modifiers.
pub fn chord(word: &str) -> Result<KeyEvent, Wrong> {
    let (name, bits) = word.split_once('/').ok_or(Wrong::Argument)?;
    let bits = number(bits).ok_or(Wrong::Argument)?;
    Ok(KeyEvent::new(code(name)?, KeyModifiers::from_bits_retain(bits)))
}
