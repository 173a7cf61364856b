//! The keys of code points: kitty's keyboard protocol, `CSI u`.
ghost use Rattle.std.specs.Prelude.{◌≡◌, ◌≤◌};
ghost use Rattle.crossterm_parse.specs.Functional.{plain_key, keypad_key, modifier_key, lock_code, keypad_code, media_code, modifier_code, char_of, text_code, functional_key};

use crossterm_types::event::{KeyCode, KeyEventState, KeyModifiers, MediaKeyCode, ModifierKeyCode};

/// A key, with the modifiers and the state that it has by itself.
#[derive(Clone, Copy)]
pub struct FunctionalKey {
    pub code: KeyCode,
    pub modifiers: KeyModifiers,
    pub state: KeyEventState,
}

fn plain(code: KeyCode) -> FunctionalKey
    ensures { result ≡ plain_key code }
{
    FunctionalKey {
        code,
        modifiers: KeyModifiers::NONE,
        state: KeyEventState::NONE,
    }
}

fn on_keypad(code: KeyCode) -> FunctionalKey
    ensures { result ≡ keypad_key code }
{
    FunctionalKey {
        code,
        modifiers: KeyModifiers::NONE,
        state: KeyEventState::KEYPAD,
    }
}

fn adding(code: ModifierKeyCode, modifiers: KeyModifiers) -> FunctionalKey
    ensures { result ≡ modifier_key code modifiers.0 }
{
    FunctionalKey {
        code: KeyCode::Modifier(code),
        modifiers,
        state: KeyEventState::NONE,
    }
}

fn lock_key(point: u32) -> KeyCode
    ensures { result ≡ lock_code point }
{
    match point {
        57358 => KeyCode::CapsLock,
        57359 => KeyCode::ScrollLock,
        57360 => KeyCode::NumLock,
        57361 => KeyCode::PrintScreen,
        57362 => KeyCode::Pause,
        _ => KeyCode::Menu,
    }
}

fn keypad(point: u32) -> KeyCode
    requires { 57399 ≤ point }
    ensures { result ≡ keypad_code point }
{
    match point {
        0..=57408 => KeyCode::Char((point - 57399 + 48) as u8 as char),
        57409 => KeyCode::Char('.'),
        57410 => KeyCode::Char('/'),
        57411 => KeyCode::Char('*'),
        57412 => KeyCode::Char('-'),
        57413 => KeyCode::Char('+'),
        57414 => KeyCode::Enter,
        57415 => KeyCode::Char('='),
        57416 => KeyCode::Char(','),
        57417 => KeyCode::Left,
        57418 => KeyCode::Right,
        57419 => KeyCode::Up,
        57420 => KeyCode::Down,
        57421 => KeyCode::PageUp,
        57422 => KeyCode::PageDown,
        57423 => KeyCode::Home,
        57424 => KeyCode::End,
        57425 => KeyCode::Insert,
        57426 => KeyCode::Delete,
        _ => KeyCode::KeypadBegin,
    }
}

fn media_key(point: u32) -> MediaKeyCode
    ensures { result ≡ media_code point }
{
    match point {
        57428 => MediaKeyCode::Play,
        57429 => MediaKeyCode::Pause,
        57430 => MediaKeyCode::PlayPause,
        57431 => MediaKeyCode::Reverse,
        57432 => MediaKeyCode::Stop,
        57433 => MediaKeyCode::FastForward,
        57434 => MediaKeyCode::Rewind,
        57435 => MediaKeyCode::TrackNext,
        57436 => MediaKeyCode::TrackPrevious,
        57437 => MediaKeyCode::Record,
        57438 => MediaKeyCode::LowerVolume,
        57439 => MediaKeyCode::RaiseVolume,
        _ => MediaKeyCode::MuteVolume,
    }
}

fn modifier_key_of(point: u32) -> FunctionalKey
    ensures { result ≡ modifier_code point }
{
    match point {
        57441 => adding(ModifierKeyCode::LeftShift, KeyModifiers::SHIFT),
        57442 => adding(ModifierKeyCode::LeftControl, KeyModifiers::CONTROL),
        57443 => adding(ModifierKeyCode::LeftAlt, KeyModifiers::ALT),
        57444 => adding(ModifierKeyCode::LeftSuper, KeyModifiers::SUPER),
        57445 => adding(ModifierKeyCode::LeftHyper, KeyModifiers::HYPER),
        57446 => adding(ModifierKeyCode::LeftMeta, KeyModifiers::META),
        57447 => adding(ModifierKeyCode::RightShift, KeyModifiers::SHIFT),
        57448 => adding(ModifierKeyCode::RightControl, KeyModifiers::CONTROL),
        57449 => adding(ModifierKeyCode::RightAlt, KeyModifiers::ALT),
        57450 => adding(ModifierKeyCode::RightSuper, KeyModifiers::SUPER),
        57451 => adding(ModifierKeyCode::RightHyper, KeyModifiers::HYPER),
        57452 => adding(ModifierKeyCode::RightMeta, KeyModifiers::META),
        57453 => adding(ModifierKeyCode::IsoLevel3Shift, KeyModifiers::NONE),
        _ => adding(ModifierKeyCode::IsoLevel5Shift, KeyModifiers::NONE),
    }
}

/// The character of a code point, if it is one.
pub fn character(point: u32) -> Option<char>
    ensures { result ≡ char_of point }
{
    char::from_u32(point)
}

fn text_key(point: u32, raw: bool, shift: bool) -> Option<KeyCode>
    ensures { result ≡ text_code raw shift point }
{
    match point {
        27 => Some(KeyCode::Esc),
        13 => Some(KeyCode::Enter),
        127 => Some(KeyCode::Backspace),
        10 if raw => Some(KeyCode::Char('\n')),
        10 => Some(KeyCode::Enter),
        9 if shift => Some(KeyCode::BackTab),
        9 => Some(KeyCode::Tab),
        _ => match character(point) {
            Some(c) => Some(KeyCode::Char(c)),
            None => None,
        },
    }
}

/// The key of a code point, or nothing if it is no character.
pub fn key_of_point(point: u32, raw: bool, shift: bool) -> Option<FunctionalKey>
    ensures { result ≡ functional_key raw shift point }
{
    match point {
        57358..=57363 => Some(plain(lock_key(point))),
        57376..=57398 => Some(plain(KeyCode::F((point - 57363) as u8))),
        57399..=57427 => Some(on_keypad(keypad(point))),
        57428..=57440 => Some(plain(KeyCode::Media(media_key(point)))),
        57441..=57454 => Some(modifier_key_of(point)),
        _ => match text_key(point, raw, shift) {
            Some(code) => Some(plain(code)),
            None => None,
        },
    }
}
