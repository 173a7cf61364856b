//! The event of some numbers.
ghost use Rattle.std.specs.Prelude.{◌≡◌, ◌&&◌, Some, slice_get};
ghost use Rattle.std.specs.Option.{option_map};
ghost use Rattle.crossterm_types.specs.Seen.{seen};
ghost use Rattle.numbers.specs.Event.{button_at, char_at, code_at, done_at, event_known, function_at, key_known, key_list, media_list, modifier_list, mouse_known, no_code, no_flags, no_place, no_press, only_if, press_at, with_button, without_button};

use crate::event::GelvanhEvent;
use crossterm_types::event::{
    Event, InternalEvent, KeyCode, KeyEvent, KeyEventKind, KeyEventState, KeyModifiers,
    KeyboardEnhancementFlags, MediaKeyCode, ModifierKeyCode, MouseButton, MouseEvent,
    MouseEventKind,
};
use std::alloc::Allocator;

/// A key of a media keyboard, by its place in crossterm's enum.
fn media_of(value: u32) -> Option<MediaKeyCode>
    ensures { result ≡ slice_get media_list value }
{
    match value {
        0 => Some(MediaKeyCode::Play),
        1 => Some(MediaKeyCode::Pause),
        2 => Some(MediaKeyCode::PlayPause),
        3 => Some(MediaKeyCode::Reverse),
        4 => Some(MediaKeyCode::Stop),
        5 => Some(MediaKeyCode::FastForward),
        6 => Some(MediaKeyCode::Rewind),
        7 => Some(MediaKeyCode::TrackNext),
        8 => Some(MediaKeyCode::TrackPrevious),
        9 => Some(MediaKeyCode::Record),
        10 => Some(MediaKeyCode::LowerVolume),
        11 => Some(MediaKeyCode::RaiseVolume),
        12 => Some(MediaKeyCode::MuteVolume),
        _ => None,
    }
}

/// A modifier key, by its place in crossterm's enum.
fn modifier_of(value: u32) -> Option<ModifierKeyCode>
    ensures { result ≡ slice_get modifier_list value }
{
    match value {
        0 => Some(ModifierKeyCode::LeftShift),
        1 => Some(ModifierKeyCode::LeftControl),
        2 => Some(ModifierKeyCode::LeftAlt),
        3 => Some(ModifierKeyCode::LeftSuper),
        4 => Some(ModifierKeyCode::LeftHyper),
        5 => Some(ModifierKeyCode::LeftMeta),
        6 => Some(ModifierKeyCode::RightShift),
        7 => Some(ModifierKeyCode::RightControl),
        8 => Some(ModifierKeyCode::RightAlt),
        9 => Some(ModifierKeyCode::RightSuper),
        10 => Some(ModifierKeyCode::RightHyper),
        11 => Some(ModifierKeyCode::RightMeta),
        12 => Some(ModifierKeyCode::IsoLevel3Shift),
        13 => Some(ModifierKeyCode::IsoLevel5Shift),
        _ => None,
    }
}

/// A key that has a number of its own.
fn listed_key(code: u16) -> Option<KeyCode>
    ensures { result ≡ slice_get key_list code }
{
    match code {
        0 => Some(KeyCode::Backspace),
        1 => Some(KeyCode::Enter),
        2 => Some(KeyCode::Left),
        3 => Some(KeyCode::Right),
        4 => Some(KeyCode::Up),
        5 => Some(KeyCode::Down),
        6 => Some(KeyCode::Home),
        7 => Some(KeyCode::End),
        8 => Some(KeyCode::PageUp),
        9 => Some(KeyCode::PageDown),
        10 => Some(KeyCode::Tab),
        11 => Some(KeyCode::BackTab),
        12 => Some(KeyCode::Delete),
        13 => Some(KeyCode::Insert),
        14 => Some(KeyCode::F(0)),
        15 => Some(KeyCode::Char('\0')),
        16 => Some(KeyCode::Null),
        17 => Some(KeyCode::Esc),
        18 => Some(KeyCode::CapsLock),
        19 => Some(KeyCode::ScrollLock),
        20 => Some(KeyCode::NumLock),
        21 => Some(KeyCode::PrintScreen),
        22 => Some(KeyCode::Pause),
        23 => Some(KeyCode::Menu),
        24 => Some(KeyCode::KeypadBegin),
        _ => None,
    }
}

/// A function key.
fn function_key(value: u32) -> Option<KeyCode>
    ensures { result ≡ function_at value }
{
    if value < 256 {
        Some(KeyCode::F(value as u8))
    } else {
        None
    }
}

/// A character, if Unicode has one there.
fn char_of(value: u32) -> Option<char>
    ensures { result ≡ char_at value }
{
    char::from_u32(value)
}

/// The key of two numbers.
fn code_of(code: u16, value: u32) -> Option<KeyCode>
    ensures { result ≡ code_at code value }
{
    if code == 25 {
        match media_of(value) {
            Some(key) => Some(KeyCode::Media(key)),
            None => None,
        }
    } else if code == 26 {
        match modifier_of(value) {
            Some(key) => Some(KeyCode::Modifier(key)),
            None => None,
        }
    } else if code == 14 {
        function_key(value)
    } else if code == 15 {
        match char_of(value) {
            Some(c) => Some(KeyCode::Char(c)),
            None => None,
        }
    } else if value == 0 {
        listed_key(code)
    } else {
        None
    }
}

/// Whether a key was pressed, held or let go.
fn press_of(press: u8) -> Option<KeyEventKind>
    ensures { result ≡ press_at press }
{
    match press {
        0 => Some(KeyEventKind::Press),
        1 => Some(KeyEventKind::Repeat),
        2 => Some(KeyEventKind::Release),
        _ => None,
    }
}

/// The key event of some numbers, whatever their kind, or `None` if they are no key's: its key or its press is unknown, or a number is set
/// that a key hasn't.
///
/// ```
/// let key = key_of(&GelvanhEvent { code: 15, value: 97, ..GelvanhEvent::default() });
/// assert_eq!(rt; key, Some(KeyEvent::from(KeyCode::Char('a'))));
/// ```
pub fn key_of(event: &GelvanhEvent) -> Option<KeyEvent>
    ensures { result ≡ key_known event.now }
{
    if !(event.has_no_place() && event.has_no_flags()) {
        return None;
    }
    match code_of(event.code, event.value) {
        Some(code) => match press_of(event.press) {
            Some(kind) => Some(KeyEvent {
                code,
                modifiers: KeyModifiers::from_bits_retain(event.modifiers),
                kind,
                state: KeyEventState::from_bits_retain(event.state),
            }),
            None => None,
        },
        None => None,
    }
}

/// A button of the mouse.
fn button_of(value: u32) -> Option<MouseButton>
    ensures { result ≡ button_at value }
{
    match value {
        0 => Some(MouseButton::Left),
        1 => Some(MouseButton::Right),
        2 => Some(MouseButton::Middle),
        _ => None,
    }
}

/// What the mouse did with a button.
fn pressed(code: u16, button: Option<MouseButton>) -> Option<MouseEventKind>
    ensures { result ≡ with_button code button }
{
    match button {
        Some(button) => match code {
            0 => Some(MouseEventKind::Down(button)),
            1 => Some(MouseEventKind::Up(button)),
            2 => Some(MouseEventKind::Drag(button)),
            _ => None,
        },
        None => None,
    }
}

/// What the mouse did without a button.
fn moved(code: u16) -> Option<MouseEventKind>
    ensures { result ≡ slice_get without_button code }
{
    match code {
        0 => Some(MouseEventKind::Moved),
        1 => Some(MouseEventKind::ScrollDown),
        2 => Some(MouseEventKind::ScrollUp),
        3 => Some(MouseEventKind::ScrollLeft),
        4 => Some(MouseEventKind::ScrollRight),
        _ => None,
    }
}

/// What the mouse did, by two numbers.
fn done_of(code: u16, value: u32) -> Option<MouseEventKind>
    ensures { result ≡ done_at code value }
{
    if code < 3 {
        pressed(code, button_of(value))
    } else if value == 0 {
        moved(code - 3)
    } else {
        None
    }
}

/// The mouse event of some numbers, whatever their kind, or `None` if they are no mouse's: it isn't known what it did, or a number is set
/// that the mouse hasn't.
///
/// ```
/// let moved = mouse_of(&GelvanhEvent { code: 3, column: 19, ..GelvanhEvent::default() });
/// ```
pub fn mouse_of(event: &GelvanhEvent) -> Option<MouseEvent>
    ensures { result ≡ mouse_known event.now }
{
    if !(event.has_no_press() && event.has_no_flags()) {
        return None;
    }
    match done_of(event.code, event.value) {
        Some(kind) => Some(MouseEvent {
            kind,
            column: event.column,
            row: event.row,
            modifiers: KeyModifiers::from_bits_retain(event.modifiers),
        }),
        None => None,
    }
}

/// Whether a place is all that an event has.
fn has_place_alone(event: &GelvanhEvent) -> bool
    ensures { result ≡ (no_code event.now && (no_press event.now && no_flags event.now)) }
{
    event.has_no_code() && (event.has_no_press() && event.has_no_flags())
}

/// Whether flags are all that an event has.
fn has_flags_alone(event: &GelvanhEvent) -> bool
    ensures { result ≡ (no_code event.now && (no_press event.now && no_place event.now)) }
{
    event.has_no_code() && (event.has_no_press() && event.has_no_place())
}

/// An event, if a condition holds.
fn only_if<A: Allocator>(is: bool, event: InternalEvent<A>) -> Option<InternalEvent<A>>
    ensures { option_map seen result ≡ only_if is (Some (seen event)) }
{
    if is { Some(event) } else { None }
}

/// The event or the reply of some numbers, or `None` if they are none's: their kind is unknown or that of a paste, whose text isn't among
/// them, or a number is set that their kind hasn't.
///
/// ```
/// let event: Option<InternalEvent> = event_of(&GelvanhEvent { kind: 1, ..GelvanhEvent::default() });
/// assert_eq!(rt; event, Some(InternalEvent::Event(Event::FocusGained)));
/// ```
pub fn event_of<A: Allocator>(event: &GelvanhEvent) -> Option<InternalEvent<A>>
    ensures { option_map seen result ≡ event_known event.now }
{
    match event.kind {
        1 => only_if(event.is_bare(), InternalEvent::Event(Event::FocusGained)),
        2 => only_if(event.is_bare(), InternalEvent::Event(Event::FocusLost)),
        3 => match key_of(event) {
            Some(key) => Some(InternalEvent::Event(Event::Key(key))),
            None => None,
        },
        4 => match mouse_of(event) {
            Some(mouse) => Some(InternalEvent::Event(Event::Mouse(mouse))),
            None => None,
        },
        6 => only_if(
            has_place_alone(event),
            InternalEvent::CursorPosition(event.column, event.row),
        ),
        7 => only_if(
            has_flags_alone(event),
            InternalEvent::KeyboardEnhancementFlags(KeyboardEnhancementFlags::from_bits_retain(
                event.flags,
            )),
        ),
        8 => only_if(event.is_bare(), InternalEvent::PrimaryDeviceAttributes),
        9 => only_if(
            has_place_alone(event),
            InternalEvent::Event(Event::Resize(event.column, event.row)),
        ),
        _ => None,
    }
}
