//! JSON values of events, keys, the mouse and flags: rows of texts, each read and written again.

use crossterm_types::event::{
    Event, KeyCode, KeyEvent, KeyEventKind, KeyEventState, KeyModifiers, KeyboardEnhancementFlags,
    MediaKeyCode, ModifierKeyCode, MouseButton, MouseEvent, MouseEventKind, ValueFault,
};
use linked_list_allocator::LocalHeap;
use serde_json::Value;
use std::alloc::{AllocError, Global};
use test_support::expect;

/// JSON texts and the keys that they represent.
static KEY_EVENTS: [(&str, KeyEvent); 2] = [
    (
        "{\"Key\":{\"code\":{\"Char\":\"a\"},\"modifiers\":0,\"kind\":\"Press\",\"state\":0}}",
        KeyEvent {
            code: KeyCode::Char('a'),
            modifiers: KeyModifiers::NONE,
            kind: KeyEventKind::Press,
            state: KeyEventState::NONE,
        },
    ),
    (
        "{\"Key\":{\"code\":\"BackTab\",\"modifiers\":1,\"kind\":\"Release\",\"state\":2}}",
        KeyEvent {
            code: KeyCode::BackTab,
            modifiers: KeyModifiers::SHIFT,
            kind: KeyEventKind::Release,
            state: KeyEventState::CAPS_LOCK,
        },
    ),
];

/// JSON texts and what the mouse does by them.
static MOUSE_EVENTS: [(&str, MouseEvent); 2] = [
    (
        "{\"Mouse\":{\"kind\":{\"Down\":\"Left\"},\"column\":19,\"row\":9,\"modifiers\":0}}",
        MouseEvent {
            kind: MouseEventKind::Down(MouseButton::Left),
            column: 19,
            row: 9,
            modifiers: KeyModifiers::NONE,
        },
    ),
    (
        "{\"Mouse\":{\"kind\":\"ScrollUp\",\"column\":0,\"row\":65535,\"modifiers\":4}}",
        MouseEvent {
            kind: MouseEventKind::ScrollUp,
            column: 0,
            row: 65535,
            modifiers: KeyModifiers::ALT,
        },
    ),
];

/// JSON texts that represent no event.
static NONE: [&str; 14] = [
    "{\"Key\":{\"code\":{\"Char\":\"a\"},\"modifiers\":0,\"kind\":\"Press\",\"state\":0,\"more\":0}}",
    "{\"Key\":{\"code\":{\"Char\":\"a\"},\"modifiers\":0,\"kind\":\"Press\"}}",
    "{\"Key\":{\"code\":{\"Char\":\"a\"},\"modifiers\":0,\"kind\":\"Press\",\"State\":0}}",
    "{\"Key\":{\"code\":{\"Char\":\"ab\"},\"modifiers\":0,\"kind\":\"Press\",\"state\":0}}",
    "{\"Key\":{\"code\":{\"F\":256},\"modifiers\":0,\"kind\":\"Press\",\"state\":0}}",
    "{\"Key\":{\"code\":\"F\",\"modifiers\":0,\"kind\":\"Press\",\"state\":0}}",
    "{\"Key\":5}",
    "{\"Resize\":[80]}",
    "{\"Resize\":[80,65536]}",
    "{\"Resize\":[80,24,1]}",
    "{\"Resize\":[80,24],\"Paste\":\"a\"}",
    "{\"Paste\":null}",
    "\"focusgained\"",
    "null",
];

/// Whether a JSON text represents this event, and the event is written as that JSON.
fn carries(alloc: Global, text: &str, event: &Event) -> bool {
    match (Value::from_str(alloc, text), event.to_value(alloc)) {
        (Ok(value), Ok(made)) => {
            made == value
                && match Event::from_value(alloc, &value) {
                    Ok(read) => read == *event,
                    Err(_) => false,
                }
        }
        _ => false,
    }
}

/// Whether a JSON text represents no event.
fn reads_as_none(alloc: Global, text: &str) -> bool {
    match Value::from_str(alloc, text) {
        Ok(value) => matches!(Event::from_value(alloc, &value), Err(ValueFault::Shape)),
        Err(_) => false,
    }
}

#[test]
fn events_are_carried(rt: HostRuntime) {
    for (text, key) in &KEY_EVENTS {
        expect!(rt; carries(rt.alloc(), text, &Event::Key(*key)), text);
    }
    for (text, mouse) in &MOUSE_EVENTS {
        expect!(rt; carries(rt.alloc(), text, &Event::Mouse(*mouse)), text);
    }
    expect!(rt; carries(rt.alloc(), "\"FocusGained\"", &Event::FocusGained));
    expect!(rt; carries(rt.alloc(), "\"FocusLost\"", &Event::FocusLost));
    expect!(rt; carries(rt.alloc(), "{\"Resize\":[80,24]}", &Event::Resize(80, 24)));
}

#[test]
fn other_values_are_no_events(rt: HostRuntime) {
    for text in &NONE {
        expect!(rt; reads_as_none(rt.alloc(), text), text);
    }
}

#[test]
fn pastes_are_carried(rt: HostRuntime) -> Result<(), AllocError> {
    let paste = Event::Paste(String::from_str(rt.alloc(), "a\u{1b}é\n")?);
    expect!(rt; carries(rt.alloc(), "{\"Paste\":\"a\\u001b\u{e9}\\n\"}", &paste));
    Ok(())
}

/// Whether this value was read.
fn is_read<T: PartialEq + Drop>(read: Result<T, ValueFault>, value: &T) -> bool {
    match read {
        Ok(read) => read == *value,
        Err(_) => false,
    }
}

// Whether what a value is written as reads as that value.
macro_rules! carried {
    ($made:expr; $type:ident, $value:expr) => {
        match $made {
            Ok(made) => is_read($type::from_value(&made), &$value),
            Err(_) => false,
        }
    };
}

/// Keys that are written in each form.
static KEYS: [KeyCode; 6] = [
    KeyCode::F(0),
    KeyCode::Char('\u{10ffff}'),
    KeyCode::Char('é'),
    KeyCode::KeypadBegin,
    KeyCode::Media(MediaKeyCode::MuteVolume),
    KeyCode::Modifier(ModifierKeyCode::IsoLevel5Shift),
];

#[test]
fn keys_are_carried(rt: HostRuntime) {
    let alloc = rt.alloc();
    for key in &KEYS {
        expect!(rt; carried!(key.to_value(alloc); KeyCode, *key));
    }
    let kind = KeyEventKind::Repeat;
    expect!(rt; carried!(kind.to_value(alloc); KeyEventKind, kind));
    let media = MediaKeyCode::PlayPause;
    expect!(rt; carried!(media.to_value(alloc); MediaKeyCode, media));
    let modifier = ModifierKeyCode::RightControl;
    expect!(rt; carried!(modifier.to_value(alloc); ModifierKeyCode, modifier));
}

#[test]
fn mouse_parts_are_carried(rt: HostRuntime) {
    let alloc = rt.alloc();
    let button = MouseButton::Middle;
    expect!(rt; carried!(button.to_value(alloc); MouseButton, button));
    let kind = MouseEventKind::Drag(MouseButton::Right);
    expect!(rt; carried!(kind.to_value(alloc); MouseEventKind, kind));
}

#[test]
fn flags_are_carried(rt: HostRuntime) {
    let modifiers = KeyModifiers::from_bits_retain(255);
    expect!(rt; carried!(modifiers.to_value(); KeyModifiers, modifiers));
    let state = KeyEventState::from_bits_retain(128);
    expect!(rt; carried!(state.to_value(); KeyEventState, state));
    let flags = KeyboardEnhancementFlags::from_bits_retain(63);
    expect!(rt; carried!(flags.to_value(); KeyboardEnhancementFlags, flags));
    expect!(rt; matches!(KeyModifiers::from_value(&Value::from(256u16)), Err(ValueFault::Shape)));
}

/// A text for which a small heap has no room.
const LONG: &str =
    "0123456789012345678901234567890123456789012345678901234567890123456789012345678901234567890123456789";

/// Whether the text of a paste is refused memory by a heap without room for it.
fn is_refused(heap: &LocalHeap, paste: &Value) -> bool {
    matches!(Event::from_value(heap, paste), Err(ValueFault::Memory))
}

#[test]
fn a_paste_is_refused_memory(rt: HostRuntime) -> Result<(), AllocError> {
    let paste = Event::Paste(String::from_str(rt.alloc(), LONG)?);
    match paste.to_value(rt.alloc()) {
        Ok(made) => {
            let heap = LocalHeap::new(rt.alloc(), 16)?;
            expect!(rt; is_refused(&heap, &made));
            Ok(())
        }
        Err(_) => Err(AllocError),
    }
}
