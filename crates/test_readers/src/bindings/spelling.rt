//! Chords as people write them.

use crossterm_types::event::{KeyCode, KeyEvent, KeyModifiers, MediaKeyCode, ModifierKeyCode};
use keymap::{ChordFault, Spelled, read_chord};
use std::alloc::Global;
use test_support::{expect, is_text};

/// Keys with their modifiers' bits, and how they are spelled.
static CHORDS: [(KeyCode, u8, &str); 28] = [
    (KeyCode::Char('x'), 2, "ctrl-x"),
    (KeyCode::Char('x'), 0, "x"),
    (KeyCode::Char('G'), 1, "G"),
    (KeyCode::Char('G'), 0, "G"),
    (KeyCode::Char('G'), 3, "ctrl-G"),
    (KeyCode::Char('g'), 1, "shift-g"),
    (KeyCode::Char('-'), 0, "-"),
    (KeyCode::Char('-'), 6, "ctrl-alt--"),
    (KeyCode::Char('+'), 4, "alt-+"),
    (KeyCode::Char(' '), 2, "ctrl-space"),
    (KeyCode::Char('f'), 0, "f"),
    (KeyCode::Char('5'), 0, "5"),
    (KeyCode::Char('é'), 4, "alt-é"),
    (KeyCode::Char('漢'), 0, "漢"),
    (KeyCode::Char('😀'), 8, "super-😀"),
    (KeyCode::F(5), 1, "shift-f5"),
    (KeyCode::F(0), 0, "f0"),
    (KeyCode::F(255), 0, "f255"),
    (KeyCode::Esc, 0, "esc"),
    (KeyCode::PageUp, 1, "shift-pageup"),
    (KeyCode::BackTab, 1, "shift-backtab"),
    (KeyCode::Delete, 6, "ctrl-alt-delete"),
    (KeyCode::KeypadBegin, 16, "hyper-keypadbegin"),
    (KeyCode::Pause, 32, "meta-pause"),
    (KeyCode::Media(MediaKeyCode::Pause), 0, "mediapause"),
    (
        KeyCode::Modifier(ModifierKeyCode::LeftShift),
        1,
        "shift-leftshift",
    ),
    (
        KeyCode::Modifier(ModifierKeyCode::IsoLevel5Shift),
        0,
        "isolevel5shift",
    ),
    (
        KeyCode::Up,
        255,
        "shift-ctrl-alt-super-hyper-meta-mod64-mod128-up",
    ),
];

/// Whether a chord is spelled so, and reads back.
fn is_spelled(alloc: Global, key: KeyEvent, want: &str) -> bool {
    let spelled = Spelled(key);
    is_text(format!(in alloc; "{spelled}"), want) && read_chord(want) == Ok(key)
}

#[test]
fn chords_are_spelled_and_read(rt: HostRuntime) {
    for (code, bits, want) in CHORDS.iter() {
        let key = KeyEvent::new(*code, KeyModifiers::from_bits_retain(*bits));
        expect!(rt; is_spelled(rt.alloc(), key, want), want);
    }
}

/// Other texts that read as a chord.
static READ: [(&str, &str); 5] = [
    ("alt-ctrl-x", "ctrl-alt-x"),
    ("ctrl-ctrl-x", "ctrl-x"),
    ("shift-G", "G"),
    ("f05", "f5"),
    (" ", "space"),
];

#[test]
fn chords_are_read_in_other_words(rt: HostRuntime) {
    for (text, same) in READ.iter() {
        expect!(rt; read_chord(text).is_ok() && read_chord(text) == read_chord(same), text);
    }
}

/// Texts that are no chords.
static FAULTY: [(&str, ChordFault); 20] = [
    ("", ChordFault::Empty),
    ("ctrl-", ChordFault::Empty),
    ("ctrl-alt-", ChordFault::Empty),
    ("control-x", ChordFault::UnknownModifier),
    ("Ctrl-x", ChordFault::UnknownModifier),
    ("x-ctrl", ChordFault::UnknownModifier),
    ("--", ChordFault::UnknownModifier),
    ("-x", ChordFault::UnknownModifier),
    ("ctrl---", ChordFault::UnknownModifier),
    ("ctrl--x", ChordFault::UnknownModifier),
    ("page-up", ChordFault::UnknownModifier),
    ("foo", ChordFault::UnknownKey),
    ("ctrl-foo", ChordFault::UnknownKey),
    ("xy", ChordFault::UnknownKey),
    ("Esc", ChordFault::UnknownKey),
    ("F5", ChordFault::UnknownKey),
    ("f256", ChordFault::UnknownKey),
    ("f+5", ChordFault::UnknownKey),
    ("f5x", ChordFault::UnknownKey),
    ("x ", ChordFault::UnknownKey),
];

#[test]
fn texts_that_are_no_chords_are_named(rt: HostRuntime) {
    for (text, want) in FAULTY.iter() {
        expect!(rt; read_chord(text) == Err(*want), text);
    }
}
