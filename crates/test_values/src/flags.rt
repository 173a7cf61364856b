//! The constants of the flag types, their parts, and their names.

use crate::names::prints;
use crossterm_flags::{FlagIter, FlagSet};
use crossterm_types::event::{KeyEventState, KeyModifiers, KeyboardEnhancementFlags};
use std::alloc::Global;
use std::fmt::Debug;
use std::format;
use test_support::expect;

static MODIFIERS: [KeyModifiers; 6] = [
    KeyModifiers::SHIFT,
    KeyModifiers::CONTROL,
    KeyModifiers::ALT,
    KeyModifiers::SUPER,
    KeyModifiers::HYPER,
    KeyModifiers::META,
];

static STATES: [KeyEventState; 3] = [
    KeyEventState::KEYPAD,
    KeyEventState::CAPS_LOCK,
    KeyEventState::NUM_LOCK,
];

static ENHANCEMENTS: [KeyboardEnhancementFlags; 5] = [
    KeyboardEnhancementFlags::DISAMBIGUATE_ESCAPE_CODES,
    KeyboardEnhancementFlags::REPORT_EVENT_TYPES,
    KeyboardEnhancementFlags::REPORT_ALTERNATE_KEYS,
    KeyboardEnhancementFlags::REPORT_ALL_KEYS_AS_ESCAPE_CODES,
    KeyboardEnhancementFlags::REPORT_ASSOCIATED_TEXT,
];

#[test]
fn constants_have_their_bits(rt: HostRuntime) {
    for (i, modifier) in MODIFIERS.iter().enumerate() {
        expect!(rt; modifier.bits() == 1 << i);
    }
    for (i, state) in STATES.iter().enumerate() {
        expect!(rt; state.bits() == 1 << i);
    }
    for (i, enhancement) in ENHANCEMENTS.iter().enumerate() {
        expect!(rt; enhancement.bits() == 1 << i);
    }
    expect!(rt; KeyEventState::NONE.bits() == 0);
}

/// The bits of the next part of a set, if there is one.
fn next_bits<F: FlagSet>(parts: &mut FlagIter<F>) -> Option<u8> {
    match parts.next() {
        Some(part) => Some(part.bits()),
        None => None,
    }
}

/// The bits of the first five parts of a set, if there are so many.
fn five<F: FlagSet>(mut parts: FlagIter<F>) -> [Option<u8>; 5] {
    let parts = &mut parts;
    [
        next_bits(parts),
        next_bits(parts),
        next_bits(parts),
        next_bits(parts),
        next_bits(parts),
    ]
}

fn modifier_parts(bits: u8) -> [Option<u8>; 5] {
    five(KeyModifiers::from_bits_retain(bits).iter())
}

fn state_parts(bits: u8) -> [Option<u8>; 5] {
    five(KeyEventState::from_bits_retain(bits).iter())
}

fn enhancement_parts(bits: u8) -> [Option<u8>; 5] {
    five(KeyboardEnhancementFlags::from_bits_retain(bits).iter())
}

#[test]
fn iter_gives_each_part(rt: HostRuntime) {
    expect!(rt; modifier_parts(65) == [Some(1), Some(64), None, None, None]);
    expect!(rt; state_parts(134) == [Some(2), Some(4), Some(128), None, None]);
    expect!(rt; enhancement_parts(9) == [Some(1), Some(8), None, None, None]);
    expect!(rt; enhancement_parts(80) == [Some(16), Some(64), None, None, None]);
    expect!(rt; enhancement_parts(31) == [Some(1), Some(2), Some(4), Some(8), Some(16)]);
    expect!(rt; modifier_parts(KeyModifiers::NONE.bits()) == [None; 5]);
}

static PRINTED: [(u8, &str); 6] = [
    (0, ""),
    (1, "Shift"),
    (64, ""),
    (66, "Control"),
    (5, "Shift+Alt"),
    (255, "Shift+Control+Alt+Super+Hyper+Meta"),
];

#[test]
fn modifiers_print_their_names(rt: HostRuntime) {
    for (bits, name) in &PRINTED {
        let set = KeyModifiers::from_bits_retain(*bits);
        expect!(rt; prints(rt.alloc(), &set, name), name);
    }
}

/// A set's bits, and what Debug shows of each type for them.
type Shown = (u8, &'static str, &'static str, &'static str);

static SHOWN: [Shown; 5] = [
    (
        0,
        "KeyModifiers(0x0)",
        "KeyEventState(0x0)",
        "KeyboardEnhancementFlags(0x0)",
    ),
    (
        3,
        "KeyModifiers(SHIFT | CONTROL)",
        "KeyEventState(KEYPAD | CAPS_LOCK)",
        "KeyboardEnhancementFlags(DISAMBIGUATE_ESCAPE_CODES | REPORT_EVENT_TYPES)",
    ),
    (
        24,
        "KeyModifiers(SUPER | HYPER)",
        "KeyEventState(0x18)",
        "KeyboardEnhancementFlags(REPORT_ALL_KEYS_AS_ESCAPE_CODES | REPORT_ASSOCIATED_TEXT)",
    ),
    (
        65,
        "KeyModifiers(SHIFT | 0x40)",
        "KeyEventState(KEYPAD | 0x40)",
        "KeyboardEnhancementFlags(DISAMBIGUATE_ESCAPE_CODES | 0x40)",
    ),
    (
        192,
        "KeyModifiers(0xc0)",
        "KeyEventState(0xc0)",
        "KeyboardEnhancementFlags(0xc0)",
    ),
];

/// Whether Debug of a value shows this text.
fn debugs<T: Debug>(alloc: Global, value: &T, text: &str) -> bool {
    match format!(in alloc; "{value:?}") {
        Ok(shown) => shown.as_str() == text,
        Err(_) => false,
    }
}

fn are_shown(alloc: Global, row: &Shown) -> bool {
    let (bits, modifiers, state, enhancement) = *row;
    debugs(alloc, &KeyModifiers::from_bits_retain(bits), modifiers)
        && debugs(alloc, &KeyEventState::from_bits_retain(bits), state)
        && debugs(
            alloc,
            &KeyboardEnhancementFlags::from_bits_retain(bits),
            enhancement,
        )
}

#[test]
fn sets_are_shown_by_their_names(rt: HostRuntime) {
    for row in &SHOWN {
        expect!(rt; are_shown(rt.alloc(), row), row.1);
    }
}
