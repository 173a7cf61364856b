//! Keys that are equal, as crossterm's own tests have them, and keys that are not; their order; and clones of events.

use crossterm_types::event::{
    Event, InternalEvent, KeyCode, KeyEvent, KeyEventKind, KeyEventState, KeyModifiers,
};
use std::alloc::AllocError;
use std::cmp::Ordering;
use std::hash::{DefaultHasher, Hash, Hasher};
use test_support::expect;

fn hash_of(key: KeyEvent) -> u64 {
    let mut hasher = DefaultHasher::new();
    key.hash(&mut hasher);
    hasher.finish()
}

fn char_key(c: char, modifiers: KeyModifiers) -> KeyEvent {
    KeyEvent::new(KeyCode::Char(c), modifiers)
}

/// Characters with their modifiers, and whether they are one key.
static PAIRS: [((char, KeyModifiers), (char, KeyModifiers), bool); 7] = [
    (('d', KeyModifiers::SHIFT), ('D', KeyModifiers::SHIFT), true),
    (('D', KeyModifiers::NONE), ('D', KeyModifiers::SHIFT), true),
    (('D', KeyModifiers::NONE), ('d', KeyModifiers::SHIFT), true),
    (('d', KeyModifiers::NONE), ('D', KeyModifiers::NONE), false),
    (
        ('d', KeyModifiers::CONTROL),
        ('D', KeyModifiers::CONTROL),
        false,
    ),
    (('1', KeyModifiers::SHIFT), ('1', KeyModifiers::NONE), false),
    (
        ('é', KeyModifiers::SHIFT),
        ('É', KeyModifiers::SHIFT),
        false,
    ),
];

/// Whether all comparisons say so.
fn compares(a: KeyEvent, b: KeyEvent, equal: bool) -> bool {
    let order = a.cmp(&b);
    (a == b) == equal
        && (order == Ordering::Equal) == equal
        && a.partial_cmp(&b) == Some(order)
        && (hash_of(a) == hash_of(b)) == equal
}

#[test]
fn characters_compare_by_their_normal_forms(rt: HostRuntime) {
    for ((a, with_a), (b, with_b), equal) in &PAIRS {
        expect!(rt; compares(char_key(*a, *with_a), char_key(*b, *with_b), *equal));
    }
    let control = KeyModifiers::CONTROL;
    let upper = char_key('Z', control);
    expect!(rt; compares(upper, char_key('z', control | KeyModifiers::SHIFT), true));
}

/// A D that differs from the one that was pressed by its kind or its state.
fn other_key(kind: KeyEventKind, state: KeyEventState) -> KeyEvent {
    KeyEvent::new_with_kind_and_state(KeyCode::Char('D'), KeyModifiers::NONE, kind, state)
}

#[test]
fn keys_compare_by_all_their_parts(rt: HostRuntime) {
    let upper = char_key('D', KeyModifiers::NONE);
    let released = other_key(KeyEventKind::Release, KeyEventState::NONE);
    expect!(rt; compares(upper, released, false));
    let keypad = other_key(KeyEventKind::Press, KeyEventState::KEYPAD);
    expect!(rt; compares(upper, keypad, false));
    let plain = KeyEvent::new(KeyCode::F(1), KeyModifiers::NONE);
    let shifted = KeyEvent::new(KeyCode::F(1), KeyModifiers::SHIFT);
    expect!(rt; compares(shifted, plain, false));
}

/// The parts of a key but for its state.
type Parts = (KeyCode, KeyModifiers, KeyEventKind);

fn made(parts: &Parts) -> KeyEvent {
    let (code, modifiers, kind) = *parts;
    KeyEvent::new_with_kind(code, modifiers, kind)
}

/// Keys in rising order.
static RISING: [Parts; 9] = [
    (KeyCode::Backspace, KeyModifiers::META, KeyEventKind::Press),
    (KeyCode::F(12), KeyModifiers::NONE, KeyEventKind::Press),
    (KeyCode::Char('A'), KeyModifiers::NONE, KeyEventKind::Press),
    (KeyCode::Char('b'), KeyModifiers::SHIFT, KeyEventKind::Press),
    (KeyCode::Char('C'), KeyModifiers::NONE, KeyEventKind::Press),
    (KeyCode::Char('b'), KeyModifiers::NONE, KeyEventKind::Press),
    (
        KeyCode::Char('b'),
        KeyModifiers::CONTROL,
        KeyEventKind::Press,
    ),
    (
        KeyCode::Char('b'),
        KeyModifiers::CONTROL,
        KeyEventKind::Repeat,
    ),
    (KeyCode::Null, KeyModifiers::NONE, KeyEventKind::Press),
];

/// Whether two keys are in order.
fn rise(pair: &[Parts]) -> bool {
    match pair {
        [before, after] => made(before) < made(after),
        _ => false,
    }
}

#[test]
fn keys_are_in_order(rt: HostRuntime) {
    for pair in RISING.windows(2) {
        expect!(rt; rise(pair));
    }
}

fn is_cloned(event: &Event) -> bool {
    match event.clone() {
        Ok(copy) => copy == *event,
        Err(_) => false,
    }
}

fn is_cloned_inside(event: &InternalEvent) -> bool {
    match event.clone() {
        Ok(copy) => copy == *event,
        Err(_) => false,
    }
}

#[test]
fn events_are_cloned(rt: HostRuntime) -> Result<(), AllocError> {
    let event = Event::Paste(String::from_str(rt.alloc(), "two\nlines")?);
    expect!(rt; is_cloned(&event));
    expect!(rt; is_cloned_inside(&InternalEvent::Event(event)));
    Ok(())
}
