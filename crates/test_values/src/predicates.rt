//! What keys, mouse events and events are: each test and each accessor, over values of every variant.

use crossterm_types::event::{
    Event, KeyCode, KeyEvent, KeyEventKind, KeyEventState, KeyModifiers, MediaKeyCode,
    ModifierKeyCode, MouseButton, MouseEvent, MouseEventKind,
};
use std::alloc::AllocError;
use test_support::expect;

/// The keys that are named by their variant alone.
static PLAIN: [KeyCode; 23] = [
    KeyCode::Backspace,
    KeyCode::Enter,
    KeyCode::Left,
    KeyCode::Right,
    KeyCode::Up,
    KeyCode::Down,
    KeyCode::Home,
    KeyCode::End,
    KeyCode::PageUp,
    KeyCode::PageDown,
    KeyCode::Tab,
    KeyCode::BackTab,
    KeyCode::Delete,
    KeyCode::Insert,
    KeyCode::Null,
    KeyCode::Esc,
    KeyCode::CapsLock,
    KeyCode::ScrollLock,
    KeyCode::NumLock,
    KeyCode::PrintScreen,
    KeyCode::Pause,
    KeyCode::Menu,
    KeyCode::KeypadBegin,
];

/// What the tests for the keys of `PLAIN` say, in that order.
fn plain_tests(code: KeyCode) -> [bool; 23] {
    [
        code.is_backspace(),
        code.is_enter(),
        code.is_left(),
        code.is_right(),
        code.is_up(),
        code.is_down(),
        code.is_home(),
        code.is_end(),
        code.is_page_up(),
        code.is_page_down(),
        code.is_tab(),
        code.is_back_tab(),
        code.is_delete(),
        code.is_insert(),
        code.is_null(),
        code.is_esc(),
        code.is_caps_lock(),
        code.is_scroll_lock(),
        code.is_num_lock(),
        code.is_print_screen(),
        code.is_pause(),
        code.is_menu(),
        code.is_keypad_begin(),
    ]
}

/// Whether just the answers at these places are yes.
fn hold_at(answers: &[bool], places: &[usize]) -> bool {
    let mut as_wanted = true;
    for (i, answer) in answers.iter().enumerate() {
        as_wanted = as_wanted && *answer == places.contains(&i);
    }
    as_wanted
}

/// Keys with something to name, which of the tests for F1, `a`, Play and the left Shift hold of them, and their characters.
static OTHERS: [(KeyCode, &[usize], Option<char>); 8] = [
    (KeyCode::F(1), &[0], None),
    (KeyCode::F(2), &[], None),
    (KeyCode::Char('a'), &[1], Some('a')),
    (KeyCode::Char('A'), &[], Some('A')),
    (KeyCode::Media(MediaKeyCode::Play), &[2], None),
    (KeyCode::Media(MediaKeyCode::Stop), &[], None),
    (KeyCode::Modifier(ModifierKeyCode::LeftShift), &[3], None),
    (KeyCode::Modifier(ModifierKeyCode::RightShift), &[], None),
];

/// What the tests for F1, `a`, Play and the left Shift say.
fn other_tests(code: KeyCode) -> [bool; 4] {
    [
        code.is_function_key(1),
        code.is_char('a'),
        code.is_media_key(MediaKeyCode::Play),
        code.is_modifier(ModifierKeyCode::LeftShift),
    ]
}

/// Whether just these tests hold of a key, and this is its character.
fn is_key(code: KeyCode, plain: &[usize], others: &[usize], character: Option<char>) -> bool {
    hold_at(&plain_tests(code), plain)
        && hold_at(&other_tests(code), others)
        && code.as_char() == character
}

#[test]
fn tests_of_keys(rt: HostRuntime) {
    for (i, code) in PLAIN.iter().enumerate() {
        expect!(rt; is_key(*code, &[i], &[], None));
    }
    for (code, places, character) in &OTHERS {
        expect!(rt; is_key(*code, &[], places, *character));
    }
}

static KINDS: [KeyEventKind; 3] = [
    KeyEventKind::Press,
    KeyEventKind::Repeat,
    KeyEventKind::Release,
];

/// What the tests of a kind say: pressed, held, let go.
fn kind_tests(kind: KeyEventKind) -> [bool; 3] {
    [kind.is_press(), kind.is_repeat(), kind.is_release()]
}

/// What the tests of a key of that kind say: pressed, held, let go.
fn key_tests(key: KeyEvent) -> [bool; 3] {
    [key.is_press(), key.is_repeat(), key.is_release()]
}

/// A pressed key.
const PRESSED: KeyEvent = KeyEvent {
    code: KeyCode::Char('q'),
    modifiers: KeyModifiers::CONTROL,
    kind: KeyEventKind::Press,
    state: KeyEventState::NONE,
};

/// The same held.
const REPEATED: KeyEvent = KeyEvent {
    kind: KeyEventKind::Repeat,
    ..PRESSED
};

/// The same let go.
const RELEASED: KeyEvent = KeyEvent {
    kind: KeyEventKind::Release,
    ..PRESSED
};

static KEYS: [KeyEvent; 3] = [PRESSED, REPEATED, RELEASED];

/// A key of that kind.
fn key_of(kind: KeyEventKind) -> KeyEvent {
    KeyEvent::new_with_kind(KeyCode::Enter, KeyModifiers::NONE, kind)
}

#[test]
fn tests_of_kinds(rt: HostRuntime) {
    for (i, kind) in KINDS.iter().enumerate() {
        expect!(rt; hold_at(&kind_tests(*kind), &[i]));
        expect!(rt; hold_at(&key_tests(key_of(*kind)), &[i]));
    }
}

static MOUSE_KINDS: [MouseEventKind; 8] = [
    MouseEventKind::Down(MouseButton::Left),
    MouseEventKind::Up(MouseButton::Right),
    MouseEventKind::Drag(MouseButton::Middle),
    MouseEventKind::Moved,
    MouseEventKind::ScrollDown,
    MouseEventKind::ScrollUp,
    MouseEventKind::ScrollLeft,
    MouseEventKind::ScrollRight,
];

/// What the tests for the kinds of `MOUSE_KINDS` say, in that order.
fn mouse_tests(kind: MouseEventKind) -> [bool; 8] {
    [
        kind.is_down(),
        kind.is_up(),
        kind.is_drag(),
        kind.is_moved(),
        kind.is_scroll_down(),
        kind.is_scroll_up(),
        kind.is_scroll_left(),
        kind.is_scroll_right(),
    ]
}

static BUTTONS: [MouseButton; 3] = [MouseButton::Left, MouseButton::Right, MouseButton::Middle];

/// What the tests for the buttons of `BUTTONS` say, in that order.
fn button_tests(button: MouseButton) -> [bool; 3] {
    [button.is_left(), button.is_right(), button.is_middle()]
}

#[test]
fn tests_of_the_mouse(rt: HostRuntime) {
    for (i, kind) in MOUSE_KINDS.iter().enumerate() {
        expect!(rt; hold_at(&mouse_tests(*kind), &[i]));
    }
    for (i, button) in BUTTONS.iter().enumerate() {
        expect!(rt; hold_at(&button_tests(*button), &[i]));
    }
}

/// What the tests of an event say: focus gained, focus lost, key, pressed, held, let go, mouse, paste, resize.
fn event_tests(event: &Event) -> [bool; 9] {
    [
        event.is_focus_gained(),
        event.is_focus_lost(),
        event.is_key(),
        event.is_key_press(),
        event.is_key_repeat(),
        event.is_key_release(),
        event.is_mouse(),
        event.is_paste(),
        event.is_resize(),
    ]
}

/// Which parts an event has: key, pressed, held, let go, mouse, paste, resize.
fn event_parts(event: &Event) -> [bool; 7] {
    [
        event.as_key_event().is_some(),
        event.as_key_press_event().is_some(),
        event.as_key_repeat_event().is_some(),
        event.as_key_release_event().is_some(),
        event.as_mouse_event().is_some(),
        event.as_paste_event().is_some(),
        event.as_resize_event().is_some(),
    ]
}

const MOVED: MouseEvent = MouseEvent {
    kind: MouseEventKind::Moved,
    column: 3,
    row: 4,
    modifiers: KeyModifiers::NONE,
};

/// Whether just the tests at these places hold of an event, and it has the parts to go with them.
fn is_reported(event: &Event, places: &[usize]) -> bool {
    let answers = event_tests(event);
    hold_at(&answers, places) && answers.ends_with(&event_parts(event))
}

#[test]
fn tests_of_key_events(rt: HostRuntime) {
    for (i, key) in KEYS.iter().enumerate() {
        expect!(rt; is_reported(&Event::Key(*key), &[2, 3 + i]));
    }
}

#[test]
fn tests_of_other_events(rt: HostRuntime) {
    expect!(rt; is_reported(&Event::FocusGained, &[0]));
    expect!(rt; is_reported(&Event::FocusLost, &[1]));
    expect!(rt; is_reported(&Event::Mouse(MOVED), &[6]));
    expect!(rt; is_reported(&Event::Resize(80, 24), &[8]));
}

fn gives_text(event: &Event, text: &str) -> bool {
    event.as_paste_event() == Some(text)
}

#[test]
fn tests_of_a_paste(rt: HostRuntime) -> Result<(), AllocError> {
    let pasted = Event::Paste(String::from_str(rt.alloc(), "text")?);
    expect!(rt; is_reported(&pasted, &[7]));
    expect!(rt; gives_text(&pasted, "text"));
    Ok(())
}

/// Whether an event gives its key, also as one of its kind.
fn gives_key(key: KeyEvent) -> bool {
    let event: Event = Event::Key(key);
    let of_kind = match key.kind {
        KeyEventKind::Press => event.as_key_press_event(),
        KeyEventKind::Repeat => event.as_key_repeat_event(),
        KeyEventKind::Release => event.as_key_release_event(),
    };
    event.as_key_event() == Some(key) && of_kind == Some(key)
}

fn gives_mouse(event: &Event, mouse: MouseEvent) -> bool {
    event.as_mouse_event() == Some(mouse)
}

fn gives_size(event: &Event, size: (u16, u16)) -> bool {
    event.as_resize_event() == Some(size)
}

#[test]
fn parts_of_events(rt: HostRuntime) {
    for key in &KEYS {
        expect!(rt; gives_key(*key));
    }
    expect!(rt; gives_mouse(&Event::Mouse(MOVED), MOVED));
    expect!(rt; gives_size(&Event::Resize(80, 24), (80, 24)));
}
