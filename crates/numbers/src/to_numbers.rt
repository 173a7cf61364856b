//! The numbers of an event.
ghost use Rattle.std.specs.Prelude.{◌≡◌, ◌-◌, ℕ, List, Some, length, take};
ghost use Rattle.crossterm_types.specs.Seen.{Key, Mouse};
ghost use Rattle.crossterm_parse.specs.Meaning.{pasted, seen_meaning};
ghost use Rattle.numbers.specs.Event.{code_at, done_at, event_at, event_known};

use crate::event::GelvanhEvent;
use crossterm_parse::meaning::Meaning;
use crossterm_types::event::{KeyCode, KeyEvent, MouseEvent, MouseEventKind};

/// An event of this kind, with nothing but it.
fn plain(kind: u16) -> GelvanhEvent
    ensures { result ≡ record { kind = kind; code = 0; value = 0; column = 0; row = 0; modifiers = 0; press = 0; state = 0; flags = 0 } }
{
    GelvanhEvent {
        kind,
        code: 0,
        value: 0,
        column: 0,
        row: 0,
        modifiers: 0,
        press: 0,
        state: 0,
        flags: 0,
    }
}

/// The end of a paste, whose text is with the caller.
pub fn paste_end() -> GelvanhEvent
    ensures { (kept : List ℕ) → event_at kept result ≡ pasted (take (length kept - 6) kept) }
{
    plain(5)
}

/// The place of a key, and its number or its character.
pub(crate) fn code_and_value(code: KeyCode) -> (u16, u32)
    ensures { code_at result.0 result.1 ≡ Some code }
{
    match code {
        KeyCode::Backspace => (0, 0),
        KeyCode::Enter => (1, 0),
        KeyCode::Left => (2, 0),
        KeyCode::Right => (3, 0),
        KeyCode::Up => (4, 0),
        KeyCode::Down => (5, 0),
        KeyCode::Home => (6, 0),
        KeyCode::End => (7, 0),
        KeyCode::PageUp => (8, 0),
        KeyCode::PageDown => (9, 0),
        KeyCode::Tab => (10, 0),
        KeyCode::BackTab => (11, 0),
        KeyCode::Delete => (12, 0),
        KeyCode::Insert => (13, 0),
        KeyCode::F(number) => (14, u32::from(number)),
        KeyCode::Char(c) => (15, u32::from(c)),
        KeyCode::Null => (16, 0),
        KeyCode::Esc => (17, 0),
        KeyCode::CapsLock => (18, 0),
        KeyCode::ScrollLock => (19, 0),
        KeyCode::NumLock => (20, 0),
        KeyCode::PrintScreen => (21, 0),
        KeyCode::Pause => (22, 0),
        KeyCode::Menu => (23, 0),
        KeyCode::KeypadBegin => (24, 0),
        KeyCode::Media(code) => (25, code as u32),
        KeyCode::Modifier(code) => (26, code as u32),
    }
}

/// The place of what the mouse did, and its button.
pub(crate) fn done_by_mouse(kind: MouseEventKind) -> (u16, u32)
    ensures { done_at result.0 result.1 ≡ Some kind }
{
    match kind {
        MouseEventKind::Down(which) => (0, which as u32),
        MouseEventKind::Up(which) => (1, which as u32),
        MouseEventKind::Drag(which) => (2, which as u32),
        MouseEventKind::Moved => (3, 0),
        MouseEventKind::ScrollDown => (4, 0),
        MouseEventKind::ScrollUp => (5, 0),
        MouseEventKind::ScrollLeft => (6, 0),
        MouseEventKind::ScrollRight => (7, 0),
    }
}

/// The numbers of a key.
pub fn of_key(key: KeyEvent) -> GelvanhEvent
    ensures means { (kept : List ℕ) → event_at kept result ≡ Key key }
    ensures known { event_known result ≡ Some (Key key) }
{
    let (code, value) = code_and_value(key.code);
    GelvanhEvent {
        code,
        value,
        modifiers: key.modifiers.bits(),
        press: key.kind as u8,
        state: key.state.bits(),
        ..plain(3)
    }
}

/// The numbers of what the mouse did.
fn of_mouse(mouse: MouseEvent) -> GelvanhEvent
    ensures means { (kept : List ℕ) → event_at kept result ≡ Mouse mouse }
    ensures known { event_known result ≡ Some (Mouse mouse) }
{
    let (code, value) = done_by_mouse(mouse.kind);
    GelvanhEvent {
        code,
        value,
        column: mouse.column,
        row: mouse.row,
        modifiers: mouse.modifiers.bits(),
        ..plain(4)
    }
}

/// The numbers of what a sequence means.
#[inline(always)]
pub fn of_meaning(meaning: Meaning) -> GelvanhEvent
    ensures means { (kept : List ℕ) → event_at kept result ≡ seen_meaning meaning }
    ensures known { event_known result ≡ Some (seen_meaning meaning) }
{
    match meaning {
        Meaning::Key(key) => of_key(key),
        Meaning::Mouse(mouse) => of_mouse(mouse),
        Meaning::FocusGained => plain(1),
        Meaning::FocusLost => plain(2),
        Meaning::CursorPosition(column, row) => GelvanhEvent {
            column,
            row,
            ..plain(6)
        },
        Meaning::KeyboardEnhancementFlags(flags) => GelvanhEvent {
            flags: flags.bits(),
            ..plain(7)
        },
        Meaning::PrimaryDeviceAttributes => plain(8),
    }
}
