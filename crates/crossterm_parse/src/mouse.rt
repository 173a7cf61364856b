//! Reports of the mouse.
//!
//! Only crates of this tree use this module, which may change with each version.
ghost use Rattle.std.specs.Prelude.{◌≡◌, ◌<◌, IsTrue, IsFalse};
ghost use Rattle.crossterm_types.specs.Keys.{modifiers_of};
ghost use Rattle.crossterm_parse.specs.Mouse.{button_of, pressed_button, dragged_button, mouse_kind, mouse_modifiers, mouse_event, mouse_report, less, let_go, released};
ghost use Rattle.crossterm_parse.specs.Transitions.{x10_after, x10_meaning_with, Open, Whole};
ghost use Rattle.crossterm_parse.specs.declared.state.State.TheVariants.{X10};

use crate::meaning::{Meaning, meaning_of_x10};
use crate::modifier_field::value_of_bit;
use crossterm_types::event::{KeyModifiers, MouseButton, MouseEvent, MouseEventKind};

/// The bytes after `ESC [ M` so far.
#[derive(Clone, Copy)]
pub enum X10Report {
    Empty,
    Code(u8),
    Column(u8, u8),
}

fn button_in(code: u8) -> u8
    ensures { result ≡ button_of code }
{
    code % 4 + code / 64 * 4
}

/// What a button that isn't dragged did.
fn pressed(button: u8) -> Option<MouseEventKind>
    ensures { result ≡ pressed_button button }
{
    match button {
        0 => Some(MouseEventKind::Down(MouseButton::Left)),
        1 => Some(MouseEventKind::Down(MouseButton::Middle)),
        2 => Some(MouseEventKind::Down(MouseButton::Right)),
        3 => Some(MouseEventKind::Up(MouseButton::Left)),
        4 => Some(MouseEventKind::ScrollUp),
        5 => Some(MouseEventKind::ScrollDown),
        6 => Some(MouseEventKind::ScrollLeft),
        7 => Some(MouseEventKind::ScrollRight),
        _ => None,
    }
}

/// What a button that is dragged did.
fn dragged(button: u8) -> Option<MouseEventKind>
    ensures { result ≡ dragged_button button }
{
    match button {
        0 => Some(MouseEventKind::Drag(MouseButton::Left)),
        1 => Some(MouseEventKind::Drag(MouseButton::Middle)),
        2 => Some(MouseEventKind::Drag(MouseButton::Right)),
        3..=5 => Some(MouseEventKind::Moved),
        _ => None,
    }
}

fn kind_in(code: u8) -> Option<MouseEventKind>
    ensures { result ≡ mouse_kind code }
{
    if code & 32 == 32 {
        dragged(button_in(code))
    } else {
        pressed(button_in(code))
    }
}

fn modifiers_in(code: u8) -> KeyModifiers
    ensures { result ≡ modifiers_of (mouse_modifiers code) }
{
    let low = value_of_bit(code, 4, 1) | value_of_bit(code, 8, 4);
    KeyModifiers::from_bits_retain(low | value_of_bit(code, 16, 2))
}

/// What a code means at a place.
fn event_at(code: u8, column: u16, row: u16) -> Option<MouseEvent>
    ensures { result ≡ mouse_event code column row }
{
    match kind_in(code) {
        Some(kind) => Some(MouseEvent {
            kind,
            column,
            row,
            modifiers: modifiers_in(code),
        }),
        None => None,
    }
}

/// What a code means at a place, if all three are there.
pub fn report(code: Option<u8>, column: Option<u16>, row: Option<u16>) -> Option<MouseEvent>
    ensures { result ≡ mouse_report code column row }
{
    match (code, column, row) {
        (Some(code), Some(column), Some(row)) => event_at(code, column, row),
        _ => None,
    }
}

/// A byte less an amount, if it isn't below.
pub fn byte_less(amount: u8, byte: u8) -> Option<u8>
    ensures { result ≡ less amount byte }
{
    if amount <= byte {
        Some(byte - amount)
    } else {
        None
    }
}

/// A button that went down goes up.
fn up(kind: MouseEventKind) -> MouseEventKind
    ensures { result ≡ let_go kind }
{
    match kind {
        MouseEventKind::Down(button) => MouseEventKind::Up(button),
        other => other,
    }
}

/// The event with the final byte `M`, or with `m`, which says that the button was let go.
pub fn ended_by(last: u8, event: MouseEvent) -> MouseEvent
    ensures { result ≡ released last event }
{
    if last == b'm' {
        MouseEvent {
            kind: up(event.kind),
            ..event
        }
    } else {
        event
    }
}

impl X10Report {
    /// Takes one more byte, if the report goes on with it, and returns whether it does.
    #[inline(never)]
    pub fn put(&mut self, byte: u8) -> bool
        ensures yes { IsTrue result → x10_after self.old byte ≡ Open (X10 self.new) }
        ensures no { IsFalse result → x10_after self.old byte ≡ Whole (x10_meaning_with self.old byte) }
        ensures same { IsFalse result → self.new ≡ self.old }
    {
        match *self {
            X10Report::Empty => {
                *self = X10Report::Code(byte);
                true
            }
            X10Report::Code(code) => {
                *self = X10Report::Column(code, byte);
                true
            }
            X10Report::Column(_, _) => false,
        }
    }

    /// What the report means that is whole with the byte.
    pub fn meaning(&self, byte: u8) -> Option<Meaning>
        ensures { result ≡ x10_meaning_with self.now byte }
    {
        match *self {
            X10Report::Column(code, column) => meaning_of_x10(code, column, byte),
            _ => None,
        }
    }
}
