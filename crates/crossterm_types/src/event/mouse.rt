//! Events of the mouse.

mod predicates;

use crossterm_flags::KeyModifiers;

/// What the mouse did, at which place, and with which keys held.
#[derive(Clone, Copy, Debug, PartialEq, Eq, PartialOrd, Ord, Hash)]
pub struct MouseEvent {
    /// What happened.
    pub kind: MouseEventKind,
    /// The column, from 0.
    pub column: u16,
    /// The row, from 0.
    pub row: u16,
    /// The modifiers that were held.
    pub modifiers: KeyModifiers,
}

/// What the mouse did.
#[derive(Clone, Copy, Debug, PartialEq, Eq, PartialOrd, Ord, Hash)]
pub enum MouseEventKind {
    /// The button was pressed.
    Down(MouseButton),
    /// The button was let go.
    Up(MouseButton),
    /// The mouse moved with the button held.
    Drag(MouseButton),
    /// The mouse moved with no button held.
    Moved,
    /// The wheel was turned down, towards the user.
    ScrollDown,
    /// The wheel was turned up, away from the user.
    ScrollUp,
    /// The wheel was turned to the left.
    ScrollLeft,
    /// The wheel was turned to the right.
    ScrollRight,
}

/// A button of the mouse.
#[derive(Clone, Copy, Debug, PartialEq, Eq, PartialOrd, Ord, Hash)]
pub enum MouseButton {
    /// The left button.
    Left,
    /// The right button.
    Right,
    /// The middle button.
    Middle,
}
