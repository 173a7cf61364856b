//! What the mouse did, and which button it was: tests.
ghost use Rattle.std.specs.Prelude.{◌≡◌, ◌↔◌, IsTrue};

use crate::event::mouse::{MouseButton, MouseEventKind};

impl MouseEventKind {
    ghost use Rattle.crossterm_types.specs.declared.event.mouse.MouseButton.{MouseButton};

    /// Whether a button was pressed.
    pub fn is_down(&self) -> bool
        ensures { IsTrue result ↔ ((button : MouseButton) × (self.now ≡ MouseEventKind.Down button)) }
    {
        matches!(self, MouseEventKind::Down(_))
    }

    /// Whether a button was let go.
    pub fn is_up(&self) -> bool
        ensures { IsTrue result ↔ ((button : MouseButton) × (self.now ≡ MouseEventKind.Up button)) }
    {
        matches!(self, MouseEventKind::Up(_))
    }

    /// Whether the mouse moved with a button held.
    pub fn is_drag(&self) -> bool
        ensures { IsTrue result ↔ ((button : MouseButton) × (self.now ≡ MouseEventKind.Drag button)) }
    {
        matches!(self, MouseEventKind::Drag(_))
    }

    /// Whether the mouse moved with no button held.
    pub fn is_moved(&self) -> bool
        ensures { IsTrue result ↔ (self.now ≡ MouseEventKind.Moved) }
    {
        matches!(self, MouseEventKind::Moved)
    }

    /// Whether the wheel was turned down, towards the user.
    pub fn is_scroll_down(&self) -> bool
        ensures { IsTrue result ↔ (self.now ≡ MouseEventKind.ScrollDown) }
    {
        matches!(self, MouseEventKind::ScrollDown)
    }

    /// Whether the wheel was turned up, away from the user.
    pub fn is_scroll_up(&self) -> bool
        ensures { IsTrue result ↔ (self.now ≡ MouseEventKind.ScrollUp) }
    {
        matches!(self, MouseEventKind::ScrollUp)
    }

    /// Whether the wheel was turned to the left.
    pub fn is_scroll_left(&self) -> bool
        ensures { IsTrue result ↔ (self.now ≡ MouseEventKind.ScrollLeft) }
    {
        matches!(self, MouseEventKind::ScrollLeft)
    }

    /// Whether the wheel was turned to the right.
    pub fn is_scroll_right(&self) -> bool
        ensures { IsTrue result ↔ (self.now ≡ MouseEventKind.ScrollRight) }
    {
        matches!(self, MouseEventKind::ScrollRight)
    }
}

impl MouseButton {
    /// Whether it is the left button.
    pub fn is_left(&self) -> bool
        ensures { IsTrue result ↔ (self.now ≡ MouseButton.Left) }
    {
        matches!(self, MouseButton::Left)
    }

    /// Whether it is the right button.
    pub fn is_right(&self) -> bool
        ensures { IsTrue result ↔ (self.now ≡ MouseButton.Right) }
    {
        matches!(self, MouseButton::Right)
    }

    /// Whether it is the middle button.
    pub fn is_middle(&self) -> bool
        ensures { IsTrue result ↔ (self.now ≡ MouseButton.Middle) }
    {
        matches!(self, MouseButton::Middle)
    }
}
