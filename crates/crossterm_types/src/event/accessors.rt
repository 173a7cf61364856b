//! What an event is: tests, and the key, mouse event, text or size that it holds.
ghost use Rattle.std.specs.Prelude.{◌≡◌, ◌≢◌, ◌↔◌, ℕ, IsTrue, MatchOption};

use crate::event::{Event, KeyEvent, MouseEvent};
use std::alloc::Allocator;

impl<A: Allocator> Event<A> {
    ghost use Rattle.std.specs.Prelude.{List};
    ghost use Rattle.crossterm_types.specs.Seen.{seen_event};
    ghost use Rattle.crossterm_types.specs.Seen as seen;
    ghost use Rattle.crossterm_types.specs.declared.event.key.KeyEvent.{KeyEvent};
    ghost use Rattle.crossterm_types.specs.declared.event.key.KeyEventKind.TheVariants.{Press, Repeat, Release};
    ghost use Rattle.crossterm_types.specs.declared.event.mouse.MouseEvent.{MouseEvent};

    /// Whether the terminal gained the focus.
    pub fn is_focus_gained(&self) -> bool
        ensures { IsTrue result ↔ (seen_event self.now ≡ seen.FocusGained) }
    {
        matches!(self, Event::FocusGained)
    }

    /// Whether the terminal lost the focus.
    pub fn is_focus_lost(&self) -> bool
        ensures { IsTrue result ↔ (seen_event self.now ≡ seen.FocusLost) }
    {
        matches!(self, Event::FocusLost)
    }

    /// Whether a key was pressed, held or let go.
    pub fn is_key(&self) -> bool
        ensures { IsTrue result ↔ ((key : KeyEvent) × (seen_event self.now ≡ seen.Key key)) }
    {
        matches!(self, Event::Key(_))
    }

    /// Whether a key went down.
    pub fn is_key_press(&self) -> bool
        ensures { IsTrue result ↔ ((key : KeyEvent) × (seen_event self.now ≡ seen.Key key) × (key.kind ≡ Press)) }
    {
        matches!(self, Event::Key(key) if key.is_press())
    }

    /// Whether a key went up.
    pub fn is_key_release(&self) -> bool
        ensures { IsTrue result ↔ ((key : KeyEvent) × (seen_event self.now ≡ seen.Key key) × (key.kind ≡ Release)) }
    {
        matches!(self, Event::Key(key) if key.is_release())
    }

    /// Whether a key was held.
    pub fn is_key_repeat(&self) -> bool
        ensures { IsTrue result ↔ ((key : KeyEvent) × (seen_event self.now ≡ seen.Key key) × (key.kind ≡ Repeat)) }
    {
        matches!(self, Event::Key(key) if key.is_repeat())
    }

    /// Whether the mouse moved, or a button or a wheel was used.
    pub fn is_mouse(&self) -> bool
        ensures { IsTrue result ↔ ((mouse : MouseEvent) × (seen_event self.now ≡ seen.Mouse mouse)) }
    {
        matches!(self, Event::Mouse(_))
    }

    /// Whether a text was pasted.
    pub fn is_paste(&self) -> bool
        ensures { IsTrue result ↔ ((text : List ℕ) × (seen_event self.now ≡ seen.Paste text)) }
    {
        matches!(self, Event::Paste(_))
    }

    /// Whether the terminal has a new size.
    pub fn is_resize(&self) -> bool
        ensures { IsTrue result ↔ ((columns : ℕ) × (rows : ℕ) × (seen_event self.now ≡ seen.Resize columns rows)) }
    {
        matches!(self, Event::Resize(_, _))
    }

    /// The key, if one was pressed, held or let go; else `None`.
    pub fn as_key_event(&self) -> Option<KeyEvent>
        ensures { (key : KeyEvent) → (result ≡ Some key) ↔ (seen_event self.now ≡ seen.Key key) }
    {
        match self {
            Event::Key(key) => Some(*key),
            _ => None,
        }
    }

    /// The key, if one went down; else `None`.
    ///
    /// ```
    /// if let Some(key) = event.as_key_press_event() {
    ///     press(key.code, key.modifiers)?;
    /// }
    /// ```
    pub fn as_key_press_event(&self) -> Option<KeyEvent>
        ensures { (key : KeyEvent) → (result ≡ Some key) ↔ ((seen_event self.now ≡ seen.Key key) × (key.kind ≡ Press)) }
    {
        match self {
            Event::Key(key) if key.is_press() => Some(*key),
            _ => None,
        }
    }

    /// The key, if one went up; else `None`.
    pub fn as_key_release_event(&self) -> Option<KeyEvent>
        ensures { (key : KeyEvent) → (result ≡ Some key) ↔ ((seen_event self.now ≡ seen.Key key) × (key.kind ≡ Release)) }
    {
        match self {
            Event::Key(key) if key.is_release() => Some(*key),
            _ => None,
        }
    }

    /// The key, if one was held; else `None`.
    pub fn as_key_repeat_event(&self) -> Option<KeyEvent>
        ensures { (key : KeyEvent) → (result ≡ Some key) ↔ ((seen_event self.now ≡ seen.Key key) × (key.kind ≡ Repeat)) }
    {
        match self {
            Event::Key(key) if key.is_repeat() => Some(*key),
            _ => None,
        }
    }

    /// What the mouse did, if it did something; else `None`.
    pub fn as_mouse_event(&self) -> Option<MouseEvent>
        ensures { (mouse : MouseEvent) → (result ≡ Some mouse) ↔ (seen_event self.now ≡ seen.Mouse mouse) }
    {
        match self {
            Event::Mouse(mouse) => Some(*mouse),
            _ => None,
        }
    }

    /// The text, if one was pasted; else `None`.
    pub fn as_paste_event(&self) -> Option<&str>
        ensures { MatchOption result ((text : List ℕ) → seen_event self.now ≢ seen.Paste text) (λ text. seen_event self.now ≡ seen.Paste text.now) }
    {
        match self {
            Event::Paste(text) => Some(text),
            _ => None,
        }
    }

    /// The terminal's new size in columns and rows, if it has one; else `None`.
    pub fn as_resize_event(&self) -> Option<(u16, u16)>
        ensures { (columns rows : ℕ) → (result ≡ Some (columns, rows)) ↔ (seen_event self.now ≡ seen.Resize columns rows) }
    {
        match self {
            Event::Resize(columns, rows) => Some((*columns, *rows)),
            _ => None,
        }
    }
}
