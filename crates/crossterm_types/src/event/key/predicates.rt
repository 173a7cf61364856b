//! What a key is: tests of its kind and of its code.
ghost use Rattle.std.specs.Prelude.{◌≡◌, ◌↔◌, ℕ, IsTrue};

use crate::event::key::{KeyCode, KeyEvent, KeyEventKind, MediaKeyCode, ModifierKeyCode};

impl KeyEventKind {
    /// Whether the key went down.
    pub fn is_press(&self) -> bool
        ensures { IsTrue result ↔ (self.now ≡ KeyEventKind.Press) }
    {
        matches!(self, KeyEventKind::Press)
    }

    /// Whether the key was held.
    pub fn is_repeat(&self) -> bool
        ensures { IsTrue result ↔ (self.now ≡ KeyEventKind.Repeat) }
    {
        matches!(self, KeyEventKind::Repeat)
    }

    /// Whether the key went up.
    pub fn is_release(&self) -> bool
        ensures { IsTrue result ↔ (self.now ≡ KeyEventKind.Release) }
    {
        matches!(self, KeyEventKind::Release)
    }
}

impl KeyEvent {
    /// Whether the key went down.
    pub fn is_press(&self) -> bool
        ensures { IsTrue result ↔ (self.now.kind ≡ KeyEventKind.Press) }
    {
        self.kind.is_press()
    }

    /// Whether the key went up.
    pub fn is_release(&self) -> bool
        ensures { IsTrue result ↔ (self.now.kind ≡ KeyEventKind.Release) }
    {
        self.kind.is_release()
    }

    /// Whether the key was held.
    pub fn is_repeat(&self) -> bool
        ensures { IsTrue result ↔ (self.now.kind ≡ KeyEventKind.Repeat) }
    {
        self.kind.is_repeat()
    }
}

impl KeyCode {
    /// Whether the key is the function key of this number: `F(1)` is F1.
    pub fn is_function_key(&self, n: u8) -> bool
        ensures { IsTrue result ↔ (self.now ≡ KeyCode.F n) }
    {
        matches!(self, KeyCode::F(m) if *m == n)
    }

    /// Whether the key is this character.
    pub fn is_char(&self, c: char) -> bool
        ensures { IsTrue result ↔ (self.now ≡ KeyCode.Char c) }
    {
        matches!(self, KeyCode::Char(m) if *m == c)
    }

    /// The character, if the key is one; else `None`.
    pub fn as_char(&self) -> Option<char>
        ensures { (c : ℕ) → (result ≡ Some c) ↔ (self.now ≡ KeyCode.Char c) }
    {
        match self {
            KeyCode::Char(c) => Some(*c),
            _ => None,
        }
    }

    /// Whether the key is this media key.
    pub fn is_media_key(&self, media: MediaKeyCode) -> bool
        ensures { IsTrue result ↔ (self.now ≡ KeyCode.Media media) }
    {
        matches!(self, KeyCode::Media(m) if *m == media)
    }

    /// Whether the key is this modifier key.
    pub fn is_modifier(&self, modifier: ModifierKeyCode) -> bool
        ensures { IsTrue result ↔ (self.now ≡ KeyCode.Modifier modifier) }
    {
        matches!(self, KeyCode::Modifier(m) if *m == modifier)
    }

    /// Whether the key is Backspace.
    pub fn is_backspace(&self) -> bool
        ensures { IsTrue result ↔ (self.now ≡ KeyCode.Backspace) }
    {
        matches!(self, KeyCode::Backspace)
    }

    /// Whether the key is Enter.
    pub fn is_enter(&self) -> bool
        ensures { IsTrue result ↔ (self.now ≡ KeyCode.Enter) }
    {
        matches!(self, KeyCode::Enter)
    }

    /// Whether the key is the arrow to the left.
    pub fn is_left(&self) -> bool
        ensures { IsTrue result ↔ (self.now ≡ KeyCode.Left) }
    {
        matches!(self, KeyCode::Left)
    }

    /// Whether the key is the arrow to the right.
    pub fn is_right(&self) -> bool
        ensures { IsTrue result ↔ (self.now ≡ KeyCode.Right) }
    {
        matches!(self, KeyCode::Right)
    }

    /// Whether the key is the arrow upwards.
    pub fn is_up(&self) -> bool
        ensures { IsTrue result ↔ (self.now ≡ KeyCode.Up) }
    {
        matches!(self, KeyCode::Up)
    }

    /// Whether the key is the arrow downwards.
    pub fn is_down(&self) -> bool
        ensures { IsTrue result ↔ (self.now ≡ KeyCode.Down) }
    {
        matches!(self, KeyCode::Down)
    }

    /// Whether the key is Home.
    pub fn is_home(&self) -> bool
        ensures { IsTrue result ↔ (self.now ≡ KeyCode.Home) }
    {
        matches!(self, KeyCode::Home)
    }

    /// Whether the key is End.
    pub fn is_end(&self) -> bool
        ensures { IsTrue result ↔ (self.now ≡ KeyCode.End) }
    {
        matches!(self, KeyCode::End)
    }

    /// Whether the key is Page Up.
    pub fn is_page_up(&self) -> bool
        ensures { IsTrue result ↔ (self.now ≡ KeyCode.PageUp) }
    {
        matches!(self, KeyCode::PageUp)
    }

    /// Whether the key is Page Down.
    pub fn is_page_down(&self) -> bool
        ensures { IsTrue result ↔ (self.now ≡ KeyCode.PageDown) }
    {
        matches!(self, KeyCode::PageDown)
    }

    /// Whether the key is Tab.
    pub fn is_tab(&self) -> bool
        ensures { IsTrue result ↔ (self.now ≡ KeyCode.Tab) }
    {
        matches!(self, KeyCode::Tab)
    }

    /// Whether the key is Tab with Shift.
    pub fn is_back_tab(&self) -> bool
        ensures { IsTrue result ↔ (self.now ≡ KeyCode.BackTab) }
    {
        matches!(self, KeyCode::BackTab)
    }

    /// Whether the key is Delete.
    pub fn is_delete(&self) -> bool
        ensures { IsTrue result ↔ (self.now ≡ KeyCode.Delete) }
    {
        matches!(self, KeyCode::Delete)
    }

    /// Whether the key is Insert.
    pub fn is_insert(&self) -> bool
        ensures { IsTrue result ↔ (self.now ≡ KeyCode.Insert) }
    {
        matches!(self, KeyCode::Insert)
    }

    /// Whether the key sends the character of code 0.
    pub fn is_null(&self) -> bool
        ensures { IsTrue result ↔ (self.now ≡ KeyCode.Null) }
    {
        matches!(self, KeyCode::Null)
    }

    /// Whether the key is Escape.
    pub fn is_esc(&self) -> bool
        ensures { IsTrue result ↔ (self.now ≡ KeyCode.Esc) }
    {
        matches!(self, KeyCode::Esc)
    }

    /// Whether the key is Caps Lock.
    pub fn is_caps_lock(&self) -> bool
        ensures { IsTrue result ↔ (self.now ≡ KeyCode.CapsLock) }
    {
        matches!(self, KeyCode::CapsLock)
    }

    /// Whether the key is Scroll Lock.
    pub fn is_scroll_lock(&self) -> bool
        ensures { IsTrue result ↔ (self.now ≡ KeyCode.ScrollLock) }
    {
        matches!(self, KeyCode::ScrollLock)
    }

    /// Whether the key is Num Lock.
    pub fn is_num_lock(&self) -> bool
        ensures { IsTrue result ↔ (self.now ≡ KeyCode.NumLock) }
    {
        matches!(self, KeyCode::NumLock)
    }

    /// Whether the key is Print Screen.
    pub fn is_print_screen(&self) -> bool
        ensures { IsTrue result ↔ (self.now ≡ KeyCode.PrintScreen) }
    {
        matches!(self, KeyCode::PrintScreen)
    }

    /// Whether the key is Pause.
    pub fn is_pause(&self) -> bool
        ensures { IsTrue result ↔ (self.now ≡ KeyCode.Pause) }
    {
        matches!(self, KeyCode::Pause)
    }

    /// Whether the key is Menu.
    pub fn is_menu(&self) -> bool
        ensures { IsTrue result ↔ (self.now ≡ KeyCode.Menu) }
    {
        matches!(self, KeyCode::Menu)
    }

    /// Whether the key is Begin of the keypad, its middle key.
    pub fn is_keypad_begin(&self) -> bool
        ensures { IsTrue result ↔ (self.now ≡ KeyCode.KeypadBegin) }
    {
        matches!(self, KeyCode::KeypadBegin)
    }
}
