//! Events of the keyboard.
ghost use Rattle.std.specs.Prelude.{◌≡◌};
ghost use Rattle.crossterm_types.specs.Keys.{pressed};

mod names;
mod normal;
mod normal_key;
mod predicates;

use crossterm_flags::{KeyEventState, KeyModifiers};

/// A key that was pressed, held or let go.
///
/// Equality, order and hash are those of the normal form. In it an ASCII upper case character has Shift, and an ASCII lower case character
/// with Shift is upper case: `A`, `A` with Shift and `a` with Shift are one key.
#[derive(Clone, Copy, Debug)]
pub struct KeyEvent {
    /// The key.
    pub code: KeyCode,
    /// The modifiers that were held.
    pub modifiers: KeyModifiers,
    /// Whether the key was pressed, held or let go.
    pub kind: KeyEventKind,
    /// What else the keyboard reported. Only kitty's keyboard protocol reports it.
    pub state: KeyEventState,
}

/// Whether a key was pressed, held or let go.
#[derive(Clone, Copy, Debug, PartialEq, Eq, PartialOrd, Ord, Hash)]
pub enum KeyEventKind {
    /// The key went down.
    Press,
    /// The key was held.
    Repeat,
    /// The key went up.
    Release,
}

/// A key of a media keyboard.
#[derive(Clone, Copy, Debug, PartialEq, Eq, PartialOrd, Ord, Hash)]
pub enum MediaKeyCode {
    Play,
    Pause,
    PlayPause,
    Reverse,
    Stop,
    FastForward,
    Rewind,
    TrackNext,
    TrackPrevious,
    Record,
    LowerVolume,
    RaiseVolume,
    MuteVolume,
}

/// A modifier key that was itself pressed or let go.
#[derive(Clone, Copy, Debug, PartialEq, Eq, PartialOrd, Ord, Hash)]
pub enum ModifierKeyCode {
    LeftShift,
    LeftControl,
    LeftAlt,
    LeftSuper,
    LeftHyper,
    LeftMeta,
    RightShift,
    RightControl,
    RightAlt,
    RightSuper,
    RightHyper,
    RightMeta,
    IsoLevel3Shift,
    IsoLevel5Shift,
}

/// A key, by its place or by its character.
#[derive(Clone, Copy, Debug, PartialEq, Eq, PartialOrd, Ord, Hash)]
pub enum KeyCode {
    Backspace,
    Enter,
    Left,
    Right,
    Up,
    Down,
    Home,
    End,
    PageUp,
    PageDown,
    Tab,
    /// Tab with Shift.
    BackTab,
    Delete,
    Insert,
    /// A function key by its number: `F(1)` is F1.
    F(u8),
    /// A character.
    Char(char),
    Null,
    Esc,
    CapsLock,
    ScrollLock,
    NumLock,
    PrintScreen,
    Pause,
    Menu,
    KeypadBegin,
    Media(MediaKeyCode),
    Modifier(ModifierKeyCode),
}

impl KeyEvent {
    /// A key that is pressed with these modifiers.
    ///
    /// ```
    /// let save = KeyEvent::new(KeyCode::Char('s'), KeyModifiers::CONTROL);
    /// if event == Event::Key(save) {
    ///     store(&file)?;
    /// }
    /// ```
    pub fn new(code: KeyCode, modifiers: KeyModifiers) -> KeyEvent
        ensures { result ≡ pressed code modifiers }
    {
        KeyEvent {
            code,
            modifiers,
            kind: KeyEventKind::Press,
            state: KeyEventState::empty(),
        }
    }

    /// A key with these modifiers, of this kind.
    pub fn new_with_kind(code: KeyCode, modifiers: KeyModifiers, kind: KeyEventKind) -> KeyEvent
        ensures { result ≡ record (pressed code modifiers) { kind = kind } }
    {
        KeyEvent {
            kind,
            ..KeyEvent::new(code, modifiers)
        }
    }

    /// A key with these modifiers, of this kind, in this state.
    pub fn new_with_kind_and_state(
        code: KeyCode,
        modifiers: KeyModifiers,
        kind: KeyEventKind,
        state: KeyEventState,
    ) -> KeyEvent
        ensures { result ≡ record { code = code; modifiers = modifiers; kind = kind; state = state } }
    {
        KeyEvent {
            code,
            modifiers,
            kind,
            state,
        }
    }
}

impl From<KeyCode> for KeyEvent {
    ghost use Rattle.crossterm_types.specs.Keys.{pressed_alone};

    ghost from_gives = { λ code key. key ≡ pressed_alone code };

    fn from(code: KeyCode) -> KeyEvent {
        KeyEvent::new(code, KeyModifiers::empty())
    }
}
