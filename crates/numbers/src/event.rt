//! An event as numbers, and what it lacks.
ghost use Rattle.std.specs.Prelude.{◌≡◌};
ghost use Rattle.numbers.specs.Event.{is_bare, no_code, no_flags, no_place, no_press};

/// An event. Which fields count depends on its kind; the others are 0.
#[repr(C)]
#[derive(Clone, Copy, Debug, PartialEq, Eq, Default)]
pub struct GelvanhEvent {
    /// 1 the focus was gained, 2 it was lost, 3 a key, 4 the mouse, 5 the end of a paste, 6 the cursor's place, 7 the flags of the
    /// keyboard, 8 the terminal's attributes, 9 a resize.
    pub kind: u16,
    /// Which key, or what the mouse did, by its place in crossterm's enum.
    pub code: u16,
    /// The key's character or number, or the mouse's button.
    pub value: u32,
    /// The column of the mouse or of the cursor, from 0, or how many the window has.
    pub column: u16,
    /// The row, from 0, or how many rows.
    pub row: u16,
    /// The bits of the modifiers that were held.
    pub modifiers: u8,
    /// Of a key: 0 pressed, 1 held, 2 let go.
    pub press: u8,
    /// The bits of what else the keyboard reported.
    pub state: u8,
    /// The bits of the keyboard's flags.
    pub flags: u8,
}

impl GelvanhEvent {
    /// Whether there is neither a key nor what the mouse did.
    pub fn has_no_code(&self) -> bool
        ensures { result ≡ no_code self.now }
    {
        self.code == 0 && (self.value == 0 && self.modifiers == 0)
    }

    /// Whether there is nothing of how a key was pressed.
    pub fn has_no_press(&self) -> bool
        ensures { result ≡ no_press self.now }
    {
        self.press == 0 && self.state == 0
    }

    /// Whether there is no place.
    pub fn has_no_place(&self) -> bool
        ensures { result ≡ no_place self.now }
    {
        self.column == 0 && self.row == 0
    }

    /// Whether there are no flags of the keyboard.
    pub fn has_no_flags(&self) -> bool
        ensures { result ≡ no_flags self.now }
    {
        self.flags == 0
    }

    /// Whether all numbers but the kind are 0.
    pub fn is_bare(&self) -> bool
        ensures { result ≡ is_bare self.now }
    {
        self.has_no_code() && (self.has_no_press() && (self.has_no_place() && self.has_no_flags()))
    }
}
