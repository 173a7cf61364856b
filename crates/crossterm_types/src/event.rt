//! Events of a terminal.

mod accessors;
pub mod filter;
mod key;
pub mod laws;
mod mouse;
pub mod timeout;
mod value;

pub use crossterm_flags::{KeyEventState, KeyModifiers, KeyboardEnhancementFlags, ValueFault};
pub use key::{KeyCode, KeyEvent, KeyEventKind, MediaKeyCode, ModifierKeyCode};
pub use mouse::{MouseButton, MouseEvent, MouseEventKind};
use std::alloc::{Allocator, Global};

/// An event that a user of the terminal brings about.
#[derive(Drop)]
#[derive_where(Clone; A)]
#[derive_where(Debug, PartialEq, Eq, PartialOrd, Ord, Hash)]
pub enum Event<A: Allocator = Global> {
    /// The terminal gained the focus.
    FocusGained,
    /// The terminal lost the focus.
    FocusLost,
    /// A key was pressed, held or let go.
    Key(KeyEvent),
    /// The mouse moved, or a button or a wheel was used.
    Mouse(MouseEvent),
    /// A text was pasted while bracketed paste was on.
    Paste(String<A>),
    /// The terminal has a new size: columns and rows.
    Resize(u16, u16),
}

/// An event, or a reply of the terminal to a query.
#[derive(Drop)]
#[derive_where(Clone; A)]
#[derive_where(Debug, PartialEq, Eq, PartialOrd, Ord, Hash)]
pub enum InternalEvent<A: Allocator = Global> {
    /// An event that a user brought about.
    Event(Event<A>),
    /// The cursor's place: column and row, from 0.
    CursorPosition(u16, u16),
    /// The flags of the keyboard protocol that are on.
    KeyboardEnhancementFlags(KeyboardEnhancementFlags),
    /// The terminal answered to the query for its attributes.
    PrimaryDeviceAttributes,
}
