//! What a keymap keeps, what it finds, and what becomes of an event.

use crossterm_types::event::KeyEvent;
use std::alloc::Allocator;

// A list of chords, and the action that it is bound to.
#[derive(Drop)]
pub(crate) struct BoundList<A: Allocator> {
    pub(crate) chords: Vec<KeyEvent, A>,
    pub(crate) action: String<A>,
}

// A bound list that some keys begin with: its number, and how many chords it has.
#[derive(Clone, Copy)]
pub(crate) struct Match {
    pub(crate) number: usize,
    pub(crate) count: usize,
}

// What some chords lead to: the number of the list that is bound to just them, and whether a longer one begins with them.
#[derive(Clone, Copy)]
pub(crate) struct Place {
    pub(crate) number: Option<usize>,
    pub(crate) begun: bool,
}

// What becomes of an event.
#[derive(Clone, Copy)]
pub(crate) enum Way {
    // It is a key that is fed.
    Feed(KeyEvent),
    // It is passed on, and the keys before it wait as they did.
    Pass,
    // It flushes, and is then passed on.
    Follow,
}
