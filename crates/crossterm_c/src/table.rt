//! A caller's table, which takes the events of sequences: events alone, or held ones with their numbers.
//!
//! Both are one type, so that what reads the sequences is compiled once, with all of it in one function.
ghost use Rattle.std.specs.Prelude.{◌≡◌, ◌-◌, ◌<◌, ◌≤◌, ◌∷◌, [], IsTrue, IsFalse};
ghost use Rattle.crossterm_c.specs.inside.Table.{Filled, PutsEvents, table_capacity, filled_none, filled_on};

use crate::held::GelvanhHeld;
use crossterm_parse::meaning::{Meaning, ascii_key, typed_key};
use crossterm_parse::outlet::Outlet;
use numbers::{GelvanhEvent, of_key, of_meaning};

/// A table of events, or of held events; the other slice isn't used.
#[derive(Drop)]
pub(crate) struct Table<'a> {
    /// Whether it is of held events.
    pub(crate) is_held: bool,
    pub(crate) events: &'a mut [GelvanhEvent],
    pub(crate) held: &'a mut [GelvanhHeld],
    /// How many of its places are filled.
    pub(crate) end: usize,
    /// The number of the next event that is held.
    pub(crate) number: u64,
}

impl Table<'_> {
    /// How many places it has.
    #[inline(always)]
    fn capacity(&self) -> usize
        ensures { result ≡ table_capacity self.now }
    {
        if self.is_held {
            self.held.len()
        } else {
            self.events.len()
        }
    }

    /// Whether all its places are filled.
    #[inline(always)]
    pub(crate) fn is_full(&self) -> bool
        ensures yes { IsTrue result → table_capacity self.now ≤ self.now.end }
        ensures no { IsFalse result → self.now.end < table_capacity self.now }
    {
        self.end >= self.capacity()
    }

    /// Puts an event behind the places that are filled.
    #[inline(always)]
    pub(crate) fn push(&mut self, event: GelvanhEvent)
        requires { self.old.end < table_capacity self.old }
        ensures { PutsEvents self.old (event ∷ []) self.new }
    {
        if self.is_held {
            self.held[self.end] = GelvanhHeld {
                event,
                arrival: self.number,
            };
            self.number = self.number.saturating_add(1);
        } else {
            self.events[self.end] = event;
        }
        self.end += 1;
    }
}

impl Outlet for Table<'_> {
    ghost given = { Filled };

    ghost room = { λ t. table_capacity t - t.end };

    ghost typed_room = { λ t. table_capacity t - t.end };

    ghost given_none = { filled_none };

    ghost given_on = { filled_on };

    #[inline(always)]
    fn has_room(&mut self) -> bool {
        self.end < self.capacity()
    }

    #[inline(always)]
    fn room_now(&self) -> usize {
        self.capacity().saturating_sub(self.end)
    }

    #[inline(always)]
    fn give(&mut self, meaning: Meaning) {
        self.push(of_meaning(meaning));
    }

    #[inline(always)]
    fn typed_room_now(&self) -> usize {
        self.room_now()
    }

    #[inline(always)]
    fn give_typed(&mut self, c: char) -> bool {
        if self.is_full() {
            return false;
        }
        self.push(of_key(typed_key(c)));
        true
    }

    #[inline(always)]
    fn give_letters(&mut self, letters: &[u8]) {
        for letter in letters {
            self.push(of_key(ascii_key(*letter)));
        }
    }
}
