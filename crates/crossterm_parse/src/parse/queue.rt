//! The events that a parser has not yet given.
ghost use Rattle.std.specs.Prelude.{◌≡◌, ◌≢◌, ◌+◌, ◌-◌, ◌≤◌, ◌<◌, [], ◌∷◌, ◌++◌, drop, length, map, IsTrue, IsFalse, IfNone, IfSome, OnOk, OnErr};
ghost use Rattle.std.specs.String.{string_bytes};
ghost use Rattle.std.specs.VecDeque.{deque_len, deque_capacity};
ghost use Rattle.crossterm_types.specs.Seen.{seen};
ghost use Rattle.crossterm_types.specs.Seen.{Key, Paste};
ghost use Rattle.crossterm_parse.specs.inside.Queue.{QueueView, Grew, grew_none, grew_on, typed_room, typed_seen};

use super::typed::Typed;
use crate::meaning::{Meaning, ascii_key, typed_key};
use crate::outlet::Outlet;
use crossterm_types::event::{Event, InternalEvent, KeyEvent};
use std::alloc::{AllocError, Allocator};
use std::collections::VecDeque;
use std::marker::Model;
use std::string::String;

// For how many events room is made at least.
const LEAST_EVENTS: usize = 4;

/// The events in order. Those of typed characters are in a table, as long as no other event waits behind them.
#[derive(Drop)]
pub(super) struct Queue<A: Allocator> {
    // They precede the events.
    typed: Typed,
    events: VecDeque<InternalEvent<A>, A>,
}

impl<A: Allocator> Model for Queue<A> {
    ghost Value = { QueueView };

    ghost view = { λ q. record {
      waiting = map typed_seen q.typed.waiting ++ map seen q.events.items;
      typed = length q.typed.waiting;
      room = deque_capacity q.events - deque_len q.events;
      typed_room = typed_room q.typed.room (deque_len q.events) (deque_capacity q.events);
    } };
}

impl<A: Allocator + Clone> Queue<A> {
    /// No events.
    pub(super) fn new(alloc: A) -> Self
        ensures { result.waiting ≡ [] }
    {
        Queue {
            typed: Typed::new(),
            events: VecDeque::new(alloc),
        }
    }

    /// The allocator.
    pub(super) fn allocator(&self) -> &A {
        self.events.allocator()
    }

    /// Whether there are none.
    #[inline(always)]
    pub(super) fn is_empty(&self) -> bool
        ensures yes { IsTrue result → self.now.waiting ≡ [] }
        ensures no { IsFalse result → self.now.waiting ≢ [] }
    {
        self.typed.is_empty() && self.events.is_empty()
    }

    /// How many events there are.
    pub(super) fn len(&self) -> usize
        ensures { result ≡ length self.now.waiting }
    {
        self.typed.len() + self.events.len()
    }

    /// Makes room for so many more events.
    pub(super) fn reserve(&mut self, count: usize) -> Result<(), AllocError>
        ensures waiting { self.new.waiting ≡ self.old.waiting }
        ensures ok { OnOk result (count ≤ self.new.room) }
        ensures full { OnErr result (self.old.room < count) }
        ensures room { self.old.room ≤ self.new.room }
    {
        self.events.reserve(count)
    }

    /// Has all places for typed characters if none waits.
    #[inline(always)]
    pub(super) fn rewind(&mut self)
        ensures { (self.new.waiting ≡ self.old.waiting) × (self.new.typed ≡ self.old.typed) × (self.new.room ≡ self.old.room) }
    {
        self.typed.rewind();
    }

    // Makes room for more events: as many as there are, and some at least.
    #[inline(never)]
    fn grow(&mut self) -> bool
        requires { self.old.room ≡ 0 }
        ensures waiting { self.new.waiting ≡ self.old.waiting }
        ensures some { IsTrue result → (0 < self.new.room) × (0 < self.new.typed_room) }
        ensures none { IsFalse result → self.new.room ≡ 0 }
    {
        let count = self.events.len().max(LEAST_EVENTS);
        self.events.reserve_exact(count).is_ok()
    }

    /// Gives the event of a key, for which there is room.
    #[inline(always)]
    fn give_key(&mut self, key: KeyEvent)
        requires { 0 < self.old.room }
        ensures waiting { self.new.waiting ≡ self.old.waiting ++ Key key ∷ [] }
        ensures room { self.new.room + 1 ≡ self.old.room }
    {
        self.events
            .push_back_reserved(InternalEvent::Event(Event::Key(key)));
    }

    /// Gives the event of a paste, for which there is room.
    pub(super) fn give_paste(&mut self, text: String<A>)
        requires { 0 < self.old.room }
        ensures waiting { self.new.waiting ≡ self.old.waiting ++ Paste (string_bytes text) ∷ [] }
        ensures room { self.new.room + 1 ≡ self.old.room }
    {
        self.events
            .push_back_reserved(InternalEvent::Event(Event::Paste(text)));
    }

    /// The first event, which is taken out.
    #[inline(always)]
    pub(super) fn next(&mut self) -> Option<InternalEvent<A>>
        ensures none { IfNone result ((self.old.waiting ≡ []) × (self.new.waiting ≡ [])) }
        ensures some { IfSome result (λ event. self.old.waiting ≡ seen event ∷ self.new.waiting) }
        ensures capacity { length (drop self.new.typed self.new.waiting) + self.new.room ≡ length (drop self.old.typed self.old.waiting) + self.old.room }
        ensures room { self.old.room ≤ self.new.room }
    {
        if let Some(c) = self.typed.next() {
            return Some(InternalEvent::Event(Event::Key(typed_key(c))));
        }
        if self.events.is_empty() {
            return None;
        }
        self.events.pop_front()
    }
}

impl<A: Allocator + Clone> Outlet for Queue<A> {
    ghost given = { Grew };

    ghost room = { λ q. q.room };

    ghost typed_room = { λ q. q.typed_room };

    ghost given_none = { grew_none };

    ghost given_on = { grew_on };

    #[inline(always)]
    fn has_room(&mut self) -> bool {
        self.events.len() < self.events.capacity() || self.grow()
    }

    #[inline(always)]
    fn room_now(&self) -> usize {
        self.events.capacity().saturating_sub(self.events.len())
    }

    #[inline(always)]
    fn give(&mut self, meaning: Meaning) {
        match meaning {
            Meaning::Key(key) => self.give_key(key),
            Meaning::Mouse(mouse) => self
                .events
                .push_back_reserved(InternalEvent::Event(Event::Mouse(mouse))),
            meaning => self.events.push_back_reserved(InternalEvent::from(meaning)),
        }
    }

    #[inline(always)]
    fn typed_room_now(&self) -> usize {
        let room = self.typed.room();
        if room > 0 && self.events.is_empty() {
            room
        } else {
            self.room_now()
        }
    }

    #[inline(always)]
    fn give_typed(&mut self, c: char) -> bool {
        if self.events.is_empty() && self.typed.push(c) {
            return true;
        }
        if self.room_now() == 0 {
            return false;
        }
        self.give_key(typed_key(c));
        true
    }

    #[inline(always)]
    fn give_letters(&mut self, letters: &[u8]) {
        if self.events.is_empty() && letters.len() <= self.typed.room() {
            self.typed.extend(letters);
            return;
        }
        for letter in letters {
            self.give_key(ascii_key(*letter));
        }
    }
}
