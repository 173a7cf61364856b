//! The events that a reader holds: one that is ready, or all in queues by kind.
ghost use Rattle.std.specs.Prelude.{◌≡◌, ◌+◌, ◌-◌, ◌<◌, ◌≤◌, IfOk, IfErr, List, [], None, length, map, is_some};
ghost use Rattle.std.specs.Iterator.{YieldsFirstBy, item_count};
ghost use Rattle.std.specs.Option.{option_map};
ghost use Rattle.crossterm_types.specs.Seen.{Seen, seen};
ghost use Rattle.crossterm_read.specs.inside.Asking.{held_with};
ghost use Rattle.crossterm_read.specs.inside.Ready.{IsReadyAlone, held_by, one_of, seen_by};
ghost use Rattle.crossterm_read.specs.inside.Replies.{kept};
ghost use Rattle.crossterm_read.specs.Store.{Holding, next_number};
ghost use Rattle.crossterm_read.specs.Steps.{TakeReplies, first_admitted};

mod kind;
mod queued;
mod queues;

use self::queued::{Queued, QueuedEvents};
use crossterm_types::event::InternalEvent;
use crossterm_types::event::filter::Filter;
use std::alloc::{AllocError, Allocator, Global};
use std::marker::Model;

/// The events that a reader holds, in the order of their arrival.
#[derive(Drop)]
pub struct Held<'a, A: Allocator = Global> {
    ready: Option<&'a InternalEvent<A>>,
    queued: Queued<'a, A>,
}

impl<'a, A: Allocator> Model for Held<'a, A> {
    ghost Value = { List Seen };

    ghost view = { λ h. seen_by h.ready h.queued };
}

impl<'a, A: Allocator> Iterator for Held<'a, A> {
    type Item = &'a InternalEvent<A>;

    ghost next_gives = { YieldsFirstBy (λ event. seen event.now) (λ rest. rest) };

    ghost remaining = { item_count (λ rest. rest) };

    fn next(&mut self) -> Option<&'a InternalEvent<A>> {
        match self.ready.take() {
            Some(event) => Some(event),
            None => self.queued.next(),
        }
    }
}

// What was taken, an event or what a reply reports, and its arrival number.
#[derive(Drop)]
pub(crate) struct Taken<E> {
    pub(crate) event: E,
    pub(crate) number: u64,
}

// The held events, each with its arrival number, and the number of the next one.
#[derive(Drop)]
pub(crate) struct HeldEvents<A: Allocator> {
    // One event is held here while no other is, so that a poll and a read of it take no queue. Its room in the queues stays free.
    ready: Option<Taken<InternalEvent<A>>>,
    queued: QueuedEvents<A>,
    // How many are held.
    len: usize,
}

impl<A: Allocator> Model for HeldEvents<A> {
    ghost Value = { Holding };

    ghost view = { λ h. record { store = record { held = held_by h.ready h.queued.store.held; arrivals = h.queued.store.arrivals }; room = h.queued.room - one_of h.ready } };

    ghost invariant = { λ h. IsReadyAlone h.ready h.queued × (h.len ≡ length (held_by h.ready h.queued.store.held)) };
}

// An event that is ready goes into its queue.
#[inline(never)]
fn queue_ready<A: Allocator>(
    ready: &mut Option<Taken<InternalEvent<A>>>,
    queued: &mut QueuedEvents<A>,
)
    requires { IsReadyAlone ready.old queued.old }
    ensures ready { ready.new ≡ None }
    ensures held { queued.new.store.held ≡ held_by ready.old queued.old.store.held }
    ensures arrivals { queued.new.store.arrivals ≡ queued.old.store.arrivals }
    ensures room { queued.new.room ≡ queued.old.room - one_of ready.old }
{
    match ready.take() {
        Some(taken) => queued.push_reserved(taken),
        None => {}
    }
}

impl<A: Allocator + Clone> HeldEvents<A> {
    // Makes room for one event, of whichever kind.
    #[inline(always)]
    pub(crate) fn reserve(&mut self) -> Result<(), AllocError>
        ensures store { self.new.store ≡ self.old.store }
        ensures room { self.old.room ≤ self.new.room }
        ensures ok { IfOk result (λ _. 0 < self.new.room) }
        ensures err { IfErr result (λ _. (self.new ≡ self.old) × (self.old.room ≡ 0)) }
    {
        if self.queued.has_room_beyond(self.len) {
            return Ok(());
        }
        self.make_room()
    }

    // The same, without a faster way if there is room.
    #[inline(never)]
    fn make_room(&mut self) -> Result<(), AllocError>
        ensures store { self.new.store ≡ self.old.store }
        ensures room { self.old.room ≤ self.new.room }
        ensures ok { IfOk result (λ _. 0 < self.new.room) }
        ensures err { IfErr result (λ _. (self.new ≡ self.old) × (self.old.room ≡ 0)) }
    {
        queue_ready(&mut self.ready, &mut self.queued);
        self.queued.reserve()
    }
}

impl<A: Allocator> HeldEvents<A> {
    // Nothing is held yet, and there is no room yet.
    pub(crate) fn new(alloc: A) -> Self
        ensures { result ≡ record { store = record { held = []; arrivals = 0 }; room = 0 } }
    {
        HeldEvents {
            ready: None,
            queued: QueuedEvents::new(alloc),
            len: 0,
        }
    }

    // The event joins the others at their end, with its number. It takes room that is there.
    pub(crate) fn push_reserved(&mut self, taken: Taken<InternalEvent<A>>)
        requires { 0 < self.old.room }
        ensures store { self.new.store ≡ held_with self.old.store (kept taken) }
        ensures room { self.new.room + 1 ≡ self.old.room }
    {
        if self.len == 0 {
            self.ready = Some(taken);
            self.len = 1;
            return;
        }
        queue_ready(&mut self.ready, &mut self.queued);
        self.queued.push_reserved(taken);
        self.len = self.queued.len();
    }

    // The number of the next event.
    pub(crate) fn next_number(&mut self) -> u64
        ensures number { result ≡ self.old.store.arrivals }
        ensures held { self.new.store.held ≡ self.old.store.held }
        ensures arrivals { self.new.store.arrivals ≡ next_number self.old.store.arrivals }
        ensures room { self.new.room ≡ self.old.room }
    {
        self.queued.next_number()
    }

    // Whether an event is held that is admitted.
    pub(crate) fn holds<F: Filter>(&self, filter: &F) -> bool
        ensures { result ≡ is_some (first_admitted (F.admits filter.now) self.now.store.held) }
    {
        if self.len == 0 {
            return false;
        }
        match &self.ready {
            Some(taken) => filter.eval(&taken.event),
            None => self.queued.holds(filter),
        }
    }

    // Takes the first event that is admitted, with its number. Its room stays.
    #[inline(always)]
    pub(crate) fn take<F: Filter>(&mut self, filter: &F) -> Option<Taken<InternalEvent<A>>>
        ensures step { TakeReplies (F.admits filter.now) self.old.store self.new.store (option_map kept result) }
        ensures room { length self.new.store.held + self.new.room ≡ length self.old.store.held + self.old.room }
    {
        if self.len == 0 {
            return None;
        }
        self.take_held(filter)
    }

    // The same, without a faster way if none is held.
    #[inline(never)]
    fn take_held<F: Filter>(&mut self, filter: &F) -> Option<Taken<InternalEvent<A>>>
        ensures step { TakeReplies (F.admits filter.now) self.old.store self.new.store (option_map kept result) }
        ensures room { length self.new.store.held + self.new.room ≡ length self.old.store.held + self.old.room }
    {
        match &self.ready {
            Some(taken) => {
                if filter.eval(&taken.event) {
                    self.len = 0;
                    return self.ready.take();
                }
                None
            }
            None => {
                let taken = self.queued.take(filter);
                self.len = self.queued.len();
                taken
            }
        }
    }

    // How many events arrived, as far as the numbers go.
    pub(crate) fn arrivals(&self) -> u64
        ensures { result ≡ self.now.store.arrivals }
    {
        self.queued.arrivals()
    }

    // The events, in the order of their arrival.
    pub(crate) fn iter(&self) -> Held<'_, A>
        ensures { result ≡ map (λ h. h.0) self.now.store.held }
    {
        let ready = match &self.ready {
            Some(taken) => Some(&taken.event),
            None => None,
        };
        Held {
            ready,
            queued: self.queued.iter(),
        }
    }
}
