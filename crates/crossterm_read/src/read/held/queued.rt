//! Held events in queues by kind.
ghost use Rattle.std.specs.Prelude.{◌≡◌, ◌+◌, ◌-◌, ◌<◌, ◌≤◌, IfOk, IfErr, List, [], ◌∷◌, length, map, is_some};
ghost use Rattle.std.specs.Iterator.{YieldsFirstBy, item_count};
ghost use Rattle.std.specs.Bool.{OnFalse, OnTrue};
ghost use Rattle.std.specs.Option.{option_map};
ghost use Rattle.crossterm_types.specs.Seen.{Seen, seen};
ghost use Rattle.crossterm_read.specs.inside.Asking.{held_with};
ghost use Rattle.crossterm_read.specs.inside.Queues.{AreJoined, AreKept, behind, joined, member_kept, queues_of};
ghost use Rattle.crossterm_read.specs.inside.Replies.{kept};
ghost use Rattle.crossterm_read.specs.Store.{Holding, next_number};
ghost use Rattle.crossterm_read.specs.Steps.{TakeReplies, first_admitted};

use crate::read::held::Taken;
use crate::read::held::kind::Places;
use crate::read::held::queues::{ALL, Member, Queues};
use crossterm_types::event::InternalEvent;
use crossterm_types::event::filter::Filter;
use std::alloc::{AllocError, Allocator};
use std::marker::Model;

// The events in the queues, in the order of their arrival.
#[derive(Drop)]
pub(crate) struct Queued<'a, A: Allocator> {
    queues: &'a Option<Queues<A>>,
    at: Places,
}

impl<'a, A: Allocator> Model for Queued<'a, A> {
    ghost Value = { List Seen };

    ghost view = { λ h. map (λ m. seen m.event) (joined (behind (queues_of h.queues.now) h.at)) };

    ghost invariant = { λ h. AreJoined (behind (queues_of h.queues.now) h.at) };
}

impl<'a, A: Allocator> Iterator for Queued<'a, A> {
    type Item = &'a InternalEvent<A>;

    ghost next_gives = { YieldsFirstBy (λ event. seen event.now) (λ rest. rest) };

    ghost remaining = { item_count (λ rest. rest) };

    fn next(&mut self) -> Option<&'a InternalEvent<A>> {
        match self.queues {
            Some(queues) => {
                let front = queues.earliest(ALL, self.at)?;
                self.at = self.at.after(front.kind);
                Some(&front.member.event)
            }
            None => None,
        }
    }
}

// The held events, each with its arrival number, in queues by kind, and the arrival number of the next one.
#[derive(Drop)]
pub(crate) struct QueuedEvents<A: Allocator> {
    alloc: A,
    // They are made with the first room.
    queues: Option<Queues<A>>,
    // How many are held, and how many find room in each queue.
    len: usize,
    limit: usize,
    next_order: u64,
    arrivals: u64,
}

impl<A: Allocator> Model for QueuedEvents<A> {
    ghost Value = { Holding };

    ghost view = { λ h. record { store = record { held = map member_kept (joined (queues_of h.queues)); arrivals = h.arrivals }; room = h.limit - h.len } };

    ghost invariant = { λ h. AreKept h.queues h.len h.limit h.next_order };
}

impl<A: Allocator + Clone> QueuedEvents<A> {
    // Makes room for one event, of whichever kind.
    #[inline(always)]
    pub(crate) fn reserve(&mut self) -> Result<(), AllocError>
        ensures store { self.new.store ≡ self.old.store }
        ensures room { self.old.room ≤ self.new.room }
        ensures ok { IfOk result (λ _. 0 < self.new.room) }
        ensures err { IfErr result (λ _. (self.new ≡ self.old) × (self.old.room ≡ 0)) }
    {
        if self.len < self.limit {
            return Ok(());
        }
        self.grow()
    }

    // Makes more room.
    #[inline(never)]
    fn grow(&mut self) -> Result<(), AllocError>
        requires { self.old.room ≡ 0 }
        ensures store { self.new.store ≡ self.old.store }
        ensures ok { IfOk result (λ _. 0 < self.new.room) }
        ensures err { IfErr result (λ _. self.new ≡ self.old) }
    {
        let more = self.len.saturating_mul(2).max(3);
        match &mut self.queues {
            Some(queues) => match queues.reserve_beyond(more) {
                Ok(limit) => self.limit = limit,
                Err(error) => return Err(error),
            },
            None => {
                let mut queues = Queues::new(&self.alloc)?;
                self.limit = queues.reserve_beyond(more)?;
                self.queues = Some(queues);
            }
        }
        Ok(())
    }
}

impl<A: Allocator> QueuedEvents<A> {
    // Nothing is held yet, and there is no room yet.
    pub(crate) fn new(alloc: A) -> Self
        ensures { result ≡ record { store = record { held = []; arrivals = 0 }; room = 0 } }
    {
        QueuedEvents {
            alloc,
            queues: None,
            len: 0,
            limit: 0,
            next_order: 0,
            arrivals: 0,
        }
    }

    // The event joins the others at their end, with its number. It takes room that is there.
    pub(crate) fn push_reserved(&mut self, taken: Taken<InternalEvent<A>>)
        requires { 0 < self.old.room }
        ensures store { self.new.store ≡ held_with self.old.store (kept taken) }
        ensures room { self.new.room + 1 ≡ self.old.room }
    {
        match &mut self.queues {
            Some(queues) => {
                let order = queues.order_from(self.next_order);
                queues.push_reserved(Member {
                    event: taken.event,
                    arrival: taken.number,
                    order,
                });
                self.next_order = order + 1;
                self.len += 1;
            }
            None => unreachable!(),
        }
    }

    // How many are held.
    #[inline(always)]
    pub(crate) fn len(&self) -> usize
        ensures { result ≡ length self.now.store.held }
    {
        self.len
    }

    // Whether there is room for more than so many.
    #[inline(always)]
    pub(crate) fn has_room_beyond(&self, count: usize) -> bool
        ensures yes { OnTrue result (count < length self.now.store.held + self.now.room) }
        ensures no { OnFalse result (length self.now.store.held + self.now.room ≤ count) }
    {
        count < self.limit
    }

    // The number of the next event.
    pub(crate) fn next_number(&mut self) -> u64
        ensures number { result ≡ self.old.store.arrivals }
        ensures held { self.new.store.held ≡ self.old.store.held }
        ensures arrivals { self.new.store.arrivals ≡ next_number self.old.store.arrivals }
        ensures room { self.new.room ≡ self.old.room }
    {
        let number = self.arrivals;
        self.arrivals = number.saturating_add(1);
        number
    }

    // Whether an event is held that is admitted.
    pub(crate) fn holds<F: Filter>(&self, filter: &F) -> bool
        ensures { result ≡ is_some (first_admitted (F.admits filter.now) self.now.store.held) }
    {
        match &self.queues {
            Some(queues) => queues.place(filter).is_some(),
            None => false,
        }
    }

    // Takes the first event that is admitted, with its number. Its room stays.
    pub(crate) fn take<F: Filter>(&mut self, filter: &F) -> Option<Taken<InternalEvent<A>>>
        ensures step { TakeReplies (F.admits filter.now) self.old.store self.new.store (option_map kept result) }
        ensures room { length self.new.store.held + self.new.room ≡ length self.old.store.held + self.old.room }
    {
        match &mut self.queues {
            Some(queues) => match queues.take(filter) {
                Some(member) => {
                    self.len -= 1;
                    Some(Taken {
                        event: member.event,
                        number: member.arrival,
                    })
                }
                None => None,
            },
            None => None,
        }
    }

    // How many events arrived, as far as the numbers go.
    pub(crate) fn arrivals(&self) -> u64
        ensures { result ≡ self.now.store.arrivals }
    {
        self.arrivals
    }

    // The events, in the order of their arrival.
    pub(crate) fn iter(&self) -> Queued<'_, A>
        ensures { result ≡ map (λ h. h.0) self.now.store.held }
    {
        Queued {
            queues: &self.queues,
            at: Places::FRONTS,
        }
    }
}
