//! The queues of a reader, one for each kind of event.
ghost use Rattle.std.specs.Prelude.{◌≡◌, ℕ, ◌+◌, ◌<◌, ◌≤◌, ◌^◌, ◌-◌, ◌++◌, ◌↔◌, [], ◌∷◌, true, false, if◌then◌else◌, length, map, slice_index_or, slice_set, remove, IfOk, IfSome, IsSome};
ghost use Rattle.std.specs.List.{AllByRecursion};
ghost use Rattle.std.specs.VecDeque.{deque_len, deque_capacity};
ghost use Rattle.crossterm_types.specs.Seen.{seen};
ghost use Rattle.crossterm_read.specs.inside.Kinds.{has_class, kind_of, queue_place, same_kind};
ghost use Rattle.crossterm_read.specs.inside.Queues.{AreJoined, FindsPlace, HaveRoom, IsEarliest, Joins, SameQueues, TakesMember, all_kinds, behind, earlier_of, joined, member_kept, numbered_anew, queue_of};

use super::kind::{Kind, Place, Places};
use crossterm_types::event::InternalEvent;
use crossterm_types::event::filter::{Classes, Filter};
use std::alloc::{AllocError, Allocator};
use std::collections::VecDeque;

// An event, its arrival number, and its order number. These rise along all that is held.
#[derive(Drop)]
pub(crate) struct Member<A: Allocator> {
    pub(crate) event: InternalEvent<A>,
    pub(crate) arrival: u64,
    pub(crate) order: u64,
}

// A member at its place in the queue of this kind.
#[derive(Clone, Copy)]
pub(crate) struct Front<'a, A: Allocator> {
    pub(crate) kind: Kind,
    pub(crate) member: &'a Member<A>,
}

// The members of each kind in the order of their arrival.
#[derive(Drop)]
pub(crate) struct Queues<A: Allocator> {
    events: VecDeque<Member<A>, A>,
    cursors: VecDeque<Member<A>, A>,
    flags: VecDeque<Member<A>, A>,
    attributes: VecDeque<Member<A>, A>,
}

// Of all classes.
pub(crate) const ALL: Classes = Classes {
    event: true,
    cursor: true,
    flags: true,
    attributes: true,
};

// The one of two with the lesser order number.
fn earlier<'a, A: Allocator>(
    first: Option<Front<'a, A>>,
    second: Option<Front<'a, A>>,
) -> Option<Front<'a, A>>
    ensures { result ≡ earlier_of first.entry second.entry }
{
    match (first, second) {
        (Some(a), Some(b)) => {
            if b.member.order < a.member.order {
                Some(b)
            } else {
                Some(a)
            }
        }
        (Some(a), None) => Some(a),
        (None, b) => b,
    }
}

// Makes room for more than so many members in all.
fn reserve_beyond<A: Allocator>(
    queue: &mut VecDeque<Member<A>, A>,
    count: usize,
) -> Result<(), AllocError>
    requires { deque_len queue.old ≤ count }
    ensures same { queue.new.items ≡ queue.old.items }
    ensures more { deque_capacity queue.old ≤ deque_capacity queue.new }
    ensures room { IfOk result (λ _. count < deque_capacity queue.new) }
{
    let Some(total) = count.checked_add(1) else {
        return Err(AllocError);
    };
    queue.reserve(total - queue.len())
}

// Removes the member at this place: the first one without moving the others.
fn remove_at<A: Allocator>(queue: &mut VecDeque<Member<A>, A>, at: usize) -> Option<Member<A>>
    ensures some { IsSome result ↔ (at < length queue.old.items) }
    ensures value { IfSome result (λ m. m ≡ slice_index_or queue.old.items at m) }
    ensures items { IfSome result (λ _. queue.new.items ≡ remove queue.old.items at) }
    ensures capacity { deque_capacity queue.new ≡ deque_capacity queue.old }
{
    if at == 0 {
        return queue.pop_front();
    }
    queue.remove(at)
}

// The member at this place gets an order number.
fn set_order<A: Allocator>(queue: &mut VecDeque<Member<A>, A>, at: usize, order: u64)
    requires { at < length queue.old.items }
    ensures items { (m : _) → m ≡ slice_index_or queue.old.items at m → queue.new.items ≡ slice_set queue.old.items at (record m { order = order }) }
    ensures capacity { deque_capacity queue.new ≡ deque_capacity queue.old }
{
    if let Some(member) = queue.get_mut(at) {
        member.order = order;
    }
}

impl<A: Allocator> Queues<A> {
    // Nothing is held yet, and there is no room yet.
    pub(crate) fn new(alloc: &A) -> Result<Self, AllocError>
    where
        A: Clone,
        ensures { IfOk result (λ queues. (kind : Kind) → queue_of queues kind ≡ []) }
    {
        Ok(Queues {
            events: VecDeque::new(alloc.clone()?),
            cursors: VecDeque::new(alloc.clone()?),
            flags: VecDeque::new(alloc.clone()?),
            attributes: VecDeque::new(alloc.clone()?),
        })
    }

    pub(crate) fn queue(&self, kind: Kind) -> &VecDeque<Member<A>, A>
        ensures { result.now.items ≡ queue_of self.now kind }
    {
        match kind {
            Kind::Event => &self.events,
            Kind::Cursor => &self.cursors,
            Kind::Flags => &self.flags,
            Kind::Attributes => &self.attributes,
        }
    }

    // The member of this kind at its place, if the kind is wanted.
    fn front(&self, wanted: Classes, at: Places, kind: Kind) -> Option<Front<'_, A>>
        ensures { IsEarliest (behind (queue_of self.now) at) (has_class wanted) (kind ∷ []) result }
    {
        if !kind.is_in(wanted) {
            return None;
        }
        let member = self.queue(kind).get(at.of(kind))?;
        Some(Front { kind, member })
    }

    // The member with the least order number among those at their places.
    pub(crate) fn earliest(&self, wanted: Classes, at: Places) -> Option<Front<'_, A>>
        ensures { IsEarliest (behind (queue_of self.now) at) (has_class wanted) all_kinds result }
    {
        let events = self.front(wanted, at, Kind::Event);
        let cursors = self.front(wanted, at, Kind::Cursor);
        let flags = self.front(wanted, at, Kind::Flags);
        let attributes = self.front(wanted, at, Kind::Attributes);
        earlier(events, earlier(cursors, earlier(flags, attributes)))
    }

    // The place of the first member that is admitted.
    pub(crate) fn place<F: Filter>(&self, filter: &F) -> Option<Place>
        requires { AreJoined (queue_of self.now) }
        ensures { FindsPlace (λ m. F.admits filter.now (seen m.event)) (queue_of self.now) result }
    {
        match filter.classes() {
            Some(classes) => match self.earliest(classes, Places::FRONTS) {
                Some(front) => Some(Place {
                    kind: front.kind,
                    at: 0,
                }),
                None => None,
            },
            None => self.walk(filter),
        }
    }

    // The place of the first member that is admitted, by a walk through all of them.
    fn walk<F: Filter>(&self, filter: &F) -> Option<Place>
        requires { AreJoined (queue_of self.now) }
        ensures { FindsPlace (λ m. F.admits filter.now (seen m.event)) (queue_of self.now) result }
    {
        let mut at = Places::FRONTS;
        while let Some(front) = self.earliest(ALL, at) {
            let kind = front.kind;
            if filter.eval(&front.member.event) {
                return Some(Place {
                    kind,
                    at: at.of(kind),
                });
            }
            at = at.after(kind);
        }
        None
    }

    // Makes room for more than so many members in each queue, and returns for how many there is room.
    pub(crate) fn reserve_beyond(&mut self, count: usize) -> Result<usize, AllocError>
        requires { (kind : Kind) → length (queue_of self.old kind) ≤ count }
        ensures same { SameQueues self.old self.new }
        ensures kept { (n : ℕ) → HaveRoom self.old n → HaveRoom self.new n }
        ensures room { IfOk result (λ room. (count < room) × HaveRoom self.new room) }
    {
        reserve_beyond(&mut self.events, count)?;
        reserve_beyond(&mut self.cursors, count)?;
        reserve_beyond(&mut self.flags, count)?;
        reserve_beyond(&mut self.attributes, count)?;
        let replies = self
            .cursors
            .capacity()
            .min(self.flags.capacity())
            .min(self.attributes.capacity());
        Ok(self.events.capacity().min(replies))
    }

    // The member joins the others of its kind at their end.
    pub(crate) fn push_reserved(&mut self, member: Member<A>)
        requires { (room : ℕ) × HaveRoom self.old room × ((kind : Kind) → length (queue_of self.old kind) < room) }
        ensures parts { (kind : Kind) → queue_of self.new kind ≡ queue_of self.old kind ++ (if same_kind kind (kind_of member.event) then member ∷ [] else []) }
        ensures room { (n : ℕ) → HaveRoom self.old n → HaveRoom self.new n }
    {
        match Kind::of(&member.event) {
            Kind::Event => self.events.push_back_reserved(member),
            Kind::Cursor => self.cursors.push_back_reserved(member),
            Kind::Flags => self.flags.push_back_reserved(member),
            Kind::Attributes => self.attributes.push_back_reserved(member),
        }
    }

    // Takes the first member that is admitted.
    pub(crate) fn take<F: Filter>(&mut self, filter: &F) -> Option<Member<A>>
        requires { AreJoined (queue_of self.old) }
        ensures takes { TakesMember (λ m. F.admits filter.now (seen m.event)) (queue_of self.old) (queue_of self.new) result }
        ensures room { (n : ℕ) → HaveRoom self.old n → HaveRoom self.new n }
    {
        match self.place(filter) {
            Some(place) => self.remove(place),
            None => None,
        }
    }

    // Removes the member at this place.
    fn remove(&mut self, place: Place) -> Option<Member<A>>
        ensures some { IsSome result ↔ (place.at < length (queue_of self.old place.kind)) }
        ensures value { IfSome result (λ m. m ≡ slice_index_or (queue_of self.old place.kind) place.at m) }
        ensures parts { IfSome result (λ _. (kind : Kind) → queue_of self.new kind ≡ (if same_kind kind place.kind then remove (queue_of self.old kind) place.at else queue_of self.old kind)) }
        ensures room { (n : ℕ) → HaveRoom self.old n → HaveRoom self.new n }
    {
        match place.kind {
            Kind::Event => remove_at(&mut self.events, place.at),
            Kind::Cursor => remove_at(&mut self.cursors, place.at),
            Kind::Flags => remove_at(&mut self.flags, place.at),
            Kind::Attributes => remove_at(&mut self.attributes, place.at),
        }
    }

    fn set_order(&mut self, place: Place, order: u64)
        requires { place.at < length (queue_of self.old place.kind) }
        ensures parts { (m : _) → m ≡ slice_index_or (queue_of self.old place.kind) place.at m → (kind : Kind)
            → queue_of self.new kind ≡ (if same_kind kind place.kind then slice_set (queue_of self.old kind) place.at (record m { order = order }) else queue_of self.old kind) }
        ensures room { (n : ℕ) → HaveRoom self.old n → HaveRoom self.new n }
    {
        match place.kind {
            Kind::Event => set_order(&mut self.events, place.at, order),
            Kind::Cursor => set_order(&mut self.cursors, place.at, order),
            Kind::Flags => set_order(&mut self.flags, place.at, order),
            Kind::Attributes => set_order(&mut self.attributes, place.at, order),
        }
    }

    // An order number above those of all members: the next one, or, if that is the greatest, one after they were numbered anew.
    pub(crate) fn order_from(&mut self, next: u64) -> u64
        requires { AreJoined (queue_of self.old) × AllByRecursion (λ m. m.order < next) (joined (queue_of self.old)) × (length (joined (queue_of self.old)) < 2 ^ 64 - 1) }
        ensures joins { AreJoined (queue_of self.new) }
        ensures same { map member_kept (joined (queue_of self.new)) ≡ map member_kept (joined (queue_of self.old)) }
        ensures below { AllByRecursion (λ m. m.order < result) (joined (queue_of self.new)) }
        ensures low { result < 2 ^ 64 - 1 }
        ensures room { (n : ℕ) → HaveRoom self.old n → HaveRoom self.new n }
    {
        if next < u64::MAX {
            return next;
        }
        self.renumber()
    }

    // Numbers the members anew, from 0, in their order, and returns the next number.
    fn renumber(&mut self) -> u64
        requires { AreJoined (queue_of self.old) × (length (joined (queue_of self.old)) < 2 ^ 64) }
        ensures order { Joins (numbered_anew 0 (joined (queue_of self.old))) (queue_of self.new) }
        ensures next { result ≡ length (joined (queue_of self.old)) }
        ensures room { (n : ℕ) → HaveRoom self.old n → HaveRoom self.new n }
    {
        let mut at = Places::FRONTS;
        let mut next = 0;
        while let Some(front) = self.earliest(ALL, at) {
            let kind = front.kind;
            let place = Place {
                kind,
                at: at.of(kind),
            };
            self.set_order(place, next);
            at = at.after(kind);
            next += 1;
        }
        next
    }
}
