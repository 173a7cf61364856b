//! The slot that holds a shared reader: callers take it out, wait for it, and put it back.
ghost use Rattle.std.specs.Prelude.{◌≡◌, ◌≤◌, ◌<◌, ◌-◌, ℕ, suc, All, map, Option, Some, None, IfSome, IfNone, IfOk, IfErr};
ghost use Rattle.std.specs.IoError.{error_kind};
ghost use Rattle.std.specs.List.{range_with_len};
ghost use Rattle.std.specs.declared.io.ErrorKind.TheVariants.{OutOfMemory};
ghost use Rattle.crossbeam_queue.specs.Passes as queues;
ghost use Rattle.crossbeam_queue.specs.Passes.{IsSamePass, ruled_capacity, view};
ghost use Rattle.crossterm_types.specs.Timing.{HasElapsed, KeepsFirst};
ghost use Rattle.crossterm_read.specs.History.{opened};
ghost use Rattle.crossterm_read.specs.PassViews.{IsInSlot, knows, pass_number};
ghost use Rattle.crossterm_read.specs.Store.{ReaderState};
ghost use Rattle.crossterm_read.specs.inside.Slot.{ProducesCall, Learnt, Put, Took, first_pass, one_less, one_more, taught};

use crate::read::InternalEventReader;
use crate::read::shared::boxed::Boxed;
use crate::read::shared::known::Known;
use crate::read::shared::pass::Pass;
use crate::read::shared::rule::{
    Another, Left, Made, OneAndTheSame, OneHistory, Opens, Others, Puts, SlotPass, Takes, TakesIn,
};
use crate::source::{EventSource, Waker};
use crossbeam_queue::RuledArrayQueue;
use crossterm_types::event::timeout::{Clock, PollTimeout, Still};
use std::alloc::Allocator;
use std::boxed::Box;
use std::io;
use std::sync::{Condvar, Wait};
use std::time::Duration;

/// The slot that holds the reader, and beside it what reports each put.
#[derive(Drop)]
pub struct Slot<S: EventSource<A>, A: Allocator> {
    pub(crate) queue: RuledArrayQueue<Boxed<S, A>, Known<S>, OneHistory, A>,
    pub(crate) puts: Condvar,
    pub(crate) waker: Waker,
    ghost one: { ruled_capacity queue ≡ 1 },
}

impl<S: EventSource<A>, A: Allocator + Clone> Slot<S, A> {
    // The reader is in the slot. The first pass represents so many others.
    pub(crate) fn new<M: Others, R: Wait>(
        rt: &R,
        alloc: A,
        reader: InternalEventReader<S, A>,
        others: usize,
    ) -> io::Result<(Slot<S, A>, SlotPass<S, A>)>
        requires { M.others ≡ others }
        ensures first { IfOk result (λ r. queues.IsPassOf r.0.queue r.1 × (view r.1 ≡ first_pass reader others others)) }
        ensures err { IfErr result (λ e. error_kind e ≡ OutOfMemory) }
    {
        let waker = reader.waker()?;
        let _fits_u64 = reader.arrivals();
        let reader = Box::new(alloc.clone()?, reader)?;
        let (queue, mut first) = RuledArrayQueue::ruled(alloc, 1)?;
        match queue.push_as::<Opens<M>, R>(rt, &mut first, Boxed { reader }) {
            Ok(()) => {}
            Err(_) => unreachable!(),
        }
        Ok((
            Slot {
                queue,
                puts: Condvar::new(),
                waker,
            },
            first,
        ))
    }
}

impl<S: EventSource<A>, A: Allocator> Slot<S, A> {
    // So many passes of the reader. The first one is over this pass of the slot.
    pub(crate) fn passes(
        &self,
        alloc: A,
        first: SlotPass<S, A>,
        passes: usize,
    ) -> io::Result<Vec<Pass<S, A>, A>>
        requires slot_pass { queues.IsPassOf self.now.queue first }
        requires first { (o : ReaderState S) × (view first ≡ first_pass o (passes - 1) (passes - 1)) }
        ensures numbers { IfOk result (λ made. map pass_number made.items ≡ range_with_len 0 passes) }
        ensures passes { IfOk result (λ made. (o : ReaderState S) → view first ≡ first_pass o (passes - 1) (passes - 1) → All (λ p. IsInSlot self.now.queue p × (knows p ≡ opened o passes (pass_number p))) made.items) }
        ensures err { IfErr result (λ e. error_kind e ≡ OutOfMemory) }
    {
        let mut made = Vec::with_capacity(alloc, passes)?;
        if passes == 0 {
            return Ok(made);
        }
        let mut first = first;
        for _ in 1..passes {
            made.push(self.another(&mut first))?;
        }
        made.insert(0, Pass::in_slot(first))?;
        Ok(made)
    }

    // One of the passes that the first one represents.
    pub(crate) fn another(&self, first: &mut SlotPass<S, A>) -> Pass<S, A>
        requires slot_pass { queues.IsPassOf self.now.queue first.old }
        requires first { (o : ReaderState S) × (others : ℕ) × (left : ℕ) × (left < others) × (view first.old ≡ first_pass o others (suc left)) }
        ensures slot_pass { queues.IsPassOf self.now.queue first.new }
        ensures left { view first.new ≡ one_less (view first.old) }
        ensures table { result.slot_pass.table_id ≡ self.now.queue.table.shared.table_id }
        ensures pass { view result.slot_pass ≡ one_more (view first.old) }
    {
        Pass::in_slot(self.queue.another::<Another>(first))
    }

    // A pass takes in what another has seen.
    pub(crate) fn meet<M: Left<Known<S>>>(&self, one: &mut SlotPass<S, A>, other: SlotPass<S, A>)
        requires slot_passes { queues.IsPassOf self.now.queue one.old × queues.IsPassOf self.now.queue other }
        requires opened { (o : ReaderState S) × ((view one.old).opening ≡ Some o) }
        requires left { M.left ≡ view other }
        ensures slot_pass { IsSamePass one.old one.new }
        ensures taught { view one.new ≡ taught (view one.old) (view other) }
        ensures learnt { Learnt S.drawn (view one.new) }
    {
        self.queue.absorb::<TakesIn<M>>(one, other);
        self.queue.learn_as::<OneAndTheSame>(one);
    }

    // Takes the reader out, and waits for it until the limit has passed.
    pub(crate) fn take_within<C: Clock, R: Wait>(
        &self,
        rt: &R,
        slot_pass: &mut SlotPass<S, A>,
        timeout: &PollTimeout,
        clock: &mut C,
    ) -> Option<Box<InternalEventReader<S, A>, A>>
        requires slot_pass { queues.IsPassOf self.now.queue slot_pass.old }
        requires opened { (o : ReaderState S) × ((view slot_pass.old).opening ≡ Some o) }
        ensures slot_pass { IsSamePass slot_pass.old slot_pass.new }
        ensures later { C.latest clock.old ≤ C.latest clock.new }
        ensures first { KeepsFirst C.began clock.old clock.new }
        ensures taken { IfSome result (λ x. Took S.drawn (view slot_pass.old) x.value (view slot_pass.new)) }
        ensures passed { IfNone result ((view slot_pass.new ≡ view slot_pass.old) × HasElapsed timeout.now (C.latest clock.new)) }
    {
        for _ in rt.forever() {
            let seen = self.puts.notifications();
            match self.queue.pop_as::<Takes, R>(rt, slot_pass) {
                Some(boxed) => return Some(boxed.unboxed()),
                None => {}
            }
            let now = clock.now();
            if timeout.elapsed(now) {
                return None;
            }
            self.wait(rt, seen, timeout.leftover(now));
        }
        unreachable!()
    }

    // Waits for a put that comes after those that were seen, no longer than this limit.
    fn wait<R: Wait>(&self, rt: &R, seen: u64, limit: Option<Duration>) {
        match limit {
            Some(limit) => self.puts.sleep(rt, seen, limit),
            None => self.puts.sleep(rt, seen, Duration::MAX),
        }
    }

    // Takes the reader out, and waits for it.
    pub(crate) fn take<R: Wait>(
        &self,
        rt: &R,
        slot_pass: &mut SlotPass<S, A>,
    ) -> Box<InternalEventReader<S, A>, A>
        requires slot_pass { queues.IsPassOf self.now.queue slot_pass.old }
        requires opened { (o : ReaderState S) × ((view slot_pass.old).opening ≡ Some o) }
        ensures slot_pass { IsSamePass slot_pass.old slot_pass.new }
        ensures taken { Took S.drawn (view slot_pass.old) result.value (view slot_pass.new) }
    {
        let forever = PollTimeout::new(None, Duration::ZERO);
        match self.take_within(rt, slot_pass, &forever, &mut Still) {
            Some(reader) => reader,
            None => unreachable!(),
        }
    }

    // Takes the reader out, if it is there. It waits for nobody.
    pub(crate) fn try_take<R: Wait>(
        &self,
        rt: &R,
        slot_pass: &mut SlotPass<S, A>,
    ) -> Option<Box<InternalEventReader<S, A>, A>>
        requires slot_pass { queues.IsPassOf self.now.queue slot_pass.old }
        requires opened { (o : ReaderState S) × ((view slot_pass.old).opening ≡ Some o) }
        ensures slot_pass { IsSamePass slot_pass.old slot_pass.new }
        ensures taken { IfSome result (λ x. Took S.drawn (view slot_pass.old) x.value (view slot_pass.new)) }
        ensures same { IfNone result (view slot_pass.new ≡ view slot_pass.old) }
    {
        match self.queue.pop_as::<Takes, R>(rt, slot_pass) {
            Some(boxed) => Some(boxed.unboxed()),
            None => None,
        }
    }

    // Takes the reader out for good.
    pub(crate) fn emptied<R: Wait>(
        self,
        rt: &R,
        slot_pass: &mut SlotPass<S, A>,
    ) -> Option<InternalEventReader<S, A>>
        requires slot_pass { queues.IsPassOf self.queue slot_pass.old }
        requires opened { (o : ReaderState S) × ((view slot_pass.old).opening ≡ Some o) }
        ensures slot_pass { IsSamePass slot_pass.old slot_pass.new }
        ensures taken { IfSome result (λ x. Took S.drawn (view slot_pass.old) x (view slot_pass.new)) }
        ensures same { IfNone result (view slot_pass.new ≡ view slot_pass.old) }
    {
        match self.try_take(rt, slot_pass) {
            Some(reader) => Some(Box::into_inner(reader)),
            None => None,
        }
    }

    // Puts the reader back after one call. The last says what the call was about, for the picks of `M`.
    pub(crate) fn put<M: Made<Boxed<S, A>>, T, R: Wait>(
        &self,
        rt: &R,
        slot_pass: &mut SlotPass<S, A>,
        reader: Box<InternalEventReader<S, A>, A>,
        _about: &T,
    )
        requires slot_pass { queues.IsPassOf self.now.queue slot_pass.old }
        requires produces { ProducesCall S.drawn M.made (view slot_pass.old) reader.value }
        ensures slot_pass { IsSamePass slot_pass.old slot_pass.new }
        ensures put { Put S.drawn M.made (view slot_pass.old) reader.value (view slot_pass.new) }
    {
        match self
            .queue
            .push_as::<Puts<M>, R>(rt, slot_pass, Boxed { reader })
        {
            Ok(()) => self.puts.notify_one(),
            Err(_) => unreachable!(),
        }
    }
}
