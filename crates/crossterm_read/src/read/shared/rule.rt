//! The rule of the slot, and what each step on it says.
ghost use Rattle.std.specs.Prelude.{◌≡◌, ℕ, List, [], ⊤};
ghost use Rattle.crossterm_read.specs.History.{Entry};
ghost use Rattle.crossterm_read.specs.inside.Slot.{SlotRule, Learnt, Put, Took, first_pass, newcomer, one_less, one_more, taught};

use crate::read::shared::boxed::Boxed;
use crate::read::shared::known::Known;
use crate::source::EventSource;
use crossbeam_queue::Pass;
use crossbeam_queue::protocol::{Join, Lesson, Outcome, Protocol, Split};
use std::alloc::Allocator;
use std::marker::{Brand, PhantomData};

/// All calls are in one legal history.
pub struct OneHistory;

impl<S: EventSource<A>, A: Allocator> Protocol<Boxed<S, A>, Known<S>> for OneHistory {
    ghost holds = { SlotRule S.drawn };

    ghost first = { newcomer };
}

/// How many passes besides itself the first one represents.
pub trait Others {
    ghost others: { ℕ };
}

impl Others for Brand {
    ghost others = { 0 };
}

/// The reader is put in for the first time.
pub struct Opens<M>(PhantomData<M>);

impl<S: EventSource<A>, A: Allocator, M: Others> Outcome<Boxed<S, A>, Known<S>> for Opens<M> {
    ghost then = { λ v x w. w ≡ first_pass x M.others M.others };
}

impl<S: EventSource<A>, A: Allocator, M: Others> Lesson<Boxed<S, A>, Known<S>> for Opens<M> {
    ghost fact = { λ v items. items ≡ [] };
}

/// A pass is made of the first one.
pub struct Another;

impl<S> Split<Known<S>> for Another {
    ghost left = { one_less };

    ghost right = { one_more };
}

/// The reader is taken out.
pub struct Takes;

impl<S: EventSource<A>, A: Allocator> Outcome<Boxed<S, A>, Known<S>> for Takes {
    ghost then = { Took S.drawn };
}

impl<S: EventSource<A>, A: Allocator> Lesson<Boxed<S, A>, Known<S>> for Takes {
    ghost fact = { λ v items. ⊤ };
}

/// Which call was made, from which state of the reader to which.
pub trait Made<T> {
    ghost made: { T → Entry → T → Type 0 };
}

impl<T> Made<T> for Brand {
    ghost made = { λ found call left. ⊤ };
}

/// The reader is put back, after one call.
pub struct Puts<M>(PhantomData<M>);

impl<S: EventSource<A>, A: Allocator, M: Made<Boxed<S, A>>> Outcome<Boxed<S, A>, Known<S>>
    for Puts<M> {
    ghost then = { Put S.drawn M.made };
}

impl<S: EventSource<A>, A: Allocator, M: Made<Boxed<S, A>>> Lesson<Boxed<S, A>, Known<S>>
    for Puts<M> {
    ghost fact = { λ v items. items ≡ [] };
}

/// With what a pass that another met is left.
pub trait Left<V> {
    ghost left: { V };
}

impl<S> Left<Known<S>> for Brand {
    ghost left = { newcomer };
}

/// A pass takes in what another has seen.
pub struct TakesIn<M>(PhantomData<M>);

impl<S, M: Left<Known<S>>> Join<Known<S>> for TakesIn<M> {
    ghost both = { taught };

    ghost spent = { M.left };
}

/// What is learnt then.
pub struct OneAndTheSame;

impl<S: EventSource<A>, A: Allocator> Lesson<Boxed<S, A>, Known<S>> for OneAndTheSame {
    ghost fact = { λ v items. Learnt S.drawn v };
}

pub type SlotPass<S, A> = Pass<Boxed<S, A>, Known<S>>;
