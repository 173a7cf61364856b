//! Holds events in the order of their arrival.
ghost use Rattle.std.specs.Prelude.{◌≡◌, ◌≢◌, ◌⊎◌, ◌≤◌, ◌<◌, IfOk, IfErr, IfSome, IsTrue, ℕ, List, [], Option, None, is_some, map, true};
ghost use Rattle.std.specs.Bool.{OnTrue, OnFalse};
ghost use Rattle.std.specs.IoError.{error_kind};
ghost use Rattle.std.specs.Option.{option_map};
ghost use Rattle.std.specs.declared.io.ErrorKind.TheVariants.{Interrupted, OutOfMemory};
ghost use Rattle.crossterm_read.specs.declared.read.reader.AtWake.TheVariants.{GoesOn};
ghost use Rattle.crossterm_types.specs.Seen.{Seen, seen};
ghost use Rattle.crossterm_types.specs.Timing.{KeepsFirst};
ghost use Rattle.crossterm_read.specs.Answers.{SourceAnswer, IsOwn, IsSteady};
ghost use Rattle.crossterm_read.specs.Device.{AsksWith, AsksAtOnce};
ghost use Rattle.crossterm_read.specs.inside.Numbers.{IsOrderly};
ghost use Rattle.crossterm_read.specs.Replies.{Replied, poll_reply, shown, try_said};
ghost use Rattle.crossterm_read.specs.inside.Replies.{kept, try_reply};
ghost use Rattle.crossterm_read.specs.Store.{ReaderState, reader_capacity};
ghost use Rattle.crossterm_read.specs.Steps.{UpTo, NextStep, PollStep, ReadStep, RefusedOnlyWithoutRoom, TakeReplies, first_admitted};
ghost use Rattle.crossterm_read.specs.inside.Asking.{BreaksWhere, DrawsOne, HasPlace, IsRefused, held_with};

use crate::read::held::{Held, HeldEvents, Taken};
use crate::read::patience::{Patience, Tries};
use crate::source::{EventSource, Waker};
use crossterm_types::event::InternalEvent;
use crossterm_types::event::filter::Filter;
use crossterm_types::event::timeout::{Clock, Still};
use std::alloc::{Allocator, Global};
use std::io;
use std::marker::Model;
use std::time::Duration;

/// The reader of one thread: it holds the events of a source, in the order of their arrival, until they are taken.
///
/// Events are numbered by how many arrived before. The numbers rise to the greatest `u64`, and stay there.
///
/// ```
/// let mut reader = InternalEventReader::new(alloc, DeviceSource::new(alloc, device));
/// match reader.read_within(1, &EventFilter) {
///     Ok(Some(InternalEvent::Event(Event::Key(key)))) => answer_key(w, key.code)?,
///     Ok(_) => {}
///     Err(error) if error.kind() == ErrorKind::UnexpectedEof => return Ok(()),
///     Err(error) => return Err(error),
/// }
/// ```
#[derive(Drop)]
pub struct InternalEventReader<S, A: Allocator = Global> {
    held: HeldEvents<A>,
    source: S,
}

impl<S, A: Allocator> Model for InternalEventReader<S, A> {
    ghost Value = { ReaderState S };

    ghost view = { λ r. record { store = r.held.store; room = r.held.room; source = r.source } };

    ghost invariant = { λ r. IsOrderly r.held.store.held r.held.store.arrivals };
}

// What a call does at a wake-up.
#[derive(Clone, Copy)]
pub(crate) enum AtWake {
    Stops,
    GoesOn,
}

// What came of one question.
pub(crate) enum Once<A: Allocator> {
    Refused,
    Broke(io::Error),
    // An admitted event with its number, which isn't held.
    Came(Taken<InternalEvent<A>>),
    // No event, or one that isn't admitted, which is held.
    Nothing,
}

// Whether a fault is a wake-up.
pub(crate) fn is_woken(error: &io::Error) -> bool
    ensures yes { OnTrue result (error_kind error.now ≡ Interrupted) }
    ensures no { OnFalse result (error_kind error.now ≢ Interrupted) }
{
    matches!(error.kind(), io::ErrorKind::Interrupted)
}

// The event without its number.
#[inline(always)]
pub(crate) fn unnumbered<A: Allocator>(
    taken: Option<Taken<InternalEvent<A>>>,
) -> Option<InternalEvent<A>>
    ensures { option_map seen result ≡ option_map (λ e. e.0) (option_map kept taken) }
{
    match taken {
        Some(taken) => Some(taken.event),
        None => None,
    }
}

impl<S: EventSource<A>, A: Allocator> InternalEventReader<S, A> {
    /// A reader that holds nothing yet, and has no room yet.
    pub fn new(alloc: A, source: S) -> Self
        ensures { result ≡ record { store = record { held = []; arrivals = 0 }; room = 0; source = source } }
    {
        InternalEventReader {
            held: HeldEvents::new(alloc),
            source,
        }
    }

    // A waker of the source.
    pub(crate) fn waker(&self) -> io::Result<Waker>
        ensures waker { IfOk result (S.wakes self.now.source) }
        ensures err { IfErr result (λ e. error_kind e ≡ OutOfMemory) }
    {
        self.source.waker()
    }

    // How many events arrived, as far as the numbers go.
    pub(crate) fn arrivals(&self) -> u64
        ensures { result ≡ self.now.store.arrivals }
    {
        self.held.arrivals()
    }

    // Whether an event is held that is admitted.
    pub(crate) fn holds<F: Filter>(&self, filter: &F) -> bool
        ensures { result ≡ is_some (first_admitted (F.admits filter.now) self.now.store.held) }
    {
        self.held.holds(filter)
    }

    /// The source that the reader asks, as to bound what it keeps.
    ///
    /// ```
    /// if reader.source().paste_len() > 1 << 20 {
    ///     return Err(io::Error::from(ErrorKind::InvalidData));
    /// }
    /// ```
    pub fn source(&self) -> &S
        ensures { result.now ≡ self.now.source }
    {
        &self.source
    }

    /// Takes the first held event that the filter admits, and no other. The source isn't asked, and no memory is taken.
    pub fn take<F: Filter>(&mut self, filter: &F) -> Option<InternalEvent<A>>
        ensures step { (x : Option (Seen × ℕ)) × TakeReplies (F.admits filter.now) self.old.store self.new.store x
            × (option_map seen result ≡ option_map (λ e. e.0) x) }
        // An event that is given leaves room for one more.
        ensures room { reader_capacity self.new ≡ reader_capacity self.old }
        ensures source { self.new.source ≡ self.old.source }
    {
        unnumbered(self.take_numbered(filter))
    }

    // Takes the first held event that the filter admits, with its number.
    #[inline(always)]
    pub(crate) fn take_numbered<F: Filter>(&mut self, filter: &F) -> Option<Taken<InternalEvent<A>>>
        ensures step { TakeReplies (F.admits filter.now) self.old.store self.new.store (option_map kept result) }
        ensures room { reader_capacity self.new ≡ reader_capacity self.old }
        ensures source { self.new.source ≡ self.old.source }
    {
        self.held.take(filter)
    }

    // Holds an event that was given, behind all others.
    pub(crate) fn hold(&mut self, given: Taken<InternalEvent<A>>)
        requires { HasPlace self.old given }
        ensures store { self.new.store ≡ held_with self.old.store (kept given) }
        ensures room { reader_capacity self.new ≡ reader_capacity self.old }
        ensures source { self.new.source ≡ self.old.source }
    {
        self.held.push_reserved(given);
    }

    /// The events that are held, in the order of their arrival.
    pub fn held(&self) -> Held<'_, A>
        ensures { result ≡ map (λ h. h.0) self.now.store.held }
    {
        self.held.iter()
    }
}

impl<S: EventSource<A>, A: Allocator + Clone> InternalEventReader<S, A> {
    // Makes room for an event, and asks the source once, with this limit. An event that isn't admitted is held.
    #[inline(always)]
    pub(crate) fn draw<F: Filter>(
        &mut self,
        filter: &F,
        at_wake: AtWake,
        limit: Option<Duration>,
    ) -> Once<A>
        ensures one { DrawsOne S.drawn S.failed at_wake (F.admits filter.now) self.old self.new result }
        ensures asked { AsksWith limit (S.asked self.old.source) (S.asked self.new.source) }
        ensures room { reader_capacity self.old ≤ reader_capacity self.new }
        ensures full { IsRefused result → self.old.room ≡ 0 }
        ensures rise { S.failed self.old.source ≤ S.failed self.new.source }
        ensures err { BreaksWhere result (λ kind. IsOwn kind ⊎ (S.failed self.old.source < S.failed self.new.source)) }
    {
        match self.held.reserve() {
            Ok(()) => {}
            Err(_) => return Once::Refused,
        }
        match self.source.try_read(limit) {
            Ok(Some(event)) => {
                let admitted = filter.eval(&event);
                let number = self.held.next_number();
                let taken = Taken { event, number };
                if admitted {
                    return Once::Came(taken);
                }
                self.held.push_reserved(taken);
                Once::Nothing
            }
            Ok(None) => Once::Nothing,
            Err(error) => {
                match at_wake {
                    AtWake::GoesOn => {
                        if is_woken(&error) {
                            return Once::Nothing;
                        }
                    }
                    AtWake::Stops => {}
                }
                Once::Broke(error)
            }
        }
    }

    // Takes the first event that the filter admits: one that is held, or what comes while patience lasts. It has its number.
    #[inline(always)]
    pub(crate) fn next<F: Filter, P: Patience, C: Clock>(
        &mut self,
        patience: &P,
        clock: &mut C,
        at_wake: AtWake,
        filter: &F,
    ) -> io::Result<Option<Taken<InternalEvent<A>>>>
        requires { P.begins patience.now (C.latest clock.old) }
        ensures step { (zs : List SourceAnswer) × S.drawn self.old.source zs self.new.source
            × NextStep at_wake (P.lasted patience.now (C.latest clock.new)) (F.admits filter.now) zs self.old.store self.new.store (try_reply result)
            × IfErr result (λ e. RefusedOnlyWithoutRoom self.old.room zs (error_kind e))
            × IsSteady S.failed self.old.source zs self.new.source }
        ensures held { is_some (first_admitted (F.admits filter.now) self.old.store.held) ≡ true → (reader_capacity self.new ≡ reader_capacity self.old) × (self.new.source ≡ self.old.source) }
        ensures admitted { IfOk result (λ taken. IfSome taken (λ x. F.admits filter.now (seen x.event) ≡ true)) }
        ensures limits { P.limits patience.now (C.latest clock.new) (S.asked self.old.source) (S.asked self.new.source) }
        ensures later { C.latest clock.old ≤ C.latest clock.new }
        ensures first { KeepsFirst C.began clock.old clock.new }
        ensures room { reader_capacity self.old ≤ reader_capacity self.new }
        ensures rise { S.failed self.old.source ≤ S.failed self.new.source }
        ensures err { IfErr result (λ e. IsOwn (error_kind e) ⊎ (S.failed self.old.source < S.failed self.new.source)) }
        ensures awake { at_wake ≡ GoesOn → IfErr result (λ e. error_kind e ≢ Interrupted) }
    {
        if let Some(taken) = self.take_numbered(filter) {
            return Ok(Some(taken));
        }
        patience.ask(self, clock, at_wake, filter)
    }

    // Whether an event is held that the filter admits, while patience lasts.
    pub(crate) fn poll_while<F: Filter, P: Patience, C: Clock>(
        &mut self,
        patience: &P,
        clock: &mut C,
        filter: &F,
    ) -> io::Result<bool>
        requires { P.begins patience.now (C.latest clock.old) }
        ensures step { (zs : List SourceAnswer) × S.drawn self.old.source zs self.new.source
            × PollStep (P.lasted patience.now (C.latest clock.new)) (F.admits filter.now) zs self.old.store self.new.store (poll_reply result)
            × IfErr result (λ e. RefusedOnlyWithoutRoom self.old.room zs (error_kind e)) }
        ensures held { is_some (first_admitted (F.admits filter.now) self.old.store.held) ≡ true → self.new ≡ self.old }
        ensures limits { P.limits patience.now (C.latest clock.new) (S.asked self.old.source) (S.asked self.new.source) }
        ensures later { C.latest clock.old ≤ C.latest clock.new }
        ensures first { KeepsFirst C.began clock.old clock.new }
        ensures room { reader_capacity self.old ≤ reader_capacity self.new }
        ensures rise { S.failed self.old.source ≤ S.failed self.new.source }
        ensures steady { IfOk result (λ ready. IsTrue ready → S.failed self.new.source ≡ S.failed self.old.source) }
        ensures err { IfErr result (λ e. IsOwn (error_kind e) ⊎ (S.failed self.old.source < S.failed self.new.source)) }
        ensures awake { IfErr result (λ e. error_kind e ≢ Interrupted) }
    {
        if self.holds(filter) {
            return Ok(true);
        }
        match patience.ask(self, clock, AtWake::Stops, filter) {
            Ok(Some(taken)) => {
                self.hold(taken);
                Ok(true)
            }
            Ok(None) => Ok(false),
            Err(error) => {
                if is_woken(&error) {
                    return Ok(false);
                }
                Err(error)
            }
        }
    }

    /// Whether an event is held that the filter admits, after so many questions to the source at most.
    ///
    /// If one is held already, it returns true at once. Else it asks the source with limit zero. It returns true at the first admitted
    /// event, and false after a wake-up or the last try. Events that came are held.
    ///
    /// # Errors
    ///
    /// Every fault of the source but a wake-up: `UnexpectedEof` at the end of input, or the device's. `OutOfMemory` only if the source's
    /// was, or if there was no room left for an event and none could be made. Events that came before stay held.
    pub fn poll_within<F: Filter>(&mut self, tries: u32, filter: &F) -> io::Result<bool>
        ensures step { (zs : List SourceAnswer) × S.drawn self.old.source zs self.new.source
            × PollStep (UpTo tries) (F.admits filter.now) zs self.old.store self.new.store (poll_reply result)
            × IfErr result (λ e. RefusedOnlyWithoutRoom self.old.room zs (error_kind e)) }
        // If an admitted event is held, nothing changes, so no memory is taken.
        ensures held { is_some (first_admitted (F.admits filter.now) self.old.store.held) ≡ true → self.new ≡ self.old }
        // The source is asked with limit zero alone, and so at once.
        ensures at_once { AsksAtOnce (S.asked self.old.source) (S.asked self.new.source) }
        // No room is lost.
        ensures room { reader_capacity self.old ≤ reader_capacity self.new }
        // Failures never fall, and if an event is there, none was new.
        ensures rise { S.failed self.old.source ≤ S.failed self.new.source }
        ensures steady { IfOk result (λ ready. IsTrue ready → S.failed self.new.source ≡ S.failed self.old.source) }
        ensures err { IfErr result (λ e. IsOwn (error_kind e) ⊎ (S.failed self.old.source < S.failed self.new.source)) }
        // A wake-up is no error.
        ensures awake { IfErr result (λ e. error_kind e ≢ Interrupted) }
    {
        self.poll_while(&Tries { most: tries }, &mut Still, filter)
    }

    /// Takes the first event that the filter admits, after so many questions to the source at most, or `None` after the last.
    ///
    /// It asks as `poll_within` does, but goes on after a wake-up, which is a try.
    ///
    /// # Errors
    ///
    /// Those of `poll_within`.
    pub fn read_within<F: Filter>(
        &mut self,
        tries: u32,
        filter: &F,
    ) -> io::Result<Option<InternalEvent<A>>>
        // Unless a fault, as a wake-up, is among the answers, no failure was new.
        ensures step { (zs : List SourceAnswer) × (r : Replied) × S.drawn self.old.source zs self.new.source
            × ReadStep (UpTo tries) (F.admits filter.now) zs self.old.store self.new.store r × (try_said result ≡ shown r)
            × IfErr result (λ e. RefusedOnlyWithoutRoom self.old.room zs (error_kind e))
            × IsSteady S.failed self.old.source zs self.new.source }
        // If an admitted event is held, no memory is taken, and the source isn't asked.
        ensures held { is_some (first_admitted (F.admits filter.now) self.old.store.held) ≡ true → (reader_capacity self.new ≡ reader_capacity self.old) × (self.new.source ≡ self.old.source) }
        // The source is asked with limit zero alone, and so at once.
        ensures at_once { AsksAtOnce (S.asked self.old.source) (S.asked self.new.source) }
        // No room is lost, and failures never fall.
        ensures room { reader_capacity self.old ≤ reader_capacity self.new }
        ensures rise { S.failed self.old.source ≤ S.failed self.new.source }
        ensures err { IfErr result (λ e. IsOwn (error_kind e) ⊎ (S.failed self.old.source < S.failed self.new.source)) }
        // A wake-up is no error.
        ensures awake { IfErr result (λ e. error_kind e ≢ Interrupted) }
    {
        match self.next(&Tries { most: tries }, &mut Still, AtWake::GoesOn, filter) {
            Ok(taken) => Ok(unnumbered(taken)),
            Err(error) => Err(error),
        }
    }
}
