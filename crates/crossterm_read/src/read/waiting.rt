//! Polls with a limit of time, and reads without one.
ghost use Rattle.std.specs.Prelude.{◌≡◌, ◌≢◌, ◌⊎◌, ◌-◌, ◌≤◌, ◌<◌, IfOk, IfErr, IfSome, IsTrue, ℕ, List, None, is_some, true};
ghost use Rattle.std.specs.IoError.{error_kind};
ghost use Rattle.std.specs.declared.io.ErrorKind.TheVariants.{Interrupted};
ghost use Rattle.crossterm_types.specs.Admitting.{admitted};
ghost use Rattle.crossterm_types.specs.Seen.{seen};
ghost use Rattle.crossterm_types.specs.Timing.{IsFirst, KeepsFirst};
ghost use Rattle.crossterm_read.specs.Answers.{SourceAnswer, IsOwn, IsSteady};
ghost use Rattle.crossterm_read.specs.Calls.{Step};
ghost use Rattle.crossterm_read.specs.Replies.{Replied, poll_reply, read_said, shown};
ghost use Rattle.crossterm_read.specs.inside.Replies.{read_reply, reply_within, request_within};
ghost use Rattle.crossterm_read.specs.Store.{reader_capacity};
ghost use Rattle.crossterm_read.specs.Steps.{Within, PollStep, ReadStep, RefusedOnlyWithoutRoom, first_admitted};
ghost use Rattle.crossterm_read.specs.Waiting.{AsksForever, AsksWithin};

use crate::read::InternalEventReader;
use crate::read::held::Taken;
use crate::read::patience::{InTime, Patience};
use crate::read::reader::{AtWake, is_woken};
use crate::source::EventSource;
use crossterm_types::event::InternalEvent;
use crossterm_types::event::filter::{AnyFilter, Filter};
use crossterm_types::event::timeout::{Clock, PollTimeout, Still};
use std::alloc::Allocator;
use std::io;
use std::sync::Wait;
use std::time::Duration;

impl<S: EventSource<A>, A: Allocator + Clone> InternalEventReader<S, A> {
    /// Whether an event is held that the filter admits, within the limit.
    ///
    /// If one is held already, it returns true at once. Else it asks the source, each time with what is left of the limit, until that has
    /// passed: at least once, and with limit zero no more than that. It returns true at the first admitted event, and false after a wake-up
    /// or the limit. Events that came are held.
    ///
    /// # Errors
    ///
    /// Every fault of the source but a wake-up: `UnexpectedEof` at the end of input, or the device's. `OutOfMemory` only if the source's
    /// was, or if there was no room left for an event and none could be made. Events that came before stay held.
    ///
    /// ```
    /// if reader.poll(&rt, Some(Duration::from_millis(100)), &mut clock, &EventFilter)? {
    ///     let event = reader.take(&EventFilter);
    /// }
    /// ```
    pub fn poll<F: Filter, C: Clock, R: Wait>(
        &mut self,
        rt: &R,
        limit: Option<Duration>,
        clock: &mut C,
        filter: &F,
    ) -> io::Result<bool>
        // The limit runs from the call's first moment on, and the device is asked with what is left of it alone.
        ensures step { (start : ℕ) × IsFirst C.latest C.began clock.old clock.new start
            × AsksWithin limit start (C.latest clock.new) (S.asked self.old.source) (S.asked self.new.source)
            × (zs : List SourceAnswer) × S.drawn self.old.source zs self.new.source
            × PollStep (Within limit (C.latest clock.new - start)) (F.admits filter.now) zs self.old.store self.new.store (poll_reply result)
            × IfErr result (λ e. RefusedOnlyWithoutRoom self.old.room zs (error_kind e)) }
        // If an admitted event is held, nothing changes, so no memory is taken.
        ensures held { is_some (first_admitted (F.admits filter.now) self.old.store.held) ≡ true → self.new ≡ self.old }
        // The clock doesn't go back, and which time was the first stays so.
        ensures later { C.latest clock.old ≤ C.latest clock.new }
        ensures first { KeepsFirst C.began clock.old clock.new }
        // No room is lost.
        ensures room { reader_capacity self.old ≤ reader_capacity self.new }
        // Failures never fall, and if an event is there, none was new.
        ensures rise { S.failed self.old.source ≤ S.failed self.new.source }
        ensures steady { IfOk result (λ ready. IsTrue ready → S.failed self.new.source ≡ S.failed self.old.source) }
        ensures err { IfErr result (λ e. IsOwn (error_kind e) ⊎ (S.failed self.old.source < S.failed self.new.source)) }
        // A wake-up is no error.
        ensures awake { IfErr result (λ e. error_kind e ≢ Interrupted) }
    {
        let timeout = PollTimeout::new(limit, clock.now());
        self.poll_while(&InTime { rt, timeout }, clock, filter)
    }

    /// Takes the first event that the filter admits. If none is held, it asks the source until there is one, without a limit.
    ///
    /// It goes on after a wake-up.
    ///
    /// # Errors
    ///
    /// Those of `poll`.
    pub fn read<F: Filter, R: Wait>(&mut self, rt: &R, filter: &F) -> io::Result<InternalEvent<A>>
        // Unless a fault, as a wake-up, is among the answers, no failure was new.
        ensures step { (past : ℕ) × (zs : List SourceAnswer) × (r : Replied) × S.drawn self.old.source zs self.new.source
            × ReadStep (Within None past) (F.admits filter.now) zs self.old.store self.new.store r × (read_said result ≡ shown r)
            × IfErr result (λ e. RefusedOnlyWithoutRoom self.old.room zs (error_kind e))
            × IsSteady S.failed self.old.source zs self.new.source }
        // If an admitted event is held, no memory is taken, and the source isn't asked.
        ensures held { is_some (first_admitted (F.admits filter.now) self.old.store.held) ≡ true → (reader_capacity self.new ≡ reader_capacity self.old) × (self.new.source ≡ self.old.source) }
        // The device is asked without a limit.
        ensures asked { AsksForever (S.asked self.old.source) (S.asked self.new.source) }
        // No room is lost, and failures never fall.
        ensures room { reader_capacity self.old ≤ reader_capacity self.new }
        ensures rise { S.failed self.old.source ≤ S.failed self.new.source }
        ensures err { IfErr result (λ e. IsOwn (error_kind e) ⊎ (S.failed self.old.source < S.failed self.new.source)) }
        // A wake-up is no error.
        ensures awake { IfErr result (λ e. error_kind e ≢ Interrupted) }
    {
        match self.read_numbered(rt, filter) {
            Ok(taken) => Ok(taken.event),
            Err(error) => Err(error),
        }
    }

    // Takes the first event that the filter admits, with its number: what `next` does without a limit, but a result without an option crosses
    // its call.
    pub(crate) fn read_numbered<F: Filter, R: Wait>(
        &mut self,
        rt: &R,
        filter: &F,
    ) -> io::Result<Taken<InternalEvent<A>>>
        ensures step { (past : ℕ) × (zs : List SourceAnswer) × S.drawn self.old.source zs self.new.source
            × ReadStep (Within None past) (F.admits filter.now) zs self.old.store self.new.store (read_reply result)
            × IfErr result (λ e. RefusedOnlyWithoutRoom self.old.room zs (error_kind e))
            × IsSteady S.failed self.old.source zs self.new.source }
        ensures held { is_some (first_admitted (F.admits filter.now) self.old.store.held) ≡ true → (reader_capacity self.new ≡ reader_capacity self.old) × (self.new.source ≡ self.old.source) }
        ensures asked { AsksForever (S.asked self.old.source) (S.asked self.new.source) }
        ensures admitted { IfOk result (λ x. F.admits filter.now (seen x.event) ≡ true) }
        ensures room { reader_capacity self.old ≤ reader_capacity self.new }
        ensures rise { S.failed self.old.source ≤ S.failed self.new.source }
        ensures err { IfErr result (λ e. IsOwn (error_kind e) ⊎ (S.failed self.old.source < S.failed self.new.source)) }
        ensures awake { IfErr result (λ e. error_kind e ≢ Interrupted) }
    {
        if let Some(taken) = self.take_numbered(filter) {
            return Ok(taken);
        }
        let timeout = PollTimeout::new(None, Duration::ZERO);
        let forever = InTime { rt, timeout };
        match forever.ask(self, &mut Still, AtWake::GoesOn, filter) {
            Ok(Some(taken)) => Ok(taken),
            Ok(None) => unreachable!(),
            Err(error) => Err(error),
        }
    }

    // Takes the first event that the filter admits: one that is held, or what comes while patience lasts. A wake-up ends it with nothing.
    pub(crate) fn read_while<P: Patience, C: Clock>(
        &mut self,
        patience: &P,
        clock: &mut C,
        filter: AnyFilter,
    ) -> io::Result<Option<Taken<InternalEvent<A>>>>
        requires { P.begins patience.now (C.latest clock.old) }
        ensures step { (zs : List SourceAnswer) × S.drawn self.old.source zs self.new.source
            × Step (request_within (P.lasted patience.now (C.latest clock.new)) filter result) zs self.old.store self.new.store (reply_within result)
            × IfErr result (λ e. RefusedOnlyWithoutRoom self.old.room zs (error_kind e)) }
        ensures admitted { IfOk result (λ taken. IfSome taken (λ x. admitted filter (seen x.event) ≡ true)) }
        ensures limits { P.limits patience.now (C.latest clock.new) (S.asked self.old.source) (S.asked self.new.source) }
        ensures later { C.latest clock.old ≤ C.latest clock.new }
        ensures first { KeepsFirst C.began clock.old clock.new }
        ensures room { reader_capacity self.old ≤ reader_capacity self.new }
        ensures awake { IfErr result (λ e. error_kind e ≢ Interrupted) }
    {
        match self.next(patience, clock, AtWake::Stops, &filter) {
            Ok(taken) => Ok(taken),
            Err(error) => {
                if is_woken(&error) {
                    return Ok(None);
                }
                Err(error)
            }
        }
    }
}
