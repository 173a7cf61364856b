//! Queries: a reply is waited for, and taken.
ghost use Rattle.std.specs.Prelude.{◌≡◌, ◌⊎◌, ◌≤◌, ◌<◌, ◌-◌, false, true, IfOk, IfErr, ℕ, List, Option, Some, None};
ghost use Rattle.std.specs.Duration.{as_nanos};
ghost use Rattle.std.specs.IoError.{error_kind};
ghost use Rattle.std.specs.declared.io.ErrorKind.TheVariants.{Other};
ghost use Rattle.std.specs.Option.{option_map};
ghost use Rattle.crossterm_types.specs.Admitting.{is_cursor_position, is_flags_reply};
ghost use Rattle.crossterm_types.specs.Seen.{CursorPosition, Seen, seen};
ghost use Rattle.crossterm_types.specs.Timing.{KeepsFirst};
ghost use Rattle.crossterm_read.specs.Answers.{SourceAnswer, IsOwn};
ghost use Rattle.crossterm_read.specs.Device.{AsksAtOnce};
ghost use Rattle.crossterm_read.specs.History.{last_taken};
ghost use Rattle.crossterm_read.specs.Queries.{AfterReply, KeyboardStep, QueryStep};
ghost use Rattle.crossterm_read.specs.Replies.{Replied, ToQuery, flags_seen, keyboard_said, position_said, shown};
ghost use Rattle.crossterm_read.specs.inside.Replies.{flags_said, kept, last_said, read_reply};
ghost use Rattle.crossterm_read.specs.Store.{reader_capacity};
ghost use Rattle.crossterm_read.specs.Steps.{UpTo, Within, RefusedOnlyWithoutRoom};
ghost use Rattle.crossterm_read.specs.Waiting.{AsksLeft, AsksWithin};
ghost use Rattle.std.specs.declared.time.Duration.{Duration};

use crate::read::InternalEventReader;
use crate::read::held::Taken;
use crate::read::patience::{InTime, Patience, Tries};
use crate::read::reader::{AtWake, is_woken};
use crate::source::EventSource;
use crossterm_types::event::filter::{
    CursorPositionFilter, Filter, KeyboardEnhancementFlagsFilter, PrimaryDeviceAttributesFilter,
};
use crossterm_types::event::timeout::{Clock, PollTimeout, Still};
use crossterm_types::event::{InternalEvent, KeyboardEnhancementFlags};
use std::alloc::Allocator;
use std::io;
use std::sync::Wait;
use std::time::Duration;

// The cursor's place that a reply reports: column and row.
pub(crate) fn place<A: Allocator>(event: &InternalEvent<A>) -> (u16, u16)
    requires { is_cursor_position (seen event.now) ≡ true }
    ensures { seen event.now ≡ CursorPosition result.0 result.1 }
{
    match event {
        InternalEvent::CursorPosition(column, row) => (*column, *row),
        _ => unreachable!(),
    }
}

// The flags that a reply reports, or `None` if it reports the attributes alone.
fn flags_of<A: Allocator>(event: &InternalEvent<A>) -> Option<KeyboardEnhancementFlags>
    requires { is_flags_reply (seen event.now) ≡ true }
    ensures { seen event.now ≡ flags_seen result }
{
    match event {
        InternalEvent::KeyboardEnhancementFlags(flags) => Some(*flags),
        InternalEvent::PrimaryDeviceAttributes => None,
        _ => unreachable!(),
    }
}

// The number of what was taken, or else of what was taken before.
fn number_of<A: Allocator>(taken: &Option<Taken<InternalEvent<A>>>, before: u64) -> u64
    ensures { (x : Seen) → last_taken None (ToQuery (x, before) (option_map kept taken.now)) ≡ Some result }
{
    match taken {
        Some(taken) => taken.number,
        None => before,
    }
}

impl<S: EventSource<A>, A: Allocator + Clone> InternalEventReader<S, A> {
    // Takes the first reply that the filter admits, while patience lasts.
    pub(crate) fn query_while<F: Filter, P: Patience, C: Clock>(
        &mut self,
        patience: &P,
        clock: &mut C,
        filter: &F,
    ) -> io::Result<Taken<InternalEvent<A>>>
        requires { P.begins patience.now (C.latest clock.old) }
        ensures step { (zs : List SourceAnswer) × S.drawn self.old.source zs self.new.source
            × QueryStep (F.admits filter.now) (P.lasted patience.now (C.latest clock.new)) zs self.old.store self.new.store (read_reply result)
            × IfErr result (λ e. RefusedOnlyWithoutRoom self.old.room zs (error_kind e)) }
        ensures admitted { IfOk result (λ x. F.admits filter.now (seen x.event) ≡ true) }
        ensures limits { P.limits patience.now (C.latest clock.new) (S.asked self.old.source) (S.asked self.new.source) }
        ensures later { C.latest clock.old ≤ C.latest clock.new }
        ensures first { KeepsFirst C.began clock.old clock.new }
        ensures room { reader_capacity self.old ≤ reader_capacity self.new }
        ensures rise { S.failed self.old.source ≤ S.failed self.new.source }
        ensures err { IfErr result (λ e. (error_kind e ≡ Other) ⊎ IsOwn (error_kind e) ⊎ (S.failed self.old.source < S.failed self.new.source)) }
    {
        match self.next(patience, clock, AtWake::Stops, filter) {
            Ok(Some(taken)) => Ok(taken),
            Ok(None) => Err(io::Error::from(io::ErrorKind::Other)),
            Err(error) => {
                if is_woken(&error) {
                    return Err(io::Error::from(io::ErrorKind::Other));
                }
                Err(error)
            }
        }
    }

    /// Takes the first reply that reports the cursor's place, after so many questions to the source at most: its column and row.
    ///
    /// It polls as `poll_within` does.
    ///
    /// # Errors
    ///
    /// `Other` if that poll returns false, and else the poll's error.
    pub fn position_within(&mut self, tries: u32) -> io::Result<(u16, u16)>
        ensures step { (zs : List SourceAnswer) × (r : Replied) × S.drawn self.old.source zs self.new.source
            × QueryStep is_cursor_position (UpTo tries) zs self.old.store self.new.store r × (position_said result ≡ shown r)
            × IfErr result (λ e. RefusedOnlyWithoutRoom self.old.room zs (error_kind e)) }
        // The source is asked with limit zero alone, and so at once.
        ensures at_once { AsksAtOnce (S.asked self.old.source) (S.asked self.new.source) }
        // No room is lost, and failures never fall.
        ensures room { reader_capacity self.old ≤ reader_capacity self.new }
        ensures rise { S.failed self.old.source ≤ S.failed self.new.source }
        ensures err { IfErr result (λ e. (error_kind e ≡ Other) ⊎ IsOwn (error_kind e) ⊎ (S.failed self.old.source < S.failed self.new.source)) }
    {
        match self.query_while(&Tries { most: tries }, &mut Still, &CursorPositionFilter) {
            Ok(taken) => Ok(place(&taken.event)),
            Err(error) => Err(error),
        }
    }

    // Takes the attributes that come after these flags, if they come while patience lasts.
    fn attributes_after<P: Patience, C: Clock>(
        &mut self,
        patience: &P,
        clock: &mut C,
    ) -> Option<Taken<InternalEvent<A>>>
        requires { P.begins patience.now (C.latest clock.old) }
        ensures step { (flags : Seen × ℕ) → (zs : List SourceAnswer) × S.drawn self.old.source zs self.new.source
            × AfterReply (P.lasted patience.now (C.latest clock.new)) zs false flags self.old.store self.new.store (ToQuery flags (option_map kept result)) }
        ensures limits { P.limits patience.now (C.latest clock.new) (S.asked self.old.source) (S.asked self.new.source) }
        ensures later { C.latest clock.old ≤ C.latest clock.new }
        ensures first { KeepsFirst C.began clock.old clock.new }
        ensures room { reader_capacity self.old ≤ reader_capacity self.new }
        ensures rise { S.failed self.old.source ≤ S.failed self.new.source }
    {
        match self.query_while(patience, clock, &PrimaryDeviceAttributesFilter) {
            Ok(taken) => Some(taken),
            Err(_) => None,
        }
    }

    /// Takes the first reply that reports the flags of the keyboard protocol, after so many questions to the source at most. If the
    /// terminal's attributes come first, it takes them and returns `None`.
    ///
    /// After the flags it polls as often for the attributes, and takes them if they came. The flags are returned in any case.
    ///
    /// # Errors
    ///
    /// `Other` if the first poll returns false, and else that poll's error. An error of the second poll isn't returned.
    pub fn keyboard_within(&mut self, tries: u32) -> io::Result<Option<KeyboardEnhancementFlags>>
        ensures step { (zs : List SourceAnswer) × (r : Replied) × S.drawn self.old.source zs self.new.source
            × KeyboardStep (UpTo tries) (UpTo tries) zs self.old.store self.new.store r × (keyboard_said result ≡ shown r)
            × IfErr result (λ e. RefusedOnlyWithoutRoom self.old.room zs (error_kind e)) }
        // The source is asked with limit zero alone, and so at once.
        ensures at_once { AsksAtOnce (S.asked self.old.source) (S.asked self.new.source) }
        // No room is lost, and failures never fall.
        ensures room { reader_capacity self.old ≤ reader_capacity self.new }
        ensures rise { S.failed self.old.source ≤ S.failed self.new.source }
        ensures err { IfErr result (λ e. (error_kind e ≡ Other) ⊎ IsOwn (error_kind e) ⊎ (S.failed self.old.source < S.failed self.new.source)) }
    {
        let tries = Tries { most: tries };
        match self.query_while(&tries, &mut Still, &KeyboardEnhancementFlagsFilter) {
            Ok(taken) => match flags_of(&taken.event) {
                Some(flags) => {
                    let _ = self.attributes_after(&tries, &mut Still);
                    Ok(Some(flags))
                }
                None => Ok(None),
            },
            Err(error) => Err(error),
        }
    }

    // Takes the reply to a query for the keyboard's flags within what is left of the limit. Returns the number of what was taken last too.
    // After the flags it waits as long again for the attributes.
    pub(crate) fn keyboard_until<C: Clock, R: Wait>(
        &mut self,
        rt: &R,
        timeout: PollTimeout,
        again: Duration,
        clock: &mut C,
    ) -> io::Result<Taken<Option<KeyboardEnhancementFlags>>>
        requires { as_nanos timeout.start ≤ C.latest clock.old }
        ensures step { (now : ℕ) × (second : ℕ) × (C.latest clock.old ≤ now) × (now ≤ second) × (second ≤ C.latest clock.new)
            × (zs : List SourceAnswer) × (r : Replied) × S.drawn self.old.source zs self.new.source
            × KeyboardStep (Within timeout.limit (now - as_nanos timeout.start)) (Within (Some again) (C.latest clock.new - second)) zs self.old.store self.new.store r
            × (flags_said result ≡ shown r) × IfErr result (λ e. RefusedOnlyWithoutRoom self.old.room zs (error_kind e)) × ((n : Option ℕ) → last_taken n r ≡ last_said n result)
            × (middle : List (Option Duration)) × AsksLeft timeout now (S.asked self.old.source) middle
            × ((S.asked self.new.source ≡ middle) ⊎ AsksWithin (Some again) second (C.latest clock.new) middle (S.asked self.new.source)) }
        ensures later { C.latest clock.old ≤ C.latest clock.new }
        ensures first { KeepsFirst C.began clock.old clock.new }
        ensures room { reader_capacity self.old ≤ reader_capacity self.new }
    {
        match self.query_while(
            &InTime { rt, timeout },
            clock,
            &KeyboardEnhancementFlagsFilter,
        ) {
            Ok(taken) => match flags_of(&taken.event) {
                Some(flags) => {
                    let timeout = PollTimeout::new(Some(again), clock.now());
                    let left = self.attributes_after(&InTime { rt, timeout }, clock);
                    let number = number_of(&left, taken.number);
                    Ok(Taken {
                        event: Some(flags),
                        number,
                    })
                }
                None => Ok(Taken {
                    event: None,
                    number: taken.number,
                }),
            },
            Err(error) => Err(error),
        }
    }
}
