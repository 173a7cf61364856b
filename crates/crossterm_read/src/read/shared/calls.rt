//! The calls of a shared reader: polls and reads.
ghost use Rattle.std.specs.Prelude.{◌≡◌, ◌≢◌, ◌≤◌, true, Some, IfOk, IfErr, Err};
ghost use Rattle.std.specs.IoError.{error_kind};
ghost use Rattle.std.specs.declared.io.ErrorKind.TheVariants.{Interrupted};
ghost use Rattle.crossterm_types.specs.Admitting.{admitted, is_event};
ghost use Rattle.crossterm_types.specs.Seen.{seen};
ghost use Rattle.crossterm_types.specs.Timing.{IsFirst, KeepsFirst};
ghost use Rattle.crossterm_types.specs.declared.event.filter.AnyFilter.TheVariants as filters;
ghost use Rattle.crossterm_read.specs.Entries.{Polls, Reads};
ghost use Rattle.crossterm_read.specs.Replies.{event_said, event_seen, read_said, shown};
ghost use Rattle.crossterm_read.specs.inside.Replies.{last_said, read_reply};
ghost use Rattle.crossterm_read.specs.PassViews.{knows};
ghost use Rattle.crossterm_read.specs.Shared.{IsPassOf};

use crate::read::held::Taken;
use crate::read::patience::InTime;
use crate::read::shared::pass::Pass;
use crate::read::shared::reader::EventReader;
use crate::source::EventSource;
use crossterm_types::event::filter::AnyFilter;
use crossterm_types::event::timeout::{Clock, PollTimeout};
use crossterm_types::event::{Event, InternalEvent};
use std::alloc::Allocator;
use std::io;
use std::marker::Brand;
use std::sync::Wait;
use std::time::Duration;

// The number of what was taken last, after one more call.
pub(crate) fn last_after<E>(last: Option<u64>, taken: &io::Result<Taken<E>>) -> Option<u64>
    ensures { result ≡ last_said last taken.now }
{
    match taken {
        Ok(taken) => Some(taken.number),
        Err(_) => last,
    }
}

// The event without its number.
fn unnumbered<A: Allocator>(
    taken: io::Result<Taken<InternalEvent<A>>>,
) -> io::Result<InternalEvent<A>>
    ensures reply { read_said result ≡ shown (read_reply taken) }
    ensures err { IfErr result (λ e. taken ≡ Err e) }
{
    match taken {
        Ok(taken) => Ok(taken.event),
        Err(error) => Err(error),
    }
}

// A user's event.
pub(crate) fn users<A: Allocator>(event: InternalEvent<A>) -> Event<A>
    requires { is_event (seen event) ≡ true }
    ensures { seen event ≡ event_seen result }
{
    match event {
        InternalEvent::Event(event) => event,
        _ => unreachable!(),
    }
}

impl<S: EventSource<A>, A: Allocator + Clone> EventReader<S, A> {
    /// Takes the first event that the filter admits. It waits for the reader, and then for the event, without a limit.
    ///
    /// It goes on after a wake-up.
    ///
    /// # Errors
    ///
    /// Every fault of the source but a wake-up, as `InternalEventReader::read` returns it. What came until then is held.
    pub fn read_by<R: Wait>(
        &self,
        rt: &R,
        pass: &mut Pass<S, A>,
        filter: AnyFilter,
    ) -> io::Result<InternalEvent<A>>
        requires { IsPassOf self.now pass.old }
        ensures pass { IsPassOf self.now pass.new }
        ensures call { Reads S.drawn S.asked filter (knows pass.old) (knows pass.new) (read_said result) }
        ensures admitted { IfOk result (λ e. admitted filter (seen e) ≡ true) }
        // A wake-up is no error.
        ensures awake { IfErr result (λ e. error_kind e ≢ Interrupted) }
    {
        let mut reader = self.slot.take(rt, &mut pass.slot_pass);
        let taken = reader.read_numbered(rt, &filter);
        self.slot
            .put::<Brand, _, R>(rt, &mut pass.slot_pass, reader, &(filter, &taken));
        pass.last = last_after(pass.last, &taken);
        unnumbered(taken)
    }

    /// Whether an event is held that the filter admits, within the limit, which counts from the beginning of the call.
    ///
    /// If the reader isn't there in time, it returns false, and nothing was asked. Else it returns what `InternalEventReader::poll` does.
    ///
    /// # Errors
    ///
    /// Those of `InternalEventReader::poll`. If the reader isn't there in time, that is no error.
    pub fn poll_by<C: Clock, R: Wait>(
        &self,
        rt: &R,
        pass: &mut Pass<S, A>,
        limit: Option<Duration>,
        clock: &mut C,
        filter: AnyFilter,
    ) -> io::Result<bool>
        requires { IsPassOf self.now pass.old }
        ensures pass { IsPassOf self.now pass.new }
        ensures call { Polls S.drawn S.asked filter limit (IsFirst C.latest C.began clock.old clock.new) (C.latest clock.new) (knows pass.old) (knows pass.new) result }
        ensures later { C.latest clock.old ≤ C.latest clock.new }
        ensures first { KeepsFirst C.began clock.old clock.new }
        // A wake-up is no error.
        ensures awake { IfErr result (λ e. error_kind e ≢ Interrupted) }
    {
        let start = clock.now();
        let timeout = PollTimeout::new(limit, start);
        let Some(mut reader) = self
            .slot
            .take_within(rt, &mut pass.slot_pass, &timeout, clock)
        else {
            return Ok(false);
        };
        let result = reader.poll_while(&InTime { rt, timeout }, clock, &filter);
        self.slot.put::<Brand, _, R>(
            rt,
            &mut pass.slot_pass,
            reader,
            &(filter, limit, start, &*clock, &result),
        );
        result
    }

    /// Takes the first event of the user, as `read_by` does by `AnyFilter::Event`.
    ///
    /// # Errors
    ///
    /// The source's, but a wake-up.
    pub fn read<R: Wait>(&self, rt: &R, pass: &mut Pass<S, A>) -> io::Result<Event<A>>
        requires { IsPassOf self.now pass.old }
        ensures pass { IsPassOf self.now pass.new }
        ensures call { Reads S.drawn S.asked filters.Event (knows pass.old) (knows pass.new) (event_said result) }
        ensures awake { IfErr result (λ e. error_kind e ≢ Interrupted) }
    {
        match self.read_by(rt, pass, AnyFilter::Event) {
            Ok(event) => Ok(users(event)),
            Err(error) => Err(error),
        }
    }

    /// Whether an event of the user is held within the limit, as `poll_by` by `AnyFilter::Event`.
    ///
    /// # Errors
    ///
    /// The source's, but a wake-up, which ends the poll with `false`.
    pub fn poll<C: Clock, R: Wait>(
        &self,
        rt: &R,
        pass: &mut Pass<S, A>,
        limit: Duration,
        clock: &mut C,
    ) -> io::Result<bool>
        requires { IsPassOf self.now pass.old }
        ensures pass { IsPassOf self.now pass.new }
        ensures call { Polls S.drawn S.asked filters.Event (Some limit) (IsFirst C.latest C.began clock.old clock.new) (C.latest clock.new) (knows pass.old) (knows pass.new) result }
        ensures later { C.latest clock.old ≤ C.latest clock.new }
        ensures first { KeepsFirst C.began clock.old clock.new }
        ensures awake { IfErr result (λ e. error_kind e ≢ Interrupted) }
    {
        self.poll_by(rt, pass, Some(limit), clock, AnyFilter::Event)
    }
}
