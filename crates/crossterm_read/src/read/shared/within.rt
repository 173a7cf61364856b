//! A read of a shared reader within a limit.
ghost use Rattle.std.specs.Prelude.{◌≡◌, ◌≢◌, ◌≤◌, IfErr};
ghost use Rattle.std.specs.IoError.{error_kind};
ghost use Rattle.std.specs.declared.io.ErrorKind.TheVariants.{Interrupted};
ghost use Rattle.crossterm_types.specs.Timing.{IsFirst, KeepsFirst};
ghost use Rattle.crossterm_types.specs.declared.event.filter.AnyFilter.TheVariants as filters;
ghost use Rattle.crossterm_read.specs.Entries.{ReadsFor};
ghost use Rattle.crossterm_read.specs.PassViews.{knows};
ghost use Rattle.crossterm_read.specs.Shared.{IsPassOf};

use crate::read::patience::InTime;
use crate::read::shared::pass::Pass;
use crate::read::shared::reader::EventReader;
use crate::read::shared::trying::{last_after_try, users_tried};
use crate::source::EventSource;
use crossterm_types::event::Event;
use crossterm_types::event::filter::AnyFilter;
use crossterm_types::event::timeout::{Clock, PollTimeout};
use std::alloc::Allocator;
use std::io;
use std::marker::Brand;
use std::sync::Wait;
use std::time::Duration;

impl<S: EventSource<A>, A: Allocator + Clone> EventReader<S, A> {
    /// Takes the first event of the user, if one is held or comes within the limit, which counts from the beginning of the call. It returns
    /// `None` if none comes in time, or if the reader isn't there in time. Without a limit it waits for an event.
    ///
    /// A wake-up ends it with `None`, as it ends a poll with false. It is one call; a `poll` and a `read` are two, and another thread may take
    /// the event between them.
    ///
    /// # Errors
    ///
    /// Those of `read`.
    ///
    /// ```
    /// let mut clock = SystemClock::new(&rt);
    /// let event = reader.read_for(&rt, &mut pass, Some(Duration::from_secs(1)), &mut clock)?;
    /// ```
    pub fn read_for<C: Clock, R: Wait>(
        &self,
        rt: &R,
        pass: &mut Pass<S, A>,
        limit: Option<Duration>,
        clock: &mut C,
    ) -> io::Result<Option<Event<A>>>
        requires { IsPassOf self.now pass.old }
        ensures pass { IsPassOf self.now pass.new }
        ensures call { ReadsFor S.drawn S.asked filters.Event limit (IsFirst C.latest C.began clock.old clock.new) (C.latest clock.new) (knows pass.old) (knows pass.new) result }
        ensures later { C.latest clock.old ≤ C.latest clock.new }
        ensures first { KeepsFirst C.began clock.old clock.new }
        // A wake-up is no error.
        ensures awake { IfErr result (λ e. error_kind e ≢ Interrupted) }
    {
        let start = clock.now();
        let timeout = PollTimeout::new(limit, start);
        let Some(mut reader) = self
            .slot
            .take_within(rt, &mut pass.slot_pass, &timeout, clock)
        else {
            return Ok(None);
        };
        let patience = InTime { rt, timeout };
        let tried = reader.read_while(&patience, clock, AnyFilter::Event);
        self.slot.put::<Brand, _, R>(
            rt,
            &mut pass.slot_pass,
            reader,
            &(limit, start, &*clock, &tried),
        );
        pass.last = last_after_try(pass.last, &tried);
        users_tried(tried)
    }
}
