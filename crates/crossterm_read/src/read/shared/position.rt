//! The query of a shared reader for the cursor's place.
ghost use Rattle.std.specs.Prelude.{◌≡◌, ◌≤◌, IfOk, true};
ghost use Rattle.crossterm_types.specs.Admitting.{is_cursor_position};
ghost use Rattle.crossterm_types.specs.Seen.{seen};
ghost use Rattle.crossterm_types.specs.Timing.{IsFirst, KeepsFirst};
ghost use Rattle.crossterm_read.specs.Entries.{AsksPosition};
ghost use Rattle.crossterm_read.specs.Replies.{position_said, shown};
ghost use Rattle.crossterm_read.specs.inside.Replies.{read_reply};
ghost use Rattle.crossterm_read.specs.PassViews.{knows};
ghost use Rattle.crossterm_read.specs.Shared.{IsPassOf};

use crate::read::held::Taken;
use crate::read::patience::InTime;
use crate::read::queries::place;
use crate::read::shared::calls::last_after;
use crate::read::shared::pass::Pass;
use crate::read::shared::reader::EventReader;
use crate::source::EventSource;
use crossterm_types::event::InternalEvent;
use crossterm_types::event::filter::CursorPositionFilter;
use crossterm_types::event::timeout::{Clock, PollTimeout};
use std::alloc::Allocator;
use std::io;
use std::marker::Brand;
use std::sync::Wait;
use std::time::Duration;

// The place that was taken.
fn placed<A: Allocator>(taken: io::Result<Taken<InternalEvent<A>>>) -> io::Result<(u16, u16)>
    requires { IfOk taken (λ x. is_cursor_position (seen x.event) ≡ true) }
    ensures { position_said result ≡ shown (read_reply taken) }
{
    match taken {
        Ok(taken) => Ok(place(&taken.event)),
        Err(error) => Err(error),
    }
}

impl<S: EventSource<A>, A: Allocator + Clone> EventReader<S, A> {
    /// Takes the first reply that reports the cursor's place, within the limit, which counts from the beginning of the call: column and
    /// row.
    ///
    /// Nothing is written.
    ///
    /// # Errors
    ///
    /// `Other` if no reply came in time, if the reader wasn't there in time, and after a wake-up; `OutOfMemory` if memory was refused; and
    /// else the source's.
    pub fn position_by<C: Clock, R: Wait>(
        &self,
        rt: &R,
        pass: &mut Pass<S, A>,
        limit: Duration,
        clock: &mut C,
    ) -> io::Result<(u16, u16)>
        requires { IsPassOf self.now pass.old }
        ensures pass { IsPassOf self.now pass.new }
        ensures call { AsksPosition S.drawn S.asked limit (IsFirst C.latest C.began clock.old clock.new) (C.latest clock.new) (knows pass.old) (knows pass.new) result }
        ensures later { C.latest clock.old ≤ C.latest clock.new }
        ensures first { KeepsFirst C.began clock.old clock.new }
    {
        let start = clock.now();
        let timeout = PollTimeout::new(Some(limit), start);
        let Some(mut reader) = self
            .slot
            .take_within(rt, &mut pass.slot_pass, &timeout, clock)
        else {
            return Err(io::Error::from(io::ErrorKind::Other));
        };
        let taken = reader.query_while(&InTime { rt, timeout }, clock, &CursorPositionFilter);
        self.slot.put::<Brand, _, R>(
            rt,
            &mut pass.slot_pass,
            reader,
            &(limit, start, &*clock, &taken),
        );
        pass.last = last_after(pass.last, &taken);
        placed(taken)
    }
}
