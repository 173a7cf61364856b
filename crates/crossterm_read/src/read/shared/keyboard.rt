//! The query of a shared reader for the keyboard's flags.
ghost use Rattle.std.specs.Prelude.{◌≡◌, ◌≤◌};
ghost use Rattle.crossterm_types.specs.Timing.{IsFirst, KeepsFirst};
ghost use Rattle.crossterm_read.specs.Entries.{AsksKeyboard};
ghost use Rattle.crossterm_read.specs.Replies.{keyboard_said};
ghost use Rattle.crossterm_read.specs.inside.Replies.{flags_said};
ghost use Rattle.crossterm_read.specs.PassViews.{knows};
ghost use Rattle.crossterm_read.specs.Shared.{IsPassOf};

use crate::read::held::Taken;
use crate::read::shared::calls::last_after;
use crate::read::shared::pass::Pass;
use crate::read::shared::reader::EventReader;
use crate::source::EventSource;
use crossterm_types::event::KeyboardEnhancementFlags;
use crossterm_types::event::timeout::{Clock, PollTimeout};
use std::alloc::Allocator;
use std::io;
use std::marker::Brand;
use std::sync::Wait;
use std::time::Duration;

// The flags that were taken.
fn flagged(
    taken: io::Result<Taken<Option<KeyboardEnhancementFlags>>>,
) -> io::Result<Option<KeyboardEnhancementFlags>>
    ensures { keyboard_said result ≡ flags_said taken }
{
    match taken {
        Ok(taken) => Ok(taken.event),
        Err(error) => Err(error),
    }
}

impl<S: EventSource<A>, A: Allocator + Clone> EventReader<S, A> {
    /// Takes the first reply that reports the flags of the keyboard protocol, within the limit, which counts from the beginning of the
    /// call. If the terminal's attributes come first, it takes them and returns `None`.
    ///
    /// After the flags it waits as long again for the attributes, and takes them if they come. The flags are returned in any case. Nothing
    /// is written.
    ///
    /// # Errors
    ///
    /// Those of `position_by`. An error of the second wait isn't returned.
    pub fn keyboard_by<C: Clock, R: Wait>(
        &self,
        rt: &R,
        pass: &mut Pass<S, A>,
        limit: Duration,
        clock: &mut C,
    ) -> io::Result<Option<KeyboardEnhancementFlags>>
        requires { IsPassOf self.now pass.old }
        ensures pass { IsPassOf self.now pass.new }
        ensures call { AsksKeyboard S.drawn S.asked limit (IsFirst C.latest C.began clock.old clock.new) (C.latest clock.new) (knows pass.old) (knows pass.new) result }
        ensures later { C.latest clock.old ≤ C.latest clock.new }
        ensures first { KeepsFirst C.began clock.old clock.new }
    {
        let start = clock.now();
        let timeout = PollTimeout::new(Some(limit), start);
        let Some(mut reader) = self
            .slot
            .take_within(rt, &mut pass.slot_pass, &timeout, clock)
        else {
            return Err(io::Error::from(io::ErrorKind::Other));
        };
        let taken = reader.keyboard_until(rt, timeout, limit, clock);
        self.slot.put::<Brand, _, R>(
            rt,
            &mut pass.slot_pass,
            reader,
            &(limit, start, &*clock, &taken),
        );
        pass.last = last_after(pass.last, &taken);
        flagged(taken)
    }
}
