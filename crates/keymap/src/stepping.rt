//! A matcher over a reader that threads share.
ghost use Rattle.std.specs.Prelude.{◌≤◌};
ghost use Rattle.crossterm_types.specs.Timing.{IsFirst, KeepsFirst};
ghost use Rattle.crossterm_read.specs.PassViews.{knows};
ghost use Rattle.crossterm_read.specs.Shared.{IsPassOf};
ghost use Rattle.keymap.specs.Stepping.{Steps, step_answer};

use crate::few_keys::LIMIT;
use crate::matching::Matcher;
use crate::outcome::Outcome;
use crate::room::make_room;
use crate::taking::{flush, pop, take_event};
use crossterm_read::read::{EventReader, Pass};
use crossterm_read::source::EventSource;
use crossterm_types::event::timeout::Clock;
use std::alloc::Allocator;
use std::io;
use std::sync::Wait;
use std::time::Duration;

impl<A: Allocator + Clone> Matcher<A> {
    /// Returns an outcome that waits. Else it reads an event within the limit. If none comes, or a wake-up ends the read, it flushes. Then
    /// it returns the first outcome, or `None`.
    ///
    /// A key that isn't let go is fed. Any other event flushes, and then becomes an outcome of its own; a matcher made by `passing` passes
    /// releases and modifier keys on without a flush. It is one call of the reader, `EventReader::read_for`. With no limit it waits.
    ///
    /// # Errors
    ///
    /// Those of that read, after which the matcher has room for what may come, and is else as it was. `OutOfMemory` if there was room for
    /// fewer than 8 outcomes and memory was refused: then nothing has changed, and nothing was asked.
    ///
    /// ```
    /// let outcome = matcher.step(&rt, &reader, &mut pass, Some(Duration::from_millis(500)), &mut clock)?;
    /// ```
    pub fn step<S: EventSource<A>, C: Clock, R: Wait>(
        &mut self,
        rt: &R,
        reader: &EventReader<S, A>,
        pass: &mut Pass<S, A>,
        limit: Option<Duration>,
        clock: &mut C,
    ) -> io::Result<Option<Outcome<A>>>
        requires { IsPassOf reader.now pass.old }
        ensures pass { IsPassOf reader.now pass.new }
        ensures step { Steps S.drawn S.asked limit (IsFirst C.latest C.began clock.old clock.new) (C.latest clock.new) self.old (knows pass.old) self.new (knows pass.new) (step_answer result) }
        ensures later { C.latest clock.old ≤ C.latest clock.new }
        ensures first { KeepsFirst C.began clock.old clock.new }
    {
        match pop(&mut self.waiting) {
            Some(outcome) => return Ok(Some(outcome)),
            None => {}
        }
        match make_room(&mut self.waiting, LIMIT) {
            Ok(()) => {}
            Err(_) => return Err(io::Error::from(io::ErrorKind::OutOfMemory)),
        }
        match reader.read_for(rt, pass, limit, clock) {
            Ok(Some(event)) => {
                take_event(
                    &self.keymap,
                    self.passes,
                    &mut self.undecided,
                    &mut self.waiting,
                    event,
                );
                let came = pop(&mut self.waiting);
                Ok(came)
            }
            Ok(None) => {
                flush(&self.keymap, &mut self.undecided, &mut self.waiting);
                let left = pop(&mut self.waiting);
                Ok(left)
            }
            Err(error) => Err(error),
        }
    }
}
