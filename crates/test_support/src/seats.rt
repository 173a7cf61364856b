//! Shares of a reader, each with a pass of its own.

ghost use Rattle.std.specs.Prelude.{All};
ghost use Rattle.crossterm_read.specs.Shared.{IsPassOf};

use crate::{Still, letter_in};
use crossterm_read::read::{EventReader, InternalEventReader, Pass};
use crossterm_read::source::EventSource;
use crossterm_types::event::Event;
use crossterm_types::event::filter::AnyFilter;
use std::alloc::Global;
use std::io;
use std::sync::Wait;
use std::time::Duration;

/// A share of a reader, and a pass of it: all that a thread needs to ask.
#[derive(Drop)]
pub struct Seat<S: EventSource<Global>> {
    /// The share.
    pub shared: EventReader<S>,
    /// The pass.
    pub pass: Pass<S>,
    pub ghost fits: { IsPassOf shared pass },
}

impl<S: EventSource<Global>> Seat<S> {
    /// One more share of a reader, with the last of the passes that are left.
    pub fn next(shared: &EventReader<S>, passes: &mut Vec<Pass<S>>) -> io::Result<Seat<S>>
        requires { All (IsPassOf shared.now) passes.old.items }
        ensures { All (IsPassOf shared.now) passes.new.items }
    {
        let share = shared.share()?;
        match passes.pop() {
            Some(pass) => Ok(Seat {
                shared: share,
                pass,
            }),
            None => Err(io::Error::from(io::ErrorKind::NotFound)),
        }
    }

    /// The next event.
    pub fn read<R: Wait>(&mut self, rt: &R) -> io::Result<Event> {
        self.shared.read(rt, &mut self.pass)
    }

    /// The letter that is read next, or `None` for a fault.
    pub fn letter<R: Wait>(&mut self, rt: &R) -> Option<char> {
        letter_in(self.read(rt))
    }

    /// What a poll for such events returns, by a clock that never moves.
    pub fn poll<R: Wait>(
        &mut self,
        rt: &R,
        limit: Option<Duration>,
        filter: AnyFilter,
    ) -> io::Result<bool> {
        self.shared
            .poll_by(rt, &mut self.pass, limit, &mut Still, filter)
    }

    /// Gives the reader back, if no other share of it is left.
    pub fn close<R: Wait>(self, rt: &R) -> Option<InternalEventReader<S>> {
        let Seat { shared, mut pass } = self;
        shared.close(rt, &mut pass)
    }
}

/// A shared reader, and its only pass.
pub fn alone<S: EventSource<Global>, R: Wait>(
    rt: &R,
    alloc: Global,
    reader: InternalEventReader<S>,
) -> io::Result<Seat<S>> {
    let (shared, mut passes) = EventReader::new(rt, alloc, reader, 1)?;
    Seat::next(&shared, &mut passes)
}

/// Two shares of a reader, each with a pass.
pub fn two<S: EventSource<Global>, R: Wait>(
    rt: &R,
    alloc: Global,
    reader: InternalEventReader<S>,
) -> io::Result<(Seat<S>, Seat<S>)> {
    let (shared, mut passes) = EventReader::new(rt, alloc, reader, 2)?;
    let one = Seat::next(&shared, &mut passes)?;
    Ok((one, Seat::next(&shared, &mut passes)?))
}
