//! What a program learns of two passes of one reader, by public contracts alone.
//!
//! `two_reads` and `two_threads` have two passes read, in one thread and in two. Then the passes meet, and this is known: both calls are in
//! one legal history, at two places. No event went to both, and of a reader with no further pass none was lost between them. That two
//! passes are of a reader with as many passes is what `EventReader::new` says of those that it gives.

ghost use Rattle.std.specs.Prelude.{◌≡◌, ◌⊎◌, Bool, Result};
ghost use Rattle.std.specs.declared.io.Error.{Error};
ghost use Rattle.crossterm_types.specs.declared.event.filter.AnyFilter.TheVariants as filters;
ghost use Rattle.crossterm_types.specs.Timing.{IsFirst};
ghost use Rattle.crossterm_read.specs.Entries.{Polls, Reads};
ghost use Rattle.crossterm_read.specs.History.{Known};
ghost use Rattle.crossterm_read.specs.Replies.{Said, read_said};
ghost use Rattle.crossterm_read.specs.PassViews.{knows};
ghost use Rattle.crossterm_read.specs.Shared.{IsPassOf};
ghost use Rattle.example_contracts.specs.Apart.{ReadApart};

use crossterm_read::read::{EventReader, Pass};
use crossterm_read::source::EventSource;
use crossterm_types::event::InternalEvent;
use crossterm_types::event::filter::AnyFilter;
use crossterm_types::event::timeout::Clock;
use std::alloc::Allocator;
use std::sync::Wait;
use std::thread::Threads;
use std::time::Duration;
use std::{io, thread};

/// Each of two passes reads: no event goes to both.
pub fn two_reads<S: EventSource<A>, A: Allocator + Clone, R: Wait>(
    rt: &R,
    shared: &EventReader<S, A>,
    one: &mut Pass<S, A>,
    mut other: Pass<S, A>,
) -> (io::Result<InternalEvent<A>>, io::Result<InternalEvent<A>>)
    requires passes { IsPassOf shared.now one.old × IsPassOf shared.now other }
    requires alike { (knows one.old).passes ≡ (knows other).passes }
    ensures { ReadApart S.drawn (knows one.old) (knows other) (read_said result.0) (read_said result.1) }
{
    let a = shared.read_by(rt, one, AnyFilter::Event);
    let b = shared.read_by(rt, &mut other, AnyFilter::Event);
    shared.meet(one, other);
    (a, b)
}

// One read, with the pass handed back.
fn reads<S: EventSource<A>, A: Allocator + Clone, R: Wait>(
    rt: &R,
    shared: &EventReader<S, A>,
    mut pass: Pass<S, A>,
) -> (Pass<S, A>, io::Result<InternalEvent<A>>)
    requires { IsPassOf shared.now pass }
    ensures pass { IsPassOf shared.now result.0 }
    ensures call { Reads S.drawn S.asked filters.Event (knows pass) (knows result.0) (read_said result.1) }
{
    let event = shared.read_by(rt, &mut pass, AnyFilter::Event);
    (pass, event)
}

/// Two threads read, with a pass each: no event goes to both.
pub fn two_threads<
    S: EventSource<A> + Send,
    A: Allocator + Clone + Send + Sync,
    R: Threads + Wait + Sync,
>(
    rt: &R,
    shared: &EventReader<S, A>,
    one: Pass<S, A>,
    other: Pass<S, A>,
) -> (io::Result<InternalEvent<A>>, io::Result<InternalEvent<A>>)
    requires passes { IsPassOf shared.now one × IsPassOf shared.now other }
    requires alike { (knows one).passes ≡ (knows other).passes }
    ensures { ReadApart S.drawn (knows one) (knows other) (read_said result.0) (read_said result.1) }
{
    let (x, y) = thread::join(
        rt,
        move || -> (Pass<S, A>, io::Result<InternalEvent<A>>)
            requires { IsPassOf shared.now one }
            ensures pass { IsPassOf shared.entry.now result.0 }
            ensures call { Reads S.drawn S.asked filters.Event (knows one) (knows result.0) (read_said result.1) }
        { reads(rt, shared, one) },
        move || -> (Pass<S, A>, io::Result<InternalEvent<A>>)
            requires { IsPassOf shared.now other }
            ensures pass { IsPassOf shared.entry.now result.0 }
            ensures call { Reads S.drawn S.asked filters.Event (knows other) (knows result.0) (read_said result.1) }
        { reads(rt, shared, other) },
    );
    let (mut first, a) = x;
    let (second, b) = y;
    shared.meet(&mut first, second);
    (a, b)
}

/// A reader with a pass of its own, as a stream or a matcher of keys has it.
#[derive(Drop)]
pub struct Client<S: EventSource<A>, A: Allocator> {
    reader: EventReader<S, A>,
    pass: Pass<S, A>,
    ghost of: { IsPassOf reader pass },
}

impl<S: EventSource<A>, A: Allocator + Clone> Client<S, A> {
    /// The next event within the limit, or `None`: a poll, and then a read, which is the next call of this pass.
    ///
    /// # Errors
    ///
    /// Those of the two calls: `UnexpectedEof` at the end of input, `OutOfMemory` if memory was refused, or the device's.
    pub fn next_within<C: Clock, R: Wait>(
        &mut self,
        rt: &R,
        limit: Option<Duration>,
        clock: &mut C,
    ) -> io::Result<Option<InternalEvent<A>>>
        ensures calls { (m : Known S) × (ready : Result Bool Error) × Polls S.drawn S.asked filters.Event limit (IsFirst C.latest C.began clock.old clock.new) (C.latest clock.new) (knows self.old.pass) m ready
            × ((knows self.new.pass ≡ m) ⊎ ((said : Said) × Reads S.drawn S.asked filters.Event m (knows self.new.pass) said)) }
    {
        match self
            .reader
            .poll_by(rt, &mut self.pass, limit, clock, AnyFilter::Event)
        {
            Ok(true) => match self.reader.read_by(rt, &mut self.pass, AnyFilter::Event) {
                Ok(event) => Ok(Some(event)),
                Err(error) => Err(error),
            },
            Ok(false) => Ok(None),
            Err(error) => Err(error),
        }
    }
}
