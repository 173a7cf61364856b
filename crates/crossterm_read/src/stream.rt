//! A stream of the user's events: crossterm's `event::stream`.
ghost use Rattle.std.specs.Prelude.{◌≡◌, ◌≢◌, IfOk, IfErr, IsSomeAnd};
ghost use Rattle.std.specs.Arc.{arc_value};
ghost use Rattle.std.specs.IoError.{error_kind};
ghost use Rattle.std.specs.declared.io.ErrorKind.TheVariants.{Interrupted, OutOfMemory};
ghost use Rattle.futures.specs.Poll.{IfReady, OnPending};
ghost use Rattle.futures.specs.Task.{Covers, Keeps};
ghost use Rattle.crossterm_read.specs.PassViews.{knows};
ghost use Rattle.crossterm_read.specs.Shared.{IsPassOf, IsShareOf};
ghost use Rattle.crossterm_read.specs.Streams.{GivesItem, GivesNothing, IsWorkerOf, OnlyPolls};

mod hub;
mod worker;

use crate::read::{EventReader, Pass};
use crate::source::{EventSource, Waker};
use crate::stream::hub::Hub;
use crate::stream::worker::{Working, work};
use crossterm_types::event::Event;
use futures::Stream;
use futures::task::{Context, Poll};
use std::alloc::{Allocator, Global};
use std::snapshot::Snapshot;
use std::sync::{Arc, Wait};
use std::thread::{PromisedHandle, Threads};
use std::{io, thread};
pub use worker::StreamWorker;

/// The events of the user, one after another, for a task that may not wait.
///
/// A poll never waits for an event: it takes one that is held or that the device reports at once. If there is none, a thread of the
/// stream's own, the worker, polls the reader by a pass of its own and wakes the task. The stream never ends: it returns `Err` for each
/// fault of the source, as `UnexpectedEof` if the input ended.
///
/// When it is dropped, the worker is asked to end, and the reader is woken by its waker, which ends the worker's poll. Nobody waits for
/// that. If that wake-up comes to another pass that has the reader just then, the worker goes on until its next poll ends.
///
/// ```
/// let (shared, mut passes) = EventReader::new(&rt, alloc, reader, 2)?;
/// let (Some(other), Some(pass)) = (passes.pop(), passes.pop()) else {
///     return Ok(());
/// };
/// let mut events = EventStream::new(rt, alloc, &shared, pass, other)?;
/// let first = block_on(&rt, events.next())?;
/// ```
pub struct EventStream<S: EventSource<A>, R: Wait + Drop, A: Allocator = Global> {
    rt: R,
    reader: EventReader<S, A>,
    pass: Pass<S, A>,
    hub: Arc<Hub, A>,
    waker: Waker,
    pub ghost own: { IsPassOf reader pass },
}

impl<S, R, A> EventStream<S, R, A>
where
    S: EventSource<A> + Send + 'static,
    R: Threads + Wait + Copy + Send + Drop + 'static,
    A: Allocator + Clone + Send + Sync + 'static,
{
    /// A stream that reads by one pass, and whose worker polls by the other.
    ///
    /// # Errors
    ///
    /// `OutOfMemory` if memory was refused, or if the worker's thread couldn't be started. Then both passes are gone, and neither has the
    /// reader.
    pub fn new(
        rt: R,
        alloc: A,
        reader: &EventReader<S, A>,
        pass: Pass<S, A>,
        other: Pass<S, A>,
    ) -> io::Result<EventStream<S, R, A>>
        requires { IsPassOf reader.now pass × IsPassOf reader.now other }
        ensures pass { IfOk result (λ s. (knows s.pass ≡ knows pass) × IsShareOf s.reader reader.now) }
        ensures err { IfErr result (λ e. error_kind e ≡ OutOfMemory) }
    {
        let (stream, worker) = EventStream::with_worker(rt, alloc, reader, pass, other)?;
        drop(worker);
        Ok(stream)
    }

    /// The same, with the stream's worker, by which the other pass comes back once the stream is over.
    ///
    /// # Errors
    ///
    /// Those of `new`.
    ///
    /// ```
    /// let (mut events, worker) = EventStream::with_worker(rt, alloc, &shared, pass, other)?;
    /// let first = block_on(&rt, events.next())?;
    /// let pass = events.close();
    /// let other = worker.join(&rt);
    /// ```
    pub fn with_worker(
        rt: R,
        alloc: A,
        reader: &EventReader<S, A>,
        pass: Pass<S, A>,
        other: Pass<S, A>,
    ) -> io::Result<(EventStream<S, R, A>, StreamWorker<S, A>)>
        requires { IsPassOf reader.now pass × IsPassOf reader.now other }
        ensures pass { IfOk result (λ s. (knows s.0.pass ≡ knows pass) × IsShareOf s.0.reader reader.now) }
        // By the worker the other pass comes back.
        ensures other { IfOk result (λ s. IsWorkerOf s.1 reader.now other) }
        ensures err { IfErr result (λ e. error_kind e ≡ OutOfMemory) }
    {
        let waker = reader.waker()?;
        let theirs = reader.waker()?;
        let ours = reader.share()?;
        let hub = Arc::new(alloc, Hub::new())?;
        let shared = Arc::try_clone(&hub)?;
        let thread = started(rt, Arc::try_clone(&hub)?, reader, other)?;
        let worker = StreamWorker {
            thread,
            hub: shared,
            waker: theirs,
        };
        let stream = EventStream {
            rt,
            reader: ours,
            pass,
            hub,
            waker,
        };
        Ok((stream, worker))
    }
}

// The thread of a worker, which polls by this pass.
fn started<S, R, A>(
    rt: R,
    hub: Arc<Hub, A>,
    reader: &EventReader<S, A>,
    pass: Pass<S, A>,
) -> io::Result<PromisedHandle<Pass<S, A>, Working<S, A>>>
where
    S: EventSource<A> + Send + 'static,
    R: Threads + Wait + Copy + Send + Drop + 'static,
    A: Allocator + Clone + Send + Sync + 'static,
    requires { IsPassOf reader.now pass }
    ensures ok { IfOk result (λ thread. (thread.promise.reader.value ≡ reader.now) × (thread.promise.pass.value ≡ pass)) }
    ensures err { IfErr result (λ e. error_kind e ≡ OutOfMemory) }
{
    let theirs = reader.share()?;
    let promise = Working {
        reader: Snapshot::of(reader),
        pass: Snapshot::of(&pass),
    };
    let started = thread::spawn_with(
        &rt,
        promise,
        move ||
            requires { IsPassOf theirs pass }
            ensures pass { IsPassOf theirs result }
            // The thread makes no call but polls.
            ensures polls { OnlyPolls S.drawn S.asked (knows pass) (knows result) }
        {
            let mut pass = pass;
            work(&rt, &hub, &theirs, &mut pass);
            hub.end_worker(&rt);
            pass
        },
    );
    match started {
        Ok(thread) => Ok(thread),
        Err(_) => Err(io::Error::from(io::ErrorKind::OutOfMemory)),
    }
}

impl<S: EventSource<A>, R: Wait + Drop, A: Allocator + Clone> EventStream<S, R, A> {
    /// The next event of the user, or a fault.
    ///
    /// A fault that the worker met is returned first, once. Else the reader is asked once, with limit zero. If nothing came, or another has the
    /// reader, the task's waker is registered, in the place of an older one. From then on the worker has a task, and the poll is pending.
    pub fn poll_event(&mut self, cx: &mut Context<'_>) -> Poll<io::Result<Event<A>>>
        ensures item { IfReady result (GivesItem S.drawn S.asked (knows self.old.pass) (knows self.new.pass)) }
        ensures nothing { OnPending result (GivesNothing S.drawn S.asked (knows self.old.pass) (knows self.new.pass)) }
        // A wake-up is no item, whoever met it.
        ensures awake { IfReady result (λ item. IfErr item (λ e. error_kind e ≢ Interrupted)) }
        // The stream stays with its reader.
        ensures shared { self.new.reader ≡ self.old.reader }
        // A pending poll has registered its waker.
        ensures registered { OnPending result (Covers cx.new (λ s. s ≡ (arc_value self.new.hub).source.id)) }
        ensures kept { Keeps cx.old cx.new }
    {
        if let Some(fault) = self.hub.take_fault(&self.rt) {
            return Poll::Ready(Err(fault));
        }
        match self.reader.try_read(&self.rt, &mut self.pass) {
            Ok(Some(event)) => Poll::Ready(Ok(event)),
            Ok(None) => {
                self.hub.give_task(&self.rt, cx);
                Poll::Pending
            }
            Err(fault) => Poll::Ready(Err(fault)),
        }
    }
}

impl<S: EventSource<A>, R: Wait + Drop, A: Allocator + Clone> Stream for EventStream<S, R, A> {
    type Item = io::Result<Event<A>>;

    ghost needs = { λ stream s. s ≡ (arc_value stream.hub).source.id };

    /// What `poll_event` returns. The stream never ends.
    fn poll_next(&mut self, cx: &mut Context<'_>) -> Poll<Option<io::Result<Event<A>>>>
        ensures item { IfReady result (λ o. IsSomeAnd o (GivesItem S.drawn S.asked (knows self.old.pass) (knows self.new.pass))) }
        ensures nothing { OnPending result (GivesNothing S.drawn S.asked (knows self.old.pass) (knows self.new.pass)) }
        ensures awake { IfReady result (λ o. IsSomeAnd o (λ item. IfErr item (λ e. error_kind e ≢ Interrupted))) }
        ensures shared { self.new.reader ≡ self.old.reader }
        ensures registered { OnPending result (Covers cx.new (λ s. s ≡ (arc_value self.new.hub).source.id)) }
        ensures kept { Keeps cx.old cx.new }
    {
        match self.poll_event(cx) {
            Poll::Ready(item) => Poll::Ready(Some(item)),
            Poll::Pending => Poll::Pending,
        }
    }
}

impl<S: EventSource<A>, R: Wait + Drop, A: Allocator> EventStream<S, R, A> {
    /// Ends the stream as a drop does, and gives back the pass by which it read, with all that it knows.
    pub fn close(self) -> Pass<S, A>
        ensures pass { IsPassOf self.reader result }
        ensures same { result ≡ self.pass }
    {
        let EventStream {
            rt,
            reader: _,
            pass,
            hub,
            waker,
        } = self;
        hub.end(&rt);
        // If the device can't be woken, the worker ends after its poll.
        let _woken = waker.wake();
        pass
    }
}

impl<S: EventSource<A>, R: Wait + Drop, A: Allocator> Drop for EventStream<S, R, A> {
    fn drop(self) {
        let _pass = self.close();
    }
}
