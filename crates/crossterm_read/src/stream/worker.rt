//! The worker of a stream, which waits when the stream may not.
ghost use Rattle.crossterm_read.specs.PassViews.{knows};
ghost use Rattle.crossterm_read.specs.Shared.{IsPassOf};
ghost use Rattle.crossterm_read.specs.Streams.{OnlyPolls};

use crate::read::{EventReader, Pass};
use crate::source::{EventSource, Waker};
use crate::stream::hub::Hub;
use crossterm_types::event::filter::AnyFilter;
use crossterm_types::event::timeout::Still;
use std::alloc::{Allocator, Global};
use std::snapshot::Snapshot;
use std::sync::{Arc, Wait};
use std::thread::{Promise, PromisedHandle, Threads};
use std::time::Duration;

/// What a worker gives back: its pass, which is still one of the reader's, and has made no call but polls.
#[derive(Drop)]
pub struct Working<S: EventSource<A>, A: Allocator> {
    pub(crate) reader: Snapshot<EventReader<S, A>>,
    pub(crate) pass: Snapshot<Pass<S, A>>,
}

impl<S: EventSource<A>, A: Allocator> Promise<Pass<S, A>> for Working<S, A> {
    ghost kept_by = { λ it pass. IsPassOf it.reader.value pass × OnlyPolls S.drawn S.asked (knows it.pass.value) (knows pass) };
}

/// The worker of a stream, by which the stream's other pass comes back.
///
/// If it is dropped, the worker runs on until the stream is over, and its pass ends with it.
#[derive(Drop)]
pub struct StreamWorker<S: EventSource<A>, A: Allocator = Global> {
    pub(crate) thread: PromisedHandle<Pass<S, A>, Working<S, A>>,
    pub(crate) hub: Arc<Hub, A>,
    pub(crate) waker: Waker,
}

impl<S: EventSource<A>, A: Allocator> StreamWorker<S, A> {
    /// Waits until the stream is over and its worker has ended, and gives back the pass by which the worker polled.
    ///
    /// It wakes the reader until the worker has its turn, so a poll by another pass may end with `false`. If the device can't be woken, it
    /// waits until the worker's poll ends.
    ///
    /// ```
    /// let pass = stream.close();
    /// let other = worker.join(&rt);
    /// ```
    pub fn join<R: Threads + Wait>(self, rt: &R) -> Pass<S, A>
        ensures pass { IsPassOf self.thread.promise.reader.value result }
        ensures polls { OnlyPolls S.drawn S.asked (knows self.thread.promise.pass.value) (knows result) }
    {
        let StreamWorker { thread, hub, waker } = self;
        see_off(rt, &hub, &waker);
        thread.join(rt)
    }
}

// Wakes the worker of a stream that is over, until it has ended.
fn see_off<R: Wait>(rt: &R, hub: &Hub, waker: &Waker) {
    for _ in rt.forever() {
        if hub.await_worker(rt, Duration::from_millis(5)) {
            return;
        }
        // If the device can't be woken, the worker ends after its poll.
        let _woken = waker.wake();
    }
}

// Polls without a limit for each task that the stream gives, until the stream is over. The reader is back in its place before it wakes,
// so that the one who is woken finds it there with what came.
pub(crate) fn work<S: EventSource<A>, R: Wait, A: Allocator + Clone>(
    rt: &R,
    hub: &Hub,
    reader: &EventReader<S, A>,
    pass: &mut Pass<S, A>,
)
    requires { IsPassOf reader.now pass.old }
    ensures pass { IsPassOf reader.now pass.new }
    ensures polls { OnlyPolls S.drawn S.asked (knows pass.old) (knows pass.new) }
{
    for _ in rt.forever() {
        if !hub.await_task(rt) {
            return;
        }
        match reader.poll_by(rt, pass, None, &mut Still, AnyFilter::Event) {
            Ok(true) => hub.end_task(rt, None),
            // A wake-up: of the stream's end, or somebody else's, and then the task goes on.
            Ok(false) => {}
            Err(fault) => hub.end_task(rt, Some(fault)),
        }
    }
}
