//! A thread's share of a session's events.

ghost use Rattle.std.specs.Prelude.{◌≡◌, ◌≤◌, All, IfErr, IfOk, Some, map};
ghost use Rattle.std.specs.IoError.{error_kind};
ghost use Rattle.std.specs.declared.io.ErrorKind.TheVariants.{OutOfMemory};
ghost use Rattle.crossterm_types.specs.declared.event.filter.AnyFilter.TheVariants as filters;
ghost use Rattle.crossterm_types.specs.Timing.{IsFirst, KeepsFirst};
ghost use Rattle.crossterm_read.specs.Entries.{Polls, Reads, ReadsFor};
ghost use Rattle.crossterm_read.specs.Replies.{event_said};
ghost use Rattle.crossterm_read.specs.PassViews.{knows};
ghost use Rattle.crossterm_read.specs.Shared.{IsPassOf, IsShareOf};

use crossterm::event::source::{EventSource, Waker};
use crossterm::event::timeout::Clock;
use crossterm::event::{Event, EventReader, Pass};
use std::alloc::Global;
use std::io;
use std::sync::Wait;
use std::time::Duration;

/// A terminal's events, as a thread reads them beside the session's own.
///
/// Each event goes to the thread that reads it. A call that finds another thread reading waits, within its limit.
///
/// ```
/// let (mut tty, mut others) = own_terminal::start_shared(&rt, rt.stdin(), rt.stdout(), 1)?;
/// if let Some(events) = others.pop() {
///     let (read, drawn) = thread::join(&rt, move || count(&rt, events), || draw(&rt, &mut tty));
/// }
/// ```
#[derive(Drop)]
pub struct Events<S: EventSource<Global>> {
    pub(crate) reader: EventReader<S>,
    pub(crate) pass: Pass<S>,
    pub ghost own: { IsPassOf reader pass },
}

impl<S: EventSource<Global>> Events<S> {
    /// The next event. This waits for it as long as it takes.
    ///
    /// # Errors
    ///
    /// `UnexpectedEof` at the end of input; the device's fault; `OutOfMemory`. No event is lost by any of them.
    ///
    /// ```
    /// let event = events.read(rt)?;
    /// ```
    pub fn read<R: Wait>(&mut self, rt: &R) -> io::Result<Event>
        ensures call { Reads S.drawn S.asked filters.Event (knows self.old.pass) (knows self.new.pass) (event_said result) }
        ensures reader { self.new.reader ≡ self.old.reader }
    {
        self.reader.read(rt, &mut self.pass)
    }

    /// The next event, or `None` if none comes within this limit, by this clock. `None` too if another thread reads until then, or at a
    /// wake-up.
    ///
    /// # Errors
    ///
    /// Those of `read`.
    ///
    /// ```
    /// let mut clock = SystemClock::new(rt);
    /// if let Some(event) = events.read_within(rt, Duration::from_millis(100), &mut clock)? {
    ///     println!(rt; "{event:?}")?;
    /// }
    /// ```
    pub fn read_within<C: Clock, R: Wait>(
        &mut self,
        rt: &R,
        limit: Duration,
        clock: &mut C,
    ) -> io::Result<Option<Event>>
        ensures call { ReadsFor S.drawn S.asked filters.Event (Some limit) (IsFirst C.latest C.began clock.old clock.new) (C.latest clock.new) (knows self.old.pass) (knows self.new.pass) result }
        ensures later { C.latest clock.old ≤ C.latest clock.new }
        ensures first { KeepsFirst C.began clock.old clock.new }
        ensures reader { self.new.reader ≡ self.old.reader }
    {
        self.reader.read_for(rt, &mut self.pass, Some(limit), clock)
    }

    /// Whether an event comes within this limit, by this clock. If no other thread takes it, the next `read` returns it at once.
    ///
    /// # Errors
    ///
    /// Those of `read`.
    ///
    /// ```
    /// let mut clock = SystemClock::new(rt);
    /// if events.poll(rt, Duration::from_millis(100), &mut clock)? {
    ///     let event = events.read(rt)?;
    /// }
    /// ```
    pub fn poll<C: Clock, R: Wait>(
        &mut self,
        rt: &R,
        limit: Duration,
        clock: &mut C,
    ) -> io::Result<bool>
        ensures call { Polls S.drawn S.asked filters.Event (Some limit) (IsFirst C.latest C.began clock.old clock.new) (C.latest clock.new) (knows self.old.pass) (knows self.new.pass) result }
        ensures later { C.latest clock.old ≤ C.latest clock.new }
        ensures first { KeepsFirst C.began clock.old clock.new }
        ensures reader { self.new.reader ≡ self.old.reader }
    {
        self.reader.poll(rt, &mut self.pass, limit, clock)
    }

    /// A waker, by which another thread ends a poll with `false`.
    ///
    /// # Errors
    ///
    /// `OutOfMemory` if no further share of the waker can be made.
    pub fn waker(&self) -> io::Result<Waker>
        ensures err { IfErr result (λ e. error_kind e ≡ OutOfMemory) }
    {
        self.reader.waker()
    }
}

/// A share for each pass.
pub(crate) fn share_out<S: EventSource<Global>>(
    alloc: Global,
    reader: &EventReader<S>,
    passes: Vec<Pass<S>>,
) -> io::Result<Vec<Events<S>>>
    requires { All (λ p. IsPassOf reader.now p) passes.items }
    ensures passes { IfOk result (λ made. map (λ e. e.pass) made.items ≡ passes.items) }
    ensures shared { IfOk result (λ made. All (λ e. IsShareOf e.reader reader.now) made.items) }
    ensures err { IfErr result (λ e. error_kind e ≡ OutOfMemory) }
{
    let mut made = Vec::new(alloc);
    for pass in passes {
        let reader = reader.share()?;
        made.push(Events { reader, pass })?;
    }
    Ok(made)
}
