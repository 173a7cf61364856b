//! A reader that threads share.
ghost use Rattle.std.specs.Prelude.{◌≡◌, ◌+◌, ℕ, IfOk, IfErr, IfSome, IfNone, All, Some, map};
ghost use Rattle.std.specs.IoError.{error_kind};
ghost use Rattle.std.specs.List.{range_with_len};
ghost use Rattle.std.specs.declared.io.ErrorKind.TheVariants.{OutOfMemory};
ghost use Rattle.crossterm_read.specs.History.{Closes, Meets, opened};
ghost use Rattle.crossterm_read.specs.PassViews.{knows, pass_number};
ghost use Rattle.crossterm_read.specs.Shared.{IsPassOf, IsShareOf};

use crate::read::InternalEventReader;
use crate::read::shared::pass::Pass;
use crate::read::shared::slot::Slot;
use crate::source::{EventSource, Waker};
use std::alloc::{Allocator, Global};
use std::io;
use std::marker::Brand;
use std::sync::{Arc, Wait};

/// A reader that threads share: each call takes the reader, makes one call of it, and puts it back.
///
/// Whoever calls hands in a pass. The calls of all passes are in one history, which one reader of one thread could have made.
///
/// ```
/// let (reader, mut passes) = EventReader::new(&rt, alloc, reader, 1)?;
/// let Some(mut pass) = passes.pop() else {
///     return Ok(());
/// };
/// if reader.poll(&rt, &mut pass, limit, &mut clock)? {
///     let event = reader.read(&rt, &mut pass)?;
/// }
/// ```
#[derive(Drop)]
pub struct EventReader<S: EventSource<A>, A: Allocator = Global> {
    pub(crate) slot: Arc<Slot<S, A>, A>,
}

impl<S: EventSource<A>, A: Allocator + Clone> EventReader<S, A> {
    /// A reader to share, and so many passes for it, which are numbered from 0.
    ///
    /// # Errors
    ///
    /// `OutOfMemory` if memory was refused. Then the reader is gone, with all that it holds.
    pub fn new<R: Wait>(
        rt: &R,
        alloc: A,
        reader: InternalEventReader<S, A>,
        passes: usize,
    ) -> io::Result<(EventReader<S, A>, Vec<Pass<S, A>, A>)>
        ensures numbers { IfOk result (λ r. map pass_number r.1.items ≡ range_with_len 0 passes) }
        ensures passes { IfOk result (λ r. All (λ p. IsPassOf r.0 p × (knows p ≡ opened reader passes (pass_number p))) r.1.items) }
        ensures err { IfErr result (λ e. error_kind e ≡ OutOfMemory) }
    {
        let others = passes.saturating_sub(1);
        let (slot, first) = Slot::new::<Brand, R>(rt, alloc.clone()?, reader, others)?;
        let made = slot.passes(alloc.clone()?, first, passes)?;
        let slot = Arc::new(alloc, slot)?;
        Ok((EventReader { slot }, made))
    }

    /// The same reader, for another thread.
    ///
    /// # Errors
    ///
    /// `OutOfMemory` if no further share can be made.
    pub fn share(&self) -> io::Result<EventReader<S, A>>
        ensures ok { IfOk result (λ r. IsShareOf r self.now) }
        ensures err { IfErr result (λ e. error_kind e ≡ OutOfMemory) }
    {
        Ok(EventReader {
            slot: Arc::try_clone(&self.slot)?,
        })
    }
}

impl<S: EventSource<A>, A: Allocator> EventReader<S, A> {
    /// A waker of the device, which ends a poll with `false`. It waits for nobody, whoever has the reader.
    ///
    /// # Errors
    ///
    /// `OutOfMemory` if no further share of the waker can be made.
    ///
    /// ```
    /// let waker = reader.waker()?;
    /// // In another thread, to end a poll:
    /// waker.wake()?;
    /// ```
    pub fn waker(&self) -> io::Result<Waker>
        ensures err { IfErr result (λ e. error_kind e ≡ OutOfMemory) }
    {
        self.slot.waker.share()
    }

    /// Two passes meet: the one takes in what the other has seen, and the other is gone.
    ///
    /// So a program knows that the calls of both are in one history, at different places.
    pub fn meet(&self, one: &mut Pass<S, A>, other: Pass<S, A>)
        requires passes { IsPassOf self.now one.old × IsPassOf self.now other }
        ensures pass { IsPassOf self.now one.new }
        ensures meets { Meets S.drawn (knows one.old) (knows other) (knows one.new) }
    {
        let Pass { slot_pass, last: _ } = other;
        self.slot.meet::<Brand>(&mut one.slot_pass, slot_pass);
    }

    /// Takes the reader out for good, if no other share of it is left, and else returns `None`.
    ///
    /// The reader holds what was left, and goes on where the last call ended. After that the pass is of no more use. If it returns `None`,
    /// the pass is as it was, and the other shares take it.
    pub fn close<R: Wait>(self, rt: &R, pass: &mut Pass<S, A>) -> Option<InternalEventReader<S, A>>
        requires { IsPassOf self pass.old }
        ensures closed { IfSome result (λ r. Closes S.drawn (knows pass.old) r (knows pass.new)) }
        ensures shared { IfNone result ((knows pass.new ≡ knows pass.old) × IsPassOf self pass.new) }
    {
        let slot = Arc::into_inner(self.slot)?;
        slot.emptied(rt, &mut pass.slot_pass)
    }
}
