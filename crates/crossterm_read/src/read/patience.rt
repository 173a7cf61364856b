//! How long a call asks its source: so many times, or within a limit of time.
ghost use Rattle.std.specs.Prelude.{◌≡◌, ◌≢◌, ◌⊎◌, ◌≤◌, ◌<◌, ◌-◌, IfOk, IfErr, IfSome, ℕ, List, Option, None, ⊤};
ghost use Rattle.std.specs.Duration.{as_nanos};
ghost use Rattle.std.specs.IoError.{error_kind};
ghost use Rattle.std.specs.declared.io.ErrorKind.TheVariants.{Interrupted};
ghost use Rattle.std.specs.declared.time.Duration.{Duration};
ghost use Rattle.crossterm_types.specs.Timing.{KeepsFirst};
ghost use Rattle.crossterm_read.specs.declared.read.reader.AtWake.TheVariants.{GoesOn};
ghost use Rattle.crossterm_read.specs.Answers.{IsOwn};
ghost use Rattle.crossterm_read.specs.Device.{AsksAtOnce};
ghost use Rattle.crossterm_read.specs.Steps as steps;
ghost use Rattle.crossterm_read.specs.Steps.{first_admitted};
ghost use Rattle.crossterm_read.specs.Store.{reader_capacity};
ghost use Rattle.crossterm_read.specs.Waiting.{AsksLeft};
ghost use Rattle.crossterm_read.specs.inside.Asking.{Asked, AsksInTime, BreaksWhere, DrawsOne, HasPlace, IsRefused};
ghost use Rattle.crossterm_read.specs.inside.Limits.{none_at_once, none_left};

use crate::read::InternalEventReader;
use crate::read::held::Taken;
use crate::read::reader::{AtWake, Once};
use crate::source::EventSource;
use crossterm_types::event::InternalEvent;
use crossterm_types::event::filter::Filter;
use crossterm_types::event::timeout::{Clock, PollTimeout};
use std::alloc::Allocator;
use std::io;
use std::sync::Wait;
use std::time::Duration;

// How long a call asks its source.
pub(crate) trait Patience {
    // How long that was, at the moment at which the call ends.
    ghost lasted: { Self → ℕ → steps.Patience };

    // From which moments on a call may ask so long.
    ghost begins: { Self → ℕ → Type 0 };

    // With which limits the device was asked, up to such a moment.
    ghost limits: { Self → ℕ → List (Option Duration) → List (Option Duration) → Type 0 };

    // Asks the source until it gives an admitted event, while none is held.
    fn ask<S: EventSource<A>, A: Allocator + Clone, F: Filter, C: Clock>(
        &self,
        reader: &mut InternalEventReader<S, A>,
        clock: &mut C,
        at_wake: AtWake,
        filter: &F,
    ) -> io::Result<Option<Taken<InternalEvent<A>>>>
        requires begins { begins self.now (C.latest clock.old) }
        requires none { first_admitted (F.admits filter.now) reader.old.store.held ≡ None }
        ensures later { C.latest clock.old ≤ C.latest clock.new }
        ensures first { KeepsFirst C.began clock.old clock.new }
        ensures asked { Asked S.drawn S.failed at_wake (F.admits filter.now) (lasted self.now (C.latest clock.new)) reader.old reader.new result }
        ensures limits { limits self.now (C.latest clock.new) (S.asked reader.old.source) (S.asked reader.new.source) }
        ensures room { reader_capacity reader.old ≤ reader_capacity reader.new }
        ensures place { IfOk result (λ given. IfSome given (HasPlace reader.new)) }
        ensures rise { S.failed reader.old.source ≤ S.failed reader.new.source }
        ensures err { IfErr result (λ e. IsOwn (error_kind e) ⊎ (S.failed reader.old.source < S.failed reader.new.source)) }
        ensures awake { at_wake ≡ GoesOn → IfErr result (λ e. error_kind e ≢ Interrupted) };

    // If the device isn't asked, there are no limits.
    ghost limits_none: { (p : Self) (now : ℕ) (asked : List (Option Duration)) → limits p now asked asked };
}

// So many times at most, each time with limit zero.
#[derive(Clone, Copy)]
pub(crate) struct Tries {
    pub(crate) most: u32,
}

impl Patience for Tries {
    ghost lasted = { λ t now. steps.UpTo t.most };

    ghost begins = { λ t now. ⊤ };

    ghost limits = { λ t now. AsksAtOnce };

    ghost limits_none = { λ t now asked. none_at_once asked };

    #[inline(always)]
    fn ask<S: EventSource<A>, A: Allocator + Clone, F: Filter, C: Clock>(
        &self,
        reader: &mut InternalEventReader<S, A>,
        _clock: &mut C,
        at_wake: AtWake,
        filter: &F,
    ) -> io::Result<Option<Taken<InternalEvent<A>>>> {
        for _i in 0..self.most {
            match reader.draw(filter, at_wake, Some(Duration::ZERO)) {
                Once::Refused => return Err(io::Error::from(io::ErrorKind::OutOfMemory)),
                Once::Broke(error) => return Err(error),
                Once::Came(taken) => return Ok(Some(taken)),
                Once::Nothing => {}
            }
        }
        Ok(None)
    }
}

// Within what is left of a limit of time, or without one. The source is asked at least once.
#[derive_where(Clone, Copy)]
pub(crate) struct InTime<'a, R> {
    pub(crate) rt: &'a R,
    pub(crate) timeout: PollTimeout,
}

impl<R: Wait> Patience for InTime<'_, R> {
    ghost lasted = { λ p now. steps.Within p.timeout.limit (now - as_nanos p.timeout.start) };

    ghost begins = { λ p now. as_nanos p.timeout.start ≤ now };

    ghost limits = { λ p. AsksLeft p.timeout };

    ghost limits_none = { λ p now asked. none_left p.timeout now asked };

    #[inline(always)]
    fn ask<S: EventSource<A>, A: Allocator + Clone, F: Filter, C: Clock>(
        &self,
        reader: &mut InternalEventReader<S, A>,
        clock: &mut C,
        at_wake: AtWake,
        filter: &F,
    ) -> io::Result<Option<Taken<InternalEvent<A>>>> {
        for _ in self.rt.forever() {
            match reader.draw_in_time(&self.timeout, clock, filter, at_wake) {
                Once::Refused => return Err(io::Error::from(io::ErrorKind::OutOfMemory)),
                Once::Broke(error) => return Err(error),
                Once::Came(taken) => return Ok(Some(taken)),
                Once::Nothing => {}
            }
            if self.timeout.elapsed(clock.now()) {
                return Ok(None);
            }
        }
        unreachable!()
    }
}

impl<S: EventSource<A>, A: Allocator + Clone> InternalEventReader<S, A> {
    // Asks the source once, with what is left of the limit now.
    #[inline(always)]
    fn draw_in_time<F: Filter, C: Clock>(
        &mut self,
        timeout: &PollTimeout,
        clock: &mut C,
        filter: &F,
        at_wake: AtWake,
    ) -> Once<A>
        ensures later { C.latest clock.old ≤ C.latest clock.new }
        ensures first { KeepsFirst C.began clock.old clock.new }
        ensures asked { AsksInTime timeout.now (C.latest clock.new) (S.asked self.old.source) (S.asked self.new.source) }
        ensures one { DrawsOne S.drawn S.failed at_wake (F.admits filter.now) self.old self.new result }
        ensures room { reader_capacity self.old ≤ reader_capacity self.new }
        ensures full { IsRefused result → self.old.room ≡ 0 }
        ensures rise { S.failed self.old.source ≤ S.failed self.new.source }
        ensures err { BreaksWhere result (λ kind. IsOwn kind ⊎ (S.failed self.old.source < S.failed self.new.source)) }
    {
        let left = timeout.leftover(clock.now());
        self.draw(filter, at_wake, left)
    }
}
