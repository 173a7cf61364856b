//! Clocks, and limits of time.
ghost use Rattle.std.specs.Prelude.{◌≡◌, ◌≤◌, ◌↔◌, ℕ, ⊤, IsTrue};
ghost use Rattle.std.specs.Duration.{as_nanos};
ghost use Rattle.std.specs.Option.{option_map};
ghost use Rattle.crossterm_types.specs.Timing.{HasElapsed, KeepsFirst, gone, left_over};

use std::time::{Duration, Instant};

/// Reports the time since some moment, and never goes back.
pub trait Clock {
    /// What `now` returned last, in nanoseconds; 0 at first.
    ghost latest: { Self → ℕ };

    /// Which time `now` returned first, from one state of the clock to another. A clock need not know it.
    ghost began: { Self → ℕ → Self → Type 0 } = { λ _ _ _. ⊤ };

    /// The time that it is.
    fn now(&mut self) -> Duration
        ensures latest { as_nanos result ≡ latest self.new }
        ensures later { latest self.old ≤ latest self.new }
        // From here on this time is the first, and another that was the first stays so.
        ensures first { began self.old (latest self.new) self.new }
        ensures again { KeepsFirst began self.old self.new };

    /// What `now` returned last, and zero if it wasn't asked yet.
    fn last(&self) -> Duration
        ensures { as_nanos result ≡ latest self.now };
}

/// The system's monotonic clock, from the moment on at which it is asked first.
///
/// If the system can't report the time, `now` returns the last moment again.
///
/// ```
/// let mut clock = SystemClock::new(&rt);
/// let is_there = reader.poll(&rt, &mut pass, Duration::from_secs(1), &mut clock)?;
/// ```
#[derive(Drop)]
pub struct SystemClock<'a, C> {
    system: &'a C,
    start: Option<Instant>,
    last: Duration,
}

impl<'a, C: std::rt::Clock> SystemClock<'a, C> {
    /// A clock that wasn't asked yet.
    pub fn new(system: &'a C) -> Self
        ensures { as_nanos result.last ≡ 0 }
    {
        SystemClock {
            system,
            start: None,
            last: Duration::ZERO,
        }
    }

    /// The time since the first moment, if the system reports it.
    fn gone(&mut self) -> Option<Duration>
        ensures { self.new.last ≡ self.old.last }
    {
        let now = Instant::now(self.system).ok()?;
        match self.start {
            Some(start) => Some(now.duration_since(start)),
            None => {
                self.start = Some(now);
                Some(Duration::ZERO)
            }
        }
    }
}

impl<C: std::rt::Clock> Clock for SystemClock<'_, C> {
    ghost latest = { λ clock. as_nanos clock.last };

    fn now(&mut self) -> Duration {
        if let Some(gone) = self.gone() {
            if gone.as_nanos() > self.last.as_nanos() {
                self.last = gone;
            }
        }
        self.last
    }

    fn last(&self) -> Duration {
        self.last
    }
}

/// The clock of a call without a limit: it never moves.
///
/// ```
/// let is_there = reader.poll_by(&rt, &mut pass, None, &mut Still, AnyFilter::Event)?;
/// ```
#[derive(Drop)]
pub struct Still;

impl Clock for Still {
    ghost latest = { λ _. 0 };

    fn now(&mut self) -> Duration {
        Duration::ZERO
    }

    fn last(&self) -> Duration {
        Duration::ZERO
    }
}

/// How long to wait, from a moment on.
#[derive(Clone, Copy, Debug)]
pub struct PollTimeout {
    limit: Option<Duration>,
    start: Duration,
}

impl PollTimeout {
    /// So long from this moment on, or without a limit.
    pub fn new(limit: Option<Duration>, now: Duration) -> PollTimeout
        ensures limit { result.limit ≡ limit }
        ensures start { result.start ≡ now }
    {
        PollTimeout { limit, start: now }
    }

    /// The time that has gone from the start to a moment; zero if the moment is before it.
    fn gone(self, now: Duration) -> Duration
        ensures { as_nanos result ≡ gone self (as_nanos now) }
    {
        now.saturating_sub(self.start)
    }

    /// Whether there is a limit and at this moment it has passed.
    pub fn elapsed(&self, now: Duration) -> bool
        ensures { IsTrue result ↔ HasElapsed self.now (as_nanos now) }
    {
        match self.limit {
            Some(limit) => self.gone(now).as_nanos() >= limit.as_nanos(),
            None => false,
        }
    }

    /// What is left of the limit at this moment, zero if it has passed; `None` without a limit.
    pub fn leftover(&self, now: Duration) -> Option<Duration>
        ensures { option_map as_nanos result ≡ left_over self.now (as_nanos now) }
    {
        match self.limit {
            Some(limit) => Some(limit.saturating_sub(self.gone(now))),
            None => None,
        }
    }
}
