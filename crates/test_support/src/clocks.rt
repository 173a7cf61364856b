//! Clocks that a test sets.

use crossterm_types::event::timeout::Clock;
use std::time::Duration;

/// A clock that goes on by a millisecond each time.
#[derive(Drop)]
pub struct Ticking {
    millis: u32,
}

impl Ticking {
    /// A clock that wasn't asked yet.
    pub fn new() -> Ticking {
        Ticking { millis: 0 }
    }
}

impl Clock for Ticking {
    ghost use Rattle.std.specs.Prelude.{◌*◌};

    ghost latest = { λ clock. clock.millis * 1000000 };

    fn now(&mut self) -> Duration {
        self.millis = self.millis.saturating_add(1);
        self.last()
    }

    fn last(&self) -> Duration {
        Duration::from_millis(u64::from(self.millis))
    }
}
