//! The clock over a system that falters.

use crossterm_types::event::timeout::{Clock, SystemClock};
use std::cell::Cell;
use std::io::{self, ErrorKind};
use std::rt;
use std::time::Duration;
use test_support::expect;

fn ms(count: u64) -> Duration {
    Duration::from_millis(count)
}

/// A clock of a system that reports 5 s, fails, goes back to 3 s, and goes on to 9 s.
#[derive(Drop)]
struct Faltering {
    asked: Cell<u32>,
}

impl rt::Clock for Faltering {
    fn monotonic(&self) -> io::Result<Duration> {
        let asked = self.asked.get();
        self.asked.set(asked.saturating_add(1));
        match asked {
            0 => Ok(ms(5_000)),
            1 => Err(io::Error::from(ErrorKind::Other)),
            2 => Ok(ms(3_000)),
            _ => Ok(ms(9_000)),
        }
    }

    fn since_1970(&self) -> io::Result<Duration> {
        Err(io::Error::from(ErrorKind::Unsupported))
    }
}

/// Whether the moments of a system that falters are returned as far as they go on.
fn keeps_going(clock: &mut SystemClock<'_, Faltering>) -> bool {
    let still = clock.now() == ms(0) && clock.now() == ms(0) && clock.now() == ms(0);
    still && clock.now() == ms(4_000) && clock.last() == ms(4_000)
}

#[test]
fn a_clock_that_falters_returns_the_last_moment_again(rt: HostRuntime) {
    let system = Faltering {
        asked: Cell::new(0),
    };
    let mut clock = SystemClock::new(&system);
    expect!(rt; keeps_going(&mut clock));
}
