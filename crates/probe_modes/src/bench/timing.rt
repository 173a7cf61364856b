//! The least time of some work.

use crate::fault::Fault;
use std::fmt;
use std::rt::Clock;
use std::time::Instant;

/// How many seconds work is done again and again.
const ENOUGH: u64 = 1;

/// What is timed.
pub trait Work {
    /// Does it once.
    fn run(&mut self) -> Result<(), Fault>;
}

/// Nanoseconds, as hundredths of one.
#[derive(Clone, Copy)]
pub struct Nanos {
    hundredths: u64,
}

impl fmt::Display for Nanos {
    fn fmt<W: fmt::Write>(&self, f: &mut fmt::Formatter<W>) -> fmt::Result {
        let whole = self.hundredths / 100;
        let rest = self.hundredths % 100;
        write!(f, "{whole}.{rest:02}")
    }
}

fn now(clock: &impl Clock) -> Result<Instant, Fault> {
    Instant::now(clock).ok().ok_or(Fault::NoClock)
}

/// The nanoseconds that so many runs take.
fn measure<W: Work>(clock: &impl Clock, work: &mut W, times: u64) -> Result<u64, Fault> {
    let start = now(clock)?;
    for _ in 0..times {
        work.run()?;
    }
    let took = now(clock)?.duration_since(start).as_nanos();
    Ok(u64::try_from(took).unwrap_or(u64::MAX))
}

/// The least time of one of the units that each run has, in about a second.
///
/// If a run has few units, several are measured as one, since a look at the clock takes time too.
pub fn least<W: Work>(clock: &impl Clock, work: &mut W, units: usize) -> Result<Nanos, Fault> {
    let units = (units as u64).max(1);
    let times = (65_536 / units).max(1);
    let start = now(clock)?;
    let mut least = u64::MAX;
    for _ in 0..u64::MAX {
        least = least.min(measure(clock, work, times)?);
        if now(clock)?.duration_since(start).as_secs() >= ENOUGH {
            break;
        }
    }
    let all = units.saturating_mul(times).max(1);
    Ok(Nanos {
        hundredths: least.saturating_mul(100) / all,
    })
}
