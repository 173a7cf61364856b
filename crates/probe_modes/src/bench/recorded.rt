//! Keys that come one by one, with a recorder and without one.

use crate::bench::input::print;
use crate::bench::letters::Letters;
use crate::bench::reading::Reading;
use crate::bench::timing::{Nanos, least};
use crate::fault::Fault;
use crossterm::event::source::Device;
use crossterm::event::timeout::SystemClock;
use recorder::Recorder;
use std::alloc::Allocator;
use std::io::{self, Write};
use std::rt::Clock;

/// The least time that one key of a device takes.
fn time_key<C: Clock, A: Allocator + Clone, D: Device>(
    clock: &C,
    alloc: A,
    device: D,
) -> Result<Nanos, Fault> {
    let mut reading = Reading::new(alloc, device)?;
    least(clock, &mut reading, 1)
}

/// Prints the least time that one key takes, and that of one which is recorded.
pub(super) fn time<C: Clock, A: Allocator + Clone, W: Write>(
    clock: &C,
    alloc: A,
    writer: &mut W,
) -> Result<(), Fault> {
    let alone = time_key(clock, alloc.clone()?, Letters::new(1))?;
    let system = SystemClock::new(clock);
    let recorder = Recorder::new(alloc.clone()?, Letters::new(1), io::sink(), system);
    let recorded = time_key(clock, alloc, recorder)?;
    print(
        writer,
        format_args!("ns a key {alone}, recorded {recorded}"),
    )
}
