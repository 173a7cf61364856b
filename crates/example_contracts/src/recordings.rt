//! What a program learns of a session that it recorded, by public contracts alone.
//!
//! `read_two` reads twice from a device whose answers are recorded. Unless the recording ended early, this is known: its text reads back, and
//! the same calls over a script of it return the same, and leave the same events, if no memory is refused. So a test that plays the
//! recording sees what was seen.

ghost use Rattle.std.specs.Prelude.{◌≡◌, IfErr, IfOk, List, [], ◌∷◌, None, map};
ghost use Rattle.std.specs.IoError.{error_kind};
ghost use Rattle.std.specs.declared.io.ErrorKind.TheVariants.{OutOfMemory};
ghost use Rattle.crossterm_types.specs.declared.event.filter.AnyFilter.TheVariants as filters;
ghost use Rattle.crossterm_read.specs.Replies.{try_said};
ghost use Rattle.crossterm_read.specs.declared.read.call.Call.TheVariants as call;
ghost use Rattle.example_contracts.specs.Recorded.{CallsReplay};

use crossterm_read::laws::one_result;
use crossterm_read::read::InternalEventReader;
use crossterm_read::source::{Device, DeviceSource};
use crossterm_types::event::InternalEvent;
use crossterm_types::event::filter::AnyFilter;
use crossterm_types::event::timeout::Clock;
use recorder::{Recorder, laws};
use std::alloc::Allocator;
use std::io::{self, Write};

/// A reader whose device is recorded.
pub type RecordedReader<D, W, C, A> = InternalEventReader<DeviceSource<Recorder<D, W, C, A>, A>, A>;

/// What two reads returned, and the reader, whose recorder says whether the recording ended early.
#[derive(Drop)]
pub struct TwoReads<D, W, C: Clock, A: Allocator> {
    /// What the first read returned.
    pub first: io::Result<Option<InternalEvent<A>>>,
    /// What the second read returned.
    pub second: io::Result<Option<InternalEvent<A>>>,
    /// The reader. It may hold further events.
    pub reader: RecordedReader<D, W, C, A>,
}

/// Reads twice from a device, each time with so many tries, and records what the device answers.
///
/// # Errors
///
/// `OutOfMemory`, if an allocator can't be cloned; then the device was asked for nothing.
pub fn read_two<D: Device, W: Write + Drop, C: Clock + Drop, A: Allocator + Clone>(
    alloc: A,
    device: D,
    writer: W,
    clock: C,
    tries: u32,
) -> io::Result<TwoReads<D, W, C, A>>
    ensures ok { IfOk result (λ two. two.reader.source.device.stop ≡ None →
        CallsReplay W.contents D.answering.answered
        (record { device = device; writer = writer; clock = C.latest clock; room = None; stop = None })
        two.reader.source.device
        (call.Read tries filters.Event ∷ call.Read tries filters.Event ∷ [])
        (try_said two.first ∷ try_said two.second ∷ [])
        (map (λ h. h.0) two.reader.store.held)) }
    ensures err { IfErr result (λ e. error_kind e ≡ OutOfMemory) }
{
    let recorder = Recorder::new(alloc.clone()?, device, writer, clock);
    let source = DeviceSource::new(alloc.clone()?, recorder);
    let mut reader = InternalEventReader::new(alloc, source);
    let first = reader.read_within(tries, &AnyFilter::Event);
    let second = reader.read_within(tries, &AnyFilter::Event);
    laws::replays::<D, W>();
    one_result();
    Ok(TwoReads {
        first,
        second,
        reader,
    })
}
