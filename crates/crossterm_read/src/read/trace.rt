//! Calls of a reader over a script.
ghost use Rattle.std.specs.Prelude.{◌≡◌, map, IfOk, IfErr, true};
ghost use Rattle.std.specs.IoError.{error_kind};
ghost use Rattle.std.specs.declared.io.ErrorKind.TheVariants.{OutOfMemory};
ghost use Rattle.crossterm_types.specs.Seen.{seen};
ghost use Rattle.crossterm_read.specs.Calls.{said, Plays, Accounts};
ghost use Rattle.crossterm_read.specs.Scripted.{device_answers};

use crate::read::InternalEventReader;
use crate::read::call::{Call, Reply};
use crate::source::{Act, DeviceSource, EventSource, Script};
use crossterm_types::event::InternalEvent;
use crossterm_types::event::filter::{Classes, Filter};
use std::alloc::{AllocError, Allocator, Global};
use std::io;

/// What came of all calls.
#[derive(Drop)]
#[derive_where(Debug)]
pub struct Trace<A: Allocator = Global> {
    /// The reply to each call.
    pub replies: Vec<Reply<A>, A>,
    /// The events that are held after them, in the order of their arrival.
    pub held: Vec<InternalEvent<A>, A>,
}

// Admits every event.
struct Every;

impl Filter for Every {
    ghost admits = { λ _ _. true };

    fn eval<A: Allocator>(&self, _event: &InternalEvent<A>) -> bool {
        true
    }

    fn classes(&self) -> Option<Classes> {
        Some(Classes {
            event: true,
            cursor: true,
            flags: true,
            attributes: true,
        })
    }
}

// Takes all events that are held.
fn take_all<S: EventSource<A>, A: Allocator>(
    alloc: A,
    reader: &mut InternalEventReader<S, A>,
) -> Result<Vec<InternalEvent<A>, A>, AllocError>
    ensures { IfOk result (λ events. map seen events.items ≡ map (λ h. h.0) reader.old.store.held) }
{
    let mut events = Vec::new(alloc);
    while let Some(event) = reader.take(&Every) {
        events.push(event)?;
    }
    Ok(events)
}

/// The replies to all calls of one reader over a script, and the events that it holds after them.
///
/// # Errors
///
/// `OutOfMemory` if the trace can't grow. If memory is refused inside a call, that is the call's fault, and is in its reply.
///
/// ```
/// let calls = [Call::Read { tries: 1, filter: AnyFilter::Event }];
/// let trace = play(alloc, acts, &calls)?;
/// let replies = trace.replies.as_slice();
/// ```
pub fn play<A: Allocator + Clone>(
    alloc: A,
    script: Vec<Act<A>, A>,
    calls: &[Call],
) -> io::Result<Trace<A>>
    // There are lists of a source's answers, one a call, which joined come from the script, and the trace is the calls' run over them.
    ensures run { IfOk result (λ trace. Plays (device_answers script.items) calls.now (map said trace.replies.items) (map seen trace.held.items)) }
    // So the events taken and those held are the first ones of all that happens by the script, each once.
    ensures account { IfOk result (λ trace. Accounts (device_answers script.items) (map said trace.replies.items) (map seen trace.held.items)) }
    ensures err { IfErr result (λ e. error_kind e ≡ OutOfMemory) }
{
    let source = DeviceSource::new(alloc.clone()?, Script::new(script));
    let mut reader = InternalEventReader::new(alloc.clone()?, source);
    let mut replies = Vec::new(alloc.clone()?);
    for call in calls {
        let reply = reader.call(*call);
        match replies.push(reply) {
            Ok(()) => {}
            Err(error) => return Err(io::Error::from(error)),
        }
    }
    let held = take_all(alloc, &mut reader)?;
    Ok(Trace { replies, held })
}
