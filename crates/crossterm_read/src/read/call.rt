//! What is asked of a reader, and what it replies.
ghost use Rattle.std.specs.Prelude.{◌≡◌, List};
ghost use Rattle.crossterm_read.specs.Answers.{SourceAnswer};
ghost use Rattle.crossterm_read.specs.Calls.{said, request, Step};
ghost use Rattle.crossterm_read.specs.Replies.{Replied, shown};

use crate::read::InternalEventReader;
use crate::source::EventSource;
use crossterm_types::event::filter::AnyFilter;
use crossterm_types::event::{InternalEvent, KeyboardEnhancementFlags};
use std::alloc::{Allocator, Global};
use std::io;

/// A call of a reader.
#[derive(Clone, Copy, Debug)]
pub enum Call {
    /// `InternalEventReader::poll_within`.
    Poll {
        /// How often the source is asked at most.
        tries: u32,
        /// Which events are admitted.
        filter: AnyFilter,
    },
    /// `InternalEventReader::read_within`.
    Read {
        /// How often the source is asked at most.
        tries: u32,
        /// Which events are admitted.
        filter: AnyFilter,
    },
    /// `InternalEventReader::take`.
    Take {
        /// Which events are admitted.
        filter: AnyFilter,
    },
    /// `InternalEventReader::position_within`.
    Position {
        /// How often the source is asked at most.
        tries: u32,
    },
    /// `InternalEventReader::keyboard_within`.
    Keyboard {
        /// How often the source is asked at most, for the reply, and for the attributes after it.
        tries: u32,
    },
}

/// What a call answered.
#[derive(Drop)]
#[derive_where(Debug)]
pub enum Reply<A: Allocator = Global> {
    /// Whether an admitted event is held.
    Poll(bool),
    /// The event that was taken, if there was one.
    Event(Option<InternalEvent<A>>),
    /// The cursor's place: its column and row.
    Position(u16, u16),
    /// The flags of the keyboard protocol, if the terminal has it.
    Keyboard(Option<KeyboardEnhancementFlags>),
    /// A fault of this kind.
    Fault(io::ErrorKind),
}

impl<S: EventSource<A>, A: Allocator + Clone> InternalEventReader<S, A> {
    // Makes one call.
    pub(crate) fn call(&mut self, call: Call) -> Reply<A>
        ensures { (zs : List SourceAnswer) × (r : Replied) × S.drawn self.old.source zs self.new.source
            × Step (request call) zs self.old.store self.new.store r × (said result ≡ shown r) }
    {
        match call {
            Call::Poll { tries, filter } => match self.poll_within(tries, &filter) {
                Ok(ready) => Reply::Poll(ready),
                Err(error) => Reply::Fault(error.kind()),
            },
            Call::Read { tries, filter } => match self.read_within(tries, &filter) {
                Ok(event) => Reply::Event(event),
                Err(error) => Reply::Fault(error.kind()),
            },
            Call::Take { filter } => Reply::Event(self.take(&filter)),
            Call::Position { tries } => match self.position_within(tries) {
                Ok((column, row)) => Reply::Position(column, row),
                Err(error) => Reply::Fault(error.kind()),
            },
            Call::Keyboard { tries } => match self.keyboard_within(tries) {
                Ok(flags) => Reply::Keyboard(flags),
                Err(error) => Reply::Fault(error.kind()),
            },
        }
    }
}
