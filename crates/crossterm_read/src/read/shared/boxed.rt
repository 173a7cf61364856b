//! The reader as it is in the slot.
ghost use Rattle.std.specs.Prelude.{◌≡◌};

use crate::read::InternalEventReader;
use std::alloc::Allocator;
use std::boxed::Box;
use std::marker::Model;

/// A reader on the heap, so that a take and a put move a pointer in place of the reader with its buffer.
#[derive(Drop)]
pub struct Boxed<S, A: Allocator> {
    pub(crate) reader: Box<InternalEventReader<S, A>, A>,
}

impl<S, A: Allocator> Model for Boxed<S, A> {
    ghost use Rattle.crossterm_read.specs.Store.{ReaderState};

    ghost Value = { ReaderState S };

    ghost view = { λ b. b.reader.value };
}

impl<S, A: Allocator> Boxed<S, A> {
    /// The reader out of it.
    pub(crate) fn unboxed(self) -> Box<InternalEventReader<S, A>, A>
        ensures { result.value ≡ self }
    {
        let Boxed { reader } = self;
        reader
    }
}
