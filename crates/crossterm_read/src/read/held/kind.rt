//! The kinds of events that a reader holds, and places in their queues.
ghost use Rattle.std.specs.Prelude.{◌≡◌, ◌+◌, ◌-◌, ◌^◌, ◌<◌, if◌then◌else◌};
ghost use Rattle.crossterm_read.specs.inside.Kinds.{has_class, kind_of, queue_place, same_kind};

use crossterm_types::event::InternalEvent;
use crossterm_types::event::filter::Classes;
use std::alloc::Allocator;

// The kinds of events. Each has a queue of its own.
#[derive(Clone, Copy)]
pub(crate) enum Kind {
    Event,
    Cursor,
    Flags,
    Attributes,
}

impl Kind {
    pub(crate) fn of<A: Allocator>(event: &InternalEvent<A>) -> Self
        ensures { result ≡ kind_of event.now }
    {
        match event {
            InternalEvent::Event(_) => Kind::Event,
            InternalEvent::CursorPosition(_, _) => Kind::Cursor,
            InternalEvent::KeyboardEnhancementFlags(_) => Kind::Flags,
            InternalEvent::PrimaryDeviceAttributes => Kind::Attributes,
        }
    }

    // Whether the kind is one of these classes.
    pub(crate) fn is_in(self, classes: Classes) -> bool
        ensures { result ≡ has_class classes self }
    {
        match self {
            Kind::Event => classes.event,
            Kind::Cursor => classes.cursor,
            Kind::Flags => classes.flags,
            Kind::Attributes => classes.attributes,
        }
    }
}

// A place in each queue.
#[derive(Clone, Copy)]
pub(crate) struct Places {
    event: usize,
    cursor: usize,
    flags: usize,
    attributes: usize,
}

impl Places {
    // The fronts.
    pub(crate) const FRONTS: Places = Places {
        event: 0,
        cursor: 0,
        flags: 0,
        attributes: 0,
    };

    pub(crate) fn of(self, kind: Kind) -> usize
        ensures { result ≡ queue_place self kind }
    {
        match kind {
            Kind::Event => self.event,
            Kind::Cursor => self.cursor,
            Kind::Flags => self.flags,
            Kind::Attributes => self.attributes,
        }
    }

    // One place further in this queue.
    pub(crate) fn after(self, kind: Kind) -> Self
        requires { queue_place self kind < 2 ^ 64 - 1 }
        ensures { (other : Kind) → queue_place result other ≡ (if same_kind other kind then queue_place self other + 1 else queue_place self other) }
    {
        match kind {
            Kind::Event => Places {
                event: self.event + 1,
                ..self
            },
            Kind::Cursor => Places {
                cursor: self.cursor + 1,
                ..self
            },
            Kind::Flags => Places {
                flags: self.flags + 1,
                ..self
            },
            Kind::Attributes => Places {
                attributes: self.attributes + 1,
                ..self
            },
        }
    }
}

// A place in one queue.
#[derive(Clone, Copy)]
pub(crate) struct Place {
    pub(crate) kind: Kind,
    pub(crate) at: usize,
}
