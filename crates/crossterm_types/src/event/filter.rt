//! Filters: which events a call asks for.
ghost use Rattle.std.specs.Prelude.{◌≡◌, Bool, true, false, IfSome, Some};
ghost use Rattle.crossterm_types.specs.Seen.{Seen, seen};

use crate::event::InternalEvent;
use std::alloc::Allocator;

/// Classes of events: one for each kind of `InternalEvent`.
#[derive(Clone, Copy, Debug, PartialEq, Eq)]
pub struct Classes {
    /// What a user brought about: `InternalEvent::Event`.
    pub event: bool,
    /// Replies that report the cursor's place: `InternalEvent::CursorPosition`.
    pub cursor: bool,
    /// Replies that report the flags of the keyboard protocol: `InternalEvent::KeyboardEnhancementFlags`.
    pub flags: bool,
    /// Replies that report the terminal's attributes: `InternalEvent::PrimaryDeviceAttributes`.
    pub attributes: bool,
}

/// Which events a call admits.
pub trait Filter {
    ghost use Rattle.crossterm_types.specs.Admitting.{is_of};

    ghost admits: { Self → Seen → Bool };

    /// Whether the event is admitted.
    fn eval<A: Allocator>(&self, event: &InternalEvent<A>) -> bool
        ensures { result ≡ admits self.now (seen event.now) };

    /// The classes whose events are admitted, each of them and no others: `None`, if the filter doesn't say. A reader finds an event
    /// of such classes without a call of `eval`.
    fn classes(&self) -> Option<Classes>
        ensures { IfSome result (λ classes. (x : Seen) → admits self.now x ≡ is_of classes x) }
    {
        None
    }
}

/// Admits the events that a user brought about.
#[derive(Clone, Copy, Debug)]
pub struct EventFilter;

/// Admits the replies that report the cursor's place.
#[derive(Clone, Copy, Debug)]
pub struct CursorPositionFilter;

/// Admits the replies that report the flags of the keyboard protocol, and those that report the terminal's attributes: a terminal without
/// that protocol answers to the query with its attributes alone.
#[derive(Clone, Copy, Debug)]
pub struct KeyboardEnhancementFlagsFilter;

/// Admits the replies that report the terminal's attributes.
#[derive(Clone, Copy, Debug)]
pub struct PrimaryDeviceAttributesFilter;

/// One of the four filters, by name.
#[derive(Clone, Copy, Debug)]
pub enum AnyFilter {
    /// `EventFilter`.
    Event,
    /// `CursorPositionFilter`.
    Cursor,
    /// `KeyboardEnhancementFlagsFilter`.
    Flags,
    /// `PrimaryDeviceAttributesFilter`.
    Attributes,
}

impl Filter for EventFilter {
    ghost use Rattle.crossterm_types.specs.Admitting.{is_event};

    ghost admits = { λ _. is_event };

    fn eval<A: Allocator>(&self, event: &InternalEvent<A>) -> bool {
        matches!(event, InternalEvent::Event(_))
    }

    fn classes(&self) -> Option<Classes>
        ensures { result ≡ Some (record { event = true; cursor = false; flags = false; attributes = false }) }
    {
        Some(Classes {
            event: true,
            cursor: false,
            flags: false,
            attributes: false,
        })
    }
}

impl Filter for CursorPositionFilter {
    ghost use Rattle.crossterm_types.specs.Admitting.{is_cursor_position};

    ghost admits = { λ _. is_cursor_position };

    fn eval<A: Allocator>(&self, event: &InternalEvent<A>) -> bool {
        matches!(event, InternalEvent::CursorPosition(_, _))
    }

    fn classes(&self) -> Option<Classes>
        ensures { result ≡ Some (record { event = false; cursor = true; flags = false; attributes = false }) }
    {
        Some(Classes {
            event: false,
            cursor: true,
            flags: false,
            attributes: false,
        })
    }
}

impl Filter for KeyboardEnhancementFlagsFilter {
    ghost use Rattle.crossterm_types.specs.Admitting.{is_flags_reply};

    ghost admits = { λ _. is_flags_reply };

    fn eval<A: Allocator>(&self, event: &InternalEvent<A>) -> bool {
        matches!(
            event,
            InternalEvent::KeyboardEnhancementFlags(_) | InternalEvent::PrimaryDeviceAttributes
        )
    }

    fn classes(&self) -> Option<Classes>
        ensures { result ≡ Some (record { event = false; cursor = false; flags = true; attributes = true }) }
    {
        Some(Classes {
            event: false,
            cursor: false,
            flags: true,
            attributes: true,
        })
    }
}

impl Filter for PrimaryDeviceAttributesFilter {
    ghost use Rattle.crossterm_types.specs.Admitting.{is_attributes};

    ghost admits = { λ _. is_attributes };

    fn eval<A: Allocator>(&self, event: &InternalEvent<A>) -> bool {
        matches!(event, InternalEvent::PrimaryDeviceAttributes)
    }

    fn classes(&self) -> Option<Classes>
        ensures { result ≡ Some (record { event = false; cursor = false; flags = false; attributes = true }) }
    {
        Some(Classes {
            event: false,
            cursor: false,
            flags: false,
            attributes: true,
        })
    }
}

impl Filter for AnyFilter {
    ghost use Rattle.crossterm_types.specs.Admitting.{admitted, classes_of};

    ghost admits = { admitted };

    fn eval<A: Allocator>(&self, event: &InternalEvent<A>) -> bool {
        match self {
            AnyFilter::Event => EventFilter.eval(event),
            AnyFilter::Cursor => CursorPositionFilter.eval(event),
            AnyFilter::Flags => KeyboardEnhancementFlagsFilter.eval(event),
            AnyFilter::Attributes => PrimaryDeviceAttributesFilter.eval(event),
        }
    }

    fn classes(&self) -> Option<Classes>
        ensures { result ≡ Some (classes_of self.now) }
    {
        match self {
            AnyFilter::Event => EventFilter.classes(),
            AnyFilter::Cursor => CursorPositionFilter.classes(),
            AnyFilter::Flags => KeyboardEnhancementFlagsFilter.classes(),
            AnyFilter::Attributes => PrimaryDeviceAttributesFilter.classes(),
        }
    }
}
