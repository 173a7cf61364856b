//! What C keeps: a pointer to a box.
ghost use Rattle.std.specs.Prelude.{◌≡◌, Option, Some};
ghost use Rattle.std.specs.Borrow.{sem};
ghost use Rattle.line_c.specs.Kept.{LineState};

use crate::lines::Lines;
use handle::Parts;
use std::alloc::Global;
use std::marker::Model;

/// A line that C keeps.
#[repr(C)]
pub struct LineHandle {
    at: *mut u8,
    pub ghost value: { LineState },
}

impl Model for LineHandle {
    ghost use Rattle.std.specs.Box.Ownership.{box_owns};
    ghost use Rattle.handle.specs.Held.{may_free};
    ghost use Rattle.line_c.specs.contracts.lines.Lines.{the_row};

    ghost also_owns = { λ h. box_owns may_free the_row h.at h.value };
}

impl LineHandle {
    ghost use Rattle.line_c.specs.Lending.{LendsLines};

    /// What is kept.
    pub(crate) fn open(&mut self) -> &mut Lines
        ensures* writes_back { sem 𝓛 (LendsLines self.entry result) }
        ensures value { result.now ≡ self.old.value }
    {
        unsafe { &mut *(self.at as *mut Lines) }
    }

    /// The box's parts.
    pub(crate) fn parts(self, alloc: Global) -> Parts<Lines, Global>
        ensures { result.value ≡ self.value }
    {
        let LineHandle { at } = self;
        Parts {
            at: at as *mut Lines,
            alloc,
        }
    }
}

/// The place of a `LineHandle` while a line begins: it may have none yet. What it owns with one is what the handle owns.
#[repr(C)]
#[derive(Drop)]
pub struct LineSlot {
    at: *mut u8,
    pub ghost value: { Option LineState },
}

impl Model for LineSlot {
    ghost use Rattle.handle.specs.Held.{slot_owns};
    ghost use Rattle.line_c.specs.contracts.lines.Lines.{the_row};

    ghost also_owns = { λ s. slot_owns the_row s.at s.value };
}

impl LineSlot {
    /// The place of a line that lies in these parts.
    pub(crate) fn of(parts: Parts<Lines, Global>) -> LineSlot
        ensures { result.value ≡ Some parts.value }
    {
        let Parts { at, alloc: _ } = parts;
        LineSlot { at: at as *mut u8 }
    }
}
