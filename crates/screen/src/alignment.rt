//! Texts in rectangles.
ghost use Rattle.std.specs.Prelude.{◌≡◌, ◌+◌, ◌-◌, ◌<◌, ◌≤◌, OnOk, IfOk, IfErr, Option, None, Some, chars};
ghost use Rattle.screen.specs.Alignments.{clipped_in, indent, refusal_in, common_columns, with_text_in};
ghost use Rattle.screen.specs.Parts.{text_parts};
ghost use Rattle.screen.specs.Texts.{text_columns, text_fault, within};

use crate::buffers::Buffer;
use crate::faults::CellFault;
use crate::rects::Rect;
use crate::texts::{Editing, columns_within, text_fault};
use crossterm_style::ContentStyle;
use std::alloc::Allocator;

/// Which side of a rectangle a text is at.
#[derive(Clone, Copy, PartialEq, Eq, Debug)]
pub enum Alignment {
    /// The text begins in the first column.
    Left,
    /// As many columns are left before the text as behind it, or one less.
    Center,
    /// The text ends in the last column.
    Right,
}

/// How many columns are before a text that takes so many of some.
fn indent(alignment: Alignment, room: u16, used: u16) -> u16
    requires { used ≤ room }
    ensures value { result ≡ indent alignment room used }
    ensures few { result + used ≤ room }
{
    match alignment {
        Alignment::Left => 0,
        Alignment::Center => (room - used) / 2,
        Alignment::Right => room - used,
    }
}

impl<A: Allocator> Buffer<A> {
    /// How many columns of a rectangle there are.
    fn room_in(&self, rect: &Rect) -> u16
        ensures value { result ≡ common_columns self.now rect.now }
        ensures fits { 0 < result → rect.now.x + result ≤ self.now.width }
        ensures few { rect.now.x + result < 65536 }
    {
        let width = self.width();
        if rect.x >= width {
            return 0;
        }
        rect.width.min(width - rect.x)
    }

    /// Why nothing is printed in a row of a rectangle: there is none, or another fault.
    fn fault_in(&self, rect: &Rect, row: u16, other: Option<CellFault>) -> Option<CellFault>
        ensures value { result ≡ refusal_in self.now rect.now row other }
        ensures row { result ≡ None → rect.now.y + row < self.now.height }
        ensures few { result ≡ None → rect.now.y + row < 65536 }
        ensures other { result ≡ None → other ≡ None }
    {
        if row >= rect.height || u32::from(rect.y) + u32::from(row) >= u32::from(self.height()) {
            return Some(CellFault::Outside);
        }
        other
    }

    /// Prints a text into a row of a rectangle, from 0, and returns how many columns were printed. Columns of the rectangle that the buffer
    /// doesn't have don't count. As in `print`, the first character that has no room is left out, and so are all behind it.
    ///
    /// ```
    /// let area = buffer.area();
    /// buffer.print_in(area, 0, Alignment::Center, "title", ContentStyle::new())?;
    /// ```
    ///
    /// # Errors
    ///
    /// `Outside` if the rectangle or the buffer has no such row, and else that of the first character which no cell can hold, shown or not:
    /// `Control`, `NoWidth`, `Wide`, `Joined`, `ManyMarks`. Then nothing changes.
    pub fn print_in(
        &mut self,
        rect: Rect,
        row: u16,
        alignment: Alignment,
        text: &str,
        style: ContentStyle,
    ) -> Result<u16, CellFault>
        ensures used { IfOk result (λ used. used ≡ text_columns (clipped_in self.old rect (text_parts (chars text.now)))) }
        ensures ok { OnOk result ((refusal_in self.old rect row (text_fault (text_parts (chars text.now))) ≡ None)
            × (self.new ≡ with_text_in self.old rect row alignment (text_parts (chars text.now)) style)) }
        ensures err { IfErr result (λ fault. (refusal_in self.old rect row (text_fault (text_parts (chars text.now))) ≡ Some fault)
            × (self.new ≡ self.old)) }
    {
        if let Some(fault) = self.fault_in(&rect, row, text_fault(text)) {
            return Err(fault);
        }
        let room = self.room_in(&rect);
        let before = indent(alignment, room, columns_within(text, room));
        let place = (rect.x + before, rect.y + row);
        Ok(self.print_at(place, room - before, text, Editing::Whole, &style))
    }
}
