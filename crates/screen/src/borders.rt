//! Borders of rectangles.
ghost use Rattle.std.specs.Prelude.{◌≡◌, ◌+◌, ◌<◌, ◌≤◌, OnOk, IfErr, None, Some};
ghost use Rattle.screen.specs.Borders.{across, border_fault, border_refusal, corners, down, with_border, with_stamps};
ghost use Rattle.screen.specs.Buffers.{with_symbol};
ghost use Rattle.screen.specs.Cells.{IsPrinted};
ghost use Rattle.screen.specs.Texts.{columns};
ghost use Rattle.screen.specs.inside.Edges.{AreNarrow, IsNarrow};

use crate::buffers::Buffer;
use crate::cells::Cell;
use crate::faults::CellFault;
use crate::rects::Rect;
use crate::texts::replacement_fault;
use crossterm_style::ContentStyle;
use std::alloc::Allocator;

/// The characters of a border. Each has to take one column.
#[derive(Clone, Copy, PartialEq, Eq, Debug)]
pub struct Border {
    /// In the first column of the first row.
    pub top_left: char,
    /// In the last column of the first row.
    pub top_right: char,
    /// In the first column of the last row.
    pub bottom_left: char,
    /// In the last column of the last row.
    pub bottom_right: char,
    /// The first row and the last one, between the corners.
    pub horizontal: char,
    /// The first column and the last one, between the corners.
    pub vertical: char,
}

impl Border {
    /// Thin lines.
    pub const PLAIN: Border = Border {
        top_left: '┌',
        top_right: '┐',
        bottom_left: '└',
        bottom_right: '┘',
        horizontal: '─',
        vertical: '│',
    };

    /// Why its characters can't be a border, if they can't.
    fn fault(&self) -> Option<CellFault>
        ensures value { result ≡ border_fault self.now }
        ensures narrow { result ≡ None → AreNarrow self.now }
    {
        if let Some(fault) = replacement_fault(self.top_left) {
            return Some(fault);
        }
        if let Some(fault) = replacement_fault(self.top_right) {
            return Some(fault);
        }
        if let Some(fault) = replacement_fault(self.bottom_left) {
            return Some(fault);
        }
        if let Some(fault) = replacement_fault(self.bottom_right) {
            return Some(fault);
        }
        if let Some(fault) = replacement_fault(self.horizontal) {
            return Some(fault);
        }
        replacement_fault(self.vertical)
    }
}

impl<A: Allocator> Buffer<A> {
    /// Why a rectangle gets no border, if it gets none.
    fn border_fault(&self, rect: &Rect, border: &Border) -> Option<CellFault>
        ensures value { result ≡ border_refusal self.now rect.now border.now }
        ensures columns { result ≡ None → (2 ≤ rect.now.width) × (rect.now.x + rect.now.width ≤ self.now.width) }
        ensures rows { result ≡ None → (2 ≤ rect.now.height) × (rect.now.y + rect.now.height ≤ self.now.height) }
        ensures few { result ≡ None → (rect.now.x + rect.now.width < 65536) × (rect.now.y + rect.now.height < 65536) }
        ensures narrow { result ≡ None → AreNarrow border.now }
    {
        let right = u32::from(rect.x) + u32::from(rect.width);
        let bottom = u32::from(rect.y) + u32::from(rect.height);
        if right > u32::from(self.width()) || bottom > u32::from(self.height()) {
            return Some(CellFault::Outside);
        }
        if rect.width < 2 || rect.height < 2 {
            return Some(CellFault::TooSmall);
        }
        border.fault()
    }

    /// Sets a character of one column.
    fn stamp(&mut self, column: u16, row: u16, symbol: char, style: &ContentStyle)
        requires place { (column < self.old.width) × (row < self.old.height) }
        requires symbol { IsNarrow symbol }
        ensures { self.new ≡ with_symbol self.old column row symbol style.now }
    {
        let style = *style;
        self.put(column, row, Cell::new(symbol, style));
    }

    /// Sets it so many times side by side.
    pub(crate) fn across(
        &mut self,
        column: u16,
        row: u16,
        count: u16,
        symbol: char,
        style: &ContentStyle,
    )
        requires place { (column + count ≤ self.old.width) × (row < self.old.height) }
        requires few { column + count < 65536 }
        requires symbol { IsNarrow symbol }
        ensures { self.new ≡ with_stamps self.old style.now (across column row count symbol) }
    {
        for k in 0..count {
            self.stamp(column + k, row, symbol, style);
        }
    }

    /// Sets it so many times below itself.
    fn down(&mut self, column: u16, row: u16, count: u16, symbol: char, style: &ContentStyle)
        requires place { (column < self.old.width) × (row + count ≤ self.old.height) }
        requires few { row + count < 65536 }
        requires symbol { IsNarrow symbol }
        ensures { self.new ≡ with_stamps self.old style.now (down column row count symbol) }
    {
        for k in 0..count {
            self.stamp(column, row + k, symbol, style);
        }
    }

    /// Sets the corners of a rectangle.
    fn corners(&mut self, rect: &Rect, border: &Border, style: &ContentStyle)
        requires columns { (1 ≤ rect.now.width) × (rect.now.x + rect.now.width ≤ self.old.width) }
        requires rows { (1 ≤ rect.now.height) × (rect.now.y + rect.now.height ≤ self.old.height) }
        requires few { (rect.now.x + rect.now.width < 65536) × (rect.now.y + rect.now.height < 65536) }
        requires symbols { AreNarrow border.now }
        ensures { self.new ≡ with_stamps self.old style.now (corners rect.now border.now) }
    {
        let right = rect.x + (rect.width - 1);
        let bottom = rect.y + (rect.height - 1);
        self.stamp(rect.x, rect.y, border.top_left, style);
        self.stamp(right, rect.y, border.top_right, style);
        self.stamp(rect.x, bottom, border.bottom_left, style);
        self.stamp(right, bottom, border.bottom_right, style);
    }

    /// Draws a border in the first and last columns and rows of a rectangle. What is within it stays, but a character that loses one of its
    /// two columns leaves a space in the other one, as in `set`.
    ///
    /// ```
    /// let area = buffer.area();
    /// buffer.border(area, Border::PLAIN, ContentStyle::new())?;
    /// ```
    ///
    /// # Errors
    ///
    /// `Outside` if the rectangle isn't within the buffer, and else `TooSmall` if it has fewer than two columns or two rows. Else that of the
    /// first character of the border that doesn't take one column: `Control`, `NoWidth`, `Wide`. Then nothing changes.
    pub fn border(
        &mut self,
        rect: Rect,
        border: Border,
        style: ContentStyle,
    ) -> Result<(), CellFault>
        ensures ok { OnOk result ((border_refusal self.old rect border ≡ None) × (self.new ≡ with_border self.old rect border style)) }
        ensures err { IfErr result (λ fault. (border_refusal self.old rect border ≡ Some fault) × (self.new ≡ self.old)) }
    {
        if let Some(fault) = self.border_fault(&rect, &border) {
            return Err(fault);
        }
        let right = rect.x + (rect.width - 1);
        let bottom = rect.y + (rect.height - 1);
        let (columns, rows) = (rect.width - 2, rect.height - 2);
        self.corners(&rect, &border, &style);
        self.across(rect.x + 1, rect.y, columns, border.horizontal, &style);
        self.across(rect.x + 1, bottom, columns, border.horizontal, &style);
        self.down(rect.x, rect.y + 1, rows, border.vertical, &style);
        self.down(right, rect.y + 1, rows, border.vertical, &style);
        Ok(())
    }
}
