//! Rectangles in which a style or a character is set.
ghost use Rattle.std.specs.Prelude.{◌≡◌, ◌+◌, ◌*◌, ◌<◌, ◌≤◌, OnOk, IfErr, None, Some, if◌then◌else◌, length, nat_lt};
ghost use Rattle.screen.specs.Areas.{begins_in, count_in, covering, span_has, part, styled, styled_from, with_area};
ghost use Rattle.screen.specs.Borders.{with_stamps};
ghost use Rattle.screen.specs.Texts.{replacement_fault};
ghost use Rattle.screen.specs.inside.Edges.{IsNarrow};

use crate::buffers::Buffer;
use crate::cells::{Cell, is_covered};
use crate::faults::CellFault;
use crate::packed::PackedStyle;
use crate::rects::Rect;
use crate::texts::replacement_fault;
use crossterm_style::ContentStyle;
use std::alloc::Allocator;

/// Whether some columns or rows have one.
fn has(first: u16, count: u16, one: usize) -> bool
    ensures { result ≡ span_has first count one }
{
    let first = usize::from(first);
    first <= one && one < first + usize::from(count)
}

/// Whether a rectangle has the first column of the character that a cell is of.
fn begins_in(area: &Rect, column: usize, row: usize, cell: &Cell) -> bool
    ensures { result ≡ begins_in area.now column row cell.now }
{
    let first = if is_covered(cell) {
        column.saturating_sub(1)
    } else {
        column
    };
    has(area.y, area.height, row) && has(area.x, area.width, first)
}

/// A cell in another style if its character begins in a rectangle.
fn styled(area: &Rect, style: &PackedStyle, column: usize, row: usize, cell: &Cell) -> Cell
    ensures { result ≡ styled area.now style.now column row cell.now }
{
    if !begins_in(area, column, row, cell) {
        return *cell;
    }
    Cell::of(cell.symbol(), cell.marks(), *style)
}

/// The row behind the last one that a rectangle has of so many.
fn bottom(area: &Rect, height: u16) -> usize
    ensures { result ≡ if nat_lt height (area.now.y + area.now.height) then height else area.now.y + area.now.height }
{
    let end = usize::from(area.y) + usize::from(area.height);
    end.min(usize::from(height))
}

/// Lays a style over a rectangle of cells.
pub(crate) fn style_cells(cells: &mut [Cell], size: (u16, u16), area: &Rect, style: &ContentStyle)
    requires { length cells.old ≡ size.0 * size.1 }
    ensures { cells.new ≡ styled_from size.0 area.now style.now 0 cells.old }
{
    let width = usize::from(size.0);
    let style = PackedStyle::new(style);
    for at in usize::from(area.y) * width..bottom(area, size.1) * width {
        cells[at] = styled(area, &style, at % width, at / width, &cells[at]);
    }
}

/// How many there are of some columns or rows, if there are so many.
fn count_in(first: u16, count: u16, all: u16) -> u16
    ensures value { result ≡ count_in first count all }
    ensures fits { 0 < result → first + result ≤ all }
{
    count.min(all.saturating_sub(first))
}

impl<A: Allocator> Buffer<A> {
    /// The part of a rectangle that there is.
    fn part(&self, area: &Rect) -> Rect
        ensures value { result ≡ part self.now area.now }
        ensures columns { 0 < result.width → result.x + result.width ≤ self.now.width }
        ensures rows { 0 < result.height → result.y + result.height ≤ self.now.height }
        ensures few { (self.now.width < 65536) × (self.now.height < 65536) }
    {
        let width = count_in(area.x, area.width, self.width());
        let height = count_in(area.y, area.height, self.height());
        Rect::new(area.x, area.y, width, height)
    }

    /// Sets a character in all places of a rectangle.
    fn cover(&mut self, area: &Rect, symbol: char, style: &ContentStyle)
        requires columns { 0 < area.now.width → area.now.x + area.now.width ≤ self.old.width }
        requires rows { 0 < area.now.height → area.now.y + area.now.height ≤ self.old.height }
        requires few { (self.old.width < 65536) × (self.old.height < 65536) }
        requires symbol { IsNarrow symbol }
        ensures { self.new ≡ with_stamps self.old style.now (covering area.now symbol area.now.height) }
    {
        if area.width == 0 {
            return;
        }
        for k in 0..area.height {
            self.across(area.x, area.y + k, area.width, symbol, style);
        }
    }

    /// Sets a character of one column in all places of a rectangle that the buffer has. A character that loses one of its two columns leaves a
    /// space in the other one, as in `set`.
    ///
    /// ```
    /// let (_, footer) = buffer.area().split_rows(23);
    /// buffer.fill_area(footer, '.', ContentStyle::new())?;
    /// ```
    ///
    /// # Errors
    ///
    /// Those of the character, needed or not: `Control`, `NoWidth`, and `Wide` if it takes more than one column. Then nothing changes.
    pub fn fill_area(
        &mut self,
        area: Rect,
        symbol: char,
        style: ContentStyle,
    ) -> Result<(), CellFault>
        ensures ok { OnOk result ((replacement_fault symbol ≡ None) × (self.new ≡ with_area self.old area symbol style)) }
        ensures err { IfErr result (λ fault. (replacement_fault symbol ≡ Some fault) × (self.new ≡ self.old)) }
    {
        if let Some(fault) = replacement_fault(symbol) {
            return Err(fault);
        }
        let part = self.part(&area);
        self.cover(&part, symbol, &style);
        Ok(())
    }
}
