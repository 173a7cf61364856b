//! Cells that are overwritten.
ghost use Rattle.std.specs.Prelude.{◌≡◌, ◌+◌, ◌%◌, ◌++◌, ◌<◌, ◌≤◌, [], drop, length, map, replicate, take};
ghost use Rattle.std.specs.List.{range_with_len};
ghost use Rattle.screen.specs.Buffers.{fill_cells, pair_cell};
ghost use Rattle.screen.specs.Cells.{shown_text};
ghost use Rattle.screen.specs.Overwriting.{begun, cells_with, covered, emptied, ended, overwritten};
ghost use Rattle.screen.specs.Texts.{columns};

use crate::cells::{Cell, is_covered, is_wide};
use crate::marks::Marks;
use crate::packed::PackedStyle;

/// A space in a cell's own style.
fn emptied(cell: &Cell) -> Cell
    ensures { result ≡ emptied cell.now }
{
    Cell::of(' ', Marks::none(), cell.packed_style())
}

/// The second cell of a character that takes two.
pub(crate) fn covered(style: PackedStyle) -> Cell
    ensures { result ≡ covered style }
{
    Cell::of('\0', Marks::none(), style)
}

/// Before a place, a character that is to lose its second cell leaves a space in its first one.
pub(crate) fn end_before(cells: &mut [Cell], at: usize)
    requires { at ≤ length cells.old }
    ensures { cells.new ≡ ended (take at cells.old) ++ drop at cells.old }
{
    if at == 0 {
        return;
    }
    let cell = cells[at - 1];
    if is_wide(&cell) {
        cells[at - 1] = emptied(&cell);
    }
}

/// At a place, a character that is to lose its first cell leaves a space in its second one.
pub(crate) fn begin_at(cells: &mut [Cell], at: usize)
    requires { at ≤ length cells.old }
    ensures { cells.new ≡ take at cells.old ++ begun (drop at cells.old) }
{
    if at >= cells.len() {
        return;
    }
    let cell = cells[at];
    if is_covered(&cell) {
        cells[at] = emptied(&cell);
    }
}

/// How many columns a character takes, if cells can hold it.
pub(crate) fn columns(cell: &Cell) -> usize
    ensures value { result ≡ columns cell.now.symbol }
    ensures few { result ≤ 2 }
{
    if is_wide(cell) { 2 } else { 1 }
}

/// Overwrites cells by those that a character takes.
pub(crate) fn overwrite(cells: &mut [Cell], at: usize, cell: Cell)
    requires { at + columns cell.symbol ≤ length cells.old }
    ensures { cells.new ≡ overwritten cells.old at (cells_with cell.style (shown_text cell)) }
{
    let behind = at + columns(&cell);
    end_before(cells, at);
    begin_at(cells, behind);
    cells[at] = cell;
    if is_wide(&cell) {
        cells[at + 1] = covered(cell.packed_style());
    }
}

/// Makes all cells the same.
pub(crate) fn fill(cells: &mut [Cell], cell: Cell)
    ensures { cells.new ≡ replicate (length cells.old) cell }
{
    cells.fill(cell);
}

/// What is in a column of a row that is filled with a character of two columns.
fn pair_cell(width: u16, cell: &Cell, column: usize) -> Cell
    requires { cell.now.marks ≡ [] }
    ensures { result ≡ pair_cell width cell.now.symbol cell.now.style column }
{
    if column % 2 == 1 {
        covered(cell.packed_style())
    } else if column + 1 == width as usize {
        emptied(cell)
    } else {
        *cell
    }
}

/// Fills rows of a width with a character of two columns.
fn fill_pairs(cells: &mut [Cell], width: u16, cell: &Cell)
    requires width { 0 < length cells.old → 0 < width }
    requires alone { cell.now.marks ≡ [] }
    ensures { cells.new ≡ map (λ k. pair_cell width cell.now.symbol cell.now.style (k % width)) (range_with_len 0 (length cells.old)) }
{
    for at in 0..cells.len() {
        cells[at] = pair_cell(width, cell, at % width as usize);
    }
}

/// Fills rows of a width with a character.
pub(crate) fn fill_rows(cells: &mut [Cell], width: u16, cell: Cell)
    requires width { 0 < length cells.old → 0 < width }
    requires alone { cell.marks ≡ [] }
    ensures { cells.new ≡ fill_cells width (length cells.old) cell.symbol cell.style }
{
    if is_wide(&cell) {
        fill_pairs(cells, width, &cell);
    } else {
        fill(cells, cell);
    }
}
