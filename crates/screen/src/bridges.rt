//! Bridges: cells that are printed again in place of a move over them.
ghost use Rattle.std.specs.Prelude.{◌≡◌, ◌↔◌, ◌%◌, ◌-◌, ◌<◌, ◌≤◌, ℕ, IfSome, IsTrue, List, Some, drop, length, take, true};
ghost use Rattle.std.specs.List.{AllByRecursion};
ghost use Rattle.screen.specs.Cells.{Cell as CellValue};
ghost use Rattle.screen.specs.inside.Bridges.{Approaches, IsBare, IsBridge, IsNear};
ghost use Rattle.screen.specs.inside.Pens.{PutsStrokes};
ghost use Rattle.screen.specs.inside.Strokes.{again_strokes};

use crate::cells::Cell;
use crate::packed::{PackedStyle, is_same_style};
use crate::pens::{Pen, put};
use crate::strokes::Stroke;
use std::io;

/// The most cells that are printed again in place of a move. Each is one byte, and a move has four at least.
const LONGEST: usize = 3;

/// Whether a cell has a printable character of ASCII without marks, in a style.
fn is_bare(cell: &Cell, style: &PackedStyle) -> bool
    ensures { result ≡ true → IsBare style.now cell.now }
{
    let symbol = cell.symbol();
    if symbol < ' ' || '~' < symbol {
        return false;
    }
    cell.marks().is_empty() && is_same_style(&cell.packed_style(), style)
}

/// Whether all cells are so.
fn are_bare(cells: &[Cell], style: &PackedStyle) -> bool
    ensures { result ≡ true → AllByRecursion (IsBare style.now) cells.now }
{
    for cell in cells {
        if !is_bare(cell, style) {
            return false;
        }
    }
    true
}

/// Whether a place is to the right of another one in the same row, and so near that the cells between may be printed again. `column` is its own
/// column.
fn is_near(from: usize, at: usize, column: u16) -> bool
    ensures { result ≡ true → IsNear from at column }
{
    from < at && at - from <= LONGEST && at - from <= usize::from(column)
}

/// The place from which on cells are printed again in place of a move, if they are: the cursor's, if the place to go to is near, and all cells
/// between are bare in the style that is set.
fn bridge(
    after: &[Cell],
    cursor: Option<usize>,
    style: &Option<PackedStyle>,
    at: usize,
    column: u16,
) -> Option<usize>
    requires { at ≤ length after.now }
    ensures near { IfSome result (λ from. IsNear from at column) }
    ensures bridge { IfSome result (λ from. IsBridge after.now cursor style.now at column (take (at - from) (drop from after.now))) }
{
    match cursor {
        None => None,
        Some(from) => {
            if !is_near(from, at, column) {
                return None;
            }
            match style {
                None => None,
                Some(set) => {
                    if are_bare(&after[from..at], set) {
                        return Some(from);
                    }
                    None
                }
            }
        }
    }
}

/// Prints cells again that are shown.
fn put_again<W: io::Write>(writer: &mut W, pen: &mut Pen, cells: &[Cell])
    ensures { PutsStrokes (again_strokes cells.now) (W.contents writer.old) pen.old (W.contents writer.new) pen.new }
{
    for cell in cells {
        put(writer, pen, Stroke::Print(cell.symbol(), cell.marks()));
    }
}

/// Whether the cursor is known to be at a place.
fn is_at(cursor: Option<usize>, at: usize) -> bool
    ensures { IsTrue result ↔ (cursor ≡ Some at) }
{
    match cursor {
        None => false,
        Some(known) => known == at,
    }
}

/// Prints cells again if that is shorter than a move to a place. Returns whether the cursor is there then.
#[inline(never)]
pub(crate) fn cross<W: io::Write>(
    writer: &mut W,
    pen: &mut Pen,
    after: &[Cell],
    cursor: Option<usize>,
    style: &Option<PackedStyle>,
    at: usize,
    column: u16,
) -> bool
    requires { at ≤ length after.now }
    ensures { (cells : List CellValue) × Approaches after.now cursor style.now at column cells result
        × PutsStrokes (again_strokes cells) (W.contents writer.old) pen.old (W.contents writer.new) pen.new }
{
    match bridge(after, cursor, style, at, column) {
        None => is_at(cursor, at),
        Some(from) => {
            put_again(writer, pen, &after[from..at]);
            true
        }
    }
}

/// Does so for a place in rows of a width. Most cells that are painted are right behind the one before, so that is looked at without a call and
/// without a division.
#[inline]
pub(crate) fn approach<W: io::Write>(
    writer: &mut W,
    pen: &mut Pen,
    after: &[Cell],
    cursor: Option<usize>,
    style: &Option<PackedStyle>,
    at: usize,
    width: u16,
) -> bool
    requires at { at ≤ length after.now }
    requires width { 0 < width }
    ensures { (cells : List CellValue) × Approaches after.now cursor style.now at (at % width) cells result
        × PutsStrokes (again_strokes cells) (W.contents writer.old) pen.old (W.contents writer.new) pen.new }
{
    if is_at(cursor, at) {
        return true;
    }
    let column = (at % usize::from(width)) as u16;
    cross(writer, pen, after, cursor, style, at, column)
}
