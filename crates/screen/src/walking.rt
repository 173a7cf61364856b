//! The way of a frame over the rows of a block.
ghost use Rattle.std.specs.Prelude.{◌≡◌, ◌++◌, ◌+◌, ◌*◌, ◌-◌, ◌<◌, ◌≤◌, ℕ, List, true, OnErr, OnOk, length, max};
ghost use Rattle.crossterm.specs.Functions.{AppendsReading};
ghost use Rattle.crossterm_command.specs.Tokens.{Token, text_of};
ghost use Rattle.crossterm_command.specs.Writing.{AppendsFront};
ghost use Rattle.screen.specs.Blocks.{beginning, begun_column, grown_column, grown_row, growth, more_rows, cut_rows, to_column, to_row};
ghost use Rattle.screen.specs.Cells.{AreLaidOut};
ghost use Rattle.screen.specs.inside.BlockRows.{IsInRows};
ghost use Rattle.screen.specs.inside.Blocks.{PlannedBlock, PutsTokens, VisitsRow, Walks};

use crate::buffers::count_of;
use crate::cells::Cell;
use crate::differences::next_difference;
use crate::pens::{Pen, finish, put_step};
use crate::planning::put_next;
use crate::steps::Step;
use crossterm_command::{ColorOutput, CommandFault};
use std::io;

/// Brings the cursor to a row of a block.
fn go_to_row<W: io::Write>(writer: &mut W, pen: &mut Pen, from: u16, to: u16)
    ensures { PutsTokens (to_row from to) (W.contents writer.old) pen.old (W.contents writer.new) pen.new }
{
    if to < from {
        put_step(writer, pen, Step::Up(from - to));
    } else if from < to {
        put_step(writer, pen, Step::Down(to - from));
    }
}

/// Brings the cursor to a column of its row.
fn go_to_column<W: io::Write>(writer: &mut W, pen: &mut Pen, from: u16, to: u16)
    ensures { PutsTokens (to_column from to) (W.contents writer.old) pen.old (W.contents writer.new) pen.new }
{
    if from != to {
        put_step(writer, pen, Step::Column(to));
    }
}

/// Begins a frame, if so many rows are known. Returns the cursor's column behind that.
fn begin<W: io::Write>(writer: &mut W, pen: &mut Pen, known: u16, column: Option<u16>) -> u16
    ensures column { result ≡ begun_column column }
    ensures tokens { PutsTokens (beginning known column) (W.contents writer.old) pen.old (W.contents writer.new) pen.new }
{
    match column {
        Some(column) => column,
        None => {
            put_step(writer, pen, Step::Settle);
            if known == 0 {
                put_step(writer, pen, Step::Erase);
            }
            0
        }
    }
}

/// Adds so many rows below the cursor's.
fn add_rows<W: io::Write>(writer: &mut W, pen: &mut Pen, count: u16)
    ensures { PutsTokens (more_rows count) (W.contents writer.old) pen.old (W.contents writer.new) pen.new }
{
    for _ in 0..count {
        put_step(writer, pen, Step::Add);
    }
}

/// Adds rows to those that are known, up to a height. Returns the cursor's place behind that.
fn grow<W: io::Write>(
    writer: &mut W,
    pen: &mut Pen,
    known: u16,
    height: u16,
    place: (u16, u16),
) -> (u16, u16)
    requires { 0 < known }
    ensures column { result.0 ≡ grown_column place.0 (height - known) }
    ensures row { result.1 ≡ grown_row known place.1 (height - known) }
    ensures tokens { PutsTokens (growth known place.1 (height - known)) (W.contents writer.old) pen.old (W.contents writer.new) pen.new }
{
    if height <= known {
        return place;
    }
    go_to_row(writer, pen, place.1, known - 1);
    add_rows(writer, pen, height - known);
    (0, height - 1)
}

/// The column in which a row's frame leaves the cursor: the one that is wanted at last, if that is in this row, or the first.
fn stop_in(row: u16, end: (u16, u16)) -> u16
    ensures { result ≤ end.0 }
{
    if row == end.1 { end.0 } else { 0 }
}

/// Makes a row of a block show other cells, if some differ. The cursor is at a place before that, and is to be at an end at last. Returns its
/// place behind this.
fn visit_row<W: io::Write>(
    writer: &mut W,
    pen: &mut Pen,
    width: u16,
    before: &mut [Cell],
    after: &[Cell],
    row: u16,
    place: (u16, u16),
    end: (u16, u16),
) -> (u16, u16)
    requires in_row { pen.old.in_row ≡ true }
    requires before { (length before.old ≡ width) × AreLaidOut width before.old }
    requires after { (length after.now ≡ width) × AreLaidOut width after.now }
    requires place { place.0 < width }
    requires end { end.0 < width }
    ensures tokens { (ts : List Token) × VisitsRow width pen.old.colors before.old after.now row place result ts
        × PutsTokens ts (W.contents writer.old) pen.old (W.contents writer.new) pen.new }
    ensures shown { before.new ≡ after.now }
{
    if next_difference(before, after, 0) == after.len() {
        return place;
    }
    go_to_row(writer, pen, place.1, row);
    let column = stop_in(row, end);
    put_next(writer, pen, width, before, after, place.0, column);
    (column, row)
}

/// Makes the rows of a block show other cells.
fn visit_rows<W: io::Write>(
    writer: &mut W,
    pen: &mut Pen,
    size: (u16, u16),
    before: &mut [Cell],
    after: &[Cell],
    place: (u16, u16),
    end: (u16, u16),
) -> (u16, u16)
    requires in_row { pen.old.in_row ≡ true }
    requires before { (length before.old ≡ size.0 * size.1) × AreLaidOut size.0 before.old }
    requires after { (length after.now ≡ size.0 * size.1) × AreLaidOut size.0 after.now }
    requires place { place.0 < size.0 }
    requires end { end.0 < size.0 }
    ensures tokens { (ts : List Token)
        × Walks size.0 pen.old.colors (cut_rows size.0 size.1 after.now) (cut_rows size.0 size.1 before.old) place ts (cut_rows size.0 size.1 after.now) result
        × PutsTokens ts (W.contents writer.old) pen.old (W.contents writer.new) pen.new }
    ensures shown { before.new ≡ after.now }
{
    let (width, height) = size;
    let columns = usize::from(width);
    let mut place = place;
    for row in 0..height {
        let at = count_of(width, row);
        let cells = &mut before[at..at + columns];
        let others = &after[at..at + columns];
        place = visit_row(writer, pen, width, cells, others, row, place, end);
    }
    place
}

/// Writes the tokens that turn a block's cells into others, with the cursor at a place. So many rows are known, and the place in which the
/// last frame left the cursor.
pub(crate) fn write_block<W: io::Write>(
    writer: &mut W,
    colors: ColorOutput,
    known: u16,
    left: (Option<u16>, u16),
    size: (u16, u16),
    before: &mut [Cell],
    after: &[Cell],
    end: (u16, u16),
) -> Result<(), CommandFault>
    requires before { (length before.old ≡ size.0 * size.1) × AreLaidOut size.0 before.old }
    requires after { (length after.now ≡ size.0 * size.1) × AreLaidOut size.0 after.now }
    requires left { IsInRows size.0 known left.1 left.0 }
    requires end { end.0 < size.0 }
    ensures ok { OnOk result ((ts : List Token) × PlannedBlock size.0 size.1 known colors left.0 left.1 before.old after.now end.0 end.1 ts
        × AppendsReading (W.contents writer.old) (W.contents writer.new) ts) }
    ensures err { OnErr result ((ts : List Token) × PlannedBlock size.0 size.1 known colors left.0 left.1 before.old after.now end.0 end.1 ts
        × AppendsFront (W.contents writer.old) (W.contents writer.new) (text_of ts)) }
    ensures shown { before.new ≡ after.now }
{
    let mut pen = Pen::new(colors, true);
    let column = begin(writer, &mut pen, known, left.0);
    let place = grow(writer, &mut pen, known.max(1), size.1, (column, left.1));
    let place = visit_rows(writer, &mut pen, size, before, after, place, end);
    go_to_row(writer, &mut pen, place.1, end.1);
    go_to_column(writer, &mut pen, place.0, end.0);
    match finish(writer, &mut pen) {
        Ok(()) => Ok(()),
        Err(fault) => Err(fault),
    }
}
