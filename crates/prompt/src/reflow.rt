//! In which row of a narrower window rows begin: some terminals wrap them anew, others cut them.

use screen::{Buffer, Cell};
use unicode_width::UnicodeWidthChar;

/// The cells of a row.
fn row_of(buffer: &Buffer, row: u16) -> &[Cell] {
    let width = usize::from(buffer.width());
    let from = usize::from(row) * width;
    match buffer.cells().get(from..from + width) {
        Some(cells) => cells,
        None => &[],
    }
}

/// How many cells there are up to the last one that isn't blank.
fn kept(cells: &[Cell]) -> u16 {
    let mut count = 0u16;
    let mut last = 0u16;
    for cell in cells {
        count = count.saturating_add(1);
        if cell.symbol() != ' ' {
            last = count;
        }
    }
    last
}

/// The row and the column behind so many cells, if they are wrapped to so many columns.
fn wrapped(cells: &[Cell], count: u16, columns: u16) -> (u16, u16) {
    let mut row = 0u16;
    let mut column = 0u16;
    for cell in cells.iter().take(usize::from(count)) {
        // The second cell of a character has none.
        let width = cell.symbol().width().unwrap_or(0);
        let width = u16::try_from(width).unwrap_or(0);
        column = column.saturating_add(width);
        if column > columns {
            row = row.saturating_add(1);
            column = width;
        }
    }
    (row, column)
}

/// How many rows so many of the first rows are, if each is wrapped to so many columns.
fn wrapped_rows(buffer: &Buffer, count: u16, columns: u16) -> u16 {
    let mut rows = 0u16;
    for row in 0..count {
        let cells = row_of(buffer, row);
        let (more, _) = wrapped(cells, kept(cells), columns);
        rows = rows.saturating_add(more).saturating_add(1);
    }
    rows
}

/// How many rows the cursor is below the start of its own, if that is wrapped to so many columns and the cursor is in this column then.
fn rows_below(cells: &[Cell], was: u16, columns: u16, column: u16) -> Option<u16> {
    // A terminal that keeps no blanks at a row's end brings a cursor behind them to the end of what it keeps.
    for count in [was, was.min(kept(cells))] {
        let (rows, at) = wrapped(cells, count, columns);
        if at == column {
            return Some(rows);
        }
    }
    None
}

/// How many rows above the cursor's a buffer's first row is on the terminal. The cursor was at this place of it, and is now in this column of a
/// window of so many columns.
///
/// If a terminal that cuts rows wouldn't bring the cursor there, this one wraps them anew; that is kept in `reflows`. As long as it isn't known, rows
/// count as cut, so that nothing above them is touched.
pub(crate) fn rows_above(
    buffer: &Buffer,
    place: (u16, u16),
    columns: u16,
    column: u16,
    reflows: &mut bool,
) -> u16 {
    let (was, row) = place;
    let last = columns.saturating_sub(1);
    let is_cut = column == was.min(last);
    match rows_below(row_of(buffer, row), was, columns, column) {
        None => row,
        Some(rows) => {
            // In the last column the cursor may be by either.
            if !is_cut && column < last {
                *reflows = true;
            }
            if *reflows {
                wrapped_rows(buffer, row, columns).saturating_add(rows)
            } else {
                row
            }
        }
    }
}
