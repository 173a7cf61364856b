//! Buffers: the cells that a program wants to show.
ghost use Rattle.std.specs.Prelude.{◌≡◌, [], ℕ, ◌+◌, ◌*◌, ◌-◌, ◌<◌, ◌≤◌, false, OnOk, OnErr, IsOk, IfOk, IfErr, IfSome, None, Some, chars, length, replicate, vec_capacity};
ghost use Rattle.std.specs.List.{All};
ghost use Rattle.screen.specs.Areas.{with_style};
ghost use Rattle.screen.specs.Buffers.{clipped, column_refusal, filled, filled_with, print_refusal, refusal, with_shown, with_symbol, with_text};
ghost use Rattle.screen.specs.Cells.{AreLaidOut, ArePaired, IsPrinted, StayInRows, IsPlaced, blank, symbol_fault};
ghost use Rattle.screen.specs.Paragraphs.{padded};
ghost use Rattle.screen.specs.Texts.{columns, replaced, replacement_fault, text_columns, text_fault, within, without_marks};
ghost use Rattle.screen.specs.inside.Edits.{IsEditing, edited};
ghost use Rattle.screen.specs.Parts.{text_parts};

use crate::areas::style_cells;
use crate::cells::{Cell, symbol_fault, takes_two};
use crate::faults::CellFault;
use crate::overwriting::{fill, fill_rows, overwrite};
use crate::rects::Rect;
use crate::texts::{Editing, fault_without_marks, replacement_fault, text_fault, write_text};
use crossterm_style::ContentStyle;
use std::alloc::{AllocError, Allocator, Global};
use std::marker::Model;

/// Cells row by row. A character that takes two columns has two cells side by side: its own, and behind it one with the character 0.
///
/// ```
/// let mut buffer = Buffer::new(alloc, 80, 24)?;
/// buffer.set(0, 0, 'x', ContentStyle::new())?;
/// ```
#[derive(Drop)]
pub struct Buffer<A: Allocator = Global> {
    width: u16,
    height: u16,
    cells: Vec<Cell, A>,
}

impl<A: Allocator> Model for Buffer<A> {
    ghost use Rattle.std.specs.Prelude.{◌≡◌, ◌*◌, length, vec_capacity};
    ghost use Rattle.screen.specs.Buffers.{Picture};
    ghost use Rattle.screen.specs.Cells.{AreLaidOut};

    ghost Value = { Picture };

    ghost view = { λ b. record { width = b.width; height = b.height; cells = b.cells.items; room = vec_capacity b.cells } };

    ghost invariant = { λ b. (length b.cells.items ≡ b.width * b.height) × AreLaidOut b.width b.cells.items };
}

/// How many cells there are.
pub(crate) fn count_of(width: u16, height: u16) -> usize
    ensures { result ≡ width * height }
{
    width as usize * height as usize
}

/// Why a character isn't set in one of so many columns, if it isn't.
fn column_fault(width: u16, column: u16, symbol: char) -> Option<CellFault>
    requires { column < width }
    ensures value { result ≡ column_refusal width column symbol }
    ensures printed { result ≡ None → IsPrinted symbol }
    ensures room { result ≡ None → column + columns symbol ≤ width }
{
    match symbol_fault(symbol) {
        Some(fault) => Some(fault),
        None => {
            if column + 1 == width && takes_two(symbol) {
                return Some(CellFault::LastColumn);
            }
            None
        }
    }
}

/// The place of a cell, by the number of columns.
fn place_at(width: u16, column: u16, row: u16) -> usize
    ensures { result ≡ row * width + column }
{
    row as usize * width as usize + column as usize
}

/// Makes so many blank cells. If memory is refused, the cells stay.
fn make_blank<A: Allocator>(cells: &mut Vec<Cell, A>, count: usize) -> Result<(), AllocError>
    ensures ok { OnOk result (cells.new.items ≡ replicate count blank) }
    ensures err { OnErr result (cells.new.items ≡ cells.old.items) }
    ensures succeeds { count ≤ vec_capacity cells.old → IsOk result }
    ensures holds { OnOk result (count ≤ vec_capacity cells.new) }
    ensures room { vec_capacity cells.old ≤ vec_capacity cells.new }
{
    cells.resize(count, Cell::blank())?;
    fill(cells, Cell::blank());
    Ok(())
}

/// The same, with what follows of blank cells.
#[tactic(auto, using(crate::proofs::Fitting::count_blank))]
pub(crate) fn set_blank<A: Allocator>(
    cells: &mut Vec<Cell, A>,
    count: usize,
) -> Result<(), AllocError>
    ensures ok { OnOk result (cells.new.items ≡ replicate count blank) }
    ensures count { OnOk result (length cells.new.items ≡ count) }
    ensures rows { OnOk result ((width : ℕ) → AreLaidOut width cells.new.items) }
    ensures err { OnErr result (cells.new.items ≡ cells.old.items) }
    ensures succeeds { count ≤ vec_capacity cells.old → IsOk result }
    ensures holds { OnOk result (count ≤ vec_capacity cells.new) }
    ensures room { vec_capacity cells.old ≤ vec_capacity cells.new }
{
    make_blank(cells, count)?;
    Ok(())
}

/// Copies so many of some cells as there are places. The places that are left are blank then.
fn copy_padded(cells: &mut [Cell], others: &[Cell])
    ensures { cells.new ≡ padded (length cells.old) others.now }
{
    let shown = others.len().min(cells.len());
    let (front, back) = cells.split_at_mut(shown);
    front.copy_from_slice(&others[0..shown]);
    fill(back, Cell::blank());
}

/// Makes so many cells, and copies others into them. If memory is refused, the cells stay.
fn take_padded<A: Allocator>(
    cells: &mut Vec<Cell, A>,
    count: usize,
    others: &[Cell],
) -> Result<(), AllocError>
    ensures ok { OnOk result (cells.new.items ≡ padded count others.now) }
    ensures err { OnErr result (cells.new.items ≡ cells.old.items) }
    ensures succeeds { count ≤ vec_capacity cells.old → IsOk result }
    ensures holds { OnOk result (count ≤ vec_capacity cells.new) }
    ensures room { vec_capacity cells.old ≤ vec_capacity cells.new }
{
    cells.resize(count, Cell::blank())?;
    copy_padded(cells, others);
    Ok(())
}

impl<A: Allocator> Buffer<A> {
    /// Blank cells: spaces in the empty style.
    ///
    /// # Errors
    ///
    /// `AllocError` if memory was refused.
    pub fn new(alloc: A, width: u16, height: u16) -> Result<Buffer<A>, AllocError>
        ensures new { IfOk result (λ buffer. buffer ≡ filled width height blank buffer.room) }
        ensures room { IfOk result (λ buffer. width * height ≤ buffer.room) }
    {
        let mut cells = Vec::new(alloc);
        set_blank(&mut cells, count_of(width, height))?;
        Ok(Buffer {
            width,
            height,
            cells,
        })
    }

    /// Takes another size. All cells are blank then. No memory is given back, so no size is refused that it had before.
    ///
    /// # Errors
    ///
    /// `AllocError` if memory was refused for more cells than there is memory for. Then nothing has changed.
    ///
    /// ```
    /// if let Event::Resize(columns, rows) = event {
    ///     buffer.resize(columns, rows)?;
    ///     screen.resize(columns, rows)?;
    /// }
    /// ```
    pub fn resize(&mut self, width: u16, height: u16) -> Result<(), AllocError>
        ensures ok { OnOk result (self.new ≡ filled width height blank self.new.room) }
        ensures err { OnErr result (self.new ≡ record self.old { room = self.new.room }) }
        ensures fits { width * height ≤ self.old.room → IsOk result }
        ensures holds { OnOk result (width * height ≤ self.new.room) }
        ensures room { self.old.room ≤ self.new.room }
    {
        set_blank(&mut self.cells, count_of(width, height))?;
        self.width = width;
        self.height = height;
        Ok(())
    }

    /// How many columns there are.
    pub fn width(&self) -> u16
        ensures { result ≡ self.now.width }
    {
        self.width
    }

    /// How many rows there are.
    pub fn height(&self) -> u16
        ensures { result ≡ self.now.height }
    {
        self.height
    }

    /// The rectangle of all columns and rows.
    pub fn area(&self) -> Rect
        ensures { result ≡ record { x = 0; y = 0; width = self.now.width; height = self.now.height } }
    {
        Rect {
            x: 0,
            y: 0,
            width: self.width,
            height: self.height,
        }
    }

    /// All cells, row by row. The second cell of a character that takes two columns has the character 0, and the character's style.
    pub fn cells(&self) -> &[Cell]
        ensures cells { result.now ≡ self.now.cells }
        ensures count { length self.now.cells ≡ self.now.width * self.now.height }
        ensures placed { All IsPlaced self.now.cells }
        ensures paired { ArePaired false self.now.cells }
        ensures rows { StayInRows self.now.width self.now.cells }
    {
        &self.cells
    }

    /// Fills each row with a character. If it takes two columns and the width is odd, a space in its style is in the last column.
    ///
    /// # Errors
    ///
    /// Those of the character: `Control`, `NoWidth`, `Wide`, `Joined`. Then nothing changes.
    pub fn fill(&mut self, symbol: char, style: ContentStyle) -> Result<(), CellFault>
        ensures ok { OnOk result ((symbol_fault symbol ≡ None) × (self.new ≡ filled_with self.old symbol style)) }
        ensures err { IfErr result (λ fault. (symbol_fault symbol ≡ Some fault) × (self.new ≡ self.old)) }
    {
        if let Some(fault) = symbol_fault(symbol) {
            return Err(fault);
        }
        fill_rows(&mut self.cells, self.width, Cell::new(symbol, style));
        Ok(())
    }

    /// Gives a style, in place of its own, to each character whose first column is in a rectangle. A character of two columns gets it in both.
    /// The characters stay. Columns and rows of the rectangle that the buffer doesn't have don't count.
    ///
    /// ```
    /// let mut style = ContentStyle::new();
    /// style.background_color = Some(Color::DarkBlue);
    /// let (title, _) = buffer.area().split_rows(1);
    /// buffer.set_style(title, style);
    /// ```
    pub fn set_style(&mut self, area: Rect, style: ContentStyle)
        ensures { self.new ≡ with_style self.old area style }
    {
        style_cells(&mut self.cells, (self.width, self.height), &area, &style);
    }

    /// Sets a character, by its column and its row from 0. If it takes two columns, the next one is its second. A character that loses one of
    /// its two columns to it leaves a space in the other one, in the style that it had.
    ///
    /// # Errors
    ///
    /// `Outside`, and else those of the character: `Control`, `NoWidth`, `Wide`, `Joined`. Else `LastColumn` if it takes two columns and the place is
    /// a row's last one. Then nothing changes.
    pub fn set(
        &mut self,
        column: u16,
        row: u16,
        symbol: char,
        style: ContentStyle,
    ) -> Result<(), CellFault>
        ensures ok { OnOk result ((refusal self.old column row symbol ≡ None) × (self.new ≡ with_symbol self.old column row symbol style)) }
        ensures err { IfErr result (λ fault. (refusal self.old column row symbol ≡ Some fault) × (self.new ≡ self.old)) }
    {
        if column >= self.width || row >= self.height {
            return Err(CellFault::Outside);
        }
        if let Some(fault) = column_fault(self.width, column, symbol) {
            return Err(fault);
        }
        self.put(column, row, Cell::new(symbol, style));
        Ok(())
    }

    /// Sets a character that has room.
    pub(crate) fn put(&mut self, column: u16, row: u16, cell: Cell)
        requires row { row < self.old.height }
        requires room { column + columns cell.symbol ≤ self.old.width }
        requires printed { IsPrinted cell.symbol }
        requires alone { cell.marks ≡ [] }
        ensures { self.new ≡ with_symbol self.old column row cell.symbol cell.style }
    {
        let at = place_at(self.width, column, row);
        overwrite(&mut self.cells, at, cell);
    }

    /// Takes so many columns and rows, and shows some cells in them, row by row from the top left one. What these don't fill is blank.
    pub(crate) fn take_rows(
        &mut self,
        columns: u16,
        rows: u16,
        cells: &[Cell],
    ) -> Result<(), AllocError>
        requires { AreLaidOut columns cells.now }
        ensures ok { OnOk result (self.new ≡ record {
          width = columns;
          height = rows;
          cells = padded (columns * rows) cells.now;
          room = self.new.room;
        }) }
        ensures err { OnErr result (self.new ≡ record self.old { room = self.new.room }) }
        ensures fits { columns * rows ≤ self.old.room → IsOk result }
        ensures holds { OnOk result (columns * rows ≤ self.new.room) }
        ensures room { self.old.room ≤ self.new.room }
    {
        take_padded(&mut self.cells, count_of(columns, rows), cells)?;
        self.width = columns;
        self.height = rows;
        Ok(())
    }

    /// Why nothing is printed in a row: there is none, or another fault.
    fn print_fault(&self, row: u16, other: Option<CellFault>) -> Option<CellFault>
        ensures { result ≡ print_refusal self.now row other }
    {
        if row >= self.height {
            return Some(CellFault::Outside);
        }
        other
    }

    /// How many columns there are from one on.
    fn columns_from(&self, column: u16) -> u16
        ensures { result ≡ self.now.width - column }
    {
        self.width.saturating_sub(column)
    }

    /// Prints into so many columns of a row.
    pub(crate) fn print_at(
        &mut self,
        place: (u16, u16),
        room: u16,
        text: &str,
        how: Editing,
        style: &ContentStyle,
    ) -> u16
        requires row { place.1 < self.old.height }
        requires room { 0 < room → place.0 + room ≤ self.old.width }
        requires how { IsEditing how }
        ensures used { result ≡ text_columns (within room (edited how (text_parts (chars text.now)))) }
        ensures picture { self.new ≡ with_shown self.old place.0 place.1 (within room (edited how (text_parts (chars text.now)))) style.now }
    {
        if room == 0 {
            return 0;
        }
        let at = place_at(self.width, place.0, place.1);
        let used = write_text(&mut self.cells, at, room as usize, text, how, style);
        used as u16
    }

    /// Prints a text into a row, from a column on, and returns how many columns were printed. A character's marks, as accents of their own,
    /// are in its cell. The first character that has no room in the row is left out, and so are all behind it. A column behind the last one
    /// leaves out all. A character that loses one of its two columns leaves a space in the other one, as in `set`.
    ///
    /// ```
    /// let used = buffer.print(0, 2, "name", ContentStyle::new())?;
    /// buffer.print(used + 1, 2, "size", ContentStyle::new())?;
    /// ```
    ///
    /// # Errors
    ///
    /// `Outside` if there is no such row, and else that of the first character which no cell can hold, shown or not: `Control`, `NoWidth`,
    /// `Wide`, `Joined`, and `ManyMarks` if it has more than three. Then nothing changes. `print_replacing` takes any text.
    #[tactic(auto, using(crate::proofs::Prints::edits_whole))]
    pub fn print(
        &mut self,
        column: u16,
        row: u16,
        text: &str,
        style: ContentStyle,
    ) -> Result<u16, CellFault>
        ensures used { IfOk result (λ used. used ≡ text_columns (clipped self.old column (text_parts (chars text.now)))) }
        ensures ok { OnOk result ((print_refusal self.old row (text_fault (text_parts (chars text.now))) ≡ None)
            × (self.new ≡ with_text self.old column row (text_parts (chars text.now)) style)) }
        ensures err { IfErr result (λ fault. (print_refusal self.old row (text_fault (text_parts (chars text.now))) ≡ Some fault) × (self.new ≡ self.old)) }
    {
        if let Some(fault) = self.print_fault(row, text_fault(text)) {
            return Err(fault);
        }
        let room = self.columns_from(column);
        // Nothing in it is to be replaced.
        Ok(self.print_at((column, row), room, text, Editing::Whole, &style))
    }

    /// Prints any text into a row as `print` does, and returns how many columns were printed. Each character that no cell can hold is replaced,
    /// with its marks, by another one, which takes one column: control characters, those of no column or more than two, those that terminals join
    /// with others, and those with more than three marks.
    ///
    /// ```
    /// let used = buffer.print_replacing(0, 2, "a\tb", '?', ContentStyle::new())?;
    /// assert_eq!(rt; used, 3);
    /// ```
    ///
    /// # Errors
    ///
    /// `Outside` if there is no such row, and else that of the character that is to replace others, needed or not: `Control`, `NoWidth`,
    /// `Joined`, and `Wide` if it takes more than one column. Then nothing changes.
    #[tactic(auto, using(crate::proofs::Prints::edits_replacing))]
    pub fn print_replacing(
        &mut self,
        column: u16,
        row: u16,
        text: &str,
        replacement: char,
        style: ContentStyle,
    ) -> Result<u16, CellFault>
        ensures used { IfOk result (λ used. used ≡ text_columns (clipped self.old column (replaced replacement (text_parts (chars text.now))))) }
        ensures ok { OnOk result ((print_refusal self.old row (replacement_fault replacement) ≡ None)
            × (self.new ≡ with_text self.old column row (replaced replacement (text_parts (chars text.now))) style)) }
        ensures err { IfErr result (λ fault. (print_refusal self.old row (replacement_fault replacement) ≡ Some fault) × (self.new ≡ self.old)) }
    {
        if let Some(fault) = self.print_fault(row, replacement_fault(replacement)) {
            return Err(fault);
        }
        let room = self.columns_from(column);
        let how = Editing::Replacing(replacement);
        Ok(self.print_at((column, row), room, text, how, &style))
    }

    /// Prints a text into a row as `print` does, without its characters of no column, and returns how many columns were printed.
    ///
    /// ```
    /// let used = buffer.print_without_marks(0, 2, "e\u{301}t\u{e9}", ContentStyle::new())?;
    /// assert_eq!(rt; used, 3);
    /// ```
    ///
    /// # Errors
    ///
    /// `Outside` if there is no such row, and else that of the first other character which no cell can hold, shown or not: `Control`,
    /// `Wide`, `Joined`. Then nothing changes.
    #[tactic(auto, using(crate::proofs::Prints::edits_marks))]
    pub fn print_without_marks(
        &mut self,
        column: u16,
        row: u16,
        text: &str,
        style: ContentStyle,
    ) -> Result<u16, CellFault>
        ensures used { IfOk result (λ used. used ≡ text_columns (clipped self.old column (without_marks (chars text.now)))) }
        ensures ok { OnOk result ((print_refusal self.old row (text_fault (without_marks (chars text.now))) ≡ None)
            × (self.new ≡ with_text self.old column row (without_marks (chars text.now)) style)) }
        ensures err { IfErr result (λ fault. (print_refusal self.old row (text_fault (without_marks (chars text.now))) ≡ Some fault)
            × (self.new ≡ self.old)) }
    {
        if let Some(fault) = self.print_fault(row, fault_without_marks(text)) {
            return Err(fault);
        }
        let room = self.columns_from(column);
        Ok(self.print_at((column, row), room, text, Editing::WithoutMarks, &style))
    }
}
