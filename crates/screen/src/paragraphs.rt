//! Paragraphs: texts that are wrapped into rows.
ghost use Rattle.std.specs.Prelude.{◌≡◌, ◌/◌, ◌%◌, ◌++◌, ◌<◌, ◌≤◌, ◌*◌, IfOk, IsOk, List, OnErr, OnOk, ℕ, [], chars, drop, length, map, replicate, take, vec_capacity};
ghost use Rattle.screen.specs.Cells.{AreLaidOut, Cell as CellValue, FitsCell, blank, shown_text};
ghost use Rattle.screen.specs.Overwriting.{cells_with};
ghost use Rattle.screen.specs.Paragraphs.{columns_left, part_cells, placed_part, rows_picture, wrapped};
ghost use Rattle.screen.specs.Parts.{text_parts};
ghost use Rattle.screen.specs.Texts.{fitting};
ghost use Rattle.screen.specs.inside.Ascii.{BeginsBare, bare_cell};
ghost use Rattle.screen.specs.inside.FirstParts.{IsPart};

use crate::buffers::Buffer;
use crate::cells::{Cell, is_wide};
use crate::marks::Marks;
use crate::overwriting::{columns, covered};
use crate::packed::PackedStyle;
use crate::parts::{Part, first_part};
use crate::texts::{bare_ascii, part_fault};
use crossterm_style::ContentStyle;
use std::alloc::{AllocError, Allocator, Global};
use std::marker::Model;

/// What is shown for a character that no cell can hold.
const REPLACEMENT: char = '\u{FFFD}';

/// Texts in their styles, wrapped into rows: a character that has no room in a row is in the next one, and a line feed begins the next row.
///
/// A row that is full has ended: the next text begins below it, and so does a line feed after it. A character of two columns is in one row. If
/// rows have one column, it is left out. Each character that no cell can hold is shown as U+FFFD, as `Buffer::print_replacing` does.
///
/// ```
/// let mut paragraph = Paragraph::new(alloc, 40);
/// paragraph.push("Usage: ", bold)?;
/// paragraph.push(text, ContentStyle::new())?;
/// let (_, row) = paragraph.end();
/// paragraph.show(&mut buffer, 0, 24)?;
/// ```
#[derive(Drop)]
pub struct Paragraph<A: Allocator = Global> {
    width: u16,
    cells: Vec<Cell, A>,
}

impl<A: Allocator> Model for Paragraph<A> {
    ghost use Rattle.std.specs.Prelude.{◌≡◌, [], vec_capacity};
    ghost use Rattle.screen.specs.Cells.{AreLaidOut};
    ghost use Rattle.screen.specs.Paragraphs.{ParagraphView};

    ghost Value = { ParagraphView };

    ghost view = { λ p. record { width = p.width; cells = p.cells.items; room = vec_capacity p.cells } };

    ghost invariant = { λ p. AreLaidOut p.width p.cells.items × (p.width ≡ 0 → p.cells.items ≡ []) };
}

/// How many columns are left in the last row of so many cells.
fn columns_left(width: u16, count: usize) -> u16
    requires { 0 < width }
    ensures { result ≡ columns_left width count }
{
    width - (count % width as usize) as u16
}

/// Adds so many blanks. If memory is refused, the cells stay.
fn push_blanks<A: Allocator>(cells: &mut Vec<Cell, A>, count: u16) -> Result<(), AllocError>
    ensures ok { OnOk result (cells.new.items ≡ cells.old.items ++ replicate count blank) }
    ensures err { OnErr result (cells.new.items ≡ cells.old.items) }
    ensures room { vec_capacity cells.old ≤ vec_capacity cells.new }
{
    let len = cells.len() + count as usize;
    cells.resize(len, Cell::blank())
}

/// Adds the cells of a character. If memory is refused, the cells stay.
fn push_cell<A: Allocator>(cells: &mut Vec<Cell, A>, cell: &Cell) -> Result<(), AllocError>
    ensures ok { OnOk result (cells.new.items ≡ cells.old.items ++ cells_with cell.now.style (shown_text cell.now)) }
    ensures err { OnErr result (cells.new.items ≡ cells.old.items) }
    ensures room { vec_capacity cells.old ≤ vec_capacity cells.new }
{
    cells.reserve(columns(cell))?;
    cells.push_reserved(*cell);
    if is_wide(cell) {
        cells.push_reserved(covered(cell.packed_style()));
    }
    Ok(())
}

/// Adds the cells of a character in one row: the last one, or the next one if that has no room. If no row has room, the character is left out.
fn push_in_row<A: Allocator>(
    cells: &mut Vec<Cell, A>,
    width: u16,
    cell: &Cell,
) -> Result<(), AllocError>
    requires width { 0 < width }
    requires held { FitsCell (shown_text cell.now) }
    ensures ok { OnOk result (cells.new.items ≡ cells.old.items ++ placed_part cell.now.style width (length cells.old.items) (shown_text cell.now)) }
    ensures laid { AreLaidOut width cells.old.items → OnOk result (AreLaidOut width cells.new.items) }
    ensures err { OnErr result ((more : List CellValue) × (cells.new.items ≡ cells.old.items ++ more)) }
    ensures room { vec_capacity cells.old ≤ vec_capacity cells.new }
{
    let taken = columns(cell) as u16;
    if taken > width {
        return Ok(());
    }
    let left = columns_left(width, cells.len());
    if taken > left {
        push_blanks(cells, left)?;
    }
    push_cell(cells, cell)
}

/// The cell of a part in a style, with the replacement if no cell can hold the part.
fn fitting_cell(part: &Part, style: PackedStyle) -> Cell
    ensures value { (p : List ℕ) → IsPart part.now p → fitting 0xFFFD p ≡ shown_text result }
    ensures held { (p : List ℕ) → IsPart part.now p → FitsCell (shown_text result) }
    ensures style { result.style ≡ style }
{
    match part_fault(part) {
        None => Cell::of(part.symbol, part.marks, style),
        Some(_) => Cell::of(REPLACEMENT, Marks::none(), style),
    }
}

/// Adds the cells of a part of a text. A line feed ends the row.
fn push_part<A: Allocator>(
    cells: &mut Vec<Cell, A>,
    width: u16,
    part: &Part,
    style: PackedStyle,
) -> Result<(), AllocError>
    requires width { 0 < width }
    requires held { (p : List ℕ) × IsPart part.now p }
    ensures ok { (p : List ℕ) → IsPart part.now p → OnOk result (cells.new.items ≡ cells.old.items ++ part_cells style width (length cells.old.items) p) }
    ensures laid { AreLaidOut width cells.old.items → OnOk result (AreLaidOut width cells.new.items) }
    ensures err { OnErr result ((more : List CellValue) × (cells.new.items ≡ cells.old.items ++ more)) }
    ensures room { vec_capacity cells.old ≤ vec_capacity cells.new }
{
    if part.symbol == '\n' {
        let left = columns_left(width, cells.len());
        return push_blanks(cells, left);
    }
    push_in_row(cells, width, &fitting_cell(part, style))
}

/// Adds the cells of characters of one byte. If memory is refused, the cells stay.
fn push_letters<A: Allocator>(
    cells: &mut Vec<Cell, A>,
    letters: &[u8],
    style: PackedStyle,
) -> Result<(), AllocError>
    ensures ok { OnOk result (cells.new.items ≡ cells.old.items ++ map (bare_cell style) letters.now) }
    ensures err { OnErr result (cells.new.items ≡ cells.old.items) }
    ensures room { vec_capacity cells.old ≤ vec_capacity cells.new }
{
    cells.reserve(letters.len())?;
    for letter in letters {
        cells.push_reserved(Cell::of(*letter as char, Marks::none(), style));
    }
    Ok(())
}

/// Adds the cells of printable characters of ASCII that a text begins with, and returns the text behind them. If memory is refused, the cells stay.
fn push_ascii<'a, A: Allocator>(
    cells: &mut Vec<Cell, A>,
    text: &'a str,
    style: PackedStyle,
) -> Result<&'a str, AllocError>
    ensures ok { IfOk result (λ rest. (n : ℕ) × BeginsBare text.now n × (rest.now ≡ drop n text.now)
        × (cells.new.items ≡ cells.old.items ++ map (bare_cell style) (take n text.now))) }
    ensures err { OnErr result (cells.new.items ≡ cells.old.items) }
    ensures room { vec_capacity cells.old ≤ vec_capacity cells.new }
{
    // Each row has a column left, so such a character takes the next place.
    let count = bare_ascii(text, text.len());
    push_letters(cells, &text.as_bytes()[0..count], style)?;
    Ok(&text[count..text.len()])
}

/// Adds the cells of a text. If memory is refused, those of its first parts may have been added.
fn push_text<A: Allocator>(
    cells: &mut Vec<Cell, A>,
    width: u16,
    text: &str,
    style: &ContentStyle,
) -> Result<(), AllocError>
    requires { 0 < width }
    ensures ok { OnOk result (cells.new.items ≡ cells.old.items ++ wrapped style.now width (length cells.old.items) (text_parts (chars text.now))) }
    ensures laid { AreLaidOut width cells.old.items → OnOk result (AreLaidOut width cells.new.items) }
    ensures err { OnErr result ((more : List CellValue) × (cells.new.items ≡ cells.old.items ++ more)) }
    ensures room { vec_capacity cells.old ≤ vec_capacity cells.new }
{
    let style = PackedStyle::new(style);
    let mut rest = text;
    while let Some((part, back)) = first_part(push_ascii(cells, rest, style)?) {
        push_part(cells, width, &part, style)?;
        rest = back;
    }
    Ok(())
}

impl<A: Allocator> Paragraph<A> {
    /// An empty paragraph in rows of so many columns. It takes no memory.
    ///
    /// ```
    /// let mut paragraph = Paragraph::new(alloc, buffer.width());
    /// ```
    pub fn new(alloc: A, width: u16) -> Paragraph<A>
        ensures { result ≡ record { width = width; cells = []; room = result.room } }
    {
        Paragraph {
            width,
            cells: Vec::new(alloc),
        }
    }

    /// Takes rows of so many columns, and is empty then. No memory is given back.
    ///
    /// ```
    /// paragraph.resize(columns);
    /// ```
    pub fn resize(&mut self, width: u16)
        ensures { self.new ≡ record { width = width; cells = []; room = self.old.room } }
    {
        self.cells.clear();
        self.width = width;
    }

    /// Adds a text in a style.
    ///
    /// # Errors
    ///
    /// `AllocError` if memory was refused. Then nothing was added.
    ///
    /// ```
    /// paragraph.push("one\ntwo", ContentStyle::new())?;
    /// ```
    pub fn push(&mut self, text: &str, style: ContentStyle) -> Result<(), AllocError>
        ensures ok { OnOk result (self.new ≡ record self.old {
          cells = self.old.cells ++ wrapped style self.old.width (length self.old.cells) (text_parts (chars text.now));
          room = self.new.room;
        }) }
        ensures err { OnErr result (self.new ≡ record self.old { room = self.new.room }) }
        ensures room { self.old.room ≤ self.new.room }
    {
        if self.width == 0 {
            // No row has room for anything.
            return Ok(());
        }
        let len = self.cells.len();
        match push_text(&mut self.cells, self.width, text, &style) {
            Ok(()) => Ok(()),
            Err(error) => {
                self.cells.truncate(len);
                Err(error)
            }
        }
    }

    /// The column and the row in which the next character begins, if it has room there, from 0. A line feed before it counts.
    ///
    /// ```
    /// let (column, row) = paragraph.end();
    /// ```
    pub fn end(&self) -> (u16, usize)
        ensures { (result.0 ≡ length self.now.cells % self.now.width) × (result.1 ≡ length self.now.cells / self.now.width) }
    {
        if self.width == 0 {
            return (0, 0);
        }
        let width = self.width as usize;
        ((self.cells.len() % width) as u16, self.cells.len() / width)
    }

    /// How many cells there are, with the blanks at the ends of rows.
    ///
    /// ```
    /// let is_empty = paragraph.len() == 0;
    /// ```
    pub fn len(&self) -> usize
        ensures { result ≡ length self.now.cells }
    {
        self.cells.len()
    }

    /// Makes a buffer show so many rows, from a row on. It takes that size, and is blank where there are no more cells.
    ///
    /// # Errors
    ///
    /// `AllocError` if memory was refused for more cells than the buffer has memory for. Then nothing has changed.
    ///
    /// ```
    /// paragraph.show(&mut buffer, first, 24)?;
    /// ```
    pub fn show<B: Allocator>(
        &self,
        buffer: &mut Buffer<B>,
        first: usize,
        height: u16,
    ) -> Result<(), AllocError>
        ensures ok { OnOk result (buffer.new ≡ rows_picture self.now.width height first self.now.cells buffer.new.room) }
        ensures err { OnErr result (buffer.new ≡ record buffer.old { room = buffer.new.room }) }
        ensures fits { self.now.width * height ≤ buffer.old.room → IsOk result }
        ensures holds { OnOk result (self.now.width * height ≤ buffer.new.room) }
        ensures room { buffer.old.room ≤ buffer.new.room }
    {
        let at = first
            .saturating_mul(self.width as usize)
            .min(self.cells.len());
        buffer.take_rows(self.width, height, &self.cells[at..self.cells.len()])
    }
}
