//! Cells, and whether two are the same.
ghost use Rattle.std.specs.Prelude.{◌≡◌, ◌↔◌, [], IsTrue, None, false};
ghost use Rattle.screen.specs.Cells.{IsPrinted, blank, is_covered, is_wide, symbol_fault};
ghost use Rattle.screen.specs.Grids.{takes_two};

use crate::faults::CellFault;
use crate::marks::{Marks, is_joined, is_same_marks};
use crate::packed::{PackedStyle, is_same_style};
use crossterm_style::ContentStyle;
use std::marker::Model;
use unicode_width::UnicodeWidthChar;

/// A character with its marks, three at most, in its style. It has 32 bytes.
///
/// ```
/// let cell = Cell::new('x', ContentStyle::new());
/// ```
#[derive(Clone, Copy, PartialEq, Eq, Debug)]
pub struct Cell {
    symbol: char,
    marks: Marks,
    style: PackedStyle,
}

impl Model for Cell {
    ghost use Rattle.screen.specs.Cells.{Cell as CellValue};

    ghost Value = { CellValue };

    ghost view = { λ c. record { symbol = c.symbol; marks = c.marks; style = c.style } };

    ghost inverse = { λ c. record { symbol = c.symbol; marks = c.marks; style = c.style } };
}

impl Cell {
    /// A character in a style, without marks.
    pub fn new(symbol: char, style: ContentStyle) -> Cell
        ensures { result ≡ record { symbol = symbol; marks = []; style = style } }
    {
        Cell::of(symbol, Marks::none(), PackedStyle::new(&style))
    }

    /// A character and its marks in a packed style.
    pub(crate) fn of(symbol: char, marks: Marks, style: PackedStyle) -> Cell
        ensures { result ≡ record { symbol = symbol; marks = marks; style = style } }
    {
        Cell {
            symbol,
            marks,
            style,
        }
    }

    /// A space in the empty style.
    pub fn blank() -> Cell
        ensures { result ≡ blank }
    {
        Cell::new(' ', ContentStyle::new())
    }

    /// The character.
    ///
    /// ```
    /// let line = buffer.cells().iter().map(|cell| cell.symbol());
    /// ```
    pub fn symbol(&self) -> char
        ensures { result ≡ self.now.symbol }
    {
        self.symbol
    }

    /// The marks on it: characters of no column, such as accents that aren't part of the character.
    ///
    /// ```
    /// let has_accent = !cell.marks().is_empty();
    /// ```
    pub fn marks(&self) -> Marks
        ensures { result ≡ self.now.marks }
    {
        self.marks
    }

    /// Its style.
    ///
    /// ```
    /// let is_bold = Cell::blank().style().attributes.has(Attribute::Bold);
    /// ```
    pub fn style(&self) -> ContentStyle
        ensures { result ≡ self.now.style }
    {
        self.style.style()
    }

    /// Its style, packed.
    pub(crate) fn packed_style(&self) -> PackedStyle
        ensures { result ≡ self.now.style }
    {
        self.style
    }
}

/// Why cells can't hold a character, if they can't: by its width (`unicode_width`), and if terminals join it with others.
pub(crate) fn symbol_fault(symbol: char) -> Option<CellFault>
    ensures value { result ≡ symbol_fault symbol }
    ensures printed { result ≡ None → IsPrinted symbol }
{
    // A printable character of ASCII has no fault: no table is read for it.
    if ' ' <= symbol && symbol <= '~' {
        return None;
    }
    if is_joined(symbol) {
        return Some(CellFault::Joined);
    }
    match symbol.width() {
        None => Some(CellFault::Control),
        Some(width) => {
            if width == 0 {
                Some(CellFault::NoWidth)
            } else if width <= 2 {
                None
            } else {
                Some(CellFault::Wide)
            }
        }
    }
}

/// Whether a character takes two columns.
pub(crate) fn takes_two(symbol: char) -> bool
    ensures { result ≡ takes_two symbol }
{
    // No character before the Hangul letters takes two columns: no table is read for it.
    if symbol < '\u{1100}' {
        return false;
    }
    match symbol.width() {
        None => false,
        Some(width) => width == 2,
    }
}

/// Whether two cells are the same.
pub(crate) fn is_same(left: &Cell, right: &Cell) -> bool
    ensures { IsTrue result ↔ (left.now ≡ right.now) }
{
    // With `&`, as in `is_same_style`.
    (left.symbol == right.symbol)
        & is_same_marks(&left.marks, &right.marks)
        & is_same_style(&left.style, &right.style)
}

/// Whether a cell is the second one of a character that takes two.
pub(crate) fn is_covered(cell: &Cell) -> bool
    ensures { result ≡ is_covered cell.now }
{
    cell.symbol() == '\0'
}

/// Whether a cell is the first one of a character that takes two.
pub(crate) fn is_wide(cell: &Cell) -> bool
    ensures { result ≡ is_wide cell.now }
{
    takes_two(cell.symbol())
}
