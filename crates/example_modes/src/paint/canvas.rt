//! The picture, and the colours beside it.

use crossterm::style::Color;
use std::alloc::{AllocError, Global};

/// The columns of the colours, left of the picture.
pub const LEFT: u16 = 4;

const COLUMNS: u16 = 76;

/// The rows of the picture.
pub const ROWS: u16 = 22;

/// The columns of the colours and the picture.
pub const WIDTH: u16 = LEFT + COLUMNS;

/// A colour of the picture: one of the sixteen that every terminal has, or none if it is 0.
pub type Ink = u8;

/// A cell of the picture, and its colour.
#[derive(Clone, Copy)]
pub struct Dot {
    /// From 0, without the colours' columns.
    pub column: u16,
    /// From 0.
    pub row: u16,
    /// What it is painted with.
    pub ink: Ink,
}

/// A picture: the colour of each cell, row by row.
#[derive(Drop)]
pub struct Canvas {
    cells: Vec<Ink>,
    // How often it has changed.
    version: u64,
}

/// The place of a cell of the picture.
fn place(column: u16, row: u16) -> usize {
    usize::from(row) * usize::from(COLUMNS) + usize::from(column)
}

/// How an ink looks, or `None` without one.
pub fn color_of(ink: Ink) -> Option<Color> {
    match ink {
        0 => None,
        _ => Some(Color::AnsiValue(ink)),
    }
}

impl Canvas {
    /// A blank picture.
    ///
    /// # Errors
    ///
    /// `AllocError` if memory was refused.
    pub fn new(alloc: Global) -> Result<Canvas, AllocError> {
        let cells = Vec::from_elem(alloc, 0, usize::from(COLUMNS) * usize::from(ROWS))?;
        Ok(Canvas { cells, version: 0 })
    }

    /// Paints a cell. One outside the picture is passed over.
    pub fn put(&mut self, dot: Dot) {
        if dot.column < COLUMNS {
            if let Some(cell) = self.cells.get_mut(place(dot.column, dot.row)) {
                if *cell != dot.ink {
                    *cell = dot.ink;
                    self.version = self.version.wrapping_add(1);
                }
            }
        }
    }

    /// Wipes all.
    pub fn blank(&mut self) {
        self.cells.fill(0);
        self.version = self.version.wrapping_add(1);
    }

    /// A number that is another one after each change.
    pub fn version(&self) -> u64 {
        self.version
    }

    /// The ink at a place of the screen: of the colours at the left, or of the picture.
    pub fn ink_at(&self, column: u16, row: u16) -> Ink {
        if column.saturating_add(1) < LEFT {
            return match row {
                1..=15 => row as Ink,
                _ => 0,
            };
        }
        if column < LEFT || column >= WIDTH {
            return 0;
        }
        match self.cells.get(place(column - LEFT, row)) {
            Some(ink) => *ink,
            None => 0,
        }
    }
}
