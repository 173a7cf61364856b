//! Blocks: some rows from the cursor's row on, and how they are made to show a buffer.
ghost use Rattle.std.specs.Prelude.{◌≡◌, ◌++◌, ◌-◌, ◌<◌, ◌≤◌, List, OnErr, OnOk, IfErr, [], None, length, replicate, take, vec_capacity};
ghost use Rattle.crossterm.specs.Functions.{AppendsReading};
ghost use Rattle.crossterm_command.specs.Tokens.{Token};
ghost use Rattle.screen.specs.Cells.{blank};
ghost use Rattle.screen.specs.Blocks.{BlockNotDrawn, FitsBlock, IsBlockFrame, PlaceFits, with_rows, without_place, without_rows};

use crate::buffers::{Buffer, count_of};
use crate::cells::Cell;
use crate::faults::DrawFault;
use crate::walking::write_block;
use crossterm_command::ColorOutput;
use std::alloc::{AllocError, Allocator, Global};
use std::io::Write;
use std::marker::Model;

/// Some rows of a terminal, from the one in which the cursor is at first, for a program that draws below what is there: a prompt, a menu, a bar
/// that shows progress.
///
/// A block grows downward. Below the terminal's last row the terminal scrolls, so that the rows above move up, and nothing else of them changes.
/// A frame moves the cursor within the block alone (CUU, CUD, CHA: ECMA-48, 8.3.22, 8.3.19, 8.3.9), and erases rows that it adds (EL: ECMA-48,
/// 8.3.41). A program that moves the cursor to another row calls `forget`. The next frame then begins a new block in the cursor's row.
///
/// The promise is for terminals with more columns than the block has, so that no character is printed in a terminal's last column, and with at
/// least as many rows. Unlike a frame of a `Strip` by `draw`, one of a block isn't a synchronized update.
///
/// ```
/// let mut buffer = Buffer::new(alloc, 40, 2)?;
/// let mut block = Block::new(alloc, ColorOutput::Enabled, 40);
/// buffer.print(0, 0, "Name?", ContentStyle::new())?;
/// block.draw(w, &buffer, (0, 1))?;
/// ```
#[derive(Drop)]
pub struct Block<A: Allocator = Global> {
    colors: ColorOutput,
    width: u16,
    // How many rows there are: none if nothing is known of the terminal.
    height: u16,
    shown: Vec<Cell, A>,
    // The cursor's place, as the last frame left it: the row, and the column if nothing else was written since.
    row: u16,
    column: Option<u16>,
}

impl<A: Allocator> Model for Block<A> {
    ghost use Rattle.std.specs.Prelude.{◌≡◌, ◌*◌, length, vec_capacity};
    ghost use Rattle.screen.specs.Blocks.{BlockView, cut_rows};
    ghost use Rattle.screen.specs.Cells.{AreLaidOut};
    ghost use Rattle.screen.specs.inside.BlockRows.{IsInRows};

    ghost Value = { BlockView };

    ghost view = { λ b. record {
      width = b.width;
      colors = b.colors;
      rows = cut_rows b.width b.height b.shown.items;
      row = b.row;
      column = b.column;
      room = vec_capacity b.shown;
    } };

    ghost invariant = { λ b. (length b.shown.items ≡ b.width * b.height) × AreLaidOut b.width b.shown.items × IsInRows b.width b.height b.row b.column };
}

/// Makes so many cells of those that are there: the ones that are added are blank.
fn take_cells<A: Allocator>(cells: &mut Vec<Cell, A>, count: usize) -> Result<(), AllocError>
    ensures ok { OnOk result (cells.new.items ≡ take count cells.old.items ++ replicate (count - length cells.old.items) blank) }
    ensures count { OnOk result (length cells.new.items ≡ count) }
    ensures err { OnErr result (cells.new.items ≡ cells.old.items) }
    ensures full { OnErr result (vec_capacity cells.old < count) }
    ensures room { vec_capacity cells.old ≤ vec_capacity cells.new }
{
    cells.resize(count, Cell::blank())
}

impl<A: Allocator> Block<A> {
    /// A block of so many columns, whose frames write colours or leave them out. It has no rows yet, and takes no memory.
    ///
    /// ```
    /// let mut block = Block::new(alloc, ColorOutput::Enabled, columns - 1);
    /// ```
    pub fn new(alloc: A, colors: ColorOutput, width: u16) -> Block<A>
        ensures { result ≡ record { width = width; colors = colors; rows = []; row = 0; column = None; room = result.room } }
    {
        Block {
            colors,
            width,
            height: 0,
            shown: Vec::new(alloc),
            row: 0,
            column: None,
        }
    }

    /// How many columns there are.
    ///
    /// ```
    /// let mut buffer = Buffer::new(alloc, block.width(), 1)?;
    /// ```
    pub fn width(&self) -> u16
        ensures { result ≡ self.now.width }
    {
        self.width
    }

    /// How many rows the block has on the terminal. A buffer that is drawn has at least as many.
    ///
    /// ```
    /// buffer.resize(block.width(), rows.max(block.height()))?;
    /// ```
    pub fn height(&self) -> u16
        ensures { result ≡ length self.now.rows }
    {
        self.height
    }

    /// The row of the block in which the cursor is, from 0.
    ///
    /// ```
    /// let below = block.height().saturating_sub(block.row() + 1);
    /// ```
    pub fn row(&self) -> u16
        ensures { result ≡ self.now.row }
    {
        self.row
    }

    /// Forgets what the terminal shows, as after the cursor went to another row: the next frame begins in the cursor's row. No memory is given
    /// back.
    ///
    /// ```
    /// queue!(w, colors, Print("\r\n"))?;
    /// block.forget();
    /// ```
    pub fn forget(&mut self)
        ensures rows { self.new ≡ record (without_rows self.old) { room = self.new.room } }
        ensures room { self.old.room ≤ self.new.room }
    {
        self.shown.clear();
        self.height = 0;
        self.row = 0;
        self.column = None;
    }

    /// Forgets the cursor's column and that the plain style is set, as after another text was written in the cursor's row. What the rows show is
    /// still known.
    ///
    /// ```
    /// block.forget_cursor();
    /// ```
    pub fn forget_cursor(&mut self)
        ensures { self.new ≡ without_place self.old }
    {
        self.column = None;
    }

    /// Takes another width, after which nothing is known of the terminal.
    ///
    /// ```
    /// block.resize(columns - 1);
    /// ```
    pub fn resize(&mut self, width: u16)
        ensures rows { self.new ≡ record (without_rows self.old) { width = width; room = self.new.room } }
        ensures room { self.old.room ≤ self.new.room }
    {
        self.forget();
        self.width = width;
    }

    /// Writes what makes the block's rows show the buffer, with a visible cursor at a column and a row from 0. Behind the block the rows are
    /// blank. Rows that the buffer has more than the block are added below it. Nothing is assumed of the cursor's column and of the style that
    /// is set.
    ///
    /// # Errors
    ///
    /// `Size` if the buffer hasn't the block's width or has fewer rows, `Cursor` if the place is outside the buffer, and `Memory` if memory was
    /// refused for rows that are added. Then nothing was written, and what the rows show is known as before, but the cursor's column isn't.
    /// `Command` if the writer failed: a beginning of the frame was written, and nothing else. Then nothing is known of the terminal.
    ///
    /// ```
    /// block.draw(&mut tty.out, &buffer, (column, row))?;
    /// tty.out.flush()?;
    /// ```
    pub fn draw<W: Write, B: Allocator>(
        &mut self,
        writer: &mut W,
        buffer: &Buffer<B>,
        cursor: (u16, u16),
    ) -> Result<(), DrawFault>
        ensures frame { OnOk result ((ts : List Token) × AppendsReading (W.contents writer.old) (W.contents writer.new) ts
            × IsBlockFrame (without_place self.old) buffer.now cursor.0 cursor.1 ts) }
        ensures accepted { OnOk result (FitsBlock self.old buffer.now × PlaceFits buffer.now cursor.0 cursor.1) }
        ensures drawn { OnOk result (self.new ≡ record (with_rows self.old buffer.now cursor.0 cursor.1) { room = self.new.room }) }
        ensures err { IfErr result (λ fault. BlockNotDrawn fault (without_place self.old) self.new buffer.now cursor.0 cursor.1
            (W.contents writer.old) (W.contents writer.new)) }
        ensures room { self.old.room ≤ self.new.room }
    {
        self.forget_cursor();
        self.draw_next(writer, buffer, cursor)
    }

    /// The same for a program that draws alone: nothing else was written since the last frame, so the cursor is still shown at the place in which that left it,
    /// and the plain style is set. Then what didn't change costs nothing: a letter that is typed at a line's end is one byte, a cursor that goes
    /// to another place is at most two moves, and a frame without a change is empty. A bell may have been written: it changes nothing of the rows.
    ///
    /// # Errors
    ///
    /// Those of `draw`. But for `Command`, the cursor's column is known as before too.
    ///
    /// ```
    /// block.draw_next(&mut tty.out, &buffer, (column, row))?;
    /// tty.out.flush()?;
    /// ```
    pub fn draw_next<W: Write, B: Allocator>(
        &mut self,
        writer: &mut W,
        buffer: &Buffer<B>,
        cursor: (u16, u16),
    ) -> Result<(), DrawFault>
        ensures frame { OnOk result ((ts : List Token) × AppendsReading (W.contents writer.old) (W.contents writer.new) ts
            × IsBlockFrame self.old buffer.now cursor.0 cursor.1 ts) }
        ensures accepted { OnOk result (FitsBlock self.old buffer.now × PlaceFits buffer.now cursor.0 cursor.1) }
        ensures drawn { OnOk result (self.new ≡ record (with_rows self.old buffer.now cursor.0 cursor.1) { room = self.new.room }) }
        ensures err { IfErr result (λ fault. BlockNotDrawn fault self.old self.new buffer.now cursor.0 cursor.1
            (W.contents writer.old) (W.contents writer.new)) }
        ensures room { self.old.room ≤ self.new.room }
    {
        let (width, height) = (buffer.width(), buffer.height());
        if width != self.width || height < self.height {
            return Err(DrawFault::Size);
        }
        if cursor.0 >= width || cursor.1 >= height {
            return Err(DrawFault::Cursor);
        }
        let count = count_of(width, height);
        match take_cells(&mut self.shown, count) {
            Ok(()) => {}
            Err(_) => return Err(DrawFault::Memory),
        }
        let known = self.height;
        let left = (self.column, self.row);
        let shown = &mut self.shown;
        let written = write_block(
            writer,
            self.colors,
            known,
            left,
            (width, height),
            shown,
            buffer.cells(),
            cursor,
        );
        self.height = height;
        self.row = cursor.1;
        self.column = Some(cursor.0);
        match written {
            Ok(()) => Ok(()),
            Err(fault) => {
                self.forget();
                Err(DrawFault::Command(fault))
            }
        }
    }
}
