//! Strips: the row in which the cursor is, and how it is made to show a buffer of one row.
ghost use Rattle.std.specs.Prelude.{◌≡◌, ◌*◌, ◌≤◌, OnOk, OnErr, IsOk, IfOk, IfErr, List, None};
ghost use Rattle.crossterm.specs.Functions.{AppendsReading};
ghost use Rattle.crossterm_command.specs.Tokens.{Token};
ghost use Rattle.screen.specs.inside.Leaving.{left_by};
ghost use Rattle.screen.specs.Strips.{ColumnFits, IsNextFrame, IsOneRow, IsRowFrame, RowNotDrawn, in_first_row, with_row, without_cursor, without_row};

use crate::buffers::Buffer;
use crate::faults::DrawFault;
use crate::screens::Screen;
use crossterm_command::ColorOutput;
use std::alloc::{AllocError, Allocator, Global};
use std::io::Write;
use std::marker::Model;

/// What the row shows in which the cursor is, as far as it is known, for a program that draws in one row and doesn't know which row it is.
///
/// A frame moves the cursor within its row alone (CHA: ECMA-48, 8.3.9), and erases to the end of the row (EL: ECMA-48, 8.3.41). So the cells
/// above and below stay as they are, and the cursor stays in the row. The promise is for terminals with more columns than the strip has, so that
/// no character is printed in a terminal's last column. A program that moves the cursor to another row calls `forget`.
///
/// ```
/// let mut buffer = Buffer::new(alloc, 40, 1)?;
/// let mut strip = Strip::new(alloc, 40)?;
/// buffer.set(0, 0, '>', ContentStyle::new())?;
/// strip.draw(w, ColorOutput::Enabled, &buffer, Some(2))?;
/// ```
#[derive(Drop)]
pub struct Strip<A: Allocator = Global> {
    screen: Screen<A>,
    // The column in which the last frame left the cursor, if it did, and if nothing else is known to have been written.
    left: Option<u16>,
}

impl<A: Allocator> Model for Strip<A> {
    ghost use Rattle.std.specs.Prelude.{◌≡◌, ◌<◌, IfSome};
    ghost use Rattle.screen.specs.Strips.{StripView};

    ghost Value = { StripView };

    ghost view = { λ s. record { width = s.screen.width; drawn = s.screen.drawn; left = s.left; room = s.screen.room } };

    ghost invariant = { λ s. (s.screen.height ≡ 1) × IfSome s.left (λ column. column < s.screen.width) };
}

/// The place of a column in the only row.
fn in_first_row(cursor: Option<u16>) -> Option<(u16, u16)>
    ensures { result ≡ in_first_row cursor }
{
    match cursor {
        None => None,
        Some(column) => Some((column, 0)),
    }
}

/// The column in which a frame leaves the cursor: the one that was asked for, the old one if nothing was written, and none if writing failed.
fn left_by(drawn: &Result<(), DrawFault>, left: Option<u16>, cursor: Option<u16>) -> Option<u16>
    ensures { result ≡ left_by drawn.now left cursor }
{
    match drawn {
        Ok(()) => cursor,
        Err(DrawFault::Command(_)) => None,
        Err(_) => left,
    }
}

impl<A: Allocator> Strip<A> {
    /// A strip of so many columns. Nothing is known of the row yet.
    ///
    /// ```
    /// let mut strip = Strip::new(alloc, columns - 1)?;
    /// ```
    ///
    /// # Errors
    ///
    /// `AllocError` if memory was refused.
    pub fn new(alloc: A, width: u16) -> Result<Strip<A>, AllocError>
        ensures new { IfOk result (λ strip. strip ≡ record { width = width; drawn = None; left = None; room = strip.room }) }
        ensures room { IfOk result (λ strip. width ≤ strip.room) }
    {
        let screen = Screen::new(alloc, width, 1)?;
        Ok(Strip { screen, left: None })
    }

    /// How many columns there are.
    ///
    /// ```
    /// let mut buffer = Buffer::new(alloc, strip.width(), 1)?;
    /// ```
    pub fn width(&self) -> u16
        ensures { result ≡ self.now.width }
    {
        self.screen.width()
    }

    /// Forgets what the row shows, as after the cursor went to another row: the next frame writes all.
    ///
    /// ```
    /// queue!(w, colors, Print("\r\n"))?;
    /// strip.forget();
    /// ```
    pub fn forget(&mut self)
        ensures { self.new ≡ without_row self.old }
    {
        self.left = None;
        self.screen.forget();
    }

    /// Forgets the cursor's column and that the plain style is set, as after another text was written. What the row shows is still known.
    ///
    /// ```
    /// strip.forget_cursor();
    /// ```
    pub fn forget_cursor(&mut self)
        ensures { self.new ≡ without_cursor self.old }
    {
        self.left = None;
    }

    /// Takes another width, after which nothing is known of the row. No memory is given back, so no width is refused that it had before.
    ///
    /// ```
    /// strip.resize(columns - 1)?;
    /// ```
    ///
    /// # Errors
    ///
    /// `AllocError` if memory was refused for more cells than there is memory for. Then nothing has changed.
    pub fn resize(&mut self, width: u16) -> Result<(), AllocError>
        ensures ok { OnOk result (self.new ≡ record { width = width; drawn = None; left = None; room = self.new.room }) }
        ensures err { OnErr result (self.new ≡ record self.old { room = self.new.room }) }
        ensures fits { width ≤ self.old.room → IsOk result }
        ensures holds { OnOk result (width ≤ self.new.room) }
        ensures room { self.old.room ≤ self.new.room }
    {
        self.screen.resize(width, 1)?;
        self.left = None;
        Ok(())
    }

    /// Writes what makes the cursor's row show the buffer, with the cursor in a column from 0, or hidden. Behind the strip the row is blank. The
    /// strip has as much memory afterwards as before.
    ///
    /// # Errors
    ///
    /// `Size` if the buffer hasn't the strip's width and one row, and `Cursor` if the column is outside. Then nothing was written, nothing
    /// changed, and what the row shows is known as before. `Command` if the writer failed: a beginning of the frame was written, and nothing
    /// else. Then nothing is known of the row, and the next frame writes all.
    ///
    /// ```
    /// strip.draw(&mut tty.out, ColorOutput::Enabled, &buffer, Some(column))?;
    /// tty.out.flush()?;
    /// ```
    pub fn draw<W: Write, B: Allocator>(
        &mut self,
        writer: &mut W,
        colors: ColorOutput,
        buffer: &Buffer<B>,
        cursor: Option<u16>,
    ) -> Result<(), DrawFault>
        ensures frame { OnOk result ((ts : List Token) × AppendsReading (W.contents writer.old) (W.contents writer.new) ts
            × IsRowFrame self.old colors buffer.now cursor ts) }
        ensures accepted { OnOk result (IsOneRow self.old buffer.now × ColumnFits self.old cursor) }
        ensures drawn { OnOk result (self.new ≡ with_row self.old colors buffer.now.cells cursor) }
        ensures err { IfErr result (λ fault. RowNotDrawn fault self.old self.new buffer.now cursor (IsRowFrame self.old colors buffer.now cursor)
            (W.contents writer.old) (W.contents writer.new)) }
    {
        let place = in_first_row(cursor);
        let drawn = self.screen.draw_by(writer, true, colors, buffer, place);
        self.left = left_by(&drawn, self.left, cursor);
        drawn
    }

    /// The same for a program that draws alone: nothing else was written since the last frame, so the cursor is still shown in the column in
    /// which that left it, and the plain style is set. Then what didn't change costs nothing: a letter or a blank that is typed at a line's end is
    /// one byte, a cursor that goes to another column is at most one CHA, and a frame without a change is empty. A bell may have been written: it
    /// changes nothing of the row.
    ///
    /// It is a frame as of `draw` if nothing is known of the row, or if the last frame hid the cursor, or this one hides it.
    ///
    /// # Errors
    ///
    /// Those of `draw`.
    ///
    /// ```
    /// strip.draw_next(&mut tty.out, ColorOutput::Enabled, &buffer, Some(column))?;
    /// tty.out.flush()?;
    /// ```
    pub fn draw_next<W: Write, B: Allocator>(
        &mut self,
        writer: &mut W,
        colors: ColorOutput,
        buffer: &Buffer<B>,
        cursor: Option<u16>,
    ) -> Result<(), DrawFault>
        ensures frame { OnOk result ((ts : List Token) × AppendsReading (W.contents writer.old) (W.contents writer.new) ts
            × IsNextFrame self.old colors buffer.now cursor ts) }
        ensures accepted { OnOk result (IsOneRow self.old buffer.now × ColumnFits self.old cursor) }
        ensures drawn { OnOk result (self.new ≡ with_row self.old colors buffer.now.cells cursor) }
        ensures err { IfErr result (λ fault. RowNotDrawn fault self.old self.new buffer.now cursor (IsNextFrame self.old colors buffer.now cursor)
            (W.contents writer.old) (W.contents writer.new)) }
    {
        if self.screen.knows(colors) {
            if let Some(from) = self.left {
                if let Some(column) = cursor {
                    let drawn = self.screen.draw_next(writer, colors, buffer, from, column);
                    self.left = left_by(&drawn, self.left, cursor);
                    return drawn;
                }
            }
        }
        self.draw(writer, colors, buffer, cursor)
    }
}
