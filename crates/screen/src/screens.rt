//! Screens: what the terminal shows, and how it is made to show a buffer.
ghost use Rattle.std.specs.Prelude.{◌≡◌, ◌*◌, ◌<◌, ◌≤◌, ◌↔◌, OnOk, OnErr, IsOk, IfOk, IfErr, IfSome, IsTrue, List, None, Some, if◌then◌else◌, false, true, length, replicate, vec_capacity};
ghost use Rattle.std.specs.Option.{option_map};
ghost use Rattle.crossterm.specs.Functions.{AppendsReading};
ghost use Rattle.crossterm_command.specs.Tokens.{Token};
ghost use Rattle.screen.specs.Cells.{ArePaired, blank};
ghost use Rattle.screen.specs.Drawings.{CursorFits, IsFrame, IsSameSize, NotDrawn, cells_before, forgotten, knows_cells, with_drawn};
ghost use Rattle.screen.specs.declared.strokes.Stroke.{Stroke};
ghost use Rattle.screen.specs.Screens.{View};
ghost use Rattle.screen.specs.declared.starts.Start.TheVariants as start;
ghost use Rattle.screen.specs.inside.Scans.{IsPairedIf, NextNotWritten, NotWritten, PlannedNext, is_known, start_by};
ghost use Rattle.screen.specs.inside.Strokes.{AreFitting, tokens_of, written_of};

use crate::buffers::{Buffer, count_of};
use crate::cells::Cell;
use crate::faults::DrawFault;
use crate::overwriting::fill;
use crate::planning::{write_frame, write_next};
use crossterm_command::ColorOutput;
use std::alloc::{AllocError, Allocator, Global};
use std::io::Write;
use std::marker::Model;

/// What a terminal shows, as far as it is known.
///
/// ```
/// let mut screen = Screen::new(alloc, 80, 24)?;
/// screen.draw(w, ColorOutput::Enabled, &buffer, None)?;
/// ```
#[derive(Drop)]
pub struct Screen<A: Allocator = Global> {
    width: u16,
    height: u16,
    // The choice of colours that `shown` was drawn with, and none if nothing is known of the terminal.
    drawn: Option<ColorOutput>,
    shown: Vec<Cell, A>,
}

impl<A: Allocator> Model for Screen<A> {
    ghost use Rattle.std.specs.Prelude.{◌≡◌, ◌*◌, length, vec_capacity};
    ghost use Rattle.std.specs.Option.{option_map};
    ghost use Rattle.screen.specs.Screens.{View};
    ghost use Rattle.screen.specs.inside.Scans.{IsPairedIf};

    ghost Value = { View };

    ghost view = { λ s. record {
      width = s.width;
      height = s.height;
      drawn = option_map (λ colors. record { colors = colors; cells = s.shown.items }) s.drawn;
      room = vec_capacity s.shown;
    } };

    ghost invariant = { λ s. (length s.shown.items ≡ s.width * s.height) × IsPairedIf s.drawn s.shown.items };
}

/// Whether colours are written as they were.
fn is_known(drawn: Option<ColorOutput>, colors: ColorOutput) -> bool
    ensures { result ≡ is_known drawn colors }
{
    match drawn {
        None => false,
        Some(ColorOutput::Enabled) => matches!(colors, ColorOutput::Enabled),
        Some(ColorOutput::Disabled) => matches!(colors, ColorOutput::Disabled),
    }
}

/// Whether the cursor's place is within a size, or it is to be hidden.
fn is_inside(cursor: Option<(u16, u16)>, width: u16, height: u16) -> bool
    ensures { IsTrue result ↔ IfSome cursor (λ place. (place.0 < width) × (place.1 < height)) }
{
    match cursor {
        None => true,
        Some((column, row)) => column < width && row < height,
    }
}

/// Makes the cells blank that aren't known, and returns whether they are known.
fn prepare_cells<A: Allocator>(
    cells: &mut Vec<Cell, A>,
    drawn: Option<ColorOutput>,
    colors: ColorOutput,
) -> bool
    ensures known { result ≡ is_known drawn colors }
    ensures cells { cells.new.items ≡ (if is_known drawn colors then cells.old.items else replicate (length cells.old.items) blank) }
    ensures count { length cells.new.items ≡ length cells.old.items }
    ensures room { vec_capacity cells.new ≡ vec_capacity cells.old }
{
    if is_known(drawn, colors) {
        return true;
    }
    fill(cells, Cell::blank());
    false
}

/// The same, with what follows from it for cells that are paired if they were drawn.
fn prepare<A: Allocator>(
    cells: &mut Vec<Cell, A>,
    drawn: Option<ColorOutput>,
    colors: ColorOutput,
) -> bool
    requires { IsPairedIf drawn cells.old.items }
    ensures known { result ≡ is_known drawn colors }
    ensures cells { cells.new.items ≡ (if is_known drawn colors then cells.old.items else replicate (length cells.old.items) blank) }
    ensures count { length cells.new.items ≡ length cells.old.items }
    ensures room { vec_capacity cells.new ≡ vec_capacity cells.old }
    ensures paired { ArePaired false cells.new.items }
{
    prepare_cells(cells, drawn, colors)
}

impl<A: Allocator> Screen<A> {
    /// A screen of a size. Nothing is known of the terminal yet.
    ///
    /// # Errors
    ///
    /// `AllocError` if memory was refused.
    pub fn new(alloc: A, width: u16, height: u16) -> Result<Screen<A>, AllocError>
        ensures new { IfOk result (λ screen. screen ≡ record { width = width; height = height; drawn = None; room = screen.room }) }
        ensures room { IfOk result (λ screen. width * height ≤ screen.room) }
    {
        let mut shown = Vec::new(alloc);
        shown.resize(count_of(width, height), Cell::blank())?;
        Ok(Screen {
            width,
            height,
            drawn: None,
            shown,
        })
    }

    /// How many columns there are.
    pub fn width(&self) -> u16
        ensures { result ≡ self.now.width }
    {
        self.width
    }

    /// How many rows there are.
    pub fn height(&self) -> u16
        ensures { result ≡ self.now.height }
    {
        self.height
    }

    /// Forgets what the terminal shows, as after another program has written on it: the next frame writes all.
    pub fn forget(&mut self)
        ensures { self.new ≡ forgotten self.old }
    {
        self.drawn = None;
    }

    /// Takes another size, after which nothing is known of the terminal. No memory is given back, so no size is refused that it had before.
    ///
    /// # Errors
    ///
    /// `AllocError` if memory was refused for more cells than there is memory for. Then nothing has changed.
    pub fn resize(&mut self, width: u16, height: u16) -> Result<(), AllocError>
        ensures ok { OnOk result (self.new ≡ record { width = width; height = height; drawn = None; room = self.new.room }) }
        ensures err { OnErr result (self.new ≡ record self.old { room = self.new.room }) }
        ensures fits { width * height ≤ self.old.room → IsOk result }
        ensures holds { OnOk result (width * height ≤ self.new.room) }
        ensures room { self.old.room ≤ self.new.room }
    {
        self.shown.resize(count_of(width, height), Cell::blank())?;
        self.drawn = None;
        self.width = width;
        self.height = height;
        Ok(())
    }

    /// Writes what makes the terminal show the buffer, with the cursor at a column and a row from 0, or hidden. The screen has as much memory
    /// afterwards as before.
    ///
    /// # Errors
    ///
    /// `Size` if the buffer has another size, and `Cursor` if the place is outside. Then nothing was written, nothing changed, and what the
    /// terminal shows is known as before. `Command` if the writer failed: a beginning of the frame was written, and nothing else. Then nothing
    /// is known of the terminal, and the next frame writes all.
    ///
    /// ```
    /// screen.draw(&mut tty.out, ColorOutput::Enabled, &buffer, Some((column, row)))?;
    /// tty.out.flush()?;
    /// ```
    pub fn draw<W: Write, B: Allocator>(
        &mut self,
        writer: &mut W,
        colors: ColorOutput,
        buffer: &Buffer<B>,
        cursor: Option<(u16, u16)>,
    ) -> Result<(), DrawFault>
        ensures frame { OnOk result ((ts : List Token) × AppendsReading (W.contents writer.old) (W.contents writer.new) ts
            × IsFrame self.old colors buffer.now cursor ts) }
        ensures accepted { OnOk result (IsSameSize self.old buffer.now × CursorFits self.old cursor) }
        ensures drawn { OnOk result (self.new ≡ with_drawn self.old colors buffer.now.cells) }
        ensures err { IfErr result (λ fault. NotDrawn fault self.old self.new colors buffer.now cursor
            (W.contents writer.old) (W.contents writer.new)) }
    {
        self.draw_by(writer, false, colors, buffer, cursor)
    }

    /// The same, on the whole screen or in the cursor's row.
    pub(crate) fn draw_by<W: Write, B: Allocator>(
        &mut self,
        writer: &mut W,
        in_row: bool,
        colors: ColorOutput,
        buffer: &Buffer<B>,
        cursor: Option<(u16, u16)>,
    ) -> Result<(), DrawFault>
        ensures frame { OnOk result ((strokes : List Stroke) × AppendsReading (W.contents writer.old) (W.contents writer.new) (written_of in_row colors strokes)
            × AreFitting (start_by (knows_cells self.old.drawn colors)) strokes × IsFrame self.old colors buffer.now cursor (tokens_of colors strokes)) }
        ensures accepted { OnOk result (IsSameSize self.old buffer.now × CursorFits self.old cursor) }
        ensures drawn { OnOk result (self.new ≡ with_drawn self.old colors buffer.now.cells) }
        ensures err { IfErr result (λ fault. NotWritten in_row fault self.old self.new colors buffer.now cursor
            (W.contents writer.old) (W.contents writer.new)) }
    {
        if buffer.width() != self.width || buffer.height() != self.height {
            return Err(DrawFault::Size);
        }
        if !is_inside(cursor, self.width, self.height) {
            return Err(DrawFault::Cursor);
        }
        let is_known = prepare(&mut self.shown, self.drawn, colors);
        self.drawn = None;
        let size = (self.width, self.height);
        let after = buffer.cells();
        match write_frame(
            writer,
            colors,
            in_row,
            is_known,
            size,
            &mut self.shown,
            after,
            cursor,
        ) {
            Ok(()) => {
                self.drawn = Some(colors);
                Ok(())
            }
            Err(fault) => Err(DrawFault::Command(fault)),
        }
    }

    /// Whether it is known what the terminal shows, in colours that are written as now.
    pub(crate) fn knows(&self, colors: ColorOutput) -> bool
        ensures { result ≡ knows_cells self.now.drawn colors }
    {
        is_known(self.drawn, colors)
    }

    /// The same in the cursor's row, if the cursor is still shown in the column in which the last frame left it, and the plain style is set.
    pub(crate) fn draw_next<W: Write, B: Allocator>(
        &mut self,
        writer: &mut W,
        colors: ColorOutput,
        buffer: &Buffer<B>,
        from: u16,
        column: u16,
    ) -> Result<(), DrawFault>
        requires known { knows_cells self.old.drawn colors ≡ true }
        requires row { self.old.height ≡ 1 }
        ensures frame { OnOk result ((strokes : List Stroke) × AppendsReading (W.contents writer.old) (W.contents writer.new) (written_of true colors strokes)
            × AreFitting (start.All from) strokes × PlannedNext self.old.width (cells_before self.old colors) buffer.now.cells from column strokes) }
        ensures accepted { OnOk result (IsSameSize self.old buffer.now × CursorFits self.old (Some (column, 0))) }
        ensures drawn { OnOk result (self.new ≡ with_drawn self.old colors buffer.now.cells) }
        ensures err { IfErr result (λ fault. NextNotWritten fault self.old self.new colors buffer.now from column
            (W.contents writer.old) (W.contents writer.new)) }
    {
        if buffer.width() != self.width || buffer.height() != 1 {
            return Err(DrawFault::Size);
        }
        if column >= self.width {
            return Err(DrawFault::Cursor);
        }
        self.drawn = None;
        let width = self.width;
        let shown = &mut self.shown;
        if let Err(fault) = write_next(writer, colors, width, shown, buffer.cells(), from, column) {
            return Err(DrawFault::Command(fault));
        }
        self.drawn = Some(colors);
        Ok(())
    }
}
