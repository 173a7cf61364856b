//! How a line is shown in some rows, from the cursor's on.
ghost use Rattle.std.specs.Prelude.{◌≡◌, ◌+◌, ◌-◌, ◌/◌, ◌<◌, ◌≤◌, ◌%◌, ◌==◌, IfOk, OnErr, OnOk, false, length, max, min, not, true};
ghost use Rattle.std.specs.Io.KnownBytes.{Appends};
ghost use Rattle.crossterm_command.specs.Writing.{AppendsFront};
ghost use Rattle.crossterm_command.specs.Tokens.{text_of};
ghost use Rattle.screen.specs.Blocks.{to_row, without_place};
ghost use Rattle.prompt.specs.Drawing.{clearing};
ghost use Rattle.prompt.specs.Frames.{Draws, DrawsFront, IsNewArea, IsSizeOf, IsLinePicture, erasure, area_of, hint_erasure, leaving_area, list_erasure, resized_area, unseen};
ghost use Rattle.prompt.specs.Pictures.{IsPicture};
ghost use Rattle.prompt.specs.Shown.{runs_of};
ghost use Rattle.prompt.specs.Wrapping.{IsWrapped, all_cells, front_cells, last_needed, row_of_last, line_cells, row_hint, with_runs};

use crate::drawing::{COLORS, drawn_columns, erase, send};
use crate::filling::{dim, fit};
use crate::listing::listing;
use crate::prompts::hint_behind;
use crate::reflow::rows_above;
use crate::shown::Shown;
use crossterm::cursor::{MoveDown, MoveUp};
use crossterm::style::{ContentStyle, StyledContent};
use crossterm::terminal::{Clear, ClearType};
use crossterm_command::write_text;
use screen::{Block, Buffer, Paragraph};
use std::alloc::{AllocError, Allocator, Global};
use std::io::{self, Write};

/// The rows in which a line is shown, as `read_line` shows it: for who reads events by itself.
///
/// They begin in the cursor's row, and take all columns of the window but the last, so that no terminal wraps them. A line that takes more rows
/// than the window has scrolls, with the cursor in sight. What `draw` writes is what changed since it drew last.
///
/// ```
/// let mut rows = Rows::new(alloc, (80, 24))?;
/// rows.draw(&mut out, &Shown::new("> ", editor.line()))?;
/// ```
#[derive(Drop)]
pub struct Rows {
    // What texts are made with.
    pub(crate) alloc: Global,
    block: Block,
    // Whether the line is wrapped. If it isn't, one row shows as much of it as has room.
    wraps: bool,
    // How many rows there are at most: those of the window.
    most: u16,
    // Whether a hint is shown behind the line.
    has_hint: bool,
    // Whether candidates are listed below the line.
    has_candidates: bool,
    // The last row that the line takes.
    last: u16,
    paragraph: Paragraph,
    buffer: Buffer,
    // The first row in sight of a line that takes more rows than there are.
    top: usize,
    // The cursor's column, as it was drawn last.
    column: u16,
    // Whether `read_line` asks the terminal for the cursor's place.
    pub(crate) is_asked: bool,
    // Whether the terminal is known to wrap rows anew if the window becomes narrower.
    pub(crate) reflows: bool,
}

/// What is laid in a paragraph: the cursor's place, the last row that is needed, how many cells the line has, and whether a hint is behind them.
#[derive(Clone, Copy)]
struct Laid {
    column: u16,
    row: usize,
    below: usize,
    count: usize,
    has_hint: bool,
}

/// Lays a text and the parts behind it.
fn lay_runs(
    paragraph: &mut Paragraph,
    text: &str,
    parts: &[StyledContent<&str>],
) -> Result<(), AllocError>
    ensures width { OnOk result (paragraph.new.width ≡ paragraph.old.width) }
    ensures cells { OnOk result (paragraph.new.cells ≡ with_runs paragraph.old.width paragraph.old.cells (runs_of text.now parts.now)) }
{
    paragraph.push(text, ContentStyle::new())?;
    for part in parts {
        paragraph.push(part.content(), *part.style())?;
    }
    Ok(())
}

/// Lays a line behind its prompt, and returns the cursor's place.
fn lay_line<A: Allocator>(
    paragraph: &mut Paragraph,
    width: u16,
    shown: &Shown<'_, A>,
) -> Result<(u16, usize), AllocError>
    ensures width { OnOk result (paragraph.new.width ≡ width) }
    ensures cells { OnOk result (paragraph.new.cells ≡ line_cells width shown.now) }
    ensures cursor { IfOk result (λ place. (place.0 ≡ length (front_cells width shown.now) % width) × (place.1 ≡ length (front_cells width shown.now) / width)) }
    ensures inside { IfOk result (λ place. place.1 ≤ length (line_cells width shown.now) / width) }
{
    paragraph.resize(width);
    lay_runs(paragraph, shown.text, shown.parts)?;
    paragraph.push(shown.line.before(), ContentStyle::new())?;
    let place = paragraph.end();
    paragraph.push(shown.line.after(), ContentStyle::new())?;
    Ok(place)
}

/// Whether candidates are listed below a line.
fn has_candidates<A: Allocator>(shown: &Shown<'_, A>) -> bool
    ensures { result ≡ not (length shown.now.candidates == 0) }
{
    !shown.candidates.is_empty()
}

/// The hint that is shown behind a line that is laid.
fn row_hint<'a, A: Allocator>(paragraph: &Paragraph, width: u16, shown: &Shown<'a, A>) -> &'a str
    requires width { paragraph.now.width ≡ width }
    requires line { paragraph.now.cells ≡ line_cells width shown.now }
    ensures { result.now ≡ row_hint width shown.now }
{
    if has_candidates(shown) {
        return "";
    }
    let (end, _) = paragraph.end();
    hint_behind(shown.line.after(), shown.hint, width.saturating_sub(end))
}

/// Lays a hint behind a line, or candidates below it. Returns whether a hint is shown.
fn lay_more<A: Allocator>(
    alloc: Global,
    paragraph: &mut Paragraph,
    width: u16,
    shown: &Shown<'_, A>,
) -> Result<bool, AllocError>
    requires width { paragraph.old.width ≡ width }
    requires line { paragraph.old.cells ≡ line_cells width shown.now }
    ensures width { OnOk result (paragraph.new.width ≡ width) }
    ensures cells { OnOk result (paragraph.new.cells ≡ all_cells width shown.now) }
    ensures has { IfOk result (λ has. has ≡ not (length (row_hint width shown.now) == 0)) }
{
    let hint = row_hint(paragraph, width, shown);
    paragraph.push(hint, dim())?;
    let names = listing(alloc, width, shown.candidates)?;
    paragraph.push(names.as_str(), ContentStyle::new())?;
    Ok(!hint.is_empty())
}

/// Lays all that is shown in rows of so many columns.
fn lay<A: Allocator>(
    alloc: Global,
    paragraph: &mut Paragraph,
    width: u16,
    shown: &Shown<'_, A>,
) -> Result<Laid, AllocError>
    requires { 0 < width }
    ensures width { OnOk result (paragraph.new.width ≡ width) }
    ensures cells { OnOk result (paragraph.new.cells ≡ all_cells width shown.now) }
    ensures cursor { IfOk result (λ laid. (laid.column ≡ length (front_cells width shown.now) % width) × (laid.row ≡ length (front_cells width shown.now) / width)) }
    ensures needed { IfOk result (λ laid. (laid.below ≡ last_needed width shown.now) × (laid.row ≤ laid.below)) }
    ensures line { IfOk result (λ laid. laid.count ≡ length (line_cells width shown.now)) }
    ensures has { IfOk result (λ laid. laid.has_hint ≡ not (length (row_hint width shown.now) == 0)) }
{
    let (column, row) = lay_line(paragraph, width, shown)?;
    let (_, last) = paragraph.end();
    let count = paragraph.len();
    let has_hint = lay_more(alloc, paragraph, width, shown)?;
    Ok(Laid {
        column,
        row,
        below: last.max(last_of(paragraph.len(), width)),
        count,
        has_hint,
    })
}

/// The last row that so many cells take, if they are any.
fn last_of(count: usize, width: u16) -> usize
    requires { 0 < width }
    ensures { result ≡ row_of_last width count }
{
    count.saturating_sub(1) / usize::from(width)
}

/// How many rows are shown of a line whose last row is this one: so many at most, but never fewer than before.
fn rows_shown(before: u16, most: u16, below: usize) -> u16
    ensures value { result ≡ max before (min (below + 1) (max most 1)) }
    ensures some { 0 < result }
{
    let most = most.max(1);
    let rows = if below < usize::from(most) {
        below as u16 + 1
    } else {
        most
    };
    rows.max(before)
}

/// The first of so many rows that are in sight, moved no further than it must be for the cursor's row to be in sight, and no row below the line if
/// there is one above.
fn scrolled(top: usize, height: u16, row: usize, below: usize) -> usize
    requires some { 0 < height }
    requires inside { row ≤ below }
    ensures above { result ≤ row }
    ensures in_sight { row < result + height }
    ensures full { result ≤ below + 1 - height }
{
    let spare = usize::from(height - 1);
    let least = row.saturating_sub(spare);
    let most = row.min(below.saturating_sub(spare));
    top.max(least).min(most)
}

/// The last row in sight that a line of so many cells takes.
fn last_row(count: usize, width: u16, top: usize, height: u16) -> u16
    requires { 0 < width }
    ensures { result ≡ min (row_of_last width count - top) (height - 1) }
{
    let row = last_of(count, width).saturating_sub(top);
    let last = height.saturating_sub(1);
    if row < usize::from(last) {
        row as u16
    } else {
        last
    }
}

impl Rows {
    /// Rows in a window of so many columns and rows. Nothing is known of them yet.
    pub(crate) fn of(alloc: Global, size: (u16, u16), wraps: bool) -> Result<Rows, AllocError>
        ensures fresh { IfOk result (λ rows. IsNewArea wraps (area_of rows)) }
        ensures size { IfOk result (λ rows. (rows.block.width ≡ size.0 - 1) × (rows.most ≡ size.1)) }
    {
        let buffer = Buffer::new(alloc, 0, 0)?;
        let width = drawn_columns(size.0);
        Ok(Rows {
            alloc,
            block: Block::new(alloc, COLORS, width),
            wraps,
            most: size.1,
            has_hint: false,
            has_candidates: false,
            last: 0,
            paragraph: Paragraph::new(alloc, width),
            buffer,
            top: 0,
            column: 0,
            is_asked: true,
            reflows: false,
        })
    }

    /// Rows in a window of so many columns and rows, which wrap the line. Nothing is known of them yet.
    ///
    /// # Errors
    ///
    /// `AllocError` if memory was refused.
    ///
    /// ```
    /// let rows = Rows::new(alloc, (80, 24))?;
    /// ```
    pub fn new(alloc: Global, size: (u16, u16)) -> Result<Rows, AllocError>
        ensures fresh { IfOk result (λ rows. IsNewArea true (area_of rows)) }
        ensures size { IfOk result (λ rows. (rows.block.width ≡ size.0 - 1) × (rows.most ≡ size.1)) }
    {
        Rows::of(alloc, size, true)
    }

    /// One row, which shows as much of the line as has room.
    ///
    /// # Errors
    ///
    /// `AllocError` if memory was refused.
    ///
    /// ```
    /// let rows = Rows::in_one_row(alloc, (80, 24))?;
    /// ```
    pub fn in_one_row(alloc: Global, size: (u16, u16)) -> Result<Rows, AllocError>
        ensures fresh { IfOk result (λ rows. IsNewArea false (area_of rows)) }
        ensures size { IfOk result (λ rows. (rows.block.width ≡ size.0 - 1) × (rows.most ≡ size.1)) }
    {
        Rows::of(alloc, size, false)
    }

    /// Takes the columns and rows of another window. Nothing is known of what the rows show then: the next frame begins in the cursor's row.
    ///
    /// ```
    /// if let Event::Resize(columns, count) = event {
    ///     rows.resize((columns, count));
    /// }
    /// ```
    pub fn resize(&mut self, size: (u16, u16))
        ensures area { (area_of self.new) ≡ resized_area (size.0 - 1) size.1 self.new.block.room (area_of self.old) }
        ensures asked { self.new.is_asked ≡ self.old.is_asked }
    {
        self.block.resize(drawn_columns(size.0));
        self.most = size.1;
        self.empty();
    }

    /// Nothing is shown behind the line and below it, and it takes one row.
    fn empty(&mut self)
        ensures { self.new ≡ record self.old { has_hint = false; has_candidates = false; last = 0 } }
    {
        self.has_hint = false;
        self.has_candidates = false;
        self.last = 0;
    }

    /// Forgets what the rows show, as after the cursor went to another row. The next frame begins in the cursor's row.
    ///
    /// ```
    /// rows.forget();
    /// ```
    pub fn forget(&mut self)
        ensures area { (area_of self.new) ≡ unseen self.new.block.room (area_of self.old) }
        ensures asked { self.new.is_asked ≡ self.old.is_asked }
    {
        self.block.forget();
        self.empty();
    }

    /// Forgets the cursor's column and the style that is set, as after another text was written in the cursor's row.
    ///
    /// ```
    /// rows.forget_cursor();
    /// ```
    pub fn forget_cursor(&mut self)
        ensures area { (area_of self.new) ≡ record (area_of self.old) { block = without_place self.old.block } }
        ensures asked { self.new.is_asked ≡ self.old.is_asked }
    {
        self.block.forget_cursor();
    }

    /// Makes the buffer show a wrapped line, and returns the cursor's place.
    fn wrap<A: Allocator>(&mut self, shown: &Shown<'_, A>) -> Result<(u16, u16), AllocError>
        requires { 0 < self.old.block.width }
        ensures picture { IfOk result (λ place. IsWrapped self.old.most (length self.old.block.rows) self.old.block.width shown.now
            self.new.buffer place.0 place.1 self.new.has_hint self.new.has_candidates self.new.last) }
        ensures kept { (self.new.block ≡ self.old.block) × (self.new.wraps ≡ self.old.wraps) × (self.new.most ≡ self.old.most) × (self.new.is_asked ≡ self.old.is_asked) }
    {
        let width = self.block.width();
        let laid = lay(self.alloc, &mut self.paragraph, width, shown)?;
        let height = rows_shown(self.block.height(), self.most, laid.below);
        self.top = scrolled(self.top, height, laid.row, laid.below);
        self.paragraph.show(&mut self.buffer, self.top, height)?;
        self.has_hint = laid.has_hint;
        self.has_candidates = has_candidates(shown);
        self.last = last_row(laid.count, width, self.top, height);
        Ok((laid.column, (laid.row - self.top) as u16))
    }

    /// Makes the buffer show what has room of a line in one row, and returns the cursor's place.
    fn fit<A: Allocator>(&mut self, shown: &Shown<'_, A>) -> io::Result<(u16, u16)>
        ensures picture { IfOk result (λ place. IsPicture self.old.block.width shown.now self.new.buffer place.0 self.new.has_hint
            × (self.new.buffer.height ≡ 1) × (place.1 ≡ 0) × (self.new.has_candidates ≡ false) × (self.new.last ≡ 0)) }
        ensures kept { (self.new.block ≡ self.old.block) × (self.new.wraps ≡ self.old.wraps) × (self.new.most ≡ self.old.most) × (self.new.is_asked ≡ self.old.is_asked) }
    {
        self.buffer.resize(self.block.width(), 1)?;
        let filled = fit(&mut self.buffer, shown)?;
        self.has_hint = filled.has_hint;
        self.has_candidates = false;
        self.last = 0;
        Ok((filled.column, 0))
    }

    /// Makes the buffer show a line, and returns the cursor's place.
    fn fill<A: Allocator>(&mut self, shown: &Shown<'_, A>) -> io::Result<(u16, u16)>
        requires { 0 < self.old.block.width }
        ensures picture { IfOk result (λ place. IsLinePicture self.old.wraps self.old.most (length self.old.block.rows) self.old.block.width
            shown.now self.new.buffer place.0 place.1 self.new.has_hint self.new.has_candidates self.new.last) }
        ensures kept { (self.new.block ≡ self.old.block) × (self.new.wraps ≡ self.old.wraps) × (self.new.most ≡ self.old.most) × (self.new.is_asked ≡ self.old.is_asked) }
    {
        if self.wraps {
            Ok(self.wrap(shown)?)
        } else {
            self.fit(shown)
        }
    }

    /// Shows a line, and what is before, behind and below it, with the cursor in its place: what changed is written, and flushed. Characters that
    /// no cell can hold are shown as U+FFFD. In a window of one column nothing has room, and nothing is written.
    ///
    /// Nothing is assumed of the cursor's column and of the style that is set: other texts may have been written in the cursor's row before.
    ///
    /// # Errors
    ///
    /// Those of the writer, and `OutOfMemory` if memory was refused. After one of the writer nothing is known of the rows.
    ///
    /// ```
    /// rows.draw(&mut out, &Shown::new("> ", editor.line()))?;
    /// ```
    pub fn draw<W: Write, A: Allocator>(
        &mut self,
        out: &mut W,
        shown: &Shown<'_, A>,
    ) -> io::Result<()>
        ensures shows { OnOk result (Draws shown.now (record (area_of self.old) { block = without_place self.old.block }) (area_of self.new)
            (W.contents out.old) (W.contents out.new)) }
        ensures stops { OnErr result (DrawsFront shown.now (record (area_of self.old) { block = without_place self.old.block })
            (W.contents out.old) (W.contents out.new)) }
        ensures size { IsSizeOf (area_of self.old) (area_of self.new) }
        ensures asked { self.new.is_asked ≡ self.old.is_asked }
    {
        self.forget_cursor();
        self.draw_next(out, shown)
    }

    /// The same for who draws alone: nothing but a bell was written since the last frame. Then a letter that is typed at the line's end is one
    /// byte, a cursor that moves is at most two moves (ECMA-48, 8.3.9, 8.3.19, 8.3.22), and nothing is written if nothing changed.
    ///
    /// # Errors
    ///
    /// Those of `draw`.
    ///
    /// ```
    /// rows.draw_next(&mut out, &Shown::new("> ", editor.line()))?;
    /// ```
    pub fn draw_next<W: Write, A: Allocator>(
        &mut self,
        out: &mut W,
        shown: &Shown<'_, A>,
    ) -> io::Result<()>
        ensures shows { OnOk result (Draws shown.now (area_of self.old) (area_of self.new) (W.contents out.old) (W.contents out.new)) }
        ensures stops { OnErr result (DrawsFront shown.now (area_of self.old) (W.contents out.old) (W.contents out.new)) }
        ensures size { IsSizeOf (area_of self.old) (area_of self.new) }
        ensures asked { self.new.is_asked ≡ self.old.is_asked }
    {
        if self.block.width() == 0 {
            return out.flush();
        }
        let place = self.fill(shown)?;
        self.column = place.0;
        match self.block.draw_next(out, &self.buffer, place) {
            Ok(()) => out.flush(),
            Err(fault) => Err(io::Error::from(fault)),
        }
    }

    /// How many rows above the cursor's the first one is, if nothing was written since the last frame.
    pub(crate) fn row(&self) -> u16
        ensures { result ≡ self.now.block.row }
    {
        self.block.row()
    }

    /// The same in a window of so many columns in which the cursor is in this column: it may have become narrower since the last frame.
    pub(crate) fn rows_above(&mut self, columns: u16, column: u16) -> u16
        ensures above { self.old.block.row ≤ result }
        ensures area { (area_of self.new) ≡ (area_of self.old) }
        ensures asked { self.new.is_asked ≡ self.old.is_asked }
    {
        let row = self.block.row();
        let place = (self.column, row);
        let rows = rows_above(&self.buffer, place, columns, column, &mut self.reflows);
        rows.max(row)
    }

    /// Erases the hint behind the line, if there is one.
    fn erase_hint<W: Write>(&self, out: &mut W) -> io::Result<()>
        ensures ok { OnOk result (Appends (W.contents out.old) (W.contents out.new) (hint_erasure self.now.has_hint)) }
        ensures err { OnErr result (AppendsFront (W.contents out.old) (W.contents out.new) (hint_erasure self.now.has_hint)) }
    {
        if self.has_hint {
            send(out, &Clear(ClearType::UntilNewLine))
        } else {
            Ok(())
        }
    }

    /// Erases the candidates below the line, if there are any, from the start of the row below it on.
    fn erase_list<W: Write>(&self, out: &mut W) -> io::Result<()>
        ensures ok { OnOk result (Appends (W.contents out.old) (W.contents out.new) (list_erasure self.now.has_candidates)) }
        ensures err { OnErr result (AppendsFront (W.contents out.old) (W.contents out.new) (list_erasure self.now.has_candidates)) }
    {
        if self.has_candidates {
            send(out, &Clear(ClearType::FromCursorDown))
        } else {
            Ok(())
        }
    }

    /// Brings the cursor to the last row that the line takes.
    fn go_to_last<W: Write>(&self, out: &mut W) -> io::Result<()>
        ensures ok { OnOk result (Appends (W.contents out.old) (W.contents out.new) (text_of (to_row self.now.block.row self.now.last))) }
        ensures err { OnErr result (AppendsFront (W.contents out.old) (W.contents out.new) (text_of (to_row self.now.block.row self.now.last))) }
    {
        let row = self.block.row();
        if self.last < row {
            send(out, &MoveUp(row - self.last))
        } else if row < self.last {
            send(out, &MoveDown(self.last - row))
        } else {
            Ok(())
        }
    }

    /// Leaves the rows, for who is done with them: a hint and candidates are erased, and the cursor goes to the start of the row below the line.
    ///
    /// # Errors
    ///
    /// Those of the writer: a beginning was written.
    ///
    /// ```
    /// rows.leave(&mut out)?;
    /// rows.forget();
    /// ```
    pub fn leave<W: Write>(&self, out: &mut W) -> io::Result<()>
        ensures ok { OnOk result (Appends (W.contents out.old) (W.contents out.new) (leaving_area (area_of self.now))) }
        ensures err { OnErr result (AppendsFront (W.contents out.old) (W.contents out.new) (leaving_area (area_of self.now))) }
    {
        self.erase_hint(out)?;
        self.go_to_last(out)?;
        write_text(out, "\r\n")?;
        self.erase_list(out)?;
        out.flush()
    }

    /// Erases the rows from the first one on, and all below them: for who draws them anew, as after a resize. The cursor is at the start of the first
    /// one then. Call `resize` or `forget` behind it.
    ///
    /// # Errors
    ///
    /// Those of the writer: a beginning was written.
    ///
    /// ```
    /// rows.erase(&mut out)?;
    /// rows.resize((40, 24));
    /// ```
    pub fn erase<W: Write>(&self, out: &mut W) -> io::Result<()>
        ensures ok { OnOk result (Appends (W.contents out.old) (W.contents out.new) (erasure self.now.block.row)) }
        ensures err { OnErr result (AppendsFront (W.contents out.old) (W.contents out.new) (erasure self.now.block.row)) }
    {
        erase(out, self.block.row())
    }

    /// Erases the window and brings the cursor to its top, for a line that goes on there. Nothing is known of the rows then.
    ///
    /// # Errors
    ///
    /// Those of the writer: a beginning was written, and nothing else has changed.
    ///
    /// ```
    /// rows.clear(&mut out)?;
    /// ```
    pub fn clear<W: Write>(&mut self, out: &mut W) -> io::Result<()>
        ensures ok { OnOk result (Appends (W.contents out.old) (W.contents out.new) clearing) }
        ensures err { OnErr result (AppendsFront (W.contents out.old) (W.contents out.new) clearing) }
        ensures area { OnOk result ((area_of self.new) ≡ unseen self.new.block.room (area_of self.old)) }
        ensures same { OnErr result ((area_of self.new) ≡ (area_of self.old)) }
        ensures asked { self.new.is_asked ≡ self.old.is_asked }
    {
        write_text(out, "\x1b[2J\x1b[1;1H")?;
        self.forget();
        Ok(())
    }
}
