//! The strokes of a frame.
ghost use Rattle.std.specs.Prelude.{◌≡◌, ◌⊎◌, ◌++◌, ◌+◌, ◌*◌, ◌/◌, ◌%◌, ◌<◌, ◌≤◌, ◌^◌, ◌↔◌, ⊤, Bool, ℕ, OnErr, OnOk, IfSome, IsTrue, List, ◌∷◌, [], get_or, length, slice_get, true, false, Some};
ghost use Rattle.std.specs.Io.KnownBytes.{Appends};
ghost use Rattle.std.specs.List.{All};
ghost use Rattle.crossterm_command.specs.Tokens.{text_of};
ghost use Rattle.crossterm_command.specs.Writing.{AppendsFront};
ghost use Rattle.screen.specs.Cells.{ArePaired, Cell as CellValue, StayInRows, IsPlaced, blank, last_place};
ghost use Rattle.screen.specs.Grids.{right_of};
ghost use Rattle.crossterm_style.specs.Styles.{no_style};
ghost use Rattle.screen.specs.declared.settings.Setting.{Setting};
ghost use Rattle.screen.specs.declared.starts.Start.TheVariants as start;
ghost use Rattle.screen.specs.declared.strokes.Stroke.{Stroke};
ghost use Rattle.screen.specs.inside.Bridges.{Approaches};
ghost use Rattle.screen.specs.inside.Pens.{PutsStrokes};
ghost use Rattle.screen.specs.inside.Scans.{IsSized, Planned, PlannedNext, Visited, start_by};
ghost use Rattle.screen.specs.inside.Settings.{HasByteColors, Sets};
ghost use Rattle.screen.specs.inside.Strokes.{AreFitting, again_strokes, cell_strokes, cursor_strokes, first_strokes, last_strokes, move_strokes, stop_strokes, style_strokes, written_of};

use crate::bridges::{approach, cross};
use crate::cells::{Cell, is_covered};
use crate::differences::next_difference;
use crate::packed::PackedStyle;
use crate::pens::{Pen, finish, put, put_print};
use crate::settings::{Setting, setting_of};
use crate::starts::Start;
use crate::strokes::Stroke;
use crossterm_command::{ColorOutput, CommandFault};
use crossterm_style::ContentStyle;
use std::io;

/// The column and the row of a place.
fn place_of(at: usize, width: u16, height: u16) -> (u16, u16)
    requires { at < width * height }
    ensures row { result.1 ≡ at / width }
    ensures column { result.0 ≡ at % width }
{
    let width = width as usize;
    ((at % width) as u16, (at / width) as u16)
}

/// Moves the cursor, unless it is there.
fn put_move<W: io::Write>(writer: &mut W, pen: &mut Pen, there: bool, place: (u16, u16))
    ensures { PutsStrokes (move_strokes there place.0 place.1) (W.contents writer.old) pen.old (W.contents writer.new) pen.new }
{
    if !there {
        put(writer, pen, Stroke::Move(place.0, place.1));
    }
}

/// Moves the cursor to a place, unless it is there. The place's column and row are computed by divisions, so that is done for a move alone.
fn put_place<W: io::Write>(writer: &mut W, pen: &mut Pen, there: bool, at: usize, size: (u16, u16))
    requires { at < size.0 * size.1 }
    ensures { PutsStrokes (move_strokes there (at % size.0) (at / size.0)) (W.contents writer.old) pen.old (W.contents writer.new) pen.new }
{
    if !there {
        let place = place_of(at, size.0, size.1);
        put_move(writer, pen, false, place);
    }
}

/// Sets a style, unless it is set.
fn put_style<W: io::Write>(writer: &mut W, pen: &mut Pen, setting: &Setting)
    ensures { PutsStrokes (style_strokes setting.now) (W.contents writer.old) pen.old (W.contents writer.new) pen.new }
{
    match setting {
        Setting::Kept => {}
        Setting::Colors(change) => put(writer, pen, Stroke::Colors(*change)),
        Setting::Whole(style) => put(writer, pen, Stroke::Style(*style)),
    }
}

/// Paints a cell, by whether the cursor is there and by how its style is set.
fn paint<W: io::Write>(
    writer: &mut W,
    pen: &mut Pen,
    there: bool,
    setting: &Setting,
    at: usize,
    size: (u16, u16),
    cell: &Cell,
)
    requires { at < size.0 * size.1 }
    ensures { PutsStrokes (cell_strokes there setting.now (at % size.0) (at / size.0) cell.now) (W.contents writer.old) pen.old (W.contents writer.new) pen.new }
{
    put_place(writer, pen, there, at, size);
    put_style(writer, pen, setting);
    put_print(writer, pen, cell);
}

/// The place of the cursor after a character, or none if that is a row's last.
fn right_of(at: usize, width: u16) -> Option<usize>
    requires fits { at ≤ 2 ^ 32 }
    requires width { 0 < width }
    ensures { result ≡ right_of width at }
{
    let next = at + 1;
    if next % width as usize == 0 {
        None
    } else {
        Some(next)
    }
}

/// Copies the second cell of the character at a place, if it has one: that is shown with the first. Returns the last place that it takes.
fn copy_second(before: &mut [Cell], after: &[Cell], at: usize) -> usize
    requires length { length before.old ≡ length after.now }
    requires at { at < length after.now }
    requires paired { ArePaired false after.now }
    ensures value { result ≡ last_place at (get_or after.now at blank) }
    ensures bound { result < length after.now }
    ensures length { length before.new ≡ length after.now }
    ensures copied { (k : ℕ) → at < k → k ≤ result → get_or before.new k blank ≡ get_or after.now k blank }
    ensures others { (k : ℕ) → (k ≤ at) ⊎ (result < k) → get_or before.new k blank ≡ get_or before.old k blank }
{
    let next = at + 1;
    if next < after.len() && is_covered(&after[next]) {
        before[next] = after[next];
        return next;
    }
    at
}

/// Begins a frame.
fn put_first<W: io::Write>(writer: &mut W, pen: &mut Pen, start: Start)
    ensures { PutsStrokes (first_strokes start) (W.contents writer.old) pen.old (W.contents writer.new) pen.new }
{
    match start {
        Start::Nothing => {
            put(writer, pen, Stroke::Begin);
            put(writer, pen, Stroke::Style(ContentStyle::new()));
            put(writer, pen, Stroke::Erase);
        }
        Start::Cells => put(writer, pen, Stroke::Begin),
        Start::All(_) => {}
    }
}

/// Begins a frame, paints each cell that has to be printed, and no other but few between them in place of a move, and turns the cells before into
/// the ones after. Returns what is known then: the cursor's place and the style that is set.
fn scan<W: io::Write>(
    writer: &mut W,
    pen: &mut Pen,
    start: Start,
    size: (u16, u16),
    before: &mut [Cell],
    after: &[Cell],
) -> (Option<usize>, Option<PackedStyle>)
    requires before { IsSized start size.0 size.1 before.old }
    requires length { length after.now ≡ size.0 * size.1 }
    requires fits { All IsPlaced after.now }
    requires before_paired { ArePaired false before.old }
    requires after_paired { ArePaired false after.now }
    requires rows { StayInRows size.0 after.now }
    ensures strokes { (strokes : List Stroke) × Visited start size.0 size.1 before.old after.now result.0 result.1 strokes × AreFitting start strokes
        × PutsStrokes strokes (W.contents writer.old) pen.old (W.contents writer.new) pen.new }
    ensures shown { before.new ≡ after.now }
{
    let (width, _) = size;
    let mut cursor = start.cursor();
    let mut style = start.style();
    put_first(writer, pen, start);
    let mut at = next_difference(before, after, 0);
    while at < after.len() {
        let cell = &after[at];
        before[at] = *cell;
        if !is_covered(cell) {
            // A copy is lent, so that `style` itself may stay in registers.
            let lent = style;
            let there = approach(writer, pen, after, cursor, &lent, at, width);
            let setting = setting_of(style, &cell.packed_style());
            paint(writer, pen, there, &setting, at, size, cell);
            style = Some(cell.packed_style());
            at = copy_second(before, after, at);
            cursor = right_of(at, width);
        }
        at = next_difference(before, after, at + 1);
    }
    (cursor, style)
}

/// Puts the cursor at the place that was asked for.
fn put_cursor<W: io::Write>(writer: &mut W, pen: &mut Pen, cursor: Option<(u16, u16)>)
    ensures { PutsStrokes (cursor_strokes cursor) (W.contents writer.old) pen.old (W.contents writer.new) pen.new }
{
    match cursor {
        None => put(writer, pen, Stroke::Hide),
        Some(asked) => {
            put(writer, pen, Stroke::Move(asked.0, asked.1));
            put(writer, pen, Stroke::Show);
        }
    }
}

/// Ends a frame.
fn put_last<W: io::Write>(writer: &mut W, pen: &mut Pen, cursor: Option<(u16, u16)>)
    ensures { PutsStrokes (last_strokes cursor) (W.contents writer.old) pen.old (W.contents writer.new) pen.new }
{
    put(writer, pen, Stroke::Style(ContentStyle::new()));
    put_cursor(writer, pen, cursor);
    put(writer, pen, Stroke::End);
}

/// Writes the strokes that turn cells that are shown, or any if they aren't known, into others, on the whole screen or in the cursor's row.
pub(crate) fn write_frame<W: io::Write>(
    writer: &mut W,
    colors: ColorOutput,
    in_row: bool,
    is_known: bool,
    size: (u16, u16),
    before: &mut [Cell],
    after: &[Cell],
    cursor: Option<(u16, u16)>,
) -> Result<(), CommandFault>
    requires before { IsSized (start_by is_known) size.0 size.1 before.old }
    requires length { length after.now ≡ size.0 * size.1 }
    requires fits { All IsPlaced after.now }
    requires before_paired { ArePaired false before.old }
    requires after_paired { ArePaired false after.now }
    requires rows { StayInRows size.0 after.now }
    requires cursor { IfSome cursor (λ place. (place.0 < size.0) × (place.1 < size.1)) }
    ensures ok { OnOk result ((strokes : List Stroke) × Planned is_known size.0 size.1 before.old after.now cursor strokes × AreFitting (start_by is_known) strokes
        × Appends (W.contents writer.old) (W.contents writer.new) (text_of (written_of in_row colors strokes))) }
    ensures err { OnErr result ((strokes : List Stroke) × Planned is_known size.0 size.1 before.old after.now cursor strokes × AreFitting (start_by is_known) strokes
        × AppendsFront (W.contents writer.old) (W.contents writer.new) (text_of (written_of in_row colors strokes))) }
    ensures shown { before.new ≡ after.now }
{
    let mut pen = Pen::new(colors, in_row);
    scan(writer, &mut pen, Start::of(is_known), size, before, after);
    put_last(writer, &mut pen, cursor);
    match finish(writer, &mut pen) {
        Ok(()) => Ok(()),
        Err(fault) => Err(fault),
    }
}

/// Ends a frame of which all was known when it began: the cursor goes to a column of the only row and the plain style is set, unless that is so.
/// In place of a move a few cells may be printed again, as in `scan`.
fn put_stop<W: io::Write>(
    writer: &mut W,
    pen: &mut Pen,
    cursor: Option<usize>,
    style: Option<PackedStyle>,
    after: &[Cell],
    column: u16,
)
    requires { column ≤ length after.now }
    ensures { (cells : List CellValue) × (there : Bool) × (how : Setting) × Approaches after.now cursor style column column cells there
        × Sets style no_style how × HasByteColors how
        × PutsStrokes (again_strokes cells ++ stop_strokes there how column) (W.contents writer.old) pen.old (W.contents writer.new) pen.new }
{
    let plain = PackedStyle::new(&ContentStyle::new());
    let setting = setting_of(style, &plain);
    let there = cross(
        writer,
        pen,
        after,
        cursor,
        &style,
        usize::from(column),
        column,
    );
    put_move(writer, pen, there, (column, 0));
    put_style(writer, pen, &setting);
}

/// Puts the strokes that turn the cells of a row into others, if the cursor is still shown in the column in which the last frame left it, and the
/// plain style is set.
pub(crate) fn put_next<W: io::Write>(
    writer: &mut W,
    pen: &mut Pen,
    width: u16,
    before: &mut [Cell],
    after: &[Cell],
    from: u16,
    column: u16,
)
    requires before { length before.old ≡ width * 1 }
    requires length { length after.now ≡ width * 1 }
    requires fits { All IsPlaced after.now }
    requires before_paired { ArePaired false before.old }
    requires after_paired { ArePaired false after.now }
    requires rows { StayInRows width after.now }
    requires column { column < width }
    ensures strokes { (strokes : List Stroke) × PlannedNext width before.old after.now from column strokes × AreFitting (start.All from) strokes
        × PutsStrokes strokes (W.contents writer.old) pen.old (W.contents writer.new) pen.new }
    ensures shown { before.new ≡ after.now }
{
    let start = Start::All(usize::from(from));
    let (cursor, style) = scan(writer, pen, start, (width, 1), before, after);
    put_stop(writer, pen, cursor, style, after, column);
}

/// Writes these strokes.
pub(crate) fn write_next<W: io::Write>(
    writer: &mut W,
    colors: ColorOutput,
    width: u16,
    before: &mut [Cell],
    after: &[Cell],
    from: u16,
    column: u16,
) -> Result<(), CommandFault>
    requires before { length before.old ≡ width * 1 }
    requires length { length after.now ≡ width * 1 }
    requires fits { All IsPlaced after.now }
    requires before_paired { ArePaired false before.old }
    requires after_paired { ArePaired false after.now }
    requires rows { StayInRows width after.now }
    requires column { column < width }
    ensures ok { OnOk result ((strokes : List Stroke) × PlannedNext width before.old after.now from column strokes × AreFitting (start.All from) strokes
        × Appends (W.contents writer.old) (W.contents writer.new) (text_of (written_of true colors strokes))) }
    ensures err { OnErr result ((strokes : List Stroke) × PlannedNext width before.old after.now from column strokes × AreFitting (start.All from) strokes
        × AppendsFront (W.contents writer.old) (W.contents writer.new) (text_of (written_of true colors strokes))) }
    ensures shown { before.new ≡ after.now }
{
    let mut pen = Pen::new(colors, true);
    put_next(writer, &mut pen, width, before, after, from, column);
    match finish(writer, &mut pen) {
        Ok(()) => Ok(()),
        Err(fault) => Err(fault),
    }
}
