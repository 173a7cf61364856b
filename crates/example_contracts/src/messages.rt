//! Forms that pass, in the place of those that a Rust programmer writes first. The guide's table of messages is made of them, and
//! `strength/run` tries what each is instead of.

ghost use Rattle.std.specs.Prelude.{◌≤◌, OnOk};
ghost use Rattle.crossterm_read.specs.Shared.{IsPassOf};

use crossterm::cursor::Show;
use crossterm::event::source::EventSource;
use crossterm::event::{Event, EventReader, Pass};
use crossterm::style::{ColorOutput, ContentStyle, Print, PrintStyledContent, SetStyle};
use crossterm::{QueueableCommand, queue};
use std::alloc::Global;
use std::io::{self, ErrorKind, Write};
use std::sync::Wait;
use std::time::Duration;

/// Milliseconds that a key may take.
const LIMIT: u64 = 700;

/// Lines, and how many of them are shown.
#[derive(Drop)]
pub struct Lines {
    items: Vec<u8>,
    shown: usize,
}

impl Lines {
    fn show(&mut self, count: usize) {
        self.shown = count;
    }

    /// Shows all lines.
    pub fn show_all(&mut self) {
        let count = self.items.len();
        self.show(count)
    }

    /// The line at a place, if there is one.
    pub fn line_at(&self, i: usize) -> Option<u8> {
        self.items.get(i).copied()
    }
}

/// Lets the lines go.
pub fn forget(lines: Lines) {
    let _lines = lines;
}

/// The sum of two lengths, or the greatest number.
pub fn both(a: usize, b: usize) -> usize {
    a.saturating_add(b)
}

/// How far a row is below another one, or 0.
pub fn below(row: u16, other: u16) -> u16 {
    row.saturating_sub(other)
}

/// How many cells a window has, or the greatest number.
pub fn area(columns: usize, rows: usize) -> usize {
    columns.saturating_mul(rows)
}

/// A column, if it is one.
pub fn column(n: usize) -> Option<u16> {
    u16::try_from(n).ok()
}

/// The byte at a place, if there is one.
pub fn byte_at(bytes: &[u8], i: usize) -> Option<u8> {
    bytes.get(i).copied()
}

/// Puts a byte at a place, and returns whether there is such a place, and memory.
pub fn put_at(bytes: &mut Vec<u8>, i: usize, byte: u8) -> bool {
    i <= bytes.len() && bytes.insert(i, byte).is_ok()
}

/// The powers of two below a number.
pub fn powers_below(n: u64) -> u32 {
    let mut count = 0u32;
    for _ in 0..u64::MAX {
        if count >= 63 || 1 << count >= n {
            break;
        }
        count += 1;
    }
    count
}

/// How many digits a number has.
pub fn digits(mut n: u64) -> u32 {
    let mut count = 1u32;
    for _ in 0..20 {
        if n < 10 {
            break;
        }
        n /= 10;
        count = count.saturating_add(1);
    }
    count
}

/// How long a key may take.
pub fn limit() -> Duration {
    Duration::from_millis(LIMIT)
}

/// The number, if it is at most so large.
///
/// # Errors
///
/// `InvalidInput` if it is larger.
pub fn at_most(n: u32, most: u32) -> io::Result<u32>
    ensures { OnOk result (n ≤ most) }
{
    if n > most {
        return Err(io::Error::from(ErrorKind::InvalidInput));
    }
    Ok(n)
}

/// The next event of a shared reader.
///
/// # Errors
///
/// Those of `EventReader::read`.
pub fn next_event<S: EventSource<Global>>(
    rt: &impl Wait,
    reader: &EventReader<S>,
    pass: &mut Pass<S>,
) -> io::Result<Event>
    requires { IsPassOf reader.now pass.old }
{
    reader.read(rt, pass)
}

/// Shows the cursor.
///
/// # Errors
///
/// The writer's.
pub fn show<W: Write>(w: &mut W, colors: ColorOutput) -> io::Result<()> {
    queue!(w, colors, Show)
}

/// Prints a text in a style.
fn paint<W: Write>(w: &mut W, text: &str, style: ContentStyle) -> io::Result<()> {
    queue!(
        w,
        ColorOutput::Enabled,
        PrintStyledContent(style.apply(text))
    )
}

/// Prints two texts in one style.
///
/// # Errors
///
/// The writer's.
pub fn paint_two<W: Write>(w: &mut W) -> io::Result<()> {
    let style = &ContentStyle::new();
    paint(w, "a", *style)?;
    paint(w, "b", *style)
}

/// Prints a text in a style, and another one before it if it has a mark.
///
/// # Errors
///
/// The writer's.
pub fn paint_marked<W: Write>(w: &mut W, is_marked: bool) -> io::Result<()> {
    let plain = &ContentStyle::new();
    if is_marked {
        paint(w, "*", *plain)?;
    }
    paint(w, "ab", *plain)
}

/// Sets a style before each of two texts.
///
/// # Errors
///
/// The writer's.
pub fn set_twice<W: Write>(w: &mut W, colors: ColorOutput) -> io::Result<()> {
    let look = &ContentStyle::new();
    queue!(w, colors, SetStyle(*look), Print("a"))?;
    queue!(w, colors, SetStyle(*look), Print("b"))
}
