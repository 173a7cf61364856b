//! Paints a small table: a styled heading, rows in turn on two backgrounds, and figures whose colour distinguishes a rise from a fall.
//!
//! `example table` runs it, without colours if `NO_COLOR` is set. The screen is shown at once, when all of it is written.

use crossterm::cursor::{Hide, MoveTo, Show};
use crossterm::style::{
    Attribute, Color, ColorOutput, ContentStyle, Print, PrintStyledContent, ResetColor,
    SetAttribute, SetForegroundColor, SetStyle, Stylize,
};
use crossterm::terminal::{Clear, ClearType};
use crossterm::{QueueableCommand, SynchronizedUpdate, execute, queue};
use std::alloc::Alloc;
use std::env::{self, Env};
use std::io::{self, Write};

/// A row of the table: a price in pence, and by how much it changed.
struct Row {
    name: &'static str,
    price: u32,
    change: i32,
}

static ROWS: [Row; 3] = [
    Row {
        name: "tea",
        price: 195,
        change: 4,
    },
    Row {
        name: "coffee",
        price: 310,
        change: -12,
    },
    Row {
        name: "cocoa",
        price: 260,
        change: 0,
    },
];

fn color_of(change: i32) -> Color {
    match change {
        0 => Color::Grey,
        1.. => Color::Green,
        _ => Color::Red,
    }
}

fn back_of(line: u16) -> Color {
    if line % 2 == 0 {
        Color::AnsiValue(236)
    } else {
        Color::Rgb {
            r: 20,
            g: 20,
            b: 40,
        }
    }
}

fn paint_row<W: Write>(w: &mut W, colors: ColorOutput, line: u16, row: &Row) -> io::Result<()> {
    let Row {
        name,
        price,
        change,
    } = *row;
    let style = ContentStyle::new().white().on(back_of(line));
    queue!(
        w,
        colors,
        MoveTo(2, line),
        SetStyle(style),
        Print(format_args!("{name:<10}{price:>6}")),
        SetForegroundColor(color_of(change)),
        SetAttribute(Attribute::Bold),
        Print(format_args!("{change:>+6}")),
        ResetColor
    )
}

fn paint<W: Write>(w: &mut W, colors: ColorOutput) -> io::Result<()> {
    queue!(w, colors, Hide, Clear(ClearType::All), MoveTo(2, 0))?;
    let heading = "name       price change".bold().underlined().on_dark_blue();
    queue!(w, colors, PrintStyledContent(heading))?;
    let mut line = 1u16;
    for row in &ROWS {
        paint_row(w, colors, line, row)?;
        line = line.saturating_add(1);
    }
    execute!(w, colors, MoveTo(0, line), Show)
}

/// Whether there are colours, by the environment.
fn colors(rt: &(impl Env + Alloc)) -> ColorOutput {
    match env::var(rt, "NO_COLOR") {
        Ok(value) => ColorOutput::from_no_color(Some(value.as_str())),
        Err(_) => ColorOutput::Enabled,
    }
}

/// Paints the table. Give it a writer with a buffer: without one each command is a write of its own.
///
/// # Errors
///
/// The writer's.
pub fn run<W: Write>(rt: &(impl Env + Alloc), out: &mut W) -> io::Result<()> {
    let colors = colors(rt);
    out.sync_update(|w| paint(w, colors))?
}
