//! A frame of commands: each cell of a screen is moved to, coloured, styled and printed.

use crate::bench::input::print;
use crate::bench::timing::{Work, least};
use crate::fault::Fault;
use crossterm::cursor::MoveTo;
use crossterm::style::{Attribute, Color, ColorOutput, Colors, Print, SetAttribute, SetColors};
use crossterm::{QueueableCommand, queue};
use std::alloc::Allocator;
use std::io::{self, Write};
use std::rt::Clock;

const COLUMNS: u8 = 200;

const ROWS: u8 = 50;

/// How many commands a frame has: four for each cell.
const COMMANDS: usize = 40_000;

fn attribute(cell: u16) -> Attribute {
    match cell % 4 {
        0 => Attribute::Reset,
        1 => Attribute::Bold,
        2 => Attribute::Italic,
        _ => Attribute::Underlined,
    }
}

fn write_cell<W: Write>(writer: &mut W, column: u8, row: u8) -> io::Result<()> {
    let cell = u16::from(row) * u16::from(COLUMNS) + u16::from(column);
    let colors = Colors::new(
        Color::AnsiValue((cell % 256) as u8),
        Color::Rgb {
            r: column,
            g: row,
            b: 128,
        },
    );
    let letter = char::from(b'a' + (cell % 26) as u8);
    queue!(
        writer,
        ColorOutput::Enabled,
        MoveTo(u16::from(column), u16::from(row)),
        SetColors(colors),
        SetAttribute(attribute(cell)),
        Print(letter)
    )
}

/// Writes the commands of all cells, row by row.
fn write_frame<W: Write>(writer: &mut W) -> io::Result<()> {
    for row in 0..ROWS {
        for column in 0..COLUMNS {
            write_cell(writer, column, row)?;
        }
    }
    Ok(())
}

/// The memory that frames are written into, one in place of the other.
#[derive(Drop)]
pub struct Screen<A: Allocator> {
    bytes: Vec<u8, A>,
}

impl<A: Allocator> Screen<A> {
    /// No frame is written yet.
    pub fn new(alloc: A) -> Screen<A> {
        Screen {
            bytes: Vec::new(alloc),
        }
    }

    /// The last frame.
    pub fn bytes(&self) -> &[u8] {
        self.bytes.as_slice()
    }
}

impl<A: Allocator> Work for Screen<A> {
    fn run(&mut self) -> Result<(), Fault> {
        self.bytes.clear();
        match write_frame(&mut self.bytes) {
            Ok(()) => Ok(()),
            Err(error) => Err(Fault::of_write(&error)),
        }
    }
}

/// Prints how many bytes and commands a frame has.
pub fn count<A: Allocator, W: Write>(alloc: A, writer: &mut W) -> Result<(), Fault> {
    let mut screen = Screen::new(alloc);
    screen.run()?;
    let count = screen.bytes().len();
    print(writer, format_args!("bytes {count} commands {COMMANDS}"))
}

/// Prints the least time of a command in a frame.
pub fn time<C: Clock, A: Allocator, W: Write>(
    clock: &C,
    alloc: A,
    writer: &mut W,
) -> Result<(), Fault> {
    let mut screen = Screen::new(alloc);
    let nanos = least(clock, &mut screen, COMMANDS)?;
    print(writer, format_args!("ns a command {nanos}"))
}
