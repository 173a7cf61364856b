//! Frames of a screen of cells, each of which turns one of two pictures into the other.

use crate::bench::input::print;
use crate::bench::timing::{Work, least};
use crate::fault::Fault;
use crossterm::style::{Attribute, Attributes, Color, ColorOutput, ContentStyle};
use screen::{Buffer, Screen};
use std::alloc::Allocator;
use std::io::{self, Write};
use std::mem;
use std::rt::Clock;

const COLUMNS: u8 = 200;

const ROWS: u8 = 50;

/// How many cells a frame has.
const CELLS: usize = 10_000;

const IDEOGRAPHS: [char; 10] = ['日', '本', '語', '中', '文', '字', '漢', '国', '水', '火'];

/// How the two pictures differ.
#[derive(Clone, Copy)]
pub enum Case {
    /// In all cells, each of which has a character and colours of its own.
    All,
    /// In one cell of a hundred, in a text whose words have styles, as in the cases below.
    Few,
    /// By a line that the text is scrolled.
    Line,
    /// In one cell.
    One,
    /// In all characters, each of which takes two columns.
    Wide,
}

fn colored(foreground: Color, background: Option<Color>) -> ContentStyle {
    ContentStyle {
        foreground_color: Some(foreground),
        background_color: background,
        underline_color: None,
        attributes: Attributes::none(),
    }
}

fn word_style(number: u16) -> ContentStyle {
    match number / 8 % 4 {
        0 => ContentStyle::new(),
        1 => colored(Color::Green, None),
        2 => colored(Color::Yellow, Some(Color::DarkBlue)),
        _ => ContentStyle {
            attributes: Attributes::none().with(Attribute::Bold),
            ..colored(Color::Cyan, None)
        },
    }
}

impl Case {
    /// The case of a name.
    pub fn named(name: &str) -> Option<Case> {
        match name {
            "all" => Some(Case::All),
            "few" => Some(Case::Few),
            "line" => Some(Case::Line),
            "one" => Some(Case::One),
            "wide" => Some(Case::Wide),
            _ => None,
        }
    }

    /// How much a cell's number grows from the first picture to the second one. It gives the character and the style.
    fn growth(self, cell: u16) -> u16 {
        match self {
            Case::All | Case::Wide => 1,
            Case::Few => u16::from(cell % 100 == 0),
            Case::Line => u16::from(COLUMNS),
            Case::One => u16::from(cell == 0),
        }
    }

    fn symbol(self, number: u16) -> char {
        match self {
            Case::Wide => IDEOGRAPHS[(number % 10) as usize],
            _ => char::from(b'a' + (number % 26) as u8),
        }
    }

    fn style(self, number: u16) -> ContentStyle {
        match self {
            Case::All => {
                let background = Color::AnsiValue((number / 2 % 256) as u8);
                colored(Color::AnsiValue((number % 256) as u8), Some(background))
            }
            _ => word_style(number),
        }
    }

    /// Sets a cell of one of the pictures, but the second one of a character.
    fn set<A: Allocator>(
        self,
        buffer: &mut Buffer<A>,
        (column, row): (u8, u8),
        is_second: bool,
    ) -> io::Result<()> {
        if matches!(self, Case::Wide) && column % 2 == 1 {
            return Ok(());
        }
        let cell = u16::from(row) * u16::from(COLUMNS) + u16::from(column);
        let growth = if is_second { self.growth(cell) } else { 0 };
        let number = cell.wrapping_add(growth);
        let (symbol, style) = (self.symbol(number), self.style(number));
        buffer.set(u16::from(column), u16::from(row), symbol, style)?;
        Ok(())
    }

    /// One of the pictures.
    fn picture<A: Allocator>(self, alloc: A, is_second: bool) -> io::Result<Buffer<A>> {
        let mut buffer = Buffer::new(alloc, u16::from(COLUMNS), u16::from(ROWS))?;
        for row in 0..ROWS {
            for column in 0..COLUMNS {
                self.set(&mut buffer, (column, row), is_second)?;
            }
        }
        Ok(buffer)
    }
}

/// A screen that shows the two pictures in turn, the one of the next frame and the other one, and the memory that frames are written into.
#[derive(Drop)]
struct Drawing<A: Allocator> {
    screen: Screen<A>,
    next: Buffer<A>,
    other: Buffer<A>,
    bytes: Vec<u8, A>,
}

impl<A: Allocator + Clone> Drawing<A> {
    fn new(alloc: A, case: Case) -> io::Result<Drawing<A>> {
        Ok(Drawing {
            screen: Screen::new(alloc.clone()?, u16::from(COLUMNS), u16::from(ROWS))?,
            next: case.picture(alloc.clone()?, false)?,
            other: case.picture(alloc.clone()?, true)?,
            bytes: Vec::new(alloc),
        })
    }

    fn draw(&mut self) -> io::Result<()> {
        self.bytes.clear();
        self.screen
            .draw(&mut self.bytes, ColorOutput::Enabled, &self.next, None)?;
        mem::swap(&mut self.next, &mut self.other);
        Ok(())
    }
}

impl<A: Allocator + Clone> Work for Drawing<A> {
    fn run(&mut self) -> Result<(), Fault> {
        match self.draw() {
            Ok(()) => Ok(()),
            Err(error) => Err(Fault::of_write(&error)),
        }
    }
}

fn prepare<A: Allocator + Clone>(alloc: A, case: Case) -> Result<Drawing<A>, Fault> {
    match Drawing::new(alloc, case) {
        Ok(drawing) => Ok(drawing),
        Err(error) => Err(Fault::of_write(&error)),
    }
}

/// Prints how many bytes the frame from the first picture to the second one has.
pub fn count<A: Allocator + Clone, W: Write>(
    alloc: A,
    case: Case,
    writer: &mut W,
) -> Result<(), Fault> {
    let mut drawing = prepare(alloc, case)?;
    drawing.run()?;
    drawing.run()?;
    let count = drawing.bytes.len();
    print(writer, format_args!("bytes {count}"))
}

/// Prints the least time of a cell in a frame.
pub fn time<C: Clock, A: Allocator + Clone, W: Write>(
    clock: &C,
    alloc: A,
    case: Case,
    writer: &mut W,
) -> Result<(), Fault> {
    let mut drawing = prepare(alloc, case)?;
    let nanos = least(clock, &mut drawing, CELLS)?;
    print(writer, format_args!("ns a cell {nanos}"))
}
