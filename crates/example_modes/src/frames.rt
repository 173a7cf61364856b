//! Draws frames, as lines say.
//!
//! `example frames < FILE` draws on standard output what the file's lines say:
//!
//! | Line | What it does |
//! |---|---|
//! | `size WIDTH HEIGHT` | gives the screen and the buffer a size; the buffer is blank then |
//! | `print COLUMN ROW FRONT BACK UNDERLINE ATTRIBUTES TEXT` | prints a text into the buffer, in a style |
//! | `draw`, `draw COLUMN ROW` | draws the buffer, with the cursor hidden, or shown at a place |
//! | `forget` | forgets what the terminal shows |
//! | `block WIDTH HEIGHT` | gives the buffer a size, in which it is blank then, and draws a block from now on: another one if the width is another |
//! | `next COLUMN ROW` | draws the block right behind the last frame |
//! | `write TEXT` | writes a text as it is |
//!
//! A colour is given by parameters of SGR, as `5;9` and `2;1;2;3`, or is `default`. An attribute is given by its place in declared order, as `1,11` of bold
//! and reverse. `-` means none. `strength/screens` draws so in a terminal, and compares each cell.

use crossterm::style::{Attribute, Attributes, Color, ColorOutput, ContentStyle};
use screen::{Block, Buffer, CellFault, DrawFault, Screen};
use std::alloc::{AllocError, Global};
use std::io::{self, BufRead, Eprint, ErrorKind, Write};
use thiserror::Error;

/// Why a line isn't done.
#[derive(Debug, Drop, Error)]
enum Wrong {
    /// It is no line of the table, or a part of it is none.
    #[error("no such line")]
    Words,
    #[error("it isn't printed: {0}")]
    Cell(CellFault),
    #[error("it isn't drawn: {0}")]
    Draw(DrawFault),
    #[error("it isn't written: {0}")]
    Write(io::Error),
    #[error("out of memory")]
    Memory,
}

impl From<AllocError> for Wrong {
    fn from(_: AllocError) -> Wrong {
        Wrong::Memory
    }
}

/// A word, and what follows the blank after it.
fn cut(words: &str) -> Result<(&str, &str), Wrong> {
    words.split_once(' ').ok_or(Wrong::Words)
}

fn number(word: &str) -> Result<u16, Wrong> {
    word.parse().ok().ok_or(Wrong::Words)
}

fn pair(words: &str) -> Result<(u16, u16), Wrong> {
    let (first, second) = cut(words)?;
    Ok((number(first)?, number(second)?))
}

fn color(word: &str) -> Result<Option<Color>, Wrong> {
    match word {
        "-" => Ok(None),
        "default" => Ok(Some(Color::Reset)),
        _ => Ok(Some(Color::parse_ansi(word).ok_or(Wrong::Words)?)),
    }
}

fn attributes(word: &str) -> Result<Attributes, Wrong> {
    let mut all = Attributes::none();
    if word == "-" {
        return Ok(all);
    }
    for place in word.split(',') {
        let place = usize::from(number(place)?);
        all.set(Attribute::iterator().nth(place).ok_or(Wrong::Words)?);
    }
    Ok(all)
}

/// A style by its colours and attributes.
fn style(front: &str, back: &str, underline: &str, names: &str) -> Result<ContentStyle, Wrong> {
    Ok(ContentStyle {
        foreground_color: color(front)?,
        background_color: color(back)?,
        underline_color: color(underline)?,
        attributes: attributes(names)?,
    })
}

/// A buffer, and the screen or the block that it is drawn on.
#[derive(Drop)]
struct Frames {
    buffer: Buffer,
    screen: Screen,
    block: Block,
    is_block: bool,
}

impl Frames {
    fn new(alloc: Global) -> Result<Frames, AllocError> {
        Ok(Frames {
            buffer: Buffer::new(alloc, 0, 0)?,
            screen: Screen::new(alloc, 0, 0)?,
            block: Block::new(alloc, ColorOutput::Enabled, 0),
            is_block: false,
        })
    }

    fn forget(&mut self) {
        self.screen.forget();
        self.block.forget();
    }

    fn resize(&mut self, words: &str) -> Result<(), Wrong> {
        let (width, height) = pair(words)?;
        self.buffer.resize(width, height)?;
        self.screen.resize(width, height)?;
        self.is_block = false;
        Ok(())
    }

    fn resize_block(&mut self, words: &str) -> Result<(), Wrong> {
        let (width, height) = pair(words)?;
        self.buffer.resize(width, height)?;
        if self.block.width() != width {
            self.block.resize(width);
        }
        self.is_block = true;
        Ok(())
    }

    fn print(&mut self, words: &str) -> Result<(), Wrong> {
        let (column, rest) = cut(words)?;
        let (row, rest) = cut(rest)?;
        let (front, rest) = cut(rest)?;
        let (back, rest) = cut(rest)?;
        let (underline, rest) = cut(rest)?;
        let (names, text) = cut(rest)?;
        let style = style(front, back, underline, names)?;
        let (column, row) = (number(column)?, number(row)?);
        match self.buffer.print(column, row, text, style) {
            Ok(_) => Ok(()),
            Err(fault) => Err(Wrong::Cell(fault)),
        }
    }

    fn draw<W: Write>(&mut self, out: &mut W, words: &str) -> Result<(), Wrong> {
        let cursor = if words.is_empty() {
            None
        } else {
            Some(pair(words)?)
        };
        let drawn = if self.is_block {
            self.block
                .draw(out, &self.buffer, cursor.ok_or(Wrong::Words)?)
        } else {
            self.screen
                .draw(out, ColorOutput::Enabled, &self.buffer, cursor)
        };
        match drawn {
            Ok(()) => Ok(()),
            Err(fault) => Err(Wrong::Draw(fault)),
        }
    }

    fn draw_next<W: Write>(&mut self, out: &mut W, words: &str) -> Result<(), Wrong> {
        match self.block.draw_next(out, &self.buffer, pair(words)?) {
            Ok(()) => Ok(()),
            Err(fault) => Err(Wrong::Draw(fault)),
        }
    }

    /// Does what a line says.
    fn take<W: Write>(&mut self, out: &mut W, line: &str) -> Result<(), Wrong> {
        let (word, rest) = line.split_once(' ').unwrap_or((line, ""));
        match word {
            "size" => self.resize(rest),
            "print" => self.print(rest),
            "draw" => self.draw(out, rest),
            "forget" => {
                self.forget();
                Ok(())
            }
            "block" => self.resize_block(rest),
            "next" => self.draw_next(out, rest),
            "write" => match out.write_all(rest.as_bytes()) {
                Ok(()) => Ok(()),
                Err(error) => Err(Wrong::Write(error)),
            },
            _ => Err(Wrong::Words),
        }
    }
}

/// Draws what each line says, until one that can't be done. Standard error says why.
///
/// # Errors
///
/// `InvalidInput` if a line can't be done, after what the lines before it drew. Else those of the input and the output, and `OutOfMemory`
/// if memory was refused.
pub fn run<I: BufRead + Drop, W: Write>(
    rt: &impl Eprint,
    alloc: Global,
    input: I,
    out: &mut W,
) -> io::Result<()> {
    let mut frames = Frames::new(alloc)?;
    for line in input.lines(alloc) {
        let line = line?;
        if let Err(wrong) = frames.take(out, line.as_str()) {
            eprintln!(rt; "{wrong}: {line}")?;
            return Err(io::Error::new(ErrorKind::InvalidInput, "a line can't be done"));
        }
        out.flush()?;
    }
    Ok(())
}
