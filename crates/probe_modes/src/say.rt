//! `probe say`: commands by their names, and their bytes.

mod looks;
mod words;

use crate::fault::{Fault, Wrong};
use crate::input::{Lines, divided};
use crossterm::style::ColorOutput;
use crossterm::{AnyCommand, queue_all};
use std::alloc::{AllocError, Allocator};
use std::io::{self, Read, Write};
use std::mem;
use words::command;

/// Commands in a row for which colours are written, or aren't.
#[derive(Drop)]
struct Passage<A: Allocator> {
    colors: ColorOutput,
    commands: Vec<AnyCommand<A>, A>,
}

impl<A: Allocator + Clone> Passage<A> {
    fn new(alloc: &A, colors: ColorOutput) -> Result<Passage<A>, AllocError> {
        let commands = Vec::new(alloc.clone()?);
        Ok(Passage { colors, commands })
    }
}

/// What all lines say: the passages that are over, and the last one.
#[derive(Drop)]
struct Speech<A: Allocator> {
    over: Vec<Passage<A>, A>,
    last: Passage<A>,
}

impl<A: Allocator + Clone> Speech<A> {
    fn new(alloc: &A) -> Result<Speech<A>, AllocError> {
        let over = Vec::new(alloc.clone()?);
        let last = Passage::new(alloc, ColorOutput::Enabled)?;
        Ok(Speech { over, last })
    }

    /// Adds a command to the last passage.
    fn add(&mut self, command: AnyCommand<A>) -> Result<(), AllocError> {
        self.last.commands.push(command)?;
        Ok(())
    }

    /// Begins a new passage.
    fn switch(&mut self, alloc: &A, colors: ColorOutput) -> Result<(), AllocError> {
        let next = Passage::new(alloc, colors)?;
        self.over.push(mem::replace(&mut self.last, next))?;
        Ok(())
    }
}

/// What `colors` is followed by.
fn colors(rest: Option<&str>) -> Result<ColorOutput, Wrong> {
    match rest {
        Some("on") => Ok(ColorOutput::Enabled),
        Some("off") => Ok(ColorOutput::Disabled),
        _ => Err(Wrong::Argument),
    }
}

impl<A: Allocator + Clone> Lines<A> for Speech<A> {
    fn add_line(&mut self, alloc: &A, line: &str) -> Result<(), Wrong> {
        let (word, rest) = divided(line);
        if word == "colors" {
            return Ok(self.switch(alloc, colors(rest)?)?);
        }
        let command = command(alloc, word, rest)?;
        Ok(self.add(command)?)
    }
}

fn write<A: Allocator, W: Write>(writer: &mut W, speech: &Speech<A>) -> io::Result<()> {
    for passage in speech.over.as_slice() {
        queue_all(writer, passage.colors, passage.commands.as_slice())?;
    }
    queue_all(writer, speech.last.colors, speech.last.commands.as_slice())?;
    writer.flush()
}

/// Reads lines, checks them all, and writes the bytes of the commands that they name.
///
/// # Errors
///
/// `TooLong`, `NotUtf8`, `UnknownWord` and `BadArgument` come before anything is written, `ReadFailed` and `WriteFailed` if the reader or
/// the writer failed, `OutOfMemory` if memory was refused.
pub fn run_say<A: Allocator + Clone, R: Read, W: Write>(
    alloc: A,
    reader: &mut R,
    writer: &mut W,
) -> Result<(), Fault> {
    let mut speech = Speech::new(&alloc)?;
    speech.read(&alloc, reader)?;
    match write(writer, &speech) {
        Ok(()) => Ok(()),
        Err(error) => Err(Fault::of_write(&error)),
    }
}
