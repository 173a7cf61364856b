//! A line editor: it reads lines in raw mode and prints each of them.
//!
//! `example edit` runs it in a terminal; Ctrl-C, or Ctrl-D in an empty line, ends it. The crate `prompt` asks for each line, and for the
//! cursor's place after a resize. Here it is asked for at the start, and a terminal that doesn't answer then isn't asked again. What is typed
//! meanwhile, or between two lines, isn't lost and stays in order.

use crossterm::style::{ColorOutput, Print};
use crossterm::{QueueableCommand, execute, queue};
use line_editor::{Editor, Limits};
use own_terminal::{Feature, Tty};
use prompt::{Prompt, Read};
use std::io::{self, ErrorKind, Write};
use std::sync::Wait;

const COLORS: ColorOutput = ColorOutput::Enabled;

/// A mebibyte in a line, and few lines that are kept.
const LIMITS: Limits = Limits {
    bytes: 1 << 20,
    lines: 100,
    steps: 100,
    kills: 60,
    ignore_dups: false,
    ignore_space: false,
    multiline: false,
};

/// Brings the cursor to a row in which nothing was written. Returns whether the terminal answers where it is.
fn find_row(rt: &impl Wait, tty: &mut Tty<'_>) -> io::Result<bool> {
    match tty.position(rt) {
        Ok((column, _)) => {
            if column > 0 {
                queue!(tty.out, COLORS, Print("\r\n"))?;
            }
            Ok(true)
        }
        Err(error) if error.kind() == ErrorKind::Other => Ok(false),
        Err(error) => Err(error),
    }
}

/// Prints a line with the number of its characters.
fn show(tty: &mut Tty<'_>, line: &str) -> io::Result<()> {
    let count = line.chars().count();
    write!(tty.out, "{count}: {line}\r\n")
}

/// Reads lines and prints each, until a key ends it.
fn edit_all(rt: &impl Wait, tty: &mut Tty<'_>) -> io::Result<()> {
    let mut prompt = Prompt::new("> ");
    if !find_row(rt, tty)? {
        prompt = prompt.without_questions();
    }
    let mut editor = Editor::new(tty.alloc, LIMITS)?;
    for _ in rt.forever() {
        match prompt.read_line(rt, tty, &mut editor)? {
            Read::Line(line) => show(tty, line.as_str())?,
            Read::Interrupted | Read::Closed => break,
        }
    }
    Ok(())
}

/// Reads lines and prints each, until a key or the end of input ends it. Raw mode stays on between them, so that no key is lost.
///
/// # Errors
///
/// Those of the terminal and its writer, but for the end of input, and `OutOfMemory` if memory was refused.
pub fn run(rt: &impl Wait, tty: &mut Tty<'_>) -> io::Result<()> {
    tty.enable_raw_mode()?;
    tty.turn_on(Feature::BracketedPaste)?;
    match edit_all(rt, tty) {
        Err(error) if error.kind() == ErrorKind::UnexpectedEof => {
            execute!(tty.out, COLORS, Print("\r\n"))
        }
        ended => ended,
    }
}
