//! A shell of seven commands: its words are completed at Tab and listed at a second Tab, have hints, and its history is kept in a file.
//!
//! `example shell FILE` runs it in a terminal; `quit`, or Ctrl-D in an empty line, ends it. `password` asks for a line that nobody is to read, and
//! `later` prints words above the line that is written meanwhile. The history is read from the file at the start, and
//! each line is appended to it as soon as it is accepted, so that none is lost, however the shell ends. Only its owner may read a file that is
//! made. One that can't be written is named once, and the shell goes on.

use crossterm::cursor::MoveTo;
use crossterm::style::{ColorOutput, Stylize};
use crossterm::terminal::{Clear, ClearType};
use crossterm::{QueueableCommand, queue};
use line_editor::{Editor, Limits, Mask};
use own_terminal::{Feature, Tty};
use prompt::{HistoryFile, HistoryTrouble, LockFile, Printer, Prompt, Read, Words};
use std::fs::Files;
use std::io::{self, ErrorKind, Write};
use std::sync::Wait;
use std::thread::{self, Threads};
use std::time::{Clock, Duration};

const COLORS: ColorOutput = ColorOutput::Enabled;

/// The names of the commands.
const COMMANDS: [&str; 7] = [
    "help", "echo", "history", "clear", "later", "password", "quit",
];

const HELP: &str = "help, echo WORDS, history, clear, later SECONDS WORDS, password, quit";

/// Prints lines, each with a carriage return.
fn print<W: Write>(out: &mut W, text: &str) -> io::Result<()> {
    for line in text.lines() {
        write!(out, "{line}\r\n")?;
    }
    Ok(())
}

/// Does what a line says. Returns whether the shell goes on.
fn obey<W: Write>(out: &mut W, editor: &Editor, line: &str) -> io::Result<bool> {
    let (name, words) = line.split_once(' ').unwrap_or((line, ""));
    match name {
        "" => {}
        "help" => print(out, HELP)?,
        "echo" => write!(out, "{words}\r\n")?,
        "history" => print(out, editor.history_text()?.as_str())?,
        "clear" => queue!(out, COLORS, Clear(ClearType::All), MoveTo(0, 0))?,
        "quit" => return Ok(false),
        _ => write!(out, "{name} is no command: {HELP}\r\n")?,
    }
    Ok(true)
}

/// Asks for a line that nobody is to read, and says how many characters it has.
fn ask_password<R: Wait>(rt: &R, tty: &mut Tty<'_>) -> io::Result<()> {
    let read = Prompt::new("Password: ").read_hidden(rt, tty, Mask::Stars)?;
    match read {
        Read::Line(text) => {
            let count = text.as_str().chars().count();
            write!(tty.out, "It has {count} characters.\r\n")
        }
        Read::Interrupted | Read::Closed => Ok(()),
    }
}

/// Prints words above the line after so many seconds, from another thread.
fn print_later<R: Clock + Threads + Wait + Copy + Send + Drop + 'static>(
    rt: &R,
    tty: &mut Tty<'_>,
    printer: &Printer,
    words: &str,
) -> io::Result<()> {
    let (seconds, words) = words.split_once(' ').unwrap_or((words, ""));
    let Ok(seconds) = seconds.parse::<u64>() else {
        return write!(tty.out, "later SECONDS WORDS\r\n");
    };
    let text = String::from_str(tty.alloc, words)?;
    let printer = printer.share()?;
    let rt = *rt;
    let thread = thread::spawn(&rt, move || {
        thread::sleep(&rt, Duration::from_secs(seconds));
        // A text for which there is no memory isn't printed.
        let _ = printer.print(&rt, text.as_str());
    });
    match thread {
        Ok(_) => Ok(()),
        Err(_) => Err(io::Error::from(ErrorKind::OutOfMemory)),
    }
}

/// Says what is wrong with the history's file, if something is.
fn say<W: Write>(out: &mut W, file: &str, trouble: Option<HistoryTrouble>) -> io::Result<()> {
    if let Some(trouble) = trouble {
        write!(out, "shell: {file} {trouble}\r\n")?;
    }
    Ok(())
}

/// Reads lines, appends them to the history's file and does what they say, until one ends the shell.
fn obey_all<R: Files + Clock + Threads + Wait + Copy + Send + Drop + 'static>(
    rt: &R,
    tty: &mut Tty<'_>,
    editor: &mut Editor,
    history: &mut HistoryFile<'_>,
    file: &str,
) -> io::Result<()>
where
    R::File: LockFile,
{
    let words = Words::new(&COMMANDS);
    let parts = ["$ ".green()];
    let printer = Printer::new(tty.alloc, tty.waker()?)?;
    let prompt = Prompt::styled(&parts)
        .with_helper(&words)
        .with_printer(&printer);
    for _ in rt.forever() {
        match prompt.read_line(rt, tty, editor)? {
            Read::Line(line) => {
                let trouble = history.append(rt, editor, line.as_str())?;
                say(&mut tty.out, file, trouble)?;
                let text = line.as_str().trim();
                if text == "password" {
                    ask_password(rt, tty)?;
                } else if let Some(words) = text.strip_prefix("later ") {
                    print_later(rt, tty, &printer, words)?;
                } else if !obey(&mut tty.out, editor, text)? {
                    break;
                }
            }
            Read::Interrupted => {}
            Read::Closed => break,
        }
    }
    Ok(())
}

/// Reads lines and does what they say, with the history of a file, until one of them or the end of input ends it.
///
/// # Errors
///
/// Those of the terminal and its writer, but for the end of input, and `OutOfMemory` if memory was refused. A file that can't be read or
/// written is named in the terminal, and is no error.
pub fn run<R: AllocGlobal + Files + Clock + Threads + Wait + Copy + Send + Drop + 'static>(
    rt: &R,
    tty: &mut Tty<'_>,
    file: &str,
) -> io::Result<()>
where
    R::File: LockFile,
{
    let mut editor = Editor::new(tty.alloc, Limits::default())?;
    let mut history = HistoryFile::new(tty.alloc, file);
    let trouble = history.load(rt, &mut editor)?;
    say(&mut tty.out, file, trouble)?;
    tty.turn_on(Feature::BracketedPaste)?;
    match obey_all(rt, tty, &mut editor, &mut history, file) {
        Err(error) if error.kind() != ErrorKind::UnexpectedEof => Err(error),
        _ => Ok(()),
    }
}
