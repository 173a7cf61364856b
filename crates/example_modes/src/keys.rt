//! Key bindings: it reads lines as `ctrl-x ctrl-s = save`, and shows the action of the keys that are typed, or that a key isn't bound.
//!
//! `example keys FILE` runs it in a terminal with the bindings of a file; without one it has some of its own. Keys that may become a bound
//! list are shown while they wait, a second at most. Esc, Ctrl-C, Ctrl-D or the action `quit` ends it.

mod bindings;

use crossterm::cursor::MoveToColumn;
use crossterm::event::{KeyCode, KeyEvent, KeyModifiers, KeyboardEnhancementFlags};
use crossterm::style::ColorOutput;
use crossterm::terminal::{Clear, ClearType};
use crossterm::{QueueableCommand, queue};
use keymap::{Keymap, Matcher, Outcome, Spelled};
use own_terminal::{Feature, Tty};
use std::alloc::Global;
use std::fs::{self, Files};
use std::io::{self, ErrorKind, Write};
use std::sync::Wait;
use std::time::Duration;

const COLORS: ColorOutput = ColorOutput::Enabled;

/// The bindings if no file is named.
const BINDINGS: &str = "g = go\ng g = top\nctrl-x ctrl-s = save\nctrl-x ctrl-c = quit\n";

/// Binds each line that isn't empty, and says which ones can't be bound, and why.
fn read_keymap<W: Write>(alloc: Global, text: &str, out: &mut W) -> io::Result<Keymap> {
    let mut keymap = Keymap::new(alloc);
    for (before, line) in text.lines().enumerate() {
        if line.trim().is_empty() {
            continue;
        }
        if let Err(fault) = bindings::bind_line(alloc, &mut keymap, line) {
            write!(out, "line {}: {fault}\r\n", before.saturating_add(1))?;
        }
    }
    Ok(keymap)
}

fn is_quit(key: &KeyEvent) -> bool {
    let is_letter = matches!(key.code, KeyCode::Char('c' | 'd'));
    key.code == KeyCode::Esc || is_letter && key.modifiers == KeyModifiers::CONTROL
}

/// Shows an action, and returns whether it is the last one.
fn show_action<W: Write>(out: &mut W, action: &str) -> io::Result<bool> {
    write!(out, "{action}\r\n")?;
    Ok(action == "quit")
}

/// Shows a key that isn't bound, and returns whether it is the last one.
fn show_key<W: Write>(out: &mut W, key: KeyEvent) -> io::Result<bool> {
    write!(out, "{} isn't bound\r\n", Spelled(key))?;
    Ok(is_quit(&key))
}

/// Shows an outcome on a line of its own, and returns whether it is the last one.
fn show<W: Write>(out: &mut W, matcher: &Matcher, outcome: Option<Outcome>) -> io::Result<bool> {
    match outcome {
        Some(Outcome::Action(number)) => {
            show_action(out, matcher.keymap().action(number).unwrap_or(""))
        }
        Some(Outcome::Key(key)) => show_key(out, key),
        Some(Outcome::Event(_)) | None => Ok(false),
    }
}

/// Shows the next outcome in place of the keys that waited, and then those that wait now. If none waits there is no hurry. Returns whether
/// it was the last outcome.
fn turn(rt: &impl Wait, tty: &mut Tty<'_>, matcher: &mut Matcher) -> io::Result<bool> {
    let is_waiting = !matcher.undecided().is_empty();
    let limit = is_waiting.then_some(Duration::from_secs(1));
    let next = matcher.step(rt, &tty.reader, &mut tty.pass, limit, &mut tty.clock)?;
    queue!(tty.out, COLORS, MoveToColumn(0))?;
    queue!(tty.out, COLORS, Clear(ClearType::UntilNewLine))?;
    let is_over = show(&mut tty.out, matcher, next)?;
    for key in matcher.undecided() {
        write!(tty.out, "{} ", Spelled(*key))?;
    }
    tty.out.flush()?;
    Ok(is_over)
}

/// Shows outcomes until the last one, or the end of input. There the keys that wait are flushed.
fn show_all(rt: &impl Wait, tty: &mut Tty<'_>, matcher: &mut Matcher) -> io::Result<()> {
    for _ in rt.forever() {
        match turn(rt, tty, matcher) {
            Ok(true) => break,
            Ok(false) => {}
            Err(error) if error.kind() == ErrorKind::UnexpectedEof => {
                if matcher.undecided().is_empty() {
                    break;
                }
                matcher.flush()?;
            }
            Err(error) => return Err(error),
        }
    }
    Ok(())
}

/// Raw mode, and releases of keys if the terminal reports them.
fn enter(rt: &impl Wait, tty: &mut Tty<'_>) -> io::Result<()> {
    tty.enable_raw_mode()?;
    if tty.supports_keyboard_enhancement(rt).unwrap_or(false) {
        let flags = KeyboardEnhancementFlags::DISAMBIGUATE_ESCAPE_CODES
            | KeyboardEnhancementFlags::REPORT_EVENT_TYPES;
        tty.turn_on(Feature::Keyboard(flags))?;
    }
    Ok(())
}

/// Shows what keys are bound to, by the bindings of a file, or by some of its own.
///
/// # Errors
///
/// Those of the file, of the terminal and its writer, but for the end of input, and `OutOfMemory` if memory was refused. A line that can't
/// be bound is shown, and is no error.
pub fn run<R: AllocGlobal + Files + Wait>(
    rt: &R,
    tty: &mut Tty<'_>,
    file: Option<&str>,
) -> io::Result<()> {
    let keymap = match file {
        Some(file) => {
            let text = fs::read_to_string(rt, file)?;
            read_keymap(tty.alloc, text.as_str(), &mut tty.out)?
        }
        None => read_keymap(tty.alloc, BINDINGS, &mut tty.out)?,
    };
    let mut matcher = Matcher::passing(tty.alloc, keymap);
    enter(rt, tty)?;
    show_all(rt, tty, &mut matcher)
}
