//! Shows each event of the terminal as it comes, a dot for each second of rest, and the cursor's place on the key `c`.
//!
//! `example events` runs it in a terminal; Esc or Ctrl-C ends it.

use crossterm::event::{Event, KeyCode, KeyEvent, KeyModifiers, KeyboardEnhancementFlags};
use own_terminal::{Feature, Tty};
use std::io::{self, ErrorKind, Write};
use std::sync::Wait;
use std::time::Duration;

const HELP: &str =
    "Keys, mouse, focus and pastes show here; c shows the cursor's place, Esc ends.\r\n";

fn is_quit(key: &KeyEvent) -> bool {
    key.code == KeyCode::Esc || *key == KeyEvent::new(KeyCode::Char('c'), KeyModifiers::CONTROL)
}

/// Shows where the cursor is.
fn report_position(rt: &impl Wait, tty: &mut Tty<'_>) -> io::Result<()> {
    let (column, row) = tty.position(rt)?;
    write!(tty.out, "the cursor is in column {column}, row {row}\r\n")
}

/// Shows one event, and returns whether it is the last one.
fn show(rt: &impl Wait, tty: &mut Tty<'_>, event: &Event) -> io::Result<bool> {
    write!(tty.out, "{event:?}\r\n")?;
    let Event::Key(key) = event else {
        return Ok(false);
    };
    if *key == KeyEvent::from(KeyCode::Char('c')) {
        report_position(rt, tty)?;
    }
    Ok(is_quit(key))
}

/// Shows what comes within a second, and returns whether it was the last event.
fn turn(rt: &impl Wait, tty: &mut Tty<'_>) -> io::Result<bool> {
    let is_over = match tty.read_within(rt, Duration::from_secs(1))? {
        Some(event) => show(rt, tty, &event)?,
        None => {
            tty.out.write_all(b".\r\n")?;
            false
        }
    };
    tty.out.flush()?;
    Ok(is_over)
}

/// Turns all reports on.
fn enter(rt: &impl Wait, tty: &mut Tty<'_>) -> io::Result<()> {
    tty.enable_raw_mode()?;
    if tty.supports_keyboard_enhancement(rt).unwrap_or(false) {
        let flags = KeyboardEnhancementFlags::DISAMBIGUATE_ESCAPE_CODES
            | KeyboardEnhancementFlags::REPORT_EVENT_TYPES;
        tty.turn_on(Feature::Keyboard(flags))?;
    }
    tty.turn_on(Feature::BracketedPaste)?;
    tty.turn_on(Feature::FocusChange)?;
    tty.turn_on(Feature::MouseCapture)
}

/// Shows events until the last one, or the end of input.
fn print_events(rt: &impl Wait, tty: &mut Tty<'_>) -> io::Result<()> {
    for _ in rt.forever() {
        match turn(rt, tty) {
            Ok(false) => {}
            Ok(true) => break,
            Err(error) if error.kind() == ErrorKind::UnexpectedEof => break,
            Err(error) => return Err(error),
        }
    }
    Ok(())
}

/// Turns all reports on, and shows events until the last one, or the end of input.
///
/// # Errors
///
/// Those of the terminal and its writer, but for the end of input.
pub fn run(rt: &impl Wait, tty: &mut Tty<'_>) -> io::Result<()> {
    enter(rt, tty)?;
    tty.out.write_all(HELP.as_bytes())?;
    tty.out.flush()?;
    print_events(rt, tty)
}
