//! Shows each event of a stream, for which a thread of its own polls the terminal.
//!
//! `example stream` runs it in a terminal; Esc or Ctrl-C ends it.

use crossterm::event::source::DeviceSource;
use crossterm::event::{Event, EventStream, KeyCode, KeyEvent, KeyModifiers};
use futures::StreamExt;
use futures::executor::block_on;
use own_terminal::{Input, Tty};
use std::alloc::AllocGlobal;
use std::io::{self, ErrorKind, Write};
use std::random::RandomSource;
use std::sync::Wait;
use std::time;

fn is_quit(event: &Event) -> bool {
    *event == Event::Key(KeyCode::Esc.into())
        || *event == Event::Key(KeyEvent::new(KeyCode::Char('c'), KeyModifiers::CONTROL))
}

/// Shows events until the last one, or the end of input.
///
/// # Errors
///
/// Those of the terminal and its writer, but for the end of input.
pub fn run<R: AllocGlobal + time::Clock + RandomSource + Wait + Drop>(
    rt: &R,
    tty: &mut Tty<'_, R>,
    events: &mut EventStream<DeviceSource<Input>, R>,
) -> io::Result<()> {
    tty.enable_raw_mode()?;
    tty.out.write_all(b"Keys show here; Esc to end.\r\n")?;
    tty.out.flush()?;
    for _ in rt.forever() {
        match block_on(rt, events.next())? {
            Some(Ok(event)) => {
                write!(tty.out, "{event:?}\r\n")?;
                tty.out.flush()?;
                if is_quit(&event) {
                    break;
                }
            }
            Some(Err(error)) if error.kind() == ErrorKind::UnexpectedEof => break,
            Some(Err(error)) => return Err(error),
            None => break,
        }
    }
    Ok(())
}
