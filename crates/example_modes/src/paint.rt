//! Paints with the mouse, in one's own terminal or, as a server, many guests on one picture.
//!
//! `example paint` runs it in a terminal; Esc ends it. `example paint serve 7000` lets guests of this machine in at a port, by
//! `telnet 127.0.0.1 7000` or `socat -,raw,echo=0 TCP:127.0.0.1:7000`. The end of standard input ends it, and a line `quit`, with a farewell to
//! all. A signal, as Ctrl-C is, ends it with none. A guest who says nothing for a minute has to leave, so that there is room for others;
//! `example paint serve 7000 5` gives them five seconds.

mod canvas;
mod guests;
mod host;
mod painter;
mod telnet;
mod view;

use canvas::Canvas;
use own_terminal::{Feature, Tty};
use painter::{Painter, Wish};
use std::alloc::Global;
use std::io::{self, ErrorKind, Read, Write};
use std::net::Net;
use std::os::fd::AsRawFd;
use std::sync::Wait;
use std::time::Duration;
use view::View;

/// How many seconds a guest may say nothing, if no word says it.
const SILENCE: u32 = 60;

/// Does what the painter wants, and returns whether to go on.
fn fulfil(canvas: &mut Canvas, view: &mut View, wish: Wish) -> bool {
    match wish {
        Wish::Nothing => {}
        Wish::Leave => return false,
        Wish::Paint(dot) => canvas.put(dot),
        Wish::Redraw => view.forget(),
        Wish::Resize(columns, rows) => view.resize(columns, rows),
        Wish::Blank => canvas.blank(),
    }
    true
}

/// Paints until the painter leaves, or the end of input.
fn paint(rt: &impl Wait, tty: &mut Tty<'_>) -> io::Result<()> {
    let mut canvas = Canvas::new(tty.alloc)?;
    let mut view = View::new(tty.alloc)?;
    let mut painter = Painter::new();
    if let Ok((columns, rows)) = tty.size() {
        view.resize(columns, rows);
    }
    for _ in rt.forever() {
        view.draw(&mut tty.out, &canvas)?;
        tty.out.flush()?;
        match tty.read(rt) {
            Ok(event) => {
                if !fulfil(&mut canvas, &mut view, painter.wish(&event)) {
                    break;
                }
            }
            Err(error) if error.kind() == ErrorKind::UnexpectedEof => break,
            Err(error) => return Err(error),
        }
    }
    Ok(())
}

/// Paints in a terminal until Esc or the end of input.
///
/// # Errors
///
/// Those of the terminal and its writer, but for the end of input, and `OutOfMemory` if memory was refused.
pub fn run(rt: &impl Wait, tty: &mut Tty<'_>) -> io::Result<()> {
    tty.enable_raw_mode()?;
    tty.turn_on(Feature::AlternateScreen)?;
    tty.turn_on(Feature::HiddenCursor)?;
    tty.turn_on(Feature::MouseCapture)?;
    paint(rt, tty)
}

/// The seconds that the first of some words says, or `SILENCE` if there is none but the folder of a terminal's pipes.
fn seconds_in(words: &[String]) -> Option<u32> {
    match words.first() {
        Some(word) if !word.as_str().starts_with('/') => word.parse().ok(),
        _ => Some(SILENCE),
    }
}

/// Serves guests at the port that a word names, until the end of `input` or a line `quit` of it. The first of some more words may say how many seconds a guest may say nothing.
///
/// # Errors
///
/// `InvalidInput` if a word is no port, or no number of seconds from 1 on. Else the system's if it can't listen, watch or wait, and
/// `OutOfMemory` if memory was refused at the beginning.
pub fn serve<N: Net + std::rt::Clock, R: Read + AsRawFd + Drop>(
    rt: &N,
    alloc: Global,
    input: R,
    port: &str,
    more: &[String],
) -> io::Result<()> {
    match (port.parse::<u16>(), seconds_in(more)) {
        (Ok(port), Some(seconds)) if seconds > 0 => {
            let silence = Duration::from_secs(u64::from(seconds));
            guests::serve(rt, alloc, input, port, silence)
        }
        _ => Err(io::Error::from(ErrorKind::InvalidInput)),
    }
}
