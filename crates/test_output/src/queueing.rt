//! What a command's way to a writer returns and leaves, if the writer takes little or fails, and if the command does.
ghost use Rattle.std.specs.Prelude.{None};

use crate::tape::Tape;
use crossterm::cursor::{MoveTo, Show};
use crossterm::style::ColorOutput;
use crossterm::{
    Command, CommandFault, ExecutableCommand, QueueableCommand, execute, execute_command, queue,
    queue_command, send_command, write_command,
};
use crossterm_command::laws::one_reading;
use std::alloc::Global;
use std::fmt;
use std::io::{self, ErrorKind};
use test_support::expect;

const ON: ColorOutput = ColorOutput::Enabled;

/// Moves the cursor, in several pieces.
#[derive(Clone, Copy)]
struct Pieces(u16, u16);

impl Command for Pieces {
    ghost text = { λ _ _. None };

    fn write_ansi<W: fmt::Write>(&self, f: &mut W, _colors: ColorOutput) -> fmt::Result {
        let row = u32::from(self.1) + 1;
        let column = u32::from(self.0) + 1;
        write!(f, "\x1b[{row};{column}H")
    }
}

/// Fails by itself after `ab`.
#[derive(Clone, Copy)]
struct Torn;

impl Command for Torn {
    ghost text = { λ _ _. None };

    fn write_ansi<W: fmt::Write>(&self, f: &mut W, _colors: ColorOutput) -> fmt::Result {
        f.write_str("ab")?;
        Err(fmt::Error)
    }
}

/// The kind of a call's error.
pub fn kind<T: Drop>(outcome: io::Result<T>) -> Option<ErrorKind> {
    match outcome {
        Ok(_) => None,
        Err(e) => Some(e.kind()),
    }
}

/// A writer: how many bytes it takes a call and in all, what it stops with, and how often it is interrupted.
type Maker = (usize, usize, Option<ErrorKind>, u32);

fn made(alloc: Global, maker: &Maker) -> Tape {
    let (step, room, stop, interrupts) = *maker;
    Tape::with(alloc, step, room, stop, interrupts)
}

/// A writer, a place, and what a move there answers and writes.
type Row = (Maker, (u16, u16), Option<ErrorKind>, &'static [u8]);

const ALL: usize = usize::MAX;

const BROKEN: Option<ErrorKind> = Some(ErrorKind::BrokenPipe);

static ROWS: [Row; 6] = [
    ((1, ALL, None, 0), (65535, 0), None, b"\x1b[1;65536H"),
    ((ALL, 4, BROKEN, 0), (65535, 0), BROKEN, b"\x1b[1;"),
    ((ALL, 4, BROKEN, 0), (0, 0), BROKEN, b"\x1b[1;"),
    ((2, ALL, None, 64), (0, 0), None, b"\x1b[1;1H"),
    (
        (2, ALL, None, 65),
        (0, 0),
        Some(ErrorKind::Interrupted),
        b"",
    ),
    (
        (ALL, 3, None, 0),
        (0, 0),
        Some(ErrorKind::WriteZero),
        b"\x1b[1",
    ),
];

/// Whether a move in one piece answers and writes what a row says.
fn moves(alloc: Global, row: &Row) -> bool {
    let mut tape = made(alloc, &row.0);
    let answer = kind(tape.queue(ON, MoveTo(row.1.0, row.1.1)));
    answer == row.2 && tape.holds(row.3, 0)
}

/// Whether a move in several pieces does.
fn moves_in_pieces(alloc: Global, row: &Row) -> bool {
    let mut tape = made(alloc, &row.0);
    let answer = kind(tape.queue(ON, Pieces(row.1.0, row.1.1)));
    answer == row.2 && tape.holds(row.3, 0)
}

/// A writer, and what a command without parameters answers and writes there.
type ShowRow = (Maker, Option<ErrorKind>, &'static [u8]);

static SHOWS: [ShowRow; 4] = [
    ((1, ALL, None, 0), None, b"\x1b[?25h"),
    ((ALL, ALL, None, 64), None, b"\x1b[?25h"),
    ((ALL, ALL, None, 65), Some(ErrorKind::Interrupted), b""),
    ((ALL, 3, None, 0), Some(ErrorKind::WriteZero), b"\x1b[?"),
];

/// Whether such a command answers and writes what a row says.
fn shows(alloc: Global, row: &ShowRow) -> bool {
    let mut tape = made(alloc, &row.0);
    let answer = kind(tape.queue(ON, Show));
    answer == row.1 && tape.holds(row.2, 0)
}

#[test]
fn writers_take_a_beginning(rt: HostRuntime) {
    for row in &SHOWS {
        expect!(rt; shows(rt.alloc(), row));
    }
    for row in &ROWS {
        expect!(rt; moves(rt.alloc(), row));
        expect!(rt; moves_in_pieces(rt.alloc(), row));
    }
    one_reading();
}

/// Whether a command that fails by itself is reported after what it wrote, on each way.
fn is_torn(alloc: Global) -> bool {
    let mut tape = Tape::new(alloc);
    let w = &mut tape;
    let answers = [
        kind(w.queue(ON, Torn)),
        kind(w.execute(ON, &Torn)),
        kind(queue_command(w, ON, &Torn)),
        kind(execute_command(w, ON, &Torn)),
        kind(queue!(w, ON, Torn)),
        kind(execute!(w, ON, Torn)),
    ];
    let is_text = matches!(send_command(w, ON, &Torn), Err(CommandFault::Text));
    let is_reported = answers
        .iter()
        .all(|answer| *answer == Some(ErrorKind::Other));
    is_text && is_reported && tape.holds(b"ababababababab", 0)
}

/// Whether it is reported alone if the writer fails first.
fn is_torn_after_all(alloc: Global) -> bool {
    let mut tape = Tape::failing_at(alloc, 1);
    let queued = kind(tape.queue(ON, Torn));
    queued == Some(ErrorKind::Other) && tape.holds(b"a", 0)
}

/// Who failed: the writer, the text or both.
fn who_failed<C: Command>(alloc: Global, room: usize, command: &C) -> &'static str {
    let mut tape = Tape::failing_at(alloc, room);
    match write_command(&mut tape, ON, command) {
        Ok(()) => "nobody",
        Err(CommandFault::Writer(_)) => "writer",
        Err(CommandFault::Text) => "text",
        Err(CommandFault::Both(_)) => "both",
        Err(CommandFault::Flush(_)) => "flush",
    }
}

#[test]
fn faults_are_kept_apart(rt: HostRuntime) {
    expect!(rt; is_torn(rt.alloc()));
    expect!(rt; is_torn_after_all(rt.alloc()));
    expect!(rt; who_failed(rt.alloc(), 2, &Pieces(9, 9)) == "writer");
    expect!(rt; who_failed(rt.alloc(), ALL, &Torn) == "text");
    expect!(rt; who_failed(rt.alloc(), 1, &Torn) == "both");
}

/// Whether what is queued isn't flushed, and what is executed is, once.
fn is_flushed_once(alloc: Global) -> bool {
    let mut tape = Tape::new(alloc);
    let queued = queue_command(&mut tape, ON, MoveTo(0, 0)).is_ok() && tape.flushes == 0;
    let executed = execute_command(&mut tape, ON, MoveTo(2, 1)).is_ok();
    queued && executed && tape.holds(b"\x1b[1;1H\x1b[2;3H", 1)
}

/// Whether a flush that fails is reported.
fn is_stuck(alloc: Global) -> bool {
    let mut tape = Tape::new(alloc);
    tape.is_stuck = true;
    let answer = kind(tape.execute(ON, MoveTo(0, 0)));
    let sent = send_command(&mut tape, ON, &MoveTo(2, 1));
    answer == BROKEN
        && matches!(sent, Err(CommandFault::Flush(_)))
        && tape.holds(b"\x1b[1;1H\x1b[2;3H", 0)
}

#[test]
fn what_is_executed_is_flushed(rt: HostRuntime) {
    expect!(rt; is_flushed_once(rt.alloc()));
    expect!(rt; is_stuck(rt.alloc()));
}
