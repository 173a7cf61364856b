//! Commands from outside: the macros, updates, lists of commands, and what each command derives.

use crate::queueing::kind;
use crate::tape::Tape;
use crossterm::cursor::{Hide, MoveTo, SetCursorStyle, Show};
use crossterm::event::PopKeyboardEnhancementFlags;
use crossterm::style::{ColorOutput, Print};
use crossterm::terminal::{Clear, ClearType, SetTitle};
use crossterm::{
    AnyCommand, ExecutableCommand, QueueableCommand, SynchronizedUpdate, csi, execute, osc, queue,
    queue_all,
};
use std::alloc::{AllocError, Global};
use std::fmt::Debug;
use std::io::{self, ErrorKind, Write};
use test_support::{expect, is_text};

const ON: ColorOutput = ColorOutput::Enabled;

/// Whether a call failed as the tape does.
fn failed<T: Drop>(outcome: io::Result<T>) -> bool {
    kind(outcome) == Some(ErrorKind::BrokenPipe)
}

/// Whether nothing is queued and executed by the macros, on a writer of its own.
fn none_are_written(alloc: Global) -> bool {
    let mut tape = Tape::new(alloc);
    let queued = queue!(tape, ON).is_ok() && tape.holds(b"", 0);
    queued && execute!(tape, ON).is_ok() && tape.holds(b"", 1)
}

/// Queues a move, a text and an end.
fn queue_three(tape: &mut Tape) -> io::Result<()> {
    queue!(tape, ON, MoveTo(65535, 0), Print("x"), Hide,)
}

/// Executes the same.
fn execute_three(tape: &mut Tape) -> io::Result<()> {
    execute!(tape, ON, MoveTo(65535, 0), Print("x"), Hide,)
}

/// What these write.
const THREE: &[u8] = b"\x1b[1;65536Hx\x1b[?25l";

/// Whether three commands are queued in order, and not flushed.
fn three_are_queued(alloc: Global) -> bool {
    let mut tape = Tape::new(alloc);
    queue_three(&mut tape).is_ok() && tape.holds(THREE, 0)
}

/// Whether three commands are executed in order, and flushed once.
fn three_are_executed(alloc: Global) -> bool {
    let mut tape = Tape::new(alloc);
    execute_three(&mut tape).is_ok() && tape.holds(THREE, 1)
}

#[test]
fn macros_write_their_commands_in_order(rt: HostRuntime) {
    expect!(rt; none_are_written(rt.alloc()));
    expect!(rt; three_are_queued(rt.alloc()));
    expect!(rt; three_are_executed(rt.alloc()));
}

/// Whether the first error stops what is queued after so many bytes.
fn queueing_stops(alloc: Global, room: usize) -> bool {
    let mut tape = Tape::failing_at(alloc, room);
    failed(queue_three(&mut tape)) && tape.holds(&THREE[..room.min(THREE.len())], 0)
}

/// Whether it stops what is executed.
fn executing_stops(alloc: Global, room: usize) -> bool {
    let mut tape = Tape::failing_at(alloc, room);
    failed(execute_three(&mut tape)) && tape.holds(&THREE[..room.min(THREE.len())], 0)
}

#[test]
fn the_first_error_stops_the_rest(rt: HostRuntime) {
    for room in [4, 10, 11] {
        expect!(rt; queueing_stops(rt.alloc(), room));
        expect!(rt; executing_stops(rt.alloc(), room));
    }
}

/// Queues and executes one command after the other.
fn write_by_name(tape: &mut Tape) -> io::Result<()> {
    tape.queue(ON, Show)?.execute(ON, &Hide)?;
    Ok(())
}

#[test]
fn commands_are_written_by_name(rt: HostRuntime) {
    let mut tape = Tape::new(rt.alloc());
    expect!(rt; write_by_name(&mut tape).is_ok());
    expect!(rt; tape.holds(b"\x1b[?25h\x1b[?25l", 1));
}

/// What an update answers that prints, and whether its closure was called.
fn update(tape: &mut Tape) -> (io::Result<u8>, bool) {
    let mut called = false;
    let outcome = tape.sync_update(|w| {
        called = true;
        match queue!(w, ON, Print("x")) {
            Ok(()) => 7,
            Err(_) => 0,
        }
    });
    (outcome, called)
}

/// Whether an update is made between its brackets.
fn is_made(alloc: Global) -> bool {
    let mut tape = Tape::new(alloc);
    let (outcome, called) = update(&mut tape);
    called && matches!(outcome, Ok(7)) && tape.holds(b"\x1b[?2026hx\x1b[?2026l", 1)
}

/// Whether an update that fails after so many bytes is reported, and whether it was called.
fn is_reported(alloc: Global, room: usize, bytes: &[u8], makes: bool) -> bool {
    let mut tape = Tape::failing_at(alloc, room);
    let (outcome, called) = update(&mut tape);
    called == makes && failed(outcome) && tape.holds(bytes, 0)
}

#[test]
fn updates_are_between_their_brackets(rt: HostRuntime) {
    expect!(rt; is_made(rt.alloc()));
    expect!(rt; is_reported(rt.alloc(), 0, b"", false));
    expect!(rt; is_reported(rt.alloc(), 9, b"\x1b[?2026hx", true));
}

/// Whether a list is written byte by byte.
fn list_is_written(alloc: Global, commands: &[AnyCommand]) -> bool {
    let mut tape = Tape::narrow(alloc, 1);
    queue_all(&mut tape, ON, commands).is_ok() && tape.holds(b"\x1b[1;65536H\x1b[?25l", 0)
}

/// Whether a list stops at the first fault.
fn list_stops(alloc: Global, commands: &[AnyCommand]) -> bool {
    let mut tape = Tape::failing_at(alloc, 4);
    failed(queue_all(&mut tape, ON, commands)) && tape.holds(b"\x1b[1;", 0)
}

/// A command so many times.
fn shows_often(alloc: Global, count: usize) -> Result<Vec<AnyCommand>, AllocError> {
    let mut commands = Vec::new(alloc);
    for _ in 0..count {
        commands.push(AnyCommand::Show(Show))?;
    }
    Ok(commands)
}

#[test]
fn a_long_list_is_written_whole(rt: HostRuntime) -> io::Result<()> {
    let commands = shows_often(rt.alloc(), 5000)?;
    let mut tape = Tape::new(rt.alloc());
    queue_all(&mut tape, ON, commands.as_slice())?;
    expect!(rt; tape.bytes.len() == 5000 * b"\x1b[?25h".len());
    Ok(())
}

#[test]
fn lists_are_written(rt: HostRuntime) {
    let commands = [AnyCommand::MoveTo(MoveTo(65535, 0)), AnyCommand::Hide(Hide)];
    expect!(rt; list_is_written(rt.alloc(), &commands));
    expect!(rt; list_stops(rt.alloc(), &commands));
}

/// Whether the clone of a command of any kind is printed so for a programmer.
fn is_cloned_as(alloc: Global, command: &AnyCommand, want: &str) -> bool {
    match command.clone() {
        Ok(other) => is_text(format!(in alloc; "{other:?}"), want),
        Err(_) => false,
    }
}

#[test]
fn any_command_is_cloned(rt: HostRuntime) -> Result<(), AllocError> {
    let title = AnyCommand::SetTitle(SetTitle(String::from_str(rt.alloc(), "hi")?));
    expect!(rt; is_cloned_as(rt.alloc(), &title, "SetTitle(SetTitle(\"hi\"))"));
    Ok(())
}

#[test]
fn literal_sequences_have_their_ends(rt: HostRuntime) {
    let sequences = [csi!(), csi!("?25", "h"), osc!("52;c;", "aGk=")];
    expect!(rt; sequences == ["\x1b[", "\x1b[?25h", "\x1b]52;c;aGk=\x1b\\"]);
}

/// Whether a value is the same as its clone, which is printed so for a programmer.
pub fn is_cloned<T: Clone + PartialEq + Debug + Drop>(alloc: Global, value: T, want: &str) -> bool {
    match value.clone() {
        Ok(other) => value == other && is_text(format!(in alloc; "{other:?}"), want),
        Err(_) => false,
    }
}

#[test]
fn commands_are_cloned_and_printed(rt: HostRuntime) {
    expect!(rt; is_cloned(rt.alloc(), MoveTo(1, 2), "MoveTo(1, 2)"));
    expect!(rt; is_cloned(rt.alloc(), Clear(ClearType::Purge), "Clear(Purge)"));
    expect!(rt; is_cloned(rt.alloc(), Print("x"), "Print(\"x\")"));
    let pop = PopKeyboardEnhancementFlags;
    expect!(rt; is_cloned(rt.alloc(), pop, "PopKeyboardEnhancementFlags"));
}

#[test]
fn commands_differ_by_their_fields(rt: HostRuntime) {
    expect!(rt; MoveTo(1, 2) != MoveTo(2, 1));
    expect!(rt; SetCursorStyle::SteadyBar != SetCursorStyle::BlinkingBar);
    expect!(rt; Clear(ClearType::All) != Clear(ClearType::CurrentLine));
    expect!(rt; Print('x') != Print('y'));
}
