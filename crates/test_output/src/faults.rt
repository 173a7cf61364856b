//! Every way to a writer that fails: at each byte, with each of some kinds, what it took, what is answered, and that it is left alone then.

use crate::queueing::kind;
use crate::witness::Witness;
use crossterm::cursor::{MoveTo, Show};
use crossterm::event::EnableMouseCapture;
use crossterm::style::{
    Color, ColorOutput, Print, PrintStyledContent, SetForegroundColor, Stylize,
};
use crossterm::terminal::SetTitle;
use crossterm::{
    AnyCommand, Command, CommandFault, ExecutableCommand, QueueableCommand, SynchronizedUpdate,
    execute, execute_command, queue, queue_all, queue_command, send_command, write_command,
    write_commands,
};
use crossterm_command::write_text;
use std::alloc::{AllocError, Global};
use std::io::{self, ErrorKind};
use test_support::expect;

const ON: ColorOutput = ColorOutput::Enabled;

static KINDS: [ErrorKind; 5] = [
    ErrorKind::Other,
    ErrorKind::WriteZero,
    ErrorKind::PermissionDenied,
    ErrorKind::OutOfMemory,
    ErrorKind::WouldBlock,
];

/// The kind of the writer's own fault. Another fault is shown by a kind that no writer here fails with.
fn own_kind(outcome: Result<(), CommandFault>) -> Option<ErrorKind> {
    match outcome {
        Ok(()) => None,
        Err(CommandFault::Writer(e)) => Some(e.kind()),
        Err(CommandFault::Flush(e)) => Some(e.kind()),
        Err(_) => Some(ErrorKind::InvalidData),
    }
}

/// The ways of one command to a writer.
#[derive(Clone, Copy)]
enum Way {
    Queue,
    Execute,
    QueueCommand,
    ExecuteCommand,
    WriteCommand,
    SendCommand,
    QueueMacro,
    ExecuteMacro,
}

/// The ways, and how often each flushes.
static WAYS: [(Way, u32); 8] = [
    (Way::Queue, 0),
    (Way::Execute, 1),
    (Way::QueueCommand, 0),
    (Way::ExecuteCommand, 1),
    (Way::WriteCommand, 0),
    (Way::SendCommand, 1),
    (Way::QueueMacro, 0),
    (Way::ExecuteMacro, 1),
];

/// What a command is answered on its way.
fn goes<C: Command>(way: Way, w: &mut Witness, command: &C) -> Option<ErrorKind> {
    match way {
        Way::Queue => kind(w.queue(ON, command)),
        Way::Execute => kind(w.execute(ON, command)),
        Way::QueueCommand => kind(queue_command(w, ON, command)),
        Way::ExecuteCommand => kind(execute_command(w, ON, command)),
        Way::WriteCommand => own_kind(write_command(w, ON, command)),
        Way::SendCommand => own_kind(send_command(w, ON, command)),
        Way::QueueMacro => kind(queue!(w, ON, command)),
        Way::ExecuteMacro => kind(execute!(w, ON, command)),
    }
}

/// What is wanted if a text goes, with so many flushes after it, to a writer that fails after so many bytes: the answer, and what the
/// writer saw.
fn is_seen(
    w: &Witness,
    answer: Option<ErrorKind>,
    text: &[u8],
    flushes: u32,
    room: usize,
    fault: ErrorKind,
) -> bool {
    if room < text.len() {
        return answer == Some(fault) && w.saw(&text[..room], 0, 0);
    }
    let want = if room == text.len() && flushes > 0 {
        Some(fault)
    } else {
        None
    };
    answer == want && w.saw(text, flushes, 0)
}

/// Whether a command stops on its way if the writer does, and arrives if the writer takes all.
fn stops<C: Command>(
    alloc: Global,
    command: &C,
    text: &[u8],
    way: &(Way, u32),
    fault: ErrorKind,
) -> bool {
    for room in 0..text.len() + 2 {
        let mut w = Witness::new(alloc, room, fault);
        let answer = goes(way.0, &mut w, command);
        if !is_seen(&w, answer, text, way.1, room, fault) {
            return false;
        }
    }
    true
}

/// Whether it does so on each way, with each kind.
fn stops_always<C: Command>(alloc: Global, command: &C, text: &[u8]) -> bool {
    for way in &WAYS {
        for fault in &KINDS {
            if !stops(alloc, command, text, way, *fault) {
                return false;
            }
        }
    }
    true
}

const MOVE: MoveTo = MoveTo(65535, 7);

const RED: SetForegroundColor = SetForegroundColor(Color::Rgb { r: 255, g: 0, b: 1 });

#[test]
fn commands_stop_where_their_writer_does(rt: HostRuntime) {
    expect!(rt; stops_always(rt.alloc(), &MOVE, b"\x1b[8;65536H"));
    expect!(rt; stops_always(rt.alloc(), &Show, b"\x1b[?25h"));
    expect!(rt; stops_always(rt.alloc(), &SetTitle("h\u{e9}"), b"\x1b]0;h\xc3\xa9\x07"));
    let mouse = b"\x1b[?1000h\x1b[?1002h\x1b[?1003h\x1b[?1015h\x1b[?1006h";
    expect!(rt; stops_always(rt.alloc(), &EnableMouseCapture, mouse));
    expect!(rt; stops_always(rt.alloc(), &RED, b"\x1b[38;2;255;0;1m"));
    let styled = PrintStyledContent('x'.red().bold());
    expect!(rt; stops_always(rt.alloc(), &styled, b"\x1b[38;5;9m\x1b[1mx\x1b[0m"));
}

/// The ways of several commands to a writer.
#[derive(Clone, Copy)]
enum ListWay {
    QueueAll,
    WriteCommands,
    QueueMacro,
    ExecuteMacro,
    WriteText,
}

/// The ways, and how often each flushes.
static LIST_WAYS: [(ListWay, u32); 5] = [
    (ListWay::QueueAll, 0),
    (ListWay::WriteCommands, 0),
    (ListWay::QueueMacro, 0),
    (ListWay::ExecuteMacro, 1),
    (ListWay::WriteText, 0),
];

/// Five commands, and what they write.
type Five = (Vec<AnyCommand>, &'static str);

fn five(alloc: Global) -> Result<Five, AllocError> {
    let mut commands = Vec::new(alloc);
    commands.push(AnyCommand::MoveTo(MOVE))?;
    commands.push(AnyCommand::Show(Show))?;
    commands.push(AnyCommand::SetTitle(SetTitle(String::from_str(alloc, "hi")?)))?;
    commands.push(AnyCommand::SetForegroundColor(RED))?;
    commands.push(AnyCommand::Print(Print(String::from_str(alloc, "a\u{e9}b")?)))?;
    let text = "\x1b[8;65536H\x1b[?25h\x1b]0;hi\x07\x1b[38;2;255;0;1ma\u{e9}b";
    Ok((commands, text))
}

/// What five commands are answered on their way.
fn go(way: ListWay, w: &mut Witness, five: &Five) -> Option<ErrorKind> {
    let print = Print("a\u{e9}b");
    match way {
        ListWay::QueueAll => kind(queue_all(w, ON, five.0.as_slice())),
        ListWay::WriteCommands => own_kind(write_commands(w, ON, five.0.as_slice())),
        ListWay::QueueMacro => kind(queue!(w, ON, MOVE, Show, SetTitle("hi"), RED, print)),
        ListWay::ExecuteMacro => kind(execute!(w, ON, MOVE, Show, SetTitle("hi"), RED, print)),
        ListWay::WriteText => kind(write_text(w, five.1)),
    }
}

/// Whether five commands stop on their way if the writer does, and arrive if the writer takes all.
fn stop(alloc: Global, five: &Five, way: &(ListWay, u32), fault: ErrorKind) -> bool {
    let text = five.1.as_bytes();
    for room in 0..text.len() + 2 {
        let mut w = Witness::new(alloc, room, fault);
        let answer = go(way.0, &mut w, five);
        if !is_seen(&w, answer, text, way.1, room, fault) {
            return false;
        }
    }
    true
}

#[test]
fn lists_stop_where_their_writer_does(rt: HostRuntime) -> Result<(), AllocError> {
    let five = five(rt.alloc())?;
    for way in &LIST_WAYS {
        for fault in &KINDS {
            expect!(rt; stop(rt.alloc(), &five, way, *fault));
        }
    }
    Ok(())
}

/// An update that prints a letter, and gives what that was answered.
fn update(w: &mut Witness) -> io::Result<Option<ErrorKind>> {
    w.sync_update(|w| kind(queue!(w, ON, Print("x"))))
}

const UPDATE: &[u8] = b"\x1b[?2026hx\x1b[?2026l";

/// Whether an update stops if the writer does, and isn't made if its beginning failed.
fn update_stops(alloc: Global, fault: ErrorKind) -> bool {
    for room in 0..UPDATE.len() + 2 {
        let mut w = Witness::new(alloc, room, fault);
        let answer = kind(update(&mut w));
        // If the letter fails, the update doesn't: its closure got that error, and its end comes.
        if room != 8 && !is_seen(&w, answer, UPDATE, 1, room, fault) {
            return false;
        }
    }
    true
}

/// Whether the end of an update comes if its closure met the fault, and the closure's result is returned.
fn end_comes(alloc: Global, fault: ErrorKind) -> bool {
    let mut w = Witness::new(alloc, 8, fault);
    let is_reported = matches!(update(&mut w), Ok(Some(e)) if e == fault);
    is_reported && w.saw(b"\x1b[?2026h\x1b[?2026l", 1, 2)
}

#[test]
fn updates_stop_where_their_writer_does(rt: HostRuntime) {
    for fault in &KINDS {
        expect!(rt; update_stops(rt.alloc(), *fault));
        expect!(rt; end_comes(rt.alloc(), *fault));
    }
}

/// Whether a way that flushes is answered that a flush is interrupted, and asks for no other.
fn flush_is_asked_once(alloc: Global, way: &(Way, u32)) -> bool {
    let text = b"\x1b[?25h";
    let fault = ErrorKind::Interrupted;
    let mut w = Witness::new(alloc, text.len(), fault);
    let answer = goes(way.0, &mut w, &Show);
    is_seen(&w, answer, text, way.1, text.len(), fault)
}

/// Whether an update is answered so too.
fn update_flush_is_asked_once(alloc: Global) -> bool {
    let fault = ErrorKind::Interrupted;
    let mut w = Witness::new(alloc, UPDATE.len(), fault);
    let answer = kind(update(&mut w));
    is_seen(&w, answer, UPDATE, 1, UPDATE.len(), fault)
}

#[test]
fn an_interrupted_flush_is_answered(rt: HostRuntime) {
    for way in &WAYS {
        expect!(rt; flush_is_asked_once(rt.alloc(), way));
    }
    expect!(rt; update_flush_is_asked_once(rt.alloc()));
}
