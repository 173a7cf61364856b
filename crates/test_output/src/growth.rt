//! A writer's memory that is refused, at each growth, under all commands; and interruptions on each way to a writer.

use crate::queueing::kind;
use crate::tape::Tape;
use crossterm::clipboard::{ClipboardSelection, CopyToClipboard};
use crossterm::cursor::{
    DisableBlinking, EnableBlinking, Hide, MoveDown, MoveLeft, MoveRight, MoveTo, MoveToColumn,
    MoveToNextLine, MoveToPreviousLine, MoveToRow, MoveUp, RestorePosition, SavePosition,
    SetCursorStyle, Show,
};
use crossterm::event::{
    DisableBracketedPaste, DisableFocusChange, DisableMouseCapture, EnableBracketedPaste,
    EnableFocusChange, EnableMouseCapture, KeyboardEnhancementFlags, PopKeyboardEnhancementFlags,
    PushKeyboardEnhancementFlags,
};
use crossterm::style::{
    Attribute, Attributes, Color, ColorOutput, Colors, ContentStyle, Print, PrintStyledContent,
    ResetColor, SetAttribute, SetAttributes, SetBackgroundColor, SetColors, SetForegroundColor,
    SetStyle, SetUnderlineColor,
};
use crossterm::terminal::{
    BeginSynchronizedUpdate, Clear, ClearType, DisableLineWrap, EnableLineWrap,
    EndSynchronizedUpdate, EnterAlternateScreen, LeaveAlternateScreen, ScrollDown, ScrollUp,
    SetSize, SetTitle,
};
use crossterm::{
    AnyCommand, ExecutableCommand, QueueableCommand, SynchronizedUpdate, execute, execute_command,
    queue, queue_all, queue_command,
};
use crossterm_command::write_text;
use linked_list_allocator::LocalHeap;
use std::alloc::Global;
use std::io::{self, ErrorKind};
use test_support::expect;

const ON: ColorOutput = ColorOutput::Enabled;

/// A style with all of its colours.
fn colored() -> ContentStyle {
    ContentStyle {
        foreground_color: Some(Color::Red),
        background_color: Some(Color::AnsiValue(200)),
        underline_color: Some(Color::Rgb { r: 1, g: 2, b: 3 }),
        attributes: Attributes::none(),
    }
}

/// Moves of the cursor.
fn of_places() -> [AnyCommand; 9] {
    [
        AnyCommand::MoveTo(MoveTo(65535, 0)),
        AnyCommand::MoveToColumn(MoveToColumn(1)),
        AnyCommand::MoveToRow(MoveToRow(2)),
        AnyCommand::MoveToNextLine(MoveToNextLine(3)),
        AnyCommand::MoveToPreviousLine(MoveToPreviousLine(4)),
        AnyCommand::MoveUp(MoveUp(5)),
        AnyCommand::MoveDown(MoveDown(6)),
        AnyCommand::MoveRight(MoveRight(7)),
        AnyCommand::MoveLeft(MoveLeft(8)),
    ]
}

/// Other commands of the cursor.
fn of_the_cursor() -> [AnyCommand; 7] {
    [
        AnyCommand::SavePosition(SavePosition),
        AnyCommand::RestorePosition(RestorePosition),
        AnyCommand::Hide(Hide),
        AnyCommand::Show(Show),
        AnyCommand::EnableBlinking(EnableBlinking),
        AnyCommand::DisableBlinking(DisableBlinking),
        AnyCommand::SetCursorStyle(SetCursorStyle::SteadyBar),
    ]
}

/// Commands of the terminal.
fn of_the_terminal(title: String) -> [AnyCommand; 9] {
    [
        AnyCommand::DisableLineWrap(DisableLineWrap),
        AnyCommand::EnableLineWrap(EnableLineWrap),
        AnyCommand::EnterAlternateScreen(EnterAlternateScreen),
        AnyCommand::LeaveAlternateScreen(LeaveAlternateScreen),
        AnyCommand::Clear(Clear(ClearType::Purge)),
        AnyCommand::ScrollUp(ScrollUp(9)),
        AnyCommand::ScrollDown(ScrollDown(10)),
        AnyCommand::SetSize(SetSize(80, 24)),
        AnyCommand::SetTitle(SetTitle(title)),
    ]
}

/// Commands of updates and events.
fn of_events() -> [AnyCommand; 10] {
    let flags = KeyboardEnhancementFlags::from_bits_retain(5);
    [
        AnyCommand::BeginSynchronizedUpdate(BeginSynchronizedUpdate),
        AnyCommand::EndSynchronizedUpdate(EndSynchronizedUpdate),
        AnyCommand::EnableMouseCapture(EnableMouseCapture),
        AnyCommand::DisableMouseCapture(DisableMouseCapture),
        AnyCommand::EnableFocusChange(EnableFocusChange),
        AnyCommand::DisableFocusChange(DisableFocusChange),
        AnyCommand::EnableBracketedPaste(EnableBracketedPaste),
        AnyCommand::DisableBracketedPaste(DisableBracketedPaste),
        AnyCommand::PushKeyboardEnhancementFlags(PushKeyboardEnhancementFlags(flags)),
        AnyCommand::PopKeyboardEnhancementFlags(PopKeyboardEnhancementFlags),
    ]
}

/// Commands of style.
fn of_style() -> [AnyCommand; 8] {
    let both = Attributes::none()
        .with(Attribute::Bold)
        .with(Attribute::OverLined);
    [
        AnyCommand::SetForegroundColor(SetForegroundColor(Color::Red)),
        AnyCommand::SetBackgroundColor(SetBackgroundColor(Color::Blue)),
        AnyCommand::SetUnderlineColor(SetUnderlineColor(Color::Green)),
        AnyCommand::SetColors(SetColors(Colors::new(Color::Red, Color::Blue))),
        AnyCommand::SetAttribute(SetAttribute(Attribute::Underdashed)),
        AnyCommand::SetAttributes(SetAttributes(both)),
        AnyCommand::SetStyle(SetStyle(colored())),
        AnyCommand::ResetColor(ResetColor),
    ]
}

/// Commands that hold a text, and one of the clipboard.
fn of_texts(alloc: Global) -> io::Result<[AnyCommand; 3]> {
    let styled = colored().apply(String::from_str(alloc, "st\u{e9}")?);
    let copy = CopyToClipboard {
        content: Vec::from_slice(alloc, b"foob")?,
        destination: ClipboardSelection::from_str(alloc, "cp")?,
    };
    let print = String::from_str(alloc, "print")?;
    Ok([
        AnyCommand::PrintStyledContent(PrintStyledContent(styled)),
        AnyCommand::CopyToClipboard(copy),
        AnyCommand::Print(Print(print)),
    ])
}

/// One of each of the 46 commands.
fn all_commands(alloc: Global) -> io::Result<Vec<AnyCommand>> {
    let mut commands = Vec::new(alloc);
    commands.extend(of_places())?;
    commands.extend(of_the_cursor())?;
    commands.extend(of_the_terminal(String::from_str(alloc, "h\u{e9}")?))?;
    commands.extend(of_events())?;
    commands.extend(of_style())?;
    commands.extend(of_texts(alloc)?)?;
    Ok(commands)
}

/// Whether a writer in this heap has a beginning of the text, and is refused memory exactly if that isn't all of it. It returns how many
/// bytes it has.
fn is_beginning(heap: &LocalHeap, commands: &[AnyCommand], want: &[u8]) -> Option<usize> {
    let mut out: Vec<u8, &LocalHeap> = Vec::new(heap);
    let answer = kind(queue_all(&mut out, ON, commands));
    let count = out.len();
    let expected = if count < want.len() {
        Some(ErrorKind::OutOfMemory)
    } else {
        None
    };
    if want.starts_with(out.as_slice()) && answer == expected {
        Some(count)
    } else {
        None
    }
}

#[test]
fn each_growth_is_refused_in_turn(rt: HostRuntime) -> io::Result<()> {
    let commands = all_commands(rt.alloc())?;
    expect!(rt; commands.len() == 46);
    let mut want: Vec<u8> = Vec::new(rt.alloc());
    queue_all(&mut want, ON, commands.as_slice())?;
    let mut refused = 0u32;
    let mut last = usize::MAX;
    for step in 1..257usize {
        let heap = LocalHeap::new(rt.alloc(), step * 16)?;
        let count = is_beginning(&heap, commands.as_slice(), want.as_slice());
        expect!(rt; count.is_some());
        let count = count.unwrap_or(0);
        if count != last && count < want.len() {
            refused = refused.saturating_add(1);
        }
        last = count;
    }
    // More than one growth was refused, and at last none.
    expect!(rt; refused > 3 && last == want.len());
    Ok(())
}

/// The ways to a writer: of a command, of a text, of a list and of an update.
#[derive(Clone, Copy)]
enum Way {
    Queue,
    Execute,
    QueueCommand,
    ExecuteCommand,
    QueueMacro,
    ExecuteMacro,
    Text,
    List,
    Update,
}

const SHOW: &[u8] = b"\x1b[?25h";

/// The ways, and what is written on each.
static WAYS: [(Way, &[u8]); 9] = [
    (Way::Queue, SHOW),
    (Way::Execute, SHOW),
    (Way::QueueCommand, SHOW),
    (Way::ExecuteCommand, SHOW),
    (Way::QueueMacro, SHOW),
    (Way::ExecuteMacro, SHOW),
    (Way::Text, SHOW),
    (Way::List, SHOW),
    (Way::Update, b"\x1b[?2026h\x1b[?2026l"),
];

/// The one command as a list.
const LIST: [AnyCommand; 1] = [AnyCommand::Show(Show)];

/// What is answered on a way.
fn goes(way: Way, w: &mut Tape) -> Option<ErrorKind> {
    match way {
        Way::Queue => kind(w.queue(ON, Show)),
        Way::Execute => kind(w.execute(ON, Show)),
        Way::QueueCommand => kind(queue_command(w, ON, Show)),
        Way::ExecuteCommand => kind(execute_command(w, ON, Show)),
        Way::QueueMacro => kind(queue!(w, ON, Show)),
        Way::ExecuteMacro => kind(execute!(w, ON, Show)),
        Way::Text => kind(write_text(w, "\x1b[?25h")),
        Way::List => kind(queue_all(w, ON, &LIST)),
        Way::Update => kind(w.sync_update(|_w: &mut Tape| 7u8)),
    }
}

/// Whether a way is answered so, and these bytes are written, if each write is interrupted so often.
fn comes(alloc: Global, way: Way, times: u32, answer: Option<ErrorKind>, text: &[u8]) -> bool {
    let mut tape = Tape::interrupted(alloc, times);
    goes(way, &mut tape) == answer && tape.bytes.as_slice() == text
}

#[test]
fn each_way_is_tried_64_times(rt: HostRuntime) {
    for (way, text) in &WAYS {
        expect!(rt; comes(rt.alloc(), *way, 64, None, text));
        expect!(rt; comes(rt.alloc(), *way, 65, Some(ErrorKind::Interrupted), b""));
    }
}
