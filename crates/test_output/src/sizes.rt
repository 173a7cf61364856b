//! Long texts and the greatest numbers, through a writer that takes little at a time.

use crate::tape::Tape;
use crossterm::clipboard::{ClipboardSelection, CopyToClipboard};
use crossterm::cursor::{
    MoveDown, MoveTo, MoveToColumn, MoveToNextLine, MoveToPreviousLine, MoveToRow, MoveUp,
};
use crossterm::style::{Attribute, Attributes, ColorOutput, Print, SetAttributes, Stylize};
use crossterm::terminal::{ScrollDown, ScrollUp, SetSize, SetTitle};
use crossterm::{
    AnyCommand, Command, ExecutableCommand, QueueableCommand, SynchronizedUpdate, execute, queue,
    queue_all,
};
use std::alloc::{AllocError, Global};
use test_support::{expect, is_text};

const ON: ColorOutput = ColorOutput::Enabled;

/// A writer that takes 7 bytes a call.
fn narrow(alloc: Global) -> Tape {
    Tape::narrow(alloc, 7)
}

/// Whether a command is queued and executed whole.
fn arrives<C: Command>(alloc: Global, command: &C, want: &[u8]) -> bool {
    let mut queued = narrow(alloc);
    let mut executed = narrow(alloc);
    let is_queued = queued.queue(ON, command).is_ok();
    let is_executed = executed.execute(ON, command).is_ok();
    is_queued && queued.holds(want, 0) && is_executed && executed.holds(want, 1)
}

#[test]
fn the_greatest_numbers_are_written(rt: HostRuntime) {
    expect!(rt; arrives(rt.alloc(), &MoveTo(65535, 65535), b"\x1b[65536;65536H"));
    expect!(rt; arrives(rt.alloc(), &SetSize(65535, 65535), b"\x1b[8;65535;65535t"));
    expect!(rt; arrives(rt.alloc(), &MoveToColumn(65535), b"\x1b[65536G"));
    expect!(rt; arrives(rt.alloc(), &MoveToRow(65535), b"\x1b[65536d"));
    expect!(rt; arrives(rt.alloc(), &MoveToNextLine(65535), b"\x1b[65535E"));
    expect!(rt; arrives(rt.alloc(), &MoveToPreviousLine(65535), b"\x1b[65535F"));
    expect!(rt; arrives(rt.alloc(), &MoveUp(65535), b"\x1b[65535A"));
    expect!(rt; arrives(rt.alloc(), &MoveDown(65535), b"\x1b[65535B"));
    expect!(rt; arrives(rt.alloc(), &ScrollUp(65535), b"\x1b[65535S"));
    expect!(rt; arrives(rt.alloc(), &ScrollDown(65535), b"\x1b[65535T"));
}

/// The sequences of all attributes, in declared order.
const SEQUENCES: &str = "\
\x1b[0m\x1b[1m\x1b[2m\x1b[3m\x1b[4m\x1b[4:2m\x1b[4:3m\x1b[4:4m\x1b[4:5m\x1b[5m\x1b[6m\x1b[7m\x1b[8m\x1b[9m\
\x1b[20m\x1b[21m\x1b[22m\x1b[23m\x1b[24m\x1b[25m\x1b[27m\x1b[28m\x1b[29m\
\x1b[51m\x1b[52m\x1b[53m\x1b[54m\x1b[55m";

/// The set of all attributes.
pub fn all_attributes() -> Attributes {
    let mut all = Attributes::none();
    for attribute in Attribute::iterator() {
        all.set(attribute);
    }
    all
}

#[test]
fn all_attributes_are_written(rt: HostRuntime) {
    let all = SetAttributes(all_attributes());
    expect!(rt; arrives(rt.alloc(), &all, SEQUENCES.as_bytes()));
}

/// 100,000 bytes, of characters of one and of more bytes.
fn long_text(alloc: Global) -> Result<String, AllocError> {
    "abcd\u{e9}\u{1f980}".repeat(alloc, 10_000)
}

/// Whether a long text between others is printed by the macros, in an update and in a list.
fn is_printed(alloc: Global, text: &str, list: &[AnyCommand]) -> bool {
    let (mut queued, mut executed) = (narrow(alloc), narrow(alloc));
    let (mut updated, mut listed) = (narrow(alloc), narrow(alloc));
    let is_queued = queue!(queued, ON, Print(text)).is_ok();
    let is_executed = execute!(executed, ON, Print(text)).is_ok();
    let is_updated = updated.sync_update(|w| queue!(w, ON, Print(text)).is_ok());
    let is_listed = queue_all(&mut listed, ON, list).is_ok();
    let are_whole = queued.holds(text.as_bytes(), 0)
        && executed.holds(text.as_bytes(), 1)
        && listed.holds(text.as_bytes(), 0);
    let is_enclosed = updated.bytes.len() == text.len() + 16;
    let are_written = is_queued && is_executed && is_listed && matches!(is_updated, Ok(true));
    are_whole && is_enclosed && are_written
}

#[test]
fn long_texts_are_printed(rt: HostRuntime) -> Result<(), AllocError> {
    let text = long_text(rt.alloc())?;
    expect!(rt; text.len() == 100_000);
    expect!(rt; arrives(rt.alloc(), &Print(text.as_str()), text.as_bytes()));
    let list = [AnyCommand::Print(Print(text.clone()?))];
    expect!(rt; is_printed(rt.alloc(), text.as_str(), &list));
    Ok(())
}

/// Whether a command writes a beginning, a text and an end.
fn encloses<C: Command>(
    alloc: Global,
    command: &C,
    beginning: &str,
    text: &str,
    end: &str,
) -> bool {
    match format!(in alloc; "{beginning}{text}{end}") {
        Ok(want) => arrives(alloc, command, want.as_bytes()),
        Err(_) => false,
    }
}

#[test]
fn long_texts_are_enclosed(rt: HostRuntime) -> Result<(), AllocError> {
    let text = long_text(rt.alloc())?;
    let long = text.as_str();
    expect!(rt; encloses(rt.alloc(), &SetTitle(long), "\x1b]0;", long, "\x07"));
    let styled = Print(long.bold());
    expect!(rt; encloses(rt.alloc(), &styled, "\x1b[1m", long, "\x1b[0m"));
    Ok(())
}

/// Whether a copy of this content and one more `M` is written as this and the code of the `M`.
fn is_copied(alloc: Global, mut content: Vec<u8>, coded: &str) -> bool {
    let is_large = content.push(b'M').is_ok() && content.len() == 1_048_576;
    match CopyToClipboard::to_clipboard_from(alloc, content) {
        Ok(copy) => is_large && encloses(alloc, &copy, "\x1b]52;c;", coded, "TQ==\x1b\\"),
        Err(_) => false,
    }
}

#[test]
fn large_copies_are_written(rt: HostRuntime) -> Result<(), AllocError> {
    // 1 MiB: 349,525 times three bytes, and one more.
    let coded = "TWFu".repeat(rt.alloc(), 349_525)?;
    let content = b"Man".as_slice().repeat(rt.alloc(), 349_525)?;
    expect!(rt; is_copied(rt.alloc(), content, coded.as_str()));
    Ok(())
}

/// Whether letters come back from the places that they represent, and name these in a copy.
fn come_back(alloc: Global, letters: &str) -> bool {
    let Ok(destination) = ClipboardSelection::from_str(alloc, letters) else {
        return false;
    };
    let is_whole = destination.0.len() == 1000;
    let is_shown = is_text(format!(in alloc; "{destination}"), letters);
    let copy = CopyToClipboard {
        content: "foo",
        destination,
    };
    is_whole && is_shown && encloses(alloc, &copy, "\x1b]52;", letters, ";Zm9v\x1b\\")
}

#[test]
fn many_letters_come_back(rt: HostRuntime) -> Result<(), AllocError> {
    let letters = "cps\u{e9}\u{1f980}".repeat(rt.alloc(), 200)?;
    expect!(rt; come_back(rt.alloc(), letters.as_str()));
    Ok(())
}
