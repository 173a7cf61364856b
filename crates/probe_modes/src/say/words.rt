//! Commands by their names and arguments.

use crate::fault::Wrong;
use crate::input::{content_bytes, number, text};
use crate::names::by_name;
use crate::say::looks::styling;
use crossterm::AnyCommand;
use crossterm::clipboard::{ClipboardSelection, CopyToClipboard};
use crossterm::cursor::{
    DisableBlinking, EnableBlinking, Hide, MoveDown, MoveLeft, MoveRight, MoveTo, MoveToColumn,
    MoveToNextLine, MoveToPreviousLine, MoveToRow, MoveUp, RestorePosition, SavePosition,
    SetCursorStyle, Show,
};
use crossterm::event::{
    DisableBracketedPaste, DisableFocusChange, DisableMouseCapture, EnableBracketedPaste,
    EnableFocusChange, EnableMouseCapture, KeyboardEnhancementFlags, PopKeyboardEnhancementFlags,
    PushKeyboardEnhancementFlags,
};
use crossterm::style::{Print, ResetColor};
use crossterm::terminal::{
    BeginSynchronizedUpdate, Clear, ClearType, DisableLineWrap, EnableLineWrap,
    EndSynchronizedUpdate, EnterAlternateScreen, LeaveAlternateScreen, ScrollDown, ScrollUp,
    SetSize, SetTitle,
};
use std::alloc::Allocator;

/// A command of the cursor, of the terminal or of style without arguments.
fn plain<A: Allocator>(word: &str) -> Option<AnyCommand<A>> {
    match word {
        "SavePosition" => Some(AnyCommand::SavePosition(SavePosition)),
        "RestorePosition" => Some(AnyCommand::RestorePosition(RestorePosition)),
        "Hide" => Some(AnyCommand::Hide(Hide)),
        "Show" => Some(AnyCommand::Show(Show)),
        "EnableBlinking" => Some(AnyCommand::EnableBlinking(EnableBlinking)),
        "DisableBlinking" => Some(AnyCommand::DisableBlinking(DisableBlinking)),
        "DisableLineWrap" => Some(AnyCommand::DisableLineWrap(DisableLineWrap)),
        "EnableLineWrap" => Some(AnyCommand::EnableLineWrap(EnableLineWrap)),
        "EnterAlternateScreen" => Some(AnyCommand::EnterAlternateScreen(EnterAlternateScreen)),
        "LeaveAlternateScreen" => Some(AnyCommand::LeaveAlternateScreen(LeaveAlternateScreen)),
        "BeginSynchronizedUpdate" => Some(AnyCommand::BeginSynchronizedUpdate(
            BeginSynchronizedUpdate,
        )),
        "EndSynchronizedUpdate" => Some(AnyCommand::EndSynchronizedUpdate(EndSynchronizedUpdate)),
        "ResetColor" => Some(AnyCommand::ResetColor(ResetColor)),
        _ => None,
    }
}

/// A command of events without arguments.
fn reporting<A: Allocator>(word: &str) -> Option<AnyCommand<A>> {
    match word {
        "EnableMouseCapture" => Some(AnyCommand::EnableMouseCapture(EnableMouseCapture)),
        "DisableMouseCapture" => Some(AnyCommand::DisableMouseCapture(DisableMouseCapture)),
        "EnableFocusChange" => Some(AnyCommand::EnableFocusChange(EnableFocusChange)),
        "DisableFocusChange" => Some(AnyCommand::DisableFocusChange(DisableFocusChange)),
        "EnableBracketedPaste" => Some(AnyCommand::EnableBracketedPaste(EnableBracketedPaste)),
        "DisableBracketedPaste" => Some(AnyCommand::DisableBracketedPaste(DisableBracketedPaste)),
        "PopKeyboardEnhancementFlags" => Some(AnyCommand::PopKeyboardEnhancementFlags(
            PopKeyboardEnhancementFlags,
        )),
        _ => None,
    }
}

/// A command of one number.
fn numbered<A: Allocator>(word: &str, n: u16) -> Option<AnyCommand<A>> {
    match word {
        "MoveToColumn" => Some(AnyCommand::MoveToColumn(MoveToColumn(n))),
        "MoveToRow" => Some(AnyCommand::MoveToRow(MoveToRow(n))),
        "MoveToNextLine" => Some(AnyCommand::MoveToNextLine(MoveToNextLine(n))),
        "MoveToPreviousLine" => Some(AnyCommand::MoveToPreviousLine(MoveToPreviousLine(n))),
        "MoveUp" => Some(AnyCommand::MoveUp(MoveUp(n))),
        "MoveDown" => Some(AnyCommand::MoveDown(MoveDown(n))),
        "MoveRight" => Some(AnyCommand::MoveRight(MoveRight(n))),
        "MoveLeft" => Some(AnyCommand::MoveLeft(MoveLeft(n))),
        "ScrollUp" => Some(AnyCommand::ScrollUp(ScrollUp(n))),
        "ScrollDown" => Some(AnyCommand::ScrollDown(ScrollDown(n))),
        _ => None,
    }
}

/// A command of a column and a row.
fn placed<A: Allocator>(word: &str, columns: u16, rows: u16) -> Option<AnyCommand<A>> {
    match word {
        "MoveTo" => Some(AnyCommand::MoveTo(MoveTo(columns, rows))),
        "SetSize" => Some(AnyCommand::SetSize(SetSize(columns, rows))),
        _ => None,
    }
}

/// Two numbers with a blank between.
fn pair(rest: &str) -> Option<(u16, u16)> {
    let (first, second) = rest.split_once(' ')?;
    Some((number(first)?, number(second)?))
}

/// A command of one name or one set of bits.
fn named<A: Allocator + Clone>(
    alloc: &A,
    word: &str,
    argument: &str,
) -> Result<AnyCommand<A>, Wrong> {
    match word {
        "SetCursorStyle" => Ok(AnyCommand::SetCursorStyle(by_name(
            SetCursorStyle::all(),
            argument,
        )?)),
        "Clear" => Ok(AnyCommand::Clear(Clear(by_name(ClearType::all(), argument)?))),
        "PushKeyboardEnhancementFlags" => pushed(number(argument)),
        _ => styling(alloc, word, argument),
    }
}

/// Any bits of the flags are pushed as they are.
fn pushed<A: Allocator>(bits: Option<u8>) -> Result<AnyCommand<A>, Wrong> {
    let flags = KeyboardEnhancementFlags::from_bits_retain(bits.ok_or(Wrong::Argument)?);
    Ok(AnyCommand::PushKeyboardEnhancementFlags(PushKeyboardEnhancementFlags(flags)))
}

/// A copy of any bytes to places by their letters.
fn copied<A: Allocator + Clone>(alloc: &A, argument: &str) -> Result<AnyCommand<A>, Wrong> {
    let (letters, content) = argument.split_once(' ').ok_or(Wrong::Argument)?;
    let letters = match letters {
        "-" => "",
        "" => return Err(Wrong::Argument),
        letters => letters,
    };
    let content = content_bytes(alloc.clone()?, content)?;
    match ClipboardSelection::from_str(alloc.clone()?, letters) {
        Ok(destination) => Ok(AnyCommand::CopyToClipboard(CopyToClipboard {
            content,
            destination,
        })),
        Err(_) => Err(Wrong::Memory),
    }
}

/// A command of a text or of bytes.
fn textual<A: Allocator + Clone>(
    alloc: &A,
    word: &str,
    argument: &str,
) -> Result<AnyCommand<A>, Wrong> {
    match word {
        "SetTitle" => Ok(AnyCommand::SetTitle(SetTitle(text(alloc.clone()?, argument)?))),
        "Print" => Ok(AnyCommand::Print(Print(text(alloc.clone()?, argument)?))),
        "CopyToClipboard" => copied(alloc, argument),
        _ => named(alloc, word, argument),
    }
}

/// A command without arguments; one whose word is known, with what it lacks.
fn alone<A: Allocator>(word: &str) -> Option<AnyCommand<A>> {
    match plain(word) {
        Some(command) => Some(command),
        None => reporting(word),
    }
}

/// A command, if its arguments are what it takes.
fn complete<A: Allocator>(
    command: AnyCommand<A>,
    is_complete: bool,
) -> Result<AnyCommand<A>, Wrong> {
    if is_complete {
        Ok(command)
    } else {
        Err(Wrong::Argument)
    }
}

/// A command of arguments.
fn with_arguments<A: Allocator + Clone>(
    alloc: &A,
    word: &str,
    argument: &str,
) -> Result<AnyCommand<A>, Wrong> {
    let count = number(argument);
    if let Some(command) = numbered(word, count.unwrap_or(0)) {
        return complete(command, count.is_some());
    }
    let place = pair(argument);
    let (columns, rows) = place.unwrap_or((0, 0));
    if let Some(command) = placed(word, columns, rows) {
        return complete(command, place.is_some());
    }
    textual(alloc, word, argument)
}

/// A command by its name and what follows the blank after it.
pub fn command<A: Allocator + Clone>(
    alloc: &A,
    word: &str,
    rest: Option<&str>,
) -> Result<AnyCommand<A>, Wrong> {
    match alone(word) {
        Some(command) => complete(command, rest.is_none()),
        None => with_arguments(alloc, word, rest.unwrap_or("")),
    }
}
