//! All commands as one type.
ghost use Rattle.std.specs.Prelude.{OnOk, IfErr, Some, [], flat_map, ◌≢◌};
ghost use Rattle.std.specs.IoError.{error_kind};
ghost use Rattle.std.specs.List.{AllByRecursion};
ghost use Rattle.std.specs.Io.KnownBytes.{Appends};
ghost use Rattle.crossterm_command.specs.Faults.{Stopped};
ghost use Rattle.crossterm_command.specs.Tokens.{text_of};
ghost use Rattle.crossterm_command.specs.Writing.{AppendsFront};
ghost use Rattle.crossterm_style.specs.Appearance.{FitsAct};
ghost use Rattle.crossterm.specs.Functions.{functions, IsReadable, AppendsReading};
ghost use Rattle.crossterm.specs.Painted.{AppendsShown, acts};

use crate::clipboard::CopyToClipboard;
use crate::cursor::{
    DisableBlinking, EnableBlinking, Hide, MoveDown, MoveLeft, MoveRight, MoveTo, MoveToColumn,
    MoveToNextLine, MoveToPreviousLine, MoveToRow, MoveUp, RestorePosition, SavePosition,
    SetCursorStyle, Show,
};
use crate::event::{
    DisableBracketedPaste, DisableFocusChange, DisableMouseCapture, EnableBracketedPaste,
    EnableFocusChange, EnableMouseCapture, PopKeyboardEnhancementFlags,
    PushKeyboardEnhancementFlags,
};
use crate::style::{
    ColorOutput, Print, PrintStyledContent, ResetColor, SetAttribute, SetAttributes,
    SetBackgroundColor, SetColors, SetForegroundColor, SetStyle, SetUnderlineColor,
};
use crate::terminal::{
    BeginSynchronizedUpdate, Clear, DisableLineWrap, EnableLineWrap, EndSynchronizedUpdate,
    EnterAlternateScreen, LeaveAlternateScreen, ScrollDown, ScrollUp, SetSize, SetTitle,
};
use crossterm_command::{Command, CommandFault, write_command};
use crossterm_style::Colored;
use crossterm_style::laws::{color_fits, colors_fit, style_fits};
use std::alloc::{Allocator, Global};
use std::io::ErrorKind;
use std::{fmt, io};

/// A command by its name.
#[derive(Drop)]
#[derive_where(Clone; A)]
#[derive_where(Debug)]
pub enum AnyCommand<A: Allocator = Global> {
    MoveTo(MoveTo),
    MoveToColumn(MoveToColumn),
    MoveToRow(MoveToRow),
    MoveToNextLine(MoveToNextLine),
    MoveToPreviousLine(MoveToPreviousLine),
    MoveUp(MoveUp),
    MoveDown(MoveDown),
    MoveRight(MoveRight),
    MoveLeft(MoveLeft),
    SavePosition(SavePosition),
    RestorePosition(RestorePosition),
    Hide(Hide),
    Show(Show),
    EnableBlinking(EnableBlinking),
    DisableBlinking(DisableBlinking),
    SetCursorStyle(SetCursorStyle),
    DisableLineWrap(DisableLineWrap),
    EnableLineWrap(EnableLineWrap),
    EnterAlternateScreen(EnterAlternateScreen),
    LeaveAlternateScreen(LeaveAlternateScreen),
    Clear(Clear),
    ScrollUp(ScrollUp),
    ScrollDown(ScrollDown),
    SetSize(SetSize),
    SetTitle(SetTitle<String<A>>),
    BeginSynchronizedUpdate(BeginSynchronizedUpdate),
    EndSynchronizedUpdate(EndSynchronizedUpdate),
    EnableMouseCapture(EnableMouseCapture),
    DisableMouseCapture(DisableMouseCapture),
    EnableFocusChange(EnableFocusChange),
    DisableFocusChange(DisableFocusChange),
    EnableBracketedPaste(EnableBracketedPaste),
    DisableBracketedPaste(DisableBracketedPaste),
    PushKeyboardEnhancementFlags(PushKeyboardEnhancementFlags),
    PopKeyboardEnhancementFlags(PopKeyboardEnhancementFlags),
    SetForegroundColor(SetForegroundColor),
    SetBackgroundColor(SetBackgroundColor),
    SetUnderlineColor(SetUnderlineColor),
    SetColors(SetColors),
    SetAttribute(SetAttribute),
    SetAttributes(SetAttributes),
    SetStyle(SetStyle),
    PrintStyledContent(PrintStyledContent<String<A>>),
    ResetColor(ResetColor),
    CopyToClipboard(CopyToClipboard<Vec<u8, A>, A>),
    Print(Print<String<A>>),
}

/// Writes the command of each kind that is named.
macro_rules! each_kind {
    ($any:expr, $f:expr, $colors:expr; $($kind:ident)*) => {
        match $any {
            $(AnyCommand::$kind(command) => command.write_ansi($f, $colors),)*
        }
    };
}

impl<A: Allocator> Command for AnyCommand<A> {
    ghost text = { λ c colors. Some (text_of (functions colors c)) };

    fn write_ansi<W: fmt::Write>(&self, f: &mut W, colors: ColorOutput) -> fmt::Result {
        each_kind!(self, f, colors;
            MoveTo MoveToColumn MoveToRow MoveToNextLine MoveToPreviousLine MoveUp MoveDown
            MoveRight MoveLeft SavePosition RestorePosition Hide Show EnableBlinking
            DisableBlinking SetCursorStyle DisableLineWrap EnableLineWrap EnterAlternateScreen
            LeaveAlternateScreen Clear ScrollUp ScrollDown SetSize SetTitle BeginSynchronizedUpdate
            EndSynchronizedUpdate EnableMouseCapture DisableMouseCapture EnableFocusChange
            DisableFocusChange EnableBracketedPaste DisableBracketedPaste
            PushKeyboardEnhancementFlags PopKeyboardEnhancementFlags SetForegroundColor
            SetBackgroundColor SetUnderlineColor SetColors SetAttribute SetAttributes SetStyle
            PrintStyledContent ResetColor CopyToClipboard Print
        )
    }
}

/// What is known of each command: the numbers of its colours are bytes. It does nothing when it runs.
fn known<A: Allocator>(command: &AnyCommand<A>)
    ensures { AllByRecursion FitsAct (acts command.now) }
{
    match command {
        AnyCommand::SetForegroundColor(command) => color_fits(Colored::ForegroundColor(command.0)),
        AnyCommand::SetBackgroundColor(command) => color_fits(Colored::BackgroundColor(command.0)),
        AnyCommand::SetUnderlineColor(command) => color_fits(Colored::UnderlineColor(command.0)),
        AnyCommand::SetColors(command) => colors_fit(command.0),
        AnyCommand::SetStyle(command) => style_fits(command.0),
        AnyCommand::PrintStyledContent(command) => style_fits(*command.0.style()),
        _ => {}
    }
}

/// Writes the commands, one after another, up to the first that fails: `queue_all` with an error that says who failed.
///
/// # Errors
///
/// `Writer` if the writer alone failed, whatever its error's kind: then a beginning of the text was written and nothing after it. `Text` if
/// a command failed by itself, and `Both` if both did.
pub fn write_commands<A: Allocator, W: io::Write>(
    writer: &mut W,
    colors: ColorOutput,
    commands: &[AnyCommand<A>],
) -> Result<(), CommandFault>
    ensures texts { OnOk result (Appends (W.contents writer.old) (W.contents writer.new)
        (text_of (flat_map (functions colors) commands.now))) }
    ensures reads { OnOk result (AllByRecursion IsReadable commands.now → AppendsReading (W.contents writer.old)
        (W.contents writer.new) (flat_map (functions colors) commands.now)) }
    ensures shown { OnOk result (AllByRecursion IsReadable commands.now → AppendsShown (W.contents writer.old)
        (W.contents writer.new) colors (flat_map acts commands.now)) }
    ensures err { IfErr result (λ fault. Stopped fault (Some (text_of (flat_map (functions colors) commands.now)))
        (commands.now ≢ []) (W.contents writer.old) (W.contents writer.new)) }
{
    for command in commands {
        known(command);
        if let Err(fault) = write_command(writer, colors, command) {
            return Err(fault);
        }
    }
    Ok(())
}

/// Queues the commands, one after another, up to the first that fails.
///
/// What was written reads back as the functions of the commands, in order, and as nothing else. That holds if no printed text holds an
/// escape, and no title and no letter of a clipboard's places an escape or a bell. Each character in it has the colours and attributes that
/// the commands before it set, whatever style was set before.
///
/// # Errors
///
/// The writer's own if it alone failed, else one of kind `Other`. If the kind isn't `Other`, a beginning of the text was written.
///
/// ```
/// let commands: [AnyCommand; 2] = [
///     AnyCommand::MoveTo(MoveTo(0, 0)),
///     AnyCommand::Clear(Clear(ClearType::FromCursorDown)),
/// ];
/// queue_all(w, ColorOutput::Enabled, &commands)?;
/// ```
pub fn queue_all<A: Allocator, W: io::Write>(
    writer: &mut W,
    colors: ColorOutput,
    commands: &[AnyCommand<A>],
) -> io::Result<()>
    ensures texts { OnOk result (Appends (W.contents writer.old) (W.contents writer.new)
        (text_of (flat_map (functions colors) commands.now))) }
    ensures reads { OnOk result (AllByRecursion IsReadable commands.now → AppendsReading (W.contents writer.old)
        (W.contents writer.new) (flat_map (functions colors) commands.now)) }
    ensures shown { OnOk result (AllByRecursion IsReadable commands.now → AppendsShown (W.contents writer.old)
        (W.contents writer.new) colors (flat_map acts commands.now)) }
    ensures err { IfErr result (λ e. error_kind e ≢ ErrorKind.Other → AppendsFront (W.contents writer.old)
        (W.contents writer.new) (text_of (flat_map (functions colors) commands.now))) }
{
    match write_commands(writer, colors, commands) {
        Ok(()) => Ok(()),
        Err(fault) => Err(io::Error::from(fault)),
    }
}
