//! What a program switches on in its terminal, and off again.

ghost use Rattle.std.specs.Prelude.{◌≡◌, [], IfNone, IfSome, OnErr, OnOk};
ghost use Rattle.std.specs.Io.KnownBytes.{Appends};
ghost use Rattle.crossterm_command.specs.Tokens.{text_of};
ghost use Rattle.crossterm_command.specs.Writing.{AppendsFront};
ghost use Rattle.crossterm_command.specs.declared.color_output.ColorOutput.TheVariants.{Enabled};
ghost use Rattle.own_terminal.specs.Features.{EndsOffered, IsLastAt, Lacks, all_switched_off, switches_off, switches_on, without_flags};

use arrayvec::ArrayString;
use crossterm::Command;
use crossterm::cursor::{Hide, Show};
use crossterm::event::{
    DisableBracketedPaste, DisableFocusChange, DisableMouseCapture, EnableBracketedPaste,
    EnableFocusChange, EnableMouseCapture, KeyboardEnhancementFlags, PopKeyboardEnhancementFlags,
    PushKeyboardEnhancementFlags,
};
use crossterm::style::ColorOutput;
use crossterm::terminal::{EnterAlternateScreen, LeaveAlternateScreen};
use crossterm_command::write_text;
use std::fmt;
use std::io::{self, Write};

/// What a program switches on in its terminal. A session switches it off again when it ends.
#[derive(Clone, Copy, PartialEq, Eq, Debug)]
pub enum Feature {
    /// A screen of its own: the other one is back afterwards.
    AlternateScreen,
    /// The cursor isn't shown.
    HiddenCursor,
    /// The mouse is reported.
    MouseCapture,
    /// A text that is pasted is one event.
    BracketedPaste,
    /// Gaining and losing the focus is reported.
    FocusChange,
    /// Keys are reported in more detail, by these flags of the kitty keyboard protocol.
    Keyboard(KeyboardEnhancementFlags),
}

/// Writes a text, and flushes.
fn write_flushed<W: Write>(out: &mut W, text: &str) -> io::Result<()>
    ensures ok { OnOk result (Appends (W.contents out.old) (W.contents out.new) text.now) }
    ensures err { OnErr result (AppendsFront (W.contents out.old) (W.contents out.new) text.now) }
{
    match write_text(out, text) {
        Ok(()) => out.flush(),
        Err(error) => Err(error),
    }
}

/// Writes a command of a short text, and flushes. At an error a beginning was written.
fn send<W: Write, C: Command>(out: &mut W, command: &C) -> io::Result<()>
    ensures ok { OnOk result (IfSome (C.text command.now Enabled) (Appends (W.contents out.old) (W.contents out.new))) }
    ensures err { OnErr result (IfSome (C.text command.now Enabled) (AppendsFront (W.contents out.old) (W.contents out.new))) }
{
    let mut text = ArrayString::<48>::new();
    match command.write_ansi(&mut text, ColorOutput::Enabled) {
        Ok(()) => write_flushed(out, text.as_str()),
        Err(fmt::Error) => Err(io::Error::other("a feature's text has no room")),
    }
}

impl Feature {
    /// What it is, whatever the flags of a keyboard.
    fn without_flags(self) -> Feature
        ensures { result ≡ without_flags self }
    {
        match self {
            Feature::Keyboard(_) => Feature::Keyboard(KeyboardEnhancementFlags::empty()),
            other => other,
        }
    }

    /// Switches it on.
    pub(crate) fn enter<W: Write>(self, out: &mut W) -> io::Result<()>
        ensures ok { OnOk result (Appends (W.contents out.old) (W.contents out.new) (text_of (switches_on self))) }
        ensures err { OnErr result (AppendsFront (W.contents out.old) (W.contents out.new) (text_of (switches_on self))) }
    {
        match self {
            Feature::AlternateScreen => send(out, &EnterAlternateScreen),
            Feature::HiddenCursor => send(out, &Hide),
            Feature::MouseCapture => send(out, &EnableMouseCapture),
            Feature::BracketedPaste => send(out, &EnableBracketedPaste),
            Feature::FocusChange => send(out, &EnableFocusChange),
            Feature::Keyboard(flags) => send(out, &PushKeyboardEnhancementFlags(flags)),
        }
    }

    /// Switches it off.
    pub(crate) fn leave<W: Write>(self, out: &mut W) -> io::Result<()>
        ensures ok { OnOk result (Appends (W.contents out.old) (W.contents out.new) (text_of (switches_off self))) }
        ensures err { OnErr result (AppendsFront (W.contents out.old) (W.contents out.new) (text_of (switches_off self))) }
    {
        match self {
            Feature::AlternateScreen => send(out, &LeaveAlternateScreen),
            Feature::HiddenCursor => send(out, &Show),
            Feature::MouseCapture => send(out, &DisableMouseCapture),
            Feature::BracketedPaste => send(out, &DisableBracketedPaste),
            Feature::FocusChange => send(out, &DisableFocusChange),
            Feature::Keyboard(_) => send(out, &PopKeyboardEnhancementFlags),
        }
    }
}

/// The place of the last feature of a kind in a list, if it has one.
pub(crate) fn last_of(features: &[Feature], kind: Feature) -> Option<usize>
    ensures some { IfSome result (IsLastAt kind features.now) }
    ensures none { IfNone result (Lacks kind features.now) }
{
    let mut rest = features;
    while let [before @ .., last] = rest {
        if last.without_flags() == kind.without_flags() {
            return Some(before.len());
        }
        rest = before;
    }
    None
}

/// Switches features off, the last one first, and takes them from their list. All are tried, and the error is the first one's.
pub(crate) fn switch_off<W: Write>(features: &mut Vec<Feature>, out: &mut W) -> io::Result<()>
    ensures none { features.new.items ≡ [] }
    ensures offered { EndsOffered features.old.items (W.contents out.old) (W.contents out.new) }
    ensures ok { OnOk result (Appends (W.contents out.old) (W.contents out.new) (all_switched_off features.old.items)) }
{
    let mut left = Ok(());
    while let Some(feature) = features.pop() {
        left = left.and(feature.leave(out));
    }
    left
}

/// The same, and then it flushes.
pub(crate) fn switch_off_flushed<W: Write>(
    features: &mut Vec<Feature>,
    out: &mut W,
) -> io::Result<()>
    ensures none { features.new.items ≡ [] }
    ensures offered { EndsOffered features.old.items (W.contents out.old) (W.contents out.new) }
    ensures ok { OnOk result (Appends (W.contents out.old) (W.contents out.new) (all_switched_off features.old.items)) }
{
    let off = switch_off(features, out);
    let flushed = out.flush();
    off.and(flushed)
}
