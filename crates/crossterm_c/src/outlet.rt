//! Commands into a caller's slice.
ghost use Rattle.std.specs.Prelude.{◌≡◌, ◌≤◌, ◌+◌, ℕ, List, length, IfSome, IfNone, IfOk, OnOk, Some, None};
ghost use Rattle.std.specs.Fmt.{WritesText};
ghost use Rattle.crossterm_c.specs.Command.{AnswersSlice, HasNotFailed, outcome_at};
ghost use Rattle.crossterm_c.specs.Outlet.{Puts};

use arrayvec::ArrayString;
use crossterm::Command;
use crossterm::style::ColorOutput;
use std::fmt;

/// What came of a command.
#[derive(Clone, Copy, PartialEq, Eq)]
pub(crate) enum Outcome {
    /// Its text was written.
    Written,
    /// Its text doesn't fit.
    TooSmall,
    /// Its numbers name nothing.
    NamesNothing,
    /// It failed by itself.
    Failed,
}

impl Outcome {
    /// Its number.
    pub(crate) fn number(self) -> u32
        ensures { outcome_at result ≡ Some self }
    {
        match self {
            Outcome::Written => 0,
            Outcome::TooSmall => 1,
            Outcome::NamesNothing => 2,
            Outcome::Failed => 3,
        }
    }
}

/// What came of a command, and how long its text is, if there is one.
#[derive(Clone, Copy)]
pub(crate) struct Answer {
    pub(crate) outcome: Outcome,
    pub(crate) length: usize,
}

impl Answer {
    /// Numbers that name nothing.
    pub(crate) fn nothing() -> Answer
        ensures { result ≡ record { outcome = Outcome.NamesNothing; length = 0 } }
    {
        Answer {
            outcome: Outcome::NamesNothing,
            length: 0,
        }
    }

    /// A command that failed by itself.
    fn failed() -> Answer
        ensures { result ≡ record { outcome = Outcome.Failed; length = 0 } }
    {
        Answer {
            outcome: Outcome::Failed,
            length: 0,
        }
    }

    /// The outcome's number for the caller, and the length.
    pub(crate) fn report(self, length: &mut usize) -> u32
        ensures length { length.new ≡ self.length }
        ensures outcome { outcome_at result ≡ Some self.outcome }
    {
        *length = self.length;
        self.outcome.number()
    }
}

/// Copies bytes to a place, if they fit.
#[inline(always)]
fn copy_in(slice: &mut [u8], place: usize, end: usize, bytes: &[u8])
    requires { end ≡ place + length bytes.now }
    ensures { Puts slice.old place bytes.now slice.new end }
{
    if end <= slice.len() {
        slice[place..end].copy_from_slice(bytes);
    }
}

/// A slice that takes what fits of a text, and counts all of it.
#[derive(Drop)]
struct Outlet<'a> {
    slice: &'a mut [u8],
    length: usize,
}

impl fmt::Write for Outlet<'_> {
    ghost write_str_gives = { λ s bs t. (t.slice.ghost_name ≡ s.slice.ghost_name) × Puts s.slice.now s.length bs t.slice.now t.length };

    fn write_str(&mut self, s: &str) -> fmt::Result {
        let Some(length) = self.length.checked_add(s.len()) else {
            return Err(fmt::Error);
        };
        copy_in(self.slice, self.length, length, s.as_bytes());
        self.length = length;
        Ok(())
    }
}

/// Offers a command's text to a slice, which takes what fits, and returns how long it is.
fn fill<C: Command>(command: &C, colors: ColorOutput, slice: &mut [u8]) -> Result<usize, fmt::Error>
    ensures { IfOk result (λ n. IfSome (C.text command.now colors) (λ text. Puts slice.old 0 text slice.new n)) }
{
    let mut outlet = Outlet { slice, length: 0 };
    let result = command.write_ansi(&mut outlet, colors);
    let Outlet { slice, length } = outlet;
    let _ = &*slice;
    match result {
        Ok(()) => Ok(length),
        Err(e) => Err(e),
    }
}

/// Writes a text.
pub(crate) fn put(text: &str, slice: &mut [u8]) -> Answer
    ensures text { AnswersSlice text.now slice.old slice.new result.length result.outcome }
    ensures runs { HasNotFailed result.outcome }
{
    let length = text.len();
    if text.len() > slice.len() {
        return Answer {
            outcome: Outcome::TooSmall,
            length,
        };
    }
    slice[..text.len()].copy_from_slice(text.as_bytes());
    Answer {
        outcome: Outcome::Written,
        length,
    }
}

/// Writes a command whose text is long.
#[inline(never)]
fn write_long<C: Command>(command: &C, colors: ColorOutput, slice: &mut [u8]) -> Answer
    ensures { IfSome (C.text command.now colors) (λ text. AnswersSlice text slice.old slice.new result.length result.outcome) }
{
    let Ok(length) = fill(command, colors, &mut []) else {
        return Answer::failed();
    };
    if length > slice.len() {
        return Answer {
            outcome: Outcome::TooSmall,
            length,
        };
    }
    match fill(command, colors, slice) {
        Ok(_) => Answer {
            outcome: Outcome::Written,
            length,
        },
        Err(fmt::Error) => Answer::failed(),
    }
}

/// Writes a command: at once if its text is short.
#[inline(always)]
pub(crate) fn write<C: Command>(command: &C, colors: ColorOutput, slice: &mut [u8]) -> Answer
    ensures { IfSome (C.text command.now colors) (λ text. AnswersSlice text slice.old slice.new result.length result.outcome) }
{
    let mut short = ArrayString::<48>::new();
    match command.write_ansi(&mut short, colors) {
        Ok(()) => put(short.as_str(), slice),
        Err(fmt::Error) => write_long(command, colors, slice),
    }
}

/// Writes a command whose text has no colours.
#[inline(always)]
pub(crate) fn write_plain<C: Command>(command: &C, slice: &mut [u8]) -> Answer
    ensures { IfSome (C.text command.now ColorOutput.Enabled) (λ text. AnswersSlice text slice.old slice.new result.length result.outcome) }
{
    write(command, ColorOutput::Enabled, slice)
}
