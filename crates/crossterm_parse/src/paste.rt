//! A paste that is open: how far its start and its end are met, and its text.
//!
//! Only crates of this tree use this module, which may change with each version.
ghost use Rattle.std.specs.Prelude.{◌≡◌, ◌==◌, ◌≤◌, false, ◌+◌, ◌-◌, ◌++◌, ◌∷◌, [], ℕ, List, length, take, slice_get, IsTrue, IsFalse, IfOk, OnOk, OnErr};
ghost use Rattle.std.specs.List.{AllByRecursion};
ghost use Rattle.std.specs.Str.{encode_utf8_all};
ghost use Rattle.std.specs.String.{string_bytes};
ghost use Rattle.bstr.specs.Utf8.{lossy_chars};
ghost use Rattle.crossterm_parse.specs.Putting.{JoinsBeforeEscape};
ghost use Rattle.crossterm_parse.specs.Transitions.{opens_with, opens_after, met_after, Open, Closed};
ghost use Rattle.crossterm_parse.specs.declared.state.State.TheVariants.{Paste};

use crate::steps::Steps;
use memchr::memchr;
use std::alloc::{AllocError, Allocator, Global};
use std::marker::Model;
use std::string::String;
use std::sync::ledger::Ledger;

/// How far a numbered sequence is what opens a paste, which is `200~`.
#[derive(Clone, Copy)]
pub enum Opening {
    /// `2`.
    Two,
    /// `20`.
    Zero,
    /// `200`.
    Zeros,
    /// It opens none.
    Not,
}

impl Opening {
    /// With the first digit.
    pub(crate) fn new(digit: u8) -> Opening
        ensures { result ≡ opens_with digit }
    {
        if digit == b'2' {
            Opening::Two
        } else {
            Opening::Not
        }
    }

    /// With one more byte.
    #[inline(never)]
    pub(crate) fn put(self, byte: u8) -> Opening
        ensures { result ≡ opens_after self byte }
    {
        match (self, byte) {
            (Opening::Two, b'0') => Opening::Zero,
            (Opening::Zero, b'0') => Opening::Zeros,
            _ => Opening::Not,
        }
    }
}

/// How far the end of a paste is met, which is `ESC[201~`.
#[derive(Clone, Copy)]
pub enum Met {
    /// No byte of it.
    Nothing,
    /// ESC.
    Escape,
    /// `ESC [`.
    Bracket,
    /// `ESC [ 2`.
    Two,
    /// `ESC [ 20`.
    Zero,
    /// `ESC [ 201`.
    One,
}

impl Met {
    /// Takes one more byte, if the paste goes on with it, and returns whether it does.
    pub(crate) fn put(&mut self, byte: u8) -> bool
        ensures yes { IsTrue result → met_after self.old byte ≡ Open (Paste self.new) }
        ensures no { IsFalse result → met_after self.old byte ≡ Closed }
        ensures same { IsFalse result → self.new ≡ self.old }
    {
        *self = match (*self, byte) {
            (Met::Escape, b'[') => Met::Bracket,
            (Met::Bracket, b'2') => Met::Two,
            (Met::Two, b'0') => Met::Zero,
            (Met::Zero, b'1') => Met::One,
            (Met::One, b'~') => return false,
            (_, 27) => Met::Escape,
            _ => Met::Nothing,
        };
        true
    }
}

/// How many bytes precede the first ESC.
pub fn before_escape(bytes: &[u8]) -> usize
    ensures most { result ≤ length bytes.now }
    ensures none { AllByRecursion (λ b. b == 27 ≡ false) (take result bytes.now) }
{
    match memchr(27, bytes) {
        Some(place) => place,
        None => bytes.len(),
    }
}

/// What came after the start of a paste, with what may be the front of its end.
#[derive(Drop)]
pub struct PasteText<A: Allocator = Global> {
    bytes: Vec<u8, A>,
}

impl<A: Allocator> Model for PasteText<A> {
    ghost Value = { List ℕ };

    ghost view = { λ p. p.bytes.items };
}

impl<A: Allocator + Clone> PasteText<A> {
    /// A text with no bytes yet.
    pub fn new(alloc: A) -> Self
        ensures { result ≡ [] }
    {
        PasteText {
            bytes: Vec::new(alloc),
        }
    }

    /// How many bytes it has.
    pub fn len(&self) -> usize
        ensures { result ≡ length self.now }
    {
        self.bytes.len()
    }

    /// Joins a byte at the end.
    ///
    /// # Errors
    ///
    /// `AllocError` if memory was refused. Then nothing has changed.
    pub fn push(&mut self, byte: u8) -> Result<(), AllocError>
        ensures ok { OnOk result (self.new ≡ self.old ++ byte ∷ []) }
        ensures err { OnErr result (self.new ≡ self.old) }
    {
        self.bytes.reserve(1)?;
        self.bytes.push_reserved(byte);
        Ok(())
    }

    /// Joins the bytes before the next ESC at the end, and returns how many.
    ///
    /// # Errors
    ///
    /// `AllocError` if memory was refused. Then nothing has changed.
    #[inline(never)]
    pub fn extend<L: Ledger>(
        &mut self,
        bytes: &[u8],
        steps: &mut Steps<L>,
    ) -> Result<usize, AllocError>
        ensures ok { IfOk result (λ count. JoinsBeforeEscape self.old self.new bytes.now count) }
        ensures err { OnErr result (self.new ≡ self.old) }
        ensures counted { IfOk result (λ count. steps.new ≡ steps.old + count) }
        ensures uncounted { OnErr result (steps.new ≡ steps.old) }
    {
        let count = before_escape(bytes);
        self.bytes.extend_from_slice(&bytes[..count])?;
        steps.count(count as u64);
        Ok(count)
    }

    /// The byte at a place, if there is one.
    pub fn look<L: Ledger>(&self, place: usize, steps: &mut Steps<L>) -> Option<u8>
        ensures byte { result ≡ slice_get self.now place }
        ensures steps { steps.new ≡ steps.old + 1 }
    {
        steps.count(1);
        self.bytes.get(place).copied()
    }

    /// The text without the begun end, which has five bytes, and with U+FFFD for each maximal part that isn't UTF-8.
    ///
    /// Each byte of it is looked at once.
    ///
    /// # Errors
    ///
    /// `AllocError` if memory for the text was refused. The paste is as it was.
    pub fn close<L: Ledger>(&self, steps: &mut Steps<L>) -> Result<String<A>, AllocError>
        ensures text { IfOk result (λ text. string_bytes text ≡ encode_utf8_all (lossy_chars (take (length self.now - 5) self.now))) }
        ensures steps { steps.new ≡ steps.old + (length self.now - 5) }
    {
        let end = self.bytes.len().saturating_sub(5);
        steps.count(end as u64);
        let text = String::from_utf8_lossy(self.bytes.allocator().clone()?, &self.bytes[..end])?;
        Ok(text)
    }
}
