//! Copying to the clipboard.
ghost use Rattle.std.specs.Prelude.{◌≡◌, OnOk, IfOk, IfErr, Some, [], ◌∷◌};
ghost use Rattle.std.specs.Fmt.{WritesInCalls};
ghost use Rattle.std.specs.IoError.{error_kind};
ghost use Rattle.crossterm_command.specs.Tokens.{text_of};
ghost use Rattle.crossterm.specs.Clipboard.{letter_of, copy_functions, selection_of, selection_text, type_of};

use crate::command::Command;
use crate::style::ColorOutput;
use base64::display::Base64Display;
use base64::engine::general_purpose::STANDARD;
use std::alloc::{Allocator, Global};
use std::convert::AsSlice;
use std::io::ErrorKind;
use std::{fmt, io};

/// One of the places that a terminal can keep a copy in (`Pc` of xterm ctlseqs, `OSC 52`).
#[derive(Debug, Clone, Drop, PartialEq, Eq)]
pub enum ClipboardType {
    /// The clipboard, `c`.
    Clipboard,
    /// The primary selection, `p`.
    Primary,
    /// The place that the terminal knows by this letter.
    Other(char),
}

impl From<&ClipboardType> for char {
    ghost from_gives = { λ x y. y ≡ letter_of x.now };

    fn from(value: &ClipboardType) -> char {
        match value {
            ClipboardType::Clipboard => 'c',
            ClipboardType::Primary => 'p',
            ClipboardType::Other(letter) => *letter,
        }
    }
}

impl From<char> for ClipboardType {
    ghost from_gives = { λ x y. y ≡ type_of x };

    fn from(value: char) -> ClipboardType {
        match value {
            'c' => ClipboardType::Clipboard,
            'p' => ClipboardType::Primary,
            letter => ClipboardType::Other(letter),
        }
    }
}

/// The places that a copy goes to, in order. With none the terminal decides.
///
/// It shows (`Display`) as their letters.
#[derive(Drop)]
#[derive_where(Clone; A)]
#[derive_where(Debug, PartialEq, Eq)]
pub struct ClipboardSelection<A: Allocator = Global>(pub Vec<ClipboardType, A>);

impl<A: Allocator> ClipboardSelection<A> {
    /// The places by their letters: `cp` is the clipboard and the primary selection.
    ///
    /// It is no `FromStr`, which hands in no allocator.
    ///
    /// # Errors
    ///
    /// `OutOfMemory` if memory was refused.
    pub fn from_str(alloc: A, text: &str) -> io::Result<ClipboardSelection<A>>
        ensures ok { IfOk result (λ selection. selection.0.items ≡ selection_of text.now) }
        ensures err { IfErr result (λ e. error_kind e ≡ ErrorKind.OutOfMemory) }
    {
        let types = text.chars().map(ClipboardType::from).collect(alloc)?;
        Ok(ClipboardSelection(types))
    }
}

impl<A: Allocator> fmt::Display for ClipboardSelection<A> {
    ghost output = { λ selection. Some (selection_text selection.0.items) };

    fn fmt<W: fmt::Write>(&self, f: &mut fmt::Formatter<W>) -> fmt::Result {
        for place in &self.0 {
            f.write_char(char::from(place))?;
        }
        Ok(())
    }
}

/// Writes the sequence that copies bytes.
fn write_copy<W: fmt::Write, A: Allocator>(
    f: &mut W,
    destination: &ClipboardSelection<A>,
    content: &[u8],
) -> fmt::Result
    ensures { OnOk result (WritesInCalls W.write_str_gives f.old (text_of (copy_functions content.now destination.now.0.items)) f.new) }
{
    let content = Base64Display::new(content, &STANDARD);
    write!(f, "\x1b]52;{destination};{content}\x1b\\")
}

/// Copies bytes to a terminal's clipboard and its like (xterm ctlseqs, `OSC 52`).
///
/// The bytes are lent or owned: a slice, a text, a `Vec`, a `String`. They are written in Base64, piece by piece and without a copy. The
/// letters of the destination are written as they are: an escape or a bell among them ends the text there.
#[derive(Drop)]
#[derive_where(Clone; A, T)]
#[derive_where(Debug, PartialEq, Eq; T)]
pub struct CopyToClipboard<T, A: Allocator = Global> {
    /// What is copied.
    pub content: T,
    /// Where it goes.
    pub destination: ClipboardSelection<A>,
}

impl<T: AsSlice<u8>, A: Allocator> Command for CopyToClipboard<T, A> {
    ghost text = { λ c _. Some (text_of (copy_functions (T.items c.content) c.destination.0.items)) };

    fn write_ansi<W: fmt::Write>(&self, f: &mut W, _colors: ColorOutput) -> fmt::Result {
        write_copy(f, &self.destination, self.content.as_slice())
    }
}

impl<T: AsSlice<u8> + Drop, A: Allocator> CopyToClipboard<T, A> {
    /// A copy of `content` to the clipboard alone.
    ///
    /// # Errors
    ///
    /// `OutOfMemory` if memory was refused. Then `content` is dropped.
    ///
    /// ```
    /// let copy = CopyToClipboard::to_clipboard_from(alloc, "a text")?;
    /// execute!(w, colors, copy)?;
    /// ```
    pub fn to_clipboard_from(alloc: A, content: T) -> io::Result<CopyToClipboard<T, A>>
        ensures ok { IfOk result (λ c. (c.content ≡ content)
            × (c.destination.0.items ≡ ClipboardType.Clipboard ∷ [])) }
        ensures err { IfErr result (λ e. error_kind e ≡ ErrorKind.OutOfMemory) }
    {
        Ok(CopyToClipboard {
            content,
            destination: ClipboardSelection(vec![in alloc; ClipboardType::Clipboard]?),
        })
    }

    /// A copy of `content` to the primary selection alone.
    ///
    /// # Errors
    ///
    /// `OutOfMemory` if memory was refused. Then `content` is dropped.
    pub fn to_primary_from(alloc: A, content: T) -> io::Result<CopyToClipboard<T, A>>
        ensures ok { IfOk result (λ c. (c.content ≡ content)
            × (c.destination.0.items ≡ ClipboardType.Primary ∷ [])) }
        ensures err { IfErr result (λ e. error_kind e ≡ ErrorKind.OutOfMemory) }
    {
        Ok(CopyToClipboard {
            content,
            destination: ClipboardSelection(vec![in alloc; ClipboardType::Primary]?),
        })
    }
}
