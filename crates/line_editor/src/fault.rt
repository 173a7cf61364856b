//! Why an edit is refused.
ghost use Rattle.std.specs.Prelude.{◌≡◌};
ghost use Rattle.std.specs.IoError.{error_kind};
ghost use Rattle.line_editor.specs.Bounds.{line_fault_kind};

use std::io;
use std::io::ErrorKind;
use thiserror::Error;

/// Why a call of an editor is refused. Then nothing has changed.
///
/// As an `io::Error`, `Memory` has the kind `OutOfMemory`, and `TooLong` has `InvalidInput` and the same text.
///
/// ```
/// let mut editor = Editor::new(alloc, Limits { bytes: 2, ..Limits::default() })?;
/// assert_eq!(rt; editor.paste("abc"), Err(EditFault::TooLong));
/// ```
#[derive(Clone, Copy, Debug, PartialEq, Eq, Error)]
#[error("{}", self.words())]
pub enum EditFault {
    /// Memory was refused.
    Memory,
    /// The line would have more bytes than its limit.
    TooLong,
}

impl EditFault {
    /// The words that a program prints for it.
    fn words(&self) -> &'static str {
        match self {
            EditFault::Memory => "out of memory",
            EditFault::TooLong => "the line would be too long",
        }
    }
}

impl From<EditFault> for io::Error {
    ghost from_gives = { λ fault error. error_kind error ≡ line_fault_kind fault };

    /// Of the kind `OutOfMemory` if memory was refused, else `InvalidInput`, with the fault's text.
    fn from(fault: EditFault) -> io::Error {
        match fault {
            EditFault::Memory => io::Error::from(ErrorKind::OutOfMemory),
            EditFault::TooLong => io::Error::new(ErrorKind::InvalidInput, fault.words()),
        }
    }
}
