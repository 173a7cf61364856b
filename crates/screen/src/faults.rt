//! Why a cell isn't set, and why a frame isn't drawn.
ghost use Rattle.std.specs.Prelude.{◌≡◌};
ghost use Rattle.std.specs.declared.io.ErrorKind.TheVariants.{InvalidInput};
ghost use Rattle.std.specs.IoError.{error_kind};
ghost use Rattle.screen.specs.Drawings.{BecomesError};

use crossterm_command::CommandFault;
use std::io;
use std::io::ErrorKind;
use thiserror::Error;

/// Why a character, a text or a border isn't set in a buffer. Then the buffer hasn't changed. As an `io::Error` it has the kind `InvalidInput`,
/// and its text is the same.
#[derive(Clone, Copy, Debug, PartialEq, Eq, Error)]
#[error("{}", self.words())]
pub enum CellFault {
    /// The buffer has no such column or row.
    Outside,
    /// It is a control character, which would do something else than show.
    Control,
    /// It takes no column, and isn't a mark of a character before it. `Buffer::print_without_marks` leaves such characters out.
    NoWidth,
    /// Some terminals join it with its neighbours: a joiner, a selector of text or emoji, a letter of a flag, a skin tone or a tag.
    Joined,
    /// A character has more than three marks.
    ManyMarks,
    /// It takes more than two columns. If it is to replace others, it takes more than one.
    Wide,
    /// It takes two columns, and a row's last one has no room for it.
    LastColumn,
    /// A rectangle has fewer than two columns or two rows, and so no border.
    TooSmall,
}

impl CellFault {
    /// What a program prints of it.
    fn words(&self) -> &'static str {
        match self {
            CellFault::Outside => "a cell outside the buffer",
            CellFault::Control => "a control character in a cell",
            CellFault::NoWidth => "a character of width 0 in a cell",
            CellFault::Joined => "a character that terminals join with others",
            CellFault::ManyMarks => "a character with more than three marks",
            CellFault::Wide => "a character of too many columns",
            CellFault::LastColumn => "a character of two columns in the last one",
            CellFault::TooSmall => "a border in fewer than two columns or rows",
        }
    }
}

/// Why a frame isn't drawn. As an `io::Error`, `Command` is the error that its fault becomes, `Memory` has the kind `OutOfMemory`, and the others
/// have the kind `InvalidInput` and the same text.
#[derive(Debug, Drop, Error)]
#[error("{}", self.words())]
pub enum DrawFault {
    /// The buffer has another size than the screen, or fewer rows than the block. Nothing was written.
    Size,
    /// The cursor's place is outside the screen. Nothing was written.
    Cursor,
    /// Memory was refused for the rows of a block. Nothing was written.
    Memory,
    /// The writer failed. A beginning of the frame was written, and nothing else.
    Command(CommandFault),
}

impl DrawFault {
    /// What a program prints of it.
    fn words(&self) -> &'static str {
        match self {
            DrawFault::Size => "a buffer of another size than the screen",
            DrawFault::Cursor => "a cursor outside the screen",
            DrawFault::Memory => "no memory for the rows of a block",
            DrawFault::Command(_) => "a frame that wasn't written whole",
        }
    }
}

impl From<CellFault> for io::Error {
    ghost from_gives = { λ fault error. error_kind error ≡ InvalidInput };

    /// Of the kind `InvalidInput`, with the fault's text.
    fn from(fault: CellFault) -> io::Error {
        io::Error::new(ErrorKind::InvalidInput, fault.words())
    }
}

impl From<DrawFault> for io::Error {
    ghost from_gives = { BecomesError };

    /// What a command's fault becomes, an error of the kind `OutOfMemory` for `Memory`, else one of the kind `InvalidInput`, with the fault's text.
    fn from(fault: DrawFault) -> io::Error {
        let words = fault.words();
        match fault {
            DrawFault::Size => io::Error::new(ErrorKind::InvalidInput, words),
            DrawFault::Cursor => io::Error::new(ErrorKind::InvalidInput, words),
            DrawFault::Memory => io::Error::from(ErrorKind::OutOfMemory),
            DrawFault::Command(fault) => io::Error::from(fault),
        }
    }
}
