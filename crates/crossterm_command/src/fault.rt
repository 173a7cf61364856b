//! Why a command wasn't written.
ghost use Rattle.crossterm_command.specs.Faults.{Answers};

use std::io;
use std::io::ErrorKind;

/// Why a command wasn't written whole.
#[derive(Debug, Drop)]
pub enum CommandFault {
    /// The writer failed, or took 0 bytes (`WriteZero`).
    Writer(io::Error),
    /// The command failed by itself.
    Text,
    /// The writer failed, and after it the command by itself.
    Both(io::Error),
    /// The text was written whole, and the flush after it failed.
    Flush(io::Error),
}

impl From<CommandFault> for io::Error {
    ghost from_gives = { Answers };

    /// The writer's or the flush's own fault if it alone failed, else one of kind `Other`.
    fn from(fault: CommandFault) -> io::Error {
        match fault {
            CommandFault::Writer(e) => e,
            CommandFault::Flush(e) => e,
            CommandFault::Text => io::Error::from(ErrorKind::Other),
            CommandFault::Both(_) => io::Error::from(ErrorKind::Other),
        }
    }
}
