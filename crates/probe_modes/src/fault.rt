//! Faults of the program itself.

use std::alloc::AllocError;
use std::io;
use thiserror::Error;

/// Why the program gives up. Lines are counted from 1.
#[derive(Debug, Clone, Copy, Error)]
pub enum Fault {
    /// The command line isn't one mode word.
    #[error("probe: usage: probe play|say|serve|keys")]
    Usage,
    /// The words after `bench` are none of that mode's.
    #[error("probe: usage: probe bench [frame] [--time] | probe bench screen all|few|line|one|wide [--time] | probe bench held REPLIES | probe bench recorded | probe bench keys BINDINGS | probe bench take read|burst|poll|shared|within|stream KEYS | probe bench make letters|utf8|keys|mouse|replies|paste|hostile BYTES")]
    BenchUsage,
    /// A line's first word is none of the mode's.
    #[error("probe: line {0}: unknown word")]
    UnknownWord(usize),
    /// Something else is wrong with a line.
    #[error("probe: line {0}: bad argument")]
    BadArgument(usize),
    #[error("probe: input is not UTF-8")]
    NotUtf8,
    /// The input has more bytes than are read.
    #[error("probe: input too long")]
    TooLong,
    #[error("probe: out of memory")]
    OutOfMemory,
    #[error("probe: read failed")]
    ReadFailed,
    #[error("probe: write failed")]
    WriteFailed,
    #[error("probe: socket failed")]
    SocketFailed,
    #[error("probe: no clock")]
    NoClock,
}

impl From<AllocError> for Fault {
    fn from(_: AllocError) -> Fault {
        Fault::OutOfMemory
    }
}

impl Fault {
    /// Of a read: want of memory, or that the read failed.
    pub fn of_read(error: &io::Error) -> Fault {
        match error.kind() {
            io::ErrorKind::OutOfMemory => Fault::OutOfMemory,
            _ => Fault::ReadFailed,
        }
    }

    /// Of a socket: want of memory, or that the socket failed.
    pub fn of_socket(error: &io::Error) -> Fault {
        match error.kind() {
            io::ErrorKind::OutOfMemory => Fault::OutOfMemory,
            _ => Fault::SocketFailed,
        }
    }

    /// Of a write: want of memory, or that the write failed.
    pub fn of_write(error: &io::Error) -> Fault {
        match error.kind() {
            io::ErrorKind::OutOfMemory => Fault::OutOfMemory,
            _ => Fault::WriteFailed,
        }
    }
}

/// What is wrong with a line.
#[derive(Clone, Copy)]
pub enum Wrong {
    /// Its first word.
    Word,
    /// Anything else.
    Argument,
    /// Nothing: there is no memory to read it.
    Memory,
}

impl From<AllocError> for Wrong {
    fn from(_: AllocError) -> Wrong {
        Wrong::Memory
    }
}

impl Wrong {
    /// The fault of the line with this number.
    pub fn at(self, line: usize) -> Fault {
        match self {
            Wrong::Word => Fault::UnknownWord(line),
            Wrong::Argument => Fault::BadArgument(line),
            Wrong::Memory => Fault::OutOfMemory,
        }
    }
}
