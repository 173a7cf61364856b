//! Sizes of a terminal that someone else reports, a line each.

use std::fs::File;
use std::io::{self, ErrorKind, Read};
use std::os::fd::{AsRawFd, RawFd};

/// A descriptor that reports sizes, in lines `ROWS COLUMNS` as `stty size` writes them.
#[derive(Drop)]
pub(crate) struct Sizes {
    file: File,
    line: Line,
}

// A line as far as it was read.
#[derive(Clone, Copy)]
enum Line {
    // The number of rows, once it has a digit.
    Rows(Option<u16>),
    // The rows, and the number of columns, once it has a digit.
    Columns(u16, Option<u16>),
    // No size.
    Wrong,
}

// A number with one more digit, if that fits.
fn with_digit(number: Option<u16>, byte: u8) -> Option<u16> {
    let digit = u16::from(byte).checked_sub(u16::from(b'0'))?;
    number.unwrap_or(0).checked_mul(10)?.checked_add(digit)
}

impl Line {
    // The line with one more byte.
    fn with(self, byte: u8) -> Line {
        let longer = match (self, byte) {
            (Line::Rows(rows), b'0'..=b'9') => {
                with_digit(rows, byte).map(|rows| Line::Rows(Some(rows)))
            }
            (Line::Rows(Some(rows)), b' ') => Some(Line::Columns(rows, None)),
            (Line::Columns(rows, columns), b'0'..=b'9') => {
                with_digit(columns, byte).map(|columns| Line::Columns(rows, Some(columns)))
            }
            _ => None,
        };
        longer.unwrap_or(Line::Wrong)
    }

    // Columns and rows, if it is whole.
    fn size(self) -> Option<(u16, u16)> {
        match self {
            Line::Columns(rows, Some(columns)) => Some((columns, rows)),
            _ => None,
        }
    }
}

impl Sizes {
    /// The sizes that are reported from here on.
    pub(crate) fn new(file: File) -> Sizes {
        Sizes {
            file,
            line: Line::Rows(None),
        }
    }

    /// Its descriptor.
    pub(crate) fn fd(&self) -> RawFd {
        self.file.as_raw_fd()
    }

    /// Reads once, and gives columns and rows of the last line that ended and is a size. A line that hasn't ended is kept, and one that is
    /// no size is passed over. The error is `UnexpectedEof` at the end of all lines, and else the reader's.
    pub(crate) fn read(&mut self) -> io::Result<Option<(u16, u16)>> {
        let mut buf = [0u8; 256];
        let count = self.file.read(&mut buf)?;
        if count == 0 {
            return Err(io::Error::from(ErrorKind::UnexpectedEof));
        }
        let mut last = None;
        for byte in &buf[..count] {
            if *byte == b'\n' {
                last = self.line.size().or(last);
                self.line = Line::Rows(None);
            } else {
                self.line = self.line.with(*byte);
            }
        }
        Ok(last)
    }
}
