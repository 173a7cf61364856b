//! The input of a mode that reads lines.

use crate::fault::{Fault, Wrong};
use std::alloc::Allocator;
use std::io::Read;
use std::str::FromStr;

/// How many bytes of input are read at most, line ends counted.
pub const LIMIT: usize = 1_048_576;

const ABOVE_LIMIT: u64 = LIMIT as u64 + 1;

/// Puts all input after some bytes, or as far as one byte above the limit.
fn read_bytes<A: Allocator, R: Read>(bytes: &mut Vec<u8, A>, reader: &mut R) -> Result<(), Fault> {
    match reader.by_ref().take(ABOVE_LIMIT).read_to_end(bytes) {
        Ok(_) => Ok(()),
        Err(error) => Err(Fault::of_read(&error)),
    }
}

/// All input as text: at most `LIMIT` bytes of UTF-8.
pub fn read_text<A: Allocator, R: Read>(alloc: A, reader: &mut R) -> Result<String<A>, Fault> {
    let mut bytes = Vec::new(alloc);
    read_bytes(&mut bytes, reader)?;
    if bytes.len() > LIMIT {
        return Err(Fault::TooLong);
    }
    String::from_utf8(bytes).ok().ok_or(Fault::NotUtf8)
}

/// A line's first word, and what follows the blank after it.
pub fn divided(line: &str) -> (&str, Option<&str>) {
    match line.split_once(' ') {
        Some((word, rest)) => (word, Some(rest)),
        None => (line, None),
    }
}

/// What the lines of a mode say.
pub trait Lines<A: Allocator + Clone> {
    /// Adds what a line says that isn't empty.
    fn add_line(&mut self, alloc: &A, line: &str) -> Result<(), Wrong>;

    /// Adds what all lines of a text say. The empty ones are passed over, and counted.
    fn add_lines(&mut self, alloc: &A, text: &str) -> Result<(), Fault> {
        let mut number = 0usize;
        for line in text.split('\n') {
            number = number.saturating_add(1);
            if line.is_empty() {
                continue;
            }
            if let Err(wrong) = self.add_line(alloc, line) {
                return Err(wrong.at(number));
            }
        }
        Ok(())
    }

    /// Adds what all lines of the input say.
    fn read<R: Read>(&mut self, alloc: &A, reader: &mut R) -> Result<(), Fault> {
        let text = read_text(alloc.clone()?, reader)?;
        self.add_lines(alloc, text.as_str())
    }
}

/// A number in decimal digits, without a sign, that is in the range of its type.
pub fn number<T: FromStr>(word: &str) -> Option<T>
where
    T::Err: Drop,
{
    if word.starts_with('+') {
        None
    } else {
        word.parse().ok()
    }
}

/// One byte or more in hexadecimal digits of either case.
pub fn bytes<A: Allocator>(alloc: A, word: &str) -> Result<Vec<u8, A>, Wrong> {
    if word.is_empty() {
        return Err(Wrong::Argument);
    }
    match hex::decode(alloc, word) {
        Ok(bytes) => Ok(bytes),
        Err(hex::FromHexError::OutOfMemory) => Err(Wrong::Memory),
        Err(_) => Err(Wrong::Argument),
    }
}

/// Any bytes in hexadecimal digits; `-` is none.
pub fn content_bytes<A: Allocator>(alloc: A, word: &str) -> Result<Vec<u8, A>, Wrong> {
    match word {
        "-" => Ok(Vec::new(alloc)),
        _ => bytes(alloc, word),
    }
}

/// A text in hexadecimal digits, UTF-8; `-` is the empty one.
pub fn text<A: Allocator>(alloc: A, word: &str) -> Result<String<A>, Wrong> {
    String::from_utf8(content_bytes(alloc, word)?)
        .ok()
        .ok_or(Wrong::Argument)
}
