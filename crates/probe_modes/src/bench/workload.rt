//! Inputs of a kind and of a size.
//!
//! Whole sequences follow one another while the next one fits, and letters `a` fill what is left.

use crate::fault::Fault;
use std::alloc::{AllocError, Allocator};
use std::io::Write;

/// What an input consists of.
#[derive(Clone, Copy)]
pub enum Workload {
    /// Words and blanks.
    Letters,
    /// Characters of 2, 3 and 4 bytes.
    Utf8,
    /// Arrows, function keys, keys with modifiers, code points.
    Keys,
    /// Moves of the mouse.
    Mouse,
    /// Reports of the cursor's place, of the keyboard's flags and of the terminal's attributes.
    Replies,
    /// One paste of a text.
    Paste,
    /// One sequence with a number of many zeros.
    Hostile,
}

const WORDS: [&str; 8] = [
    "The ", "quick ", "brown ", "fox ", "jumps ", "over ", "12 ", "dogs. ",
];

const CHARACTERS: [&str; 10] = ["é", "€", "ж", "日", "😀", "ñ", "本", "Ω", "語", "한"];

const KEYS: [&str; 12] = [
    "\x1b[A",
    "\x1bOP",
    "\x1b[1;5A",
    "\x1b[97;5u",
    "\x1b[B",
    "\x1b[15~",
    "\x1b[1;2D",
    "\x1b[13;2u",
    "\x1b[C",
    "\x1b[24~",
    "\x1b[3;5~",
    "\x1bOS",
];

const REPLIES: [&str; 4] = ["\x1b[12;34R", "\x1b[?1u", "\x1b[?62;4c", "\x1b[?31u"];

/// Puts parts after some bytes, in turn and again, while the next one fits below an end.
fn fill<A: Allocator>(
    bytes: &mut Vec<u8, A>,
    end: usize,
    parts: &[&str],
) -> Result<(), AllocError> {
    for _ in 0..end {
        for part in parts {
            if part.len() > end.saturating_sub(bytes.len()) {
                return Ok(());
            }
            bytes.extend_from_slice(part.as_bytes())?;
        }
    }
    Ok(())
}

/// Puts a front, parts as many as fit, and a back after some bytes, if front and back fit below an end.
fn enclose<A: Allocator>(
    bytes: &mut Vec<u8, A>,
    end: usize,
    (front, parts, back): (&str, &[&str], &str),
) -> Result<(), AllocError> {
    let room = end.saturating_sub(back.len());
    if front.len() <= room {
        bytes.extend_from_slice(front.as_bytes())?;
        fill(bytes, room, parts)?;
        bytes.extend_from_slice(back.as_bytes())?;
    }
    Ok(())
}

/// Puts reports of a moving mouse after some bytes, while the next one fits below an end.
fn moves<A: Allocator + Clone>(bytes: &mut Vec<u8, A>, end: usize) -> Result<(), AllocError> {
    let alloc = bytes.allocator().clone()?;
    for place in 0..end {
        let column = 1 + place % 200;
        let row = 1 + place / 200 % 50;
        let report = format!(in &alloc; "\x1b[<35;{column};{row}M")?;
        if report.len() > end.saturating_sub(bytes.len()) {
            break;
        }
        bytes.extend_from_slice(report.as_bytes())?;
    }
    Ok(())
}

impl Workload {
    /// The workload of a name.
    pub fn named(name: &str) -> Option<Workload> {
        match name {
            "letters" => Some(Workload::Letters),
            "utf8" => Some(Workload::Utf8),
            "keys" => Some(Workload::Keys),
            "mouse" => Some(Workload::Mouse),
            "replies" => Some(Workload::Replies),
            "paste" => Some(Workload::Paste),
            "hostile" => Some(Workload::Hostile),
            _ => None,
        }
    }

    /// So many bytes of it.
    pub fn make<A: Allocator + Clone>(
        self,
        alloc: A,
        count: usize,
    ) -> Result<Vec<u8, A>, AllocError> {
        let mut bytes = Vec::new(alloc);
        match self {
            Workload::Letters => fill(&mut bytes, count, &WORDS)?,
            Workload::Utf8 => fill(&mut bytes, count, &CHARACTERS)?,
            Workload::Keys => fill(&mut bytes, count, &KEYS)?,
            Workload::Mouse => moves(&mut bytes, count)?,
            Workload::Replies => fill(&mut bytes, count, &REPLIES)?,
            Workload::Paste => enclose(&mut bytes, count, ("\x1b[200~", &WORDS, "\x1b[201~"))?,
            Workload::Hostile => enclose(&mut bytes, count, ("\x1b[", &["0"], "5~"))?,
        }
        bytes.resize(count, b'a')?;
        Ok(bytes)
    }

    /// Writes so many bytes of it.
    pub fn write<A: Allocator + Clone, W: Write>(
        self,
        alloc: A,
        count: usize,
        writer: &mut W,
    ) -> Result<(), Fault> {
        let bytes = self.make(alloc, count)?;
        match writer.write_all(bytes.as_slice()) {
            Ok(()) => Ok(()),
            Err(error) => Err(Fault::of_write(&error)),
        }
    }
}
