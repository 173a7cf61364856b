//! Lines that a helper completes, over scripted keys.

use super::{Comes, EMPTY, NEXT, begun, came, is_written, typed};
use crate::witness::Witness;
use line_editor::{Editor, Limits};
use prompt::{Prompt, Words};
use std::alloc::Global;
use std::io::{self, ErrorKind};
use std::sync::Wait;
use std::sync::atomic::AtomicU32;
use test_support::expect;

/// The rest of the last one has 80 columns, of which a line leaves 78.
const NAMES: [&str; 5] = [
    "echo",
    "echoes",
    "\u{6f22}\u{5b57}",
    "c\x1b[2J",
    "n12345678901234567890123456789012345678901234567890123456789012345678901234567890",
];

/// What is typed, and what has to come of it.
struct Row {
    typed: &'static [u8],
    /// The bytes that a line has at most.
    most: usize,
    comes: Comes,
    /// All that is written, a frame after the other.
    written: &'static [&'static str],
}

const ROWS: &[Row] = &[
    // Tab writes the rest of the first name, which was the hint. Another hint is erased as the row is left.
    Row {
        typed: b"ec\t\r",
        most: 9,
        comes: Comes::Line("echo"),
        written: &[
            EMPTY,
            "e\x1b[0m\x1b[2mcho\x1b[2G\x1b[0m",
            "c",
            "ho\x1b[0m\x1b[2mes\x1b[5G\x1b[0m",
            "\x1b[K\r\n",
        ],
    },
    // If no name begins so, Tab does nothing.
    Row {
        typed: b"x\t\r",
        most: 9,
        comes: Comes::Line("x"),
        written: &[EMPTY, "x", NEXT],
    },
    // Nor with Control, as kitty reports it, nor as it is let go.
    Row {
        typed: b"ec\x1b[9;5u\x1b[9;1:3u\r",
        most: 9,
        comes: Comes::Line("ec"),
        written: &[EMPTY, "e\x1b[0m\x1b[2mcho\x1b[2G\x1b[0m", "c", "\x1b[K\r\n"],
    },
    // A rest that has no room rings the bell.
    Row {
        typed: b"ec\t\r",
        most: 3,
        comes: Comes::Line("ec"),
        written: &[
            EMPTY,
            "e\x1b[0m\x1b[2mcho\x1b[2G\x1b[0m",
            "c",
            "\x07",
            "\x1b[K\r\n",
        ],
    },
    // Undo takes a completion back.
    Row {
        typed: b"ec\t\x1f\r",
        most: 9,
        comes: Comes::Line("ec"),
        written: &[
            EMPTY,
            "e\x1b[0m\x1b[2mcho\x1b[2G\x1b[0m",
            "c",
            "ho\x1b[0m\x1b[2mes\x1b[5G\x1b[0m",
            "\x1b[3G\x1b[0m\x1b[2mho\x1b[0m  \x1b[3G",
            "\x1b[K\r\n",
        ],
    },
    // What is behind the cursor stays there, and while something is, there is no hint.
    Row {
        typed: b"o\x01ec\t\r",
        most: 9,
        comes: Comes::Line("echoo"),
        written: &[
            EMPTY,
            "o",
            "\x1b[1G",
            "eo\x1b[2G",
            "co\x1b[3G",
            "hoo\x1b[5G",
            NEXT,
        ],
    },
    // A wide name, a hint that is erased by Ctrl-C, and one that has no room.
    Row {
        typed: b"\xe6\xbc\xa2\x03",
        most: 9,
        comes: Comes::Interrupted,
        written: &[
            EMPTY,
            "\u{6f22}\x1b[0m\x1b[2m\u{5b57}\x1b[3G\x1b[0m",
            "\x1b[K\r\n",
        ],
    },
    Row {
        typed: b"n\r",
        most: 9,
        comes: Comes::Line("n"),
        written: &[EMPTY, "n", NEXT],
    },
    // A control character is neither shown nor written.
    Row {
        typed: b"c\t\r",
        most: 9,
        comes: Comes::Line("c[2J"),
        written: &[EMPTY, "c", "[2J", NEXT],
    },
];

/// Whether a row comes and is written as it says.
fn is_so<R: Wait>(rt: &R, alloc: Global, row: &Row) -> io::Result<bool> {
    let calls = AtomicU32::new(0);
    let acts = typed(alloc, row.typed)?;
    let mut tty = begun(rt, alloc, acts, &calls, None, Vec::new(alloc))?;
    let limits = Limits {
        bytes: row.most,
        ..Limits::default()
    };
    let mut editor = Editor::new(alloc, limits)?;
    let words = Words::new(&NAMES);
    let prompt = Prompt::new("").with_helper(&words);
    let made = prompt.read_line(rt, &mut tty, &mut editor);
    Ok(came(made, row.comes) && is_written(&tty.out, row.written))
}

#[test]
fn tab_completes_a_name(rt: HostRuntime) -> io::Result<()> {
    for row in ROWS {
        expect!(rt; is_so(&rt, rt.alloc(), row)?);
    }
    Ok(())
}

/// How many bytes are written as a name is completed and accepted: three frames, the hint's end, and the next row.
const COMPLETED: usize = EMPTY.len() + 21 + 1 + 22 + 5;

/// Whether a line comes whole, in this call or the next, from a writer that fails after so many bytes.
fn comes_whole<R: Wait>(rt: &R, alloc: Global, room: usize) -> io::Result<bool> {
    let calls = AtomicU32::new(0);
    let out = Witness::new(alloc, room, ErrorKind::BrokenPipe);
    let mut tty = begun(rt, alloc, typed(alloc, b"ec\t\r")?, &calls, None, out)?;
    let mut editor = Editor::new(alloc, Limits::default())?;
    let words = Words::new(&NAMES);
    let prompt = Prompt::new("").with_helper(&words);
    let line = Comes::Line("echo");
    let first = prompt.read_line(rt, &mut tty, &mut editor);
    if first.is_ok() {
        return Ok(came(first, line));
    }
    let is_fault = came(first, Comes::Fault(ErrorKind::BrokenPipe));
    Ok(is_fault && came(prompt.read_line(rt, &mut tty, &mut editor), line))
}

#[test]
fn a_writer_that_fails_loses_no_completion(rt: HostRuntime) -> io::Result<()> {
    for room in 0..COMPLETED {
        expect!(rt; comes_whole(&rt, rt.alloc(), room)?);
    }
    Ok(())
}
