//! Lines that are asked for, over scripted keys and writers that fail.

mod drawn;
mod helped;
mod printed;
mod resized;
mod rows;
mod shown;

use crate::noted::{Call, Noted, terminal_by};
use crate::witness::Witness;
use crossterm::event::source::{Act, DeviceSource, RawFlag, Script};
use line_editor::{Editor, Limits};
use linked_list_allocator::LocalHeap;
use own_terminal::Session;
use prompt::{Prompt, Read, read_line};
use std::alloc::{Allocator, Global};
use std::io::{self, ErrorKind, Write};
use std::sync::Wait;
use std::sync::atomic::{AtomicU32, Ordering};
use test_support::{Still, expect, text};

type Asked<'a, W> = Session<DeviceSource<Script>, Noted<'a>, W, Still>;

/// What comes of a call.
#[derive(Clone, Copy, PartialEq)]
enum Comes {
    Line(&'static str),
    Interrupted,
    Closed,
    Fault(ErrorKind),
}

/// Whether this came of a call.
fn came<A: Allocator>(made: io::Result<Read<A>>, comes: Comes) -> bool {
    match (made, comes) {
        (Ok(Read::Line(text)), Comes::Line(want)) => text.as_str() == want,
        (Ok(Read::Interrupted), Comes::Interrupted) => true,
        (Ok(Read::Closed), Comes::Closed) => true,
        (Err(error), Comes::Fault(kind)) => error.kind() == kind,
        _ => false,
    }
}

/// A session of these acts, with a device of modes that refuses a call, perhaps.
fn begun<'a, R: Wait, W: Write + Drop>(
    rt: &R,
    alloc: Global,
    acts: Vec<Act>,
    calls: &'a AtomicU32,
    refused: Option<Call>,
    out: W,
) -> io::Result<Asked<'a, W>> {
    let term = terminal_by(RawFlag::new(alloc)?, calls, refused);
    Session::over(rt, alloc, Script::new(acts), term, out, Still)
}

/// What is typed, and what has to come of it.
struct Row {
    typed: &'static [u8],
    prompt: &'static str,
    /// The bytes that a line has at most.
    most: usize,
    comes: Comes,
    /// All that is written, a frame after the other.
    written: &'static [&'static str],
}

/// The first frame of an empty line without a prompt.
const EMPTY: &str = "\x1b[0m\x1b[?25h\x1b[1G\x1b[K";

/// What leaves the row.
const NEXT: &str = "\r\n";

const ROWS: &[Row] = &[
    // The first frame of a line erases the row. The next one is the letter that was typed.
    Row {
        typed: b"a\r",
        prompt: "> ",
        most: 9,
        comes: Comes::Line("a"),
        written: &["\x1b[0m\x1b[?25h\x1b[1G\x1b[K> ", "a", NEXT],
    },
    // The cursor goes back, and nothing else is written.
    Row {
        typed: b"a\x02\r",
        prompt: "",
        most: 9,
        comes: Comes::Line("a"),
        written: &[EMPTY, "a", "\x1b[1G", NEXT],
    },
    // Ctrl-L clears the window, and all is drawn anew at its top.
    Row {
        typed: b"a\x0cb\r",
        prompt: "",
        most: 9,
        comes: Comes::Line("ab"),
        written: &[
            EMPTY,
            "a",
            "\x1b[2J\x1b[1;1H",
            "\x1b[0m\x1b[?25h\x1b[1G\x1b[Ka",
            "b",
            NEXT,
        ],
    },
    // A character that has no room rings the bell.
    Row {
        typed: b"ab\r",
        prompt: "",
        most: 1,
        comes: Comes::Line("a"),
        written: &[EMPTY, "a", "\x07", NEXT],
    },
    Row {
        typed: b"\x1b[200~xyz\x1b[201~\r",
        prompt: "",
        most: 2,
        comes: Comes::Line(""),
        written: &[EMPTY, "\x07", NEXT],
    },
    Row {
        typed: b"\x03",
        prompt: "",
        most: 9,
        comes: Comes::Interrupted,
        written: &[EMPTY, NEXT],
    },
    Row {
        typed: b"\x04",
        prompt: "",
        most: 9,
        comes: Comes::Closed,
        written: &[EMPTY, NEXT],
    },
    // At the end of input the line is left as it is.
    Row {
        typed: b"",
        prompt: "",
        most: 9,
        comes: Comes::Fault(ErrorKind::UnexpectedEof),
        written: &[EMPTY],
    },
    Row {
        typed: b"\r",
        prompt: "\u{4f60}\u{597d}",
        most: 9,
        comes: Comes::Line(""),
        written: &["\x1b[0m\x1b[?25h\x1b[1G\x1b[K\u{4f60}\u{597d}", NEXT],
    },
    // A prompt with a control character is refused, and nothing is written.
    Row {
        typed: b"a\r",
        prompt: "\x1b[2J> ",
        most: 9,
        comes: Comes::Fault(ErrorKind::InvalidInput),
        written: &[],
    },
    Row {
        typed: b"a\r",
        prompt: "> \u{9b}2J",
        most: 9,
        comes: Comes::Fault(ErrorKind::InvalidInput),
        written: &[],
    },
];

/// Whether these texts were written, one after another, and nothing else.
fn is_written(bytes: &[u8], texts: &[&str]) -> bool {
    let mut rest = bytes;
    for text in texts {
        match rest.strip_prefix(text.as_bytes()) {
            Some(more) => rest = more,
            None => return false,
        }
    }
    rest.is_empty()
}

/// Whether a row comes and is written as it says, wrapped or not.
fn is_so<R: Wait>(rt: &R, alloc: Global, row: &Row, wraps: bool) -> io::Result<bool> {
    let calls = AtomicU32::new(0);
    let acts = Vec::from_array(alloc, [text(alloc, row.typed)?])?;
    let mut tty = begun(rt, alloc, acts, &calls, None, Vec::new(alloc))?;
    let limits = Limits {
        bytes: row.most,
        ..Limits::default()
    };
    let mut editor = Editor::new(alloc, limits)?;
    let made = if wraps {
        read_line(rt, &mut tty, &mut editor, row.prompt)
    } else {
        let prompt = Prompt::new(row.prompt).in_one_row();
        prompt.read_line(rt, &mut tty, &mut editor)
    };
    Ok(came(made, row.comes) && is_written(&tty.out, row.written))
}

#[test]
fn rows_of_keys_give_their_lines(rt: HostRuntime) -> io::Result<()> {
    for row in ROWS {
        expect!(rt; is_so(&rt, rt.alloc(), row, true)?, row.prompt);
    }
    Ok(())
}

/// What comes of these calls, one after another, in one session with this writer: the calls of its device of modes, if it is so.
fn asks<R: Wait, W: Write + Drop>(
    rt: &R,
    alloc: Global,
    acts: Vec<Act>,
    refused: Option<Call>,
    out: W,
    calls: &[(&str, Comes)],
) -> io::Result<Option<u32>> {
    let modes = AtomicU32::new(0);
    let mut tty = begun(rt, alloc, acts, &modes, refused, out)?;
    let mut editor = Editor::new(alloc, Limits::default())?;
    for (prompt, comes) in calls {
        if !came(read_line(rt, &mut tty, &mut editor, prompt), *comes) {
            return Ok(None);
        }
    }
    Ok(Some(modes.load(Ordering::SeqCst)))
}

/// An act that reports this text, alone.
fn typed(alloc: Global, bytes: &[u8]) -> io::Result<Vec<Act>> {
    Ok(Vec::from_array(alloc, [text(alloc, bytes)?])?)
}

#[test]
fn what_is_typed_ahead_is_the_next_line(rt: HostRuntime) -> io::Result<()> {
    let alloc = rt.alloc();
    let calls = [
        ("", Comes::Line("one")),
        ("\x07", Comes::Fault(ErrorKind::InvalidInput)),
        ("", Comes::Line("two")),
        ("", Comes::Fault(ErrorKind::UnexpectedEof)),
    ];
    // The mode, the raw mode and a size, and two sizes more.
    let modes = asks(
        &rt,
        alloc,
        typed(alloc, b"one\rtwo\r")?,
        None,
        Vec::new(alloc),
        &calls,
    )?;
    expect!(rt; modes == Some(12444));
    Ok(())
}

#[test]
fn a_refused_prompt_asks_for_nothing(rt: HostRuntime) -> io::Result<()> {
    let alloc = rt.alloc();
    let calls = [("\x1b", Comes::Fault(ErrorKind::InvalidInput))];
    expect!(rt; asks(&rt, alloc, typed(alloc, b"a\r")?, None, Vec::new(alloc), &calls)? == Some(0));
    Ok(())
}

#[test]
fn a_resize_asks_for_the_size_anew(rt: HostRuntime) -> io::Result<()> {
    let alloc = rt.alloc();
    let acts = Vec::from_array(
        alloc,
        [
            text(alloc, b"a")?,
            Act::Resize(40, 10),
            text(alloc, b"\x1b[1;2Rb\r")?,
        ],
    )?;
    let calls = [("", Comes::Line("ab"))];
    expect!(rt; asks(&rt, alloc, acts, None, Vec::new(alloc), &calls)? == Some(1244));
    Ok(())
}

#[test]
fn a_device_of_modes_that_refuses_is_answered(rt: HostRuntime) -> io::Result<()> {
    let alloc = rt.alloc();
    let calls = [("", Comes::Fault(ErrorKind::PermissionDenied))];
    for (refused, modes) in [(Call::Mode, 1), (Call::SetRaw, 12), (Call::WindowSize, 124)] {
        let made = asks(
            &rt,
            alloc,
            typed(alloc, b"a\r")?,
            Some(refused),
            Vec::new(alloc),
            &calls,
        )?;
        expect!(rt; made == Some(modes));
    }
    Ok(())
}

/// What is written up to an accepted line: three drawings.
const DRAWN: &str = "\x1b[0m\x1b[?25h\x1b[1G\x1b[Kab";

#[test]
fn no_line_is_lost_by_a_writer_that_fails(rt: HostRuntime) -> io::Result<()> {
    let alloc = rt.alloc();
    let line = ("", Comes::Line("ab"));
    let failed = ("", Comes::Fault(ErrorKind::BrokenPipe));
    // It fails once, at each place in turn: while the line is drawn, and then as the row is left.
    for room in 0..DRAWN.len() + 3 {
        let out = Witness::new(alloc, room, ErrorKind::BrokenPipe);
        let acts = typed(alloc, b"ab\r")?;
        let made = if room <= DRAWN.len() {
            asks(&rt, alloc, acts, None, out, &[failed, line])?
        } else {
            asks(&rt, alloc, acts, None, out, &[line])?
        };
        expect!(rt; made.is_some());
    }
    Ok(())
}

/// Whether refused memory is answered, and leaves the line as it was.
fn keeps_line<R: Wait>(rt: &R, alloc: Global, heap: &LocalHeap) -> io::Result<bool> {
    let calls = AtomicU32::new(0);
    let acts = typed(alloc, b"ab\r")?;
    let mut tty = begun(rt, alloc, acts, &calls, None, Vec::new(alloc))?;
    let mut editor = Editor::new(heap, Limits::default())?;
    // The one block that the heap has.
    let block = vec![in heap; 0u8]?;
    let refused = read_line(rt, &mut tty, &mut editor, "");
    let is_refused = came(refused, Comes::Fault(ErrorKind::OutOfMemory));
    let is_empty = editor.line().text() == "" && block.len() == 1;
    Ok(is_refused && is_empty)
}

#[test]
fn refused_memory_leaves_the_line(rt: HostRuntime) -> io::Result<()> {
    let heap = LocalHeap::new(rt.alloc(), 16)?;
    expect!(rt; keeps_line(&rt, rt.alloc(), &heap)?);
    Ok(())
}
