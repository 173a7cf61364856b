//! Lines that are asked for while the window changes, over a scripted terminal that is asked for the cursor's place.

use super::{Comes, came};
use crate::noted::narrowing_by;
use crate::witness::Witness;
use crossterm::event::source::{Act, RawFlag, Script};
use line_editor::{Editor, Limits};
use own_terminal::Session;
use prompt::Prompt;
use std::alloc::Global;
use std::io::{self, ErrorKind};
use std::sync::Wait;
use std::sync::atomic::AtomicU32;
use test_support::{Still, expect, text};

/// What a terminal reports after a resize.
#[derive(Clone, Copy)]
enum After {
    Text(&'static [u8]),
    /// Nothing, until somebody wakes the reader. Then a line's end is typed, at another resize.
    Nothing,
    /// A fault of the device. Then a line's end is typed.
    Fault,
}

/// What comes of a resize from 80 columns to others, behind a pasted text of 50 columns.
struct Row {
    columns: u16,
    after: After,
    asks: bool,
    wraps: bool,
    comes: &'static [Comes],
    /// What is written behind what is drawn of the whole text.
    written: &'static [u8],
}

const X50: &str = "xxxxxxxxxxxxxxxxxxxxxxxxxxxxxxxxxxxxxxxxxxxxxxxxxx";

const PASTED: &[u8] = b"\x1b[200~xxxxxxxxxxxxxxxxxxxxxxxxxxxxxxxxxxxxxxxxxxxxxxxxxx\x1b[201~";

/// The empty line, and the whole text.
const DRAWN: &[u8] =
    b"\x1b[0m\x1b[?25h\x1b[1G\x1b[Kxxxxxxxxxxxxxxxxxxxxxxxxxxxxxxxxxxxxxxxxxxxxxxxxxx";

const ENDED: Comes = Comes::Line(X50);

/// A text that ends in five blanks, as it is pasted.
const BLANKS: &[u8] = b"\x1b[200~xxxxxxxxxxxxxxxxxxxxxxxxxxxxxxxxxxxxxxxxxxxxx     \x1b[201~";

/// The empty line, and that text.
const BLANKS_DRAWN: &[u8] =
    b"\x1b[0m\x1b[?25h\x1b[1G\x1b[Kxxxxxxxxxxxxxxxxxxxxxxxxxxxxxxxxxxxxxxxxxxxxx\x1b[51G";

const ROWS: &[Row] = &[
    // The row was wrapped to two, and the cursor is in the second: it goes up.
    Row {
        columns: 40,
        after: After::Text(b"\x1b[2;11R\r"),
        asks: true,
        wraps: true,
        comes: &[ENDED],
        written: b"\x1b[6n\x1b[1A\x1b[1G\x1b[J\x1b[0m\x1b[?25h\x1b[1G\x1b[K\r\n\x1b[K\x1b[1Axxxxxxxxxxxxxxxxxxxxxxxxxxxxxxxxxxxxxxx\x1b[1G\x1b[1Bxxxxxxxxxxx\r\n",
    },
    // It was cut.
    Row {
        columns: 40,
        after: After::Text(b"\x1b[1;40R\r"),
        asks: true,
        wraps: true,
        comes: &[ENDED],
        written: b"\x1b[6n\x1b[1G\x1b[J\x1b[0m\x1b[?25h\x1b[1G\x1b[K\r\n\x1b[K\x1b[1Axxxxxxxxxxxxxxxxxxxxxxxxxxxxxxxxxxxxxxx\x1b[1G\x1b[1Bxxxxxxxxxxx\r\n",
    },
    // What is typed before the answer stays in order.
    Row {
        columns: 40,
        after: After::Text(b"\x7f\x1b[2;11R\x7f\x03"),
        asks: true,
        wraps: true,
        comes: &[Comes::Interrupted],
        written: b"\x1b[6n\x1b[1A\x1b[1G\x1b[J\x1b[0m\x1b[?25h\x1b[1G\x1b[K\r\n\x1b[K\x1b[1Axxxxxxxxxxxxxxxxxxxxxxxxxxxxxxxxxxxxxxx\x1b[1G\x1b[1Bxxxxxxxxxxx\x1b[11G \x1b[11G\x1b[10G \x1b[10G\r\n",
    },
    // A terminal that doesn't answer isn't asked at the next resize.
    Row {
        columns: 40,
        after: After::Nothing,
        asks: true,
        wraps: true,
        comes: &[ENDED],
        written: b"\x1b[6n\x1b[1G\x1b[J\x1b[0m\x1b[?25h\x1b[1G\x1b[K\r\n\x1b[K\x1b[1Axxxxxxxxxxxxxxxxxxxxxxxxxxxxxxxxxxxxxxx\x1b[1G\x1b[1Bxxxxxxxxxxx\x1b[1A\x1b[1G\x1b[J\x1b[0m\x1b[?25h\x1b[1G\x1b[K\r\n\x1b[K\x1b[1Axxxxxxxxxxxxxxxxxxxxxxxxxxxxxxxxxxxxxxx\x1b[1G\x1b[1Bxxxxxxxxxxx\r\n",
    },
    // Nor is one that isn't to be asked.
    Row {
        columns: 40,
        after: After::Text(b"\r"),
        asks: false,
        wraps: true,
        comes: &[ENDED],
        written: b"\x1b[1G\x1b[J\x1b[0m\x1b[?25h\x1b[1G\x1b[K\r\n\x1b[K\x1b[1Axxxxxxxxxxxxxxxxxxxxxxxxxxxxxxxxxxxxxxx\x1b[1G\x1b[1Bxxxxxxxxxxx\r\n",
    },
    // A question that fails ends the call, and the next one goes on with the line, in 40 columns.
    Row {
        columns: 40,
        after: After::Fault,
        asks: true,
        wraps: true,
        comes: &[Comes::Fault(ErrorKind::TimedOut), ENDED],
        written: b"\x1b[6n\x1b[0m\x1b[?25h\x1b[1G\x1b[K\r\n\x1b[K\x1b[1Axxxxxxxxxxxxxxxxxxxxxxxxxxxxxxxxxxxxxxx\x1b[1G\x1b[1Bxxxxxxxxxxx\r\n",
    },
    // In more columns all is drawn anew too.
    Row {
        columns: 100,
        after: After::Text(b"\x1b[1;51R\r"),
        asks: true,
        wraps: true,
        comes: &[ENDED],
        written: b"\x1b[6n\x1b[1G\x1b[J\x1b[0m\x1b[?25h\x1b[1G\x1b[Kxxxxxxxxxxxxxxxxxxxxxxxxxxxxxxxxxxxxxxxxxxxxxxxxxx\r\n",
    },
    // In one row three columns show one, two the cursor alone, and one nothing.
    Row {
        columns: 3,
        after: After::Text(b"\x1b[17;3R\r"),
        asks: true,
        wraps: false,
        comes: &[ENDED],
        written: b"\x1b[6n\x1b[1G\x1b[J\x1b[0m\x1b[?25h\x1b[1G\x1b[Kx\r\n",
    },
    Row {
        columns: 2,
        after: After::Text(b"\x1b[25;2R\r"),
        asks: true,
        wraps: false,
        comes: &[ENDED],
        written: b"\x1b[6n\x1b[1G\x1b[J\x1b[0m\x1b[?25h\x1b[1G\x1b[K\r\n",
    },
    Row {
        columns: 1,
        after: After::Text(b"\x1b[50;1R\r"),
        asks: true,
        wraps: false,
        comes: &[ENDED],
        written: b"\x1b[6n\x1b[1G\x1b[J\r\n",
    },
    // A window that says 0 columns counts as one of 80.
    Row {
        columns: 0,
        after: After::Text(b"\x1b[1;51R\r"),
        asks: true,
        wraps: true,
        comes: &[ENDED],
        written: b"\x1b[6n\x1b[1G\x1b[J\x1b[0m\x1b[?25h\x1b[1G\x1b[Kxxxxxxxxxxxxxxxxxxxxxxxxxxxxxxxxxxxxxxxxxxxxxxxxxx\r\n",
    },
];

/// The script of a row.
fn acts_of(alloc: Global, after: After) -> io::Result<Vec<Act>> {
    let mut acts = Vec::from_array(alloc, [text(alloc, PASTED)?, Act::Resize(40, 10)])?;
    match after {
        After::Text(bytes) => acts.push(text(alloc, bytes)?)?,
        After::Nothing => {
            acts.push(Act::Woken)?;
            acts.push(Act::Resize(40, 11))?;
            acts.push(text(alloc, b"\r")?)?;
        }
        After::Fault => {
            acts.push(Act::Fault(ErrorKind::TimedOut))?;
            acts.push(text(alloc, b"\r")?)?;
        }
    }
    Ok(acts)
}

/// Whether this comes of the calls of a row, with a writer that takes so many bytes before it fails.
fn is_so<R: Wait>(
    rt: &R,
    alloc: Global,
    row: &Row,
    room: usize,
    comes: &[Comes],
) -> io::Result<bool> {
    let calls = AtomicU32::new(0);
    let term = narrowing_by(RawFlag::new(alloc)?, &calls, row.columns);
    let out = Witness::new(alloc, room, ErrorKind::BrokenPipe);
    let script = Script::new(acts_of(alloc, row.after)?);
    let mut tty = Session::over(rt, alloc, script, term, out, Still)?;
    let mut editor = Editor::new(alloc, Limits::default())?;
    let mut prompt = Prompt::new("");
    if !row.asks {
        prompt = prompt.without_questions();
    }
    if !row.wraps {
        prompt = prompt.in_one_row();
    }
    for it in comes {
        if !came(prompt.read_line(rt, &mut tty, &mut editor), *it) {
            return Ok(false);
        }
    }
    Ok(room < usize::MAX || tty.out.has_both(DRAWN, row.written))
}

#[test]
fn a_resize_leaves_nothing_behind(rt: HostRuntime) -> io::Result<()> {
    for row in ROWS {
        expect!(rt; is_so(&rt, rt.alloc(), row, usize::MAX, row.comes)?);
    }
    Ok(())
}

/// Whether these bytes are written behind a text that was pasted and drawn, in a window of 40 columns, by the place that the terminal reports for
/// the cursor.
fn is_written_in_forty<R: Wait>(
    rt: &R,
    alloc: Global,
    pasted: &'static [u8],
    drawn: &[u8],
    said: &'static [u8],
    written: &[u8],
) -> io::Result<bool> {
    let calls = AtomicU32::new(0);
    let acts = Vec::from_array(
        alloc,
        [
            text(alloc, pasted)?,
            Act::Resize(40, 10),
            text(alloc, said)?,
        ],
    )?;
    let term = narrowing_by(RawFlag::new(alloc)?, &calls, 40);
    let out = Witness::new(alloc, usize::MAX, ErrorKind::BrokenPipe);
    let mut tty = Session::over(rt, alloc, Script::new(acts), term, out, Still)?;
    let mut editor = Editor::new(alloc, Limits::default())?;
    let read = Prompt::new("").read_line(rt, &mut tty, &mut editor);
    Ok(came(read, Comes::Interrupted) && tty.out.has_both(drawn, written))
}

#[test]
fn a_terminal_that_keeps_no_blanks_leaves_no_row(rt: HostRuntime) -> io::Result<()> {
    // The cursor is behind what was kept of the second row, or behind its blanks.
    const UP: &[u8] =
        b"\x1b[6n\x1b[1A\x1b[1G\x1b[J\x1b[0m\x1b[?25h\x1b[1G\x1b[K\r\n\x1b[K\x1b[1Axxxxxxxxxxxxxxxxxxxxxxxxxxxxxxxxxxxxxxx\x1b[1G\x1b[1Bxxxxxx\x1b[12G\r\n";
    expect!(rt; is_written_in_forty(&rt, rt.alloc(), BLANKS, BLANKS_DRAWN, b"\x1b[2;6R\x03", UP)?);
    expect!(rt; is_written_in_forty(&rt, rt.alloc(), BLANKS, BLANKS_DRAWN, b"\x1b[2;11R\x03", UP)?);
    Ok(())
}

#[test]
fn a_wide_character_at_the_edge_goes_to_the_next_row(rt: HostRuntime) -> io::Result<()> {
    // Of 40 columns 39 are taken, so that the character of two is the first of the second row, and the cursor is behind twelve columns.
    const WIDE: &[u8] =
        b"\x1b[200~xxxxxxxxxxxxxxxxxxxxxxxxxxxxxxxxxxxxxxx\xe6\xbc\xa2xxxxxxxxxx\x1b[201~";
    const WIDE_DRAWN: &[u8] =
        b"\x1b[0m\x1b[?25h\x1b[1G\x1b[Kxxxxxxxxxxxxxxxxxxxxxxxxxxxxxxxxxxxxxxx\xe6\xbc\xa2xxxxxxxxxx";
    const UP: &[u8] =
        b"\x1b[6n\x1b[1A\x1b[1G\x1b[J\x1b[0m\x1b[?25h\x1b[1G\x1b[K\r\n\x1b[K\x1b[1Axxxxxxxxxxxxxxxxxxxxxxxxxxxxxxxxxxxxxxx\x1b[1G\x1b[1B\xe6\xbc\xa2xxxxxxxxxx\r\n";
    expect!(rt; is_written_in_forty(&rt, rt.alloc(), WIDE, WIDE_DRAWN, b"\x1b[2;13R\x03", UP)?);
    Ok(())
}

#[test]
fn no_line_is_lost_by_a_question_that_cannot_be_written(rt: HostRuntime) -> io::Result<()> {
    // It fails once, at each place in turn, as it is erased and drawn too.
    for row in &ROWS[1..2] {
        for room in 0..DRAWN.len() + row.written.len() - 2 {
            let comes = [Comes::Fault(ErrorKind::BrokenPipe), ENDED];
            expect!(rt; is_so(&rt, rt.alloc(), row, room, &comes)?);
        }
    }
    Ok(())
}
