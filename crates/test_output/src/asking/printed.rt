//! Texts that are printed above a line.

use super::{Comes, EMPTY, NEXT, begun, came, is_written};
use crate::noted::terminal_by;
use crate::witness::Witness;
use crossterm::event::source::{Act, RawFlag, Script};
use line_editor::{Editor, Limits};
use own_terminal::Session;
use prompt::{Printer, Prompt, Words};
use std::alloc::Global;
use std::io::{self, ErrorKind};
use std::sync::Wait;
use std::sync::atomic::AtomicU32;
use std::thread;
use test_support::{Still, expect, text};

/// What is handed over before the line is asked for, what is typed, and what is written.
struct Row {
    texts: &'static [&'static str],
    typed: &'static [u8],
    comes: Comes,
    written: &'static [&'static str],
}

const ROWS: &[Row] = &[
    // The line is erased, the text is a line of its own, and the line is drawn below it.
    Row {
        texts: &["one"],
        typed: b"a\r",
        comes: Comes::Line("a"),
        written: &[EMPTY, "\x1b[1G\x1b[Jone\r\n", EMPTY, "a", NEXT],
    },
    // What is typed goes between two texts. A text of two lines has two, whether it ends in a line feed or not.
    Row {
        texts: &["one\n", "two\nthree", "four"],
        typed: b"ab\r",
        comes: Comes::Line("ab"),
        written: &[
            EMPTY,
            "\x1b[1G\x1b[Jone\r\n",
            EMPTY,
            "\x1b[1G\x1b[Jtwo\r\nthree\r\n",
            EMPTY,
            "a",
            "\x1b[1G\x1b[Jfour\r\n",
            EMPTY,
            "a",
            "b",
            NEXT,
        ],
    },
    // Candidates that are listed are listed below it again.
    Row {
        texts: &["", "one", "two", "three"],
        typed: b"\t\t\x03",
        comes: Comes::Interrupted,
        written: &[
            EMPTY,
            "\x1b[1G\x1b[J",
            EMPTY,
            "\x1b[1G\x1b[Jone\r\n",
            EMPTY,
            "\x1b[1G\x1b[Jtwo\r\n",
            EMPTY,
            "\r\n\x1b[Khelp  quit\x1b[1G\x1b[1A",
            "\x1b[1G\x1b[Jthree\r\n",
            EMPTY,
            "\r\n\x1b[Khelp  quit\x1b[1G\x1b[1A",
            NEXT,
            "\x1b[J",
        ],
    },
];

/// Whether a row's texts and its line are shown so.
fn prints_so<R: Wait>(rt: &R, alloc: Global, row: &Row) -> io::Result<bool> {
    let calls = AtomicU32::new(0);
    let acts = Vec::from_array(alloc, [Act::Woken, text(alloc, row.typed)?])?;
    let mut tty = begun(rt, alloc, acts, &calls, None, Vec::new(alloc))?;
    let printer = Printer::new(alloc, tty.waker()?)?;
    for text in row.texts {
        printer.print(rt, text)?;
    }
    let mut editor = Editor::new(alloc, Limits::default())?;
    let words = Words::new(&["help", "quit"]);
    let prompt = Prompt::new("").with_helper(&words).with_printer(&printer);
    let made = prompt.read_line(rt, &mut tty, &mut editor);
    Ok(came(made, row.comes) && is_written(&tty.out, row.written))
}

#[test]
fn texts_are_printed_above_the_line(rt: HostRuntime) -> io::Result<()> {
    for row in ROWS {
        expect!(rt; prints_so(&rt, rt.alloc(), row)?);
    }
    Ok(())
}

#[test]
fn no_line_is_lost_by_a_text_that_cannot_be_written(rt: HostRuntime) -> io::Result<()> {
    let alloc = rt.alloc();
    for room in 0..60 {
        let calls = AtomicU32::new(0);
        let term = terminal_by(RawFlag::new(alloc)?, &calls, None);
        let out = Witness::new(alloc, room, ErrorKind::BrokenPipe);
        let script = Script::new(Vec::from_array(alloc, [text(alloc, b"ab\r")?])?);
        let mut tty = Session::over(&rt, alloc, script, term, out, Still)?;
        let printer = Printer::new(alloc, tty.waker()?)?;
        printer.print(&rt, "one")?;
        printer.print(&rt, "two")?;
        let mut editor = Editor::new(alloc, Limits::default())?;
        let prompt = Prompt::new("").with_printer(&printer);
        let first = prompt.read_line(&rt, &mut tty, &mut editor);
        expect!(rt; came(first, Comes::Fault(ErrorKind::BrokenPipe)));
    }
    Ok(())
}

#[test]
fn threads_print_all_of_their_texts(rt: HostRuntime) -> io::Result<()> {
    let alloc = rt.alloc();
    let calls = AtomicU32::new(0);
    let mut acts = Vec::new(alloc);
    for _ in 0..20 {
        acts.push(text(alloc, b"x")?)?;
    }
    acts.push(text(alloc, b"\r")?)?;
    let mut tty = begun(&rt, alloc, acts, &calls, None, Vec::new(alloc))?;
    let printer = Printer::new(alloc, tty.waker()?)?;
    let other = printer.share()?;
    let (handed, more) = thread::join(
        &rt,
        || (0..10).all(|_| printer.print(&rt, "0123456789").is_ok()),
        || (0..10).all(|_| other.print(&rt, "9876543210").is_ok()),
    );
    expect!(rt; handed && more);
    let mut editor = Editor::new(alloc, Limits::default())?;
    let prompt = Prompt::new("").with_printer(&printer);
    let made = prompt.read_line(&rt, &mut tty, &mut editor);
    expect!(rt; came(made, Comes::Line("xxxxxxxxxxxxxxxxxxxx")));
    let count = |line: &str| str::from_utf8(&tty.out).map_or(0, |out| out.matches(line).count());
    expect!(rt; count("0123456789\r\n") == 10 && count("9876543210\r\n") == 10);
    Ok(())
}
