//! Rows that are drawn by who reads events by itself.

use super::{EMPTY, NEXT, is_written};
use line_editor::{Action, Editor, Limits, Stop, Target};
use prompt::{Rows, Shown};
use std::alloc::Global;
use std::io;
use test_support::expect;

/// A line of seven characters in rows of four columns, behind a prompt of two.
const IN_THREE: &str = "\r\n\x1b[K\r\n\x1b[K\x1b[2A> on\x1b[1G\x1b[1Be tw\x1b[1G\x1b[1Bo";

/// The same in rows of eight columns.
const IN_TWO: &str = "\r\n\x1b[K\x1b[1A> one tw\x1b[1G\x1b[1Bo";

/// An editor with this line.
fn editor_with(alloc: Global, line: &str) -> io::Result<Editor<Global>> {
    let mut editor = Editor::new(alloc, Limits::default())?;
    editor.paste(line)?;
    Ok(editor)
}

#[test]
fn rows_are_drawn_wherever_they_begin(rt: HostRuntime) -> io::Result<()> {
    let alloc = rt.alloc();
    let editor = editor_with(alloc, "one two")?;
    let line = editor.line();
    let mut out = Vec::new(alloc);
    let mut rows = Rows::new(alloc, (5, 3))?;
    rows.draw(&mut out, &Shown::new("> ", line))?;
    // Nothing has changed: the cursor is put in its place, if something else may have been written.
    rows.draw_next(&mut out, &Shown::new("> ", line))?;
    rows.draw(&mut out, &Shown::new("> ", line))?;
    rows.leave(&mut out)?;
    rows.forget();
    rows.draw_next(&mut out, &Shown::new("> ", line))?;
    rows.clear(&mut out)?;
    rows.resize((9, 3));
    rows.draw_next(&mut out, &Shown::new("> ", line))?;
    let written = [
        EMPTY,
        IN_THREE,
        "\x1b[0m\x1b[?25h\x1b[1G\x1b[2G",
        NEXT,
        EMPTY,
        IN_THREE,
        "\x1b[2J\x1b[1;1H",
        EMPTY,
        IN_TWO,
    ];
    expect!(rt; is_written(&out, &written));
    Ok(())
}

#[test]
fn a_line_that_has_no_room_scrolls(rt: HostRuntime) -> io::Result<()> {
    let alloc = rt.alloc();
    let mut editor = editor_with(alloc, "one two")?;
    let mut out = Vec::new(alloc);
    // By rows, if it is wrapped: the last two are in sight, and then the first two.
    let mut rows = Rows::new(alloc, (5, 2))?;
    rows.draw(&mut out, &Shown::new("> ", editor.line()))?;
    let at_end = [EMPTY, "\r\n\x1b[K\x1b[1Ae tw\x1b[1G\x1b[1Bo"];
    expect!(rt; is_written(&out, &at_end));
    out.clear();
    expect!(rt; editor.run(&[Action::Go(Target::Back(Stop::Edge))]).is_ok());
    rows.draw_next(&mut out, &Shown::new("> ", editor.line()))?;
    expect!(rt; is_written(&out, &["\x1b[1A\x1b[1G> on\x1b[3G\x1b[1B\x1b[1Ge tw\x1b[1G\x1b[1A\x1b[3G"]));
    // By columns, if it has one row.
    out.clear();
    let mut row = Rows::in_one_row(alloc, (5, 2))?;
    row.draw(&mut out, &Shown::new("> ", editor.line()))?;
    expect!(rt; is_written(&out, &[EMPTY, "one\x1b[1G"]));
    Ok(())
}
