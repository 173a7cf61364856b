//! What is written of a line as keys are typed: what changed, a frame after the other.

use super::{Comes, EMPTY, NEXT, Row, begun, came, is_so, is_written, typed};
use line_editor::{Editor, Limits};
use prompt::read_line;
use std::io;
use std::sync::atomic::AtomicU32;
use test_support::expect;

const ROWS: &[Row] = &[
    // A mark is in the cell of the character before it.
    Row {
        typed: b"e\xcc\x81\r",
        prompt: "",
        most: 9,
        comes: Comes::Line("e\u{301}"),
        written: &[EMPTY, "e", "\x1b[1Ge\u{301}", NEXT],
    },
    // A family of three is shown one by one, since terminals disagree on what joins them. The cursor is behind it, and then before it.
    Row {
        typed: b"\x1b[200~\xf0\x9f\x91\xa8\xe2\x80\x8d\xf0\x9f\x91\xa9\xe2\x80\x8d\xf0\x9f\x91\xa7\x1b[201~\x02\r",
        prompt: "",
        most: 18,
        comes: Comes::Line("\u{1f468}\u{200d}\u{1f469}\u{200d}\u{1f467}"),
        written: &[
            EMPTY,
            "\u{1f468}\u{fffd}\u{1f469}\u{fffd}\u{1f467}",
            "\x1b[1G",
            NEXT,
        ],
    },
    // The cursor is behind what was replaced before it, and before what is replaced behind it.
    Row {
        typed: b"\x1b[200~a\xe2\x81\xa0\xe2\x81\xa0b\x1b[201~\x02\x02\x02\r",
        prompt: "",
        most: 9,
        comes: Comes::Line("a\u{2060}\u{2060}b"),
        written: &[
            EMPTY,
            "a\u{fffd}\u{fffd}b",
            "\x1b[4G",
            "\x1b[3G",
            "\x1b[2G",
            NEXT,
        ],
    },
    // What an incremental search looks for is in the prompt's place, as readline shows it. What isn't found rings the bell.
    Row {
        typed: b"\x12x\x07\r",
        prompt: "",
        most: 9,
        comes: Comes::Line(""),
        written: &[
            EMPTY,
            "(reverse-i-search)`': ",
            "\x1b[20Gx': ",
            "\x07",
            "\x1b[1G                      \x1b[1G",
            NEXT,
        ],
    },
    // Of a line that was longer nothing is left.
    Row {
        typed: b"\x1b[200~abc\x1b[201~\x7f\x15\r",
        prompt: "",
        most: 9,
        comes: Comes::Line(""),
        written: &[EMPTY, "abc", "\x1b[3G \x1b[3G", "\x1b[1G  \x1b[1G", NEXT],
    },
    // A letter behind 60 characters writes one byte.
    Row {
        typed: b"\x1b[200~xxxxxxxxxxxxxxxxxxxxxxxxxxxxxxxxxxxxxxxxxxxxxxxxxxxxxxxxxxxx\x1b[201~y\r",
        prompt: "",
        most: 99,
        comes: Comes::Line("xxxxxxxxxxxxxxxxxxxxxxxxxxxxxxxxxxxxxxxxxxxxxxxxxxxxxxxxxxxxy"),
        written: &[
            EMPTY,
            "xxxxxxxxxxxxxxxxxxxxxxxxxxxxxxxxxxxxxxxxxxxxxxxxxxxxxxxxxxxx",
            "y",
            NEXT,
        ],
    },
    // A row of 79 columns is full, and the cursor is in the next one. At the line's start it is in the first again.
    Row {
        typed: b"\x1b[200~xxxxxxxxxxxxxxxxxxxxxxxxxxxxxxxxxxxxxxxxxxxxxxxxxxxxxxxxxxxxxxxxxxxxxxxxxxxxxxx\x1b[201~\x01\r",
        prompt: "",
        most: 99,
        comes: Comes::Line(
            "xxxxxxxxxxxxxxxxxxxxxxxxxxxxxxxxxxxxxxxxxxxxxxxxxxxxxxxxxxxxxxxxxxxxxxxxxxxxxxx",
        ),
        written: &[
            EMPTY,
            "\r\n\x1b[K\x1b[1Axxxxxxxxxxxxxxxxxxxxxxxxxxxxxxxxxxxxxxxxxxxxxxxxxxxxxxxxxxxxxxxxxxxxxxxxxxxxxxx\x1b[1G\x1b[1B",
            "\x1b[1A",
            NEXT,
        ],
    },
    // What leaves the rows goes down to the last one, and from a row that only the cursor has back to the line's own.
    Row {
        typed: b"\x1b[200~xxxxxxxxxxxxxxxxxxxxxxxxxxxxxxxxxxxxxxxxxxxxxxxxxxxxxxxxxxxxxxxxxxxxxxxxxxxxxxxxxxxxx\x1b[201~\x01\r",
        prompt: "",
        most: 99,
        comes: Comes::Line(
            "xxxxxxxxxxxxxxxxxxxxxxxxxxxxxxxxxxxxxxxxxxxxxxxxxxxxxxxxxxxxxxxxxxxxxxxxxxxxxxxxxxxxx",
        ),
        written: &[
            EMPTY,
            "\r\n\x1b[K\x1b[1Axxxxxxxxxxxxxxxxxxxxxxxxxxxxxxxxxxxxxxxxxxxxxxxxxxxxxxxxxxxxxxxxxxxxxxxxxxxxxxx\x1b[1G\x1b[1Bxxxxxx",
            "\x1b[1A\x1b[1G",
            "\x1b[1B\r\n",
        ],
    },
    Row {
        typed: b"\x1b[200~xxxxxxxxxxxxxxxxxxxxxxxxxxxxxxxxxxxxxxxxxxxxxxxxxxxxxxxxxxxxxxxxxxxxxxxxxxxxxxx\x1b[201~\r",
        prompt: "",
        most: 99,
        comes: Comes::Line(
            "xxxxxxxxxxxxxxxxxxxxxxxxxxxxxxxxxxxxxxxxxxxxxxxxxxxxxxxxxxxxxxxxxxxxxxxxxxxxxxx",
        ),
        written: &[
            EMPTY,
            "\r\n\x1b[K\x1b[1Axxxxxxxxxxxxxxxxxxxxxxxxxxxxxxxxxxxxxxxxxxxxxxxxxxxxxxxxxxxxxxxxxxxxxxxxxxxxxxx\x1b[1G\x1b[1B",
            "\x1b[1A\r\n",
        ],
    },
    // A character of two columns that has no room in the first row is in the second one.
    Row {
        typed: b"\x1b[200~xxxxxxxxxxxxxxxxxxxxxxxxxxxxxxxxxxxxxxxxxxxxxxxxxxxxxxxxxxxxxxxxxxxxxxxxxxxxxx\xe6\xbc\xa2\x1b[201~\r",
        prompt: "",
        most: 99,
        comes: Comes::Line(
            "xxxxxxxxxxxxxxxxxxxxxxxxxxxxxxxxxxxxxxxxxxxxxxxxxxxxxxxxxxxxxxxxxxxxxxxxxxxxxx\u{6f22}",
        ),
        written: &[
            EMPTY,
            "\r\n\x1b[K\x1b[1Axxxxxxxxxxxxxxxxxxxxxxxxxxxxxxxxxxxxxxxxxxxxxxxxxxxxxxxxxxxxxxxxxxxxxxxxxxxxxx\x1b[1G\x1b[1B\u{6f22}",
            NEXT,
        ],
    },
];

const IN_ONE_ROW: &[Row] = &[
    // A prompt of 72 columns leaves 7 of 79, and is left out.
    Row {
        typed: b"\r",
        prompt: "123456789012345678901234567890123456789012345678901234567890123456789012",
        most: 9,
        comes: Comes::Line(""),
        written: &[EMPTY, NEXT],
    },
    // Of 80 columns the last isn't written: the cursor is in the one before it, and then a character, with the cursor at the line's start.
    Row {
        typed: b"\x1b[200~xxxxxxxxxxxxxxxxxxxxxxxxxxxxxxxxxxxxxxxxxxxxxxxxxxxxxxxxxxxxxxxxxxxxxxxxxxxxxxxxxxxxxxxxxx\x1b[201~\x01\r",
        prompt: "",
        most: 99,
        comes: Comes::Line(
            "xxxxxxxxxxxxxxxxxxxxxxxxxxxxxxxxxxxxxxxxxxxxxxxxxxxxxxxxxxxxxxxxxxxxxxxxxxxxxxxxxxxxxxxxxx",
        ),
        written: &[
            EMPTY,
            "xxxxxxxxxxxxxxxxxxxxxxxxxxxxxxxxxxxxxxxxxxxxxxxxxxxxxxxxxxxxxxxxxxxxxxxxxxxxxx",
            "x\x1b[1G",
            NEXT,
        ],
    },
    // Five hearts with selectors, which are replaced: as many of the last are shown as have room with the cursor.
    Row {
        typed: b"\x1b[200~\xe2\x9d\xa4\xef\xb8\x8f\xe2\x9d\xa4\xef\xb8\x8f\xe2\x9d\xa4\xef\xb8\x8f\xe2\x9d\xa4\xef\xb8\x8f\xe2\x9d\xa4\xef\xb8\x8f\x1b[201~\r",
        prompt: "xxxxxxxxxxxxxxxxxxxxxxxxxxxxxxxxxxxxxxxxxxxxxxxxxxxxxxxxxxxxxxxxxxxxxx",
        most: 30,
        comes: Comes::Line(
            "\u{2764}\u{fe0f}\u{2764}\u{fe0f}\u{2764}\u{fe0f}\u{2764}\u{fe0f}\u{2764}\u{fe0f}",
        ),
        written: &[
            "\x1b[0m\x1b[?25h\x1b[1G\x1b[Kxxxxxxxxxxxxxxxxxxxxxxxxxxxxxxxxxxxxxxxxxxxxxxxxxxxxxxxxxxxxxxxxxxxxxx",
            "\u{2764}\u{fffd}\u{2764}\u{fffd}\u{2764}\u{fffd}",
            NEXT,
        ],
    },
];

#[test]
fn what_changed_is_written(rt: HostRuntime) -> io::Result<()> {
    for row in ROWS {
        expect!(rt; is_so(&rt, rt.alloc(), row, true)?);
    }
    for row in IN_ONE_ROW {
        expect!(rt; is_so(&rt, rt.alloc(), row, false)?);
    }
    Ok(())
}

#[test]
fn a_line_feed_begins_a_row(rt: HostRuntime) -> io::Result<()> {
    let alloc = rt.alloc();
    let calls = AtomicU32::new(0);
    // Alt-Enter types one. Up goes to the row above, and Delete joins both. Nothing is left of the second one.
    let acts = typed(alloc, b"a\x1b\rb\x1b[A\x1b[3~\r")?;
    let mut tty = begun(&rt, alloc, acts, &calls, None, Vec::new(alloc))?;
    let limits = Limits {
        multiline: true,
        ..Limits::default()
    };
    let mut editor = Editor::new(alloc, limits)?;
    let read = read_line(&rt, &mut tty, &mut editor, "");
    expect!(rt; came(read, Comes::Line("ab")));
    let written = [
        EMPTY,
        "a",
        "\r\n\x1b[K",
        "b",
        "\x1b[1A",
        "b\x1b[2G\x1b[1B\x1b[1G \x1b[1G\x1b[1A\x1b[2G",
        NEXT,
    ];
    expect!(rt; is_written(&tty.out, &written));
    Ok(())
}
