//! Prompts of several styles, candidates below a line, and lines that nobody is to read.

use super::{Comes, EMPTY, NEXT, begun, came, is_written, typed};
use crossterm::style::{Attribute, Attributes, ContentStyle, StyledContent};
use line_editor::{Editor, Limits, Mask};
use prompt::{Prompt, Rows, Shown, Words};
use std::alloc::Global;
use std::io::{self, ErrorKind};
use std::sync::Wait;
use std::sync::atomic::AtomicU32;
use test_support::expect;

const NAMES: [&str; 4] = ["help", "hello", "history", "quit"];

/// A text in bold.
fn bold(text: &str) -> StyledContent<&str> {
    let style = ContentStyle {
        attributes: Attributes::none().with(Attribute::Bold),
        ..ContentStyle::new()
    };
    StyledContent::new(style, text)
}

/// A text without a style.
fn plain(text: &str) -> StyledContent<&str> {
    StyledContent::new(ContentStyle::new(), text)
}

/// Whether a prompt of these parts asks for a line so.
fn asks_so<R: Wait>(
    rt: &R,
    alloc: Global,
    parts: &[StyledContent<&str>],
    comes: Comes,
    written: &[&str],
) -> io::Result<bool> {
    let calls = AtomicU32::new(0);
    let acts = typed(alloc, b"a\x12\x07\r")?;
    let mut tty = begun(rt, alloc, acts, &calls, None, Vec::new(alloc))?;
    let mut editor = Editor::new(alloc, Limits::default())?;
    let made = Prompt::styled(parts).read_line(rt, &mut tty, &mut editor);
    Ok(came(made, comes) && is_written(&tty.out, written))
}

#[test]
fn a_prompt_has_parts_in_their_styles(rt: HostRuntime) -> io::Result<()> {
    let alloc = rt.alloc();
    // A search is shown without the prompt's styles.
    let written = [
        "\x1b[0m\x1b[?25h\x1b[1G\x1b[K\x1b[0m\x1b[1mab\x1b[0m> ",
        "a",
        "\x1b[1G(reverse-i-search)`': a",
        "\x1b[1G\x1b[0m\x1b[1mab\x1b[0m> a                  \x1b[6G",
        NEXT,
    ];
    let parts = [bold("ab"), plain("> ")];
    expect!(rt; asks_so(&rt, alloc, &parts, Comes::Line("a"), &written)?);
    let written = [
        EMPTY,
        "a",
        "\x1b[1G(reverse-i-search)`': a",
        "\x1b[1Ga                      \x1b[2G",
        NEXT,
    ];
    expect!(rt; asks_so(&rt, alloc, &[], Comes::Line("a"), &written)?);
    let parts = [plain("> "), bold("\x1b[2J")];
    let refused = Comes::Fault(ErrorKind::InvalidInput);
    expect!(rt; asks_so(&rt, alloc, &parts, refused, &[])?);
    // A prompt that leaves fewer than eight columns to the line is left out of a row, with all of its parts.
    let parts = [bold("12345"), plain("678")];
    for (columns, text) in [(17, "\x1b[0m\x1b[1m12345\x1b[0m678"), (16, "")] {
        let editor = Editor::new(alloc, Limits::default())?;
        let mut out = Vec::new(alloc);
        let mut rows = Rows::in_one_row(alloc, (columns, 9))?;
        rows.draw(&mut out, &Shown::styled(&parts, editor.line()))?;
        expect!(rt; is_written(&out, &[EMPTY, text]));
    }
    Ok(())
}

/// What is typed, what comes of it, and all that is written.
struct Row {
    typed: &'static [u8],
    wraps: bool,
    comes: Comes,
    written: &'static [&'static str],
}

const LISTS: &[Row] = &[
    // Tab writes what three names have in common, which is nothing. A second one lists them, without a hint. They go with the next key.
    Row {
        typed: b"h\t\te\r",
        wraps: true,
        comes: Comes::Line("he"),
        written: &[
            EMPTY,
            "h\x1b[0m\x1b[2melp\x1b[2G\x1b[0m",
            "\r\n\x1b[K\x1b[1Ah   \x1b[2G\x1b[1B\x1b[1Ghelp\x1b[10Ghello\x1b[19Ghistory\x1b[1G\x1b[1A\x1b[2G",
            "e\x1b[0m\x1b[2mlp\x1b[3G\x1b[0m\x1b[1B\x1b[1G    \x1b[10G     \x1b[19G       \x1b[1G\x1b[1A\x1b[3G",
            "\x1b[K\r\n",
        ],
    },
    // A word is completed wherever it begins, and listed once it can't be. The list is erased too if the line ends.
    Row {
        typed: b"a he\t\t\t\r",
        wraps: true,
        comes: Comes::Line("a hel"),
        written: &[
            EMPTY,
            "a",
            "\x1b[3G",
            "h\x1b[0m\x1b[2melp\x1b[4G\x1b[0m",
            "e",
            "l",
            "\r\n\x1b[K\x1b[1A\x1b[6G \x1b[6G\x1b[1B\x1b[1Ghelp   hello\x1b[1G\x1b[1A\x1b[6G",
            NEXT,
            "\x1b[J",
        ],
    },
    // In one row there is no room for them.
    Row {
        typed: b"h\t\tq\r",
        wraps: false,
        comes: Comes::Line("hq"),
        written: &[
            EMPTY,
            "h\x1b[0m\x1b[2melp\x1b[2G\x1b[0m",
            "q  \x1b[3G",
            NEXT,
        ],
    },
];

/// Whether names are listed as a row says.
fn lists_so<R: Wait>(rt: &R, alloc: Global, row: &Row) -> io::Result<bool> {
    let calls = AtomicU32::new(0);
    let acts = typed(alloc, row.typed)?;
    let mut tty = begun(rt, alloc, acts, &calls, None, Vec::new(alloc))?;
    let mut editor = Editor::new(alloc, Limits::default())?;
    let words = Words::new(&NAMES);
    let mut prompt = Prompt::new("").with_helper(&words);
    if !row.wraps {
        prompt = prompt.in_one_row();
    }
    let made = prompt.read_line(rt, &mut tty, &mut editor);
    Ok(came(made, row.comes) && is_written(&tty.out, row.written))
}

#[test]
fn a_second_tab_lists_candidates(rt: HostRuntime) -> io::Result<()> {
    for row in LISTS {
        expect!(rt; lists_so(&rt, rt.alloc(), row)?);
    }
    Ok(())
}

/// Whether a hidden line comes and is written so, and nothing of it is in the next one.
fn hides_so<R: Wait>(rt: &R, alloc: Global, mask: Mask, written: &[&str]) -> io::Result<bool> {
    let calls = AtomicU32::new(0);
    // A search shows nothing of what is typed for it. Up, Ctrl-Y and Ctrl-_ bring nothing back in the next line.
    let acts = typed(alloc, b"se\x12x\x07\x15k\xc3\xa9\x02\r\x1b[A\x19\x1f\r")?;
    let mut tty = begun(rt, alloc, acts, &calls, None, Vec::new(alloc))?;
    let prompt = Prompt::new("PIN: ");
    let first = prompt.read_hidden(rt, &mut tty, mask);
    let is_first = came(first, Comes::Line("k\u{e9}")) && is_written(&tty.out, written);
    let second = prompt.read_hidden(rt, &mut tty, mask);
    let refused = Prompt::new("\x07").read_hidden(rt, &mut tty, mask);
    Ok(
        is_first
            && came(second, Comes::Line(""))
            && came(refused, Comes::Fault(ErrorKind::InvalidInput)),
    )
}

#[test]
fn a_hidden_line_is_shown_to_nobody(rt: HostRuntime) -> io::Result<()> {
    let alloc = rt.alloc();
    let first = "\x1b[0m\x1b[?25h\x1b[1G\x1b[KPIN: ";
    expect!(rt; hides_so(&rt, alloc, Mask::Nothing, &[first, "\x07", NEXT])?);
    let stars = [
        first,
        "*",
        "*",
        "\x07",
        "\x1b[6G  \x1b[6G",
        "*",
        "*",
        "\x1b[7G",
        NEXT,
    ];
    expect!(rt; hides_so(&rt, alloc, Mask::Stars, &stars)?);
    Ok(())
}
