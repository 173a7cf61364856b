//! Marks in cells: which characters are marks, and how they are drawn.

use crate::frames::prints::shows;
use crate::frames::rows::pair;
use crossterm_command::ColorOutput;
use crossterm_style::ContentStyle;
use screen::{Buffer, CellFault, Screen};
use std::alloc::{AllocError, Global};
use std::format;
use test_support::{expect, is_text};

/// Pairs of characters of Unicode's GraphemeBreakTest, of which the second one takes no column, and whether they are one cluster.
const PAIRS: [(&str, bool); 33] = [
    (" \u{34f}", true),
    (" \u{1160}", false),
    (" \u{11a8}", false),
    (" \u{300}", true),
    ("\u{600}\u{34f}", true),
    ("\u{600}\u{1160}", true),
    ("\u{600}\u{11a8}", true),
    ("\u{600}\u{300}", true),
    ("\u{1100}\u{34f}", true),
    ("\u{1100}\u{1160}", true),
    ("\u{1100}\u{11a8}", false),
    ("\u{1100}\u{300}", true),
    ("\u{ac00}\u{34f}", true),
    ("\u{ac00}\u{1160}", true),
    ("\u{ac00}\u{11a8}", true),
    ("\u{ac00}\u{300}", true),
    ("\u{ac01}\u{34f}", true),
    ("\u{ac01}\u{1160}", false),
    ("\u{ac01}\u{11a8}", true),
    ("\u{ac01}\u{300}", true),
    ("\u{231a}\u{34f}", true),
    ("\u{231a}\u{1160}", false),
    ("\u{231a}\u{11a8}", false),
    ("\u{231a}\u{300}", true),
    ("\u{378}\u{34f}", true),
    ("\u{378}\u{1160}", false),
    ("\u{378}\u{11a8}", false),
    ("\u{378}\u{300}", true),
    ("a\u{308}", true),
    // Of no column, but in no cluster with others: a space, a joiner of words, marks of direction and of byte order.
    ("a\u{200b}", false),
    ("a\u{2060}", false),
    ("a\u{200e}", false),
    ("a\u{feff}", false),
];

/// Whether two characters are in one cell exactly if they are one cluster.
fn is_cluster(mut buffer: Buffer, text: &str, is_one: bool) -> bool {
    let came = buffer.print(0, 0, text, ContentStyle::new());
    if is_one {
        let marks = match buffer.cells().first() {
            Some(cell) => cell.marks(),
            None => return false,
        };
        came.is_ok() && marks.get(0) == text.chars().nth(1) && marks.len() == 1
    } else {
        came == Err(CellFault::NoWidth) && shows(&buffer, "  ")
    }
}

/// What is in a row of six columns, and then; where the cursor goes, by row and column from 1; and what is printed there.
type Frame = (&'static str, &'static str, &'static str, &'static str);

const FRAMES: [Frame; 8] = [
    // A cell is printed anew if its marks alone differ.
    ("e", "e\u{301}", "1;1", "e\u{301}"),
    ("e\u{301}", "e", "1;1", "e"),
    ("xe\u{301}", "xe\u{300}", "1;2", "e\u{300}"),
    (
        "e\u{301}\u{323}",
        "e\u{323}\u{301}",
        "1;1",
        "e\u{323}\u{301}",
    ),
    // Marks are right behind their character, and no move is between neighbours.
    (
        "abc",
        "aЖ\u{323}\u{302}d\u{301}",
        "1;2",
        "Ж\u{323}\u{302}d\u{301}",
    ),
    // The last columns.
    ("......", ".....x\u{301}", "1;6", "x\u{301}"),
    ("......", "....漢\u{301}\u{302}", "1;5", "漢\u{301}\u{302}"),
    // What is left of half a character has no marks.
    ("漢\u{301}", "x", "1;1", "x "),
];

/// Whether a frame prints these characters and nothing else, after a move.
fn prints(screen: &mut Screen, alloc: Global, buffer: &Buffer, place: &str, text: &str) -> bool {
    let mut bytes: Vec<u8> = Vec::new(alloc);
    let drawn = screen.draw(&mut bytes, ColorOutput::Enabled, buffer, None);
    let wanted = format!(in alloc;
        "\x1b[?2026h\x1b[{place}H\x1b[0m{text}\x1b[0m\x1b[?25l\x1b[?2026l"
    );
    let is_right = match wanted {
        Ok(wanted) => wanted.as_bytes() == bytes.as_slice(),
        Err(_) => false,
    };
    drawn.is_ok() && is_right
}

/// Whether a frame over another one is this.
fn is_drawn(alloc: Global, mut screen: Screen, mut buffer: Buffer, frame: &Frame) -> bool {
    let (before, after, place, text) = *frame;
    let mut bytes: Vec<u8> = Vec::new(alloc);
    let first = buffer.print(0, 0, before, ContentStyle::new());
    let drawn = screen.draw(&mut bytes, ColorOutput::Enabled, &buffer, None);
    let second = buffer.print(0, 0, after, ContentStyle::new());
    let is_right = prints(&mut screen, alloc, &buffer, place, text);
    first.is_ok() && drawn.is_ok() && second.is_ok() && is_right
}

/// Whether marks are those that were printed, by number, one by one and as a text.
fn are_read(alloc: Global, mut buffer: Buffer) -> bool {
    let printed = buffer.print(0, 0, "e\u{323}\u{302}x", ContentStyle::new());
    let [first, second] = buffer.cells() else {
        return false;
    };
    let (some, none) = (first.marks(), second.marks());
    let are_counted = some.len() == 2 && !some.is_empty() && none.len() == 0 && none.is_empty();
    let are_there = some.get(0) == Some('\u{323}') && some.get(1) == Some('\u{302}');
    let no_more = some.get(2).is_none() && some.get(usize::MAX).is_none() && none.get(0).is_none();
    let is_whole = is_text(
        format!(in alloc; "{}{some}", first.symbol()),
        "e\u{323}\u{302}",
    );
    printed == Ok(2)
        && are_counted
        && are_there
        && no_more
        && is_whole
        && is_text(format!(in alloc; "{none}"), "")
        && is_text(format!(in alloc; "{some:?}"), "['\\u{323}', '\\u{302}']")
}

#[test]
fn marks_are_in_their_cells(rt: HostRuntime) -> Result<(), AllocError> {
    for (text, is_one) in PAIRS {
        expect!(rt; is_cluster(Buffer::new(rt.alloc(), 2, 1)?, text, is_one), text);
    }
    expect!(rt; are_read(rt.alloc(), Buffer::new(rt.alloc(), 2, 1)?));
    Ok(())
}

#[test]
fn marks_are_drawn_behind_their_characters(rt: HostRuntime) -> Result<(), AllocError> {
    for frame in &FRAMES {
        let (screen, buffer) = pair(rt.alloc(), 6, 1)?;
        expect!(rt; is_drawn(rt.alloc(), screen, buffer, frame), frame.1);
    }
    Ok(())
}
