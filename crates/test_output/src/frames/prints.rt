//! Texts in a buffer: clipped at the last column, and refused whole if a cell can't hold a character, or with such ones replaced. Marks are behind
//! their characters. The second cell of a character of two columns is written as U+0000. And the lines of a plain border.

use crossterm_style::ContentStyle;
use screen::{Border, Buffer, CellFault};
use std::alloc::{AllocError, Global};
use test_support::expect;

/// A column, a row and a text; the columns that it takes, or why it is refused; what is in two rows of five columns then.
type Row = (u16, u16, &'static str, Result<u16, CellFault>, &'static str);

const ROWS: [Row; 27] = [
    (1, 0, "abc", Ok(3), ".abc......"),
    (3, 0, "abc", Ok(2), "...ab....."),
    (0, 1, "hé ß", Ok(4), ".....hé ß."),
    (5, 1, "abc", Ok(0), ".........."),
    (65_535, 1, "abc", Ok(0), ".........."),
    (0, 2, "a", Err(CellFault::Outside), ".........."),
    (0, 0, "ab\u{1b}", Err(CellFault::Control), ".........."),
    (0, 0, "e\u{301}x", Ok(2), "e\u{301}x........"),
    // No character is parted from its marks.
    (3, 0, "ae\u{301}b\u{301}", Ok(2), "...ae\u{301}....."),
    // Vietnamese, Hebrew, Thai and Devanagari: a vowel or a consonant that takes a column has a cell of its own.
    (0, 0, "e\u{323}\u{302}", Ok(1), "e\u{323}\u{302}........."),
    (0, 0, "ש\u{5c1}\u{5b8}", Ok(1), "ש\u{5c1}\u{5b8}........."),
    (0, 0, "ก\u{e49}\u{e33}", Ok(2), "ก\u{e49}\u{e33}........"),
    (0, 0, "क\u{94d}ष", Ok(2), "क\u{94d}ष........"),
    // A syllable of Hangul by its letters.
    (
        0,
        0,
        "\u{1112}\u{1161}\u{11ab}.",
        Ok(3),
        "\u{1112}\u{1161}\u{11ab}\u{0}........",
    ),
    (
        0,
        0,
        "e\u{301}\u{302}\u{303}",
        Ok(1),
        "e\u{301}\u{302}\u{303}.........",
    ),
    (
        0,
        0,
        "e\u{301}\u{302}\u{303}\u{304}",
        Err(CellFault::ManyMarks),
        "..........",
    ),
    (0, 0, "\u{301}a", Err(CellFault::NoWidth), ".........."),
    (0, 0, "a\u{1161}", Err(CellFault::NoWidth), ".........."),
    (0, 0, "👨\u{200d}👩", Err(CellFault::Joined), ".........."),
    (0, 0, "🇩🇪", Err(CellFault::Joined), ".........."),
    (0, 0, "☺\u{fe0f}", Err(CellFault::Joined), ".........."),
    // Refused, though the second character has no room.
    (4, 0, "a\u{17d8}", Err(CellFault::Wide), ".........."),
    (0, 0, "漢😀", Ok(4), "漢\u{0}😀\u{0}......"),
    (3, 1, "漢字", Ok(2), "........漢\u{0}"),
    // A character of two columns has no room in the last one, and ends the text.
    (4, 0, "a漢", Ok(1), "....a....."),
    (0, 0, "漢漢漢a", Ok(4), "漢\u{0}漢\u{0}......"),
    (4, 0, "漢a", Ok(0), ".........."),
];

/// A column, a row, a text, and what replaces its characters that no cell can hold; the columns, or why it is refused; the two rows then.
type Replacing = (
    u16,
    u16,
    &'static str,
    char,
    Result<u16, CellFault>,
    &'static str,
);

const REPLACING: [Replacing; 14] = [
    (0, 0, "a\tb\u{1b}", '?', Ok(4), "a?b?......"),
    (0, 1, "e\u{301}漢😀", '_', Ok(5), ".....e\u{301}漢\u{0}😀\u{0}"),
    (0, 1, "\u{301}e\u{301}", '_', Ok(2), "....._e\u{301}..."),
    (
        0,
        0,
        "e\u{301}\u{301}\u{301}\u{301}x",
        '?',
        Ok(2),
        "?x........",
    ),
    (0, 0, "👨\u{200d}\u{301}👩", '?', Ok(5), "👨\u{0}?👩\u{0}....."),
    (3, 0, "\u{7f}漢a", '?', Ok(1), "...?......"),
    (0, 0, "\u{17d8}漢a", '?', Ok(4), "?漢\u{0}a......"),
    (5, 0, "漢", '?', Ok(0), ".........."),
    (0, 0, "hé", '?', Ok(2), "hé........"),
    (0, 0, "", ' ', Ok(0), ".........."),
    (0, 2, "a", '漢', Err(CellFault::Outside), ".........."),
    // Refused, though there is nothing to replace.
    (0, 0, "a", '漢', Err(CellFault::Wide), ".........."),
    (0, 0, "a", '\n', Err(CellFault::Control), ".........."),
    (
        0,
        0,
        "\u{301}",
        '\u{301}',
        Err(CellFault::NoWidth),
        "..........",
    ),
];

/// The same of texts that are printed without their characters of no column.
const WITHOUT_MARKS: [Row; 7] = [
    (0, 0, "e\u{301}t\u{e9}\u{301}", Ok(3), "et\u{e9}......."),
    (1, 1, "\u{200b}漢\u{fe0f}a\u{301}", Ok(3), "......漢\u{0}a."),
    (4, 0, "a\u{301}漢", Ok(1), "....a....."),
    (0, 0, "e\u{301}\n", Err(CellFault::Control), ".........."),
    (0, 0, "e\u{301}\u{17d8}", Err(CellFault::Wide), ".........."),
    (0, 0, "👨\u{200d}👍🏽", Err(CellFault::Joined), ".........."),
    (0, 2, "\n", Err(CellFault::Outside), ".........."),
];

/// So many dots.
fn dots(alloc: Global, width: u16, height: u16) -> Result<Buffer, AllocError> {
    let mut buffer = Buffer::new(alloc, width, height)?;
    let _ = buffer.fill('.', ContentStyle::new());
    Ok(buffer)
}

/// Whether these are the buffer's characters, each with its marks.
pub fn shows(buffer: &Buffer, wanted: &str) -> bool {
    let mut wanted = wanted.chars();
    for cell in buffer.cells() {
        let marks = cell.marks();
        if wanted.next() != Some(cell.symbol()) {
            return false;
        }
        for at in 0..marks.len() {
            if wanted.next() != marks.get(at) {
                return false;
            }
        }
    }
    wanted.next().is_none()
}

/// Whether a text is printed so.
fn is_printed(mut buffer: Buffer, row: &Row) -> bool {
    let (column, line, text, result, wanted) = *row;
    let came = buffer.print(column, line, text, ContentStyle::new());
    came == result && shows(&buffer, wanted)
}

/// Whether a text is printed so, with what is replaced in it.
fn is_replaced(mut buffer: Buffer, row: &Replacing) -> bool {
    let (column, line, text, replacement, result, wanted) = *row;
    let came = buffer.print_replacing(column, line, text, replacement, ContentStyle::new());
    came == result && shows(&buffer, wanted)
}

/// Whether a text is printed so without its characters of no column.
fn is_left_out(mut buffer: Buffer, row: &Row) -> bool {
    let (column, line, text, result, wanted) = *row;
    let came = buffer.print_without_marks(column, line, text, ContentStyle::new());
    came == result && shows(&buffer, wanted)
}

#[test]
fn texts_are_clipped_replaced_or_refused(rt: HostRuntime) -> Result<(), AllocError> {
    for row in &ROWS {
        expect!(rt; is_printed(dots(rt.alloc(), 5, 2)?, row), row.2);
    }
    for row in &REPLACING {
        expect!(rt; is_replaced(dots(rt.alloc(), 5, 2)?, row), row.2);
    }
    for row in &WITHOUT_MARKS {
        expect!(rt; is_left_out(dots(rt.alloc(), 5, 2)?, row), row.2);
    }
    Ok(())
}

/// Whether a plain border is drawn round three rows of four dots.
fn is_bordered(mut buffer: Buffer) -> bool {
    let area = buffer.area();
    let came = buffer.border(area, Border::PLAIN, ContentStyle::new());
    came == Ok(()) && shows(&buffer, "┌──┐│..│└──┘")
}

#[test]
fn a_plain_border_has_its_lines(rt: HostRuntime) -> Result<(), AllocError> {
    expect!(rt; is_bordered(dots(rt.alloc(), 4, 3)?));
    Ok(())
}
