//! Paragraphs: rows of texts, styles in them, and refused memory. The second cell of a character of two columns is written as U+0000.

use crate::frames::prints::shows;
use crossterm_style::Attribute::{self, Bold, Dim};
use crossterm_style::ContentStyle;
use linked_list_allocator::LocalHeap;
use screen::{Buffer, Paragraph};
use std::alloc::{AllocError, Global};
use test_support::{Calls, Came, expect, is_refused_below_a_size};

/// How many columns a row has, a text, its rows, and the column and the row of the next character.
type Row = (u16, &'static str, &'static [&'static str], (u16, usize));

const ROWS: [Row; 17] = [
    (4, "abcd", &["abcd"], (0, 1)),
    (4, "abcde", &["abcd", "e   "], (1, 1)),
    (4, "ab漢", &["ab漢\u{0}"], (0, 1)),
    (4, "abc漢d", &["abc ", "漢\u{0}d "], (3, 1)),
    // A row that is full has ended before the line feed.
    (4, "abcd\ne", &["abcd", "    ", "e   "], (1, 2)),
    (4, "ab\ncd", &["ab  ", "cd  "], (2, 1)),
    (4, "\n\na\n", &["    ", "    ", "a   "], (0, 3)),
    (4, "abce\u{301}f", &["abce\u{301}", "f   "], (1, 1)),
    // A line feed has no marks.
    (4, "a\n\u{301}b", &["a   ", "\u{fffd}b  "], (2, 1)),
    (4, "\t\r\na", &["\u{fffd}\u{fffd}  ", "a   "], (1, 1)),
    (4, "👨\u{200d}👩", &["👨\u{0}\u{fffd} ", "👩\u{0}  "], (2, 1)),
    (0, "ab\n漢\u{301}", &[], (0, 0)),
    (1, "a漢b\n", &["a", "b", " "], (0, 3)),
    (1, "e\u{301}\u{301}\u{301}\u{301}", &["\u{fffd}"], (0, 1)),
    (2, "a漢b", &["a ", "漢\u{0}", "b "], (1, 2)),
    (2, "漢字\n", &["漢\u{0}", "字\u{0}", "  "], (0, 3)),
    (65_535, "ab", &[], (2, 0)),
];

/// Whether a text becomes these rows.
fn is_wrapped(paragraph: &mut Paragraph, buffer: &mut Buffer, row: &Row) -> bool {
    let (width, text, rows, end) = *row;
    paragraph.resize(width);
    let is_empty = paragraph.len() == 0 && paragraph.end() == (0, 0);
    let pushed = paragraph.push(text, ContentStyle::new());
    for (first, wanted) in rows.iter().enumerate() {
        if paragraph.show(buffer, first, 1).is_err() || !shows(buffer, wanted) {
            return false;
        }
    }
    is_empty && pushed.is_ok() && paragraph.end() == end
}

#[test]
fn texts_are_wrapped(rt: HostRuntime) -> Result<(), AllocError> {
    let mut paragraph = Paragraph::new(rt.alloc(), 3);
    let mut buffer = Buffer::new(rt.alloc(), 5, 2)?;
    for row in &ROWS {
        expect!(rt; is_wrapped(&mut paragraph, &mut buffer, row), row.1);
    }
    Ok(())
}

/// Texts, each with an attribute.
const TEXTS: [(&str, Attribute); 3] = [("ab", Bold), ("c漢", Dim), ("\t字", Bold)];

/// From which row on how many are shown of them in rows of four columns, the cells then, and which of these are bold.
const SHOWN: [(usize, u16, &str, &str); 7] = [
    (0, 2, "abc 漢\u{0}\u{fffd} ", "bb....b."),
    (1, 2, "漢\u{0}\u{fffd} 字\u{0}  ", "..b.bb.."),
    (2, 2, "字\u{0}      ", "bb......"),
    (3, 1, "    ", "...."),
    // So many rows have 2^64 cells.
    (4_611_686_018_427_387_904, 1, "    ", "...."),
    (18_446_744_073_709_551_615, 1, "    ", "...."),
    (1, 0, "", ""),
];

/// A paragraph of the texts.
fn paragraph(alloc: Global) -> Result<Paragraph, AllocError> {
    let mut paragraph = Paragraph::new(alloc, 4);
    for (text, attribute) in &TEXTS {
        let mut style = ContentStyle::new();
        style.attributes.set(*attribute);
        paragraph.push(text, style)?;
    }
    Ok(paragraph)
}

/// Whether these cells are bold, and no others.
fn are_bold(buffer: &Buffer, wanted: &str) -> bool {
    let mut wanted = wanted.chars();
    for cell in buffer.cells() {
        let is_bold = cell.style().attributes.has(Bold);
        if wanted.next() != Some(if is_bold { 'b' } else { '.' }) {
            return false;
        }
    }
    wanted.next().is_none()
}

/// Whether the texts are shown so.
fn are_shown(paragraph: &Paragraph, buffer: &mut Buffer) -> bool {
    for (first, height, wanted, bold) in &SHOWN {
        let shown = paragraph.show(buffer, *first, *height);
        let is_sized = buffer.width() == 4 && buffer.height() == *height;
        if shown.is_err() || !is_sized || !shows(buffer, wanted) || !are_bold(buffer, bold) {
            return false;
        }
    }
    paragraph.len() == 10
}

#[test]
fn rows_are_shown_in_their_styles(rt: HostRuntime) -> Result<(), AllocError> {
    let mut buffer = Buffer::new(rt.alloc(), 5, 2)?;
    expect!(rt; are_shown(&paragraph(rt.alloc())?, &mut buffer));
    Ok(())
}

/// Adds two texts and shows them. If memory is refused, nothing has changed.
fn adds(heap: &LocalHeap) -> Came {
    let mut paragraph = Paragraph::new(heap, 4);
    let Ok(mut buffer) = Buffer::new(heap, 1, 1) else {
        return Came::Refused;
    };
    let is_same = if paragraph.push("ab", ContentStyle::new()).is_err() {
        paragraph.len() == 0
    } else if paragraph.push("c漢字\n漢字", ContentStyle::new()).is_err() {
        paragraph.len() == 2 && paragraph.end() == (2, 0)
    } else if paragraph.show(&mut buffer, 0, 9).is_err() {
        buffer.width() == 1 && buffer.height() == 1
    } else {
        return Came::Done;
    };
    if is_same { Came::Refused } else { Came::Wrong }
}

/// A paragraph and a buffer that shows it.
#[derive(Drop)]
struct Paragraphs;

impl Calls for Paragraphs {
    fn over(&self, heap: &LocalHeap) -> Result<Came, AllocError> {
        Ok(adds(heap))
    }
}

#[test]
fn refused_memory_adds_nothing(rt: HostRuntime) -> Result<(), AllocError> {
    expect!(rt; is_refused_below_a_size(rt.alloc(), &Paragraphs)?);
    Ok(())
}
