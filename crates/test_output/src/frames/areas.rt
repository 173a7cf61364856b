//! Rectangles that are split, styled and filled, and a list that goes by pages.

use crossterm_style::{Attribute, Attributes, ContentStyle};
use screen::{Buffer, CellFault, ListState, Rect};
use std::alloc::{AllocError, Global};
use test_support::expect;

/// The first column and the number of columns of a rectangle, how many are split off, and the same of both parts.
type Row = ((u16, u16), u16, (u16, u16), (u16, u16));

const ROWS: [Row; 4] = [
    ((2, 80), 20, (2, 20), (22, 60)),
    ((5, 10), 30, (5, 10), (15, 0)),
    ((65_000, 1_000), 535, (65_000, 535), (65_535, 465)),
    // The others begin behind 65535.
    ((65_000, 1_000), 536, (65_000, 536), (65_000, 0)),
];

/// Whether columns are split so, and rows too.
fn is_split(row: &Row) -> bool {
    let ((first, count), at, (front, some), (rest, others)) = *row;
    let (left, right) = Rect::new(first, 3, count, 4).split_columns(at);
    let (above, below) = Rect::new(3, first, 4, count).split_rows(at);
    left == Rect::new(front, 3, some, 4)
        && right == Rect::new(rest, 3, others, 4)
        && above == Rect::new(3, front, 4, some)
        && below == Rect::new(3, rest, 4, others)
}

#[test]
fn columns_and_rows_are_split(rt: HostRuntime) {
    for row in &ROWS {
        expect!(rt; is_split(row));
    }
}

/// Whether a list of ten entries in four rows goes down and up by four.
fn goes_by_pages() -> bool {
    let mut list = ListState::new(10, 4);
    list.page_down();
    list.page_down();
    let is_down = list.chosen() == Some(8);
    list.page_up();
    is_down && list.chosen() == Some(4)
}

#[test]
fn a_list_goes_by_pages(rt: HostRuntime) {
    expect!(rt; goes_by_pages());
}

/// Two rows of six columns: two characters of two columns in the first one.
fn rows(alloc: Global) -> Result<Buffer, AllocError> {
    let mut buffer = Buffer::new(alloc, 6, 2)?;
    let _ = buffer.fill('.', ContentStyle::new());
    let _ = buffer.print(0, 0, "a漢b字", ContentStyle::new());
    Ok(buffer)
}

/// A rectangle that begins in the second half of the first such character, and ends in the first half of the second one.
fn area() -> Rect {
    Rect::new(2, 0, 3, 9)
}

/// Whether the characters that begin in the rectangle are reversed, and no others.
fn is_styled(mut buffer: Buffer) -> bool {
    let style = ContentStyle {
        attributes: Attributes::none().with(Attribute::Reverse),
        ..ContentStyle::new()
    };
    buffer.set_style(area(), style);
    buffer
        .cells()
        .iter()
        .map(|cell| (
            cell.symbol(),
            cell.style().attributes.has(Attribute::Reverse),
        ))
        .eq([
            ('a', false),
            ('漢', false),
            ('\0', false),
            ('b', true),
            ('字', true),
            ('\0', true),
            ('.', false),
            ('.', false),
            ('.', true),
            ('.', true),
            ('.', true),
            ('.', false),
        ])
}

/// Whether the rectangle is filled, and each half that is left is a space.
fn is_filled(mut buffer: Buffer) -> bool {
    let wide = buffer.fill_area(area(), '漢', ContentStyle::new());
    let came = buffer.fill_area(area(), '#', ContentStyle::new());
    wide == Err(CellFault::Wide)
        && came == Ok(())
        && buffer
            .cells()
            .iter()
            .map(|cell| cell.symbol())
            .eq("a ### ..###.".chars())
}

#[test]
fn rectangles_are_styled_and_filled(rt: HostRuntime) -> Result<(), AllocError> {
    expect!(rt; is_styled(rows(rt.alloc())?));
    expect!(rt; is_filled(rows(rt.alloc())?));
    Ok(())
}
