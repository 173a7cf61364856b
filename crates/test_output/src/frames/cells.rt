//! Cells by themselves.

use crate::commands::is_cloned;
use crossterm_style::{Attribute, Color, ContentStyle};
use screen::Cell;
use std::alloc::{AllocError, Global};
use test_support::expect;

/// Colours that are near each other in what is kept of them.
const COLORS: [Option<Color>; 6] = [
    None,
    Some(Color::Reset),
    Some(Color::Grey),
    Some(Color::AnsiValue(0)),
    Some(Color::Rgb { r: 0, g: 0, b: 0 }),
    Some(Color::Rgb { r: 0, g: 0, b: 1 }),
];

fn colored(color: Option<Color>) -> Cell {
    Cell::new(
        'x',
        ContentStyle {
            underline_color: color,
            ..ContentStyle::new()
        },
    )
}

/// Whether two colours make the same cell exactly if they are the same, and come back.
fn are_apart() -> bool {
    COLORS.iter().all(|left| {
        let cell = colored(*left);
        cell.style().underline_color == *left
            && COLORS
                .iter()
                .all(|right| (cell == colored(*right)) == (left == right))
    })
}

/// How a bold cell shows to a programmer.
const SHOWN: &str =
    "Cell { symbol: 'x', marks: [], style: ContentStyle { foreground_color: None, background_color: None, underline_color: None, attributes: Attributes(4) } }";

/// Whether a cell's attributes are a part of it, and it shows as what it was made of.
fn is_bold(alloc: Global) -> bool {
    let mut style = ContentStyle::new();
    style.attributes.set(Attribute::Bold);
    let cell = Cell::new('x', style);
    cell != colored(None) && is_cloned(alloc, cell, SHOWN)
}

#[test]
fn cells_are_what_they_were_made_of(rt: HostRuntime) -> Result<(), AllocError> {
    expect!(rt; are_apart());
    expect!(rt; is_bold(rt.alloc()));
    Ok(())
}
