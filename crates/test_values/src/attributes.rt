//! Attributes by one table: their order, their bits and their parameters.

use crossterm_style::{Attribute, SGR, SetAttribute};
use std::alloc::Global;
use test_support::{expect, is_text};

/// An attribute, its number in `SGR` and the parameter that sets it.
type Row = (Attribute, i16, &'static str);

/// All attributes, in declared order.
static ATTRIBUTES: [Row; 28] = [
    (Attribute::Reset, 0, "0"),
    (Attribute::Bold, 1, "1"),
    (Attribute::Dim, 2, "2"),
    (Attribute::Italic, 3, "3"),
    (Attribute::Underlined, 4, "4"),
    (Attribute::DoubleUnderlined, 2, "4:2"),
    (Attribute::Undercurled, 3, "4:3"),
    (Attribute::Underdotted, 4, "4:4"),
    (Attribute::Underdashed, 5, "4:5"),
    (Attribute::SlowBlink, 5, "5"),
    (Attribute::RapidBlink, 6, "6"),
    (Attribute::Reverse, 7, "7"),
    (Attribute::Hidden, 8, "8"),
    (Attribute::CrossedOut, 9, "9"),
    (Attribute::Fraktur, 20, "20"),
    (Attribute::NoBold, 21, "21"),
    (Attribute::NormalIntensity, 22, "22"),
    (Attribute::NoItalic, 23, "23"),
    (Attribute::NoUnderline, 24, "24"),
    (Attribute::NoBlink, 25, "25"),
    (Attribute::NoReverse, 27, "27"),
    (Attribute::NoHidden, 28, "28"),
    (Attribute::NotCrossedOut, 29, "29"),
    (Attribute::Framed, 51, "51"),
    (Attribute::Encircled, 52, "52"),
    (Attribute::OverLined, 53, "53"),
    (Attribute::NotFramedOrEncircled, 54, "54"),
    (Attribute::NotOverLined, 55, "55"),
];

/// Whether an attribute comes at this place among all, and has its number there.
fn is_at(place: usize, row: &Row) -> bool {
    Attribute::iterator().nth(place) == Some(row.0) && SGR.get(place) == Some(&row.1)
}

/// Whether this is an attribute's parameter, by its name, by its text and by its command's.
fn is_set_by(alloc: Global, attribute: Attribute, parameter: &str) -> bool {
    let command = SetAttribute(attribute);
    match format!(in alloc; "\x1b[{parameter}m") {
        Ok(text) => {
            is_text(format!(in alloc; "{attribute}"), text.as_str())
                && is_text(format!(in alloc; "{command}"), text.as_str())
        }
        Err(_) => false,
    }
}

#[test]
fn attributes_are_their_table(rt: HostRuntime) {
    for (place, row) in ATTRIBUTES.iter().enumerate() {
        expect!(rt; is_at(place, row), row.2);
        expect!(rt; row.0.bytes() == 2 << place, row.2);
        expect!(rt; is_set_by(rt.alloc(), row.0, row.2), row.2);
        expect!(rt; is_text(row.0.sgr(rt.alloc()), row.2), row.2);
    }
    expect!(rt; Attribute::iterator().nth(28).is_none());
}
