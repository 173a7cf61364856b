//! JSON values of colours and attributes; the texts of colours are those of crossterm's own tests.

use crate::colors::NAMED;
use crossterm_flags::ValueFault;
use crossterm_style::{Attribute, Color, Colored};
use serde_json::Value;
use std::alloc::Global;
use test_support::expect;

/// Texts beside the names, and the colours that they represent.
static READ: [(&str, Color); 14] = [
    ("Reset", Color::Reset),
    ("Red", Color::Red),
    ("ansi_(255)", Color::AnsiValue(255)),
    ("ansi_(+007)", Color::AnsiValue(7)),
    (")ansi_(9", Color::AnsiValue(9)),
    (
        "rgb_(255,255,255)",
        Color::Rgb {
            r: 255,
            g: 255,
            b: 255,
        },
    ),
    ("rgb_(1,2,3)", Color::Rgb { r: 1, g: 2, b: 3 }),
    ("rgb_(rgb_(1,+2,03", Color::Rgb { r: 1, g: 2, b: 3 }),
    (
        "#ffffff",
        Color::Rgb {
            r: 255,
            g: 255,
            b: 255,
        },
    ),
    (
        "#FFFFFF",
        Color::Rgb {
            r: 255,
            g: 255,
            b: 255,
        },
    ),
    ("#000000", Color::Rgb { r: 0, g: 0, b: 0 }),
    (
        "#aBCdE0",
        Color::Rgb {
            r: 171,
            g: 205,
            b: 224,
        },
    ),
    (
        "#+f+f+f",
        Color::Rgb {
            r: 15,
            g: 15,
            b: 15,
        },
    ),
    ("#010203", Color::Rgb { r: 1, g: 2, b: 3 }),
];

/// Texts that represent no colour.
static NONE: [&str; 17] = [
    "unknown",
    "",
    "ansi_(256)",
    "ansi_(-1)",
    "ansi_()",
    "ansi_(a)nsi_(9",
    "rgb_(255,255,255,255)",
    "rgb_(1,2)",
    "rgb_(256,255,255)",
    "rgb_(1, 2,3)",
    "#FFGFFF",
    "#FFFFF",
    "#fffffff",
    "#FFFFFFFF",
    "#ff\u{1f980}",
    "#f+f+f+",
    "#éfff",
];

/// Whether a text represents a colour.
fn reads_as(alloc: Global, text: &str, color: Color) -> bool {
    match Value::try_from_str(alloc, text) {
        Ok(value) => Color::from_value(alloc, &value) == Ok(color),
        Err(_) => false,
    }
}

/// Whether a text represents no colour.
fn reads_as_none(alloc: Global, text: &str) -> bool {
    match Value::try_from_str(alloc, text) {
        Ok(value) => Color::from_value(alloc, &value) == Err(ValueFault::Shape),
        Err(_) => false,
    }
}

/// Whether a colour is written as a value that represents it.
fn is_carried(alloc: Global, color: Color) -> bool {
    match color.to_value(alloc) {
        Ok(value) => Color::from_value(alloc, &value) == Ok(color),
        Err(_) => false,
    }
}

#[test]
fn colors_are_carried(rt: HostRuntime) {
    for (name, color) in &NAMED {
        expect!(rt; reads_as(rt.alloc(), name, *color) && is_carried(rt.alloc(), *color), name);
    }
    for (text, color) in &READ {
        expect!(rt; reads_as(rt.alloc(), text, *color) && is_carried(rt.alloc(), *color), text);
    }
}

#[test]
fn other_texts_are_no_colors(rt: HostRuntime) {
    for text in &NONE {
        expect!(rt; reads_as_none(rt.alloc(), text), text);
    }
}

/// Whether a JSON text represents this, and this is written as that JSON.
fn is_place(alloc: Global, text: &str, colored: Colored) -> bool {
    match (Value::from_str(alloc, text), colored.to_value(alloc)) {
        (Ok(value), Ok(made)) => {
            made == value && Colored::from_value(alloc, &value) == Ok(colored)
        }
        _ => false,
    }
}

/// The same of an attribute.
fn is_attribute(alloc: Global, text: &str, attribute: Attribute) -> bool {
    match (Value::from_str(alloc, text), attribute.to_value(alloc)) {
        (Ok(value), Ok(made)) => made == value && Attribute::from_value(&value) == Ok(attribute),
        _ => false,
    }
}

#[test]
fn places_and_attributes_are_carried(rt: HostRuntime) {
    let alloc = rt.alloc();
    let red = Colored::ForegroundColor(Color::Red);
    expect!(rt; is_place(alloc, "{\"ForegroundColor\":\"red\"}", red));
    let nine = Colored::UnderlineColor(Color::AnsiValue(9));
    expect!(rt; is_place(alloc, "{\"UnderlineColor\":\"ansi_(9)\"}", nine));
    expect!(rt; is_attribute(alloc, "\"Bold\"", Attribute::Bold));
    expect!(rt; is_attribute(alloc, "\"NotFramedOrEncircled\"", Attribute::NotFramedOrEncircled));
}
