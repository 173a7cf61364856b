//! Colours: their texts, how they are read, their names, and how many a terminal has.

use crossterm_style::{Color, ColorOutput, Colored, Colors, available_color_count};
use std::alloc::Global;
use test_support::{expect, is_text};

/// Each colour with a name.
pub static NAMED: [(&str, Color); 17] = [
    ("reset", Color::Reset),
    ("black", Color::Black),
    ("dark_red", Color::DarkRed),
    ("dark_green", Color::DarkGreen),
    ("dark_yellow", Color::DarkYellow),
    ("dark_blue", Color::DarkBlue),
    ("dark_magenta", Color::DarkMagenta),
    ("dark_cyan", Color::DarkCyan),
    ("grey", Color::Grey),
    ("dark_grey", Color::DarkGrey),
    ("red", Color::Red),
    ("green", Color::Green),
    ("yellow", Color::Yellow),
    ("blue", Color::Blue),
    ("magenta", Color::Magenta),
    ("cyan", Color::Cyan),
    ("white", Color::White),
];

/// Whether a name is this colour's, by both ways of reading it.
fn is_named(name: &str, color: Color) -> bool {
    Color::try_from(name) == Ok(color) && name.parse() == Ok(color)
}

/// What no colour is called: it is none, or white if some colour is to be.
fn is_no_name(name: &str) -> bool {
    Color::try_from(name) == Err(()) && name.parse() == Ok(Color::White)
}

#[test]
fn colors_have_names(rt: HostRuntime) {
    for (name, color) in &NAMED {
        expect!(rt; is_named(name, *color), name);
    }
    expect!(rt; is_named("Dark_GREY", Color::DarkGrey));
    expect!(rt; is_no_name("foo") && is_no_name("red "));
    expect!(rt; Color::from((1, 2, 3)) == Color::Rgb { r: 1, g: 2, b: 3 });
}

/// Colours at their places, and their parameters.
static TEXTS: [(Colored, &str); 8] = [
    (Colored::ForegroundColor(Color::Red), "38;5;9"),
    (Colored::BackgroundColor(Color::Red), "48;5;9"),
    (Colored::UnderlineColor(Color::Red), "58;5;9"),
    (Colored::ForegroundColor(Color::Reset), "39"),
    (Colored::BackgroundColor(Color::Reset), "49"),
    (Colored::UnderlineColor(Color::Reset), "59"),
    (
        Colored::BackgroundColor(Color::Rgb { r: 1, g: 2, b: 3 }),
        "48;2;1;2;3",
    ),
    (Colored::ForegroundColor(Color::AnsiValue(255)), "38;5;255"),
];

/// Whether a colour has this text, shows as it and is read from it, and has none if colours are not written.
fn is_text_of(alloc: Global, colored: Colored, want: &str) -> bool {
    is_text(colored.text(alloc, ColorOutput::Enabled), want)
        && is_text(colored.text(alloc, ColorOutput::Disabled), "")
        && is_text(format!(in alloc; "{colored}"), want)
        && Colored::parse_ansi(want) == Some(colored)
}

#[test]
fn colors_have_texts(rt: HostRuntime) {
    for (colored, want) in &TEXTS {
        expect!(rt; is_text_of(rt.alloc(), *colored, want), want);
    }
}

/// Texts that represent no colour.
static NOT_READ: [&str; 46] = [
    "",
    ";",
    ";;",
    "0",
    "1",
    "12",
    "100",
    "100048949345",
    "39;",
    "49;",
    "59;",
    "39;2",
    "49;2",
    "38",
    "38;",
    "38;0",
    "38;5",
    "38;5;",
    "38;5;0;",
    "38;5;0;2",
    "38;5;80;",
    "38;5;80;2",
    "38;5;256",
    "38;5;257",
    "38;2",
    "38;2;",
    "38;2;0",
    "38;2;0;2",
    "38;2;0;2;257",
    "38;2;0;2;25;",
    "38;2;0;2;25;3",
    "48",
    "48;",
    "48;0",
    "48;5",
    "48;5;0;",
    "48;5;0;2",
    "48;5;257",
    "48;2",
    "48;2;0;2",
    "48;2;0;2;25;3",
    "38;5;-1",
    "38;5; 9",
    "38:5:9",
    "++38;5;9",
    "38;5;9m",
];

/// Texts of a colour alone, and what they represent.
static READ: [(&str, Color); 4] = [
    ("5;9", Color::Red),
    ("+5;009", Color::Red),
    ("5;+16", Color::AnsiValue(16)),
    ("2;0;2;25", Color::Rgb { r: 0, g: 2, b: 25 }),
];

/// Whether a text represents no colour, alone or at its place.
fn reads_as_nothing(text: &str) -> bool {
    Colored::parse_ansi(text).is_none() && Color::parse_ansi(text).is_none()
}

#[test]
fn texts_are_read(rt: HostRuntime) {
    for text in &NOT_READ {
        expect!(rt; reads_as_nothing(text), text);
    }
    for (text, color) in &READ {
        expect!(rt; Color::parse_ansi(text) == Some(*color), text);
    }
    let red = Some(Colored::ForegroundColor(Color::Red));
    expect!(rt; Colored::parse_ansi("+38;05;009") == red);
}

/// Values of `NO_COLOR`, and what they say of colours.
static NO_COLOR: [(Option<&str>, ColorOutput); 5] = [
    (Some("1"), ColorOutput::Disabled),
    (Some("XXX"), ColorOutput::Disabled),
    (Some("0"), ColorOutput::Disabled),
    (Some(""), ColorOutput::Enabled),
    (None, ColorOutput::Enabled),
];

/// Whether this value switches colours so.
fn switches(value: Option<&str>, colors: ColorOutput) -> bool {
    let disabled = colors == ColorOutput::Disabled;
    ColorOutput::from_no_color(value) == colors && Colored::ansi_color_disabled(value) == disabled
}

/// A foreground and a background, by a letter each: black, white, grey or none.
fn pair(letters: &[u8; 2]) -> Colors {
    Colors {
        foreground: letter(letters[0]),
        background: letter(letters[1]),
    }
}

fn letter(letter: u8) -> Option<Color> {
    match letter {
        b'b' => Some(Color::Black),
        b'w' => Some(Color::White),
        b'g' => Some(Color::Grey),
        _ => None,
    }
}

/// Colours, with colours set after them and what they are together then.
static AFTER: [(&[u8; 2], &[(&[u8; 2], &[u8; 2])]); 6] = [
    (
        b"--",
        &[
            (b"--", b"--"),
            (b"b-", b"b-"),
            (b"-g", b"-g"),
            (b"wg", b"wg"),
        ],
    ),
    (b"-b", &[(b"wg", b"wg")]),
    (b"b-", &[(b"wg", b"wg"), (b"--", b"b-")]),
    (b"bw", &[(b"wg", b"wg"), (b"-g", b"bg")]),
    (b"bg", &[(b"w-", b"wg"), (b"--", b"bg")]),
    (b"-g", &[(b"--", b"-g")]),
];

/// Whether colours of these letters are those of the last ones, if the second are set after the first.
fn win(first: &[u8; 2], second: &[u8; 2], both: &[u8; 2]) -> bool {
    pair(first).then(&pair(second)) == pair(both)
}

/// Whether a colour at its place is a foreground or a background.
fn has_its_side(color: Color) -> bool {
    let sides = [
        Colors::from(Colored::ForegroundColor(color)),
        Colors::from(Colored::BackgroundColor(color)),
        Colors::from(Colored::UnderlineColor(color)),
    ];
    sides == [pair(b"g-"), pair(b"-g"), pair(b"-g")]
}

#[test]
fn later_colors_win(rt: HostRuntime) {
    for (first, later) in &AFTER {
        for (second, both) in *later {
            expect!(rt; win(first, second, both));
        }
    }
    expect!(rt; Colors::new(Color::White, Color::Grey) == pair(b"wg"));
    expect!(rt; has_its_side(Color::Grey));
}

/// Values of `COLORTERM` and `TERM`, and how many colours they mean.
static COUNTS: [(Option<&str>, Option<&str>, u16); 8] = [
    (Some("truecolor"), Some("xterm-256color"), u16::MAX),
    (None, Some("xterm-24bits"), u16::MAX),
    (None, Some("xterm-256color"), 256),
    (None, None, 8),
    (Some("gibberish"), Some("gibberish"), 8),
    (Some(""), Some("xterm-256color"), 8),
    (Some("256"), Some("truecolor"), 256),
    (Some("256-24bit"), None, u16::MAX),
];

#[test]
fn environments_have_colors(rt: HostRuntime) {
    for (value, colors) in &NO_COLOR {
        expect!(rt; switches(*value, *colors));
    }
    for (colorterm, term, want) in &COUNTS {
        expect!(rt; available_color_count(*colorterm, *term) == *want);
    }
}
