//! Colours.
ghost use Rattle.std.specs.Prelude.{◌≡◌, ◌⊎◌, MatchOption, MatchResult};
ghost use Rattle.crossterm_style.specs.Values.{color_in, color_name};
ghost use Rattle.crossterm_style.specs.ColorNames.{entries, names, Names, NamesIn, NamesNone, NamesNoneIn};
ghost use Rattle.crossterm_style.specs.Fields.{IsColorRead};

use crate::fields::Fields;
use crossterm_flags::value::name_in;
use std::str::FromStr;

/// A colour of text, of what is behind it, or of its underline.
///
/// The sixteen names are the first colours of a terminal's palette; `AnsiValue` is any of its 256.
///
/// ```
/// queue!(w, colors, SetForegroundColor(Color::Rgb { r: 255, g: 128, b: 0 }), Print("orange"))?;
/// ```
#[derive(Clone, Copy, PartialEq, Eq, PartialOrd, Ord, Hash, Debug)]
pub enum Color {
    /// The terminal's own.
    Reset,
    Black,
    DarkGrey,
    Red,
    DarkRed,
    Green,
    DarkGreen,
    Yellow,
    DarkYellow,
    Blue,
    DarkBlue,
    Magenta,
    DarkMagenta,
    Cyan,
    DarkCyan,
    White,
    Grey,
    /// By its parts.
    Rgb { r: u8, g: u8, b: u8 },
    /// By its place in the palette.
    AnsiValue(u8),
}

impl Color {
    /// Reads the SGR parameters that represent a colour (ECMA-48, 8.3.117; xterm's control sequences), after the number that sets its
    /// place: `5;9` is `Red`, `5;16` is `AnsiValue(16)`, `2;1;2;3` is `Rgb { r: 1, g: 2, b: 3 }`.
    ///
    /// A number is below 256, may begin with zeros, and a plus may precede it.
    pub fn parse_ansi(text: &str) -> Option<Color>
        ensures { IsColorRead text.now result }
    {
        match Fields::of(text).sgr() {
            Some(sgr) => Some(sgr.color()),
            None => None,
        }
    }
}

/// The names of colours.
static NAMES: [(&str, Color); 17] = [
    ("reset", Color::Reset),
    ("black", Color::Black),
    ("dark_grey", Color::DarkGrey),
    ("red", Color::Red),
    ("dark_red", Color::DarkRed),
    ("green", Color::Green),
    ("dark_green", Color::DarkGreen),
    ("yellow", Color::Yellow),
    ("dark_yellow", Color::DarkYellow),
    ("blue", Color::Blue),
    ("dark_blue", Color::DarkBlue),
    ("magenta", Color::Magenta),
    ("dark_magenta", Color::DarkMagenta),
    ("cyan", Color::Cyan),
    ("dark_cyan", Color::DarkCyan),
    ("white", Color::White),
    ("grey", Color::Grey),
];

/// The colour of a name of a table, with ASCII letters of either case.
fn color_in(table: &[(&str, Color)], text: &str) -> Option<Color>
    ensures named { MatchOption result (NamesNoneIn (entries table.now) text.now) (λ c. NamesIn (entries table.now) text.now c) }
    ensures first { result ≡ color_in (entries table.now) text.now }
{
    for (name, color) in table {
        if text.eq_ignore_ascii_case(name) {
            return Some(*color);
        }
    }
    None
}

/// The colour of a name, with ASCII letters of either case.
pub(crate) fn color_named(text: &str) -> Option<Color>
    ensures named { MatchOption result (NamesNone text.now) (λ c. Names text.now c) }
    ensures first { result ≡ color_in names text.now }
{
    color_in(&NAMES, text)
}

/// The name of a colour that has one.
pub(crate) fn name_of(color: Color) -> &'static str
    ensures { result.now ≡ color_name color }
{
    name_in(&NAMES, color)
}

/// Reads a colour's name, as `dark_grey`, with ASCII letters of either case.
impl TryFrom<&str> for Color {
    type Error = ();

    ghost try_from_gives = { λ text r. MatchResult r (λ c. Names text.now c) (λ _. NamesNone text.now) };

    fn try_from(text: &str) -> Result<Color, ()> {
        match color_named(text) {
            Some(color) => Ok(color),
            None => Err(()),
        }
    }
}

/// Reads a colour's name as `try_from` does; any other text is `White`, and it never fails.
impl FromStr for Color {
    type Err = ();

    ghost use Rattle.crossterm_style.specs.declared.types.color.Color.TheVariants.{White};

    ghost from_str_gives = { λ text r. MatchResult r (λ c. Names text c ⊎ (NamesNone text × (c ≡ White))) (λ _. ⊥) };

    fn from_str(text: &str) -> Result<Color, ()> {
        match color_named(text) {
            Some(color) => Ok(color),
            None => Ok(Color::White),
        }
    }
}

/// A colour by its parts: red, green and blue.
impl From<(u8, u8, u8)> for Color {
    ghost use Rattle.crossterm_style.specs.declared.types.color.Color.TheVariants.{Rgb};

    ghost from_gives = { λ parts c. c ≡ Rgb parts.0 parts.1 parts.2 };

    fn from(parts: (u8, u8, u8)) -> Color {
        let (r, g, b) = parts;
        Color::Rgb { r, g, b }
    }
}
