//! Colours and styles in few bytes: a cell takes little memory, and two cells are compared by words.
ghost use Rattle.std.specs.Prelude.{◌≡◌, ◌↔◌, IsTrue};

use crossterm_style::{Attributes, Color, ContentStyle};
use std::fmt;
use std::marker::Model;

/// A colour that may be there: a number for its kind, and the numbers that a colour of this kind has.
#[derive(Clone, Copy, PartialEq, Eq)]
pub(crate) struct PackedColor(u8, u8, u8, u8);

impl Model for PackedColor {
    ghost use Rattle.std.specs.Prelude.{◌≡◌, Option};
    ghost use Rattle.crossterm_style.specs.declared.types.color.Color.{Color};

    ghost Value = { Option Color };

    ghost use Rattle.screen.specs.inside.Packed.{packed, unpacked};

    ghost view = { unpacked };

    ghost inverse = { packed };

    ghost inverse_ok = { λ a is_packed. is_packed };

    ghost invariant = { λ a. packed (unpacked a) ≡ a };
}

impl PackedColor {
    /// A colour, or none.
    pub(crate) fn new(color: Option<Color>) -> PackedColor
        ensures { result ≡ color }
    {
        match color {
            None => PackedColor(0, 0, 0, 0),
            Some(Color::Reset) => PackedColor(1, 0, 0, 0),
            Some(Color::Black) => PackedColor(2, 0, 0, 0),
            Some(Color::DarkGrey) => PackedColor(3, 0, 0, 0),
            Some(Color::Red) => PackedColor(4, 0, 0, 0),
            Some(Color::DarkRed) => PackedColor(5, 0, 0, 0),
            Some(Color::Green) => PackedColor(6, 0, 0, 0),
            Some(Color::DarkGreen) => PackedColor(7, 0, 0, 0),
            Some(Color::Yellow) => PackedColor(8, 0, 0, 0),
            Some(Color::DarkYellow) => PackedColor(9, 0, 0, 0),
            Some(Color::Blue) => PackedColor(10, 0, 0, 0),
            Some(Color::DarkBlue) => PackedColor(11, 0, 0, 0),
            Some(Color::Magenta) => PackedColor(12, 0, 0, 0),
            Some(Color::DarkMagenta) => PackedColor(13, 0, 0, 0),
            Some(Color::Cyan) => PackedColor(14, 0, 0, 0),
            Some(Color::DarkCyan) => PackedColor(15, 0, 0, 0),
            Some(Color::White) => PackedColor(16, 0, 0, 0),
            Some(Color::Grey) => PackedColor(17, 0, 0, 0),
            Some(Color::AnsiValue(place)) => PackedColor(18, place, 0, 0),
            Some(Color::Rgb { r, g, b }) => PackedColor(19, r, g, b),
        }
    }

    /// The colour, or none.
    pub(crate) fn color(self) -> Option<Color>
        ensures { result ≡ self }
    {
        match self.0 {
            0 => None,
            1 => Some(Color::Reset),
            2 => Some(Color::Black),
            3 => Some(Color::DarkGrey),
            4 => Some(Color::Red),
            5 => Some(Color::DarkRed),
            6 => Some(Color::Green),
            7 => Some(Color::DarkGreen),
            8 => Some(Color::Yellow),
            9 => Some(Color::DarkYellow),
            10 => Some(Color::Blue),
            11 => Some(Color::DarkBlue),
            12 => Some(Color::Magenta),
            13 => Some(Color::DarkMagenta),
            14 => Some(Color::Cyan),
            15 => Some(Color::DarkCyan),
            16 => Some(Color::White),
            17 => Some(Color::Grey),
            18 => Some(Color::AnsiValue(self.1)),
            _ => Some(Color::Rgb {
                r: self.1,
                g: self.2,
                b: self.3,
            }),
        }
    }

    /// Whether there is one.
    pub(crate) fn is_some(self) -> bool {
        self.0 != 0
    }
}

/// Whether two colours are the same, or there is none.
pub(crate) fn is_same_color(left: PackedColor, right: PackedColor) -> bool
    ensures { IsTrue result ↔ (left ≡ right) }
{
    let left = u32::from_le_bytes([left.0, left.1, left.2, left.3]);
    let right = u32::from_le_bytes([right.0, right.1, right.2, right.3]);
    left == right
}

/// A style: three colours that may be there, and attributes.
#[derive(Clone, Copy, PartialEq, Eq)]
pub(crate) struct PackedStyle {
    pub(crate) foreground: PackedColor,
    pub(crate) background: PackedColor,
    pub(crate) underline: PackedColor,
    pub(crate) attributes: Attributes,
}

impl Model for PackedStyle {
    ghost use Rattle.crossterm_style.specs.declared.content_style.ContentStyle.{ContentStyle};

    ghost Value = { ContentStyle };

    ghost view = { λ s. record {
      foreground_color = s.foreground;
      background_color = s.background;
      underline_color = s.underline;
      attributes = s.attributes;
    } };

    ghost inverse = { λ s. record {
      foreground = s.foreground_color;
      background = s.background_color;
      underline = s.underline_color;
      attributes = s.attributes;
    } };
}

impl PackedStyle {
    /// A style.
    pub(crate) fn new(style: &ContentStyle) -> PackedStyle
        ensures { result ≡ style.now }
    {
        PackedStyle {
            foreground: PackedColor::new(style.foreground_color),
            background: PackedColor::new(style.background_color),
            underline: PackedColor::new(style.underline_color),
            attributes: style.attributes,
        }
    }

    /// The style.
    pub(crate) fn style(&self) -> ContentStyle
        ensures { result ≡ self.now }
    {
        ContentStyle {
            foreground_color: self.foreground.color(),
            background_color: self.background.color(),
            underline_color: self.underline.color(),
            attributes: self.attributes,
        }
    }
}

/// As the style.
impl fmt::Debug for PackedStyle {
    fn fmt<W: fmt::Write>(&self, f: &mut fmt::Formatter<W>) -> fmt::Result {
        fmt::Debug::fmt(&self.style(), f)
    }
}

/// Whether two sets are the same.
pub(crate) fn is_same_set(left: Attributes, right: Attributes) -> bool
    ensures { IsTrue result ↔ (left ≡ right) }
{
    left == right
}

/// Whether two styles are the same.
pub(crate) fn is_same_style(left: &PackedStyle, right: &PackedStyle) -> bool
    ensures { IsTrue result ↔ (left.now ≡ right.now) }
{
    // With `&`, which is no branch, the compiler compares all at once.
    is_same_color(left.foreground, right.foreground)
        & is_same_color(left.background, right.background)
        & is_same_color(left.underline, right.underline)
        & is_same_set(left.attributes, right.attributes)
}
