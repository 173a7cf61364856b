//! Colours, attributes and styles as numbers.
ghost use Rattle.std.specs.Prelude.{◌≡◌, [], ◌∷◌};
ghost use Rattle.std.specs.List.{filter};
ghost use Rattle.crossterm_style.specs.Attributes.{with_all};
ghost use Rattle.numbers.specs.Style.{attribute_at, attributes_at, color_of_kind, includes, known_of, style_at, there_at};

use crossterm_style::{Attribute, Attributes, Color, ContentStyle};

/// A colour, by its place in crossterm's enum counted from 1; 0 is none.
#[repr(C)]
#[derive(Clone, Copy, Debug, PartialEq, Eq, Default)]
pub struct GelvanhColor {
    /// Which: 1 the terminal's own, 2 to 17 by name, 18 by its parts, 19 by its place in the palette.
    pub kind: u8,
    /// The red part, or the place in the palette.
    pub r: u8,
    /// The green part.
    pub g: u8,
    /// The blue part.
    pub b: u8,
}

/// How a text looks: colours that may be missing, and attributes.
#[repr(C)]
#[derive(Clone, Copy, Debug, PartialEq, Eq, Default)]
pub struct GelvanhStyle {
    /// The colour of the text.
    pub foreground: GelvanhColor,
    /// The colour behind the text.
    pub background: GelvanhColor,
    /// The colour of the line below the text.
    pub underline: GelvanhColor,
    /// The bits of attributes.
    pub attributes: u32,
}

/// The attribute at a place of crossterm's enum, or `None` if there is none.
///
/// ```
/// assert_eq!(rt; attribute_of(1), Some(Attribute::Bold));
/// ```
pub fn attribute_of(place: u16) -> Option<Attribute>
    ensures { result ≡ attribute_at place }
{
    Attribute::iterator().nth(usize::from(place))
}

/// Adds an attribute to a set and to its bits, if some bits include it.
fn include(bits: u32, attribute: Attribute, set: &mut Attributes, known: &mut u32)
    requires { set.old.0 ≡ known.old }
    ensures set { set.new.0 ≡ known.new }
    ensures bits { known.new ≡ with_all known.old (filter (includes bits) (attribute ∷ [])) }
{
    let bit = attribute.bytes();
    if bits & bit == bit {
        set.set(attribute);
        *known |= bit;
    }
}

/// The set of all attributes that some bits include, and its bits.
fn known_in(bits: u32) -> (Attributes, u32)
    ensures set { result.0.0 ≡ result.1 }
    ensures bits { result.1 ≡ known_of bits }
{
    let mut set = Attributes::none();
    let mut known = 0;
    for attribute in Attribute::iterator() {
        include(bits, attribute, &mut set, &mut known);
    }
    (set, known)
}

/// The set of attributes of some bits, or `None` if one of them is no attribute's.
///
/// ```
/// let bold = attributes_of(Attribute::Bold.bytes());
/// ```
pub fn attributes_of(bits: u32) -> Option<Attributes>
    ensures { result ≡ attributes_at bits }
{
    let (set, known) = known_in(bits);
    if known == bits { Some(set) } else { None }
}

/// The colour of some numbers, or `None` if they are no colour's.
///
/// ```
/// let orange = color_of(GelvanhColor { kind: 19, r: 208, g: 0, b: 0 });
/// assert_eq!(rt; orange, Some(Color::AnsiValue(208)));
/// ```
pub fn color_of(color: GelvanhColor) -> Option<Color>
    ensures { result ≡ color_of_kind color }
{
    match color.kind {
        1 => Some(Color::Reset),
        2 => Some(Color::Black),
        3 => Some(Color::DarkGrey),
        4 => Some(Color::Red),
        5 => Some(Color::DarkRed),
        6 => Some(Color::Green),
        7 => Some(Color::DarkGreen),
        8 => Some(Color::Yellow),
        9 => Some(Color::DarkYellow),
        10 => Some(Color::Blue),
        11 => Some(Color::DarkBlue),
        12 => Some(Color::Magenta),
        13 => Some(Color::DarkMagenta),
        14 => Some(Color::Cyan),
        15 => Some(Color::DarkCyan),
        16 => Some(Color::White),
        17 => Some(Color::Grey),
        18 => Some(Color::Rgb {
            r: color.r,
            g: color.g,
            b: color.b,
        }),
        19 => Some(Color::AnsiValue(color.r)),
        _ => None,
    }
}

/// The colour of some numbers, which may be missing, or `None` if they are no colour's.
///
/// ```
/// assert_eq!(rt; there_of(GelvanhColor::default()), Some(None));
/// ```
pub fn there_of(color: GelvanhColor) -> Option<Option<Color>>
    ensures { result ≡ there_at color }
{
    if color.kind == 0 {
        return Some(None);
    }
    match color_of(color) {
        Some(color) => Some(Some(color)),
        None => None,
    }
}

/// The style of some numbers, or `None` if a colour or the attributes of it are none.
///
/// ```
/// let bold = GelvanhStyle { attributes: 4, ..GelvanhStyle::default() };
/// assert_eq!(rt; style_of(&bold), Some(ContentStyle::new().bold()));
/// ```
pub fn style_of(style: &GelvanhStyle) -> Option<ContentStyle>
    ensures { result ≡ style_at style.now }
{
    let foreground_color = there_of(style.foreground)?;
    let background_color = there_of(style.background)?;
    let underline_color = there_of(style.underline)?;
    let attributes = attributes_of(style.attributes)?;
    Some(ContentStyle {
        foreground_color,
        background_color,
        underline_color,
        attributes,
    })
}
