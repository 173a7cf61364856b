//! Attributes of text.
ghost use Rattle.std.specs.Prelude.{◌≡◌, ◌<◌, ◌≤◌, length, IfOk, IfErr, Some, string_bytes};
ghost use Rattle.std.specs.IoError.{error_kind};
ghost use Rattle.crossterm_style.specs.Attributes.{all_attributes, attributes, bit_of, code_of, attribute_index};
ghost use Rattle.crossterm_command.specs.Tokens.{text_of};
ghost use Rattle.crossterm_style.specs.Styles.{attribute_functions};

use crate::{AttributeIter, SetAttribute};
use crossterm_command::execute_fmt;
use crossterm_flags::value::Named;
use crossterm_flags::{named_variants, variants};
use std::alloc::Allocator;
use std::io::ErrorKind;
use std::{fmt, io};

/// The numbers of all attributes, in declared order; of the underlines that have a kind, the kind's.
pub const SGR: [i16; 28] = [
    0, 1, 2, 3, 4, 2, 3, 4, 5, 5, 6, 7, 8, 9, 20, 21, 22, 23, 24, 25, 27, 28, 29, 51, 52, 53, 54,
    55,
];

/// An attribute of text, by an SGR parameter (ECMA-48, 8.3.117; underlines: kitty's underline extension).
#[derive(Clone, Copy, PartialEq, Eq, PartialOrd, Ord, Hash, Debug)]
pub enum Attribute {
    /// All attributes and colours are off.
    Reset,
    /// Bolder text.
    Bold,
    /// Fainter text.
    Dim,
    /// Italic text.
    Italic,
    /// One line below.
    Underlined,
    /// Two lines below.
    DoubleUnderlined,
    /// A curled line below.
    Undercurled,
    /// A dotted line below.
    Underdotted,
    /// A dashed line below.
    Underdashed,
    /// Blinks, fewer than 150 times a minute.
    SlowBlink,
    /// Blinks, 150 times a minute or more.
    RapidBlink,
    /// Foreground and background are exchanged.
    Reverse,
    /// Hidden text.
    Hidden,
    /// Crossed out text.
    CrossedOut,
    /// The Fraktur typeface.
    Fraktur,
    /// Bold is off; some terminals read it as two lines below.
    NoBold,
    /// Neither bolder nor fainter.
    NormalIntensity,
    /// Italic and Fraktur are off.
    NoItalic,
    /// No line below.
    NoUnderline,
    /// Doesn't blink.
    NoBlink,
    /// Colours aren't exchanged.
    NoReverse,
    /// Not hidden.
    NoHidden,
    /// Not crossed out.
    NotCrossedOut,
    /// Framed text.
    Framed,
    /// Encircled text.
    Encircled,
    /// A line above.
    OverLined,
    /// Neither framed nor encircled.
    NotFramedOrEncircled,
    /// No line above.
    NotOverLined,
}

/// Of all attributes, in declared order, what a macro makes of an enum's variants.
macro_rules! all_attributes {
    ($made:ident) => {
        $made!(Attribute:
            Reset Bold Dim Italic Underlined DoubleUnderlined Undercurled Underdotted Underdashed
            SlowBlink RapidBlink Reverse Hidden CrossedOut Fraktur NoBold NormalIntensity NoItalic
            NoUnderline NoBlink NoReverse NoHidden NotCrossedOut Framed Encircled OverLined
            NotFramedOrEncircled NotOverLined
        )
    };
}

impl Named for Attribute {
    ghost rows = { attributes.rows };

    fn rows<'a>() -> &'a [(&'static str, Attribute)] {
        all_attributes!(named_variants)
    }
}

impl Attribute {
    const ALL: [Attribute; 28] = all_attributes!(variants);

    /// All attributes, in declared order.
    pub(crate) fn all<'a>() -> &'a [Attribute]
        ensures { result.now ≡ all_attributes }
    {
        &Attribute::ALL
    }

    /// An iterator over all attributes, in declared order.
    pub fn iterator() -> AttributeIter
        ensures { result ≡ all_attributes }
    {
        AttributeIter::new()
    }

    /// Its place in declared order, from 0.
    pub(crate) fn place(self) -> u32
        ensures place { result ≡ attribute_index self }
        ensures few { result < 28 }
    {
        self as u32
    }

    /// Its bit in a set.
    pub fn bytes(self) -> u32
        ensures { result ≡ bit_of self }
    {
        1 << (self.place() + 1)
    }

    /// The SGR parameter that sets it.
    pub(crate) fn code(self) -> &'static str
        ensures code { result.now ≡ code_of self }
        ensures short { length result.now ≤ 3 }
    {
        match self {
            Attribute::Reset => "0",
            Attribute::Bold => "1",
            Attribute::Dim => "2",
            Attribute::Italic => "3",
            Attribute::Underlined => "4",
            Attribute::DoubleUnderlined => "4:2",
            Attribute::Undercurled => "4:3",
            Attribute::Underdotted => "4:4",
            Attribute::Underdashed => "4:5",
            Attribute::SlowBlink => "5",
            Attribute::RapidBlink => "6",
            Attribute::Reverse => "7",
            Attribute::Hidden => "8",
            Attribute::CrossedOut => "9",
            Attribute::Fraktur => "20",
            Attribute::NoBold => "21",
            Attribute::NormalIntensity => "22",
            Attribute::NoItalic => "23",
            Attribute::NoUnderline => "24",
            Attribute::NoBlink => "25",
            Attribute::NoReverse => "27",
            Attribute::NoHidden => "28",
            Attribute::NotCrossedOut => "29",
            Attribute::Framed => "51",
            Attribute::Encircled => "52",
            Attribute::OverLined => "53",
            Attribute::NotFramedOrEncircled => "54",
            Attribute::NotOverLined => "55",
        }
    }

    /// The SGR parameter that sets it, as a text: `1` of `Bold`, `4:5` of `Underdashed`.
    ///
    /// # Errors
    ///
    /// `OutOfMemory` if memory for the text was refused.
    pub fn sgr<A: Allocator>(self, alloc: A) -> io::Result<String<A>>
        ensures ok { IfOk result (λ text. string_bytes text ≡ code_of self) }
        ensures err { IfErr result (λ e. error_kind e ≡ ErrorKind.OutOfMemory) }
    {
        let mut text = String::new(alloc);
        match text.push_str(self.code()) {
            Ok(()) => Ok(text),
            Err(_) => Err(io::Error::from(ErrorKind::OutOfMemory)),
        }
    }
}

impl fmt::Display for Attribute {
    ghost output = { λ a. Some (text_of (attribute_functions a)) };

    fn fmt<W: fmt::Write>(&self, f: &mut fmt::Formatter<W>) -> fmt::Result {
        execute_fmt(f, &SetAttribute(*self))
    }
}
