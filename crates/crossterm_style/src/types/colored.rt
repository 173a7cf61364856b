//! Colours and their places.
ghost use Rattle.std.specs.Prelude.{◌≡◌, ◌+◌, ◌≤◌, ◌++◌, Some, length, IfOk, IfErr, MatchOption};
ghost use Rattle.std.specs.IoError.{error_kind};
ghost use Rattle.std.specs.String.{string_bytes};
ghost use Rattle.std.specs.declared.io.ErrorKind.TheVariants.{OutOfMemory};
ghost use Rattle.arrayvec.specs.ArrayString.{array_string_len};
ghost use Rattle.crossterm_command.specs.Environment.{is_set};
ghost use Rattle.crossterm_command.specs.declared.color_output.ColorOutput.TheVariants.{Enabled};
ghost use Rattle.crossterm_style.specs.Colors.{colored_text};
ghost use Rattle.crossterm_style.specs.Fields.{IsColoredRead, Resets, ResetsNone, SetsPlace, SetsNone};

use crate::fields::Fields;
use crate::{Color, ColorOutput, SgrColor};
use arrayvec::ArrayString;
use std::alloc::Allocator;
use std::string::String;
use std::{fmt, io};

/// A colour and its place.
///
/// It shows (`Display`) as its SGR parameters (ECMA-48, 8.3.117; xterm's control sequences for 38 and 48; kitty's underlines for 58), as
/// `38;5;9` for a red text. The named colours are the palette's first sixteen.
#[derive(Clone, Copy, PartialEq, Eq, PartialOrd, Ord, Hash, Debug)]
pub enum Colored {
    /// Of the text.
    ForegroundColor(Color),
    /// Of what is behind the text.
    BackgroundColor(Color),
    /// Of the line below the text.
    UnderlineColor(Color),
}

impl Colored {
    /// Reads the SGR parameters of a colour at its place, and nothing else: `38;5;9` is `ForegroundColor(Red)`, `49` is
    /// `BackgroundColor(Reset)`.
    ///
    /// A number is below 256, may begin with zeros, and a plus may precede it.
    pub fn parse_ansi(text: &str) -> Option<Colored>
        ensures { IsColoredRead text.now result }
    {
        let Some((number, fields)) = Fields::of(text).byte() else {
            return None;
        };
        if fields.is_empty() {
            return Colored::reset_by(number);
        }
        match fields.sgr() {
            Some(sgr) => Colored::set_by(number, sgr.color()),
            None => None,
        }
    }

    /// The place that a number resets, with the terminal's own colour.
    fn reset_by(number: u8) -> Option<Colored>
        ensures { MatchOption result (ResetsNone number) (λ c. Resets number c) }
    {
        match number {
            39 => Some(Colored::ForegroundColor(Color::Reset)),
            49 => Some(Colored::BackgroundColor(Color::Reset)),
            59 => Some(Colored::UnderlineColor(Color::Reset)),
            _ => None,
        }
    }

    /// The place that a number sets, with a colour.
    fn set_by(number: u8, color: Color) -> Option<Colored>
        ensures { MatchOption result (SetsNone number) (λ c. SetsPlace number color c) }
    {
        match number {
            38 => Some(Colored::ForegroundColor(color)),
            48 => Some(Colored::BackgroundColor(color)),
            58 => Some(Colored::UnderlineColor(color)),
            _ => None,
        }
    }

    /// Whether the value of `NO_COLOR` is there and not empty.
    pub fn ansi_color_disabled(no_color: Option<&str>) -> bool
        ensures { result ≡ is_set no_color.entry }
    {
        ColorOutput::from_no_color(no_color) == ColorOutput::Disabled
    }

    /// Its SGR parameters, or nothing if colours are not written.
    ///
    /// # Errors
    ///
    /// `OutOfMemory` if memory for the text was refused.
    pub fn text<A: Allocator>(self, alloc: A, colors: ColorOutput) -> io::Result<String<A>>
        ensures ok { IfOk result (λ s. string_bytes s ≡ colored_text colors self) }
        ensures err { IfErr result (λ e. error_kind e ≡ OutOfMemory) }
    {
        let mut text = ArrayString::<16>::new();
        self.push_to(&mut text, colors);
        match String::from_str(alloc, text.as_str()) {
            Ok(text) => Ok(text),
            Err(_) => Err(io::Error::from(io::ErrorKind::OutOfMemory)),
        }
    }

    /// Pushes its SGR parameters, or nothing if colours are not written.
    #[inline(always)]
    pub(crate) fn push_to<const N: usize>(self, text: &mut ArrayString<N>, colors: ColorOutput)
        requires { array_string_len text.old + 16 ≤ N }
        ensures pushed { text.new.bytes ≡ text.old.bytes ++ colored_text colors self }
        ensures short { length (colored_text colors self) ≤ 16 }
    {
        if colors == ColorOutput::Disabled {
            return;
        }
        match self {
            Colored::ForegroundColor(color) => SgrColor::of(color).push_to(text, "38", "39"),
            Colored::BackgroundColor(color) => SgrColor::of(color).push_to(text, "48", "49"),
            Colored::UnderlineColor(color) => SgrColor::of(color).push_to(text, "58", "59"),
        }
    }
}

impl fmt::Display for Colored {
    ghost output = { λ c. Some (colored_text Enabled c) };

    fn fmt<W: fmt::Write>(&self, f: &mut fmt::Formatter<W>) -> fmt::Result {
        let mut text = ArrayString::<16>::new();
        let colored = *self;
        colored.push_to(&mut text, ColorOutput::Enabled);
        write!(f, "{text}")
    }
}
