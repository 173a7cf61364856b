//! What a terminal receives for a colour.
ghost use Rattle.std.specs.Prelude.{◌≡◌, ◌+◌, ◌≤◌, ◌++◌, length};
ghost use Rattle.arrayvec.specs.ArrayString.{array_string_len};
ghost use Rattle.crossterm_style.specs.Colors.{color_of, sgr_of, sgr_text};

use crate::Color;
use crate::digits::push_digits;
use arrayvec::ArrayString;

/// A colour as SGR has it: the terminal's own, an indexed one, or one by its parts.
#[derive(Clone, Copy)]
pub(crate) enum SgrColor {
    Own,
    Indexed(u8),
    Rgb(u8, u8, u8),
}

impl SgrColor {
    /// What a terminal receives for a colour.
    pub(crate) fn of(color: Color) -> SgrColor
        ensures { result ≡ sgr_of color }
    {
        match color {
            Color::Reset => SgrColor::Own,
            Color::Black => SgrColor::Indexed(0),
            Color::DarkRed => SgrColor::Indexed(1),
            Color::DarkGreen => SgrColor::Indexed(2),
            Color::DarkYellow => SgrColor::Indexed(3),
            Color::DarkBlue => SgrColor::Indexed(4),
            Color::DarkMagenta => SgrColor::Indexed(5),
            Color::DarkCyan => SgrColor::Indexed(6),
            Color::Grey => SgrColor::Indexed(7),
            Color::DarkGrey => SgrColor::Indexed(8),
            Color::Red => SgrColor::Indexed(9),
            Color::Green => SgrColor::Indexed(10),
            Color::Yellow => SgrColor::Indexed(11),
            Color::Blue => SgrColor::Indexed(12),
            Color::Magenta => SgrColor::Indexed(13),
            Color::Cyan => SgrColor::Indexed(14),
            Color::White => SgrColor::Indexed(15),
            Color::Rgb { r, g, b } => SgrColor::Rgb(r, g, b),
            Color::AnsiValue(n) => SgrColor::Indexed(n),
        }
    }

    /// The colour that it names: of the palette's first sixteen the named one.
    pub(crate) fn color(self) -> Color
        ensures { result ≡ color_of self }
    {
        match self {
            SgrColor::Own => Color::Reset,
            SgrColor::Indexed(0) => Color::Black,
            SgrColor::Indexed(1) => Color::DarkRed,
            SgrColor::Indexed(2) => Color::DarkGreen,
            SgrColor::Indexed(3) => Color::DarkYellow,
            SgrColor::Indexed(4) => Color::DarkBlue,
            SgrColor::Indexed(5) => Color::DarkMagenta,
            SgrColor::Indexed(6) => Color::DarkCyan,
            SgrColor::Indexed(7) => Color::Grey,
            SgrColor::Indexed(8) => Color::DarkGrey,
            SgrColor::Indexed(9) => Color::Red,
            SgrColor::Indexed(10) => Color::Green,
            SgrColor::Indexed(11) => Color::Yellow,
            SgrColor::Indexed(12) => Color::Blue,
            SgrColor::Indexed(13) => Color::Magenta,
            SgrColor::Indexed(14) => Color::Cyan,
            SgrColor::Indexed(15) => Color::White,
            SgrColor::Indexed(n) => Color::AnsiValue(n),
            SgrColor::Rgb(r, g, b) => Color::Rgb { r, g, b },
        }
    }

    /// Pushes its SGR parameters, after the number that sets the place it is for; the terminal's own has a number by itself.
    #[inline(always)]
    pub(crate) fn push_to<const N: usize>(self, text: &mut ArrayString<N>, set: &str, reset: &str)
        requires room { array_string_len text.old + 16 ≤ N }
        requires set { length set.now ≤ 2 }
        requires reset { length reset.now ≤ 2 }
        ensures pushed { text.new.bytes ≡ text.old.bytes ++ sgr_text set.now reset.now self }
        ensures short { length (sgr_text set.now reset.now self) ≤ 16 }
    {
        match self {
            SgrColor::Own => text.push_str(reset),
            SgrColor::Indexed(n) => {
                text.push_str(set);
                text.push_str(";5;");
                push_digits(text, n);
            }
            SgrColor::Rgb(r, g, b) => {
                text.push_str(set);
                text.push_str(";2;");
                push_digits(text, r);
                text.push_str(";");
                push_digits(text, g);
                text.push_str(";");
                push_digits(text, b);
            }
        }
    }
}
