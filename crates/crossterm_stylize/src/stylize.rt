//! What can be styled.

use crossterm_style::{AsStyle, Attribute, Color};

/// What can be styled. Each call gives what is styled with one field of its style changed.
///
/// ```
/// let heading = "name       price change".bold().underlined().on_dark_blue();
/// queue!(w, colors, PrintStyledContent(heading))?;
/// ```
pub trait Stylize: Sized {
    ghost use Rattle.std.specs.Prelude.{◌≡◌};
    ghost use Rattle.crossterm_style.specs.declared.types.attribute.Attribute.TheVariants as attribute;
    ghost use Rattle.crossterm_style.specs.declared.types.color.Color.TheVariants as color;
    ghost use Rattle.crossterm_stylize.specs.Styling.{style_changed, plus_attribute, with_background, with_foreground, with_underline};

    /// What has the style.
    type Styled: AsStyle;

    // The same with its style, which is the empty one at first.
    ghost styled: { Self → Self.Styled };

    /// What has the style: the same with the empty style, if it has none.
    fn stylize(self) -> Self::Styled
        ensures { result ≡ styled self };

    /// In a foreground colour.
    final fn with(self, color: Color) -> Self::Styled
        ensures { result ≡ style_changed Self.Styled.style_of Self.Styled.restyled (with_foreground color) (styled self) }
    {
        let styled = self.stylize();
        let mut style = *styled.style();
        style.foreground_color = Some(color);
        styled.with_style(style)
    }

    /// On a background colour.
    final fn on(self, color: Color) -> Self::Styled
        ensures { result ≡ style_changed Self.Styled.style_of Self.Styled.restyled (with_background color) (styled self) }
    {
        let styled = self.stylize();
        let mut style = *styled.style();
        style.background_color = Some(color);
        styled.with_style(style)
    }

    /// With an underline's colour.
    final fn underline(self, color: Color) -> Self::Styled
        ensures { result ≡ style_changed Self.Styled.style_of Self.Styled.restyled (with_underline color) (styled self) }
    {
        let styled = self.stylize();
        let mut style = *styled.style();
        style.underline_color = Some(color);
        styled.with_style(style)
    }

    /// With an attribute.
    final fn attribute(self, attribute: Attribute) -> Self::Styled
        ensures { result ≡ style_changed Self.Styled.style_of Self.Styled.restyled (plus_attribute attribute) (styled self) }
    {
        let styled = self.stylize();
        let mut style = *styled.style();
        style.attributes.set(attribute);
        styled.with_style(style)
    }

    /// All attributes and colours are off first.
    final fn reset(self) -> Self::Styled
        ensures { result ≡ style_changed Self.Styled.style_of Self.Styled.restyled (plus_attribute attribute.Reset) (styled self) }
    {
        self.attribute(Attribute::Reset)
    }

    /// Bolder.
    final fn bold(self) -> Self::Styled
        ensures { result ≡ style_changed Self.Styled.style_of Self.Styled.restyled (plus_attribute attribute.Bold) (styled self) }
    {
        self.attribute(Attribute::Bold)
    }

    /// With a line below.
    final fn underlined(self) -> Self::Styled
        ensures { result ≡ style_changed Self.Styled.style_of Self.Styled.restyled (plus_attribute attribute.Underlined) (styled self) }
    {
        self.attribute(Attribute::Underlined)
    }

    /// With foreground and background exchanged.
    final fn reverse(self) -> Self::Styled
        ensures { result ≡ style_changed Self.Styled.style_of Self.Styled.restyled (plus_attribute attribute.Reverse) (styled self) }
    {
        self.attribute(Attribute::Reverse)
    }

    /// Fainter.
    final fn dim(self) -> Self::Styled
        ensures { result ≡ style_changed Self.Styled.style_of Self.Styled.restyled (plus_attribute attribute.Dim) (styled self) }
    {
        self.attribute(Attribute::Dim)
    }

    /// Italic.
    final fn italic(self) -> Self::Styled
        ensures { result ≡ style_changed Self.Styled.style_of Self.Styled.restyled (plus_attribute attribute.Italic) (styled self) }
    {
        self.attribute(Attribute::Italic)
    }

    /// With foreground and background exchanged, as `reverse`.
    final fn negative(self) -> Self::Styled
        ensures { result ≡ style_changed Self.Styled.style_of Self.Styled.restyled (plus_attribute attribute.Reverse) (styled self) }
    {
        self.attribute(Attribute::Reverse)
    }

    /// Blinking slowly.
    final fn slow_blink(self) -> Self::Styled
        ensures { result ≡ style_changed Self.Styled.style_of Self.Styled.restyled (plus_attribute attribute.SlowBlink) (styled self) }
    {
        self.attribute(Attribute::SlowBlink)
    }

    /// Blinking fast.
    final fn rapid_blink(self) -> Self::Styled
        ensures { result ≡ style_changed Self.Styled.style_of Self.Styled.restyled (plus_attribute attribute.RapidBlink) (styled self) }
    {
        self.attribute(Attribute::RapidBlink)
    }

    /// Hidden.
    final fn hidden(self) -> Self::Styled
        ensures { result ≡ style_changed Self.Styled.style_of Self.Styled.restyled (plus_attribute attribute.Hidden) (styled self) }
    {
        self.attribute(Attribute::Hidden)
    }

    /// Crossed out.
    final fn crossed_out(self) -> Self::Styled
        ensures { result ≡ style_changed Self.Styled.style_of Self.Styled.restyled (plus_attribute attribute.CrossedOut) (styled self) }
    {
        self.attribute(Attribute::CrossedOut)
    }

    /// In black.
    final fn black(self) -> Self::Styled
        ensures { result ≡ style_changed Self.Styled.style_of Self.Styled.restyled (with_foreground color.Black) (styled self) }
    {
        self.with(Color::Black)
    }

    /// In dark grey.
    final fn dark_grey(self) -> Self::Styled
        ensures { result ≡ style_changed Self.Styled.style_of Self.Styled.restyled (with_foreground color.DarkGrey) (styled self) }
    {
        self.with(Color::DarkGrey)
    }

    /// In red.
    final fn red(self) -> Self::Styled
        ensures { result ≡ style_changed Self.Styled.style_of Self.Styled.restyled (with_foreground color.Red) (styled self) }
    {
        self.with(Color::Red)
    }

    /// In dark red.
    final fn dark_red(self) -> Self::Styled
        ensures { result ≡ style_changed Self.Styled.style_of Self.Styled.restyled (with_foreground color.DarkRed) (styled self) }
    {
        self.with(Color::DarkRed)
    }

    /// In green.
    final fn green(self) -> Self::Styled
        ensures { result ≡ style_changed Self.Styled.style_of Self.Styled.restyled (with_foreground color.Green) (styled self) }
    {
        self.with(Color::Green)
    }

    /// In dark green.
    final fn dark_green(self) -> Self::Styled
        ensures { result ≡ style_changed Self.Styled.style_of Self.Styled.restyled (with_foreground color.DarkGreen) (styled self) }
    {
        self.with(Color::DarkGreen)
    }

    /// In yellow.
    final fn yellow(self) -> Self::Styled
        ensures { result ≡ style_changed Self.Styled.style_of Self.Styled.restyled (with_foreground color.Yellow) (styled self) }
    {
        self.with(Color::Yellow)
    }

    /// In dark yellow.
    final fn dark_yellow(self) -> Self::Styled
        ensures { result ≡ style_changed Self.Styled.style_of Self.Styled.restyled (with_foreground color.DarkYellow) (styled self) }
    {
        self.with(Color::DarkYellow)
    }

    /// In blue.
    final fn blue(self) -> Self::Styled
        ensures { result ≡ style_changed Self.Styled.style_of Self.Styled.restyled (with_foreground color.Blue) (styled self) }
    {
        self.with(Color::Blue)
    }

    /// In dark blue.
    final fn dark_blue(self) -> Self::Styled
        ensures { result ≡ style_changed Self.Styled.style_of Self.Styled.restyled (with_foreground color.DarkBlue) (styled self) }
    {
        self.with(Color::DarkBlue)
    }

    /// In magenta.
    final fn magenta(self) -> Self::Styled
        ensures { result ≡ style_changed Self.Styled.style_of Self.Styled.restyled (with_foreground color.Magenta) (styled self) }
    {
        self.with(Color::Magenta)
    }

    /// In dark magenta.
    final fn dark_magenta(self) -> Self::Styled
        ensures { result ≡ style_changed Self.Styled.style_of Self.Styled.restyled (with_foreground color.DarkMagenta) (styled self) }
    {
        self.with(Color::DarkMagenta)
    }

    /// In cyan.
    final fn cyan(self) -> Self::Styled
        ensures { result ≡ style_changed Self.Styled.style_of Self.Styled.restyled (with_foreground color.Cyan) (styled self) }
    {
        self.with(Color::Cyan)
    }

    /// In dark cyan.
    final fn dark_cyan(self) -> Self::Styled
        ensures { result ≡ style_changed Self.Styled.style_of Self.Styled.restyled (with_foreground color.DarkCyan) (styled self) }
    {
        self.with(Color::DarkCyan)
    }

    /// In white.
    final fn white(self) -> Self::Styled
        ensures { result ≡ style_changed Self.Styled.style_of Self.Styled.restyled (with_foreground color.White) (styled self) }
    {
        self.with(Color::White)
    }

    /// In grey.
    final fn grey(self) -> Self::Styled
        ensures { result ≡ style_changed Self.Styled.style_of Self.Styled.restyled (with_foreground color.Grey) (styled self) }
    {
        self.with(Color::Grey)
    }

    /// On black.
    final fn on_black(self) -> Self::Styled
        ensures { result ≡ style_changed Self.Styled.style_of Self.Styled.restyled (with_background color.Black) (styled self) }
    {
        self.on(Color::Black)
    }

    /// On dark grey.
    final fn on_dark_grey(self) -> Self::Styled
        ensures { result ≡ style_changed Self.Styled.style_of Self.Styled.restyled (with_background color.DarkGrey) (styled self) }
    {
        self.on(Color::DarkGrey)
    }

    /// On red.
    final fn on_red(self) -> Self::Styled
        ensures { result ≡ style_changed Self.Styled.style_of Self.Styled.restyled (with_background color.Red) (styled self) }
    {
        self.on(Color::Red)
    }

    /// On dark red.
    final fn on_dark_red(self) -> Self::Styled
        ensures { result ≡ style_changed Self.Styled.style_of Self.Styled.restyled (with_background color.DarkRed) (styled self) }
    {
        self.on(Color::DarkRed)
    }

    /// On green.
    final fn on_green(self) -> Self::Styled
        ensures { result ≡ style_changed Self.Styled.style_of Self.Styled.restyled (with_background color.Green) (styled self) }
    {
        self.on(Color::Green)
    }

    /// On dark green.
    final fn on_dark_green(self) -> Self::Styled
        ensures { result ≡ style_changed Self.Styled.style_of Self.Styled.restyled (with_background color.DarkGreen) (styled self) }
    {
        self.on(Color::DarkGreen)
    }

    /// On yellow.
    final fn on_yellow(self) -> Self::Styled
        ensures { result ≡ style_changed Self.Styled.style_of Self.Styled.restyled (with_background color.Yellow) (styled self) }
    {
        self.on(Color::Yellow)
    }

    /// On dark yellow.
    final fn on_dark_yellow(self) -> Self::Styled
        ensures { result ≡ style_changed Self.Styled.style_of Self.Styled.restyled (with_background color.DarkYellow) (styled self) }
    {
        self.on(Color::DarkYellow)
    }

    /// On blue.
    final fn on_blue(self) -> Self::Styled
        ensures { result ≡ style_changed Self.Styled.style_of Self.Styled.restyled (with_background color.Blue) (styled self) }
    {
        self.on(Color::Blue)
    }

    /// On dark blue.
    final fn on_dark_blue(self) -> Self::Styled
        ensures { result ≡ style_changed Self.Styled.style_of Self.Styled.restyled (with_background color.DarkBlue) (styled self) }
    {
        self.on(Color::DarkBlue)
    }

    /// On magenta.
    final fn on_magenta(self) -> Self::Styled
        ensures { result ≡ style_changed Self.Styled.style_of Self.Styled.restyled (with_background color.Magenta) (styled self) }
    {
        self.on(Color::Magenta)
    }

    /// On dark magenta.
    final fn on_dark_magenta(self) -> Self::Styled
        ensures { result ≡ style_changed Self.Styled.style_of Self.Styled.restyled (with_background color.DarkMagenta) (styled self) }
    {
        self.on(Color::DarkMagenta)
    }

    /// On cyan.
    final fn on_cyan(self) -> Self::Styled
        ensures { result ≡ style_changed Self.Styled.style_of Self.Styled.restyled (with_background color.Cyan) (styled self) }
    {
        self.on(Color::Cyan)
    }

    /// On dark cyan.
    final fn on_dark_cyan(self) -> Self::Styled
        ensures { result ≡ style_changed Self.Styled.style_of Self.Styled.restyled (with_background color.DarkCyan) (styled self) }
    {
        self.on(Color::DarkCyan)
    }

    /// On white.
    final fn on_white(self) -> Self::Styled
        ensures { result ≡ style_changed Self.Styled.style_of Self.Styled.restyled (with_background color.White) (styled self) }
    {
        self.on(Color::White)
    }

    /// On grey.
    final fn on_grey(self) -> Self::Styled
        ensures { result ≡ style_changed Self.Styled.style_of Self.Styled.restyled (with_background color.Grey) (styled self) }
    {
        self.on(Color::Grey)
    }

    /// With an underline in black.
    final fn underline_black(self) -> Self::Styled
        ensures { result ≡ style_changed Self.Styled.style_of Self.Styled.restyled (with_underline color.Black) (styled self) }
    {
        self.underline(Color::Black)
    }

    /// With an underline in dark grey.
    final fn underline_dark_grey(self) -> Self::Styled
        ensures { result ≡ style_changed Self.Styled.style_of Self.Styled.restyled (with_underline color.DarkGrey) (styled self) }
    {
        self.underline(Color::DarkGrey)
    }

    /// With an underline in red.
    final fn underline_red(self) -> Self::Styled
        ensures { result ≡ style_changed Self.Styled.style_of Self.Styled.restyled (with_underline color.Red) (styled self) }
    {
        self.underline(Color::Red)
    }

    /// With an underline in dark red.
    final fn underline_dark_red(self) -> Self::Styled
        ensures { result ≡ style_changed Self.Styled.style_of Self.Styled.restyled (with_underline color.DarkRed) (styled self) }
    {
        self.underline(Color::DarkRed)
    }

    /// With an underline in green.
    final fn underline_green(self) -> Self::Styled
        ensures { result ≡ style_changed Self.Styled.style_of Self.Styled.restyled (with_underline color.Green) (styled self) }
    {
        self.underline(Color::Green)
    }

    /// With an underline in dark green.
    final fn underline_dark_green(self) -> Self::Styled
        ensures { result ≡ style_changed Self.Styled.style_of Self.Styled.restyled (with_underline color.DarkGreen) (styled self) }
    {
        self.underline(Color::DarkGreen)
    }

    /// With an underline in yellow.
    final fn underline_yellow(self) -> Self::Styled
        ensures { result ≡ style_changed Self.Styled.style_of Self.Styled.restyled (with_underline color.Yellow) (styled self) }
    {
        self.underline(Color::Yellow)
    }

    /// With an underline in dark yellow.
    final fn underline_dark_yellow(self) -> Self::Styled
        ensures { result ≡ style_changed Self.Styled.style_of Self.Styled.restyled (with_underline color.DarkYellow) (styled self) }
    {
        self.underline(Color::DarkYellow)
    }

    /// With an underline in blue.
    final fn underline_blue(self) -> Self::Styled
        ensures { result ≡ style_changed Self.Styled.style_of Self.Styled.restyled (with_underline color.Blue) (styled self) }
    {
        self.underline(Color::Blue)
    }

    /// With an underline in dark blue.
    final fn underline_dark_blue(self) -> Self::Styled
        ensures { result ≡ style_changed Self.Styled.style_of Self.Styled.restyled (with_underline color.DarkBlue) (styled self) }
    {
        self.underline(Color::DarkBlue)
    }

    /// With an underline in magenta.
    final fn underline_magenta(self) -> Self::Styled
        ensures { result ≡ style_changed Self.Styled.style_of Self.Styled.restyled (with_underline color.Magenta) (styled self) }
    {
        self.underline(Color::Magenta)
    }

    /// With an underline in dark magenta.
    final fn underline_dark_magenta(self) -> Self::Styled
        ensures { result ≡ style_changed Self.Styled.style_of Self.Styled.restyled (with_underline color.DarkMagenta) (styled self) }
    {
        self.underline(Color::DarkMagenta)
    }

    /// With an underline in cyan.
    final fn underline_cyan(self) -> Self::Styled
        ensures { result ≡ style_changed Self.Styled.style_of Self.Styled.restyled (with_underline color.Cyan) (styled self) }
    {
        self.underline(Color::Cyan)
    }

    /// With an underline in dark cyan.
    final fn underline_dark_cyan(self) -> Self::Styled
        ensures { result ≡ style_changed Self.Styled.style_of Self.Styled.restyled (with_underline color.DarkCyan) (styled self) }
    {
        self.underline(Color::DarkCyan)
    }

    /// With an underline in white.
    final fn underline_white(self) -> Self::Styled
        ensures { result ≡ style_changed Self.Styled.style_of Self.Styled.restyled (with_underline color.White) (styled self) }
    {
        self.underline(Color::White)
    }

    /// With an underline in grey.
    final fn underline_grey(self) -> Self::Styled
        ensures { result ≡ style_changed Self.Styled.style_of Self.Styled.restyled (with_underline color.Grey) (styled self) }
    {
        self.underline(Color::Grey)
    }
}
