//! Styles.
ghost use Rattle.std.specs.Prelude.{◌≡◌, None};
ghost use Rattle.crossterm_style.specs.Styles.{no_style};

use crate::{Attributes, Color, StyledContent};

/// How a text looks: colours that are there, and attributes.
///
/// ```
/// let style = ContentStyle::new().white().on(back_of(line));
/// queue!(w, colors, SetStyle(style))?;
/// ```
#[derive(Clone, Copy, PartialEq, Eq, Default, Debug)]
pub struct ContentStyle {
    /// The colour of the text.
    pub foreground_color: Option<Color>,
    /// The colour behind the text.
    pub background_color: Option<Color>,
    /// The colour of the line below the text.
    pub underline_color: Option<Color>,
    /// The attributes.
    pub attributes: Attributes,
}

impl ContentStyle {
    /// The empty style.
    pub fn new() -> ContentStyle
        ensures { result ≡ no_style }
    {
        ContentStyle {
            foreground_color: None,
            background_color: None,
            underline_color: None,
            attributes: Attributes::none(),
        }
    }

    /// A content in this style.
    pub fn apply<D>(self, content: D) -> StyledContent<D>
        ensures style { result.style ≡ self }
        ensures content { result.content ≡ content }
    {
        StyledContent::new(self, content)
    }
}

/// A content in the empty style.
///
/// ```
/// queue!(w, colors, PrintStyledContent(style("warning").yellow().bold()))?;
/// ```
pub fn style<D>(content: D) -> StyledContent<D>
    ensures style { result.style ≡ no_style }
    ensures content { result.content ≡ content }
{
    ContentStyle::new().apply(content)
}

/// What has a style.
pub trait AsStyle {
    ghost use Rattle.crossterm_style.specs.declared.content_style.ContentStyle.{ContentStyle};

    // Its style.
    ghost style_of: { Self → ContentStyle };

    // The same in another style.
    ghost restyled: { Self → ContentStyle → Self };

    /// The style.
    fn style(&self) -> &ContentStyle
        ensures { result.now ≡ style_of self.now };

    /// The style, to change it.
    fn style_mut(&mut self) -> &mut ContentStyle
        ensures { result.now ≡ style_of self.old };

    /// The same in another style.
    fn with_style(self, style: ContentStyle) -> Self
    where
        Self: Sized,
        ensures { result ≡ restyled self style };

    // In another style it has that style.
    ghost has_style: { (s : Self) (style : ContentStyle) → style_of (restyled s style) ≡ style };

    // Of two styles one after the other the later counts alone.
    ghost later_style: { (s : Self) (first second : ContentStyle) → restyled (restyled s first) second ≡ restyled s second };
}

impl AsStyle for ContentStyle {
    ghost use Rattle.std.specs.Prelude.{refl};

    ghost style_of = { λ s. s };

    ghost restyled = { λ _ s. s };

    ghost has_style = { λ s style. refl };

    ghost later_style = { λ s first second. refl };

    fn style(&self) -> &ContentStyle {
        self
    }

    fn style_mut(&mut self) -> &mut ContentStyle {
        self
    }

    fn with_style(self, style: ContentStyle) -> ContentStyle {
        style
    }
}
