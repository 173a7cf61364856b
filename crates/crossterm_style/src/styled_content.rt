//! Contents with a style.
ghost use Rattle.std.specs.Prelude.{◌≡◌};
ghost use Rattle.crossterm_command.specs.declared.color_output.ColorOutput.TheVariants.{Enabled};
ghost use Rattle.crossterm_style.specs.Styles.{styled_text};
ghost use Rattle.std.specs.Borrow.{Lends, sem};
ghost use Rattle.crossterm_style.specs.contracts.content_style.ContentStyle.{the_row as style_row};
ghost use Rattle.crossterm_style.specs.contracts.styled_content.StyledContent.{the_row};

use crate::{AsStyle, ContentStyle, PrintStyledContent};
use crossterm_command::execute_fmt;
use std::fmt;
use std::fmt::Display;

/// A content and its style. It shows (`Display`) as `PrintStyledContent` writes it.
#[derive(Clone, Copy, PartialEq, Eq, Debug)]
pub struct StyledContent<D> {
    pub(crate) style: ContentStyle,
    pub(crate) content: D,
}

impl<D> StyledContent<D> {
    /// A content in a style.
    pub fn new(style: ContentStyle, content: D) -> StyledContent<D>
        ensures style { result.style ≡ style }
        ensures content { result.content ≡ content }
    {
        StyledContent { style, content }
    }

    /// The content.
    pub fn content(&self) -> &D
        ensures { result.now ≡ self.now.content }
    {
        &self.content
    }

    /// The style.
    pub fn style(&self) -> &ContentStyle
        ensures { result.now ≡ self.now.style }
    {
        &self.style
    }

    /// The style, to change it.
    pub fn style_mut(&mut self) -> &mut ContentStyle
        ensures value { result.now ≡ self.old.style }
        ensures* writes_back { sem 𝓛 (Lends (the_row D.row) style_row self.entry result (λ s. record self.old { style = s })) }
    {
        &mut self.style
    }
}

impl<D> AsStyle for StyledContent<D> {
    ghost use Rattle.std.specs.Prelude.{refl};

    ghost style_of = { λ c. c.style };

    ghost restyled = { λ c s. record c { style = s } };

    ghost has_style = { λ c style. refl };

    ghost later_style = { λ c first second. refl };

    fn style(&self) -> &ContentStyle {
        &self.style
    }

    fn style_mut(&mut self) -> &mut ContentStyle {
        &mut self.style
    }

    fn with_style(self, style: ContentStyle) -> StyledContent<D> {
        StyledContent::new(style, self.content)
    }
}

impl<D: Display> Display for StyledContent<D> {
    ghost output = { λ c. styled_text Enabled c.style (D.output c.content) };

    fn fmt<W: fmt::Write>(&self, f: &mut fmt::Formatter<W>) -> fmt::Result {
        let content = &self.content;
        execute_fmt(f, &PrintStyledContent(self.style.apply(content)))
    }
}
