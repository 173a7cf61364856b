//! What is styled: texts, characters, styles and styled contents.
ghost use Rattle.crossterm_style.specs.Styles.{no_style};

use crate::Stylize;
use crossterm_style::{ContentStyle, StyledContent, style};
use std::alloc::Allocator;

impl<A: Allocator> Stylize for String<A> {
    type Styled = StyledContent<String<A>>;

    ghost styled = { λ s. record { style = no_style; content = s } };

    fn stylize(self) -> StyledContent<String<A>> {
        style(self)
    }
}

impl<'a> Stylize for &'a str {
    type Styled = StyledContent<&'a str>;

    ghost styled = { λ s. record { style = no_style; content = s } };

    fn stylize(self) -> StyledContent<&'a str> {
        style(self)
    }
}

impl Stylize for char {
    type Styled = StyledContent<char>;

    ghost styled = { λ c. record { style = no_style; content = c } };

    fn stylize(self) -> StyledContent<char> {
        style(self)
    }
}

impl Stylize for ContentStyle {
    type Styled = ContentStyle;

    ghost styled = { λ s. s };

    fn stylize(self) -> ContentStyle {
        self
    }
}

impl<D> Stylize for StyledContent<D> {
    type Styled = StyledContent<D>;

    ghost styled = { λ c. c };

    fn stylize(self) -> StyledContent<D> {
        self
    }
}
