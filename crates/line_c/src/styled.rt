//! Texts in a style.
ghost use Rattle.std.specs.Prelude.{◌≡◌, IfOk, map, string_bytes, vec_items};
ghost use Rattle.prompt.specs.Shown.{run_of};

use crossterm_style::{ContentStyle, StyledContent};
use std::alloc::{AllocError, Global};
use std::marker::Model;

/// A text in a style.
#[derive(Drop)]
pub(crate) struct StyledText {
    text: String,
    style: ContentStyle,
}

impl Model for StyledText {
    ghost use Rattle.std.specs.String.{string_bytes};
    ghost use Rattle.prompt.specs.Shown.{PromptRun};

    ghost Value = { PromptRun };

    ghost view = { λ t. record { text = string_bytes t.text; style = t.style } };
}

impl StyledText {
    /// A text in a style.
    pub(crate) fn new(text: String, style: ContentStyle) -> StyledText
        ensures { result ≡ record { text = string_bytes text; style = style } }
    {
        StyledText { text, style }
    }

    /// The same text, borrowed.
    fn borrowed(&self) -> StyledContent<&str>
        ensures { run_of result ≡ self.now }
    {
        StyledContent::new(self.style, self.text.as_str())
    }
}

/// The same texts, borrowed. None of them take no memory.
pub(crate) fn borrow_all(
    alloc: Global,
    texts: &[StyledText],
) -> Result<Vec<StyledContent<&str>>, AllocError>
    ensures { IfOk result (λ borrowed. map run_of (vec_items borrowed) ≡ texts.now) }
{
    texts.iter().map(|text| text.borrowed()).collect(alloc)
}
