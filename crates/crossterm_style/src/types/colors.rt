//! A foreground and a background.
ghost use Rattle.std.specs.Prelude.{◌≡◌};
ghost use Rattle.crossterm_style.specs.Colors.{colors_of, later};

use crate::{Color, Colored};

/// A foreground and a background, each if it is there.
#[derive(Clone, Copy, PartialEq, Eq, Debug)]
pub struct Colors {
    /// The colour of the text.
    pub foreground: Option<Color>,
    /// The colour behind the text.
    pub background: Option<Color>,
}

impl Colors {
    /// Both.
    pub fn new(foreground: Color, background: Color) -> Colors
        ensures { result ≡ record { foreground = Some foreground; background = Some background } }
    {
        Colors {
            foreground: Some(foreground),
            background: Some(background),
        }
    }

    /// These colours with others set after them: at each place the later colour, if it is there.
    pub fn then(&self, other: &Colors) -> Colors
        ensures { result ≡ later self.now other.now }
    {
        Colors {
            foreground: other.foreground.or(self.foreground),
            background: other.background.or(self.background),
        }
    }
}

/// A colour of the text is the foreground; one behind the text, or of the line below it, the background.
impl From<Colored> for Colors {
    ghost from_gives = { λ colored colors. colors ≡ colors_of colored };

    fn from(colored: Colored) -> Colors {
        match colored {
            Colored::ForegroundColor(color) => Colors {
                foreground: Some(color),
                background: None,
            },
            Colored::BackgroundColor(color) | Colored::UnderlineColor(color) => Colors {
                foreground: None,
                background: Some(color),
            },
        }
    }
}
