//! What is known of a terminal when a frame begins.
ghost use Rattle.std.specs.Prelude.{◌≡◌};
ghost use Rattle.screen.specs.inside.Scans.{known_cursor, known_style, start_by};

use crate::packed::PackedStyle;
use crossterm_style::ContentStyle;

/// What is known of a terminal when a frame begins.
#[derive(Clone, Copy, Debug)]
pub(crate) enum Start {
    /// Nothing: all cells are erased first.
    Nothing,
    /// Its cells.
    Cells,
    /// Its cells, and that the cursor is shown at a place and the plain style is set, as the last frame left them.
    All(usize),
}

impl Start {
    /// What is known when a frame of a screen begins: its cells, or nothing.
    pub(crate) fn of(is_known: bool) -> Start
        ensures { result ≡ start_by is_known }
    {
        if is_known {
            Start::Cells
        } else {
            Start::Nothing
        }
    }

    /// The cursor's place, if it is known.
    pub(crate) fn cursor(self) -> Option<usize>
        ensures { result ≡ known_cursor self }
    {
        match self {
            Start::All(at) => Some(at),
            _ => None,
        }
    }

    /// The style that is set, if it is known.
    pub(crate) fn style(self) -> Option<PackedStyle>
        ensures { result ≡ known_style self }
    {
        match self {
            Start::All(_) => Some(PackedStyle::new(&ContentStyle::new())),
            _ => None,
        }
    }
}
