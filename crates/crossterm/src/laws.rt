//! What holds of commands, whatever they are made of.
ghost use Rattle.crossterm_flags.specs.Orders.{ComparesBy};
ghost use Rattle.crossterm_flags.specs.Variants.{rank_order};
ghost use Rattle.crossterm.specs.Clipboard.{CopiesRead, TypesReadBack, ReadsSame, WritesBack};
ghost use Rattle.crossterm.specs.Values.{clears};

use crate::terminal::ClearType;
use std::cmp::{Ord, PartialOrd};

/// Reading a selection's text returns the selection, with the clipboard and the primary selection for `Other('c')` and `Other('p')`; and
/// the selection of a text shows as that text.
pub fn selections_read_back()
    ensures back { TypesReadBack }
    ensures same { ReadsSame }
    ensures text { WritesBack }
{}

/// A terminal reads the text of a `CopyToClipboard` as one operating system command, if no letter of its destination is ESC or bell.
pub fn copies_read()
    ensures { CopiesRead }
{}

/// The declared order of `ClearType`: its variants in the order of their ranks.
pub fn declared_order()
    ensures { ComparesBy (rank_order clears) ⟦<ClearType as Ord>⟧.cmp ⟦<ClearType as PartialOrd>⟧.partial_cmp }
{}
