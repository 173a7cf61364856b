//! What the comparisons of a `KeyEvent` go by.

use crate::event::key::{KeyCode, KeyEventKind};
use crossterm_flags::{KeyEventState, KeyModifiers};

/// The fields of a `KeyEvent` in its normal form, in the order in which they are compared.
#[derive(Clone, Copy, PartialEq, Eq, PartialOrd, Ord, Hash)]
pub struct NormalKey {
    pub code: KeyCode,
    pub modifiers: KeyModifiers,
    pub kind: KeyEventKind,
    pub state: KeyEventState,
}
