//! What a pass knows.

use std::marker::{Model, PhantomData};

/// What a pass knows of the reader that it shares. It is used in proofs alone: no value of it is made.
pub struct Known<S>(PhantomData<S>);

impl<S> Model for Known<S> {
    ghost use Rattle.crossterm_read.specs.History as history;
    ghost use Rattle.crossterm_read.specs.inside.Slot.{newcomer};

    ghost Value = { history.Known S };

    ghost view = { λ _. newcomer };
}
