//! The iterator over attributes.
ghost use Rattle.std.specs.Prelude.{◌≡◌};
ghost use Rattle.std.specs.Iterator.{YieldsFirstBy, item_count};
ghost use Rattle.crossterm_style.specs.Attributes.{all_attributes};

use crate::Attribute;
use std::marker::Model;

/// The attributes that are still to come, in declared order.
#[derive(Drop)]
pub struct AttributeIter {
    place: usize,
}

impl Model for AttributeIter {
    ghost use Rattle.std.specs.Prelude.{List, drop};
    ghost use Rattle.crossterm_style.specs.declared.types.attribute.Attribute.{Attribute};
    ghost use Rattle.crossterm_style.specs.Attributes.{all_attributes};

    ghost Value = { List Attribute };

    ghost view = { λ it. drop it.place all_attributes };
}

impl AttributeIter {
    // All attributes.
    pub(crate) fn new() -> AttributeIter
        ensures { result ≡ all_attributes }
    {
        AttributeIter { place: 0 }
    }
}

impl Iterator for AttributeIter {
    type Item = Attribute;

    ghost next_gives = { YieldsFirstBy (λ a. a) (λ rest. rest) };

    ghost remaining = { item_count (λ rest. rest) };

    fn next(&mut self) -> Option<Attribute> {
        let all = Attribute::all();
        if self.place >= all.len() {
            return None;
        }
        let next = all[self.place];
        self.place += 1;
        Some(next)
    }
}
