//! The events of a parser, one after another.
ghost use Rattle.std.specs.Prelude.{◌≡◌};
ghost use Rattle.std.specs.Iterator.{item_count};
ghost use Rattle.crossterm_parse.specs.Giving.{GivesWaiting, GivesInOrder, events_left_in};

use crate::parse::Parser;
use crossterm_types::event::InternalEvent;
use std::alloc::{Allocator, Global};

/// Takes the events not yet given out of a parser, the first one first.
#[derive(Drop)]
pub struct Events<'a, A: Allocator = Global> {
    parser: &'a mut Parser<A>,
}

impl<A: Allocator + Clone> Parser<A> {
    /// Gives the events not yet given, each taken out of the parser as it comes. This takes no memory.
    #[tactic(auto, using(crate::proofs::GivingLaws::gives_in_order))]
    pub fn events(&mut self) -> Events<'_, A>
        ensures same { result.parser.ghost_name ≡ self.entry.ghost_name }
        ensures now { result.parser.now ≡ self.old }
        // Whatever was taken came in order, and the parser has the others.
        ensures order { GivesInOrder result }
    {
        Events { parser: self }
    }
}

impl<A: Allocator + Clone> Iterator for Events<'_, A> {
    type Item = InternalEvent<A>;

    ghost next_gives = { GivesWaiting };

    ghost remaining = { item_count events_left_in };

    fn next(&mut self) -> Option<InternalEvent<A>> {
        self.parser.next()
    }

    fn size_hint(&self) -> (usize, Option<usize>) {
        let parser: &Parser<A> = self.parser;
        let count = parser.queue.len();
        (count, Some(count))
    }
}
