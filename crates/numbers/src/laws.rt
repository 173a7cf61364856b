//! Laws of events as numbers. Each function does what its law is about.
ghost use Rattle.std.specs.Prelude.{◌≡◌, Some};
ghost use Rattle.std.specs.Option.{option_map};
ghost use Rattle.crossterm_types.specs.Seen.{seen};
ghost use Rattle.crossterm_parse.specs.Meaning.{seen_meaning};

use crate::of_numbers::event_of;
use crate::to_numbers::of_meaning;
use crossterm_parse::meaning::Meaning;
use crossterm_types::event::InternalEvent;
use std::alloc::Allocator;

/// The numbers of what a sequence means are read back as just that.
pub fn reads_back<A: Allocator>(meaning: Meaning) -> Option<InternalEvent<A>>
    ensures { option_map seen result ≡ Some (seen_meaning meaning) }
{
    event_of(&of_meaning(meaning))
}
