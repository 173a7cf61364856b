//! Events and styles as the numbers of `gelvanh.h`, for the archives.
//!
//! A `GelvanhEvent` is what C hands over and is handed: sixteen bytes. `of_meaning` gives the numbers of what a sequence means, and
//! `event_of` the event of some numbers. What the numbers mean is `specs/Event.antt`, for both. A `GelvanhStyle` has sixteen bytes too, and
//! `style_of` gives the style that it means by `specs/Style.antt`.
//!
//! It is built on `crossterm_types`, on what a sequence means by `crossterm_parse`, and on the styles of `crossterm_style`.
//!
//! What is proved, beyond safety:
//!
//! | Proved | By the contract of |
//! |---|---|
//! | the numbers of a key, of what the mouse did, and of whatever else a sequence means, mean just that | `of_key`, `of_meaning`, `paste_end` |
//! | numbers are the event that they mean, and no other numbers are one | `event_of`, `key_of`, `mouse_of` |
//! | an event's numbers are read back as this event | `laws::reads_back` |
//! | numbers are the colour, the attributes or the style that they mean, and no other numbers are one | `color_of`, `there_of`, `attribute_of`, `attributes_of`, `style_of` |
//!
//! What to believe (`specs/`):
//!
//! | Definitions | Of | Contract |
//! |---|---|---|
//! | `Event` | events as numbers | `of_meaning`, `event_of` |
//! | `Style` | colours, attributes and styles as numbers | `style_of`, `color_of`, `there_of`, `attribute_of`, `attributes_of` |
//!
//! A function's proof is in `proofs/` at the function's path; if there is no file, the prover found it by itself.
#![tactic(auto)]

mod event;
pub mod laws;
mod of_numbers;
mod style;
mod to_numbers;

pub use event::GelvanhEvent;
pub use of_numbers::{event_of, key_of, mouse_of};
pub use style::{
    GelvanhColor, GelvanhStyle, attribute_of, attributes_of, color_of, style_of, there_of,
};
pub use to_numbers::{of_key, of_meaning, paste_end};
