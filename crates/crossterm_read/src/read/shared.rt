//! One reader for many threads.

mod boxed;
mod calls;
mod keyboard;
mod known;
mod pass;
mod pasting;
mod position;
mod reader;
mod rule;
mod slot;
mod trying;
mod within;

pub use pass::Pass;
pub use reader::EventReader;
