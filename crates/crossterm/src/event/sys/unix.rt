//! Unix terminals.

pub use crossterm_parse::{laws, marked, parse, paste, state, steps};
