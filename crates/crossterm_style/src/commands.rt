//! Commands of style.

mod attributes;
mod colors;
mod styles;

pub use attributes::{SetAttribute, SetAttributes};
pub use colors::{
    ResetColor, SetBackgroundColor, SetColors, SetForegroundColor, SetUnderlineColor,
};
pub use styles::{PrintStyledContent, SetStyle};
