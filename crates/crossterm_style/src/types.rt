//! Colours and attributes.

mod attribute;
mod attribute_iter;
mod color;
mod colored;
mod colors;
mod sgr;

pub use attribute::{Attribute, SGR};
pub use attribute_iter::AttributeIter;
pub use color::Color;
pub(crate) use color::{color_named, name_of};
pub use colored::Colored;
pub use colors::Colors;
pub(crate) use sgr::SgrColor;
