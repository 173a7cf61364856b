//! Values by the names that they have in the library.

use crate::fault::Wrong;
use std::fmt::{self, Debug, Write};

/// What is left of a name while another one is written: `None` once they differ.
#[derive(Clone, Copy)]
struct Left<'a>(Option<&'a str>);

impl Write for Left<'_> {
    fn write_str(&mut self, part: &str) -> fmt::Result {
        self.0 = match self.0 {
            Some(name) => name.strip_prefix(part),
            None => None,
        };
        Ok(())
    }
}

/// Whether a value has this name.
pub fn is_named<T: Debug>(value: &T, name: &str) -> bool {
    let mut left = Left(Some(name));
    write!(left, "{value:?}").is_ok() && left.0 == Some("")
}

/// The one of these values that has this name.
pub fn by_name<T: Debug + Copy>(values: &[T], name: &str) -> Result<T, Wrong> {
    for value in values {
        if is_named(value, name) {
            return Ok(*value);
        }
    }
    Err(Wrong::Argument)
}
