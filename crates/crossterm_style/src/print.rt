//! A value's text as a command.

use crossterm_command::{ColorOutput, Command, execute_fmt};
use std::fmt;
use std::fmt::Display;

/// Prints a value as `{}` shows it, at the cursor and in the style that is set.
///
/// The text is written as it is: one that holds an escape may read as something else than characters.
///
/// ```
/// let text = format!(in alloc; "{count} files")?;
/// queue!(w, colors, Print(text))?;
/// ```
#[derive(Clone, Copy, PartialEq, Eq, Debug)]
pub struct Print<T>(pub T);

impl<T: Display> Command for Print<T> {
    ghost text = { λ c _. T.output c.0 };

    fn write_ansi<W: fmt::Write>(&self, f: &mut W, _colors: ColorOutput) -> fmt::Result {
        let value = &self.0;
        write!(f, "{value}")
    }
}

impl<T: Display> Display for Print<T> {
    ghost output = { λ c. T.output c.0 };

    fn fmt<W: fmt::Write>(&self, f: &mut fmt::Formatter<W>) -> fmt::Result {
        execute_fmt(f, self)
    }
}
