//! What is shown of a line that nobody is to read.

/// What is shown in the place of a line that nobody is to read, as a password.
///
/// ```
/// let shown = editor.line().masked(alloc, Mask::Stars)?;
/// ```
#[derive(Clone, Copy, PartialEq, Eq, Debug)]
pub enum Mask {
    /// Nothing, so that nobody sees how long the line is.
    Nothing,
    /// A star in the place of each character.
    Stars,
}
