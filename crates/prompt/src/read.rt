//! What comes of asking for a line.

use std::alloc::{Allocator, Global};

/// What comes of asking for a line.
///
/// ```
/// match read_line(rt, &mut tty, &mut editor, "> ")? {
///     Read::Line(text) => println!(rt; "{text}")?,
///     Read::Interrupted | Read::Closed => return Ok(()),
/// }
/// ```
#[derive(Drop)]
#[derive_where(Debug, PartialEq, Eq)]
pub enum Read<A: Allocator = Global> {
    /// The line was accepted, and this is its text.
    Line(String<A>),
    /// The line was let go, by Ctrl-C.
    Interrupted,
    /// The empty line was closed, by Ctrl-D.
    Closed,
}
