//! The outcome of an event.

use std::alloc::{Allocator, Global};

/// The outcome of an event that an editor takes.
#[derive(Drop)]
#[derive_where(Debug, PartialEq, Eq)]
pub enum Outcome<A: Allocator = Global> {
    /// The line goes on.
    Going,
    /// The line goes on, and who draws it draws it anew at the top of an empty window, by Ctrl-L.
    Clear,
    /// The line goes on, and the bell rings: an incremental search found nothing, or there is none to give up.
    Ring,
    /// The line was accepted, and this is its text.
    Line(String<A>),
    /// The line was let go, by Ctrl-C.
    Interrupted,
    /// The empty line was closed, by Ctrl-D.
    Closed,
}
