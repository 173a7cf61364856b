//! Bytes as a device reported them.

/// A byte, with what the device reported beside it.
#[derive(Clone, Copy, Debug, PartialEq, Eq)]
pub struct Marked {
    /// The byte.
    pub byte: u8,
    /// Whether the terminal was in raw mode when the byte came.
    pub raw: bool,
    /// Whether no byte came with it after it.
    pub pause: bool,
}
