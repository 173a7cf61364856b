//! What is wrong with the file of a history.

use std::alloc::Global;
use std::io;
use thiserror::Error;

/// What is wrong with the file of a history. Its text says it behind the file's name.
///
/// ```
/// let mut history = HistoryFile::new(tty.alloc, "history");
/// if let Some(trouble) = history.load(rt, &mut editor)? {
///     write!(tty.out, "history {trouble}\r\n")?;
/// }
/// ```
#[derive(Debug, Drop, Error)]
pub enum HistoryTrouble {
    /// It isn't UTF-8. This is its name now, and a new file will be made.
    #[error("isn't UTF-8, and its name is {0} now")]
    Aside(String<Global>),
    /// It isn't UTF-8, and this is why it can't be renamed. Lines are appended to it all the same.
    #[error("isn't UTF-8, and can't be renamed: {0}")]
    Stuck(io::Error),
    /// This is why it can't be read.
    #[error("can't be read: {0}")]
    Unread(io::Error),
    /// This is why it can't be written. The lines are kept, and written as soon as that is possible.
    #[error("can't be written: {0}")]
    Unwritten(io::Error),
}
