//! Bindings as people write them, a line each, as `ctrl-x ctrl-s = save`.

use keymap::{ChordFault, Keymap, KeymapFault, read_chord};
use std::alloc::Global;
use thiserror::Error;

/// What is wrong with a line.
#[derive(Clone, Copy, Debug, Error)]
pub enum LineFault {
    /// There is no `=`, or nothing behind it.
    #[error("no action")]
    NoAction,
    /// What precedes the `=` isn't a list of chords.
    #[error("{0}")]
    Chord(#[from] ChordFault),
    /// The chords can't be bound.
    #[error("{0}")]
    Keymap(#[from] KeymapFault),
}

/// Binds the chords of a line to its action, and returns the binding's number. The last `=` divides them, so that `ctrl-= = zoom` binds that key.
///
/// # Errors
///
/// `NoAction`; `Chord` with the first chord's fault; `Keymap` if the list is refused. Then nothing is bound.
pub fn bind_line(alloc: Global, keymap: &mut Keymap, line: &str) -> Result<usize, LineFault> {
    let (list, action) = line.rsplit_once('=').ok_or(LineFault::NoAction)?;
    let action = action.trim();
    if action.is_empty() {
        return Err(LineFault::NoAction);
    }
    let mut chords = Vec::new(alloc);
    for word in list.split_ascii_whitespace() {
        let chord = read_chord(word)?;
        chords.push(chord).map_err(|_| KeymapFault::Memory)?;
    }
    Ok(keymap.bind(&chords, action)?)
}
