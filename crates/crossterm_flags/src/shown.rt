//! How a set of flags is shown to programmers: as `bitflags` shows one.

use crate::iter::FlagSet;
use bitflags::parser;
use std::fmt;

// The names of a set's flags with ` | ` between each two, and after them the bits without a name as one number. Nothing is `0x0`.
#[derive(Drop)]
struct Names<'a, F: FlagSet>(&'a F);

impl<F: FlagSet> fmt::Debug for Names<'_, F> {
    fn fmt<W: fmt::Write>(&self, f: &mut fmt::Formatter<W>) -> fmt::Result {
        if self.0.is_empty() {
            return f.write_str("0x0");
        }
        parser::to_writer(self.0, f)
    }
}

/// Shows a set by its type's name and its flags, as `KeyModifiers(SHIFT | 0x40)`.
pub(crate) fn show<F: FlagSet, W: fmt::Write>(
    f: &mut fmt::Formatter<W>,
    name: &str,
    set: &F,
) -> fmt::Result {
    f.debug_tuple(name).field(&Names(set)).finish()
}
