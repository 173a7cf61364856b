//! Whether a character is upper case.
ghost use Rattle.std.specs.Prelude.{◌≡◌};
ghost use Rattle.unicode.specs.Binary.{is_uppercase};

use crate::uppercase_table::{UPPERCASE_INDEX, UPPERCASE_TAIL, UPPERCASE_WORDS};
use unicode::table;

/// Whether a character is upper case, by Unicode's property `Uppercase`: two looks into a table, while `unicode` searches.
#[inline(always)]
pub(crate) fn is_uppercase(c: char) -> bool
    ensures { result ≡ is_uppercase c }
{
    table::get::<1, 4>(
        &UPPERCASE_INDEX,
        &UPPERCASE_WORDS,
        &UPPERCASE_TAIL,
        c as u32,
    ) == 1
}
