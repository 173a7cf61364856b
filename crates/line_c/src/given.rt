//! What a caller has given for a line.
ghost use Rattle.std.specs.Prelude.{◌≡◌};
ghost use Rattle.line_c.specs.Answers.{lists};

use prompt::{Helper, Words};
use std::alloc::{AllocError, Global};

/// Which names are listed below a line.
#[derive(Clone, Copy, PartialEq, Eq)]
pub(crate) enum Listed {
    Nothing,
    All,
    /// Those that begin with the word before the cursor.
    Beginning,
}

impl Listed {
    /// Whether some are.
    pub(crate) fn lists(self) -> bool
        ensures { result ≡ lists self }
    {
        match self {
            Listed::Nothing => false,
            Listed::All | Listed::Beginning => true,
        }
    }
}

/// A hint, and the names that may be listed.
#[derive(Clone, Copy)]
pub(crate) struct Given<'a> {
    hint: &'a str,
    names: &'a [&'a str],
    listed: Listed,
}

impl<'a> Given<'a> {
    /// A helper with this hint and these names.
    pub(crate) fn new(hint: &'a str, names: &'a [&'a str], listed: Listed) -> Given<'a>
        ensures hint { result.hint.now ≡ hint.now }
        ensures names { result.names.now ≡ names.now }
        ensures listed { result.listed ≡ listed }
    {
        Given {
            hint,
            names,
            listed,
        }
    }
}

impl Helper for Given<'_> {
    ghost use Rattle.std.specs.Prelude.{None, map};
    ghost use Rattle.line_c.specs.Answers.{names_listed};

    ghost completes = { λ given before after. None };

    ghost candidates = { λ given before after. names_listed given.listed before (map (λ n. n.now) given.names.now) };

    ghost hints = { λ given line. given.hint.now };

    fn complete(&self, _before: &str, _after: &str) -> Option<&str> {
        None
    }

    fn candidates(
        &self,
        alloc: Global,
        before: &str,
        _after: &str,
    ) -> Result<Vec<&str>, AllocError> {
        match self.listed {
            Listed::Nothing => Ok(Vec::new(alloc)),
            Listed::All => Vec::from_slice(alloc, self.names),
            Listed::Beginning => Words::new(self.names).matching(alloc, before),
        }
    }

    fn hint(&self, _line: &str) -> &str {
        self.hint
    }
}
