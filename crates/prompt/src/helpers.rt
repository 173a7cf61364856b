//! What helps to write a line: completions and hints.
ghost use Rattle.std.specs.Prelude.{◌≡◌, [], ℕ, IfOk, List, None, Option, map, vec_items};
ghost use Rattle.std.specs.Option.{option_copied};

use std::alloc::{AllocError, Global};

/// Completes lines at Tab, lists candidates at a second Tab, and shows hints.
///
/// ```
/// use std::alloc::AllocError;
///
/// struct Greeting;
///
/// impl Helper for Greeting {
///     ghost completes = { λ helper before after. None };
///
///     ghost candidates = { λ helper before after. [] };
///
///     ghost hints = { λ helper line. if length line == 0 then codes "your name" else [] };
///
///     fn complete(&self, _: &str, _: &str) -> Option<&str> {
///         None
///     }
///
///     fn candidates(&self, alloc: Global, _: &str, _: &str) -> Result<Vec<&str>, AllocError> {
///         Ok(Vec::new(alloc))
///     }
///
///     fn hint(&self, line: &str) -> &str {
///         if line.is_empty() { "your name" } else { "" }
///     }
/// }
/// ```
pub trait Helper {
    // The text by which a line is completed, by what is before and behind the cursor, each in UTF-8.
    ghost completes: { Self → List ℕ → List ℕ → Option (List ℕ) };

    // The texts with which a line may go on, by the same.
    ghost candidates: { Self → List ℕ → List ℕ → List (List ℕ) };

    // The hint for a line, each in UTF-8.
    ghost hints: { Self → List ℕ → List ℕ };

    /// The text that Tab writes at the cursor, as a paste, by what is before the cursor and behind it. If there is none, Tab does nothing.
    fn complete(&self, before: &str, after: &str) -> Option<&str>
        ensures { option_copied result ≡ completes self.now before.now after.now };

    /// The texts with which a line may go on, by what is before the cursor and behind it. A second Tab lists them below the line, in this order.
    ///
    /// # Errors
    ///
    /// `AllocError` if memory was refused.
    fn candidates(&self, alloc: Global, before: &str, after: &str) -> Result<Vec<&str>, AllocError>
        ensures { IfOk result (λ found. map (λ n. n.now) (vec_items found) ≡ candidates self.now before.now after.now) };

    /// What is shown behind a line while the cursor is at its end, and is no part of it. One that has no room isn't shown, nor one that has a
    /// control character.
    fn hint(&self, line: &str) -> &str
        ensures { result.now ≡ hints self.now line.now };
}

impl Helper for () {
    ghost completes = { λ helper before after. None };

    ghost candidates = { λ helper before after. [] };

    ghost hints = { λ helper line. [] };

    fn complete(&self, _before: &str, _after: &str) -> Option<&str> {
        None
    }

    fn candidates(
        &self,
        alloc: Global,
        _before: &str,
        _after: &str,
    ) -> Result<Vec<&str>, AllocError> {
        Ok(Vec::new(alloc))
    }

    fn hint(&self, _line: &str) -> &str {
        ""
    }
}
