//! A helper that completes names.
ghost use Rattle.std.specs.Prelude.{◌≡◌, IfOk, Some, chars, map, vec_items};
ghost use Rattle.std.specs.Option.{option_copied};
ghost use Rattle.prompt.specs.Words.{common, common_rest, completion, first_rest, word_at_end, names_with, rest_among, rest_of, text_unless_empty};

use crate::helpers::Helper;
use std::alloc::{AllocError, Global};

/// Completes the word before the cursor by some names: with what those that begin so have in common. A second Tab lists them. The rest of the
/// first that goes on is the hint. A word begins behind a blank or a line feed.
///
/// ```
/// let names = ["help", "history", "quit"];
/// let words = Words::new(&names);
/// let prompt = Prompt::new("> ").with_helper(&words);
/// ```
#[derive(Clone, Copy)]
pub struct Words<'a> {
    names: &'a [&'a str],
}

/// The word at the end of a text.
fn last_word(text: &str) -> &str
    ensures { result.now ≡ word_at_end text.now }
{
    match text.rfind([' ', '\n']) {
        Some(place) => &text[place + 1..],
        None => text,
    }
}

/// What a name has behind a text with which it begins, or nothing.
fn rest_of<'a>(name: &'a str, text: &str) -> &'a str
    ensures { result.now ≡ rest_of text.now name.now }
{
    match name.strip_prefix(text) {
        Some(rest) => rest,
        None => "",
    }
}

/// The characters with which two texts begin both.
fn common<'a>(text: &'a str, other: &str) -> &'a str
    ensures { chars result.now ≡ common (chars text.now) (chars other.now) }
{
    let mut len = 0usize;
    for (c, d) in text.chars().zip(other.chars()) {
        if c != d {
            break;
        }
        len += c.len_utf8();
    }
    &text[..len]
}

/// A text, unless it is empty.
fn unless_empty(text: &str) -> Option<&str>
    ensures { option_copied result ≡ text_unless_empty (Some (chars text.now)) }
{
    if text.is_empty() { None } else { Some(text) }
}

impl<'a> Words<'a> {
    /// A helper for these names.
    ///
    /// ```
    /// let words = Words::new(&["help", "quit"]);
    /// ```
    pub fn new(names: &'a [&'a str]) -> Words<'a>
        ensures { result.names.now ≡ names.now }
    {
        Words { names }
    }

    /// What the first name that begins with a text and goes on has behind it.
    fn rest_among(&self, text: &str) -> Option<&str>
        ensures { option_copied result ≡ rest_among text.now self.now.names.now }
    {
        for name in self.names {
            let rest = rest_of(name, text);
            if !rest.is_empty() {
                return Some(rest);
            }
        }
        None
    }

    /// The same, but an empty text has none.
    fn first_rest(&self, text: &str) -> Option<&str>
        ensures { option_copied result ≡ first_rest text.now self.now.names.now }
    {
        if text.is_empty() {
            return None;
        }
        self.rest_among(text)
    }

    /// What all names that begin with a text have in common behind it, if that isn't empty.
    fn common_rest(&self, text: &str) -> Option<&str>
        ensures { option_copied result ≡ common_rest text.now self.now.names.now }
    {
        let mut found: Option<&str> = None;
        for name in self.names {
            if let Some(rest) = name.strip_prefix(text) {
                found = match found {
                    None => Some(rest),
                    Some(front) => Some(common(front, rest)),
                };
            }
        }
        match found {
            None => None,
            Some(rest) => unless_empty(rest),
        }
    }

    /// The text that completes a word. An empty one has none.
    fn completion(&self, word: &str) -> Option<&str>
        ensures { option_copied result ≡ completion word.now self.now.names.now }
    {
        if word.is_empty() {
            return None;
        }
        self.common_rest(word)
    }

    /// The names that begin with a text, in their order.
    fn names_with(&self, alloc: Global, text: &str) -> Result<Vec<&'a str>, AllocError>
        ensures { IfOk result (λ found. map (λ n. n.now) (vec_items found) ≡ names_with text.now self.now.names.now) }
    {
        let mut found = Vec::new(alloc);
        for name in self.names {
            if name.starts_with(text) {
                found.push(*name)?;
            }
        }
        Ok(found)
    }

    /// The names that begin with the word before the cursor, in their order. With no word they are all.
    ///
    /// # Errors
    ///
    /// `AllocError` if memory was refused.
    ///
    /// ```
    /// let words = Words::new(&["help", "quit"]);
    /// let names = words.matching(alloc, editor.line().before())?;
    /// ```
    pub fn matching(&self, alloc: Global, before: &str) -> Result<Vec<&'a str>, AllocError>
        ensures { IfOk result (λ found. map (λ n. n.now) (vec_items found) ≡ names_with (word_at_end before.now) self.now.names.now) }
    {
        self.names_with(alloc, last_word(before))
    }
}

impl Helper for Words<'_> {
    ghost use Rattle.prompt.specs.Words.{completion, first_rest, word_at_end, names_with, or_nothing};

    ghost completes = { λ words before after. completion (word_at_end before) words.names.now };

    ghost candidates = { λ words before after. names_with (word_at_end before) words.names.now };

    ghost hints = { λ words line. or_nothing (first_rest (word_at_end line) words.names.now) };

    fn complete(&self, before: &str, _after: &str) -> Option<&str> {
        self.completion(last_word(before))
    }

    fn candidates(
        &self,
        alloc: Global,
        before: &str,
        _after: &str,
    ) -> Result<Vec<&str>, AllocError> {
        self.matching(alloc, before)
    }

    fn hint(&self, line: &str) -> &str {
        self.first_rest(last_word(line)).unwrap_or("")
    }
}
