//! Marks: characters of no column that belong to the character before them.
ghost use Rattle.std.specs.Prelude.{◌≡◌, ◌↔◌, Some, encode_utf8_all, ◌<◌, ◌≤◌, ◌++◌, ◌==◌, [], ◌∷◌, IsTrue, if◌then◌else◌, length, nat_lt};
ghost use Rattle.std.specs.List.{slice_get};
ghost use Rattle.screen.specs.Marks.{is_joined, is_kept_with, is_mark_of, most_marks, takes_none};

use std::fmt;
use std::marker::Model;
use ucd_breaks::GraphemeClusterBreak;
use ucd_breaks::GraphemeClusterBreak::*;
use unicode_width::UnicodeWidthChar;

/// The marks of a character, none to three, as combining accents.
///
/// ```
/// let accents = cell.marks();
/// let has_accent = !accents.is_empty();
/// ```
#[derive(Clone, Copy, PartialEq, Eq)]
pub struct Marks(char, char, char);

impl Model for Marks {
    ghost use Rattle.std.specs.Prelude.{◌≡◌, ℕ, List};

    ghost Value = { List ℕ };

    ghost use Rattle.screen.specs.inside.Marked.{held, marked};

    ghost view = { marked };

    ghost inverse = { held };

    ghost inverse_ok = { λ a is_held. is_held };

    ghost invariant = { λ a. held (marked a) ≡ a };
}

impl Marks {
    /// No marks.
    pub(crate) fn none() -> Marks
        ensures { result ≡ [] }
    {
        Marks('\0', '\0', '\0')
    }

    /// How many there are.
    ///
    /// ```
    /// let columns = 1;
    /// let characters = 1 + cell.marks().len();
    /// ```
    pub fn len(&self) -> usize
        ensures value { result ≡ length self.now }
        ensures few { result ≤ most_marks }
    {
        match (self.0, self.1, self.2) {
            ('\0', _, _) => 0,
            (_, '\0', _) => 1,
            (_, _, '\0') => 2,
            _ => 3,
        }
    }

    /// Whether there are none.
    ///
    /// ```
    /// let is_bare = cell.marks().is_empty();
    /// ```
    pub fn is_empty(&self) -> bool
        ensures { IsTrue result ↔ (self.now ≡ []) }
    {
        self.0 == '\0'
    }

    /// The mark with so many before it, or `None` if there are fewer.
    ///
    /// ```
    /// let first = cell.marks().get(0);
    /// ```
    pub fn get(&self, at: usize) -> Option<char>
        ensures { result ≡ slice_get self.now at }
    {
        let mark = match at {
            0 => self.0,
            1 => self.1,
            2 => self.2,
            _ => '\0',
        };
        if mark == '\0' { None } else { Some(mark) }
    }

    /// Adds a mark behind the others, and returns whether there was room for it.
    pub(crate) fn push(&mut self, mark: char) -> bool
        requires { 0 < mark }
        ensures room { result ≡ nat_lt (length self.old) most_marks }
        ensures marks { self.new ≡ (if result then self.old ++ mark ∷ [] else self.old) }
    {
        if self.0 == '\0' {
            self.0 = mark;
            true
        } else if self.1 == '\0' {
            self.1 = mark;
            true
        } else if self.2 == '\0' {
            self.2 = mark;
            true
        } else {
            false
        }
    }
}

/// As a list of characters.
impl fmt::Debug for Marks {
    fn fmt<W: fmt::Write>(&self, f: &mut fmt::Formatter<W>) -> fmt::Result {
        let all = [self.0, self.1, self.2];
        f.debug_list().entries(&all[..self.len()]).finish()
    }
}

/// The marks, one after another.
impl fmt::Display for Marks {
    ghost output = { λ marks. Some (encode_utf8_all marks) };

    fn fmt<W: fmt::Write>(&self, f: &mut fmt::Formatter<W>) -> fmt::Result {
        let count = self.len();
        if count > 0 {
            f.write_char(self.0)?;
        }
        if count > 1 {
            f.write_char(self.1)?;
        }
        if count > 2 {
            f.write_char(self.2)?;
        }
        Ok(())
    }
}

/// Whether two have the same marks.
pub(crate) fn is_same_marks(left: &Marks, right: &Marks) -> bool
    ensures { IsTrue result ↔ (left.now ≡ right.now) }
{
    // With `&`, which is no branch, the compiler compares all at once.
    (left.0 == right.0) & (left.1 == right.1) & (left.2 == right.2)
}

/// Whether a character takes no column.
pub(crate) fn takes_none(symbol: char) -> bool
    ensures { result ≡ takes_none symbol }
{
    match symbol.width() {
        None => false,
        Some(width) => width == 0,
    }
}

/// Whether some terminals join a character with its neighbours.
pub(crate) fn is_joined(symbol: char) -> bool
    ensures { result ≡ is_joined symbol }
{
    match symbol {
        '\u{200D}'
        | '\u{FE0E}'..='\u{FE0F}'
        | '\u{1F1E6}'..='\u{1F1FF}'
        | '\u{1F3FB}'..='\u{1F3FF}'
        | '\u{E0020}'..='\u{E007F}' => true,
        _ => false,
    }
}

/// Whether two characters are in one cluster by the rules of UAX 29 that read only the two of them.
fn is_kept_with(before: char, symbol: char) -> bool
    ensures { result ≡ is_kept_with before symbol }
{
    let pair = (
        GraphemeClusterBreak::for_char(before),
        GraphemeClusterBreak::for_char(symbol),
    );
    match pair {
        (Cr, Lf) => true,
        (Control | Cr | Lf, _) | (_, Control | Cr | Lf) => false,
        (L, L | V | Lv | Lvt) => true,
        (Lv | V, V | T) => true,
        (Lvt | T, T) => true,
        (_, Extend | Zwj | SpacingMark) => true,
        (Prepend, _) => true,
        _ => false,
    }
}

/// Whether a character is a mark of the one before it.
pub(crate) fn is_mark_of(before: char, symbol: char) -> bool
    ensures { result ≡ is_mark_of before symbol }
{
    // No character below this one is a mark: no table is read for it.
    if symbol < '\u{A0}' {
        return false;
    }
    if !takes_none(symbol) {
        return false;
    }
    if is_joined(symbol) {
        return false;
    }
    is_kept_with(before, symbol)
}
