//! Edits of words, and of the white space between them.
ghost use Rattle.std.specs.Prelude.{◌≡◌, ◌≤◌, ◌++◌, nat_le, nat_lt, ◌&&◌, IfOk, MatchOption, None, Some, OnOk, OnErr, slice_range};
ghost use Rattle.std.specs.Str.{chars, IsCharBoundary};
ghost use Rattle.std.specs.String.{string_bytes};
ghost use Rattle.unicode_segmentation.specs.Segments.{chars_before};
ghost use Rattle.line_editor.specs.declared.places.Stop.TheVariants.{WordEnd};
ghost use Rattle.line_editor.specs.declared.places.Target.TheVariants.{Forward};
ghost use Rattle.line_editor.specs.Bounds.{cased_more, size, taken_more};
ghost use Rattle.line_editor.specs.Cases.{cased};
ghost use Rattle.line_editor.specs.Edits.{cut_text, first_end, first_start, is_beside_blank, second_end, second_start};
ghost use Rattle.line_editor.specs.Shown.{AreRows};
ghost use Rattle.line_editor.specs.Splits.{bytes_before, split_at};
ghost use Rattle.line_editor.specs.States.{before_taken, case_cut, erase_blanks, is_empty, next_taken, next_word, taken, taken_to, transpose_words};
ghost use Rattle.line_editor.specs.inside.Changes.{line_bytes};

use crate::actions::Case;
use crate::cases::{cased, cased_len};
use crate::editor::Editor;
use crate::last::Last;
use crate::places::{
    Stop, Target, begins_blank, ends_blank, place_of, unblanked_before, unblanked_behind,
};
use crate::texts::is_nothing;
use std::alloc::{AllocError, Allocator};

/// The places at which two words begin and end.
#[derive(Clone, Copy)]
struct TwoWords {
    first_start: usize,
    first_end: usize,
    second_start: usize,
    second_end: usize,
}

/// The word that ends next behind a place, and the word before it.
fn two_words(text: &str, at: usize) -> TwoWords
    requires { IsCharBoundary text.now at }
    ensures first_start { split_at text.now result.first_start ≡ first_start (split_at text.now at) }
    ensures first_end { split_at text.now result.first_end ≡ first_end (split_at text.now at) }
    ensures second_start { split_at text.now result.second_start ≡ second_start (split_at text.now at) }
    ensures second_end { split_at text.now result.second_end ≡ second_end (split_at text.now at) }
    ensures from_first { IsCharBoundary text.now result.first_start }
    ensures to_first { IsCharBoundary text.now result.first_end }
    ensures from_second { IsCharBoundary text.now result.second_start }
    ensures to_second { IsCharBoundary text.now result.second_end }
    ensures first { result.first_start ≤ result.first_end }
    ensures second { result.second_start ≤ result.second_end }
{
    let second_end = place_of(text, at, Target::Forward(Stop::WordEnd));
    let second_start = place_of(text, second_end, Target::Back(Stop::WordStart));
    let first_start = place_of(text, second_start, Target::Back(Stop::WordStart));
    let first_end = place_of(text, first_start, Target::Forward(Stop::WordEnd));
    TwoWords {
        first_start,
        first_end,
        second_start,
        second_end,
    }
}

impl TwoWords {
    /// Whether these are two words.
    fn are_two(&self) -> bool
        ensures { result ≡ (nat_lt self.now.first_start self.now.second_start && nat_le self.now.first_end self.now.second_start) }
    {
        self.first_start < self.second_start && self.first_end <= self.second_start
    }

    /// The second word, what is between them, and the first word.
    fn swapped<A: Allocator>(&self, alloc: A, text: &str) -> Result<String<A>, AllocError>
        requires from_first { IsCharBoundary text.now self.now.first_start }
        requires to_first { IsCharBoundary text.now self.now.first_end }
        requires from_second { IsCharBoundary text.now self.now.second_start }
        requires to_second { IsCharBoundary text.now self.now.second_end }
        requires first { self.now.first_start ≤ self.now.first_end }
        requires second { self.now.second_start ≤ self.now.second_end }
        requires between { self.now.first_end ≤ self.now.second_start }
        ensures { IfOk result (λ new. string_bytes new ≡ slice_range text.now self.now.second_start self.now.second_end
            ++ (slice_range text.now self.now.first_end self.now.second_start ++ slice_range text.now self.now.first_start self.now.first_end)) }
    {
        let mut new = String::from_str(alloc, &text[self.second_start..self.second_end])?;
        new.push_str(&text[self.first_end..self.second_start])?;
        new.push_str(&text[self.first_start..self.first_end])?;
        Ok(new)
    }
}

impl<A: Allocator> Editor<A> {
    /// The word that was taken last from an accepted line.
    fn taken(&self) -> &str
        ensures text { chars result.now ≡ taken self.now }
        ensures shown { AreRows (chars result.now) }
    {
        match self.last {
            Last::Took(at) => self.history.last_word(at),
            Last::Other | Last::Walked | Last::Killed | Last::Yanked | Last::Seeking(_) => "",
        }
    }

    /// How many lines are newer than the one of which the last word is taken next.
    pub(crate) fn next_taken(&self) -> usize
        ensures { result ≡ next_taken self.now }
    {
        match self.last {
            Last::Took(at) => { if at < self.history.len() { at + 1 } else { at } }
            Last::Other | Last::Walked | Last::Killed | Last::Yanked | Last::Seeking(_) => {
                self.back
            }
        }
    }

    /// The word that is taken next.
    fn next_word(&self) -> &str
        ensures text { chars result.now ≡ next_word self.now }
        ensures shown { AreRows (chars result.now) }
    {
        let at = self.next_taken();
        self.history.last_word(at)
    }

    /// The place before the word that was taken last, if the word is before the cursor.
    fn before_taken(&self) -> Option<usize>
        ensures { MatchOption result (before_taken self.now ≡ None)
            (λ place. (place ≤ bytes_before self.now.line) × IsCharBoundary (line_bytes self.now.line) place
            × (before_taken self.now ≡ Some (chars_before (line_bytes self.now.line) place))) }
    {
        self.draft.line().place_before(self.taken())
    }

    /// How many more bytes the line has with the next word in place of the one that was taken last.
    pub(crate) fn taken_more(&self) -> usize
        ensures { result ≡ taken_more (before_taken self.now) self.now }
    {
        match self.before_taken() {
            None => 0,
            Some(_) => {
                let next = self.next_word();
                next.len().saturating_sub(self.taken().len())
            }
        }
    }

    /// Whether neither the word that was taken last nor the next one has a character.
    fn takes_nothing(&self) -> bool
        ensures { result ≡ (is_empty (taken self.now) && is_empty (next_word self.now)) }
    {
        is_nothing(self.taken()) && is_nothing(self.next_word())
    }

    /// How many more bytes the line has with a word in a case.
    pub(crate) fn cased_more(&self, case: Case) -> u128
        ensures { result ≡ cased_more case (cut_text (Forward WordEnd) self.now.line) }
    {
        let word = self.draft.line().cut(Target::Forward(Stop::WordEnd));
        cased_len(case, word).saturating_sub(word.len() as u128)
    }

    /// Whether there is white space just before the cursor or just behind it.
    fn is_beside_blank(&self) -> bool
        ensures { result ≡ is_beside_blank self.now.line }
    {
        let line = self.draft.line();
        ends_blank(line.before()) || begins_blank(line.after())
    }
}

impl<A: Allocator + Clone> Editor<A> {
    /// Brings what is between the cursor and the next end of a word into a case.
    pub(crate) fn case_word(&mut self, case: Case) -> Result<(), AllocError>
        ensures ok { OnOk result (self.new ≡ case_cut case (cut_text (Forward WordEnd) self.old.line) self.old) }
        ensures err { OnErr result (self.new ≡ self.old) }
    {
        let line = self.draft.line();
        let word = line.cut(Target::Forward(Stop::WordEnd));
        if is_nothing(word) {
            return Ok(());
        }
        let from = line.at();
        let to = place_of(line.text(), from, Target::Forward(Stop::WordEnd));
        let text = cased(self.alloc.clone()?, case, word)?;
        self.draft
            .replace(from, to, text.as_str(), self.limits.steps)?;
        Ok(())
    }

    /// Exchanges two words, if there are two.
    pub(crate) fn transpose_words(&mut self) -> Result<(), AllocError>
        ensures ok { OnOk result (self.new ≡ transpose_words self.old) }
        ensures err { OnErr result (self.new ≡ self.old) }
    {
        let line = self.draft.line();
        let text = line.text();
        let words = two_words(text, line.at());
        if !words.are_two() {
            return Ok(());
        }
        let swapped = words.swapped(self.alloc.clone()?, text)?;
        let (from, to) = (words.first_start, words.second_end);
        self.draft
            .replace(from, to, swapped.as_str(), self.limits.steps)?;
        Ok(())
    }

    /// Erases the white space around the cursor.
    pub(crate) fn erase_blanks(&mut self) -> Result<(), AllocError>
        ensures ok { OnOk result (self.new ≡ erase_blanks self.old) }
        ensures err { OnErr result (self.new ≡ self.old) }
    {
        if !self.is_beside_blank() {
            return Ok(());
        }
        let line = self.draft.line();
        let (text, at) = (line.text(), line.at());
        let from = unblanked_before(text, at);
        let to = unblanked_behind(text, at);
        self.draft.replace(from, to, "", self.limits.steps)?;
        Ok(())
    }

    /// Writes the last word of the next older line in place of the one that was taken last.
    pub(crate) fn take_word(&mut self) -> Result<(), AllocError>
        ensures ok { OnOk result (self.new ≡ taken_to (before_taken self.old) self.old) }
        ensures err { OnErr result (self.new ≡ self.old) }
    {
        match self.before_taken() {
            None => Ok(()),
            Some(from) => {
                if self.takes_nothing() {
                    return Ok(());
                }
                let at = self.next_taken();
                let to = self.draft.line().at();
                let next = self.history.last_word(at);
                self.draft.replace(from, to, next, self.limits.steps)?;
                Ok(())
            }
        }
    }
}
