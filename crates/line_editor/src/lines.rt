//! A line of text with a cursor.
ghost use Rattle.std.specs.Prelude.{◌≡◌, ℕ, ◌+◌, ◌-◌, ◌<◌, ◌≤◌, List, [], ◌∷◌, ◌++◌, IfOk, MatchBool, MatchOption, None, Some, OnErr, OnOk, take, drop, length, replicate, reverse, slice_range, true};
ghost use Rattle.std.specs.List.{insert_slice};
ghost use Rattle.std.specs.String.{string_bytes};
ghost use Rattle.std.specs.Str.{chars, IsCharBoundary};
ghost use Rattle.unicode_segmentation.specs.Segments.{chars_before, chars_from};
ghost use Rattle.line_editor.specs.Bounds.{size};
ghost use Rattle.line_editor.specs.Edits.{IsSettled, cut_text, empty_line, reach_end, erased, inserted, line_with, meeting, settled, start_of, transposed};
ghost use Rattle.line_editor.specs.Masks.{masked};
ghost use Rattle.line_editor.specs.Places.{target_place};
ghost use Rattle.line_editor.specs.Rows.{row_place};
ghost use Rattle.line_editor.specs.Seen.{IsInClusters, IsSeen};
ghost use Rattle.line_editor.specs.Shown.{AreRows, comes_in};
ghost use Rattle.line_editor.specs.Splits.{bytes_before, split_at, line_text};
ghost use Rattle.line_editor.specs.States.{behind_front, found_line};
ghost use Rattle.line_editor.specs.Views.{column, seen_text};
ghost use Rattle.line_editor.specs.inside.Changes.{Fits, TakesBack, line_bytes, spliced};

use crate::changes::Change;
use crate::masks::Mask;
use crate::places::{Stop, Target, ahead, place_of};
use crate::rows::row_place;
use crate::texts::{before_end, is_nothing, split_last, utf8_len};
use crate::views::{end_seen, start_seen};
use std::alloc::{AllocError, Allocator, Global};
use std::marker::Model;
use std::mem;

/// A line of text with a cursor, which is between two extended grapheme clusters (UAX 29) or at an end of the line. A line has no control
/// character but line feeds, which part its rows, and none of more than two columns.
///
/// ```
/// editor.paste("cafe\u{301}")?;
/// editor.act(Action::Go(Target::Back(Stop::Cluster)))?;
/// assert_eq!(rt; editor.line().before(), "caf");
/// ```
#[derive(Drop)]
pub struct Line<A: Allocator = Global> {
    text: String<A>,
    // The bytes before the cursor.
    at: usize,
}

impl<A: Allocator> Model for Line<A> {
    ghost use Rattle.std.specs.Prelude.{◌≡◌, true};
    ghost use Rattle.std.specs.String.{string_bytes};
    ghost use Rattle.std.specs.Str.{chars, IsCharBoundary};
    ghost use Rattle.unicode_segmentation.specs.Segments.{breaks_at};
    ghost use Rattle.line_editor.specs.Splits.{Split, split_at};
    ghost use Rattle.line_editor.specs.Places.{is_between};
    ghost use Rattle.line_editor.specs.Shown.{AreRows};

    ghost Value = { Split };

    ghost view = { λ l. split_at (string_bytes l.text) l.at };

    ghost invariant = { λ l. IsCharBoundary (string_bytes l.text) l.at × (breaks_at is_between (string_bytes l.text) l.at ≡ true)
        × AreRows (chars (string_bytes l.text)) };
}

/// A text in which another one takes the place of what is between two places.
fn spliced<A: Allocator>(
    alloc: A,
    text: &str,
    from: usize,
    to: usize,
    with: &str,
) -> Result<String<A>, AllocError>
    requires from { IsCharBoundary text.now from }
    requires to { IsCharBoundary text.now to }
    ensures { IfOk result (λ new. string_bytes new ≡ (take from text.now ++ with.now) ++ drop to text.now) }
{
    let mut new = String::from_str(alloc, &text[..from])?;
    new.push_str(with)?;
    new.push_str(&text[to..])?;
    Ok(new)
}

/// Puts a text in place of what is between two places, and returns what was there.
fn swap<A: Allocator + Clone>(
    text: &mut String<A>,
    from: usize,
    to: usize,
    with: &str,
) -> Result<String<A>, AllocError>
    requires order { from ≤ to }
    requires from { IsCharBoundary (string_bytes text.old) from }
    requires to { IsCharBoundary (string_bytes text.old) to }
    ensures ok { OnOk result (string_bytes text.new ≡ (take from (string_bytes text.old) ++ with.now) ++ drop to (string_bytes text.old)) }
    ensures removed { IfOk result (λ removed. string_bytes removed ≡ slice_range (string_bytes text.old) from to) }
    ensures err { OnErr result (string_bytes text.new ≡ string_bytes text.old) }
{
    let alloc = text.allocator().clone()?;
    let removed = String::from_str(alloc, &text.as_str()[from..to])?;
    text.replace_range(from..to, with)?;
    Ok(removed)
}

/// A line of such a text, with the cursor behind what was written, or behind the cluster that this ends in.
fn edited<A: Allocator>(
    alloc: A,
    text: &str,
    from: usize,
    to: usize,
    with: &str,
) -> Result<Line<A>, AllocError>
    requires order { from ≤ to }
    requires from { IsCharBoundary text.now from }
    requires to { IsCharBoundary text.now to }
    requires text { AreRows (chars text.now) }
    requires with { AreRows (chars with.now) }
    ensures { IfOk result (λ line. line ≡ line_with (split_at text.now from) (chars with.now) (split_at text.now to)) }
{
    let new = spliced(alloc, text, from, to, with)?;
    let whole = new.as_str();
    let at = ahead(whole, whole.len() - (text.len() - to), Stop::Cluster);
    Ok(Line { text: new, at })
}

/// The start and the end of what a target reaches.
fn reach(text: &str, at: usize, target: Target) -> (usize, usize)
    requires { IsCharBoundary text.now at }
    ensures order { result.0 ≤ result.1 }
    ensures from { IsCharBoundary text.now result.0 }
    ensures to { IsCharBoundary text.now result.1 }
    ensures start { split_at text.now result.0 ≡ start_of target (split_at text.now at) }
    ensures end { split_at text.now result.1 ≡ reach_end target (split_at text.now at) }
{
    let place = place_of(text, at, target);
    match target {
        Target::Back(_) => (place, at),
        Target::Forward(_) => (at, place),
    }
}

/// The place at which two clusters meet that are transposed: a given one, and at the end the one before the last cluster.
fn meeting(text: &str, at: usize) -> usize
    requires { IsCharBoundary text.now at }
    ensures boundary { IsCharBoundary text.now result }
    ensures place { split_at text.now result ≡ meeting (chars_before text.now at) (chars_from text.now at) }
{
    if at < text.len() {
        return at;
    }
    place_of(text, at, Target::Back(Stop::Cluster))
}

/// A star for each character of a text.
fn stars<A: Allocator>(alloc: A, text: &str) -> Result<String<A>, AllocError>
    ensures { IfOk result (λ made. string_bytes made ≡ replicate (length (chars text.now)) 42) }
{
    "*".repeat(alloc, text.chars().count())
}

impl<A: Allocator> Line<A> {
    /// An empty line.
    pub(crate) fn new(alloc: A) -> Line<A>
        ensures { result ≡ empty_line }
    {
        Line {
            text: String::new(alloc),
            at: 0,
        }
    }

    /// A line of two texts, with the cursor behind the first one, or behind the cluster that this ends in.
    ///
    /// # Errors
    ///
    /// `AllocError` if memory was refused.
    pub(crate) fn of_parts(alloc: A, before: &str, after: &str) -> Result<Line<A>, AllocError>
        requires before { AreRows (chars before.now) }
        requires after { AreRows (chars after.now) }
        ensures { IfOk result (λ line. line ≡ settled (record { before = reverse (chars before.now); after = chars after.now })) }
    {
        edited(alloc, after, 0, 0, before)
    }

    /// A line that was found by its beginning, with the cursor behind that, or at the end if any line was looked for.
    ///
    /// # Errors
    ///
    /// `AllocError` if memory was refused.
    pub(crate) fn found(alloc: A, front: &str, rest: &str) -> Result<Line<A>, AllocError>
        requires front { AreRows (chars front.now) }
        requires rest { AreRows (chars rest.now) }
        ensures { IfOk result (λ line. line ≡ found_line (chars front.now) (chars rest.now)) }
    {
        if is_nothing(front) {
            return Line::of_parts(alloc, rest, "");
        }
        Line::of_parts(alloc, front, rest)
    }

    /// The text of the line.
    ///
    /// ```
    /// assert_eq!(rt; editor.line().text(), "");
    /// ```
    pub fn text(&self) -> &str
        ensures text { chars result.now ≡ line_text self.now }
        ensures len { length result.now ≡ size (line_text self.now) }
        ensures shown { AreRows (chars result.now) }
    {
        self.text.as_str()
    }

    /// The text before the cursor.
    ///
    /// ```
    /// let before = editor.line().before();
    /// ```
    pub fn before(&self) -> &str
        ensures text { reverse (chars result.now) ≡ self.now.before }
        ensures between { IsSettled self.now }
        ensures shown { AreRows (chars result.now) }
    {
        &self.text.as_str()[..self.at]
    }

    /// The text from the cursor on.
    ///
    /// ```
    /// let after = editor.line().after();
    /// ```
    pub fn after(&self) -> &str
        ensures { chars result.now ≡ self.now.after }
    {
        &self.text.as_str()[self.at..]
    }

    /// Brings the cursor to a target.
    pub(crate) fn go(&mut self, target: Target)
        ensures { self.new ≡ target_place target self.old }
    {
        self.at = place_of(self.text.as_str(), self.at, target);
    }

    /// Brings the cursor into the row above or below, and returns whether there is one.
    pub(crate) fn go_row(&mut self, up: bool) -> bool
        ensures { MatchBool result (row_place up self.old ≡ Some self.new) ((row_place up self.old ≡ None) × (self.new ≡ self.old)) }
    {
        match row_place(self.text.as_str(), self.at, up) {
            None => false,
            Some(place) => {
                self.at = place;
                true
            }
        }
    }

    /// Lets the text go. Its memory stays.
    pub(crate) fn clear(&mut self)
        ensures { self.new ≡ empty_line }
    {
        self.text.clear();
        self.at = 0;
    }
}

impl<A: Allocator> Line<A> {
    /// Inserts a text at the cursor, and returns its end. The line isn't copied.
    ///
    /// # Errors
    ///
    /// `AllocError` if memory was refused. Then nothing has changed.
    pub(crate) fn insert(&mut self, text: &str) -> Result<usize, AllocError>
        requires { AreRows (chars text.now) }
        ensures ok { OnOk result (self.new ≡ inserted (chars text.now) self.old) }
        ensures bytes { OnOk result (line_bytes self.new ≡ insert_slice (line_bytes self.old) (bytes_before self.old) text.now) }
        ensures end { IfOk result (λ end. end ≡ bytes_before self.old + length text.now) }
        ensures on { IfOk result (λ end. end ≤ bytes_before self.new) }
        ensures err { OnErr result (self.new ≡ self.old) }
    {
        let whole = self.text.as_str();
        let behind = whole.len() - self.at;
        self.text.insert_str(self.at, text)?;
        let whole = self.text.as_str();
        let end = whole.len() - behind;
        self.at = ahead(whole, end, Stop::Cluster);
        Ok(end)
    }

    /// The bytes before the cursor.
    pub(crate) fn at(&self) -> usize
        ensures value { result ≡ bytes_before self.now }
        ensures boundary { IsCharBoundary (line_bytes self.now) result }
        ensures place { split_at (line_bytes self.now) result ≡ self.now }
    {
        self.at
    }

    /// The place before a text that is before the cursor, if the text is there.
    pub(crate) fn place_before(&self, end: &str) -> Option<usize>
        ensures { MatchOption result (behind_front (reverse (chars end.now)) self.now.before ≡ None)
            (λ place. (place ≤ bytes_before self.now) × IsCharBoundary (line_bytes self.now) place
            × (behind_front (reverse (chars end.now)) self.now.before ≡ Some (chars_before (line_bytes self.now) place))) }
    {
        match before_end(&self.text.as_str()[..self.at], end) {
            None => None,
            Some(front) => Some(utf8_len(front)),
        }
    }

    /// Another line takes its place. Returns what takes that back.
    pub(crate) fn give_way_to(&mut self, line: Line<A>) -> Change<A>
        ensures line { self.new ≡ line }
        ensures back { TakesBack result self.old self.new }
    {
        let Line { text, at } = mem::replace(self, line);
        Change {
            from: 0,
            to: self.text.as_str().len(),
            text,
            at,
        }
    }

    /// Whether there are two clusters to transpose: something is before the place at which they meet.
    pub(crate) fn has_two(&self) -> bool
        ensures { MatchBool result ((c : ℕ) × (before : List ℕ) × ((meeting self.now.before self.now.after).before ≡ c ∷ before))
            ((meeting self.now.before self.now.after).before ≡ []) }
    {
        let text = self.text.as_str();
        let middle = meeting(text, self.at);
        match split_last(&text[..middle]) {
            None => false,
            Some(_) => true,
        }
    }

    /// The text that is seen of the line in a row of so many columns, and the cursor's column in it, from 0.
    ///
    /// As much of the line is seen as has room, in whole clusters, with one column for the cursor. If the line is longer than the row, the
    /// cursor is as far to the right as it can be.
    ///
    /// ```
    /// let (text, column) = editor.line().seen(40);
    /// ```
    pub fn seen(&self, room: u16) -> (&str, usize)
        ensures text { chars result.0.now ≡ seen_text room self.now }
        ensures shown { AreRows (chars result.0.now) }
        ensures column { result.1 ≡ column room self.now }
        ensures few { result.1 ≤ 65535 }
        ensures fits { 0 < room → IsSeen room self.now }
        ensures clusters { IsInClusters room self.now }
    {
        let text = self.text.as_str();
        let (from, column) = start_seen(text, self.at, room);
        let to = end_seen(text, self.at, column, room);
        (&text[from..to], column)
    }

    /// The line that is shown in the place of this one, if nobody is to read it.
    ///
    /// # Errors
    ///
    /// `AllocError` if memory was refused.
    ///
    /// ```
    /// let shown = editor.line().masked(alloc, Mask::Stars)?;
    /// rows.draw_next(&mut out, &Shown::new("Password: ", &shown))?;
    /// ```
    pub fn masked<B: Allocator + Clone>(&self, alloc: B, mask: Mask) -> Result<Line<B>, AllocError>
        ensures { IfOk result (λ line. line ≡ masked mask self.now) }
    {
        match mask {
            Mask::Nothing => Ok(Line::new(alloc)),
            Mask::Stars => {
                let before = stars(alloc.clone()?, self.before())?;
                let after = stars(alloc.clone()?, self.after())?;
                Line::of_parts(alloc, before.as_str(), after.as_str())
            }
        }
    }

    /// The text that a target reaches.
    ///
    /// ```
    /// let word = editor.line().cut(Target::Back(Stop::WordStart));
    /// ```
    pub fn cut(&self, target: Target) -> &str
        ensures text { chars result.now ≡ cut_text target self.now }
        ensures shown { AreRows (chars result.now) }
    {
        let text = self.text.as_str();
        let (from, to) = reach(text, self.at, target);
        &text[from..to]
    }
}

impl<A: Allocator + Clone> Line<A> {
    /// The same line once more.
    ///
    /// # Errors
    ///
    /// `AllocError` if memory was refused.
    pub(crate) fn copy(&self) -> Result<Line<A>, AllocError>
        ensures { IfOk result (λ line. line ≡ self.now) }
    {
        let text = String::from_str(self.text.allocator().clone()?, self.text.as_str())?;
        Ok(Line { text, at: self.at })
    }

    /// The same line once more, with a character at the cursor.
    ///
    /// # Errors
    ///
    /// `AllocError` if memory was refused.
    pub(crate) fn copy_with(&self, c: char) -> Result<Line<A>, AllocError>
        requires { comes_in true c ≡ true }
        ensures { IfOk result (λ line. line ≡ inserted (c ∷ []) self.now) }
    {
        let mut line = self.copy()?;
        let mut utf8 = [0u8; 4];
        line.insert(c.encode_utf8(&mut utf8))?;
        Ok(line)
    }

    /// The same line once more, without what a target reaches.
    ///
    /// # Errors
    ///
    /// `AllocError` if memory was refused.
    pub(crate) fn copy_without(&self, target: Target) -> Result<Line<A>, AllocError>
        ensures { IfOk result (λ line. line ≡ erased target self.now) }
    {
        let mut line = self.copy()?;
        line.erase(target)?;
        Ok(line)
    }

    /// Puts a text in place of what is between two places, with the cursor behind it, or behind the cluster that it ends in. Returns what
    /// takes that back.
    ///
    /// # Errors
    ///
    /// `AllocError` if memory was refused. Then nothing has changed.
    pub(crate) fn splice(
        &mut self,
        from: usize,
        to: usize,
        with: &str,
    ) -> Result<Change<A>, AllocError>
        requires order { from ≤ to }
        requires from { IsCharBoundary (line_bytes self.old) from }
        requires to { IsCharBoundary (line_bytes self.old) to }
        requires with { AreRows (chars with.now) }
        ensures ok { OnOk result (self.new ≡ line_with (split_at (line_bytes self.old) from) (chars with.now) (split_at (line_bytes self.old) to)) }
        ensures back { IfOk result (λ c. TakesBack c self.old self.new) }
        ensures end { IfOk result (λ c. c.to ≤ bytes_before self.new) }
        ensures err { OnErr result (self.new ≡ self.old) }
    {
        let whole = self.text.as_str();
        let behind = whole.len() - to;
        let removed = swap(&mut self.text, from, to, with)?;
        let whole = self.text.as_str();
        let end = whole.len() - behind;
        let change = Change {
            from,
            to: end,
            text: removed,
            at: self.at,
        };
        self.at = ahead(whole, end, Stop::Cluster);
        Ok(change)
    }

    /// Does a change, and returns what takes that back.
    ///
    /// # Errors
    ///
    /// `AllocError` if memory was refused. Then nothing has changed.
    pub(crate) fn take_back(&mut self, change: &Change<A>) -> Result<Change<A>, AllocError>
        requires { Fits (line_bytes self.old) change.now }
        ensures ok { OnOk result (self.new ≡ split_at (spliced change.now (line_bytes self.old)) change.now.at) }
        ensures back { IfOk result (λ c. TakesBack c self.old self.new) }
        ensures err { OnErr result (self.new ≡ self.old) }
    {
        let whole = self.text.as_str();
        let behind = whole.len() - change.to;
        let with = change.text.as_str();
        let removed = swap(&mut self.text, change.from, change.to, with)?;
        let whole = self.text.as_str();
        let back = Change {
            from: change.from,
            to: whole.len() - behind,
            text: removed,
            at: self.at,
        };
        self.at = change.at;
        Ok(back)
    }

    /// Inserts a text at the cursor, and returns what takes that back.
    ///
    /// # Errors
    ///
    /// `AllocError` if memory was refused. Then nothing has changed.
    pub(crate) fn put(&mut self, text: &str) -> Result<Change<A>, AllocError>
        requires { AreRows (chars text.now) }
        ensures ok { OnOk result (self.new ≡ inserted (chars text.now) self.old) }
        ensures back { IfOk result (λ c. TakesBack c self.old self.new) }
        ensures end { IfOk result (λ c. c.to ≤ bytes_before self.new) }
        ensures err { OnErr result (self.new ≡ self.old) }
    {
        let at = self.at();
        self.splice(at, at, text)
    }

    /// Erases what a target reaches, and returns what takes that back.
    ///
    /// # Errors
    ///
    /// `AllocError` if memory was refused. Then nothing has changed.
    pub(crate) fn erase(&mut self, target: Target) -> Result<Change<A>, AllocError>
        ensures ok { OnOk result (self.new ≡ erased target self.old) }
        ensures back { IfOk result (λ c. TakesBack c self.old self.new) }
        ensures err { OnErr result (self.new ≡ self.old) }
    {
        let (from, to) = reach(self.text.as_str(), self.at, target);
        self.splice(from, to, "")
    }

    /// Exchanges the clusters before and behind the cursor, and at the line's end the last two. Returns what takes that back.
    ///
    /// # Errors
    ///
    /// `AllocError` if memory was refused. Then nothing has changed.
    pub(crate) fn exchange(&mut self) -> Result<Change<A>, AllocError>
        ensures ok { OnOk result (self.new ≡ transposed self.old) }
        ensures back { IfOk result (λ c. TakesBack c self.old self.new) }
        ensures err { OnErr result (self.new ≡ self.old) }
    {
        let text = self.text.as_str();
        let middle = meeting(text, self.at);
        let from = place_of(text, middle, Target::Back(Stop::Cluster));
        let to = place_of(text, middle, Target::Forward(Stop::Cluster));
        let mut with = String::from_str(self.text.allocator().clone()?, &text[middle..to])?;
        with.push_str(&text[from..middle])?;
        self.splice(from, to, with.as_str())
    }
}
