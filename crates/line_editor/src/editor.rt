//! An editor of a line, an action at a time.
ghost use Rattle.std.specs.Prelude.{◌≡◌, ◌≤◌, false, List, [], ◌∷◌, ◌++◌, IfErr, IfOk, IsOk, MatchOption, None, Some, OnOk, OnErr, encode_utf8_all};
ghost use Rattle.std.specs.Str.{chars, IsCharBoundary};
ghost use Rattle.std.specs.String.{string_bytes};
ghost use Rattle.line_editor.specs.declared.actions.Action.{Action};
ghost use Rattle.line_editor.specs.declared.fault.EditFault.TheVariants.{Memory};
ghost use Rattle.unicode_segmentation.specs.Segments.{chars_before};
ghost use Rattle.line_editor.specs.Bounds.{AreAllowed, StopsAt, is_too_long, more_by, popped_more, refusal_of, room_of, size};
ghost use Rattle.line_editor.specs.Edits.{cut_text, inserted, meeting};
ghost use Rattle.line_editor.specs.History.{line_saved, loaded, saved};
ghost use Rattle.line_editor.specs.Kills.{kept_by, kill_text};
ghost use Rattle.line_editor.specs.Places.{target_place};
ghost use Rattle.line_editor.specs.Shown.{AreRows, pasted_part};
ghost use Rattle.line_editor.specs.Splits.{bytes_before, line_text};
ghost use Rattle.line_editor.specs.inside.Changes.{line_bytes};
ghost use Rattle.line_editor.specs.States.{IsMove, accepted, acted, after, before_yank, broken_off, dropped, erase_cut, fresh, is_ignored, kill_cut, last_after, last_popped, moved, next_yank, no_search, pasted_into, popped_to, redo_to, remembered, run_actions, transpose_at, type_char, after_typing, undo_to, write, yanked};

use crate::actions::Action;
use crate::draft::Draft;
use crate::fault::EditFault;
use crate::history::{history_of, saved, saved_line};
use crate::kills::{keep, kill_at, next_place};
use crate::last::{Last, rung};
use crate::left::Left;
use crate::limits::Limits;
use crate::lines::Line;
use crate::places::{Stop, Target};
use crate::recent::RecentLines;
use crate::shown::{comes_in, pasted, pasted_len};
use crate::texts::{begins_with_space, is_nothing, joined};
use std::alloc::{AllocError, Allocator, Global};
use std::collections::VecDeque;
use std::marker::Model;

/// An editor of one line, with the texts that were killed, the changes that can be undone, and the history of accepted lines.
///
/// A line of the history can be edited too. It keeps its edits, and what can be undone of them, while other lines are shown, until a line is
/// accepted or let go.
///
/// ```
/// let mut editor = Editor::new(alloc, Limits::default())?;
/// editor.paste("two words")?;
/// editor.act(Action::Kill(Target::Back(Stop::WordStart)))?;
/// assert_eq!(rt; editor.line().text(), "two ");
/// ```
#[derive(Drop)]
pub struct Editor<A: Allocator = Global> {
    pub(crate) alloc: A,
    pub(crate) limits: Limits,
    pub(crate) draft: Draft<A>,
    kills: VecDeque<String<A>, A>,
    // How many kills are newer than the one that a yank writes.
    yank_at: usize,
    pub(crate) history: RecentLines<A>,
    pub(crate) back: usize,
    // The lines that were left for others, the last one first.
    pub(crate) left: VecDeque<Left<A>, A>,
    // What an incremental search looks for, and the line from which it began with its place in the history.
    pub(crate) pattern: Line<A>,
    pub(crate) began: Line<A>,
    pub(crate) began_back: usize,
    // What the last action was.
    pub(crate) last: Last,
}

impl<A: Allocator> Model for Editor<A> {
    ghost use Rattle.line_editor.specs.Kills.{texts};
    ghost use Rattle.line_editor.specs.States.{EditorState};

    ghost Value = { EditorState };

    ghost view = { λ e. record {
      limits = e.limits;
      line = e.draft.line;
      kills = texts e.kills.items;
      yank_at = e.yank_at;
      past = e.draft.past;
      undone = e.draft.undone;
      history = e.history;
      back = e.back;
      left = e.left.items;
      search = record { pattern = e.pattern; line = e.began; back = e.began_back };
      typing = e.draft.typing;
      last = e.last;
    } };

    ghost use Rattle.std.specs.List.{AllByRecursion};
    ghost use Rattle.line_editor.specs.Shown.{AreRows};

    ghost invariant = { λ e. AllByRecursion AreRows (texts e.kills.items) };
}

/// An editor with nothing written.
fn started<A: Allocator + Clone>(alloc: A, limits: Limits) -> Result<Editor<A>, AllocError>
    ensures { IfOk result (λ editor. editor ≡ fresh limits) }
{
    Ok(Editor {
        limits,
        draft: Draft::new(Line::new(alloc.clone()?), alloc.clone()?, alloc.clone()?),
        kills: VecDeque::new(alloc.clone()?),
        yank_at: 0,
        history: RecentLines::new(alloc.clone()?),
        back: 0,
        left: VecDeque::new(alloc.clone()?),
        pattern: Line::new(alloc.clone()?),
        began: Line::new(alloc.clone()?),
        began_back: 0,
        last: Last::Other,
        alloc,
    })
}

impl<A: Allocator> Editor<A> {
    /// The line.
    ///
    /// ```
    /// let text = editor.line().text();
    /// ```
    pub fn line(&self) -> &Line<A>
        ensures { result.now ≡ self.now.line }
    {
        self.draft.line()
    }

    /// The bounds of the line, the history and the changes that can be undone.
    ///
    /// ```
    /// assert_eq!(rt; editor.limits(), Limits::default());
    /// ```
    pub fn limits(&self) -> Limits
        ensures { result ≡ self.now.limits }
    {
        self.limits
    }

    /// The bytes that have room in the line.
    fn room(&self) -> usize
        ensures { result ≡ room_of self.now }
    {
        self.limits
            .bytes
            .saturating_sub(self.draft.line().text().len())
    }

    /// The text that a yank writes.
    fn yanked(&self) -> &str
        ensures text { chars result.now ≡ yanked self.now }
        ensures shown { AreRows (chars result.now) }
    {
        kill_at(&self.kills, self.yank_at)
    }

    /// The place of the kill that follows in the ring.
    fn next_yank(&self) -> usize
        ensures { result ≡ next_yank self.now }
    {
        next_place(self.yank_at, self.kills.len())
    }

    /// The place before the text that was yanked last, if the text is before the cursor.
    fn before_yank(&self) -> Option<usize>
        ensures { MatchOption result (before_yank self.now ≡ None)
            (λ place. (place ≤ bytes_before self.now.line) × IsCharBoundary (line_bytes self.now.line) place
            × (before_yank self.now ≡ Some (chars_before (line_bytes self.now.line) place))) }
    {
        match self.last {
            Last::Yanked => self.draft.line().place_before(self.yanked()),
            Last::Other | Last::Walked | Last::Killed | Last::Took(_) | Last::Seeking(_) => None,
        }
    }

    /// How many more bytes the line has after a turn of the ring.
    fn popped_more(&self) -> usize
        ensures { result ≡ popped_more (before_yank self.now) self.now }
    {
        match self.before_yank() {
            None => 0,
            Some(_) => {
                let next = kill_at(&self.kills, self.next_yank());
                next.len().saturating_sub(self.yanked().len())
            }
        }
    }

    /// Whether what an action writes has no room.
    fn is_too_long(&self, action: Action) -> bool
        ensures { result ≡ is_too_long (more_by action self.now) self.now }
    {
        match action {
            Action::Insert(c) => comes_in(self.limits.multiline, c) && self.room() < c.len_utf8(),
            Action::Yank => self.room() < self.yanked().len(),
            Action::YankPop => self.room() < self.popped_more(),
            Action::CaseWord(case) => (self.room() as u128) < self.cased_more(case),
            Action::LastWord => self.room() < self.taken_more(),
            Action::Go(_)
            | Action::Erase(_)
            | Action::Kill(_)
            | Action::Transpose
            | Action::Undo
            | Action::Redo
            | Action::Older
            | Action::Newer
            | Action::RowUp
            | Action::RowDown
            | Action::Search
            | Action::SearchForward
            | Action::TransposeWords
            | Action::EraseBlanks => false,
        }
    }

    /// Lets go of what a search looked for, and of the line from which it began.
    fn end_search(&mut self)
        ensures { self.new ≡ record self.old { search = no_search } }
    {
        self.pattern.clear();
        self.began.clear();
        self.began_back = 0;
    }

    /// Lets the line go, and an empty one begins. The history and the kills stay. This takes no memory.
    ///
    /// ```
    /// editor.let_go();
    /// assert_eq!(rt; editor.line().text(), "");
    /// ```
    pub fn let_go(&mut self)
        ensures { self.new ≡ dropped self.old }
    {
        self.draft.clear();
        self.left.clear();
        self.end_search();
        self.back = 0;
        self.last = Last::Other;
    }

    /// The next action goes on with nothing.
    pub(crate) fn break_off(&mut self)
        ensures { self.new ≡ broken_off self.old }
    {
        self.last = Last::Other;
    }

    /// Whether the line isn't remembered if it is accepted.
    fn is_ignored(&self) -> bool
        ensures { result ≡ is_ignored self.now.limits (line_text self.now.line) self.now.history }
    {
        let text = self.draft.line().text();
        is_nothing(text)
            || self.limits.ignore_space && begins_with_space(text)
            || self.limits.ignore_dups && self.history.is_newest(text)
    }
}

impl<A: Allocator + Clone> Editor<A> {
    /// An editor with an empty line and nothing before it.
    ///
    /// # Errors
    ///
    /// `Memory` if memory was refused.
    ///
    /// ```
    /// let mut editor = Editor::new(alloc, Limits { lines: 50, ..Limits::default() })?;
    /// ```
    pub fn new(alloc: A, limits: Limits) -> Result<Editor<A>, EditFault>
        ensures ok { IfOk result (λ editor. editor ≡ fresh limits) }
        ensures fault { IfErr result (λ fault. fault ≡ Memory) }
    {
        match started(alloc, limits) {
            Ok(editor) => Ok(editor),
            Err(_) => Err(EditFault::Memory),
        }
    }

    /// Types a text. The line isn't copied if a character was typed just before.
    fn type_text(&mut self, text: &str) -> Result<(), AllocError>
        requires { AreRows (chars text.now) }
        ensures ok { OnOk result (self.new ≡ after_typing (inserted (chars text.now) self.old.line) self.old) }
        ensures err { OnErr result (self.new ≡ self.old) }
    {
        self.draft.type_text(text, self.limits.steps)?;
        Ok(())
    }

    /// Types a character.
    fn type_char(&mut self, c: char) -> Result<(), AllocError>
        ensures ok { OnOk result (self.new ≡ type_char c self.old) }
        ensures err { OnErr result (self.new ≡ self.old) }
    {
        if !comes_in(self.limits.multiline, c) {
            return Ok(());
        }
        let mut utf8 = [0u8; 4];
        self.type_text(c.encode_utf8(&mut utf8))
    }

    /// Brings the cursor to a target.
    fn go(&mut self, target: Target)
        ensures { self.new ≡ moved (target_place target self.old.line) self.old }
    {
        self.draft.go(target);
    }

    /// Erases what a target reaches.
    fn erase(&mut self, target: Target) -> Result<(), AllocError>
        ensures ok { OnOk result (self.new ≡ erase_cut (cut_text target self.old.line) target self.old) }
        ensures err { OnErr result (self.new ≡ self.old) }
    {
        if is_nothing(self.draft.line().cut(target)) {
            return Ok(());
        }
        self.draft.erase(target, self.limits.steps)?;
        Ok(())
    }

    /// The text to which that of a kill is joined.
    fn kept(&self) -> &str
        ensures text { chars result.now ≡ kept_by self.now.last self.now.kills }
        ensures shown { AreRows (chars result.now) }
    {
        match self.last {
            Last::Killed => kill_at(&self.kills, 0),
            Last::Other => "",
            Last::Walked => "",
            Last::Yanked => "",
            Last::Took(_) => "",
            Last::Seeking(_) => "",
        }
    }

    /// The text that a kill keeps.
    fn killed_by(&self, target: Target) -> Result<String<A>, AllocError>
        ensures text { IfOk result (λ killed. chars (string_bytes killed) ≡ kill_text target (cut_text target self.now.line) (kept_by self.now.last self.now.kills)) }
        ensures shown { IfOk result (λ killed. AreRows (chars (string_bytes killed))) }
    {
        let kept = self.kept();
        let text = self.draft.line().cut(target);
        match target {
            Target::Back(_) => joined(self.alloc.clone()?, text, kept),
            Target::Forward(_) => joined(self.alloc.clone()?, kept, text),
        }
    }

    /// Erases what a target reaches, and keeps it as the newest kill.
    fn kill(&mut self, target: Target) -> Result<(), AllocError>
        ensures ok { OnOk result (self.new ≡ kill_cut (cut_text target self.old.line) target self.old) }
        ensures err { OnErr result (self.new ≡ self.old) }
    {
        if is_nothing(self.draft.line().cut(target)) {
            return Ok(());
        }
        let killed = self.killed_by(target)?;
        self.kills.reserve(1)?;
        self.draft.erase(target, self.limits.steps)?;
        keep(&mut self.kills, killed, self.last, self.limits.kills);
        self.yank_at = 0;
        Ok(())
    }

    /// Writes the kill at the ring's place.
    fn yank(&mut self) -> Result<(), AllocError>
        ensures ok { OnOk result (self.new ≡ write (yanked self.old) self.old) }
        ensures err { OnErr result (self.new ≡ self.old) }
    {
        let text = kill_at(&self.kills, self.yank_at);
        if is_nothing(text) {
            return Ok(());
        }
        self.draft.put(text, self.limits.steps)?;
        Ok(())
    }

    /// Puts the next kill of the ring in place of the yanked one.
    fn yank_pop(&mut self) -> Result<(), AllocError>
        ensures ok { OnOk result (self.new ≡ popped_to (before_yank self.old) self.old) }
        ensures err { OnErr result (self.new ≡ self.old) }
    {
        match self.before_yank() {
            None => Ok(()),
            Some(from) => {
                let next = self.next_yank();
                let to = self.draft.line().at();
                let text = kill_at(&self.kills, next);
                self.draft.replace(from, to, text, self.limits.steps)?;
                self.yank_at = next;
                Ok(())
            }
        }
    }

    /// Transposes two clusters, if there are two.
    fn transpose(&mut self) -> Result<(), AllocError>
        ensures ok { OnOk result (self.new ≡ transpose_at (meeting self.old.line.before self.old.line.after).before self.old) }
        ensures err { OnErr result (self.new ≡ self.old) }
    {
        if !self.draft.line().has_two() {
            return Ok(());
        }
        self.draft.exchange(self.limits.steps)?;
        Ok(())
    }

    /// Brings back the newest line of the past.
    fn undo(&mut self) -> Result<(), AllocError>
        ensures ok { OnOk result (self.new ≡ undo_to self.old.past self.old) }
        ensures err { OnErr result (self.new ≡ self.old) }
    {
        self.draft.undo()?;
        Ok(())
    }

    /// Brings back the line that was undone last.
    fn redo(&mut self) -> Result<(), AllocError>
        ensures ok { OnOk result (self.new ≡ redo_to self.old.undone self.old) }
        ensures err { OnErr result (self.new ≡ self.old) }
    {
        self.draft.redo()?;
        Ok(())
    }

    /// Does one thing for which there is room, but for what it is to the next one.
    fn edit(&mut self, action: Action) -> Result<(), AllocError>
        ensures ok { OnOk result (self.new ≡ acted action self.old) }
        ensures err { OnErr result (self.new ≡ self.old) }
        ensures free { IsMove action → IsOk result }
    {
        match action {
            Action::Insert(c) => self.type_char(c),
            Action::Go(target) => {
                self.go(target);
                Ok(())
            }
            Action::Erase(target) => self.erase(target),
            Action::Kill(target) => self.kill(target),
            Action::Yank => self.yank(),
            Action::YankPop => self.yank_pop(),
            Action::Transpose => self.transpose(),
            Action::Undo => self.undo(),
            Action::Redo => self.redo(),
            Action::Older => self.older(),
            Action::Newer => self.newer(),
            Action::RowUp => self.row_up(),
            Action::RowDown => self.row_down(),
            Action::Search => self.search(),
            Action::SearchForward => self.search_forward(),
            Action::CaseWord(case) => self.case_word(case),
            Action::TransposeWords => self.transpose_words(),
            Action::EraseBlanks => self.erase_blanks(),
            Action::LastWord => self.take_word(),
        }
    }

    /// The kind of last action that a turn of the ring is to the next one.
    fn last_popped(&self) -> Last
        ensures { result ≡ last_popped (before_yank self.now) self.now.last }
    {
        match self.before_yank() {
            Some(_) => Last::Yanked,
            None => rung(self.last),
        }
    }

    /// The kind of last action that an action is to the next one.
    fn last_after(&self, action: Action) -> Last
        ensures { result ≡ last_after action self.now }
    {
        match action {
            Action::Search if is_nothing(self.sought()) => Last::Walked,
            Action::SearchForward if is_nothing(self.sought()) => Last::Walked,
            Action::Kill(target) if !is_nothing(self.draft.line().cut(target)) => Last::Killed,
            Action::Yank if !is_nothing(self.yanked()) => Last::Yanked,
            Action::YankPop => self.last_popped(),
            Action::LastWord => Last::Took(self.next_taken()),
            _ => Last::Other,
        }
    }

    /// Does one thing for which there is room.
    fn perform(&mut self, action: Action) -> Result<(), AllocError>
        ensures ok { OnOk result (self.new ≡ after action self.old) }
        ensures err { OnErr result (self.new ≡ self.old) }
        ensures free { IsMove action → IsOk result }
    {
        let last = self.last_after(action);
        match self.edit(action) {
            Ok(()) => {
                self.last = last;
                Ok(())
            }
            Err(error) => Err(error),
        }
    }

    /// Does one thing. A move is never refused.
    ///
    /// # Errors
    ///
    /// `TooLong` if what is typed or yanked, or a word in another case, has no room in the line, and else `Memory` if memory was refused. Then
    /// nothing has changed.
    ///
    /// ```
    /// editor.act(Action::Insert('x'))?;
    /// editor.act(Action::Undo)?;
    /// ```
    pub fn act(&mut self, action: Action) -> Result<(), EditFault>
        ensures ok { OnOk result (self.new ≡ after action self.old) }
        ensures room { OnOk result (is_too_long (more_by action self.old) self.old ≡ false) }
        ensures err { OnErr result (self.new ≡ self.old) }
        ensures fault { IfErr result (λ fault. fault ≡ refusal_of (more_by action self.old) self.old) }
        ensures free { IsMove action → IsOk result }
    {
        if self.is_too_long(action) {
            return Err(EditFault::TooLong);
        }
        match self.perform(action) {
            Ok(()) => Ok(()),
            Err(_) => Err(EditFault::Memory),
        }
    }

    /// Does some things, one after another.
    ///
    /// # Errors
    ///
    /// `TooLong` or `Memory` if one of them was refused so, as by `act`. Then those before it were done, and nothing else.
    ///
    /// ```
    /// editor.run(&[Action::Insert('a'), Action::Insert('b')])?;
    /// ```
    pub fn run(&mut self, actions: &[Action]) -> Result<(), EditFault>
        ensures ok { OnOk result (self.new ≡ run_actions actions.now self.old) }
        ensures room { OnOk result (AreAllowed actions.now self.old) }
        ensures err { IfErr result (λ fault. StopsAt fault actions.now self.old self.new) }
    {
        for action in actions {
            self.act(*action)?;
        }
        Ok(())
    }

    /// Writes what of a text comes into a line.
    fn write_pasted(&mut self, text: &str) -> Result<(), AllocError>
        ensures ok { OnOk result (self.new ≡ write (pasted_part self.old.limits.multiline (chars text.now)) self.old) }
        ensures err { OnErr result (self.new ≡ self.old) }
    {
        let text = pasted(self.alloc.clone()?, self.limits.multiline, text)?;
        if is_nothing(text.as_str()) {
            return Ok(());
        }
        self.draft.put(text.as_str(), self.limits.steps)?;
        Ok(())
    }

    /// Writes a text at the cursor, as one change (`bracketed-paste-begin`).
    ///
    /// In a line of one row each run of line feeds, carriage returns and tabs becomes one blank, and a run at the text's end is left out. In
    /// one of several rows (`Limits::multiline`) each line end becomes a line feed and each tab a blank. Other control characters, and
    /// characters of more than two columns, are left out.
    ///
    /// # Errors
    ///
    /// `TooLong` if what is left of the text has no room in the line, and else `Memory` if memory was refused. Then nothing has changed.
    ///
    /// ```
    /// editor.paste("cd /tmp\nls\t-l\n")?;
    /// assert_eq!(rt; editor.line().text(), "cd /tmp ls -l");
    /// ```
    pub fn paste(&mut self, text: &str) -> Result<(), EditFault>
        ensures ok { OnOk result (self.new ≡ pasted_into (chars text.now) self.old) }
        ensures room { OnOk result (is_too_long (size (pasted_part self.old.limits.multiline (chars text.now))) self.old ≡ false) }
        ensures err { OnErr result (self.new ≡ self.old) }
        ensures fault { IfErr result (λ fault. fault ≡ refusal_of (size (pasted_part self.old.limits.multiline (chars text.now))) self.old) }
    {
        if self.room() < pasted_len(self.limits.multiline, text) {
            return Err(EditFault::TooLong);
        }
        match self.write_pasted(text) {
            Ok(()) => {
                self.last = Last::Other;
                Ok(())
            }
            Err(_) => Err(EditFault::Memory),
        }
    }

    /// The line becomes the newest of the history, unless it is ignored.
    fn remember(&mut self) -> Result<(), AllocError>
        ensures ok { OnOk result (self.new ≡ record self.old { history = remembered self.old.limits self.old.line (line_text self.old.line) self.old.history }) }
        ensures err { OnErr result (self.new ≡ self.old) }
    {
        if self.is_ignored() {
            return Ok(());
        }
        let mut line = self.draft.line().copy()?;
        line.go(Target::Forward(Stop::Edge));
        self.history.add(line, self.limits.lines)
    }

    /// The line's text. The line is remembered, and let go.
    fn accepted_text(&mut self) -> Result<String<A>, AllocError>
        ensures text { IfOk result (λ text. chars (string_bytes text) ≡ line_text self.old.line) }
        ensures shown { IfOk result (λ text. AreRows (chars (string_bytes text))) }
        ensures ok { OnOk result (self.new ≡ accepted self.old) }
        ensures err { OnErr result (self.new ≡ self.old) }
    {
        let text = String::from_str(self.alloc.clone()?, self.draft.line().text())?;
        self.remember()?;
        self.let_go();
        Ok(text)
    }

    /// Accepts the line, and returns its text (`accept-line`). It becomes the newest of the history, unless it is empty or the limits
    /// leave it out, and an empty line begins.
    ///
    /// # Errors
    ///
    /// `Memory` if memory was refused. Then nothing has changed.
    ///
    /// ```
    /// let text = editor.accept()?;
    /// ```
    pub fn accept(&mut self) -> Result<String<A>, EditFault>
        ensures text { IfOk result (λ text. chars (string_bytes text) ≡ line_text self.old.line) }
        ensures shown { IfOk result (λ text. AreRows (chars (string_bytes text))) }
        ensures ok { OnOk result (self.new ≡ accepted self.old) }
        ensures err { OnErr result (self.new ≡ self.old) }
        ensures fault { IfErr result (λ fault. fault ≡ Memory) }
    {
        match self.accepted_text() {
            Ok(text) => Ok(text),
            Err(_) => Err(EditFault::Memory),
        }
    }

    /// The text of the history: the accepted lines, the oldest first, with a line feed behind each. Loading it gives the same history.
    ///
    /// If lines may have several rows (`Limits::multiline`), a line feed within a line is `\n` in the text, and a backslash `\\`.
    ///
    /// # Errors
    ///
    /// `Memory` if memory was refused.
    ///
    /// ```
    /// let text = editor.history_text()?;
    /// other.load_history(text.as_str())?;
    /// ```
    pub fn history_text(&self) -> Result<String<A>, EditFault>
        ensures text { IfOk result (λ text. chars (string_bytes text) ≡ saved self.now.limits.multiline self.now.history) }
        ensures fault { IfErr result (λ fault. fault ≡ Memory) }
    {
        let alloc = match self.alloc.clone() {
            Ok(alloc) => alloc,
            Err(_) => return Err(EditFault::Memory),
        };
        match saved(alloc, self.limits.multiline, &self.history) {
            Ok(text) => Ok(text),
            Err(_) => Err(EditFault::Memory),
        }
    }

    /// The text of one line in the text of a history, with its line feed, for who appends each line as it is accepted. `history_text` is
    /// these texts of the accepted lines, one after another.
    ///
    /// If lines may have several rows (`Limits::multiline`), it is escaped as `history_text` says.
    ///
    /// # Errors
    ///
    /// `Memory` if memory was refused.
    ///
    /// ```
    /// assert_eq!(rt; editor.saved_line("two words")?.as_str(), "two words\n");
    /// ```
    pub fn saved_line(&self, line: &str) -> Result<String<A>, EditFault>
        ensures text { IfOk result (λ text. chars (string_bytes text) ≡ line_saved self.now.limits.multiline (chars line.now) ++ 10 ∷ []) }
        ensures bytes { IfOk result (λ text. string_bytes text ≡ encode_utf8_all (line_saved self.now.limits.multiline (chars line.now) ++ 10 ∷ [])) }
        ensures fault { IfErr result (λ fault. fault ≡ Memory) }
    {
        let alloc = match self.alloc.clone() {
            Ok(alloc) => alloc,
            Err(_) => return Err(EditFault::Memory),
        };
        match saved_line(alloc, self.limits.multiline, line) {
            Ok(text) => Ok(text),
            Err(_) => Err(EditFault::Memory),
        }
    }

    /// Takes the history from a text, a line a line, the oldest first. The line stays as it is, and a search ends.
    ///
    /// Of each line the characters are taken that `paste` takes. Empty lines, and lines of more bytes than the limit, are left out. Of too
    /// many lines the last ones are taken. If lines may have several rows (`Limits::multiline`), `\n` is read as a line feed and `\\` as a
    /// backslash, and before any other character a backslash is one.
    ///
    /// # Errors
    ///
    /// `Memory` if memory was refused. Then nothing has changed.
    ///
    /// ```
    /// editor.load_history("first\nsecond\n")?;
    /// editor.act(Action::Older)?;
    /// assert_eq!(rt; editor.line().text(), "second");
    /// ```
    pub fn load_history(&mut self, text: &str) -> Result<(), EditFault>
        ensures ok { OnOk result (self.new ≡ loaded (chars text.now) self.old) }
        ensures err { OnErr result (self.new ≡ self.old) }
        ensures fault { IfErr result (λ fault. fault ≡ Memory) }
    {
        match history_of(&self.alloc, self.limits, text) {
            Ok(history) => {
                self.history = history;
                self.back = 0;
                self.left.clear();
                self.end_search();
                self.last = Last::Other;
                Ok(())
            }
            Err(_) => Err(EditFault::Memory),
        }
    }
}
