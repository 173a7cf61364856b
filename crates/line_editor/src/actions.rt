//! The actions of a line editor.

use crate::places::Target;

/// One thing that an editor does. The names of GNU readline's commands are in brackets.
///
/// ```
/// editor.act(Action::Insert('x'))?;
/// editor.act(Action::Go(Target::Back(Stop::Edge)))?;
/// ```
#[derive(Clone, Copy, PartialEq, Eq, Debug)]
pub enum Action {
    /// Types a character at the cursor (`self-insert`). A control character, or one of more than two columns, isn't typed; a line feed is if
    /// `Limits::multiline` says so.
    Insert(char),
    /// Brings the cursor to a target (`backward-char`, `forward-word`, `end-of-line` and others).
    Go(Target),
    /// Erases what is between the cursor and a target (`backward-delete-char`, `delete-char`).
    Erase(Target),
    /// Erases it, and keeps it for a yank (`kill-line`, `backward-kill-word` and others). Kills side by side are one text, in the order of the
    /// line.
    Kill(Target),
    /// Writes the text that was killed last, or to which the ring was turned (`yank`).
    Yank,
    /// Puts the next kill of the ring, an older one, in the place of the text that was yanked just before (`yank-pop`). Behind the oldest
    /// kill comes the newest. A further yank writes the same kill, and a further kill becomes the newest.
    YankPop,
    /// Exchanges the clusters before and behind the cursor, and the last two at a line's end (`transpose-chars`).
    Transpose,
    /// Brings back the line before the last change (`undo`). Characters that were typed side by side are one change. Each line of the history
    /// has its own changes, and going to another line is none.
    Undo,
    /// Brings back the line that was undone last.
    Redo,
    /// Shows the next older accepted line, with its edits since the last line was accepted (`previous-history`).
    Older,
    /// Shows the next newer one, and at last the line that was left (`next-history`).
    Newer,
    /// Brings the cursor into the row above, to its column or the row's end, and in the first row is as `Older`.
    RowUp,
    /// Brings it into the row below, and in the last row is as `Newer`.
    RowDown,
    /// Shows the next older accepted line that begins with the text before the cursor and differs from the line (`history-search-backward`).
    /// If nothing is before the cursor, any line is found, with the cursor at its end, and the next search goes on so.
    Search,
    /// Shows the next newer one of these lines (`history-search-forward`). If nothing is before the cursor, it is as `Newer`.
    SearchForward,
    /// Brings what is between the cursor and the next end of a word into a case, and the cursor behind it (`upcase-word`,
    /// `downcase-word`, `capitalize-word`). A letter whose other case isn't one letter stays, as the German sharp s.
    CaseWord(Case),
    /// Exchanges the word that ends next behind the cursor with the word before it, and brings the cursor behind them (`transpose-words`).
    TransposeWords,
    /// Erases the white space around the cursor (`delete-horizontal-space`).
    EraseBlanks,
    /// Writes the last word of the accepted line before this one, words being what is between white space (`yank-last-arg`). Just behind
    /// such a word it puts that of the next older line in its place, and behind the oldest line takes it out.
    LastWord,
}

/// The case of a word.
#[derive(Clone, Copy, PartialEq, Eq, Debug)]
pub enum Case {
    /// Capitals.
    Upper,
    /// Small letters.
    Lower,
    /// A capital for the first letter, and small letters behind it.
    Title,
}
