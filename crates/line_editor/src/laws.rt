//! Laws of lines and of their editor. None of these functions does anything when it runs: its contract is the law.
ghost use Rattle.std.specs.Prelude.{Bool, List, ℕ};
ghost use Rattle.line_editor.specs.declared.actions.Action.{Action};
ghost use Rattle.line_editor.specs.declared.places.Target.{Target};
ghost use Rattle.line_editor.specs.declared.limits.Limits.{Limits};
ghost use Rattle.line_editor.specs.Bounded.{LoadsSaved, StaysBounded};
ghost use Rattle.line_editor.specs.Laws.{CanBeUndone, ChangesRow, ComesBack, CutsOut, FindsNearest, FindsNewer, FindsPiece, KeepsHistory, KeepsText, RedoesUndone, WritesAt, YanksBack};
ghost use Rattle.line_editor.specs.Names.{NameReadsBack};
ghost use Rattle.line_editor.specs.Seen.{IsSeenIn, KeepsClusters};
ghost use Rattle.line_editor.specs.Splits.{Split};
ghost use Rattle.line_editor.specs.States.{EditorState};
ghost use Rattle.line_editor.specs.Tasks.{Task};

/// A move keeps the text.
pub fn keeps_text()
    ensures { (target : Target) (d : Split) → KeepsText target d }
{}

/// Going into the row above or below keeps the text, and there is such a row exactly if a line feed is on that side of the cursor.
pub fn changes_row()
    ensures { (up : Bool) (d : Split) → ChangesRow up d }
{}

/// An erasure takes one piece out of the text, and the rest of the text stays.
pub fn cuts_out()
    ensures { (target : Target) (d : Split) → CutsOut target d }
{}

/// An inserted text is at the cursor, and the rest of the text stays.
pub fn writes_at()
    ensures { (text : List ℕ) (d : Split) → WritesAt text d }
{}

/// A kill and a yank give the text back, if what was before and what was behind don't become one cluster in between.
pub fn yanks_back()
    ensures { (target : Target) (d : Split) → YanksBack target d }
{}

/// An action keeps the accepted lines.
pub fn keeps_history()
    ensures { (action : Action) (w : EditorState) → KeepsHistory action w }
{}

/// Back in the history and forth again as often, the line is the one that was left.
pub fn comes_back()
    ensures { (n : ℕ) (w : EditorState) → ComesBack n w }
{}

/// After actions for which there are steps enough, some number of undos gives back the text, and all that could be undone before.
pub fn can_be_undone()
    ensures { (actions : List Action) (w : EditorState) → CanBeUndone actions w }
{}

/// A redo gives back what an undo took.
pub fn redoes_undone()
    ensures { (w : EditorState) → RedoesUndone w }
{}

/// A text contains a pattern exactly if the pattern is a piece of it.
pub fn finds_piece()
    ensures { (pattern text : List ℕ) → FindsPiece pattern text }
{}

/// A search back finds the nearest line that is looked for, and nothing if no line is.
pub fn finds_nearest()
    ensures { (is : List ℕ → Bool) (passed : ℕ) (lines : List Split) → FindsNearest is passed lines }
{}

/// A search forward finds the nearest newer line that is looked for, and nothing if no newer line is.
pub fn finds_newer()
    ensures { (is : List ℕ → Bool) (n : ℕ) (lines : List Split) → FindsNewer is n lines }
{}

/// The part of a line that is seen has room in a row, and so has the cursor, at its place in the line.
pub fn fits()
    ensures { (room : ℕ) (d : Split) → IsSeenIn room d }
{}

/// The part of a line that is seen begins and ends between clusters, if the cursor is between clusters.
pub fn keeps_clusters()
    ensures { (room : ℕ) (d : Split) → KeepsClusters room d }
{}

/// The name of an action reads as this action.
pub fn reads_back()
    ensures { (action : Action) → NameReadsBack action }
{}

/// From its beginning on, an editor stays within its limits, whatever is done to it that isn't refused as too long.
pub fn stays_bounded()
    ensures { (limits : Limits) (tasks : List Task) → StaysBounded limits tasks }
{}

/// Loading the text of an editor's history gives this history.
pub fn loads_saved()
    ensures { (w : EditorState) → LoadsSaved w }
{}
