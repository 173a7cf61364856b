//! Lines that are edited: an editor of one line, with the usual actions of GNU readline, undo and a history. A line may have several rows.
//!
//! An `Editor` has a `Line`, a text with a cursor that is never within an extended grapheme cluster (Unicode's UAX 29). An `Action` is done
//! by `Editor::act`. Moves, erasures and kills take a `Target`, the next stop in a direction. `Line::seen` says what is seen of the line in a
//! row. `Editor::turn` takes an event: a key does what `command_of` says, and a paste is pasted. Nothing is read or drawn here.
//!
//! ```
//! let mut editor = Editor::new(alloc, Limits::default())?;
//! editor.paste("two words")?;
//! editor.act(Action::Kill(Target::Back(Stop::WordStart)))?;
//! assert_eq!(rt; editor.line().text(), "two ");
//! ```
//!
//! It is built on `crossterm_types`, for keys and events, and on the crates `unicode_segmentation`, for clusters, and `unicode_width`, for
//! columns. It uses their public contracts, and lemmas that they lend.
//!
//! What is proved, beyond safety:
//!
//! | Proved | By the contract of |
//! |---|---|
//! | what each action makes of an editor, and each refusal by name: a text is refused as too long exactly if it has no room, and nothing has changed; line ends and tabs of a paste are blanks, or line feeds and blanks in a line of several rows, kills side by side are one text, and a ring of kills turns | `Editor::{act, paste}` |
//! | some actions are done one after another, or those before the first that is refused | `Editor::run` |
//! | neither a move nor letting a line go is ever refused | `Editor::{act, let_go}` |
//! | an accepted line has its text, and is the newest of as many lines as the limit says, unless the limits leave it out | `Editor::accept` |
//! | a line's cursor is between clusters, whatever was typed, pasted or erased | `Line::before` |
//! | a line has no control character but line feeds, and none of more than two columns | `Line::{text, before, cut, seen}`, `Editor::accept` |
//! | unless the limits let lines have several rows, no line, kill or search has a line feed | `laws::stays_bounded` |
//! | Up and Down go to the row above or below before they go to the history, and keep the text; there is such a row exactly if a line feed is on that side | `Editor::act`, `command_of`, `laws::changes_row` |
//! | a move keeps the text; what is erased was one piece; what is written is at the cursor; a kill and a yank give the text back | `laws::{keeps_text, cuts_out, writes_at, yanks_back}` |
//! | undo gives back what was there before any actions on a line, as long as the steps suffice, and redo what was undone | `laws::{can_be_undone, redoes_undone}` |
//! | Ctrl-L changes no line, and ends kills side by side | `Editor::turn` |
//! | an action keeps the accepted lines; back in the history and forth again is the line that was left, with its edits and what can be undone of them | `laws::{keeps_history, comes_back}` |
//! | an incremental search finds the nearest line that contains what is looked for, and nothing if none does; what is given up leaves the line that was there | `Editor::turn`, `laws::{finds_nearest, finds_newer, finds_piece}` |
//! | of a line as much is seen as has room, from one place between clusters to another, with the cursor at its place in the line | `Line::seen`, `laws::{fits, keeps_clusters}` |
//! | of a line that nobody is to read nothing is shown, or a star for each character | `Line::masked` |
//! | the text of a history is its lines, the oldest first; a history that is loaded is the last lines of a text that have room; loading what was saved gives the same history | `Editor::{history_text, load_history}`, `laws::loads_saved` |
//! | a line that is appended by itself has the text that it has in a history's | `Editor::saved_line` |
//! | a line has no more bytes than its limit, the history no more lines and undo no more steps for each line; no more lines are kept for others than the history has; whatever is done that isn't refused | `laws::stays_bounded` |
//! | a key asks for what the table of GNU readline's keys says | `command_of` |
//! | what reads as the name of an action, and that an action's name reads as this action | `Action::from_name`, `Display` of `Action`; `laws::reads_back` |
//! | the lines that come out of any events are those of their turns, one after another; a refusal leaves the turns before it | `Editor::{turn, turns}` |
//! | as an `io::Error`, refused memory has the kind `OutOfMemory`, and a text that is too long `InvalidInput` | `From<EditFault>` of `io::Error` |
//!
//! What to believe, in the order in which it reads (`specs/`), and the contracts that it is proved by:
//!
//! | Definitions | Of | Contract |
//! |---|---|---|
//! | `Splits` | a line as what is before its cursor and what is behind | `Line` |
//! | `Words` | the characters of words, and white space | |
//! | `Places` | the places to which a cursor goes | |
//! | `Edits` | what is inserted, erased and transposed | |
//! | `Recent` | lists of lines, the newest first | |
//! | `Kills` | the texts that were killed, and the ring in which they are yanked | |
//! | `Shown` | the characters that a line has, and those of a paste | `Line::text`, `Editor::paste` |
//! | `Rows` | the rows of a line, and the place in the row above or below | `Editor::act`, `laws::changes_row` |
//! | `Cases` | words in capitals and in small letters | |
//! | `States` | an editor's state, and what each action makes of it | `Editor` |
//! | `Bounds` | which texts have room, and what is refused | `Editor::{act, run, paste}` |
//! | `Seeking` | incremental searches | `Editor::{pattern, turn}` |
//! | `History` | a history as a text, and the history that a text holds | `Editor::{history_text, saved_line, load_history}` |
//! | `Tasks` | what is done to an editor by its calls | `laws::stays_bounded` |
//! | `Bounded` | what is true of an editor, whatever was done to it | `laws::{stays_bounded, loads_saved}` |
//! | `Keys` | the keys of GNU readline, and what each asks for | `command_of` |
//! | `Turns` | what an editor makes of events, and the lines that come out | `Editor::{turn, turns}` |
//! | `Names` | the names of actions, and what reads as one | `Action::from_name`, `Display` of `Target` and `Action`; `laws::reads_back` |
//! | `Laws` | what edits keep | `laws` |
//! | `Views` | what is seen of a line in a row | `Line::seen` |
//! | `Seen` | what is true of what is seen | `Line::seen`, `laws::{fits, keeps_clusters}` |
//! | `Masks` | what is shown of a line that nobody is to read | `Line::masked` |
//!
//! `specs/inside/` says the same of a part, and no public clause cites it.
//!
//! A function's proof is in `proofs/` at the function's path; if there is no file, the prover found it by itself.
#![tactic(auto)]

mod actions;
mod cases;
mod changes;
mod draft;
mod editor;
mod fault;
mod history;
mod keys;
mod kills;
mod last;
pub mod laws;
mod left;
mod limits;
mod lines;
mod masks;
mod moves;
mod names;
mod outcome;
mod places;
mod recent;
mod rows;
mod seeking;
mod shown;
mod texts;
mod turns;
mod views;
mod words;

pub use actions::{Action, Case};
pub use editor::Editor;
pub use fault::EditFault;
pub use keys::{KeyCommand, command_of};
pub use limits::Limits;
pub use lines::Line;
pub use masks::Mask;
pub use outcome::Outcome;
pub use places::{Stop, Target};
