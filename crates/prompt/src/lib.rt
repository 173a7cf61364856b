//! Asks for a line in a terminal, with a prompt and the usual keys of GNU readline.
//!
//! `read_line` shows a prompt in the cursor's row, and behind it a line that a `line_editor::Editor` edits, until the line is accepted, let go or
//! closed. It reads the events of an `own_terminal::Session`, and writes to the session's writer. The editor is the caller's: it keeps the history,
//! the killed text and a line that isn't finished from one call to the next.
//!
//! ```
//! fn ask_all(rt: &impl Wait, tty: &mut Tty<'_>) -> io::Result<()> {
//!     let mut editor = Editor::new(tty.alloc, Limits::default())?;
//!     for _ in rt.forever() {
//!         match read_line(rt, tty, &mut editor, "> ")? {
//!             Read::Line(text) => write!(tty.out, "{text}\r\n")?,
//!             Read::Interrupted | Read::Closed => break,
//!         }
//!     }
//!     Ok(())
//! }
//! ```
//!
//! A `Prompt` has more: parts in styles of their own, and a `Helper`, which completes the line at Tab, lists candidates below it at a second Tab, and
//! shows a hint behind it. `Words` is one that completes the word before the cursor by names. `Prompt::read_hidden` asks for a password. A
//! `Printer` prints texts of other threads above the line. A `HistoryFile` keeps the accepted lines from one run to the next.
//!
//! The line takes as many rows as it needs, of all columns of the window but the last. If it needs more rows than the window has, it scrolls, with
//! the cursor in sight. A row begins at each line feed. `Prompt::in_one_row` is for one row, through which the line is seen as `Line::seen` says. A
//! key writes what it changes: a letter that is typed at the line's end is one byte. That relies on the cursor's column after the last frame, so
//! nothing else but by a `Printer` is written to the terminal while a line is read. A character that no cell of `screen` can hold, as a joiner of emoji, is shown as
//! U+FFFD.
//!
//! Ctrl-L clears the window, and draws the line at its top. After a resize the line is drawn anew in its place. The terminal is asked for
//! the cursor's place, since a narrower window may have wrapped the rows. One that doesn't answer isn't asked again in that call; then what was
//! wrapped stays above.
//!
//! It is built on `own_terminal`, `line_editor` and `screen`, by their public contracts, and on the crate `unicode_width` for columns.
//!
//! What is proved, beyond safety:
//!
//! | Proved | By the contract of |
//! |---|---|
//! | each event that was read is given to the editor, once and in order; the line goes on until one is answered otherwise, and what is returned is the answer to that one | `read_line` |
//! | the same of a prompt with a helper: Tab without a modifier is a paste of the text that completes the line, if there is one, and any other event is itself | `Prompt::read_line` |
//! | a question for the cursor's place takes no event from the editor, and changes no line | `Prompt::read_line`, `read_line` |
//! | a text that is too long changes nothing, and the line goes on | `Prompt::read_line`, `read_line` |
//! | an error leaves the editor with all events that were read, but one for which memory was refused, whose text has room; a fault of the read is the one that is returned | `Prompt::read_line`, `read_line` |
//! | no error comes once a line has ended, so that no accepted line is lost by one | `Prompt::read_line`, `read_line` |
//! | a prompt with a control character is refused, and nothing was done; with one no line is returned | `Prompt::read_line`, `read_line` |
//! | raw mode is on after a line, and stays on; the session's features stay as they are | `Prompt::read_line`, `read_line` |
//! | the lines of several calls are those of all events that were read for them, but for those whose texts are too long | `laws::gives_lines` |
//! | all that is written for a line is a list of pieces. A frame of the line follows each event that was taken, before the next one is read; an event that clears the window does so first. The bell rings at a text that is too long, and behind the frame at a search that finds nothing. After a resize comes an erasure from the first row on, or from above it, and before that at most the question for the cursor's place, if the prompt asks. Once the line has ended the rows are left once, as far as the writer goes | `Prompt::read_line`, `read_line` |
//! | after an error a beginning of such a list was written, for the events that the editor took | `Prompt::read_line`, `read_line` |
//! | a text of another thread is printed between two frames, if the prompt has a printer: in the rows' place, in whole lines. A frame of the line follows it. No wait for an event takes one, and none changes the line | `Prompt::{read_line, read_hidden}` |
//! | a share of a printer prints at the same prompts, and wakes the same | `Printer::share` |
//! | while an incremental search goes on, what it looks for is shown in the prompt's place, and no hint | `Prompt::{read_line, show}`, `read_line` |
//! | candidates are listed in a frame behind two Tabs, and in no other | `Prompt::read_line` |
//! | nothing is shown of a hidden line, or a star for each character; neither a hint nor a search is. It was typed in an editor of its own, which keeps no line | `Prompt::read_hidden` |
//! | the cells of each frame: the parts of the prompt in their styles, the line and the hint, wrapped into rows, and candidates in columns below them. The hint is dimmed, and shown if the cursor is at the line's end, the last row has room for it, and no candidates are listed. All rows are in sight if they are no more than the window has, else as many as it has, with the cursor's | `Rows::{draw, draw_next}`, `Prompt::{read_line, show}`, `read_line` |
//! | in one row: the prompt, if it leaves eight columns to the line; the line, as `Line::seen` sees it in some columns; behind it the hint, if there is room; and blanks | `Rows::{draw, draw_next}`, `Prompt::{read_line, show}` |
//! | a frame makes the rows show these cells, with the cursor behind what was printed before it, and changes nothing else; at an error a beginning of one was written. What leaves the rows, what erases them, and what clears the window | `Rows::{draw, draw_next, leave, erase, clear}`, `Prompt::{read_line, show}`, `read_line` |
//! | a frame for who draws alone has no move, no style and no other control function that it doesn't need | `Rows::draw_next`, `Prompt::{read_line, show}`, `read_line` |
//! | names complete the word before the cursor by what those that begin with it have in common behind it; these are its candidates, and the rest of the first that goes on is the hint | `Helper::{complete, candidates, hint}` of `Words` |
//! | what is to be written to a history's file grows by the text of each line that is appended, unless the editor's limits leave the line out. No byte of it is lost: only what was written to a file goes, up to the start of a line, and the rest stays | `HistoryFile::append` |
//! | that a history's file can't be read or written is returned once; if it wasn't, nothing is left to be written; refused memory changes nothing | `HistoryFile::{load, append}` |
//!
//! The rows are drawn by `screen::Block::draw_next`, so each frame makes them show some cells, and changes nothing else, if nothing but bells was
//! written since the last one. (A bell, BEL, moves no cursor; the definitions of `screen` don't speak of it.) The cursor is behind what was
//! printed before it. It is only tested that there are as many columns and rows as the window has, that a line is seen in one row in as many columns
//! as have room, how many rows above its own are erased after a resize, and how often a terminal that doesn't answer is asked. So it is that several
//! programs append whole lines to one history's file, and that a part of a line is cut off again; and that what is printed is each text that was
//! handed over, once, in order, and as soon as it was.
//!
//! What to believe, in the order in which it reads (`specs/`), and the contracts that it is proved by:
//!
//! | Definitions | Of | Contract |
//! |---|---|---|
//! | `Prompts` | which prompts are refused | `Prompt::read_line`, `read_line` |
//! | `Words` | how names complete the word before the cursor | `Helper` of `Words` |
//! | `Completing` | what an editor is given for an event | `Prompt::read_line` |
//! | `Asking` | what comes of asking for a line, event by event | `Prompt::read_line`, `read_line` |
//! | `Lines` | the events and the lines of several calls | `laws::gives_lines` |
//! | `Shown` | what is shown of a line, and how candidates are listed | `Shown`, `Rows` |
//! | `Drawing` | columns of a row, and the texts of a search and of a clearing | `search_text`, `Rows::clear` |
//! | `Pictures` | which cells show a line in one row | `Rows::{draw, draw_next}`, `Prompt::read_line` |
//! | `Wrapping` | which cells show a line in several rows | `Rows::{draw, draw_next}`, `Prompt::read_line`, `read_line` |
//! | `Frames` | what is written to show a line: a frame of the rows, the bell, an erasure, and what leaves the rows | `Rows`, `Prompt::read_line`, `read_line` |
//! | `Written` | what is written while a line is asked for, piece by piece | `Prompt::{read_line, read_hidden, show}`, `read_line` |
//! | `Printing` | which printers print at the same prompts | `Printer::share` |
//! | `Histories` | the lines that are appended to a history's file | `HistoryFile` |
//!
//! `specs/inside/` says the same of a part, and no public clause cites it.
//!
//! A function's proof is in `proofs/` at the function's path; if there is no file, the prover found it by itself.
#![tactic(auto)]

mod appending;
mod asking;
mod drawing;
mod filling;
mod frames;
mod helpers;
mod histories;
pub mod laws;
mod listing;
mod placing;
mod printer;
mod prompts;
mod read;
mod reflow;
mod rows;
mod shown;
mod troubles;
mod words;

pub use appending::LockFile;
pub use asking::{Prompt, read_line};
pub use helpers::Helper;
pub use histories::HistoryFile;
pub use printer::Printer;
pub use prompts::{is_shown, search_text};
pub use read::Read;
pub use rows::Rows;
pub use shown::Shown;
pub use troubles::HistoryTrouble;
pub use words::Words;
