//! Lines that are edited, for C and for Rust: an archive of its own, since it takes memory.
//!
//! A `LineHandle` is a pointer that C keeps, to an editor with the rows in which its line is shown. Events come as the numbers of the other
//! archive, and what is to be written to the terminal is handed out piece by piece. The header for C is `bindings/c/gelvanh_line.h`.
//!
//! It is built on `line_editor`, on the rows of `prompt`, on events and styles as `numbers`, and on `handle` for the box behind the pointer. All raw pointers
//! are in `keeping.rt`. A caller in C owes that a handle came from `gelvanh_line_new`, is used by one thread at a time,
//! and isn't used after `gelvanh_line_free`.
//!
//! What is proved, beyond safety:
//!
//! | Proved | By the contract of |
//! |---|---|
//! | an editor with nothing written and these limits lies behind the pointer that is written, or memory was refused | `gelvanh_line_new` |
//! | an event of some numbers does what `Editor::turn` does with that event, and the answer says what came of it; unknown numbers change nothing | `gelvanh_line_event` |
//! | the same of a pasted text | `gelvanh_line_paste` |
//! | once a line has ended its rows are left, and the text of an accepted one is kept | `gelvanh_line_event`, `gelvanh_line_accepted` |
//! | a frame makes some rows show the line behind its prompt, wrapped, with its hint or the names below it, and changes nothing else; stars or nothing are in the place of a hidden line | `gelvanh_line_show` |
//! | a prompt is its text and the parts behind it, each in its style; a part with a control character and numbers that are no style's are refused | `gelvanh_line_begin`, `gelvanh_line_prompt`, `gelvanh_line_show` |
//! | names complete a word by what they have in common, and are listed at the second time in a row | `gelvanh_line_complete` |
//! | what is to be written is handed out once and in order, none of it lost | `gelvanh_line_output` |
//! | a text that is too long and refused memory are two answers, and leave all as it was | each |
//! | a text is copied whole or not at all, and counted | `gelvanh_line_text`, `gelvanh_line_accepted`, `gelvanh_line_history` |
//! | a history is taken from a text as by `Editor::load_history` | `gelvanh_line_load_history` |
//!
//! What to believe, in the order in which it reads (`specs/`):
//!
//! | Definitions | Of | Contract |
//! |---|---|---|
//! | `Kept` | what a handle keeps, and what an event makes of it | all |
//! | `Begun` | what the call answers that begins an editor | `gelvanh_line_new` |
//! | `Answers` | the answers by their numbers, and what each says of what is kept | all |
//! | `Lending` | that what is lent comes back to its handle | `LineHandle::open` |
//!
//! A function's proof is in `proofs/` at the function's path; if there is no file, the prover found it by itself.
#![tactic(auto)]

mod answers;
mod calls;
mod given;
mod keeping;
mod lines;
mod styled;

pub use answers::Answer;
pub use calls::LineLimits;
pub use keeping::{LineHandle, LineSlot};
pub use lines::Lines;
