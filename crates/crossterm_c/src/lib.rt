//! A door for C and Rust: the parser, the reader and the commands by numbers and slices.
//!
//! It is built on `crossterm_parse`, `crossterm`, and events and styles as `numbers`, and its contracts on `crossterm_read` too. The parser's state is a struct of numbers that
//! the caller keeps, so no call needs memory, and none blocks. `gelvanh_feed` follows the only division of the bytes as `Parser::advance`
//! does (`specs/Feeding.antt`); what the numbers of a state and of a command mean is `specs/State.antt` and `specs/Command.antt`,
//! and what those of an event and of a style mean is the crate `numbers`. Events are held in the caller's table, and taken by class, as `InternalEventReader` does (`specs/Held.antt`). The
//! header for C is `bindings/c/gelvanh.h`.
//!
//! What is proved, beyond safety:
//!
//! | Proved | By the contract of |
//! |---|---|
//! | the events, as numbers of the header with 0 for what their kind doesn't use, mean the parts of the only division of the bytes taken; however small the table is, none is lost; the state's numbers represent the rest | `gelvanh_feed`, `gelvanh_is_undecided`, `gelvanh_is_pasting` |
//! | events held in the caller's table are a reader's: one more comes last, or the table is full and nothing changes; the first of the classes asked for is taken, and the others stay in order; if none that is admitted is held, holding events until one comes, and taking it, is a call of `InternalEventReader::read_within`; who holds a whole batch first takes the same event | `gelvanh_hold`, `gelvanh_holds`, `gelvanh_take`, `laws::holding_and_taking_is_reading` |
//! | many events in one call are single calls in order: bytes are fed, and their events join the held ones with their numbers; of some classes the first events are taken, one after another, as far as there is room | `gelvanh_feed_held`, `gelvanh_take_some`, `laws::many_are_single_calls` |
//! | a paste's text is written until all bytes are read or the next character has no room; a command's text is in the slice, or the slice is unchanged and the length is returned | `gelvanh_paste_text`, `gelvanh_command` and the four calls with a text |
//! | the version is the header's | `gelvanh_version` |
//!
//! What to believe, in the order in which it reads (`specs/`), and the contracts that it is proved by:
//!
//! | Definitions | Lines | Of | Contract |
//! |---|---|---|---|
//! | `State` | 91 | the state of an open sequence as numbers | `gelvanh_is_undecided`, `gelvanh_is_pasting` |
//! | `Feeding` | 39 | what a call does that takes bytes | `gelvanh_feed` |
//! | `Held` | 91 | events that are held, and their classes | `gelvanh_hold`, `gelvanh_holds`, `gelvanh_take`, `gelvanh_feed_held`, `gelvanh_take_some` |
//! | `Text` | 24 | the text of a paste, piece by piece | `gelvanh_paste_text` |
//! | `Command` | 170 | commands as numbers, and their texts | `gelvanh_command`, `gelvanh_print` and the like |
//! | `Outlet` | 10 | a slice that takes what fits | the same |
//!
//! A function's proof is in `proofs/` at the function's path; if there is no file, the prover found it by itself.
#![tactic(auto)]

mod batches;
mod command;
mod feed;
mod held;
mod laws;
mod layout;
mod outlet;
mod parser;
mod reader;
mod state;
mod table;
mod text;
mod version;
