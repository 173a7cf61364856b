//! From the bytes of a terminal to its events: crossterm's `event::sys::unix::parse`.
//!
//! It is built on `crossterm_types`. The layers above use that `Parser::advance` and `Parser::next` follow the only division of the bytes
//! into whole sequences (`specs/View.antt`). The grammar is `specs/Grammar.antt`, and what a sequence means `specs/Meaning.antt`.
//!
//! A sequence has one of these shapes, each by the place where it ends (ECMA-48, xterm's control sequences, kitty's keyboard protocol):
//!
//! | Shape | Ends at |
//! |---|---|
//! | a byte of 0 to 127 but ESC, of 128 to 191, or of 248 to 255 | itself |
//! | a lead of C0 to F7 and bytes of 80 to BF (UTF-8) | the last byte that the lead asks for, or the first that isn't of 80 to BF |
//! | `ESC ESC` | the second |
//! | ESC and one of the first two, which doesn't begin with `O` or `[` | that one's end |
//! | `ESC O b` (SS3) | b |
//! | `ESC [ b` (CSI), b not `[`, `M`, `<`, `?` or a digit | b |
//! | `ESC [ [ b` | b |
//! | `ESC [ M b1 b2 b3` | b3 |
//! | `ESC [ < w f` | f, the first `M` or `m` |
//! | `ESC [ ? w f` | f, the first byte that is `c`, or `u` but not directly after `?` |
//! | `ESC [ d w f`, d a digit, but not `ESC[200~` | f, the first byte of 64 to 126 |
//! | `ESC[200~` and a text | the first `ESC[201~` |
//!
//! ESC alone is the Esc key if nothing came with it after it.
//!
//! What is proved, beyond safety:
//!
//! | Proved | By the contract of |
//! |---|---|
//! | no complete sequence is a proper prefix of another, so bytes divide in one way only; the parser follows that division and gives each part's meaning | `laws::unique_division`; `Parser::{advance, feed, next, events, take_first}` |
//! | however the same bytes are cut into pieces, they give the same events | `laws::cuttings` |
//! | a piece that ends no event and leaves no paste open needs no memory; after `reserve(n)` a piece of n bytes that opens no paste is consumed whole; if a piece isn't consumed whole, the next byte belongs to a paste, or ends an event for which there is no room | `Parser::{advance, reserve}` |
//! | at most two steps for each byte, and at least one | `laws::{two_steps_a_byte, a_step_a_byte}` |
//! | the length of the open paste, whose text is kept | `Parser::paste_len` |
//!
//! What to believe, in the order in which it reads (`specs/`), and the contracts that it is proved by:
//!
//! | Definitions | Lines | Of | Contract |
//! |---|---|---|---|
//! | `Marked` | 21 | a byte with its mode, and whether a pause follows it | |
//! | `Bytes` | 19 | bytes by their names | |
//! | `Grammar` | 118 | which marked bytes are one whole sequence | `laws::unique_division` (`closed`) |
//! | `Division` | 26 | a list cut into whole parts and a rest | `laws::unique_division` |
//! | `Number` | 36 | the number of a text | `number.rt` |
//! | `Fields` | 28 | the fields of a sequence and their parts | `fields.rt` |
//! | `ModifierField` | 49 | modifiers, locks and kind | `modifier_field.rt` |
//! | `Letters` | 19 | the keys of final letters | `letters::letter_key` |
//! | `Functional` | 118 | kitty's functional keys | `functional.rt` |
//! | `Bits` | 7 | bits of a mask | |
//! | `Mouse` | 66 | what the mouse did | `mouse.rt` |
//! | `Numbered` | 135 | what a numbered sequence means | `readings.rt` |
//! | `Meaning` | 155 | what any whole sequence means | `meaning.rt` |
//! | `Recognizer` | 132 | the grammar as tests | |
//! | `Tracking` | 84 | what is kept of numbers, fields and UTF-8 while they are read | |
//! | `States` | 112 | which bytes of an open sequence a state represents | |
//! | `View` | 131 | a parser as its callers see it, and what it makes of a piece | `Parser::advance`; `laws::{cuttings, two_steps_a_byte, a_step_a_byte}` |
//! | `Giving` | 28 | its events, one after another | `Parser::{next, events}` |
//! | `Transitions` | 301 | what one more byte does to a state | `state.rt` |
//! | `Putting` | 83 | what many bytes do, and what comes of them | `State::take` |
//!
//! Crates above cite the lemmas of `DivisionLaws`, `GrammarLaws`, `MachineLaws`, `NumberLaws`, `RunLaws`, `ViewLaws`.
//!
//! What only proofs and private clauses cite is in `specs/inside/`. A function's proof is in `proofs/` at the function's path; if there is
//! no file, the prover found it by itself.
#![tactic(auto)]

mod blocks;
pub mod character;
pub mod fields;
mod functional;
pub mod laws;
pub mod letters;
pub mod marked;
pub mod meaning;
mod modifier_field;
pub mod mouse;
pub mod number;
pub mod numbered;
pub mod outlet;
pub mod parse;
pub mod paste;
pub mod readings;
pub mod state;
pub mod steps;
mod uppercase;
mod uppercase_table;
pub mod utf8;
mod whole;
