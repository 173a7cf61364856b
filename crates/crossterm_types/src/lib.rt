//! What a terminal reports: keys, mouse, pastes, focus, resizes and the replies to queries, under crossterm's names.
//!
//! It is built on `crossterm_flags`. The layers above use that equality, order and hash of a `KeyEvent` are those of its normal form
//! (`specs/Normal.antt`, `specs/Compared.antt`; its laws are the contract of `event::laws::normal_form_laws`), see events through
//! `specs/Seen.antt`, and know exactly which events a filter admits (`specs/Admitting.antt`).
//!
//! What is proved, beyond safety:
//!
//! | Proved | By the contract of |
//! |---|---|
//! | equality, order and hash of a `KeyEvent` are those of its normal form; every other type is ordered as declared | `event::laws::{normal_form_laws, declared_orders, declared_orders_of_events}` |
//! | each filter accepts exactly its events; what is left of a time limit, and whether it has passed, follow from two moments | `Filter::eval`; `PollTimeout::{elapsed, leftover}` |
//! | keys display exactly their names; each predicate and accessor is its table, in both directions | `Display`; each method |
//! | the JSON value of an event reads back as that event, field by field; any other value is the error `Shape` | `to_value`, `from_value` |
//!
//! What to believe, in the order in which it reads (`specs/`), and the contracts that it is proved by:
//!
//! | Definitions | Lines | Of | Contract |
//! |---|---|---|---|
//! | `Seen` | 37 | events as a clause sees them | |
//! | `Keys` | 18 | keys, and modifiers by their bits | `KeyEvent::new` and the like |
//! | `Normal` | 26 | the normal form of a key | `event::laws::normal_form_laws` |
//! | `Compared` | 52 | how keys compare and hash | `PartialEq`, `Ord` and `Hash` of `KeyEvent` |
//! | `Variants` | 108 | the variants of enums by their names | |
//! | `Ranks` | 98 | the declared orders | `event::laws::{declared_orders, declared_orders_of_events}` |
//! | `Names` | 51 | the names that keys show as | `Display` of `KeyCode` and its like |
//! | `Admitting` | 52 | which events a filter admits | `Filter::{eval, classes}` |
//! | `Timing` | 31 | limits of time | `PollTimeout` |
//! | `Values` | 178 | events as JSON | `to_value` and `from_value` of each |
//!
//! Crates above cite the lemmas of `Lists`, `ValueLaws`.
//!
//! A function's proof is in `proofs/` at the function's path; if there is no file, the prover found it by itself.
#![tactic(auto)]

pub mod event;
