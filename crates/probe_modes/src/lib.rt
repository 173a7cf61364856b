//! The modes of the program `probe`, each a function over a reader and a writer: `play::run_play`, `say::run_say`, `serve::run_serve`,
//! `keys::run_keys` and `bench::mode::Mode::run`.
//!
//! They are built on `crossterm` by its public calls, `serve` on the sockets of `mio`, `keys` and `bench` on `keymap`, `bench` on `screen` too. In `bench` are two
//! bodies with the macros `queue!` and `execute!`, of which it is proved what they write.
//!
//! What is proved, beyond safety:
//!
//! | Proved | By the contract of |
//! |---|---|
//! | what two bodies with `queue!` and `execute!` write | `bench::{print_first, show_now}` |
#![tactic(auto)]

pub mod bench;
mod event_line;
pub mod fault;
mod input;
pub mod keys;
mod names;
pub mod play;
pub mod say;
pub mod serve;
