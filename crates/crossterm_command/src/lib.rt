//! Commands for a terminal, and how their texts get to a writer: crossterm's `command`.
//!
//! It is built on the kit alone. The layers above use two facts. A command that was written is exactly its text, or a beginning of it with
//! an error (`specs/Writing.antt`). Bytes read back as control functions and characters in one way at most (`specs/Tokens.antt`, whose law
//! is `laws::one_reading`). Lemmas for their proofs are `proofs/Texts.antt` and `proofs/Readings.antt`.
//!
//! What is proved, beyond safety:
//!
//! | Proved | By the contract of |
//! |---|---|
//! | on Ok exactly the command's text was written; on an Err of a kind other than `Other`, a prefix of it | `QueueableCommand::queue`, `ExecutableCommand::execute`, `queue_command`, `execute_command` |
//! | an error of the writer, of the command and of the flush are distinguished, and the last leaves the whole text; bytes read back in one way at most | `write_command`, `send_command`, `write_text`; `laws::one_reading` |
//!
//! What to believe, in the order in which it reads (`specs/`), and the contracts that it is proved by:
//!
//! | Definitions | Lines | Of | Contract |
//! |---|---|---|---|
//! | `Tokens` | 85 | how a terminal reads bytes | `laws::one_reading` |
//! | `Controls` | 30 | control sequences by parameters and a letter | |
//! | `Writing` | 39 | what a writer's bytes grow by | `write_text`, `write_command`, `queue`, `execute` and the like |
//! | `Faults` | 29 | why a command was stopped, and what was written | `CommandFault`, `send_command` |
//! | `Environment` | 8 | values of environment variables | `ColorOutput::from_no_color` |
//!
//! Crates above cite the lemmas of `Readings`, `Rows`, `Taking`, `Texts`, `TokenLaws`.
//!
//! A function's proof is in `proofs/` at the function's path; if there is no file, the prover found it by itself.
#![tactic(auto)]

mod color_output;
mod command;
mod fault;
pub mod laws;
mod queueable;
mod shown;
mod tries;
mod writing;

pub use color_output::ColorOutput;
pub use command::Command;
pub use fault::CommandFault;
pub use queueable::{ExecutableCommand, QueueableCommand, execute_command, queue_command};
pub use shown::execute_fmt;
pub use writing::{send_command, write_bytes, write_command, write_text};
