//! Terminal events and commands: crossterm 0.29.0's Unix and ANSI side, proved.
//!
//! Here are all modules under crossterm's names. Events are in `crossterm_types`, bytes to events in `crossterm_parse`, devices, sources
//! and readers in `crossterm_read`; how a command gets to a writer, and how a terminal reads it, in `crossterm_command`; `Print` in
//! `crossterm_style`. What each promises is in that crate. The commands themselves are here: what they ask of a terminal is
//! `specs/Functions.antt`, and a command's text is the bytes of that.
//!
//! What is proved, beyond safety:
//!
//! | Proved | By the contract of |
//! |---|---|
//! | each command of the cursor, the terminal, events and the clipboard writes exactly its text | each `Command::text`, `Display` |
//! | what commands write reads back (the second theorem) | `write_commands`, `queue_all` |
//! | `sync_update` writes its beginning, calls the closure once, and writes its end; an error stops it in either, or before the call | `SynchronizedUpdate::sync_update` |
//! | raw mode is on once the device reported its mode and that the raw one is set, and off once it reported that the earlier one is set; the size is the window's, else that of `tput`, else the device's error | `Terminal`, `tput_value` |
//! | `SttyDevice` asks its helper by the lines of its table; a mode that it read for a request is the one that it keeps | `SttyDevice::new`, `ModeDevice` |
//! | a query fails before it asks; or it writes exactly its text, makes one call of the shared reader, and leaves raw mode as it was, or returns the error of the switch back | `cursor::position`, `terminal::{query_keyboard_enhancement_flags, supports_keyboard_enhancement}` |
//!
//! What to believe, in the order in which it reads (`specs/`), and the contracts that it is proved by:
//!
//! | Definitions | Lines | Of | Contract |
//! |---|---|---|---|
//! | `Clipboard` | 67 | places of a copy, and what a copy writes | `CopyToClipboard` |
//! | `Sequences` | 71 | what commands that have fields write | `Command::text` of each |
//! | `Functions` | 77 | the same of all commands, by their fields | `write_commands`, `queue_all` |
//! | `Painted` | 32 | what they do to the look | `write_commands`, `queue_all` (`shown`) |
//! | `Updates` | 17 | an update that a terminal shows at once | `SynchronizedUpdate::sync_update` |
//! | `Modes` | 78 | a terminal's modes and its size | `Terminal::{enable_raw_mode, disable_raw_mode, window_size, size}` |
//! | `Sizes` | 31 | sizes as `tput` writes them | `tput_value` |
//! | `Stty` | 87 | a helper that runs `stty` | `SttyDevice` |
//! | `Asking` | 40 | queries, and raw mode around them | `cursor::position`, `terminal::query_keyboard_enhancement_flags` |
//! | `Values` | 15 | what is cleared, as JSON and in its order | `ClearType`; `laws::declared_order` |
//!
//! Crates above cite the lemmas of `Clipboards`, `StyleReadings`.
//!
//! A function's proof is in `proofs/` at the function's path; if there is no file, the prover found it by itself.
#![tactic(auto)]

pub mod clipboard;
mod command;
pub mod cursor;
pub mod event;
pub mod laws;
mod macros;
pub mod style;
pub mod terminal;

pub use command::{
    AnyCommand, Command, CommandFault, ExecutableCommand, QueueableCommand, SynchronizedUpdate,
    execute_command, queue_all, queue_command, send_command, write_command, write_commands,
};
