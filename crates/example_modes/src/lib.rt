//! Small programs over the libraries, a module each. Copy the file that is nearest to yours.
//!
//! The program `example` runs each of them by its name. These run in a terminal whose modes a script switches, as
//! `terminal/with_terminal crates/example/out/example events`:
//!
//! | Module | Shows |
//! |---|---|
//! | `events` | each event as it comes, and the cursor's place |
//! | `edit` | a line editor |
//! | `shell` | seven commands, with completion, hints, a history in a file and texts of another thread |
//! | `keys` | key bindings, by default or from a file |
//! | `browse` | a full-screen list, by keys and mouse |
//! | `clock` | two threads: one reads, the other draws the time |
//! | `stream` | each event of a stream |
//! | `record` | each event as it comes, and records what the terminal sends |
//! | `paint` | a picture that is painted with the mouse, also by many over a network |
//!
//! These write to standard output, as `crates/example/out/example table`. All but `table` and `replay` read standard input:
//!
//! | Module | Shows |
//! |---|---|
//! | `table` | a painted table |
//! | `keylog` | the names of events in recorded bytes |
//! | `own_command` | commands and devices of one's own |
//! | `frames` | frames on a screen of cells, as lines say |
//! | `replay` | the events of a recording |
//!
//! Each has a function `run`. What it reads and writes are its parameters, which the `main` of `example` opens.
#![tactic(auto)]

pub mod browse;
pub mod clock;
pub mod edit;
pub mod events;
pub mod frames;
pub mod keylog;
pub mod keys;
pub mod own_command;
pub mod paint;
pub mod record;
pub mod replay;
pub mod shell;
pub mod stream;
pub mod table;
