//! A recorder of sessions: what a terminal sent is written as lines of text, and what reads them gets the same events again.
//!
//! `Recorder` is a device over a device. Each answer of its device is a line of the recording, after a line with its time:
//!
//! ```text
//! # 1500
//! piece 1b5b41
//! # 1730
//! resize 80 24
//! ```
//!
//! The acts are `piece HEX` and `raw HEX` (bytes, and bytes that came in raw mode), `resize COLUMNS ROWS`, `wake`, `idle` and `fault KIND`.
//! Between words is one blank. A line that begins with `#` is a comment; one with a number says how many milliseconds after the beginning
//! what follows came. `reading::read_session` reads a recording, and a `Script` of its acts is a device again:
//!
//! ```
//! let session = read_session(&alloc, bytes)?;
//! let mut reader = InternalEventReader::new(alloc, DeviceSource::new(alloc, Script::new(session.acts)));
//! ```
//!
//! It is built on `crossterm_read`, for devices and scripts, and on the crates below it, by their public contracts and lemmas that they lend.
//!
//! What is proved, beyond safety:
//!
//! | Proved | By the contract of |
//! |---|---|
//! | a recorder returns what its device returns, whatever its writer does; it writes these answers in order, with times that never fall, until its writer fails or the room is used up, and then nothing more | `Recorder`, by `Device::answer` |
//! | what was written reads as what was written; a line that is neither an act nor a comment is an error with its number and its reason | `write_act`, `reading::{read_act, read_session}`, `laws::reads_back` |
//! | a recording replays: the calls of a reader over a recorder, and the same calls over a script of what was recorded, have one result, as long as the recording went on, nothing came after the end of input, no memory was refused, and no answer's bytes both end an event and leave a paste open | `laws::{replays, answers_as_recorded}` |
//! | so it does for a reader that threads share: what they took and what is held are, each once, the first events of the recording | `laws::histories_replay` |
//! | a recording has one list of events, and a front of it has a front of them | `laws::one_list` |
//! | a recording that ended early, wherever that was, reads as a front of what came, or its last line has no end and it doesn't read | `laws::stops` |
//!
//! What to believe, in the order in which it reads (`specs/`), and the contracts that it is proved by:
//!
//! | Definitions | Of | Contract |
//! |---|---|---|
//! | `Lines` | what came as lines of text | `write_act` |
//! | `Reads` | what reads as an act, and what as a session | `reading::{read_act, read_session}`, `laws::reads_back` |
//! | `Recording` | what a recorder writes of its device's answers | `Recorder::{new, most, stopped}` |
//! | `Answering` | a recorder as a device | `Device::answer` of `Recorder` |
//! | `Replaying` | what a recording replays | `laws::{replays, histories_replay, answers_as_recorded}` |
//! | `Stopping` | what a recording says that ended early | `laws::{one_list, stops}` |
//!
//! A function's proof is in `proofs/` at the function's path; if there is no file, the prover found it by itself.
#![tactic(auto)]

mod kinds;
pub mod laws;
mod line;
pub mod reading;
mod recorder;
mod watch;

pub use line::write_act;
pub use recorder::{Recorder, Stop};
pub use watch::Watch;
