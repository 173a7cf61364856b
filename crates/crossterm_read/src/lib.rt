//! From a device to the events that one thread reads, or many, or a task: crossterm's `event::source`, `event::read` and `event::stream`.
//!
//! A device answers with bytes, resizes and wake-ups (`source::Device`): those of a script, of a reader (`source::ReadDevice`), or of what
//! the system can watch (`source::PolledDevice`). A source hands the bytes to the parser and returns events (`source::DeviceSource`). A
//! reader holds the events in the order of their arrival until they are taken (`read::InternalEventReader`). Threads share a reader
//! (`read::EventReader`), each with a `read::Pass`. A task that may not wait polls a stream of the user's events (`stream::EventStream`).
//!
//! It is built on `crossterm_parse`, for the division of bytes into sequences, and on `crossterm_types`, for events and filters. Of the kit
//! it uses `crossbeam_queue` for the slot of a shared reader, `futures` for its stream, and `mio` for devices that wait.
//!
//! The layers above use the steps of `InternalEventReader::{poll_within, read_within, take, position_within, keyboard_within}` over any
//! `source::EventSource`. They use the steps of `poll` and `read`, which wait for a limit of time or without one, and the headline of
//! `read::play`: what calls return is a run over the answers of a source, which come from those of its device. `laws::one_happening` says
//! that the events of bytes are those of the only division of all bytes.
//!
//! What is proved, beyond safety:
//!
//! | Proved | By the contract of |
//! |---|---|
//! | a source returns the results of its device's answers in order; it asks the device with its own limit, and its waker is the device's; it reports the length of the open paste | `EventSource::{try_read, waker}`, `DeviceSource::paste_len` |
//! | each call is one step of the reader's definition; it loses no room, and memory is refused only if no room was left; if an admitted event is held, none is taken | `InternalEventReader::{poll_within, read_within, take, held, position_within, keyboard_within}` |
//! | if a filter declares its event classes, the first match is the earliest of four queued events at most; an event that is held alone is in no queue | `Filter::classes`; `HeldEvents`, `Queues` (private) |
//! | a poll asks with what is left of its limit, which begins at its first moment, and returns false only at a wake-up or after the limit; a step within a limit is one with some number of tries | `InternalEventReader::{poll, read}`; `laws::counts_tries` |
//! | no event is lost (the first theorem) | `read::play`, `laws::one_happening` |
//! | two runs of the same calls over the same answers have one result, if neither was refused memory, and no answer's bytes both end an event and leave a paste open | `read::play`, `laws::one_result` |
//! | a device over a reader returns the reader's next bytes, in order, and the end only at its end, if the reader says what it contains; it reports no size if nothing reports sizes | `Device::answer` of `ReadDevice`, `PolledDevice`, `SocketDevice` |
//! | an error of the system is returned and counted once, unless it says that nothing came yet, or no more can be counted | `failures::answer_at` |
//! | threads share one history (the third theorem), over a script too; a look at the open paste is a poll with no try; the keyboard query waits twice, each time with its own limit; each event was taken once or is held; the events that one filter takes have rising numbers | `EventReader::{new, share, poll, read, read_for, poll_by, read_by, position_by, keyboard_by, paste_len, meet, close}`, `laws::histories_over_scripts` |
//! | a read with a limit is a read that took an event, or a poll that found none; a shared poll that makes no entry returns `Ok(false)` after its limit; every call puts the reader back | the same |
//! | an item of a stream is the reply of one read with limit zero in that history, or an error, never `Interrupted`; a pending poll has registered its waker; both passes come back | `EventStream::{new, with_worker, poll_event, poll_next, close}`, `StreamWorker::join` |
//!
//! What to believe, in the order in which it reads (`specs/`), and the contracts that it is proved by:
//!
//! | Definitions | Lines | Of | Contract |
//! |---|---|---|---|
//! | `Device` | 80 | what a device answers | `Device::answer` |
//! | `Scripted` | 86 | what the acts of a script answer | `Device::answer` of `Script` |
//! | `Reading` | 136 | what a device over a reader answers | `Device::answer` of `ReadDevice`, `PolledDevice`, `SocketDevice` |
//! | `Waking` | 32 | which wakers are alike | `Waker`, `Device::waker` |
//! | `Answers` | 46 | what a source answers | `EventSource::try_read` |
//! | `Outcomes` | 127 | what comes of a device's answers, and the events that happen | `laws::one_happening` |
//! | `Sources` | 126 | what a source answers, turn by turn | `DeviceSource` |
//! | `Store` | 53 | what a reader holds | `InternalEventReader::{new, held}` |
//! | `Replies` | 84 | what a call replies | |
//! | `Steps` | 108 | what a poll, a read and a take do | `InternalEventReader::{poll_within, read_within, take}` |
//! | `Queries` | 45 | what a query does | `InternalEventReader::{position_within, keyboard_within}` |
//! | `Waiting` | 38 | with which limits a device is asked | `InternalEventReader::{poll, read}`, `EventReader::keyboard_by` |
//! | `Calls` | 138 | runs of calls, and the account of all events: the headline | `read::play`, `laws::counts_tries` |
//! | `OneResult` | 61 | two runs of the same calls over the same answers | `laws::one_result` |
//! | `History` | 191 | the one legal history of a reader that threads share | `EventReader`, `Pass` |
//! | `Entries` | 113 | which call an entry of it is | `EventReader::{poll, read, read_for, poll_by, read_by, position_by, keyboard_by, paste_len}` |
//! | `OverScripts` | 26 | what a history over a script comes to | `laws::{scripts_replay, histories_over_scripts}` |
//! | `PassViews` | 19 | what a clause says of a pass | `EventReader::{new, share, meet, close}` |
//! | `Shared` | 15 | what it says of a share | `EventReader::{new, share}` |
//! | `Streams` | 41 | what a stream answers, and what its worker does | `EventStream::{poll_event, poll_next}`, `StreamWorker::join` |
//!
//! Crates above cite the lemmas of `Fronts`, `Mapped`, `Slotting`.
//!
//! What only proofs and private clauses cite is in `specs/inside/`. A function's proof is in `proofs/` at the function's path; if there is
//! no file, the prover found it by itself.
#![tactic(auto)]

pub mod laws;
pub mod read;
pub mod source;
pub mod stream;
