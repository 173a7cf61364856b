//! Key bindings above a shared reader: lists of chords are bound to actions, and keys as they come are cut into the longest bound lists.
//!
//! A chord is a key with its modifiers. Keys are fed to a `Matcher`, which returns an outcome as soon as it is decided: the action of a
//! bound list, or a key that begins none. `Matcher::step` reads the keys from a `crossterm_read::read::EventReader`.
//!
//! ```
//! let mut keymap = Keymap::new(alloc);
//! let go = keymap.bind(&[KeyEvent::from(KeyCode::Char('g'))], "go")?;
//! let mut matcher = Matcher::new(alloc, keymap);
//! matcher.feed(KeyEvent::from(KeyCode::Char('g')))?;
//! assert_eq!(rt; matcher.next(), Some(Outcome::Action(go)));
//! ```
//!
//! `read_chord` reads a chord as people write it, as `ctrl-x`, and `Spelled` shows one so.
//!
//! It is built on `crossterm_types`, for keys and their equality, on `crossterm_flags`, for tables of names, and on `crossterm_read`, for a
//! reader that threads share. It uses their public contracts, and lemmas that they lend to the crates above.
//!
//! What is proved, beyond safety:
//!
//! | Proved | By the contract of |
//! |---|---|
//! | the outcomes of keys are the cut of these keys into the longest bound lists, given exactly as far as no further key can change it, and the rest at a flush; a refusal changes nothing | `Keymap::bind`, `Matcher::{feed, flush, next, step}`, `laws::{runs, turns, given}` |
//! | a step reads within its limit, by its pass's next call in the one legal history; an error leaves the matcher unchanged but for room | `Matcher::step` |
//! | memory is refused only if there is room for fewer outcomes than may come; how much room is there after each call; taking an outcome takes no memory | `Matcher::{new, passing, feed, flush, next, step}` |
//! | a text reads as a chord exactly as its definition says; what a chord is spelled as reads as the same chord | `read_chord`, `Display` of `Spelled`; `laws::spelled` |
//! | as an `io::Error`, refused memory has the kind `OutOfMemory`, and each other fault has `InvalidInput` | `From<KeymapFault>` and `From<ChordFault>` of `io::Error` |
//!
//! What to believe, in the order in which it reads (`specs/`), and the contracts that it is proved by:
//!
//! | Definitions | Of | Contract |
//! |---|---|---|
//! | `Outcomes` | outcomes as contracts see them | |
//! | `Chords` | chords, and which bound lists some keys begin with | |
//! | `Cut` | the cut of keys by bound lists, and what of it is given | |
//! | `Parts` | what makes a cut the only one | `laws::unique_cut` |
//! | `Deciding` | what is given is exactly what no further key can change | `laws::given` |
//! | `Bindings` | what a keymap binds, and what it refuses | `Keymap` |
//! | `Matching` | a matcher, what it is fed, and its room for outcomes | `Matcher::{new, passing, feed, flush, next}` |
//! | `Runs` | any run of feeding, flushing and taking | `laws::runs` |
//! | `Taking` | what becomes of an event | `Matcher::step` |
//! | `Turns` | any run of events, rests and outcomes | `laws::turns` |
//! | `Stepping` | a step over a reader | `Matcher::step` |
//! | `Spelling` | chords as people write them, and what reads as one | `read_chord`, `Spelled`, `laws::spelled` |
//! | `Rows` | some keys, and what they are cut into | `rows::some_cuts` |
//!
//! A function's proof is in `proofs/` at the function's path; if there is no file, the prover found it by itself.
#![tactic(auto)]

mod bindings;
mod fault;
mod few_keys;
mod inside;
pub mod laws;
mod matching;
mod outcome;
mod places;
mod room;
pub mod rows;
mod spelling;
mod stepping;
mod taking;

pub use bindings::Keymap;
pub use fault::KeymapFault;
pub use matching::Matcher;
pub use outcome::Outcome;
pub use spelling::{ChordFault, Spelled, read_chord};
