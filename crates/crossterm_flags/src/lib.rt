//! Sets of bits of terminal events: the modifiers of a key, the state of a key, and the flags of kitty's keyboard protocol.
//!
//! Each is a byte by hand over `bitflags`; clauses see its bits. Their operations are written out for each. A macro of this repository may
//! write no `impl`. One generic set under three aliases would be another type in the clauses of every crate above.
//!
//! The crates above use more of what is here. `specs/Orders.antt` says what it means that a type's comparisons go by an order.
//! `specs/Variants.antt` has the names and ranks of an enum's variants by one table. `proofs/Ranks.antt` has the lemmas that an enum's
//! derived comparisons go by ranks.
//!
//! What is proved, beyond safety:
//!
//! | Proved | By the contract of |
//! |---|---|
//! | each operation of the three flag types is its definition on sets of bits; `iter` gives each named constant that is contained, then the bits without a name | each method; `FlagIter::next` |
//! | `KeyModifiers` displays exactly the names of its bits; the JSON value of a set is its bits as a number, and any number below 256 reads as a set | `Display`; `to_value`, `from_value` |
//!
//! What to believe, in the order in which it reads (`specs/`), and the contracts that it is proved by:
//!
//! | Definitions | Lines | Of | Contract |
//! |---|---|---|---|
//! | `Bits` | 30 | sets of bits as numbers, by a table of named constants | each method of the three types |
//! | `Tables` | 28 | the constants of each type | the same |
//! | `Names` | 17 | the text of a key's modifiers | `Display` of `KeyModifiers` |
//! | `Variants` | 61 | an enum's variants by one table of names | |
//! | `Orders` | 8 | what a type's comparisons answer | `laws` of the crates above |
//! | `Values` | 70 | values as JSON | `to_value` and `from_value` of each |
//!
//! Crates above cite the lemmas of `Ranks`.
//!
//! A function's proof is in `proofs/` at the function's path; if there is no file, the prover found it by itself.
#![tactic(auto)]

mod enhancement;
mod iter;
mod modifiers;
mod shown;
mod state;
pub mod value;

pub use enhancement::KeyboardEnhancementFlags;
pub use iter::{FlagIter, FlagSet};
pub use modifiers::KeyModifiers;
pub use state::KeyEventState;
pub use value::ValueFault;
