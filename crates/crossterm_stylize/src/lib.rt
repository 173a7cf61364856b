//! Styling by a chain of calls: crossterm's `Stylize`.
//!
//! `"text".red().on_blue().bold()` is a `StyledContent`, and shows as its text between its style and the end of it.
//!
//! What is proved, beyond safety:
//!
//! | Proved | By the contract of |
//! |---|---|
//! | each of the 63 calls of `Stylize` changes its one field of the style and nothing else | each method |
//!
//! What to believe, in the order in which it reads (`specs/`), and the contracts that it is proved by:
//!
//! | Definitions | Lines | Of | Contract |
//! |---|---|---|---|
//! | `Styling` | 27 | one field of a style changes | each method of `Stylize` |
//!
//! A function's proof is in `proofs/` at the function's path; if there is no file, the prover found it by itself.
#![tactic(auto)]

mod styled;
mod stylize;

pub use stylize::Stylize;
