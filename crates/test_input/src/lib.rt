//! Tests of the devices, the parser, the source and the reader by their public calls: each call once, and tables that come from outside.
//! Beside them is the slow program of the grammar's definitions (`plain`), which the parser is compared with.
//!
//! What is proved, beyond safety:
//!
//! | Proved | By the contract of |
//! |---|---|
//! | a plain, slow divider gives the lengths of the parts of the only division, and their events | `plain::divide` |
#![tactic(auto)]

#[cfg(test)]
mod devices;
#[cfg(test)]
mod parser;
#[cfg(test)]
mod pastes;
#[cfg(test)]
mod plain;
#[cfg(test)]
mod random;
#[cfg(test)]
mod reading;
#[cfg(test)]
mod refused;
#[cfg(test)]
mod scripts;
#[cfg(test)]
mod sizes;
#[cfg(test)]
mod sources;
#[cfg(test)]
mod sweeps;
#[cfg(test)]
mod waiting;
