//! Key bindings from outside, beyond the rows of `probe keys`: refused memory, keys that are fed, faults, spelled chords, and threads.

mod faults;
mod growth;
mod lists;
mod refused;
mod spelling;
mod steps;
