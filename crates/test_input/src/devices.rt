//! Devices over what a program can open: what no contract says, as that bytes come at once, that a limit is waited out, and that a waker
//! wakes.
//!
//! Each test ends by itself within seconds: what has to come is waited for within a limit.

mod answers;
mod ends;
mod files;
mod flow;
mod polled;
mod readers;
mod refused;
mod sizes;
mod woken;
