//! Tests of commands, the macros, updates, writers, the clipboard and screens by their public calls, and tables that come from outside.
//!
//! What a line of `probe say` can show of a command, its bytes, is in the tables of `probe` alone.
#![tactic(auto)]

#[cfg(test)]
mod asking;
#[cfg(test)]
mod clipboard;
#[cfg(test)]
mod commands;
#[cfg(test)]
mod faults;
#[cfg(test)]
mod frames;
#[cfg(test)]
mod growth;
#[cfg(test)]
mod modes;
#[cfg(test)]
mod noted;
#[cfg(test)]
mod queries;
#[cfg(test)]
mod queueing;
#[cfg(test)]
mod refused;
#[cfg(test)]
mod session;
#[cfg(test)]
mod sharing;
#[cfg(test)]
mod shown;
#[cfg(test)]
mod sizes;
#[cfg(test)]
mod stty;
#[cfg(test)]
mod tape;
#[cfg(test)]
mod values;
#[cfg(test)]
mod witness;
