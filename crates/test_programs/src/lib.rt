//! Tests of what no row of the program `probe` shows: refused memory, connections of others, flushes, and faults that no input brings about.
//! The rows are in `crates/probe/rows`.
#![tactic(auto)]

#[cfg(test)]
mod bench;
#[cfg(test)]
mod keys;
#[cfg(test)]
mod modes;
#[cfg(test)]
mod serve;

/// Fails the test if something doesn't hold, and says of what. A test's proof grows with its branches, so they are here.
#[cfg(test)]
fn expect(rt: &impl std::process::Abort, holds: bool, what: &str) {
    assert!(rt; holds, "{what}");
}
