//! Tests of what is built on the reader: the reader that threads share, streams of events, and key bindings. They test what no contract
//! says, as that a poll is woken, that a call ends, and that each event comes to one pass alone.
//!
//! Each ends by itself within seconds: devices have an end of input after a number of turns, and each turn is a nap of a millisecond.
#![tactic(auto)]

#[cfg(test)]
mod bindings;
#[cfg(test)]
mod gates;
#[cfg(test)]
mod parts;
#[cfg(test)]
mod recordings;
#[cfg(test)]
mod shared;
#[cfg(test)]
mod stream;
#[cfg(test)]
mod stream_shares;
