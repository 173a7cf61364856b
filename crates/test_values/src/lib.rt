//! Tests of flags, keys, events, colours, styles and lines that are edited: tables that come from outside, as names and JSON forms, and what no contract says.
#![tactic(auto)]

#[cfg(test)]
mod attributes;
#[cfg(test)]
mod clocks;
#[cfg(test)]
mod colors;
#[cfg(test)]
mod events;
#[cfg(test)]
mod flags;
#[cfg(test)]
mod keys;
#[cfg(test)]
mod lines;
#[cfg(test)]
mod looks;
#[cfg(test)]
mod names;
#[cfg(test)]
mod predicates;
#[cfg(test)]
mod styles;
