//! What is particular to a system.

pub mod unix;
