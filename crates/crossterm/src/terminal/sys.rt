//! What is particular to a system.

pub mod stty;
pub mod unix;
