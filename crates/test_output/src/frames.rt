//! Screens from outside: what is written is read by a plain program of the test, which shows it on cells of its own.

mod areas;
mod blocks;
mod cells;
mod failing;
mod growth;
mod marks;
mod paper;
mod paragraphs;
mod prints;
mod random;
mod refused;
mod rows;
mod sizes;
mod strips;
mod wide;
