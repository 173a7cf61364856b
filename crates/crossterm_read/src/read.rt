//! Holds events until they are read.

mod call;
mod held;
mod patience;
mod queries;
mod reader;
mod shared;
mod trace;
mod waiting;

pub use call::{Call, Reply};
pub use held::Held;
pub use reader::InternalEventReader;
pub use shared::{EventReader, Pass};
pub use trace::{Trace, play};
