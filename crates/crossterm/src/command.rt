//! Commands, and how they get to a writer.

mod any;
mod sequence;
mod synchronized;

pub use any::{AnyCommand, queue_all, write_commands};
pub(crate) use crossterm_command::execute_fmt;
pub use crossterm_command::{
    Command, CommandFault, ExecutableCommand, QueueableCommand, execute_command, queue_command,
    send_command, write_command,
};
pub(crate) use sequence::{write_number, write_numbers};
pub use synchronized::SynchronizedUpdate;
