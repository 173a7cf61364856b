//! What the calls return.
ghost use Rattle.std.specs.Prelude.{◌≡◌};
ghost use Rattle.line_c.specs.Answers.{answer_number, fault_answer};

use line_editor::EditFault;

/// What comes of a call.
#[derive(Clone, Copy, PartialEq, Eq, Debug)]
pub enum Answer {
    /// It is done, and the line goes on.
    GoesOn,
    /// The line was accepted.
    Accepted,
    /// The line was let go, by Ctrl-C.
    Interrupted,
    /// The empty line was closed, by Ctrl-D.
    Closed,
    /// The text has no room in the line. Nothing has changed.
    TooLong,
    /// Memory was refused. Nothing has changed, but after a frame that isn't there: then the next one draws all rows.
    NoMemory,
    /// The numbers are no event's or no style's, a text isn't UTF-8, or a prompt has a control character. Nothing has changed.
    Unknown,
    /// The line goes on, and the bell rings: an incremental search found nothing, or there is none to give up.
    Rings,
}

impl Answer {
    /// Its number, as C has it.
    pub(crate) fn number(self) -> u32
        ensures { result ≡ answer_number self }
    {
        match self {
            Answer::GoesOn => 0,
            Answer::Accepted => 1,
            Answer::Interrupted => 2,
            Answer::Closed => 3,
            Answer::TooLong => 4,
            Answer::NoMemory => 5,
            Answer::Unknown => 6,
            Answer::Rings => 7,
        }
    }
}

/// The answer that names a fault.
pub(crate) fn answer_to(fault: EditFault) -> Answer
    ensures { result ≡ fault_answer fault }
{
    match fault {
        EditFault::TooLong => Answer::TooLong,
        EditFault::Memory => Answer::NoMemory,
    }
}
