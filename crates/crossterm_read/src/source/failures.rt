//! Errors of the system, and which of them count.
ghost use Rattle.std.specs.Prelude.{◌≡◌, ◌+◌, ◌⊎◌, IfOk, IfErr};
ghost use Rattle.std.specs.IoError.{error_kind};
ghost use Rattle.crossterm_read.specs.Reading.{IsFault, IsNothingYet, greatest};
ghost use Rattle.crossterm_read.specs.declared.source.device.Answer.TheVariants.{Idle};

use crate::source::Answer;
use std::io::{self, ErrorKind};

/// What a device answers at an error of the system. It counts as a failure, and is answered, unless it says that nothing came yet, or no
/// more failures can be counted.
pub(crate) fn answer_at(failures: &mut u64, error: io::Error) -> io::Result<Answer>
    ensures ok { IfOk result (λ a. (a ≡ Idle) × (failures.new ≡ failures.old)) }
    ensures passed { IfOk result (λ _. IsNothingYet (error_kind error) ⊎ (failures.old ≡ greatest)) }
    ensures counted { IfErr result (λ e. (e ≡ error) × (failures.new ≡ failures.old + 1)) }
    ensures met { IfErr result (λ e. IsFault (error_kind e)) }
{
    match error.kind() {
        ErrorKind::WouldBlock | ErrorKind::Interrupted => Ok(Answer::Idle),
        _ => {
            if *failures == u64::MAX {
                return Ok(Answer::Idle);
            }
            *failures += 1;
            Err(error)
        }
    }
}
