//! How often a write is tried again.
ghost use Rattle.std.specs.Prelude.{◌≡◌, ◌+◌, ◌<◌, ◌↔◌, IsTrue};
ghost use Rattle.std.specs.IoError.{error_kind};

use std::io;
use std::io::ErrorKind;

/// How often in a row a write that is interrupted is tried again.
const TRIES: u32 = 64;

/// The tries that a write has left.
#[derive(Clone, Copy)]
pub(crate) struct Tries {
    left: u32,
}

impl Tries {
    /// As many as a write has in a row.
    pub(crate) fn new() -> Tries
        ensures { result.left ≡ 64 }
    {
        Tries { left: TRIES }
    }

    /// Takes a try, if the write was interrupted and one is left.
    pub(crate) fn take(&mut self, fault: &io::Error) -> bool
        ensures again { IsTrue result ↔ ((error_kind fault.now ≡ ErrorKind.Interrupted) × (0 < self.old.left)) }
        ensures one { IsTrue result → self.new.left + 1 ≡ self.old.left }
    {
        if self.left == 0 || fault.kind() != ErrorKind::Interrupted {
            return false;
        }
        self.left -= 1;
        true
    }
}
