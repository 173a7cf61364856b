//! What bytes come from.
ghost use Rattle.std.specs.Prelude.{◌≡◌, ◌≤◌, ◌+◌, ℕ, List, [], ◌∷◌, ◌++◌, length, Option, IfOk, IfErr, OnOk, OnErr, ⊤};
ghost use Rattle.std.specs.IoError.{error_kind};
ghost use Rattle.std.specs.declared.io.ErrorKind.{ErrorKind};
ghost use Rattle.std.specs.declared.io.ErrorKind.TheVariants.{OutOfMemory};
ghost use Rattle.std.specs.declared.time.Duration.{Duration};
ghost use Rattle.crossterm_read.specs.Device.{Answering, anything, device_answer, CountWithin, AsksWith};
ghost use Rattle.crossterm_read.specs.declared.source.waker.Waker.{Waker};

use crate::source::Waker;
use std::io;
use std::time::Duration;

/// One answer of a device.
#[derive(Clone, Copy, Debug)]
pub enum Answer {
    /// So many bytes are at the beginning of the buffer, at most as many as it holds; none is the end of input. `raw` is the mode that the
    /// terminal was in when they were typed: in raw mode a line feed is Ctrl-J, and else Enter.
    Bytes {
        /// How many bytes.
        count: usize,
        /// Whether they came in raw mode.
        raw: bool,
    },
    /// The terminal has a new size: columns and rows.
    Resize(u16, u16),
    /// A waker of this device was used.
    Woken,
    /// Nothing came within the limit.
    Idle,
}

/// Reports bytes, resizes and wake-ups: what a program's events come from.
///
/// One that never fails, and claims nothing of what it reports, writes its three calls alone. One that may fail counts its failures, and
/// says so by `ghost failed = { λ input. input.failures };`.
///
/// ```
/// impl Device for Pieces {
///     fn answer(&mut self, buf: &mut [u8], _limit: Option<Duration>) -> io::Result<Answer> {
///         let Some(piece) = self.pieces.get(self.next) else {
///             return Ok(Answer::Bytes { count: 0, raw: true });
///         };
///         self.next += 1;
///         let count = piece.len().min(buf.len());
///         buf[..count].copy_from_slice(&piece[..count]);
///         Ok(Answer::Bytes { count, raw: true })
///     }
///
///     fn failures(&self) -> u64 {
///         0
///     }
///
///     fn waker(&self) -> io::Result<Waker> {
///         Ok(Waker::none())
///     }
/// }
/// ```
pub trait Device: Drop {
    /// What the device reports, of which there are two laws: nothing, if it doesn't say more.
    ghost answering: { Answering Self } = { anything };

    /// How often the device failed: never, if it doesn't say more.
    ghost failed: { Self → ℕ } = { λ _. 0 };

    /// The kinds of its errors: any, if it doesn't say more.
    ghost fails: { ErrorKind → Type 0 } = { λ _. ⊤ };

    /// The limits that the device was asked with, in order: none, if it doesn't say more.
    ghost asked: { Self → List (Option Duration) } = { λ _. [] };

    /// The wakers of this device: any, if it doesn't say more.
    ghost wakes: { Self → Waker → Type 0 } = { λ _ _. ⊤ };

    /// Answers once, after the limit at the latest, if there is one. Bytes are put into `buf`, which holds 1024.
    ///
    /// # Errors
    ///
    /// The device's own, and then `failed` has risen by one.
    fn answer(&mut self, buf: &mut [u8], limit: Option<Duration>) -> io::Result<Answer>
        requires { length buf.now ≡ 1024 }
        // What it answers is among what it may report.
        ensures answered { answering.answered self.old (device_answer result buf.new ∷ []) self.new }
        ensures count { IfOk result (λ a. CountWithin a (length buf.new)) }
        // It was asked with this limit, and with no other.
        ensures asked { AsksWith limit (asked self.old) (asked self.new) }
        // Its failures rise by one if it returns an error, and only then.
        ensures rise { failed self.old ≤ failed self.new }
        ensures ok { OnOk result (failed self.new ≡ failed self.old) }
        ensures err { OnErr result (failed self.new ≡ failed self.old + 1) }
        ensures fault { IfErr result (λ e. fails (error_kind e)) };

    /// How often the device failed.
    fn failures(&self) -> u64
        ensures { result ≡ failed self.now };

    /// A waker of this device.
    ///
    /// # Errors
    ///
    /// `OutOfMemory` if memory was refused.
    fn waker(&self) -> io::Result<Waker>
        ensures waker { IfOk result (wakes self.now) }
        ensures err { IfErr result (λ e. error_kind e ≡ OutOfMemory) };
}
