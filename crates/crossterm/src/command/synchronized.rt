//! Several writes that a terminal shows as one.
ghost use Rattle.std.specs.Prelude.{OnOk, OnErr, IfOk};
ghost use Rattle.std.specs.Fn.{FnOnceReturnsAtMut};
ghost use Rattle.std.specs.Io.KnownBytes.{Appends};
ghost use Rattle.crossterm_command.specs.Writing.{AppendsFront};
ghost use Rattle.crossterm_command.specs.Controls.{reset};
ghost use Rattle.crossterm_command.specs.Tokens.{text_of};
ghost use Rattle.crossterm.specs.Updates.{Synchronized, StopsSynchronized};

use crate::terminal::{BEGIN_UPDATE, END_UPDATE};
use crossterm_command::write_text;
use std::io;

/// Writes the end of an update, and flushes.
fn end_update<W: io::Write>(writer: &mut W) -> io::Result<()>
    ensures ok { OnOk result (Appends (W.contents writer.old) (W.contents writer.new) (text_of (reset "2026"))) }
    ensures err { OnErr result (AppendsFront (W.contents writer.old) (W.contents writer.new) (text_of (reset "2026"))) }
{
    match write_text(writer, END_UPDATE) {
        Ok(()) => writer.flush(),
        Err(e) => Err(e),
    }
}

/// Shows several writes at once.
pub trait SynchronizedUpdate: io::Write {
    /// Writes the beginning of an update, and calls the closure once on the writer as it then is. After what the closure left it writes the
    /// update's end, and flushes. It returns what the closure returned.
    ///
    /// # Errors
    ///
    /// The writer's own, of whatever kind. If the beginning failed, the closure wasn't called.
    ///
    /// ```
    /// let painted = out.sync_update(|w| queue!(w, colors, Clear(ClearType::All), Print("ab")))?;
    /// painted?;
    /// ```
    fn sync_update<T: Drop, F: FnOnce(&mut Self) -> T>(&mut self, operations: F) -> io::Result<T>
    where
        Self: Sized,
        requires { F.IsAlwaysCallable operations }
        ensures ok { IfOk result (λ r. Synchronized Self.contents
            (λ old new. FnOnceReturnsAtMut F.FnOnce operations old r new) self.old self.new) }
        ensures err { OnErr result (StopsSynchronized Self.contents
            (λ old r new. FnOnceReturnsAtMut F.FnOnce operations old r new) self.old self.new) };
}

impl<W: io::Write> SynchronizedUpdate for W {
    fn sync_update<T: Drop, F: FnOnce(&mut W) -> T>(&mut self, operations: F) -> io::Result<T> {
        match write_text(self, BEGIN_UPDATE) {
            Ok(()) => {}
            Err(e) => return Err(e),
        }
        let outcome = operations(self);
        match end_update(self) {
            Ok(()) => Ok(outcome),
            Err(e) => Err(e),
        }
    }
}
