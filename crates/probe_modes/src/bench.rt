//! `probe bench`: counts what the parser makes of some bytes, writes a frame of commands, draws frames of a screen, and times all three. It
//! also times keys that come while replies are held, keys that are recorded, and keys that are fed to a matcher of bindings. `mode::Mode` is
//! what the words after `bench` ask for.
//!
//! Beside it are two bodies with the macros of `crossterm`, of which it is proved what they write.
ghost use Rattle.std.specs.Prelude.{◌≢◌, OnOk, IfErr, codes};
ghost use Rattle.std.specs.IoError.{error_kind};
ghost use Rattle.std.specs.Io.KnownBytes.{Appends};
ghost use Rattle.crossterm_command.specs.Writing.{AppendsFront};

mod cells;
pub mod frame;
mod held;
mod input;
mod keys;
mod letters;
pub mod mode;
mod reading;
mod recorded;
pub mod taken;
pub mod timing;
mod workload;

use crossterm::cursor::{MoveTo, Show};
use crossterm::style::{ColorOutput, Print};
use crossterm::{QueueableCommand, execute, queue};
use std::io;
use std::io::ErrorKind;

/// Prints at the screen's first cell.
#[tactic(auto, using(crate::proofs::Cells::first_cell))]
pub fn print_first<W: io::Write>(w: &mut W, colors: ColorOutput) -> io::Result<()>
    ensures ok { OnOk result (Appends (W.contents w.old) (W.contents w.new) (codes "\u{1b}[1;1Hab")) }
    ensures err { IfErr result (λ e. error_kind e ≢ ErrorKind.Other → AppendsFront (W.contents w.old) (W.contents w.new)
        (codes "\u{1b}[1;1Hab")) }
{
    queue!(w, colors, MoveTo(0, 0), Print("ab"))
}

/// Shows the cursor at once.
pub fn show_now<W: io::Write>(w: &mut W, colors: ColorOutput) -> io::Result<()>
    ensures ok { OnOk result (Appends (W.contents w.old) (W.contents w.new) (codes "\u{1b}[?25h")) }
    ensures err { IfErr result (λ e. error_kind e ≢ ErrorKind.Other → AppendsFront (W.contents w.old) (W.contents w.new)
        (codes "\u{1b}[?25h")) }
{
    execute!(w, colors, Show,)
}
