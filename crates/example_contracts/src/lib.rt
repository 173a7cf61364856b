//! Bodies of one's own over commands and events, with contracts that prove with no proof file. The module `passes` is what a program learns
//! of two passes of one reader, and `recordings` what it learns of a session that it recorded. `messages` has forms that pass,
//! for those that one writes first and that give a message; most of them are proved to be safe, and no more.
//!
//! What is proved, beyond safety:
//!
//! | Proved | By the contract of |
//! |---|---|
//! | what bodies with `queue!` and `execute!` write, on Ok and if the writer fails; a loop over a parser's events leaves none | `begin`, `put`, `say`, `count` |
//! | of two threads that read, no event went to both, and with no further pass none was lost between them | `passes::{two_threads, two_reads}` |
//! | unless a recording ended early, what was read while it was made is what the same calls read over a script of it | `recordings::read_two` |
#![tactic(auto)]

ghost use Rattle.std.specs.Prelude.{◌≡◌, ◌++◌, ◌≢◌, IfErr, OnOk, [], codes};
ghost use Rattle.std.specs.IoError.{error_kind};
ghost use Rattle.std.specs.Io.KnownBytes.{Appends};
ghost use Rattle.crossterm_parse.specs.View.{RepresentsSame};
ghost use Rattle.crossterm_command.specs.Tokens.{text_of};
ghost use Rattle.crossterm_command.specs.Writing.{AppendsFront};
ghost use Rattle.crossterm_style.specs.Styles.{color_functions};
ghost use Rattle.crossterm_style.specs.declared.types.colored.Colored.TheVariants.{ForegroundColor};
ghost use Rattle.crossterm.specs.Sequences.{move_to};

pub mod messages;
pub mod passes;
pub mod recordings;

use crossterm::cursor::MoveTo;
use crossterm::event::sys::unix::parse::Parser;
use crossterm::style::{Color, ColorOutput, Print, ResetColor, SetForegroundColor};
use crossterm::terminal::{Clear, ClearType};
use crossterm::{QueueableCommand, execute, queue};
use std::io::{self, ErrorKind, Write};

/// Clears the screen and prints `ab`.
///
/// # Errors
///
/// The writer's, which has taken a beginning of these bytes, or one of kind `Other`.
pub fn begin<W: Write>(w: &mut W, colors: ColorOutput) -> io::Result<()>
    ensures ok { OnOk result (Appends (W.contents w.old) (W.contents w.new) (codes "\u{1b}[2Jab")) }
    ensures err { IfErr result (λ e. error_kind e ≢ ErrorKind.Other → AppendsFront (W.contents w.old) (W.contents w.new)
        (codes "\u{1b}[2Jab")) }
{
    queue!(w, colors, Clear(ClearType::All), Print("ab"))
}

/// Prints a text at a place.
///
/// # Errors
///
/// The writer's, which has taken a beginning of these bytes, or one of kind `Other`.
pub fn put<W: Write>(w: &mut W, colors: ColorOutput, at: MoveTo, text: &str) -> io::Result<()>
    ensures ok { OnOk result (Appends (W.contents w.old) (W.contents w.new) (text_of (move_to at.0 at.1) ++ text.now)) }
    ensures err { IfErr result (λ e. error_kind e ≢ ErrorKind.Other → AppendsFront (W.contents w.old) (W.contents w.new)
        (text_of (move_to at.0 at.1) ++ text.now)) }
{
    queue!(w, colors, at, Print(text))
}

/// Prints a text in a colour, and then resets all. It is flushed.
///
/// # Errors
///
/// The writer's, which has taken a beginning of these bytes, or one of kind `Other`.
pub fn say<W: Write>(w: &mut W, colors: ColorOutput, color: Color, text: &str) -> io::Result<()>
    ensures ok { OnOk result (Appends (W.contents w.old) (W.contents w.new)
        (text_of (color_functions colors (ForegroundColor color)) ++ text.now ++ codes "\u{1b}[0m")) }
    ensures err { IfErr result (λ e. error_kind e ≢ ErrorKind.Other → AppendsFront (W.contents w.old) (W.contents w.new)
        (text_of (color_functions colors (ForegroundColor color)) ++ text.now ++ codes "\u{1b}[0m")) }
{
    execute!(
        w,
        colors,
        SetForegroundColor(color),
        Print(text),
        ResetColor
    )
}

/// How many events a parser gives. It has none afterwards, and represents the same open sequence.
pub fn count(parser: &mut Parser) -> usize
    ensures given { parser.new.waiting ≡ [] }
    ensures represents { RepresentsSame parser.old parser.new }
{
    let mut count = 0usize;
    for _ in parser.events() {
        count = count.saturating_add(1);
    }
    count
}
