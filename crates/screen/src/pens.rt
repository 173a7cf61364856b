//! Pens: strokes on their way to a writer.
ghost use Rattle.std.specs.Prelude.{◌≡◌, ◌∷◌, [], IsTrue, List, None, OnErr, OnOk, Option, Some, false, ℕ};
ghost use Rattle.screen.specs.inside.Blocks.{PutsTokens, step_tokens};
ghost use Rattle.screen.specs.inside.Pens.{Breaks, Ends, PutsStrokes, PutsText};
ghost use Rattle.screen.specs.declared.strokes.Stroke.TheVariants as stroke;

use crate::cells::Cell;
use crate::steps::Step;
use crate::strokes::{Stroke, Written};
use arrayvec::ArrayString;
use crossterm_command::{ColorOutput, Command, CommandFault, write_text};
use std::io;

/// More than the longest stroke, which is a style: a reset of 4 bytes, three colours of 19, and 28 attributes of 6.
const LONGEST: usize = 512;

/// A text that waits to be written, and the first fault. Nothing is written after that. `in_row` is whether all stays in the cursor's row.
#[derive(Drop)]
pub(crate) struct Pen {
    colors: ColorOutput,
    in_row: bool,
    waiting: ArrayString<4096>,
    fault: Option<CommandFault>,
}

impl Pen {
    /// A pen of nothing.
    pub(crate) fn new(colors: ColorOutput, in_row: bool) -> Pen
        ensures colors { result.colors ≡ colors }
        ensures in_row { result.in_row ≡ in_row }
        ensures waiting { result.waiting.bytes ≡ [] }
        ensures fault { result.fault ≡ None }
    {
        Pen {
            colors,
            in_row,
            waiting: ArrayString::new(),
            fault: None,
        }
    }
}

/// Writes what waits.
fn hand_on<W: io::Write>(writer: &mut W, pen: &mut Pen)
    ensures { PutsStrokes [] (W.contents writer.old) pen.old (W.contents writer.new) pen.new }
{
    match pen.fault {
        Some(_) => {}
        None => match write_text(writer, pen.waiting.as_str()) {
            Ok(()) => pen.waiting.clear(),
            Err(error) => pen.fault = Some(CommandFault::Writer(error)),
        },
    }
}

/// Writes what waits if the longest stroke has no room behind it.
fn make_room<W: io::Write>(writer: &mut W, pen: &mut Pen)
    ensures { PutsStrokes [] (W.contents writer.old) pen.old (W.contents writer.new) pen.new }
{
    if pen.waiting.remaining_capacity() < LONGEST {
        hand_on(writer, pen);
    }
}

/// Puts a command's text behind what waits.
fn take<C: Command>(pen: &mut Pen, command: &C)
    ensures { (text : List ℕ) (known : Option (List ℕ)) → C.text command.now pen.old.colors ≡ Some text → PutsText text known pen.old known pen.new }
{
    match pen.fault {
        Some(_) => {}
        None => match command.write_ansi(&mut pen.waiting, pen.colors) {
            Ok(()) => {}
            Err(_) => pen.fault = Some(CommandFault::Text),
        },
    }
}

/// Puts a stroke behind the ones before.
pub(crate) fn put<W: io::Write>(writer: &mut W, pen: &mut Pen, stroke: Stroke)
    ensures { PutsStrokes (stroke ∷ []) (W.contents writer.old) pen.old (W.contents writer.new) pen.new }
{
    make_room(writer, pen);
    let written = Written {
        in_row: pen.in_row,
        stroke: &stroke,
    };
    take(pen, &written);
}

/// Puts a cell's character behind what waits at once, if it is one of ASCII without marks and has room there. Returns whether it did.
fn push(pen: &mut Pen, cell: &Cell) -> bool
    ensures pushed { (known : Option (List ℕ)) → IsTrue result → PutsStrokes (stroke.Print cell.now.symbol cell.now.marks ∷ []) known pen.old known pen.new }
    ensures kept { result ≡ false → pen.new ≡ pen.old }
{
    let symbol = cell.symbol();
    if symbol < '\u{80}' && pen.fault.is_none() && cell.marks().is_empty() {
        match pen.waiting.try_push(symbol) {
            Ok(()) => true,
            Err(_) => false,
        }
    } else {
        false
    }
}

/// Prints a cell's character and its marks.
pub(crate) fn put_print<W: io::Write>(writer: &mut W, pen: &mut Pen, cell: &Cell)
    ensures { PutsStrokes (stroke.Print cell.now.symbol cell.now.marks ∷ []) (W.contents writer.old) pen.old (W.contents writer.new) pen.new }
{
    if !push(pen, cell) {
        put(writer, pen, Stroke::Print(cell.symbol(), cell.marks()));
    }
}

/// Puts a step of a block behind the strokes before.
pub(crate) fn put_step<W: io::Write>(writer: &mut W, pen: &mut Pen, step: Step)
    ensures { PutsTokens (step_tokens step) (W.contents writer.old) pen.old (W.contents writer.new) pen.new }
{
    make_room(writer, pen);
    take(pen, &step);
}

/// Writes the last of what waits, and returns the first fault.
pub(crate) fn finish<W: io::Write>(writer: &mut W, pen: &mut Pen) -> Result<(), CommandFault>
    ensures ok { OnOk result (Ends pen.old.waiting.bytes pen.old.fault (W.contents writer.old) (W.contents writer.new)) }
    ensures err { OnErr result (Breaks pen.old.waiting.bytes pen.old.fault (W.contents writer.old) (W.contents writer.new)) }
{
    match pen.fault.take() {
        Some(fault) => Err(fault),
        None => match write_text(writer, pen.waiting.as_str()) {
            Ok(()) => Ok(()),
            Err(error) => Err(CommandFault::Writer(error)),
        },
    }
}
