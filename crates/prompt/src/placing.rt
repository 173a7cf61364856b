//! Questions to the terminal: the size of its window, and the place of its cursor.
ghost use Rattle.std.specs.Prelude.{◌≡◌, ◌<◌, ◌≤◌, true, false, IfOk, IsTrue, is_some};
ghost use Rattle.crossterm_read.specs.PassViews.{knows};
ghost use Rattle.prompt.specs.Frames.{area_of};
ghost use Rattle.prompt.specs.inside.Turning.{MayAsk, MayQuery};

use crate::asking::Prompt;
use crate::rows::Rows;
use crossterm::event::source::EventSource;
use crossterm::event::timeout::Clock;
use crossterm::terminal::ModeDevice;
use own_terminal::Session;
use std::alloc::Global;
use std::io::{self, ErrorKind, Write};
use std::sync::Wait;

/// The columns and rows of a window. 0 of them, as a serial line says, count as 80 and 24, as in readline.
pub(crate) fn size_of<S: EventSource<Global>, D: ModeDevice, W: Write + Drop, C: Clock + Drop>(
    tty: &mut Session<S, D, W, C>,
) -> io::Result<(u16, u16)>
    ensures others { (tty.new.out ≡ tty.old.out) × (tty.new.pass ≡ tty.old.pass) × (tty.new.features ≡ tty.old.features) }
    ensures mode { tty.new.term.prior ≡ tty.old.term.prior }
    ensures some { IfOk result (λ size. (0 < size.0) × (0 < size.1)) }
{
    match tty.size() {
        Ok((columns, rows)) => {
            let columns = if columns == 0 { 80 } else { columns };
            let rows = if rows == 0 { 24 } else { rows };
            Ok((columns, rows))
        }
        Err(error) => Err(error),
    }
}

/// The window's columns and rows, for which the window is asked if the prompt doesn't know them.
pub(crate) fn size_for<S: EventSource<Global>, D: ModeDevice, W: Write + Drop, C: Clock + Drop, H>(
    tty: &mut Session<S, D, W, C>,
    prompt: &Prompt<'_, H>,
) -> io::Result<(u16, u16)>
    ensures others { (tty.new.out ≡ tty.old.out) × (tty.new.pass ≡ tty.old.pass) × (tty.new.features ≡ tty.old.features) }
    ensures mode { tty.new.term.prior ≡ tty.old.term.prior }
{
    if let Some(known) = prompt.size.get() {
        return Ok(known);
    }
    match size_of(tty) {
        Ok(size) => {
            prompt.size.set(Some(size));
            Ok(size)
        }
        Err(error) => Err(error),
    }
}

/// The cursor's column, if the terminal is asked and answers. One that doesn't is asked no more.
fn ask<S: EventSource<Global>, D: ModeDevice, W: Write + Drop, C: Clock + Drop, R: Wait>(
    rt: &R,
    tty: &mut Session<S, D, W, C>,
    rows: &mut Rows,
) -> io::Result<Option<u16>>
    ensures asked { MayAsk S.drawn S.asked (knows tty.old.pass) (knows tty.new.pass) }
    ensures query { MayQuery rows.old.is_asked (W.contents tty.old.out) (W.contents tty.new.out) }
    ensures silent { IfOk result (λ place. rows.new.is_asked ≡ is_some place) }
    ensures fewer { rows.new.is_asked ≡ true → rows.old.is_asked ≡ true }
    ensures area { (area_of rows.new) ≡ (area_of rows.old) }
    ensures features { tty.new.features ≡ tty.old.features }
    ensures mode { IsTrue (is_some tty.old.term.prior) → tty.new.term.prior ≡ tty.old.term.prior }
{
    if !rows.is_asked {
        return Ok(None);
    }
    match tty.position(rt) {
        Ok((column, _)) => Ok(Some(column)),
        Err(error) => {
            if error.kind() == ErrorKind::Other {
                rows.is_asked = false;
                Ok(None)
            } else {
                Err(error)
            }
        }
    }
}

/// How many rows above the cursor the first row is in a window of so many columns, as far as the terminal reports the cursor's place.
pub(crate) fn find_start<
    S: EventSource<Global>,
    D: ModeDevice,
    W: Write + Drop,
    C: Clock + Drop,
    R: Wait,
>(rt: &R, tty: &mut Session<S, D, W, C>, rows: &mut Rows, columns: u16) -> io::Result<u16>
    ensures asked { MayAsk S.drawn S.asked (knows tty.old.pass) (knows tty.new.pass) }
    ensures query { MayQuery rows.old.is_asked (W.contents tty.old.out) (W.contents tty.new.out) }
    ensures above { IfOk result (λ above. rows.old.block.row ≤ above) }
    ensures fewer { rows.new.is_asked ≡ true → rows.old.is_asked ≡ true }
    ensures area { (area_of rows.new) ≡ (area_of rows.old) }
    ensures features { tty.new.features ≡ tty.old.features }
    ensures mode { IsTrue (is_some tty.old.term.prior) → tty.new.term.prior ≡ tty.old.term.prior }
{
    match ask(rt, tty, rows) {
        Ok(Some(column)) => Ok(rows.rows_above(columns, column)),
        Ok(None) => Ok(rows.row()),
        Err(error) => Err(error),
    }
}
