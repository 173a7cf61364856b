//! What is seen of a line in one row.
ghost use Rattle.std.specs.Prelude.{◌≡◌, ◌-◌, IfOk, OnOk, chars};
ghost use Rattle.prompt.specs.Drawing.{column_behind, inside};
ghost use Rattle.prompt.specs.Pictures.{IsPicture, column_after, dim_style, printed_from, printed_runs, shown_prompt};
ghost use Rattle.prompt.specs.Shown.{runs_of};

use crate::prompts::{has_room, hint_behind, parted};
use crate::shown::Shown;
use crossterm::style::{Attribute, Attributes, ContentStyle, StyledContent};
use screen::{Buffer, CellFault};
use std::alloc::Allocator;

/// What is shown for a character that no cell can hold.
const REPLACEMENT: char = '\u{FFFD}';

/// What a row shows beside its cells: the cursor's column, and whether a hint is behind the line.
#[derive(Clone, Copy)]
pub(crate) struct Filled {
    pub(crate) column: u16,
    pub(crate) has_hint: bool,
}

/// A column, or the last one of so many if it is behind that.
fn inside(width: u16, column: u16) -> u16
    ensures { result ≡ inside width column }
{
    let last = width.saturating_sub(1);
    if column <= last { column } else { last }
}

/// Whether a text had room from a column to another: it took as many columns as were counted, or one more is left than the cursor's.
fn had_room(width: u16, from: u16, to: u16, count: usize) -> bool {
    to < width.saturating_sub(1) || usize::from(to.saturating_sub(from)) == count
}

/// The style of a hint.
pub(crate) fn dim() -> ContentStyle
    ensures { result ≡ dim_style }
{
    ContentStyle {
        attributes: Attributes::none().with(Attribute::Dim),
        ..ContentStyle::new()
    }
}

/// Prints a text from a column on, and returns the column behind it.
fn print(
    buffer: &mut Buffer,
    column: u16,
    text: &str,
    style: ContentStyle,
) -> Result<u16, CellFault>
    ensures width { buffer.new.width ≡ buffer.old.width }
    ensures shown { OnOk result (buffer.new ≡ printed_from buffer.old column text.now style) }
    ensures behind { IfOk result (λ end. end ≡ column_behind buffer.old.width column (chars text.now)) }
{
    let used = buffer.print_replacing(column, 0, text, REPLACEMENT, style)?;
    Ok(column.saturating_add(used))
}

/// Prints a text and the parts behind it, and returns the column behind them.
fn print_runs(
    buffer: &mut Buffer,
    text: &str,
    parts: &[StyledContent<&str>],
) -> Result<u16, CellFault>
    ensures width { OnOk result (buffer.new.width ≡ buffer.old.width) }
    ensures shown { OnOk result (buffer.new ≡ printed_runs buffer.old.width buffer.old 0 (runs_of text.now parts.now)) }
    ensures behind { IfOk result (λ end. end ≡ column_after buffer.old.width 0 (runs_of text.now parts.now)) }
{
    let mut column = print(buffer, 0, text, ContentStyle::new())?;
    for part in parts {
        column = print(buffer, column, part.content(), *part.style())?;
    }
    Ok(column)
}

/// Prints a prompt if it leaves enough columns to the line, and returns the column behind it.
fn print_prompt<A: Allocator>(buffer: &mut Buffer, what: &Shown<'_, A>) -> Result<u16, CellFault>
    ensures width { OnOk result (buffer.new.width ≡ buffer.old.width) }
    ensures shown { OnOk result (buffer.new ≡ printed_runs buffer.old.width buffer.old 0 (shown_prompt buffer.old.width what.now.prompt)) }
    ensures behind { IfOk result (λ end. end ≡ column_after buffer.old.width 0 (shown_prompt buffer.old.width what.now.prompt)) }
{
    if has_room(what.text, what.parts, buffer.width()) {
        print_runs(buffer, what.text, what.parts)
    } else {
        Ok(0)
    }
}

/// Prints a prompt, what is seen of a line in so many columns with the prompt, and a hint behind the line if the cursor is at its end. The cursor
/// is behind what was printed before it. Also returns whether all of that has room: a character of no column that is replaced takes one that the
/// line doesn't count.
fn fill<A: Allocator>(
    buffer: &mut Buffer,
    what: &Shown<'_, A>,
    columns: u16,
) -> Result<(Filled, bool), CellFault>
    ensures size { OnOk result ((buffer.new.width ≡ buffer.old.width) × (buffer.new.height ≡ buffer.old.height)) }
    ensures picture { IfOk result (λ found. IsPicture buffer.old.width what.now buffer.new found.0.column found.0.has_hint) }
{
    let width = buffer.width();
    buffer.fill(' ', ContentStyle::new())?;
    let start = print_prompt(buffer, what)?;
    let (text, count) = what.line.seen(columns.saturating_sub(start));
    let behind = what.line.after();
    let (before, after) = parted(text, count, behind);
    let cursor = print(buffer, start, before, ContentStyle::new())?;
    let end = print(buffer, cursor, after, ContentStyle::new())?;
    let hint = hint_behind(behind, what.hint, width.saturating_sub(end));
    print(buffer, end, hint, dim())?;
    let filled = Filled {
        column: inside(width, cursor),
        has_hint: !hint.is_empty(),
    };
    Ok((filled, had_room(width, start, cursor, count)))
}

/// Prints all that is shown, with as much of the line as has room.
pub(crate) fn fit<A: Allocator>(
    buffer: &mut Buffer,
    what: &Shown<'_, A>,
) -> Result<Filled, CellFault>
    ensures size { OnOk result ((buffer.new.width ≡ buffer.old.width) × (buffer.new.height ≡ buffer.old.height)) }
    ensures picture { IfOk result (λ filled. IsPicture buffer.old.width what.now buffer.new filled.column filled.has_hint) }
{
    let width = buffer.width();
    let (mut filled, has_room) = fill(buffer, what, width)?;
    if has_room {
        return Ok(filled);
    }
    for columns in (0..width).rev() {
        let (found, has_room) = fill(buffer, what, columns)?;
        filled = found;
        if has_room {
            break;
        }
    }
    Ok(filled)
}
