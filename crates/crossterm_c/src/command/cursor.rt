//! Commands of the cursor.
ghost use Rattle.crossterm_c.specs.Command.{AnswersTo, cursor_text};

use super::GelvanhCommand;
use crate::outlet::{Answer, write_plain};
use crossterm::cursor::{
    DisableBlinking, EnableBlinking, Hide, MoveDown, MoveLeft, MoveRight, MoveTo, MoveToColumn,
    MoveToNextLine, MoveToPreviousLine, MoveToRow, MoveUp, RestorePosition, SavePosition,
    SetCursorStyle, Show,
};

/// Writes a command of the cursor.
pub(super) fn write_cursor(command: &GelvanhCommand, slice: &mut [u8]) -> Answer
    ensures { AnswersTo (cursor_text command.now) slice.old slice.new result.length result.outcome }
{
    let (first, second) = (command.first, command.second);
    match command.kind {
        0 => write_plain(&MoveTo(first, second), slice),
        1 => write_plain(&MoveToColumn(first), slice),
        2 => write_plain(&MoveToRow(first), slice),
        3 => write_plain(&MoveToNextLine(first), slice),
        4 => write_plain(&MoveToPreviousLine(first), slice),
        5 => write_plain(&MoveUp(first), slice),
        6 => write_plain(&MoveDown(first), slice),
        7 => write_plain(&MoveRight(first), slice),
        8 => write_plain(&MoveLeft(first), slice),
        9 => write_plain(&SavePosition, slice),
        10 => write_plain(&RestorePosition, slice),
        11 => write_plain(&Hide, slice),
        12 => write_plain(&Show, slice),
        13 => write_plain(&EnableBlinking, slice),
        14 => write_plain(&DisableBlinking, slice),
        15 => match SetCursorStyle::all().get(usize::from(first)) {
            Some(shape) => write_plain(shape, slice),
            None => Answer::nothing(),
        },
        _ => Answer::nothing(),
    }
}
