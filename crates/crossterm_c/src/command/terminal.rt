//! Commands of the terminal.
ghost use Rattle.crossterm_c.specs.Command.{AnswersTo, terminal_text};

use super::GelvanhCommand;
use crate::outlet::{Answer, write_plain};
use crossterm::terminal::{
    BeginSynchronizedUpdate, Clear, ClearType, DisableLineWrap, EnableLineWrap,
    EndSynchronizedUpdate, EnterAlternateScreen, LeaveAlternateScreen, ScrollDown, ScrollUp,
    SetSize,
};

/// Writes a command of the terminal.
pub(super) fn write_terminal(command: &GelvanhCommand, slice: &mut [u8]) -> Answer
    ensures { AnswersTo (terminal_text command.now) slice.old slice.new result.length result.outcome }
{
    let (first, second) = (command.first, command.second);
    match command.kind {
        16 => write_plain(&DisableLineWrap, slice),
        17 => write_plain(&EnableLineWrap, slice),
        18 => write_plain(&EnterAlternateScreen, slice),
        19 => write_plain(&LeaveAlternateScreen, slice),
        20 => match ClearType::all().get(usize::from(first)) {
            Some(cleared) => write_plain(&Clear(*cleared), slice),
            None => Answer::nothing(),
        },
        21 => write_plain(&ScrollUp(first), slice),
        22 => write_plain(&ScrollDown(first), slice),
        23 => write_plain(&SetSize(first, second), slice),
        25 => write_plain(&BeginSynchronizedUpdate, slice),
        26 => write_plain(&EndSynchronizedUpdate, slice),
        _ => Answer::nothing(),
    }
}
