//! Commands that say which events a terminal reports.
ghost use Rattle.crossterm_c.specs.Command.{AnswersTo, report_text};

use super::GelvanhCommand;
use crate::outlet::{Answer, write_plain};
use crossterm::event::{
    DisableBracketedPaste, DisableFocusChange, DisableMouseCapture, EnableBracketedPaste,
    EnableFocusChange, EnableMouseCapture, KeyboardEnhancementFlags, PopKeyboardEnhancementFlags,
    PushKeyboardEnhancementFlags,
};

/// Writes a command that says which events to report.
pub(super) fn write_event(command: &GelvanhCommand, slice: &mut [u8]) -> Answer
    ensures { AnswersTo (report_text command.now) slice.old slice.new result.length result.outcome }
{
    match command.kind {
        27 => write_plain(&EnableMouseCapture, slice),
        28 => write_plain(&DisableMouseCapture, slice),
        29 => write_plain(&EnableFocusChange, slice),
        30 => write_plain(&DisableFocusChange, slice),
        31 => write_plain(&EnableBracketedPaste, slice),
        32 => write_plain(&DisableBracketedPaste, slice),
        33 => {
            if command.first > 255 {
                return Answer::nothing();
            }
            let flags = KeyboardEnhancementFlags::from_bits_retain(command.first as u8);
            write_plain(&PushKeyboardEnhancementFlags(flags), slice)
        }
        34 => write_plain(&PopKeyboardEnhancementFlags, slice),
        _ => Answer::nothing(),
    }
}
