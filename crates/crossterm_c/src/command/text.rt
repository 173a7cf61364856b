//! Commands with a text of their own.
ghost use Rattle.std.specs.Prelude.{Some, IsSomeAnd, OnOk};
ghost use Rattle.std.specs.Fmt.{WritesInCalls};
ghost use Rattle.crossterm_command.specs.Tokens.{text_of};
ghost use Rattle.crossterm.specs.Sequences.{set_title};
ghost use Rattle.crossterm_c.specs.Command.{HasNotFailed, AnswersText, AnswersTo, copied, outcome_at, output_of, printed};

use super::{GelvanhCommand, output_of};
use crate::command::style::command_style;
use crate::outlet::{Answer, put, write, write_plain};
use base64::display::Base64Display;
use base64::engine::general_purpose::STANDARD;
use crossterm::Command;
use crossterm::style::{ColorOutput, PrintStyledContent};
use crossterm::terminal::SetTitle;
use std::fmt;

/// Prints a text, in UTF-8: the command `Print`. It returns as `gelvanh_command` does, but never 3, and 2 if the text isn't UTF-8.
#[unsafe(no_mangle)]
pub extern "C" fn gelvanh_print(text: &[u8], slice: &mut [u8], length: &mut usize) -> u32
    ensures { IsSomeAnd (outcome_at result) (λ outcome. AnswersText text.now (Some text.now) slice.old slice.new length.new outcome × HasNotFailed outcome) }
{
    let answer = match str::from_utf8(text) {
        Ok(text) => put(text, slice),
        Err(_) => Answer::nothing(),
    };
    answer.report(length)
}

/// Sets the window's title, in UTF-8: the command `SetTitle`. It returns as `gelvanh_print` does.
#[unsafe(no_mangle)]
pub extern "C" fn gelvanh_set_title(title: &[u8], slice: &mut [u8], length: &mut usize) -> u32
    ensures { IsSomeAnd (outcome_at result) (λ outcome. AnswersText title.now (Some (text_of (set_title title.now))) slice.old slice.new length.new outcome) }
{
    let answer = match str::from_utf8(title) {
        Ok(title) => write_plain(&SetTitle(title), slice),
        Err(_) => Answer::nothing(),
    };
    answer.report(length)
}

/// Prints a text in the style of a command, if it has one.
fn print_styled(style: &GelvanhCommand, text: &str, colors: ColorOutput, slice: &mut [u8]) -> Answer
    ensures { AnswersTo (printed colors style.now text.now) slice.old slice.new result.length result.outcome }
{
    match command_style(style) {
        Some(style) => write(&PrintStyledContent(style.apply(text)), colors, slice),
        None => Answer::nothing(),
    }
}

/// Prints a text, in UTF-8, in the style of a command's colours and attributes, and ends the style: the command `PrintStyledContent`. It
/// returns as `gelvanh_print` does, and 2 too if the numbers are no style.
#[unsafe(no_mangle)]
pub extern "C" fn gelvanh_print_styled(
    style: &GelvanhCommand,
    text: &[u8],
    colors: bool,
    slice: &mut [u8],
    length: &mut usize,
) -> u32
    ensures { IsSomeAnd (outcome_at result) (λ outcome. AnswersText text.now (printed (output_of colors) style.now text.now) slice.old slice.new length.new outcome) }
{
    let answer = match str::from_utf8(text) {
        Ok(text) => print_styled(style, text, output_of(colors), slice),
        Err(_) => Answer::nothing(),
    };
    answer.report(length)
}

/// Writes the sequence that copies bytes.
fn write_copy<W: fmt::Write>(f: &mut W, places: &str, content: &[u8]) -> fmt::Result
    ensures { OnOk result (WritesInCalls W.write_str_gives f.old (text_of (copied content.now places.now)) f.new) }
{
    let content = Base64Display::new(content, &STANDARD);
    write!(f, "\x1b]52;{places};{content}\x1b\\")
}

/// A copy to the places of some letters, which needs no memory.
#[derive(Clone, Copy)]
struct CopyTo<'a> {
    content: &'a [u8],
    places: &'a str,
}

impl Command for CopyTo<'_> {
    ghost text = { λ c _. Some (text_of (copied c.content.now c.places.now)) };

    fn write_ansi<W: fmt::Write>(&self, f: &mut W, _colors: ColorOutput) -> fmt::Result {
        write_copy(f, self.places, self.content)
    }
}

/// Copies bytes to the places of some letters, in UTF-8, as `c` for the clipboard and `p` for the primary selection: the command
/// `CopyToClipboard`. It returns as `gelvanh_print` does.
#[unsafe(no_mangle)]
pub extern "C" fn gelvanh_copy_to_clipboard(
    content: &[u8],
    places: &[u8],
    slice: &mut [u8],
    length: &mut usize,
) -> u32
    ensures { IsSomeAnd (outcome_at result) (λ outcome. AnswersText places.now (Some (text_of (copied content.now places.now))) slice.old slice.new length.new outcome) }
{
    let answer = match str::from_utf8(places) {
        Ok(places) => {
            let copy = CopyTo { content, places };
            write_plain(&copy, slice)
        }
        Err(_) => Answer::nothing(),
    };
    answer.report(length)
}
