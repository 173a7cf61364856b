//! The calls of the archive, as `bindings/c/gelvanh_line.h` declares them.
ghost use Rattle.std.specs.Prelude.{◌≡◌, reverse};
ghost use Rattle.line_editor.specs.Bounds.{size};
ghost use Rattle.line_editor.specs.Splits.{line_text};
ghost use Rattle.numbers.specs.Event.{event_known};
ghost use Rattle.numbers.specs.Style.{style_at};
ghost use Rattle.line_c.specs.Begun.{OpensLine, limits_of};
ghost use Rattle.line_c.specs.Answers.{AddsPart, BeginsLine, CompletesLine, Copies, CopiesHistory, MakesOf, MasksAs, Moves, Resizes, ReturnsAnswer, ShowsLine, TakesInput, TakesText, WithText, mask_at, with_hint, with_history, with_names};

use crate::answers::Answer;
use crate::keeping::{LineHandle, LineSlot};
use crate::lines::made;
use handle::Parts;
use line_editor::Limits;
use numbers::{GelvanhEvent, GelvanhStyle};
use std::alloc::Global;

/// The bounds of an editor, as those of `line_editor::Limits`.
#[repr(C)]
#[derive(Clone, Copy)]
pub struct LineLimits {
    /// The bytes of a line in UTF-8. A longer one is refused.
    pub bytes: usize,
    /// The accepted lines in the history. The oldest one is forgotten for a further one.
    pub lines: usize,
    /// The changes of each line that can be undone. The oldest one is forgotten for a further one.
    pub steps: usize,
    /// The texts of kills that can be yanked. The oldest one is forgotten for a further one.
    pub kills: usize,
    /// Whether an accepted line that equals the newest one isn't kept once more.
    pub ignore_dups: bool,
    /// Whether an accepted line that begins with a blank isn't kept.
    pub ignore_space: bool,
}

impl LineLimits {
    /// The editor's limits. A line has no line feed.
    fn limits(&self) -> Limits
        ensures { result ≡ limits_of self.now }
    {
        Limits {
            bytes: self.bytes,
            lines: self.lines,
            steps: self.steps,
            kills: self.kills,
            ignore_dups: self.ignore_dups,
            ignore_space: self.ignore_space,
            multiline: false,
        }
    }
}

/// Begins an editor, whose pointer is written, and returns 0. Or memory was refused: then nothing is written, and it returns 5.
#[unsafe(no_mangle)]
pub extern "C" fn gelvanh_line_new(alloc: Global, line: &mut LineSlot, limits: &LineLimits) -> u32
    ensures { OpensLine limits.now result line.old line.new }
{
    match made(alloc, limits.limits()) {
        Some(kept) => {
            *line = LineSlot::of(Parts::of(kept));
            Answer::GoesOn.number()
        }
        None => Answer::NoMemory.number(),
    }
}

/// Ends an editor, and gives its memory back.
#[unsafe(no_mangle)]
pub extern "C" fn gelvanh_line_free(alloc: Global, line: LineHandle) {
    let _kept = line.parts(alloc).into_box();
}

/// Begins a line with a prompt in UTF-8, which has no style, in a window of so many columns and rows, of which nothing is known. 0 of them count as
/// 80 and 24.
#[unsafe(no_mangle)]
pub extern "C" fn gelvanh_line_begin(
    line: &mut LineHandle,
    prompt: &[u8],
    columns: u16,
    rows: u16,
) -> u32
    ensures { ReturnsAnswer result (WithText prompt.now (BeginsLine prompt.now columns rows)) line.old.value line.new.value }
{
    line.open().begin(prompt, columns, rows).number()
}

/// Adds a part to the prompt behind what there is of it, in UTF-8 and in a style.
#[unsafe(no_mangle)]
pub extern "C" fn gelvanh_line_prompt(
    line: &mut LineHandle,
    text: &[u8],
    style: &GelvanhStyle,
) -> u32
    ensures { ReturnsAnswer result (WithText text.now (AddsPart (style_at style.now) text.now)) line.old.value line.new.value }
{
    line.open().prompt(text, style).number()
}

/// Takes another size of the window: the output erases the line's rows, which the next frame draws anew. 0 columns or rows count as 80 and 24.
#[unsafe(no_mangle)]
pub extern "C" fn gelvanh_line_resize(line: &mut LineHandle, columns: u16, rows: u16) -> u32
    ensures { ReturnsAnswer result (Resizes columns rows) line.old.value line.new.value }
{
    line.open().resize(columns, rows).number()
}

/// Shows the line (0), nothing of it (1) or a star for each of its characters (2), from the next frame on.
#[unsafe(no_mangle)]
pub extern "C" fn gelvanh_line_hide(line: &mut LineHandle, how: u32) -> u32
    ensures { ReturnsAnswer result (MasksAs (mask_at how)) line.old.value line.new.value }
{
    line.open().hide(how).number()
}

/// Takes an event by its numbers. A reply, the mouse and a resize do nothing, and a paste's end is unknown: its text is pasted by itself.
#[unsafe(no_mangle)]
pub extern "C" fn gelvanh_line_event(line: &mut LineHandle, event: &GelvanhEvent) -> u32
    ensures { ReturnsAnswer result (TakesInput (event_known event.now)) line.old.value line.new.value }
{
    line.open().take(event).number()
}

/// Pastes a text in UTF-8.
#[unsafe(no_mangle)]
pub extern "C" fn gelvanh_line_paste(line: &mut LineHandle, text: &[u8]) -> u32
    ensures { ReturnsAnswer result (WithText text.now (TakesText text.now)) line.old.value line.new.value }
{
    line.open().paste(text).number()
}

/// Completes the word before the cursor by the names in the lines of a text in UTF-8, and lists those that begin with it at the second time in a
/// row.
#[unsafe(no_mangle)]
pub extern "C" fn gelvanh_line_complete(line: &mut LineHandle, names: &[u8]) -> u32
    ensures { ReturnsAnswer result (WithText names.now (CompletesLine names.now)) line.old.value line.new.value }
{
    line.open().complete(names).number()
}

/// Lists the names in the lines of a text in UTF-8 below the line, up to the next event or text.
#[unsafe(no_mangle)]
pub extern "C" fn gelvanh_line_list(line: &mut LineHandle, names: &[u8]) -> u32
    ensures { ReturnsAnswer result (WithText names.now (MakesOf (with_names names.now line.old.value))) line.old.value line.new.value }
{
    line.open().list(names).number()
}

/// Takes the text, in UTF-8, that is shown behind the line while the cursor is at its end.
#[unsafe(no_mangle)]
pub extern "C" fn gelvanh_line_hint(line: &mut LineHandle, hint: &[u8]) -> u32
    ensures { ReturnsAnswer result (WithText hint.now (MakesOf (with_hint hint.now line.old.value))) line.old.value line.new.value }
{
    line.open().take_hint(hint).number()
}

/// Shows the line: what changed in its rows joins what is to be written. After Ctrl-L the window is cleared before, and the line is drawn at its
/// top.
#[unsafe(no_mangle)]
pub extern "C" fn gelvanh_line_show(line: &mut LineHandle) -> u32
    ensures { ReturnsAnswer result ShowsLine line.old.value line.new.value }
{
    line.open().show().number()
}

/// Moves what is to be written to the terminal into a slice, as far as there is room, and returns how many bytes: 0 only if nothing is left, or
/// there is no room. What is behind them in the slice is the call's to use.
#[unsafe(no_mangle)]
pub extern "C" fn gelvanh_line_output(line: &mut LineHandle, slice: &mut [u8]) -> usize
    ensures { Moves result slice.old slice.new line.old.value line.new.value }
{
    line.open().move_output(slice)
}

/// Copies the line's text into a slice, if it fits, and returns how many bytes it has.
#[unsafe(no_mangle)]
pub extern "C" fn gelvanh_line_text(line: &mut LineHandle, slice: &mut [u8]) -> usize
    ensures copied { Copies (line_text line.old.value.editor.line) result slice.old slice.new }
    ensures same { line.new.value ≡ line.old.value }
{
    line.open().text(slice)
}

/// How many bytes of the line's text are before the cursor.
#[unsafe(no_mangle)]
pub extern "C" fn gelvanh_line_cursor(line: &mut LineHandle) -> usize
    ensures count { result ≡ size (reverse line.old.value.editor.line.before) }
    ensures same { line.new.value ≡ line.old.value }
{
    line.open().cursor()
}

/// Copies the text of the line that was accepted last into a slice, if it fits, and returns how many bytes it has.
#[unsafe(no_mangle)]
pub extern "C" fn gelvanh_line_accepted(line: &mut LineHandle, slice: &mut [u8]) -> usize
    ensures copied { Copies line.old.value.accepted result slice.old slice.new }
    ensures same { line.new.value ≡ line.old.value }
{
    line.open().accepted(slice)
}

/// Copies the history's text into a slice, if it fits, and writes how many bytes it has.
#[unsafe(no_mangle)]
pub extern "C" fn gelvanh_line_history(
    line: &mut LineHandle,
    slice: &mut [u8],
    length: &mut usize,
) -> u32
    ensures { ReturnsAnswer result (λ a k l. CopiesHistory k.editor a length.old length.new slice.old slice.new × (l ≡ k)) line.old.value line.new.value }
{
    line.open().history(slice, length).number()
}

/// Takes the history from a text in UTF-8.
#[unsafe(no_mangle)]
pub extern "C" fn gelvanh_line_load_history(line: &mut LineHandle, text: &[u8]) -> u32
    ensures { ReturnsAnswer result (WithText text.now (MakesOf (with_history text.now line.old.value))) line.old.value line.new.value }
{
    line.open().load(text).number()
}
