//! Shows a line that is asked for: once more after an event, or anew in a window of another size.
ghost use Rattle.std.specs.Prelude.{◌≡◌, ◌++◌, ℕ, chars, true, false, IsTrue, List, OnErr, OnOk, Option, Some, is_some};
ghost use Rattle.std.specs.Io.KnownBytes.{Appends};
ghost use Rattle.crossterm_types.specs.Seen.{Seen, seen_event};
ghost use Rattle.crossterm_read.specs.PassViews.{knows};
ghost use Rattle.crossterm_command.specs.Writing.{AppendsFront};
ghost use Rattle.line_editor.specs.States.{EditorState};
ghost use Rattle.prompt.specs.Completing.{as_read};
ghost use Rattle.prompt.specs.Frames.{Draws, DrawsFront, IsSizeOf, area_of, erasure, in_lines, unseen};
ghost use Rattle.prompt.specs.Written as written;
ghost use Rattle.prompt.specs.Written.{Clears, Due, HasWritten, HasWrittenFront, Resized, Shows, ends_in_tabs, line_shown, look_of, masked_shown, prompt_runs, search_shown, shown_for};
ghost use Rattle.prompt.specs.inside.Turning.{MayAsk, stage_after};

use crate::asking::Prompt;
use crate::drawing::{erase, ring};
use crate::helpers::Helper;
use crate::placing::{find_start, size_of};
use crate::printer::Note;
use crate::prompts::search_text;
use crate::rows::Rows;
use crate::shown::Shown;
use crossterm::event::Event;
use crossterm::event::source::EventSource;
use crossterm::event::timeout::Clock;
use crossterm::terminal::ModeDevice;
use crossterm_command::write_text;
use line_editor::{Editor, Mask};
use own_terminal::Session;
use std::alloc::{Allocator, Global};
use std::io::{self, Write};
use std::sync::Wait;

/// Whether an event reports another size of the window.
fn is_resize(event: &Event) -> bool
    ensures { result ≡ written.resizes (seen_event event.now) }
{
    match event {
        Event::Resize(..) => true,
        Event::FocusGained | Event::FocusLost | Event::Key(_) | Event::Mouse(_) | Event::Paste(_) =>
            false,
    }
}

/// Shows what an incremental search looks for, as readline does, and what it found.
fn show_search<W: Write, A: Allocator>(
    out: &mut W,
    editor: &Editor<A>,
    pattern: &str,
    rows: &mut Rows,
) -> io::Result<()>
    ensures shows { OnOk result (Draws (search_shown (chars pattern.now) editor.now) (area_of rows.old) (area_of rows.new) (W.contents out.old) (W.contents out.new)) }
    ensures stops { OnErr result (DrawsFront (search_shown (chars pattern.now) editor.now) (area_of rows.old) (W.contents out.old) (W.contents out.new)) }
    ensures size { IsSizeOf (area_of rows.old) (area_of rows.new) }
    ensures asked { rows.new.is_asked ≡ rows.old.is_asked }
{
    let text = search_text(rows.alloc, pattern, editor.is_ahead())?;
    rows.draw_next(out, &Shown::new(text.as_str(), editor.line()))
}

/// Shows the line behind the prompt with its hint, or with the candidates below it.
fn show_line<W: Write, A: Allocator, H: Helper>(
    out: &mut W,
    editor: &Editor<A>,
    prompt: &Prompt<'_, H>,
    rows: &mut Rows,
    lists: bool,
) -> io::Result<()>
    ensures shows { OnOk result (Draws (line_shown (look_of as_read (H.hints prompt.now.helper.now) (H.candidates prompt.now.helper.now) prompt.now) lists editor.now)
        (area_of rows.old) (area_of rows.new) (W.contents out.old) (W.contents out.new)) }
    ensures stops { OnErr result (DrawsFront (line_shown (look_of as_read (H.hints prompt.now.helper.now) (H.candidates prompt.now.helper.now) prompt.now) lists editor.now)
        (area_of rows.old) (W.contents out.old) (W.contents out.new)) }
    ensures size { IsSizeOf (area_of rows.old) (area_of rows.new) }
    ensures asked { rows.new.is_asked ≡ rows.old.is_asked }
{
    let line = editor.line();
    let mut names = Vec::new(rows.alloc);
    if lists {
        names = prompt
            .helper
            .candidates(rows.alloc, line.before(), line.after())?;
    }
    let shown = Shown {
        text: prompt.text,
        parts: prompt.parts,
        line,
        hint: prompt.helper.hint(line.text()),
        candidates: &names,
    };
    rows.draw_next(out, &shown)
}

/// Shows what is in the place of a line that nobody is to read.
fn show_masked<W: Write, A: Allocator, H>(
    out: &mut W,
    editor: &Editor<A>,
    prompt: &Prompt<'_, H>,
    mask: Mask,
    rows: &mut Rows,
) -> io::Result<()>
    ensures shows { OnOk result (Draws (masked_shown (prompt_runs prompt.now) mask editor.now) (area_of rows.old) (area_of rows.new) (W.contents out.old) (W.contents out.new)) }
    ensures stops { OnErr result (DrawsFront (masked_shown (prompt_runs prompt.now) mask editor.now) (area_of rows.old) (W.contents out.old) (W.contents out.new)) }
    ensures size { IsSizeOf (area_of rows.old) (area_of rows.new) }
    ensures asked { rows.new.is_asked ≡ rows.old.is_asked }
{
    let line = editor.line().masked(rows.alloc, mask)?;
    let shown = Shown {
        text: prompt.text,
        parts: prompt.parts,
        line: &line,
        hint: "",
        candidates: &[],
    };
    rows.draw_next(out, &shown)
}

impl<H: Helper> Prompt<'_, H> {
    /// Shows an editor's line, as `read_line` does, for who reads events by itself. The helper's candidates are listed below it, or not.
    ///
    /// Nothing but a bell was written since the last frame of these rows, or `Rows::forget_cursor` says that it was.
    ///
    /// # Errors
    ///
    /// Those of `Rows::draw_next`.
    ///
    /// ```
    /// let prompt = Prompt::new("> ");
    /// let mut rows = Rows::new(alloc, (80, 24))?;
    /// prompt.show(&mut out, &editor, &mut rows, false)?;
    /// ```
    pub fn show<W: Write, A: Allocator>(
        &self,
        out: &mut W,
        editor: &Editor<A>,
        rows: &mut Rows,
        lists: bool,
    ) -> io::Result<()>
        ensures shows { OnOk result (Draws (shown_for (look_of as_read (H.hints self.now.helper.now) (H.candidates self.now.helper.now) self.now) lists editor.now)
            (area_of rows.old) (area_of rows.new) (W.contents out.old) (W.contents out.new)) }
        ensures stops { OnErr result (DrawsFront (shown_for (look_of as_read (H.hints self.now.helper.now) (H.candidates self.now.helper.now) self.now) lists editor.now)
            (area_of rows.old) (W.contents out.old) (W.contents out.new)) }
        ensures asked { rows.new.is_asked ≡ rows.old.is_asked }
        ensures size { IsSizeOf (area_of rows.old) (area_of rows.new) }
    {
        if let Some(mask) = self.mask {
            return show_masked(out, editor, self, mask, rows);
        }
        match editor.pattern() {
            None => show_line(out, editor, self, rows, lists),
            Some(pattern) => show_search(out, editor, pattern, rows),
        }
    }
}

/// Begins a line anew in a window of another size, where it began before.
fn show_anew<
    S: EventSource<Global>,
    D: ModeDevice,
    W: Write + Drop,
    C: Clock + Drop,
    A: Allocator,
    H: Helper,
    R: Wait,
>(
    rt: &R,
    tty: &mut Session<S, D, W, C>,
    editor: &Editor<A>,
    prompt: &Prompt<'_, H>,
    rows: &mut Rows,
    lists: bool,
) -> io::Result<()>
    ensures asked { MayAsk S.drawn S.asked (knows tty.old.pass) (knows tty.new.pass) }
    ensures shows { (given : EditorState → Seen → Seen) (w : EditorState) (es : List Seen) (out : Option (List ℕ)) → (rows.old.is_asked ≡ true → prompt.now.asks ≡ true)
        → ends_in_tabs es ≡ lists → HasWritten (look_of given (H.hints prompt.now.helper.now) (H.candidates prompt.now.helper.now) prompt.now) w es editor.now (Resized (area_of rows.old) false) out (W.contents tty.old.out) → OnOk result (HasWritten (look_of given (H.hints prompt.now.helper.now) (H.candidates prompt.now.helper.now) prompt.now) w es editor.now (Shows (area_of rows.new) false) out (W.contents tty.new.out)) }
    ensures stops { (given : EditorState → Seen → Seen) (w : EditorState) (es : List Seen) (out : Option (List ℕ)) → (rows.old.is_asked ≡ true → prompt.now.asks ≡ true)
        → ends_in_tabs es ≡ lists → HasWritten (look_of given (H.hints prompt.now.helper.now) (H.candidates prompt.now.helper.now) prompt.now) w es editor.now (Resized (area_of rows.old) false) out (W.contents tty.old.out) → OnErr result (HasWrittenFront (look_of given (H.hints prompt.now.helper.now) (H.candidates prompt.now.helper.now) prompt.now) w es editor.now out (W.contents tty.new.out)) }
    ensures fewer { rows.new.is_asked ≡ true → rows.old.is_asked ≡ true }
    ensures features { tty.new.features ≡ tty.old.features }
    ensures mode { IsTrue (is_some tty.old.term.prior) → tty.new.term.prior ≡ tty.old.term.prior }
{
    let size = match size_of(tty) {
        Ok(size) => size,
        Err(error) => return Err(error),
    };
    prompt.size.set(Some(size));
    let above = match find_start(rt, tty, rows, size.0) {
        Ok(above) => above,
        Err(error) => return Err(error),
    };
    prompt.reflows.set(rows.reflows);
    rows.resize(size);
    match erase(&mut tty.out, above) {
        Ok(()) => prompt.show(&mut tty.out, editor, rows, lists),
        Err(error) => Err(error),
    }
}

/// Shows the line once more, at the top of an empty window.
pub(crate) fn show_at_top<W: Write, A: Allocator, H: Helper>(
    out: &mut W,
    editor: &Editor<A>,
    prompt: &Prompt<'_, H>,
    rows: &mut Rows,
    lists: bool,
) -> io::Result<()>
    ensures shows { (given : EditorState → Seen → Seen) (w : EditorState) (es : List Seen) (from : Option (List ℕ))
        → ends_in_tabs es ≡ lists → HasWritten (look_of given (H.hints prompt.now.helper.now) (H.candidates prompt.now.helper.now) prompt.now) w es editor.now (Clears (area_of rows.old)) from (W.contents out.old) → OnOk result (HasWritten (look_of given (H.hints prompt.now.helper.now) (H.candidates prompt.now.helper.now) prompt.now) w es editor.now (Shows (area_of rows.new) false) from (W.contents out.new)) }
    ensures stops { (given : EditorState → Seen → Seen) (w : EditorState) (es : List Seen) (from : Option (List ℕ))
        → ends_in_tabs es ≡ lists → HasWritten (look_of given (H.hints prompt.now.helper.now) (H.candidates prompt.now.helper.now) prompt.now) w es editor.now (Clears (area_of rows.old)) from (W.contents out.old) → OnErr result (HasWrittenFront (look_of given (H.hints prompt.now.helper.now) (H.candidates prompt.now.helper.now) prompt.now) w es editor.now from (W.contents out.new)) }
    ensures asked { rows.new.is_asked ≡ rows.old.is_asked }
{
    match rows.clear(out) {
        Ok(()) => prompt.show(out, editor, rows, lists),
        Err(error) => Err(error),
    }
}

/// Prints a text in the rows' place, in whole lines. Nothing is known of the rows then.
fn print_instead<W: Write>(out: &mut W, note: &Note, rows: &mut Rows) -> io::Result<()>
    ensures ok { OnOk result ((of : List ℕ) × Appends (W.contents out.old) (W.contents out.new) (erasure rows.old.block.row ++ in_lines of)) }
    ensures err { OnErr result ((of : List ℕ) × AppendsFront (W.contents out.old) (W.contents out.new) (erasure rows.old.block.row ++ in_lines of)) }
    ensures area { OnOk result ((area_of rows.new) ≡ unseen rows.new.block.room (area_of rows.old)) }
    ensures asked { rows.new.is_asked ≡ rows.old.is_asked }
{
    rows.erase(out)?;
    write_text(out, note.text())?;
    rows.forget();
    Ok(())
}

/// Prints a text of another thread in the line's place, and shows the line below it.
pub(crate) fn show_below<W: Write, A: Allocator, H: Helper>(
    out: &mut W,
    note: &Note,
    editor: &Editor<A>,
    prompt: &Prompt<'_, H>,
    rows: &mut Rows,
    listed: bool,
) -> io::Result<()>
    ensures shows { (given : EditorState → Seen → Seen) (w : EditorState) (es : List Seen) (from : Option (List ℕ)) → is_some prompt.now.printer ≡ true
        → ends_in_tabs es ≡ listed → HasWritten (look_of given (H.hints prompt.now.helper.now) (H.candidates prompt.now.helper.now) prompt.now) w es editor.now (Shows (area_of rows.old) false) from (W.contents out.old) → OnOk result (HasWritten (look_of given (H.hints prompt.now.helper.now) (H.candidates prompt.now.helper.now) prompt.now) w es editor.now (Shows (area_of rows.new) false) from (W.contents out.new)) }
    ensures stops { (given : EditorState → Seen → Seen) (w : EditorState) (es : List Seen) (from : Option (List ℕ)) → is_some prompt.now.printer ≡ true
        → ends_in_tabs es ≡ listed → HasWritten (look_of given (H.hints prompt.now.helper.now) (H.candidates prompt.now.helper.now) prompt.now) w es editor.now (Shows (area_of rows.old) false) from (W.contents out.old) → OnErr result (HasWrittenFront (look_of given (H.hints prompt.now.helper.now) (H.candidates prompt.now.helper.now) prompt.now) w es editor.now from (W.contents out.new)) }
    ensures asked { rows.new.is_asked ≡ rows.old.is_asked }
{
    match print_instead(out, note, rows) {
        Ok(()) => prompt.show(out, editor, rows, listed),
        Err(error) => Err(error),
    }
}

/// Shows the line once more, and rings the bell.
pub(crate) fn show_and_ring<W: Write, A: Allocator, H: Helper>(
    out: &mut W,
    editor: &Editor<A>,
    prompt: &Prompt<'_, H>,
    rows: &mut Rows,
    lists: bool,
) -> io::Result<()>
    ensures shows { (given : EditorState → Seen → Seen) (w : EditorState) (es : List Seen) (from : Option (List ℕ))
        → ends_in_tabs es ≡ lists → HasWritten (look_of given (H.hints prompt.now.helper.now) (H.candidates prompt.now.helper.now) prompt.now) w es editor.now (Due (area_of rows.old) true) from (W.contents out.old) → OnOk result (HasWritten (look_of given (H.hints prompt.now.helper.now) (H.candidates prompt.now.helper.now) prompt.now) w es editor.now (Shows (area_of rows.new) false) from (W.contents out.new)) }
    ensures stops { (given : EditorState → Seen → Seen) (w : EditorState) (es : List Seen) (from : Option (List ℕ))
        → ends_in_tabs es ≡ lists → HasWritten (look_of given (H.hints prompt.now.helper.now) (H.candidates prompt.now.helper.now) prompt.now) w es editor.now (Due (area_of rows.old) true) from (W.contents out.old) → OnErr result (HasWrittenFront (look_of given (H.hints prompt.now.helper.now) (H.candidates prompt.now.helper.now) prompt.now) w es editor.now from (W.contents out.new)) }
    ensures asked { rows.new.is_asked ≡ rows.old.is_asked }
{
    match prompt.show(out, editor, rows, lists) {
        Ok(()) => ring(out),
        Err(error) => Err(error),
    }
}

/// Shows the line once more after an event.
pub(crate) fn show_after<
    S: EventSource<Global>,
    D: ModeDevice,
    W: Write + Drop,
    C: Clock + Drop,
    A: Allocator,
    H: Helper,
    R: Wait,
>(
    rt: &R,
    tty: &mut Session<S, D, W, C>,
    editor: &Editor<A>,
    prompt: &Prompt<'_, H>,
    event: &Event,
    rows: &mut Rows,
    lists: bool,
) -> io::Result<()>
    ensures asked { MayAsk S.drawn S.asked (knows tty.old.pass) (knows tty.new.pass) }
    ensures shows { (given : EditorState → Seen → Seen) (w : EditorState) (es : List Seen) (out : Option (List ℕ)) → (rows.old.is_asked ≡ true → prompt.now.asks ≡ true)
        → ends_in_tabs es ≡ lists → HasWritten (look_of given (H.hints prompt.now.helper.now) (H.candidates prompt.now.helper.now) prompt.now) w es editor.now (stage_after (seen_event event.now) (area_of rows.old)) out (W.contents tty.old.out) → OnOk result (HasWritten (look_of given (H.hints prompt.now.helper.now) (H.candidates prompt.now.helper.now) prompt.now) w es editor.now (Shows (area_of rows.new) false) out (W.contents tty.new.out)) }
    ensures stops { (given : EditorState → Seen → Seen) (w : EditorState) (es : List Seen) (out : Option (List ℕ)) → (rows.old.is_asked ≡ true → prompt.now.asks ≡ true)
        → ends_in_tabs es ≡ lists → HasWritten (look_of given (H.hints prompt.now.helper.now) (H.candidates prompt.now.helper.now) prompt.now) w es editor.now (stage_after (seen_event event.now) (area_of rows.old)) out (W.contents tty.old.out) → OnErr result (HasWrittenFront (look_of given (H.hints prompt.now.helper.now) (H.candidates prompt.now.helper.now) prompt.now) w es editor.now out (W.contents tty.new.out)) }
    ensures fewer { rows.new.is_asked ≡ true → rows.old.is_asked ≡ true }
    ensures features { tty.new.features ≡ tty.old.features }
    ensures mode { IsTrue (is_some tty.old.term.prior) → tty.new.term.prior ≡ tty.old.term.prior }
{
    if is_resize(event) {
        show_anew(rt, tty, editor, prompt, rows, lists)
    } else {
        prompt.show(&mut tty.out, editor, rows, lists)
    }
}
