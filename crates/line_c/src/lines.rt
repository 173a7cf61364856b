//! An editor with the rows in which its line is shown.
ghost use Rattle.std.specs.Prelude.{◌≡◌, ℕ, ◌++◌, true, false, [], IfOk, IfSome, List, OnErr, OnOk, Some, map, reverse, string_bytes, vec_items, is_some};
ghost use Rattle.std.specs.Str.{chars};
ghost use Rattle.std.specs.Str.Lines.{lines};
ghost use Rattle.crossterm_types.specs.Seen.{seen_event};
ghost use Rattle.line_editor.specs.Bounds.{size};
ghost use Rattle.line_editor.specs.Splits.{line_text};
ghost use Rattle.numbers.specs.Event.{event_known};
ghost use Rattle.numbers.specs.Style.{style_at};
ghost use Rattle.prompt.specs.Frames.{Draws, IsSizeOf};
ghost use Rattle.prompt.specs.Prompts.{has_control};
ghost use Rattle.prompt.specs.Shown.{runs_of};
ghost use Rattle.prompt.specs.Written.{prompt_runs, shown_for};
ghost use Rattle.line_c.specs.declared.answers.Answer.TheVariants.{GoesOn};
ghost use Rattle.line_c.specs.Kept.{unlisted};
ghost use Rattle.line_c.specs.Answers.{AddsPart, AddsRun, BeginsLine, CompletesLine, Copies, CopiesHistory, FindsArea, IsFresh, MakesOf, MasksAs, Moves, Resizes, ShowsLine, TakesInput, TakesText, WithText, before_frame, completed_by, counted, lists, look_at, mask_at, with_hint, with_history, with_names, with_part};

use crate::answers::{Answer, answer_to};
use crate::given::{Given, Listed};
use crate::styled::{StyledText, borrow_all};
use crossterm_style::{ContentStyle, StyledContent};
use crossterm_types::event::{Event, InternalEvent};
use line_editor::{EditFault, Editor, Limits, Mask, Outcome};
use numbers::{GelvanhEvent, GelvanhStyle, event_of, style_of};
use prompt::{Helper, Prompt, Rows, Words};
use std::alloc::{AllocError, Global};
use std::collections::VecDeque;
use std::io::{self, Read};
use std::marker::Model;

/// An editor, the rows in which its line is shown, and what is still to be written to the terminal.
#[derive(Drop)]
pub struct Lines {
    alloc: Global,
    editor: Editor,
    rows: Rows,
    prompt: String,
    // The prompt's parts behind that text.
    parts: Vec<StyledText>,
    // What is shown behind the line.
    hint: String,
    // Names in lines, and which of them are listed below the line.
    names: String,
    listed: Listed,
    // Whether the line was completed last.
    completed: bool,
    // What is shown in the line's place, if nobody is to read it.
    mask: Option<Mask>,
    // The text of the line that was accepted last.
    accepted: String,
    // Whether the next frame clears the window.
    clears: bool,
    output: VecDeque<u8>,
}

impl Model for Lines {
    ghost use Rattle.std.specs.String.{string_bytes};
    ghost use Rattle.std.specs.Str.{chars};
    ghost use Rattle.line_c.specs.Kept.{LineState};
    ghost use Rattle.prompt.specs.Frames.{area_of};

    ghost Value = { LineState };

    ghost view = { λ l. record {
      editor = l.editor;
      area = area_of l.rows;
      prompt = string_bytes l.prompt;
      parts = l.parts.items;
      hint = string_bytes l.hint;
      names = string_bytes l.names;
      listed = l.listed;
      completed = l.completed;
      mask = l.mask;
      accepted = chars (string_bytes l.accepted);
      clears = l.clears;
      output = l.output.items;
    } };
}

/// A number of columns or rows: 0, as a serial line says, count as so many.
fn counted(count: u16, usual: u16) -> u16
    ensures { result ≡ counted count usual }
{
    if count == 0 { usual } else { count }
}

/// The names in the lines of a text.
fn names_in(alloc: Global, text: &str) -> Result<Vec<&str>, AllocError>
    ensures { IfOk result (λ names. map (λ n. n.now) (vec_items names) ≡ lines text.now) }
{
    text.lines().collect(alloc)
}

/// A prompt of this text and of the parts behind it, with what a caller has given. Something else is shown in the line's place, if nobody is to read
/// it.
fn prompt_with<'a>(
    text: &'a str,
    parts: &'a [StyledContent<&'a str>],
    mask: Option<Mask>,
    given: &'a Given<'a>,
) -> Prompt<'a, Given<'a>>
    ensures runs { prompt_runs result ≡ runs_of text.now parts.now }
    ensures mask { result.mask ≡ mask }
    ensures given { result.helper.now ≡ given.now }
    ensures usual { (result.asks ≡ true) × (result.wraps ≡ true) × (is_some result.printer ≡ false) }
{
    let prompt = Prompt::new(text).with_parts(parts).with_helper(given);
    match mask {
        None => prompt,
        Some(mask) => prompt.with_mask(mask),
    }
}

/// Copies a text into a slice, if it fits, and returns how many bytes it has.
fn copy_text(text: &str, slice: &mut [u8]) -> usize
    ensures { Copies (chars text.now) result slice.old slice.new }
{
    let count = text.len();
    if count <= slice.len() {
        slice[0..count].copy_from_slice(text.as_bytes());
    }
    count
}

/// An editor in a window of 80 columns and 24 rows, with nothing written.
fn started(alloc: Global, limits: Limits) -> Result<Lines, EditFault>
    ensures { IfOk result (λ lines. IsFresh limits lines) }
{
    let editor = Editor::new(alloc, limits)?;
    let rows = match Rows::new(alloc, (80, 24)) {
        Ok(rows) => rows,
        Err(_) => return Err(EditFault::Memory),
    };
    Ok(Lines {
        alloc,
        editor,
        rows,
        prompt: String::new(alloc),
        parts: Vec::new(alloc),
        hint: String::new(alloc),
        names: String::new(alloc),
        listed: Listed::Nothing,
        completed: false,
        mask: None,
        accepted: String::new(alloc),
        clears: false,
        output: VecDeque::new(alloc),
    })
}

/// An editor in a box, if memory was had for it.
pub(crate) fn made(alloc: Global, limits: Limits) -> Option<Box<Lines>>
    ensures { IfSome result (λ kept. IsFresh limits kept.value) }
{
    match started(alloc, limits) {
        Ok(lines) => match Box::new(alloc, lines) {
            Ok(kept) => Some(kept),
            Err(_) => None,
        },
        Err(_) => None,
    }
}

impl Lines {
    /// Takes a prompt, and the rows of a window of which nothing is known.
    fn take_prompt(&mut self, prompt: &str, columns: u16, rows: u16) -> Result<(), AllocError>
        requires { has_control (chars prompt.now) ≡ false }
        ensures ok { OnOk result (BeginsLine prompt.now columns rows GoesOn self.old self.new) }
        ensures err { OnErr result (self.new ≡ self.old) }
    {
        let prompt = String::from_str(self.alloc, prompt)?;
        self.rows = Rows::new(self.alloc, (counted(columns, 80), counted(rows, 24)))?;
        self.prompt = prompt;
        self.parts.clear();
        self.clears = false;
        self.unlist();
        Ok(())
    }

    /// Begins a line with a prompt, in a window of so many columns and rows.
    fn begin_with(&mut self, prompt: &str, columns: u16, rows: u16) -> Answer
        ensures { BeginsLine prompt.now columns rows result self.old self.new }
    {
        if !prompt::is_shown(prompt) {
            return Answer::Unknown;
        }
        match self.take_prompt(prompt, columns, rows) {
            Ok(()) => Answer::GoesOn,
            Err(_) => Answer::NoMemory,
        }
    }

    /// The same with a prompt of bytes.
    pub(crate) fn begin(&mut self, prompt: &[u8], columns: u16, rows: u16) -> Answer
        ensures { WithText prompt.now (BeginsLine prompt.now columns rows) result self.old self.new }
    {
        match str::from_utf8(prompt) {
            Ok(text) => self.begin_with(text, columns, rows),
            Err(_) => Answer::Unknown,
        }
    }

    /// Adds a part to the prompt.
    fn keep_part(&mut self, text: &str, style: ContentStyle) -> Result<(), AllocError>
        ensures ok { OnOk result (self.new ≡ with_part (record { text = text.now; style = style }) self.old) }
        ensures err { OnErr result (self.new ≡ self.old) }
    {
        let text = String::from_str(self.alloc, text)?;
        self.parts.push(StyledText::new(text, style))?;
        Ok(())
    }

    /// The same, if the part has no control character.
    fn add_part(&mut self, text: &str, style: ContentStyle) -> Answer
        ensures { AddsRun (record { text = text.now; style = style }) result self.old self.new }
    {
        if !prompt::is_shown(text) {
            return Answer::Unknown;
        }
        match self.keep_part(text, style) {
            Ok(()) => Answer::GoesOn,
            Err(_) => Answer::NoMemory,
        }
    }

    /// The same with the style of some numbers, if they are one.
    fn add_styled(&mut self, text: &str, style: &GelvanhStyle) -> Answer
        ensures { AddsPart (style_at style.now) text.now result self.old self.new }
    {
        match style_of(style) {
            Some(style) => self.add_part(text, style),
            None => Answer::Unknown,
        }
    }

    /// The same with a text of bytes.
    pub(crate) fn prompt(&mut self, text: &[u8], style: &GelvanhStyle) -> Answer
        ensures { WithText text.now (AddsPart (style_at style.now) text.now) result self.old self.new }
    {
        match str::from_utf8(text) {
            Ok(text) => self.add_styled(text, style),
            Err(_) => Answer::Unknown,
        }
    }

    /// Takes another size of the window: the rows are erased from the first one on.
    pub(crate) fn resize(&mut self, columns: u16, rows: u16) -> Answer
        ensures { Resizes columns rows result self.old self.new }
    {
        let before = self.output.len();
        match self.rows.erase(&mut self.output) {
            Ok(()) => {}
            Err(_) => {
                self.output.truncate(before);
                return Answer::NoMemory;
            }
        }
        self.rows.resize((counted(columns, 80), counted(rows, 24)));
        Answer::GoesOn
    }

    /// Shows the line, nothing of it, or stars in its place, by the number of that.
    pub(crate) fn hide(&mut self, how: u32) -> Answer
        ensures { MasksAs (mask_at how) result self.old self.new }
    {
        let mask = match how {
            0 => None,
            1 => Some(Mask::Nothing),
            2 => Some(Mask::Stars),
            _ => return Answer::Unknown,
        };
        self.mask = mask;
        Answer::GoesOn
    }

    /// No names are listed any more.
    fn unlist(&mut self)
        ensures { self.new ≡ unlisted self.old }
    {
        self.completed = false;
        self.listed = Listed::Nothing;
    }

    /// Takes the text that is shown behind the line.
    fn show_behind(&mut self, hint: &str) -> Answer
        ensures { MakesOf (with_hint hint.now self.old) result self.old self.new }
    {
        match String::from_str(self.alloc, hint) {
            Ok(hint) => {
                self.hint = hint;
                Answer::GoesOn
            }
            Err(_) => Answer::NoMemory,
        }
    }

    /// The same with a text of bytes.
    pub(crate) fn take_hint(&mut self, hint: &[u8]) -> Answer
        ensures { WithText hint.now (MakesOf (with_hint hint.now self.old)) result self.old self.new }
    {
        match str::from_utf8(hint) {
            Ok(text) => self.show_behind(text),
            Err(_) => Answer::Unknown,
        }
    }

    /// Does what an event asks for. The rows are left once the line has ended.
    fn turn(&mut self, event: &Event) -> Answer
        ensures { TakesInput (Some (seen_event event.now)) result self.old self.new }
    {
        let before = self.output.len();
        match self.rows.leave(&mut self.output) {
            Ok(()) => {}
            Err(_) => {
                self.output.truncate(before);
                return Answer::NoMemory;
            }
        }
        let answer = match self.editor.turn(event) {
            Ok(Outcome::Line(text)) => {
                self.accepted = text;
                Answer::Accepted
            }
            Ok(Outcome::Interrupted) => Answer::Interrupted,
            Ok(Outcome::Closed) => Answer::Closed,
            Ok(Outcome::Going) => {
                self.output.truncate(before);
                self.unlist();
                return Answer::GoesOn;
            }
            Ok(Outcome::Ring) => {
                self.output.truncate(before);
                self.unlist();
                return Answer::Rings;
            }
            Ok(Outcome::Clear) => {
                self.output.truncate(before);
                self.clears = true;
                Answer::GoesOn
            }
            Err(fault) => {
                self.output.truncate(before);
                return answer_to(fault);
            }
        };
        self.rows.forget();
        self.unlist();
        answer
    }

    /// Takes an event by its numbers.
    pub(crate) fn take(&mut self, event: &GelvanhEvent) -> Answer
        ensures { TakesInput (event_known event.now) result self.old self.new }
    {
        match event_of::<Global>(event) {
            None => Answer::Unknown,
            Some(InternalEvent::Event(event)) => self.turn(&event),
            Some(_) => {
                self.unlist();
                Answer::GoesOn
            }
        }
    }

    /// Pastes a text.
    fn paste_text(&mut self, text: &str) -> Answer
        ensures { TakesText text.now result self.old self.new }
    {
        match self.editor.paste(text) {
            Ok(()) => {
                self.unlist();
                Answer::GoesOn
            }
            Err(fault) => answer_to(fault),
        }
    }

    /// The same with a text of bytes.
    pub(crate) fn paste(&mut self, text: &[u8]) -> Answer
        ensures { WithText text.now (TakesText text.now) result self.old self.new }
    {
        match str::from_utf8(text) {
            Ok(text) => self.paste_text(text),
            Err(_) => Answer::Unknown,
        }
    }

    /// Keeps the names by which the line was completed: they are listed at the second time in a row.
    fn keep_names(&mut self, names: String)
        ensures { self.new ≡ completed_by (string_bytes names) self.old }
    {
        self.names = names;
        self.listed = if self.completed {
            Listed::Beginning
        } else {
            Listed::Nothing
        };
        self.completed = true;
    }

    /// Completes the word before the cursor by the names in the lines of a text, and lists those that begin with it at the second time in a row.
    fn complete_by(&mut self, text: &str) -> Answer
        ensures { CompletesLine text.now result self.old self.new }
    {
        let kept = match String::from_str(self.alloc, text) {
            Ok(kept) => kept,
            Err(_) => return Answer::NoMemory,
        };
        let names = match names_in(self.alloc, text) {
            Ok(names) => names,
            Err(_) => return Answer::NoMemory,
        };
        let words = Words::new(&names);
        match words.complete(self.editor.line().before(), "") {
            None => {}
            Some(rest) => match self.editor.paste(rest) {
                Ok(()) => {}
                Err(fault) => return answer_to(fault),
            },
        }
        self.keep_names(kept);
        Answer::GoesOn
    }

    /// The same with a text of bytes.
    pub(crate) fn complete(&mut self, names: &[u8]) -> Answer
        ensures { WithText names.now (CompletesLine names.now) result self.old self.new }
    {
        match str::from_utf8(names) {
            Ok(text) => self.complete_by(text),
            Err(_) => Answer::Unknown,
        }
    }

    /// Lists the names in the lines of a text below the line.
    fn list_text(&mut self, text: &str) -> Answer
        ensures { MakesOf (with_names text.now self.old) result self.old self.new }
    {
        match String::from_str(self.alloc, text) {
            Ok(names) => {
                self.names = names;
                self.listed = Listed::All;
                self.completed = false;
                Answer::GoesOn
            }
            Err(_) => Answer::NoMemory,
        }
    }

    /// The same with a text of bytes.
    pub(crate) fn list(&mut self, names: &[u8]) -> Answer
        ensures { WithText names.now (MakesOf (with_names names.now self.old)) result self.old self.new }
    {
        match str::from_utf8(names) {
            Ok(text) => self.list_text(text),
            Err(_) => Answer::Unknown,
        }
    }

    /// Begins a frame: with what clears the window, if that is due. Nothing is assumed of the cursor's column.
    fn begin_frame(&mut self) -> io::Result<()>
        ensures ok { OnOk result (FindsArea self.old.clears self.old.area self.new.area × (self.new.output ≡ self.old.output ++ before_frame self.old.clears)) }
        ensures front { (bytes : List ℕ) × (self.new.output ≡ self.old.output ++ bytes) }
        ensures rest { self.new ≡ record self.old { area = self.new.area; output = self.new.output } }
        ensures size { IsSizeOf self.old.area self.new.area }
    {
        if self.clears {
            self.rows.clear(&mut self.output)?;
        }
        self.rows.forget_cursor();
        Ok(())
    }

    /// Draws the line.
    fn draw(&mut self) -> io::Result<()>
        ensures shows { OnOk result (Draws (shown_for (look_at self.old) (lists self.old.listed) self.old.editor) self.old.area self.new.area (Some self.old.output) (Some self.new.output)) }
        ensures front { (bytes : List ℕ) × (self.new.output ≡ self.old.output ++ bytes) }
        ensures rest { self.new ≡ record self.old { area = self.new.area; output = self.new.output } }
        ensures size { IsSizeOf self.old.area self.new.area }
    {
        let names = names_in(self.alloc, self.names.as_str())?;
        let given = Given::new(self.hint.as_str(), &names, self.listed);
        let parts = borrow_all(self.alloc, &self.parts)?;
        let prompt = prompt_with(self.prompt.as_str(), &parts, self.mask, &given);
        let lists = self.listed.lists();
        prompt.show(&mut self.output, &self.editor, &mut self.rows, lists)
    }

    /// Shows the line: what changed joins the output, or nothing if memory is refused. Then nothing is known of the rows any more.
    pub(crate) fn show(&mut self) -> Answer
        ensures { ShowsLine result self.old self.new }
    {
        let before = self.output.len();
        let drawn = match self.begin_frame() {
            Ok(()) => self.draw(),
            Err(error) => Err(error),
        };
        match drawn {
            Ok(()) => {
                self.clears = false;
                Answer::GoesOn
            }
            Err(_) => {
                self.output.truncate(before);
                self.rows.forget();
                Answer::NoMemory
            }
        }
    }

    /// Moves what is to be written into a slice, as far as there is room, and returns how many bytes.
    pub(crate) fn move_output(&mut self, slice: &mut [u8]) -> usize
        ensures { Moves result slice.old slice.new self.old self.new }
    {
        match self.output.read(slice) {
            Ok(count) => count,
            Err(_) => 0,
        }
    }

    /// Copies the line's text.
    pub(crate) fn text(&self, slice: &mut [u8]) -> usize
        ensures { Copies (line_text self.now.editor.line) result slice.old slice.new }
    {
        copy_text(self.editor.line().text(), slice)
    }

    /// The bytes of the line before the cursor.
    pub(crate) fn cursor(&self) -> usize
        ensures { result ≡ size (reverse self.now.editor.line.before) }
    {
        self.editor.line().before().len()
    }

    /// Copies the text of the line that was accepted last.
    pub(crate) fn accepted(&self, slice: &mut [u8]) -> usize
        ensures { Copies self.now.accepted result slice.old slice.new }
    {
        copy_text(self.accepted.as_str(), slice)
    }

    /// Copies the text of the history, if it fits, and sets its length.
    pub(crate) fn history(&self, slice: &mut [u8], length: &mut usize) -> Answer
        ensures { CopiesHistory self.now.editor result length.old length.new slice.old slice.new }
    {
        match self.editor.history_text() {
            Ok(text) => {
                *length = copy_text(text.as_str(), slice);
                Answer::GoesOn
            }
            Err(_) => Answer::NoMemory,
        }
    }

    /// Takes the history from a text.
    fn load_text(&mut self, text: &str) -> Answer
        ensures { MakesOf (with_history text.now self.old) result self.old self.new }
    {
        match self.editor.load_history(text) {
            Ok(()) => Answer::GoesOn,
            Err(_) => Answer::NoMemory,
        }
    }

    /// The same with a text of bytes.
    pub(crate) fn load(&mut self, text: &[u8]) -> Answer
        ensures { WithText text.now (MakesOf (with_history text.now self.old)) result self.old self.new }
    {
        match str::from_utf8(text) {
            Ok(text) => self.load_text(text),
            Err(_) => Answer::Unknown,
        }
    }
}
