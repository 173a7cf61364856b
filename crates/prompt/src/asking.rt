//! Asks for a line, an event at a time.
ghost use Rattle.std.specs.Prelude.{◌≡◌, ◌&&◌, [], ℕ, Bool, chars, true, false, IfErr, IfOk, IsErrAnd, IsTrue, List, None, OnErr, OnOk, Option, Some, is_some};
ghost use Rattle.std.specs.IoError.{error_kind};
ghost use Rattle.std.specs.declared.io.ErrorKind.TheVariants.{InvalidInput};
ghost use Rattle.crossterm_types.specs.Seen.{Paste, Seen, seen_event};
ghost use Rattle.crossterm_read.specs.History.{Known};
ghost use Rattle.crossterm_read.specs.PassViews.{knows};
ghost use Rattle.line_editor.specs.States.{EditorState};
ghost use Rattle.prompt.specs.Asking.{LineEnds, StopsAsking, GoesOn, answer_seen};
ghost use Rattle.prompt.specs.Completing as completing;
ghost use Rattle.prompt.specs.Completing.{as_read, given_by};
ghost use Rattle.prompt.specs.Prompts as prompts;
ghost use Rattle.prompt.specs.Shown as spec;
ghost use Rattle.prompt.specs.Shown.{runs_of};
ghost use Rattle.prompt.specs.Frames.{area_of};
ghost use Rattle.prompt.specs.Written as written;
ghost use Rattle.prompt.specs.Written.{GoesOnShown, HasWritten, HasWrittenFront, HiddenLine, HiddenStops, IsNewPrompt, IsPromptLike, LineEndsShown, Shows, StopsShown, ends_in_tabs, hidden_limits, look_of, plain_look, prompt_runs};
ghost use Rattle.prompt.specs.inside.Turning.{IsTaken, Leads, LeadsShown};

use crate::drawing::ring;
use crate::frames::{show_after, show_and_ring, show_at_top, show_below};
use crate::helpers::Helper;
use crate::placing::size_for;
use crate::printer::Printer;
use crate::read::Read;
use crate::rows::Rows;
use crate::shown::have_control;
use crossterm::event::source::EventSource;
use crossterm::event::timeout::Clock;
use crossterm::event::{Event, KeyCode, KeyEventKind};
use crossterm::style::StyledContent;
use crossterm::terminal::ModeDevice;
use line_editor::{EditFault, Editor, Limits, Mask, Outcome};
use own_terminal::Session;
use std::alloc::{Allocator, Global};
use std::cell::Cell;
use std::io::{self, ErrorKind, Write};
use std::sync::Wait;
use std::time::Duration;

/// What an editor makes of an event: the line goes on, also anew in an empty window, with a bell, or if a text was too long for it. Or it
/// ends, or memory was refused.
#[derive(Drop)]
enum Taken<A: Allocator> {
    Going,
    Clear,
    Ring,
    TooLong,
    Ended(Read<A>),
    Refused,
}

/// What comes of a turn: the line goes on, after Tab or another event, and candidates are listed or not. Or it ends, or there is an error.
#[derive(Drop)]
enum Turn<A: Allocator> {
    Going(bool, bool),
    Ended(Read<A>),
    Failed(io::Error),
}

/// A prompt, with what helps to write its lines.
///
/// ```
/// let words = Words::new(&["help", "quit"]);
/// let prompt = Prompt::new("> ").with_helper(&words);
/// let read = prompt.read_line(rt, &mut tty, &mut editor)?;
/// ```
#[derive(Drop)]
pub struct Prompt<'a, H = ()> {
    // A text without a style, and styled parts behind it.
    pub(crate) text: &'a str,
    pub(crate) parts: &'a [StyledContent<&'a str>],
    pub(crate) helper: &'a H,
    // What is shown in the line's place, if nobody is to read it.
    pub(crate) mask: Option<Mask>,
    // Whose texts are printed above the line.
    printer: Option<&'a Printer>,
    // Whether the terminal is asked for the cursor's place.
    asks: bool,
    // Whether the line is wrapped.
    wraps: bool,
    // The window's columns and rows, or none if they aren't known.
    pub(crate) size: Cell<Option<(u16, u16)>>,
    // Whether the terminal is known to wrap rows anew.
    pub(crate) reflows: Cell<bool>,
}

/// A prompt of a text and the parts behind it, without a helper.
fn prompt_of<'a>(text: &'a str, parts: &'a [StyledContent<&'a str>]) -> Prompt<'a, ()>
    ensures { IsNewPrompt (runs_of text.now parts.now) result }
{
    Prompt {
        text,
        parts,
        helper: &(),
        mask: None,
        printer: None,
        asks: true,
        wraps: true,
        size: Cell::new(None),
        reflows: Cell::new(false),
    }
}

impl<'a> Prompt<'a, ()> {
    /// A prompt of this text, without a helper.
    ///
    /// ```
    /// let prompt = Prompt::new("Name: ");
    /// ```
    pub fn new(text: &'a str) -> Prompt<'a, ()>
        ensures { IsNewPrompt (runs_of text.now []) result }
    {
        prompt_of(text, &[])
    }

    /// A prompt of several parts, each in its style, without a helper.
    ///
    /// ```
    /// let parts = ["~/src".blue(), "> ".bold()];
    /// let prompt = Prompt::styled(&parts);
    /// ```
    pub fn styled(parts: &'a [StyledContent<&'a str>]) -> Prompt<'a, ()>
        ensures { IsNewPrompt (runs_of [] parts.now) result }
    {
        prompt_of("", parts)
    }
}

impl<'a, H> Prompt<'a, H> {
    /// The same prompt with this helper.
    ///
    /// ```
    /// let words = Words::new(&["help", "quit"]);
    /// let prompt = Prompt::new("> ").with_helper(&words);
    /// ```
    pub fn with_helper<G>(self, helper: &'a G) -> Prompt<'a, G>
        ensures same { IsPromptLike self.entry result }
        ensures helper { result.helper.now ≡ helper.now }
    {
        Prompt {
            text: self.text,
            parts: self.parts,
            helper,
            mask: self.mask,
            printer: self.printer,
            asks: self.asks,
            wraps: self.wraps,
            size: Cell::new(None),
            reflows: Cell::new(false),
        }
    }

    /// The same prompt with these parts behind its text, each in its style.
    ///
    /// ```
    /// let parts = ["~/src".blue(), "> ".bold()];
    /// let prompt = Prompt::new("").with_parts(&parts);
    /// ```
    pub fn with_parts(self, parts: &'a [StyledContent<&'a str>]) -> Prompt<'a, H>
        ensures { result ≡ record self.entry { parts = parts.entry } }
    {
        Prompt { parts, ..self }
    }

    /// The same prompt, which doesn't ask the terminal for the cursor's place after a resize.
    ///
    /// ```
    /// let prompt = Prompt::new("> ").without_questions();
    /// ```
    pub fn without_questions(mut self) -> Prompt<'a, H>
        ensures { result ≡ record self.entry { asks = false } }
    {
        self.asks = false;
        self
    }

    /// The same prompt, which prints the texts of other threads above the line while it asks for one.
    ///
    /// ```
    /// let printer = Printer::new(alloc, tty.waker()?)?;
    /// let prompt = Prompt::new("> ").with_printer(&printer);
    /// ```
    pub fn with_printer(mut self, printer: &'a Printer) -> Prompt<'a, H>
        ensures { result ≡ record self.entry { printer = Some printer.entry } }
    {
        self.printer = Some(printer);
        self
    }

    /// The same prompt for a line that nobody is to read, for who reads events by itself: this is shown in the line's place, and neither a hint nor
    /// what is searched for. `read_hidden` also keeps the line out of the history.
    ///
    /// ```
    /// let prompt = Prompt::new("Password: ").with_mask(Mask::Stars);
    /// ```
    pub fn with_mask(mut self, mask: Mask) -> Prompt<'a, H>
        ensures { result ≡ record self.entry { mask = Some mask } }
    {
        self.mask = Some(mask);
        self
    }

    /// The same prompt, which shows as much of the line as one row has room for: a longer line scrolls in it. No candidates are listed below it.
    ///
    /// ```
    /// let prompt = Prompt::new("Name: ").in_one_row();
    /// ```
    pub fn in_one_row(mut self) -> Prompt<'a, H>
        ensures { result ≡ record self.entry { wraps = false } }
    {
        self.wraps = false;
        self
    }
}

/// Whether an event is Tab without a modifier, pressed or held.
fn is_tab<B: Allocator>(event: &Event<B>) -> bool
    ensures { result ≡ completing.is_tab (seen_event event.now) }
{
    match event {
        Event::Key(key) => match key.code {
            KeyCode::Tab => match key.kind {
                KeyEventKind::Press | KeyEventKind::Repeat => key.modifiers.bits() == 0,
                KeyEventKind::Release => false,
            },
            _ => false,
        },
        Event::FocusGained
        | Event::FocusLost
        | Event::Mouse(_)
        | Event::Paste(_)
        | Event::Resize(..) => false,
    }
}

/// Whether an event is a second Tab, if it is Tab or not and the one before it was or wasn't.
fn is_second(tab: bool, tabbed: bool) -> bool
    ensures { result ≡ (tab && tabbed) }
{
    tab && tabbed
}

/// Gives an event to an editor as it is.
fn take_event<A: Allocator + Clone, B: Allocator>(
    editor: &mut Editor<A>,
    event: &Event<B>,
) -> Taken<A>
    ensures { IsTaken result (seen_event event.now) editor.old editor.new }
{
    match editor.turn(event) {
        Ok(Outcome::Going) => Taken::Going,
        Ok(Outcome::Clear) => Taken::Clear,
        Ok(Outcome::Ring) => Taken::Ring,
        Ok(Outcome::Line(text)) => Taken::Ended(Read::Line(text)),
        Ok(Outcome::Interrupted) => Taken::Ended(Read::Interrupted),
        Ok(Outcome::Closed) => Taken::Ended(Read::Closed),
        Err(EditFault::TooLong) => Taken::TooLong,
        Err(EditFault::Memory) => Taken::Refused,
    }
}

/// Pastes a text into an editor's line.
fn take_text<A: Allocator + Clone>(editor: &mut Editor<A>, text: &str) -> Taken<A>
    ensures { IsTaken result (Paste text.now) editor.old editor.new }
{
    match editor.paste(text) {
        Ok(()) => Taken::Going,
        Err(fault) => match fault {
            EditFault::TooLong => Taken::TooLong,
            EditFault::Memory => Taken::Refused,
        },
    }
}

/// Gives an editor an event, or at Tab the text that completes its line.
fn take<A: Allocator + Clone, B: Allocator, H: Helper>(
    editor: &mut Editor<A>,
    helper: &H,
    event: &Event<B>,
) -> Taken<A>
    ensures { IsTaken result (given_by (H.completes helper.now) editor.old (seen_event event.now)) editor.old editor.new }
{
    if !is_tab(event) {
        return take_event(editor, event);
    }
    match helper.complete(editor.line().before(), editor.line().after()) {
        Some(text) => take_text(editor, text),
        None => take_event(editor, event),
    }
}

/// Reads an event and gives it to the editor. The event before it was Tab, or not.
fn take_turn<
    S: EventSource<Global>,
    D: ModeDevice,
    W: Write + Drop,
    C: Clock + Drop,
    A: Allocator + Clone,
    H: Helper,
    R: Wait,
>(
    rt: &R,
    tty: &mut Session<S, D, W, C>,
    editor: &mut Editor<A>,
    prompt: &Prompt<'_, H>,
    rows: &mut Rows,
    tabbed: bool,
) -> Turn<A>
    ensures leads { (v : Known S) (w : EditorState) → GoesOn S.drawn S.asked (given_by (H.completes prompt.now.helper.now)) v w (knows tty.old.pass) editor.old
        → Leads S.drawn S.asked (given_by (H.completes prompt.now.helper.now)) v w result (knows tty.new.pass) editor.new }
    ensures written { (v : Known S) (w : EditorState) (was : Bool) (out : Option (List ℕ)) → (rows.old.is_asked ≡ true → prompt.now.asks ≡ true)
        → GoesOnShown S.drawn S.asked (look_of (given_by (H.completes prompt.now.helper.now)) (H.hints prompt.now.helper.now) (H.candidates prompt.now.helper.now) prompt.now) v w (knows tty.old.pass) editor.old (area_of rows.old) tabbed was out (W.contents tty.old.out)
        → LeadsShown S.drawn S.asked (look_of (given_by (H.completes prompt.now.helper.now)) (H.hints prompt.now.helper.now) (H.candidates prompt.now.helper.now) prompt.now) v w result (knows tty.new.pass) editor.new (area_of rows.new) out (W.contents tty.new.out) }
    ensures fewer { rows.new.is_asked ≡ true → rows.old.is_asked ≡ true }
    ensures features { tty.new.features ≡ tty.old.features }
    ensures mode { IsTrue (is_some tty.old.term.prior) → tty.new.term.prior ≡ tty.old.term.prior }
{
    let event = match tty.read(rt) {
        Ok(event) => event,
        Err(error) => return Turn::Failed(error),
    };
    let tab = is_tab(&event);
    let lists = is_second(tab, tabbed);
    match take(editor, prompt.helper, &event) {
        Taken::Going => match show_after(rt, tty, editor, prompt, &event, rows, lists) {
            Ok(()) => Turn::Going(tab, lists),
            Err(error) => Turn::Failed(error),
        },
        Taken::Clear => match show_at_top(&mut tty.out, editor, prompt, rows, lists) {
            Ok(()) => Turn::Going(tab, lists),
            Err(error) => Turn::Failed(error),
        },
        Taken::Ring => match show_and_ring(&mut tty.out, editor, prompt, rows, lists) {
            Ok(()) => Turn::Going(tab, lists),
            Err(error) => Turn::Failed(error),
        },
        Taken::TooLong => match ring(&mut tty.out) {
            Ok(()) => Turn::Going(tab, lists),
            Err(error) => Turn::Failed(error),
        },
        Taken::Ended(read) => {
            // An accepted line is returned all the same: the next write shows the fault.
            let _ = rows.leave(&mut tty.out);
            Turn::Ended(read)
        }
        Taken::Refused => Turn::Failed(io::Error::from(ErrorKind::OutOfMemory)),
    }
}

/// Prints the text that was handed over first, if there is one, and shows the line below it. Returns whether there was one.
fn print_next<W: Write, A: Allocator, H: Helper, R: Wait>(
    rt: &R,
    out: &mut W,
    printer: &Printer,
    editor: &Editor<A>,
    prompt: &Prompt<'_, H>,
    rows: &mut Rows,
    lists: bool,
) -> io::Result<bool>
    ensures shows { (given : EditorState → Seen → Seen) (w : EditorState) (es : List Seen) (from : Option (List ℕ)) → is_some prompt.now.printer ≡ true
        → ends_in_tabs es ≡ lists → HasWritten (look_of given (H.hints prompt.now.helper.now) (H.candidates prompt.now.helper.now) prompt.now) w es editor.now (Shows (area_of rows.old) false) from (W.contents out.old) → OnOk result (HasWritten (look_of given (H.hints prompt.now.helper.now) (H.candidates prompt.now.helper.now) prompt.now) w es editor.now (Shows (area_of rows.new) false) from (W.contents out.new)) }
    ensures stops { (given : EditorState → Seen → Seen) (w : EditorState) (es : List Seen) (from : Option (List ℕ)) → is_some prompt.now.printer ≡ true
        → ends_in_tabs es ≡ lists → HasWritten (look_of given (H.hints prompt.now.helper.now) (H.candidates prompt.now.helper.now) prompt.now) w es editor.now (Shows (area_of rows.old) false) from (W.contents out.old) → OnErr result (HasWrittenFront (look_of given (H.hints prompt.now.helper.now) (H.candidates prompt.now.helper.now) prompt.now) w es editor.now from (W.contents out.new)) }
    ensures asked { rows.new.is_asked ≡ rows.old.is_asked }
{
    match printer.next(rt) {
        None => Ok(false),
        Some(note) => match show_below(out, &note, editor, prompt, rows, lists) {
            Ok(()) => Ok(true),
            Err(error) => Err(error),
        },
    }
}

/// How long an event is waited for: not at all if a text was printed, since there may be another one, and otherwise a day, again and again.
fn limit_after(printed: bool) -> Duration {
    if printed {
        Duration::ZERO
    } else {
        Duration::from_secs(86_400)
    }
}

/// Waits until there is an event. Meanwhile the texts of other threads are printed, but after each an event goes first.
fn wait_printing<
    S: EventSource<Global>,
    D: ModeDevice,
    W: Write + Drop,
    C: Clock + Drop,
    A: Allocator,
    H: Helper,
    R: Wait,
>(
    rt: &R,
    tty: &mut Session<S, D, W, C>,
    printer: &Printer,
    editor: &Editor<A>,
    prompt: &Prompt<'_, H>,
    rows: &mut Rows,
    lists: bool,
) -> io::Result<()>
    ensures leads { (given : EditorState → Seen → Seen) (v : Known S) (w : EditorState) → GoesOn S.drawn S.asked given v w (knows tty.old.pass) editor.now → GoesOn S.drawn S.asked given v w (knows tty.new.pass) editor.now }
    ensures shown { (given : EditorState → Seen → Seen) (v : Known S) (w : EditorState) (tab : Bool) (out : Option (List ℕ)) → is_some prompt.now.printer ≡ true
        → GoesOnShown S.drawn S.asked (look_of given (H.hints prompt.now.helper.now) (H.candidates prompt.now.helper.now) prompt.now) v w (knows tty.old.pass) editor.now (area_of rows.old) tab lists out (W.contents tty.old.out)
        → OnOk result (GoesOnShown S.drawn S.asked (look_of given (H.hints prompt.now.helper.now) (H.candidates prompt.now.helper.now) prompt.now) v w (knows tty.new.pass) editor.now (area_of rows.new) tab lists out (W.contents tty.new.out)) }
    ensures cut { (given : EditorState → Seen → Seen) (v : Known S) (w : EditorState) (tab : Bool) (out : Option (List ℕ)) → is_some prompt.now.printer ≡ true
        → GoesOnShown S.drawn S.asked (look_of given (H.hints prompt.now.helper.now) (H.candidates prompt.now.helper.now) prompt.now) v w (knows tty.old.pass) editor.now (area_of rows.old) tab lists out (W.contents tty.old.out)
        → IfErr result (λ error. StopsShown S.drawn S.asked (look_of given (H.hints prompt.now.helper.now) (H.candidates prompt.now.helper.now) prompt.now) v w (error_kind error) (knows tty.new.pass) editor.now out (W.contents tty.new.out)) }
    ensures asked { rows.new.is_asked ≡ rows.old.is_asked }
    ensures others { (tty.new.term ≡ tty.old.term) × (tty.new.features ≡ tty.old.features) }
{
    for _ in rt.forever() {
        let printed = match print_next(rt, &mut tty.out, printer, editor, prompt, rows, lists) {
            Ok(printed) => printed,
            Err(error) => return Err(error),
        };
        match tty.poll(rt, limit_after(printed)) {
            Ok(true) => return Ok(()),
            Ok(false) => {}
            Err(error) => return Err(error),
        }
    }
    unreachable!()
}

/// Takes a turn. Until there is an event, the texts of other threads are printed, if the prompt has a printer.
fn take_next<
    S: EventSource<Global>,
    D: ModeDevice,
    W: Write + Drop,
    C: Clock + Drop,
    A: Allocator + Clone,
    H: Helper,
    R: Wait,
>(
    rt: &R,
    tty: &mut Session<S, D, W, C>,
    editor: &mut Editor<A>,
    prompt: &Prompt<'_, H>,
    rows: &mut Rows,
    tabbed: bool,
    lists: bool,
) -> Turn<A>
    ensures leads { (v : Known S) (w : EditorState) → GoesOn S.drawn S.asked (given_by (H.completes prompt.now.helper.now)) v w (knows tty.old.pass) editor.old
        → Leads S.drawn S.asked (given_by (H.completes prompt.now.helper.now)) v w result (knows tty.new.pass) editor.new }
    ensures written { (v : Known S) (w : EditorState) (out : Option (List ℕ)) → (rows.old.is_asked ≡ true → prompt.now.asks ≡ true)
        → GoesOnShown S.drawn S.asked (look_of (given_by (H.completes prompt.now.helper.now)) (H.hints prompt.now.helper.now) (H.candidates prompt.now.helper.now) prompt.now) v w (knows tty.old.pass) editor.old (area_of rows.old) tabbed lists out (W.contents tty.old.out)
        → LeadsShown S.drawn S.asked (look_of (given_by (H.completes prompt.now.helper.now)) (H.hints prompt.now.helper.now) (H.candidates prompt.now.helper.now) prompt.now) v w result (knows tty.new.pass) editor.new (area_of rows.new) out (W.contents tty.new.out) }
    ensures fewer { rows.new.is_asked ≡ true → rows.old.is_asked ≡ true }
    ensures features { tty.new.features ≡ tty.old.features }
    ensures mode { IsTrue (is_some tty.old.term.prior) → tty.new.term.prior ≡ tty.old.term.prior }
{
    match prompt.printer {
        None => take_turn(rt, tty, editor, prompt, rows, tabbed),
        Some(printer) => match wait_printing(rt, tty, printer, editor, prompt, rows, lists) {
            Ok(()) => take_turn(rt, tty, editor, prompt, rows, tabbed),
            Err(error) => Turn::Failed(error),
        },
    }
}

/// Switches raw mode on, and shows the line.
fn begin<
    S: EventSource<Global>,
    D: ModeDevice,
    W: Write + Drop,
    C: Clock + Drop,
    A: Allocator,
    H: Helper,
>(tty: &mut Session<S, D, W, C>, editor: &Editor<A>, prompt: &Prompt<'_, H>) -> io::Result<Rows>
    ensures pass { tty.new.pass ≡ tty.old.pass }
    ensures shows { IfOk result (λ rows. (given : EditorState → Seen → Seen) → HasWritten (look_of given (H.hints prompt.now.helper.now) (H.candidates prompt.now.helper.now) prompt.now) editor.now [] editor.now (Shows (area_of rows) false) (W.contents tty.old.out) (W.contents tty.new.out)) }
    ensures stops { OnErr result ((given : EditorState → Seen → Seen) → HasWrittenFront (look_of given (H.hints prompt.now.helper.now) (H.candidates prompt.now.helper.now) prompt.now) editor.now [] editor.now (W.contents tty.old.out) (W.contents tty.new.out)) }
    ensures asks { IfOk result (λ rows. rows.is_asked ≡ prompt.now.asks) }
    ensures features { tty.new.features ≡ tty.old.features }
    ensures already { IsTrue (is_some tty.old.term.prior) → tty.new.term.prior ≡ tty.old.term.prior }
    ensures raw { OnOk result (tty.old.term.prior ≡ None → tty.new.term.prior ≡ Some (D.current tty.old.term.device)) }
{
    match tty.enable_raw_mode() {
        Ok(()) => {}
        Err(error) => return Err(error),
    }
    let size = match size_for(tty, prompt) {
        Ok(size) => size,
        Err(error) => return Err(error),
    };
    let mut rows = Rows::of(tty.alloc, size, prompt.wraps)?;
    rows.is_asked = prompt.asks;
    rows.reflows = prompt.reflows.get();
    match prompt.show(&mut tty.out, editor, &mut rows, false) {
        Ok(()) => Ok(rows),
        Err(error) => Err(error),
    }
}

/// The limits of an editor that remembers no line.
fn hidden_limits() -> Limits
    ensures { result ≡ hidden_limits }
{
    Limits {
        bytes: 65_536,
        lines: 0,
        steps: 1000,
        kills: 60,
        ignore_dups: false,
        ignore_space: false,
        multiline: false,
    }
}

/// Takes turns until the line ends.
fn go_on<
    S: EventSource<Global>,
    D: ModeDevice,
    W: Write + Drop,
    C: Clock + Drop,
    A: Allocator + Clone,
    H: Helper,
    R: Wait,
>(
    rt: &R,
    tty: &mut Session<S, D, W, C>,
    editor: &mut Editor<A>,
    prompt: &Prompt<'_, H>,
    mut rows: Rows,
) -> io::Result<Read<A>>
    ensures line { IfOk result (λ read. LineEnds S.drawn S.asked (given_by (H.completes prompt.now.helper.now)) (knows tty.old.pass) editor.old (answer_seen read) (knows tty.new.pass) editor.new) }
    ensures err { IfErr result (λ error. StopsAsking S.drawn S.asked (given_by (H.completes prompt.now.helper.now)) (knows tty.old.pass) editor.old (error_kind error) (knows tty.new.pass) editor.new) }
    ensures written { IfOk result (λ read. (out : Option (List ℕ)) → (rows.is_asked ≡ true → prompt.now.asks ≡ true) → HasWritten (look_of (given_by (H.completes prompt.now.helper.now)) (H.hints prompt.now.helper.now) (H.candidates prompt.now.helper.now) prompt.now) editor.old [] editor.old (Shows (area_of rows) false) out (W.contents tty.old.out)
        → LineEndsShown S.drawn S.asked (look_of (given_by (H.completes prompt.now.helper.now)) (H.hints prompt.now.helper.now) (H.candidates prompt.now.helper.now) prompt.now) (knows tty.old.pass) editor.old (answer_seen read) (knows tty.new.pass) editor.new out (W.contents tty.new.out)) }
    ensures cut { IfErr result (λ error. (out : Option (List ℕ)) → (rows.is_asked ≡ true → prompt.now.asks ≡ true) → HasWritten (look_of (given_by (H.completes prompt.now.helper.now)) (H.hints prompt.now.helper.now) (H.candidates prompt.now.helper.now) prompt.now) editor.old [] editor.old (Shows (area_of rows) false) out (W.contents tty.old.out)
        → StopsShown S.drawn S.asked (look_of (given_by (H.completes prompt.now.helper.now)) (H.hints prompt.now.helper.now) (H.candidates prompt.now.helper.now) prompt.now) (knows tty.old.pass) editor.old (error_kind error) (knows tty.new.pass) editor.new out (W.contents tty.new.out)) }
    ensures features { tty.new.features ≡ tty.old.features }
    ensures mode { IsTrue (is_some tty.old.term.prior) → tty.new.term.prior ≡ tty.old.term.prior }
{
    let mut tabbed = false;
    let mut lists = false;
    for _ in rt.forever() {
        match take_next(rt, tty, editor, prompt, &mut rows, tabbed, lists) {
            Turn::Going(tab, both) => {
                tabbed = tab;
                lists = both;
            }
            Turn::Ended(read) => return Ok(read),
            Turn::Failed(error) => return Err(error),
        }
    }
    unreachable!()
}

impl<H: Helper> Prompt<'_, H> {
    /// Asks for a line from the cursor's row on, after the prompt, until Enter, Ctrl-C, or Ctrl-D in an empty line.
    ///
    /// Raw mode is switched on if it isn't, and stays on, so that no key between two lines is lost. Each event is given to the editor, and its
    /// line is shown anew, in as many rows as it takes. A text that is too long for the line rings the bell, and the line goes on. Then the cursor
    /// goes to the start of the row below the line.
    ///
    /// At Tab without a modifier the helper's text is pasted, if it has one for the line. A second Tab lists the helper's candidates in columns
    /// below the line, until another event comes. The helper's hint is shown behind the line. Ctrl-L clears the window, and the line goes
    /// on at its top (`clear-screen`): so a row that another program wrote over is whole again. While an incremental search goes on, what it looks
    /// for is shown in the prompt's place, and the bell rings at what isn't found.
    ///
    /// So a frame of the line is written first, and one after each event. Nothing else is but the bell, a clearing, what a resize needs, and at
    /// last what leaves the row.
    ///
    /// The editor may hold an unfinished line, and then that line goes on. In one row that is too narrow for both, the prompt is left out. If
    /// `Feature::BracketedPaste` is on, a paste is one event; else an Enter in a paste accepts the line.
    ///
    /// The window's size is asked for in the prompt's first call and after a resize. 0 columns or rows count as 80 and 24. So a program that reads events by itself
    /// takes a new prompt after an `Event::Resize`. After one the terminal is also asked for the cursor's place, since it may have wrapped the
    /// rows. If it doesn't answer within two seconds, it isn't asked again in this call.
    ///
    /// # Errors
    ///
    /// `InvalidInput` if the prompt has a control character: then nothing was done. Else those of `Session::{enable_raw_mode, size, read,
    /// position}` and of the writer, and `OutOfMemory` if memory was refused. The editor has taken all events that were read, but
    /// one for which memory was refused. So the next call goes on with its line. The cursor stays in its row.
    ///
    /// An accepted line is returned also if the writer then fails to leave the rows. The next write shows that error.
    ///
    /// ```
    /// let prompt = Prompt::new("Name: ");
    /// if let Read::Line(name) = prompt.read_line(rt, &mut tty, &mut editor)? {
    ///     write!(tty.out, "Hello {name}\r\n")?;
    /// }
    /// ```
    pub fn read_line<
        S: EventSource<Global>,
        D: ModeDevice,
        W: Write + Drop,
        C: Clock + Drop,
        A: Allocator + Clone,
        R: Wait,
    >(&self, rt: &R, tty: &mut Session<S, D, W, C>, editor: &mut Editor<A>) -> io::Result<Read<A>>
        ensures line { IfOk result (λ read. LineEnds S.drawn S.asked (given_by (H.completes self.now.helper.now)) (knows tty.old.pass) editor.old (answer_seen read) (knows tty.new.pass) editor.new) }
        ensures err { IfErr result (λ error. StopsAsking S.drawn S.asked (given_by (H.completes self.now.helper.now)) (knows tty.old.pass) editor.old (error_kind error) (knows tty.new.pass) editor.new) }
        ensures written { IfOk result (λ read. LineEndsShown S.drawn S.asked (look_of (given_by (H.completes self.now.helper.now)) (H.hints self.now.helper.now) (H.candidates self.now.helper.now) self.now) (knows tty.old.pass) editor.old (answer_seen read) (knows tty.new.pass) editor.new (W.contents tty.old.out) (W.contents tty.new.out)) }
        ensures cut { IfErr result (λ error. StopsShown S.drawn S.asked (look_of (given_by (H.completes self.now.helper.now)) (H.hints self.now.helper.now) (H.candidates self.now.helper.now) self.now) (knows tty.old.pass) editor.old (error_kind error) (knows tty.new.pass) editor.new (W.contents tty.old.out) (W.contents tty.new.out)) }
        ensures refused { spec.have_control (prompt_runs self.now) ≡ true → IsErrAnd result (λ error. error_kind error ≡ InvalidInput) × (tty.new ≡ tty.old) × (editor.new ≡ editor.old) }
        ensures allowed { OnOk result (spec.have_control (prompt_runs self.now) ≡ false) }
        ensures features { tty.new.features ≡ tty.old.features }
        ensures already { IsTrue (is_some tty.old.term.prior) → tty.new.term.prior ≡ tty.old.term.prior }
        ensures raw { OnOk result (tty.old.term.prior ≡ None → tty.new.term.prior ≡ Some (D.current tty.old.term.device)) }
    {
        if have_control(self.text, self.parts) {
            return Err(io::Error::from(ErrorKind::InvalidInput));
        }
        match begin(tty, editor, self) {
            Ok(rows) => go_on(rt, tty, editor, self, rows),
            Err(error) => Err(error),
        }
    }
}

impl<H> Prompt<'_, H> {
    /// Asks for a line that nobody is to read, as a password: as `read_line` does, but nothing is shown of the line, or a star for each character.
    ///
    /// The line is in no history, and it can't be undone or yanked once it has ended: it is typed in an editor of its own, whose memory is freed.
    /// The helper doesn't see it, no search is shown, and what was typed before an error is lost.
    ///
    /// # Errors
    ///
    /// Those of `read_line`.
    ///
    /// ```
    /// let prompt = Prompt::new("Password: ");
    /// match prompt.read_hidden(rt, &mut tty, Mask::Stars)? {
    ///     Read::Line(password) => write!(tty.out, "{} bytes\r\n", password.as_str().len())?,
    ///     Read::Interrupted | Read::Closed => {}
    /// }
    /// ```
    pub fn read_hidden<
        S: EventSource<Global>,
        D: ModeDevice,
        W: Write + Drop,
        C: Clock + Drop,
        R: Wait,
    >(&self, rt: &R, tty: &mut Session<S, D, W, C>, mask: Mask) -> io::Result<Read>
        ensures line { IfOk result (λ read. HiddenLine S.drawn S.asked mask self.now (knows tty.old.pass) (answer_seen read) (knows tty.new.pass) (W.contents tty.old.out) (W.contents tty.new.out)) }
        ensures err { IfErr result (λ error. HiddenStops S.drawn S.asked mask self.now (knows tty.old.pass) (error_kind error) (knows tty.new.pass) (W.contents tty.old.out) (W.contents tty.new.out)) }
        ensures refused { spec.have_control (prompt_runs self.now) ≡ true → IsErrAnd result (λ error. error_kind error ≡ InvalidInput) × (tty.new ≡ tty.old) }
        ensures allowed { OnOk result (spec.have_control (prompt_runs self.now) ≡ false) }
        ensures features { tty.new.features ≡ tty.old.features }
        ensures already { IsTrue (is_some tty.old.term.prior) → tty.new.term.prior ≡ tty.old.term.prior }
        ensures raw { OnOk result (tty.old.term.prior ≡ None → tty.new.term.prior ≡ Some (D.current tty.old.term.device)) }
    {
        if have_control(self.text, self.parts) {
            let kind = ErrorKind::InvalidInput;
            return Err(io::Error::from(kind));
        }
        let (asks, wraps) = (self.asks, self.wraps);
        let prompt = Prompt {
            text: self.text,
            parts: self.parts,
            helper: &(),
            mask: Some(mask),
            printer: self.printer,
            asks,
            wraps,
            size: Cell::new(self.size.get()),
            reflows: Cell::new(self.reflows.get()),
        };
        let mut editor = Editor::new(tty.alloc, hidden_limits())?;
        prompt.read_line(rt, tty, &mut editor)
    }
}

/// Asks for a line as `Prompt::read_line` does, after a prompt of this text without a helper.
///
/// # Errors
///
/// Those of `Prompt::read_line`.
///
/// ```
/// let mut editor = Editor::new(alloc, Limits::default())?;
/// if let Read::Line(name) = read_line(rt, &mut tty, &mut editor, "Name: ")? {
///     write!(tty.out, "Hello {name}\r\n")?;
/// }
/// ```
pub fn read_line<
    S: EventSource<Global>,
    D: ModeDevice,
    W: Write + Drop,
    C: Clock + Drop,
    A: Allocator + Clone,
    R: Wait,
>(
    rt: &R,
    tty: &mut Session<S, D, W, C>,
    editor: &mut Editor<A>,
    prompt: &str,
) -> io::Result<Read<A>>
    ensures line { IfOk result (λ read. LineEnds S.drawn S.asked as_read (knows tty.old.pass) editor.old (answer_seen read) (knows tty.new.pass) editor.new) }
    ensures err { IfErr result (λ error. StopsAsking S.drawn S.asked as_read (knows tty.old.pass) editor.old (error_kind error) (knows tty.new.pass) editor.new) }
    ensures written { IfOk result (λ read. LineEndsShown S.drawn S.asked (plain_look prompt.now) (knows tty.old.pass) editor.old (answer_seen read) (knows tty.new.pass) editor.new (W.contents tty.old.out) (W.contents tty.new.out)) }
    ensures cut { IfErr result (λ error. StopsShown S.drawn S.asked (plain_look prompt.now) (knows tty.old.pass) editor.old (error_kind error) (knows tty.new.pass) editor.new (W.contents tty.old.out) (W.contents tty.new.out)) }
    ensures refused { prompts.has_control (chars prompt.now) ≡ true → IsErrAnd result (λ error. error_kind error ≡ InvalidInput) × (tty.new ≡ tty.old) × (editor.new ≡ editor.old) }
    ensures allowed { OnOk result (prompts.has_control (chars prompt.now) ≡ false) }
    ensures features { tty.new.features ≡ tty.old.features }
    ensures already { IsTrue (is_some tty.old.term.prior) → tty.new.term.prior ≡ tty.old.term.prior }
    ensures raw { OnOk result (tty.old.term.prior ≡ None → tty.new.term.prior ≡ Some (D.current tty.old.term.device)) }
{
    let prompt = Prompt::new(prompt);
    prompt.read_line(rt, tty, editor)
}
