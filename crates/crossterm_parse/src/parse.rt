//! The parser: bytes are handed in as they come, and events are given as their sequences end.
ghost use Rattle.std.specs.Prelude.{◌≡◌, ◌≢◌, ◌↔◌, ◌+◌, ◌*◌, ◌≤◌, ◌<◌, [], ◌∷◌, List, false, length, take, drop, IsTrue, IfNone, IfSome, IfErr, OnOk, OnErr};
ghost use Rattle.std.specs.IoError.{error_kind};
ghost use Rattle.std.specs.declared.io.ErrorKind.TheVariants.{OutOfMemory};
ghost use Rattle.crossterm_types.specs.Seen.{seen};
ghost use Rattle.crossterm_parse.specs.Putting.{TakesPart};
ghost use Rattle.crossterm_parse.specs.States.{is_paste};
ghost use Rattle.crossterm_parse.specs.Marked.{Marked, bytes_of, marked};
ghost use Rattle.crossterm_parse.specs.View.{ParserView, Represents, RepresentsSame, AdvancesOver, EndsNoEvent, OpensNoPaste, TakesSteps, capacity, paste_length, text_or_empty};

use crate::paste::PasteText;
use crate::state::State;
use crate::steps::Steps;
use crossterm_types::event::InternalEvent;
use std::alloc::{Allocator, Global};
use std::io;
use std::marker::{Brand, Model};
use std::sync::ledger::{Blank, Ledger};

mod events;
mod first;
mod pasting;
mod queue;
mod typed;

pub use events::Events;
use queue::Queue;

/// Divides the bytes of a terminal into whole sequences, and gives their events.
///
/// The open sequence is a `Copy` state of a fixed size, however long the sequence is. What the parser keeps beside it are the events not yet
/// given, and the text of an open paste. Typed characters wait in a table of 4 KB within it, and need no memory.
///
/// ```
/// let mut parser = Parser::new(rt.alloc());
/// // If the piece is full, more bytes may follow at once, so that ESC at its end is no key yet.
/// if parser.feed(&piece[..count], count == piece.len(), true) < count {
///     return Err(io::Error::from(ErrorKind::OutOfMemory));
/// }
/// for event in parser.events() {
///     let line = Line(&event);
///     writeln!(out, "{line}")?;
/// }
/// ```
#[derive(Drop)]
pub struct Parser<A: Allocator = Global> {
    state: State,
    paste: Option<PasteText<A>>,
    // How many bytes of an open paste are kept at most, the begun end among them.
    most_kept: usize,
    queue: Queue<A>,
}

impl<A: Allocator> Model for Parser<A> {
    ghost Value = { ParserView };

    ghost view = { λ p. record { waiting = p.queue.waiting; state = p.state; text = text_or_empty p.paste; typed = p.queue.typed; room = p.queue.room } };
}

// How many bytes of a paste's end are kept before its last.
const BEGUN_END: usize = 5;

/// Takes the bytes of a piece, with a counter of a new ledger.
fn advance_uncounted<L: Ledger, A: Allocator + Clone>(
    parser: &mut Parser<A>,
    piece: &[u8],
    more: bool,
    raw: bool,
    blank: Blank,
) -> usize
    requires name { blank.name ≡ L.name }
    requires parts { (blank.parts ≡ L.parts) × (0 < L.parts) }
    ensures taken { result ≤ length piece.now }
    ensures divided { AdvancesOver parser.old parser.new (take result (marked piece.now more raw)) }
    ensures quiet { EndsNoEvent parser.old (marked piece.now more raw) → result ≡ length piece.now }
    ensures reserved { length piece.now ≤ parser.old.room → OpensNoPaste parser.old (marked piece.now more raw) → result ≡ length piece.now }
    ensures stops { result < length piece.now → ¬ EndsNoEvent parser.new (take 1 (drop result (marked piece.now more raw))) }
    ensures full { result < length piece.now → OpensNoPaste parser.new (take 1 (drop result (marked piece.now more raw))) → parser.new.room ≡ 0 }
    ensures room { parser.old.room ≤ parser.new.room + result }
{
    let mut steps: Steps<L> = Steps::new(blank);
    parser.advance(piece, more, raw, &mut steps)
}

impl<A: Allocator + Clone> Parser<A> {
    /// A parser that has seen no bytes.
    pub fn new(alloc: A) -> Self
        ensures waiting { result.waiting ≡ [] }
        ensures represents { Represents result [] }
    {
        Parser::bounded(alloc, usize::MAX)
    }

    /// A parser that has seen no bytes, and keeps a paste of so many bytes at most. At the next byte of a longer one it stops, as if memory
    /// was refused.
    ///
    /// ```
    /// let mut parser = Parser::bounded(rt.alloc(), 16 << 20);
    /// ```
    pub fn bounded(alloc: A, longest_paste: usize) -> Self
        ensures waiting { result.waiting ≡ [] }
        ensures represents { Represents result [] }
    {
        Parser {
            state: State::Ground,
            paste: None,
            most_kept: longest_paste.saturating_add(BEGUN_END),
            queue: Queue::new(alloc),
        }
    }

    /// Makes room for the events of so many more bytes.
    ///
    /// # Errors
    ///
    /// `OutOfMemory` if memory was refused. Then nothing has changed.
    pub fn reserve(&mut self, count: usize) -> io::Result<()>
        ensures ok { OnOk result (count ≤ self.new.room) }
        ensures err { IfErr result (λ e. error_kind e ≡ OutOfMemory) }
        ensures full { OnErr result (self.old.room < count) }
        ensures waiting { self.new.waiting ≡ self.old.waiting }
        ensures same { (self.new.state ≡ self.old.state) × (self.new.text ≡ self.old.text) }
        ensures represents { RepresentsSame self.old self.new }
        ensures room { self.old.room ≤ self.new.room }
    {
        match self.queue.reserve(count) {
            Ok(()) => Ok(()),
            Err(_) => Err(io::Error::from(io::ErrorKind::OutOfMemory)),
        }
    }

    /// Has all places for typed characters if none waits.
    #[inline(always)]
    fn rewind(&mut self)
        ensures { self.new ≡ self.old }
    {
        self.queue.rewind();
    }

    /// Takes bytes outside of a paste as `advance` does, but not beyond a paste's start.
    fn take_outside<L: Ledger>(
        &mut self,
        piece: &[u8],
        more: bool,
        raw: bool,
        steps: &mut Steps<L>,
    ) -> usize
        requires { is_paste self.old.state ≡ false }
        ensures { TakesPart self.old self.new piece.now more raw result steps.old steps.new }
    {
        self.state.take(piece, more, raw, &mut self.queue, steps)
    }

    /// Takes bytes as `advance` does, but not beyond a paste's start or end.
    fn take_part<L: Ledger>(
        &mut self,
        piece: &[u8],
        more: bool,
        raw: bool,
        steps: &mut Steps<L>,
    ) -> usize
        ensures { TakesPart self.old self.new piece.now more raw result steps.old steps.new }
    {
        if self.state.is_paste() {
            return self.take_paste(piece, more, raw, steps);
        }
        self.rewind();
        self.take_outside(piece, more, raw, steps)
    }

    /// Takes the bytes of a piece, and returns how many: fewer than the piece has if memory was refused for an event or a paste, or a paste
    /// is longer than the parser may keep. The others are handed in again later.
    ///
    /// `more` says that bytes of the same answer follow at once, so that ESC at the end is no Esc key yet. `raw` says whether the bytes
    /// came in raw mode: then a line feed is Ctrl-J, and else Enter.
    pub fn advance<L: Ledger>(
        &mut self,
        piece: &[u8],
        more: bool,
        raw: bool,
        steps: &mut Steps<L>,
    ) -> usize
        ensures taken { result ≤ length piece.now }
        // The events not yet given grow by the meanings of the parts of the only division, and the parser represents the rest.
        ensures divided { AdvancesOver self.old self.new (take result (marked piece.now more raw)) }
        // A piece that ends no event, with no paste open after it, needs no memory.
        ensures quiet { EndsNoEvent self.old (marked piece.now more raw) → result ≡ length piece.now }
        // If there is room, neither does a piece that opens no paste.
        ensures reserved { length piece.now ≤ self.old.room → OpensNoPaste self.old (marked piece.now more raw) → result ≡ length piece.now }
        // It stops only at a byte that ends an event, or is of a paste; and in no paste only if there is no room left.
        ensures stops { result < length piece.now → ¬ EndsNoEvent self.new (take 1 (drop result (marked piece.now more raw))) }
        ensures full { result < length piece.now → OpensNoPaste self.new (take 1 (drop result (marked piece.now more raw))) → self.new.room ≡ 0 }
        ensures room { self.old.room ≤ self.new.room + result }
        // If all are taken, the steps and the open paste's length are at most its length before and twice the bytes.
        ensures steps { result ≡ length piece.now → TakesSteps self.old self.new steps.old steps.new result }
        // Each byte taken is a step at least.
        ensures counted { steps.old + result ≤ steps.new }
    {
        let mut place = 0;
        while place < piece.len() {
            let pasting = self.state.is_paste();
            place += self.take_part(&piece[place..], more, raw, steps);
            if place < piece.len() && self.state.is_paste() == pasting {
                return place;
            }
        }
        place
    }

    /// Takes the bytes of a piece as `advance` does, for a caller that counts no steps.
    pub fn feed(&mut self, piece: &[u8], more: bool, raw: bool) -> usize
        ensures taken { result ≤ length piece.now }
        ensures divided { AdvancesOver self.old self.new (take result (marked piece.now more raw)) }
        ensures quiet { EndsNoEvent self.old (marked piece.now more raw) → result ≡ length piece.now }
        ensures reserved { length piece.now ≤ self.old.room → OpensNoPaste self.old (marked piece.now more raw) → result ≡ length piece.now }
        ensures stops { result < length piece.now → ¬ EndsNoEvent self.new (take 1 (drop result (marked piece.now more raw))) }
        ensures full { result < length piece.now → OpensNoPaste self.new (take 1 (drop result (marked piece.now more raw))) → self.new.room ≡ 0 }
        ensures room { self.old.room ≤ self.new.room + result }
    {
        advance_uncounted::<Brand, A>(self, piece, more, raw, Blank::new(1))
    }

    /// The first event not yet given, or `None` if there is none. This takes no memory.
    #[inline(always)]
    pub fn next(&mut self) -> Option<InternalEvent<A>>
        ensures none { IfNone result ((self.old.waiting ≡ []) × (self.new.waiting ≡ [])) }
        ensures some { IfSome result (λ event. self.old.waiting ≡ seen event ∷ self.new.waiting) }
        ensures represents { RepresentsSame self.old self.new }
        // No memory is taken, and no room is lost.
        ensures capacity { capacity self.new ≡ capacity self.old }
        ensures room { self.old.room ≤ self.new.room }
    {
        self.queue.next()
    }

    /// Whether bytes were taken that are no whole sequence yet.
    pub fn is_undecided(&self) -> bool
        ensures { (before : List Marked) → Represents self.now before → (IsTrue result ↔ (before ≢ [])) }
    {
        self.state.is_open()
    }

    /// How many bytes of the open paste came after its start, `ESC [ 200 ~`: 0 if no paste is open. This takes no memory.
    ///
    /// The text of a paste is kept until its end comes. So a program that serves others bounds the memory of each of them by this, or by
    /// `bounded`.
    ///
    /// ```
    /// if parser.paste_len() > 1 << 20 {
    ///     return Err(io::Error::from(ErrorKind::InvalidData));
    /// }
    /// ```
    pub fn paste_len(&self) -> usize
        ensures { (before : List Marked) → Represents self.now before → result ≡ paste_length (bytes_of before) }
    {
        match &self.paste {
            Some(text) => text.len(),
            None => 0,
        }
    }
}
