//! The first event of a piece. If the piece is one sequence, its event isn't kept.
ghost use Rattle.std.specs.Prelude.{◌≡◌, ◌⊎◌, ◌++◌, ◌∷◌, [], ◌≤◌, ◌<◌, ℕ, Bool, get_or, length, take, IfNone, IfSome};
ghost use Rattle.std.specs.Option.{option_map};
ghost use Rattle.crossterm_types.specs.Seen.{seen, Key};
ghost use Rattle.crossterm_parse.specs.Marked.{marked};
ghost use Rattle.crossterm_parse.specs.View.{AdvancesOver, TakesFirst};
ghost use Rattle.crossterm_parse.specs.declared.state.State.TheVariants.{Ground};

use crate::meaning::byte_key;
use crate::parse::Parser;
use crate::whole::meaning_in;
use crossterm_types::event::{Event, InternalEvent, KeyEvent};
use std::alloc::Allocator;

impl<A: Allocator + Clone> Parser<A> {
    // The key of a piece of one byte, if no sequence is open and the byte is below 128 and not ESC: what `feed` would put behind the events
    // that wait.
    #[inline(always)]
    fn lone_key(&self, piece: &[u8], raw: bool) -> Option<KeyEvent>
        ensures some { IfSome result (λ _. length piece.now ≡ 1) }
        ensures advances { IfSome result (λ key. (more : Bool)
            → AdvancesOver self.now (record self.now { waiting = self.now.waiting ++ Key key ∷ [] }) (take 1 (marked piece.now more raw))) }
        ensures none { IfNone result (self.now.state ≡ Ground → length piece.now ≡ 1 → (get_or piece.now 0 0 ≡ 27) ⊎ (128 ≤ get_or piece.now 0 0)) }
    {
        if piece.len() != 1 || self.state.is_open() {
            return None;
        }
        match piece[0] {
            27 | 128..=255 => None,
            byte => Some(byte_key(byte, raw)),
        }
    }

    // The event of a piece that is one character or one plain sequence, if no sequence is open, and how many bytes it has.
    #[inline(always)]
    fn lone(&self, piece: &[u8], raw: bool) -> Option<(InternalEvent<A>, usize)>
        ensures some { IfSome result (λ it. it.1 ≡ length piece.now) }
        ensures advances { IfSome result (λ it. (more : Bool)
            → AdvancesOver self.now (record self.now { waiting = self.now.waiting ++ seen it.0 ∷ [] }) (take it.1 (marked piece.now more raw))) }
    {
        if piece.is_empty() || self.state.is_open() {
            return None;
        }
        let (meaning, count) = meaning_in(piece, raw)?;
        if count < piece.len() {
            return None;
        }
        Some((InternalEvent::from(meaning), count))
    }

    // What `take_first` does if no event waits, without a faster way for the key of one byte.
    #[inline(never)]
    fn take_any(&mut self, piece: &[u8], more: bool, raw: bool) -> (Option<InternalEvent<A>>, usize)
        requires { self.old.waiting ≡ [] }
        ensures { TakesFirst self.old self.new piece.now more raw (option_map seen result.0) result.1 }
    {
        if let Some((event, count)) = self.lone(piece, raw) {
            return (Some(event), count);
        }
        let taken = self.feed(piece, more, raw);
        (self.next(), taken)
    }

    /// Returns the first event, and how many bytes of the piece were taken for it: 0 if the event waited, and else as many as it has or more.
    /// Further events of these bytes wait. The key of a byte that comes alone needs no memory.
    ///
    /// If there is no event, all bytes were taken, or memory was refused as by `advance`. `more` and `raw` are as of `advance`.
    ///
    /// ```
    /// let (event, taken) = parser.take_first(&piece[from..], more, true);
    /// from += taken;
    /// ```
    #[inline(always)]
    pub fn take_first(
        &mut self,
        piece: &[u8],
        more: bool,
        raw: bool,
    ) -> (Option<InternalEvent<A>>, usize)
        ensures first { TakesFirst self.old self.new piece.now more raw (option_map seen result.0) result.1 }
        // The key of one byte is always given, if no sequence is open and no event waits.
        ensures key { IfNone result.0 (self.old.waiting ≡ [] → self.old.state ≡ Ground → length piece.now ≡ 1 → (get_or piece.now 0 0 ≡ 27) ⊎ (128 ≤ get_or piece.now 0 0)) }
    {
        if !self.queue.is_empty() {
            return (self.next(), 0);
        }
        match self.lone_key(piece, raw) {
            Some(key) => (Some(InternalEvent::Event(Event::Key(key))), 1),
            None => self.take_any(piece, more, raw),
        }
    }
}
