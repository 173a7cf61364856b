//! Typed characters that wait, in a table of their own: four bytes each, and no memory is asked for.
ghost use Rattle.std.specs.Prelude.{◌≡◌, ◌≤◌, ◌<◌, [], ◌∷◌, ◌++◌, length, IfNone, IfSome, IsTrue, IsFalse};
ghost use Rattle.crossterm_parse.specs.inside.Queue.{TypedView};

use std::marker::Model;

/// How many characters there are places for.
const PLACES: usize = 1024;

/// Characters in the order in which they were typed.
#[derive(Drop)]
pub(super) struct Typed {
    places: [char; PLACES],
    // Those from `at` up to `end` wait.
    at: usize,
    end: usize,
}

impl Model for Typed {
    ghost use Rattle.std.specs.Prelude.{◌≡◌, ◌≤◌, ◌-◌, drop, length, take};
    ghost use Rattle.crossterm_parse.specs.inside.Queue.{TypedView};
    ghost use Rattle.crossterm_parse.specs.declared.parse.typed.TheConstants.{PLACES};

    ghost Value = { TypedView };

    ghost view = { λ t. record { waiting = take (t.end - t.at) (drop t.at t.places); room = PLACES - t.end } };

    ghost invariant = { λ t. (t.at ≤ t.end) × (t.end ≤ PLACES) × (length t.places ≡ PLACES) };
}

impl Typed {
    /// No characters.
    pub(super) fn new() -> Typed
        ensures { result.waiting ≡ [] }
    {
        Typed {
            places: ['\0'; PLACES],
            at: 0,
            end: 0,
        }
    }

    /// Whether none waits.
    #[inline(always)]
    pub(super) fn is_empty(&self) -> bool
        ensures yes { IsTrue result → self.now.waiting ≡ [] }
        ensures no { IsFalse result → 0 < length self.now.waiting }
    {
        self.at == self.end
    }

    /// How many wait.
    #[inline(always)]
    pub(super) fn len(&self) -> usize
        ensures count { result ≡ length self.now.waiting }
        ensures few { result ≤ PLACES }
    {
        self.end - self.at
    }

    /// How many more have room.
    #[inline(always)]
    pub(super) fn room(&self) -> usize
        ensures { result ≡ self.now.room }
    {
        PLACES - self.end
    }

    /// Adds a character, and returns whether there was room.
    #[inline(always)]
    pub(super) fn push(&mut self, c: char) -> bool
        ensures yes { IsTrue result → self.new.waiting ≡ self.old.waiting ++ c ∷ [] }
        ensures no { IsFalse result → (self.old.room ≡ 0) × (self.new ≡ self.old) }
    {
        if self.end == PLACES {
            return false;
        }
        self.places[self.end] = c;
        self.end += 1;
        true
    }

    /// Adds letters of ASCII, for which there is room.
    #[inline(always)]
    pub(super) fn extend(&mut self, letters: &[u8])
        requires { length letters.now ≤ self.old.room }
        ensures { self.new.waiting ≡ self.old.waiting ++ letters.now }
    {
        let start = self.end;
        for i in 0..letters.len() {
            self.places[start + i] = char::from(letters[i]);
        }
        self.end = start + letters.len();
    }

    /// If none waits, there is room for as many as at first.
    #[inline(always)]
    pub(super) fn rewind(&mut self)
        ensures { self.new.waiting ≡ self.old.waiting }
    {
        if self.at == self.end {
            self.at = 0;
            self.end = 0;
        }
    }

    /// The first character, which is taken out.
    #[inline(always)]
    pub(super) fn next(&mut self) -> Option<char>
        ensures none { IfNone result ((self.old.waiting ≡ []) × (self.new ≡ self.old)) }
        ensures some { IfSome result (λ c. self.old.waiting ≡ c ∷ self.new.waiting) }
    {
        if self.at == self.end {
            return None;
        }
        let c = self.places[self.at];
        self.at += 1;
        Some(c)
    }
}
