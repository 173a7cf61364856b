//! What takes the events of sequences: a parser's queue, or a caller's table.
//!
//! Only crates of this tree use this module, which may change with each version.
ghost use Rattle.std.specs.Prelude.{◌≡◌, ◌+◌, ◌≤◌, ◌<◌, ℕ, List, [], ◌∷◌, ◌++◌, length, map, IsTrue, IsFalse};
ghost use Rattle.std.specs.List.{AllByRecursion};
ghost use Rattle.crossterm_parse.specs.Bytes.{IsLetter};
ghost use Rattle.crossterm_parse.specs.Meaning.{typed};
ghost use Rattle.crossterm_parse.specs.declared.meaning.Meaning.{Meaning};

use crate::meaning::Meaning;

/// Takes the events of sequences, one after another, as far as there is room.
pub trait Outlet {
    /// From one state of the outlet, these meanings in order lead to another.
    ghost given: { Self → List Meaning → Self → Type 0 };

    /// For how many events there is room.
    ghost room: { Self → ℕ };

    /// For how many typed characters there is room, as long as no other event is given.
    ghost typed_room: { Self → ℕ };

    /// Whether there is room for an event. If there is none, room is made, if that can be.
    fn has_room(&mut self) -> bool
        ensures given { given self.old [] self.new }
        ensures grows { room self.old ≤ room self.new }
        ensures some { IsTrue result → 0 < room self.new }
        ensures typed { IsTrue result → 0 < typed_room self.new }
        ensures none { IsFalse result → room self.new ≡ 0 };

    /// For how many events there is room now.
    fn room_now(&self) -> usize
        ensures { result ≡ room self.now };

    /// Gives an event, for which there is room.
    fn give(&mut self, meaning: Meaning)
        requires { 0 < room self.old }
        ensures given { given self.old (meaning ∷ []) self.new }
        ensures room { room self.new + 1 ≡ room self.old };

    /// For how many typed characters there is room now.
    fn typed_room_now(&self) -> usize
        ensures { result ≡ typed_room self.now };

    /// Gives the key of a typed character, and returns whether there was room. If there was none, nothing is given.
    fn give_typed(&mut self, c: char) -> bool
        ensures yes { IsTrue result → given self.old (typed c ∷ []) self.new × (room self.old ≤ room self.new + 1) }
        ensures no { IsFalse result → given self.old [] self.new × (room self.old ≤ room self.new) }
        ensures full { IsFalse result → typed_room self.old ≡ 0 };

    /// Gives the keys of letters, for which there is room.
    fn give_letters(&mut self, letters: &[u8])
        requires room { length letters.now ≤ typed_room self.old }
        requires letters { AllByRecursion IsLetter letters.now }
        ensures given { given self.old (map typed letters.now) self.new }
        ensures room { room self.old ≤ room self.new + length letters.now };

    // If nothing is given, nothing changes, and what is given in two runs is given in one.
    ghost given_none: { (o : Self) → given o [] o };

    ghost given_on: { (o p q : Self) (xs ys : List Meaning) → given o xs p → given p ys q → given o (xs ++ ys) q };
}
