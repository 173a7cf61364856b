//! The bytes of sequences, and their events into an outlet. Not through here go the bytes of an open paste, and an event that comes alone.
//!
//! Runs of bytes are put in at once, with what comes of putting in each by itself.
ghost use Rattle.std.specs.Prelude.{◌≡◌, ◌≢◌, ◌==◌, ◌&&◌, not, ◌+◌, ◌≤◌, ◌<◌, ℕ, List, [], None, false, true, length, take, get_or, option_to_list, IsTrue, IsFalse};
ghost use Rattle.crossterm_parse.specs.Transitions.{events_left, meaning_with, state_after};
ghost use Rattle.crossterm_parse.specs.States.{is_paste};
ghost use Rattle.crossterm_parse.specs.Putting.{PutsAll, PutsByte, PutsOn, TakesFront, Through};
ghost use Rattle.crossterm_parse.specs.Marked.{marked};
ghost use Rattle.crossterm_parse.specs.View.{AdvancesOver};

use crate::character::character_in;
use crate::meaning::{Meaning, byte_key};
use crate::outlet::Outlet;
use crate::state::State;
use crate::steps::Steps;
use crate::whole::sequence_in;
use std::sync::ledger::Ledger;

/// For how many typed characters an outlet has room, which is made for one at least.
#[inline(always)]
fn typed_room<O: Outlet>(outlet: &mut O) -> usize
    ensures room { result ≤ O.typed_room outlet.new }
    ensures given { O.given outlet.old [] outlet.new }
    ensures grows { O.room outlet.old ≤ O.room outlet.new }
{
    let room = outlet.typed_room_now();
    if room > 0 || !outlet.has_room() {
        return room;
    }
    outlet.typed_room_now()
}

/// Whether there is a pause after the byte at this place of a piece.
fn pauses(more: bool, place: usize, count: usize) -> bool
    requires { place < count }
    ensures { result ≡ not more && (place + 1 == count) }
{
    !more && place + 1 == count
}

impl State {
    /// Gives the event of the sequence that is whole with a byte, if it has one, and returns whether there was room.
    #[inline(never)]
    fn close<O: Outlet>(&mut self, byte: u8, raw: bool, outlet: &mut O) -> bool
        ensures yes { IsTrue result → (self.new ≡ State.Ground) × O.given outlet.old (option_to_list (meaning_with self.old byte raw)) outlet.new }
        ensures no { IsFalse result → (self.new ≡ self.old) × O.given outlet.old [] outlet.new }
        ensures full { IsFalse result → (O.room outlet.old ≡ 0) × (O.room outlet.new ≡ 0) }
        ensures some { IsFalse result → meaning_with self.old byte raw ≢ None }
        ensures room { O.room outlet.old ≤ O.room outlet.new + 1 }
    {
        if let Some(meaning) = self.meaning(byte, raw) {
            if !outlet.has_room() {
                return false;
            }
            outlet.give(meaning);
        }
        *self = State::Ground;
        true
    }

    /// Puts in one more byte, and returns whether there was room for its event. If there was none, nothing is taken.
    #[inline(always)]
    fn step<O: Outlet>(&mut self, byte: u8, raw: bool, pause: bool, outlet: &mut O) -> bool
        requires { is_paste self.old ≡ false }
        ensures yes { IsTrue result → Through O.given (λ old new. PutsByte old new byte raw pause) self.old self.new outlet.old outlet.new }
        ensures no { IsFalse result → (self.new ≡ self.old) × O.given outlet.old [] outlet.new }
        ensures full { IsFalse result → (O.room outlet.old ≡ 0) × (O.room outlet.new ≡ 0) }
        ensures some { IsFalse result → (text : List ℕ) → events_left (state_after self.old byte raw pause) text ≢ [] }
        ensures room { O.room outlet.old ≤ O.room outlet.new + 1 }
    {
        if self.goes_on(byte, pause) {
            return true;
        }
        self.close(byte, raw, outlet)
    }

    /// Gives the events of the letters in front, and returns how many: as many as there is room for, which is made for one at least.
    fn give_letters<O: Outlet, L: Ledger>(
        &self,
        bytes: &[u8],
        outlet: &mut O,
        steps: &mut Steps<L>,
    ) -> usize
        requires { self.now ≡ State.Ground }
        ensures front { TakesFront (O.room outlet.old) (O.room outlet.new) bytes.now result steps.old steps.new }
        ensures puts { Through O.given (λ old new. PutsAll old new (take result bytes.now)) self.now self.now outlet.old outlet.new }
    {
        let most = bytes.len().min(typed_room(outlet));
        let count = self.put_letters(&bytes[..most], steps);
        outlet.give_letters(&bytes[..count]);
        count
    }

    /// Gives the event of the character in UTF-8 in front, if there is room for it, and returns how many bytes it has.
    #[inline(always)]
    fn give_utf8<O: Outlet, L: Ledger>(
        &self,
        bytes: &[u8],
        outlet: &mut O,
        steps: &mut Steps<L>,
    ) -> usize
        requires { self.now ≡ State.Ground }
        ensures front { TakesFront (O.room outlet.old) (O.room outlet.new) bytes.now result steps.old steps.new }
        ensures puts { Through O.given (λ old new. PutsAll old new (take result bytes.now)) self.now self.now outlet.old outlet.new }
    {
        let Some((c, size)) = character_in(bytes) else {
            return 0;
        };
        if !outlet.give_typed(c) {
            return 0;
        }
        steps.count(size as u64);
        size
    }

    /// Gives the event of the plain sequence in front, if there is room for it, and returns how many bytes it has.
    #[inline(always)]
    fn give_sequence<O: Outlet, L: Ledger>(
        &self,
        bytes: &[u8],
        raw: bool,
        outlet: &mut O,
        steps: &mut Steps<L>,
    ) -> usize
        requires ground { self.now ≡ State.Ground }
        requires escape { (0 < length bytes.now) × (get_or bytes.now 0 0 ≡ 27) }
        ensures front { TakesFront (O.room outlet.old) (O.room outlet.new) bytes.now result steps.old steps.new }
        ensures puts { Through O.given (λ old new. PutsOn raw old new (take result bytes.now)) self.now self.now outlet.old outlet.new }
    {
        if outlet.room_now() == 0 {
            return 0;
        }
        let Some(sequence) = sequence_in(&bytes[1..], raw) else {
            return 0;
        };
        let count = 1 + sequence.count;
        steps.count(count as u64);
        match sequence.meaning {
            Some(meaning) => outlet.give(meaning),
            None => {}
        }
        count
    }

    /// Gives the event of the control byte in front, if there is room for it, and returns how many bytes it has.
    #[inline(never)]
    fn give_control<O: Outlet, L: Ledger>(
        &self,
        bytes: &[u8],
        raw: bool,
        outlet: &mut O,
        steps: &mut Steps<L>,
    ) -> usize
        requires ground { self.now ≡ State.Ground }
        requires some { 0 < length bytes.now }
        requires control { (get_or bytes.now 0 0 < 128) × (get_or bytes.now 0 0 ≢ 27) }
        ensures front { TakesFront (O.room outlet.old) (O.room outlet.new) bytes.now result steps.old steps.new }
        ensures puts { Through O.given (λ old new. PutsOn raw old new (take result bytes.now)) self.now self.now outlet.old outlet.new }
    {
        if outlet.room_now() == 0 {
            return 0;
        }
        steps.count(1);
        outlet.give(Meaning::Key(byte_key(bytes[0], raw)));
        1
    }

    /// Gives the events of the letters in front, or that of the character in UTF-8, of the plain sequence or of the control byte, and
    /// returns how many bytes they have.
    #[inline(always)]
    fn give_front<O: Outlet, L: Ledger>(
        &self,
        bytes: &[u8],
        raw: bool,
        outlet: &mut O,
        steps: &mut Steps<L>,
    ) -> usize
        requires ground { self.now ≡ State.Ground }
        requires some { 0 < length bytes.now }
        ensures front { TakesFront (O.room outlet.old) (O.room outlet.new) bytes.now result steps.old steps.new }
        ensures puts { Through O.given (λ old new. PutsOn raw old new (take result bytes.now)) self.now self.now outlet.old outlet.new }
    {
        match bytes[0] {
            0x80..=0xFF => self.give_utf8(bytes, outlet, steps),
            27 => self.give_sequence(bytes, raw, outlet, steps),
            32..=126 => self.give_letters(bytes, outlet, steps),
            _ => self.give_control(bytes, raw, outlet, steps),
        }
    }

    /// Gives the events of the letters, of the characters in UTF-8 and of the plain sequences in front, and returns how many bytes they have.
    fn give_whole<O: Outlet, L: Ledger>(
        &self,
        bytes: &[u8],
        raw: bool,
        outlet: &mut O,
        steps: &mut Steps<L>,
    ) -> usize
        requires { self.now ≡ State.Ground }
        ensures front { TakesFront (O.room outlet.old) (O.room outlet.new) bytes.now result steps.old steps.new }
        ensures puts { Through O.given (λ old new. PutsOn raw old new (take result bytes.now)) self.now self.now outlet.old outlet.new }
    {
        let mut place = 0;
        while place < bytes.len() {
            let count = self.give_front(&bytes[place..], raw, outlet, steps);
            if count == 0 {
                break;
            }
            place += count;
        }
        place
    }

    /// Gives the events of what is whole in front, and opens the sequence behind it. Returns how many bytes they have.
    #[inline(always)]
    fn begin_run<O: Outlet, L: Ledger>(
        &mut self,
        bytes: &[u8],
        raw: bool,
        outlet: &mut O,
        steps: &mut Steps<L>,
    ) -> usize
        requires { self.old ≡ State.Ground }
        ensures front { TakesFront (O.room outlet.old) (O.room outlet.new) bytes.now result steps.old steps.new }
        ensures puts { Through O.given (λ old new. PutsOn raw old new (take result bytes.now)) self.old self.new outlet.old outlet.new }
        ensures outside { is_paste self.new ≡ false }
    {
        let count = self.give_whole(bytes, raw, outlet, steps);
        count + self.open(&bytes[count..], steps)
    }

    /// Puts in the bytes in front that a run takes, and returns how many: text and plain sequences if no sequence is open, or what a
    /// sequence's numbers go on with.
    #[inline(always)]
    fn run<O: Outlet, L: Ledger>(
        &mut self,
        bytes: &[u8],
        raw: bool,
        outlet: &mut O,
        steps: &mut Steps<L>,
    ) -> usize
        requires { is_paste self.old ≡ false }
        ensures front { TakesFront (O.room outlet.old) (O.room outlet.new) bytes.now result steps.old steps.new }
        ensures puts { Through O.given (λ old new. PutsOn raw old new (take result bytes.now)) self.old self.new outlet.old outlet.new }
        ensures outside { is_paste self.new ≡ false }
    {
        match self {
            State::Ground => self.begin_run(bytes, raw, outlet, steps),
            State::Numbered(_, _) | State::Sgr(_) | State::Reply(_) => self.put_numbers(
                bytes, steps,
            ),
            _ => 0,
        }
    }

    /// Takes bytes outside of a paste, and returns how many: all, those up to a paste's start, or those before the first event for which
    /// there is no room. While a paste is open it takes none. `more` and `raw` are as of `Parser::advance`.
    pub fn take<O: Outlet, L: Ledger>(
        &mut self,
        piece: &[u8],
        more: bool,
        raw: bool,
        outlet: &mut O,
        steps: &mut Steps<L>,
    ) -> usize
        ensures front { TakesFront (O.room outlet.old) (O.room outlet.new) piece.now result steps.old steps.new }
        ensures divided { Through O.given (λ old new. AdvancesOver old new (take result (marked piece.now more raw))) self.old self.new outlet.old outlet.new }
        ensures full { result < length piece.now → is_paste self.new ≡ false → O.room outlet.new ≡ 0 }
        ensures ends { result < length piece.now → is_paste self.new ≡ false → (text : List ℕ) → events_left (state_after self.new (get_or piece.now result 0) raw (not more && (result + 1 == length piece.now))) text ≢ [] }
        ensures opens { is_paste self.old ≡ false → is_paste self.new ≡ true → 0 < result }
        ensures none { is_paste self.old ≡ true → (result ≡ 0) × (self.new ≡ self.old) }
    {
        let mut place = 0;
        while place < piece.len() && !self.is_paste() {
            place += self.run(&piece[place..], raw, outlet, steps);
            if place == piece.len() {
                break;
            }
            let pause = pauses(more, place, piece.len());
            if !self.step(piece[place], raw, pause, outlet) {
                break;
            }
            steps.count(1);
            place += 1;
        }
        place
    }
}
