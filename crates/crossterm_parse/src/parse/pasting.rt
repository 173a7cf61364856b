//! The bytes of an open paste, whose text the parser keeps.
ghost use Rattle.std.specs.Prelude.{◌≡◌, ◌+◌, ◌-◌, ◌*◌, ◌≤◌, ◌<◌, ◌++◌, ◌∷◌, [], Bool, true, false, length, take, IsOk, IfOk, OnOk, OnErr};
ghost use Rattle.std.specs.Str.{encode_utf8_all};
ghost use Rattle.std.specs.String.{string_bytes};
ghost use Rattle.bstr.specs.Utf8.{lossy_chars};
ghost use Rattle.crossterm_parse.specs.States.{is_paste};
ghost use Rattle.crossterm_parse.specs.Putting.{PutsByte, PutsOn, StaysAsItWas, TakesPart};
ghost use Rattle.crossterm_parse.specs.Meaning.{pasted};

use super::Parser;
use crate::outlet::Outlet;
use crate::paste::{Met, PasteText};
use crate::state::State;
use crate::steps::Steps;
use std::alloc::{AllocError, Allocator};
use std::string::String;
use std::sync::ledger::Ledger;

impl<A: Allocator + Clone> Parser<A> {
    /// Begins the text of the open paste with a byte.
    #[inline(never)]
    fn keep_first(&mut self, byte: u8) -> Result<(), AllocError>
        ensures state { self.new.state ≡ self.old.state }
        ensures waiting { self.new.waiting ≡ self.old.waiting }
        ensures room { self.new.room ≡ self.old.room }
        ensures ok { OnOk result (self.new.text ≡ byte ∷ []) }
        ensures err { OnErr result (self.new.text ≡ self.old.text) }
    {
        let mut text = PasteText::new(self.queue.allocator().clone()?);
        text.push(byte)?;
        self.paste = Some(text);
        Ok(())
    }

    /// Joins a byte to the text of the open paste.
    fn keep(&mut self, byte: u8) -> Result<(), AllocError>
        ensures state { self.new.state ≡ self.old.state }
        ensures waiting { self.new.waiting ≡ self.old.waiting }
        ensures room { self.new.room ≡ self.old.room }
        ensures ok { OnOk result (self.new.text ≡ self.old.text ++ byte ∷ []) }
        ensures err { OnErr result (self.new.text ≡ self.old.text) }
    {
        if self.paste_len() >= self.most_kept {
            return Err(AllocError);
        }
        match &mut self.paste {
            Some(text) => text.push(byte),
            None => self.keep_first(byte),
        }
    }

    /// The text of the paste, which is over.
    #[tactic(auto, unfolding(bstr::specs::Utf8::pieces_from))]
    fn pasted<L: Ledger>(&self, steps: &mut Steps<L>) -> Result<String<A>, AllocError>
        ensures text { IfOk result (λ text. string_bytes text ≡ encode_utf8_all (lossy_chars (take (length self.now.text - 5) self.now.text))) }
        ensures steps { OnOk result (steps.new ≡ steps.old + (length self.now.text - 5)) }
        ensures counted { steps.old ≤ steps.new }
    {
        match &self.paste {
            Some(text) => text.close(steps),
            None => Ok(String::new(self.queue.allocator().clone()?)),
        }
    }

    /// Gives the event of the paste, which is over.
    #[inline(never)]
    fn close<L: Ledger>(&mut self, steps: &mut Steps<L>) -> Result<(), AllocError>
        ensures state { OnOk result (self.new.state ≡ State.Ground) }
        ensures text { OnOk result (self.new.text ≡ []) }
        ensures waiting { OnOk result (self.new.waiting ≡ self.old.waiting ++ pasted (take (length self.old.text - 5) self.old.text) ∷ []) }
        ensures err { OnErr result (StaysAsItWas self.old self.new) }
        ensures steps { OnOk result (steps.new ≡ steps.old + (length self.old.text - 5)) }
        ensures counted { steps.old ≤ steps.new }
        ensures room { self.old.room ≤ self.new.room + 1 }
    {
        if !self.queue.has_room() {
            return Err(AllocError);
        }
        let text = self.pasted(steps)?;
        self.queue.give_paste(text);
        self.paste = None;
        self.state.end();
        Ok(())
    }

    /// Puts a byte into an open paste.
    #[inline(never)]
    fn put_in_paste<L: Ledger>(&mut self, byte: u8, steps: &mut Steps<L>) -> Result<(), AllocError>
        requires { is_paste self.old.state ≡ true }
        ensures put { IsOk result → (raw pause : Bool) → PutsByte self.old self.new byte raw pause }
        ensures err { OnErr result (StaysAsItWas self.old self.new) }
        ensures room { self.old.room ≤ self.new.room + 1 }
        ensures steps { OnOk result (steps.new + length self.new.text ≤ steps.old + length self.old.text + 2) }
        ensures counted { steps.old < steps.new }
    {
        let mut state = self.state;
        if !state.put_in_paste(byte, steps) {
            return self.close(steps);
        }
        self.keep(byte)?;
        self.state = state;
        Ok(())
    }

    /// Joins the bytes of the open paste before the next ESC, and returns how many: none if memory is refused, or the paste is nearly as long
    /// as it may be.
    fn keep_all<L: Ledger>(&mut self, bytes: &[u8], steps: &mut Steps<L>) -> usize
        ensures within { result ≤ length bytes.now }
        ensures puts { (raw : Bool) → PutsOn raw self.old self.new (take result bytes.now) }
        ensures state { self.new.state ≡ self.old.state }
        ensures text { length self.new.text ≡ length self.old.text + result }
        ensures room { self.old.room ≡ self.new.room }
        ensures steps { steps.new ≡ steps.old + result }
    {
        let most = self.most_kept.saturating_sub(self.paste_len());
        if !matches!(self.state, State::Paste(Met::Nothing)) || bytes.len() > most {
            return 0;
        }
        let Some(text) = &mut self.paste else {
            return 0;
        };
        let Ok(count) = text.extend(bytes, steps) else {
            return 0;
        };
        count
    }

    /// Takes bytes of an open paste, and returns how many: all, those up to the paste's end, or those before the first for which memory was
    /// refused.
    #[inline(never)]
    pub(super) fn take_paste<L: Ledger>(
        &mut self,
        piece: &[u8],
        more: bool,
        raw: bool,
        steps: &mut Steps<L>,
    ) -> usize
        requires { is_paste self.old.state ≡ true }
        ensures { TakesPart self.old self.new piece.now more raw result steps.old steps.new }
    {
        let mut place = 0;
        while place < piece.len() && self.state.is_paste() {
            place += self.keep_all(&piece[place..], steps);
            if place == piece.len() {
                break;
            }
            if let Err(AllocError) = self.put_in_paste(piece[place], steps) {
                return place;
            }
            place += 1;
        }
        place
    }
}
