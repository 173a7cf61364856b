//! The state of an open sequence, of a fixed size.
//!
//! Only crates of this tree use this module, which may change with each version.
ghost use Rattle.std.specs.Prelude.{◌≡◌, ◌≢◌, ◌+◌, ◌<◌, ◌≤◌, ◌∷◌, [], Bool, true, false, length, take, IfNone, IfSome, IsTrue, IsFalse};
ghost use Rattle.std.specs.List.{AllByRecursion};
ghost use Rattle.crossterm_parse.specs.Transitions.{ReadsOneByte, Opens, OpensWith, meaning_with, state_after, Open, Whole, Closed};
ghost use Rattle.crossterm_parse.specs.Bytes.{IsLetter};
ghost use Rattle.crossterm_parse.specs.States.{is_paste};
ghost use Rattle.crossterm_parse.specs.Recognizer.{is_final, is_mouse_end};
ghost use Rattle.crossterm_parse.specs.declared.state.State.TheVariants.{Escape};
ghost use Rattle.crossterm_parse.specs.declared.paste.Opening.{Opening};
ghost use Rattle.crossterm_parse.specs.declared.numbered.Parameters.{Parameters};

use crate::blocks::run_between;
use crate::character::{Begun, Character, is_lead_byte};
use crate::meaning::{
    Meaning, meaning_after_csi, meaning_after_ss3, meaning_of_byte, meaning_of_flags,
    meaning_of_linux_key, plus_alt, pressed_alone,
};
use crate::mouse::X10Report;
use crate::number::Number;
use crate::numbered::{Parameters, is_final_byte, is_mouse_final};
use crate::paste::{Met, Opening};
use crate::steps::Steps;
use crossterm_types::event::KeyCode;
use std::sync::ledger::Ledger;

mod taking;

/// What came of a sequence so far.
#[derive(Clone, Copy)]
pub enum State {
    /// No sequence is open.
    Ground,
    /// ESC.
    Escape,
    /// `ESC O`.
    Ss3,
    /// `ESC [`.
    Csi,
    /// `ESC [ [`.
    LinuxKey,
    /// `ESC [ M` and up to two bytes.
    X10(X10Report),
    /// `ESC [ <` and more.
    Sgr(Parameters),
    /// `ESC [ ?`.
    Private,
    /// `ESC [ ?` and more, with the number that the text after `?` is so far.
    Reply(Number),
    /// `ESC [`, a digit and more.
    Numbered(Parameters, Opening),
    /// `ESC[200~` and a text, which is kept elsewhere.
    Paste(Met),
    /// A character in UTF-8, with an escape before it or none.
    Utf8(Character),
}

// So many bytes of a sequence are read one by one before digits that change nothing are looked for: most sequences are shorter.
const FEW: usize = 16;

/// How many letters are in front.
#[inline(always)]
fn letters_in(bytes: &[u8]) -> usize
    ensures within { result ≤ length bytes.now }
    ensures letters { AllByRecursion IsLetter (take result bytes.now) }
{
    run_between(bytes, b' ', b'~')
}

/// Reads a byte with which a numbered sequence goes on, and returns whether it does.
#[inline(always)]
fn read_number(parameters: &mut Parameters, opening: &mut Opening, byte: u8) -> bool
    ensures yes { IsTrue result → (raw pause : Bool) → state_after (State.Numbered parameters.old opening.old) byte raw pause ≡ Open (State.Numbered parameters.new opening.new) }
    ensures no { IsFalse result → is_final byte ≡ true }
    ensures same { IsFalse result → (parameters.new ≡ parameters.old) × (opening.new ≡ opening.old) }
{
    if is_final_byte(byte) {
        return false;
    }
    parameters.read(byte);
    if !matches!(opening, Opening::Not) {
        *opening = opening.put(byte);
    }
    true
}

/// Reads a byte with which a report of the mouse goes on, and returns whether it does.
#[inline(always)]
fn read_report(parameters: &mut Parameters, byte: u8) -> bool
    ensures yes { IsTrue result → (raw pause : Bool) → state_after (State.Sgr parameters.old) byte raw pause ≡ Open (State.Sgr parameters.new) }
    ensures no { IsFalse result → is_mouse_end byte ≡ true }
    ensures same { IsFalse result → parameters.new ≡ parameters.old }
{
    if is_mouse_final(byte) {
        return false;
    }
    parameters.read(byte);
    true
}

/// Reads a byte with which a reply goes on, and returns whether it does.
#[inline(always)]
fn read_reply(number: &mut Number, byte: u8) -> bool
    ensures { ReadsOneByte (State.Reply number.old) (State.Reply number.new) byte result }
{
    if matches!(byte, b'c' | b'u') {
        return false;
    }
    if !matches!(number, Number::Bad) {
        number.read(byte);
    }
    true
}

/// Reads the bytes in front with which a numbered sequence goes on, one by one, and returns how many.
#[inline(always)]
fn read_few_numbers(parameters: &mut Parameters, opening: &mut Opening, bytes: &[u8]) -> usize
    ensures within { result ≤ length bytes.now }
    ensures opens { Opens (State.Numbered parameters.old opening.old) (State.Numbered parameters.new opening.new) (take result bytes.now) }
{
    for (i, byte) in bytes.iter().enumerate() {
        if !read_number(parameters, opening, *byte) {
            return i;
        }
    }
    bytes.len()
}

/// Reads the bytes in front with which a report of the mouse goes on, one by one, and returns how many.
#[inline(always)]
fn read_few_reports(parameters: &mut Parameters, bytes: &[u8]) -> usize
    ensures within { result ≤ length bytes.now }
    ensures opens { Opens (State.Sgr parameters.old) (State.Sgr parameters.new) (take result bytes.now) }
{
    for (i, byte) in bytes.iter().enumerate() {
        if !read_report(parameters, *byte) {
            return i;
        }
    }
    bytes.len()
}

/// Reads the bytes in front with which a reply goes on, and returns how many.
fn read_replies(number: &mut Number, bytes: &[u8]) -> usize
    ensures within { result ≤ length bytes.now }
    ensures opens { Opens (State.Reply number.old) (State.Reply number.new) (take result bytes.now) }
{
    for (i, byte) in bytes.iter().enumerate() {
        if !read_reply(number, *byte) {
            return i;
        }
    }
    bytes.len()
}

/// Reads the bytes in front with which a long numbered sequence goes on, and returns how many. Digits that change no number are skipped.
#[inline(never)]
fn read_more_numbers(parameters: &mut Parameters, opening: &mut Opening, bytes: &[u8]) -> usize
    ensures within { result ≤ length bytes.now }
    ensures opens { Opens (State.Numbered parameters.old opening.old) (State.Numbered parameters.new opening.new) (take result bytes.now) }
{
    match opening {
        Opening::Not => {
            let count = parameters.read_idle(bytes);
            count + read_few_numbers(parameters, opening, &bytes[count..])
        }
        _ => 0,
    }
}

/// Reads the bytes in front with which a long report of the mouse goes on, and returns how many. Digits that change no number are skipped.
#[inline(never)]
fn read_more_reports(parameters: &mut Parameters, bytes: &[u8]) -> usize
    ensures within { result ≤ length bytes.now }
    ensures opens { Opens (State.Sgr parameters.old) (State.Sgr parameters.new) (take result bytes.now) }
{
    let count = parameters.read_idle(bytes);
    count + read_few_reports(parameters, &bytes[count..])
}

/// Reads the bytes in front with which a numbered sequence goes on, and returns how many.
fn read_numbers(parameters: &mut Parameters, opening: &mut Opening, bytes: &[u8]) -> usize
    ensures within { result ≤ length bytes.now }
    ensures opens { Opens (State.Numbered parameters.old opening.old) (State.Numbered parameters.new opening.new) (take result bytes.now) }
{
    let count = read_few_numbers(parameters, opening, &bytes[..bytes.len().min(FEW)]);
    if count < FEW {
        return count;
    }
    count + read_more_numbers(parameters, opening, &bytes[count..])
}

/// Reads the bytes in front with which a report of the mouse goes on, and returns how many.
fn read_reports(parameters: &mut Parameters, bytes: &[u8]) -> usize
    ensures within { result ≤ length bytes.now }
    ensures opens { Opens (State.Sgr parameters.old) (State.Sgr parameters.new) (take result bytes.now) }
{
    let count = read_few_reports(parameters, &bytes[..bytes.len().min(FEW)]);
    if count < FEW {
        return count;
    }
    count + read_more_reports(parameters, &bytes[count..])
}

impl State {
    /// Whether a sequence is open.
    #[inline(always)]
    pub fn is_open(&self) -> bool
        ensures yes { IsTrue result → self.now ≢ State.Ground }
        ensures no { IsFalse result → self.now ≡ State.Ground }
    {
        !matches!(self, State::Ground)
    }

    /// Whether a paste is open.
    pub fn is_paste(&self) -> bool
        ensures { result ≡ is_paste self.now }
    {
        matches!(self, State::Paste(_))
    }

    /// Goes to the ground state.
    #[inline(always)]
    pub fn end(&mut self)
        ensures { self.new ≡ State.Ground }
    {
        *self = State::Ground;
    }

    /// Takes one more byte of an open paste, and returns whether the paste goes on. With the last byte the state has not changed, nor if no
    /// paste is open.
    #[inline(always)]
    pub fn put_in_paste<L: Ledger>(&mut self, byte: u8, steps: &mut Steps<L>) -> bool
        ensures yes { IsTrue result → (raw pause : Bool) → state_after self.old byte raw pause ≡ Open self.new }
        ensures no { IsFalse result → is_paste self.old ≡ true → (raw pause : Bool) → state_after self.old byte raw pause ≡ Closed }
        ensures open { IsTrue result → is_paste self.old ≡ true }
        ensures same { IsFalse result → self.new ≡ self.old }
        ensures pasting { is_paste self.new ≡ is_paste self.old }
        ensures steps { steps.new ≡ steps.old + 1 }
    {
        steps.count(1);
        match self {
            State::Paste(met) => met.put(byte),
            _ => false,
        }
    }

    /// Takes one more byte outside of a paste, if the sequence goes on with it, and returns whether it does.
    #[inline(always)]
    fn goes_on(&mut self, byte: u8, pause: bool) -> bool
        requires { is_paste self.old ≡ false }
        ensures yes { IsTrue result → (raw : Bool) → state_after self.old byte raw pause ≡ Open self.new }
        ensures no { IsFalse result → (raw : Bool) → state_after self.old byte raw pause ≡ Whole (meaning_with self.old byte raw) }
        ensures same { IsFalse result → self.new ≡ self.old }
    {
        match self {
            State::Ground => self.begin(byte, pause),
            State::Escape => self.escape(byte),
            State::Csi => self.introduce(byte),
            State::Ss3 | State::LinuxKey | State::Paste(_) => false,
            State::X10(report) => report.put(byte),
            State::Sgr(parameters) => read_report(parameters, byte),
            State::Private => self.reply(byte),
            State::Reply(number) => read_reply(number, byte),
            State::Numbered(parameters, opening) => {
                read_number(parameters, opening, byte) || self.open_paste(byte)
            }
            State::Utf8(character) => character.put(byte),
        }
    }

    /// The first byte of a sequence.
    fn begin(&mut self, byte: u8, pause: bool) -> bool
        requires { self.old ≡ State.Ground }
        ensures yes { IsTrue result → (raw : Bool) → state_after self.old byte raw pause ≡ Open self.new }
        ensures no { IsFalse result → (raw : Bool) → state_after self.old byte raw pause ≡ Whole (meaning_with self.old byte raw) }
        ensures same { IsFalse result → self.new ≡ self.old }
    {
        if byte == 27 {
            if pause {
                return false;
            }
            *self = State::Escape;
            true
        } else if is_lead_byte(byte) {
            *self = State::Utf8(Character {
                escaped: false,
                begun: Begun::One(byte),
            });
            true
        } else {
            false
        }
    }

    /// A byte after ESC: a pause after it changes nothing.
    fn escape(&mut self, byte: u8) -> bool
        requires { self.old ≡ State.Escape }
        ensures { ReadsOneByte self.old self.new byte result }
    {
        if byte == b'O' {
            *self = State::Ss3;
            true
        } else if byte == b'[' {
            *self = State::Csi;
            true
        } else if byte == 27 {
            false
        } else if is_lead_byte(byte) {
            *self = State::Utf8(Character {
                escaped: true,
                begun: Begun::One(byte),
            });
            true
        } else {
            false
        }
    }

    /// A byte after `ESC [`: the mode and a pause change nothing.
    #[inline(always)]
    pub(crate) fn introduce(&mut self, byte: u8) -> bool
        requires { self.old ≡ State.Csi }
        ensures reads { ReadsOneByte self.old self.new byte result }
        ensures outside { is_paste self.new ≡ false }
        ensures same { IsFalse result → self.new ≡ self.old }
    {
        match byte {
            b'[' => *self = State::LinuxKey,
            b'M' => *self = State::X10(X10Report::Empty),
            b'<' => *self = State::Sgr(Parameters::empty()),
            b'?' => *self = State::Private,
            b'0'..=b'9' => {
                *self = State::Numbered(Parameters::new(byte), Opening::new(byte));
            }
            _ => return false,
        }
        true
    }

    /// A byte after `ESC [ ?`.
    fn reply(&mut self, byte: u8) -> bool
        requires { self.old ≡ State.Private }
        ensures { ReadsOneByte self.old self.new byte result }
    {
        if byte == b'c' {
            return false;
        }
        *self = State::Reply(Number::Empty.put(byte));
        true
    }

    /// A final byte of a numbered sequence, which opens a paste or ends the sequence.
    #[inline(always)]
    fn open_paste(&mut self, byte: u8) -> bool
        requires { (parameters : Parameters) × (opening : Opening) × (self.old ≡ State.Numbered parameters opening) × (is_final byte ≡ true) }
        ensures { ReadsOneByte self.old self.new byte result }
    {
        if byte == b'~' && matches!(self, State::Numbered(_, Opening::Zeros)) {
            *self = State::Paste(Met::Nothing);
            return true;
        }
        false
    }

    /// What the sequence means that is whole with the byte.
    #[inline(always)]
    pub fn meaning(&self, byte: u8, raw: bool) -> Option<Meaning>
        ensures { result ≡ meaning_with self.now byte raw }
    {
        match self {
            State::Ground => match byte {
                27 => Some(pressed_alone(KeyCode::Esc)),
                _ => meaning_of_byte(byte, raw),
            },
            State::Escape => match byte {
                27 => Some(pressed_alone(KeyCode::Esc)),
                _ => plus_alt(meaning_of_byte(byte, raw)),
            },
            State::Ss3 => meaning_after_ss3(byte),
            State::Csi => meaning_after_csi(byte),
            State::LinuxKey => meaning_of_linux_key(byte),
            State::X10(report) => report.meaning(byte),
            State::Sgr(parameters) => parameters.sgr(byte),
            State::Private => Some(Meaning::PrimaryDeviceAttributes),
            State::Reply(number) => match byte {
                b'u' => meaning_of_flags(*number),
                _ => Some(Meaning::PrimaryDeviceAttributes),
            },
            State::Numbered(parameters, _) => parameters.meaning(byte, raw),
            State::Paste(_) => None,
            State::Utf8(character) => character.meaning(byte),
        }
    }

    /// Puts the printable letters in front into the ground state, and returns how many. Each is whole by itself.
    #[inline(always)]
    fn put_letters<L: Ledger>(&self, bytes: &[u8], steps: &mut Steps<L>) -> usize
        requires { self.now ≡ State.Ground }
        ensures within { result ≤ length bytes.now }
        ensures letters { AllByRecursion IsLetter (take result bytes.now) }
        ensures steps { steps.new ≡ steps.old + result }
    {
        let count = letters_in(bytes);
        steps.count(count as u64);
        count
    }

    /// Opens a sequence by the two bytes after ESC. Returns how many bytes it has then, three or two, or none if it isn't opened.
    #[inline(always)]
    fn open_front(&mut self, second: u8, third: u8) -> usize
        requires { self.old ≡ State.Ground }
        ensures none { result ≡ 0 → self.new ≡ State.Ground }
        ensures few { 0 < result → 2 ≤ result }
        ensures two { result ≡ 2 → Opens Escape self.new (second ∷ []) }
        ensures three { result ≡ 3 → Opens Escape self.new (second ∷ third ∷ []) }
        ensures most { result ≤ 3 }
    {
        match second {
            b'O' => {
                *self = State::Ss3;
                2
            }
            b'[' => {
                *self = State::Csi;
                if self.introduce(third) { 3 } else { 2 }
            }
            _ => 0,
        }
    }

    /// Puts the front of a sequence after ESC into the ground state, with the numbers that it has, and returns how many bytes: none if no
    /// such sequence is in front, or fewer than three bytes.
    #[inline(always)]
    fn open<L: Ledger>(&mut self, bytes: &[u8], steps: &mut Steps<L>) -> usize
        requires { self.old ≡ State.Ground }
        ensures within { result ≤ length bytes.now }
        ensures none { result ≡ 0 → self.new ≡ State.Ground }
        ensures opens { 0 < result → OpensWith self.new (take result bytes.now) }
        ensures steps { steps.new ≡ steps.old + result }
    {
        if bytes.len() < 3 || bytes[0] != 27 {
            return 0;
        }
        let count = self.open_front(bytes[1], bytes[2]);
        steps.count(count as u64);
        if count < 3 {
            return count;
        }
        3 + self.put_numbers(&bytes[3..], steps)
    }

    /// Puts the bytes in front with which the numbers of a sequence go on, and returns how many.
    #[inline(never)]
    fn put_numbers<L: Ledger>(&mut self, bytes: &[u8], steps: &mut Steps<L>) -> usize
        ensures within { result ≤ length bytes.now }
        ensures opens { Opens self.old self.new (take result bytes.now) }
        ensures steps { steps.new ≡ steps.old + result }
    {
        let count = match self {
            State::Numbered(parameters, opening) => read_numbers(parameters, opening, bytes),
            State::Sgr(parameters) => read_reports(parameters, bytes),
            State::Reply(number) => read_replies(number, bytes),
            _ => 0,
        };
        steps.count(count as u64);
        count
    }
}
