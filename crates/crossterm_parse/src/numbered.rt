//! A numbered sequence `ESC [ d w f`, with d a digit.
//!
//! Only crates of this tree use this module, which may change with each version.
ghost use Rattle.std.specs.Prelude.{◌≡◌, ◌≤◌, length, take, true};
ghost use Rattle.crossterm_parse.specs.Bytes.{is_digit};
ghost use Rattle.crossterm_parse.specs.Recognizer.{is_final, is_mouse_end};
ghost use Rattle.crossterm_parse.specs.Transitions.{parameters_after, empty_parameters, readings_at, Opens};
ghost use Rattle.crossterm_parse.specs.declared.paste.Opening.TheVariants as opening;
ghost use Rattle.crossterm_parse.specs.declared.state.State.TheVariants as state;
ghost use Rattle.crossterm_parse.specs.Numbered.{sgr_by, numbered_by};

use crate::blocks::run_between;
use crate::fields::Fields;
use crate::meaning::Meaning;
use crate::number::Number;
use crate::readings::Readings;
use crate::utf8::Validity;

/// What is kept of a numbered sequence, however long it is.
#[derive(Clone, Copy)]
pub struct Parameters {
    pub fields: Fields,
    /// The last byte.
    pub last: u8,
    /// Whether the bytes so far are UTF-8.
    pub validity: Validity,
}

/// Whether the byte ends a numbered sequence.
pub fn is_final_byte(byte: u8) -> bool
    ensures { result ≡ is_final byte }
{
    matches!(byte, 64..=126)
}

/// Whether the byte ends a report of the mouse after `ESC [ <`.
pub fn is_mouse_final(byte: u8) -> bool
    ensures { result ≡ is_mouse_end byte }
{
    matches!(byte, b'M' | b'm')
}

impl Parameters {
    /// No byte is read yet.
    pub fn empty() -> Parameters
        ensures { result ≡ empty_parameters }
    {
        Parameters {
            fields: Fields::new(Number::Empty),
            last: 0,
            validity: Validity::Sound,
        }
    }

    /// The first digit is read.
    pub fn new(digit: u8) -> Parameters
        requires { is_digit digit ≡ true }
        ensures { result ≡ parameters_after empty_parameters digit }
    {
        Parameters {
            fields: Fields::new(Number::digit(digit)),
            last: digit,
            validity: Validity::Sound,
        }
    }

    /// Reads a byte that doesn't end the sequence.
    #[inline(always)]
    pub fn read(&mut self, byte: u8)
        ensures { self.new ≡ parameters_after self.old byte }
    {
        self.fields.read(byte);
        self.last = byte;
        self.validity.read(byte);
    }

    /// Reads the digits in front that change no number, and returns how many. A sequence has them if it has more digits than a number can,
    /// or zeros before one.
    pub fn read_idle(&mut self, bytes: &[u8]) -> usize
        ensures within { result ≤ length bytes.now }
        ensures numbered { Opens (state.Numbered self.old opening.Not) (state.Numbered self.new opening.Not) (take result bytes.now) }
        ensures report { Opens (state.Sgr self.old) (state.Sgr self.new) (take result bytes.now) }
    {
        if !matches!(self.validity, Validity::Sound) {
            return 0;
        }
        let idle = self.fields.idle_digits();
        if idle == 0 {
            return 0;
        }
        let count = run_between(bytes, b'0', b'0' + (idle - 1));
        if count > 0 {
            self.last = bytes[count - 1];
        }
        count
    }

    /// What is read so far.
    #[inline(always)]
    fn readings(&self) -> Readings
        ensures { result ≡ readings_at self.now }
    {
        Readings {
            first: self.fields.first.whole().value(),
            second: self.fields.second.whole().value(),
            third: self.fields.third.value(),
            code: self.fields.first.first.value(),
            alternate: self.fields.first.second.value(),
            mask: self.fields.second.first.value(),
            kind: self.fields.second.second.value(),
            last: self.last,
            utf8: matches!(self.validity, Validity::Sound),
        }
    }

    /// What a report of the mouse after `ESC [ <` means with this final byte.
    #[inline(never)]
    pub fn sgr(&self, last: u8) -> Option<Meaning>
        ensures { result ≡ sgr_by last (readings_at self.now) }
    {
        self.readings().sgr(last)
    }

    /// What the sequence means with this final byte.
    #[inline(never)]
    pub fn meaning(&self, last: u8, raw: bool) -> Option<Meaning>
        ensures { result ≡ numbered_by raw last (readings_at self.now) }
    {
        self.readings().meaning(last, raw)
    }
}
