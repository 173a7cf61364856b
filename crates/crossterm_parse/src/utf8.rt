//! Whether bytes that come one by one are UTF-8 so far.
//!
//! Only crates of this tree use this module, which may change with each version.
ghost use Rattle.std.specs.Prelude.{◌≡◌};
ghost use Rattle.bstr.specs.Utf8.{second, continues};
ghost use Rattle.crossterm_parse.specs.Transitions.{utf8_after, begun_after};

use crate::character::Begun;

/// What the bytes so far are.
#[derive(Clone, Copy)]
pub enum Validity {
    /// UTF-8.
    Sound,
    /// UTF-8, and the front of a character after it.
    Partial(Begun),
    /// Not UTF-8, whatever follows.
    Broken,
}

/// Whether the byte may continue a character.
fn continues_one(byte: u8) -> bool
    ensures { result ≡ continues byte }
{
    matches!(byte, 0x80..=0xBF)
}

/// Whether the byte may be the second after the lead.
fn is_second(lead: u8, byte: u8) -> bool
    ensures { result ≡ second lead byte }
{
    match lead {
        0xE0 => matches!(byte, 0xA0..=0xBF),
        0xED => matches!(byte, 0x80..=0x9F),
        0xF0 => matches!(byte, 0x90..=0xBF),
        0xF4 => matches!(byte, 0x80..=0x8F),
        _ => continues_one(byte),
    }
}

/// A front of a character with one more byte.
fn longer(begun: Begun, byte: u8) -> Validity
    ensures { result ≡ begun_after begun byte }
{
    match begun {
        Begun::One(lead) => {
            if !is_second(lead, byte) {
                Validity::Broken
            } else if lead < 0xE0 {
                Validity::Sound
            } else {
                Validity::Partial(Begun::Two(lead, byte))
            }
        }
        Begun::Two(lead, second) => {
            if !continues_one(byte) {
                Validity::Broken
            } else if lead < 0xF0 {
                Validity::Sound
            } else {
                Validity::Partial(Begun::Three(lead, second, byte))
            }
        }
        Begun::Three(_, _, _) => {
            if continues_one(byte) {
                Validity::Sound
            } else {
                Validity::Broken
            }
        }
    }
}

impl Validity {
    /// What the bytes are with one more.
    pub fn put(self, byte: u8) -> Validity
        ensures { result ≡ utf8_after self byte }
    {
        match self {
            Validity::Sound => match byte {
                0..=0x7F => Validity::Sound,
                0xC2..=0xF4 => Validity::Partial(Begun::One(byte)),
                _ => Validity::Broken,
            },
            Validity::Partial(begun) => longer(begun, byte),
            Validity::Broken => Validity::Broken,
        }
    }

    /// Reads one more byte. If the bytes stay sound, nothing is written.
    pub fn read(&mut self, byte: u8)
        ensures { self.new ≡ utf8_after self.old byte }
    {
        if !matches!(self, Validity::Sound) || byte >= 0x80 {
            self.change(byte);
        }
    }

    #[inline(never)]
    fn change(&mut self, byte: u8)
        ensures { self.new ≡ utf8_after self.old byte }
    {
        *self = self.put(byte);
    }
}
