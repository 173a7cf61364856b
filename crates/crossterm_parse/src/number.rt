//! Numbers that are read byte by byte.
//!
//! Only crates of this tree use this module, which may change with each version.
ghost use Rattle.std.specs.Prelude.{◌≡◌, ◌≤◌, ◌<◌, ◌+◌, ℕ, true};
ghost use Rattle.crossterm_parse.specs.Bytes.{is_digit};
ghost use Rattle.crossterm_parse.specs.Number.{at_most};
ghost use Rattle.crossterm_parse.specs.Transitions.{number_after, reading};

/// A number that is being read: one digit or more, after a `+` or not.
#[derive(Clone, Copy)]
pub enum Number {
    /// No byte yet.
    Empty,
    /// A `+` alone.
    Plus,
    Value(u32),
    /// A number past `u32::MAX`.
    Big,
    /// No number, whatever follows.
    Bad,
}

impl Number {
    /// The number of a first digit.
    pub fn digit(byte: u8) -> Number
        requires { is_digit byte ≡ true }
        ensures { result ≡ number_after Number.Empty byte }
    {
        Number::Value(u32::from(byte - b'0'))
    }

    /// The number after one more byte.
    pub fn put(self, byte: u8) -> Number
        ensures { result ≡ number_after self byte }
    {
        match (self, byte) {
            (Number::Empty, b'+') => Number::Plus,
            (Number::Empty | Number::Plus, b'0'..=b'9') => Number::Value(u32::from(byte - b'0')),
            (Number::Value(value), b'0'..=b'9') => {
                let longer = u64::from(value) * 10 + u64::from(byte - b'0');
                match u32::try_from(longer) {
                    Ok(value) => Number::Value(value),
                    Err(_) => Number::Big,
                }
            }
            (Number::Big, b'0'..=b'9') => Number::Big,
            _ => Number::Bad,
        }
    }

    /// Reads one more byte. If the value only grows, nothing but it is written.
    #[inline(always)]
    pub fn read(&mut self, byte: u8)
        ensures { self.new ≡ number_after self.old byte }
    {
        if let Number::Value(value) = self
            && matches!(byte, b'0'..=b'9')
            && *value < 429_496_729
        {
            *value = *value * 10 + u32::from(byte - b'0');
        } else {
            self.change(byte);
        }
    }

    #[inline(never)]
    fn change(&mut self, byte: u8)
        ensures { self.new ≡ number_after self.old byte }
    {
        if matches!(self, Number::Empty) && matches!(byte, b'0'..=b'9') {
            *self = Number::digit(byte);
        } else {
            *self = self.put(byte);
        }
    }

    /// How many of the digits from 0 on leave the number as it is: all ten once it is past its limit or no number, 0 alone after zeros.
    pub fn idle_digits(&self) -> u8
        ensures most { result ≤ 10 }
        ensures idle { (b : ℕ) → 48 ≤ b → b < 48 + result → number_after self.now b ≡ self.now }
    {
        match self {
            Number::Big | Number::Bad => 10,
            Number::Value(0) => 1,
            _ => 0,
        }
    }

    /// The number, if it is one.
    pub fn value(self) -> Option<u32>
        ensures { result ≡ reading self }
    {
        match self {
            Number::Value(value) => Some(value),
            _ => None,
        }
    }
}

/// The number, if it is one of 8 bits.
#[inline(always)]
pub fn byte_of(number: Option<u32>) -> Option<u8>
    ensures { result ≡ at_most 255 number }
{
    match number {
        Some(value) if value <= 255 => Some(value as u8),
        _ => None,
    }
}
