//! The first three fields of a sequence that is open, as numbers.
//!
//! Only crates of this tree use this module, which may change with each version.
ghost use Rattle.std.specs.Prelude.{◌≡◌, ◌≤◌, ◌<◌, ◌+◌, ℕ};
ghost use Rattle.crossterm_parse.specs.Transitions.{fields_of, field_after, fields_after, number_after};
ghost use Rattle.crossterm_parse.specs.Tracking.{whole_of};

use crate::number::Number;

/// A field of which the numbers of its first two parts are read. Parts are cut at `:`.
#[derive(Clone, Copy)]
pub struct Field {
    /// Its first part.
    pub first: Number,
    /// Its second part.
    pub second: Number,
    /// The part that is being read.
    pub part: Part,
}

/// The part that is being read.
#[derive(Clone, Copy)]
pub enum Part {
    First,
    Second,
    Later,
}

/// The first three fields. Fields are cut at `;`.
#[derive(Clone, Copy)]
pub struct Fields {
    pub first: Field,
    pub second: Field,
    pub third: Number,
    /// The field that is being read.
    pub place: Place,
}

/// The field that is being read.
#[derive(Clone, Copy)]
pub enum Place {
    First,
    Second,
    Third,
    Later,
}

impl Field {
    fn new(first: Number) -> Field
        ensures { result ≡ record { first = first; second = Number.Empty; part = Part.First } }
    {
        Field {
            first,
            second: Number::Empty,
            part: Part::First,
        }
    }

    /// The field as one number: none if it has a second part, for no number has a `:`.
    pub fn whole(&self) -> Number
        ensures { result ≡ whole_of self.now }
    {
        match self.part {
            Part::First => self.first,
            Part::Second | Part::Later => Number::Bad,
        }
    }

    /// How many of the digits from 0 on leave the field as it is.
    fn idle_digits(&self) -> u8
        ensures most { result ≤ 10 }
        ensures idle { (b : ℕ) → 48 ≤ b → b < 48 + result → field_after self.now b ≡ self.now }
    {
        match self.part {
            Part::First => self.first.idle_digits(),
            Part::Second => self.second.idle_digits(),
            Part::Later => 10,
        }
    }

    #[inline(always)]
    fn read(&mut self, byte: u8)
        ensures { self.new ≡ field_after self.old byte }
    {
        if byte == b':' {
            match self.part {
                Part::First => self.part = Part::Second,
                Part::Second => self.part = Part::Later,
                Part::Later => {}
            }
        } else if matches!(self.part, Part::First) {
            self.first.read(byte);
        } else if matches!(self.part, Part::Second) {
            self.second.read(byte);
        }
    }
}

impl Fields {
    /// What is read so far belongs to the first part of the first field.
    pub fn new(first: Number) -> Fields
        ensures { result ≡ fields_of first }
    {
        Fields {
            first: Field::new(first),
            second: Field::new(Number::Empty),
            third: Number::Empty,
            place: Place::First,
        }
    }

    /// How many of the digits from 0 on leave the fields as they are.
    pub fn idle_digits(&self) -> u8
        ensures most { result ≤ 10 }
        ensures idle { (b : ℕ) → 48 ≤ b → b < 48 + result → fields_after self.now b ≡ self.now }
    {
        match self.place {
            Place::First => self.first.idle_digits(),
            Place::Second => self.second.idle_digits(),
            Place::Third => self.third.idle_digits(),
            Place::Later => 10,
        }
    }

    /// Reads one more byte.
    #[inline(always)]
    pub fn read(&mut self, byte: u8)
        ensures { self.new ≡ fields_after self.old byte }
    {
        if byte == b';' {
            match self.place {
                Place::First => self.place = Place::Second,
                Place::Second => self.place = Place::Third,
                Place::Third => self.place = Place::Later,
                Place::Later => {}
            }
        } else if matches!(self.place, Place::First) {
            self.first.read(byte);
        } else if matches!(self.place, Place::Second) {
            self.second.read(byte);
        } else if matches!(self.place, Place::Third) {
            self.third.read(byte);
        }
    }
}
