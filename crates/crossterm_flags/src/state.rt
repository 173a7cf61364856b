//! `KeyEventState`.
ghost use Rattle.std.specs.Prelude.{⊤, ◌≡◌, ◌==◌, ◌↔◌, IfSome, IsSome, if◌then◌else◌, not};
ghost use Rattle.std.specs.Int.RustNames.{bit_and, bit_or, bit_xor};
ghost use Rattle.bitflags.specs.Sets.{without};
ghost use Rattle.crossterm_flags.specs.Bits.{items};
ghost use Rattle.crossterm_flags.specs.Tables.{all_states, states};

use crate::iter::{FlagIter, FlagSet};
use crate::shown;
use bitflags::{Flag, Flags};
use std::fmt;
use std::ops::{
    BitAnd, BitAndAssign, BitOr, BitOrAssign, BitXor, BitXorAssign, Not, Sub, SubAssign,
};

/// What else a keyboard reports of a key: whether it is on the keypad, and which locks are on.
#[derive(Clone, Copy, PartialEq, Eq, PartialOrd, Ord, Hash)]
pub struct KeyEventState(u8);

impl KeyEventState {
    /// The key is on the keypad.
    pub const KEYPAD: KeyEventState = KeyEventState(1);

    /// Caps Lock is on.
    pub const CAPS_LOCK: KeyEventState = KeyEventState(2);

    /// Num Lock is on.
    pub const NUM_LOCK: KeyEventState = KeyEventState(4);

    /// Nothing.
    pub const NONE: KeyEventState = KeyEventState(0);

    const FLAGS: &'static [Flag<KeyEventState>] = &[
        Flag {
            name: "KEYPAD",
            value: KeyEventState::KEYPAD,
        },
        Flag {
            name: "CAPS_LOCK",
            value: KeyEventState::CAPS_LOCK,
        },
        Flag {
            name: "NUM_LOCK",
            value: KeyEventState::NUM_LOCK,
        },
        Flag {
            name: "NONE",
            value: KeyEventState::NONE,
        },
    ];

    /// The empty set.
    pub fn empty() -> KeyEventState
        ensures { result.0 ≡ 0 }
    {
        <KeyEventState as Flags>::empty()
    }

    /// The set of all the constants' bits.
    #[tactic(auto, unfolding(bitflags::specs::Sets::known_from))]
    pub fn all() -> KeyEventState
        ensures { result.0 ≡ all_states }
    {
        <KeyEventState as Flags>::all()
    }

    /// The bits of the set.
    pub fn bits(&self) -> u8
        ensures { result ≡ self.now.0 }
    {
        Flags::bits(self)
    }

    /// The set of these bits, if each of them is of a constant.
    #[tactic(auto, unfolding(bitflags::specs::Sets::known_from))]
    pub fn from_bits(bits: u8) -> Option<KeyEventState>
        ensures value { IfSome result (λ set. set.0 ≡ bits) }
        ensures named { IsSome result ↔ (bit_and bits all_states ≡ bits) }
    {
        <KeyEventState as Flags>::from_bits(bits)
    }

    /// The set of those of these bits that are of a constant.
    #[tactic(auto, unfolding(bitflags::specs::Sets::known_from))]
    pub fn from_bits_truncate(bits: u8) -> KeyEventState
        ensures { result.0 ≡ bit_and bits all_states }
    {
        <KeyEventState as Flags>::from_bits_truncate(bits)
    }

    /// The set of these bits, those without a name too.
    pub fn from_bits_retain(bits: u8) -> KeyEventState
        ensures { result.0 ≡ bits }
    {
        <KeyEventState as Flags>::from_bits_retain(bits)
    }

    /// Whether the set has no bit.
    pub fn is_empty(&self) -> bool
        ensures { result ≡ (self.now.0 == 0) }
    {
        Flags::is_empty(self)
    }

    /// Whether every bit of a constant is in the set.
    pub fn is_all(&self) -> bool
        ensures { result ≡ (bit_and self.now.0 all_states == all_states) }
    {
        self.contains(KeyEventState::all())
    }

    /// Whether every bit of the other set is in this one.
    pub fn contains(&self, other: KeyEventState) -> bool
        ensures { result ≡ (bit_and self.now.0 other.0 == other.0) }
    {
        Flags::contains(self, other)
    }

    /// Whether the two sets have a bit in common.
    pub fn intersects(&self, other: KeyEventState) -> bool
        ensures { result ≡ not (bit_and self.now.0 other.0 == 0) }
    {
        Flags::intersects(self, other)
    }

    /// Adds the bits of the other set.
    pub fn insert(&mut self, other: KeyEventState)
        ensures { self.new.0 ≡ bit_or self.old.0 other.0 }
    {
        Flags::insert(self, other);
    }

    /// Takes the bits of the other set away.
    pub fn remove(&mut self, other: KeyEventState)
        ensures { self.new.0 ≡ without 8 self.old.0 other.0 }
    {
        Flags::remove(self, other);
    }

    /// Adds the bits of the other set that are not there, and takes those away that are.
    pub fn toggle(&mut self, other: KeyEventState)
        ensures { self.new.0 ≡ bit_xor self.old.0 other.0 }
    {
        Flags::toggle(self, other);
    }

    /// Adds the bits of the other set, or with `false` takes them away.
    pub fn set(&mut self, other: KeyEventState, value: bool)
        ensures { self.new.0 ≡ (if value then bit_or self.old.0 other.0 else without 8 self.old.0 other.0) }
    {
        Flags::set(self, other, value);
    }

    /// The bits that either set has.
    pub fn union(self, other: KeyEventState) -> KeyEventState
        ensures { result.0 ≡ bit_or self.0 other.0 }
    {
        Flags::union(self, other)
    }

    /// The bits that both sets have.
    pub fn intersection(self, other: KeyEventState) -> KeyEventState
        ensures { result.0 ≡ bit_and self.0 other.0 }
    {
        Flags::intersection(self, other)
    }

    /// The bits of this set that the other does not have.
    pub fn difference(self, other: KeyEventState) -> KeyEventState
        ensures { result.0 ≡ without 8 self.0 other.0 }
    {
        Flags::difference(self, other)
    }

    /// The bits that one of the two sets has.
    pub fn symmetric_difference(self, other: KeyEventState) -> KeyEventState
        ensures { result.0 ≡ bit_xor self.0 other.0 }
    {
        Flags::symmetric_difference(self, other)
    }

    /// The bits of the constants that the set does not have.
    #[tactic(auto, unfolding(bitflags::specs::Sets::known_from))]
    pub fn complement(self) -> KeyEventState
        ensures { result.0 ≡ without 8 all_states self.0 }
    {
        Flags::complement(self)
    }

    /// The parts of the set: each constant that it contains, in declared order, and then the bits without a name as one set.
    pub fn iter(&self) -> FlagIter<KeyEventState>
        ensures { result ≡ items states self.now.0 }
    {
        FlagIter::new(*self)
    }
}

impl Flags for KeyEventState {
    type Bits = u8;

    ghost exact = { ⊤ };

    ghost table = { states };

    ghost set_of = { λ set. set.0 };

    fn flags<'a>() -> &'a [Flag<KeyEventState>] {
        KeyEventState::FLAGS
    }

    fn bits(&self) -> u8 {
        self.0
    }

    fn from_bits_retain(bits: u8) -> KeyEventState {
        KeyEventState(bits)
    }
}

impl FlagSet for KeyEventState {
    ghost exact_law = { tt };
}

/// The names of the flags, and the bits without a name as one number: `KeyEventState(CAPS_LOCK)`, and `KeyEventState(0x0)` if there are
/// none.
impl fmt::Debug for KeyEventState {
    fn fmt<W: fmt::Write>(&self, f: &mut fmt::Formatter<W>) -> fmt::Result {
        shown::show(f, "KeyEventState", self)
    }
}

impl BitOr for KeyEventState {
    type Output = KeyEventState;

    ghost bitor_gives = { λ a b r. r.0 ≡ bit_or a.0 b.0 };

    /// The bits that either set has.
    fn bitor(self, other: KeyEventState) -> KeyEventState {
        self.union(other)
    }
}

impl BitOrAssign for KeyEventState {
    ghost bitor_assign_gives = { λ a b r. r.0 ≡ bit_or a.0 b.0 };

    /// Adds the bits of the other set.
    fn bitor_assign(&mut self, other: KeyEventState) {
        self.insert(other);
    }
}

impl BitAnd for KeyEventState {
    type Output = KeyEventState;

    ghost bitand_gives = { λ a b r. r.0 ≡ bit_and a.0 b.0 };

    /// The bits that both sets have.
    fn bitand(self, other: KeyEventState) -> KeyEventState {
        self.intersection(other)
    }
}

impl BitAndAssign for KeyEventState {
    ghost bitand_assign_gives = { λ a b r. r.0 ≡ bit_and a.0 b.0 };

    /// Keeps the bits that the other set has too.
    fn bitand_assign(&mut self, other: KeyEventState) {
        *self = *self & other;
    }
}

impl BitXor for KeyEventState {
    type Output = KeyEventState;

    ghost bitxor_gives = { λ a b r. r.0 ≡ bit_xor a.0 b.0 };

    /// The bits that one of the two sets has.
    fn bitxor(self, other: KeyEventState) -> KeyEventState {
        self.symmetric_difference(other)
    }
}

impl BitXorAssign for KeyEventState {
    ghost bitxor_assign_gives = { λ a b r. r.0 ≡ bit_xor a.0 b.0 };

    /// Adds the bits of the other set that are not there, and takes those away that are.
    fn bitxor_assign(&mut self, other: KeyEventState) {
        self.toggle(other);
    }
}

impl Sub for KeyEventState {
    type Output = KeyEventState;

    ghost sub_gives = { λ a b r. r.0 ≡ without 8 a.0 b.0 };

    /// The bits of this set that the other does not have.
    fn sub(self, other: KeyEventState) -> KeyEventState {
        self.difference(other)
    }
}

impl SubAssign for KeyEventState {
    ghost sub_assign_gives = { λ a b r. r.0 ≡ without 8 a.0 b.0 };

    /// Takes the bits of the other set away.
    fn sub_assign(&mut self, other: KeyEventState) {
        self.remove(other);
    }
}

impl Not for KeyEventState {
    type Output = KeyEventState;

    ghost not_gives = { λ a r. r.0 ≡ without 8 all_states a.0 };

    /// The bits of the constants that the set does not have.
    fn not(self) -> KeyEventState {
        self.complement()
    }
}
