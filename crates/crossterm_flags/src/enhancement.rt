//! `KeyboardEnhancementFlags`.
ghost use Rattle.std.specs.Prelude.{⊤, ◌≡◌, ◌==◌, ◌↔◌, IfSome, IsSome, if◌then◌else◌, not};
ghost use Rattle.std.specs.Int.RustNames.{bit_and, bit_or, bit_xor};
ghost use Rattle.bitflags.specs.Sets.{without};
ghost use Rattle.crossterm_flags.specs.Bits.{items};
ghost use Rattle.crossterm_flags.specs.Tables.{all_enhancements, enhancements};

use crate::iter::{FlagIter, FlagSet};
use crate::shown;
use bitflags::{Flag, Flags};
use std::fmt;
use std::ops::{
    BitAnd, BitAndAssign, BitOr, BitOrAssign, BitXor, BitXorAssign, Not, Sub, SubAssign,
};

/// The progressive enhancements of kitty's keyboard protocol.
#[derive(Clone, Copy, PartialEq, Eq, PartialOrd, Ord, Hash)]
pub struct KeyboardEnhancementFlags(u8);

impl KeyboardEnhancementFlags {
    /// Escape and modified keys come as `CSI u`, so that none reads as the start of another.
    pub const DISAMBIGUATE_ESCAPE_CODES: KeyboardEnhancementFlags = KeyboardEnhancementFlags(1);

    /// Repeated and released keys are distinguished from pressed ones.
    pub const REPORT_EVENT_TYPES: KeyboardEnhancementFlags = KeyboardEnhancementFlags(2);

    /// The shifted character comes beside the key.
    pub const REPORT_ALTERNATE_KEYS: KeyboardEnhancementFlags = KeyboardEnhancementFlags(4);

    /// Every key comes as `CSI u`, plain text too.
    pub const REPORT_ALL_KEYS_AS_ESCAPE_CODES: KeyboardEnhancementFlags = KeyboardEnhancementFlags(
        8,
    );

    /// The text that a key gives comes beside it, if every key comes as `CSI u`.
    pub const REPORT_ASSOCIATED_TEXT: KeyboardEnhancementFlags = KeyboardEnhancementFlags(16);

    const FLAGS: &'static [Flag<KeyboardEnhancementFlags>] = &[
        Flag {
            name: "DISAMBIGUATE_ESCAPE_CODES",
            value: KeyboardEnhancementFlags::DISAMBIGUATE_ESCAPE_CODES,
        },
        Flag {
            name: "REPORT_EVENT_TYPES",
            value: KeyboardEnhancementFlags::REPORT_EVENT_TYPES,
        },
        Flag {
            name: "REPORT_ALTERNATE_KEYS",
            value: KeyboardEnhancementFlags::REPORT_ALTERNATE_KEYS,
        },
        Flag {
            name: "REPORT_ALL_KEYS_AS_ESCAPE_CODES",
            value: KeyboardEnhancementFlags::REPORT_ALL_KEYS_AS_ESCAPE_CODES,
        },
        Flag {
            name: "REPORT_ASSOCIATED_TEXT",
            value: KeyboardEnhancementFlags::REPORT_ASSOCIATED_TEXT,
        },
    ];

    /// The empty set.
    pub fn empty() -> KeyboardEnhancementFlags
        ensures { result.0 ≡ 0 }
    {
        <KeyboardEnhancementFlags as Flags>::empty()
    }

    /// The set of all the constants' bits.
    #[tactic(auto, unfolding(bitflags::specs::Sets::known_from))]
    pub fn all() -> KeyboardEnhancementFlags
        ensures { result.0 ≡ all_enhancements }
    {
        <KeyboardEnhancementFlags as Flags>::all()
    }

    /// The bits of the set.
    pub fn bits(&self) -> u8
        ensures { result ≡ self.now.0 }
    {
        Flags::bits(self)
    }

    /// The set of these bits, if each of them is of a constant.
    #[tactic(auto, unfolding(bitflags::specs::Sets::known_from))]
    pub fn from_bits(bits: u8) -> Option<KeyboardEnhancementFlags>
        ensures value { IfSome result (λ set. set.0 ≡ bits) }
        ensures named { IsSome result ↔ (bit_and bits all_enhancements ≡ bits) }
    {
        <KeyboardEnhancementFlags as Flags>::from_bits(bits)
    }

    /// The set of those of these bits that are of a constant.
    #[tactic(auto, unfolding(bitflags::specs::Sets::known_from))]
    pub fn from_bits_truncate(bits: u8) -> KeyboardEnhancementFlags
        ensures { result.0 ≡ bit_and bits all_enhancements }
    {
        <KeyboardEnhancementFlags as Flags>::from_bits_truncate(bits)
    }

    /// The set of these bits, those without a name too.
    pub fn from_bits_retain(bits: u8) -> KeyboardEnhancementFlags
        ensures { result.0 ≡ bits }
    {
        <KeyboardEnhancementFlags as Flags>::from_bits_retain(bits)
    }

    /// Whether the set has no bit.
    pub fn is_empty(&self) -> bool
        ensures { result ≡ (self.now.0 == 0) }
    {
        Flags::is_empty(self)
    }

    /// Whether every bit of a constant is in the set.
    pub fn is_all(&self) -> bool
        ensures { result ≡ (bit_and self.now.0 all_enhancements == all_enhancements) }
    {
        self.contains(KeyboardEnhancementFlags::all())
    }

    /// Whether every bit of the other set is in this one.
    pub fn contains(&self, other: KeyboardEnhancementFlags) -> bool
        ensures { result ≡ (bit_and self.now.0 other.0 == other.0) }
    {
        Flags::contains(self, other)
    }

    /// Whether the two sets have a bit in common.
    pub fn intersects(&self, other: KeyboardEnhancementFlags) -> bool
        ensures { result ≡ not (bit_and self.now.0 other.0 == 0) }
    {
        Flags::intersects(self, other)
    }

    /// Adds the bits of the other set.
    pub fn insert(&mut self, other: KeyboardEnhancementFlags)
        ensures { self.new.0 ≡ bit_or self.old.0 other.0 }
    {
        Flags::insert(self, other);
    }

    /// Takes the bits of the other set away.
    pub fn remove(&mut self, other: KeyboardEnhancementFlags)
        ensures { self.new.0 ≡ without 8 self.old.0 other.0 }
    {
        Flags::remove(self, other);
    }

    /// Adds the bits of the other set that are not there, and takes those away that are.
    pub fn toggle(&mut self, other: KeyboardEnhancementFlags)
        ensures { self.new.0 ≡ bit_xor self.old.0 other.0 }
    {
        Flags::toggle(self, other);
    }

    /// Adds the bits of the other set, or with `false` takes them away.
    pub fn set(&mut self, other: KeyboardEnhancementFlags, value: bool)
        ensures { self.new.0 ≡ (if value then bit_or self.old.0 other.0 else without 8 self.old.0 other.0) }
    {
        Flags::set(self, other, value);
    }

    /// The bits that either set has.
    pub fn union(self, other: KeyboardEnhancementFlags) -> KeyboardEnhancementFlags
        ensures { result.0 ≡ bit_or self.0 other.0 }
    {
        Flags::union(self, other)
    }

    /// The bits that both sets have.
    pub fn intersection(self, other: KeyboardEnhancementFlags) -> KeyboardEnhancementFlags
        ensures { result.0 ≡ bit_and self.0 other.0 }
    {
        Flags::intersection(self, other)
    }

    /// The bits of this set that the other does not have.
    pub fn difference(self, other: KeyboardEnhancementFlags) -> KeyboardEnhancementFlags
        ensures { result.0 ≡ without 8 self.0 other.0 }
    {
        Flags::difference(self, other)
    }

    /// The bits that one of the two sets has.
    pub fn symmetric_difference(self, other: KeyboardEnhancementFlags) -> KeyboardEnhancementFlags
        ensures { result.0 ≡ bit_xor self.0 other.0 }
    {
        Flags::symmetric_difference(self, other)
    }

    /// The bits of the constants that the set does not have.
    #[tactic(auto, unfolding(bitflags::specs::Sets::known_from))]
    pub fn complement(self) -> KeyboardEnhancementFlags
        ensures { result.0 ≡ without 8 all_enhancements self.0 }
    {
        Flags::complement(self)
    }

    /// The parts of the set: each constant that it contains, in declared order, and then the bits without a name as one set.
    pub fn iter(&self) -> FlagIter<KeyboardEnhancementFlags>
        ensures { result ≡ items enhancements self.now.0 }
    {
        FlagIter::new(*self)
    }
}

impl Flags for KeyboardEnhancementFlags {
    type Bits = u8;

    ghost exact = { ⊤ };

    ghost table = { enhancements };

    ghost set_of = { λ set. set.0 };

    fn flags<'a>() -> &'a [Flag<KeyboardEnhancementFlags>] {
        KeyboardEnhancementFlags::FLAGS
    }

    fn bits(&self) -> u8 {
        self.0
    }

    fn from_bits_retain(bits: u8) -> KeyboardEnhancementFlags {
        KeyboardEnhancementFlags(bits)
    }
}

impl FlagSet for KeyboardEnhancementFlags {
    ghost exact_law = { tt };
}

/// The names of the flags, and the bits without a name as one number: `KeyboardEnhancementFlags(REPORT_EVENT_TYPES)`, and
/// `KeyboardEnhancementFlags(0x0)` if there are none.
impl fmt::Debug for KeyboardEnhancementFlags {
    fn fmt<W: fmt::Write>(&self, f: &mut fmt::Formatter<W>) -> fmt::Result {
        shown::show(f, "KeyboardEnhancementFlags", self)
    }
}

impl BitOr for KeyboardEnhancementFlags {
    type Output = KeyboardEnhancementFlags;

    ghost bitor_gives = { λ a b r. r.0 ≡ bit_or a.0 b.0 };

    /// The bits that either set has.
    fn bitor(self, other: KeyboardEnhancementFlags) -> KeyboardEnhancementFlags {
        self.union(other)
    }
}

impl BitOrAssign for KeyboardEnhancementFlags {
    ghost bitor_assign_gives = { λ a b r. r.0 ≡ bit_or a.0 b.0 };

    /// Adds the bits of the other set.
    fn bitor_assign(&mut self, other: KeyboardEnhancementFlags) {
        self.insert(other);
    }
}

impl BitAnd for KeyboardEnhancementFlags {
    type Output = KeyboardEnhancementFlags;

    ghost bitand_gives = { λ a b r. r.0 ≡ bit_and a.0 b.0 };

    /// The bits that both sets have.
    fn bitand(self, other: KeyboardEnhancementFlags) -> KeyboardEnhancementFlags {
        self.intersection(other)
    }
}

impl BitAndAssign for KeyboardEnhancementFlags {
    ghost bitand_assign_gives = { λ a b r. r.0 ≡ bit_and a.0 b.0 };

    /// Keeps the bits that the other set has too.
    fn bitand_assign(&mut self, other: KeyboardEnhancementFlags) {
        *self = *self & other;
    }
}

impl BitXor for KeyboardEnhancementFlags {
    type Output = KeyboardEnhancementFlags;

    ghost bitxor_gives = { λ a b r. r.0 ≡ bit_xor a.0 b.0 };

    /// The bits that one of the two sets has.
    fn bitxor(self, other: KeyboardEnhancementFlags) -> KeyboardEnhancementFlags {
        self.symmetric_difference(other)
    }
}

impl BitXorAssign for KeyboardEnhancementFlags {
    ghost bitxor_assign_gives = { λ a b r. r.0 ≡ bit_xor a.0 b.0 };

    /// Adds the bits of the other set that are not there, and takes those away that are.
    fn bitxor_assign(&mut self, other: KeyboardEnhancementFlags) {
        self.toggle(other);
    }
}

impl Sub for KeyboardEnhancementFlags {
    type Output = KeyboardEnhancementFlags;

    ghost sub_gives = { λ a b r. r.0 ≡ without 8 a.0 b.0 };

    /// The bits of this set that the other does not have.
    fn sub(self, other: KeyboardEnhancementFlags) -> KeyboardEnhancementFlags {
        self.difference(other)
    }
}

impl SubAssign for KeyboardEnhancementFlags {
    ghost sub_assign_gives = { λ a b r. r.0 ≡ without 8 a.0 b.0 };

    /// Takes the bits of the other set away.
    fn sub_assign(&mut self, other: KeyboardEnhancementFlags) {
        self.remove(other);
    }
}

impl Not for KeyboardEnhancementFlags {
    type Output = KeyboardEnhancementFlags;

    ghost not_gives = { λ a r. r.0 ≡ without 8 all_enhancements a.0 };

    /// The bits of the constants that the set does not have.
    fn not(self) -> KeyboardEnhancementFlags {
        self.complement()
    }
}
