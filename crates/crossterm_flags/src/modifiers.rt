//! `KeyModifiers`.
ghost use Rattle.std.specs.Prelude.{⊤, ◌≡◌, ◌==◌, ◌↔◌, IfSome, IsSome, Some, if◌then◌else◌, map, not};
ghost use Rattle.std.specs.Int.RustNames.{bit_and, bit_or, bit_xor};
ghost use Rattle.bitflags.specs.Sets.{without};
ghost use Rattle.crossterm_flags.specs.Bits.{items};
ghost use Rattle.crossterm_flags.specs.Names.{modifiers_text, shown_names};
ghost use Rattle.crossterm_flags.specs.Tables.{all_modifiers, modifiers};

use crate::iter::{FlagIter, FlagSet};
use crate::shown;
use bitflags::{Flag, Flags};
use std::fmt;
use std::ops::{
    BitAnd, BitAndAssign, BitOr, BitOrAssign, BitXor, BitXorAssign, Not, Sub, SubAssign,
};

/// The modifiers that were held with a key or a mouse event.
#[derive(Clone, Copy, PartialEq, Eq, PartialOrd, Ord, Hash)]
pub struct KeyModifiers(u8);

impl KeyModifiers {
    /// The Shift key.
    pub const SHIFT: KeyModifiers = KeyModifiers(1);

    /// The Control key.
    pub const CONTROL: KeyModifiers = KeyModifiers(2);

    /// The Alt key.
    pub const ALT: KeyModifiers = KeyModifiers(4);

    /// The Super key.
    pub const SUPER: KeyModifiers = KeyModifiers(8);

    /// The Hyper key.
    pub const HYPER: KeyModifiers = KeyModifiers(16);

    /// The Meta key.
    pub const META: KeyModifiers = KeyModifiers(32);

    /// No modifier.
    pub const NONE: KeyModifiers = KeyModifiers(0);

    const FLAGS: &'static [Flag<KeyModifiers>] = &[
        Flag {
            name: "SHIFT",
            value: KeyModifiers::SHIFT,
        },
        Flag {
            name: "CONTROL",
            value: KeyModifiers::CONTROL,
        },
        Flag {
            name: "ALT",
            value: KeyModifiers::ALT,
        },
        Flag {
            name: "SUPER",
            value: KeyModifiers::SUPER,
        },
        Flag {
            name: "HYPER",
            value: KeyModifiers::HYPER,
        },
        Flag {
            name: "META",
            value: KeyModifiers::META,
        },
        Flag {
            name: "NONE",
            value: KeyModifiers::NONE,
        },
    ];

    // The modifiers by the names that are shown, in the order in which they are.
    const SHOWN: &'static [Flag<KeyModifiers>] = &[
        Flag {
            name: "Shift",
            value: KeyModifiers::SHIFT,
        },
        Flag {
            name: "Control",
            value: KeyModifiers::CONTROL,
        },
        Flag {
            name: "Alt",
            value: KeyModifiers::ALT,
        },
        Flag {
            name: "Super",
            value: KeyModifiers::SUPER,
        },
        Flag {
            name: "Hyper",
            value: KeyModifiers::HYPER,
        },
        Flag {
            name: "Meta",
            value: KeyModifiers::META,
        },
    ];

    // Those names with their modifiers.
    fn shown<'a>() -> &'a [Flag<KeyModifiers>]
        ensures { map (λ flag. (flag.name.now, flag.value.0)) result.now ≡ shown_names }
    {
        KeyModifiers::SHOWN
    }

    /// The empty set.
    pub fn empty() -> KeyModifiers
        ensures { result.0 ≡ 0 }
    {
        <KeyModifiers as Flags>::empty()
    }

    /// The set of all the constants' bits.
    #[tactic(auto, unfolding(bitflags::specs::Sets::known_from))]
    pub fn all() -> KeyModifiers
        ensures { result.0 ≡ all_modifiers }
    {
        <KeyModifiers as Flags>::all()
    }

    /// The bits of the set.
    pub fn bits(&self) -> u8
        ensures { result ≡ self.now.0 }
    {
        Flags::bits(self)
    }

    /// The set of these bits, if each of them is of a constant.
    #[tactic(auto, unfolding(bitflags::specs::Sets::known_from))]
    pub fn from_bits(bits: u8) -> Option<KeyModifiers>
        ensures value { IfSome result (λ set. set.0 ≡ bits) }
        ensures named { IsSome result ↔ (bit_and bits all_modifiers ≡ bits) }
    {
        <KeyModifiers as Flags>::from_bits(bits)
    }

    /// The set of those of these bits that are of a constant.
    #[tactic(auto, unfolding(bitflags::specs::Sets::known_from))]
    pub fn from_bits_truncate(bits: u8) -> KeyModifiers
        ensures { result.0 ≡ bit_and bits all_modifiers }
    {
        <KeyModifiers as Flags>::from_bits_truncate(bits)
    }

    /// The set of these bits, those without a name too.
    pub fn from_bits_retain(bits: u8) -> KeyModifiers
        ensures { result.0 ≡ bits }
    {
        <KeyModifiers as Flags>::from_bits_retain(bits)
    }

    /// Whether the set has no bit.
    pub fn is_empty(&self) -> bool
        ensures { result ≡ (self.now.0 == 0) }
    {
        Flags::is_empty(self)
    }

    /// Whether every bit of a constant is in the set.
    pub fn is_all(&self) -> bool
        ensures { result ≡ (bit_and self.now.0 all_modifiers == all_modifiers) }
    {
        self.contains(KeyModifiers::all())
    }

    /// Whether every bit of the other set is in this one.
    ///
    /// ```
    /// if key.modifiers.contains(KeyModifiers::CONTROL | KeyModifiers::ALT) {
    ///     leave();
    /// }
    /// ```
    pub fn contains(&self, other: KeyModifiers) -> bool
        ensures { result ≡ (bit_and self.now.0 other.0 == other.0) }
    {
        Flags::contains(self, other)
    }

    /// Whether the two sets have a bit in common.
    pub fn intersects(&self, other: KeyModifiers) -> bool
        ensures { result ≡ not (bit_and self.now.0 other.0 == 0) }
    {
        Flags::intersects(self, other)
    }

    /// Adds the bits of the other set.
    pub fn insert(&mut self, other: KeyModifiers)
        ensures { self.new.0 ≡ bit_or self.old.0 other.0 }
    {
        Flags::insert(self, other);
    }

    /// Takes the bits of the other set away.
    pub fn remove(&mut self, other: KeyModifiers)
        ensures { self.new.0 ≡ without 8 self.old.0 other.0 }
    {
        Flags::remove(self, other);
    }

    /// Adds the bits of the other set that are not there, and takes those away that are.
    pub fn toggle(&mut self, other: KeyModifiers)
        ensures { self.new.0 ≡ bit_xor self.old.0 other.0 }
    {
        Flags::toggle(self, other);
    }

    /// Adds the bits of the other set, or with `false` takes them away.
    pub fn set(&mut self, other: KeyModifiers, value: bool)
        ensures { self.new.0 ≡ (if value then bit_or self.old.0 other.0 else without 8 self.old.0 other.0) }
    {
        Flags::set(self, other, value);
    }

    /// The bits that either set has.
    pub fn union(self, other: KeyModifiers) -> KeyModifiers
        ensures { result.0 ≡ bit_or self.0 other.0 }
    {
        Flags::union(self, other)
    }

    /// The bits that both sets have.
    pub fn intersection(self, other: KeyModifiers) -> KeyModifiers
        ensures { result.0 ≡ bit_and self.0 other.0 }
    {
        Flags::intersection(self, other)
    }

    /// The bits of this set that the other does not have.
    pub fn difference(self, other: KeyModifiers) -> KeyModifiers
        ensures { result.0 ≡ without 8 self.0 other.0 }
    {
        Flags::difference(self, other)
    }

    /// The bits that one of the two sets has.
    pub fn symmetric_difference(self, other: KeyModifiers) -> KeyModifiers
        ensures { result.0 ≡ bit_xor self.0 other.0 }
    {
        Flags::symmetric_difference(self, other)
    }

    /// The bits of the constants that the set does not have.
    #[tactic(auto, unfolding(bitflags::specs::Sets::known_from))]
    pub fn complement(self) -> KeyModifiers
        ensures { result.0 ≡ without 8 all_modifiers self.0 }
    {
        Flags::complement(self)
    }

    /// The parts of the set: each constant that it contains, in declared order, and then the bits without a name as one set.
    pub fn iter(&self) -> FlagIter<KeyModifiers>
        ensures { result ≡ items modifiers self.now.0 }
    {
        FlagIter::new(*self)
    }
}

impl Flags for KeyModifiers {
    type Bits = u8;

    ghost exact = { ⊤ };

    ghost table = { modifiers };

    ghost set_of = { λ set. set.0 };

    fn flags<'a>() -> &'a [Flag<KeyModifiers>] {
        KeyModifiers::FLAGS
    }

    fn bits(&self) -> u8 {
        self.0
    }

    fn from_bits_retain(bits: u8) -> KeyModifiers {
        KeyModifiers(bits)
    }
}

impl FlagSet for KeyModifiers {
    ghost exact_law = { tt };
}

/// The names of the flags, and the bits without a name as one number: `KeyModifiers(SHIFT | CONTROL)`, and `KeyModifiers(0x0)` if there are
/// none.
impl fmt::Debug for KeyModifiers {
    fn fmt<W: fmt::Write>(&self, f: &mut fmt::Formatter<W>) -> fmt::Result {
        shown::show(f, "KeyModifiers", self)
    }
}

impl BitOr for KeyModifiers {
    type Output = KeyModifiers;

    ghost bitor_gives = { λ a b r. r.0 ≡ bit_or a.0 b.0 };

    /// The bits that either set has.
    fn bitor(self, other: KeyModifiers) -> KeyModifiers {
        self.union(other)
    }
}

impl BitOrAssign for KeyModifiers {
    ghost bitor_assign_gives = { λ a b r. r.0 ≡ bit_or a.0 b.0 };

    /// Adds the bits of the other set.
    fn bitor_assign(&mut self, other: KeyModifiers) {
        self.insert(other);
    }
}

impl BitAnd for KeyModifiers {
    type Output = KeyModifiers;

    ghost bitand_gives = { λ a b r. r.0 ≡ bit_and a.0 b.0 };

    /// The bits that both sets have.
    fn bitand(self, other: KeyModifiers) -> KeyModifiers {
        self.intersection(other)
    }
}

impl BitAndAssign for KeyModifiers {
    ghost bitand_assign_gives = { λ a b r. r.0 ≡ bit_and a.0 b.0 };

    /// Keeps the bits that the other set has too.
    fn bitand_assign(&mut self, other: KeyModifiers) {
        *self = *self & other;
    }
}

impl BitXor for KeyModifiers {
    type Output = KeyModifiers;

    ghost bitxor_gives = { λ a b r. r.0 ≡ bit_xor a.0 b.0 };

    /// The bits that one of the two sets has.
    fn bitxor(self, other: KeyModifiers) -> KeyModifiers {
        self.symmetric_difference(other)
    }
}

impl BitXorAssign for KeyModifiers {
    ghost bitxor_assign_gives = { λ a b r. r.0 ≡ bit_xor a.0 b.0 };

    /// Adds the bits of the other set that are not there, and takes those away that are.
    fn bitxor_assign(&mut self, other: KeyModifiers) {
        self.toggle(other);
    }
}

impl Sub for KeyModifiers {
    type Output = KeyModifiers;

    ghost sub_gives = { λ a b r. r.0 ≡ without 8 a.0 b.0 };

    /// The bits of this set that the other does not have.
    fn sub(self, other: KeyModifiers) -> KeyModifiers {
        self.difference(other)
    }
}

impl SubAssign for KeyModifiers {
    ghost sub_assign_gives = { λ a b r. r.0 ≡ without 8 a.0 b.0 };

    /// Takes the bits of the other set away.
    fn sub_assign(&mut self, other: KeyModifiers) {
        self.remove(other);
    }
}

impl Not for KeyModifiers {
    type Output = KeyModifiers;

    ghost not_gives = { λ a r. r.0 ≡ without 8 all_modifiers a.0 };

    /// The bits of the constants that the set does not have.
    fn not(self) -> KeyModifiers {
        self.complement()
    }
}

/// The names of the modifiers that are set, as `Shift`, joined by `+`. Bits without a name show nothing.
impl fmt::Display for KeyModifiers {
    ghost output = { λ set. Some (modifiers_text set.0) };

    fn fmt<W: fmt::Write>(&self, f: &mut fmt::Formatter<W>) -> fmt::Result {
        let mut separator = "";
        for flag in KeyModifiers::shown() {
            if self.contains(flag.value) {
                let name = flag.name;
                write!(f, "{separator}{name}")?;
                separator = "+";
            }
        }
        Ok(())
    }
}
