//! Sets of attributes.
#![tactic(auto, using(crate::proofs::SetMembers::kept, crate::proofs::Members::bits_more))]

ghost use Rattle.std.specs.Prelude.{◌≡◌, ◌==◌, ◌↔◌, IsTrue, false};
ghost use Rattle.std.specs.Int.{bit_not, w32};
ghost use Rattle.std.specs.Int.RustNames.{bit_and, bit_or, bit_xor};
ghost use Rattle.crossterm_style.specs.Attributes.{OnlyAttributes, bit_of, has_attribute, of_list};
ghost use Rattle.crossterm_style.specs.declared.types.attribute.Attribute.{Attribute};

use crate::Attribute;
use std::marker::Model;
use std::ops::{BitAnd, BitOr, BitXor};

/// A set of attributes: a bit for each, the first from bit 1 on.
///
/// ```
/// let attributes = Attributes::none().with(Attribute::Bold).with(Attribute::Underlined);
/// queue!(w, colors, SetAttributes(attributes), Print("ab"), SetAttribute(Attribute::Reset))?;
/// ```
#[derive(Clone, Copy, PartialEq, Eq, Default, Debug)]
pub struct Attributes(u32);

impl Model for Attributes {
    ghost use Rattle.crossterm_style.specs.AttributeSet.{AttributeSet};
    ghost use Rattle.crossterm_style.specs.Attributes.{OnlyAttributes};

    ghost Value = { AttributeSet };

    ghost view = { λ s. record { 0 = s.0 } };

    ghost inverse = { λ s. record { 0 = s.0 } };

    ghost invariant = { λ s. OnlyAttributes s.0 };
}

impl Attributes {
    /// The empty set.
    pub fn none() -> Attributes
        ensures { result.0 ≡ 0 }
    {
        Attributes(0)
    }

    /// The set with an attribute.
    pub fn with(self, attribute: Attribute) -> Attributes
        ensures { result.0 ≡ bit_or self.0 (bit_of attribute) }
    {
        Attributes(self.0 | attribute.bytes())
    }

    /// The set without an attribute.
    pub fn without(self, attribute: Attribute) -> Attributes
        ensures { result.0 ≡ bit_and self.0 (bit_not w32 (bit_of attribute)) }
    {
        Attributes(self.0 & !attribute.bytes())
    }

    /// Adds an attribute.
    pub fn set(&mut self, attribute: Attribute)
        ensures { self.new.0 ≡ bit_or self.old.0 (bit_of attribute) }
    {
        self.0 |= attribute.bytes();
    }

    /// Takes an attribute away.
    pub fn unset(&mut self, attribute: Attribute)
        ensures { self.new.0 ≡ bit_and self.old.0 (bit_not w32 (bit_of attribute)) }
    {
        self.0 &= !attribute.bytes();
    }

    /// Adds an attribute that isn't there, and takes one away that is.
    pub fn toggle(&mut self, attribute: Attribute)
        ensures { self.new.0 ≡ bit_xor self.old.0 (bit_of attribute) }
    {
        self.0 ^= attribute.bytes();
    }

    /// Whether an attribute is in the set.
    pub fn has(self, attribute: Attribute) -> bool
        ensures { result ≡ has_attribute self.0 attribute }
    {
        self.0 >> (attribute.place() + 1) & 1 == 1
    }

    /// Adds the attributes of another set.
    pub fn extend(&mut self, attributes: Attributes)
        ensures { self.new.0 ≡ bit_or self.old.0 attributes.0 }
    {
        self.0 |= attributes.0;
    }

    /// Whether no attribute is in the set.
    pub fn is_empty(self) -> bool
        ensures bits { result ≡ (self.0 == 0) }
        ensures members { IsTrue result ↔ ((a : Attribute) → has_attribute self.0 a ≡ false) }
    {
        self.known();
        self.has_no_bits()
    }

    fn has_no_bits(self) -> bool
        ensures { result ≡ (self.0 == 0) }
    {
        self == Attributes::none()
    }

    /// What is known of each set: it holds attributes alone. It does nothing when it runs.
    pub(crate) fn known(self)
        ensures { OnlyAttributes self.0 }
    {
        let _ = &self.0;
    }
}

impl From<Attribute> for Attributes {
    ghost from_gives = { λ a r. r.0 ≡ bit_of a };

    /// The set of one attribute.
    fn from(attribute: Attribute) -> Attributes {
        Attributes(attribute.bytes())
    }
}

impl From<&[Attribute]> for Attributes {
    ghost from_gives = { λ all r. r.0 ≡ of_list all.now };

    /// The set of these attributes; one that is there twice counts once.
    fn from(all: &[Attribute]) -> Attributes {
        let mut attributes = Attributes::none();
        for attribute in all {
            attributes.set(*attribute);
        }
        attributes
    }
}

impl BitAnd for Attributes {
    type Output = Attributes;

    ghost bitand_gives = { λ a b r. r.0 ≡ bit_and a.0 b.0 };

    /// The attributes that both sets have.
    fn bitand(self, other: Attributes) -> Attributes {
        Attributes(self.0 & other.0)
    }
}

impl BitAnd<Attribute> for Attributes {
    type Output = Attributes;

    ghost bitand_gives = { λ a b r. r.0 ≡ bit_and a.0 (bit_of b) };

    /// The attributes that both the set and the one of this attribute have.
    fn bitand(self, attribute: Attribute) -> Attributes {
        Attributes(self.0 & attribute.bytes())
    }
}

impl BitOr for Attributes {
    type Output = Attributes;

    ghost bitor_gives = { λ a b r. r.0 ≡ bit_or a.0 b.0 };

    /// The attributes that either set has.
    fn bitor(self, other: Attributes) -> Attributes {
        Attributes(self.0 | other.0)
    }
}

impl BitOr<Attribute> for Attributes {
    type Output = Attributes;

    ghost bitor_gives = { λ a b r. r.0 ≡ bit_or a.0 (bit_of b) };

    /// The attributes that the set or the one of this attribute has.
    fn bitor(self, attribute: Attribute) -> Attributes {
        self.with(attribute)
    }
}

impl BitXor for Attributes {
    type Output = Attributes;

    ghost bitxor_gives = { λ a b r. r.0 ≡ bit_xor a.0 b.0 };

    /// The attributes that one of the two sets has.
    fn bitxor(self, other: Attributes) -> Attributes {
        Attributes(self.0 ^ other.0)
    }
}

impl BitXor<Attribute> for Attributes {
    type Output = Attributes;

    ghost bitxor_gives = { λ a b r. r.0 ≡ bit_xor a.0 (bit_of b) };

    /// The attributes of the set but this one, and this one if the set doesn't have it.
    fn bitxor(self, attribute: Attribute) -> Attributes {
        Attributes(self.0 ^ attribute.bytes())
    }
}
