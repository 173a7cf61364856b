//! The iterator over the flags of a set.
ghost use Rattle.std.specs.Prelude.{◌≡◌};
ghost use Rattle.std.specs.Iterator.{YieldsFirstBy, item_count};
ghost use Rattle.crossterm_flags.specs.Bits.{is_part, unless_empty};

use bitflags::Flags;
use std::marker::Model;

/// A set of flags in a byte, whose type says what its bits are and which constants it has.
pub trait FlagSet: Flags<Bits = u8> {
    // What `Flags` ensures of a set's bits holds of this type.
    ghost exact_law: { Self.Flags.exact };
}

/// The parts of a set that are still to come, seen as the list of their bits: each constant that the set contains and that is not empty, in declared order, and then the bits without a name as one set.
#[derive(Drop)]
pub struct FlagIter<F: FlagSet> {
    place: usize,
    set: F,
    unnamed: F,
}

impl<F: FlagSet> Model for FlagIter<F> {
    ghost use Rattle.std.specs.Prelude.{ℕ, List, drop, ◌++◌};
    ghost use Rattle.crossterm_flags.specs.Bits.{contained, unless_empty};

    ghost Value = { List ℕ };

    ghost view = { λ it. contained (drop it.place F.table) (F.set_of it.set) ++ unless_empty (F.set_of it.unnamed) };
}

impl<F: FlagSet> FlagIter<F> {
    ghost use Rattle.crossterm_flags.specs.Bits.{items};

    // Every part of a set.
    pub(crate) fn new(set: F) -> FlagIter<F>
        ensures { result ≡ items F.table (F.set_of set) }
    {
        let mut unnamed = F::from_bits_retain(set.bits());
        unnamed.remove(F::all());
        FlagIter {
            place: 0,
            set,
            unnamed,
        }
    }
}

// Whether these bits are a part of a set: they are some, and the set has them all.
fn has_part<F: FlagSet>(set: &F, bits: u8) -> bool
    ensures { result ≡ is_part (F.set_of set.now) bits }
{
    bits != 0 && set.contains(F::from_bits_retain(bits))
}

// Takes a whole set out, unless it is empty.
fn take_set<F: FlagSet>(set: &mut F) -> Option<F>
    ensures { YieldsFirstBy F.set_of (λ left. unless_empty (F.set_of left)) set.old result set.new }
{
    if set.is_empty() {
        return None;
    }
    let taken = F::from_bits_retain(set.bits());
    *set = F::empty();
    Some(taken)
}

impl<F: FlagSet> Iterator for FlagIter<F> {
    type Item = F;

    ghost next_gives = { YieldsFirstBy F.set_of (λ rest. rest) };

    ghost remaining = { item_count (λ rest. rest) };

    fn next(&mut self) -> Option<F> {
        let flags = F::flags();
        while self.place < flags.len() {
            let bits = flags[self.place].value().bits();
            self.place += 1;
            if has_part(&self.set, bits) {
                return Some(F::from_bits_retain(bits));
            }
        }
        take_set(&mut self.unnamed)
    }
}
