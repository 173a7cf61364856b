//! Equality, order and hash of a `KeyEvent`: those of its normal form.
ghost use Rattle.std.specs.Prelude.{◌≡◌};
ghost use Rattle.std.specs.Cmp.{on_per, on_equiv, on_total};
ghost use Rattle.crossterm_types.specs.Compared.{compared, key_eq, key_cmp, key_hash};

use crate::event::key::normal_key::NormalKey;
use crate::event::key::{KeyCode, KeyEvent};
use crossterm_flags::KeyModifiers;
use std::cmp::Ordering;
use std::hash::{Hash, Hasher};

impl KeyEvent {
    /// The fields of the normal form: an ASCII upper case character has Shift, with Shift an ASCII lower case character is
    /// upper case, and all else stays.
    fn normal(self) -> NormalKey
        ensures { result ≡ compared self }
    {
        let mut normal = NormalKey {
            code: self.code,
            modifiers: self.modifiers,
            kind: self.kind,
            state: self.state,
        };
        if let KeyCode::Char(c) = self.code {
            if c.is_ascii_uppercase() {
                normal.modifiers |= KeyModifiers::SHIFT;
            } else if self.modifiers.contains(KeyModifiers::SHIFT) && c.is_ascii_lowercase() {
                normal.code = KeyCode::Char(c.to_ascii_uppercase());
            }
        }
        normal
    }
}

impl PartialEq for KeyEvent {
    ghost use Rattle.crossterm_types.specs.contracts.event.key.normal_key.NormalKeyPartialEq.TheImpl.Laws.{laws-law as laws_of_fields};

    ghost eq = { key_eq };

    ghost laws = { on_per compared laws_of_fields };

    fn eq(&self, other: &KeyEvent) -> bool {
        self.normal() == other.normal()
    }
}

impl Eq for KeyEvent {
    ghost use Rattle.crossterm_types.specs.contracts.event.key.normal_key.NormalKeyEq.TheImpl.Laws.{laws-law as laws_of_fields};

    ghost laws = { on_equiv compared laws_of_fields };
}

impl PartialOrd for KeyEvent {
    ghost use Rattle.std.specs.Cmp.{po};
    ghost use Rattle.std.specs.Ordering.{as_partial_cmp};
    ghost use Rattle.crossterm_types.specs.contracts.event.key.normal_key.NormalKeyOrd.TheImpl.Laws.{total-law as total_of_fields, matches_eq-law as matches_eq_of_fields};

    ghost partial_cmp = { as_partial_cmp key_cmp };

    ghost laws = { po (on_total compared total_of_fields) (λ a b. matches_eq_of_fields (compared a) (compared b)) };

    fn partial_cmp(&self, other: &KeyEvent) -> Option<Ordering> {
        Some(self.cmp(other))
    }
}

impl Ord for KeyEvent {
    ghost use Rattle.std.specs.Prelude.{refl};
    ghost use Rattle.crossterm_types.specs.contracts.event.key.normal_key.NormalKeyOrd.TheImpl.Laws.{total-law as total_of_fields, matches_eq-law as matches_eq_of_fields};

    ghost cmp = { key_cmp };

    ghost total = { on_total compared total_of_fields };

    ghost matches_partial_cmp = { λ a b. refl };

    ghost matches_eq = { λ a b. matches_eq_of_fields (compared a) (compared b) };

    fn cmp(&self, other: &KeyEvent) -> Ordering {
        self.normal().cmp(&other.normal())
    }
}

impl Hash for KeyEvent {
    ghost use Rattle.crossterm_types.specs.contracts.event.key.normal_key.NormalKeyHash.TheImpl.Laws.{respects_eq-law as respects_eq_of_fields};

    ghost hash_input = { key_hash };

    ghost respects_eq = { λ a b. respects_eq_of_fields (compared a) (compared b) };

    fn hash<H: Hasher>(&self, state: &mut H) {
        self.normal().hash(state);
    }
}
