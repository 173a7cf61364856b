//! A few keys in a place of their own: those that are undecided, and the chords that a table is asked for.
ghost use Rattle.std.specs.Prelude.{◌≡◌, ◌<◌, ◌≤◌, ◌==◌, [], ◌∷◌, ◌++◌, length, map, drop};
ghost use Rattle.std.specs.Cmp.Lexicographic.{pointwise, lists_per, lists_equiv};
ghost use Rattle.std.specs.Hash as fed;
ghost use Rattle.std.specs.Hash.{items_Alike};
ghost use Rattle.crossterm_types.specs.Compared.{key_eq, key_hash};
ghost use Rattle.keymap.specs.Chords.{chord};

use crossterm_types::event::{KeyCode, KeyEvent, KeyModifiers};
use std::hash::{Hash, Hasher};
use std::marker::Model;

// How many chords a list has at most, and so how many keys are cut at once.
pub(crate) const LIMIT: usize = 8;

// At most eight keys, which take no memory.
#[derive(Drop)]
pub(crate) struct FewKeys {
    keys: [KeyEvent; 8],
    count: usize,
}

impl Model for FewKeys {
    ghost use Rattle.std.specs.Prelude.{List, take, ◌≤◌};
    ghost use Rattle.crossterm_types.specs.declared.event.key.KeyEvent.{KeyEvent};

    ghost Value = { List KeyEvent };

    ghost view = { λ u. take u.count u.keys };

    ghost invariant = { λ u. u.count ≤ 8 };
}

impl PartialEq for FewKeys {
    ghost use Rattle.crossterm_types.specs.contracts.event.key.normal.KeyEventPartialEq.TheImpl.Laws.{laws-law as laws_of_keys};

    ghost eq = { pointwise key_eq };

    ghost laws = { lists_per laws_of_keys };

    fn eq(&self, other: &FewKeys) -> bool {
        self.as_slice() == other.as_slice()
    }
}

impl Eq for FewKeys {
    ghost use Rattle.crossterm_types.specs.contracts.event.key.normal.KeyEventEq.TheImpl.Laws.{laws-law as laws_of_keys};

    ghost laws = { lists_equiv laws_of_keys };
}

impl Hash for FewKeys {
    ghost use Rattle.crossterm_types.specs.contracts.event.key.normal.KeyEventHash.TheImpl.Laws.{respects_eq-law as keys_respect_eq};

    ghost hash_input = { λ keys. fed.slice key_hash keys };

    ghost respects_eq = { (items_Alike (record { fed = keys_respect_eq })).fed };

    fn hash<H: Hasher>(&self, state: &mut H) {
        self.as_slice().hash(state);
    }
}

impl FewKeys {
    // There are none.
    pub(crate) fn new() -> Self
        ensures { result ≡ [] }
    {
        let nothing = KeyEvent::new(KeyCode::Null, KeyModifiers::empty());
        FewKeys {
            keys: [nothing; 8],
            count: 0,
        }
    }

    pub(crate) fn as_slice(&self) -> &[KeyEvent]
        ensures value { result.now ≡ self.now }
        ensures fits { length self.now ≤ 8 }
    {
        &self.keys[..self.count]
    }

    pub(crate) fn is_empty(&self) -> bool
        ensures { result ≡ (length self.now == 0) }
    {
        self.as_slice().is_empty()
    }

    // A key joins the others at their end.
    pub(crate) fn push(&mut self, key: KeyEvent)
        requires { length self.old < 8 }
        ensures { self.new ≡ self.old ++ key ∷ [] }
    {
        self.keys[self.count] = key;
        self.count += 1;
    }

    // The chords of some keys.
    pub(crate) fn chords_of(keys: &[KeyEvent]) -> Self
        requires { length keys.now ≤ 8 }
        ensures { result ≡ map chord keys.now }
    {
        let mut chords = FewKeys::new();
        for key in keys {
            chords.push(KeyEvent::new(key.code, key.modifiers));
        }
        chords
    }

    // The first keys go, so many.
    pub(crate) fn go_past(&mut self, count: usize)
        requires { count ≤ length self.old }
        ensures { self.new ≡ drop count self.old }
    {
        let keys: &mut [KeyEvent] = &mut self.keys;
        keys.rotate_left(count);
        self.count -= count;
    }
}
