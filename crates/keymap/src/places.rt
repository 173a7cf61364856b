//! The table behind a keymap: what some chords lead to, found by their hash. So a look is meant to take as long for a thousand lists as for ten; its
//! steps aren't counted by a contract.
ghost use Rattle.std.specs.Prelude.{◌≡◌, ◌≤◌, ◌<◌, ◌+◌, ◌++◌, ◌∷◌, [], false, length, cond, take, min, List, OnOk};
ghost use Rattle.std.specs.HashMap.{spare};
ghost use Rattle.std.specs.List.{list_any};
ghost use Rattle.crossterm_types.specs.declared.event.key.KeyEvent.{KeyEvent};
ghost use Rattle.keymap.specs.Bindings.{are_same};
ghost use Rattle.keymap.specs.Chords.{Bound};
ghost use Rattle.keymap.specs.inside.Places as spec;

use crate::few_keys::{FewKeys, LIMIT};
use crate::inside::{Match, Place};
use crossterm_types::event::KeyEvent;
use std::alloc::{AllocError, Allocator};
use std::collections::HashMap;
use std::hash::{BuildHasherDefault, FoldHasher};

// What some chords lead to, for all that a bound list begins with.
pub(crate) type Places<A> = HashMap<FewKeys, Place, BuildHasherDefault<FoldHasher>, A>;

// What the chords of some keys lead to.
pub(crate) fn place_at<A: Allocator>(places: &Places<A>, keys: &[KeyEvent]) -> Place
    requires { length keys.now ≤ 8 }
    ensures { result ≡ spec.place_at places.now keys.now }
{
    match places.get(&FewKeys::chords_of(keys)) {
        Some(place) => *place,
        None => Place {
            number: None,
            begun: false,
        },
    }
}

// Puts a place after the chords of some keys, if there is room for one more.
fn put<A: Allocator + Clone>(places: &mut Places<A>, keys: &[KeyEvent], place: Place)
    requires few { length keys.now ≤ 8 }
    requires room { 0 < spare places.old }
    ensures places { (others : List KeyEvent) → spec.place_at places.new others ≡ cond (spec.are_alike keys.now others) place (spec.place_at places.old others) }
    ensures room { spare places.old ≤ spare places.new + 1 }
{
    let _ = places.insert(FewKeys::chords_of(keys), place);
}

// A list is bound: what it begins with leads to a longer one, and all of it leads to its number.
pub(crate) fn bind_at<A: Allocator + Clone>(
    places: &mut Places<A>,
    chords: &[KeyEvent],
    number: usize,
)
    requires few { length chords.now ≤ 8 }
    requires room { length chords.now < spare places.old }
    ensures { spec.BindsAt chords.now number places.old places.new }
{
    for count in 0..chords.len() {
        let front = &chords[..count];
        let place = place_at(places, front);
        put(
            places,
            front,
            Place {
                begun: true,
                ..place
            },
        );
    }
    let place = place_at(places, chords);
    put(
        places,
        chords,
        Place {
            number: Some(number),
            ..place
        },
    );
}

// The list of the most chords, of eight at most, that is bound to just as many of the keys in front.
pub(crate) fn longest_at<A: Allocator>(places: &Places<A>, keys: &[KeyEvent]) -> Option<Match>
    ensures { result ≡ spec.deepest (λ count. (spec.place_at places.now (take count keys.now)).number) (min (length keys.now) 8) }
{
    let mut count = keys.len().min(LIMIT);
    while 0 < count {
        match place_at(places, &keys[..count]).number {
            Some(number) => return Some(Match { number, count }),
            None => count -= 1,
        }
    }
    None
}

// Makes room for so many more places, in a table of its own if there is none.
pub(crate) fn make_room<A: Allocator + Clone>(
    places: &mut Option<Places<A>>,
    alloc: &A,
    count: usize,
) -> Result<(), AllocError>
    ensures right_places { (bound : Bound) → spec.HasPlacesOf bound places.old → spec.HasPlacesOf bound places.new }
    ensures ok { OnOk result (spec.HasRoom count places.new) }
{
    let mut table = match places.take() {
        Some(table) => table,
        None => HashMap::new(alloc.clone()?),
    };
    let made = table.reserve(count);
    *places = Some(table);
    made
}

// A list is bound after all others.
pub(crate) fn bind_in<A: Allocator + Clone>(
    places: &mut Option<Places<A>>,
    chords: &[KeyEvent],
    number: usize,
)
    requires few { length chords.now ≤ 8 }
    requires room { spec.HasRoom (length chords.now + 1) places.old }
    ensures { (bound : Bound) → number ≡ length bound → list_any (λ other. are_same other chords.now) bound ≡ false
        → spec.HasPlacesOf bound places.old → spec.HasPlacesOf (bound ++ chords.now ∷ []) places.new }
{
    if let Some(mut table) = places.take() {
        bind_at(&mut table, chords, number);
        *places = Some(table);
    }
}
