//! Held events as numbers, in the caller's table.
ghost use Rattle.std.specs.Prelude.{◌≡◌, ◌⊎◌, ◌==◌, ◌&&◌, ◌+◌, ◌-◌, ◌<◌, ◌≤◌, ℕ, [], ◌∷◌, ◌++◌, length, take, drop, position, remove, slice_index_or};
ghost use Rattle.crossterm_types.specs.Admitting.{is_of};
ghost use Rattle.numbers.specs.Event.{event_at, is_bare, no_code, no_flags, no_place, no_press};
ghost use Rattle.crossterm_c.specs.Held.{admits, classes_at, has_bit, held_in};

use numbers::GelvanhEvent;

/// An event that is held, and its number.
#[repr(C)]
#[derive(Clone, Copy, Debug, PartialEq, Eq)]
pub struct GelvanhHeld {
    /// The event.
    pub event: GelvanhEvent,
    /// How many events arrived before it.
    pub arrival: u64,
}

/// Which of a table's places hold events. All zeros is a reader that none has reached.
#[repr(C)]
#[derive(Clone, Copy, Debug, PartialEq, Eq, Default)]
pub struct GelvanhReader {
    /// The place of the first held event.
    pub first: usize,
    /// How many are held.
    pub held: usize,
    /// How many events arrived.
    pub arrivals: u64,
}

/// The place of the first held event, and how many there are, for any numbers.
pub(crate) fn span(reader: &GelvanhReader, table: &[GelvanhHeld]) -> (usize, usize)
    ensures within { result.0 + result.1 ≤ length table.now }
    ensures held { take result.1 (drop result.0 table.now) ≡ held_in reader.now table.now }
    ensures count { length (held_in reader.now table.now) ≡ result.1 }
{
    let first = reader.first.min(table.len());
    (first, reader.held.min(table.len() - first))
}

/// Whether an event is a reply with the cursor's place.
fn is_cursor(event: &GelvanhEvent) -> bool
    ensures { result ≡ (event.now.kind == 6 && (no_code event.now && (no_press event.now && no_flags event.now))) }
{
    event.kind == 6 && (event.has_no_code() && (event.has_no_press() && event.has_no_flags()))
}

/// Whether it is a reply with the keyboard's flags.
fn is_flags(event: &GelvanhEvent) -> bool
    ensures { result ≡ (event.now.kind == 7 && (no_code event.now && (no_press event.now && no_place event.now))) }
{
    event.kind == 7 && (event.has_no_code() && (event.has_no_press() && event.has_no_place()))
}

/// Whether it is a reply with the terminal's attributes.
fn is_attributes(event: &GelvanhEvent) -> bool
    ensures { result ≡ (event.now.kind == 8 && is_bare event.now) }
{
    event.kind == 8 && event.is_bare()
}

/// The bit of an event's class. Numbers that are no reply are what a user brought about.
fn class_of(event: &GelvanhEvent) -> u32
    ensures { (classes : ℕ) → is_of (classes_at classes) (event_at [] event.now) ≡ has_bit classes result }
{
    if is_cursor(event) {
        2
    } else if is_flags(event) {
        4
    } else if is_attributes(event) {
        8
    } else {
        1
    }
}

/// Whether a held event is of one of some classes.
pub(crate) fn is_admitted(member: &GelvanhHeld, classes: u32) -> bool
    ensures { result ≡ admits classes member.now }
{
    classes & class_of(&member.event) != 0
}

/// The place of the first event that is of one of some classes.
pub(crate) fn first_of(held: &[GelvanhHeld], classes: u32) -> Option<usize>
    ensures { result ≡ position (admits classes) held.now }
{
    for place in 0..held.len() {
        if is_admitted(&held[place], classes) {
            return Some(place);
        }
    }
    None
}

/// Moves held events to the front if there isn't room for so many more behind them, and returns the place of the first.
pub(crate) fn make_room(table: &mut [GelvanhHeld], first: usize, held: usize, more: usize) -> usize
    requires { first + held ≤ length table.old }
    ensures within { result + held ≤ length table.new }
    ensures enough { (result ≡ 0) ⊎ (result + held + more ≤ length table.new) }
    ensures held { take held (drop result table.new) ≡ take held (drop first table.old) }
    ensures room { length table.new ≡ length table.old }
{
    if held == 0 {
        return 0;
    }
    if table.len() - (first + held) >= more {
        return first;
    }
    table.rotate_left(first);
    0
}

/// Puts an event behind those that are held.
pub(crate) fn put_behind(table: &mut [GelvanhHeld], first: usize, held: usize, member: GelvanhHeld)
    requires { first + held < length table.old }
    ensures { take (held + 1) (drop first table.new) ≡ take held (drop first table.old) ++ member ∷ [] }
{
    table[first + held] = member;
}

/// Moves the event at a place to the front, and those before it one further.
fn move_first(held: &mut [GelvanhHeld], at: usize)
    requires { at < length held.old }
    ensures others { drop 1 held.new ≡ remove held.old at }
    ensures this { (d : GelvanhHeld) → slice_index_or held.new 0 d ≡ slice_index_or held.old at d }
    ensures room { length held.new ≡ length held.old }
{
    held[..=at].rotate_right(1);
}

/// Takes the event at a place among those that are held. The others are then from the next place on.
pub(crate) fn take_at(
    table: &mut [GelvanhHeld],
    first: usize,
    held: usize,
    at: usize,
) -> GelvanhHeld
    requires within { first + held ≤ length table.old }
    requires there { at < held }
    ensures others { take (held - 1) (drop (first + 1) table.new) ≡ remove (take held (drop first table.old)) at }
    ensures this { slice_index_or (take held (drop first table.old)) at result ≡ result }
{
    let part = &mut table[first..first + held];
    move_first(part, at);
    part[0]
}
