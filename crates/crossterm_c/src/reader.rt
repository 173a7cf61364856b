//! The reader's calls: what `InternalEventReader` holds, in a table that its caller keeps.
ghost use Rattle.std.specs.Prelude.{◌≡◌, ℕ, false, List, [], ◌∷◌, ◌++◌, length, is_some, IsTrue, nat_lt};
ghost use Rattle.crossterm_types.specs.Admitting.{is_of};
ghost use Rattle.crossterm_read.specs.Answers.{Gave};
ghost use Rattle.crossterm_read.specs.Store.{Arrives};
ghost use Rattle.crossterm_read.specs.Steps.{TakeReplies, first_admitted};
ghost use Rattle.numbers.specs.Event.{event_at};
ghost use Rattle.crossterm_c.specs.Held.{TakesAsHeld, classes_at, held_in, store_at, taken_at};

use crate::held::{GelvanhHeld, GelvanhReader, first_of, make_room, put_behind, span, take_at};
use numbers::GelvanhEvent;

/// Holds an event behind those that are held, with its number, and returns whether there was room: else nothing has changed.
///
/// The number is how many events arrived before: `arrivals` before the call. Under it the caller keeps the bytes of a paste.
#[unsafe(no_mangle)]
pub extern "C" fn gelvanh_hold(
    reader: &mut GelvanhReader,
    table: &mut [GelvanhHeld],
    event: &GelvanhEvent,
) -> bool
    ensures room { result ≡ nat_lt (length (held_in reader.old table.old)) (length table.old) }
    ensures held { IsTrue result → (texts : ℕ → List ℕ) → Arrives (store_at texts reader.old table.old) (Gave (event_at (texts reader.old.arrivals) event.now) ∷ []) (store_at texts reader.new table.new) }
    // The event is held as it is, whatever its numbers are, and the others as they were.
    ensures kept { IsTrue result → held_in reader.new table.new ≡ held_in reader.old table.old ++ record { event = event.now; arrival = reader.old.arrivals } ∷ [] }
    ensures full { result ≡ false → (reader.new ≡ reader.old) × (table.new ≡ table.old) }
{
    let (first, held) = span(reader, table);
    if held == table.len() {
        return false;
    }
    let member = GelvanhHeld {
        event: *event,
        arrival: reader.arrivals,
    };
    let first = make_room(table, first, held, 1);
    put_behind(table, first, held, member);
    *reader = GelvanhReader {
        first,
        held: held + 1,
        arrivals: reader.arrivals.saturating_add(1),
    };
    true
}

/// Whether an event of one of some classes is held.
///
/// The classes are 1 for what a user brought about, 2 for replies with the cursor's place, 4 for those with the keyboard's flags, 8
/// for those with the terminal's attributes, or a sum of these.
#[unsafe(no_mangle)]
pub extern "C" fn gelvanh_holds(reader: &GelvanhReader, table: &[GelvanhHeld], classes: u32) -> bool
    ensures { (texts : ℕ → List ℕ) → result ≡ is_some (first_admitted (is_of (classes_at classes)) (store_at texts reader.now table.now).held) }
{
    let (first, held) = span(reader, table);
    first_of(&table[first..first + held], classes).is_some()
}

/// Takes the first held event of one of some classes, with its number, and returns whether there was one: else nothing has changed. The others
/// stay, in their order.
#[unsafe(no_mangle)]
pub extern "C" fn gelvanh_take(
    reader: &mut GelvanhReader,
    table: &mut [GelvanhHeld],
    classes: u32,
    taken: &mut GelvanhHeld,
) -> bool
    ensures step { (texts : ℕ → List ℕ) → TakeReplies (is_of (classes_at classes)) (store_at texts reader.old table.old) (store_at texts reader.new table.new) (taken_at texts result taken.new) }
    // It is taken as it was held, whatever its numbers are, and the others stay as they were.
    ensures kept { IsTrue result → TakesAsHeld classes (held_in reader.old table.old) taken.new (held_in reader.new table.new) }
    ensures arrivals { reader.new.arrivals ≡ reader.old.arrivals }
    ensures none { result ≡ false → (reader.new ≡ reader.old) × (table.new ≡ table.old) × (taken.new ≡ taken.old) }
{
    let (first, held) = span(reader, table);
    match first_of(&table[first..first + held], classes) {
        Some(at) => {
            *taken = take_at(table, first, held, at);
            reader.first = first + 1;
            reader.held = held - 1;
            true
        }
        None => false,
    }
}
