//! The reader's calls for many events at once: what they do is what the calls for one event do, one after another.
ghost use Rattle.std.specs.Prelude.{◌≡◌, ◌≢◌, ◌⊎◌, ◌≤◌, ◌<◌, None, length, take, drop, position};
ghost use Rattle.crossterm_parse.specs.Marked.{marked};
ghost use Rattle.crossterm_parse.specs.States.{is_paste};
ghost use Rattle.crossterm_c.specs.Held.{FeedsHeld, TakesEach, admits, held_in};
ghost use Rattle.crossterm_c.specs.State.{state_at};

use crate::feed::{feed, is_lone_letter};
use crate::held::{GelvanhHeld, GelvanhReader, is_admitted, make_room, put_behind, span};
use crate::reader::gelvanh_take;
use crate::state::{GelvanhState, flatten, state_of};
use crate::table::Table;
use crossterm_parse::meaning::ascii_key;
use numbers::of_key;
use std::marker::Brand;
use std::sync::ledger::Blank;

/// Takes bytes of a terminal as `gelvanh_feed` does, and holds their events as `gelvanh_hold` does, each with its number. It returns how many bytes
/// it took. `count` is how many events it held: the last of those that are held then.
///
/// It stops when all are taken, before the first event for which the table has no room, and after the byte with which a paste opens or is over;
/// then the others are handed in again. The caller keeps the bytes of a paste, as for `gelvanh_feed`. Its event's number is `arrivals` before the call
/// that ends it.
#[unsafe(no_mangle)]
pub extern "C" fn gelvanh_feed_held(
    state: &mut GelvanhState,
    piece: &[u8],
    more: bool,
    raw: bool,
    reader: &mut GelvanhReader,
    table: &mut [GelvanhHeld],
    count: &mut usize,
) -> usize
    ensures taken { result ≤ length piece.now }
    ensures held { FeedsHeld (state_at state.old) (state_at state.new) reader.old table.old reader.new table.new count.new (take result piece.now) (take result (marked piece.now more raw)) }
    ensures all { (result ≡ length piece.now) ⊎ (length (held_in reader.new table.new) ≡ length table.old) ⊎ (is_paste (state_at state.new) ≢ is_paste (state_at state.old)) }
    // With room for an event, some of the bytes are taken.
    ensures some { length (held_in reader.old table.old) < length table.old → 0 < length piece.now → 0 < result }
{
    let (first, held) = span(reader, table);
    let first = make_room(table, first, held, piece.len());
    if held < table.len() && is_lone_letter(state, piece) {
        let event = of_key(ascii_key(piece[0]));
        let arrival = reader.arrivals;
        put_behind(table, first, held, GelvanhHeld { event, arrival });
        *count = 1;
        *reader = GelvanhReader {
            first,
            held: held + 1,
            arrivals: arrival.saturating_add(1),
        };
        return 1;
    }
    let mut open = state_of(state);
    let mut places = Table {
        is_held: true,
        events: &mut [],
        held: table,
        end: first + held,
        number: reader.arrivals,
    };
    let taken = feed::<Brand>(&mut open, piece, more, raw, &mut places, Blank::new(1));
    let Table {
        is_held: _,
        events: _,
        held: table,
        end,
        number,
    } = places;
    let _ = &*table;
    *state = flatten(&open);
    *count = end - (first + held);
    *reader = GelvanhReader {
        first,
        held: end - first,
        arrivals: number,
    };
    taken
}

/// Takes the held events in front that are of some classes, up to the first that isn't or as far as there is room, and returns how many.
fn take_front(
    reader: &mut GelvanhReader,
    table: &[GelvanhHeld],
    classes: u32,
    taken: &mut [GelvanhHeld],
) -> usize
    ensures within { result ≤ length taken.new }
    ensures takes { TakesEach classes (held_in reader.old table.now) (take result taken.new) (held_in reader.new table.now) }
    ensures arrivals { reader.new.arrivals ≡ reader.old.arrivals }
    ensures rest { drop result taken.new ≡ drop result taken.old }
    ensures room { length taken.new ≡ length taken.old }
    ensures none { result ≡ 0 → reader.new ≡ reader.old }
{
    let (first, held) = span(reader, table);
    let most = held.min(taken.len());
    let mut count = 0;
    while count < most && is_admitted(&table[first + count], classes) {
        taken[count] = table[first + count];
        count += 1;
    }
    if count > 0 {
        reader.first = first + count;
        reader.held = held - count;
    }
    count
}

/// Takes the first held events of some classes, in order, as far as there is room in `taken`, and returns how many: as many calls of
/// `gelvanh_take` would take the same. The others stay, in their order, and what is behind the events in `taken` stays as it was.
#[unsafe(no_mangle)]
pub extern "C" fn gelvanh_take_some(
    reader: &mut GelvanhReader,
    table: &mut [GelvanhHeld],
    classes: u32,
    taken: &mut [GelvanhHeld],
) -> usize
    ensures within { result ≤ length taken.new }
    ensures takes { TakesEach classes (held_in reader.old table.old) (take result taken.new) (held_in reader.new table.new) }
    ensures arrivals { reader.new.arrivals ≡ reader.old.arrivals }
    // There is no room for another, or none is held.
    ensures all { (result ≡ length taken.new) ⊎ (position (admits classes) (held_in reader.new table.new) ≡ None) }
    ensures rest { (length taken.new ≡ length taken.old) × (drop result taken.new ≡ drop result taken.old) }
    ensures none { result ≡ 0 → (reader.new ≡ reader.old) × (table.new ≡ table.old) }
{
    let mut count = take_front(reader, table, classes, taken);
    while count < taken.len() {
        if !gelvanh_take(reader, table, classes, &mut taken[count]) {
            break;
        }
        count += 1;
    }
    count
}
