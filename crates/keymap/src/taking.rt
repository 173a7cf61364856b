//! What becomes of an event: a key is fed, and other events flush or are passed on.
ghost use Rattle.std.specs.Prelude.{◌≡◌, ◌<◌, ◌≤◌, ◌+◌, Bool, [], ◌∷◌, ◌++◌, length, map, IfNone};
ghost use Rattle.std.specs.Option.{option_map};
ghost use Rattle.std.specs.VecDeque.{deque_len, deque_capacity};
ghost use Rattle.crossterm_types.specs.Seen.{seen_event};
ghost use Rattle.keymap.specs.Matching.{IsFed, IsFlushed};
ghost use Rattle.keymap.specs.Taking as spec;
ghost use Rattle.keymap.specs.Taking.{IsFollowed, IsPassed, TakesEvent};
ghost use Rattle.keymap.specs.Outcomes as SeenOutcome;
ghost use Rattle.keymap.specs.Outcomes.{outcome_seen};
ghost use Rattle.keymap.specs.inside.Giving.{TakesFirstOf, state_of};

use crate::bindings::Keymap;
use crate::few_keys::FewKeys;
use crate::inside::Way;
use crate::matching::{give_all, give_decided};
use crate::outcome::Outcome;
use crossterm_types::event::{Event, KeyCode, KeyEvent, KeyEventKind};
use std::alloc::Allocator;
use std::collections::VecDeque;

// Whether a key is a modifier by itself, as Shift.
fn is_modifier_key(code: KeyCode) -> bool
    ensures { result ≡ spec.is_modifier_key code }
{
    matches!(code, KeyCode::Modifier(_))
}

// What becomes of a key.
fn way_of_key(passes: bool, key: &KeyEvent) -> Way
    ensures { result ≡ spec.way_of_key passes key.now.kind key.now }
{
    match key.kind {
        KeyEventKind::Press | KeyEventKind::Repeat => {
            if passes && is_modifier_key(key.code) {
                Way::Pass
            } else {
                Way::Feed(*key)
            }
        }
        KeyEventKind::Release => { if passes { Way::Pass } else { Way::Follow } }
    }
}

// What becomes of an event.
fn way_of<A: Allocator>(passes: bool, event: &Event<A>) -> Way
    ensures { result ≡ spec.way_of passes (seen_event event.now) }
{
    match event {
        Event::Key(key) => way_of_key(passes, key),
        Event::FocusGained
        | Event::FocusLost
        | Event::Mouse(_)
        | Event::Paste(_)
        | Event::Resize(..) => Way::Follow,
    }
}

// An event joins the outcomes that wait.
fn pass_on<A: Allocator>(waiting: &mut VecDeque<Outcome<A>, A>, event: Event<A>)
    requires { deque_len waiting.old < deque_capacity waiting.old }
    ensures event { map outcome_seen waiting.new.items ≡ map outcome_seen waiting.old.items ++ SeenOutcome.Event (seen_event event) ∷ [] }
    ensures capacity { deque_capacity waiting.new ≡ deque_capacity waiting.old }
{
    waiting.push_back_reserved(Outcome::Event(event));
}

// Gives all, and then the event.
fn follow<A: Allocator>(
    keymap: &Keymap<A>,
    keys: &mut FewKeys,
    waiting: &mut VecDeque<Outcome<A>, A>,
    event: Event<A>,
)
    requires { deque_len waiting.old + length keys.old < deque_capacity waiting.old }
    ensures followed { (passes : Bool) → IsFollowed (state_of keymap.now passes keys.old waiting.old.items) (seen_event event) (state_of keymap.now passes keys.new waiting.new.items) }
    ensures keys { keys.new ≡ [] }
    ensures capacity { deque_capacity waiting.new ≡ deque_capacity waiting.old }
{
    give_all(keymap, keys, waiting);
    pass_on(waiting, event);
}

// Takes a key.
fn take_key<A: Allocator>(
    keymap: &Keymap<A>,
    keys: &mut FewKeys,
    waiting: &mut VecDeque<Outcome<A>, A>,
    key: KeyEvent,
)
    requires keys { length keys.old < 8 }
    requires room { deque_len waiting.old + length keys.old < deque_capacity waiting.old }
    ensures fed { (passes : Bool) → IsFed (state_of keymap.now passes keys.old waiting.old.items) key (state_of keymap.now passes keys.new waiting.new.items) }
    ensures short { length keys.new < 8 }
    ensures capacity { deque_capacity waiting.new ≡ deque_capacity waiting.old }
{
    keys.push(key);
    give_decided(keymap, keys, waiting);
}

// Takes an event: a key that is fed, an event that is passed on, or one that follows a flush.
pub(crate) fn take_event<A: Allocator>(
    keymap: &Keymap<A>,
    passes: bool,
    keys: &mut FewKeys,
    waiting: &mut VecDeque<Outcome<A>, A>,
    event: Event<A>,
)
    requires keys { length keys.old < 8 }
    requires room { deque_len waiting.old + length keys.old < deque_capacity waiting.old }
    ensures taken { TakesEvent (state_of keymap.now passes keys.old waiting.old.items) (seen_event event) (state_of keymap.now passes keys.new waiting.new.items) }
    ensures short { length keys.new < 8 }
    ensures capacity { deque_capacity waiting.new ≡ deque_capacity waiting.old }
{
    match way_of(passes, &event) {
        Way::Feed(key) => take_key(keymap, keys, waiting, key),
        Way::Pass => pass_on(waiting, event),
        Way::Follow => follow(keymap, keys, waiting, event),
    }
}

// Gives all.
pub(crate) fn flush<A: Allocator>(
    keymap: &Keymap<A>,
    keys: &mut FewKeys,
    waiting: &mut VecDeque<Outcome<A>, A>,
)
    requires { deque_len waiting.old + length keys.old ≤ deque_capacity waiting.old }
    ensures flushed { (passes : Bool) → IsFlushed (state_of keymap.now passes keys.old waiting.old.items) (state_of keymap.now passes keys.new waiting.new.items) }
    ensures keys { keys.new ≡ [] }
    ensures capacity { deque_capacity waiting.new ≡ deque_capacity waiting.old }
{
    give_all(keymap, keys, waiting);
}

// Takes the first outcome that waits.
pub(crate) fn pop<A: Allocator>(waiting: &mut VecDeque<Outcome<A>, A>) -> Option<Outcome<A>>
    ensures first { TakesFirstOf (map outcome_seen waiting.old.items) (option_map outcome_seen result) (map outcome_seen waiting.new.items) }
    ensures none { IfNone result (deque_len waiting.new ≡ 0) }
    ensures capacity { deque_capacity waiting.new ≡ deque_capacity waiting.old }
{
    waiting.pop_front()
}
