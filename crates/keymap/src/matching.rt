//! Keys become outcomes as soon as these are decided.
ghost use Rattle.std.specs.Prelude.{◌≡◌, ◌<◌, ◌≤◌, ◌+◌, ℕ, true, false, [], ◌∷◌, ◌++◌, List, length, map, drop, IfErr, OnOk, OnErr};
ghost use Rattle.std.specs.Option.{option_map};
ghost use Rattle.std.specs.VecDeque.{deque_len, deque_capacity};
ghost use Rattle.keymap.specs.Bindings.{bound_of, AreShort};
ghost use Rattle.keymap.specs.Chords.{longest};
ghost use Rattle.keymap.specs.Cut.{cut_keys, given, left, outcome_of, more_of};
ghost use Rattle.keymap.specs.Matching.{IsFed, IsFlushed, MatcherRepresents, TakesOutcome, outcome_capacity, with_room};
ghost use Rattle.keymap.specs.Outcomes.{outcome_seen};
ghost use Rattle.keymap.specs.inside.Giving.{after_first, first_outcomes};
ghost use Rattle.keymap.specs.declared.fault.KeymapFault.TheVariants.{Memory};

use crate::bindings::Keymap;
use crate::fault::KeymapFault;
use crate::few_keys::{FewKeys, LIMIT};
use crate::inside::Match;
use crate::outcome::Outcome;
use crate::room::{make_room, no_outcomes};
use crossterm_types::event::KeyEvent;
use std::alloc::{Allocator, Global};
use std::collections::VecDeque;
use std::marker::Model;

/// Cuts keys into bound lists as they come, and gives each outcome as soon as it is decided.
///
/// It keeps at most 7 undecided keys, for which it takes no memory. Its bindings stay as they are.
///
/// Outcomes wait in room that is made before they come: for 16, or for as many as wait if these are more. Memory is asked for only if there
/// is room for fewer than may come of a call: 8 of `feed` and `step`, 7 of `flush`. Room that was made stays.
///
/// A program that reads the terminal by `step` wants `Matcher::passing`: there a key that is let go breaks no sequence of keys.
///
/// ```
/// let mut matcher = Matcher::passing(alloc, keymap);
/// matcher.feed(KeyEvent::from(KeyCode::Char('g')))?;
/// match matcher.next() {
///     Some(Outcome::Action(number)) => run(matcher.keymap().action(number)),
///     Some(Outcome::Key(key)) => insert(key),
///     Some(Outcome::Event(_)) | None => {}
/// }
/// ```
#[derive(Drop)]
pub struct Matcher<A: Allocator = Global> {
    pub(crate) keymap: Keymap<A>,
    pub(crate) passes: bool,
    pub(crate) undecided: FewKeys,
    pub(crate) waiting: VecDeque<Outcome<A>, A>,
}

impl<A: Allocator> Model for Matcher<A> {
    ghost use Rattle.std.specs.Prelude.{length, ◌<◌};
    ghost use Rattle.keymap.specs.Matching.{MatcherState};
    ghost use Rattle.keymap.specs.inside.Room.{matcher_of};

    ghost Value = { MatcherState };

    ghost view = { λ m. matcher_of m.keymap m.passes m.undecided m.waiting };

    ghost invariant = { λ m. length m.undecided < 8 };
}

// The first of some keys.
#[tactic(auto, using(crate::proofs::Giving::first_and_rest))]
fn first_of(keys: &[KeyEvent]) -> KeyEvent
    requires { 0 < length keys.now }
    ensures { keys.now ≡ result ∷ drop 1 keys.now }
{
    keys[0]
}

// The outcome of a place, whether a list is matched there or not.
fn outcome_of<A: Allocator>(key: KeyEvent, found: Option<Match>) -> Outcome<A>
    ensures { outcome_seen result ≡ outcome_of key found }
{
    match found {
        Some(found) => Outcome::Action(found.number),
        None => Outcome::Key(key),
    }
}

// How many keys belong to a place: one if no list is matched.
fn count_of(found: Option<Match>) -> usize
    ensures { result ≡ more_of found + 1 }
{
    match found {
        Some(found) => found.count.max(1),
        None => 1,
    }
}

// Gives the outcome of the first place, and goes past it.
fn give_first<A: Allocator>(
    keymap: &Keymap<A>,
    keys: &mut FewKeys,
    waiting: &mut VecDeque<Outcome<A>, A>,
)
    requires some { 0 < length keys.old }
    requires room { deque_len waiting.old < deque_capacity waiting.old }
    ensures waiting { map outcome_seen waiting.new.items ≡ map outcome_seen waiting.old.items ++ first_outcomes (bound_of keymap.now) keys.old }
    ensures keys { keys.new ≡ after_first (bound_of keymap.now) keys.old }
    ensures fewer { length keys.new < length keys.old }
    ensures len { deque_len waiting.new ≡ deque_len waiting.old + 1 }
    ensures capacity { deque_capacity waiting.new ≡ deque_capacity waiting.old }
{
    let remaining = keys.as_slice();
    let key = first_of(remaining);
    let found = keymap.longest(remaining);
    waiting.push_back_reserved(outcome_of(key, found));
    keys.go_past(count_of(found));
}

// Gives what is decided, and keeps the other keys.
pub(crate) fn give_decided<A: Allocator>(
    keymap: &Keymap<A>,
    keys: &mut FewKeys,
    waiting: &mut VecDeque<Outcome<A>, A>,
)
    requires { deque_len waiting.old + length keys.old ≤ deque_capacity waiting.old }
    ensures waiting { map outcome_seen waiting.new.items ≡ map outcome_seen waiting.old.items ++ given (bound_of keymap.now) keys.old }
    ensures keys { keys.new ≡ left (bound_of keymap.now) keys.old }
    ensures short { length keys.new < 8 }
    ensures capacity { deque_capacity waiting.new ≡ deque_capacity waiting.old }
{
    while !keys.is_empty() {
        if keymap.is_begun(keys.as_slice()) {
            return;
        }
        give_first(keymap, keys, waiting);
    }
}

// Gives all.
pub(crate) fn give_all<A: Allocator>(
    keymap: &Keymap<A>,
    keys: &mut FewKeys,
    waiting: &mut VecDeque<Outcome<A>, A>,
)
    requires { deque_len waiting.old + length keys.old ≤ deque_capacity waiting.old }
    ensures waiting { map outcome_seen waiting.new.items ≡ map outcome_seen waiting.old.items ++ cut_keys (bound_of keymap.now) keys.old }
    ensures keys { keys.new ≡ [] }
    ensures room { deque_len waiting.new ≤ deque_len waiting.old + length keys.old }
    ensures capacity { deque_capacity waiting.new ≡ deque_capacity waiting.old }
{
    while !keys.is_empty() {
        give_first(keymap, keys, waiting);
    }
}

impl<A: Allocator> Matcher<A> {
    // A matcher that was fed nothing, and passes releases and modifier keys on or not.
    fn with(alloc: A, keymap: Keymap<A>, passes: bool) -> Self
        ensures { result ≡ record { matching = record { keymap = keymap; passes = passes; undecided = []; waiting = [] }; room = 0 } }
    {
        Matcher {
            keymap,
            passes,
            undecided: FewKeys::new(),
            waiting: no_outcomes(alloc),
        }
    }

    /// A matcher that was fed nothing. It has no room for outcomes yet.
    ///
    /// In its `step` each event but a press flushes. So if a terminal reports releases (`REPORT_EVENT_TYPES`), no list of two chords can
    /// match: the release of the first key flushes. And if it reports all keys (`REPORT_ALL_KEYS_AS_ESCAPE_CODES`), a press of Shift alone
    /// breaks a sequence of keys. `passing` makes a matcher without these two.
    ///
    /// ```
    /// let mut matcher = Matcher::new(alloc, keymap);
    /// ```
    pub fn new(alloc: A, keymap: Keymap<A>) -> Self
        ensures { result ≡ record { matching = record { keymap = keymap; passes = false; undecided = []; waiting = [] }; room = 0 } }
    {
        Matcher::with(alloc, keymap, false)
    }

    /// A matcher that was fed nothing, and that passes releases and modifier keys on: in its `step` a key that is let go, and a modifier
    /// key that is pressed alone, becomes an `Outcome::Event` without a flush. The keys before it wait as they did.
    ///
    /// A list that binds a modifier key itself never matches in its `step`. `feed` is the same for both matchers.
    ///
    /// ```
    /// let mut matcher = Matcher::passing(alloc, keymap);
    /// ```
    pub fn passing(alloc: A, keymap: Keymap<A>) -> Self
        ensures { result ≡ record { matching = record { keymap = keymap; passes = true; undecided = []; waiting = [] }; room = 0 } }
    {
        Matcher::with(alloc, keymap, true)
    }

    /// The bindings.
    ///
    /// ```
    /// let action = matcher.keymap().action(0);
    /// ```
    pub fn keymap(&self) -> &Keymap<A>
        ensures { result.now ≡ self.now.matching.keymap }
    {
        &self.keymap
    }

    /// The keys that wait for a decision, in the order in which they were fed: fewer than 8.
    ///
    /// A program shows them while it waits for the next key, and needs no limit of `step` if there are none.
    ///
    /// ```
    /// for key in matcher.undecided() {
    ///     let chord = Spelled(*key);
    ///     write!(out, "{chord} ")?;
    /// }
    /// ```
    pub fn undecided(&self) -> &[KeyEvent]
        ensures keys { result.now ≡ self.now.matching.undecided }
        ensures few { length result.now < 8 }
    {
        self.undecided.as_slice()
    }

    /// Takes the first outcome that waits, or returns `None` if there is none. It takes no memory and gives none back: an outcome that is
    /// taken leaves room for one more.
    ///
    /// ```
    /// while let Some(outcome) = matcher.next() {
    ///     show(outcome);
    /// }
    /// ```
    pub fn next(&mut self) -> Option<Outcome<A>>
        ensures first { TakesOutcome self.old.matching (option_map outcome_seen result) self.new.matching }
        ensures room { outcome_capacity self.new ≡ outcome_capacity self.old }
    {
        self.waiting.pop_front()
    }

    /// Takes one more key, and gives what is decided by it. Fewer than eight keys are undecided then.
    ///
    /// After some keys since the last flush the outcomes are those at the places of their cut before the first undecided one. The key's kind
    /// doesn't count: a release that is fed matches as a press does.
    ///
    /// # Errors
    ///
    /// `Memory` if there was room for fewer than 8 more outcomes and memory was refused. Then nothing has changed.
    ///
    /// ```
    /// matcher.feed(KeyEvent::new(KeyCode::Char('x'), KeyModifiers::CONTROL))?;
    /// ```
    pub fn feed(&mut self, key: KeyEvent) -> Result<(), KeymapFault>
        ensures ok { OnOk result (IsFed self.old.matching key self.new.matching) }
        ensures room { OnOk result (outcome_capacity self.new ≡ outcome_capacity (with_room 8 self.old)) }
        ensures err { OnErr result (self.new ≡ self.old) }
        ensures full { OnErr result (self.old.room < 8) }
        ensures fault { IfErr result (λ fault. fault ≡ Memory) }
    {
        match make_room(&mut self.waiting, LIMIT) {
            Ok(()) => {}
            Err(_) => return Err(KeymapFault::Memory),
        }
        self.undecided.push(key);
        give_decided(&self.keymap, &mut self.undecided, &mut self.waiting);
        Ok(())
    }

    /// Gives the rest of the cut of the keys since the last flush. The matching begins anew.
    ///
    /// # Errors
    ///
    /// `Memory` if there was room for fewer than 7 more outcomes and memory was refused. Then nothing has changed.
    ///
    /// ```
    /// matcher.flush()?;
    /// ```
    pub fn flush(&mut self) -> Result<(), KeymapFault>
        ensures ok { OnOk result (IsFlushed self.old.matching self.new.matching) }
        ensures room { OnOk result (outcome_capacity self.new ≡ outcome_capacity (with_room 7 self.old)) }
        ensures err { OnErr result (self.new ≡ self.old) }
        ensures full { OnErr result (self.old.room < 7) }
        ensures fault { IfErr result (λ fault. fault ≡ Memory) }
    {
        match make_room(&mut self.waiting, LIMIT - 1) {
            Ok(()) => {}
            Err(_) => return Err(KeymapFault::Memory),
        }
        give_all(&self.keymap, &mut self.undecided, &mut self.waiting);
        Ok(())
    }
}
