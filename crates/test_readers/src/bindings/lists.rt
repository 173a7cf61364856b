//! Bound lists by their letters, keys that are fed, and lists that are refused.

use crossterm_types::event::{KeyCode, KeyEvent};
use keymap::{Keymap, KeymapFault, Matcher, Outcome};
use std::alloc::{Allocator, Global};
use std::str::Chars;
use test_support::expect;

/// How an outcome is shown. Any event but a key is `!`.
pub fn sign_of<A: Allocator>(outcome: Outcome<A>) -> char {
    match outcome {
        Outcome::Action(0) => '0',
        Outcome::Action(1) => '1',
        Outcome::Action(_) => '?',
        Outcome::Key(key) => key.code.as_char().unwrap_or('?'),
        Outcome::Event(_) => '!',
    }
}

/// Takes the outcomes that wait, 32 at most. Returns whether they are the next of these, and no more wait.
pub fn are_next<A: Allocator>(matcher: &mut Matcher<A>, wants: &mut Chars<'_>) -> bool {
    for _ in 0..32u32 {
        let Some(outcome) = matcher.next() else {
            return true;
        };
        if wants.next() != Some(sign_of(outcome)) {
            return false;
        }
    }
    false
}

/// Binds a list of nine letters at most.
fn bind<A: Allocator + Clone>(keymap: &mut Keymap<A>, list: &str) -> Result<usize, KeymapFault> {
    let mut chords = [KeyEvent::from(KeyCode::Null); 9];
    for (chord, letter) in chords.iter_mut().zip(list.chars()) {
        *chord = KeyEvent::from(KeyCode::Char(letter));
    }
    keymap.bind(&chords[..list.len().min(9)], list)
}

/// A keymap of some lists, whose memory is of an allocator.
pub fn keymap_of<A: Allocator + Clone>(alloc: A, lists: &[&str]) -> Option<Keymap<A>> {
    let mut keymap = Keymap::new(alloc);
    for list in lists {
        if bind(&mut keymap, list).is_err() {
            return None;
        }
    }
    Some(keymap)
}

/// A matcher of some lists.
pub fn matcher_of(alloc: Global, lists: &[&str]) -> Option<Matcher> {
    Some(Matcher::new(alloc, keymap_of(alloc, lists)?))
}

/// Feeds a letter, or flushes at `|`.
pub fn call<A: Allocator>(matcher: &mut Matcher<A>, letter: char) -> Result<(), KeymapFault> {
    if letter == '|' {
        matcher.flush()
    } else {
        matcher.feed(KeyEvent::from(KeyCode::Char(letter)))
    }
}

/// Lists by their letters, what is typed, what comes of it, and the keys that are undecided then. A number is an action, and a letter a key.
static ROWS: [(&[&str], &str, &str, &str); 8] = [
    (&["gg", "g"], "g", "", "g"),
    (&["gg", "g"], "gg", "0", ""),
    (&["gg", "g"], "g|g", "1", "g"),
    (&["abc", "b"], "ab", "", "ab"),
    (&["abc", "b"], "aba", "a1", "a"),
    (&["aab", "ab", "b"], "aaab|", "a0", ""),
    (&["abcdefgh"], "abcdefgh", "0", ""),
    (&["abcdefgh"], "xabcdefg", "x", "abcdefg"),
];

/// Whether keys are these letters.
fn are_letters(keys: &[KeyEvent], letters: &str) -> bool {
    let mut wants = letters.chars();
    for key in keys {
        match wants.next() {
            Some(letter) if *key == KeyEvent::from(KeyCode::Char(letter)) => {}
            _ => return false,
        }
    }
    wants.next().is_none()
}

/// Whether letters come out so, and these are undecided then.
fn come_out(matcher: &mut Matcher, typed: &str, want: &str, left: &str) -> bool {
    let mut wants = want.chars();
    for letter in typed.chars() {
        if call(matcher, letter).is_err() || !are_next(matcher, &mut wants) {
            return false;
        }
    }
    wants.next().is_none() && are_letters(matcher.undecided(), left)
}

/// Whether a row is right.
fn is_right(alloc: Global, (lists, typed, want, left): &(&[&str], &str, &str, &str)) -> bool {
    match matcher_of(alloc, lists) {
        Some(mut matcher) => come_out(&mut matcher, typed, want, left),
        None => false,
    }
}

#[test]
fn fed_keys_come_out_or_are_undecided(rt: HostRuntime) {
    for row in &ROWS {
        expect!(rt; is_right(rt.alloc(), row), row.1);
    }
}

/// Binds each list, and returns why the last one is refused.
fn refusal_of(alloc: Global, lists: &[&str]) -> Option<KeymapFault> {
    let mut keymap = Keymap::new(alloc);
    let mut last = None;
    for list in lists {
        last = bind(&mut keymap, list).err();
    }
    last
}

/// Lists, and why the last one is refused.
static REFUSED: [(&[&str], Option<KeymapFault>); 5] = [
    (&["g"], None),
    (&[""], Some(KeymapFault::Empty)),
    (&["abcdefghi"], Some(KeymapFault::TooLong)),
    (&["abcdefgh"], None),
    (&["gg", "g", "gg"], Some(KeymapFault::Taken)),
];

#[test]
fn lists_are_refused(rt: HostRuntime) {
    for (lists, want) in &REFUSED {
        expect!(rt; refusal_of(rt.alloc(), lists) == *want);
    }
}
