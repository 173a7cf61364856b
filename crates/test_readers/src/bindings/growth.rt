//! Bindings and matchers whose memory is refused.

use crate::bindings::lists::keymap_of;
use crossterm_types::event::{KeyCode, KeyEvent};
use keymap::{Keymap, KeymapFault, Matcher, Outcome};
use linked_list_allocator::LocalHeap;
use std::alloc::AllocError;
use test_support::{Calls, Came, expect, is_refused_below_a_size};

/// Binds a list that is to have this number. If memory is refused, there may be no binding of that number.
fn binds(keymap: &mut Keymap<&LocalHeap>, chords: &[KeyEvent], number: usize) -> Came {
    match keymap.bind(chords, "go") {
        Ok(bound) => {
            if bound == number && keymap.action(number) == Some("go") {
                Came::Done
            } else {
                Came::Wrong
            }
        }
        Err(KeymapFault::Memory) => {
            if keymap.action(number).is_none() {
                Came::Refused
            } else {
                Came::Wrong
            }
        }
        Err(_) => Came::Wrong,
    }
}

/// Feeds a key that is bound and may become longer, and flushes. If memory is refused, nothing may wait.
fn feeds(matcher: &mut Matcher<&LocalHeap>, key: KeyEvent) -> Came {
    if matcher.feed(key) == Err(KeymapFault::Memory) {
        return if matcher.next().is_none() {
            Came::Refused
        } else {
            Came::Wrong
        };
    }
    if matcher.next().is_some() || matcher.flush().is_err() {
        return Came::Wrong;
    }
    match matcher.next() {
        Some(Outcome::Action(1)) => Came::Done,
        _ => Came::Wrong,
    }
}

/// Binds a key twice and alone, and feeds it.
fn binds_and_feeds(heap: &LocalHeap) -> Came {
    let key = KeyEvent::from(KeyCode::Char('g'));
    let mut keymap = Keymap::new(heap);
    match binds(&mut keymap, &[key, key], 0) {
        Came::Done => {}
        other => return other,
    }
    match binds(&mut keymap, &[key], 1) {
        Came::Done => {}
        other => return other,
    }
    feeds(&mut Matcher::new(heap, keymap), key)
}

/// Bindings, and a key that is fed.
#[derive(Drop)]
struct Bindings;

impl Calls for Bindings {
    fn over(&self, heap: &LocalHeap) -> Result<Came, AllocError> {
        Ok(binds_and_feeds(heap))
    }
}

#[test]
fn refused_memory_changes_nothing(rt: HostRuntime) -> Result<(), AllocError> {
    expect!(rt; is_refused_below_a_size(rt.alloc(), &Bindings)?);
    Ok(())
}

/// How many bytes of a heap some lists take, or `None` if one isn't bound.
fn bytes_of(heap: &LocalHeap) -> Option<usize> {
    let _keymap = keymap_of(heap, &["g", "gg", "ab", "abcdefgh"])?;
    Some(heap.used())
}

/// Four lists are bound over a heap of 16 MB, of which they need a few thousand bytes.
#[test]
fn lists_take_little_memory(rt: HostRuntime) -> Result<(), AllocError> {
    let heap = LocalHeap::new(rt.alloc(), 16_777_216)?;
    expect!(rt; matches!(bytes_of(&heap), Some(1..32_768)));
    Ok(())
}
