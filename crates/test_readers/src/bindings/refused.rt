//! Matchers whose growth is refused in the midst of a run: a later call goes on, and no key is lost.

ghost use Rattle.crossterm_read.specs.Shared.{IsPassOf};

use crate::bindings::lists::{are_next, call, keymap_of, sign_of};
use crate::parts::{Given, acts_of};
use crossterm_read::read::{EventReader, InternalEventReader, Pass};
use crossterm_read::source::{DeviceSource, Script};
use keymap::{Keymap, KeymapFault, Matcher, Outcome};
use linked_list_allocator::LocalHeap;
use std::alloc::{AllocError, Global};
use std::io::{self, ErrorKind};
use std::str::Chars;
use std::sync::Wait;
use std::time::Duration;
use test_support::{Still, expect};

type Poor<'a> = Matcher<&'a LocalHeap>;

type Block<'a> = Vec<u8, &'a LocalHeap>;

/// The bytes of a heap.
const SIZE: usize = 16_384;

/// All that is left of a heap, in its smallest blocks, so that each later allocation is refused.
fn all_blocks(alloc: Global, heap: &LocalHeap) -> Vec<Block<'_>> {
    let mut blocks = Vec::new(alloc);
    for _ in 0..SIZE {
        let mut block = Vec::new(heap);
        if block.reserve_exact(1).is_err() || blocks.push(block).is_err() {
            break;
        }
    }
    blocks
}

/// Calls while a heap has nothing left, and once more with room if that is refused. Returns whether it was, if that went well.
fn call_without_room(
    alloc: Global,
    heap: &LocalHeap,
    matcher: &mut Poor<'_>,
    letter: char,
) -> Option<bool> {
    let blocks = all_blocks(alloc, heap);
    let first = call(matcher, letter);
    drop(blocks);
    match first {
        Ok(()) => Some(false),
        Err(KeymapFault::Memory) => call(matcher, letter).is_ok().then_some(true),
        Err(_) => None,
    }
}

/// Feeds letters and flushes without taking an outcome. Returns whether these calls are refused on the way, and no others.
fn are_refused(
    alloc: Global,
    heap: &LocalHeap,
    matcher: &mut Poor<'_>,
    typed: &str,
    refused: &str,
) -> bool {
    let mut wants = refused.chars();
    for letter in typed.chars() {
        match call_without_room(alloc, heap, matcher, letter) {
            Some(false) => {}
            Some(true) if wants.next() == Some(letter) => {}
            _ => return false,
        }
    }
    wants.next().is_none()
}

/// Whether these outcomes wait, and no others.
fn wait(matcher: &mut Poor<'_>, signs: &str) -> bool {
    let mut wants = signs.chars();
    are_next(matcher, &mut wants) && wants.next().is_none()
}

/// Lists, what is typed, which calls are refused, and what comes of all. The room for outcomes grows to 16, to 25, and to 36.
static ROWS: [(&[&str], &str, &str, &str); 4] = [
    (&["abc", "b"], "xxxxxxxxaba|", "x|", "xxxxxxxxa1a"),
    (&["abc", "b"], "|ab|", "|", "a1"),
    (&["gg", "g"], "ggggggggggggggggggg|", "gg", "0000000001"),
    (
        &["gg"],
        "xxxxxxxxxxxxxxxxxxxx",
        "xxx",
        "xxxxxxxxxxxxxxxxxxxx",
    ),
];

/// Whether that is refused, and that comes.
fn goes_on(alloc: Global, heap: &LocalHeap, row: &(&[&str], &str, &str, &str)) -> bool {
    match keymap_of(heap, row.0) {
        Some(keymap) => {
            let mut matcher = Matcher::new(heap, keymap);
            are_refused(alloc, heap, &mut matcher, row.1, row.2) && wait(&mut matcher, row.3)
        }
        None => false,
    }
}

#[test]
fn a_call_that_is_refused_loses_nothing(rt: HostRuntime) -> Result<(), AllocError> {
    for row in &ROWS {
        let heap = LocalHeap::new(rt.alloc(), SIZE)?;
        expect!(rt; goes_on(rt.alloc(), &heap, row), row.1);
    }
    Ok(())
}

type Source<'a> = DeviceSource<Script, &'a LocalHeap>;

type Shared<'a> = EventReader<Source<'a>, &'a LocalHeap>;

type PassOf<'a> = Pass<Source<'a>, &'a LocalHeap>;

/// A matcher that steps over a script. The memory of both is a heap's.
#[derive(Drop)]
struct Stepper<'a> {
    shared: Shared<'a>,
    pass: PassOf<'a>,
    matcher: Poor<'a>,
    ghost fits: { IsPassOf shared pass },
}

impl<'a> Stepper<'a> {
    /// A matcher with these bindings, over a script.
    fn new<R: Wait>(
        rt: &R,
        heap: &'a LocalHeap,
        script: Script,
        keymap: Keymap<&'a LocalHeap>,
    ) -> Option<Stepper<'a>> {
        let matcher = Matcher::new(heap, keymap);
        let reader = InternalEventReader::new(heap, DeviceSource::new(heap, script));
        match EventReader::new(rt, heap, reader, 1) {
            Ok((shared, mut passes)) => match passes.pop() {
                Some(pass) => Some(Stepper {
                    shared,
                    pass,
                    matcher,
                }),
                None => None,
            },
            Err(_) => None,
        }
    }

    /// Steps once, without a wait, and shows what comes.
    fn step<R: Wait>(&mut self, rt: &R) -> char {
        let limit = Some(Duration::ZERO);
        shown(
            self.matcher
                .step(rt, &self.shared, &mut self.pass, limit, &mut Still),
        )
    }
}

/// How a step is shown: `_` if nothing came, `-` if memory was refused, `.` at the end of input, `?` for another error, else its outcome.
fn shown(came: io::Result<Option<Outcome<&LocalHeap>>>) -> char {
    match came {
        Ok(Some(outcome)) => sign_of(outcome),
        Ok(None) => '_',
        Err(error) => match error.kind() {
            ErrorKind::OutOfMemory => '-',
            ErrorKind::UnexpectedEof => '.',
            _ => '?',
        },
    }
}

/// Steps while a heap has nothing left, and once more with room if that is refused. Returns what came at last, and whether it was refused.
fn step_without_room<R: Wait>(
    rt: &R,
    alloc: Global,
    heap: &LocalHeap,
    stepper: &mut Stepper<'_>,
) -> (char, bool) {
    let blocks = all_blocks(alloc, heap);
    let first = stepper.step(rt);
    drop(blocks);
    if first == '-' {
        return (stepper.step(rt), true);
    }
    (first, false)
}

/// Whether steps to the end of input come to these. A step that is refused shows as a `-` before what it comes to with room.
fn steps_come<R: Wait>(
    rt: &R,
    alloc: Global,
    heap: &LocalHeap,
    stepper: &mut Stepper<'_>,
    wants: &mut Chars<'_>,
) -> bool {
    for _ in 0..32u32 {
        let (sign, is_refused) = step_without_room(rt, alloc, heap, stepper);
        if is_refused && wants.next() != Some('-') {
            return false;
        }
        match sign {
            '.' => return true,
            '_' => {}
            _ => {
                if wants.next() != Some(sign) {
                    return false;
                }
            }
        }
    }
    false
}

/// Whether that comes of a script whose steps are refused the memory that they ask for, and then of a flush.
fn all_come<R: Wait>(
    rt: &R,
    alloc: Global,
    heap: &LocalHeap,
    script: Script,
    signs: &str,
) -> Option<bool> {
    let keymap = keymap_of(heap, &["gg", "g"])?;
    let mut stepper = Stepper::new(rt, heap, script, keymap)?;
    let mut wants = signs.chars();
    Some(
        steps_come(rt, alloc, heap, &mut stepper, &mut wants)
            && call(&mut stepper.matcher, '|').is_ok()
            && are_next(&mut stepper.matcher, &mut wants)
            && wants.next().is_none(),
    )
}

const PIECES: [Given; 5] = [
    Given::Text(b"g"),
    Given::Text(b"g"),
    Given::Text(b"x"),
    Given::Text(b"g\x1b[I"),
    Given::Text(b"g"),
];

/// The first step is refused, since there is no room for an event yet, and the first one over bytes that are two events.
#[test]
fn a_step_that_is_refused_loses_nothing(rt: HostRuntime) -> io::Result<()> {
    let alloc = rt.alloc();
    let acts = acts_of(alloc, &PIECES)?;
    let heap = LocalHeap::new(alloc, SIZE)?;
    let came = all_come(&rt, alloc, &heap, Script::new(acts), "-0x-1!1");
    expect!(rt; came == Some(true));
    Ok(())
}
