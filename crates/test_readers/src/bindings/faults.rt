//! Texts of faults, and errors that a step returns as they are.

use crate::bindings::lists::matcher_of;
use crossterm_read::read::InternalEventReader;
use crossterm_read::source::{DeviceSource, RawFlag, ReadDevice};
use keymap::{ChordFault, KeymapFault, Matcher};
use std::alloc::Global;
use std::io::{self, Read};
use std::sync::Wait;
use std::time::Duration;
use test_support::{Seat, Still, alone, expect, is_text};

static KEYMAP_FAULTS: [(KeymapFault, &str); 4] = [
    (KeymapFault::Memory, "out of memory"),
    (KeymapFault::Empty, "no chord to bind"),
    (KeymapFault::TooLong, "more than 8 chords to bind"),
    (KeymapFault::Taken, "the same chords are bound"),
];

static CHORD_FAULTS: [(ChordFault, &str); 3] = [
    (ChordFault::Empty, "a chord without a key"),
    (
        ChordFault::UnknownModifier,
        "a chord with an unknown modifier",
    ),
    (ChordFault::UnknownKey, "a chord with an unknown key"),
];

#[test]
fn faults_have_their_texts(rt: HostRuntime) {
    for (fault, want) in KEYMAP_FAULTS.iter() {
        expect!(rt; is_text(format!(in rt.alloc(); "{fault}"), want), want);
        expect!(rt; is_text(format!(in rt.alloc(); "{}", io::Error::from(*fault)), want), want);
    }
    for (fault, want) in CHORD_FAULTS.iter() {
        expect!(rt; is_text(format!(in rt.alloc(); "{fault}"), want), want);
        expect!(rt; is_text(format!(in rt.alloc(); "{}", io::Error::from(*fault)), want), want);
    }
}

/// A reader that fails with a number of the system that has no kind of its own.
#[derive(Drop)]
struct Broken;

/// EREMOTEIO.
const NUMBER: i32 = 121;

impl Read for Broken {
    fn read(&mut self, _buf: &mut [u8]) -> io::Result<usize> {
        Err(io::Error::from_raw_os_error(NUMBER))
    }
}

type Source = DeviceSource<ReadDevice<Broken>>;

/// The number of the system in the error of a step.
fn number_of<R: Wait>(rt: &R, seat: &mut Seat<Source>, matcher: &mut Matcher) -> Option<i32> {
    let limit = Some(Duration::ZERO);
    match matcher.step(rt, &seat.shared, &mut seat.pass, limit, &mut Still) {
        Ok(_) => None,
        Err(error) => error.raw_os_error(),
    }
}

/// The number of the system in the error of a step over that reader.
fn number_of_broken<R: Wait>(rt: &R, alloc: Global, flag: RawFlag) -> Option<i32> {
    let mut matcher = matcher_of(alloc, &["g"])?;
    let source = DeviceSource::new(alloc, ReadDevice::new(Broken, flag));
    match alone(rt, alloc, InternalEventReader::new(alloc, source)) {
        Ok(mut seat) => number_of(rt, &mut seat, &mut matcher),
        Err(_) => None,
    }
}

#[test]
fn an_error_of_the_system_is_returned_as_it_is(rt: HostRuntime) -> io::Result<()> {
    let flag = RawFlag::new(rt.alloc())?;
    expect!(rt; number_of_broken(&rt, rt.alloc(), flag) == Some(NUMBER));
    Ok(())
}
