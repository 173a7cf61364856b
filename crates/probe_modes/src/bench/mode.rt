//! What the command line asks for.

use crate::bench::cells::Case;
use crate::bench::workload::Workload;
use crate::bench::{cells, frame, held, input, keys, recorded};
use crate::fault::Fault;
use std::alloc::Allocator;
use std::io::{Read, Write};
use std::rt::Clock;

/// What the program does.
#[derive(Clone, Copy)]
pub enum Mode {
    /// Counts the events of the input.
    Count,
    /// Times the parser over the input.
    TimeInput,
    /// Counts the bytes of a frame.
    Frame,
    /// Times a frame.
    TimeFrame,
    /// Counts the bytes of a screen's frame.
    Screen(Case),
    /// Times it.
    TimeScreen(Case),
    /// Times a key behind so many held replies.
    TimeHeld(u32),
    /// Times a key with a recorder and without one.
    TimeRecorded,
    /// Times a key with so many lists bound.
    TimeKeys(u32),
    /// Writes so many bytes of a workload.
    Make(Workload, usize),
}

impl Mode {
    /// The mode of some words: those of the command line after the program's name.
    pub fn read(words: &[String]) -> Result<Mode, Fault> {
        let mode = match words {
            [] => Some(Mode::Count),
            [word] => Mode::of_word(word.as_str()),
            [first, second] => Mode::of_words(first.as_str(), second.as_str()),
            [first, name, last] => match (first.as_str(), last.as_str()) {
                ("make", count) => Mode::making(name.as_str(), count),
                ("screen", "--time") => Mode::timing(name.as_str()),
                _ => None,
            },
            _ => None,
        };
        mode.ok_or(Fault::BenchUsage)
    }

    fn of_word(word: &str) -> Option<Mode> {
        match word {
            "--time" => Some(Mode::TimeInput),
            "frame" => Some(Mode::Frame),
            "recorded" => Some(Mode::TimeRecorded),
            _ => None,
        }
    }

    fn of_words(first: &str, second: &str) -> Option<Mode> {
        match (first, second) {
            ("frame", "--time") => Some(Mode::TimeFrame),
            ("screen", name) => Some(Mode::Screen(Case::named(name)?)),
            ("held", count) => Some(Mode::TimeHeld(count.parse().ok()?)),
            ("keys", count) => Some(Mode::TimeKeys(count.parse().ok()?)),
            _ => None,
        }
    }

    fn timing(name: &str) -> Option<Mode> {
        Some(Mode::TimeScreen(Case::named(name)?))
    }

    fn making(name: &str, count: &str) -> Option<Mode> {
        Some(Mode::Make(Workload::named(name)?, count.parse().ok()?))
    }

    /// Does it.
    pub fn run<C: Clock, A: Allocator + Clone, R: Read, W: Write>(
        self,
        clock: &C,
        alloc: A,
        reader: &mut R,
        writer: &mut W,
    ) -> Result<(), Fault> {
        match self {
            Mode::Count => input::count(alloc, reader, writer),
            Mode::TimeInput => input::time(clock, alloc, reader, writer),
            Mode::Frame => frame::count(alloc, writer),
            Mode::TimeFrame => frame::time(clock, alloc, writer),
            Mode::Screen(case) => cells::count(alloc, case, writer),
            Mode::TimeScreen(case) => cells::time(clock, alloc, case, writer),
            Mode::TimeHeld(replies) => held::time(clock, alloc, replies, writer),
            Mode::TimeRecorded => recorded::time(clock, alloc, writer),
            Mode::TimeKeys(count) => keys::time(clock, alloc, count, writer),
            Mode::Make(workload, count) => workload.write(alloc, count, writer),
        }
    }
}
