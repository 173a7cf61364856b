//! Modes and sizes by a helper that runs `stty`: what it is asked, and what comes of its answers.

use crate::modes::raw_and_back;
use crate::queueing::kind;
use crate::witness::Witness;
use crossterm::event::source::RawFlag;
use crossterm::terminal::{ModeDevice, SttyDevice, SttyMode, Terminal, WindowSize};
use std::alloc::Global;
use std::format;
use std::io::{self, ErrorKind, Read, Write};
use test_support::{expect, is_text};

/// Raw mode on and off again, and the size, by these answers.
fn use_all<W: Write + Drop>(alloc: Global, answers: &[u8], requests: W) -> io::Result<(u16, u16)> {
    let mut term = Terminal::new(SttyDevice::new(answers, requests)?, RawFlag::new(alloc)?);
    raw_and_back(&mut term)?;
    let WindowSize { rows, columns, .. } = term.window_size()?;
    Ok((columns, rows))
}

/// What a helper answers, and what it is asked.
const ANSWERS: &[u8] = b"500:5:bf\n0:4:b0\n500:5:bf\n24\n80\n";

const REQUESTS: &[u8] = b"mode\nraw\nset 500:5:bf\nsize\n";

#[test]
fn a_helper_is_asked_by_lines(rt: HostRuntime) {
    let mut requests = Vec::new(rt.alloc());
    let size = use_all(rt.alloc(), ANSWERS, &mut requests);
    expect!(rt; size.is_ok_and(|size| size == (80, 24)));
    expect!(rt; requests.as_slice() == REQUESTS);
}

/// Whether the writer's fault is returned if it takes so many bytes of the requests, and it is left alone then. Each line is flushed.
fn stops(alloc: Global, room: usize, fault: ErrorKind) -> bool {
    let mut w = Witness::new(alloc, room, fault);
    let answer = kind(use_all(alloc, ANSWERS, &mut w));
    let taken = &REQUESTS[..room.min(REQUESTS.len())];
    let lines = taken.iter().filter(|byte| **byte == b'\n').count();
    let want = (room <= REQUESTS.len()).then_some(fault);
    answer == want && w.saw(taken, lines as u32, 0)
}

#[test]
fn a_helper_that_is_gone_is_reported(rt: HostRuntime) {
    for fault in [
        ErrorKind::BrokenPipe,
        ErrorKind::WriteZero,
        ErrorKind::Other,
    ] {
        for room in 0..REQUESTS.len() + 2 {
            expect!(rt; stops(rt.alloc(), room, fault));
        }
    }
}

const HAS_ENDED: &str = "the terminal's helper has ended";

const NO_MODE: &str = "the terminal's helper failed: no mode was set or reported";

const NO_LINE: &str = "the terminal's helper didn't answer by a line of ASCII";

const OTHER_MODE: &str = "the terminal's helper set another mode";

const NO_SIZE: &str = "the terminal's helper failed: no size is known";

/// Whether these answers lead to an error of a kind, of which a program prints this.
fn fails(alloc: Global, answers: &[u8], kind: ErrorKind, want: &str) -> bool {
    let mut requests = Vec::new(alloc);
    match use_all(alloc, answers, &mut requests) {
        Ok(_) => false,
        Err(error) => error.kind() == kind && is_text(format!(in alloc; "{error}"), want),
    }
}

#[test]
fn refusals_are_reported(rt: HostRuntime) {
    let alloc = rt.alloc();
    let rows: [(&[u8], ErrorKind, &str); 10] = [
        (b"", ErrorKind::UnexpectedEof, HAS_ENDED),
        (b"500:5", ErrorKind::UnexpectedEof, HAS_ENDED),
        (b"failed\n", ErrorKind::Other, NO_MODE),
        (b"\n", ErrorKind::Other, NO_MODE),
        (b"5\xc3\xa9\n", ErrorKind::InvalidData, NO_LINE),
        (b"5\nfailed\n", ErrorKind::Other, NO_MODE),
        (b"5\n0\nfailed\n", ErrorKind::Other, NO_MODE),
        (b"5\n0\n6\n", ErrorKind::Other, OTHER_MODE),
        (b"5\n0\n5\n24\n0\n", ErrorKind::Other, NO_SIZE),
        (b"5\n0\n5\n\n\n", ErrorKind::Other, NO_SIZE),
    ];
    for (answers, kind, words) in rows {
        expect!(rt; fails(alloc, answers, kind, words));
    }
}

/// The mode that is kept after raw mode was set and the first one wasn't, and the kind of that fault.
fn mode_after(alloc: Global, answers: &[u8]) -> io::Result<(SttyMode, Option<ErrorKind>)> {
    let mut device = SttyDevice::new(answers, Vec::new(alloc))?;
    let first = device.mode()?;
    device.set_raw(&first)?;
    let kind = match device.set_mode(&first) {
        Ok(()) => None,
        Err(error) => Some(error.kind()),
    };
    Ok((device.mode()?, kind))
}

#[test]
fn the_mode_that_was_reported_last_is_current(rt: HostRuntime) {
    let alloc = rt.alloc();
    let rows: [(&[u8], &str, Option<ErrorKind>); 4] = [
        (b"5\n0\n5\n", "5", None),
        (b"5\n0\n6\n", "6", Some(ErrorKind::Other)),
        (b"5\n0\nfailed\n", "0", Some(ErrorKind::Other)),
        (b"5\n0\n", "0", Some(ErrorKind::UnexpectedEof)),
    ];
    for (answers, mode, kind) in rows {
        let returned = mode_after(alloc, answers);
        expect!(rt; returned.is_ok_and(|returned| returned.0.text.as_str() == mode && returned.1 == kind));
    }
}

/// A line of this many bytes, as the first answer.
fn of_length(alloc: Global, count: usize) -> io::Result<SttyMode> {
    let mut answers = Vec::from_elem(alloc, b'7', count)?;
    answers.push(b'\n')?;
    SttyDevice::new(answers.as_slice(), Vec::new(alloc))?.mode()
}

#[test]
fn a_line_has_255_bytes_at_most(rt: HostRuntime) {
    expect!(rt; of_length(rt.alloc(), 255).is_ok_and(|mode| mode.text.len() == 255));
    let longer = of_length(rt.alloc(), 256);
    expect!(rt; longer.is_err_and(|error| error.kind() == ErrorKind::InvalidData));
}

/// A pipe that a signal interrupts so often before each byte.
#[derive(Drop)]
struct Hesitant<'a> {
    bytes: &'a [u8],
    times: u32,
    left: u32,
}

impl Read for Hesitant<'_> {
    fn read(&mut self, buf: &mut [u8]) -> io::Result<usize> {
        if self.left > 0 {
            self.left -= 1;
            return Err(io::Error::from(ErrorKind::Interrupted));
        }
        self.left = self.times;
        self.bytes.read(buf)
    }
}

/// The kind of the fault if each read of the mode is interrupted so often.
fn interrupted(alloc: Global, times: u32) -> Option<ErrorKind> {
    let answers = Hesitant {
        bytes: b"5\n",
        times,
        left: times,
    };
    match SttyDevice::new(answers, Vec::new(alloc)) {
        Ok(_) => None,
        Err(error) => Some(error.kind()),
    }
}

#[test]
fn a_read_is_made_again_64_times(rt: HostRuntime) {
    expect!(rt; interrupted(rt.alloc(), 64) == None);
    expect!(rt; interrupted(rt.alloc(), 65) == Some(ErrorKind::Interrupted));
}
