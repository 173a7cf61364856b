//! A session with a terminal: what its end turns off, also if its writer fails.

use crate::noted::{Call, Noted, note_digit, terminal_by};
use crate::queueing::kind;
use crate::witness::Witness;
use crossterm::event::source::{Answer, Device, DeviceSource, RawFlag, Script, Waker};
use crossterm::event::{Event, KeyboardEnhancementFlags};
use own_terminal::{Feature, Session};
use std::alloc::Global;
use std::io::{self, ErrorKind, Write};
use std::sync::Wait;
use std::sync::atomic::{AtomicU32, Ordering};
use std::time::Duration;
use test_support::{Still, expect};

/// The session of a script without an act, with a writer.
type Writing<'a, W> = Session<DeviceSource<Script>, Noted<'a>, W, Still>;

/// A session in which nothing is turned on yet. Its device of modes refuses a call, perhaps.
fn begun<'a, R: Wait, W: Write + Drop>(
    rt: &R,
    alloc: Global,
    calls: &'a AtomicU32,
    refused: Option<Call>,
    out: W,
) -> io::Result<Writing<'a, W>> {
    let term = terminal_by(RawFlag::new(alloc)?, calls, refused);
    Session::over(rt, alloc, Script::new(Vec::new(alloc)), term, out, Still)
}

/// Raw mode and three features are turned on, in this order.
fn turn_on<W: Write + Drop>(session: &mut Writing<'_, W>) -> io::Result<()> {
    session.enable_raw_mode()?;
    for feature in [
        Feature::AlternateScreen,
        Feature::HiddenCursor,
        Feature::Keyboard(KeyboardEnhancementFlags::REPORT_EVENT_TYPES),
    ] {
        session.turn_on(feature)?;
    }
    Ok(())
}

const TURNED_ON: &[u8] = b"\x1b[?1049h\x1b[?25l\x1b[>2u";

// The end of the keyboard's flags, which comes first, is cut.
const WITH_ONE_END_CUT: &[u8] = b"\x1b[?1049h\x1b[?25l\x1b[>2u\x1b[\x1b[?25h\x1b[?1049l";

const TURNED_ON_AND_OFF: &[u8] = b"\x1b[?1049h\x1b[?25l\x1b[>2u\x1b[<1u\x1b[?25h\x1b[?1049l";

/// What came of a session in which all was turned on: the kinds of the errors of that and of leaving, and the calls of the device of modes.
type Met = (Option<ErrorKind>, Option<ErrorKind>, u32);

/// A session begins, all is turned on, and it ends, perhaps once it was left.
fn led<R: Wait>(rt: &R, alloc: Global, out: &mut Witness, leaves: bool) -> Option<Met> {
    let calls = AtomicU32::new(0);
    let mut session = begun(rt, alloc, &calls, None, out).ok()?;
    let turned_on = kind(turn_on(&mut session));
    let left = if leaves { kind(session.leave()) } else { None };
    drop(session);
    Some((turned_on, left, calls.load(Ordering::SeqCst)))
}

/// Whether this comes of a session whose writer fails after so many bytes, and the writer saw this.
fn comes<R: Wait>(
    rt: &R,
    alloc: Global,
    room: usize,
    leaves: bool,
    met: Met,
    saw: (&[u8], u32, u32),
) -> bool {
    let mut out = Witness::new(alloc, room, ErrorKind::BrokenPipe);
    led(rt, alloc, &mut out, leaves) == Some(met) && out.saw(saw.0, saw.1, saw.2)
}

const BROKEN: Option<ErrorKind> = Some(ErrorKind::BrokenPipe);

#[test]
fn a_session_that_ends_turns_off_what_it_turned_on(rt: HostRuntime) {
    // Each feature is flushed as it is turned on and off, and the end once more; then the mode from before is set.
    let (met, saw) = ((None, None, 123), (TURNED_ON_AND_OFF, 7, 0));
    expect!(rt; comes(&rt, rt.alloc(), usize::MAX, false, met, saw));
}

#[test]
fn a_session_that_left_turns_nothing_off_at_its_end(rt: HostRuntime) {
    let (met, saw) = ((None, None, 123), (TURNED_ON_AND_OFF, 8, 0));
    expect!(rt; comes(&rt, rt.alloc(), usize::MAX, true, met, saw));
}

#[test]
fn a_writer_that_fails_once_is_offered_all_else(rt: HostRuntime) {
    // It fails as the third feature is flushed, which is listed all the same.
    let (met, saw) = ((BROKEN, None, 123), (TURNED_ON_AND_OFF, 8, 8));
    expect!(rt; comes(&rt, rt.alloc(), TURNED_ON.len(), true, met, saw));
}

#[test]
fn an_end_that_fails_keeps_no_other_from_being_written(rt: HostRuntime) {
    let (met, saw) = ((None, BROKEN, 123), (WITH_ONE_END_CUT, 7, 6));
    expect!(rt; comes(&rt, rt.alloc(), TURNED_ON.len() + 2, true, met, saw));
}

/// Features that are turned on, and some that are turned off again, by a writer that fails once after so many bytes.
struct Turning {
    on: &'static [Feature],
    off: &'static [Feature],
    room: usize,
    /// The kind of the error of turning off.
    error: Option<ErrorKind>,
    /// What was written up to the session's end.
    text: &'static [u8],
}

const SCREEN_CURSOR_FOCUS: &[Feature] = &[
    Feature::AlternateScreen,
    Feature::HiddenCursor,
    Feature::FocusChange,
];

static TURNINGS: [Turning; 5] = [
    Turning {
        on: SCREEN_CURSOR_FOCUS,
        off: &[Feature::HiddenCursor],
        room: usize::MAX,
        error: None,
        text: b"\x1b[?1049h\x1b[?25l\x1b[?1004h\x1b[?25h\x1b[?1004l\x1b[?1049l",
    },
    // What isn't turned on, or isn't any more, is passed over.
    Turning {
        on: SCREEN_CURSOR_FOCUS,
        off: &[
            Feature::MouseCapture,
            Feature::FocusChange,
            Feature::FocusChange,
        ],
        room: usize::MAX,
        error: None,
        text: b"\x1b[?1049h\x1b[?25l\x1b[?1004h\x1b[?1004l\x1b[?25h\x1b[?1049l",
    },
    // The last of two ends, and the first one with the session.
    Turning {
        on: &[
            Feature::FocusChange,
            Feature::HiddenCursor,
            Feature::FocusChange,
        ],
        off: &[Feature::FocusChange],
        room: usize::MAX,
        error: None,
        text: b"\x1b[?1004h\x1b[?25l\x1b[?1004h\x1b[?1004l\x1b[?25h\x1b[?1004l",
    },
    // A keyboard's flags are of one kind.
    Turning {
        on: &[
            Feature::HiddenCursor,
            Feature::Keyboard(KeyboardEnhancementFlags::REPORT_EVENT_TYPES),
        ],
        off: &[Feature::Keyboard(KeyboardEnhancementFlags::DISAMBIGUATE_ESCAPE_CODES)],
        room: usize::MAX,
        error: None,
        text: b"\x1b[?25l\x1b[>2u\x1b[<1u\x1b[?25h",
    },
    // What failed is turned off by the session's end.
    Turning {
        on: &[Feature::HiddenCursor],
        off: &[Feature::HiddenCursor],
        room: 8,
        error: BROKEN,
        text: b"\x1b[?25l\x1b[\x1b[?25h",
    },
];

/// The kind of the error of turning off, if all could be turned on.
fn turned_off<R: Wait>(
    rt: &R,
    alloc: Global,
    row: &Turning,
    out: &mut Witness,
) -> Option<Option<ErrorKind>> {
    let calls = AtomicU32::new(0);
    let mut session = begun(rt, alloc, &calls, None, out).ok()?;
    for feature in row.on {
        session.turn_on(*feature).ok()?;
    }
    for feature in row.off {
        if let Err(error) = session.turn_off(*feature) {
            return Some(Some(error.kind()));
        }
    }
    Some(None)
}

#[test]
fn what_is_turned_off_is_the_last_of_its_kind(rt: HostRuntime) {
    for row in &TURNINGS {
        let mut out = Witness::new(rt.alloc(), row.room, ErrorKind::BrokenPipe);
        expect!(rt; turned_off(&rt, rt.alloc(), row, &mut out) == Some(row.error));
        expect!(rt; out.has(row.text));
    }
}

/// A call of a writer that fails: the calls up to it, by their digits, and the kind of its error.
type Fault = (u32, ErrorKind);

/// A writer that notes its calls beside those of a device of modes, and fails at some of them.
#[derive(Drop)]
struct Faulty<'a> {
    calls: &'a AtomicU32,
    faults: &'static [Fault],
}

impl Faulty<'_> {
    fn note(&self, digit: u32) -> io::Result<()> {
        let calls = note_digit(self.calls, digit);
        for fault in self.faults {
            if fault.0 == calls {
                return Err(io::Error::from(fault.1));
            }
        }
        Ok(())
    }
}

impl Write for Faulty<'_> {
    fn write(&mut self, buf: &[u8]) -> io::Result<usize> {
        self.note(5)?;
        Ok(buf.len())
    }

    fn flush(&mut self) -> io::Result<()> {
        self.note(6)
    }
}

/// The calls of a writer that fail while a session is left, and the call of the device of modes that is refused; the kind of the error that
/// this returns, and the calls of both, by their digits.
type Leaving = (&'static [Fault], Option<Call>, Option<ErrorKind>, u32);

/// The digits are 3 for the mode from before, 5 for a write and 6 for a flush. A write that fails isn't flushed.
static LEAVINGS: [Leaving; 5] = [
    (&[], None, None, 56565663),
    (
        &[],
        Some(Call::SetMode),
        Some(ErrorKind::PermissionDenied),
        56565663,
    ),
    // The last flush alone fails.
    (
        &[(5656566, ErrorKind::StorageFull)],
        None,
        Some(ErrorKind::StorageFull),
        56565663,
    ),
    // The last flush fails, and the mode is refused.
    (
        &[(5656566, ErrorKind::StorageFull)],
        Some(Call::SetMode),
        Some(ErrorKind::StorageFull),
        56565663,
    ),
    // All ends fail, each otherwise, and what comes after them.
    (
        &[
            (5, ErrorKind::TimedOut),
            (55, ErrorKind::WriteZero),
            (555, ErrorKind::BrokenPipe),
            (5556, ErrorKind::StorageFull),
        ],
        Some(Call::SetMode),
        Some(ErrorKind::TimedOut),
        55563,
    ),
];

/// What comes of leaving a session in which all was turned on: the kind of the error, and the calls.
fn left<R: Wait>(rt: &R, alloc: Global, row: &Leaving) -> Option<(Option<ErrorKind>, u32)> {
    let calls = AtomicU32::new(0);
    let out = Faulty {
        calls: &calls,
        faults: row.0,
    };
    let mut session = begun(rt, alloc, &calls, row.1, out).ok()?;
    let turned_on = turn_on(&mut session).is_ok();
    calls.store(0, Ordering::SeqCst);
    let left = kind(session.leave());
    let noted = calls.load(Ordering::SeqCst);
    turned_on.then_some((left, noted))
}

#[test]
fn raw_mode_ends_last_and_the_first_error_is_returned(rt: HostRuntime) {
    for row in &LEAVINGS {
        expect!(rt; left(&rt, rt.alloc(), row) == Some((row.2, row.3)));
    }
}

/// A device that sends a paste of so many kilobytes, and its end if it is asked further. It counts its answers.
#[derive(Drop)]
struct Pasted<'a> {
    answers: &'a AtomicU32,
    kilobytes: u32,
}

impl Device for Pasted<'_> {
    fn answer(&mut self, buf: &mut [u8], _limit: Option<Duration>) -> io::Result<Answer> {
        let before = self.answers.fetch_add(1, Ordering::SeqCst);
        let count = if before == 0 || before > self.kilobytes {
            let bracket = if before == 0 {
                b"\x1b[200~"
            } else {
                b"\x1b[201~"
            };
            buf[..6].copy_from_slice(bracket);
            6
        } else {
            buf.fill(b'x');
            1024
        };
        Ok(Answer::Bytes { count, raw: true })
    }

    fn failures(&self) -> u64 {
        0
    }

    fn waker(&self) -> io::Result<Waker> {
        Ok(Waker::none())
    }
}

/// The session of such a device.
type Pasting<'a> = Session<DeviceSource<Pasted<'a>>, Noted<'a>, Vec<u8>, Still>;

/// One whose source keeps so many bytes of a paste, or what a session keeps by itself.
fn pasting<'a, R: Wait>(
    rt: &R,
    alloc: Global,
    device: Pasted<'a>,
    calls: &'a AtomicU32,
    longest: Option<usize>,
) -> io::Result<Pasting<'a>> {
    let term = terminal_by(RawFlag::new(alloc)?, calls, None);
    match longest {
        Some(longest) => {
            let source = DeviceSource::bounded(alloc, device, longest);
            Session::over_source(rt, alloc, source, term, Vec::new(alloc), Still)
        }
        None => Session::over(rt, alloc, device, term, Vec::new(alloc), Still),
    }
}

/// The length of the paste that a session reads, or the kind of its error.
fn read_length<R: Wait>(rt: &R, session: io::Result<Pasting<'_>>) -> Result<usize, ErrorKind> {
    let Ok(mut session) = session else {
        return Err(ErrorKind::NotFound);
    };
    match session.read(rt) {
        Ok(Event::Paste(text)) => Ok(text.as_str().len()),
        Ok(_) => Ok(0),
        Err(error) => Err(error.kind()),
    }
}

/// The length of the paste that a read returns, or the kind of its error, and how often the device was asked.
fn paste_length<R: Wait>(
    rt: &R,
    alloc: Global,
    kilobytes: u32,
    longest: Option<usize>,
) -> (Result<usize, ErrorKind>, u32) {
    let (calls, answers) = (AtomicU32::new(0), AtomicU32::new(0));
    let device = Pasted {
        answers: &answers,
        kilobytes,
    };
    let length = read_length(rt, pasting(rt, alloc, device, &calls, longest));
    (length, answers.load(Ordering::SeqCst))
}

#[test]
fn a_session_keeps_a_paste_of_any_length(rt: HostRuntime) {
    // 17 MiB, as crossterm does.
    let (length, _) = paste_length(&rt, rt.alloc(), 17 << 10, None);
    expect!(rt; length == Ok(17 << 20));
}

#[test]
fn a_paste_is_an_error_where_it_is_longer_than_its_source_keeps(rt: HostRuntime) {
    let (length, _) = paste_length(&rt, rt.alloc(), 1 << 10, Some(1 << 20));
    expect!(rt; length == Ok(1 << 20));
    // The start comes first, and the piece that has no room last.
    let (length, answers) = paste_length(&rt, rt.alloc(), u32::MAX, Some(1 << 20));
    expect!(rt; length == Err(ErrorKind::OutOfMemory));
    expect!(rt; answers == 1026);
}
