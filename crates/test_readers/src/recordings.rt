//! Recordings from outside: what is written of a session, what reads as one, and what is left if the writer fails or the room is used up.

use crossterm_read::read::InternalEventReader;
use crossterm_read::source::{Answer, Device, DeviceSource, Script, Waker};
use crossterm_types::event::filter::EventFilter;
use crossterm_types::event::timeout::SystemClock;
use crossterm_types::event::{Event, InternalEvent, KeyCode};
use linked_list_allocator::LocalHeap;
use recorder::reading::{Session, Wrong, read_session};
use recorder::{Recorder, Stop, Watch};
use std::alloc::{AllocError, Global};
use std::cell::Cell;
use std::io::{self, ErrorKind, Write};
use std::rt::Clock;
use std::time::Duration;
use test_support::{Calls, Came, Ticking, expect, is_refused_below_a_size, is_text, script_of};

/// A session, and how it is recorded by a clock that goes on by a millisecond an answer.
const ACTS: &str = "\
piece 1b5b41
raw 0d
resize 80 24
wake
idle
fault Interrupted
piece 1b
idle
piece 5b42
fault Other
";

const RECORDED: &str = "\
# 1
piece 1b5b41
# 2
raw 0d
# 3
resize 80 24
# 4
wake
# 5
idle
# 6
fault Interrupted
# 7
piece 1b
# 8
idle
# 9
piece 5b42
# 10
fault Other
";

/// A writer that takes so many bytes, and then is full.
#[derive(Drop)]
struct Short {
    bytes: Vec<u8>,
    left: usize,
}

impl Write for Short {
    fn write(&mut self, buf: &[u8]) -> io::Result<usize> {
        let count = self.left.min(buf.len());
        if count == 0 {
            return Err(io::Error::from(ErrorKind::StorageFull));
        }
        self.left -= count;
        match self.bytes.extend_from_slice(&buf[..count]) {
            Ok(()) => Ok(count),
            Err(_) => Err(io::Error::from(ErrorKind::OutOfMemory)),
        }
    }

    fn flush(&mut self) -> io::Result<()> {
        Ok(())
    }
}

/// A recorder over a script.
type Recording = Recorder<Script, Short, Ticking>;

/// A recorder of the session whose writer takes so many bytes.
fn recording(alloc: Global, left: usize) -> Option<Recording> {
    let session = read_session(&alloc, ACTS.as_bytes()).ok()?;
    let bytes = Vec::new(alloc);
    Some(Recorder::new(
        alloc,
        Script::new(session.acts),
        Short { bytes, left },
        Ticking::new(),
    ))
}

/// How an answer is shown: the first letter of its act, or `.` for the end of input.
fn sign_of(answer: &io::Result<Answer>) -> char {
    match answer {
        Ok(Answer::Bytes { count: 0, .. }) => '.',
        Ok(Answer::Bytes { raw: true, .. }) => 'r',
        Ok(Answer::Bytes { .. }) => 'p',
        Ok(Answer::Resize(_, _)) => 's',
        Ok(Answer::Woken) => 'w',
        Ok(Answer::Idle) => 'i',
        Err(_) => 'f',
    }
}

/// What the session's answers are, whatever becomes of its recording.
const ANSWERS: &str = "prswifpipf..";

/// Whether a device answers as the session does.
fn answers<D: Device>(device: &mut D) -> bool {
    let mut buf = [0u8; 1024];
    for want in ANSWERS.chars() {
        if sign_of(&device.answer(&mut buf, None)) != want {
            return false;
        }
    }
    true
}

/// Two watches, and a share of each.
#[derive(Drop)]
struct Watches {
    early: Watch,
    early_share: Watch,
    late: Watch,
    late_share: Watch,
}

/// Watches of no recorder yet.
fn two_watches(alloc: Global) -> io::Result<Watches> {
    let early = Watch::new(alloc)?;
    let late = Watch::new(alloc)?;
    Ok(Watches {
        early_share: early.share()?,
        late_share: late.share()?,
        early,
        late,
    })
}

/// Whether a recorder answers as it should, perhaps with a bound, its writer has these bytes then, and it ends so. Watches must report what
/// the recorder does, one from before the bound on, and one from after the last answer.
fn is_written(
    recorder: Recording,
    watches: Watches,
    most: Option<u64>,
    want: &[u8],
    stop: Option<Stop>,
) -> bool {
    let Watches {
        early,
        early_share,
        late,
        late_share,
    } = watches;
    let watched = recorder.watched(early_share);
    let mut recorder = match most {
        Some(most) => watched.most(most),
        None => watched,
    };
    let is_reported = early.stopped().is_none();
    let answered = answers(&mut recorder);
    let is_ended = recorder.stopped() == stop && early.stopped() == stop;
    let recorder = recorder.watched(late_share);
    let is_seen = late.stopped() == stop;
    let bytes = recorder.into_writer().bytes;
    is_reported && answered && is_ended && is_seen && bytes.as_slice() == want
}

/// Whether a writer that takes so many bytes has as many, and the recording says so.
fn is_cut_short(alloc: Global, left: usize) -> Option<bool> {
    let watches = two_watches(alloc).ok()?;
    let recorder = recording(alloc, left)?;
    let want = RECORDED.as_bytes();
    if left < want.len() {
        let stop = Some(Stop::Failed(ErrorKind::StorageFull));
        return Some(is_written(recorder, watches, None, &want[..left], stop));
    }
    Some(is_written(recorder, watches, None, want, None))
}

#[test]
fn a_session_is_recorded_as_far_as_its_writer_goes(rt: HostRuntime) {
    for left in 0..=RECORDED.len() {
        expect!(rt; is_cut_short(rt.alloc(), left) == Some(true), "what was written");
    }
}

/// How many bytes the whole entries take that fit.
fn whole(most: usize) -> usize {
    let mut used = 0usize;
    let mut place = 0usize;
    let mut ends = 0usize;
    for byte in RECORDED.bytes() {
        place = place.saturating_add(1);
        if byte == b'\n' {
            ends = ends.saturating_add(1);
            if ends % 2 == 0 && place <= most {
                used = place;
            }
        }
    }
    used
}

/// Whether a recording with so much room has the entries that fit, and says whether it was cut.
fn is_bounded(alloc: Global, most: usize) -> Option<bool> {
    let watches = two_watches(alloc).ok()?;
    let recorder = recording(alloc, RECORDED.len())?;
    let want = RECORDED.as_bytes().get(..whole(most)).unwrap_or(b"?");
    let stop = (most < RECORDED.len()).then_some(Stop::Cut);
    Some(is_written(recorder, watches, Some(most as u64), want, stop))
}

#[test]
fn a_recording_with_a_bound_ends_with_a_whole_entry(rt: HostRuntime) {
    for most in 0..=RECORDED.len() {
        expect!(rt; is_bounded(rt.alloc(), most) == Some(true), "the bound");
    }
}

/// A system whose clock a device moves.
#[derive(Drop)]
struct System {
    seconds: Cell<u64>,
}

impl Clock for System {
    fn monotonic(&self) -> io::Result<Duration> {
        Ok(Duration::from_secs(self.seconds.get()))
    }

    fn since_1970(&self) -> io::Result<Duration> {
        Err(io::Error::from(ErrorKind::Unsupported))
    }
}

/// A device that is woken at once, and fails an hour after it is asked again, with a number of the system.
#[derive(Drop)]
struct Late<'a> {
    system: &'a System,
    has_woken: bool,
    failures: u64,
}

/// EREMOTEIO, which has no kind of its own.
const NUMBER: i32 = 121;

impl Device for Late<'_> {
    ghost failed = { λ device. device.failures };

    fn answer(&mut self, _buf: &mut [u8], _limit: Option<Duration>) -> io::Result<Answer> {
        if !self.has_woken {
            self.has_woken = true;
            return Ok(Answer::Woken);
        }
        if self.failures == 0 {
            self.system.seconds.set(3600);
            self.failures = 1;
            return Err(io::Error::from_raw_os_error(NUMBER));
        }
        Ok(Answer::Idle)
    }

    fn failures(&self) -> u64 {
        self.failures
    }

    fn waker(&self) -> io::Result<Waker> {
        Ok(Waker::none())
    }
}

/// Whether a recorder over such a device returns its answers as they are, and each is written with the time at which it came.
fn is_in_time(alloc: Global) -> bool {
    let system = System {
        seconds: Cell::new(0),
    };
    let device = Late {
        system: &system,
        has_woken: false,
        failures: 0,
    };
    let mut recorder = Recorder::new(alloc, device, Vec::new(alloc), SystemClock::new(&system));
    let mut buf = [0u8; 1024];
    let is_woken = matches!(recorder.answer(&mut buf, None), Ok(Answer::Woken));
    let has_number = match recorder.answer(&mut buf, None) {
        Ok(_) => false,
        Err(error) => error.raw_os_error() == Some(NUMBER),
    };
    let want: &[u8] = b"# 0\nwake\n# 3600000\nfault Uncategorized\n";
    is_woken && has_number && recorder.into_writer().as_slice() == want
}

#[test]
fn answers_are_returned_as_they_are_and_have_their_own_times(rt: HostRuntime) {
    expect!(rt; is_in_time(rt.alloc()));
}

/// Texts, and what they read as: how many acts and the last time, or the error.
static TEXTS: [(&str, &str); 25] = [
    ("", "0 acts, 0 ms"),
    ("piece 61\n", "1 acts, 0 ms"),
    ("# a note\npiece 61\n#\n# 5\nidle\n", "2 acts, 5 ms"),
    ("# 4294967295\nidle\n", "1 acts, 4294967295 ms"),
    ("# 4294967296\nidle\n", "1 acts, 0 ms"),
    ("# 7 8\nidle\n", "1 acts, 0 ms"),
    ("resize 65535 0\n", "1 acts, 0 ms"),
    ("fault\nfault TimedOut\n", "2 acts, 0 ms"),
    ("piece 61", "line 1: cut line"),
    ("piece 61\npiece 6", "line 2: cut line"),
    ("piece 61\n#", "line 2: cut line"),
    ("piece 616\n", "line 1: bad argument"),
    ("piece\n", "line 1: bad argument"),
    ("piece 61 62\n", "line 1: bad argument"),
    ("piece  61\n", "line 1: bad argument"),
    ("piece 61\r\n", "line 1: bad argument"),
    ("idle\r\n", "line 1: unknown word"),
    ("jump\n", "line 1: unknown word"),
    ("idle\n\nidle\n", "line 2: unknown word"),
    ("PIECE 61\n", "line 1: unknown word"),
    ("resize 80\n", "line 1: bad argument"),
    ("resize 65536 1\n", "line 1: bad argument"),
    ("resize 80 +24\n", "line 1: bad argument"),
    ("wake up\n", "line 1: bad argument"),
    ("fault Nothing\n", "line 1: bad argument"),
];

/// What a text reads as.
fn reading(alloc: Global, text: &str) -> Result<String, AllocError> {
    match read_session(&alloc, text.as_bytes()) {
        Ok(session) => {
            let (count, end) = (session.acts.len(), session.end);
            format!(in alloc; "{count} acts, {end} ms")
        }
        Err(bad) => format!(in alloc; "{bad}"),
    }
}

#[test]
fn a_text_reads_as_a_session_or_names_its_bad_line(rt: HostRuntime) {
    for (text, want) in &TEXTS {
        expect!(rt; is_text(reading(rt.alloc(), text), want), text);
    }
}

/// What a reader reads.
type Read = io::Result<Option<InternalEvent>>;

/// Whether two reads give the same event, or fail with the same kind.
fn are_same(one: Read, other: Read) -> bool {
    match (one, other) {
        (Ok(one), Ok(other)) => one == other,
        (Err(one), Err(other)) => one.kind() == other.kind(),
        _ => false,
    }
}

/// Whether a read gives the key that the session begins with.
fn is_up(came: &Read) -> bool {
    matches!(came, Ok(Some(InternalEvent::Event(Event::Key(key)))) if key.code == KeyCode::Up)
}

/// Whether two sessions are read alike up to the end of input, and the key is among the events.
fn play_alike(alloc: Global, session: Session, recorded: Session) -> bool {
    let source = DeviceSource::new(alloc, Script::new(session.acts));
    let mut reader = InternalEventReader::new(alloc, source);
    let mut again = script_of(alloc, recorded.acts);
    let mut has_up = false;
    for _ in 0..12u32 {
        let came = reader.read_within(9, &EventFilter);
        has_up = has_up || is_up(&came);
        if !are_same(came, again.read_within(9, &EventFilter)) {
            return false;
        }
    }
    has_up
}

/// What is recorded of the session, as the first test says, plays as the session does.
#[test]
fn a_recording_replays(rt: HostRuntime) {
    let alloc = rt.alloc();
    let session = read_session(&alloc, ACTS.as_bytes());
    match (session, read_session(&alloc, RECORDED.as_bytes())) {
        (Ok(session), Ok(recorded)) => expect!(rt; play_alike(alloc, session, recorded)),
        _ => expect!(rt; false, "two sessions"),
    }
}

/// The first so many lines of the recording.
fn front(lines: usize) -> &'static [u8] {
    let mut place = 0usize;
    let mut ends = 0usize;
    for byte in RECORDED.bytes() {
        if ends == lines {
            break;
        }
        place = place.saturating_add(1);
        if byte == b'\n' {
            ends = ends.saturating_add(1);
        }
    }
    RECORDED.as_bytes().get(..place).unwrap_or(b"?")
}

/// Whether this is the line that memory is refused at: those before it are read, and this one isn't.
fn is_refused_at(heap: &LocalHeap, line: usize) -> bool {
    let Some(before) = line.checked_sub(1) else {
        return false;
    };
    read_session(&heap, front(before)).is_ok() && read_session(&heap, front(line)).is_err()
}

/// A recording that is read over a heap.
#[derive(Drop)]
struct Readings;

impl Calls for Readings {
    fn over(&self, heap: &LocalHeap) -> Result<Came, AllocError> {
        match read_session(&heap, RECORDED.as_bytes()) {
            Ok(session) => Ok(if session.acts.len() == 10 {
                Came::Done
            } else {
                Came::Wrong
            }),
            Err(bad) => Ok(if bad.reason == Wrong::Memory && is_refused_at(heap, bad.line) {
                Came::Refused
            } else {
                Came::Wrong
            }),
        }
    }
}

#[test]
fn refused_memory_is_no_shorter_session_and_names_its_line(
    rt: HostRuntime,
) -> Result<(), AllocError> {
    expect!(rt; is_refused_below_a_size(rt.alloc(), &Readings)?);
    Ok(())
}
