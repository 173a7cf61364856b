//! Queries of a terminal: what they write, in which mode they ask, in which order, and what they answer.

use crate::noted::{Call, Noted, note_digit, terminal_by};
use crate::queries::Given::{Idle, Raw, TimedOut, Woken};
use crate::witness::Witness;
use crossterm::cursor::position;
use crossterm::event::KeyboardEnhancementFlags;
use crossterm::event::source::{Act, DeviceSource, RawFlag, Script};
use crossterm::terminal::{
    Terminal, query_keyboard_enhancement_flags, supports_keyboard_enhancement,
};
use std::alloc::{AllocError, Global};
use std::io::{self, ErrorKind, Write};
use std::sync::Wait;
use std::sync::atomic::{AtomicU32, Ordering};
use std::time::Duration;
use test_support::{Seat, Still, alone, expect, script_of};

/// What a script reports.
#[derive(Clone, Copy)]
enum Given {
    /// A text in raw mode.
    Raw(&'static [u8]),
    Idle,
    Woken,
    /// A fault of this kind.
    TimedOut,
}

/// The act of a script that reports this.
fn act_of(alloc: Global, given: Given) -> Result<Act, AllocError> {
    Ok(match given {
        Raw(text) => Act::Piece {
            bytes: Vec::from_slice(alloc, text)?,
            raw: true,
        },
        Idle => Act::Idle,
        Woken => Act::Woken,
        TimedOut => Act::Fault(ErrorKind::TimedOut),
    })
}

/// The acts of a script.
fn acts_of(alloc: Global, script: &[Given]) -> Result<Vec<Act>, AllocError> {
    let mut acts = Vec::new(alloc);
    for given in script {
        acts.push(act_of(alloc, *given)?)?;
    }
    Ok(acts)
}

/// The source of a script.
type Source = DeviceSource<Script>;

/// A shared reader over a script, and its only pass.
fn seat_at<R: Wait>(rt: &R, alloc: Global, script: &[Given]) -> io::Result<Seat<Source>> {
    alone(rt, alloc, script_of(alloc, acts_of(alloc, script)?))
}

/// A writer that notes its calls beside those of a device of modes: 5 a write, 6 a flush.
#[derive(Drop)]
struct Noting<'a> {
    calls: &'a AtomicU32,
    witness: Witness,
}

impl Write for Noting<'_> {
    fn write(&mut self, buf: &[u8]) -> io::Result<usize> {
        note_digit(self.calls, 5);
        self.witness.write(buf)
    }

    fn flush(&mut self) -> io::Result<()> {
        note_digit(self.calls, 6);
        self.witness.flush()
    }
}

/// A query.
#[derive(Clone, Copy)]
enum Query {
    /// The cursor's place.
    Place,
    /// The flags of the keyboard.
    Flags,
    /// Whether the keyboard has flags, asked in a terminal that is raw already.
    Support,
}

/// What a query answers.
#[derive(Clone, Copy, PartialEq)]
enum Answer {
    /// A column and a row.
    At(u16, u16),
    /// Flags, by their number, or none.
    Flags(Option<u8>),
    /// Whether there are flags.
    Known(bool),
    /// A fault.
    Failed(ErrorKind),
}

/// What a query for the place answers.
fn placed(place: io::Result<(u16, u16)>) -> Answer {
    match place {
        Ok((column, row)) => Answer::At(column, row),
        Err(error) => Answer::Failed(error.kind()),
    }
}

/// What a query for the flags answers.
fn flagged(flags: io::Result<Option<KeyboardEnhancementFlags>>) -> Answer {
    match flags {
        Ok(Some(flags)) => Answer::Flags(Some(flags.bits())),
        Ok(None) => Answer::Flags(None),
        Err(error) => Answer::Failed(error.kind()),
    }
}

/// What a query for support answers.
fn known(support: io::Result<bool>) -> Answer {
    match support {
        Ok(support) => Answer::Known(support),
        Err(error) => Answer::Failed(error.kind()),
    }
}

/// What a query answers, and whether the terminal is raw then.
fn answer_of<R: Wait>(
    rt: &R,
    query: Query,
    mut term: Terminal<Noted<'_>>,
    seat: &mut Seat<Source>,
    out: &mut Noting<'_>,
) -> (Answer, bool) {
    let (shared, pass) = (&seat.shared, &mut seat.pass);
    let answer = match query {
        Query::Place => placed(position(rt, &mut term, shared, pass, out, &mut Still)),
        Query::Flags => flagged(query_keyboard_enhancement_flags(
            rt, &mut term, shared, pass, out, &mut Still,
        )),
        Query::Support => match term.enable_raw_mode() {
            Ok(()) => known(supports_keyboard_enhancement(
                rt, &mut term, shared, pass, out, &mut Still,
            )),
            Err(error) => Answer::Failed(error.kind()),
        },
    };
    (answer, matches!(term.is_raw_mode_enabled(), Ok(true)))
}

/// A query, the script, the call of the device of modes that is refused, and how many bytes the writer takes before it fails.
type Asked = (Query, &'static [Given], Option<Call>, usize);

/// The answer; the calls of the device of modes and of the writer, by their digits; whether the terminal is raw then; the number of what was
/// taken last; and what was written.
type Met = (Answer, u32, bool, Option<u64>, &'static [u8]);

/// Whether a query with this flag, at this seat, comes to what it must.
fn is_met<R: Wait>(
    rt: &R,
    alloc: Global,
    flag: RawFlag,
    mut seat: Seat<Source>,
    (asked, met): &(Asked, Met),
) -> bool {
    let calls = AtomicU32::new(0);
    let term = terminal_by(flag, &calls, asked.2);
    let mut out = Noting {
        calls: &calls,
        witness: Witness::new(alloc, asked.3, ErrorKind::BrokenPipe),
    };
    let (answer, is_raw) = answer_of(rt, asked.0, term, &mut seat, &mut out);
    answer == met.0
        && calls.load(Ordering::SeqCst) == met.1
        && is_raw == met.2
        && seat.pass.last() == met.3
        && out.witness.has(met.4)
}

/// Whether a row is right.
fn holds<R: Wait>(rt: &R, alloc: Global, row: &(Asked, Met)) -> io::Result<bool> {
    let seat = seat_at(rt, alloc, row.0.1)?;
    Ok(is_met(rt, alloc, RawFlag::new(alloc)?, seat, row))
}

const REPLIES: Given = Raw(b"\x1b[20;10R\x1b[?1u\x1b[?62c");

/// A report of the first row and the second column, as xterm writes Shift-F3.
const SHIFT_F3: Given = Raw(b"\x1b[1;2R");

const PLACE: &[u8] = b"\x1b[6n";

const KEYBOARD: &[u8] = b"\x1b[?u\x1b[c";

const DENIED: Answer = Answer::Failed(ErrorKind::PermissionDenied);

const OTHER: Answer = Answer::Failed(ErrorKind::Other);

const BROKEN: Answer = Answer::Failed(ErrorKind::BrokenPipe);

/// A writer that takes all.
const ALL: usize = usize::MAX;

/// The digits are 1 for the mode that is asked for, 2 for raw mode, 3 for the mode from before, 5 for a write and 6 for a flush.
static ROWS: [(Asked, Met); 18] = [
    (
        (Query::Place, &[Idle, REPLIES], None, ALL),
        (Answer::At(9, 19), 12563, false, Some(0), PLACE),
    ),
    // A refused switch is the answer: before the query nothing is written, and after it the reply was taken and the terminal is raw.
    (
        (Query::Place, &[Idle, REPLIES], Some(Call::SetRaw), ALL),
        (DENIED, 12, false, None, b""),
    ),
    (
        (Query::Place, &[Idle, REPLIES], Some(Call::SetMode), ALL),
        (DENIED, 12563, true, Some(0), PLACE),
    ),
    // A refused switch back is answered in place of what the query was.
    (
        (Query::Place, &[Woken, REPLIES], Some(Call::SetMode), ALL),
        (DENIED, 12563, true, None, PLACE),
    ),
    // A wake-up and a fault end the query, each as what it is.
    (
        (Query::Place, &[Woken, REPLIES], None, ALL),
        (OTHER, 12563, false, None, PLACE),
    ),
    (
        (Query::Place, &[TimedOut, REPLIES], None, ALL),
        (
            Answer::Failed(ErrorKind::TimedOut),
            12563,
            false,
            None,
            PLACE,
        ),
    ),
    // A writer that fails is answered, with nothing asked: at the end it is the flush that fails.
    (
        (Query::Place, &[Idle, REPLIES], None, 0),
        (BROKEN, 1253, false, None, b""),
    ),
    (
        (Query::Place, &[Idle, REPLIES], None, 1),
        (BROKEN, 12553, false, None, b"\x1b"),
    ),
    (
        (Query::Place, &[Idle, REPLIES], None, 2),
        (BROKEN, 12553, false, None, b"\x1b["),
    ),
    (
        (Query::Place, &[Idle, REPLIES], None, 3),
        (BROKEN, 12553, false, None, b"\x1b[6"),
    ),
    (
        (Query::Place, &[Idle, REPLIES], None, 4),
        (BROKEN, 12563, false, None, PLACE),
    ),
    // A report that came before the query is its answer.
    (
        (Query::Place, &[SHIFT_F3, REPLIES], None, ALL),
        (Answer::At(1, 0), 12563, false, Some(0), PLACE),
    ),
    (
        (Query::Flags, &[Idle, REPLIES], None, ALL),
        (Answer::Flags(Some(1)), 12563, false, Some(2), KEYBOARD),
    ),
    (
        (Query::Flags, &[Idle, REPLIES], Some(Call::SetRaw), ALL),
        (DENIED, 12, false, None, b""),
    ),
    (
        (Query::Flags, &[Woken, REPLIES], Some(Call::SetMode), ALL),
        (DENIED, 12563, true, None, KEYBOARD),
    ),
    (
        (Query::Flags, &[Idle, Raw(b"\x1b[?62c")], None, ALL),
        (Answer::Flags(None), 12563, false, Some(0), KEYBOARD),
    ),
    // Attributes alone mean that there are no flags. The mode of a terminal that is raw stays.
    (
        (Query::Support, &[Idle, Raw(b"\x1b[?62c")], None, ALL),
        (Answer::Known(false), 1256, true, Some(0), KEYBOARD),
    ),
    (
        (Query::Support, &[Idle, REPLIES], None, ALL),
        (Answer::Known(true), 1256, true, Some(2), KEYBOARD),
    ),
];

#[test]
fn a_query_is_written_in_raw_mode(rt: HostRuntime) -> io::Result<()> {
    for row in &ROWS {
        expect!(rt; holds(&rt, rt.alloc(), row)?);
    }
    Ok(())
}

/// What a query for the place that reads nothing further answers.
fn place_there<R: Wait>(rt: &R, seat: &mut Seat<Source>) -> Answer {
    let (shared, pass) = (&seat.shared, &mut seat.pass);
    placed(shared.position_by(rt, pass, Duration::ZERO, &mut Still))
}

/// Whether one report that waits is taken, and no other, and a query answers the true place then.
fn is_reported_after<R: Wait>(
    rt: &R,
    alloc: Global,
    flag: RawFlag,
    mut seat: Seat<Source>,
) -> bool {
    let stale = place_there(rt, &mut seat) == Answer::At(1, 0);
    let none = place_there(rt, &mut seat) == OTHER;
    let row = (
        (Query::Place, &[] as &[Given], None, ALL),
        (Answer::At(9, 19), 12563, false, Some(1), PLACE),
    );
    stale && none && is_met(rt, alloc, flag, seat, &row)
}

#[test]
fn reports_from_before_a_query_can_be_taken(rt: HostRuntime) -> io::Result<()> {
    let flag = RawFlag::new(rt.alloc())?;
    let seat = seat_at(&rt, rt.alloc(), &[SHIFT_F3, Idle, REPLIES])?;
    expect!(rt; is_reported_after(&rt, rt.alloc(), flag, seat));
    Ok(())
}
