//! The cursor's place, as a Unix terminal replies it.
ghost use Rattle.std.specs.Prelude.{◌≡◌, ◌⊎◌, ◌≤◌, ◌<◌, List, IfErr, IsTrue, is_some};
ghost use Rattle.std.specs.IoError.{error_kind};
ghost use Rattle.std.specs.declared.io.ErrorKind.TheVariants.{Other};
ghost use Rattle.crossterm.specs.Asking.{InRawMode, InTwoSeconds, Queries, position_query};
ghost use Rattle.crossterm_types.specs.Admitting.{is_cursor_position};
ghost use Rattle.crossterm_types.specs.Timing.{IsFirst, KeepsFirst};
ghost use Rattle.crossterm_read.specs.Answers.{IsOwn, SourceAnswer};
ghost use Rattle.crossterm_read.specs.Device.{AsksAtOnce};
ghost use Rattle.crossterm_read.specs.Entries.{AsksPosition};
ghost use Rattle.crossterm_read.specs.Queries.{QueryStep};
ghost use Rattle.crossterm_read.specs.Replies.{Replied, position_said, shown};
ghost use Rattle.crossterm_read.specs.PassViews.{knows};
ghost use Rattle.crossterm_read.specs.Shared.{IsPassOf};
ghost use Rattle.crossterm_read.specs.Steps.{RefusedOnlyWithoutRoom, UpTo};
ghost use Rattle.crossterm_read.specs.Store.{reader_capacity};

use crate::csi;
use crate::terminal::sys::unix::{ModeDevice, QUERY_MILLIS, Terminal, send_query};
use crossterm_read::read::{EventReader, InternalEventReader, Pass};
use crossterm_read::source::EventSource;
use crossterm_types::event::timeout::Clock;
use std::alloc::Allocator;
use std::io;
use std::sync::Wait;
use std::time::Duration;

/// The cursor's column and row, from 0, by the first reply that reports them, after so many questions to the source at most.
///
/// It writes nothing: who asks the terminal (DSR `CSI 6 n`: ECMA-48, 8.3.35) did so before. The reply is taken, and all other events are held.
///
/// # Errors
///
/// `Other` if no reply came within the tries, or the source was woken; else that of `InternalEventReader::poll_within`.
pub fn position_within<S: EventSource<A>, A: Allocator + Clone>(
    reader: &mut InternalEventReader<S, A>,
    tries: u32,
) -> io::Result<(u16, u16)>
    ensures step { (zs : List SourceAnswer) × (r : Replied) × S.drawn reader.old.source zs reader.new.source
        × QueryStep is_cursor_position (UpTo tries) zs reader.old.store reader.new.store r × (position_said result ≡ shown r)
        × IfErr result (λ e. RefusedOnlyWithoutRoom reader.old.room zs (error_kind e)) }
    ensures at_once { AsksAtOnce (S.asked reader.old.source) (S.asked reader.new.source) }
    ensures room { reader_capacity reader.old ≤ reader_capacity reader.new }
    ensures rise { S.failed reader.old.source ≤ S.failed reader.new.source }
    ensures err { IfErr result (λ e. (error_kind e ≡ Other) ⊎ IsOwn (error_kind e) ⊎ (S.failed reader.old.source < S.failed reader.new.source)) }
{
    reader.position_within(tries)
}

/// The cursor's column and row, from 0 (DSR `CSI 6 n`: ECMA-48, 8.3.35).
///
/// It writes the query, flushes, and waits 2000 ms for the reply, which it takes; one that was held already is taken first. All other
/// events are held. If the terminal isn't in raw mode, that is switched on before and off after.
///
/// ```
/// let (column, row) = cursor::position(&rt, &mut term, &reader, &mut pass, &mut out, &mut clock)?;
/// ```
///
/// # Errors
///
/// The device's if a switch was refused, in place of all else. The writer's if the query couldn't be written. `Other` if no reply came in
/// time, if other threads had the reader until then, and after a wake-up. Else the source's.
pub fn position<
    S: EventSource<A>,
    A: Allocator + Clone,
    D: ModeDevice,
    B: Allocator + Clone,
    W: io::Write,
    C: Clock,
    R: Wait,
>(
    rt: &R,
    term: &mut Terminal<D, B>,
    reader: &EventReader<S, A>,
    pass: &mut Pass<S, A>,
    out: &mut W,
    clock: &mut C,
) -> io::Result<(u16, u16)>
    requires { IsPassOf reader.now pass.old }
    ensures pass { IsPassOf reader.now pass.new }
    ensures query { InRawMode D.current D.answered D.failed term.old term.new ((W.contents out.new ≡ W.contents out.old) × (knows pass.new ≡ knows pass.old))
        (Queries (W.contents out.old) (W.contents out.new) position_query (knows pass.new ≡ knows pass.old) (λ r. InTwoSeconds (λ limit. AsksPosition S.drawn S.asked limit (IsFirst C.latest C.began clock.old clock.new) (C.latest clock.new) (knows pass.old) (knows pass.new) r))) result }
    ensures later { C.latest clock.old ≤ C.latest clock.new }
    ensures first { KeepsFirst C.began clock.old clock.new }
{
    if term.is_raw_mode_enabled()? {
        return position_raw(rt, term, reader, pass, out, clock);
    }
    match term.enable_raw_mode() {
        Ok(()) => {}
        Err(error) => return Err(error),
    }
    let place = position_raw(rt, term, reader, pass, out, clock);
    match term.disable_raw_mode() {
        Ok(()) => place,
        Err(error) => Err(error),
    }
}

// The cursor's place. The terminal is in raw mode then.
fn position_raw<
    S: EventSource<A>,
    A: Allocator + Clone,
    D: ModeDevice,
    B: Allocator + Clone,
    W: io::Write,
    C: Clock,
    R: Wait,
>(
    rt: &R,
    _term: &Terminal<D, B>,
    reader: &EventReader<S, A>,
    pass: &mut Pass<S, A>,
    out: &mut W,
    clock: &mut C,
) -> io::Result<(u16, u16)>
    requires raw { IsTrue (is_some _term.now.prior) }
    requires pass { IsPassOf reader.now pass.old }
    ensures pass { IsPassOf reader.now pass.new }
    ensures query { Queries (W.contents out.old) (W.contents out.new) position_query (knows pass.new ≡ knows pass.old) (λ r. InTwoSeconds (λ limit. AsksPosition S.drawn S.asked limit (IsFirst C.latest C.began clock.old clock.new) (C.latest clock.new) (knows pass.old) (knows pass.new) r)) result }
    ensures later { C.latest clock.old ≤ C.latest clock.new }
    ensures first { KeepsFirst C.began clock.old clock.new }
{
    match send_query(out, csi!("6n")) {
        Ok(()) => {
            let limit = Duration::from_millis(QUERY_MILLIS);
            reader.position_by(rt, pass, limit, clock)
        }
        Err(error) => Err(error),
    }
}
