//! A terminal with its events, and the writer of a program.

ghost use Rattle.std.specs.Prelude.{◌≡◌, ◌≤◌, ◌⊎◌, ◌++◌, ◌∷◌, [], ℕ, All, IfErr, IfOk, IsOk, IsTrue, None, OnErr, OnOk, Option, Result, Some, is_some, length, map};
ghost use Rattle.std.specs.IoError.{error_kind};
ghost use Rattle.std.specs.Io.KnownBytes.{Appends, Keeps};
ghost use Rattle.std.specs.Result.{result_map_both};
ghost use Rattle.std.specs.declared.io.Error.{Error};
ghost use Rattle.std.specs.declared.io.ErrorKind.TheVariants.{OutOfMemory};
ghost use Rattle.crossterm_types.specs.declared.event.filter.AnyFilter.TheVariants as filters;
ghost use Rattle.crossterm_types.specs.Timing.{IsFirst, KeepsFirst};
ghost use Rattle.crossterm_read.specs.Entries.{AsksKeyboard, AsksPosition, Polls, Reads, ReadsFor};
ghost use Rattle.crossterm_read.specs.History.{Known};
ghost use Rattle.crossterm_read.specs.Replies.{event_said};
ghost use Rattle.crossterm_read.specs.PassViews.{knows};
ghost use Rattle.crossterm_read.specs.Shared.{IsPassOf, IsShareOf};
ghost use Rattle.crossterm_read.specs.Sources.{Source};
ghost use Rattle.crossterm_command.specs.Tokens.{text_of};
ghost use Rattle.crossterm_command.specs.Writing.{AppendsFront};
ghost use Rattle.crossterm.specs.Asking.{InRawMode, InTwoSeconds, Queries, keyboard_query, position_query};
ghost use Rattle.crossterm.specs.Modes.{Refuses, Sizes, SwitchesOff, SwitchesOn};
ghost use Rattle.crossterm.specs.declared.terminal.size.WindowSize.{WindowSize};
ghost use Rattle.own_terminal.specs.Features.{EndsOffered, IsLastAt, Lacks, LosesLast, all_switched_off, switches_off, switches_on};
ghost use Rattle.own_terminal.specs.Sessions.{BeginsAt, BeginsOver, BeginsShared, EndsRaw};

use crate::events::{Events, share_out};
use crate::feature::{Feature, last_of, switch_off_flushed};
use crate::{Input, open};
use crossterm::cursor;
use crossterm::event::read::InternalEventReader;
use crossterm::event::source::{Device, DeviceSource, EventSource, Waker};
use crossterm::event::timeout::Clock;
use crossterm::event::{Event, EventReader, EventStream, KeyboardEnhancementFlags, Pass};
use crossterm::terminal::{ModeDevice, SttyDevice, Terminal, supports_keyboard_enhancement};
use std::alloc::Global;
use std::fs::{File, Files};
use std::io::{self, ErrorKind, Stdin, Write};
use std::net::Net;
use std::sync::Wait;
use std::thread::Threads;
use std::time::Duration;

/// A terminal, its events, its writer, and the clock that limits are measured by.
///
/// When it is dropped, what was turned on is turned off, the last one first, and raw mode ends.
pub struct Session<S: EventSource<Global>, D: ModeDevice, W: Write + Drop, C: Clock + Drop> {
    /// The allocator of texts.
    pub alloc: Global,
    /// The terminal's modes.
    pub term: Terminal<D>,
    /// The terminal's events.
    pub reader: EventReader<S>,
    /// The pass that they are read by.
    pub pass: Pass<S>,
    /// The writer. What is written arrives when it is flushed, as `execute!` does.
    pub out: W,
    /// The clock.
    pub clock: C,
    // What is turned on.
    features: Vec<Feature>,
    pub ghost own: { IsPassOf reader pass },
}

/// The session over a device, and further shares of its events.
pub type WithShares<I, D, W, C> = (
    Session<DeviceSource<I>, D, W, C>,
    Vec<Events<DeviceSource<I>>>,
);

/// The session over a device, and a stream of its events.
pub type WithStream<I, D, W, C, R> = (
    Session<DeviceSource<I>, D, W, C>,
    EventStream<DeviceSource<I>, R>,
);

impl<S: EventSource<Global>, D: ModeDevice, W: Write + Drop, C: Clock + Drop> Drop
    for Session<S, D, W, C> {
    fn drop(mut self) {
        let _ = self.leave();
        let Session {
            alloc: _,
            term: _,
            reader: _,
            pass: _,
            out: _,
            clock: _,
            features: _,
        } = self;
    }
}

/// A reader over a source, and its only pass.
fn alone<S: EventSource<Global>, R: Wait>(
    rt: &R,
    alloc: Global,
    source: S,
) -> io::Result<(EventReader<S>, Pass<S>)>
    ensures pass { IfOk result (λ r. IsPassOf r.0 r.1) }
    ensures begins { IfOk result (λ r. BeginsAt source (knows r.1)) }
    ensures err { IfErr result (λ e. error_kind e ≡ OutOfMemory) }
{
    let reader = InternalEventReader::new(alloc, source);
    let (reader, mut passes) = EventReader::new(rt, alloc, reader, 1)?;
    match passes.pop() {
        Some(pass) => Ok((reader, pass)),
        None => unreachable!(),
    }
}

impl<W: Write + Drop, C: Clock + Drop> Session<DeviceSource<Input>, SttyDevice<File, File>, W, C> {
    /// Opens the terminal that the program was started in, as `open` does. What is written goes to `out`.
    ///
    /// # Errors
    ///
    /// Those of `open`, and `OutOfMemory`.
    pub fn open<R: Files<File = File> + Net + Wait>(
        rt: &R,
        alloc: Global,
        input: Stdin,
        folder: &str,
        out: W,
        clock: C,
    ) -> io::Result<Session<DeviceSource<Input>, SttyDevice<File, File>, W, C>>
        ensures out { IfOk result (λ s. s.out ≡ out) }
        ensures nothing { IfOk result (λ s. (s.features.items ≡ []) × (s.term.prior ≡ None)) }
    {
        let (device, term) = open(rt, alloc, input, folder)?;
        Session::over(rt, alloc, device, term, out, clock)
    }
}

impl<I: Device, D: ModeDevice, W: Write + Drop, C: Clock + Drop> Session<DeviceSource<I>, D, W, C> {
    /// The session of a terminal whose events are those of a device, as of a recorder over what `open` returns. It keeps a paste of any
    /// length; `over_source` bounds it.
    ///
    /// # Errors
    ///
    /// `OutOfMemory`.
    pub fn over<R: Wait>(
        rt: &R,
        alloc: Global,
        device: I,
        term: Terminal<D>,
        out: W,
        clock: C,
    ) -> io::Result<Session<DeviceSource<I>, D, W, C>>
        ensures parts { IfOk result (λ s. (s.term ≡ term) × (s.out ≡ out) × (s.clock ≡ clock) × (s.features.items ≡ [])) }
        ensures begins { IfOk result (λ s. BeginsOver device (knows s.pass)) }
        ensures err { IfErr result (λ e. error_kind e ≡ OutOfMemory) }
    {
        let source = DeviceSource::new(alloc, device);
        Session::over_source(rt, alloc, source, term, out, clock)
    }

    /// The same, with so many more shares of the events, for other threads.
    ///
    /// # Errors
    ///
    /// `OutOfMemory`.
    pub fn over_shared<R: Wait>(
        rt: &R,
        alloc: Global,
        device: I,
        term: Terminal<D>,
        out: W,
        clock: C,
        others: usize,
    ) -> io::Result<WithShares<I, D, W, C>>
        ensures parts { IfOk result (λ r. (r.0.term ≡ term) × (r.0.out ≡ out) × (r.0.clock ≡ clock) × (r.0.features.items ≡ [])) }
        ensures begins { IfOk result (λ r. BeginsShared device others (knows r.0.pass) (map (λ e. knows e.pass) r.1.items)) }
        ensures count { IfOk result (λ r. length r.1.items ≡ others) }
        ensures shared { IfOk result (λ r. All (λ e. IsShareOf e.reader r.0.reader) r.1.items) }
        ensures err { IfErr result (λ e. error_kind e ≡ OutOfMemory) }
    {
        let Some(count) = others.checked_add(1) else {
            return Err(io::Error::from(ErrorKind::OutOfMemory));
        };
        let source = DeviceSource::new(alloc, device);
        let reader = InternalEventReader::new(alloc, source);
        let (reader, passes) = EventReader::new(rt, alloc, reader, count)?;
        let mut shares = share_out(alloc, &reader, passes)?;
        match shares.pop() {
            Some(Events { reader, pass }) => Ok((
                Session {
                    alloc,
                    term,
                    reader,
                    pass,
                    out,
                    clock,
                    features: Vec::new(alloc),
                },
                shares,
            )),
            None => unreachable!(),
        }
    }

    /// The same, with a stream of the events.
    ///
    /// # Errors
    ///
    /// `OutOfMemory`, also if the stream's thread can't be started.
    pub fn over_streaming<R: Threads + Wait + Copy + Send + Drop + 'static>(
        rt: R,
        alloc: Global,
        device: I,
        term: Terminal<D>,
        out: W,
        clock: C,
    ) -> io::Result<WithStream<I, D, W, C, R>>
    where
        I: Send + 'static,
        ensures parts { IfOk result (λ r. (r.0.term ≡ term) × (r.0.out ≡ out) × (r.0.clock ≡ clock) × (r.0.features.items ≡ [])) }
        ensures begins { IfOk result (λ r. (worker : Known (Source I)) × BeginsShared device 2 (knows r.0.pass) (knows r.1.pass ∷ worker ∷ [])) }
        ensures shared { IfOk result (λ r. IsShareOf r.1.reader r.0.reader) }
        ensures err { IfErr result (λ e. error_kind e ≡ OutOfMemory) }
    {
        let (session, mut shares) = Session::over_shared(&rt, alloc, device, term, out, clock, 2)?;
        match (shares.pop(), shares.pop()) {
            (Some(other), Some(events)) => {
                let Events { reader, pass } = events;
                let stream = EventStream::new(rt, alloc, &reader, pass, other.pass)?;
                Ok((session, stream))
            }
            _ => unreachable!(),
        }
    }
}

impl<S: EventSource<Global>, D: ModeDevice, W: Write + Drop, C: Clock + Drop> Session<S, D, W, C> {
    /// The session of a terminal whose events are those of a source, as of one that bounds a paste. A longer one than the source keeps ends
    /// the session's events: each read is `OutOfMemory` from then on.
    ///
    /// # Errors
    ///
    /// `OutOfMemory`.
    ///
    /// ```
    /// let (device, term) = own_terminal::open(rt, alloc, rt.stdin(), folder)?;
    /// let source = DeviceSource::bounded(alloc, device, 1 << 20);
    /// let mut tty = Session::over_source(rt, alloc, source, term, out, SystemClock::new(rt))?;
    /// ```
    pub fn over_source<R: Wait>(
        rt: &R,
        alloc: Global,
        source: S,
        term: Terminal<D>,
        out: W,
        clock: C,
    ) -> io::Result<Session<S, D, W, C>>
        ensures parts { IfOk result (λ s. (s.term ≡ term) × (s.out ≡ out) × (s.clock ≡ clock) × (s.features.items ≡ [])) }
        ensures begins { IfOk result (λ s. BeginsAt source (knows s.pass)) }
        ensures err { IfErr result (λ e. error_kind e ≡ OutOfMemory) }
    {
        let (reader, pass) = alone(rt, alloc, source)?;
        Ok(Session {
            alloc,
            term,
            reader,
            pass,
            out,
            clock,
            features: Vec::new(alloc),
        })
    }

    /// The next event. This waits for it as long as it takes.
    ///
    /// # Errors
    ///
    /// `UnexpectedEof` at the end of input; the device's fault; `OutOfMemory`, also if a paste comes that is longer than the source keeps.
    /// No event is lost by any of them.
    ///
    /// ```
    /// match tty.read(rt)? {
    ///     Event::Key(key) => press(key)?,
    ///     Event::Resize(columns, rows) => resize(columns, rows)?,
    ///     _ => {}
    /// }
    /// ```
    pub fn read<R: Wait>(&mut self, rt: &R) -> io::Result<Event>
        ensures call { Reads S.drawn S.asked filters.Event (knows self.old.pass) (knows self.new.pass) (event_said result) }
        ensures others { (self.new.out ≡ self.old.out) × (self.new.term ≡ self.old.term) × (self.new.features ≡ self.old.features) }
    {
        self.reader.read(rt, &mut self.pass)
    }

    /// The next event, or `None` if none comes within this limit, or if the session is woken.
    ///
    /// # Errors
    ///
    /// Those of `read`.
    ///
    /// ```
    /// match tty.read_within(rt, Duration::from_millis(100))? {
    ///     Some(Event::Key(key)) => press(key)?,
    ///     Some(_) => {}
    ///     None => tty.out.write_all(b".")?,
    /// }
    /// ```
    pub fn read_within<R: Wait>(&mut self, rt: &R, limit: Duration) -> io::Result<Option<Event>>
        ensures call { ReadsFor S.drawn S.asked filters.Event (Some limit) (IsFirst C.latest C.began self.old.clock self.new.clock) (C.latest self.new.clock) (knows self.old.pass) (knows self.new.pass) result }
        ensures later { C.latest self.old.clock ≤ C.latest self.new.clock }
        ensures first { KeepsFirst C.began self.old.clock self.new.clock }
        ensures others { (self.new.out ≡ self.old.out) × (self.new.term ≡ self.old.term) × (self.new.features ≡ self.old.features) }
    {
        self.reader
            .read_for(rt, &mut self.pass, Some(limit), &mut self.clock)
    }

    /// Whether an event comes within this limit. The next `read` returns it at once.
    ///
    /// # Errors
    ///
    /// Those of `read`.
    ///
    /// ```
    /// if tty.poll(rt, Duration::from_millis(100))? {
    ///     let event = tty.read(rt)?;
    /// }
    /// ```
    pub fn poll<R: Wait>(&mut self, rt: &R, limit: Duration) -> io::Result<bool>
        ensures call { Polls S.drawn S.asked filters.Event (Some limit) (IsFirst C.latest C.began self.old.clock self.new.clock) (C.latest self.new.clock) (knows self.old.pass) (knows self.new.pass) result }
        ensures later { C.latest self.old.clock ≤ C.latest self.new.clock }
        ensures first { KeepsFirst C.began self.old.clock self.new.clock }
        ensures others { (self.new.out ≡ self.old.out) × (self.new.term ≡ self.old.term) × (self.new.features ≡ self.old.features) }
    {
        self.reader.poll(rt, &mut self.pass, limit, &mut self.clock)
    }

    /// A waker, by which another thread ends a `poll` with `false`, and a `read_within` with `None`.
    ///
    /// # Errors
    ///
    /// `OutOfMemory` if no further share of the waker can be made.
    ///
    /// ```
    /// let printer = Printer::new(alloc, tty.waker()?)?;
    /// ```
    pub fn waker(&self) -> io::Result<Waker>
        ensures err { IfErr result (λ e. error_kind e ≡ OutOfMemory) }
    {
        self.reader.waker()
    }

    /// The cursor's place, as column and row, both counted from 0. This asks the terminal, and waits two seconds at most.
    ///
    /// # Errors
    ///
    /// `Other` if no answer came in time; else those of `read` and of the writer.
    pub fn position<R: Wait>(&mut self, rt: &R) -> io::Result<(u16, u16)>
        ensures query { InRawMode D.current D.answered D.failed self.old.term self.new.term ((W.contents self.new.out ≡ W.contents self.old.out) × (knows self.new.pass ≡ knows self.old.pass))
            (Queries (W.contents self.old.out) (W.contents self.new.out) position_query (knows self.new.pass ≡ knows self.old.pass)
            (λ r. InTwoSeconds (λ limit. AsksPosition S.drawn S.asked limit (IsFirst C.latest C.began self.old.clock self.new.clock) (C.latest self.new.clock) (knows self.old.pass) (knows self.new.pass) r))) result }
        ensures others { self.new.features ≡ self.old.features }
    {
        cursor::position(
            rt,
            &mut self.term,
            &self.reader,
            &mut self.pass,
            &mut self.out,
            &mut self.clock,
        )
    }

    /// Whether the terminal has the kitty keyboard protocol, which `Feature::Keyboard` needs. This asks it, and waits four seconds at most.
    ///
    /// # Errors
    ///
    /// `Other` if no answer came in time; else those of `read` and of the writer.
    pub fn supports_keyboard_enhancement<R: Wait>(&mut self, rt: &R) -> io::Result<bool>
        ensures query { (flags : Result (Option KeyboardEnhancementFlags) Error) × (result_map_both is_some (λ e. e) flags ≡ result)
            × InRawMode D.current D.answered D.failed self.old.term self.new.term ((W.contents self.new.out ≡ W.contents self.old.out) × (knows self.new.pass ≡ knows self.old.pass))
            (Queries (W.contents self.old.out) (W.contents self.new.out) keyboard_query (knows self.new.pass ≡ knows self.old.pass)
            (λ r. InTwoSeconds (λ limit. AsksKeyboard S.drawn S.asked limit (IsFirst C.latest C.began self.old.clock self.new.clock) (C.latest self.new.clock) (knows self.old.pass) (knows self.new.pass) r))) flags }
        ensures others { self.new.features ≡ self.old.features }
    {
        supports_keyboard_enhancement(
            rt,
            &mut self.term,
            &self.reader,
            &mut self.pass,
            &mut self.out,
            &mut self.clock,
        )
    }

    /// How many columns and rows the window has. An `Event::Resize` reports each change.
    ///
    /// # Errors
    ///
    /// The helper's: `Other` if it doesn't know the size.
    pub fn size(&mut self) -> io::Result<(u16, u16)>
        ensures asked { (got : Result WindowSize Error) × D.answered self.old.term.device (Sizes got) self.new.term.device
            × (result ≡ result_map_both (λ size. (size.columns, size.rows)) (λ e. e) got) }
        ensures mode { self.new.term.prior ≡ self.old.term.prior }
        ensures others { (self.new.out ≡ self.old.out) × (self.new.pass ≡ self.old.pass) × (self.new.features ≡ self.old.features) }
    {
        match self.term.window_size() {
            Ok(size) => Ok((size.columns, size.rows)),
            Err(error) => Err(error),
        }
    }

    /// Switches raw mode on: keys come one by one, and aren't shown. It ends with the session.
    ///
    /// # Errors
    ///
    /// The helper's. Then raw mode counts as off. If the helper's answer alone was lost, the terminal may be in raw mode all the same.
    pub fn enable_raw_mode(&mut self) -> io::Result<()>
        ensures already { IsTrue (is_some self.old.term.prior) → IsOk result × (self.new.term ≡ self.old.term) }
        ensures ok { OnOk result (self.old.term.prior ≡ None → self.new.term.prior ≡ Some (D.current self.old.term.device)) }
        ensures asked { self.old.term.prior ≡ None → SwitchesOn D.answered self.old.term result self.new.term }
        ensures refused { OnErr result (self.new.term.prior ≡ None) }
        ensures others { (self.new.out ≡ self.old.out) × (self.new.pass ≡ self.old.pass) × (self.new.features ≡ self.old.features) }
    {
        self.term.enable_raw_mode()
    }

    /// Sets the mode from before raw mode.
    ///
    /// # Errors
    ///
    /// The helper's. Then raw mode counts as on, as before.
    pub fn disable_raw_mode(&mut self) -> io::Result<()>
        ensures off { OnOk result (self.new.term.prior ≡ None) }
        ensures mode { EndsRaw D.current D.answered self.old.term result self.new.term }
        ensures refused { OnErr result (self.new.term.prior ≡ self.old.term.prior) }
        ensures others { (self.new.out ≡ self.old.out) × (self.new.pass ≡ self.old.pass) × (self.new.features ≡ self.old.features) }
    {
        self.term.disable_raw_mode()
    }

    /// Turns something on in the terminal until the session ends.
    ///
    /// # Errors
    ///
    /// `OutOfMemory`, and nothing was written or listed. Else the writer's: a beginning was written, and the session's end turns it off.
    ///
    /// ```
    /// tty.enable_raw_mode()?;
    /// tty.turn_on(Feature::AlternateScreen)?;
    /// tty.turn_on(Feature::MouseCapture)?;
    /// ```
    pub fn turn_on(&mut self, feature: Feature) -> io::Result<()>
        ensures ok { OnOk result (Appends (W.contents self.old.out) (W.contents self.new.out) (text_of (switches_on feature))) }
        ensures err { OnErr result (AppendsFront (W.contents self.old.out) (W.contents self.new.out) (text_of (switches_on feature))) }
        ensures listed { OnOk result (self.new.features.items ≡ self.old.features.items ++ feature ∷ []) }
        ensures unlisted { IfErr result (λ e. (self.new.features.items ≡ self.old.features.items ++ feature ∷ [])
            ⊎ ((error_kind e ≡ OutOfMemory) × (self.new.features.items ≡ self.old.features.items) × (self.new.out ≡ self.old.out))) }
        ensures others { (self.new.term ≡ self.old.term) × (self.new.pass ≡ self.old.pass) }
    {
        match self.features.push(feature) {
            Ok(()) => feature.enter(&mut self.out),
            Err(error) => Err(io::Error::from(error)),
        }
    }

    /// Turns off what was turned on: the last one of its kind, whatever the flags of a keyboard. If there is none, nothing is written.
    ///
    /// # Errors
    ///
    /// The writer's: a beginning was written, and the session's end turns it off once more.
    ///
    /// ```
    /// tty.turn_off(Feature::MouseCapture)?;
    /// ```
    pub fn turn_off(&mut self, feature: Feature) -> io::Result<()>
        ensures ok { OnOk result ((LosesLast feature self.old.features.items self.new.features.items
            × Appends (W.contents self.old.out) (W.contents self.new.out) (text_of (switches_off feature)))
            ⊎ (Lacks feature self.old.features.items × (self.new.features ≡ self.old.features) × (self.new.out ≡ self.old.out))) }
        ensures err { OnErr result ((at : ℕ) × IsLastAt feature self.old.features.items at × (self.new.features ≡ self.old.features)
            × AppendsFront (W.contents self.old.out) (W.contents self.new.out) (text_of (switches_off feature))) }
        ensures others { (self.new.term ≡ self.old.term) × (self.new.pass ≡ self.old.pass) }
    {
        let Some(at) = last_of(&self.features, feature) else {
            return Ok(());
        };
        feature.leave(&mut self.out)?;
        self.features.remove(at);
        Ok(())
    }

    /// Turns all off that is turned on, the last one first, and ends raw mode, as the session's end does.
    ///
    /// # Errors
    ///
    /// The first of the writer's and the helper's. All is tried, whichever fails.
    pub fn leave(&mut self) -> io::Result<()>
        ensures none { self.new.features.items ≡ [] }
        ensures offered { EndsOffered self.old.features.items (W.contents self.old.out) (W.contents self.new.out) }
        ensures ok { OnOk result (Appends (W.contents self.old.out) (W.contents self.new.out) (all_switched_off self.old.features.items)) }
        ensures mode { (switched : Result (Unit {0}) Error) × EndsRaw D.current D.answered self.old.term switched self.new.term × OnOk result (IsOk switched) }
        ensures cooked { OnOk result (self.new.term.prior ≡ None) }
        ensures pass { self.new.pass ≡ self.old.pass }
    {
        let off = switch_off_flushed(&mut self.features, &mut self.out);
        let cooked = self.term.disable_raw_mode();
        off.and(cooked)
    }
}
