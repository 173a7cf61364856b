//! Modes of a Unix terminal: raw mode on and off, and the size of the window.
ghost use Rattle.std.specs.Prelude.{◌≡◌, ◌⊎◌, ◌<◌, ◌≤◌, ◌^◌, ◌-◌, ℕ, Option, Some, None, is_some, IfOk, IfErr, OnOk, OnErr, IsOk, IsOkAnd, IsTrue, Result};
ghost use Rattle.std.specs.Io.KnownBytes.{Appends};
ghost use Rattle.std.specs.Result.{result_map_both};
ghost use Rattle.std.specs.declared.io.Error.{Error};
ghost use Rattle.crossterm_command.specs.Writing.{AppendsFront};
ghost use Rattle.crossterm_types.specs.Timing.{IsFirst, KeepsFirst};
ghost use Rattle.crossterm_read.specs.Entries.{AsksKeyboard};
ghost use Rattle.crossterm_read.specs.PassViews.{knows};
ghost use Rattle.crossterm_read.specs.Shared.{IsPassOf};
ghost use Rattle.crossterm.specs.Asking.{InRawMode, InTwoSeconds, Queries, keyboard_query};
ghost use Rattle.crossterm.specs.Modes.{ModeCall, Modes, Refuses, SetsRaw, Sets, Sizes, SwitchesOff, SwitchesOn, Gets, any_call, window_size};
ghost use Rattle.crossterm.specs.declared.terminal.size.WindowSize.{WindowSize};

use crate::csi;
use crate::terminal::size::{WindowSize, tput_size};
use crossterm_command::write_text;
use crossterm_read::read::{EventReader, Pass};
use crossterm_read::source::{EventSource, RawFlag};
use crossterm_types::event::KeyboardEnhancementFlags;
use crossterm_types::event::timeout::Clock;
use std::alloc::{Allocator, Global};
use std::io;
use std::marker::Model;
use std::sync::Wait;
use std::time::Duration;

/// Switches a terminal's modes, and reports its size: what is here in the place of termios.
///
/// One that never fails, and claims no more of its calls, says which mode is set, by `ghost current = { λ device. device.mode };`, and
/// writes the calls. One that may fail counts its failures, and says so by `ghost failed = { λ device. device.failures };`.
pub trait ModeDevice: Drop {
    /// A mode, as it can be set again.
    type Mode: Drop;

    /// The mode that is set.
    ghost current: { Self → Self.Mode };

    /// From one state to another, it was called so and answered so: nothing, if it doesn't say more.
    ghost answered: { Self → ModeCall Self.Mode → Self → Type 0 } = { any_call };

    /// How often it failed: never, if it doesn't say more.
    ghost failed: { Self → ℕ } = { λ _. 0 };

    /// The mode that is set.
    ///
    /// # Errors
    ///
    /// The device's own, and then its failures have risen, unless no more can be counted.
    fn mode(&mut self) -> io::Result<Self::Mode>
        ensures mode { IfOk result (λ mode. mode ≡ current self.old) }
        ensures asked { answered self.old (Gets result) self.new }
        ensures rise { failed self.old ≤ failed self.new }
        ensures err { OnErr result (Refuses (failed self.old) (failed self.new)) };

    /// Sets the raw mode that a mode becomes: no echo, no lines, no signals by keys.
    ///
    /// # Errors
    ///
    /// The device's own, and then its failures have risen, unless no more can be counted.
    fn set_raw(&mut self, mode: &Self::Mode) -> io::Result<()>
        ensures asked { answered self.old (SetsRaw mode.now result) self.new }
        ensures rise { failed self.old ≤ failed self.new }
        ensures err { OnErr result (Refuses (failed self.old) (failed self.new)) };

    /// Sets a mode.
    ///
    /// # Errors
    ///
    /// The device's own, and then its failures have risen, unless no more can be counted.
    fn set_mode(&mut self, mode: &Self::Mode) -> io::Result<()>
        ensures mode { OnOk result (current self.new ≡ mode.now) }
        ensures asked { answered self.old (Sets mode.now result) self.new }
        ensures rise { failed self.old ≤ failed self.new }
        ensures err { OnErr result (Refuses (failed self.old) (failed self.new)) };

    /// How large the window is.
    ///
    /// # Errors
    ///
    /// The device's own, and then its failures have risen, unless no more can be counted.
    fn window_size(&mut self) -> io::Result<WindowSize>
        ensures asked { answered self.old (Sizes result) self.new }
        ensures rise { failed self.old ≤ failed self.new }
        ensures err { OnErr result (Refuses (failed self.old) (failed self.new)) };

    /// How often it failed.
    fn failures(&self) -> u64
        ensures { result ≡ failed self.now };
}

/// A terminal whose raw mode is switched on and off.
///
/// ```
/// let mut term = Terminal::new(modes, flag);
/// term.enable_raw_mode()?;
/// // ..
/// term.disable_raw_mode()?;
/// ```
#[derive(Drop)]
pub struct Terminal<D: ModeDevice, A: Allocator = Global> {
    device: D,
    // The mode that was set before raw mode was switched on, while it is on.
    prior: Option<D::Mode>,
    flag: RawFlag<A>,
}

impl<D: ModeDevice, A: Allocator> Model for Terminal<D, A> {
    ghost Value = { Modes D D.Mode };

    ghost view = { λ t. record { device = t.device; prior = t.prior } };
}

impl<D: ModeDevice, A: Allocator + Clone> Terminal<D, A> {
    /// A terminal that isn't in raw mode. The flag says from now on whether it is.
    pub fn new(device: D, flag: RawFlag<A>) -> Terminal<D, A>
        ensures device { result.device ≡ device }
        ensures prior { result.prior ≡ None }
    {
        Terminal {
            device,
            prior: None,
            flag,
        }
    }

    /// Whether raw mode is on.
    ///
    /// # Errors
    ///
    /// None: it is a `Result` as in crossterm.
    pub fn is_raw_mode_enabled(&self) -> io::Result<bool>
        ensures { IsOkAnd result (λ raw. raw ≡ is_some self.now.prior) }
    {
        Ok(self.prior.is_some())
    }

    /// Switches raw mode on, and keeps the mode that was set before. If it is on already, nothing is done.
    ///
    /// # Errors
    ///
    /// The device's. Then raw mode counts as off.
    pub fn enable_raw_mode(&mut self) -> io::Result<()>
        ensures already { IsTrue (is_some self.old.prior) → IsOk result × (self.new ≡ self.old) }
        ensures ok { OnOk result (self.old.prior ≡ None → self.new.prior ≡ Some (D.current self.old.device)) }
        ensures asked { self.old.prior ≡ None → SwitchesOn D.answered self.old result self.new }
        ensures refused { OnErr result (self.new.prior ≡ None) }
        ensures rise { D.failed self.old.device ≤ D.failed self.new.device }
        ensures err { OnErr result (Refuses (D.failed self.old.device) (D.failed self.new.device)) }
    {
        if self.prior.is_some() {
            return Ok(());
        }
        let mode = match self.device.mode() {
            Ok(mode) => mode,
            Err(error) => return Err(error),
        };
        match self.device.set_raw(&mode) {
            Ok(()) => {
                self.flag.set(true);
                self.prior = Some(mode);
                Ok(())
            }
            Err(error) => Err(error),
        }
    }

    /// Sets the mode that was set before raw mode. If raw mode isn't on, nothing is done.
    ///
    /// # Errors
    ///
    /// The device's. Then raw mode counts as on, as before.
    pub fn disable_raw_mode(&mut self) -> io::Result<()>
        ensures already { self.old.prior ≡ None → IsOk result × (self.new ≡ self.old) }
        ensures prior { OnOk result (self.new.prior ≡ None) }
        ensures ok { OnOk result (IsTrue (is_some self.old.prior) → Some (D.current self.new.device) ≡ self.old.prior) }
        ensures asked { IsTrue (is_some self.old.prior) → SwitchesOff D.answered self.old result self.new }
        ensures refused { OnErr result (self.new.prior ≡ self.old.prior) }
        ensures rise { D.failed self.old.device ≤ D.failed self.new.device }
        ensures err { OnErr result (Refuses (D.failed self.old.device) (D.failed self.new.device)) }
    {
        match &self.prior {
            Some(mode) => match self.device.set_mode(mode) {
                Ok(()) => {
                    self.flag.set(false);
                    self.prior = None;
                    Ok(())
                }
                Err(error) => Err(error),
            },
            None => Ok(()),
        }
    }

    /// How large the window is.
    ///
    /// # Errors
    ///
    /// The device's.
    pub fn window_size(&mut self) -> io::Result<WindowSize>
        ensures asked { D.answered self.old.device (Sizes result) self.new.device }
        ensures prior { self.new.prior ≡ self.old.prior }
        ensures rise { D.failed self.old.device ≤ D.failed self.new.device }
        ensures err { OnErr result (Refuses (D.failed self.old.device) (D.failed self.new.device)) }
    {
        self.device.window_size()
    }

    /// How many columns and rows the window has. If the device doesn't report that, they are read from `columns` and `lines`: what
    /// `tput cols` and `tput lines` wrote.
    ///
    /// # Errors
    ///
    /// The device's, if `columns` and `lines` don't hold a size either.
    ///
    /// ```
    /// let (columns, rows) = term.size(b"", b"")?;
    /// ```
    pub fn size(&mut self, columns: &[u8], lines: &[u8]) -> io::Result<(u16, u16)>
        ensures size { (got : Result WindowSize Error) × D.answered self.old.device (Sizes got) self.new.device × (result ≡ window_size got columns.now lines.now) }
        ensures prior { self.new.prior ≡ self.old.prior }
        ensures rise { D.failed self.old.device ≤ D.failed self.new.device }
        ensures err { OnErr result (Refuses (D.failed self.old.device) (D.failed self.new.device)) }
    {
        match self.device.window_size() {
            Ok(size) => Ok((size.columns, size.rows)),
            Err(error) => match tput_size(columns, lines) {
                Some(size) => Ok(size),
                None => Err(error),
            },
        }
    }
}

// How many milliseconds a query waits for its reply.
pub(crate) const QUERY_MILLIS: u64 = 2000;

// Writes a query's text, and flushes.
pub(crate) fn send_query<W: io::Write>(out: &mut W, text: &str) -> io::Result<()>
    ensures ok { OnOk result (Appends (W.contents out.old) (W.contents out.new) text.now) }
    ensures err { OnErr result (AppendsFront (W.contents out.old) (W.contents out.new) text.now) }
{
    match write_text(out, text) {
        Ok(()) => out.flush(),
        Err(error) => Err(error),
    }
}

/// Whether the terminal knows the keyboard protocol: whether `query_keyboard_enhancement_flags` gives flags.
///
/// # Errors
///
/// Those of `query_keyboard_enhancement_flags`.
///
/// ```
/// if supports_keyboard_enhancement(&rt, &mut term, &reader, &mut pass, &mut out, &mut clock)? {
///     execute!(out, colors, PushKeyboardEnhancementFlags(flags))?;
/// }
/// ```
pub fn supports_keyboard_enhancement<
    S: EventSource<A>,
    A: Allocator + Clone,
    D: ModeDevice,
    B: Allocator + Clone,
    W: io::Write,
    C: Clock,
    R: Wait,
>(
    rt: &R,
    term: &mut Terminal<D, B>,
    reader: &EventReader<S, A>,
    pass: &mut Pass<S, A>,
    out: &mut W,
    clock: &mut C,
) -> io::Result<bool>
    requires { IsPassOf reader.now pass.old }
    ensures pass { IsPassOf reader.now pass.new }
    ensures query { (flags : Result (Option KeyboardEnhancementFlags) Error) × (result_map_both is_some (λ e. e) flags ≡ result)
        × InRawMode D.current D.answered D.failed term.old term.new ((W.contents out.new ≡ W.contents out.old) × (knows pass.new ≡ knows pass.old))
        (Queries (W.contents out.old) (W.contents out.new) keyboard_query (knows pass.new ≡ knows pass.old) (λ r. InTwoSeconds (λ limit. AsksKeyboard S.drawn S.asked limit (IsFirst C.latest C.began clock.old clock.new) (C.latest clock.new) (knows pass.old) (knows pass.new) r))) flags }
    ensures later { C.latest clock.old ≤ C.latest clock.new }
    ensures first { KeepsFirst C.began clock.old clock.new }
{
    match query_keyboard_enhancement_flags(rt, term, reader, pass, out, clock) {
        Ok(flags) => Ok(flags.is_some()),
        Err(error) => Err(error),
    }
}

/// The flags of the keyboard protocol that are set (kitty keyboard, `CSI ? u`), or `None` if the terminal doesn't know it.
///
/// It writes the query and after it one for the terminal's attributes (DA `CSI c`: ECMA-48, 8.3.24), which every terminal answers, flushes,
/// and waits 2000 ms for the first of both replies. After the flags it waits as long again for the attributes. Replies are taken, and all
/// other events are held. If the terminal isn't in raw mode, that is switched on before and off after.
///
/// # Errors
///
/// The device's if a switch was refused, in place of all else. The writer's if the query couldn't be written. `Other` if no reply came in
/// time, if other threads had the reader until then, and after a wake-up. Else the source's.
pub fn query_keyboard_enhancement_flags<
    S: EventSource<A>,
    A: Allocator + Clone,
    D: ModeDevice,
    B: Allocator + Clone,
    W: io::Write,
    C: Clock,
    R: Wait,
>(
    rt: &R,
    term: &mut Terminal<D, B>,
    reader: &EventReader<S, A>,
    pass: &mut Pass<S, A>,
    out: &mut W,
    clock: &mut C,
) -> io::Result<Option<KeyboardEnhancementFlags>>
    requires { IsPassOf reader.now pass.old }
    ensures pass { IsPassOf reader.now pass.new }
    ensures query { InRawMode D.current D.answered D.failed term.old term.new ((W.contents out.new ≡ W.contents out.old) × (knows pass.new ≡ knows pass.old))
        (Queries (W.contents out.old) (W.contents out.new) keyboard_query (knows pass.new ≡ knows pass.old) (λ r. InTwoSeconds (λ limit. AsksKeyboard S.drawn S.asked limit (IsFirst C.latest C.began clock.old clock.new) (C.latest clock.new) (knows pass.old) (knows pass.new) r))) result }
    ensures later { C.latest clock.old ≤ C.latest clock.new }
    ensures first { KeepsFirst C.began clock.old clock.new }
{
    if term.is_raw_mode_enabled()? {
        return flags_raw(rt, term, reader, pass, out, clock);
    }
    match term.enable_raw_mode() {
        Ok(()) => {}
        Err(error) => return Err(error),
    }
    let flags = flags_raw(rt, term, reader, pass, out, clock);
    match term.disable_raw_mode() {
        Ok(()) => flags,
        Err(error) => Err(error),
    }
}

// The flags of the keyboard protocol. The terminal is in raw mode then.
fn flags_raw<
    S: EventSource<A>,
    A: Allocator + Clone,
    D: ModeDevice,
    B: Allocator + Clone,
    W: io::Write,
    C: Clock,
    R: Wait,
>(
    rt: &R,
    _term: &Terminal<D, B>,
    reader: &EventReader<S, A>,
    pass: &mut Pass<S, A>,
    out: &mut W,
    clock: &mut C,
) -> io::Result<Option<KeyboardEnhancementFlags>>
    requires raw { IsTrue (is_some _term.now.prior) }
    requires pass { IsPassOf reader.now pass.old }
    ensures pass { IsPassOf reader.now pass.new }
    ensures query { Queries (W.contents out.old) (W.contents out.new) keyboard_query (knows pass.new ≡ knows pass.old) (λ r. InTwoSeconds (λ limit. AsksKeyboard S.drawn S.asked limit (IsFirst C.latest C.began clock.old clock.new) (C.latest clock.new) (knows pass.old) (knows pass.new) r)) result }
    ensures later { C.latest clock.old ≤ C.latest clock.new }
    ensures first { KeepsFirst C.began clock.old clock.new }
{
    match send_query(out, csi!("?u", "\x1b[c")) {
        Ok(()) => {
            let limit = Duration::from_millis(QUERY_MILLIS);
            reader.keyboard_by(rt, pass, limit, clock)
        }
        Err(error) => Err(error),
    }
}
