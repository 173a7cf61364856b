//! Raw mode on and off over a device of modes, and sizes.

ghost use Rattle.std.specs.Prelude.{◌≡◌, None, OnOk};

use crate::noted::{Call, Noted, SIZE, terminal_by};
use crossterm::event::source::RawFlag;
use crossterm::terminal::{ModeDevice, Terminal, WindowSize, tput_value};
use std::alloc::Global;
use std::io::{self, ErrorKind};
use std::sync::atomic::AtomicU32;
use test_support::expect;

/// A terminal over a device of modes, and its flag once more.
fn terminal_of(
    alloc: Global,
    calls: &AtomicU32,
    refused: Option<Call>,
) -> io::Result<(Terminal<Noted<'_>>, RawFlag)> {
    let flag = RawFlag::new(alloc)?;
    let shared = flag.share()?;
    Ok((terminal_by(flag, calls, refused), shared))
}

/// Whether raw mode is on, by the terminal and by the flag.
fn is_raw(terminal: &Terminal<Noted<'_>>, flag: &RawFlag) -> bool {
    matches!(terminal.is_raw_mode_enabled(), Ok(true)) && flag.get()
}

/// Whether raw mode is off, by both.
fn is_cooked(terminal: &Terminal<Noted<'_>>, flag: &RawFlag) -> bool {
    matches!(terminal.is_raw_mode_enabled(), Ok(false)) && !flag.get()
}

fn is_denied<T: Drop>(answer: io::Result<T>) -> bool {
    matches!(answer, Err(error) if error.kind() == ErrorKind::PermissionDenied)
}

/// Raw mode on and off. If it wasn't on, both leave the mode that was set before.
pub fn raw_and_back<D: ModeDevice>(terminal: &mut Terminal<D>) -> io::Result<()>
    ensures { OnOk result (terminal.old.prior ≡ None → D.current terminal.new.device ≡ D.current terminal.old.device) }
{
    terminal.enable_raw_mode()?;
    terminal.disable_raw_mode()
}

/// Whether raw mode is on once however often it is switched on, and off in the same way.
fn switches(terminal: &mut Terminal<Noted<'_>>, flag: &RawFlag) -> bool {
    let off = is_cooked(terminal, flag) && terminal.disable_raw_mode().is_ok();
    let on = terminal.enable_raw_mode().is_ok() && is_raw(terminal, flag);
    let twice = terminal.enable_raw_mode().is_ok() && is_raw(terminal, flag);
    let back = terminal.disable_raw_mode().is_ok() && is_cooked(terminal, flag);
    off && on && twice && back
}

#[test]
fn raw_mode_is_switched_on_and_off(rt: HostRuntime) -> io::Result<()> {
    let calls = AtomicU32::new(0);
    let (mut terminal, flag) = terminal_of(rt.alloc(), &calls, None)?;
    expect!(rt; switches(&mut terminal, &flag));
    raw_and_back(&mut terminal)?;
    expect!(rt; is_cooked(&terminal, &flag));
    Ok(())
}

/// A device of modes that never fails, and claims no more than which mode is set.
#[derive(Drop)]
struct Plain {
    mode: u8,
}

impl ModeDevice for Plain {
    type Mode = u8;

    ghost current = { λ s. s.mode };

    fn mode(&mut self) -> io::Result<u8> {
        Ok(self.mode)
    }

    fn set_raw(&mut self, mode: &u8) -> io::Result<()> {
        self.mode = mode.saturating_add(100);
        Ok(())
    }

    fn set_mode(&mut self, mode: &u8) -> io::Result<()> {
        self.mode = *mode;
        Ok(())
    }

    fn window_size(&mut self) -> io::Result<WindowSize> {
        Ok(SIZE)
    }

    fn failures(&self) -> u64 {
        0
    }
}

#[test]
fn a_device_needs_no_claims(rt: HostRuntime) -> io::Result<()> {
    let mut terminal = Terminal::new(Plain { mode: 7 }, RawFlag::new(rt.alloc())?);
    raw_and_back(&mut terminal)?;
    expect!(rt; matches!(terminal.is_raw_mode_enabled(), Ok(false)));
    terminal.enable_raw_mode()?;
    expect!(rt; matches!(terminal.is_raw_mode_enabled(), Ok(true)));
    expect!(rt; matches!(terminal.size(b"", b""), Ok((80, 24))));
    Ok(())
}

/// Whether a device that refuses to report its mode, or to set the raw one, leaves raw mode off.
fn stays_cooked(alloc: Global, refused: Call) -> io::Result<bool> {
    let calls = AtomicU32::new(0);
    let (mut terminal, flag) = terminal_of(alloc, &calls, Some(refused))?;
    let denied = is_denied(terminal.enable_raw_mode());
    Ok(denied && is_cooked(&terminal, &flag))
}

/// Whether a device that refuses to set the mode that was set before leaves raw mode on, each time.
fn stays_raw(alloc: Global) -> io::Result<bool> {
    let calls = AtomicU32::new(0);
    let (mut terminal, flag) = terminal_of(alloc, &calls, Some(Call::SetMode))?;
    let on = terminal.enable_raw_mode().is_ok();
    let once = is_denied(terminal.disable_raw_mode()) && is_raw(&terminal, &flag);
    let twice = is_denied(terminal.disable_raw_mode()) && is_raw(&terminal, &flag);
    Ok(on && once && twice)
}

#[test]
fn refused_switches_leave_the_mode_as_it_was(rt: HostRuntime) -> io::Result<()> {
    expect!(rt; stays_cooked(rt.alloc(), Call::Mode)?);
    expect!(rt; stays_cooked(rt.alloc(), Call::SetRaw)?);
    expect!(rt; stays_raw(rt.alloc())?);
    Ok(())
}

/// Whether a size is this one.
fn is_size(size: io::Result<(u16, u16)>, want: (u16, u16)) -> bool {
    matches!(size, Ok(size) if size == want)
}

/// Whether the window's size is returned.
fn has_its_window(alloc: Global) -> io::Result<bool> {
    let calls = AtomicU32::new(0);
    let (mut terminal, _flag) = terminal_of(alloc, &calls, None)?;
    let window = matches!(terminal.window_size(), Ok(size) if size == SIZE);
    Ok(window && is_size(terminal.size(b"132", b"50"), (80, 24)))
}

/// Whether both texts of `tput` are used if the window's size isn't reported.
fn has_tputs_size(alloc: Global) -> io::Result<bool> {
    let calls = AtomicU32::new(0);
    let (mut terminal, _flag) = terminal_of(alloc, &calls, Some(Call::WindowSize))?;
    let tput = is_size(terminal.size(b"132\n", b"50\n"), (132, 50));
    let neither = is_denied(terminal.size(b"132\n", b"")) && is_denied(terminal.size(b"0", b"50"));
    Ok(tput && neither && is_denied(terminal.window_size()))
}

#[test]
fn sizes_are_those_of_the_window_or_of_tput(rt: HostRuntime) -> io::Result<()> {
    expect!(rt; has_its_window(rt.alloc())?);
    expect!(rt; has_tputs_size(rt.alloc())?);
    Ok(())
}

/// What `tput` wrote, and the number that it means.
static TPUT: [(&[u8], Option<u16>); 8] = [
    (b"80\n", Some(80)),
    (b"1a2", Some(12)),
    (b"70000", None),
    (b"", None),
    (b"0", None),
    (b"\x1b[1m", Some(1)),
    (b"0065535", Some(65535)),
    (b"99999999999999999999999", None),
];

#[test]
fn tput_writes_numbers(rt: HostRuntime) {
    for (text, want) in TPUT {
        expect!(rt; tput_value(text) == want, "what tput wrote");
    }
}
