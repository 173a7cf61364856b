//! A device of modes that notes its calls, and a terminal over it.

ghost use Rattle.std.specs.Prelude.{◌≡◌, ◌≤◌, OnErr};
ghost use Rattle.crossterm.specs.Modes.{Refuses};
ghost use Rattle.test_output.specs.Numbers.{numbers_answered};

use crossterm::event::source::RawFlag;
use crossterm::terminal::{ModeDevice, Terminal, WindowSize};
use std::io::{self, ErrorKind};
use std::sync::atomic::{AtomicU32, Ordering};

/// A call of the device of modes.
#[derive(Clone, Copy, PartialEq, Eq)]
pub enum Call {
    Mode,
    SetRaw,
    SetMode,
    WindowSize,
}

/// The digit that represents a call.
fn digit(call: Call) -> u32 {
    match call {
        Call::Mode => 1,
        Call::SetRaw => 2,
        Call::SetMode => 3,
        Call::WindowSize => 4,
    }
}

/// Notes one more digit of a number, and returns the number.
pub fn note_digit(calls: &AtomicU32, digit: u32) -> u32 {
    let before = calls.load(Ordering::SeqCst);
    let after = before.saturating_mul(10).saturating_add(digit);
    calls.store(after, Ordering::SeqCst);
    after
}

/// The size of the device's window.
pub const SIZE: WindowSize = WindowSize {
    rows: 24,
    columns: 80,
    width: 640,
    height: 480,
};

/// A device whose modes are numbers: the one that it has at first is 7, and the raw mode of a mode is 100 more. It notes its calls, as the
/// digits of a number, and refuses one of them. Its window may have another width from the second time on that it is asked for.
#[derive(Drop)]
pub struct Noted<'a> {
    calls: &'a AtomicU32,
    refused: Option<Call>,
    mode: u8,
    failures: u64,
    columns: u16,
    later: u16,
}

impl Noted<'_> {
    /// Notes a call, and fails if it is refused.
    fn note(&mut self, call: Call) -> io::Result<()>
        ensures mode { self.new.mode ≡ self.old.mode }
        ensures rise { self.old.failures ≤ self.new.failures }
        ensures err { OnErr result (Refuses self.old.failures self.new.failures) }
    {
        note_digit(self.calls, digit(call));
        if self.refused == Some(call) {
            self.failures = self.failures.saturating_add(1);
            return Err(io::Error::from(ErrorKind::PermissionDenied));
        }
        Ok(())
    }
}

impl ModeDevice for Noted<'_> {
    type Mode = u8;

    ghost current = { λ s. s.mode };

    ghost answered = { numbers_answered (λ s. s.mode) };

    ghost failed = { λ s. s.failures };

    fn mode(&mut self) -> io::Result<u8> {
        self.note(Call::Mode)?;
        Ok(self.mode)
    }

    fn set_raw(&mut self, mode: &u8) -> io::Result<()> {
        self.note(Call::SetRaw)?;
        self.mode = mode.saturating_add(100);
        Ok(())
    }

    fn set_mode(&mut self, mode: &u8) -> io::Result<()> {
        self.note(Call::SetMode)?;
        self.mode = *mode;
        Ok(())
    }

    fn window_size(&mut self) -> io::Result<WindowSize> {
        self.note(Call::WindowSize)?;
        let columns = self.columns;
        self.columns = self.later;
        Ok(WindowSize { columns, ..SIZE })
    }

    fn failures(&self) -> u64 {
        self.failures
    }
}

/// A terminal over such a device, with this flag.
pub fn terminal_by(flag: RawFlag, calls: &AtomicU32, refused: Option<Call>) -> Terminal<Noted<'_>> {
    let device = Noted {
        calls,
        refused,
        mode: 7,
        failures: 0,
        columns: SIZE.columns,
        later: SIZE.columns,
    };
    Terminal::new(device, flag)
}

/// A terminal whose window has these columns from the second time on that it is asked for.
pub fn narrowing_by(flag: RawFlag, calls: &AtomicU32, later: u16) -> Terminal<Noted<'_>> {
    let device = Noted {
        calls,
        refused: None,
        mode: 7,
        failures: 0,
        columns: SIZE.columns,
        later,
    };
    Terminal::new(device, flag)
}
