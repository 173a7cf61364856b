//! What a device answers.

use crossterm_read::source::{Answer, Device, Waker};
use std::io::{self, ErrorKind, Write};
use std::time::{Clock, Duration, Instant};

/// No time at all.
pub const NOW: Option<Duration> = Some(Duration::ZERO);

/// So long that a test which waits so long has failed.
pub fn long() -> Option<Duration> {
    Some(Duration::from_secs(10))
}

/// Whether these bytes are taken by what feeds a device.
pub fn sends<W: Write>(far: &mut W, bytes: &[u8]) -> bool {
    far.write_all(bytes).is_ok()
}

/// Whether there is a waker, and it wakes.
pub fn wakes_by(waker: io::Result<Waker>) -> bool {
    match waker {
        Ok(waker) => waker.wake().is_ok(),
        Err(_) => false,
    }
}

/// Whether these bytes are reported next.
pub fn answers<D: Device>(device: &mut D, limit: Option<Duration>, want: &[u8]) -> bool {
    let mut buf = [0u8; 1024];
    match device.answer(&mut buf, limit) {
        Ok(Answer::Bytes { count, .. }) => &buf[..count] == want,
        _ => false,
    }
}

/// Whether so many bytes are reported next, all of them this one.
pub fn answers_many<D: Device>(
    device: &mut D,
    limit: Option<Duration>,
    byte: u8,
    want: usize,
) -> bool {
    let mut buf = [0u8; 1024];
    match device.answer(&mut buf, limit) {
        Ok(Answer::Bytes { count, .. }) => count == want && buf[..count].iter().all(|b| *b == byte),
        _ => false,
    }
}

/// Whether the next bytes come in raw mode.
pub fn is_raw<D: Device>(device: &mut D) -> bool {
    let answer = device.answer(&mut [0u8; 1024], long());
    matches!(answer, Ok(Answer::Bytes { raw: true, .. }))
}

/// Whether nothing comes within a limit.
pub fn is_idle<D: Device>(device: &mut D, limit: Option<Duration>) -> bool {
    matches!(device.answer(&mut [0u8; 1024], limit), Ok(Answer::Idle))
}

/// Whether a wake-up comes.
pub fn is_woken<D: Device>(device: &mut D, limit: Option<Duration>) -> bool {
    matches!(device.answer(&mut [0u8; 1024], limit), Ok(Answer::Woken))
}

/// Whether this size comes.
pub fn resizes<D: Device>(device: &mut D, columns: u16, rows: u16) -> bool {
    let answer = device.answer(&mut [0u8; 1024], long());
    matches!(answer, Ok(Answer::Resize(c, r)) if c == columns && r == rows)
}

/// Whether it fails, and counts that.
pub fn fails<D: Device>(device: &mut D, kind: ErrorKind) -> bool {
    let before = device.failures();
    match device.answer(&mut [0u8; 1024], long()) {
        Err(error) => error.kind() == kind && device.failures() > before,
        Ok(_) => false,
    }
}

/// Whether this limit has passed since a moment, and five seconds haven't.
fn has_passed<R: Clock>(rt: &R, start: io::Result<Instant>, limit: Duration) -> bool {
    let gone = start.and_then(|start| start.elapsed(rt));
    gone.is_ok_and(|gone| gone >= limit && gone < Duration::from_secs(5))
}

/// Whether nothing comes within so many milliseconds, and they are waited out.
pub fn waits_out<D: Device, R: Clock>(rt: &R, device: &mut D, millis: u64) -> bool {
    let limit = Duration::from_millis(millis);
    let start = Instant::now(rt);
    is_idle(device, Some(limit)) && has_passed(rt, start, limit)
}
