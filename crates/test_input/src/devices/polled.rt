//! What comes at once, and what is waited for.

use crate::devices::answers::{NOW, answers, answers_many, is_idle, long, sends, waits_out};
use crate::devices::ends::piped;
use crate::devices::readers::is_key;
use crate::expect_of_each;
use crossterm_read::source::{Device, DeviceSource, EventSource};
use crossterm_types::event::KeyCode;
use std::alloc::Global;
use std::io::{self, Write};
use std::time::Clock;
use test_support::expect;

/// Whether bytes are reported once, as they came, and nothing before and after.
fn answers_what_came<D: Device, W: Write>(device: &mut D, far: &mut W) -> bool {
    is_idle(device, NOW)
        && sends(far, b"abc")
        && answers(device, long(), b"abc")
        && is_idle(device, NOW)
        && sends(far, &[b'x'; 1024])
        && answers_many(device, None, b'x', 1024)
        && is_idle(device, NOW)
        && sends(far, &[b'y'; 1025])
        && answers_many(device, None, b'y', 1024)
        && answers_many(device, NOW, b'y', 1)
        && is_idle(device, NOW)
}

/// Whether bytes that come one at a time are reported one at a time.
fn answers_each<D: Device, W: Write>(device: &mut D, far: &mut W) -> bool {
    for byte in 0..200u8 {
        if !sends(far, &[byte]) || !answers(device, long(), &[byte]) {
            return false;
        }
    }
    true
}

/// Whether a limit is waited out: after bytes, before them, and again.
fn keeps_limits<D: Device, W: Write, R: Clock>(rt: &R, device: &mut D, far: &mut W) -> bool {
    waits_out(rt, device, 30)
        && sends(far, b"ab")
        && answers(device, None, b"ab")
        && waits_out(rt, device, 60)
        && sends(far, &[b'x'; 2048])
        && answers_many(device, None, b'x', 1024)
        && answers_many(device, None, b'x', 1024)
        && waits_out(rt, device, 50)
}

/// Whether what came before the end is reported, and then the end for good, at once.
fn answers_the_end<D: Device, W: Write + Drop>(device: &mut D, mut far: W) -> bool {
    let came = sends(&mut far, b"yz");
    drop(far);
    came && answers(device, None, b"yz")
        && answers(device, None, b"")
        && answers(device, None, b"")
        && device.failures() == 0
}

/// Whether bytes come at once, limits are waited out, and the end is reported.
fn waits_and_answers<D: Device, W: Write + Drop, R: Clock>(
    rt: &R,
    device: &mut D,
    mut far: W,
) -> bool {
    let waits = answers_what_came(device, &mut far)
        && answers_each(device, &mut far)
        && keeps_limits(rt, device, &mut far);
    waits && answers_the_end(device, far)
}

#[test]
fn pipes_connections_and_sockets_are_answered(rt: HostRuntime) -> io::Result<()> {
    expect_of_each!(rt; waits_and_answers);
    expect_of_each!(rt; waits_and_answers, raw_piped, raw_connected);
    Ok(())
}

/// Whether a sequence that is cut between two answers is one key.
fn joins_a_sequence<S: EventSource<Global> + Drop, W: Write>(mut source: S, far: &mut W) -> bool {
    sends(far, b"\x1b[1")
        && matches!(source.try_read(long()), Ok(None))
        && matches!(source.try_read(NOW), Ok(None))
        && sends(far, b";2A")
        && is_key(source.try_read(long()), KeyCode::Up)
}

#[test]
fn a_sequence_may_be_cut(rt: HostRuntime) -> io::Result<()> {
    let (device, mut far) = piped(&rt, rt.alloc())?;
    expect!(rt; joins_a_sequence(DeviceSource::new(rt.alloc(), device), &mut far));
    Ok(())
}
