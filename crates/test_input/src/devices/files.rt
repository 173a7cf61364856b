//! What the system can't watch.

use crate::devices::answers::{NOW, answers, is_woken, sends, waits_out, wakes_by};
use crate::devices::ends::{piped_beside, polled};
use crossterm_read::source::{Device, PolledDevice};
use std::alloc::Global;
use std::fs::{File, Files};
use std::io::{self, Read};
use std::net::Net;
use test_support::expect;

// A regular file that is there: the test itself.
const REGULAR: &str = "/proc/self/exe";

/// Whether a device reports the next bytes of a file.
fn answers_on<D: Device>(device: &mut D, file: &mut File) -> bool {
    let mut want = [0u8; 1024];
    file.read_exact(&mut want).is_ok() && answers(device, NOW, &want)
}

/// Whether a device reports a file's bytes, and a wake-up between two of its buffers.
fn answers_all<D: Device>(device: &mut D, file: &mut File) -> bool {
    for _ in 0..20 {
        if !answers_on(device, file) {
            return false;
        }
    }
    wakes_by(device.waker()) && is_woken(device, None) && answers_on(device, file)
}

/// A device over a file.
fn over<R: Net + Files<File = File>>(
    rt: &R,
    alloc: Global,
    path: &str,
) -> io::Result<PolledDevice<File>> {
    polled(rt, alloc, File::open(rt, path)?, None)
}

/// Whether a device over what is empty reports the end at once, and again.
fn answers_nothing<D: Device>(device: &mut D) -> bool {
    answers(device, None, b"") && answers(device, None, b"")
}

#[test]
fn a_file_is_read_at_once(rt: HostRuntime) -> io::Result<()> {
    // What a read of the file returns is what a device over it reports.
    let mut file = File::open(&rt, REGULAR)?;
    expect!(rt; answers_all(&mut over(&rt, rt.alloc(), REGULAR)?, &mut file));
    expect!(rt; answers_nothing(&mut over(&rt, rt.alloc(), "/dev/null")?));
    Ok(())
}

#[test]
fn sizes_may_be_none(rt: HostRuntime) -> io::Result<()> {
    // They end at once, and end nothing else: bytes come, and limits are waited out.
    let sizes = File::open(&rt, "/dev/null")?;
    let (mut device, mut far) = piped_beside(&rt, rt.alloc(), Some(sizes))?;
    expect!(rt; sends(&mut far, b"a") && answers(&mut device, NOW, b"a"));
    expect!(rt; waits_out(&rt, &mut device, 30));
    Ok(())
}
