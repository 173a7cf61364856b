//! Wakers.

use crate::devices::answers::{NOW, answers_many, is_idle, is_woken, sends, waits_out, wakes_by};
use crate::devices::ends::piped;
use crate::expect_of_each;
use crossterm_read::source::{Device, DeviceSource, EventSource, Waker};
use std::alloc::Global;
use std::fs::Files;
use std::io::{self, ErrorKind, Write};
use std::net::Net;
use std::thread;
use std::thread::Threads;
use std::time::{Clock, Duration};
use test_support::expect;

/// Whether a device is woken once, however often its wakers were used, and before bytes, of which none is lost.
fn is_woken_once<D: Device, W: Write>(device: &mut D, waker: &Waker, far: &mut W) -> bool {
    let used = sends(far, &[b'x'; 4096])
        && waker.wake().is_ok()
        && wakes_by(waker.share())
        && wakes_by(device.waker());
    let woken = is_woken(device, None)
        && answers_many(device, None, b'x', 1024)
        && answers_many(device, None, b'x', 1024);
    let again = waker.wake().is_ok() && is_woken(device, NOW);
    used && woken
        && again
        && answers_many(device, None, b'x', 1024)
        && answers_many(device, None, b'x', 1024)
        && is_idle(device, NOW)
}

/// Whether a waker ends a wait without limit from another thread, and a later wait isn't ended.
fn is_woken_from_afar<D: Device + Send, R: Threads + Clock + Sync>(
    rt: &R,
    device: &mut D,
    waker: &Waker,
) -> bool {
    let (wakes, woken) = thread::join(
        rt,
        || {
            thread::sleep(rt, Duration::from_millis(20));
            waker.wake().is_ok()
        },
        || is_woken(device, None),
    );
    wakes && woken && waits_out(rt, device, 30)
}

/// Whether its wakers wake a device, here and from another thread.
fn wakes<D: Device + Send, W: Write + Drop, R: Threads + Clock + Sync>(
    rt: &R,
    device: &mut D,
    mut far: W,
) -> bool {
    match device.waker() {
        Ok(waker) => {
            is_woken_once(device, &waker, &mut far) && is_woken_from_afar(rt, device, &waker)
        }
        Err(_) => false,
    }
}

#[test]
fn pipes_connections_and_sockets_are_woken(rt: HostRuntime) -> io::Result<()> {
    expect_of_each!(rt; wakes);
    expect_of_each!(rt; wakes, raw_piped, raw_connected);
    Ok(())
}

/// Whether a source reports that its device was woken by this waker of it.
fn reports_a_wake_up<S: EventSource<Global>>(source: &mut S, waker: &Waker) -> bool {
    waker.wake().is_ok()
        && matches!(source.try_read(None), Err(error) if error.kind() == ErrorKind::Interrupted)
}

/// Whether a source is woken by a waker of its device, and a waker does no harm once the device is gone.
fn wakes_a_source<S: EventSource<Global> + Drop>(mut source: S) -> bool {
    let Ok(waker) = source.waker() else {
        return false;
    };
    let woken = reports_a_wake_up(&mut source, &waker);
    drop(source);
    woken && waker.wake().is_ok()
}

#[test]
fn a_source_is_woken(rt: HostRuntime) -> io::Result<()> {
    let (device, _far) = piped(&rt, rt.alloc())?;
    expect!(rt; wakes_a_source(DeviceSource::new(rt.alloc(), device)));
    Ok(())
}
