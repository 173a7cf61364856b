//! Much, from another thread, and a wake-up amid it.

use crate::devices::answers::long;
use crate::expect_of_each;
use crossterm_read::source::{Answer, Device, Waker};
use std::io::{self, Write};
use std::thread;
use std::thread::Threads;

// How many bytes go through.
const MUCH: usize = 1_000_000;

/// What came, as far as the test goes.
#[derive(Clone, Copy)]
struct Came {
    bytes: usize,
    // Whether each byte was the next one.
    in_order: bool,
    wakes: u32,
    // How many answers of bytes came between the call of the waker and the wake-up.
    late: u32,
    is_over: bool,
}

/// The byte at this place.
fn byte_at(place: usize) -> u8 {
    (place % 251) as u8
}

/// Fills a piece with the bytes from this place on, and returns the place after it.
fn fill(piece: &mut [u8], from: usize) -> usize {
    let mut at = from;
    for byte in piece {
        *byte = byte_at(at);
        at = at.saturating_add(1);
    }
    at
}

/// Writes all bytes, in a thousand pieces, and ends.
fn write_much<W: Write + Drop>(far: W) -> bool {
    let mut far = far;
    let mut piece = [0u8; 1000];
    let mut at = 0;
    for _ in 0..1000 {
        at = fill(&mut piece, at);
        if far.write_all(&piece).is_err() {
            return false;
        }
    }
    true
}

impl Came {
    fn nothing() -> Came {
        Came {
            bytes: 0,
            in_order: true,
            wakes: 0,
            late: 0,
            is_over: false,
        }
    }

    fn take(&mut self, bytes: &[u8]) {
        for byte in bytes {
            if *byte != byte_at(self.bytes) {
                self.in_order = false;
            }
            self.bytes = self.bytes.saturating_add(1);
        }
        self.is_over = bytes.is_empty();
    }

    // Asks the device once. Whether it answered bytes, a wake-up or the end.
    fn ask<D: Device>(&mut self, device: &mut D, is_awaited: bool) -> bool {
        let mut buf = [0u8; 1024];
        match device.answer(&mut buf, long()) {
            Ok(Answer::Bytes { count, .. }) => {
                self.take(&buf[..count]);
                if is_awaited && self.wakes == 0 {
                    self.late = self.late.saturating_add(1);
                }
                true
            }
            Ok(Answer::Woken) => {
                self.wakes = self.wakes.saturating_add(1);
                true
            }
            _ => false,
        }
    }
}

/// Reads to the end, and wakes itself after a hundred answers.
fn read_much<D: Device>(device: &mut D, waker: &Waker) -> Came {
    let mut came = Came::nothing();
    for turn in 0..10_000_000u32 {
        if turn == 100 && waker.wake().is_err() {
            return came;
        }
        if !came.ask(device, turn >= 100) || came.is_over {
            return came;
        }
    }
    came
}

/// Whether all came, in order, and the wake-up before any further bytes.
fn is_all(came: Came) -> bool {
    came.bytes == MUCH && came.in_order && came.is_over && came.wakes == 1 && came.late == 0
}

/// Whether all that one thread writes comes to a device in another.
fn flows<D: Device, W: Write + Send + Drop, R: Threads>(rt: &R, device: &mut D, far: W) -> bool {
    let Ok(waker) = device.waker() else {
        return false;
    };
    let (wrote, came) = thread::join(rt, move || write_much(far), || read_much(device, &waker));
    wrote && is_all(came)
}

#[test]
fn much_comes_through(rt: HostRuntime) -> io::Result<()> {
    expect_of_each!(rt; flows);
    expect_of_each!(rt; flows, raw_piped, raw_connected);
    Ok(())
}
