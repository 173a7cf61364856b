//! A device over a socket.
ghost use Rattle.std.specs.Prelude.{◌≡◌, false, IfOk, is_some};
ghost use Rattle.crossterm_read.specs.Device.{answering_within};

use crate::source::{Answer, Device, PolledDevice, RawFlag, Waker};
use mio::net::TcpStream;
use std::alloc::{Allocator, Global};
use std::io;
use std::net::Net;
use std::time::Duration;

/// A device that reports what comes from a TCP stream of `mio`, and waits for it as long as the limit says, and no longer: a `PolledDevice`
/// over the stream, and no sizes.
#[derive(Drop)]
pub struct SocketDevice<A: Allocator = Global> {
    polled: PolledDevice<TcpStream, A>,
}

impl<A: Allocator> SocketDevice<A> {
    /// A device that reports what this stream returns from here on, with the mode that the flag says then.
    ///
    /// `alloc` gives memory for what waits.
    ///
    /// # Errors
    ///
    /// `OutOfMemory` if memory was refused, or the system's if it can't watch the stream. Then the stream and the flag are dropped.
    pub fn new<N: Net>(
        rt: &N,
        alloc: Global,
        stream: TcpStream,
        raw: RawFlag<A>,
    ) -> io::Result<Self>
        ensures input { IfOk result (λ device. device.polled.input ≡ stream) }
        // It never reports a size.
        ensures sizes { IfOk result (λ device. is_some device.polled.sizes ≡ false) }
        ensures failures { IfOk result (λ device. device.polled.failures ≡ 0) }
    {
        Ok(SocketDevice {
            polled: PolledDevice::new(rt, alloc, stream, raw, None)?,
        })
    }
}

impl<A: Allocator + Clone> Device for SocketDevice<A> {
    ghost answering = { answering_within (λ s. s.polled) ⟦<PolledDevice<TcpStream, A> as Device>⟧.answering };

    ghost failed = { λ s. ⟦<PolledDevice<TcpStream, A> as Device>⟧.failed s.polled };

    ghost fails = { ⟦<PolledDevice<TcpStream, A> as Device>⟧.fails };

    ghost wakes = { λ s. ⟦<PolledDevice<TcpStream, A> as Device>⟧.wakes s.polled };

    fn answer(&mut self, buf: &mut [u8], limit: Option<Duration>) -> io::Result<Answer> {
        self.polled.answer(buf, limit)
    }

    fn failures(&self) -> u64 {
        self.polled.failures()
    }

    /// What wakes who waits for this device. The error is `OutOfMemory`.
    fn waker(&self) -> io::Result<Waker> {
        self.polled.waker()
    }
}
