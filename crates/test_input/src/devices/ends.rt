//! Devices with the ends that feed them.

use crossterm_read::source::{PolledDevice, RawFlag, SocketDevice};
use mio::net::TcpListener;
use std::alloc::Global;
use std::fs::{File, Files};
use std::io::{self, ErrorKind, PipeReader, PipeWriter, Read};
use std::net::{Ipv4Addr, Net, SocketAddr, TcpStream};
use std::os::fd::AsRawFd;
use std::time::Clock;
use std::{thread, time};

/// A device over a pipe, with the end that feeds it.
pub type Piped = (PolledDevice<PipeReader>, PipeWriter);

/// A device over a pipe, and one that reports its sizes, with the ends that feed both.
#[derive(Drop)]
pub struct SizedEnds {
    /// The device.
    pub device: PolledDevice<PipeReader>,
    /// What feeds its input.
    pub input: PipeWriter,
    /// What feeds its sizes.
    pub sizes: PipeWriter,
}

/// A flag that is false.
pub fn cooked(alloc: Global) -> io::Result<RawFlag> {
    RawFlag::new(alloc)
}

/// A flag that is true.
fn raw(alloc: Global) -> io::Result<RawFlag> {
    let flag = RawFlag::new(alloc)?;
    flag.set(true);
    Ok(flag)
}

/// A device over this input, and over what reports its sizes if there is something.
pub fn polled<I: Read + AsRawFd + Drop, R: Net>(
    rt: &R,
    alloc: Global,
    input: I,
    sizes: Option<File>,
) -> io::Result<PolledDevice<I>> {
    PolledDevice::new(rt, alloc, input, cooked(alloc)?, sizes)
}

/// A device over a pipe, and over what reports its sizes if there is something.
pub fn piped_beside<R: Net + Files>(
    rt: &R,
    alloc: Global,
    sizes: Option<File>,
) -> io::Result<Piped> {
    let (near, far) = io::pipe(rt)?;
    Ok((polled(rt, alloc, near, sizes)?, far))
}

/// A device over a pipe.
pub fn piped<R: Net + Files>(rt: &R, alloc: Global) -> io::Result<Piped> {
    piped_beside(rt, alloc, None)
}

/// A device over a pipe, in raw mode.
pub fn raw_piped<R: Net + Files>(rt: &R, alloc: Global) -> io::Result<Piped> {
    let (near, far) = io::pipe(rt)?;
    Ok((PolledDevice::new(rt, alloc, near, raw(alloc)?, None)?, far))
}

/// What this end of a pipe reads, as a file.
pub fn as_file<R: Files<File = File>>(rt: &R, alloc: Global, end: &PipeReader) -> io::Result<File> {
    let fd = end.as_raw_fd();
    File::open(rt, format!(in alloc; "/proc/self/fd/{fd}")?.as_str())
}

/// A device over a pipe, whose sizes come by another.
pub fn sized<R: Net + Files<File = File>>(rt: &R, alloc: Global) -> io::Result<SizedEnds> {
    let (end, sizes) = io::pipe(rt)?;
    let (device, input) = piped_beside(rt, alloc, Some(as_file(rt, alloc, &end)?))?;
    Ok(SizedEnds {
        device,
        input,
        sizes,
    })
}

/// The stream that comes to a listener, which may need a moment.
fn accepted<R: Clock>(rt: &R, listener: &TcpListener) -> io::Result<mio::net::TcpStream> {
    for _ in 0..1000 {
        match listener.accept() {
            Ok((stream, _)) => return Ok(stream),
            Err(error) if error.kind() == ErrorKind::WouldBlock => {
                thread::sleep(rt, time::Duration::from_millis(1));
            }
            Err(error) => return Err(error),
        }
    }
    Err(io::Error::from(ErrorKind::TimedOut))
}

/// Both ends of a connection: one that blocks, and one that doesn't.
fn connection<R: Net + Clock>(rt: &R) -> io::Result<(TcpStream, mio::net::TcpStream)> {
    let listener = TcpListener::bind(rt, SocketAddr::from((Ipv4Addr::LOCALHOST, 0)))?;
    let stream = mio::net::TcpStream::connect(rt, listener.local_addr()?)?;
    let near = accepted(rt, &listener)?;
    let far = TcpStream::from(stream);
    far.set_nonblocking(false)?;
    far.set_nodelay(true)?;
    Ok((far, near))
}

/// A polled device over a connection that blocks.
pub fn connected<R: Net + Clock>(
    rt: &R,
    alloc: Global,
) -> io::Result<(PolledDevice<TcpStream>, TcpStream)> {
    let (far, near) = connection(rt)?;
    let near = TcpStream::from(near);
    near.set_nonblocking(false)?;
    Ok((polled(rt, alloc, near, None)?, far))
}

/// A polled device over a connection that blocks, in raw mode.
pub fn raw_connected<R: Net + Clock>(
    rt: &R,
    alloc: Global,
) -> io::Result<(PolledDevice<TcpStream>, TcpStream)> {
    let (far, near) = connection(rt)?;
    let near = TcpStream::from(near);
    near.set_nonblocking(false)?;
    Ok((PolledDevice::new(rt, alloc, near, raw(alloc)?, None)?, far))
}

/// A socket's device.
pub fn socket<R: Net + Clock>(rt: &R, alloc: Global) -> io::Result<(SocketDevice, TcpStream)> {
    let (far, near) = connection(rt)?;
    Ok((SocketDevice::new(rt, alloc, near, cooked(alloc)?)?, far))
}

/// Expects something of a device over a pipe, of one over a connection, and of a socket's, each with the end that feeds it:
/// `expect_of_each!(rt; wakes)`.
#[macro_export]
macro_rules! expect_of_each {
    ($rt:expr; $holds:expr) => {
        $crate::expect_of_each!($rt; $holds, piped, connected, socket)
    };
    ($rt:expr; $holds:expr, $($made:ident),*) => {
        $({
            let (mut device, far) = $crate::devices::ends::$made(&$rt, $rt.alloc())?;
            test_support::expect!($rt; $holds(&$rt, &mut device, far), stringify!($made));
        })*
    };
}
