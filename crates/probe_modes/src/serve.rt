//! `probe serve`: two threads read the bytes of a socket by a shared reader.
ghost use Rattle.crossterm_read.specs.Shared.{IsPassOf};

use crate::event_line::EventLine;
use crate::fault::Fault;
use crossterm::event::read::InternalEventReader;
use crossterm::event::source::{DeviceSource, RawFlag, SocketDevice};
use crossterm::event::{Event, EventReader, InternalEvent, Pass};
use mio::net::{TcpListener, TcpStream};
use std::alloc::Global;
use std::io::{self, ErrorKind, Read, Write};
use std::net::{self, Ipv4Addr, Net, OpenStream, SocketAddr};
use std::sync::Wait;
use std::thread::{self, Threads};

/// How many bytes of input are read at most.
const LIMIT: u64 = 4096;

/// The first bytes of the input.
fn input<R: Read>(alloc: Global, reader: &mut R) -> Result<Vec<u8>, Fault> {
    let mut bytes = Vec::new(alloc);
    match reader.by_ref().take(LIMIT).read_to_end(&mut bytes) {
        Ok(_) => Ok(bytes),
        Err(error) => Err(Fault::of_read(&error)),
    }
}

/// How many connections of others are closed before ours has to be there.
const STRANGERS: u32 = 64;

/// The connection that came from this address. Others on this machine may connect to the port before: those are closed.
///
/// # Errors
///
/// `ConnectionRefused` if too many others came first; else that of `accept`.
pub fn accepted_from(
    listener: &net::TcpListener,
    address: SocketAddr,
) -> io::Result<net::TcpStream> {
    for _ in 0..STRANGERS {
        let (far, from) = listener.accept()?;
        if from == address {
            return Ok(far);
        }
    }
    Err(io::Error::from(ErrorKind::ConnectionRefused))
}

/// The far end of a connection of this machine with itself, to whose near end these bytes were written before it was closed.
fn far_end<N: Net>(rt: &N, bytes: &[u8]) -> io::Result<TcpStream> {
    let any = SocketAddr::from((Ipv4Addr::LOCALHOST, 0));
    let listener = net::TcpListener::from(TcpListener::bind(rt, any)?);
    listener.set_nonblocking(false)?;
    let mut near = net::TcpStream::connect(rt, listener.local_addr()?)?;
    near.write_all(bytes)?;
    let far = accepted_from(&listener, near.local_addr()?)?;
    far.set_nonblocking(true)?;
    Ok(TcpStream::from_std(far))
}

type Source = DeviceSource<SocketDevice>;

/// A device that reports these bytes, and then the end of input.
fn device<N: Net>(rt: &N, alloc: Global, bytes: &[u8]) -> io::Result<SocketDevice> {
    let raw = RawFlag::new(alloc)?;
    SocketDevice::new(rt, alloc, far_end(rt, bytes)?, raw)
}

/// An arrival number, and the event that has it.
type Arrived = (u64, InternalEvent);

/// Reads until a fault, which is the end of input if all goes well.
fn drain<R: Wait>(
    rt: &R,
    alloc: Global,
    shared: &EventReader<Source>,
    mut pass: Pass<Source>,
) -> Result<Vec<Arrived>, Fault>
    requires { IsPassOf shared.now pass }
{
    let mut arrived = Vec::new(alloc);
    for _ in rt.forever() {
        match shared.read(rt, &mut pass) {
            Ok(event) => {
                let number = pass.last().unwrap_or(u64::MAX);
                if arrived.push((number, InternalEvent::Event(event))).is_err() {
                    return Err(Fault::OutOfMemory);
                }
            }
            Err(error) if error.kind() == ErrorKind::UnexpectedEof => break,
            Err(error) => return Err(Fault::of_socket(&error)),
        }
    }
    Ok(arrived)
}

/// What two threads read, each by a pass.
fn drain_by_two<R: Wait + Threads + Sync>(
    rt: &R,
    alloc: Global,
    shared: &EventReader<Source>,
    one: Pass<Source>,
    other: Pass<Source>,
) -> Result<Vec<Arrived>, Fault>
    requires { IsPassOf shared.now one × IsPassOf shared.now other }
{
    let (first, second) = thread::join(
        rt,
        move ||
            requires { IsPassOf shared.now one }
        { drain(rt, alloc, shared, one) },
        move ||
            requires { IsPassOf shared.now other }
        { drain(rt, alloc, shared, other) },
    );
    let mut arrived = first?;
    arrived.append(&mut second?)?;
    arrived.sort_by_key(|it| it.0)?;
    Ok(arrived)
}

/// A reader of these bytes by a socket.
fn reader<N: Net>(
    rt: &N,
    alloc: Global,
    bytes: &[u8],
) -> Result<InternalEventReader<Source>, Fault> {
    match device(rt, alloc, bytes) {
        Ok(device) => Ok(InternalEventReader::new(alloc, DeviceSource::new(alloc, device))),
        Err(error) => Err(Fault::of_socket(&error)),
    }
}

/// The events of these bytes, by a socket, in the order of their arrival.
fn serve<H: Net + Threads + Wait + Sync>(
    rt: &H,
    alloc: Global,
    bytes: &[u8],
) -> Result<Vec<Arrived>, Fault> {
    let reader = reader(rt, alloc, bytes)?;
    match EventReader::new(rt, alloc, reader, 2) {
        Ok((shared, mut passes)) => match (passes.pop(), passes.pop()) {
            (Some(one), Some(other)) => drain_by_two(rt, alloc, &shared, one, other),
            _ => unreachable!(),
        },
        Err(_) => Err(Fault::OutOfMemory),
    }
}

fn print<W: Write>(writer: &mut W, arrived: &[Arrived]) -> io::Result<()> {
    for (_, event) in arrived {
        let line = EventLine(event);
        writeln!(writer, "{line}")?;
    }
    writer.flush()
}

/// Reads the first 4096 bytes of the input, sends them through a socket of its own, and reads events there by two threads. Prints a line
/// for each, in the order of their arrival. Replies of a terminal aren't printed.
///
/// # Errors
///
/// `ReadFailed` and `WriteFailed` if the reader or the writer failed, `SocketFailed` if the socket did, `OutOfMemory` if memory was
/// refused.
pub fn run_serve<H: Net + Threads + Wait + Sync, R: Read, W: Write>(
    rt: &H,
    alloc: Global,
    reader: &mut R,
    writer: &mut W,
) -> Result<(), Fault> {
    let bytes = input(alloc, reader)?;
    let arrived = serve(rt, alloc, bytes.as_slice())?;
    match print(writer, arrived.as_slice()) {
        Ok(()) => Ok(()),
        Err(error) => Err(Fault::of_write(&error)),
    }
}
