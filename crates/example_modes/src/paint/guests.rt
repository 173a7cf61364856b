//! Many terminals that paint one picture, over TCP.

use crate::paint::canvas::Canvas;
use crate::paint::host::Host;
use crate::paint::painter::{Painter, Wish};
use crate::paint::telnet::{GREETING, Telnet};
use crate::paint::view::View;
use crossterm::cursor::{Hide, Show};
use crossterm::event::source::{DeviceSource, EventSource, RawFlag, ReadDevice};
use crossterm::event::timeout::{Clock, SystemClock};
use crossterm::event::{DisableMouseCapture, EnableMouseCapture, InternalEvent};
use crossterm::style::{ColorOutput, ResetColor};
use crossterm::terminal::{EnterAlternateScreen, LeaveAlternateScreen};
use crossterm::{QueueableCommand, execute, queue};
use mio::net::TcpListener;
use mio::unix::SourceFd;
use mio::{Events, Interest, Poll, Registry, Token};
use slab::Slab;
use std::alloc::{AllocError, Global};
use std::io::{self, ErrorKind, Read, Write};
use std::net::{Ipv4Addr, Net, Shutdown, SocketAddr, TcpStream};
use std::os::fd::AsRawFd;
use std::time::Duration;

const DOOR: Token = Token(usize::MAX);

const HOST: Token = Token(usize::MAX - 1);

/// How many guests there is room for.
const GUESTS: usize = 64;

/// How many events of one guest are taken before the others have their turn.
const TURN: u32 = 1000;

/// How many bytes of an open paste a guest may send, since they are kept until its end comes.
const PASTE: usize = 1 << 20;

const COLORS: ColorOutput = ColorOutput::Enabled;

/// How many milliseconds the door stays shut if the system can let nobody in, and nobody can be turned away.
const PAUSE: u64 = 100;

/// How many milliseconds guests have for their farewell when the server ends, and how many pass until it looks again who has taken it.
const PARTING: u64 = 1000;

const LOOK: u64 = 20;

/// What somebody sees for whom there is no room.
const FULL: &[u8] = b"paint: there is no room, come again later\r\n";

/// What somebody sees who leaves since nothing came of them.
const SILENT: &[u8] = b"paint: nothing came from you for too long\r\n";

/// What all see when the server ends.
const CLOSED: &[u8] = b"paint: the server has ended\r\n";

/// One terminal: where its events come from, and where its picture goes.
#[derive(Drop)]
struct Guest {
    source: DeviceSource<Telnet<ReadDevice<TcpStream>>>,
    out: TcpStream,
    painter: Painter,
    view: View,
    // Whether events may wait that the last turn didn't come to.
    is_busy: bool,
    // When bytes came last, or the guest.
    heard: Duration,
    // How many bytes of the server's farewell were sent.
    parted: usize,
}

/// Writes what puts the screen back.
fn restore<W: Write>(w: &mut W) -> io::Result<()> {
    queue!(w, COLORS, DisableMouseCapture, ResetColor, Show)?;
    execute!(w, COLORS, LeaveAlternateScreen)
}

/// What all guests get when the server ends.
fn farewell(alloc: Global) -> io::Result<Vec<u8>> {
    let mut bytes = Vec::new(alloc);
    restore(&mut bytes)?;
    bytes.write_all(CLOSED)?;
    Ok(bytes)
}

impl Guest {
    fn new(alloc: Global, stream: TcpStream, now: Duration) -> io::Result<Guest> {
        // A frame of several writes isn't held back.
        stream.set_nodelay(true)?;
        let out = stream.try_clone()?;
        let flag = RawFlag::new(alloc)?;
        flag.set(true);
        let device = Telnet::new(ReadDevice::new(stream, flag));
        Ok(Guest {
            source: DeviceSource::bounded(alloc, device, PASTE),
            out,
            painter: Painter::new(),
            view: View::new(alloc)?,
            is_busy: false,
            heard: now,
            parted: 0,
        })
    }

    /// What the next event means, if one came. A guest who is cut off leaves, and one whose paste is too long.
    fn wish(&mut self) -> Option<Wish> {
        match self.source.try_read(Some(Duration::ZERO)) {
            Ok(Some(InternalEvent::Event(event))) => Some(self.painter.wish(&event)),
            Ok(Some(_)) => Some(Wish::Nothing),
            Ok(None) => None,
            Err(_) => Some(Wish::Leave),
        }
    }

    /// Begins to show a picture.
    fn enter(&mut self, canvas: &Canvas) -> io::Result<()> {
        self.out.write_all(&GREETING)?;
        queue!(
            self.out,
            COLORS,
            EnterAlternateScreen,
            Hide,
            EnableMouseCapture
        )?;
        self.show(canvas)
    }

    /// Shows what has changed.
    fn show(&mut self, canvas: &Canvas) -> io::Result<()> {
        self.view.draw(&mut self.out, canvas)
    }

    /// Sends as much of a farewell as the guest takes now, and ends the stream behind it. Then it passes over what still comes, until the
    /// guest is gone: a stream that is closed before that loses what the guest hasn't taken yet. Returns whether the guest is gone.
    fn part(&mut self, farewell: &[u8]) -> io::Result<bool> {
        if let Some(rest @ [_, ..]) = farewell.get(self.parted..) {
            let count = self.out.write(rest)?;
            self.parted = self.parted.saturating_add(count);
            if count < rest.len() {
                return Ok(false);
            }
            self.out.shutdown(Shutdown::Write)?;
        }
        let mut buf = [0u8; 1024];
        for _ in 0..TURN {
            if self.out.read(&mut buf)? == 0 {
                return Ok(true);
            }
        }
        Ok(false)
    }

    /// The same, and one who can't be reached is gone.
    fn has_parted(&mut self, farewell: &[u8]) -> bool {
        match self.part(farewell) {
            Ok(is_gone) => is_gone,
            Err(error) => !matches!(error.kind(), ErrorKind::WouldBlock | ErrorKind::Interrupted),
        }
    }

    /// Has the system report whether bytes are there, also if it reported them before.
    fn watch(&mut self, registry: &Registry, token: Token) -> io::Result<()> {
        self.is_busy = false;
        let fd = self.out.as_raw_fd();
        registry.reregister(&mut SourceFd(&fd), token, Interest::READABLE)
    }
}

/// Who wants something and is no guest: somebody at the door, or the host.
#[derive(Clone, Copy)]
struct Came {
    knocks: bool,
    host: bool,
}

/// What rings if somebody wants something.
#[derive(Drop)]
struct Bell {
    poll: Poll,
    events: Events,
}

impl Bell {
    fn new<N: Net>(rt: &N, alloc: Global) -> io::Result<Bell> {
        Ok(Bell {
            poll: Poll::new(rt)?,
            events: Events::with_capacity(alloc, GUESTS)?,
        })
    }

    fn registry(&self) -> &Registry {
        self.poll.registry()
    }

    /// Waits until a guest or the host sends something, somebody knocks, or the limit has passed. A signal doesn't end the wait with an error.
    fn wait(&mut self, limit: Option<Duration>) -> io::Result<()> {
        match self.poll.poll(&mut self.events, limit) {
            Err(error) if error.kind() != ErrorKind::Interrupted => Err(error),
            _ => Ok(()),
        }
    }
}

/// The picture, and who paints it.
#[derive(Drop)]
struct Studio {
    alloc: Global,
    canvas: Canvas,
    guests: Slab<Guest>,
    // How long a guest may say nothing, so that silent ones don't keep others out.
    silence: Duration,
    // The time at the last look at the clock.
    now: Duration,
    // It takes the descriptors by which somebody is turned away if no other is left.
    spare: Option<Poll>,
}

impl Studio {
    /// Shows all what has changed. Who doesn't take it has to leave.
    fn show(&mut self) {
        for key in 0..GUESTS {
            if let Some(guest) = self.guests.get_mut(key) {
                if guest.show(&self.canvas).is_err() {
                    self.guests.try_remove(key);
                }
            }
        }
    }

    /// Lets a guest in, or says that there is no room.
    fn admit(&mut self, registry: &Registry, mut stream: TcpStream) -> io::Result<()> {
        let key = self.guests.vacant_key();
        if key >= GUESTS {
            return stream.write_all(FULL);
        }
        let mut guest = Guest::new(self.alloc, stream, self.now)?;
        guest.enter(&self.canvas)?;
        let fd = guest.out.as_raw_fd();
        registry.register(&mut SourceFd(&fd), Token(key), Interest::READABLE)?;
        if self.guests.insert(guest).is_err() {
            return Err(io::Error::from(ErrorKind::OutOfMemory));
        }
        Ok(())
    }

    /// Lets a guest go, with the screen put back.
    fn dismiss(&mut self, key: usize) {
        self.dismiss_with(key, b"");
    }

    /// The same, with a word of farewell.
    fn dismiss_with(&mut self, key: usize, farewell: &[u8]) {
        if let Some(mut guest) = self.guests.try_remove(key) {
            // One who is gone already takes no farewell.
            let _ = restore(&mut guest.out);
            let _ = guest.out.write_all(farewell);
        }
    }

    /// Notes that a guest isn't silent.
    fn hear(&mut self, key: usize) {
        if let Some(guest) = self.guests.get_mut(key) {
            guest.heard = self.now;
        }
    }

    /// Lets those go that were silent for too long, and returns after how long the next one will have been, if there is a guest.
    fn dismiss_silent(&mut self) -> Option<Duration> {
        let mut next = None;
        for key in 0..GUESTS {
            let Some(heard) = self.guests.get(key).map(|guest| guest.heard) else {
                continue;
            };
            let silent = self.now.saturating_sub(heard);
            if silent >= self.silence {
                self.dismiss_with(key, SILENT);
            } else {
                next = earlier(next, Some(self.silence.saturating_sub(silent)));
            }
        }
        next
    }

    /// Goes on with the farewell of all, and drops those who are gone.
    fn part(&mut self, farewell: &[u8]) {
        for key in 0..GUESTS {
            if let Some(guest) = self.guests.get_mut(key) {
                if guest.has_parted(farewell) {
                    self.guests.try_remove(key);
                }
            }
        }
    }

    fn fulfil(&mut self, key: usize, wish: Wish) {
        match wish {
            Wish::Nothing => {}
            Wish::Leave => self.dismiss(key),
            Wish::Paint(dot) => self.canvas.put(dot),
            Wish::Blank => self.canvas.blank(),
            Wish::Redraw => {
                if let Some(guest) = self.guests.get_mut(key) {
                    guest.view.forget();
                }
            }
            Wish::Resize(columns, rows) => {
                if let Some(guest) = self.guests.get_mut(key) {
                    guest.view.resize(columns, rows);
                }
            }
        }
    }

    /// Does what a guest wants, for one turn at most, and shows all what has changed.
    fn serve(&mut self, registry: &Registry, key: usize) {
        let mut is_busy = true;
        for _ in 0..TURN {
            match self.guests.get_mut(key).and_then(|guest| guest.wish()) {
                Some(wish) => self.fulfil(key, wish),
                None => {
                    is_busy = false;
                    break;
                }
            }
        }
        self.show();
        if !is_busy {
            self.rest(registry, key);
        } else if let Some(guest) = self.guests.get_mut(key) {
            guest.is_busy = true;
        }
    }

    /// Does what the guests want of whom something came, and returns whether somebody knocks, and whether something came of the host.
    fn attend(&mut self, bell: &Bell) -> Came {
        let mut came = Came {
            knocks: false,
            host: false,
        };
        for event in bell.events.iter() {
            match event.token() {
                DOOR => came.knocks = true,
                HOST => came.host = true,
                Token(key) => {
                    self.hear(key);
                    self.serve(bell.registry(), key);
                }
            }
        }
        came
    }

    /// Waits for more of a guest. One who can't be watched leaves.
    fn rest(&mut self, registry: &Registry, key: usize) {
        if let Some(guest) = self.guests.get_mut(key) {
            if guest.watch(registry, Token(key)).is_err() {
                self.dismiss(key);
            }
        }
    }

    /// Gives those another turn whose last one ended too early, and returns whether there still are such guests.
    fn serve_busy(&mut self, registry: &Registry) -> bool {
        for key in 0..GUESTS {
            if self.guests.get(key).is_some_and(|guest| guest.is_busy) {
                self.serve(registry, key);
            }
        }
        self.guests.iter().any(|(_, guest)| guest.is_busy)
    }

    /// Turns away who knocks, since the system has no descriptor for one more guest. Returns whether that could be done.
    fn turn_away<N: Net>(&mut self, rt: &N, listener: &TcpListener) -> bool {
        self.spare = None;
        let is_done = match listener.accept() {
            Ok((stream, _)) => {
                let _ = TcpStream::from(stream).write_all(FULL);
                true
            }
            Err(_) => false,
        };
        self.spare = Poll::new(rt).ok();
        is_done
    }

    /// Lets in those who knock, so many at a time. Returns after how long the door is to be looked at again, and `None` if nobody knocks
    /// any more: the system reports a knock only once.
    fn open_door<N: Net>(
        &mut self,
        rt: &N,
        registry: &Registry,
        listener: &TcpListener,
    ) -> Option<Duration> {
        for _ in 0..GUESTS {
            match listener.accept() {
                // One who is gone again isn't let in.
                Ok((stream, _)) => {
                    let _ = self.admit(registry, TcpStream::from(stream));
                }
                Err(error) => match error.kind() {
                    ErrorKind::WouldBlock => return None,
                    ErrorKind::Interrupted | ErrorKind::ConnectionAborted => {}
                    _ => {
                        if !self.turn_away(rt, listener) {
                            return Some(Duration::from_millis(PAUSE));
                        }
                    }
                },
            }
        }
        Some(Duration::ZERO)
    }
}

/// The shorter of two limits, if there is one.
fn earlier(a: Option<Duration>, b: Option<Duration>) -> Option<Duration> {
    match (a, b) {
        (Some(a), Some(b)) => Some(a.min(b)),
        (None, limit) | (limit, None) => limit,
    }
}

/// Serves guests until the host ends that.
fn keep_open<N: Net + std::rt::Clock, R: Read + AsRawFd>(
    rt: &N,
    studio: &mut Studio,
    listener: &TcpListener,
    host: &mut Host<R>,
    bell: &mut Bell,
) -> io::Result<()> {
    let mut clock = SystemClock::new(rt);
    let mut door = None;
    let mut limit = None;
    for _ in 0..u64::MAX {
        bell.wait(limit)?;
        studio.now = clock.now();
        let came = studio.attend(bell);
        if came.host && host.ends(bell.registry(), HOST) {
            break;
        }
        if came.knocks {
            door = Some(Duration::ZERO);
        }
        if door.is_some() {
            door = studio.open_door(rt, bell.registry(), listener);
        }
        let silent = studio.dismiss_silent();
        limit = if studio.serve_busy(bell.registry()) {
            Some(Duration::ZERO)
        } else {
            earlier(door, silent)
        };
    }
    Ok(())
}

/// Takes leave of all guests, and returns when they have gone. Who doesn't take the farewell, or stays, is left after a second.
fn close<N: std::rt::Clock>(
    rt: &N,
    studio: &mut Studio,
    farewell: &[u8],
    bell: &mut Bell,
) -> io::Result<()> {
    let mut clock = SystemClock::new(rt);
    let begun = clock.now();
    for _ in 0..u64::MAX {
        studio.part(farewell);
        let gone = clock.now().saturating_sub(begun);
        if studio.guests.is_empty() || gone >= Duration::from_millis(PARTING) {
            break;
        }
        bell.wait(Some(Duration::from_millis(LOOK)))?;
    }
    Ok(())
}

/// Serves guests at a port of this machine, until the end of `input` or a line `quit` of it. Then all get a farewell. No guest ends the
/// server. One who says nothing for `silence` has to leave.
///
/// # Errors
///
/// The system's if it can't listen, watch or wait, and `OutOfMemory` if memory was refused at the beginning. No guest's fault is one.
pub fn serve<N: Net + std::rt::Clock, R: Read + AsRawFd + Drop>(
    rt: &N,
    alloc: Global,
    input: R,
    port: u16,
    silence: Duration,
) -> io::Result<()> {
    let address = SocketAddr::from((Ipv4Addr::LOCALHOST, port));
    let mut listener = TcpListener::bind(rt, address)?;
    let mut bell = Bell::new(rt, alloc)?;
    bell.registry()
        .register(&mut listener, DOOR, Interest::READABLE)?;
    let mut host = Host::new(input);
    if !host.watch(bell.registry(), HOST) {
        return Ok(());
    }
    let farewell = farewell(alloc)?;
    let mut studio = Studio {
        alloc,
        canvas: Canvas::new(alloc)?,
        guests: Slab::new(alloc),
        silence,
        now: Duration::ZERO,
        spare: Poll::new(rt).ok(),
    };
    let kept = keep_open(rt, &mut studio, &listener, &mut host, &mut bell);
    let closed = close(rt, &mut studio, &farewell, &mut bell);
    kept?;
    closed
}
