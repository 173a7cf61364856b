//! Keys that are taken one after another in one way: for who counts instructions.
ghost use Rattle.crossterm_read.specs.Shared.{IsPassOf};

use crate::bench::input::print;
use crate::bench::letters::Letters;
use crate::fault::Fault;
use crossterm::event::filter::EventFilter;
use crossterm::event::read::InternalEventReader;
use crossterm::event::source::DeviceSource;
use crossterm::event::timeout::SystemClock;
use crossterm::event::{Event, EventReader, EventStream, InternalEvent, KeyCode, KeyEvent, Pass};
use futures::task::Poll;
use futures::test::MockTask;
use std::alloc::{AllocGlobal, Global};
use std::io::{self, ErrorKind, Write};
use std::random::RandomSource;
use std::rt::Clock;
use std::sync::Wait;
use std::thread::Threads;
use std::time::Duration;

/// A way in which a key is taken.
#[derive(Clone, Copy)]
enum Way {
    /// By a read of one thread's reader.
    Read,
    /// The same, if they come 1024 at once. Otherwise each comes alone.
    Burst,
    /// By a poll of it, and a take.
    Poll,
    /// By a read of a shared reader.
    Shared,
    /// By one within a limit.
    Within,
    /// By a poll of a stream.
    Stream,
}

/// The reader of one thread.
type Reader = InternalEventReader<DeviceSource<Letters>>;

/// A reader of letters that come so many at once.
fn reader(alloc: Global, at_once: usize) -> Reader {
    InternalEventReader::new(alloc, DeviceSource::new(alloc, Letters::new(at_once)))
}

/// Whether it is the key of a letter: so each key is looked at.
fn is_letter(event: &Event) -> bool {
    matches!(
        event,
        Event::Key(KeyEvent {
            code: KeyCode::Char('a'..='z'),
            ..
        })
    )
}

fn is_internal_letter(event: &Option<InternalEvent>) -> bool {
    match event {
        Some(InternalEvent::Event(event)) => is_letter(event),
        _ => false,
    }
}

/// Takes so many keys, and returns how many of letters came.
fn read(alloc: Global, at_once: usize, count: u32) -> io::Result<u32> {
    let mut reader = reader(alloc, at_once);
    let mut taken: u32 = 0;
    for _ in 0..count {
        let event = reader.read_within(1, &EventFilter)?;
        if is_internal_letter(&event) {
            taken = taken.saturating_add(1);
        }
    }
    Ok(taken)
}

/// The same by a poll before each take.
fn poll(alloc: Global, count: u32) -> io::Result<u32> {
    let mut reader = reader(alloc, 1);
    let mut taken: u32 = 0;
    for _ in 0..count {
        if reader.poll_within(1, &EventFilter)? {
            let event = reader.take(&EventFilter);
            if is_internal_letter(&event) {
                taken = taken.saturating_add(1);
            }
        }
    }
    Ok(taken)
}

fn no_pass() -> io::Error {
    io::Error::from(ErrorKind::NotFound)
}

/// The same by reads of a shared reader by one pass.
fn read_by<H: Wait>(
    rt: &H,
    shared: &EventReader<DeviceSource<Letters>>,
    pass: Pass<DeviceSource<Letters>>,
    count: u32,
) -> io::Result<u32>
    requires { IsPassOf shared.now pass }
{
    let mut pass = pass;
    let mut taken: u32 = 0;
    for _i in 0..count {
        let event = shared.read(rt, &mut pass)?;
        if is_letter(&event) {
            taken = taken.saturating_add(1);
        }
    }
    Ok(taken)
}

/// The same by reads within a limit.
fn read_for<H: Wait + Clock>(
    rt: &H,
    shared: &EventReader<DeviceSource<Letters>>,
    pass: Pass<DeviceSource<Letters>>,
    count: u32,
) -> io::Result<u32>
    requires { IsPassOf shared.now pass }
{
    let mut pass = pass;
    let mut clock = SystemClock::new(rt);
    let limit = Some(Duration::from_secs(1));
    let mut taken: u32 = 0;
    for _i in 0..count {
        if let Some(event) = shared.read_for(rt, &mut pass, limit, &mut clock)? {
            if is_letter(&event) {
                taken = taken.saturating_add(1);
            }
        }
    }
    Ok(taken)
}

fn shared<H: Wait>(rt: &H, alloc: Global, count: u32) -> io::Result<u32> {
    let (shared, mut passes) = EventReader::new(rt, alloc, reader(alloc, 1), 1)?;
    match passes.pop() {
        Some(pass) => read_by(rt, &shared, pass, count),
        None => Err(no_pass()),
    }
}

fn within<H: Wait + Clock>(rt: &H, alloc: Global, count: u32) -> io::Result<u32> {
    let (shared, mut passes) = EventReader::new(rt, alloc, reader(alloc, 1), 1)?;
    match passes.pop() {
        Some(pass) => read_for(rt, &shared, pass, count),
        None => Err(no_pass()),
    }
}

/// The same by a stream.
fn streamed<H>(rt: H, alloc: Global, count: u32) -> io::Result<u32>
where
    H: Threads + Wait + RandomSource + AllocGlobal + Copy + Send + Drop + 'static,
{
    let (shared, mut passes) = EventReader::new(&rt, alloc, reader(alloc, 1), 2)?;
    let (Some(other), Some(pass)) = (passes.pop(), passes.pop()) else {
        return Err(no_pass());
    };
    let mut stream = EventStream::new(rt, alloc, &shared, pass, other)?;
    let task = MockTask::new(&rt)?;
    let mut taken: u32 = 0;
    for _ in 0..count {
        if let Poll::Ready(Ok(event)) = task.enter(|cx| stream.poll_event(cx)) {
            if is_letter(&event) {
                taken = taken.saturating_add(1);
            }
        }
    }
    Ok(taken)
}

impl Way {
    /// The way of a name.
    fn named(name: &str) -> Option<Way> {
        match name {
            "read" => Some(Way::Read),
            "burst" => Some(Way::Burst),
            "poll" => Some(Way::Poll),
            "shared" => Some(Way::Shared),
            "within" => Some(Way::Within),
            "stream" => Some(Way::Stream),
            _ => None,
        }
    }
}

/// So many keys that are taken in one way.
#[derive(Clone, Copy)]
pub struct Taking {
    way: Way,
    keys: u32,
}

impl Taking {
    /// What the words after `bench` ask for, if they are `take`, a way and a number.
    pub fn read(words: &[String]) -> Option<Taking> {
        match words {
            [first, name, keys] if first.as_str() == "take" => Some(Taking {
                way: Way::named(name.as_str())?,
                keys: keys.parse().ok()?,
            }),
            _ => None,
        }
    }

    fn take<H>(self, rt: H, alloc: Global) -> io::Result<u32>
    where
        H: Threads + Wait + Clock + RandomSource + AllocGlobal + Copy + Send + Drop + 'static,
    {
        match self.way {
            Way::Read => read(alloc, 1, self.keys),
            Way::Burst => read(alloc, 1024, self.keys),
            Way::Poll => poll(alloc, self.keys),
            Way::Shared => shared(&rt, alloc, self.keys),
            Way::Within => within(&rt, alloc, self.keys),
            Way::Stream => streamed(rt, alloc, self.keys),
        }
    }

    /// Takes them, and prints how many came.
    pub fn run<H, W: Write>(self, rt: H, writer: &mut W) -> Result<(), Fault>
    where
        H: Threads + Wait + Clock + RandomSource + AllocGlobal + Copy + Send + Drop + 'static,
    {
        match self.take(rt, rt.alloc()) {
            Ok(taken) => print(writer, format_args!("keys {taken}")),
            Err(error) => Err(Fault::of_read(&error)),
        }
    }
}
