//! Shows the events of a recording, each after the milliseconds that had passed since the beginning.
//!
//! `example replay FILE` shows them at once, and `example replay FILE --speed N` as they came, N times as fast. `--probe` writes what
//! came in the words of `probe play`, and `--cast` writes the format asciicast v2, so that a player of asciinema shows each event when it
//! came. `--front` after the file's name replays the whole lines of a recording that was cut, as by a full disk.

mod cast;

use bstr::ByteSlice;
use cast::Cast;
use crossterm::event::InternalEvent;
use crossterm::event::filter::EventFilter;
use crossterm::event::read::InternalEventReader;
use crossterm::event::source::{Act, Answer, Device, DeviceSource, Script, Waker};
use recorder::reading::{Session, Wrong, read_session};
use recorder::write_act;
use std::alloc::{AllocError, Global};
use std::fs::{self, Files};
use std::io::{self, Eprint, ErrorKind, Write};
use std::thread;
use std::time::{Clock, Duration};

/// What is written of a recording.
#[derive(Clone, Copy)]
enum Form {
    /// Its events, at once or so many times as fast as they came.
    Events(Option<u32>),
    /// What came, in the words of `probe play`.
    Probe,
    /// Lines of asciicast.
    Cast,
}

fn read_form(words: &[String]) -> Option<Form> {
    match words {
        [] => Some(Form::Events(None)),
        [word] if word.as_str() == "--probe" => Some(Form::Probe),
        [word] if word.as_str() == "--cast" => Some(Form::Cast),
        [word, speed] if word.as_str() == "--speed" => {
            Some(Form::Events(Some(speed.parse().ok()?)))
        }
        _ => None,
    }
}

/// Whether only the whole lines are replayed, and the form, as some words ask for them.
fn read_words(words: &[String]) -> Option<(bool, Form)> {
    match words {
        [word, rest @ ..] if word.as_str() == "--front" => Some((true, read_form(rest)?)),
        _ => Some((false, read_form(words)?)),
    }
}

/// A script that knows when each of its answers came, and waits for that if it has a speed.
#[derive(Drop)]
struct Player<'a, C> {
    clock: &'a C,
    script: Script,
    /// When each answer came, in milliseconds.
    times: Vec<u32>,
    answered: usize,
    speed: Option<u32>,
}

impl<'a, C: Clock> Player<'a, C> {
    fn new(
        alloc: Global,
        clock: &'a C,
        session: Session,
        speed: Option<u32>,
    ) -> Result<Player<'a, C>, AllocError> {
        let mut times = Vec::new(alloc);
        for (act, time) in session.acts.iter().zip(session.times.iter()) {
            for _ in 0..answers_of(act) {
                times.push(*time)?;
            }
        }
        Ok(Player {
            clock,
            script: Script::new(session.acts),
            times,
            answered: 0,
            speed,
        })
    }

    /// When the last answer came: 0 before the first one.
    fn time(&self) -> u32 {
        let last = self.answered.min(self.times.len()).checked_sub(1);
        last.and_then(|at| self.times.get(at).copied()).unwrap_or(0)
    }

    /// Whether all was answered, and the end of input too.
    fn is_over(&self) -> bool {
        self.times.len() < self.answered
    }

    /// Waits until the next answer comes.
    fn wait(&self) {
        let next = self.times.get(self.answered).copied().unwrap_or(0);
        let pause = next.saturating_sub(self.time());
        if let Some(speed) = self.speed {
            let millis = pause.checked_div(speed).unwrap_or(0);
            thread::sleep(self.clock, Duration::from_millis(u64::from(millis)));
        }
    }
}

/// How many answers a script makes of an act: it cuts long pieces into buffers of 1024 bytes.
fn answers_of(act: &Act) -> usize {
    match act {
        Act::Piece { bytes, .. } => bytes.len().div_ceil(1024),
        _ => 1,
    }
}

impl<C: Clock> Device for Player<'_, C> {
    ghost failed = { λ player. player.script.failed };

    fn answer(&mut self, buf: &mut [u8], limit: Option<Duration>) -> io::Result<Answer> {
        self.wait();
        self.answered = self.answered.saturating_add(1);
        self.script.answer(buf, limit)
    }

    fn failures(&self) -> u64 {
        self.script.failures()
    }

    fn waker(&self) -> io::Result<Waker> {
        self.script.waker()
    }
}

/// Writes a line for a failure that came at this time. Wake-ups have none.
fn write_fault<W: Write>(time: u32, error: io::Error, out: &mut W) -> io::Result<()> {
    match error.kind() {
        ErrorKind::Interrupted => Ok(()),
        ErrorKind::OutOfMemory => Err(error),
        kind => writeln!(out, "{time} fault {kind:?}"),
    }
}

/// Writes a line for what came at this time, if it is an event or a failure.
fn write_line<W: Write>(
    time: u32,
    next: io::Result<Option<InternalEvent>>,
    out: &mut W,
) -> io::Result<()> {
    match next {
        Ok(Some(InternalEvent::Event(event))) => writeln!(out, "{time} {event:?}"),
        Ok(_) => Ok(()),
        Err(error) => write_fault(time, error, out),
    }
}

/// A reader over a recording.
type Replay<'a, C> = InternalEventReader<DeviceSource<Player<'a, C>>>;

/// Reads once, and returns what came and when: `None` once all was read.
fn next<C: Clock>(reader: &mut Replay<'_, C>) -> Option<(u32, io::Result<Option<InternalEvent>>)> {
    let next = reader.read_within(1, &EventFilter);
    let player = reader.source().device();
    if next.is_err() && player.is_over() {
        return None;
    }
    Some((player.time(), next))
}

/// Writes the events and failures of a recording, each at once if it has a speed.
fn write_events<C: Clock, W: Write>(reader: &mut Replay<'_, C>, out: &mut W) -> io::Result<()> {
    for _ in 0..u64::MAX {
        let Some((time, next)) = next(reader) else {
            break;
        };
        write_line(time, next, out)?;
        if reader.source().device().speed.is_some() {
            out.flush()?;
        }
    }
    Ok(())
}

/// Writes the acts in the words of `probe play`, which has one word for all failures.
fn write_probe<W: Write>(alloc: Global, session: &Session, out: &mut W) -> io::Result<()> {
    let mut line = Vec::new(alloc);
    for act in session.acts.iter() {
        line.clear();
        if let Act::Fault(_) = act {
            line.extend_from_slice(b"fault\n")?;
        } else {
            write_act(&mut line, act)?;
        }
        out.write_all(line.as_slice())?;
    }
    Ok(())
}

/// The whole lines of a text, from its beginning.
fn whole_lines(text: &[u8]) -> &[u8] {
    let end = text.rfind_byte(b'\n').map_or(0, |at| at.saturating_add(1));
    &text[..end.min(text.len())]
}

/// Reads the recording in a file's text. Standard error says which line doesn't read, and why.
fn load<R: AllocGlobal + Eprint>(rt: &R, file: &str, text: &[u8]) -> io::Result<Session> {
    match read_session(&rt.alloc(), text) {
        Ok(session) => Ok(session),
        Err(bad) => {
            eprintln!(rt; "{file}: {bad}")?;
            if bad.reason == Wrong::Unended {
                eprintln!(rt; "{file}: the recording was cut; --front replays the lines before")?;
            }
            Err(io::Error::new(ErrorKind::InvalidData, "the file is no recording"))
        }
    }
}

/// A reader over the recording in a file's text.
fn replay<'a, R: AllocGlobal + Clock + Eprint>(
    rt: &'a R,
    file: &str,
    text: &[u8],
    speed: Option<u32>,
) -> io::Result<Replay<'a, R>> {
    let alloc = rt.alloc();
    let player = Player::new(alloc, rt, load(rt, file, text)?, speed)?;
    Ok(InternalEventReader::new(alloc, DeviceSource::new(alloc, player)))
}

/// Writes the recording in a file's text in a form.
fn write<R: AllocGlobal + Clock + Eprint, W: Write>(
    rt: &R,
    file: &str,
    text: &[u8],
    form: Form,
    out: &mut W,
) -> io::Result<()> {
    let alloc = rt.alloc();
    match form {
        Form::Events(speed) => write_events(&mut replay(rt, file, text, speed)?, out),
        Form::Probe => write_probe(alloc, &load(rt, file, text)?, out),
        Form::Cast => {
            let mut cast = Cast::new(alloc, load(rt, file, text)?);
            cast.write_header(text, out)?;
            cast.write(&mut replay(rt, file, text, None)?, out)
        }
    }
}

/// Writes the recording of a file in the form that some words ask for.
///
/// # Errors
///
/// `InvalidInput` if the words name no form, and `InvalidData` if the file is no recording: then standard error says why. Else those of the
/// file and the output, and `OutOfMemory` if memory was refused.
pub fn run<R: AllocGlobal + Files + Clock + Eprint, W: Write>(
    rt: &R,
    file: &str,
    words: &[String],
    out: &mut W,
) -> io::Result<()> {
    let Some((is_front, form)) = read_words(words) else {
        let usage = "behind FILE: [--front] [--speed N | --probe | --cast]";
        return Err(io::Error::new(ErrorKind::InvalidInput, usage));
    };
    let text = fs::read(rt, file)?;
    let text = text.as_slice();
    write(
        rt,
        file,
        if is_front { whole_lines(text) } else { text },
        form,
        out,
    )?;
    out.flush()
}
