//! A terminal program of one's own: its session with the terminal that `terminal/with_terminal` started it in.
//!
//! ```
//! fn show(rt: &impl Wait, tty: &mut Tty<'_>) -> io::Result<()> {
//!     for _ in rt.forever() {
//!         let event = tty.read(rt)?;
//!         write!(tty.out, "{event:?}\r\n")?;
//!         tty.out.flush()?;
//!         if event == Event::Key(KeyCode::Esc.into()) {
//!             break;
//!         }
//!     }
//!     Ok(())
//! }
//!
//! fn main(rt: HostRuntime) -> io::Result<()> {
//!     let mut tty = own_terminal::start(&rt, rt.stdin(), rt.stdout())?;
//!     tty.enable_raw_mode()?;
//!     tty.turn_on(Feature::MouseCapture)?;
//!     show(&rt, &mut tty)
//! }
//! ```
//!
//! The library opens nothing by itself, so the pipes of `with_terminal` are opened here. A session is dropped at the end of `main` or by a
//! `?`. Then all that it switched on is off again, and the terminal's mode is the one from before.
//!
//! What is proved, beyond safety:
//!
//! | Proved | By the contract of |
//! |---|---|
//! | a feature that is turned on writes exactly its text, and is listed, also if the writer fails; one that is turned off is the last of its kind, and stays listed if the writer fails; leaving empties the list, and if it succeeds it wrote what turns each off, the last one first, and set the mode from before; at an error each end was written whole, in part or not at all, and the device did what its clause says | `Session::{turn_on, turn_off, leave, enable_raw_mode, disable_raw_mode}` |
//! | events are read by the calls of the only pass of a new reader; polls, queries and sizes are those of the libraries, and leave the list of features alone | `Session::{over, over_source, read, read_within, poll, position, supports_keyboard_enhancement, size}` |
//! | further shares of a session's events are as many as were asked for, of the session's reader, and each read or poll is the next call of its own pass in the one history; a stream reads by such a pass too | `Session::{over_shared, over_streaming}`, `start_shared`, `start_streaming`, `Events::{read, read_within, poll}` |
//!
//! What to believe, in the order in which it reads (`specs/`), and the contracts that it is proved by:
//!
//! | Definitions | Of | Contract |
//! |---|---|---|
//! | `Features` | the texts that switch features on and off, and which is the last of a kind | `Session::{turn_on, turn_off, leave}` |
//! | `Sessions` | the mode that a session ends, and how it begins | `Session::{over, over_source, over_shared, over_streaming, leave, disable_raw_mode}` |
//!
//! A function's proof is in `proofs/` at the function's path; if there is no file, the prover found it by itself.
#![tactic(auto)]

ghost use Rattle.std.specs.Prelude.{◌≡◌, [], All, IfOk, None, length};
ghost use Rattle.crossterm_read.specs.Shared.{IsShareOf};

mod events;
mod feature;
mod session;

use crossterm::event::EventStream;
use crossterm::event::source::{DeviceSource, PolledDevice, RawFlag};
use crossterm::event::timeout::SystemClock;
use crossterm::terminal::{SttyDevice, Terminal};
pub use events::Events;
pub use feature::Feature;
pub use session::{Session, WithShares, WithStream};
use std::alloc::{Alloc, AllocError, Global};
use std::env;
use std::fs::{File, Files};
use std::io::{self, BufWriter, ErrorKind, Stdin, Stdout};
use std::net::Net;
use std::rt::{HostRuntime, Runtime};
use std::sync::Wait;
use std::thread::Threads;

/// What the terminal reports: the bytes of standard input, and the window's sizes.
pub type Input = PolledDevice<Stdin>;

/// The terminal's modes, which a helper beside the program switches.
pub type Modes = Terminal<SttyDevice<File, File>>;

/// The session of a program in a terminal, as `start` returns it. `R` is the type of `main`'s argument.
pub type Tty<'a, R = HostRuntime> = Session<
    DeviceSource<Input>,
    SttyDevice<File, File>,
    BufWriter<Stdout>,
    SystemClock<'a, R>,
>;

/// The path of a name in a folder.
fn path_of(alloc: Global, folder: &str, name: &str) -> Result<String, AllocError> {
    let mut path = String::from_str(alloc, folder)?;
    path.push_str("/")?;
    path.push_str(name)?;
    Ok(path)
}

/// Opens one of the pipes. It is opened for reading and writing, so that this doesn't wait for its other end.
fn pipe<R: Files<File = File>>(
    rt: &R,
    alloc: Global,
    folder: &str,
    name: &str,
) -> io::Result<File> {
    let path = path_of(alloc, folder, name)?;
    File::options().read(true).write(true).open(rt, path)
}

/// The terminal that the program was started in. `folder` is the program's last argument, and holds the pipes.
///
/// # Errors
///
/// `OutOfMemory`; the system's error if a pipe can't be opened or watched; that of `SttyDevice::new` if the helper doesn't answer.
pub fn open<R: Files<File = File> + Net>(
    rt: &R,
    alloc: Global,
    input: Stdin,
    folder: &str,
) -> io::Result<(Input, Modes)>
    ensures { IfOk result (λ both. both.1.prior ≡ None) }
{
    let raw = RawFlag::new(alloc)?;
    let sizes = pipe(rt, alloc, folder, "sizes")?;
    let input = PolledDevice::new(rt, alloc, input, raw.share()?, Some(sizes))?;
    let device = SttyDevice::new(
        pipe(rt, alloc, folder, "answer")?,
        pipe(rt, alloc, folder, "ask")?,
    )?;
    Ok((input, Terminal::new(device, raw)))
}

/// The program's arguments, and behind them the folder of the pipes, which `with_terminal` adds.
///
/// # Errors
///
/// `InvalidInput` if there is no argument, since `with_terminal` didn't start the program, and standard error says so; `InvalidData` if one
/// isn't UTF-8; `OutOfMemory`.
///
/// ```
/// let (words, folder) = own_terminal::arguments(&rt)?;
/// let (input, term) = own_terminal::open(&rt, rt.alloc(), rt.stdin(), folder.as_str())?;
/// ```
pub fn arguments<R: Runtime + Alloc<A = Global>>(rt: &R) -> io::Result<(Vec<String>, String)> {
    let mut words: Vec<String> = env::args(rt)?.skip(1).collect(rt.alloc())?;
    match words.pop() {
        Some(folder) => Ok((words, folder)),
        None => {
            eprintln!(rt; "this program needs a terminal: start it by terminal/with_terminal")?;
            Err(io::Error::new(
                ErrorKind::InvalidInput,
                "no folder of pipes as the last argument",
            ))
        }
    }
}

/// What the terminal reports, its modes, and the output with a buffer.
fn open_all<R>(rt: &R, input: Stdin, out: Stdout) -> io::Result<(Input, Modes, BufWriter<Stdout>)>
where
    R: Runtime + Alloc<A = Global> + Files<File = File> + Net,
    ensures { IfOk result (λ parts. parts.1.prior ≡ None) }
{
    let alloc = rt.alloc();
    let (_, folder) = arguments(rt)?;
    let out = BufWriter::new(alloc, out)?;
    let (input, term) = open(rt, alloc, input, folder.as_str())?;
    Ok((input, term, out))
}

/// The session with the terminal that `terminal/with_terminal` started the program in. Its output is buffered.
///
/// # Errors
///
/// `InvalidInput` if the program has no argument, since `with_terminal` didn't start it, and standard error says so; else those of `open`.
pub fn start<'a, R>(rt: &'a R, input: Stdin, out: Stdout) -> io::Result<Tty<'a, R>>
where
    R: Runtime + Alloc<A = Global> + Files<File = File> + Net + Wait,
    ensures nothing { IfOk result (λ s. (s.features.items ≡ []) × (s.term.prior ≡ None)) }
{
    let (device, term, out) = open_all(rt, input, out)?;
    Session::over(rt, rt.alloc(), device, term, out, SystemClock::new(rt))
}

/// The same, with so many more shares of the events, one for each further thread that reads.
///
/// # Errors
///
/// Those of `start`.
///
/// ```
/// let (mut tty, mut others) = own_terminal::start_shared(&rt, rt.stdin(), rt.stdout(), 1)?;
/// ```
pub fn start_shared<'a, R>(
    rt: &'a R,
    input: Stdin,
    out: Stdout,
    others: usize,
) -> io::Result<(Tty<'a, R>, Vec<Events<DeviceSource<Input>>>)>
where
    R: Runtime + Alloc<A = Global> + Files<File = File> + Net + Wait,
    ensures nothing { IfOk result (λ r. (r.0.features.items ≡ []) × (r.0.term.prior ≡ None)) }
    ensures others { IfOk result (λ r. length r.1.items ≡ others) }
    ensures shared { IfOk result (λ r. All (λ e. IsShareOf e.reader r.0.reader) r.1.items) }
{
    let (device, term, out) = open_all(rt, input, out)?;
    Session::over_shared(
        rt,
        rt.alloc(),
        device,
        term,
        out,
        SystemClock::new(rt),
        others,
    )
}

/// The same, with a stream of the events, which polls the terminal in a thread of its own.
///
/// # Errors
///
/// Those of `start`, and `OutOfMemory` if the thread can't be started.
///
/// ```
/// let (mut tty, mut events) = own_terminal::start_streaming(&rt, rt.stdin(), rt.stdout())?;
/// while let Some(event) = block_on(&rt, events.next())? {
///     show(&mut tty, event?)?;
/// }
/// ```
pub fn start_streaming<'a, R>(
    rt: &'a R,
    input: Stdin,
    out: Stdout,
) -> io::Result<(Tty<'a, R>, EventStream<DeviceSource<Input>, R>)>
where
    R: Runtime
        + Alloc<A = Global>
        + Files<File = File>
        + Net
        + Threads
        + Wait
        + Copy
        + Send
        + Drop
        + 'static,
    ensures nothing { IfOk result (λ r. (r.0.features.items ≡ []) × (r.0.term.prior ≡ None)) }
    ensures shared { IfOk result (λ r. IsShareOf r.1.reader r.0.reader) }
{
    let (device, term, out) = open_all(rt, input, out)?;
    Session::over_streaming(*rt, rt.alloc(), device, term, out, SystemClock::new(rt))
}
