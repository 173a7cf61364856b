//! Shows each event of the terminal as it comes, and records what the terminal sends.
//!
//! `example record FILE` runs it in a terminal; Esc ends it. The last row shows how many events came, and why the recording ended if it did.
//! `example replay FILE` shows the same events again.
//!
//! All that is typed is in the file, passwords too: only its owner may read it. A file that is there is kept, unless `--over` follows its
//! name; then it is written over, and who may read it stays. The first line is `# size COLUMNS ROWS`, the window's size at the beginning.

use crossterm::cursor::MoveTo;
use crossterm::event::source::DeviceSource;
use crossterm::event::timeout::{Clock, SystemClock};
use crossterm::event::{Event, KeyCode};
use crossterm::style::ColorOutput;
use crossterm::terminal::{Clear, ClearType, SttyDevice};
use crossterm::{QueueableCommand, queue};
use own_terminal::{Feature, Input, Session};
use recorder::{Recorder, Watch};
use std::alloc::Global;
use std::fs::{File, Files};
use std::io::{self, BufWriter, ErrorKind, Stdin, Stdout, Write};
use std::net::Net;
use std::os::unix::fs::OpenOptionsExt;
use std::rt::{HostRuntime, Runtime};
use std::sync::Wait;
use std::time::Duration;

const COLORS: ColorOutput = ColorOutput::Enabled;

/// The session of a terminal whose answers are recorded. `R` is the type of `main`'s argument.
pub type Recorded<'a, R = HostRuntime> = Session<
    DeviceSource<Recorder<Input, File, SystemClock<'a, R>>>,
    SttyDevice<File, File>,
    BufWriter<Stdout>,
    SystemClock<'a, R>,
>;

/// What is shown.
#[derive(Drop)]
struct View {
    /// How many rows the window has.
    rows: u16,
    /// How many events came.
    events: u64,
}

/// Makes the file of a recording. If `is_over` holds, one that is there is written over.
fn create<R: Runtime + Files<File = File>>(rt: &R, file: &str, is_over: bool) -> io::Result<File> {
    let mut options = File::options();
    options.write(true).mode(0o600);
    if is_over {
        options.create(true).truncate(true);
    } else {
        options.create_new(true);
    }
    match options.open(rt, file) {
        Err(error) if error.kind() == ErrorKind::AlreadyExists => {
            eprintln!(rt; "record: {file} is there already; record {file} --over writes over it")?;
            Err(error)
        }
        opened => opened,
    }
}

/// Opens the terminal, with a recorder over what it reports, and a watch that reports why the recording ended. If `is_over` holds, a file
/// that is there is written over.
///
/// # Errors
///
/// `AlreadyExists` if the file is there, and standard error says what to do; else those of the file and of `own_terminal::open`, and
/// `OutOfMemory` if memory was refused.
pub fn open<'a, R>(
    rt: &'a R,
    input: Stdin,
    out: Stdout,
    file: &str,
    is_over: bool,
    folder: &str,
) -> io::Result<(Recorded<'a, R>, Watch)>
where
    R: Runtime + Alloc<A = Global> + Files<File = File> + Net + Wait,
{
    let alloc = rt.alloc();
    let watch = Watch::new(alloc)?;
    let mut file = create(rt, file, is_over)?;
    let (input, mut term) = own_terminal::open(rt, alloc, input, folder)?;
    let size = term.window_size()?;
    writeln!(file, "# size {} {}", size.columns, size.rows)?;
    let device = Recorder::new(alloc, input, file, SystemClock::new(rt)).watched(watch.share()?);
    let out = BufWriter::new(alloc, out)?;
    let tty = Session::over(rt, alloc, device, term, out, SystemClock::new(rt))?;
    Ok((tty, watch))
}

/// Begins the last row anew.
fn clear_last_row(tty: &mut Recorded<'_>, rows: u16) -> io::Result<()> {
    queue!(tty.out, COLORS, MoveTo(0, rows.saturating_sub(1)))?;
    queue!(tty.out, COLORS, Clear(ClearType::CurrentLine))
}

/// Shows an event above the last row, and returns whether it is the last one.
fn show(tty: &mut Recorded<'_>, view: &mut View, event: &Event) -> io::Result<bool> {
    if let Event::Resize(_, rows) = event {
        view.rows = *rows;
    }
    view.events = view.events.saturating_add(1);
    clear_last_row(tty, view.rows)?;
    write!(tty.out, "{event:?}\r\n")?;
    Ok(matches!(event, Event::Key(key) if key.code == KeyCode::Esc))
}

/// Shows on the last row how far the recording is.
fn report(tty: &mut Recorded<'_>, watch: &Watch, view: &View) -> io::Result<()> {
    clear_last_row(tty, view.rows)?;
    let seconds = tty.clock.now().as_secs();
    let events = view.events;
    match watch.stopped() {
        None => write!(tty.out, "{seconds} s, {events} events; Esc ends"),
        Some(stop) => write!(tty.out, "the recording ended: {stop}"),
    }
}

/// Shows what comes within a second, and returns whether it was the last event.
fn turn(
    rt: &impl Wait,
    tty: &mut Recorded<'_>,
    watch: &Watch,
    view: &mut View,
) -> io::Result<bool> {
    let is_over = match tty.read_within(rt, Duration::from_secs(1))? {
        Some(event) => show(tty, view, &event)?,
        None => false,
    };
    report(tty, watch, view)?;
    tty.out.flush()?;
    Ok(is_over)
}

/// Shows events until the last one, or the end of input.
///
/// # Errors
///
/// Those of the terminal and its writer, but for the end of input. A recording that ended is shown, and is no error.
pub fn run(rt: &impl Wait, tty: &mut Recorded<'_>, watch: &Watch) -> io::Result<()> {
    tty.enable_raw_mode()?;
    tty.turn_on(Feature::BracketedPaste)?;
    tty.turn_on(Feature::FocusChange)?;
    tty.turn_on(Feature::MouseCapture)?;
    let (_, rows) = tty.size()?;
    let mut view = View { rows, events: 0 };
    for _ in rt.forever() {
        match turn(rt, tty, watch, &mut view) {
            Ok(false) => {}
            Ok(true) => break,
            Err(error) if error.kind() == ErrorKind::UnexpectedEof => break,
            Err(error) => return Err(error),
        }
    }
    tty.out.write_all(b"\r\n")
}
