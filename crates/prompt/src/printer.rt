//! Texts that other threads print above the line.
ghost use Rattle.std.specs.Prelude.{◌≡◌, ℕ, IfErr, IfOk, List, string_bytes};
ghost use Rattle.std.specs.IoError.{error_kind};
ghost use Rattle.std.specs.declared.io.ErrorKind.TheVariants.{OutOfMemory};
ghost use Rattle.prompt.specs.Frames.{in_lines};
ghost use Rattle.prompt.specs.Printing.{PrintsAs};

use crossbeam_queue::SegQueue;
use crossterm::event::source::Waker;
use std::alloc::{AllocError, Global};
use std::io::{self, ErrorKind};
use std::marker::Model;
use std::sync::{Arc, Wait};

/// A text in whole lines: CR and LF are behind each.
#[derive(Drop)]
pub(crate) struct Note {
    text: String,
}

impl Model for Note {
    ghost use Rattle.std.specs.Prelude.{◌≡◌, ℕ, List, string_bytes};
    ghost use Rattle.prompt.specs.Frames.{in_lines};

    ghost Value = { List ℕ };

    ghost view = { λ n. string_bytes n.text };

    ghost invariant = { λ n. (of : List ℕ) × (string_bytes n.text ≡ in_lines of) };
}

impl Note {
    /// The text.
    pub(crate) fn text(&self) -> &str
        ensures { (of : List ℕ) × (result.now ≡ in_lines of) }
    {
        self.text.as_str()
    }
}

/// A text with CR and LF behind each of its lines.
fn in_lines(alloc: Global, text: &str) -> Result<String, AllocError>
    ensures { IfOk result (λ made. string_bytes made ≡ in_lines text.now) }
{
    let mut made = String::new(alloc);
    for line in text.lines() {
        made.push_str(line)?;
        made.push_str("\r\n")?;
    }
    Ok(made)
}

/// A text that is in whole lines.
fn noted(text: String) -> Note
    requires { (of : List ℕ) × (string_bytes text ≡ in_lines of) }
{
    Note { text }
}

/// Prints texts above a prompt's line, for other threads.
///
/// A text that is handed over while no line is asked for is printed above the next one.
///
/// ```
/// let printer = Printer::new(alloc, tty.waker()?)?;
/// let other = printer.share()?;
/// let thread = thread::spawn(&rt, move || other.print(&rt, "The build is done."))?;
/// let prompt = Prompt::new("> ").with_printer(&printer);
/// let read = prompt.read_line(&rt, &mut tty, &mut editor)?;
/// ```
#[derive(Drop)]
pub struct Printer {
    alloc: Global,
    notes: Arc<SegQueue<Note>>,
    waker: Waker,
}

impl Printer {
    /// A printer for the prompts of a session of which this is a waker.
    ///
    /// # Errors
    ///
    /// `AllocError`, and nothing was done.
    ///
    /// ```
    /// let printer = Printer::new(alloc, tty.waker()?)?;
    /// ```
    pub fn new(alloc: Global, waker: Waker) -> Result<Printer, AllocError>
        ensures { IfOk result (λ printer. printer.waker ≡ waker) }
    {
        let notes = Arc::new(alloc, SegQueue::new(alloc)?)?;
        Ok(Printer {
            alloc,
            notes,
            waker,
        })
    }

    /// The same printer, for another thread.
    ///
    /// # Errors
    ///
    /// `OutOfMemory` if no further share can be made.
    ///
    /// ```
    /// let other = printer.share()?;
    /// ```
    pub fn share(&self) -> io::Result<Printer>
        ensures same { IfOk result (PrintsAs self.now) }
        ensures err { IfErr result (λ e. error_kind e ≡ OutOfMemory) }
    {
        let waker = self.waker.share()?;
        let notes = Arc::try_clone(&self.notes)?;
        Ok(Printer {
            alloc: self.alloc,
            notes,
            waker,
        })
    }

    /// Hands over a text, whose lines are printed above the line that is asked for, which is then shown below them. The text is written as it
    /// is, but for line feeds: each line ends with CR and LF, the last one too.
    ///
    /// # Errors
    ///
    /// `OutOfMemory`, and nothing is printed. Else the system's, if nobody could be woken: then the text is printed after the next event.
    ///
    /// ```
    /// printer.print(rt, "The build is done.")?;
    /// ```
    pub fn print<R: Wait>(&self, rt: &R, text: &str) -> io::Result<()> {
        let note = noted(in_lines(self.alloc, text)?);
        match self.notes.push(rt, note) {
            Ok(()) => self.waker.wake(),
            Err(_) => Err(io::Error::from(ErrorKind::OutOfMemory)),
        }
    }

    /// The text that was handed over first and isn't printed yet.
    pub(crate) fn next<R: Wait>(&self, rt: &R) -> Option<Note> {
        self.notes.pop(rt)
    }
}
