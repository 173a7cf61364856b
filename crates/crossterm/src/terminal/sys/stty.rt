//! The modes of a terminal by a helper beside the program, which runs `stty`.
//!
//! A program can't switch a terminal's modes by itself here. The script `with_terminal` starts it beside a helper that can: it is asked by
//! lines and answers by lines, of ASCII and at most 255 bytes each.
//!
//! | Request | Answer |
//! |---|---|
//! | `mode` | the mode that is set, as `stty -g` writes it |
//! | `raw` | the same, after raw mode was set |
//! | `set MODE` | the same, after this mode was set |
//! | `size` | two lines: the rows, the columns |
//!
//! `failed` in the place of a mode is a refusal, and so is 0 as the number of rows or columns.
ghost use Rattle.std.specs.Prelude.{◌≡◌, ◌∷◌, ◌++◌, [], ℕ, List, Some, codes, IfOk, OnOk, OnErr};
ghost use Rattle.std.specs.Io.KnownBytes.{Appends, Consumes};
ghost use Rattle.crossterm_command.specs.Writing.{AppendsFront};
ghost use Rattle.crossterm.specs.Modes.{Sets};
ghost use Rattle.crossterm.specs.Sizes.{both, size_in};
ghost use Rattle.crossterm.specs.Stty.{AsksNoSize, AsksSize, IsMode, ReadsNoLine, ReadsNoMode, ReadsNoSize, Stty, line_of, stty_answered};

use crate::terminal::size::{WindowSize, tput_size};
use crate::terminal::sys::unix::{ModeDevice, send_query};
use arrayvec::ArrayString;
use std::io::{self, ErrorKind, Read, Write};
use std::marker::Model;

/// How many bytes a line has at most, without its end.
const LONGEST: usize = 255;

// How often a read is made again that a signal interrupted.
const INTERRUPTIONS: usize = 64;

// What a program prints of the helper's failures.
const HAS_ENDED: &str = "the terminal's helper has ended";

const IS_NO_LINE: &str = "the terminal's helper didn't answer by a line of ASCII";

const NO_MODE: &str = "the terminal's helper failed: no mode was set or reported";

const NO_SIZE: &str = "the terminal's helper failed: no size is known";

const OTHER_MODE: &str = "the terminal's helper set another mode";

/// A mode of a terminal, as `stty -g` writes it.
#[derive(Clone, Copy, PartialEq, Eq, Debug)]
pub struct SttyMode {
    /// What `stty -g` wrote, without the end of the line.
    pub text: ArrayString<LONGEST>,
}

/// Switches a terminal's modes and reports its size by a helper that runs `stty`: requests are written, and answers are read.
///
/// Its mode is the one that the helper reported last. What someone else sets in between isn't seen.
#[derive(Drop)]
pub struct SttyDevice<R, W> {
    answers: R,
    requests: W,
    mode: SttyMode,
    failures: u64,
}

impl<R, W> Model for SttyDevice<R, W> {
    ghost Value = { Stty R W };

    ghost view = { λ s. record { answers = s.answers; requests = s.requests; mode = s.mode; failures = s.failures } };
}

// Reads one byte.
fn read_byte<R: Read>(answers: &mut R) -> io::Result<u8>
    ensures ok { IfOk result (λ byte. Consumes (R.remaining answers.old) (R.remaining answers.new) (byte ∷ [])) }
    ensures err { OnErr result (Consumes (R.remaining answers.old) (R.remaining answers.new) []) }
{
    let mut byte = [0u8; 1];
    for _ in 0..=INTERRUPTIONS {
        match answers.read(&mut byte) {
            Ok(0) => return Err(io::Error::new(ErrorKind::UnexpectedEof, HAS_ENDED)),
            Ok(_) => return Ok(byte[0]),
            Err(error) => {
                if error.kind() != ErrorKind::Interrupted {
                    return Err(error);
                }
            }
        }
    }
    Err(io::Error::from(ErrorKind::Interrupted))
}

// Reads one line, and gives it without its end.
fn read_line<R: Read>(answers: &mut R) -> io::Result<ArrayString<LONGEST>>
    ensures ok { IfOk result (λ text. Consumes (R.remaining answers.old) (R.remaining answers.new) (line_of text.bytes)) }
    ensures err { OnErr result (ReadsNoLine (R.remaining answers.old) (R.remaining answers.new)) }
{
    let mut text = ArrayString::<LONGEST>::new();
    for _ in 0..=LONGEST {
        match read_byte(answers) {
            Ok(b'\n') => return Ok(text),
            Ok(byte) => {
                if byte > 127 || text.len() == LONGEST {
                    return Err(io::Error::new(ErrorKind::InvalidData, IS_NO_LINE));
                }
                text.push(char::from(byte));
            }
            Err(error) => return Err(error),
        }
    }
    Err(io::Error::new(ErrorKind::InvalidData, IS_NO_LINE))
}

// Reads a mode.
fn read_mode<R: Read>(answers: &mut R) -> io::Result<SttyMode>
    ensures ok { IfOk result (λ mode. Consumes (R.remaining answers.old) (R.remaining answers.new) (line_of mode.text.bytes) × IsMode mode.text.bytes) }
    ensures err { OnErr result (ReadsNoMode (R.remaining answers.old) (R.remaining answers.new)) }
{
    match read_line(answers) {
        Ok(text) => match text.as_str() {
            "" | "failed" => Err(io::Error::other(NO_MODE)),
            _ => Ok(SttyMode { text }),
        },
        Err(error) => Err(error),
    }
}

// Reads a size: a line of rows, and a line of columns. Returns columns and rows.
fn read_size<R: Read>(answers: &mut R) -> io::Result<(u16, u16)>
    ensures ok { IfOk result (λ size. (rows : List ℕ) × (columns : List ℕ) × Consumes (R.remaining answers.old) (R.remaining answers.new) (line_of rows ++ line_of columns)
        × (both (size_in columns) (size_in rows) ≡ Some size)) }
    ensures err { OnErr result (ReadsNoSize (R.remaining answers.old) (R.remaining answers.new)) }
{
    let rows = match read_line(answers) {
        Ok(rows) => rows,
        Err(error) => return Err(error),
    };
    let columns = match read_line(answers) {
        Ok(columns) => columns,
        Err(error) => return Err(error),
    };
    match tput_size(columns.as_str().as_bytes(), rows.as_str().as_bytes()) {
        Some(size) => Ok(size),
        None => Err(io::Error::other(NO_SIZE)),
    }
}

impl<R: Read + Drop, W: Write + Drop> SttyDevice<R, W> {
    /// A device over a helper, which is asked for the mode that is set.
    ///
    /// # Errors
    ///
    /// Those of the reader and the writer, `UnexpectedEof` if the helper is gone among them; `InvalidData` if what it answers is no line;
    /// `Other` if it refuses.
    pub fn new(mut answers: R, mut requests: W) -> io::Result<Self>
        ensures { IfOk result (λ s. Appends (W.contents requests) (W.contents s.requests) (line_of (codes "mode"))
            × Consumes (R.remaining answers) (R.remaining s.answers) (line_of s.mode.text.bytes) × IsMode s.mode.text.bytes × (s.failures ≡ 0)) }
    {
        send_query(&mut requests, "mode\n")?;
        let mode = read_mode(&mut answers)?;
        Ok(SttyDevice {
            answers,
            requests,
            mode,
            failures: 0,
        })
    }

    // Asks by a line, and keeps the mode that is reported for it.
    fn ask_mode(&mut self, request: &str) -> io::Result<()>
        ensures ok { OnOk result (Appends (W.contents self.old.requests) (W.contents self.new.requests) request.now
            × Consumes (R.remaining self.old.answers) (R.remaining self.new.answers) (line_of self.new.mode.text.bytes) × IsMode self.new.mode.text.bytes) }
        ensures err { OnErr result (AppendsFront (W.contents self.old.requests) (W.contents self.new.requests) request.now
            × ReadsNoMode (R.remaining self.old.answers) (R.remaining self.new.answers) × (self.new.mode ≡ self.old.mode)) }
        ensures failures { self.new.failures ≡ self.old.failures }
    {
        match send_query(&mut self.requests, request) {
            Ok(()) => {}
            Err(error) => return Err(error),
        }
        match read_mode(&mut self.answers) {
            Ok(mode) => {
                self.mode = mode;
                Ok(())
            }
            Err(error) => Err(error),
        }
    }

    // Sets a mode, and asks whether it is set.
    fn try_set_mode(&mut self, mode: &SttyMode) -> io::Result<()>
        ensures asked { stty_answered R.remaining W.contents self.old (Sets mode.now result) self.new }
        ensures failures { self.new.failures ≡ self.old.failures }
    {
        let mut request = ArrayString::<260>::new();
        request.push_str("set ");
        request.push_str(mode.text.as_str());
        request.push_str("\n");
        self.ask_mode(request.as_str())?;
        if self.mode != *mode {
            return Err(io::Error::other(OTHER_MODE));
        }
        self.mode = *mode;
        Ok(())
    }

    // Asks for the window's size.
    fn try_window_size(&mut self) -> io::Result<WindowSize>
        ensures ok { IfOk result (λ size. AsksSize R.remaining W.contents self.old size self.new) }
        ensures err { OnErr result (AsksNoSize R.remaining W.contents self.old self.new) }
        ensures mode { self.new.mode ≡ self.old.mode }
        ensures failures { self.new.failures ≡ self.old.failures }
    {
        match send_query(&mut self.requests, "size\n") {
            Ok(()) => {}
            Err(error) => return Err(error),
        }
        let (columns, rows) = match read_size(&mut self.answers) {
            Ok(size) => size,
            Err(error) => return Err(error),
        };
        Ok(WindowSize {
            rows,
            columns,
            width: 0,
            height: 0,
        })
    }
}

impl<R: Read + Drop, W: Write + Drop> ModeDevice for SttyDevice<R, W> {
    type Mode = SttyMode;

    ghost current = { λ s. s.mode };

    ghost answered = { stty_answered R.remaining W.contents };

    ghost failed = { λ s. s.failures };

    fn mode(&mut self) -> io::Result<SttyMode> {
        Ok(self.mode)
    }

    /// Asks the helper to set raw mode, and reads the mode that is set then.
    fn set_raw(&mut self, _mode: &SttyMode) -> io::Result<()> {
        let done = self.ask_mode("raw\n");
        if done.is_err() {
            self.failures = self.failures.saturating_add(1);
        }
        done
    }

    /// Asks the helper to set a mode. It's `Other` if another is set then.
    fn set_mode(&mut self, mode: &SttyMode) -> io::Result<()> {
        let done = self.try_set_mode(mode);
        if done.is_err() {
            self.failures = self.failures.saturating_add(1);
        }
        done
    }

    fn window_size(&mut self) -> io::Result<WindowSize> {
        let size = self.try_window_size();
        if size.is_err() {
            self.failures = self.failures.saturating_add(1);
        }
        size
    }

    fn failures(&self) -> u64 {
        self.failures
    }
}
