//! What is read of lines: acts, and the sessions that they make.
ghost use Rattle.std.specs.Prelude.{◌≡◌, ◌⊎◌, ◌<◌, ℕ, List, [], ◌∷◌, ◌++◌, Ok, Err, IfOk, IfErr, IfSome, OnOk, length};
ghost use Rattle.crossterm_flags.specs.Values.{same};
ghost use Rattle.crossterm_read.specs.Device.{Woken, Idle};
ghost use Rattle.recorder.specs.Lines.{act_answer};
ghost use Rattle.recorder.specs.Reads as spec;
ghost use Rattle.recorder.specs.inside.Words.{CutsAt, words_of, now_of, both_now, session_of, WasRead};
ghost use Rattle.recorder.specs.declared.reading.Wrong.TheVariants.{Memory};

use crate::kinds::kind_named;
use crossterm_read::source::Act;
use memchr::memchr;
use std::alloc::{AllocError, Allocator, Global};
use std::io::ErrorKind;
use thiserror::Error;

/// Why a line is no act.
#[derive(Clone, Copy, Debug, PartialEq, Eq, Error)]
pub enum Wrong {
    /// No act begins with its first word.
    #[error("unknown word")]
    Word,
    /// Its other words don't fit the first one.
    #[error("bad argument")]
    Argument,
    /// It is the last one, and has no end.
    #[error("cut line")]
    Unended,
    /// Memory was refused.
    #[error("out of memory")]
    Memory,
}

impl From<AllocError> for Wrong {
    ghost from_gives = { λ _ wrong. wrong ≡ Memory };

    fn from(_refused: AllocError) -> Wrong {
        Wrong::Memory
    }
}

/// A line that doesn't read.
#[derive(Clone, Copy, Debug, PartialEq, Eq, Error)]
#[error("line {line}: {reason}")]
pub struct BadLine {
    /// Its number, from 1.
    pub line: usize,
    /// Why.
    pub reason: Wrong,
}

// What precedes the first byte of a value, and what follows it.
fn cut_at(bytes: &[u8], c: u8) -> Option<(&[u8], &[u8])>
    ensures { CutsAt c bytes.now result }
{
    match memchr(c, bytes) {
        None => None,
        Some(i) => Some((&bytes[..i], &bytes[i + 1..])),
    }
}

// Whether a word is this one.
fn is(word: &[u8], name: &str) -> bool
    ensures { result ≡ same word.now name.now }
{
    word == name.as_bytes()
}

// The only word.
fn only(words: Option<&[u8]>) -> Option<&[u8]>
    ensures { spec.only (words_of words.entry) ≡ now_of result }
{
    match words {
        None => None,
        Some(text) => match cut_at(text, b' ') {
            Some(_) => None,
            None => Some(text),
        },
    }
}

// The only two words.
fn pair(words: Option<&[u8]>) -> Option<(&[u8], &[u8])>
    ensures { spec.pair (words_of words.entry) ≡ both_now result }
{
    match words {
        None => None,
        Some(text) => match cut_at(text, b' ') {
            None => None,
            Some((first, rest)) => match cut_at(rest, b' ') {
                Some(_) => None,
                None => Some((first, rest)),
            },
        },
    }
}

// A number below a limit in decimal digits. The limit is 2 to the 32nd at most.
fn number(digits: &[u8], limit: u64) -> Option<u64>
    requires { limit < 4294967297 }
    ensures number { result ≡ spec.read_number limit digits.now }
    ensures below { IfSome result (λ n. n < limit) }
{
    if digits.is_empty() {
        return None;
    }
    let mut n = 0u64;
    for d in digits {
        let digit = *d;
        if digit < 48 {
            return None;
        }
        if 57 < digit {
            return None;
        }
        let next = n * 10 + u64::from(digit - 48);
        if limit <= next {
            return None;
        }
        n = next;
    }
    Some(n)
}

// Reads the words behind `piece` or `raw`.
fn read_bytes<A: Allocator + Clone>(
    alloc: &A,
    raw: bool,
    words: Option<&[u8]>,
) -> Result<Act<A>, Wrong>
    ensures { WasRead (spec.read_bytes raw (words_of words.entry)) result }
{
    match only(words) {
        None => Err(Wrong::Argument),
        Some(digits) => match hex::decode(alloc.clone()?, digits) {
            Ok(bytes) => Ok(Act::Piece { bytes, raw }),
            Err(hex::FromHexError::OutOfMemory) => Err(Wrong::Memory),
            Err(_) => Err(Wrong::Argument),
        },
    }
}

// Reads the words behind `resize`.
fn read_size<A: Allocator>(words: Option<&[u8]>) -> Result<Act<A>, Wrong>
    ensures { WasRead (spec.read_size (words_of words.entry)) result }
{
    match pair(words) {
        None => Err(Wrong::Argument),
        Some((columns, rows)) => match number(columns, 65536) {
            None => Err(Wrong::Argument),
            Some(columns) => match number(rows, 65536) {
                None => Err(Wrong::Argument),
                Some(rows) => Ok(Act::Resize(columns as u16, rows as u16)),
            },
        },
    }
}

// Reads the words behind `fault`.
fn read_fault<A: Allocator>(words: Option<&[u8]>) -> Result<Act<A>, Wrong>
    ensures { WasRead (spec.read_fault (words_of words.entry)) result }
{
    match words {
        None => Ok(Act::Fault(ErrorKind::Other)),
        Some(_) => match only(words) {
            None => Err(Wrong::Argument),
            Some(name) => match kind_named(name) {
                None => Err(Wrong::Argument),
                Some(kind) => Ok(Act::Fault(kind)),
            },
        },
    }
}

// Reads the words behind one that takes none.
fn read_woken<A: Allocator>(words: Option<&[u8]>) -> Result<Act<A>, Wrong>
    ensures { WasRead (spec.read_alone Woken (words_of words.entry)) result }
{
    match words {
        None => Ok(Act::Woken),
        Some(_) => Err(Wrong::Argument),
    }
}

fn read_idle<A: Allocator>(words: Option<&[u8]>) -> Result<Act<A>, Wrong>
    ensures { WasRead (spec.read_alone Idle (words_of words.entry)) result }
{
    match words {
        None => Ok(Act::Idle),
        Some(_) => Err(Wrong::Argument),
    }
}

// Reads a first word and those behind it.
fn read_words<A: Allocator + Clone>(
    alloc: &A,
    word: &[u8],
    words: Option<&[u8]>,
) -> Result<Act<A>, Wrong>
    ensures { WasRead (spec.read_words (word.now ∷ words_of words.entry)) result }
{
    if is(word, "piece") {
        return read_bytes(alloc, false, words);
    }
    if is(word, "raw") {
        return read_bytes(alloc, true, words);
    }
    if is(word, "resize") {
        return read_size(words);
    }
    if is(word, "wake") {
        return read_woken(words);
    }
    if is(word, "idle") {
        return read_idle(words);
    }
    if is(word, "fault") {
        return read_fault(words);
    }
    Err(Wrong::Word)
}

/// Reads an act of one line, without its end.
///
/// # Errors
///
/// Why it is none.
pub fn read_act<A: Allocator + Clone>(alloc: &A, line: &[u8]) -> Result<Act<A>, Wrong>
    ensures { WasRead (spec.read_line line.now) result }
{
    match cut_at(line, b' ') {
        None => read_words(alloc, line, None),
        Some((word, words)) => read_words(alloc, word, Some(words)),
    }
}

// Whether a line is a comment.
fn is_comment(line: &[u8]) -> bool
    ensures { result ≡ spec.is_comment line.now }
{
    match line.first() {
        Some(byte) => *byte == b'#',
        None => false,
    }
}

// The time that a comment says, if it says one.
fn read_time(line: &[u8]) -> Option<u64>
    ensures time { result ≡ spec.read_time (spec.pair (spec.parts 32 line.now)) }
    ensures below { IfSome result (λ n. n < 4294967296) }
{
    match pair(Some(line)) {
        None => None,
        Some((first, digits)) => {
            if is(first, "#") {
                number(digits, 4294967296)
            } else {
                None
            }
        }
    }
}

/// What was read of a recording.
#[derive(Drop)]
#[derive_where(Debug)]
pub struct Session<A: Allocator = Global> {
    /// What came, in order: the acts of a `Script`.
    pub acts: Vec<Act<A>, A>,
    /// When each came, in milliseconds since the beginning; 0 if no line says it.
    pub times: Vec<u32, A>,
    /// The last time.
    pub end: u32,
}

impl<A: Allocator + Clone> Session<A> {
    // Nothing was read yet.
    fn new(alloc: &A) -> Result<Session<A>, AllocError>
        ensures { IfOk result (λ s. session_of s ≡ spec.nothing) }
    {
        let acts = Vec::new(alloc.clone()?);
        let times = Vec::new(alloc.clone()?);
        Ok(Session {
            acts,
            times,
            end: 0,
        })
    }

    // Adds an act at the last time.
    fn add(&mut self, act: Act<A>) -> Result<(), AllocError>
        ensures { OnOk result (spec.with_act (session_of self.old) (Ok (act_answer act)) ≡ Ok (session_of self.new)) }
    {
        self.times.push(self.end)?;
        self.acts.push(act)?;
        Ok(())
    }

    // Adds what a line says.
    fn add_line(&mut self, alloc: &A, line: &[u8]) -> Result<(), Wrong>
        ensures ok { OnOk result (spec.read_next (session_of self.old) line.now ≡ Ok (session_of self.new)) }
        ensures err { IfErr result (λ e. (e ≡ Memory) ⊎ (spec.read_next (session_of self.old) line.now ≡ Err e)) }
    {
        if is_comment(line) {
            if let Some(time) = read_time(line) {
                self.end = time as u32;
            }
            return Ok(());
        }
        match read_act(alloc, line) {
            Ok(act) => Ok(self.add(act)?),
            Err(wrong) => Err(wrong),
        }
    }
}

/// Reads a recording: an act on each line, with comments between, which begin with `#`. One as `# 1500` says that what follows came 1500
/// milliseconds after the beginning; all others are passed over.
///
/// ```
/// let session = read_session(&alloc, b"# 20\npiece 61\n")?;
/// let mut reader = InternalEventReader::new(alloc, DeviceSource::new(alloc, Script::new(session.acts)));
/// ```
///
/// # Errors
///
/// The first line that is no act, and why: an unknown word, other words than its own, or a last line without an end. Or memory was refused.
pub fn read_session<A: Allocator + Clone>(alloc: &A, text: &[u8]) -> Result<Session<A>, BadLine>
    ensures ok { IfOk result (λ s. spec.read_text text.now ≡ Ok (session_of s)) }
    ensures err { IfErr result (λ bad. (bad.reason ≡ Memory) ⊎ (spec.read_text text.now ≡ Err (record { number = bad.line; reason = bad.reason }))) }
{
    let mut line = 1usize;
    let Ok(mut session) = Session::new(alloc) else {
        return Err(BadLine {
            line,
            reason: Wrong::Memory,
        });
    };
    let mut rest = text;
    while !rest.is_empty() {
        match cut_at(rest, b'\n') {
            None => {
                return Err(BadLine {
                    line,
                    reason: Wrong::Unended,
                });
            }
            Some((this, after)) => match session.add_line(alloc, this) {
                Err(reason) => return Err(BadLine { line, reason }),
                Ok(()) => {
                    rest = after;
                    line += 1;
                }
            },
        }
    }
    Ok(session)
}
