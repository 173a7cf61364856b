//! `probe play`: calls of a reader over a script.

use crate::event_line::EventLine;
use crate::fault::{Fault, Wrong};
use crate::input::{Lines, bytes, divided, number};
use crossterm::event::InternalEvent;
use crossterm::event::filter::AnyFilter;
use crossterm::event::read::{Call, Reply, Trace, play};
use crossterm::event::source::Act;
use std::alloc::{AllocError, Allocator};
use std::fmt;
use std::io::{self, ErrorKind, Read, Write};

/// What a line says.
#[derive(Drop)]
enum Statement<A: Allocator> {
    Act(Act<A>),
    Call(Call),
}

/// What a line begins with.
#[derive(Clone, Copy)]
enum Word {
    /// Bytes follow, which take memory.
    Piece { raw: bool },
    Plain(PlainWord),
}

/// The first word of a line that takes no memory.
#[derive(Clone, Copy)]
enum PlainWord {
    Resize,
    Wake,
    Idle,
    Fault,
    Poll,
    Read,
    Take,
    Position,
    Keyboard,
}

impl Word {
    /// Whether it says an act of the device, and no call.
    fn is_act(self) -> bool {
        match self {
            Word::Piece { .. } => true,
            Word::Plain(word) => matches!(
                word,
                PlainWord::Resize | PlainWord::Wake | PlainWord::Idle | PlainWord::Fault
            ),
        }
    }
}

fn first_word(word: &str) -> Option<Word> {
    match word {
        "piece" => Some(Word::Piece { raw: false }),
        "raw" => Some(Word::Piece { raw: true }),
        "resize" => Some(Word::Plain(PlainWord::Resize)),
        "wake" => Some(Word::Plain(PlainWord::Wake)),
        "idle" => Some(Word::Plain(PlainWord::Idle)),
        "fault" => Some(Word::Plain(PlainWord::Fault)),
        "poll" => Some(Word::Plain(PlainWord::Poll)),
        "read" => Some(Word::Plain(PlainWord::Read)),
        "take" => Some(Word::Plain(PlainWord::Take)),
        "position" => Some(Word::Plain(PlainWord::Position)),
        "keyboard" => Some(Word::Plain(PlainWord::Keyboard)),
        _ => None,
    }
}

fn filter(word: &str) -> Option<AnyFilter> {
    match word {
        "event" => Some(AnyFilter::Event),
        "cursor" => Some(AnyFilter::Cursor),
        "flags" => Some(AnyFilter::Flags),
        "attributes" => Some(AnyFilter::Attributes),
        _ => None,
    }
}

fn piece<A: Allocator + Clone>(
    alloc: &A,
    rest: Option<&str>,
    raw: bool,
) -> Result<Statement<A>, Wrong> {
    let bytes = bytes(alloc.clone()?, rest.unwrap_or(""))?;
    Ok(Statement::Act(Act::Piece { bytes, raw }))
}

fn resize<A: Allocator>(rest: &str) -> Option<Statement<A>> {
    let (columns, rows) = rest.split_once(' ')?;
    Some(Statement::Act(Act::Resize(number(columns)?, number(rows)?)))
}

/// A filter and how often the device is asked at most.
fn asked(rest: &str) -> Option<(AnyFilter, u32)> {
    let (name, tries) = rest.split_once(' ')?;
    Some((filter(name)?, number(tries)?))
}

fn poll<A: Allocator>(rest: &str) -> Option<Statement<A>> {
    let (filter, tries) = asked(rest)?;
    Some(Statement::Call(Call::Poll { filter, tries }))
}

fn read<A: Allocator>(rest: &str) -> Option<Statement<A>> {
    let (filter, tries) = asked(rest)?;
    Some(Statement::Call(Call::Read { filter, tries }))
}

fn take<A: Allocator>(rest: &str) -> Option<Statement<A>> {
    let filter = filter(rest)?;
    Some(Statement::Call(Call::Take { filter }))
}

fn position<A: Allocator>(rest: &str) -> Option<Statement<A>> {
    let tries = number(rest)?;
    Some(Statement::Call(Call::Position { tries }))
}

fn keyboard<A: Allocator>(rest: &str) -> Option<Statement<A>> {
    let tries = number(rest)?;
    Some(Statement::Call(Call::Keyboard { tries }))
}

/// What a word and the words after it say.
fn read_with_rest<A: Allocator>(word: PlainWord, rest: &str) -> Option<Statement<A>> {
    match word {
        PlainWord::Resize => resize(rest),
        PlainWord::Poll => poll(rest),
        PlainWord::Read => read(rest),
        PlainWord::Take => take(rest),
        PlainWord::Position => position(rest),
        PlainWord::Keyboard => keyboard(rest),
        PlainWord::Wake | PlainWord::Idle | PlainWord::Fault => None,
    }
}

/// What a word alone says.
fn read_alone<A: Allocator>(word: PlainWord) -> Option<Statement<A>> {
    match word {
        PlainWord::Wake => Some(Statement::Act(Act::Woken)),
        PlainWord::Idle => Some(Statement::Act(Act::Idle)),
        PlainWord::Fault => Some(Statement::Act(Act::Fault(ErrorKind::Other))),
        PlainWord::Resize
        | PlainWord::Poll
        | PlainWord::Read
        | PlainWord::Take
        | PlainWord::Position
        | PlainWord::Keyboard => None,
    }
}

fn read_plain<A: Allocator>(word: PlainWord, rest: Option<&str>) -> Result<Statement<A>, Wrong> {
    let statement = match rest {
        Some(rest) => read_with_rest(word, rest),
        None => read_alone(word),
    };
    statement.ok_or(Wrong::Argument)
}

/// What a first word and the words after it say, with one blank between.
fn read_words<A: Allocator + Clone>(
    alloc: &A,
    word: Word,
    rest: Option<&str>,
) -> Result<Statement<A>, Wrong> {
    match word {
        Word::Piece { raw } => piece(alloc, rest, raw),
        Word::Plain(word) => read_plain(word, rest),
    }
}

/// Reads one line.
fn read_statement<A: Allocator + Clone>(alloc: &A, line: &str) -> Result<Statement<A>, Wrong> {
    let (word, rest) = divided(line);
    match first_word(word) {
        Some(word) => read_words(alloc, word, rest),
        None => Err(Wrong::Word),
    }
}

/// Reads one line that says an act of the device. The words of calls are unknown here.
pub fn read_act<A: Allocator + Clone>(alloc: &A, line: &str) -> Result<Act<A>, Wrong> {
    let (word, rest) = divided(line);
    let word = match first_word(word) {
        Some(word) if word.is_act() => word,
        _ => return Err(Wrong::Word),
    };
    match read_words(alloc, word, rest)? {
        Statement::Act(act) => Ok(act),
        Statement::Call(_) => Err(Wrong::Word),
    }
}

/// What all lines say: the script and the calls.
#[derive(Drop)]
struct Statements<A: Allocator> {
    script: Vec<Act<A>, A>,
    calls: Vec<Call, A>,
}

impl<A: Allocator + Clone> Statements<A> {
    fn new(alloc: &A) -> Result<Statements<A>, AllocError> {
        let script = Vec::new(alloc.clone()?);
        let calls = Vec::new(alloc.clone()?);
        Ok(Statements { script, calls })
    }

    fn add(&mut self, statement: Statement<A>) -> Result<(), AllocError> {
        match statement {
            Statement::Act(act) => self.script.push(act)?,
            Statement::Call(call) => self.calls.push(call)?,
        }
        Ok(())
    }
}

impl<A: Allocator + Clone> Lines<A> for Statements<A> {
    fn add_line(&mut self, alloc: &A, line: &str) -> Result<(), Wrong> {
        let statement = read_statement(alloc, line)?;
        Ok(self.add(statement)?)
    }
}

/// A reply as one line without its end.
#[derive(Drop)]
struct ReplyLine<'a, A: Allocator>(&'a Reply<A>);

impl<A: Allocator> fmt::Display for ReplyLine<'_, A> {
    fn fmt<W: fmt::Write>(&self, f: &mut fmt::Formatter<W>) -> fmt::Result {
        match self.0 {
            Reply::Poll(ready) => fmt::Display::fmt(ready, f),
            Reply::Event(Some(event)) => fmt::Display::fmt(&EventLine(event), f),
            Reply::Event(None) => f.write_str("none"),
            Reply::Position(column, row) => write!(f, "cursor {column} {row}"),
            Reply::Keyboard(Some(flags)) => write!(f, "flags {}", flags.bits()),
            Reply::Keyboard(None) => f.write_str("unsupported"),
            Reply::Fault(kind) => write!(f, "fault {kind:?}"),
        }
    }
}

fn print_replies<A: Allocator, W: Write>(writer: &mut W, replies: &[Reply<A>]) -> io::Result<()> {
    for reply in replies {
        let line = ReplyLine(reply);
        writeln!(writer, "{line}")?;
    }
    Ok(())
}

fn print_held<A: Allocator, W: Write>(writer: &mut W, held: &[InternalEvent<A>]) -> io::Result<()> {
    for event in held {
        let line = EventLine(event);
        writeln!(writer, "held {line}")?;
    }
    Ok(())
}

fn print<A: Allocator, W: Write>(writer: &mut W, trace: &Trace<A>) -> io::Result<()> {
    print_replies(writer, trace.replies.as_slice())?;
    print_held(writer, trace.held.as_slice())?;
    writer.flush()
}

/// Runs the calls over the acts, and prints a line for each call and for each event still held.
fn run_statements<A: Allocator + Clone, W: Write>(
    alloc: A,
    statements: Statements<A>,
    writer: &mut W,
) -> Result<(), Fault> {
    let Statements { script, calls } = statements;
    let printed = match play(alloc, script, calls.as_slice()) {
        Ok(trace) => print(writer, &trace),
        Err(_) => return Err(Fault::OutOfMemory),
    };
    match printed {
        Ok(()) => Ok(()),
        Err(error) => Err(Fault::of_write(&error)),
    }
}

/// Reads lines, checks them all, runs the calls over the acts, and prints a line for each call and for each event still held.
///
/// # Errors
///
/// `TooLong`, `NotUtf8`, `UnknownWord` and `BadArgument` come before anything runs, `ReadFailed` and `WriteFailed` if the reader or the
/// writer failed, `OutOfMemory` if memory was refused.
pub fn run_play<A: Allocator + Clone, R: Read, W: Write>(
    alloc: A,
    reader: &mut R,
    writer: &mut W,
) -> Result<(), Fault> {
    let mut statements = Statements::new(&alloc)?;
    statements.read(&alloc, reader)?;
    run_statements(alloc, statements, writer)
}
