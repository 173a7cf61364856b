//! `probe keys`: the keys of a script, cut by bindings.
ghost use Rattle.std.specs.Prelude.{IfOk};
ghost use Rattle.crossterm_read.specs.Shared.{IsPassOf};

mod chord;

use crate::event_line::EventLine;
use crate::fault::{Fault, Wrong};
use crate::input::{Lines, divided};
use crate::play::read_act;
use chord::chord;
use crossterm::event::read::InternalEventReader;
use crossterm::event::source::{Act, DeviceSource, Script};
use crossterm::event::timeout::Still;
use crossterm::event::{Event, EventReader, InternalEvent, KeyEvent, Pass};
use keymap::{Keymap, KeymapFault, Matcher, Outcome};
use std::alloc::{AllocError, Allocator};
use std::io::{self, ErrorKind, Read, Write};
use std::sync::Wait;
use std::time::Duration;

/// Chords with commas between.
fn chords<A: Allocator + Clone>(alloc: &A, list: &str) -> Result<Vec<KeyEvent, A>, Wrong> {
    let mut chords = Vec::new(alloc.clone()?);
    for word in list.split(',') {
        let chord = chord(word)?;
        if chords.push(chord).is_err() {
            return Err(Wrong::Memory);
        }
    }
    Ok(chords)
}

/// What all lines say: the bindings, whether releases and modifier keys are passed on, and the script.
#[derive(Drop)]
struct Statements<A: Allocator> {
    keymap: Keymap<A>,
    passes: bool,
    script: Vec<Act<A>, A>,
}

impl<A: Allocator + Clone> Statements<A> {
    fn new(alloc: &A) -> Result<Statements<A>, AllocError> {
        let keymap = Keymap::new(alloc.clone()?);
        let script = Vec::new(alloc.clone()?);
        Ok(Statements {
            keymap,
            passes: false,
            script,
        })
    }

    fn add(&mut self, act: Act<A>) -> Result<(), AllocError> {
        self.script.push(act)?;
        Ok(())
    }

    /// Binds the chords of a line to its name.
    fn bind(&mut self, alloc: &A, rest: &str) -> Result<(), Wrong> {
        let (name, list) = rest.split_once(' ').ok_or(Wrong::Argument)?;
        if name.is_empty() {
            return Err(Wrong::Argument);
        }
        let chords = chords(alloc, list)?;
        match self.keymap.bind(chords.as_slice(), name) {
            Ok(_number) => Ok(()),
            Err(KeymapFault::Memory) => Err(Wrong::Memory),
            Err(_) => Err(Wrong::Argument),
        }
    }

    /// Passes releases and modifier keys on, by a line of one word.
    fn pass(&mut self, rest: Option<&str>) -> Result<(), Wrong> {
        if rest.is_some() {
            return Err(Wrong::Argument);
        }
        self.passes = true;
        Ok(())
    }
}

impl<A: Allocator + Clone> Lines<A> for Statements<A> {
    fn add_line(&mut self, alloc: &A, line: &str) -> Result<(), Wrong> {
        match divided(line) {
            ("bind", rest) => self.bind(alloc, rest.ok_or(Wrong::Argument)?),
            ("passing", rest) => self.pass(rest),
            _ => {
                let act = read_act(alloc, line)?;
                Ok(self.add(act)?)
            }
        }
    }
}

fn print_event<A: Allocator, W: Write>(writer: &mut W, event: Event<A>) -> io::Result<()> {
    let event = InternalEvent::Event(event);
    let line = EventLine(&event);
    writeln!(writer, "{line}")
}

fn print_outcome<A: Allocator, W: Write>(
    writer: &mut W,
    keymap: &Keymap<A>,
    outcome: Outcome<A>,
) -> io::Result<()> {
    match outcome {
        Outcome::Action(number) => {
            let name = keymap.action(number).unwrap_or("");
            writeln!(writer, "action {name}")
        }
        Outcome::Key(key) => print_event(writer, Event::<A>::Key(key)),
        Outcome::Event(event) => print_event(writer, event),
    }
}

/// Prints the outcomes that wait.
fn print_waiting<A: Allocator, W: Write>(
    writer: &mut W,
    matcher: &mut Matcher<A>,
) -> io::Result<()> {
    while let Some(outcome) = matcher.next() {
        print_outcome(writer, matcher.keymap(), outcome)?;
    }
    Ok(())
}

/// Flushes, and prints what comes of it and the kind of the fault that ended the steps.
fn print_rest<A: Allocator, W: Write>(
    writer: &mut W,
    matcher: &mut Matcher<A>,
    kind: ErrorKind,
) -> io::Result<()> {
    if matcher.flush().is_err() {
        return Err(io::Error::from(ErrorKind::OutOfMemory));
    }
    print_waiting(writer, matcher)?;
    writeln!(writer, "fault {kind:?}")
}

/// The reader of a script.
type Shared<A> = EventReader<DeviceSource<Script<A>, A>, A>;

/// Prints what a step gave, and after a fault the rest. Returns whether there was one.
fn print_step<A: Allocator, W: Write>(
    writer: &mut W,
    matcher: &mut Matcher<A>,
    given: io::Result<Option<Outcome<A>>>,
) -> io::Result<bool> {
    match given {
        Ok(Some(outcome)) => {
            print_outcome(writer, matcher.keymap(), outcome)?;
            Ok(false)
        }
        Ok(None) => Ok(false),
        Err(fault) => {
            print_rest(writer, matcher, fault.kind())?;
            Ok(true)
        }
    }
}

/// Steps once, and prints what it gave. Returns whether that was a fault.
fn step<A: Allocator + Clone, H: Wait, W: Write>(
    rt: &H,
    shared: &Shared<A>,
    pass: &mut Pass<DeviceSource<Script<A>, A>, A>,
    matcher: &mut Matcher<A>,
    writer: &mut W,
) -> io::Result<bool>
    requires { IsPassOf shared.now pass.old }
    ensures { IsPassOf shared.now pass.new }
{
    let given = matcher.step(rt, shared, pass, Some(Duration::ZERO), &mut Still);
    print_step(writer, matcher, given)
}

/// Steps until a fault, and prints each outcome. The fault's kind is on the last line.
fn run<A: Allocator + Clone, H: Wait, W: Write>(
    rt: &H,
    shared: &Shared<A>,
    mut pass: Pass<DeviceSource<Script<A>, A>, A>,
    mut matcher: Matcher<A>,
    writer: &mut W,
) -> io::Result<()>
    requires { IsPassOf shared.now pass }
{
    for _ in rt.forever() {
        if step(rt, shared, &mut pass, &mut matcher, writer)? {
            break;
        }
    }
    writer.flush()
}

/// A reader of a script.
fn read_script<A: Allocator + Clone>(
    alloc: &A,
    script: Vec<Act<A>, A>,
) -> Result<InternalEventReader<DeviceSource<Script<A>, A>, A>, Fault> {
    let source = DeviceSource::new(alloc.clone()?, Script::new(script));
    Ok(InternalEventReader::new(alloc.clone()?, source))
}

/// A reader to share, and its only pass.
fn share<A: Allocator + Clone, H: Wait>(
    rt: &H,
    alloc: &A,
    reader: InternalEventReader<DeviceSource<Script<A>, A>, A>,
) -> Result<(Shared<A>, Pass<DeviceSource<Script<A>, A>, A>), Fault>
    ensures { IfOk result (λ r. IsPassOf r.0 r.1) }
{
    match EventReader::new(rt, alloc.clone()?, reader, 1) {
        Ok((shared, mut passes)) => match passes.pop() {
            Some(pass) => Ok((shared, pass)),
            None => unreachable!(),
        },
        Err(_) => Err(Fault::OutOfMemory),
    }
}

/// A matcher of the bindings, which passes releases and modifier keys on or not.
fn matcher<A: Allocator>(alloc: A, keymap: Keymap<A>, passes: bool) -> Matcher<A> {
    if passes {
        Matcher::passing(alloc, keymap)
    } else {
        Matcher::new(alloc, keymap)
    }
}

/// Runs a matcher of the bindings over the script, with one pass.
fn run_statements<A: Allocator + Clone, H: Wait, W: Write>(
    rt: &H,
    alloc: &A,
    statements: Statements<A>,
    writer: &mut W,
) -> Result<(), Fault> {
    let Statements {
        keymap,
        passes,
        script,
    } = statements;
    let matcher = matcher(alloc.clone()?, keymap, passes);
    let reader = read_script(alloc, script)?;
    let (shared, pass) = share(rt, alloc, reader)?;
    match run(rt, &shared, pass, matcher, writer) {
        Ok(()) => Ok(()),
        Err(error) => Err(Fault::of_write(&error)),
    }
}

/// Reads lines, checks them all, binds and steps as they say. Prints a line for each outcome and one for the fault at the end.
///
/// # Errors
///
/// `TooLong`, `NotUtf8`, `UnknownWord` and `BadArgument` come before anything runs, `ReadFailed` and `WriteFailed` if the reader or the
/// writer failed, `OutOfMemory` if memory was refused.
pub fn run_keys<A: Allocator + Clone, H: Wait, R: Read, W: Write>(
    rt: &H,
    alloc: A,
    reader: &mut R,
    writer: &mut W,
) -> Result<(), Fault> {
    let mut statements = Statements::new(&alloc)?;
    statements.read(&alloc, reader)?;
    run_statements(rt, &alloc, statements, writer)
}
