//! A stream's worker runs beside the caller, and wakes the newest who waits.
ghost use Rattle.std.specs.Prelude.{All};
ghost use Rattle.crossterm_read.specs.Shared.{IsPassOf};

use crate::gates::{FailsOnce, Gate, Gated};
use crossterm_read::read::{EventReader, Pass};
use crossterm_read::source::{Device, DeviceSource, EventSource};
use crossterm_read::stream::{EventStream, StreamWorker};
use crossterm_types::event::Event;
use futures::task::Poll;
use futures::test::MockTask;
use futures::{Stream, StreamExt};
use std::alloc::{AllocGlobal, Global};
use std::io;
use std::io::ErrorKind;
use std::random::RandomSource;
use std::sync::atomic::{AtomicBool, Ordering};
use std::sync::{Arc, Wait};
use std::thread::{self, Threads};
use std::time::Duration;
use test_support::{TURNS, expect, is_raised_within, letter_of, nap, reader_of, sleep};

/// A stream over a device.
type Over<D, R> = EventStream<DeviceSource<D>, R>;

/// A stream by the last two of the passes that are left.
pub fn stream_by<S, R>(
    rt: R,
    alloc: Global,
    shared: &EventReader<S>,
    passes: &mut Vec<Pass<S>>,
) -> io::Result<EventStream<S, R>>
where
    S: EventSource<Global> + Send + 'static,
    R: Threads + Wait + Copy + Send + Drop + 'static,
    requires { All (IsPassOf shared.now) passes.old.items }
    ensures { All (IsPassOf shared.now) passes.new.items }
{
    let Some(other) = passes.pop() else {
        return Err(io::Error::from(ErrorKind::NotFound));
    };
    match passes.pop() {
        Some(pass) => EventStream::new(rt, alloc, shared, pass, other),
        None => Err(io::Error::from(ErrorKind::NotFound)),
    }
}

/// A stream over a device. No other share of the reader is left.
fn stream_of<D, R>(rt: R, alloc: Global, device: D) -> io::Result<Over<D, R>>
where
    D: Device + Send + 'static,
    R: Threads + Wait + Copy + Send + Drop + 'static,
{
    let (shared, mut passes) = EventReader::new(&rt, alloc, reader_of(alloc, device), 2)?;
    stream_by(rt, alloc, &shared, &mut passes)
}

/// What a stream answers to a task.
#[derive(Clone, Copy, PartialEq)]
enum Answer {
    Letter(char),
    Fault(ErrorKind),
    Pending,
    Over,
}

/// What came of one poll of a stream's events.
fn outcome(polled: Poll<Option<io::Result<Event>>>) -> Answer {
    match polled {
        Poll::Ready(Some(Ok(event))) => Answer::Letter(letter_of(&event)),
        Poll::Ready(Some(Err(fault))) => Answer::Fault(fault.kind()),
        Poll::Ready(None) => Answer::Over,
        Poll::Pending => Answer::Pending,
    }
}

/// One poll of a stream by this task.
fn poll<D: Device, R: Wait + Drop>(task: &MockTask, stream: &mut Over<D, R>) -> Answer {
    outcome(task.enter(|cx| stream.poll_next(cx)))
}

/// One poll of the future of a stream's next event by this task.
fn poll_of_next<D: Device, R: Wait + Drop>(task: &MockTask, stream: &mut Over<D, R>) -> Answer {
    outcome(task.poll(&mut stream.next()))
}

/// Whether a task is woken before the turns are over.
fn is_woken<R: Wait>(rt: &R, task: &MockTask) -> bool {
    for _ in 0..TURNS {
        if task.is_woken() {
            return true;
        }
        nap(rt);
    }
    false
}

/// What is done with a stream, by the first of two tasks or by the second, and what must come of it. The stream's device has the letter `a`
/// once its gate is open.
#[derive(Clone, Copy)]
enum Step {
    /// The first task polls the stream.
    First(Answer),
    /// The second task polls the stream.
    Second(Answer),
    /// The first task polls the future of the next event.
    Next(Answer),
    /// The gate is opened.
    Open,
    /// The first task is woken.
    WakesFirst,
    /// The second task is woken.
    WakesSecond,
    /// The device is asked without a limit.
    Asks,
}

/// Whether a step comes to what it must.
fn holds<R: Wait + Drop>(
    rt: &R,
    gate: &Gate,
    tasks: &(MockTask, MockTask),
    stream: &mut Over<Gated<R>, R>,
    step: Step,
) -> bool {
    match step {
        Step::First(want) => poll(&tasks.0, stream) == want,
        Step::Second(want) => poll(&tasks.1, stream) == want,
        Step::Next(want) => poll_of_next(&tasks.0, stream) == want,
        Step::Open => {
            gate.open();
            true
        }
        Step::WakesFirst => is_woken(rt, &tasks.0),
        Step::WakesSecond => is_woken(rt, &tasks.1),
        Step::Asks => gate.await_endless_question(rt),
    }
}

/// Whether all steps come to what they must. The stream is dropped then, and its worker must end with it, and the reader with the worker.
fn all_hold<R: Wait + Drop>(
    rt: &R,
    gate: &Gate,
    tasks: &(MockTask, MockTask),
    mut stream: Over<Gated<R>, R>,
    steps: &[Step],
) -> bool {
    for step in steps {
        if !holds(rt, gate, tasks, &mut stream, *step) {
            return false;
        }
    }
    drop(stream);
    gate.await_drop(rt)
}

/// Whether all steps of a row come to what they must, with a new stream.
fn row_holds<R>(rt: R, alloc: Global, steps: &[Step]) -> io::Result<bool>
where
    R: Threads + Wait + RandomSource + AllocGlobal + Copy + Send + Drop + 'static,
{
    let tasks = (MockTask::new(&rt)?, MockTask::new(&rt)?);
    let gate = Arc::new(alloc, Gate::new())?;
    let stream = stream_of(rt, alloc, Gated::new(rt, alloc, &gate)?)?;
    Ok(all_hold(&rt, &gate, &tasks, stream, steps))
}

const WAITS: Answer = Answer::Pending;

const LETTER: Answer = Answer::Letter('a');

/// What is tested, and the steps.
static ROWS: [(&str, &[Step]); 4] = [
    (
        "the newest who waits is woken",
        &[
            Step::First(WAITS),
            Step::Second(WAITS),
            Step::Open,
            Step::WakesSecond,
            Step::Second(LETTER),
        ],
    ),
    (
        "the next event is a future, whose task is woken",
        &[
            Step::Next(WAITS),
            Step::Open,
            Step::WakesFirst,
            Step::Next(LETTER),
        ],
    ),
    (
        "a stream that is dropped ends its worker while it polls",
        &[Step::First(WAITS), Step::Asks],
    ),
    ("a stream that is never polled ends its worker", &[]),
];

#[test]
fn streams_wake_who_waits_and_end_their_workers(rt: HostRuntime) -> io::Result<()> {
    for (name, steps) in &ROWS {
        expect!(rt; row_holds(rt, rt.alloc(), steps)?, name);
    }
    Ok(())
}

/// What a stream answers within so many turns: what first isn't pending.
fn answer_within<D: Device, R: Wait + Drop>(
    rt: &R,
    task: &MockTask,
    stream: &mut Over<D, R>,
    turns: u32,
) -> Answer {
    for _ in 0..turns {
        match poll(task, stream) {
            Answer::Pending => nap(rt),
            other => return other,
        }
    }
    Answer::Pending
}

/// Whether a fault that the worker met is given once, and the letter that comes after it too.
fn goes_on_after_a_fault<R>(rt: R, alloc: Global) -> io::Result<bool>
where
    R: Threads + Wait + RandomSource + AllocGlobal + Copy + Send + Drop + 'static,
{
    let task = MockTask::new(&rt)?;
    let mut stream = stream_of(rt, alloc, FailsOnce::new(rt, alloc)?)?;
    let first = answer_within(&rt, &task, &mut stream, TURNS);
    let second = answer_within(&rt, &task, &mut stream, TURNS);
    let later = answer_within(&rt, &task, &mut stream, 100);
    let fault = first == Answer::Fault(ErrorKind::InvalidData);
    Ok(fault && second == LETTER && later == WAITS)
}

#[test]
fn a_fault_is_given_once(rt: HostRuntime) -> io::Result<()> {
    expect!(rt; goes_on_after_a_fault(rt, rt.alloc())?);
    Ok(())
}

type Source<R> = DeviceSource<Gated<R>>;

/// Whether both passes of a stream come back, and by them the reader, while its worker polls a device that reports nothing.
fn gives_both_back<R>(
    rt: R,
    alloc: Global,
    gate: &Gate,
    task: &MockTask,
    shared: EventReader<Source<R>>,
    mut passes: Vec<Pass<Source<R>>>,
) -> bool
where
    R: Threads + Wait + Copy + Send + Drop + 'static,
    requires { All (IsPassOf shared) passes.items }
{
    let Some(other) = passes.pop() else {
        return false;
    };
    let Some(pass) = passes.pop() else {
        return false;
    };
    let Ok((mut stream, worker)) = EventStream::with_worker(rt, alloc, &shared, pass, other) else {
        return false;
    };
    let polls = poll(task, &mut stream) == WAITS && gate.await_endless_question(&rt);
    let _pass = stream.close();
    let mut other = worker.join(&rt);
    polls && shared.close(&rt, &mut other).is_some()
}

/// Whether they do with a new reader.
fn gives_both_passes_back<R>(rt: R, alloc: Global) -> io::Result<bool>
where
    R: Threads + Wait + RandomSource + AllocGlobal + Copy + Send + Drop + 'static,
{
    let task = MockTask::new(&rt)?;
    let gate = Arc::new(alloc, Gate::new())?;
    let reader = reader_of(alloc, Gated::new(rt, alloc, &gate)?);
    let (shared, passes) = EventReader::new(&rt, alloc, reader, 2)?;
    Ok(gives_both_back(rt, alloc, &gate, &task, shared, passes))
}

#[test]
fn a_stream_gives_both_passes_back(rt: HostRuntime) -> io::Result<()> {
    expect!(rt; gives_both_passes_back(rt, rt.alloc())?);
    Ok(())
}

/// A stream by the last two of some passes, and its worker.
fn with_worker_by<S, R>(
    rt: R,
    alloc: Global,
    shared: &EventReader<S>,
    mut passes: Vec<Pass<S>>,
) -> io::Result<(EventStream<S, R>, StreamWorker<S>)>
where
    S: EventSource<Global> + Send + 'static,
    R: Threads + Wait + Copy + Send + Drop + 'static,
    requires { All (IsPassOf shared.now) passes.items }
{
    let Some(other) = passes.pop() else {
        return Err(io::Error::from(ErrorKind::NotFound));
    };
    match passes.pop() {
        Some(pass) => EventStream::with_worker(rt, alloc, shared, pass, other),
        None => Err(io::Error::from(ErrorKind::NotFound)),
    }
}

/// Whether a stream gives the letter once somebody waits for its worker. It is closed then, while its worker polls.
fn is_read_on<R: Wait + Drop>(
    rt: &R,
    gate: &Gate,
    task: &MockTask,
    mut stream: Over<Gated<R>, R>,
    is_awaited: &AtomicBool,
) -> bool {
    let begins = is_raised_within(rt, is_awaited, TURNS);
    sleep(rt, Duration::from_millis(50));
    gate.open();
    let letter = answer_within(rt, task, &mut stream, TURNS / 2) == LETTER;
    let polls = letter && poll(task, &mut stream) == WAITS && gate.await_endless_question(rt);
    let _pass = stream.close();
    begins && polls
}

/// Whether a stream is read on while its worker is awaited, and the worker, which misses two wake-ups, ends long before its device.
fn is_seen_off<R>(rt: R, alloc: Global) -> io::Result<bool>
where
    R: Threads + Wait + RandomSource + AllocGlobal + Copy + Send + Sync + Drop + 'static,
{
    let task = MockTask::new(&rt)?;
    let gate = Arc::new(alloc, Gate::new())?;
    let device = Gated::new(rt, alloc, &gate)?.missing(2);
    let (shared, passes) = EventReader::new(&rt, alloc, reader_of(alloc, device), 2)?;
    let (stream, worker) = with_worker_by(rt, alloc, &shared, passes)?;
    let is_awaited = AtomicBool::new(false);
    let (is_read, _pass) = thread::join(
        &rt,
        || is_read_on(&rt, &gate, &task, stream, &is_awaited),
        || {
            is_awaited.store(true, Ordering::SeqCst);
            worker.join(&rt)
        },
    );
    Ok(is_read && !gate.has_ended())
}

#[test]
fn a_worker_is_awaited_while_its_stream_is_read_and_woken_until_it_ends(
    rt: HostRuntime,
) -> io::Result<()> {
    expect!(rt; is_seen_off(rt, rt.alloc())?);
    Ok(())
}
