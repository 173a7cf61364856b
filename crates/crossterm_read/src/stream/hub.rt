//! What a stream and its worker share.
ghost use Rattle.std.specs.Prelude.{◌≡◌, ◌≢◌, IfSome};
ghost use Rattle.std.specs.IoError.{error_kind};
ghost use Rattle.std.specs.declared.io.ErrorKind.TheVariants.{Interrupted};
ghost use Rattle.futures.specs.Task.{Covers, Keeps};

use futures::task::{Context, Poll, Source, Waker};
use std::io;
use std::sync::atomic::{AtomicBool, Ordering};
use std::sync::{Condvar, Mutex, Wait};
use std::time::Duration;

// A fault at which a task ended. It is no wake-up.
#[derive(Drop)]
struct Fault {
    error: io::Error,
    ghost awake: { error_kind error ≢ Interrupted },
}

// What is under the lock.
#[derive(Drop)]
struct State {
    // The newest waker that was registered.
    newest: Option<Waker>,
    // No task runs until it was taken.
    fault: Option<Fault>,
    has_task: bool,
    is_over: bool,
    // Whether the worker has ended.
    is_done: bool,
}

/// The place where a stream gives its worker tasks, and where the worker wakes who waits for the stream.
#[derive(Drop)]
pub struct Hub {
    pub(crate) source: Source,
    // Whether a fault is kept: who finds none takes no lock.
    has_fault: AtomicBool,
    state: Mutex<State>,
    // A task was given, or the stream is over: the worker waits for it.
    changed: Condvar,
    // The stream is over, or the worker has ended: who waits for the worker's end waits for it.
    ended: Condvar,
}

impl Hub {
    // No task, and nobody who waits.
    pub(crate) fn new() -> Hub {
        Hub {
            source: Source::new(),
            has_fault: AtomicBool::new(false),
            state: Mutex::new(State {
                newest: None,
                fault: None,
                has_task: false,
                is_over: false,
                is_done: false,
            }),
            changed: Condvar::new(),
            ended: Condvar::new(),
        }
    }

    // The fault that the worker kept, which is then gone.
    #[inline(always)]
    pub(crate) fn take_fault<R: Wait>(&self, rt: &R) -> Option<io::Error>
        ensures awake { IfSome result (λ e. error_kind e ≢ Interrupted) }
    {
        if self.has_fault.load(Ordering::SeqCst) {
            return self.kept_fault(rt);
        }
        None
    }

    // The same, without a faster way if there is none.
    #[inline(never)]
    fn kept_fault<R: Wait>(&self, rt: &R) -> Option<io::Error>
        ensures awake { IfSome result (λ e. error_kind e ≢ Interrupted) }
    {
        let mut state = self.state.lock(rt);
        self.has_fault.store(false, Ordering::SeqCst);
        match state.fault.take() {
            Some(Fault { error }) => Some(error),
            None => None,
        }
    }

    // Registers the waker as the newest, and gives the worker a task, if none runs. The worker polls after that, so no wake-up is lost. If a
    // fault is kept, it is to be taken first: then the task is woken at once.
    pub(crate) fn give_task<R: Wait>(&self, rt: &R, cx: &mut Context<'_>)
        ensures registered { Covers cx.new (λ s. s ≡ self.now.source.id) }
        ensures kept { Keeps cx.old cx.new }
    {
        let mut guard = self.state.lock(rt);
        let state = &mut *guard;
        let _pending: Poll<()> = cx.register(&self.source, &mut state.newest);
        if state.fault.is_some() {
            wake(state.newest.take());
            return;
        }
        state.has_task = true;
        self.changed.notify_one();
    }

    // Waits for a task: false if the stream is over.
    pub(crate) fn await_task<R: Wait>(&self, rt: &R) -> bool {
        let state = self
            .changed
            .wait_while(rt, self.state.lock(rt), |s| !s.has_task && !s.is_over);
        !state.is_over
    }

    // The task is over: wakes the newest waker. A fault is kept for the next poll of the stream.
    pub(crate) fn end_task<R: Wait>(&self, rt: &R, fault: Option<io::Error>)
        requires { IfSome fault (λ e. error_kind e ≢ Interrupted) }
    {
        let mut state = self.state.lock(rt);
        state.has_task = false;
        self.has_fault.store(fault.is_some(), Ordering::SeqCst);
        state.fault = match fault {
            Some(error) => Some(Fault { error }),
            None => None,
        };
        wake(state.newest.take());
    }

    // The stream is over. Nobody waits for it any more.
    pub(crate) fn end<R: Wait>(&self, rt: &R) {
        let mut state = self.state.lock(rt);
        state.is_over = true;
        state.newest = None;
        self.changed.notify_one();
        self.ended.notify_all();
    }

    // The worker has ended.
    pub(crate) fn end_worker<R: Wait>(&self, rt: &R) {
        let mut state = self.state.lock(rt);
        state.is_done = true;
        self.ended.notify_all();
    }

    // Whether the stream is over and its worker has ended. It waits for the stream's end, and then for the worker's, so long at most.
    pub(crate) fn await_worker<R: Wait>(&self, rt: &R, limit: Duration) -> bool {
        let state = self
            .ended
            .wait_while(rt, self.state.lock(rt), |s| !s.is_over);
        if state.is_done {
            return true;
        }
        let seen = self.ended.notifications();
        drop(state);
        self.ended.sleep(rt, seen, limit);
        self.state.lock(rt).is_done
    }
}

// Wakes who waits.
fn wake(newest: Option<Waker>) {
    if let Some(waker) = newest {
        waker.wake();
    }
}
