//! Waits until a descriptor is ready, or a waker was used.
use mio::unix::SourceFd;
use mio::{Events, Interest, Poll, Token};
use std::alloc::Global;
use std::io::{self, ErrorKind};
use std::net::Net;
use std::os::fd::RawFd;
use std::sync::Arc;
use std::time::Duration;

/// The descriptor that reports bytes.
pub(crate) const INPUT: Token = Token(0);

/// The descriptor that reports sizes.
pub(crate) const SIZES: Token = Token(1);

const WAKER: Token = Token(2);

/// What is ready.
#[derive(Clone, Copy)]
pub(crate) struct Ready {
    pub(crate) woken: bool,
    pub(crate) sizes: bool,
    pub(crate) input: bool,
}

impl Ready {
    const NOTHING: Ready = Ready {
        woken: false,
        sizes: false,
        input: false,
    };

    // Whether what has this token is ready.
    fn has(self, token: Token) -> bool {
        match token {
            INPUT => self.input,
            SIZES => self.sizes,
            _ => self.woken,
        }
    }

    // Says whether what has this token is ready.
    fn set(&mut self, token: Token, is_ready: bool) {
        match token {
            INPUT => self.input = is_ready,
            SIZES => self.sizes = is_ready,
            _ => self.woken = is_ready,
        }
    }
}

/// Watches descriptors, and has a waker.
#[derive(Drop)]
pub(crate) struct Watch {
    poll: Poll,
    events: Events,
    pub(crate) waker: Arc<mio::Waker>,
    // What the system can't watch, as a regular file, is ready always.
    always: Ready,
    // What the system has said to be ready since it was asked.
    said: Ready,
    // What the system has said to have ended, or to have failed.
    ended: Ready,
}

impl Watch {
    /// Watches nothing yet. The error is `OutOfMemory`, or the system's.
    pub(crate) fn new<N: Net>(rt: &N, alloc: Global) -> io::Result<Watch> {
        let poll = Poll::new(rt)?;
        let waker = Arc::new(alloc, mio::Waker::new(poll.registry(), WAKER)?)?;
        let events = Events::with_capacity(alloc, 4)?;
        Ok(Watch {
            poll,
            events,
            waker,
            always: Ready::NOTHING,
            said: Ready::NOTHING,
            ended: Ready::NOTHING,
        })
    }

    /// Watches a descriptor too.
    pub(crate) fn add(&mut self, fd: RawFd, token: Token) -> io::Result<()> {
        let added = self
            .poll
            .registry()
            .register(&mut SourceFd(&fd), token, Interest::READABLE);
        match added {
            Err(error) if error.kind() == ErrorKind::PermissionDenied => {
                self.always.set(token, true);
                Ok(())
            }
            _ => added,
        }
    }

    /// Asks anew whether a descriptor is ready, if the system has said so. If it hasn't, it still will.
    pub(crate) fn ask(&mut self, fd: RawFd, token: Token) -> io::Result<()> {
        if !self.said.has(token) {
            return Ok(());
        }
        self.poll
            .registry()
            .reregister(&mut SourceFd(&fd), token, Interest::READABLE)?;
        self.said.set(token, false);
        Ok(())
    }

    /// Notes whether all that was there was read. Then the system needn't be asked anew, since it says what comes later by itself: each arrival is
    /// an edge (`epoll(7)`). The end of what has ended already is none.
    pub(crate) fn note_read(&mut self, token: Token, is_all: bool) {
        if is_all && !self.ended.has(token) {
            self.said.set(token, false);
        }
    }

    /// Watches a descriptor no longer.
    pub(crate) fn remove(&mut self, fd: RawFd, token: Token) {
        // One that was never watched isn't now.
        let _ = self.poll.registry().deregister(&mut SourceFd(&fd));
        self.always.set(token, false);
        self.said.set(token, false);
    }

    /// Waits until something is ready, and no longer than the limit.
    pub(crate) fn wait(&mut self, limit: Option<Duration>) -> io::Result<Ready> {
        let mut ready = self.always;
        let is_at_once = ready.sizes || ready.input;
        let limit = if is_at_once {
            Some(Duration::ZERO)
        } else {
            limit
        };
        let Watch {
            poll,
            events,
            said,
            ended,
            ..
        } = self;
        poll.poll(events, limit)?;
        for event in events.iter() {
            ready.set(event.token(), true);
            said.set(event.token(), true);
            if event.is_read_closed() || event.is_error() {
                ended.set(event.token(), true);
            }
        }
        Ok(ready)
    }
}
