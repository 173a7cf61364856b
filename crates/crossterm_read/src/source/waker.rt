//! Wakes who waits for a device.
ghost use Rattle.std.specs.Prelude.{◌≡◌, IsOk, IfOk, IfErr};
ghost use Rattle.std.specs.IoError.{error_kind};
ghost use Rattle.std.specs.declared.io.ErrorKind.TheVariants.{OutOfMemory};
ghost use Rattle.crossterm_read.specs.Waking.{IsSure, WakesAs};
ghost use Rattle.crossterm_read.specs.declared.source.waker.Kind.TheVariants.{Flag, Nobody, Mio};

use std::io;
use std::sync::Arc;
use std::sync::atomic::{AtomicBool, Ordering};

/// Wakes who waits for a device, which then answers `Woken`.
#[derive(Debug, Drop)]
pub struct Waker {
    kind: Kind,
}

// Who is woken, and how.
#[derive(Debug, Drop)]
enum Kind {
    Nobody,
    Flag(Arc<AtomicBool>),
    Mio(Arc<mio::Waker>),
}

impl Waker {
    /// A waker that wakes nobody.
    pub fn none() -> Waker
        ensures nobody { result.kind ≡ Nobody }
        ensures sure { IsSure result }
    {
        Waker { kind: Kind::Nobody }
    }

    /// A waker that raises a flag, for a device that looks at it.
    pub fn from_flag(flag: Arc<AtomicBool>) -> Waker
        ensures flag { result.kind ≡ Flag flag }
        ensures sure { IsSure result }
    {
        Waker {
            kind: Kind::Flag(flag),
        }
    }

    /// A waker of a `mio::Poll`, for a device that waits there.
    pub fn from_mio(waker: Arc<mio::Waker>) -> Waker
        ensures mio { result.kind ≡ Mio waker }
    {
        Waker {
            kind: Kind::Mio(waker),
        }
    }

    /// The same waker, for another who wakes.
    ///
    /// # Errors
    ///
    /// `OutOfMemory` if no further share can be made.
    pub fn share(&self) -> io::Result<Waker>
        ensures same { IfOk result (WakesAs self.now) }
        ensures err { IfErr result (λ e. error_kind e ≡ OutOfMemory) }
    {
        match &self.kind {
            Kind::Nobody => Ok(Waker::none()),
            Kind::Flag(flag) => Ok(Waker::from_flag(Arc::try_clone(flag)?)),
            Kind::Mio(waker) => Ok(Waker::from_mio(Arc::try_clone(waker)?)),
        }
    }

    /// Wakes who waits, or who waits next. It waits for nobody.
    ///
    /// # Errors
    ///
    /// The system's, of a waker of `mio`. Every other waker is sure, and never fails.
    pub fn wake(&self) -> io::Result<()>
        ensures { IsSure self.now → IsOk result }
    {
        match &self.kind {
            Kind::Nobody => {}
            Kind::Flag(flag) => flag.store(true, Ordering::SeqCst),
            Kind::Mio(waker) => return waker.wake(),
        }
        Ok(())
    }
}
