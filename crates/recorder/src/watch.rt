//! Why a recording ended, for who doesn't have its recorder.
ghost use Rattle.std.specs.Prelude.{◌≡◌, IfErr};
ghost use Rattle.std.specs.IoError.{error_kind};
ghost use Rattle.std.specs.declared.io.ErrorKind.TheVariants.{OutOfMemory};

use crate::recorder::Stop;
use std::alloc::{Allocator, Global};
use std::io;
use std::sync::{Arc, OnceLock};

/// Why a recording ended, for who doesn't have its recorder, since that is in a reader, perhaps a shared one.
///
/// It reports nothing at first, and from the recording's end on why it ended. Which of both it says at a moment isn't claimed, since the
/// recorder may be on another thread.
///
/// ```
/// let watch = Watch::new(alloc)?;
/// let device = Recorder::new(alloc, device, file, SystemClock::new(&rt)).watched(watch.share()?);
/// let mut reader = InternalEventReader::new(alloc, DeviceSource::new(alloc, device));
/// if let Some(stop) = watch.stopped() {
///     eprintln!(rt; "the recording ended: {stop}")?;
/// }
/// ```
#[derive(Drop)]
pub struct Watch<A: Allocator = Global> {
    stop: Arc<OnceLock<Stop>, A>,
}

impl<A: Allocator> Watch<A> {
    /// A watch that reports nothing yet.
    ///
    /// # Errors
    ///
    /// `OutOfMemory` if memory was refused.
    pub fn new(alloc: A) -> io::Result<Watch<A>>
        ensures { IfErr result (λ e. error_kind e ≡ OutOfMemory) }
    {
        Ok(Watch {
            stop: Arc::new(alloc, OnceLock::new())?,
        })
    }

    /// Why the recording ended, after which nothing was written; `None` while it goes on.
    pub fn stopped(&self) -> Option<Stop> {
        self.stop.get().copied()
    }

    /// Reports why the recording ended. Only the first report counts.
    pub(crate) fn report(&self, stop: Stop) {
        let _ = self.stop.try_set(stop);
    }
}

impl<A: Allocator + Clone> Watch<A> {
    /// The same watch, for a recorder or for another thread.
    ///
    /// # Errors
    ///
    /// `OutOfMemory` if no further share can be made.
    pub fn share(&self) -> io::Result<Watch<A>>
        ensures { IfErr result (λ e. error_kind e ≡ OutOfMemory) }
    {
        Ok(Watch {
            stop: Arc::try_clone(&self.stop)?,
        })
    }
}
