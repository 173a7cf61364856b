//! Whether a terminal is in raw mode.
ghost use Rattle.std.specs.Prelude.{◌≡◌, IfErr};
ghost use Rattle.std.specs.IoError.{error_kind};
ghost use Rattle.std.specs.declared.io.ErrorKind.TheVariants.{OutOfMemory};

use std::alloc::{Allocator, Global};
use std::io;
use std::sync::Arc;
use std::sync::atomic::{AtomicBool, Ordering};

/// Whether a terminal is in raw mode: a truth value that a terminal shares with the device that reports its bytes.
///
/// It is false at first. What it says at a moment isn't claimed, since another thread may have set it.
#[derive(Drop)]
pub struct RawFlag<A: Allocator = Global> {
    raw: Arc<AtomicBool, A>,
}

impl<A: Allocator + Clone> RawFlag<A> {
    /// A flag that is false.
    ///
    /// # Errors
    ///
    /// `OutOfMemory` if memory was refused.
    pub fn new(alloc: A) -> io::Result<RawFlag<A>>
        ensures { IfErr result (λ e. error_kind e ≡ OutOfMemory) }
    {
        Ok(RawFlag {
            raw: Arc::new(alloc, AtomicBool::new(false))?,
        })
    }

    /// The same flag, for another who reads or sets it.
    ///
    /// # Errors
    ///
    /// `OutOfMemory` if no further share can be made.
    pub fn share(&self) -> io::Result<RawFlag<A>>
        ensures { IfErr result (λ e. error_kind e ≡ OutOfMemory) }
    {
        Ok(RawFlag {
            raw: Arc::try_clone(&self.raw)?,
        })
    }

    /// What it says.
    pub fn get(&self) -> bool {
        self.raw.load(Ordering::SeqCst)
    }

    /// Sets it.
    pub fn set(&self, raw: bool) {
        self.raw.store(raw, Ordering::SeqCst);
    }
}
