//! Appends whole lines to a file that other programs append to.
ghost use Rattle.std.specs.Prelude.{◌≡◌, ◌≤◌, length, OnErr, OnOk};
ghost use Rattle.prompt.specs.Histories.{EndsAndTakes, EndsAndTakesAll, EndsLastLine, TakesAll, TakesLines, line_start};

use crossterm_command::write_text;
use std::fs::{self, File, Files, OpenFile, TryLockError};
use std::io::{self, ErrorKind, Read, Seek, SeekFrom, Write};
use std::thread;
use std::time::{Clock, Duration};

/// How often it is tried to lock a file.
const TRIES: u32 = 50;

/// How many milliseconds are between two tries.
const PAUSE: u64 = 2;

/// A file that a program can have for itself for a while.
///
/// ```
/// struct Unshared;
///
/// impl LockFile for Unshared {
///     fn try_lock(&self) -> Result<(), std::fs::TryLockError> {
///         Ok(())
///     }
/// }
/// ```
pub trait LockFile {
    /// Locks the file, until it is closed.
    ///
    /// # Errors
    ///
    /// `WouldBlock` while another program has it, and `Error` if it can't be locked at all.
    fn try_lock(&self) -> Result<(), TryLockError>;
}

impl LockFile for File {
    /// Locks it as `flock` does, which binds programs that lock it too.
    fn try_lock(&self) -> Result<(), TryLockError> {
        File::try_lock(self)
    }
}

/// Locks a file, and returns whether that was done. While another program has it, this waits for a tenth of a second at most.
fn lock<R: Clock, F: LockFile>(rt: &R, file: &F) -> bool {
    for _ in 0..TRIES {
        match file.try_lock() {
            Ok(()) => return true,
            Err(TryLockError::WouldBlock) => thread::sleep(rt, Duration::from_millis(PAUSE)),
            Err(TryLockError::Error(_)) => return false,
        }
    }
    false
}

/// Whether the last line of a file has no end.
fn ends_within<F: Read + Seek>(file: &mut F) -> io::Result<bool> {
    if file.seek(SeekFrom::End(0))? == 0 {
        return Ok(false);
    }
    file.seek(SeekFrom::End(-1))?;
    let mut last = [b'\n'];
    file.read(&mut last)?;
    Ok(last != [b'\n'])
}

/// Whether the last line of a file may have no end.
fn may_end_within<R: Files>(rt: &R, path: &str) -> bool {
    match fs::open(rt, path) {
        Ok(mut file) => ends_within(&mut file).unwrap_or(true),
        Err(_) => true,
    }
}

/// Ends the last line of a file, if it may have no end.
fn end_last<F: Write>(file: &mut F, may_end_within: bool) -> io::Result<()>
    ensures { EndsLastLine (F.contents file.old) (F.contents file.new) }
{
    if !may_end_within {
        return Ok(());
    }
    match write_text(file, "\n") {
        Ok(()) => Ok(()),
        Err(error) => Err(error),
    }
}

/// The length of a file, if it is known.
fn len_of<F: OpenFile>(file: &F) -> Option<u64> {
    match file.metadata() {
        Ok(metadata) => Some(metadata.len()),
        Err(_) => None,
    }
}

/// Cuts a file back to a length behind which so many bytes were written, and returns whether that was done. It isn't if more was written.
fn cut<F: OpenFile>(file: &F, len: Option<u64>, taken: usize) -> bool {
    match len {
        Some(len) if len_of(file) == len.checked_add(taken as u64) => file.set_len(len).is_ok(),
        _ => false,
    }
}

/// The last place up to another one at which a line begins.
pub(crate) fn line_start(bytes: &[u8], to: usize) -> usize
    requires { to ≤ length bytes.now }
    ensures few { result ≤ to }
    ensures last { result ≡ line_start bytes.now to }
{
    let mut at = to;
    while at > 0 {
        if bytes[at - 1] == b'\n' {
            return at;
        }
        at -= 1;
    }
    0
}

/// Appends what is pending by one call. If a part of it was taken, the file is cut back to a length. If that isn't known, the lines that
/// aren't whole in the file stay pending.
fn write_pending<F: Write + OpenFile>(
    file: &mut F,
    pending: &mut Vec<u8>,
    len: Option<u64>,
) -> io::Result<()>
    ensures ok { OnOk result (TakesAll (F.contents file.old) (F.contents file.new) pending.old.items pending.new.items) }
    ensures err { OnErr result (TakesLines (F.contents file.old) (F.contents file.new) pending.old.items pending.new.items) }
{
    let taken = match file.write(pending) {
        Ok(taken) => taken,
        Err(error) => return Err(error),
    };
    if taken == pending.len() {
        pending.clear();
        return Ok(());
    }
    if !cut(file, len, taken) {
        let gone = line_start(pending, taken);
        drop(pending.drain(..gone));
    }
    Err(io::Error::new(ErrorKind::WriteZero, "a part wasn't written"))
}

/// Appends what is pending to an open file of this path, behind the end of its last line. Others that lock the file append nothing meanwhile.
pub(crate) fn append_pending<R: Files + Clock>(
    rt: &R,
    path: &str,
    file: &mut R::File,
    pending: &mut Vec<u8>,
) -> io::Result<()>
where
    R::File: LockFile,
    ensures ok { OnOk result (EndsAndTakesAll (R.File.contents file.old) (R.File.contents file.new) pending.old.items pending.new.items) }
    ensures err { OnErr result (EndsAndTakes (R.File.contents file.old) (R.File.contents file.new) pending.old.items pending.new.items) }
{
    let is_locked = lock(rt, file);
    match end_last(file, may_end_within(rt, path)) {
        Ok(()) => {}
        Err(error) => return Err(error),
    }
    let len = if is_locked { len_of(file) } else { None };
    write_pending(file, pending, len)
}
