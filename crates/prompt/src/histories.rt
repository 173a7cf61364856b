//! The file of a history: it is read at the start, and each accepted line is appended to it.
ghost use Rattle.std.specs.Prelude.{◌≡◌, ◌⊎◌, ◌<◌, ◌||◌, ℕ, List, [], true, false, IfErr, IfOk, None, OnErr, OnOk, Some, if◌then◌else◌, is_some, length};
ghost use Rattle.std.specs.Str.{bytes_eq, chars};
ghost use Rattle.std.specs.IoError.{error_kind};
ghost use Rattle.std.specs.declared.io.ErrorKind.TheVariants.{OutOfMemory};
ghost use Rattle.line_editor.specs.History.{loaded};
ghost use Rattle.prompt.specs.Histories.{HistoryState, LosesNone, is_lasting, is_left_out, is_unwanted, last_line, len_unended, with_accepted};

use crate::appending::{LockFile, append_pending, line_start};
use crate::troubles::HistoryTrouble;
use line_editor::{Editor, Limits};
use std::alloc::{AllocError, Global};
use std::format;
use std::fs::{self, File, Files};
use std::io::{self, ErrorKind};
use std::marker::Model;
use std::os::unix::fs::OpenOptionsExt;
use std::time::Clock;

/// How many names are tried for a file that is set aside.
const NAMES: u32 = 100;

/// The file of a history, to which a program appends each line as it is accepted, so that none is lost, however the program ends.
///
/// ```
/// let mut history = HistoryFile::new(tty.alloc, "history");
/// let mut trouble = history.load(rt, &mut editor)?;
/// for _ in rt.forever() {
///     if let Some(trouble) = trouble {
///         write!(tty.out, "history {trouble}\r\n")?;
///     }
///     match read_line(rt, &mut tty, &mut editor, "> ")? {
///         Read::Line(line) => trouble = history.append(rt, &editor, line.as_str())?,
///         Read::Interrupted | Read::Closed => break,
///     }
/// }
/// ```
#[derive(Drop)]
pub struct HistoryFile<'a> {
    path: &'a str,
    // What has to be appended: whole lines.
    pending: Vec<u8>,
    // The text of the last line in the file or among what has to be appended, as far as it is known.
    last: Vec<u8>,
    // Whether it was said that the file can't be read or written.
    is_said: bool,
}

impl<'a> Model for HistoryFile<'a> {
    ghost use Rattle.prompt.specs.Histories.{HistoryState};

    ghost Value = { HistoryState };

    ghost view = { λ h. record { pending = h.pending.items; last = h.last.items; is_said = h.is_said } };
}

/// The name that a file is given if its text is no history, by how many such names there are already.
fn aside(alloc: Global, path: &str, others: u32) -> Result<String, AllocError> {
    match others {
        0 => format!(in alloc; "{path}.aside"),
        _ => format!(in alloc; "{path}.aside{others}"),
    }
}

/// Renames a file, to a name that no other one has, and returns that.
fn set_aside<R: AllocGlobal + Files>(rt: &R, path: &str) -> io::Result<String> {
    for others in 0..NAMES {
        let name = aside(rt.alloc(), path, others)?;
        match fs::symlink_metadata(rt, name.as_str()) {
            Ok(_) => {}
            Err(error) if error.kind() == ErrorKind::NotFound => {
                fs::rename(rt, path, name.as_str())?;
                return Ok(name);
            }
            Err(error) => return Err(error),
        }
    }
    Err(io::Error::from(ErrorKind::AlreadyExists))
}

/// The length of a text without the line feed at its end, if it has one there.
fn len_unended(bytes: &[u8]) -> usize
    requires { 0 < length bytes.now }
    ensures { result ≡ len_unended bytes.now }
{
    let last = bytes.len() - 1;
    if bytes[last] == b'\n' {
        last
    } else {
        bytes.len()
    }
}

/// The last line of a text with its line feed, or nothing if the text is empty.
fn last_line(alloc: Global, bytes: &[u8]) -> Result<Vec<u8>, AllocError>
    ensures { IfOk result (λ last. last.items ≡ last_line bytes.now) }
{
    let mut last = Vec::new(alloc);
    if bytes.is_empty() {
        return Ok(last);
    }
    let end = len_unended(bytes);
    last.extend_from_slice(&bytes[line_start(bytes, end)..end])?;
    last.push(b'\n')?;
    Ok(last)
}

/// Whether a text is empty, or begins with a blank that isn't wanted.
fn is_unwanted(ignore_space: bool, line: &[u8]) -> bool
    ensures { result ≡ is_unwanted ignore_space line.now }
{
    match line {
        [] => true,
        [first, ..] => ignore_space && *first == b' ',
    }
}

/// Whether the limits leave a line out.
fn is_left_out(limits: Limits, line: &str) -> bool
    ensures { result ≡ is_left_out limits line.now }
{
    is_unwanted(limits.ignore_space, line.as_bytes()) || limits.bytes < line.len()
}

/// Whether two texts are the same.
fn is_same(text: &[u8], other: &[u8]) -> bool
    ensures { result ≡ bytes_eq text.now other.now }
{
    text == other
}

impl<'a> HistoryFile<'a> {
    /// The file of this name, to which nothing has to be appended. It is neither read nor made.
    ///
    /// ```
    /// let mut history = HistoryFile::new(alloc, "history");
    /// ```
    pub fn new(alloc: Global, path: &'a str) -> HistoryFile<'a>
        ensures { result ≡ record { pending = []; last = []; is_said = false } }
    {
        HistoryFile {
            path,
            pending: Vec::new(alloc),
            last: Vec::new(alloc),
            is_said: false,
        }
    }

    /// A trouble that lasts, unless one was said already.
    fn say(&mut self, trouble: HistoryTrouble) -> Option<HistoryTrouble>
        ensures said { self.new ≡ record self.old { is_said = true } }
        ensures once { result ≡ (if self.old.is_said then None else Some trouble) }
    {
        if self.is_said {
            return None;
        }
        self.is_said = true;
        Some(trouble)
    }

    /// A line is one more that has to be appended, unless it is left out. Returns whether it isn't.
    fn take(&mut self, editor: &Editor, line: &str) -> io::Result<bool>
        ensures ok { OnOk result (self.new ≡ with_accepted editor.now.limits line.now self.old) }
        ensures kept { IfOk result (λ taken. taken ≡ false → self.new ≡ self.old) }
        ensures err { OnErr result (self.new ≡ self.old) }
        ensures fault { IfErr result (λ error. error_kind error ≡ OutOfMemory) }
    {
        let limits = editor.limits();
        if is_left_out(limits, line) {
            return Ok(false);
        }
        let text = editor.saved_line(line)?;
        if limits.ignore_dups && is_same(text.as_bytes(), &self.last) {
            return Ok(false);
        }
        self.pending.extend_from_slice(text.as_bytes())?;
        self.last = text.into_bytes();
        Ok(true)
    }

    /// Appends what has to be.
    fn write<R: Files + Clock>(&mut self, rt: &R) -> io::Result<()>
    where
        R::File: LockFile,
        ensures others { self.new ≡ record self.old { pending = self.new.pending } }
        ensures kept { LosesNone R.File.contents self.old.pending self.new.pending }
        ensures ok { OnOk result (self.new.pending ≡ []) }
    {
        let mut file = match File::options()
            .append(true)
            .create(true)
            .mode(0o600)
            .open(rt, self.path)
        {
            Ok(file) => file,
            Err(error) => return Err(error),
        };
        append_pending(rt, self.path, &mut file, &mut self.pending)
    }

    /// Appends an accepted line, and before it those that couldn't be written. Only its owner may read a file that is made.
    ///
    /// An empty line is left out, and one that the editor's limits leave out. Lines that other programs append by this call stay whole, as
    /// these do; one that writes just now is waited for, during a tenth of a second at most.
    ///
    /// What is wrong with the file is returned, once: later calls return nothing then, and no line is lost by it. Each call tries to write
    /// all that couldn't be written before.
    ///
    /// # Errors
    ///
    /// Of the kind `OutOfMemory` if memory was refused. Then nothing has changed, and the line isn't among those that will be written.
    ///
    /// ```
    /// let line = editor.accept()?;
    /// if let Some(trouble) = history.append(rt, &editor, line.as_str())? {
    ///     eprintln!(rt; "history {trouble}")?;
    /// }
    /// ```
    pub fn append<R: Files + Clock>(
        &mut self,
        rt: &R,
        editor: &Editor,
        line: &str,
    ) -> io::Result<Option<HistoryTrouble>>
    where
        R::File: LockFile,
        ensures kept { OnOk result (LosesNone R.File.contents (with_accepted editor.now.limits line.now self.old).pending self.new.pending) }
        ensures last { OnOk result (self.new.last ≡ (with_accepted editor.now.limits line.now self.old).last) }
        ensures written { IfOk result (λ t. is_some t ≡ false → self.old.is_said ≡ false → self.old.pending ≡ [] → self.new.pending ≡ []) }
        ensures said { IfOk result (λ t. self.new.is_said ≡ (self.old.is_said || is_lasting t)) }
        ensures once { self.old.is_said ≡ true → IfOk result (λ t. is_some t ≡ false) }
        ensures err { OnErr result (self.new ≡ self.old) }
        ensures fault { IfErr result (λ error. error_kind error ≡ OutOfMemory) }
    {
        if !self.take(editor, line)? {
            return Ok(None);
        }
        match self.write(rt) {
            Ok(()) => Ok(None),
            Err(error) => Ok(self.say(HistoryTrouble::Unwritten(error))),
        }
    }

    /// What is wrong with a file that wasn't read, if that has to be said. One that isn't there is empty, and one that isn't UTF-8 is renamed.
    fn unread<R: AllocGlobal + Files>(
        &mut self,
        rt: &R,
        error: io::Error,
    ) -> io::Result<Option<HistoryTrouble>>
        ensures others { self.new ≡ record self.old { is_said = self.new.is_said } }
        ensures said { IfOk result (λ t. self.new.is_said ≡ (self.old.is_said || is_lasting t)) }
        ensures once { self.old.is_said ≡ true → IfOk result (λ t. is_lasting t ≡ false) }
        ensures err { OnErr result (self.new ≡ self.old) }
    {
        match error.kind() {
            ErrorKind::NotFound => Ok(None),
            ErrorKind::OutOfMemory => Err(error),
            ErrorKind::InvalidData => match set_aside(rt, self.path) {
                Ok(name) => Ok(Some(HistoryTrouble::Aside(name))),
                Err(error) => match error.kind() {
                    ErrorKind::OutOfMemory => Err(error),
                    _ => Ok(self.say(HistoryTrouble::Stuck(error))),
                },
            },
            _ => Ok(self.say(HistoryTrouble::Unread(error))),
        }
    }

    /// Reads the file, from which the editor takes its history. A file that isn't there is empty. One that isn't UTF-8 is renamed.
    ///
    /// What is wrong with the file is returned, and then the editor's history stays as it is. That a file can't be renamed or read is
    /// returned once, as by `append`.
    ///
    /// # Errors
    ///
    /// Of the kind `OutOfMemory` if memory was refused. Then nothing has changed.
    ///
    /// ```
    /// let mut history = HistoryFile::new(alloc, "history");
    /// if let Some(trouble) = history.load(rt, &mut editor)? {
    ///     eprintln!(rt; "history {trouble}")?;
    /// }
    /// ```
    pub fn load<R: AllocGlobal + Files>(
        &mut self,
        rt: &R,
        editor: &mut Editor,
    ) -> io::Result<Option<HistoryTrouble>>
        ensures taken { ((editor.new ≡ editor.old) × (self.new.last ≡ self.old.last))
            ⊎ ((text : List ℕ) × (editor.new ≡ loaded (chars text) editor.old) × (self.new.last ≡ last_line text)) }
        ensures pending { self.new.pending ≡ self.old.pending }
        ensures trouble { IfOk result (λ t. is_some t ≡ true → editor.new ≡ editor.old) }
        ensures said { IfOk result (λ t. self.new.is_said ≡ (self.old.is_said || is_lasting t)) }
        ensures once { self.old.is_said ≡ true → IfOk result (λ t. is_lasting t ≡ false) }
        ensures err { OnErr result ((self.new ≡ self.old) × (editor.new ≡ editor.old)) }
    {
        match fs::read_to_string(rt, self.path) {
            Ok(text) => {
                let last = last_line(rt.alloc(), text.as_bytes())?;
                editor.load_history(text.as_str())?;
                self.last = last;
                Ok(None)
            }
            Err(error) => self.unread(rt, error),
        }
    }
}
