//! The functions of the modes on inputs of their own: what they write is flushed, unless the writer failed.

use crate::expect;
use probe_modes::fault::Fault;
use probe_modes::keys::run_keys;
use probe_modes::play::run_play;
use probe_modes::say::run_say;
use probe_modes::serve::run_serve;
use std::alloc::Global;
use std::format;
use std::io::{self, ErrorKind, Write};

/// A writer that takes some bytes and then fails, and knows whether it was flushed after them.
#[derive(Drop)]
struct Narrow {
    bytes: Vec<u8>,
    room: usize,
    flushed: bool,
}

impl Narrow {
    /// A writer of so many bytes.
    fn new(alloc: Global, room: usize) -> Narrow {
        let bytes = Vec::new(alloc);
        Narrow {
            bytes,
            room,
            flushed: false,
        }
    }

    /// Whether a mode ended well, and this was written and flushed.
    fn has(&self, done: Result<(), Fault>, want: &[u8]) -> bool {
        done.is_ok() && self.flushed && self.bytes.as_slice() == want
    }
}

impl Write for Narrow {
    fn write(&mut self, buf: &[u8]) -> io::Result<usize> {
        if self.room == 0 {
            return Err(io::Error::from(ErrorKind::BrokenPipe));
        }
        let count = buf.len().min(self.room);
        self.flushed = false;
        self.bytes.extend_from_slice(&buf[..count])?;
        self.room -= count;
        Ok(count)
    }

    fn flush(&mut self) -> io::Result<()> {
        self.flushed = true;
        Ok(())
    }
}

#[test]
fn play_writes_what_calls_return(rt: HostRuntime) {
    let mut writer = Narrow::new(rt.alloc(), 100);
    let mut reader: &[u8] = b"wake\npiece 61\npoll event 1\nread event 1\n";
    let done = run_play(rt.alloc(), &mut reader, &mut writer);
    let holds = writer.has(done, b"false\nkey Char:61 0 Press 0\n");
    expect(&rt, holds, "play");
}

#[test]
fn keys_writes_actions(rt: HostRuntime) {
    let mut writer = Narrow::new(rt.alloc(), 100);
    let mut reader: &[u8] = b"bind go Char:67/0,Char:67/0\npiece 676761\n";
    let done = run_keys(&rt, rt.alloc(), &mut reader, &mut writer);
    let want = b"action go\nkey Char:61 0 Press 0\nfault UnexpectedEof\n";
    expect(&rt, writer.has(done, want), "keys");
}

#[test]
fn serve_writes_events(rt: HostRuntime) {
    let mut writer = Narrow::new(rt.alloc(), 100);
    let mut reader: &[u8] = b"a\x1b[A";
    let done = run_serve(&rt, rt.alloc(), &mut reader, &mut writer);
    let holds = writer.has(done, b"key Char:61 0 Press 0\nkey Up 0 Press 0\n");
    expect(&rt, holds, "serve");
}

#[test]
fn say_writes_commands(rt: HostRuntime) {
    let mut writer = Narrow::new(rt.alloc(), 100);
    let mut reader: &[u8] = b"Show\nMoveTo 65535 0\nHide";
    let done = run_say(rt.alloc(), &mut reader, &mut writer);
    let holds = writer.has(done, b"\x1b[?25h\x1b[1;65536H\x1b[?25l");
    expect(&rt, holds, "say");
}

#[test]
fn a_writer_that_failed_is_not_flushed(rt: HostRuntime) {
    let mut writer = Narrow::new(rt.alloc(), 10);
    let mut reader: &[u8] = b"Show\nMoveTo 65535 0\nHide";
    let done = run_say(rt.alloc(), &mut reader, &mut writer);
    let is_named = matches!(done, Err(Fault::WriteFailed));
    expect(&rt, is_named && !writer.flushed, "the writer is named");
    let holds = writer.bytes.as_slice() == b"\x1b[?25h\x1b[1;".as_slice();
    expect(&rt, holds, "the first ten bytes");
}

/// Faults that no input brings about, and their lines.
const FAULTS: [(Fault, &str); 3] = [
    (Fault::OutOfMemory, "probe: out of memory"),
    (Fault::SocketFailed, "probe: socket failed"),
    (Fault::NoClock, "probe: no clock"),
];

/// Whether a fault is reported by this line.
fn is_reported_by(alloc: Global, fault: Fault, want: &str) -> bool {
    match format!(in alloc; "{fault}") {
        Ok(line) => line.as_str() == want,
        Err(_) => false,
    }
}

#[test]
fn faults_have_their_lines(rt: HostRuntime) {
    for (fault, want) in FAULTS {
        expect(&rt, is_reported_by(rt.alloc(), fault, want), want);
    }
}
