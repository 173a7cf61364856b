//! Who keeps a server: its standard input, by which it ends.

use mio::unix::SourceFd;
use mio::{Interest, Registry, Token};
use std::io::{self, ErrorKind, Read};
use std::os::fd::AsRawFd;

/// The line that ends a server.
const QUIT: &[u8] = b"quit";

/// The input of a server. It ends the server by its own end, and by a line `quit`.
///
/// It is read only if the system says that something is there, and what is there comes at once: so it may be a descriptor that blocks.
#[derive(Drop)]
pub struct Host<R> {
    input: R,
    // How many bytes the open line has of `quit`, if it is a beginning of that.
    line: Option<usize>,
}

impl<R: Read + AsRawFd> Host<R> {
    /// A host of whom nothing was read yet.
    pub fn new(input: R) -> Self {
        Host {
            input,
            line: Some(0),
        }
    }

    /// Has the system report what comes, and returns whether it does. It doesn't for a file, `/dev/null` or a descriptor that is closed:
    /// then the input is at its end.
    pub fn watch(&self, registry: &Registry, token: Token) -> bool {
        let fd = self.input.as_raw_fd();
        registry
            .register(&mut SourceFd(&fd), token, Interest::READABLE)
            .is_ok()
    }

    // Goes on by a byte, and returns whether it ends a line `quit`.
    fn put(&mut self, byte: u8) -> bool {
        if byte == b'\n' {
            let is_quit = self.line == Some(QUIT.len());
            self.line = Some(0);
            return is_quit;
        }
        self.line = match self.line {
            Some(at) if QUIT.get(at) == Some(&byte) => Some(at.saturating_add(1)),
            _ => None,
        };
        false
    }

    // Reads once, and returns whether the server is to end.
    fn read(&mut self) -> io::Result<bool> {
        let mut buf = [0u8; 256];
        let count = self.input.read(&mut buf)?;
        let mut ends = count == 0;
        for byte in &buf[..count] {
            if self.put(*byte) {
                ends = true;
            }
        }
        Ok(ends)
    }

    /// Takes what came, and returns whether the server is to end. Else the system reports what comes next.
    pub fn ends(&mut self, registry: &Registry, token: Token) -> bool {
        match self.read() {
            Ok(true) => return true,
            Ok(false) => {}
            Err(error) => match error.kind() {
                ErrorKind::Interrupted | ErrorKind::WouldBlock => {}
                _ => return true,
            },
        }
        let fd = self.input.as_raw_fd();
        registry
            .reregister(&mut SourceFd(&fd), token, Interest::READABLE)
            .is_err()
    }
}
