//! A telnet client's bytes (RFC 854), whose window sizes (NAWS: RFC 1073) are resizes.
ghost use Rattle.std.specs.Prelude.{◌≡◌, ◌≤◌, length};
ghost use Rattle.crossterm_read.specs.Device.{CountWithin};

use crossterm::event::source::{Answer, Device, Waker};
use std::io;
use std::time::Duration;

/// What is sent to a client first: the server echoes, nobody says 'go ahead', and window sizes are wanted.
///
/// So a telnet client sends each key as it is typed. Who connects by another program sees these nine bytes as rubbish, until the screen is
/// drawn.
pub const GREETING: [u8; 9] = [IAC, WILL, ECHO, IAC, WILL, SUPPRESS_GO_AHEAD, IAC, DO, NAWS];

const IAC: u8 = 255;

const DO: u8 = 253;

const WILL: u8 = 251;

const SUB_BEGIN: u8 = 250;

const SUB_END: u8 = 240;

const ECHO: u8 = 1;

const SUPPRESS_GO_AHEAD: u8 = 3;

const NAWS: u8 = 31;

// Where in the client's bytes we are.
#[derive(Clone, Copy)]
enum Place {
    Data,
    // After a carriage return, which a null may follow.
    Return,
    // After IAC.
    Command,
    // The next byte is an option.
    Option,
    // In a subnegotiation.
    Sub,
    // In a subnegotiation, after IAC.
    SubCommand,
}

// What is known of the client's bytes.
#[derive(Clone, Copy)]
struct Wire {
    place: Place,
    // The last five bytes of an open subnegotiation.
    sub: [u8; 5],
    // Columns and rows that weren't reported yet.
    size: Option<(u16, u16)>,
}

/// A device over another one whose bytes are a telnet client's: it reports the terminal's bytes among them, and the window's sizes.
///
/// A size goes before the bytes that came with it, so that none waits behind bytes that end no event.
#[derive(Drop)]
pub struct Telnet<D> {
    device: D,
    wire: Wire,
    // Bytes that came with a size, and how many they are.
    late: [u8; 1024],
    late_count: usize,
    late_raw: bool,
}

impl<D: Device> Telnet<D> {
    /// A device over this one.
    pub fn new(device: D) -> Self {
        let wire = Wire {
            place: Place::Data,
            sub: [0; 5],
            size: None,
        };
        Telnet {
            device,
            wire,
            late: [0; 1024],
            late_count: 0,
            late_raw: false,
        }
    }

    // Keeps bytes for the next answer.
    fn keep(&mut self, bytes: &[u8], raw: bool)
        ensures { self.new.device ≡ self.old.device }
    {
        let count = bytes.len().min(self.late.len());
        self.late[..count].copy_from_slice(&bytes[..count]);
        self.late_count = count;
        self.late_raw = raw;
    }

    // Reports the bytes that were kept.
    fn answer_late(&mut self, buf: &mut [u8]) -> Answer
        ensures count { CountWithin result (length buf.new) }
        ensures device { self.new.device ≡ self.old.device }
    {
        let count = self.late_count.min(self.late.len()).min(buf.len());
        buf[..count].copy_from_slice(&self.late[..count]);
        self.late_count = 0;
        Answer::Bytes {
            count,
            raw: self.late_raw,
        }
    }
}

impl Wire {
    fn gather(&mut self, byte: u8) {
        let [_, a, b, c, d] = self.sub;
        self.sub = [a, b, c, d, byte];
    }

    // A size of 0 says that it isn't known.
    fn close(&mut self) {
        let [option, a, b, c, d] = self.sub;
        let (columns, rows) = (u16::from_be_bytes([a, b]), u16::from_be_bytes([c, d]));
        if option == NAWS && columns > 0 && rows > 0 {
            self.size = Some((columns, rows));
        }
    }

    // The place after a byte outside a subnegotiation, and whether it is the terminal's.
    fn after(&self, byte: u8) -> (Place, bool) {
        match self.place {
            Place::Command if byte == IAC => (Place::Data, true),
            Place::Command if byte == SUB_BEGIN => (Place::Sub, false),
            Place::Command if byte > SUB_BEGIN => (Place::Option, false),
            Place::Command | Place::Option => (Place::Data, false),
            _ if byte == IAC => (Place::Command, false),
            Place::Return if byte == 0 => (Place::Data, false),
            _ if byte == b'\r' => (Place::Return, true),
            _ => (Place::Data, true),
        }
    }

    // Goes on by a byte, and returns whether it is the terminal's.
    fn put(&mut self, byte: u8) -> bool {
        let (place, is_data) = match self.place {
            Place::Sub if byte == IAC => (Place::SubCommand, false),
            Place::SubCommand if byte == SUB_END => {
                self.close();
                (Place::Data, false)
            }
            Place::Sub | Place::SubCommand => {
                self.gather(byte);
                (Place::Sub, false)
            }
            _ => self.after(byte),
        };
        self.place = place;
        is_data
    }

    // Moves the terminal's bytes to the front, and returns how many they are.
    fn strip(&mut self, buf: &mut [u8], count: usize) -> usize
        ensures { result ≤ length buf.new }
    {
        let mut kept = 0usize;
        for at in 0..count {
            let Some(byte) = buf.get(at) else {
                break;
            };
            let byte = *byte;
            if self.put(byte) {
                if let Some(place) = buf.get_mut(kept) {
                    *place = byte;
                    kept = kept.saturating_add(1);
                }
            }
        }
        kept.min(buf.len())
    }
}

impl<D: Device> Device for Telnet<D> {
    ghost failed = { λ s. D.failed s.device };

    ghost wakes = { λ s. D.wakes s.device };

    fn answer(&mut self, buf: &mut [u8], limit: Option<Duration>) -> io::Result<Answer> {
        if self.late_count > 0 {
            return Ok(self.answer_late(buf));
        }
        match self.device.answer(buf, limit) {
            Ok(Answer::Bytes { count, raw }) if count > 0 => {
                let count = self.wire.strip(buf, count);
                if let Some((columns, rows)) = self.wire.size {
                    self.wire.size = None;
                    self.keep(&buf[..count], raw);
                    return Ok(Answer::Resize(columns, rows));
                }
                match count {
                    0 => Ok(Answer::Idle),
                    _ => Ok(Answer::Bytes { count, raw }),
                }
            }
            other => other,
        }
    }

    fn failures(&self) -> u64 {
        self.device.failures()
    }

    fn waker(&self) -> io::Result<Waker> {
        self.device.waker()
    }
}
