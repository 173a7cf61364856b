//! The size of a terminal's window, and sizes as `tput` writes them.
ghost use Rattle.std.specs.Prelude.{◌≡◌, ◌≤◌, ◌∷◌, ℕ, List};
ghost use Rattle.crossterm.specs.Sizes.{both, size_after, number_in, size_in};

/// How large a terminal's window is.
#[derive(Clone, Copy, PartialEq, Eq, Debug)]
pub struct WindowSize {
    /// In lines of cells.
    pub rows: u16,
    /// In columns of cells.
    pub columns: u16,
    /// In pixels, or 0 if that isn't known.
    pub width: u16,
    /// In pixels, or 0 if that isn't known.
    pub height: u16,
}

// The greatest number that is distinguished from those above it.
const ABOVE: u32 = 65_536;

// A number with one more byte: a digit joins it, and any other byte is passed over. It stays at `ABOVE` or below.
fn with_byte(number: u32, byte: u8) -> u32
    requires { number ≤ 65536 }
    ensures most { result ≤ 65536 }
    ensures read { (rest : List ℕ) → size_after result rest ≡ size_after number (byte ∷ rest) }
{
    match byte {
        b'0'..=b'9' => (number * 10 + u32::from(byte - b'0')).min(ABOVE),
        _ => number,
    }
}

// The number of the digits among some bytes, or `ABOVE` if it is above 65535.
fn digits(bytes: &[u8]) -> u32
    ensures { result ≡ number_in bytes.now }
{
    let mut number = 0;
    for byte in bytes {
        number = with_byte(number, *byte);
    }
    number
}

/// The number of columns or lines that `tput cols` and `tput lines` write: the ASCII digits among the bytes, read as one number.
///
/// It is `None` for 0 and above 65535, and if there is no digit.
pub fn tput_value(bytes: &[u8]) -> Option<u16>
    ensures { result ≡ size_in bytes.now }
{
    match digits(bytes) {
        number @ 1..=65_535 => Some(number as u16),
        _ => None,
    }
}

/// Columns and rows as `tput` writes them, if both are there.
pub(crate) fn tput_size(columns: &[u8], lines: &[u8]) -> Option<(u16, u16)>
    ensures { result ≡ both (size_in columns.now) (size_in lines.now) }
{
    match (tput_value(columns), tput_value(lines)) {
        (Some(columns), Some(lines)) => Some((columns, lines)),
        _ => None,
    }
}
