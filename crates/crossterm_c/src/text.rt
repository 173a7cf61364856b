//! The text of a paste, into a caller's slice.
ghost use Rattle.std.specs.Prelude.{◌≡◌, ◌⊎◌, ◌≤◌, ◌<◌, ◌+◌, ◌++◌, length, take, drop};
ghost use Rattle.std.specs.List.{AllByRecursion};
ghost use Rattle.bstr.specs.Utf8.{decoded};
ghost use Rattle.crossterm_c.specs.Text.{TextBeginsWith, WritesLossy, next_text};

use bstr::decode_utf8;

/// U+FFFD in UTF-8.
const REPLACEMENT: &[u8] = &[0xEF, 0xBF, 0xBD];

/// How many bytes of ASCII are in front.
fn ascii_in(bytes: &[u8]) -> usize
    ensures within { result ≤ length bytes.now }
    ensures ascii { AllByRecursion (λ b. b < 128) (take result bytes.now) }
{
    for (i, byte) in bytes.iter().enumerate() {
        if *byte >= 128 {
            return i;
        }
    }
    bytes.len()
}

/// The character in front, if there is one, and how many bytes it has or the part that isn't UTF-8.
fn character_of(bytes: &[u8]) -> (Option<char>, usize)
    requires { 0 < length bytes.now }
    ensures decoded { (result.0 ≡ (decoded bytes.now).char) × (result.1 ≡ (decoded bytes.now).size) }
    ensures some { 0 < result.1 }
    ensures within { result.1 ≤ length bytes.now }
{
    decode_utf8(bytes)
}

/// What the text of some bytes begins with, and how many of them that is of: ASCII as far as there is room, or one character.
fn front_of<'a>(bytes: &'a [u8], room: usize) -> (&'a [u8], usize)
    requires { 0 < length bytes.now }
    ensures some { 0 < result.1 }
    ensures within { result.1 ≤ length bytes.now }
    ensures text { TextBeginsWith bytes.now result.0.now result.1 }
    ensures short { (length result.0.now ≤ room) ⊎ (result.0.now ≡ next_text bytes.now) }
{
    let count = ascii_in(&bytes[..bytes.len().min(room)]);
    if count > 0 {
        return (&bytes[..count], count);
    }
    match character_of(bytes) {
        (Some(_), size) => (&bytes[..size], size),
        (None, size) => (REPLACEMENT, size),
    }
}

/// Writes the text of some bytes, as far as the next character has room. It returns how many bytes were read; `written` is how many were
/// written.
pub(crate) fn write_text(bytes: &[u8], text: &mut [u8], written: &mut usize) -> usize
    ensures { WritesLossy bytes.now text.new written.new result }
{
    let mut place = 0;
    *written = 0;
    while place < bytes.len() {
        let room = text.len() - *written;
        let (front, read) = front_of(&bytes[place..], room);
        if front.len() > room {
            return place;
        }
        text[*written..*written + front.len()].copy_from_slice(front);
        *written += front.len();
        place += read;
    }
    place
}
