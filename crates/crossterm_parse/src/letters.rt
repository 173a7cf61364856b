//! The keys of final letters, which `ESC O b`, `ESC [ b` and a numbered sequence have in common (xterm, "PC-Style Function Keys").
//!
//! Only crates of this tree use this module, which may change with each version.
ghost use Rattle.std.specs.Prelude.{◌≡◌};
ghost use Rattle.crossterm_parse.specs.Letters.{letter_key};

use crossterm_types::event::KeyCode;

/// The key of a final letter.
pub fn letter_key(last: u8) -> Option<KeyCode>
    ensures { result ≡ letter_key last }
{
    match last {
        b'A' => Some(KeyCode::Up),
        b'B' => Some(KeyCode::Down),
        b'C' => Some(KeyCode::Right),
        b'D' => Some(KeyCode::Left),
        b'F' => Some(KeyCode::End),
        b'H' => Some(KeyCode::Home),
        b'P' => Some(KeyCode::F(1)),
        b'Q' => Some(KeyCode::F(2)),
        b'S' => Some(KeyCode::F(4)),
        _ => None,
    }
}
