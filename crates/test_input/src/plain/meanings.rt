//! What whole sequences mean, by their complete bytes.
ghost use Rattle.std.specs.Prelude.{◌≡◌};
ghost use Rattle.crossterm_parse.specs.Transitions.{readings_at, reading};
ghost use Rattle.crossterm_parse.specs.Meaning.{character_meaning, x10_meaning, reply_meaning, csi_meaning, escape_meaning, meaning};
ghost use Rattle.crossterm_parse.specs.Number.{number};
ghost use Rattle.crossterm_parse.specs.Numbered.{numbered_meaning, readings_of, sgr_meaning};

use crossterm_parse::meaning::{
    Meaning, meaning_after_csi, meaning_after_ss3, meaning_of_byte, meaning_of_character,
    meaning_of_flags, meaning_of_linux_key, meaning_of_x10, plus_alt, pressed_alone,
};
use crossterm_parse::number::Number;
use crossterm_parse::numbered::Parameters;
use crossterm_types::event::KeyCode;

/// What a byte by itself or a character means.
fn meaning_of_text(bytes: &[u8], raw: bool) -> Option<Meaning>
    ensures { result ≡ character_meaning raw bytes.now }
{
    match bytes {
        [] => None,
        [byte] => meaning_of_byte(*byte, raw),
        _ => meaning_of_character(bytes),
    }
}

/// What is kept of these bytes of a sequence.
fn read_digits(text: &[u8]) -> Parameters
    ensures { readings_at result ≡ readings_of text.now }
{
    let mut parameters = Parameters::empty();
    for byte in text {
        parameters.read(*byte);
    }
    parameters
}

/// The number that a text is, or none.
fn read_number(text: &[u8]) -> Number
    ensures { reading result ≡ number text.now }
{
    let mut read = Number::Empty;
    for byte in text {
        read = read.put(*byte);
    }
    read
}

/// What a numbered sequence means, from the first digit on.
fn meaning_of_number(bytes: &[u8], raw: bool) -> Option<Meaning>
    ensures { result ≡ numbered_meaning raw bytes.now }
{
    match bytes {
        [] => None,
        [text @ .., last] => read_digits(text).meaning(*last, raw),
    }
}

/// What a report of the mouse in digits means, from the byte after `<` on.
fn meaning_of_report(bytes: &[u8]) -> Option<Meaning>
    ensures { result ≡ sgr_meaning bytes.now }
{
    match bytes {
        [] => None,
        [text @ .., last] => read_digits(text).sgr(*last),
    }
}

/// What a report of the mouse in three bytes means.
fn meaning_of_three(bytes: &[u8]) -> Option<Meaning>
    ensures { result ≡ x10_meaning bytes.now }
{
    match bytes {
        [code, column, row, ..] => meaning_of_x10(*code, *column, *row),
        _ => None,
    }
}

/// What a reply means, from the byte after `?` on.
fn meaning_of_reply(bytes: &[u8]) -> Option<Meaning>
    ensures { result ≡ reply_meaning bytes.now }
{
    match bytes {
        [] => None,
        [.., b'c'] => Some(Meaning::PrimaryDeviceAttributes),
        [text @ .., _] => meaning_of_flags(read_number(text)),
    }
}

/// What is meant by what follows `ESC [`.
fn meaning_of_csi(bytes: &[u8], raw: bool) -> Option<Meaning>
    ensures { result ≡ csi_meaning raw bytes.now }
{
    match bytes {
        [] => None,
        [b'[', rest @ ..] => meaning_of_linux_key(*rest.first()?),
        [b'M', rest @ ..] => meaning_of_three(rest),
        [b'<', rest @ ..] => meaning_of_report(rest),
        [b'?', rest @ ..] => meaning_of_reply(rest),
        [b'0'..=b'9', ..] => meaning_of_number(bytes, raw),
        [byte, ..] => meaning_after_csi(*byte),
    }
}

/// What is meant by what follows ESC: by nothing, the Esc key.
fn meaning_after_escape(bytes: &[u8], raw: bool) -> Option<Meaning>
    ensures { result ≡ escape_meaning raw bytes.now }
{
    match bytes {
        [] | [27, ..] => Some(pressed_alone(KeyCode::Esc)),
        [b'O', rest @ ..] => meaning_after_ss3(*rest.first()?),
        [b'[', rest @ ..] => meaning_of_csi(rest, raw),
        _ => plus_alt(meaning_of_text(bytes, raw)),
    }
}

/// What the complete bytes of a sequence mean.
pub fn meaning_of_sequence(bytes: &[u8], raw: bool) -> Option<Meaning>
    ensures { result ≡ meaning raw bytes.now }
{
    match bytes {
        [27, rest @ ..] => meaning_after_escape(rest, raw),
        _ => meaning_of_text(bytes, raw),
    }
}
