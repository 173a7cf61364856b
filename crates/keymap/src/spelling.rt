//! Chords as people write them: what is read as one, and how one is spelled.
ghost use Rattle.std.specs.Prelude.{◌≡◌, ◌==◌, ℕ, [], ◌++◌, if◌then◌else◌, Some, bit_and, bit_or};
ghost use Rattle.std.specs.declared.io.ErrorKind.TheVariants.{InvalidInput};
ghost use Rattle.std.specs.IoError.{error_kind};
ghost use Rattle.crossterm_flags.specs.Variants.{name_in, rows_of, value_in};
ghost use Rattle.crossterm_types.specs.Values.{only_char};
ghost use Rattle.crossterm_types.specs.contracts.event.key.KeyCodePartialEq.TheImpl as code_eq;
ghost use Rattle.keymap.specs.Spelling as spec;
ghost use Rattle.keymap.specs.inside.Part.{part_text};

use crossterm_flags::value::name_in;
use crossterm_types::event::{KeyCode, KeyEvent, KeyModifiers, MediaKeyCode, ModifierKeyCode};
use std::io::ErrorKind;
use std::{fmt, io};
use thiserror::Error;

/// Why a text is no chord. As an `io::Error` it has the kind `InvalidInput` and the same text.
///
/// ```
/// assert_eq!(rt; read_chord("control-x"), Err(ChordFault::UnknownModifier));
/// ```
#[derive(Clone, Copy, Debug, PartialEq, Eq, Error)]
#[error("{}", self.words())]
pub enum ChordFault {
    /// There is no key: the text is empty, or ends behind a modifier.
    Empty,
    /// What precedes a hyphen is no modifier.
    UnknownModifier,
    /// The key has no such name.
    UnknownKey,
}

impl ChordFault {
    /// What a program prints of it.
    fn words(&self) -> &'static str {
        match self {
            ChordFault::Empty => "a chord without a key",
            ChordFault::UnknownModifier => "a chord with an unknown modifier",
            ChordFault::UnknownKey => "a chord with an unknown key",
        }
    }
}

impl From<ChordFault> for io::Error {
    ghost from_gives = { λ fault error. error_kind error ≡ InvalidInput };

    /// Of the kind `InvalidInput`, with the fault's text.
    fn from(fault: ChordFault) -> io::Error {
        io::Error::new(ErrorKind::InvalidInput, fault.words())
    }
}

// Keys by their words.
fn key_words() -> &'static [(&'static str, KeyCode)]
    ensures { rows_of result.now ≡ spec.key_words }
{
    &[
        ("backspace", KeyCode::Backspace),
        ("enter", KeyCode::Enter),
        ("left", KeyCode::Left),
        ("right", KeyCode::Right),
        ("up", KeyCode::Up),
        ("down", KeyCode::Down),
        ("home", KeyCode::Home),
        ("end", KeyCode::End),
        ("pageup", KeyCode::PageUp),
        ("pagedown", KeyCode::PageDown),
        ("tab", KeyCode::Tab),
        ("backtab", KeyCode::BackTab),
        ("delete", KeyCode::Delete),
        ("insert", KeyCode::Insert),
        ("null", KeyCode::Null),
        ("esc", KeyCode::Esc),
        ("capslock", KeyCode::CapsLock),
        ("scrolllock", KeyCode::ScrollLock),
        ("numlock", KeyCode::NumLock),
        ("printscreen", KeyCode::PrintScreen),
        ("pause", KeyCode::Pause),
        ("menu", KeyCode::Menu),
        ("keypadbegin", KeyCode::KeypadBegin),
        ("space", KeyCode::Char(' ')),
        ("mediaplay", KeyCode::Media(MediaKeyCode::Play)),
        ("mediapause", KeyCode::Media(MediaKeyCode::Pause)),
        ("mediaplaypause", KeyCode::Media(MediaKeyCode::PlayPause)),
        ("mediareverse", KeyCode::Media(MediaKeyCode::Reverse)),
        ("mediastop", KeyCode::Media(MediaKeyCode::Stop)),
        (
            "mediafastforward",
            KeyCode::Media(MediaKeyCode::FastForward),
        ),
        ("mediarewind", KeyCode::Media(MediaKeyCode::Rewind)),
        ("mediatracknext", KeyCode::Media(MediaKeyCode::TrackNext)),
        (
            "mediatrackprevious",
            KeyCode::Media(MediaKeyCode::TrackPrevious),
        ),
        ("mediarecord", KeyCode::Media(MediaKeyCode::Record)),
        (
            "medialowervolume",
            KeyCode::Media(MediaKeyCode::LowerVolume),
        ),
        (
            "mediaraisevolume",
            KeyCode::Media(MediaKeyCode::RaiseVolume),
        ),
        ("mediamutevolume", KeyCode::Media(MediaKeyCode::MuteVolume)),
        ("leftshift", KeyCode::Modifier(ModifierKeyCode::LeftShift)),
        (
            "leftcontrol",
            KeyCode::Modifier(ModifierKeyCode::LeftControl),
        ),
        ("leftalt", KeyCode::Modifier(ModifierKeyCode::LeftAlt)),
        ("leftsuper", KeyCode::Modifier(ModifierKeyCode::LeftSuper)),
        ("lefthyper", KeyCode::Modifier(ModifierKeyCode::LeftHyper)),
        ("leftmeta", KeyCode::Modifier(ModifierKeyCode::LeftMeta)),
        ("rightshift", KeyCode::Modifier(ModifierKeyCode::RightShift)),
        (
            "rightcontrol",
            KeyCode::Modifier(ModifierKeyCode::RightControl),
        ),
        ("rightalt", KeyCode::Modifier(ModifierKeyCode::RightAlt)),
        ("rightsuper", KeyCode::Modifier(ModifierKeyCode::RightSuper)),
        ("righthyper", KeyCode::Modifier(ModifierKeyCode::RightHyper)),
        ("rightmeta", KeyCode::Modifier(ModifierKeyCode::RightMeta)),
        (
            "isolevel3shift",
            KeyCode::Modifier(ModifierKeyCode::IsoLevel3Shift),
        ),
        (
            "isolevel5shift",
            KeyCode::Modifier(ModifierKeyCode::IsoLevel5Shift),
        ),
    ]
}

// Modifiers by their words, each with its bit.
fn modifier_words() -> &'static [(&'static str, u8)]
    ensures { rows_of result.now ≡ spec.modifier_words }
{
    &[
        ("shift", 1),
        ("ctrl", 2),
        ("alt", 4),
        ("super", 8),
        ("hyper", 16),
        ("meta", 32),
        ("mod64", 64),
        ("mod128", 128),
    ]
}

// The value of a word, if one has it.
fn value_in<T: Copy>(table: &[(&'static str, T)], word: &str) -> Option<T>
    ensures { result ≡ value_in (rows_of table.now) word.now }
{
    for (name, value) in table {
        if *name == word {
            return Some(*value);
        }
    }
    None
}

// A number below 256, after so much of it was read.
fn number_after(n: u8, digits: &[u8]) -> Option<u8>
    ensures { result ≡ spec.byte_after n digits.now }
{
    match digits.split_first() {
        None => Some(n),
        Some((d, digits)) => {
            let digit = *d;
            if 47 < digit && digit < 58 {
                let next = u32::from(n) * 10 + u32::from(digit - 48);
                if next < 256 {
                    return number_after(next as u8, digits);
                }
            }
            None
        }
    }
}

// The number of a function key, after `f`.
fn function_number(text: &[u8]) -> Option<u8>
    ensures { result ≡ spec.function_number text.now }
{
    match text.split_first() {
        None => None,
        Some((first, digits)) => {
            if *first == b'f' && !digits.is_empty() {
                number_after(0, digits)
            } else {
                None
            }
        }
    }
}

// The character of a text that has one.
#[tactic(auto, using(crossterm_types::proofs::ValueLaws::char_back))]
fn only_char(text: &str) -> Option<char>
    ensures { result ≡ only_char text.now }
{
    match text.parse::<char>() {
        Ok(c) => Some(c),
        Err(_) => None,
    }
}

// A key: a character, a function key, or a word.
fn read_code(text: &str) -> Option<KeyCode>
    ensures { result ≡ spec.read_code text.now }
{
    if let Some(c) = only_char(text) {
        return Some(KeyCode::Char(c));
    }
    if let Some(number) = function_number(text.as_bytes()) {
        return Some(KeyCode::F(number));
    }
    value_in(key_words(), text)
}

// The last part of a chord is its key.
fn read_key(bits: u8, text: &str) -> Result<KeyEvent, ChordFault>
    ensures { result ≡ spec.read_key bits text.now }
{
    if text.is_empty() {
        return Err(ChordFault::Empty);
    }
    match read_code(text) {
        Some(code) => Ok(KeyEvent::new(code, KeyModifiers::from_bits_retain(bits))),
        None => Err(ChordFault::UnknownKey),
    }
}

// The parts of a chord, after modifiers of these bits.
fn read_parts(bits: u8, text: &str) -> Result<KeyEvent, ChordFault>
    ensures { result ≡ spec.read_parts bits (spec.hyphen_parts text.now) }
{
    match text.split_once('-') {
        None => read_key(bits, text),
        Some((word, rest)) => {
            if word.is_empty() {
                if rest.is_empty() {
                    Ok(KeyEvent::new(KeyCode::Char('-'), KeyModifiers::from_bits_retain(bits)))
                } else {
                    Err(ChordFault::UnknownModifier)
                }
            } else {
                match value_in(modifier_words(), word) {
                    Some(bit) => read_parts(bits | bit, rest),
                    None => Err(ChordFault::UnknownModifier),
                }
            }
        }
    }
}

/// The chord that a text spells, as `ctrl-x`, `shift-f5`, `G`, `space` or `-`.
///
/// Modifiers come first, each before a hyphen, in any order: `shift`, `ctrl`, `alt`, `super`, `hyper`, `meta`, and
/// for the two bits that have no name `mod64` and `mod128`. The key is a character, `f`
/// and a number below 256, or its variant's name in small letters, as `pageup` and `esc`. A blank is `space`, and a media key has `media`
/// before its name, as `mediaplay`. A large letter needs no `shift`. Words are distinguished by case, and a modifier that is said twice
/// counts once.
///
/// # Errors
///
/// `Empty` if there is no key, `UnknownModifier` if what precedes a hyphen is no modifier, and `UnknownKey` if the rest is no key.
///
/// ```
/// let save = keymap.bind(&[read_chord("ctrl-x")?, read_chord("ctrl-s")?], "save")?;
/// ```
pub fn read_chord(text: &str) -> Result<KeyEvent, ChordFault>
    ensures { result ≡ spec.read_spelled text.now }
{
    read_parts(0, text)
}

// The word of a modifier that is set, and nothing else.
fn prefix(bits: u8, bit: u8, word: &'static str) -> &'static str
    ensures { result.now ≡ (if bit_and bits bit == 0 then [] else word.now) }
{
    if bits & bit == 0 { "" } else { word }
}

// The bits that are spelled.
fn spelled_bits(code: KeyCode, bits: u8) -> u8
    ensures { result ≡ spec.spelled_bits code bits }
{
    match code {
        KeyCode::Char(c) if c.is_ascii_uppercase() => bits & 254,
        _ => bits,
    }
}

// The word of a key that has one.
fn word_of(code: KeyCode) -> &'static str
    ensures { result.now ≡ name_in code_eq.ghosts.eq spec.key_words code }
{
    name_in(key_words(), code)
}

// What a key is spelled by.
#[derive(Clone, Copy)]
pub(crate) enum Part {
    Number(u8),
    Char(char),
    Word(&'static str),
}

impl fmt::Display for Part {
    ghost output = { λ part. Some (part_text part) };

    fn fmt<W: fmt::Write>(&self, f: &mut fmt::Formatter<W>) -> fmt::Result {
        match self {
            Part::Number(n) => write!(f, "f{n}"),
            Part::Char(c) => write!(f, "{c}"),
            Part::Word(word) => write!(f, "{word}"),
        }
    }
}

// What a key without its modifiers is spelled by.
fn part_of(code: KeyCode) -> Part
    ensures { part_text result ≡ spec.spelled_code code }
{
    match code {
        KeyCode::F(n) => Part::Number(n),
        KeyCode::Char(' ') => Part::Word("space"),
        KeyCode::Char(c) => Part::Char(c),
        _ => Part::Word(word_of(code)),
    }
}

/// A key's chord as people write it, as `ctrl-x`. `read_chord` reads it back.
///
/// ```
/// assert_eq!(rt; format!(in alloc; "{}", Spelled(KeyEvent::from(KeyCode::Esc)))?.as_str(), "esc");
/// ```
#[derive(Clone, Copy)]
pub struct Spelled(pub KeyEvent);

impl fmt::Display for Spelled {
    ghost output = { λ chord. Some (spec.chord_text chord.0) };

    fn fmt<W: fmt::Write>(&self, f: &mut fmt::Formatter<W>) -> fmt::Result {
        let code = part_of(self.0.code);
        let bits = spelled_bits(self.0.code, self.0.modifiers.bits());
        let shift = prefix(bits, 1, "shift-");
        let ctrl = prefix(bits, 2, "ctrl-");
        let alt = prefix(bits, 4, "alt-");
        let command = prefix(bits, 8, "super-");
        let hyper = prefix(bits, 16, "hyper-");
        let meta = prefix(bits, 32, "meta-");
        let sixth = prefix(bits, 64, "mod64-");
        let last = prefix(bits, 128, "mod128-");
        write!(
            f,
            "{shift}{ctrl}{alt}{command}{hyper}{meta}{sixth}{last}{code}"
        )
    }
}
