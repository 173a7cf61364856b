//! The slow program of the grammar's definitions, which keeps all bytes and looks at whole strings. The parser is compared with it.
ghost use Rattle.std.specs.Prelude.{◌≡◌, ◌++◌, map, option_to_list, IfOk, OnOk};
ghost use Rattle.std.specs.Option.{option_map};
ghost use Rattle.crossterm_types.specs.Seen.{seen};
ghost use Rattle.crossterm_parse.specs.Recognizer.{is_lead, is_continuing, further_after, ends_character, is_character, ends_numbered, ends_reply, ends_mouse, ends_paste, ends_digit, ends_private, ends_csi, ends_escape, is_shape, is_decided};
ghost use Rattle.crossterm_parse.specs.Meaning.{meaning_seen};
ghost use Rattle.test_input.specs.Plain.{IsDivided};

mod meanings;

use crossterm_parse::marked::Marked;
use crossterm_types::event::{Event, InternalEvent};
use meanings::meaning_of_sequence;
use std::alloc::{AllocError, Allocator, Global};
use std::string::String;

/// Whether the byte leads a character.
fn leads(byte: u8) -> bool
    ensures { result ≡ is_lead byte }
{
    matches!(byte, 0xC0..=0xF7)
}

/// Whether the byte continues a character.
fn continues(byte: u8) -> bool
    ensures { result ≡ is_continuing byte }
{
    matches!(byte, 0x80..=0xBF)
}

/// How many more bytes continue a character after the first that does.
fn further_bytes(lead: u8) -> u8
    ensures { result ≡ further_after lead }
{
    match lead {
        0..=0xDF => 0,
        0xE0..=0xEF => 1,
        _ => 2,
    }
}

/// Whether the bytes that continue a character end with the last one here.
fn ends_text(further: u8, bytes: &[u8]) -> bool
    ensures { result ≡ ends_character further bytes.now }
{
    match bytes {
        [] => false,
        [first, rest @ ..] => {
            if further > 0 && continues(*first) {
                ends_text(further - 1, rest)
            } else {
                rest.is_empty()
            }
        }
    }
}

/// Whether the bytes are a byte by itself or a character, whole or broken off.
fn is_text(bytes: &[u8]) -> bool
    ensures { result ≡ is_character bytes.now }
{
    match bytes {
        [] => false,
        [first, rest @ ..] => {
            if leads(*first) {
                ends_text(further_bytes(*first), rest)
            } else {
                rest.is_empty()
            }
        }
    }
}

/// Whether the first final byte is the last one.
fn ends_number(bytes: &[u8]) -> bool
    ensures { result ≡ ends_numbered bytes.now }
{
    match bytes {
        [] => false,
        [64..=126, rest @ ..] => rest.is_empty(),
        [_, rest @ ..] => ends_number(rest),
    }
}

/// Whether the first `c` or `u` is the last byte.
fn ends_the_reply(bytes: &[u8]) -> bool
    ensures { result ≡ ends_reply bytes.now }
{
    match bytes {
        [] => false,
        [b'c' | b'u', rest @ ..] => rest.is_empty(),
        [_, rest @ ..] => ends_the_reply(rest),
    }
}

/// Whether what follows `ESC [ ?` ends a reply, which a `u` at once doesn't.
fn ends_after_question(bytes: &[u8]) -> bool
    ensures { result ≡ ends_private bytes.now }
{
    match bytes {
        [] => false,
        [b'c', rest @ ..] => rest.is_empty(),
        [_, rest @ ..] => ends_the_reply(rest),
    }
}

/// Whether the first `M` or `m` is the last byte.
fn ends_the_mouse(bytes: &[u8]) -> bool
    ensures { result ≡ ends_mouse bytes.now }
{
    match bytes {
        [] => false,
        [b'M' | b'm', rest @ ..] => rest.is_empty(),
        [_, rest @ ..] => ends_the_mouse(rest),
    }
}

/// Whether the first end of a paste is the end.
fn ends_the_paste(bytes: &[u8]) -> bool
    ensures { result ≡ ends_paste bytes.now }
{
    match bytes {
        [] => false,
        [_, rest @ ..] => match bytes.strip_prefix(b"\x1b[201~") {
            Some(more) => more.is_empty(),
            None => ends_the_paste(rest),
        },
    }
}

/// Whether a numbered sequence or a paste, from its first digit on, is whole.
fn ends_after_digit(bytes: &[u8]) -> bool
    ensures { result ≡ ends_digit bytes.now }
{
    match bytes {
        [] => false,
        [_, rest @ ..] => match bytes.strip_prefix(b"200~") {
            Some(text) => ends_the_paste(text),
            None => ends_number(rest),
        },
    }
}

/// Whether what follows `ESC [` ends a sequence.
fn ends_after_csi(bytes: &[u8]) -> bool
    ensures { result ≡ ends_csi bytes.now }
{
    match bytes {
        [] => false,
        [b'[', rest @ ..] => rest.len() == 1,
        [b'M', rest @ ..] => rest.len() == 3,
        [b'<', rest @ ..] => ends_the_mouse(rest),
        [b'?', rest @ ..] => ends_after_question(rest),
        [b'0'..=b'9', ..] => ends_after_digit(bytes),
        [_, rest @ ..] => rest.is_empty(),
    }
}

/// Whether what follows ESC ends a sequence.
fn ends_after_escape(bytes: &[u8]) -> bool
    ensures { result ≡ ends_escape bytes.now }
{
    match bytes {
        [] => false,
        [b'O', rest @ ..] => rest.len() == 1,
        [b'[', rest @ ..] => ends_after_csi(rest),
        [27, rest @ ..] => rest.is_empty(),
        _ => is_text(bytes),
    }
}

/// Whether the bytes have one of the shapes of a sequence.
fn is_sequence(bytes: &[u8]) -> bool
    ensures { result ≡ is_shape bytes.now }
{
    match bytes {
        [27, rest @ ..] => ends_after_escape(rest),
        _ => is_text(bytes),
    }
}

/// Whether bytes that have no whole front are a whole sequence, if `pause` says that a pause follows them.
fn is_whole_part(bytes: &[u8], pause: bool) -> bool
    ensures { result ≡ is_decided bytes.now pause }
{
    match bytes {
        [27] if pause => true,
        _ => is_sequence(bytes),
    }
}

/// The event that a whole sequence means.
fn event_of<A: Allocator + Clone>(
    alloc: &A,
    bytes: &[u8],
    raw: bool,
) -> Result<Option<InternalEvent<A>>, AllocError>
    ensures { IfOk result (λ event. option_map seen event ≡ meaning_seen raw bytes.now) }
{
    if let Some(rest) = bytes.strip_prefix(b"\x1b[200~") {
        let text = &rest[..rest.len().saturating_sub(6)];
        let text = String::from_utf8_lossy(alloc.clone()?, text)?;
        return Ok(Some(InternalEvent::Event(Event::Paste(text))));
    }
    match meaning_of_sequence(bytes, raw) {
        Some(meaning) => Ok(Some(InternalEvent::from(meaning))),
        None => Ok(None),
    }
}

/// Joins the event that a whole sequence means to the others, if there is one.
fn give<A: Allocator + Clone>(
    events: &mut Vec<InternalEvent<A>, A>,
    bytes: &[u8],
    raw: bool,
) -> Result<(), AllocError>
    ensures { OnOk result (map seen events.new.items ≡ map seen events.old.items ++ option_to_list (meaning_seen raw bytes.now)) }
{
    if let Some(event) = event_of(events.allocator(), bytes, raw)? {
        events.push(event)?;
    }
    Ok(())
}

/// What the slow program makes of bytes.
#[derive(Drop)]
pub struct Divided<A: Allocator = Global> {
    /// How many bytes each whole sequence has, in order.
    pub lengths: Vec<usize, A>,
    /// The events that the sequences mean, in order.
    pub events: Vec<InternalEvent<A>, A>,
}

/// Divides bytes into whole sequences and a rest, by the definition's own tests.
///
/// Each byte is looked at again and again, and all of them are kept: this is for comparisons.
pub fn divide<A: Allocator + Clone>(alloc: A, bytes: &[Marked]) -> Result<Divided<A>, AllocError>
    ensures { IfOk result (λ found. IsDivided bytes.now found.lengths.items (map seen found.events.items)) }
{
    let mut lengths = Vec::new(alloc.clone()?);
    let mut events = Vec::new(alloc.clone()?);
    let mut part = Vec::new(alloc);
    for marked in bytes {
        part.push(marked.byte)?;
        if is_whole_part(&part, marked.pause) {
            give(&mut events, &part, marked.raw)?;
            lengths.push(part.len())?;
            part.clear();
        }
    }
    Ok(Divided { lengths, events })
}
