//! The parser beside the slow program of the definitions, and its calls at a concrete type.

use crate::parser::Coming::{Joined, Paused, Raw};
use crate::plain::{Divided, divide};
use crossterm_parse::marked::Marked;
use crossterm_parse::parse::Parser;
use crossterm_types::event::{Event, InternalEvent, KeyCode, KeyEvent, KeyModifiers};
use std::alloc::{AllocError, Global};
use test_support::expect;

/// How bytes come.
#[derive(Clone, Copy)]
pub(crate) enum Coming {
    /// With a pause after them.
    Paused,
    /// With more after them at once.
    Joined,
    /// In raw mode, with a pause after them.
    Raw,
}

/// What a device reported at once.
pub(crate) type Piece<'a> = (&'a [u8], Coming);

fn mark(all: &mut Vec<Marked>, piece: &Piece<'_>) -> Result<(), AllocError> {
    for (i, byte) in piece.0.iter().enumerate() {
        all.push(Marked {
            byte: *byte,
            raw: matches!(piece.1, Raw),
            pause: !matches!(piece.1, Joined) && i + 1 == piece.0.len(),
        })?;
    }
    Ok(())
}

/// The marked bytes of the pieces.
fn marks_of(alloc: Global, pieces: &[Piece<'_>]) -> Result<Vec<Marked>, AllocError> {
    let mut bytes = Vec::new(alloc);
    for piece in pieces {
        mark(&mut bytes, piece)?;
    }
    Ok(bytes)
}

/// More events than the pieces of a test have.
const MOST_EVENTS: u32 = 1_000;

/// The events not yet given.
fn events_of(alloc: Global, parser: &mut Parser) -> Result<Vec<InternalEvent>, AllocError> {
    let mut events = Vec::new(alloc);
    for _ in 0..MOST_EVENTS {
        match parser.next() {
            Some(event) => events.push(event)?,
            None => return Ok(events),
        }
    }
    Ok(events)
}

/// The events of the pieces.
fn at_once(alloc: Global, pieces: &[Piece<'_>]) -> Result<Vec<InternalEvent>, AllocError> {
    let mut parser = Parser::new(alloc);
    for piece in pieces {
        parser.feed(piece.0, matches!(piece.1, Joined), matches!(piece.1, Raw));
    }
    events_of(alloc, &mut parser)
}

/// Takes the events of a piece one after another, each as soon as it is whole.
fn take_each(
    parser: &mut Parser,
    piece: &Piece<'_>,
    events: &mut Vec<InternalEvent>,
) -> Result<(), AllocError> {
    let mut from: usize = 0;
    for _ in 0..MOST_EVENTS {
        let Some(rest) = piece.0.get(from..) else {
            return Ok(());
        };
        let (event, taken) = parser.take_first(
            rest,
            matches!(piece.1, Joined),
            matches!(piece.1, Raw),
        );
        from = from.saturating_add(taken);
        match event {
            Some(event) => events.push(event)?,
            None => return Ok(()),
        }
    }
    Ok(())
}

/// The events of the pieces, each taken as soon as it is whole.
fn one_by_one(alloc: Global, pieces: &[Piece<'_>]) -> Result<Vec<InternalEvent>, AllocError> {
    let mut parser = Parser::new(alloc);
    let mut events = Vec::new(alloc);
    for piece in pieces {
        take_each(&mut parser, piece, &mut events)?;
    }
    Ok(events)
}

/// Hands one byte in, and says whether the parser is between two sequences then.
fn ends_with(parser: &mut Parser, marked: &Marked) -> bool {
    parser.feed(&[marked.byte], !marked.pause, marked.raw);
    !parser.is_undecided()
}

/// Whether the parser, given the bytes one by one, is between two sequences exactly at the ends of these lengths.
fn is_divided(parser: &mut Parser, bytes: &[Marked], lengths: &[usize]) -> bool {
    let mut lengths = lengths.iter();
    let mut length = lengths.next();
    let mut open: usize = 0;
    let mut agrees = true;
    for marked in bytes {
        let is_between = ends_with(parser, marked);
        open = open.saturating_add(1);
        let ends = matches!(length, Some(end) if *end == open);
        agrees = agrees && is_between == ends;
        if ends {
            open = 0;
            length = lengths.next();
        }
    }
    agrees
}

/// Whether the events are those of the parts.
fn are_of(events: Result<Vec<InternalEvent>, AllocError>, divided: &Divided) -> bool {
    match events {
        Ok(events) => events == divided.events,
        Err(_) => false,
    }
}

/// Whether the parser divides the bytes one by one as defined, and gives the events of their parts.
fn agrees_singly(alloc: Global, bytes: &[Marked], divided: &Divided) -> bool {
    let mut parser = Parser::new(alloc);
    is_divided(&mut parser, bytes, &divided.lengths)
        && are_of(events_of(alloc, &mut parser), divided)
}

/// Whether the parser divides the bytes of the pieces as defined, and gives the events of their parts for the pieces, for single bytes, and
/// one by one.
pub(crate) fn agrees(alloc: Global, pieces: &[Piece<'_>]) -> bool {
    let Ok(bytes) = marks_of(alloc, pieces) else {
        return false;
    };
    match divide(alloc, &bytes) {
        Ok(divided) => {
            agrees_singly(alloc, &bytes, &divided)
                && are_of(at_once(alloc, pieces), &divided)
                && are_of(one_by_one(alloc, pieces), &divided)
        }
        Err(_) => false,
    }
}

/// Bytes that come at once with nothing after them, each with a name.
static AT_ONCE: [(&str, &[u8]); 12] = [
    ("keys", b"\x1b[1;2:3A\x1b[3;65~\x1b[97:65;2u\x1b[57399;129u"),
    (
        "replies",
        b"\x1b[[A\x1b[?1u\x1b[?c\x1b[?uu\x1b[20;10R\x1b[0;5R\x1b[?+016u\x1b[?256u\x1b[?1;2u\x1b[?62;4c",
    ),
    (
        "characters in numbers",
        b"\x1b[1;1;\xc3A\x1b[1;1;\xc3\xa9A\x1b[1;\xff~a",
    ),
    ("two ESC at once", b"\x1b\x1b"),
    ("no number", b"\x1b[;A"),
    ("after ESC O", b"\x1bOP\x1bOA\x1bO\x1b"),
    ("after ESC [", b"\x1b[Z\x1b[I\x1b[O\x1b[\x1b"),
    ("single bytes", b"\x00\x01\x1a\x1c\x1f\x7f\x80\xbf\xf8\xff"),
    (
        "whole and broken",
        b"\xc3\x89\xc0A\xed\xa0\x80\xe2\x82\xac\xf0\x9f\x98\x80",
    ),
    ("after ESC", b"\x1b\xc3\xa9\x1b\xc0a\x1ba\x1b\x7f\x1b\x00"),
    (
        "reports of the mouse",
        b"\x1b[<0;20;10M\x1b[<0;1;1m\x1b[<0;0;1M\x1b[<0;1;1;\xffM\x1b[M !!\x1b[32;30;40M\x1b[M\x1b",
    ),
    (
        "pastes",
        b"\x1b[200~hi\x1b[201~\x1b[200~\xff\x1b[201\x1b[201~\x1b[200~\x1b[201~a\x1b[0200~b",
    ),
];

/// Pieces, each list with a name.
static IN_PIECES: [(&str, &[Piece<'static>]); 12] = [
    (
        "numbers in pieces",
        &[
            (b"\x1b[10", Paused),
            (b"u\x1b[10", Raw),
            (b"u\x1b[?1", Paused),
        ],
    ),
    ("two Esc keys", &[(b"\x1b", Paused), (b"\x1b", Paused)]),
    ("ESC and more", &[(b"\x1b", Joined), (b"[A", Paused)]),
    ("ESC and ESC", &[(b"\x1b", Joined), (b"\x1b", Paused)]),
    ("line feeds", &[(b"\n", Raw), (b"\n", Paused)]),
    ("in two pieces", &[(b"\xc3", Paused), (b"\x89", Paused)]),
    (
        "broken by others",
        &[
            (b"\xf0\x9f", Joined),
            (b"a\xe2", Paused),
            (b"\x1b[A", Paused),
        ],
    ),
    (
        "broken after ESC",
        &[(b"\x1b\xe2\x82", Paused), (b"\x1b", Paused)],
    ),
    ("no byte", &[(b"", Paused), (b"aZ~ @", Paused)]),
    ("one byte each", &[(b"\x1b", Raw), (b"[", Raw), (b"A", Raw)]),
    (
        "reports in pieces",
        &[
            (b"\x1b[<35;", Joined),
            (b"5;6Ma\x1b[M\x1b", Paused),
            (b"[!\x1b[<", Raw),
        ],
    ),
    (
        "pastes in pieces",
        &[
            (b"\x1b[200", Paused),
            (b"~a\x1b", Paused),
            (b"[A\x1b[20", Raw),
            (b"1~b\x1b[200~c\x1b[201", Paused),
        ],
    ),
];

/// Bytes that are cut at each place, each with a name: sequences with plain numbers, and some like them, behind a letter that makes room.
static CUT: [(&str, &[u8]); 4] = [
    (
        "keys with plain numbers",
        b"a\x1b[1;5A\x1b[97;5u\x1b[15~\x1b[3;5:3~\x1b[10u\x1b[A\x1bOP",
    ),
    (
        "reports with plain numbers",
        b"a\x1b[<35;12;7M\x1b[<0;1;300m\x1b[<256;1;1M\x1b[<0;0;1M",
    ),
    (
        "many digits",
        b"a\x1b[0000097u\x1b[123456;2A\x1b[1234567;2A\x1b[<0;65535;65536M",
    ),
    (
        "numbers that are not plain",
        b"a\x1b[;5A\x1b[1;A\x1b[97:65;2u\x1b[1;2:3:4A\x1b[<1:2;3;4M\x1b[200~a\x1b[201~\x1b[200u",
    ),
];

/// Whether the bytes are divided as defined, in whichever two pieces they come.
fn agrees_in_two(alloc: Global, bytes: &[u8]) -> bool {
    let mut holds = true;
    for place in 0..bytes.len() {
        let pieces: [Piece<'_>; 2] = [(&bytes[..place], Joined), (&bytes[place..], Raw)];
        holds = holds && agrees(alloc, &pieces);
    }
    holds
}

#[test]
fn pieces_are_divided_as_defined(rt: HostRuntime) {
    for (name, bytes) in &AT_ONCE {
        expect!(rt; agrees(rt.alloc(), &[(*bytes, Paused)]), name);
    }
    for (name, pieces) in &IN_PIECES {
        expect!(rt; agrees(rt.alloc(), pieces), name);
    }
    for (name, bytes) in &CUT {
        expect!(rt; agrees_in_two(rt.alloc(), bytes), name);
    }
}

/// Whether so many of these bytes are taken.
fn takes(parser: &mut Parser, bytes: &[u8], count: usize) -> bool {
    parser.feed(bytes, false, false) == count
}

/// Whether the key comes next.
fn gives(parser: &mut Parser, code: KeyCode) -> bool {
    match parser.next() {
        Some(InternalEvent::Event(Event::Key(key))) => {
            key == KeyEvent::new(code, KeyModifiers::NONE)
        }
        _ => false,
    }
}

/// Whether a letter and the beginning of a sequence are taken, and the letter is given.
fn takes_a_letter(parser: &mut Parser) -> bool {
    let taken = takes(parser, b"a\x1b[", 3) && parser.is_undecided();
    taken && gives(parser, KeyCode::Char('a')) && parser.next().is_none()
}

/// Whether the rest of the sequence is taken, and its key is given.
fn takes_the_rest(parser: &mut Parser) -> bool {
    let taken = takes(parser, b"A", 1) && gives(parser, KeyCode::Up);
    taken && !parser.is_undecided()
}

#[test]
fn each_call_once(rt: HostRuntime) {
    let mut parser: Parser<Global> = Parser::new(rt.alloc());
    expect!(rt; parser.reserve(3).is_ok());
    expect!(rt; !parser.is_undecided());
    expect!(rt; takes_a_letter(&mut parser));
    expect!(rt; takes_the_rest(&mut parser));
}

/// How much of a paste is open after each piece: none before its start is whole and after its end, and what may begin its end counts.
const OPEN: [(&[u8], usize); 7] = [
    (b"a\x1b[200", 0),
    (b"~", 0),
    (b"three\xe6\xbc", 7),
    (b"\xa2\x1b[20", 12),
    (b"1", 13),
    (b"~b", 0),
    (b"\x1b[200~\x1b[201~", 0),
];

#[test]
fn an_open_paste_has_a_length(rt: HostRuntime) {
    let mut parser: Parser<Global> = Parser::new(rt.alloc());
    expect!(rt; parser.paste_len() == 0);
    for (piece, length) in OPEN {
        expect!(rt; parser.feed(piece, true, true) == piece.len());
        expect!(rt; parser.paste_len() == length);
    }
}

#[test]
fn a_paste_is_as_long_as_the_parser_may_keep(rt: HostRuntime) {
    let mut parser: Parser<Global> = Parser::bounded(rt.alloc(), 10);
    let whole = b"\x1b[200~0123456789\x1b[201~a";
    expect!(rt; parser.feed(whole, false, true) == whole.len());
    expect!(rt; parser.paste_len() == 0);
    // The six bytes of the start, ten, and the five that may begin its end.
    let longer = b"\x1b[200~01234567890123456789";
    expect!(rt; parser.feed(longer, false, true) == 21);
    expect!(rt; parser.paste_len() == 15);
    expect!(rt; parser.feed(b"6", false, true) == 0);
}
