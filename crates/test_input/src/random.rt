//! A million random pieces, divided by the parser and by the slow program of the definitions.

use crate::parser::{Coming, Piece, agrees};
use std::alloc::{AllocError, Global};
use test_support::{expect, random};

/// How many pieces are tried at least.
const PIECES: usize = 1_000_000;

/// How many texts are cut into pieces.
const TEXTS: u32 = 120_000;

/// The number from which the random ones follow.
const SEED: u32 = 20_261_127;

/// What a text is made of: fronts of sequences, their numbers and final bytes, letters, and characters whole and broken.
static PARTS: [&[u8]; 32] = [
    b"\x1b",
    b"\x1b[",
    b"\x1b[<",
    b"\x1b[?",
    b"\x1b[M",
    b"\x1b[[",
    b"\x1bO",
    b"\x1b[200~",
    b"\x1b[201~",
    b"[",
    b";",
    b":",
    b"0",
    b"1",
    b"27",
    b"97",
    b"200",
    b"65536",
    b"~",
    b"u",
    b"A",
    b"M",
    b"R",
    b"m",
    b"c",
    b"a",
    b"a run of letters",
    b"\n",
    b"\x7f",
    b"\xc3\xa9",
    b"\xe2\x82",
    b"\xff",
];

/// Up to 24 random parts.
fn text(alloc: Global, state: &mut u32) -> Result<Vec<u8>, AllocError> {
    let mut text = Vec::new(alloc);
    for _ in 0..random(state) % 25 {
        let place = random(state) as usize % PARTS.len();
        text.extend_from_slice(PARTS[place])?;
    }
    Ok(text)
}

/// The text in pieces of one to eight bytes, each of which comes in a random way.
fn pieces<'a>(
    alloc: Global,
    text: &'a [u8],
    state: &mut u32,
) -> Result<Vec<Piece<'a>>, AllocError> {
    let mut pieces = Vec::new(alloc);
    let size = 1 + random(state) % 8;
    for piece in text.chunks(size as usize) {
        let coming = match random(state) % 3 {
            0 => Coming::Paused,
            1 => Coming::Joined,
            _ => Coming::Raw,
        };
        pieces.push((piece, coming))?;
    }
    Ok(pieces)
}

/// How many pieces a random text has, if they are divided as defined.
fn count_agreeing(alloc: Global, state: &mut u32) -> Option<usize> {
    let text = text(alloc, state).ok()?;
    let pieces = pieces(alloc, &text, state).ok()?;
    agrees(alloc, &pieces).then_some(pieces.len())
}

#[test]
fn random_pieces_are_divided_as_defined(rt: HostRuntime) {
    let mut state = SEED;
    let mut count: usize = 0;
    for _ in 0..TEXTS {
        let pieces = count_agreeing(rt.alloc(), &mut state);
        expect!(rt; pieces.is_some(), "pieces divided as defined");
        count = count.saturating_add(pieces.unwrap_or(0));
    }
    expect!(rt; count >= PIECES);
}
