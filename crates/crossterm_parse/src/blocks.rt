//! Bytes of one class, sixteen at a time.
ghost use Rattle.std.specs.Prelude.{ℕ, ◌+◌, ◌≤◌, ◌<◌, IsTrue, get_or, length};
ghost use Rattle.crossterm_parse.specs.inside.Blocks.{LieBetween};

use std::simd::prelude::*;

/// How many bytes are looked at at once.
const BLOCK: usize = 16;

/// Whether no byte of a block lies below one.
#[inline(always)]
fn has_none_below(bytes: &[u8], at: usize, first: u8) -> bool
    requires { at + BLOCK ≤ length bytes.now }
    ensures { IsTrue result → (k : ℕ) → at ≤ k → k < at + BLOCK → first ≤ get_or bytes.now k 0 }
{
    let block = u8x16::from_slice(&bytes[at..]);
    block.simd_lt(u8x16::splat(first)).to_bitmask() == 0
}

/// Whether no byte of a block lies above one.
#[inline(always)]
fn has_none_above(bytes: &[u8], at: usize, last: u8) -> bool
    requires { at + BLOCK ≤ length bytes.now }
    ensures { IsTrue result → (k : ℕ) → at ≤ k → k < at + BLOCK → get_or bytes.now k 0 ≤ last }
{
    let block = u8x16::from_slice(&bytes[at..]);
    u8x16::splat(last).simd_lt(block).to_bitmask() == 0
}

/// Whether all bytes of a block lie from one byte up to another, these two among them.
#[inline(always)]
fn is_block_between(bytes: &[u8], at: usize, first: u8, last: u8) -> bool
    requires { at + BLOCK ≤ length bytes.now }
    ensures { IsTrue result → LieBetween first last bytes.now at (at + BLOCK) }
{
    has_none_below(bytes, at, first) && has_none_above(bytes, at, last)
}

/// How many bytes in front lie from one byte up to another, these two among them.
#[inline(always)]
pub(crate) fn run_between(bytes: &[u8], first: u8, last: u8) -> usize
    ensures within { result ≤ length bytes.now }
    ensures between { LieBetween first last bytes.now 0 result }
{
    let mut at = 0;
    while bytes.len() - at >= BLOCK && is_block_between(bytes, at, first, last) {
        at += BLOCK;
    }
    while at < bytes.len() && first <= bytes[at] && bytes[at] <= last {
        at += 1;
    }
    at
}
