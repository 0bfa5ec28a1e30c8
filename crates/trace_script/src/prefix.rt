//! How far a word of a line goes.
//!
//! A word of an emission ends at the first byte that is not above a space, and a pair's name at a `=` too. A line is taken in blocks of 16
//! bytes, each of which gives a bit for each byte at which a word ends. What is left, fewer than 16 bytes, is looked at byte by byte.

ghost use Rattle.std.specs.Prelude.{◌≡◌, ◌+◌, ◌≤◌, not, length, map, drop};
ghost use Rattle.std.specs.List.{prefix_len};
ghost use Rattle.std.specs.Simd.Lanes.{mask_l};
ghost use Rattle.trace_script.specs.private.Bytes.{is_stop};

use std::simd::prelude::*;

/// How many bytes are tested at a time.
const BLOCK: usize = 16;

/// A bit for each byte of a block that is not above a space, or is this one.
#[inline(always)]
fn stop_bits(block: u8x16, end: u8) -> u64
    ensures { result ≡ mask_l (map (is_stop end) block) }
{
    (block.simd_le(u8x16::splat(b' ')) | block.simd_eq(u8x16::splat(end))).to_bitmask()
}

/// The first index from this one on at which a byte is not above a space, or is this one; the length, if there is none.
#[inline(always)]
fn stop_bytewise(text: &[u8], from: usize, end: u8) -> usize
    requires { from ≤ length text.now }
    ensures { result ≡ from + prefix_len (λ b. not (is_stop end b)) (drop from text.now) }
{
    let mut at = from;
    while at < text.len() && text[at] > b' ' && text[at] != end {
        at += 1;
    }
    at
}

/// How many bytes a string begins with that are above a space and not this one. It becomes a part of its callers, which give the byte.
#[inline(always)]
pub(crate) fn len_before(text: &[u8], end: u8) -> usize
    ensures value { result ≡ prefix_len (λ b. not (is_stop end b)) text.now }
    ensures bound { result ≤ length text.now }
{
    let mut at = 0;
    while text.len() - at >= BLOCK {
        let bits = stop_bits(u8x16::from_slice(&text[at..]), end);
        if bits != 0 {
            return at + bits.trailing_zeros() as usize;
        }
        at += BLOCK;
    }
    stop_bytewise(text, at, end)
}
