//! What kinds of bytes a line has.
//!
//! Many bytes are looked at at a time: a line is taken in blocks of 16 bytes, or of 8 where it has fewer than 16, for each of which the compiler
//! tests all its bytes by the same few instructions. The last block overlaps the one before it, so that no byte is left over; the bytes of the
//! overlap are looked at twice. A line of fewer than 8 bytes is looked at byte by byte.
//!
//! Whether all bytes of a line have rank 0 takes less than their highest rank: a block then gives a bit for each byte that has another rank.

ghost use Rattle.std.specs.Prelude.{◌≡◌, ◌<◌, ◌≤◌, ◌==◌, length, map, ◌+◌, not, drop};
ghost use Rattle.std.specs.List.{prefix_len};
ghost use Rattle.std.specs.Simd.Lanes.{mask_l};
ghost use Rattle.trace_script.specs.Lines.{is_line_byte};
ghost use Rattle.trace_script.specs.private.Bytes.{rank, highest_rank, is_rare};

use crate::token::is_quote;
use std::simd::prelude::*;

/// The rank of a `>`. Bytes of a word and blanks have rank 0.
pub(crate) const ARROW: u8 = 1;

/// The rank of a quote.
pub(crate) const QUOTE: u8 = 2;

/// The rank of a byte that no line may have.
pub(crate) const OTHER: u8 = 3;

/// A byte that a line may have: a tab, or one from 0x20 to 0x7e.
fn is_line_byte(byte: u8) -> bool
    ensures { result ≡ is_line_byte byte }
{
    matches!(byte, b'\t' | b' '..=b'~')
}

/// How rare a byte is. It is a sum, with no branch, so that many bytes are ranked at a time.
fn rank(byte: u8) -> u8
    ensures { result ≡ rank byte }
{
    u8::from(!is_line_byte(byte)) * OTHER
        + u8::from(is_quote(byte)) * QUOTE
        + u8::from(byte == b'>') * ARROW
}

/// The highest rank of some bytes. It becomes a part of its callers, which give so many bytes that all are ranked at once.
#[inline(always)]
fn highest_of(bytes: &[u8]) -> u8
    ensures { result ≡ highest_rank bytes.now }
{
    let mut highest = 0u8;
    for byte in bytes {
        highest = highest.max(rank(*byte));
    }
    highest
}

/// The highest rank of a line's bytes, which are taken in blocks of this size.
#[inline(always)]
#[tactic(auto, using(crate::proofs::ByteLemmas::later_le))]
fn highest_in_blocks(line: &[u8], size: usize) -> u8
    requires some { 0 < size }
    requires fits { size ≤ length line.now }
    ensures { result ≡ highest_rank line.now }
{
    let last = line.len() - size;
    let mut highest = highest_of(&line[last..]);
    let mut at = 0;
    while at < last {
        highest = highest.max(highest_of(&line[at..at + size]));
        at += size;
    }
    highest
}

/// The highest rank of a line's bytes.
pub(crate) fn highest_rank(line: &[u8]) -> u8
    ensures { result ≡ highest_rank line.now }
{
    match line.len() {
        16.. => highest_in_blocks(line, 16),
        8..=15 => highest_in_blocks(line, 8),
        _ => highest_of(line),
    }
}

/// How many bytes [`is_bare`] looks at at a time.
const BLOCK: usize = 16;

/// A bit for each byte of a block that has another rank than 0.
#[inline(always)]
pub(crate) fn rare_bits<const N: usize>(block: Simd<u8, N>) -> u64
    requires { N ≤ 64 }
    ensures { result ≡ mask_l (map is_rare block.entry) }
{
    let outside = block.simd_lt(Simd::splat(b' ')) | block.simd_gt(Simd::splat(b'~'));
    let other = outside & block.simd_ne(Simd::splat(b'\t'));
    let quote = block.simd_eq(Simd::splat(b'\'')) | block.simd_eq(Simd::splat(b'"'));
    (other | quote | block.simd_eq(Simd::splat(b'>'))).to_bitmask()
}

/// The first index from this one on at which a byte has another rank than 0; the length, if there is none.
#[inline(always)]
fn bare_bytewise(text: &[u8], from: usize) -> usize
    requires { from ≤ length text.now }
    ensures { result ≡ from + prefix_len (λ b. not (is_rare b)) (drop from text.now) }
{
    let mut at = from;
    while at < text.len() && rank(text[at]) == 0 {
        at += 1;
    }
    at
}

/// How many bytes a string begins with that have rank 0. A line that has no others ends there.
#[inline(always)]
pub(crate) fn bare_len(text: &[u8]) -> usize
    ensures value { result ≡ prefix_len (λ b. not (is_rare b)) text.now }
    ensures bound { result ≤ length text.now }
{
    let mut at = 0;
    while text.len() - at >= BLOCK {
        let bits = rare_bits(u8x16::from_slice(&text[at..]));
        if bits != 0 {
            return at + bits.trailing_zeros() as usize;
        }
        at += BLOCK;
    }
    bare_bytewise(text, at)
}

/// Whether all bytes of a line have rank 0.
pub(crate) fn is_bare(line: &[u8]) -> bool
    ensures { result ≡ (highest_rank line.now == 0) }
{
    if line.len() < BLOCK {
        return highest_rank(line) == 0;
    }
    let last = line.len() - BLOCK;
    let mut at = 0;
    while at < last {
        if rare_bits(u8x16::from_slice(&line[at..])) != 0 {
            return false;
        }
        at += BLOCK;
    }
    rare_bits(u8x16::from_slice(&line[last..])) == 0
}
