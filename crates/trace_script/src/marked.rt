//! Short lines, whose words are found by bits.
//!
//! Two numbers tell where the words of a line end: one has a bit for each byte that is at most a space, the other for each `=`, the lowest bit
//! for the first byte. How many zeros are below the lowest of them is how many bytes the first word has, since a newline follows the line. What
//! follows a word has the same numbers, shifted. They are made at once for the bytes of a block, which goes on after the line, and with them the
//! line's end: the first byte that no word has and that is no blank, if that is a newline.

ghost use Rattle.std.specs.Prelude.{◌≡◌, ◌+◌, ◌<◌, ◌≤◌, nat_lt, length, map, drop, true, Some, IfOk, IfSome, ◌≢◌, ◌∷◌, []};
ghost use Rattle.std.specs.List.{prefix_len};
ghost use Rattle.std.specs.Option.{option_map};
ghost use Rattle.std.specs.Simd.Lanes.{mask_l};
ghost use Rattle.trace_script.specs.PlainEmissions.{line_in};
ghost use Rattle.trace_script.specs.Tokens.{behind, tokens_of};
ghost use Rattle.trace_script.specs.private.Bytes.{highest_rank};
ghost use Rattle.trace_script.specs.private.Emissions.{pairs_in};
ghost use Rattle.trace_script.specs.private.Marks.{is_low, is_equals, IsMarked};
ghost use Rattle.trace_script.specs.declared.token.Token.TheVariants.{Word as IsWord};

use crate::bytes::rare_bits;
use std::alloc::AllocError;
use std::simd::prelude::*;
use trace_format::BorrowedPair;

/// What is left of a line, and its bits.
#[derive(Clone, Copy)]
pub(crate) struct Marked<'a> {
    pub text: &'a [u8],
    /// A bit for each byte that is at most a space.
    pub low: u64,
    /// A bit for each `=`.
    pub equals: u64,
}

/// The bytes of a block for a line of fewer bytes.
const BLOCK: usize = 32;

/// The bytes of a block for a line that is longer.
const LONG_BLOCK: usize = 64;

/// A bit for each byte of a block that is at most a space.
#[inline(always)]
fn low_bits<const N: usize>(block: Simd<u8, N>) -> u64
    requires { N ≤ 64 }
    ensures { result ≡ mask_l (map is_low block.entry) }
{
    block.simd_le(Simd::splat(b' ')).to_bitmask()
}

/// A bit for each `=` of a block.
#[inline(always)]
fn equals_bits<const N: usize>(block: Simd<u8, N>) -> u64
    requires { N ≤ 64 }
    ensures { result ≡ mask_l (map is_equals block.entry) }
{
    block.simd_eq(Simd::splat(b'=')).to_bitmask()
}

/// The line that a string begins with, if it is bare and ends with a newline among so many bytes, which the string has.
#[inline(always)]
fn line_in_block<const N: usize>(text: &[u8]) -> Option<Marked<'_>>
    requires { (N ≤ 64) × (N ≤ length text.now) }
    ensures text { IfSome result (λ line. line.text.now ≡ line_in text.now) }
    ensures bare { IfSome result (λ line. highest_rank line.text.now ≡ 0) }
    ensures marked { IfSome result IsMarked }
{
    let block = Simd::<u8, N>::from_slice(text);
    let len = rare_bits(block).trailing_zeros() as usize;
    if len >= N || text[len] != b'\n' {
        return None;
    }
    let (line, _) = text.split_at(len);
    Some(Marked {
        text: line,
        low: low_bits(block),
        equals: equals_bits(block),
    })
}

/// The line that a string begins with, if it is bare and short and ends with a newline, and the string fills a block.
#[inline(always)]
pub(crate) fn marked_line(text: &[u8]) -> Option<Marked<'_>>
    ensures text { IfSome result (λ line. line.text.now ≡ line_in text.now) }
    ensures bare { IfSome result (λ line. highest_rank line.text.now ≡ 0) }
    ensures marked { IfSome result IsMarked }
{
    if text.len() < BLOCK {
        return None;
    }
    if let Some(line) = line_in_block::<BLOCK>(text) {
        return Some(line);
    }
    if text.len() < LONG_BLOCK {
        return None;
    }
    line_in_block::<LONG_BLOCK>(text)
}

/// How many bytes a line begins with that are above a space.
#[inline(always)]
#[tactic(auto, using(crate::proofs::MarkLemmas::first_word_len, crate::proofs::MarkLemmas::word_within))]
fn word_len(line: &Marked<'_>) -> usize
    requires { IsMarked line.now }
    ensures value { result ≡ prefix_len (λ b. nat_lt 32 b) line.now.text.now }
    ensures bound { result ≤ length line.now.text.now }
{
    line.low.trailing_zeros() as usize
}

/// A line without so many of its first bytes.
#[inline(always)]
pub(crate) fn without<'a>(line: &Marked<'a>, count: usize) -> Marked<'a>
    requires marked { IsMarked line.now }
    requires within { count ≤ length line.now.text.now }
    ensures text { result.text.now ≡ drop count line.now.text.now }
    ensures marked { IsMarked result }
{
    let (_, text) = line.text.split_at(count);
    Marked {
        text,
        low: line.low >> count,
        equals: line.equals >> count,
    }
}

/// The word that a line begins with, and what follows the blank after it; nothing, if it begins with a blank or no blank follows.
#[inline(always)]
pub(crate) fn marked_word<'a>(line: &Marked<'a>) -> Option<(&'a [u8], Marked<'a>)>
    requires bare { highest_rank line.now.text.now ≡ 0 }
    requires marked { IsMarked line.now }
    ensures word { IfSome result (λ cut. tokens_of line.now.text.now ≡ behind (IsWord cut.0.now ∷ []) (tokens_of cut.1.text.now)) }
    ensures bare { IfSome result (λ cut. highest_rank cut.1.text.now ≡ 0) }
    ensures marked { IfSome result (λ cut. IsMarked cut.1) }
{
    let len = word_len(line);
    if len == 0 || len == line.text.len() {
        return None;
    }
    let (word, _) = line.text.split_at(len);
    Some((word, without(line, len + 1)))
}

/// Whether a line is one word.
#[inline(always)]
#[tactic(auto, using(crate::proofs::BareLines::single_word))]
pub(crate) fn is_marked_word(line: &Marked<'_>) -> bool
    requires bare { highest_rank line.now.text.now ≡ 0 }
    requires marked { IsMarked line.now }
    ensures { result ≡ true → tokens_of line.now.text.now ≡ Some (IsWord line.now.text.now ∷ []) }
{
    !line.text.is_empty() && word_len(line) == line.text.len()
}

/// The pair that a line begins with, and how many bytes its word has; nothing, if its first word is no pair or it begins with a blank.
#[inline(always)]
pub(crate) fn marked_pair<'a>(line: &Marked<'a>) -> Option<(BorrowedPair<'a>, usize)>
    requires bare { highest_rank line.now.text.now ≡ 0 }
    requires marked { IsMarked line.now }
    ensures within { IfSome result (λ cut. cut.1 ≤ length line.now.text.now) }
    ensures pair { IfSome result (λ cut. pairs_in line.now.text.now
        ≡ option_map (λ more. cut.0 ∷ more) (pairs_in (drop (cut.1 + 1) line.now.text.now))) }
{
    let end = word_len(line);
    let at = line.equals.trailing_zeros() as usize;
    if at >= end {
        return None;
    }
    let (word, _) = line.text.split_at(end);
    let (name, value) = word.split_at(at);
    let (_, value) = value.split_at(1);
    Some((BorrowedPair::new(name, value), end))
}

/// Leaves in a list the pairs that a marked line is, with one blank between each two. Whether the line is such.
#[inline(always)]
pub(crate) fn marked_pairs<'a>(
    line: &Marked<'a>,
    pairs: &mut Vec<BorrowedPair<'a>>,
) -> Result<bool, AllocError>
    requires bare { highest_rank line.now.text.now ≡ 0 }
    requires marked { IsMarked line.now }
    ensures whole { IfOk result (λ is_whole. is_whole ≡ true → pairs_in line.now.text.now ≡ Some pairs.new.items) }
    ensures some { IfOk result (λ is_whole. is_whole ≡ true → pairs.new.items ≢ []) }
{
    pairs.clear();
    let mut rest = *line;
    while let Some((pair, end)) = marked_pair(&rest) {
        pairs.push(pair)?;
        if end == rest.text.len() {
            return Ok(true);
        }
        rest = without(&rest, end + 1);
    }
    Ok(false)
}
