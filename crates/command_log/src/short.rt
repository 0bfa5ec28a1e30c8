//! Short entries of emissions, put together where they lie.
//!
//! A chunk looks at its room, and may be refused memory, once for each piece of bytes that it is given. So the entry of an emission with short strings
//! is put together in room that there is. Its strings have a few bytes, which are copied by two moves that may overlap.

ghost use Rattle.std.specs.Prelude.{◌≡◌, ◌≤◌, ◌<◌, ◌^◌, ◌+◌, ◌++◌, length, take, drop, IfSome};
ghost use Rattle.command_log.specs.EntryEncoding.{length_bytes, text_bytes, pairs_bytes, ArePairsShort};

use std::simd::Simd;
use trace_format::BorrowedPair;

/// An entry of so many bytes or fewer is short.
pub(crate) const SHORT_BYTES: usize = 128;

// Writes a length at an offset, and returns the offset after it: `None` if there is no room.
#[inline(always)]
#[tactic(auto, unfolding(crate::specs::EntryEncoding::length_bytes))]
fn put_length(out: &mut [u8], at: usize, count: usize) -> Option<usize>
    requires within { at ≤ length out.old }
    requires small { length out.old < 256 }
    ensures length { length out.new ≡ length out.old }
    ensures bytes { IfSome result (λ end. take end out.new ≡ take at out.old ++ length_bytes count) }
    ensures end { IfSome result (λ end. end ≤ length out.old) }
{
    if out.len() <= at || count >= 255 {
        return None;
    }
    out[at] = count as u8;
    Some(at + 1)
}

// Writes bytes at an offset.
#[inline(always)]
fn put_piece(out: &mut [u8], at: usize, piece: &[u8])
    requires { at + length piece.now ≤ length out.old }
    ensures length { length out.new ≡ length out.old }
    ensures bytes { out.new ≡ take at out.old ++ piece.now ++ drop (at + length piece.now) out.old }
{
    out[at..at + piece.len()].copy_from_slice(piece);
}

// Writes the first bytes of a string at an offset. A register holds so many, so it is one move.
#[inline(always)]
fn put_first<const N: usize>(out: &mut [u8], at: usize, text: &[u8])
    requires { (N ≤ length text.now) × (at + N ≤ length out.old) }
    ensures length { length out.new ≡ length out.old }
    ensures bytes { out.new ≡ take at out.old ++ take N text.now ++ drop (at + N) out.old }
{
    Simd::<u8, N>::from_slice(text).copy_to_slice(&mut out[at..]);
}

// Writes bytes at an offset: so many from their first one on, and so many up to their last.
#[inline(always)]
fn put_ends<const N: usize>(out: &mut [u8], at: usize, text: &[u8])
    requires room { at + length text.now ≤ length out.old }
    requires covered { (N ≤ length text.now) × (length text.now ≤ N + N) }
    ensures length { length out.new ≡ length out.old }
    ensures bytes { take (at + length text.now) out.new ≡ take at out.old ++ text.now }
{
    let rest = text.len() - N;
    put_first::<N>(out, at, text);
    put_first::<N>(out, at + rest, &text[rest..]);
}

// Writes bytes at an offset. It is kept out of line, as few strings are so long.
#[cold]
#[inline(never)]
fn put_long(out: &mut [u8], at: usize, text: &[u8])
    requires { at + length text.now ≤ length out.old }
    ensures length { length out.new ≡ length out.old }
    ensures bytes { take (at + length text.now) out.new ≡ take at out.old ++ text.now }
{
    put_piece(out, at, text);
}

// Writes eight bytes or more at an offset. It is kept out of line, so that all else that an emission takes is one function.
#[inline(never)]
fn put_many(out: &mut [u8], at: usize, text: &[u8])
    requires room { at + length text.now ≤ length out.old }
    requires many { 8 ≤ length text.now }
    ensures length { length out.new ≡ length out.old }
    ensures bytes { take (at + length text.now) out.new ≡ take at out.old ++ text.now }
{
    if text.len() <= 16 {
        put_ends::<8>(out, at, text);
    } else {
        put_long(out, at, text);
    }
}

// Writes bytes at an offset. The lengths are told apart from the long ones on, so that most strings take two tests.
#[inline(always)]
fn put_bytes(out: &mut [u8], at: usize, text: &[u8])
    requires room { at + length text.now ≤ length out.old }
    ensures length { length out.new ≡ length out.old }
    ensures bytes { take (at + length text.now) out.new ≡ take at out.old ++ text.now }
{
    match text.len() {
        8.. => put_many(out, at, text),
        4..=7 => put_ends::<4>(out, at, text),
        2..=3 => put_ends::<2>(out, at, text),
        1 => put_first::<1>(out, at, text),
        0 => {}
    }
}

// Writes a string at an offset, likewise.
#[inline(always)]
#[tactic(auto, unfolding(crate::specs::EntryEncoding::text_bytes, crate::specs::EntryEncoding::length_bytes))]
fn put_text(out: &mut [u8], at: usize, text: &[u8]) -> Option<usize>
    requires within { at ≤ length out.old }
    requires small { length out.old < 256 }
    ensures length { length out.new ≡ length out.old }
    ensures bytes { IfSome result (λ end. take end out.new ≡ take at out.old ++ text_bytes text.now) }
    ensures end { IfSome result (λ end. end ≤ length out.old) }
    ensures short { length text.now < 2 ^ 64 }
{
    if out.len() - at <= text.len() {
        return None;
    }
    out[at] = text.len() as u8;
    put_bytes(out, at + 1, text);
    Some(at + 1 + text.len())
}

// Writes pairs at an offset, likewise.
#[inline(always)]
fn put_pairs(out: &mut [u8], at: usize, pairs: &[BorrowedPair<'_>]) -> Option<usize>
    requires within { at ≤ length out.old }
    requires small { length out.old < 256 }
    ensures length { length out.new ≡ length out.old }
    ensures bytes { IfSome result (λ end. take end out.new ≡ take at out.old ++ pairs_bytes pairs.now) }
    ensures end { IfSome result (λ end. end ≤ length out.old) }
    ensures short { IfSome result (λ _. ArePairsShort pairs.now) }
{
    let mut end = at;
    for pair in pairs {
        end = put_text(out, end, pair.name())?;
        end = put_text(out, end, pair.value())?;
    }
    Some(end)
}

/// Writes the entry of an emission with this head from the first byte on, and returns the offset after it: `None` if it isn't short.
#[inline(always)]
pub(crate) fn put_emission(
    out: &mut [u8],
    head: &[u8],
    event: &[u8],
    pairs: &[BorrowedPair<'_>],
) -> Option<usize>
    requires small { length out.old < 256 }
    requires head { length head.now ≤ length out.old }
    ensures length { length out.new ≡ length out.old }
    ensures bytes { IfSome result (λ end. take end out.new
        ≡ head.now ++ text_bytes event.now ++ length_bytes (length pairs.now) ++ pairs_bytes pairs.now) }
    ensures end { IfSome result (λ end. end ≤ length out.old) }
    ensures short { IfSome result (λ _. (length event.now < 2 ^ 64) × (length pairs.now < 2 ^ 64) × ArePairsShort pairs.now) }
{
    put_piece(out, 0, head);
    let after_event = put_text(out, head.len(), event)?;
    let after_count = put_length(out, after_event, pairs.len())?;
    put_pairs(out, after_count, pairs)
}

/// Writes bytes at an offset, where there is room, and returns the offset after them.
pub(crate) fn put_at(out: &mut [u8], at: usize, bytes: &[u8]) -> usize
    requires { at + length bytes.now ≤ length out.old }
    ensures length { length out.new ≡ length out.old }
    ensures bytes { take result out.new ≡ take at out.old ++ bytes.now }
    ensures end { result ≡ at + length bytes.now }
{
    put_bytes(out, at, bytes);
    at + bytes.len()
}

/// As `put_emission`, at an offset that has room for a short entry.
#[inline(always)]
pub(crate) fn put_short(
    out: &mut [u8],
    at: usize,
    head: &[u8],
    event: &[u8],
    pairs: &[BorrowedPair<'_>],
) -> Option<usize>
    requires room { at + SHORT_BYTES ≤ length out.old }
    requires head { length head.now ≤ SHORT_BYTES }
    ensures length { length out.new ≡ length out.old }
    ensures kept { take at out.new ≡ take at out.old }
    ensures bytes { IfSome result (λ end. take end out.new
        ≡ take at out.old ++ (head.now ++ text_bytes event.now ++ length_bytes (length pairs.now) ++ pairs_bytes pairs.now)) }
    ensures end { IfSome result (λ end. end ≤ length out.old) }
    ensures short { IfSome result (λ _. (length event.now < 2 ^ 64) × (length pairs.now < 2 ^ 64) × ArePairsShort pairs.now) }
{
    let end = put_emission(&mut out[at..at + SHORT_BYTES], head, event, pairs)?;
    Some(at + end)
}
