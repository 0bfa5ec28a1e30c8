//! Which byte of a line is a byte of what it writes, where its words begin, and where a quote begins that is not closed.

ghost use Rattle.std.specs.Prelude.{◌≡◌, ◌-◌, ◌^◌, ◌<◌, ◌++◌, IfOk, IfSome, OnOk, length};
ghost use Rattle.trace_script.specs.Tokens.{is_end, is_quote};
ghost use Rattle.refusal_explanations.specs.Carets as carets;

use std::alloc::{AllocError, Global};
use trace_lex::{is_blank, rest_of};

/// How many offsets of a line come before what an `echo` writes: those of the four bytes of its name, and of their end.
const ECHO_PLACES: usize = 5;

/// How many words of an emission come before its pairs.
const EMIT_WORDS: usize = 4;

/// Where a reader of a line stands.
#[derive(Clone, Copy)]
pub(crate) enum Stand {
    /// Between words.
    Between,
    /// In a word.
    InWord,
    /// In a part of a word within these quotes.
    InQuotes(u8),
}

pub(crate) fn is_quote(byte: u8) -> bool
    ensures { result ≡ is_quote byte }
{
    byte == b'\'' || byte == b'"'
}

/// A byte at which a word ends.
fn is_end(byte: u8) -> bool
    ensures { result ≡ is_end byte }
{
    is_blank(byte) || byte == b'>'
}

/// Where a byte leads.
pub(crate) fn next_stand(stand: Stand, byte: u8) -> Stand
    ensures { result ≡ carets.next_stand stand byte }
{
    match stand {
        Stand::InQuotes(quote) if byte == quote => Stand::InWord,
        Stand::InQuotes(_) => stand,
        _ if is_end(byte) => Stand::Between,
        _ if is_quote(byte) => Stand::InQuotes(byte),
        _ => Stand::InWord,
    }
}

/// Where the word that is open ends so far, if it goes on after a byte.
fn next_end(stand: Stand, end: usize, at: usize, byte: u8) -> usize
    requires { at < 2 ^ 64 - 1 }
    ensures { result ≡ carets.next_end stand end at byte }
{
    let stays = match stand {
        Stand::InQuotes(quote) => byte == quote,
        _ => is_end(byte),
    };
    if stays { end } else { at + 1 }
}

/// Whether a word is open and ends before a byte.
pub(crate) fn ends_at(stand: Stand, byte: u8) -> bool
    ensures { result ≡ carets.ends_at stand byte }
{
    match stand {
        Stand::InWord => is_end(byte),
        _ => false,
    }
}

/// Whether a byte has an offset of its own.
pub(crate) fn has_offset(stand: Stand, byte: u8) -> bool
    ensures { result ≡ carets.has_offset stand byte }
{
    match stand {
        Stand::InQuotes(quote) => byte != quote,
        _ => !(is_blank(byte) || is_quote(byte)),
    }
}

/// Appends an offset, if it is there.
fn push_if(offsets: &mut Vec<usize>, is_there: bool, at: usize) -> Result<(), AllocError>
    ensures { OnOk result (offsets.new.items ≡ offsets.old.items ++ carets.one_if is_there at) }
{
    if is_there {
        offsets.push(at)?;
    }
    Ok(())
}

/// The offsets of a line, whose end is as a blank.
#[tactic(auto, unfolding(crate::specs::Carets::offsets_of))]
fn offsets(alloc: Global, line: &[u8]) -> Result<Vec<usize>, AllocError>
    ensures { IfOk result (λ offsets. offsets.items ≡ carets.offsets_of line.now) }
{
    let mut offsets = Vec::new(alloc);
    let mut stand = Stand::Between;
    let mut end = 0;
    for (at, byte) in line.iter().enumerate() {
        push_if(&mut offsets, ends_at(stand, *byte), end)?;
        push_if(&mut offsets, has_offset(stand, *byte), at)?;
        end = next_end(stand, end, at, *byte);
        stand = next_stand(stand, *byte);
    }
    push_if(&mut offsets, ends_at(stand, b' '), end)?;
    Ok(offsets)
}

/// Where the byte of this offset in what an `echo` writes stands in its line.
pub(crate) fn written_offset(
    alloc: Global,
    line: &[u8],
    at: usize,
) -> Result<Option<usize>, AllocError>
    ensures { IfOk result (λ offset. offset ≡ carets.written_offset line.now at) }
{
    let offsets = offsets(alloc, line)?;
    let written = offsets.get(ECHO_PLACES..).unwrap_or(&[]);
    Ok(written.get(at).copied())
}

/// Whether a word, or a `>`, begins at a byte.
fn begins_word(stand: Stand, byte: u8) -> bool
    ensures { result ≡ carets.begins_word stand byte }
{
    match stand {
        Stand::Between => !is_blank(byte),
        Stand::InWord => byte == b'>',
        Stand::InQuotes(_) => false,
    }
}

/// Where each word and each `>` of a line begins, from the left.
#[tactic(auto, using(crate::proofs::CaretLemmas::starts_here, crate::proofs::CaretLemmas::starts_later), unfolding(crate::specs::Carets::starts_of))]
pub(crate) fn starts(alloc: Global, line: &[u8]) -> Result<Vec<usize>, AllocError>
    ensures { IfOk result (λ starts. starts.items ≡ carets.starts_of line.now) }
{
    let mut starts = Vec::new(alloc);
    let mut stand = Stand::Between;
    for (at, byte) in line.iter().enumerate() {
        push_if(&mut starts, begins_word(stand, *byte), at)?;
        stand = next_stand(stand, *byte);
    }
    Ok(starts)
}

/// Where the pair of this index begins in the line of an emission.
pub(crate) fn pair_offset(
    alloc: Global,
    line: &[u8],
    index: usize,
) -> Result<Option<usize>, AllocError>
    ensures { IfOk result (λ offset. offset ≡ carets.pair_offset line.now index) }
{
    let starts = starts(alloc, line)?;
    let pairs = starts.get(EMIT_WORDS..).unwrap_or(&[]);
    Ok(pairs.get(index).copied())
}

/// Where the word of this index begins.
#[tactic(auto, using(crate::proofs::CaretLemmas::starts_here, crate::proofs::CaretLemmas::starts_later), unfolding(crate::specs::Carets::starts_of))]
pub(crate) fn word_at(line: &[u8], index: usize) -> Option<usize>
    ensures value { result ≡ carets.word_at line.now index }
    ensures bound { IfSome result (λ at. at < length line.now) }
{
    let mut left = index;
    let mut stand = Stand::Between;
    for (at, byte) in line.iter().enumerate() {
        if begins_word(stand, *byte) {
            if left == 0 {
                return Some(at);
            }
            left -= 1;
        }
        stand = next_stand(stand, *byte);
    }
    None
}

/// Whether a word ends before a byte, or is a `>` alone.
fn stops_before(stand: Stand, byte: u8) -> bool
    ensures { result ≡ carets.stops_before stand byte }
{
    !matches!(stand, Stand::InQuotes(_)) && is_end(byte)
}

/// Whether the word that begins a string has no `=`, in quotes or not.
#[tactic(auto, unfolding(crate::specs::Carets::is_bare_from))]
pub(crate) fn is_bare(text: &[u8]) -> bool
    ensures { result ≡ carets.is_bare text.now }
{
    let mut stand = Stand::Between;
    for byte in text {
        if stops_before(stand, *byte) {
            return true;
        }
        if *byte == b'=' {
            return false;
        }
        stand = next_stand(stand, *byte);
    }
    true
}

/// Where the first word begins that has no `=`.
#[tactic(auto, using(crate::proofs::CaretLemmas::starts_here, crate::proofs::CaretLemmas::starts_later), unfolding(crate::specs::Carets::starts_of))]
pub(crate) fn first_bare(line: &[u8]) -> Option<usize>
    ensures value { result ≡ carets.first_bare line.now }
    ensures bound { IfSome result (λ at. at < length line.now) }
{
    let mut stand = Stand::Between;
    for (at, byte) in line.iter().enumerate() {
        if begins_word(stand, *byte) && is_bare(rest_of(line, at)) {
            return Some(at);
        }
        stand = next_stand(stand, *byte);
    }
    None
}

/// Where the quote stands that a line doesn't close, of a line that has one.
pub(crate) fn open_quote(line: &[u8]) -> Option<usize> {
    let mut open = None;
    let mut stand = Stand::Between;
    for (at, byte) in line.iter().enumerate() {
        if !matches!(stand, Stand::InQuotes(_)) {
            open = Some(at);
        }
        stand = next_stand(stand, *byte);
    }
    open
}
