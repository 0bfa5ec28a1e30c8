//! Strings up to an offset, from one on, and up to a byte.

ghost use Rattle.std.specs.Prelude.{◌≡◌, ◌≤◌, drop, length, take};
ghost use Rattle.std.specs.List.{prefix_len};
ghost use Rattle.trace_trigger.specs.Frames as frames;
ghost use Rattle.trace_trigger.specs.TriggerTexts as texts;
ghost use Rattle.refusal_explanations.specs.Bytes as bytes;

use std::alloc::{AllocError, Global};
use trace_lex::{is_blank, len_before};

/// As many bytes as there are up to an offset.
pub fn up_to(at: usize, text: &[u8]) -> &[u8]
    ensures { result.now ≡ take at text.now }
{
    text.get(..at).unwrap_or(text)
}

/// What follows so many bytes.
pub fn after(len: usize, text: &[u8]) -> &[u8]
    ensures { result.now ≡ drop len text.now }
{
    text.get(len..).unwrap_or(&[])
}

/// How many bytes come before the first blank.
pub(crate) fn word_len(text: &[u8]) -> usize
    ensures value { result ≡ prefix_len frames.is_unblank text.now }
    ensures bound { result ≤ length text.now }
{
    text.iter().take_while(|byte| !is_blank(**byte)).count()
}

/// What comes before the first blank.
pub(crate) fn first_word(text: &[u8]) -> &[u8]
    ensures { result.now ≡ texts.word_of text.now }
{
    &text[..word_len(text)]
}

/// What comes before the first blank, and before the first byte of this value.
pub(crate) fn part_before(end: u8, text: &[u8]) -> &[u8]
    ensures { result.now ≡ bytes.part_before end text.now }
{
    let word = first_word(text);
    &word[..len_before(end, word)]
}

/// Whether a string ends with a byte.
pub(crate) fn ends_with(byte: u8, text: &[u8]) -> bool
    ensures { result ≡ bytes.ends_with byte text.now }
{
    match text.last() {
        Some(last) => *last == byte,
        None => false,
    }
}

/// Whether a string begins so.
pub(crate) fn begins(beginning: &[u8], text: &[u8]) -> bool
    ensures { result ≡ texts.begins beginning.now text.now }
{
    text.starts_with(beginning)
}

/// What follows the last `/` of a path; all of it, if it has none.
pub(crate) fn last_part(path: &[u8]) -> &[u8] {
    match path.iter().rposition(|byte| *byte == b'/') {
        Some(at) => after(at.saturating_add(1), path),
        None => path,
    }
}

/// Strings one after the other.
pub(crate) fn joined(alloc: Global, parts: &[&[u8]]) -> Result<Vec<u8>, AllocError> {
    let mut text = Vec::new(alloc);
    for part in parts {
        text.extend_from_slice(part)?;
    }
    Ok(text)
}
