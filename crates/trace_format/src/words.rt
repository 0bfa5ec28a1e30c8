//! The words of a declaration.

ghost use Rattle.std.specs.Prelude.{◌≡◌, ◌≤◌, [], length, drop, bytes_eq, IfNone, IfSome};
ghost use Rattle.std.specs.List.{prefix_len};
ghost use Rattle.trace_format.specs.Words.{is_word_byte as spec_word_byte, more_of, spots_from, IsNextWord};

use trace_lex::{blanks_len, is_blank, rest_of};

/// A word or `;` of a text.
#[derive(Clone, Copy)]
pub(crate) struct Word<'a> {
    /// The offset of its first byte in the text.
    pub(crate) at: usize,
    pub(crate) bytes: &'a [u8],
}

/// Whether a word is this one.
#[inline(always)]
pub(crate) fn is(word: &[u8], other: &[u8]) -> bool
    ensures { result ≡ bytes_eq word.now other.now }
{
    word == other
}

fn is_word_byte(byte: u8) -> bool
    ensures { result ≡ spec_word_byte byte }
{
    !(is_blank(byte) || byte == b';')
}

/// How many bytes of a word a text begins with.
fn word_len(text: &[u8]) -> usize
    ensures value { result ≡ prefix_len spec_word_byte text.now }
    ensures bound { result ≤ length text.now }
{
    text.iter().take_while(|byte| is_word_byte(**byte)).count()
}

/// How many more bytes belong to the word or `;` that begins with a byte.
fn more_len(first: u8, rest: &[u8]) -> usize
    ensures value { result ≡ more_of first rest.now }
    ensures bound { result ≤ length rest.now }
{
    if first == b';' { 0 } else { word_len(rest) }
}

/// The first word or `;` from an offset on.
pub(crate) fn next_word(text: &[u8], from: usize) -> Option<Word<'_>>
    requires { from ≤ length text.now }
    ensures none { IfNone result (spots_from 0 from (drop from text.now) ≡ []) }
    ensures some { IfSome result (λ word. IsNextWord text.now from word.at word.bytes.now) }
{
    let at = from + blanks_len(rest_of(text, from));
    let (first, rest) = rest_of(text, at).split_first()?;
    let size = 1 + more_len(*first, rest);
    Some(Word {
        at,
        bytes: &rest_of(text, at)[..size],
    })
}
