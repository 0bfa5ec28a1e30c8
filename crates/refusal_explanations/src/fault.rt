//! Where a line that is no command is wrong, and its first word.

use crate::caret::{Stand, ends_at, has_offset, is_bare, next_stand, open_quote};
use crate::cut::{after, joined, up_to};
use std::alloc::{AllocError, Global};
use trace_lex::{blanks_len, rest_of, trim_end};
use trace_script::{LineError, LineRoom, ScriptFault, prepare};

/// The first word of a line, without its quotes.
pub(crate) fn name_of(alloc: Global, line: &[u8]) -> Result<Vec<u8>, AllocError> {
    let mut word = Vec::new(alloc);
    let mut stand = Stand::InWord;
    for byte in rest_of(line, blanks_len(line)) {
        if ends_at(stand, *byte) {
            break;
        }
        if has_offset(stand, *byte) {
            word.push(*byte)?;
        }
        stand = next_stand(stand, *byte);
    }
    Ok(word)
}

// ---- where

/// Whether a `>` begins there.
fn is_arrow(line: &[u8], at: usize) -> bool {
    matches!(after(at, line), [b'>', ..])
}

/// Whether the words of a line, which begin there, go on with a `>` after a redirection by `>` and its path: most likely one that was to be written.
fn has_later_arrow(line: &[u8], starts: &[usize]) -> bool {
    let first = starts.iter().position(|at| is_arrow(line, *at));
    let after_first = first.unwrap_or(starts.len()).saturating_add(1);
    match starts.get(after_first..) {
        Some([path, rest @ ..]) if !is_arrow(line, *path) => {
            rest.iter().any(|at| is_arrow(line, *at))
        }
        _ => false,
    }
}

/// Whether the words of a line, which begin there, go on with a redirection right after one by `>>` and its path.
fn has_second_redirection(line: &[u8], starts: &[usize]) -> bool {
    let first = starts.iter().position(|at| is_arrow(line, *at));
    match starts.get(first.unwrap_or(starts.len())..) {
        Some([arrow, second, path, next, ..]) => {
            *second == arrow.saturating_add(1)
                && is_arrow(line, *second)
                && !is_arrow(line, *path)
                && is_arrow(line, *next)
        }
        _ => false,
    }
}

/// What is told of a line of this name, whose words begin there, and which has this fault: that a `>` is to be quoted, that a redirection is one too
/// many, or else these words.
pub(crate) fn redirection_words(
    name: &[u8],
    line: &[u8],
    starts: &[usize],
    fault: ScriptFault,
    words: &'static str,
) -> &'static str {
    let is_wrong = matches!(fault, ScriptFault::WrongWords);
    match name {
        b"echo" if is_wrong && has_later_arrow(line, starts) => {
            "quote what is written, as `echo 'n > 5' > PATH`: a `>` outside quotes is a redirection"
        }
        b"echo" if is_wrong && has_second_redirection(line, starts) => {
            "expected one redirection, `> PATH` or `>> PATH`"
        }
        _ => words,
    }
}

/// Where the words of an `echo` are wrong from its redirection on, of one or of two `>`: what follows its path, or is none.
fn arrow_place(line: &[u8], starts: &[usize]) -> Option<usize> {
    let is_double = is_arrow(line, starts.first()?.saturating_add(1));
    let skipped = if is_double { 2 } else { 1 };
    match starts.get(skipped..)? {
        [path, _, ..] if is_arrow(line, *path) => Some(*path),
        [_, next, ..] => Some(*next),
        _ => None,
    }
}

/// Where the words of a line of this name are wrong, if not at its end: its first redirection, or a word too many.
fn words_place(name: &[u8], line: &[u8], starts: &[usize]) -> Option<usize> {
    if let Some(index) = starts.iter().position(|at| is_arrow(line, *at)) {
        return match name {
            b"echo" => arrow_place(line, &starts[index..]),
            _ => Some(starts[index]),
        };
    }
    match name {
        b"echo" => None,
        b"emit" => starts
            .iter()
            .skip(4)
            .find(|at| is_bare(after(**at, line)))
            .copied(),
        b"cat" | b"mkdir" | b"rmdir" => starts.get(2).copied(),
        b"take" => starts.get(3).copied(),
        _ => starts.get(1).copied(),
    }
}

/// The number of a line that is wrong: of two, the second, if an emission with the first alone has no wrong one.
fn number_place(
    alloc: Global,
    name: &[u8],
    line: &[u8],
    starts: &[usize],
) -> Result<Option<usize>, AllocError> {
    let (b"emit", Some(second)) = (name, starts.get(2)) else {
        return Ok(starts.get(1).copied());
    };
    let text = joined(alloc, &[up_to(*second, line), b" 0 a a=1"])?;
    let mut room = LineRoom::new(alloc);
    let mut pairs = Vec::new(alloc);
    match prepare(&mut room, &mut pairs, &text) {
        Err(LineError::Fault(ScriptFault::BadNumber)) => Ok(starts.get(1).copied()),
        Err(LineError::Memory) => Err(AllocError),
        _ => Ok(Some(*second)),
    }
}

/// Where a line is at fault, whose words begin there, the first with this name.
pub(crate) fn fault_offset(
    alloc: Global,
    name: &[u8],
    line: &[u8],
    starts: &[usize],
    fault: ScriptFault,
) -> Result<Option<usize>, AllocError> {
    if let ScriptFault::LineTooLong = fault {
        return Ok(None);
    }
    Ok(match fault {
        ScriptFault::BadByte => line
            .iter()
            .position(|byte| !matches!(*byte, b'\t' | b' '..=b'~')),
        ScriptFault::UnclosedQuote => open_quote(line),
        ScriptFault::WrongWords => {
            let place = words_place(name, line, starts);
            Some(place.unwrap_or(trim_end(line).len()))
        }
        ScriptFault::BadNumber => number_place(alloc, name, line, starts)?,
        _ => starts.first().copied(),
    })
}
