//! Reads whose words are read where they lie in the first line of a string.
//!
//! As an emission's (`first.rt`), the words of `cat PATH` and of `take N PATH` are slices of a line that has neither quotes nor `>` and one blank
//! between each two words, and one look finds its end. Another line is left to be read by its tokens, which would give the same for these.

ghost use Rattle.std.specs.Prelude.{◌≡◌, ◌+◌, ◌≤◌, ◌++◌, length, Ok, IfSome, codes};
ghost use Rattle.trace_script.specs.Lines.{line_of};
ghost use Rattle.trace_script.specs.PlainEmissions.{line_len, line_in};
ghost use Rattle.trace_script.specs.declared.line.Line.TheVariants.{Ask};
ghost use Rattle.trace_script.specs.private.Bytes.{highest_rank};
ghost use Rattle.trace_script.specs.private.Marks.{IsMarked};
ghost use Rattle.trace_script.specs.private.Reads.{cat_in, take_in};

use crate::emission::{cut_word, is_word};
use crate::first::{FirstCommand, bare_line_len};
use crate::line::MOST_BYTES;
use crate::marked::{Marked, is_marked_word, marked_line, marked_word};
use trace_command::Command;
use trace_lex::decimal_number;

/// How many bytes `cat` and a space are.
const CAT_BYTES: usize = 4;

/// How many bytes `take` and a space are.
const TAKE_BYTES: usize = 5;

/// What follows `cat` and a space at the front of a line.
#[tactic(auto, using(crate::proofs::BareReads::after_name))]
fn after_cat(line: &[u8]) -> Option<&[u8]>
    ensures { IfSome result (λ rest. line.now ≡ codes "cat " ++ rest.now) }
{
    if line.len() < CAT_BYTES {
        return None;
    }
    let (name, rest) = line.split_at(CAT_BYTES);
    if matches!(name, b"cat ") {
        Some(rest)
    } else {
        None
    }
}

/// What follows `take` and a space at the front of a line.
#[tactic(auto, using(crate::proofs::BareReads::after_name))]
fn after_take(line: &[u8]) -> Option<&[u8]>
    ensures { IfSome result (λ rest. line.now ≡ codes "take " ++ rest.now) }
{
    if line.len() < TAKE_BYTES {
        return None;
    }
    let (name, rest) = line.split_at(TAKE_BYTES);
    if matches!(name, b"take ") {
        Some(rest)
    } else {
        None
    }
}

/// The read that a `cat` of these words is.
fn cat_of(words: &[u8]) -> Option<Command<'_>>
    requires { highest_rank words.now ≡ 0 }
    ensures { IfSome result (λ read. cat_in words.now ≡ Ok read) }
{
    if !is_word(words) {
        return None;
    }
    Some(Command::read(words))
}

/// The read that a `take` of these words is.
fn take_of(words: &[u8]) -> Option<Command<'_>>
    requires { highest_rank words.now ≡ 0 }
    ensures { IfSome result (λ read. take_in words.now ≡ Ok read) }
{
    let Some((count, path)) = cut_word(words) else {
        return None;
    };
    let limit = decimal_number(count, u64::MAX)?;
    if !is_word(path) {
        return None;
    }
    Some(Command::take(path, limit))
}

/// As `cat_of`, of marked words.
fn marked_cat<'a>(words: &Marked<'a>) -> Option<Command<'a>>
    requires bare { highest_rank words.now.text.now ≡ 0 }
    requires marked { IsMarked words.now }
    ensures { IfSome result (λ read. cat_in words.now.text.now ≡ Ok read) }
{
    if !is_marked_word(words) {
        return None;
    }
    Some(Command::read(words.text))
}

/// As `take_of`, of marked words.
fn marked_take<'a>(words: &Marked<'a>) -> Option<Command<'a>>
    requires bare { highest_rank words.now.text.now ≡ 0 }
    requires marked { IsMarked words.now }
    ensures { IfSome result (λ read. take_in words.now.text.now ≡ Ok read) }
{
    let Some((count, path)) = marked_word(words) else {
        return None;
    };
    let limit = decimal_number(count, u64::MAX)?;
    if !is_marked_word(&path) {
        return None;
    }
    Some(Command::take(path.text, limit))
}

/// The words that a line has after a name of so many bytes, of which the string goes on after the name. Nothing, if they have quotes or a `>`, or the
/// line is too long.
#[inline(always)]
fn bare_words(rest: &[u8], name: usize) -> Option<&[u8]>
    requires { name ≤ MOST_BYTES }
    ensures words { IfSome result (λ words. words.now ≡ line_in rest.now) }
    ensures bare { IfSome result (λ words. highest_rank words.now ≡ 0) }
    ensures short { IfSome result (λ words. name + length words.now ≤ MOST_BYTES) }
{
    let len = bare_line_len(rest)?;
    if len > MOST_BYTES - name {
        return None;
    }
    let (words, _) = rest.split_at(len);
    Some(words)
}

/// The read that a `cat` is whose words a string begins with, and those words.
#[inline(always)]
fn cat_in_front(rest: &[u8]) -> Option<(Command<'_>, &[u8])>
    ensures words { IfSome result (λ found. found.1.now ≡ line_in rest.now) }
    ensures bare { IfSome result (λ found. highest_rank found.1.now ≡ 0) }
    ensures short { IfSome result (λ found. CAT_BYTES + length found.1.now ≤ MOST_BYTES) }
    ensures read { IfSome result (λ found. cat_in found.1.now ≡ Ok found.0) }
{
    if let Some(line) = marked_line(rest) {
        let read = marked_cat(&line)?;
        return Some((read, line.text));
    }
    let words = bare_words(rest, CAT_BYTES)?;
    let read = cat_of(words)?;
    Some((read, words))
}

/// Likewise for a `take`.
#[inline(always)]
fn take_in_front(rest: &[u8]) -> Option<(Command<'_>, &[u8])>
    ensures words { IfSome result (λ found. found.1.now ≡ line_in rest.now) }
    ensures bare { IfSome result (λ found. highest_rank found.1.now ≡ 0) }
    ensures short { IfSome result (λ found. TAKE_BYTES + length found.1.now ≤ MOST_BYTES) }
    ensures read { IfSome result (λ found. take_in found.1.now ≡ Ok found.0) }
{
    if let Some(line) = marked_line(rest) {
        let read = marked_take(&line)?;
        return Some((read, line.text));
    }
    let words = bare_words(rest, TAKE_BYTES)?;
    let read = take_of(words)?;
    Some((read, words))
}

/// The read that the first line of a string is, if that has no quotes and no `>` and one blank between each two words. Every other line, and one that
/// has a fault, is left to [`crate::prepare`].
#[inline(always)]
pub fn first_read(text: &[u8]) -> Option<FirstCommand<'_>>
    ensures read { IfSome result (λ first. line_of (line_in text.now) ≡ Ok (Ask first.command)) }
    ensures len { IfSome result (λ first. first.len ≡ line_len text.now) }
{
    if let Some(rest) = after_cat(text) {
        let (command, words) = cat_in_front(rest)?;
        return Some(FirstCommand {
            command,
            len: CAT_BYTES + words.len(),
        });
    }
    if let Some(rest) = after_take(text) {
        let (command, words) = take_in_front(rest)?;
        return Some(FirstCommand {
            command,
            len: TAKE_BYTES + words.len(),
        });
    }
    None
}
