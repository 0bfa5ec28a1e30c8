//! The emission that the first line of a string is.
//!
//! The end of such a line is the first byte that is not of a word or a blank, if that is a newline: so one look finds the end, and tells that
//! neither quotes nor `>` come before it. The same look finds a short line's words by bits, in a string that goes on after it; those of a long one
//! are found as [`plain_emission`] finds them.

ghost use Rattle.std.specs.Prelude.{◌≡◌, ◌≤◌, ◌++◌, ℕ, List, [], length, take, codes, IsSome, Ok, IfOk, IfSome, IfNone};
ghost use Rattle.trace_script.specs.Lines.{line_of};
ghost use Rattle.trace_script.specs.declared.line.Line.TheVariants.{Ask};
ghost use Rattle.trace_script.specs.PlainEmissions.{emission_said, line_len, line_in, IsPlainEmission};
ghost use Rattle.trace_script.specs.private.Bytes.{highest_rank};
ghost use Rattle.trace_script.specs.private.Emissions.{asked_after_emit};
ghost use Rattle.trace_script.specs.private.Marks.{IsMarked};

use crate::bytes::bare_len;
use crate::emission::{EMIT_BYTES, EmissionHead, after_emit, cut_bare};
use crate::line::MOST_BYTES;
use crate::marked::{Marked, marked_line, marked_pairs, marked_word};
use crate::number::{cpu_number, process_id};
use std::alloc::AllocError;
use trace_command::Command;
use trace_format::BorrowedPair;

/// A command that a string begins with, whose strings lie in its line.
#[derive(Drop)]
pub struct FirstCommand<'a> {
    pub command: Command<'a>,
    /// How many bytes its line has.
    pub len: usize,
}

/// The emission whose words follow `emit` in a line, of which this is marked. Nothing, if not one blank stands between each two words, and
/// perhaps if a number is wrong.
#[inline(always)]
#[tactic(auto, using(crate::proofs::BareEmissions::three_words))]
fn marked_emission<'a>(
    rest: &Marked<'a>,
    pairs: &mut Vec<BorrowedPair<'a>>,
) -> Result<Option<EmissionHead<'a>>, AllocError>
    requires bare { highest_rank rest.now.text.now ≡ 0 }
    requires marked { IsMarked rest.now }
    ensures { IfOk result (λ found. IfSome found (λ head. asked_after_emit rest.now.text.now ≡ emission_said head pairs.new.items)) }
{
    let Some((cpu, rest)) = marked_word(rest) else {
        return Ok(None);
    };
    let Some((pid, rest)) = marked_word(&rest) else {
        return Ok(None);
    };
    let Some((event, rest)) = marked_word(&rest) else {
        return Ok(None);
    };
    let Some(cpu) = cpu_number(cpu) else {
        return Ok(None);
    };
    let Some(pid) = process_id(pid) else {
        return Ok(None);
    };
    if !marked_pairs(&rest, pairs)? {
        return Ok(None);
    }
    Ok(Some(EmissionHead { event, cpu, pid }))
}

/// How many bytes of a line are left at the front of a string, if all of them are of words without quotes, or blanks.
#[inline(always)]
#[tactic(auto, using(crate::proofs::FirstLines::bare_taken, crate::proofs::FirstLines::ends_with_text, crate::proofs::FirstLines::ends_at_newline, crate::proofs::FirstLines::goes_on_rare))]
pub(crate) fn bare_line_len(text: &[u8]) -> Option<usize>
    ensures within { IfSome result (λ len. len ≤ length text.now) }
    ensures len { IfSome result (λ len. len ≡ line_len text.now) }
    ensures bare { IfSome result (λ len. highest_rank (take len text.now) ≡ 0) }
    ensures none { IfNone result (highest_rank (line_in text.now) ≡ 0 → ⊥) }
{
    let len = bare_len(text);
    if len < text.len() && text[len] != b'\n' {
        return None;
    }
    Some(len)
}

/// As `first_emission`, of a string that this follows `emit` in, but pairs may be left where there is no such emission. It is kept out of line, as
/// most lines are short.
#[inline(never)]
#[tactic(auto, using(crate::proofs::FirstLines::first_len))]
fn cut_any<'a>(
    rest: &'a [u8],
    pairs: &mut Vec<BorrowedPair<'a>>,
) -> Result<Option<(EmissionHead<'a>, usize)>, AllocError>
    ensures read { IfOk result (λ found. IfSome found (λ first. (text : List ℕ) → text ≡ codes "emit " ++ rest.now
        → line_of (line_in text) ≡ emission_said first.0 pairs.new.items)) }
    ensures len { IfOk result (λ found. IfSome found (λ first. (text : List ℕ) → text ≡ codes "emit " ++ rest.now → first.1 ≡ line_len text)) }
    ensures found { IfOk result (λ found. (text : List ℕ) → text ≡ codes "emit " ++ rest.now → IsPlainEmission (line_in text) → IsSome found) }
{
    let Some(len) = bare_line_len(rest) else {
        return Ok(None);
    };
    if len > MOST_BYTES - EMIT_BYTES {
        return Ok(None);
    }
    let (line, _) = rest.split_at(len);
    let Some(head) = cut_bare(line, pairs)? else {
        return Ok(None);
    };
    Ok(Some((head, EMIT_BYTES + len)))
}

/// As `first_emission`, but pairs may be left where there is no such emission. Most lines are short, and their words are found by bits.
#[inline(always)]
#[tactic(auto, using(crate::proofs::FirstLines::short_len, crate::proofs::FirstLines::no_emission))]
fn cut_first<'a>(
    text: &'a [u8],
    pairs: &mut Vec<BorrowedPair<'a>>,
) -> Result<Option<(EmissionHead<'a>, usize)>, AllocError>
    ensures read { IfOk result (λ found. IfSome found (λ first. line_of (line_in text.now) ≡ emission_said first.0 pairs.new.items)) }
    ensures len { IfOk result (λ found. IfSome found (λ first. first.1 ≡ line_len text.now)) }
    ensures found { IfOk result (λ found. IsPlainEmission (line_in text.now) → IsSome found) }
{
    let Some(rest) = after_emit(text) else {
        return Ok(None);
    };
    if let Some(line) = marked_line(rest) {
        if let Some(head) = marked_emission(&line, pairs)? {
            return Ok(Some((head, EMIT_BYTES + line.text.len())));
        }
    }
    cut_any(rest, pairs)
}

/// The emission that the first line of a string is, if that has no quotes and no `>` and one blank between each two words; found as
/// [`plain_emission`] finds it in a line, but without a look for the line's end first. Its pairs are left in a list, which keeps its room from line to
/// line.
#[inline(always)]
pub fn first_emission<'a, 'p>(
    text: &'a [u8],
    pairs: &'p mut Vec<BorrowedPair<'a>>,
) -> Result<Option<FirstCommand<'p>>, AllocError>
    ensures read { IfOk result (λ found. IfSome found (λ first. line_of (line_in text.now) ≡ Ok (Ask first.command))) }
    ensures len { IfOk result (λ found. IfSome found (λ first. first.len ≡ line_len text.now)) }
    ensures found { IfOk result (λ found. IsPlainEmission (line_in text.now) → IsSome found) }
{
    let Some((head, len)) = cut_first(text, pairs)? else {
        return Ok(None);
    };
    let command = Command::emit(head.event, head.cpu, head.pid, pairs.as_slice());
    Ok(Some(FirstCommand { command, len }))
}
