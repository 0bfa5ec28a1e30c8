//! Emissions whose words are read where they lie in their line.
//!
//! Most lines of a script are `emit CPU PID EVENT FIELD=VALUE ..`, with neither quotes nor `>` and one blank between each two words. The words
//! of such a line are slices of it: each ends at the first byte that is not above a space. Another line is left to be read by its tokens,
//! which would give the same for these.

ghost use Rattle.std.specs.Prelude.{◌≡◌, ◌≢◌, ◌≤◌, ◌<◌, ◌∷◌, ◌++◌, ◌==◌, ◌&&◌, not, ℕ, List, [], length, drop, nat_lt, true, false, pos, Some, None, Ok, IsErr, IsSome, IfOk, IfSome, OnSome, OnErr, IfNone, MatchOption, codes};
ghost use Rattle.std.specs.List.{prefix_len};
ghost use Rattle.std.specs.Option.{option_map};
ghost use Rattle.trace_command.specs.declared.command.CommandOf.TheVariants.{Emit};
ghost use Rattle.trace_script.specs.Lines.{line_of};
ghost use Rattle.trace_script.specs.declared.line.Line.TheVariants.{Ask};
ghost use Rattle.trace_script.specs.PlainEmissions.{emission_said, is_spaced, IsPlainEmission};
ghost use Rattle.trace_script.specs.Tokens.{behind, tokens_of};
ghost use Rattle.trace_script.specs.private.Bytes.{highest_rank};
ghost use Rattle.trace_script.specs.private.Emissions.{asked_after_emit, emission_in, pairs_in, tokens_in};
ghost use Rattle.trace_script.specs.declared.token.Token.TheVariants.{Word as IsWord};

use crate::bytes::is_bare;
use crate::line::MOST_BYTES;
use crate::number::{cpu_number, process_id};
use crate::prefix::len_before;
use std::alloc::AllocError;
use trace_format::BorrowedPair;

/// How many bytes `emit` and a space are.
pub(crate) const EMIT_BYTES: usize = 5;

/// How many bytes stand before the pairs of `emit 0 0 e `.
const FRONT_BYTES: usize = 11;

/// An emission's words but its pairs, as they lie in its line.
#[derive(Clone, Copy)]
pub struct EmissionHead<'a> {
    pub event: &'a [u8],
    pub cpu: u32,
    pub pid: i32,
}

/// The words of an emission after its name, and the rest of its line, where its pairs are.
#[derive(Clone, Copy)]
pub(crate) struct EmissionWords<'a> {
    pub cpu: &'a [u8],
    pub pid: &'a [u8],
    pub event: &'a [u8],
    pub pairs: &'a [u8],
}

/// How many bytes a string begins with that are above a space.
#[tactic(auto, using(crate::proofs::PrefixLemmas::word_run))]
fn word_len(text: &[u8]) -> usize
    ensures value { result ≡ prefix_len (λ b. nat_lt 32 b) text.now }
    ensures bound { result ≤ length text.now }
{
    len_before(text, b' ')
}

/// How many bytes a string begins with that are above a space and no `=`.
#[tactic(auto, using(crate::proofs::PrefixLemmas::name_run))]
fn name_len(text: &[u8]) -> usize
    ensures value { result ≡ prefix_len (λ b. nat_lt 32 b && not (b == 61)) text.now }
    ensures bound { result ≤ length text.now }
{
    len_before(text, b'=')
}

/// The word that a line begins with, and what follows the blank after it; nothing, if it begins with a blank or no blank follows.
#[inline(always)]
pub(crate) fn cut_word(line: &[u8]) -> Option<(&[u8], &[u8])>
    requires { highest_rank line.now ≡ 0 }
    ensures word { IfSome result (λ cut. tokens_of line.now ≡ behind (IsWord cut.0.now ∷ []) (tokens_of cut.1.now)) }
    ensures bare { IfSome result (λ cut. highest_rank cut.1.now ≡ 0) }
    ensures spaced { IfSome result (λ cut. is_spaced true line.now ≡ true → is_spaced true cut.1.now ≡ true) }
    ensures alone { IfNone result (is_spaced true line.now ≡ true → tokens_of line.now ≡ Some (IsWord line.now ∷ [])) }
{
    let (word, rest) = line.split_at(word_len(line));
    if word.is_empty() || rest.is_empty() {
        return None;
    }
    let (_, rest) = rest.split_at(1);
    Some((word, rest))
}

/// What follows a `=` at the front of a string.
fn after_equals(text: &[u8]) -> Option<&[u8]>
    ensures { MatchOption result ((rest : List ℕ) → text.now ≢ 61 ∷ rest) (λ rest. text.now ≡ 61 ∷ rest.now) }
{
    match text {
        [b'=', rest @ ..] => Some(rest),
        _ => None,
    }
}

/// The pair that a line begins with, and what follows it; nothing, if its first word is no pair or it begins with a blank.
#[tactic(auto, using(crate::proofs::BarePairs::pair_taken, crate::proofs::BarePairs::pair_bare, crate::proofs::BarePairs::pair_shorter, crate::proofs::BarePairs::pair_spaced, crate::proofs::BarePairs::no_pair_taken))]
fn cut_pair(line: &[u8]) -> Option<(BorrowedPair<'_>, &[u8])>
    requires { highest_rank line.now ≡ 0 }
    ensures pair { IfSome result (λ cut. pairs_in line.now ≡ option_map (λ more. cut.0 ∷ more) (pairs_in (drop 1 cut.1.now))) }
    ensures bare { IfSome result (λ cut. highest_rank (drop 1 cut.1.now) ≡ 0) }
    ensures shorter { IfSome result (λ cut. length cut.1.now < length line.now) }
    ensures spaced { IfSome result (λ cut. is_spaced true line.now ≡ true → cut.1.now ≢ [] → is_spaced true (drop 1 cut.1.now) ≡ true) }
    ensures none { IfNone result (is_spaced true line.now ≡ true → pairs_in line.now ≡ None) }
{
    let (name, rest) = line.split_at(name_len(line));
    let rest = after_equals(rest)?;
    let (value, rest) = rest.split_at(word_len(rest));
    Some((BorrowedPair::new(name, value), rest))
}

/// Leaves in a list the pairs that a line is, with one blank between each two. Whether the line is such.
fn cut_pairs<'a>(line: &'a [u8], pairs: &mut Vec<BorrowedPair<'a>>) -> Result<bool, AllocError>
    requires { highest_rank line.now ≡ 0 }
    ensures whole { IfOk result (λ is_whole. is_whole ≡ true → pairs_in line.now ≡ Some pairs.new.items) }
    ensures some { IfOk result (λ is_whole. is_whole ≡ true → pairs.new.items ≢ []) }
    ensures wrong { IfOk result (λ is_whole. is_whole ≡ false → is_spaced true line.now ≡ true → pairs_in line.now ≡ None) }
{
    pairs.clear();
    let mut rest = line;
    while let Some((pair, after)) = cut_pair(rest) {
        pairs.push(pair)?;
        let [_, next @ ..] = after else {
            return Ok(true);
        };
        rest = next;
    }
    Ok(false)
}

/// Leaves in a list the pairs that a line is, if it has no quotes and no `>` and one blank between each two: those of the line of an emission that they
/// end, as here of `e`. Whether the line is such. Every other line is left to [`crate::prepare`].
pub fn plain_pairs<'a>(
    line: &'a [u8],
    pairs: &mut Vec<BorrowedPair<'a>>,
) -> Result<bool, AllocError>
    ensures { IfOk result (λ are. are ≡ true
        → line_of (codes "emit 0 0 e " ++ line.now) ≡ Ok (Ask (Emit (codes "e") 0 (pos 0) pairs.new.items))) }
{
    if line.len() > MOST_BYTES - FRONT_BYTES || !is_bare(line) {
        return Ok(false);
    }
    cut_pairs(line, pairs)
}

/// Whether a line is one word.
#[tactic(auto, using(crate::proofs::BareLines::single_word))]
pub(crate) fn is_word(line: &[u8]) -> bool
    requires { highest_rank line.now ≡ 0 }
    ensures { result ≡ true → tokens_of line.now ≡ Some (IsWord line.now ∷ []) }
{
    !line.is_empty() && word_len(line) == line.len()
}

/// What follows `emit` and a space at the front of a line.
#[tactic(auto, using(crate::proofs::BareLines::after_emit))]
pub(crate) fn after_emit(line: &[u8]) -> Option<&[u8]>
    ensures some { IfSome result (λ rest. line.now ≡ codes "emit " ++ rest.now) }
    ensures none { IfNone result ((rest : List ℕ) → line.now ≢ codes "emit " ++ rest) }
{
    if line.len() < EMIT_BYTES {
        return None;
    }
    let (name, rest) = line.split_at(EMIT_BYTES);
    if matches!(name, b"emit ") {
        Some(rest)
    } else {
        None
    }
}

/// The words of an emission, of which this follows `emit`, if one blank stands between each two before its pairs.
#[inline(always)]
#[tactic(auto, using(crate::proofs::BareEmissions::three_words, crate::proofs::BareEmissions::one_word, crate::proofs::BareEmissions::two_words, crate::proofs::BareEmissions::only_three_words))]
fn words_after(rest: &[u8]) -> Option<EmissionWords<'_>>
    requires { highest_rank rest.now ≡ 0 }
    ensures tokens { IfSome result (λ words. tokens_of rest.now ≡ behind (tokens_in words []) (tokens_of words.pairs.now)) }
    ensures bare { IfSome result (λ words. highest_rank words.pairs.now ≡ 0) }
    ensures spaced { IfSome result (λ words. is_spaced true rest.now ≡ true → is_spaced true words.pairs.now ≡ true) }
    ensures none { IfNone result (is_spaced true rest.now ≡ true → IsErr (emission_in rest.now)) }
{
    let Some((cpu, rest)) = cut_word(rest) else {
        return None;
    };
    let Some((pid, rest)) = cut_word(rest) else {
        return None;
    };
    let Some((event, pairs)) = cut_word(rest) else {
        return None;
    };
    Some(EmissionWords {
        cpu,
        pid,
        event,
        pairs,
    })
}

/// What follows `emit` and a space at the front of a line that has neither quotes nor `>`.
fn bare_after_emit(line: &[u8]) -> Option<&[u8]>
    ensures bare { IfSome result (λ rest. highest_rank rest.now ≡ 0) }
    ensures said { IfSome result (λ rest. line_of line.now ≡ asked_after_emit rest.now) }
    ensures spaced { IfSome result (λ rest. IsPlainEmission line.now → is_spaced true rest.now ≡ true) }
    ensures none { IfNone result (IsPlainEmission line.now → ⊥) }
{
    let rest = after_emit(line)?;
    if line.len() > MOST_BYTES || !is_bare(line) {
        return None;
    }
    Some(rest)
}

/// The emission that a line is, if it has no quotes and no `>` and one blank between each two words. Its pairs are left in a list, which keeps
/// its room from line to line, and is empty if there is no such emission or memory is refused. Every other line, and one that has a fault, is left
/// to [`crate::prepare`]. It is inlined, so that the words that it finds are not moved.
#[inline(always)]
pub fn plain_emission<'a>(
    line: &'a [u8],
    pairs: &mut Vec<BorrowedPair<'a>>,
) -> Result<Option<EmissionHead<'a>>, AllocError>
    ensures read { IfOk result (λ found. IfSome found (λ head. line_of line.now ≡ emission_said head pairs.new.items)) }
    ensures found { IfOk result (λ found. IsPlainEmission line.now → IsSome found) }
    ensures none { IfOk result (λ found. IfNone found (pairs.new.items ≡ [])) }
    ensures refused { OnErr result (pairs.new.items ≡ []) }
{
    match cut_emission(line, pairs) {
        Ok(Some(head)) => Ok(Some(head)),
        Ok(None) => {
            pairs.clear();
            Ok(None)
        }
        Err(error) => {
            pairs.clear();
            Err(error)
        }
    }
}

/// The emission whose words follow `emit` in a line that has neither quotes nor `>`.
#[tactic(auto, using(crate::proofs::BareEmissions::wrong_pairs, crate::proofs::BareEmissions::no_cpu, crate::proofs::BareEmissions::no_pid))]
pub(crate) fn cut_bare<'a>(
    rest: &'a [u8],
    pairs: &mut Vec<BorrowedPair<'a>>,
) -> Result<Option<EmissionHead<'a>>, AllocError>
    requires { highest_rank rest.now ≡ 0 }
    ensures read { IfOk result (λ found. IfSome found (λ head. asked_after_emit rest.now ≡ emission_said head pairs.new.items)) }
    ensures none { IfOk result (λ found. IfNone found (is_spaced true rest.now ≡ true → IsErr (emission_in rest.now))) }
{
    let Some(words) = words_after(rest) else {
        return Ok(None);
    };
    let (Some(cpu), Some(pid)) = (cpu_number(words.cpu), process_id(words.pid)) else {
        return Ok(None);
    };
    if !cut_pairs(words.pairs, pairs)? {
        return Ok(None);
    }
    Ok(Some(EmissionHead {
        event: words.event,
        cpu,
        pid,
    }))
}

/// As `plain_emission`, but pairs may be left where there is no such emission.
#[inline(always)]
#[tactic(auto, using(crate::proofs::BareEmissions::not_found))]
fn cut_emission<'a>(
    line: &'a [u8],
    pairs: &mut Vec<BorrowedPair<'a>>,
) -> Result<Option<EmissionHead<'a>>, AllocError>
    ensures read { IfOk result (λ found. IfSome found (λ head. line_of line.now ≡ emission_said head pairs.new.items)) }
    ensures found { IfOk result (λ found. IsPlainEmission line.now → IsSome found) }
{
    let Some(rest) = bare_after_emit(line) else {
        return Ok(None);
    };
    cut_bare(rest, pairs)
}
