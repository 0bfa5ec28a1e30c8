//! The fields of an emission, as one string: `NAME=VALUE` for each field, with a byte 0 between each two. A byte 0 after the last is optional.

ghost use Rattle.std.specs.Prelude.{◌≡◌, ◌≢◌, ◌<◌, ◌++◌, ◌∷◌, [], IfErr, IfSome, OnOk, Ok, Some, length, position, ◌==◌};
ghost use Rattle.trace_format.specs.declared.pair.Pair.{Pair as PairValue};
ghost use Rattle.trace_script.specs.Lines.{pair_of};
ghost use Rattle.trace_script.specs.Outcomes.{Fails, Gives, or_fault};
ghost use Rattle.trace_script.specs.declared.fault.ScriptFault.TheVariants.{WrongWords};
ghost use Rattle.library_tracer.specs.Fields.{fields_in, pairs_in};

use std::alloc::Global;
use trace_format::BorrowedPair;
use trace_lex::{len_before, rest_of};
use trace_script::{LineError, ScriptFault};

/// The pair that a field writes: its first `=` separates the name from the value.
#[tactic(auto, unfolding(trace_script::specs::Lines::pair_of))]
fn pair(field: &[u8]) -> Option<BorrowedPair<'_>>
    ensures { result ≡ pair_of field.now }
{
    let at = first_equals(field)?;
    Some(BorrowedPair::new(&field[..at], &field[at + 1..]))
}

/// Where a field has its first `=`.
fn first_equals(field: &[u8]) -> Option<usize>
    ensures { result ≡ position (λ b. b == 61) field.now }
{
    field.iter().position(|byte| *byte == b'=')
}

/// The pair of a string that is a lone field, for which no list has to be allocated. Not every lone field is found to be one.
#[tactic(auto, using(crate::proofs::FieldLemmas::lone_field))]
pub(crate) fn lone_pair(text: &[u8]) -> Option<BorrowedPair<'_>>
    ensures { IfSome result (λ pair. pairs_in (fields_in text.now) ≡ Some (pair ∷ [])) }
{
    if text.is_empty() || len_before(0, text) != text.len() {
        return None;
    }
    pair(text)
}

/// Puts the pair that a field writes at the end.
fn push_pair<'a>(pairs: &mut Vec<BorrowedPair<'a>>, field: &'a [u8]) -> Result<(), LineError>
    ensures pair { OnOk result ((pair : PairValue) × (pairs.new.items ≡ pairs.old.items ++ pair ∷ [])
        × (or_fault WrongWords (pair_of field.now) ≡ Ok pair)) }
    ensures err { IfErr result (λ error. Fails error (or_fault WrongWords (pair_of field.now))) }
{
    let Some(pair) = pair(field) else {
        return Err(LineError::Fault(ScriptFault::WrongWords));
    };
    pairs.push(pair)?;
    Ok(())
}

/// The first field of a string, and what follows it and the byte 0 after it.
#[tactic(auto, using(crate::proofs::FieldLemmas::last_field, crate::proofs::FieldLemmas::field_cut))]
fn cut_field(text: &[u8]) -> (&[u8], &[u8])
    requires { text.now ≢ [] }
    ensures field { fields_in text.now ≡ result.0.now ∷ fields_in result.1.now }
    ensures shorter { length result.1.now < length text.now }
{
    let count = len_before(0, text);
    let field = &text[..count];
    if count == text.len() {
        return (field, rest_of(text, count));
    }
    (field, rest_of(text, count + 1))
}

/// The pairs of a string of fields, as they lie in it.
pub(crate) fn pairs(alloc: Global, text: &[u8]) -> Result<Vec<BorrowedPair<'_>>, LineError>
    ensures { Gives (λ pairs. pairs.items) result (or_fault WrongWords (pairs_in (fields_in text.now))) }
{
    let mut pairs = Vec::new(alloc);
    let mut rest = text;
    while !rest.is_empty() {
        let (field, after) = cut_field(rest);
        push_pair(&mut pairs, field)?;
        rest = after;
    }
    Ok(pairs)
}
