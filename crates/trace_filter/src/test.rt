//! The tests of a filter: a value of a row against a written one.

ghost use Rattle.std.specs.Prelude.{◌≡◌, is_some, IfOk, IfSome};
ghost use Rattle.trace_format.specs.Cells.{datum_of};
ghost use Rattle.trace_format.specs.Operands.{is_text};
ghost use Rattle.trace_filter.specs.Fields.{takes_at, fits_at};
ghost use Rattle.trace_filter.specs.Truth.{pattern_of};
ghost use Rattle.trace_filter.specs.private.Seen.{literal_of};
ghost use Rattle.trace_filter.specs.Steps.{datum_at};
ghost use Rattle.trace_filter.specs.Tests.{number_test, text_test, datum_test};

use crate::glob::{TEXT_END, matches};
use crate::token::{Comparison, Literal};
use std::alloc::{AllocError, Global};
use trace_format::{Operand, Value};
use trace_lex::number;

/// Whether an operand may be compared so.
pub(crate) fn takes(operand: Operand, comparison: Comparison) -> bool
    ensures { result ≡ takes_at (is_text operand) comparison }
{
    if operand.is_text() {
        matches!(
            comparison,
            Comparison::Eq | Comparison::Ne | Comparison::Glob
        )
    } else {
        !matches!(comparison, Comparison::Glob)
    }
}

/// The value that is written for an operand, if it is one.
pub(crate) fn read_literal(
    alloc: Global,
    operand: Operand,
    literal: Literal,
) -> Result<Option<Value>, AllocError>
    ensures fits { IfOk result (λ found. is_some found ≡ fits_at (is_text operand) (literal_of literal.entry)) }
    ensures value { IfOk result (λ found. IfSome found (λ value. datum_of value ≡ datum_at (is_text operand) (literal_of literal.entry))) }
{
    match (operand.is_text(), literal) {
        (true, Literal::Word(bytes) | Literal::Quoted(bytes)) => {
            Ok(Some(Value::Text(Vec::from_slice(alloc, bytes)?)))
        }
        (false, Literal::Word(bytes)) => Ok(number(bytes).map(Value::Num)),
        (false, Literal::Quoted(_)) => Ok(None),
    }
}

/// The 64 low bits of a number's two's complement.
fn pattern(number: i128) -> u64
    ensures { result ≡ pattern_of number }
{
    number.rem_euclid(1 << 64) as u64
}

#[inline(always)]
fn compare_numbers(comparison: Comparison, left: i128, right: i128) -> bool
    ensures { result ≡ number_test comparison left right }
{
    match comparison {
        Comparison::Eq => left == right,
        Comparison::Ne => left != right,
        Comparison::Le => left <= right,
        Comparison::Ge => right <= left,
        Comparison::Lt => left < right,
        Comparison::Gt => right < left,
        Comparison::BitAnd => pattern(left) & pattern(right) != 0,
        Comparison::Glob => false,
    }
}

// Out of line, so that tests of numbers don't pay for it.
#[inline(never)]
fn compare_texts(comparison: Comparison, left: &[u8], right: &[u8]) -> bool
    ensures { result ≡ text_test comparison left.now right.now }
{
    match comparison {
        Comparison::Eq => left == right,
        Comparison::Ne => left != right,
        Comparison::Glob => left.len() < TEXT_END && matches(right, left),
        _ => false,
    }
}

/// Whether a row's value compares so with a written one.
#[inline(always)]
pub(crate) fn compare_values(comparison: Comparison, left: &Value, right: &Value) -> bool
    ensures { result ≡ datum_test comparison (datum_of left.now) (datum_of right.now) }
{
    match (left, right) {
        (Value::Num(left), Value::Num(right)) => compare_numbers(comparison, *left, *right),
        (Value::Text(left), Value::Text(right)) => compare_texts(comparison, left, right),
        _ => false,
    }
}
