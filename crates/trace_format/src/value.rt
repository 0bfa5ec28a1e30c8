//! The values of fields, and the texts that write them.

ghost use Rattle.std.specs.Prelude.{◌≡◌, true, if◌then◌else◌, IfOk, Some, None, is_some, option_map};
ghost use Rattle.std.specs.List.{list_all};
ghost use Rattle.trace_format.specs.declared.kind.Kind.TheVariants as kinds;
ghost use Rattle.trace_format.specs.Cells.{Datum, Whole, Bytes, datum_of, is_printable as spec_printable};
ghost use Rattle.trace_format.specs.Rows.{value_of, value_cause};
ghost use Rattle.trace_format.specs.private.NumberPatterns.{magnitude_in};

use crate::fault::RowCause;
use crate::kind::{Kind, NumberType};
use std::alloc::{AllocError, Global};
use trace_lex::{magnitude, number};

/// The value of a field.
#[derive(Drop)]
pub enum Value {
    /// A number, in its type's range.
    Num(i128),
    /// A text of bytes from 0x20 to 0x7e, shorter than its field.
    Text(Vec<u8>),
}

/// The number of a type that a text writes.
#[tactic(auto, unfolding(crate::specs::Rows::value_of))]
pub(crate) fn number_value(number_type: NumberType, text: &[u8]) -> Option<i128>
    ensures { option_map Whole result ≡ value_of (kinds.Number number_type) text.now }
{
    match number(text) {
        Some(value) if number_type.holds(value) => Some(value),
        _ => None,
    }
}

/// Whether a text fits a text field of so many bytes.
#[tactic(auto, unfolding(crate::specs::Rows::value_of))]
pub(crate) fn is_text_value(length: u8, text: &[u8]) -> bool
    ensures { (if result then Some (Bytes text.now) else None) ≡ value_of (kinds.Char length) text.now }
{
    text.len() < usize::from(length) && are_printable(text)
}

/// Whether each byte is from 0x20 to 0x7e.
pub(crate) fn are_printable(text: &[u8]) -> bool
    ensures { result ≡ list_all spec_printable text.now }
{
    text.iter().all(|byte| is_printable(*byte))
}

fn is_printable(byte: u8) -> bool
    ensures { result ≡ spec_printable byte }
{
    0x20 <= byte && byte <= 0x7e
}

/// Whether a text is a value of a type.
#[tactic(auto, unfolding(crate::specs::Rows::value_of))]
pub(crate) fn is_value(kind: Kind, text: &[u8]) -> bool
    ensures { result ≡ is_some (value_of kind text.now) }
{
    match kind {
        Kind::Number(number_type) => number_value(number_type, text).is_some(),
        Kind::Char(length) => is_text_value(length, text),
    }
}

/// Why a text is no value of a type, unless it is one.
#[tactic(auto, unfolding(crate::specs::Rows::value_of))]
pub(crate) fn value_misfit(kind: Kind, text: &[u8]) -> Option<RowCause>
    ensures { result ≡ (if is_some (value_of kind text.now) then None else Some (value_cause kind text.now)) }
{
    match kind {
        Kind::Number(number_type) => match number(text) {
            Some(value) if number_type.holds(value) => None,
            Some(_) => Some(RowCause::OutOfRange),
            None => Some(RowCause::NoNumber),
        },
        Kind::Char(_) if !are_printable(text) => Some(RowCause::BadByte),
        Kind::Char(length) if text.len() < usize::from(length) => None,
        Kind::Char(_) => Some(RowCause::TooLong),
    }
}

/// The value of a type that a text writes.
#[tactic(auto, unfolding(crate::specs::Rows::value_of))]
pub(crate) fn read_value(
    alloc: Global,
    kind: Kind,
    text: &[u8],
) -> Result<Option<Value>, AllocError>
    ensures { IfOk result (λ found. option_map datum_of found ≡ value_of kind text.now) }
{
    match kind {
        Kind::Number(number_type) => Ok(number_value(number_type, text).map(Value::Num)),
        Kind::Char(length) => text_value(alloc, length, text),
    }
}

/// The value that a text is of a text field of so many bytes.
fn text_value(alloc: Global, length: u8, text: &[u8]) -> Result<Option<Value>, AllocError>
    ensures { IfOk result (λ found. option_map datum_of found ≡ value_of (kinds.Char length) text.now) }
{
    if is_text_value(length, text) {
        Ok(Some(Value::Text(Vec::from_slice(alloc, text)?)))
    } else {
        Ok(None)
    }
}

/// Puts the value that a text gives to a field of a type in the place of another one. Whether it gives one.
#[inline(always)]
pub(crate) fn put_value(
    alloc: Global,
    kind: Kind,
    text: &[u8],
    out: &mut Value,
) -> Result<bool, AllocError>
    ensures { IfOk result (λ is. is ≡ true → value_of kind text.now ≡ Some (datum_of out.new)) }
{
    match kind {
        Kind::Number(number_type) => Ok(put_number(number_type, text, out)),
        Kind::Char(length) => put_text(alloc, length, text, out),
    }
}

/// Likewise, for a number. Without a `-` it is read as one of 64 bits.
#[inline(always)]
fn put_number(number_type: NumberType, text: &[u8], out: &mut Value) -> bool
    ensures { result ≡ true → value_of (kinds.Number number_type) text.now ≡ Some (datum_of out.new) }
{
    match text {
        [b'-', ..] => put_signed(number_type, text, out),
        _ => match held_magnitude(number_type, text) {
            Some(value) => {
                *out = Value::Num(i128::from(value));
                true
            }
            None => false,
        },
    }
}

/// Likewise, by way of a signed number of 128 bits.
#[inline(never)]
fn put_signed(number_type: NumberType, text: &[u8], out: &mut Value) -> bool
    ensures { result ≡ true → value_of (kinds.Number number_type) text.now ≡ Some (datum_of out.new) }
{
    match number_value(number_type, text) {
        Some(number) => {
            *out = Value::Num(number);
            true
        }
        None => false,
    }
}

/// Likewise, for a text field of so many bytes.
#[inline(never)]
pub(crate) fn put_text(
    alloc: Global,
    length: u8,
    text: &[u8],
    out: &mut Value,
) -> Result<bool, AllocError>
    ensures { IfOk result (λ is. is ≡ true → value_of (kinds.Char length) text.now ≡ Some (datum_of out.new)) }
{
    match text_value(alloc, length, text)? {
        Some(value) => {
            *out = value;
            Ok(true)
        }
        None => Ok(false),
    }
}

/// The value of a numeral without a sign, if the type has it.
#[inline(always)]
fn held_magnitude(number_type: NumberType, text: &[u8]) -> Option<u64>
    ensures { result ≡ magnitude_in number_type text.now }
{
    match magnitude(text) {
        Some(value) if value <= number_type.greatest_magnitude() => Some(value),
        _ => None,
    }
}
