//! The bytes of fields.

ghost use Rattle.std.specs.Prelude.{◌≡◌, ◌<◌, ◌≤◌, ◌+◌, ◌-◌, ◌^◌, ◌++◌, ℤ, pos, neg_ℤ, ◌≤ℤ◌, ◌<ℤ◌, IfOk, if◌then◌else◌, Some, None, length, take, drop, map, replicate, option_map};
ghost use Rattle.std.specs.List.{AllZip, list_all};
ghost use Rattle.trace_format.specs.declared.kind.Kind.TheVariants as kinds;
ghost use Rattle.trace_format.specs.Kinds.{size_of, number_size};
ghost use Rattle.trace_format.specs.Cells.{Datum, Whole, Bytes, datum_of, Holds, size_of_all, bytes_of, field_bytes, little_endian, two's_complement};
ghost use Rattle.trace_format.specs.Decoding.{field_from, values_from, number_from, unsigned_from, text_from, is_zero};

use crate::borrowed_value::BorrowedValue;
use crate::event::Field;
use crate::kind::{Kind, NumberType};
use crate::value::{Value, are_printable};
use std::alloc::{AllocError, Global};
use trace_lex::len_before;

/// Writes values one behind the other.
pub(crate) fn encode_values(kinds: &[Kind], values: &[Value], out: &mut [u8])
    requires row { AllZip Holds kinds.now (map datum_of values.now) }
    requires room { length out.old ≡ size_of_all kinds.now }
    ensures { out.new ≡ bytes_of kinds.now (map datum_of values.now) }
{
    let mut at = 0;
    for (kind, value) in kinds.iter().zip(values) {
        let size = kind.size();
        encode_field(*kind, value, size, out, at);
        at += size;
    }
}

/// Writes one value, which has so many bytes, at an offset.
fn encode_field(kind: Kind, value: &Value, size: usize, out: &mut [u8], at: usize)
    requires size { size ≡ size_of kind }
    requires held { Holds kind (datum_of value.now) }
    requires room { at + size_of kind ≤ length out.old }
    ensures { out.new ≡ take at out.old ++ field_bytes kind (datum_of value.now) ++ drop (at + size_of kind) out.old }
{
    let field = &mut out[at..at + size];
    match (kind, value) {
        (Kind::Number(number_type), Value::Num(number)) => {
            encode_number(number_type, *number, field);
        }
        (Kind::Char(_), Value::Text(text)) => encode_text(text, field),
        _ => unreachable!(),
    }
}

/// Writes a number of a type.
fn encode_number(number_type: NumberType, number: i128, out: &mut [u8])
    requires held { Holds (kinds.Number number_type) (Whole number) }
    requires size { length out.old ≡ number_size number_type }
    ensures { out.new ≡ field_bytes (kinds.Number number_type) (Whole number) }
{
    encode_unsigned(pattern(number_type, number), out);
}

/// The two's complement of a number in as many bytes as its type has.
pub(crate) fn pattern(number_type: NumberType, number: i128) -> u64
    requires { Holds (kinds.Number number_type) (Whole number) }
    ensures { result ≡ two's_complement (number_size number_type) number }
{
    if number < 0 {
        (number + number_type.end()) as u64
    } else {
        number as u64
    }
}

/// Writes the low bytes of a number, the lowest first. Eight bytes are written at once, and so are four.
pub(crate) fn encode_unsigned(number: u64, out: &mut [u8])
    ensures { out.new ≡ little_endian (length out.old) number }
{
    if out.len() == size_of::<u64>() {
        out.copy_from_slice(&number.to_le_bytes());
    } else if out.len() == size_of::<u32>() {
        let low = (number % (1 << 32)) as u32;
        out.copy_from_slice(&low.to_le_bytes());
    } else {
        encode_low_bytes(number, out);
    }
}

/// Writes the low bytes of a number one by one, the lowest first.
fn encode_low_bytes(number: u64, out: &mut [u8])
    ensures { out.new ≡ little_endian (length out.old) number }
{
    let mut left = number;
    for byte in out.iter_mut() {
        *byte = (left % 256) as u8;
        left /= 256;
    }
}

/// Writes a text, and zeros behind it.
pub(crate) fn encode_text(text: &[u8], out: &mut [u8])
    requires { length text.now ≤ length out.old }
    ensures { out.new ≡ text.now ++ replicate (length out.old - length text.now) 0 }
{
    let (front, back) = out.split_at_mut(text.len());
    front.copy_from_slice(text);
    back.fill(0);
}

/// Fills a list with the values whose bytes stand one behind the other, and tells whether the bytes are such. Otherwise what the list holds
/// doesn't matter. A list that has had as many elements before takes no allocation.
pub(crate) fn decode_values(
    alloc: Global,
    fields: &[Field],
    bytes: &[u8],
    values: &mut Vec<Value>,
) -> Result<bool, AllocError>
    ensures { IfOk result (λ found. (if found then Some (map datum_of values.new.items) else None) ≡ values_from (map (λ f. f.kind) fields.now) bytes.now) }
{
    values.clear();
    values.reserve_exact(fields.len())?;
    let mut rest = bytes;
    for field in fields {
        let size = field.kind.size();
        if rest.len() < size {
            return Ok(false);
        }
        let (front, back) = rest.split_at(size);
        let Some(value) = decode_field(alloc, field.kind, front)? else {
            return Ok(false);
        };
        values.push_reserved(value);
        rest = back;
    }
    Ok(rest.is_empty())
}

/// The value that the bytes of a field are.
fn decode_field(alloc: Global, kind: Kind, bytes: &[u8]) -> Result<Option<Value>, AllocError>
    requires { length bytes.now ≡ size_of kind }
    ensures { IfOk result (λ found. option_map datum_of found ≡ field_from kind bytes.now) }
{
    match kind.value_in(bytes) {
        Some(BorrowedValue::Num(number)) => Ok(Some(Value::Num(number))),
        Some(BorrowedValue::Text(text)) => Ok(Some(Value::Text(Vec::from_slice(alloc, text)?))),
        None => Ok(None),
    }
}

/// The number of a type that its bytes write.
pub(crate) fn decode_number(number_type: NumberType, bytes: &[u8]) -> i128
    requires { length bytes.now ≡ number_size number_type }
    ensures { result ≡ number_from number_type bytes.now }
{
    let pattern = i128::from(decode_unsigned(bytes));
    let end = number_type.end();
    if number_type.is_signed() && pattern >= end / 2 {
        pattern - end
    } else {
        pattern
    }
}

/// The number that at most 8 bytes write, the lowest first. Eight bytes are read at once.
fn decode_unsigned(bytes: &[u8]) -> u64
    requires { length bytes.now ≤ 8 }
    ensures value { result ≡ unsigned_from bytes.now }
    ensures bound { result < 256 ^ length bytes.now }
{
    match bytes {
        [a, b, c, d, e, f, g, h] => u64::from_le_bytes([*a, *b, *c, *d, *e, *f, *g, *h]),
        _ => decode_low_bytes(bytes),
    }
}

/// The number that at most 8 bytes write, byte by byte.
fn decode_low_bytes(bytes: &[u8]) -> u64
    requires { length bytes.now ≤ 8 }
    ensures value { result ≡ unsigned_from bytes.now }
    ensures bound { result < 256 ^ length bytes.now }
{
    match bytes {
        [] => 0,
        [low, high @ ..] => u64::from(*low) + 256 * decode_low_bytes(high),
    }
}

fn are_zeros(bytes: &[u8]) -> bool
    ensures { result ≡ list_all is_zero bytes.now }
{
    bytes.iter().all(|byte| *byte == 0)
}

/// The text before the zeros that fill a field.
pub(crate) fn decode_text(bytes: &[u8]) -> Option<&[u8]>
    ensures { option_map (λ text. Bytes text.now) result ≡ text_from bytes.now }
{
    let (text, zeros) = bytes.split_at(len_before(0, bytes));
    if text.len() < bytes.len() && are_printable(text) && are_zeros(zeros) {
        Some(text)
    } else {
        None
    }
}
