//! Rows from values that are given to the fields of an event in order. One pass takes values that their fields hold; it writes a text only for a
//! number in a text field. Why other values are refused is found by their texts, as it is for an emission's pairs.

ghost use Rattle.std.specs.Prelude.{◌≡◌, true, map, drop, IfOk, Some};
ghost use Rattle.std.specs.Fmt.{decimal, signed_decimal};
ghost use Rattle.trace_format.specs.declared.kind.Kind.TheVariants as kinds;
ghost use Rattle.trace_format.specs.Cells.{datum_of};
ghost use Rattle.trace_format.specs.Rows.{value_of};
ghost use Rattle.trace_format.specs.Values.{text_given, pairs_given};
ghost use Rattle.trace_format.specs.private.InOrder.{first_name, values_in_order};

use crate::event::Field;
use crate::field_value::FieldValue;
use crate::in_order::fit;
use crate::kind::{Kind, NumberType};
use crate::pair::Pair;
use crate::value::{Value, put_text, put_value};
use itoa::Buffer;
use std::alloc::{AllocError, Global};
use trace_lex::Text;

/// The text that an emission writes for a value.
fn written(alloc: Global, given: &FieldValue<'_>) -> Result<Text, AllocError>
    ensures { IfOk result (λ text. text ≡ text_given given.now) }
{
    match *given {
        FieldValue::Unsigned(number) => {
            Text::from_slice(alloc, Buffer::new().format(number).as_bytes())
        }
        FieldValue::Signed(number) => {
            Text::from_slice(alloc, Buffer::new().format(number).as_bytes())
        }
        FieldValue::Bytes(bytes) => Text::from_slice(alloc, bytes),
    }
}

/// Puts a number in the place of another value, if a field of the type holds it. Whether it does.
#[inline(always)]
fn put_unsigned(number_type: NumberType, number: u64, out: &mut Value) -> bool
    ensures { result ≡ true → value_of (kinds.Number number_type) (decimal number) ≡ Some (datum_of out.new) }
{
    if number > number_type.greatest_magnitude() {
        return false;
    }
    *out = Value::Num(i128::from(number));
    true
}

/// Likewise, for a number with its sign.
#[inline(always)]
fn put_signed(number_type: NumberType, number: i64, out: &mut Value) -> bool
    ensures { result ≡ true → value_of (kinds.Number number_type) (signed_decimal number) ≡ Some (datum_of out.new) }
{
    if !number_type.holds_signed(number) {
        return false;
    }
    *out = Value::Num(i128::from(number));
    true
}

/// Likewise, for a value of any kind in a text field of so many bytes, by the value's text.
#[cold]
#[inline(never)]
fn put_written(
    alloc: Global,
    length: u8,
    given: &FieldValue<'_>,
    out: &mut Value,
) -> Result<bool, AllocError>
    ensures { IfOk result (λ is. is ≡ true → value_of (kinds.Char length) (text_given given.now) ≡ Some (datum_of out.new)) }
{
    let text = written(alloc, given)?;
    put_text(alloc, length, text.as_bytes(), out)
}

/// Likewise, with a text made only of a number for a text field.
#[inline(always)]
fn put_given(
    alloc: Global,
    kind: Kind,
    given: &FieldValue<'_>,
    out: &mut Value,
) -> Result<bool, AllocError>
    ensures { IfOk result (λ is. is ≡ true → value_of kind (text_given given.now) ≡ Some (datum_of out.new)) }
{
    match (kind, *given) {
        (Kind::Number(number_type), FieldValue::Unsigned(number)) => {
            Ok(put_unsigned(number_type, number, out))
        }
        (Kind::Number(number_type), FieldValue::Signed(number)) => {
            Ok(put_signed(number_type, number, out))
        }
        (_, FieldValue::Bytes(bytes)) => put_value(alloc, kind, bytes, out),
        (Kind::Char(length), _) => put_written(alloc, length, given, out),
    }
}

/// Fills two lists with the types of the fields and the values that are given to them, and tells whether each field holds its value. Otherwise
/// what the lists hold doesn't matter. A list that has had as many elements before takes no allocation.
#[inline(always)]
pub(crate) fn take_values(
    alloc: Global,
    fields: &[Field],
    given: &[FieldValue<'_>],
    kinds: &mut Vec<Kind>,
    values: &mut Vec<Value>,
) -> Result<bool, AllocError>
    ensures kinds { IfOk result (λ taken. taken ≡ true → kinds.new.items ≡ map (λ f. f.kind) fields.now) }
    ensures values { IfOk result (λ taken. taken ≡ true → values_in_order fields.now (pairs_given fields.now given.now) ≡ Some (map datum_of values.new.items)) }
{
    if fields.len() != given.len() {
        return Ok(false);
    }
    fit(fields.len(), kinds, values)?;
    for (i, field) in fields.iter().enumerate() {
        if !put_given(alloc, field.kind, &given[i], &mut values[i])? {
            return Ok(false);
        }
        kinds[i] = field.kind;
    }
    Ok(true)
}

/// The name of the field at an index; beyond the last field the empty name.
fn name_at(fields: &[Field], index: usize) -> &[u8]
    ensures { result.now ≡ first_name (drop index fields.now) }
{
    if index < fields.len() {
        fields[index].name.as_bytes()
    } else {
        &[]
    }
}

/// The pair of a name and a value's text.
fn written_pair(alloc: Global, name: &[u8], given: &FieldValue<'_>) -> Result<Pair, AllocError>
    ensures { IfOk result (λ pair. pair ≡ record { name = name.now; value = text_given given.now }) }
{
    Ok(Pair {
        name: Text::from_slice(alloc, name)?,
        value: written(alloc, given)?,
    })
}

/// The pairs that give values to fields in order of declaration.
#[cold]
#[inline(never)]
pub(crate) fn written_pairs(
    alloc: Global,
    fields: &[Field],
    given: &[FieldValue<'_>],
) -> Result<Vec<Pair>, AllocError>
    ensures { IfOk result (λ pairs. pairs.items ≡ pairs_given fields.now given.now) }
{
    let mut pairs = Vec::with_capacity(alloc, given.len())?;
    for (i, value) in given.iter().enumerate() {
        pairs.push_reserved(written_pair(alloc, name_at(fields, i), value)?);
    }
    Ok(pairs)
}
