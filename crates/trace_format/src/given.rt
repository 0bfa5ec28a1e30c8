//! The values that pairs of names and texts give to fields.

ghost use Rattle.std.specs.Prelude.{◌≡◌, if◌then◌else◌, [], None, Some, true, false, map, filter_map, IfOk, IsSome, is_some, option_map, option_copied};
ghost use Rattle.trace_format.specs.Cells.{Datum, datum_of};
ghost use Rattle.trace_format.specs.Rows.{field_named, pair_named, new_field as new_field_of, all_new, is_right, first_wrong, first_missing, given, pair_cause, IsBadRow};

use crate::bad_row::{BadRow, BoxedBadRow};
use crate::borrowed_pair::BorrowedPair;
use crate::event::Field;
use crate::fault::{RowCause, RowFault};
use crate::value::{Value, is_value, read_value, value_misfit};
use std::alloc::{AllocError, Global};
use trace_lex::Text;

/// The field of a name.
fn field_of<'a>(fields: &'a [Field], name: &[u8]) -> Option<&'a Field>
    ensures { option_copied result ≡ field_named fields.now name.now }
{
    fields.iter().find(|field| field.name.as_bytes() == name)
}

/// The pair of a name.
fn pair_of<'a, 'b>(pairs: &'a [BorrowedPair<'b>], name: &[u8]) -> Option<&'a BorrowedPair<'b>>
    ensures { option_copied result ≡ pair_named pairs.now name.now }
{
    pairs.iter().find(|pair| pair.name() == name)
}

/// The field that a pair names, if no pair before it names it.
fn new_field<'a>(
    fields: &'a [Field],
    before: &[BorrowedPair<'_>],
    pair: &BorrowedPair<'_>,
) -> Option<&'a Field>
    ensures { option_copied result ≡ new_field_of fields.now before.now pair.now }
{
    if pair_of(before, pair.name()).is_some() {
        return None;
    }
    field_of(fields, pair.name())
}

/// Whether each pair names a field that no pair before it names.
pub(crate) fn are_new(fields: &[Field], pairs: &[BorrowedPair<'_>]) -> bool
    ensures { result ≡ all_new fields.now [] pairs.now }
{
    for (i, pair) in pairs.iter().enumerate() {
        if new_field(fields, &pairs[..i], pair).is_none() {
            return false;
        }
    }
    true
}

/// Why a pair may not stand after others, unless it may.
fn pair_misfit(
    fields: &[Field],
    before: &[BorrowedPair<'_>],
    pair: &BorrowedPair<'_>,
) -> Option<RowCause>
    ensures { result ≡ (if is_right fields.now before.now pair.now then None else Some (pair_cause fields.now before.now pair.now)) }
{
    match field_of(fields, pair.name()) {
        None => Some(RowCause::Unknown),
        Some(_) if pair_of(before, pair.name()).is_some() => Some(RowCause::Repeated),
        Some(field) => value_misfit(field.kind, pair.value()),
    }
}

/// The name of the first pair that is wrong, why it is, and its index.
pub(crate) fn wrong_pair<'a>(
    fields: &[Field],
    pairs: &'a [BorrowedPair<'_>],
) -> Option<(&'a [u8], RowCause, usize)>
    ensures { option_map (λ wrong. record { field = wrong.0.now; cause = wrong.1; pair = Some wrong.2 }) result ≡ first_wrong fields.now [] pairs.now }
{
    for (i, pair) in pairs.iter().enumerate() {
        if let Some(cause) = pair_misfit(fields, &pairs[..i], pair) {
            return Some((pair.name(), cause, i));
        }
    }
    None
}

/// Whether the pairs give a value to a field.
fn is_given(pairs: &[BorrowedPair<'_>], field: &Field) -> bool
    ensures { result ≡ is_some (given pairs.now field.now) }
{
    match pair_of(pairs, field.name.as_bytes()) {
        Some(pair) => is_value(field.kind, pair.value()),
        None => false,
    }
}

/// The name of the first field that no pair gives a value.
pub(crate) fn missing_field<'a>(fields: &'a [Field], pairs: &[BorrowedPair<'_>]) -> Option<&'a [u8]>
    ensures { option_copied result ≡ first_missing fields.now pairs.now }
{
    for field in fields {
        if !is_given(pairs, field) {
            return Some(field.name.as_bytes());
        }
    }
    None
}

/// The value that the pairs give to a field.
fn given_value(
    alloc: Global,
    pairs: &[BorrowedPair<'_>],
    field: &Field,
) -> Result<Option<Value>, AllocError>
    ensures { IfOk result (λ found. option_map datum_of found ≡ given pairs.now field.now) }
{
    match pair_of(pairs, field.name.as_bytes()) {
        Some(pair) => read_value(alloc, field.kind, pair.value()),
        None => Ok(None),
    }
}

/// Fills a list with the values that the pairs give to fields, in order, and tells whether they give each field one. Otherwise what the list
/// holds doesn't matter. A list that has had as many elements before takes no allocation.
pub(crate) fn given_values(
    alloc: Global,
    fields: &[Field],
    pairs: &[BorrowedPair<'_>],
    values: &mut Vec<Value>,
) -> Result<bool, AllocError>
    ensures all { IfOk result (λ complete. complete ≡ true → first_missing fields.now pairs.now ≡ None) }
    ensures values { IfOk result (λ complete. complete ≡ true → map datum_of values.new.items ≡ filter_map (given pairs.now) fields.now) }
    ensures missing { IfOk result (λ complete. complete ≡ false → IsSome (first_missing fields.now pairs.now)) }
{
    values.clear();
    values.reserve_exact(fields.len())?;
    for field in fields {
        let Some(value) = given_value(alloc, pairs, field)? else {
            return Ok(false);
        };
        values.push_reserved(value);
    }
    Ok(true)
}

/// The refusal at a name.
pub(crate) fn bad_row(alloc: Global, name: &[u8], cause: RowCause, pair: Option<usize>) -> RowFault
    ensures { IsBadRow result (record { field = name.now; cause = cause; pair = pair }) }
{
    match boxed_row(alloc, name, cause, pair) {
        Ok(row) => RowFault::BadRow { row },
        Err(_) => RowFault::Memory,
    }
}

fn boxed_row(
    alloc: Global,
    name: &[u8],
    cause: RowCause,
    pair: Option<usize>,
) -> Result<BoxedBadRow, AllocError>
    ensures { IfOk result (λ row. row ≡ record { field = name.now; cause = cause; pair = pair }) }
{
    let field = Text::from_slice(alloc, name)?;
    BoxedBadRow::new(alloc, BadRow { field, cause, pair })
}
