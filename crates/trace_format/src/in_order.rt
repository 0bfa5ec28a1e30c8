//! Pairs that name the fields of an event in order, as most emissions write them: one pass reads their values.

ghost use Rattle.std.specs.Prelude.{◌≡◌, true, length, map, IfOk, OnOk, Some};
ghost use Rattle.trace_format.specs.Cells.{datum_of};
ghost use Rattle.trace_format.specs.private.InOrder.{named_value as value_where_named, values_in_order};

use crate::borrowed_pair::BorrowedPair;
use crate::event::Field;
use crate::kind::Kind;
use crate::value::{Value, put_value};
use std::alloc::{AllocError, Global};

/// Puts the value that a pair gives to a field in the place of another one, if it names the field and gives one. Whether it does.
#[inline(always)]
fn put_named(
    alloc: Global,
    field: &Field,
    pair: &BorrowedPair<'_>,
    out: &mut Value,
) -> Result<bool, AllocError>
    ensures { IfOk result (λ is. is ≡ true → value_where_named field.now pair.now ≡ Some (datum_of out.new)) }
{
    if field.name.as_bytes() == pair.name() {
        put_value(alloc, field.kind, pair.value(), out)
    } else {
        Ok(false)
    }
}

/// Gives two lists so many elements, which mean nothing. Lists that have as many take no allocation and keep their elements.
#[inline(always)]
pub(crate) fn fit(
    len: usize,
    kinds: &mut Vec<Kind>,
    values: &mut Vec<Value>,
) -> Result<(), AllocError>
    ensures kinds { OnOk result (length kinds.new.items ≡ len) }
    ensures values { OnOk result (length values.new.items ≡ len) }
{
    if kinds.len() == len && values.len() == len {
        return Ok(());
    }
    fill_up(len, kinds, values)
}

/// Likewise, for lists that have another number of elements.
#[inline(never)]
fn fill_up(len: usize, kinds: &mut Vec<Kind>, values: &mut Vec<Value>) -> Result<(), AllocError>
    ensures kinds { OnOk result (length kinds.new.items ≡ len) }
    ensures values { OnOk result (length values.new.items ≡ len) }
{
    kinds.resize(len, Kind::Char(1))?;
    values.clear();
    values.reserve_exact(len)?;
    for _ in 0..len {
        values.push_reserved(Value::Num(0));
    }
    Ok(())
}

/// Fills two lists with the types of the fields and the values of the pairs, and tells whether the pairs name the fields in order. Otherwise
/// what the lists hold doesn't matter. A list that has had as many elements before takes no allocation.
#[inline(always)]
pub(crate) fn read_in_order(
    alloc: Global,
    fields: &[Field],
    pairs: &[BorrowedPair<'_>],
    kinds: &mut Vec<Kind>,
    values: &mut Vec<Value>,
) -> Result<bool, AllocError>
    ensures kinds { IfOk result (λ ordered. ordered ≡ true → kinds.new.items ≡ map (λ f. f.kind) fields.now) }
    ensures values { IfOk result (λ ordered. ordered ≡ true → values_in_order fields.now pairs.now ≡ Some (map datum_of values.new.items)) }
{
    if fields.len() != pairs.len() {
        return Ok(false);
    }
    fit(fields.len(), kinds, values)?;
    for (i, field) in fields.iter().enumerate() {
        if !put_named(alloc, field, &pairs[i], &mut values[i])? {
            return Ok(false);
        }
        kinds[i] = field.kind;
    }
    Ok(true)
}
