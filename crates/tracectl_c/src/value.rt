//! The values of an emission as C gives them.

ghost use Rattle.std.specs.Prelude.{◌≡◌, ◌≤◌, true, false, Some, None, IfOk, length, take};
ghost use Rattle.std.specs.Option.{option_map};
ghost use Rattle.tracectl_c.specs.GivenValues.{value_in, values_in};

use std::alloc::{AllocError, Global};
use trace_format::FieldValue;

/// The kind of a number from 0.
const UNSIGNED: u32 = 0;

/// The kind of a number with its sign.
const SIGNED: u32 = 1;

/// The kind of bytes.
const BYTES: u32 = 2;

/// A value as C gives it: of which kind it is, and the number or the bytes. A number with its sign has the same 64 bits as in C.
#[repr(C)]
#[derive(Clone, Copy)]
pub struct Value<'a> {
    pub kind: u32,
    pub number: u64,
    pub bytes: &'a [u8],
}

/// The value that is given; `None` if there is no such kind.
pub(crate) fn value_in<'a>(value: &Value<'a>) -> Option<FieldValue<'a>>
    ensures { result ≡ value_in value.now }
{
    match value.kind {
        UNSIGNED => Some(FieldValue::Unsigned(value.number)),
        SIGNED => Some(FieldValue::Signed(value.number.cast_signed())),
        BYTES => Some(FieldValue::Bytes(value.bytes)),
        _ => None,
    }
}

/// Of so many values at most no list is allocated.
pub(crate) const FEW: usize = 8;

/// Puts few values that are given into a room, from its beginning. `false` if one is of no kind.
pub(crate) fn put_few<'a>(values: &[Value<'a>], room: &mut [FieldValue<'a>; FEW]) -> bool
    requires { length values.now ≤ FEW }
    ensures all { result ≡ true → Some (take (length values.now) room.new) ≡ values_in values.now }
    ensures none { result ≡ false → None ≡ values_in values.now }
    ensures size { length room.new ≡ FEW }
{
    for index in 0..values.len() {
        let Some(given) = value_in(&values[index]) else {
            return false;
        };
        room[index] = given;
    }
    true
}

/// The values that are given; `None` if one is of no kind.
pub(crate) fn values_in<'a>(
    alloc: Global,
    values: &[Value<'a>],
) -> Result<Option<Vec<FieldValue<'a>>>, AllocError>
    ensures { IfOk result (λ given. option_map (λ list. list.items) given ≡ values_in values.now) }
{
    let mut list = Vec::with_capacity(alloc, values.len())?;
    for value in values {
        let Some(given) = value_in(value) else {
            return Ok(None);
        };
        list.push_reserved(given);
    }
    Ok(Some(list))
}
