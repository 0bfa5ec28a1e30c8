//! The cells of keys: what entries are told apart by.

ghost use Rattle.std.specs.Prelude.{◌≡◌, IfOk};
ghost use Rattle.trace_format.specs.Cells.{datum_of};
ghost use Rattle.hist_entries.specs.KeptEntries.{datum_in, datum_read};

use std::alloc::{AllocError, Global};
use std::borrow::CowSlice;
use trace_format::Value;

/// A cell of a key. The string of a row's key lies where the row has it, so that a look-up copies none; that of a kept key is its own.
#[derive(PartialEq, Eq, Hash, Drop)]
pub enum KeyCell<'a> {
    Num(i128),
    Text(CowSlice<'a, u8>),
}

/// A cell of a row's key, which is looked at where it lies in the row.
#[derive(Clone, Copy)]
pub(crate) enum RowCell<'a> {
    Num(i128),
    Text(&'a [u8]),
}

impl<'a> RowCell<'a> {
    /// The cell that has a value, which it borrows.
    pub(crate) fn of(value: &'a Value) -> RowCell<'a>
        ensures { datum_read result ≡ datum_of value.now }
    {
        match value {
            Value::Num(number) => RowCell::Num(*number),
            Value::Text(bytes) => RowCell::Text(bytes.as_slice()),
        }
    }
}

/// A row's cell, to look up.
pub(crate) fn borrowed<'a>(cell: RowCell<'a>) -> KeyCell<'a>
    ensures { datum_in result ≡ datum_read cell.entry }
{
    match cell {
        RowCell::Num(number) => KeyCell::Num(number),
        RowCell::Text(bytes) => KeyCell::Text(CowSlice::Borrowed(bytes)),
    }
}

/// A row's cell, to keep.
pub(crate) fn keep<'a>(alloc: Global, cell: RowCell<'a>) -> Result<KeyCell<'static>, AllocError>
    ensures { IfOk result (λ kept. datum_in kept ≡ datum_read cell.entry) }
{
    match cell {
        RowCell::Num(number) => Ok(KeyCell::Num(number)),
        RowCell::Text(bytes) => {
            let kept = Vec::from_slice(alloc, bytes)?;
            Ok(KeyCell::Text(CowSlice::Owned(kept)))
        }
    }
}
