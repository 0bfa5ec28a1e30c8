//! What a trigger reads of an emission: the values of its keys, put into buckets, and the numbers that it sums.

ghost use Rattle.std.specs.Prelude.{◌≡◌, map};
ghost use Rattle.trace_format.specs.Cells.{datum_of};
ghost use Rattle.hist_entries.specs.Hits as hits;
ghost use Rattle.hist_entries.specs.KeptEntries.{datum_read};

use crate::bucket::bucket_of;
use crate::key_cell::RowCell;
use crate::number::Number;
use trace_format::{Emission, Key, Modifier, Operand, Row, Value};

/// The value of a field, or 0 where no field has the index.
fn field_cell<'a>(emission: &'a Emission, index: usize) -> RowCell<'a>
    ensures { datum_read result ≡ hits.field_cell emission.now.values index }
{
    match emission.field(index) {
        Some(value) => RowCell::of(value),
        None => RowCell::Num(0),
    }
}

/// The number in a field, or 0 where no number has the index.
fn field_number(values: &[Value], index: usize) -> i128
    ensures { result ≡ hits.number_of (hits.field_cell (map datum_of values.now) index) }
{
    match values.get(index) {
        Some(Value::Num(number)) => *number,
        _ => 0,
    }
}

/// The number in a row's field.
fn row_number(row: &Row, index: usize) -> Number
    ensures { result ≡ hits.number_of (hits.field_cell row.now.values index) }
{
    let values = row.values();
    Number::new(field_number(values, index))
}

/// The value of an operand in an emission.
fn cell_of<'a>(operand: Operand, emission: &'a Emission) -> RowCell<'a>
    ensures { datum_read result ≡ hits.cell_of emission.now operand }
{
    match operand {
        Operand::Pid => RowCell::Num(i128::from(emission.pid)),
        Operand::Cpu => RowCell::Num(i128::from(emission.cpu)),
        Operand::Field { index, .. } => field_cell(emission, index),
    }
}

/// The cell that a key tells entries apart by: the bucket of its value. A string is in one of its own, and is not copied.
pub(crate) fn key_cell<'a>(key: &Key, emission: &'a Emission) -> RowCell<'a>
    ensures { datum_read result ≡ hits.key_cell emission.now key.now }
{
    match cell_of(key.operand, emission) {
        RowCell::Num(number) => RowCell::Num(match key.modifier {
            Modifier::Plain | Modifier::Hex => number,
            modifier => bucket_of(modifier, &number_of(key.operand, emission)),
        }),
        RowCell::Text(bytes) => RowCell::Text(bytes),
    }
}

/// The number of an operand in an emission.
pub(crate) fn number_of(operand: Operand, emission: &Emission) -> Number
    ensures { result ≡ hits.number_at emission.now operand }
{
    match operand {
        Operand::Pid => Number::new(i128::from(emission.pid)),
        Operand::Cpu => Number::new(i128::from(emission.cpu)),
        Operand::Field { index, .. } => row_number(emission.row, index),
    }
}
