//! What two entries are sorted by: the cells of a key, and sums.

ghost use Rattle.std.specs.Prelude.{◌≡◌, map};
ghost use Rattle.trace_format.specs.Cells.{datum_of};
ghost use Rattle.hist_entries.specs.Hits.{field_cell};
ghost use Rattle.hist_entries.specs.PrintOrder as order;

use std::cmp::Ordering;
use trace_format::Value as Cell;

fn compare_cells(left: &Cell, right: &Cell) -> Ordering
    ensures { result ≡ order.datum_cmp (datum_of left.now) (datum_of right.now) }
{
    match (left, right) {
        (Cell::Num(left), Cell::Num(right)) => left.cmp(right),
        (Cell::Num(_), Cell::Text(_)) => Ordering::Less,
        (Cell::Text(_), Cell::Num(_)) => Ordering::Greater,
        (Cell::Text(left), Cell::Text(right)) => left.as_slice().cmp(right.as_slice()),
    }
}

/// Compares the cells of two keys at an index, where 0 stands for one that isn't there: numbers by value, strings by bytes, a number before a string.
pub fn compare_keys(left: &[Cell], right: &[Cell], index: usize) -> Ordering
    ensures { result ≡ order.datum_cmp (field_cell (map datum_of left.now) index)
        (field_cell (map datum_of right.now) index) }
{
    let none = Cell::Num(0);
    let left = left.get(index).unwrap_or(&none);
    let right = right.get(index).unwrap_or(&none);
    compare_cells(left, right)
}

/// The sum at an index, or 0 where there is none.
pub fn sum_at(sums: &[i128], index: usize) -> i128
    ensures { result ≡ order.sum_at sums.now index }
{
    match sums.get(index) {
        Some(sum) => *sum,
        None => 0,
    }
}
