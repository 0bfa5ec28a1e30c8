//! What is kept of the rows of a key: how many they are, and what their numbers sum up to.

ghost use Rattle.std.specs.Prelude.{◌≡◌, ℕ, ◌+◌, ◌≤◌, pos, map, replicate, IfOk};
ghost use Rattle.hist_entries.specs.HistEntries.{added};
ghost use Rattle.hist_entries.specs.RowPlaces.{most_rows};
ghost use Rattle.hist_entries.specs.Hits.{number_at};
ghost use Rattle.hist_entries.specs.Numbers.{AreWithin};

use crate::cell::number_of;
use std::alloc::{AllocError, Global};
use trace_format::{Emission, Operand};

/// The count of a key's rows, and the sums of their numbers.
#[derive(Drop)]
pub struct Tally {
    /// How many rows were counted.
    pub hitcount: u64,
    /// The sums of the trigger's values over these rows.
    pub sums: Vec<i128>,
}

impl Tally {
    /// Of no rows, with so many sums.
    pub(crate) fn new(alloc: Global, width: usize) -> Result<Tally, AllocError>
        ensures hitcount { IfOk result (λ tally. tally.hitcount ≡ 0) }
        ensures sums { IfOk result (λ tally. tally.sums.items ≡ replicate width (pos 0)) }
    {
        Ok(Tally {
            hitcount: 0,
            sums: vec![in alloc; 0; width]?,
        })
    }

    /// Counts a row of an emission, with the numbers of the operands.
    pub(crate) fn count(&mut self, operands: &[Operand], emission: &Emission)
        requires hitcount { self.old.hitcount ≤ most_rows }
        requires sums { AreWithin most_rows self.old.sums.items }
        ensures hitcount { self.new.hitcount ≡ self.old.hitcount + 1 }
        ensures sums { self.new.sums.items ≡ added self.old.sums.items (map (number_at emission.now) operands.now) }
        ensures within { (rows : ℕ) → AreWithin rows self.old.sums.items → AreWithin (rows + 1) self.new.sums.items }
    {
        self.hitcount += 1;
        add_numbers(&mut self.sums, operands, emission);
    }
}

/// Adds the numbers of operands to sums, one by one.
fn add_numbers(sums: &mut [i128], operands: &[Operand], emission: &Emission)
    requires { AreWithin most_rows sums.old }
    ensures sums { sums.new ≡ added sums.old (map (number_at emission.now) operands.now) }
    ensures within { (rows : ℕ) → AreWithin rows sums.old → AreWithin (rows + 1) sums.new }
{
    for index in 0..sums.len().min(operands.len()) {
        sums[index] += number_of(operands[index], emission).value();
    }
}
