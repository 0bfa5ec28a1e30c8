//! Emissions.

use crate::row::Row;
use crate::value::Value;
use std::marker::Model;

/// An emission of an event: a row of it, on a CPU, by a process.
#[derive(Drop)]
pub struct Emission<'a> {
    pub row: &'a Row,
    pub cpu: u32,
    pub pid: i32,
}

impl<'a> Model for Emission<'a> {
    ghost use Rattle.trace_format.specs.Operands.{Emission};

    ghost Value = { Emission };

    ghost view = { λ e. record { values = e.row.now.values; cpu = e.cpu; pid = e.pid } };
}

impl<'a> Emission<'a> {
    ghost use Rattle.std.specs.Prelude.{◌≡◌, slice_get, option_map};
    ghost use Rattle.std.specs.Option.{option_copied};
    ghost use Rattle.trace_format.specs.Cells.{datum_of};

    /// The value of the field at an index, if there is such a field.
    pub fn field(&self, index: usize) -> Option<&Value>
        ensures { option_map datum_of (option_copied result) ≡ slice_get self.now.values index }
    {
        let row = self.row;
        row.values().get(index)
    }
}
