//! Cells of keys in two blocks of memory: the cells one after the other, and beside them the bytes of their strings.
//!
//! ```text
//!   stands for   "ab"      7        "c"
//!   cells        Text(2)   Num(7)   Text(1)
//!   bytes        a b c
//! ```

ghost use Rattle.std.specs.Prelude.{◌≡◌, ◌++◌, ◌<◌, ◌≤◌, ◌∷◌, [], length, map, vec_len, IfOk, OnOk};
ghost use Rattle.trace_format.specs.Cells.{Whole, Bytes, datum_of};
ghost use Rattle.hist_entries.specs.KeptEntries.{datum_in};

use crate::key_cell::KeyCell;
use std::alloc::{AllocError, Global};
use std::marker::Model;
use trace_format::Value;

/// A cell: a number, or the length of a string, whose bytes are kept beside it.
#[derive(Clone, Copy)]
pub(crate) enum FlatCell {
    Num(i128),
    Text(usize),
}

/// Cells of keys, seen as the list of what they are.
#[derive(Drop)]
pub(crate) struct FlatCells {
    cells: Vec<FlatCell>,
    bytes: Vec<u8>,
}

impl Model for FlatCells {
    ghost use Rattle.std.specs.Prelude.{List};
    ghost use Rattle.trace_format.specs.Cells.{Datum};

    ghost Value = { List Datum };

    ghost use Rattle.hist_entries.specs.FlatCells.{cells_of, IsTextOf};

    ghost view = { λ c. cells_of c.cells.items c.bytes.items };

    ghost invariant = { λ c. IsTextOf c.cells.items c.bytes.items };
}

impl FlatCells {
    /// No cells, with room for so many.
    pub(crate) fn with_capacity(alloc: Global, count: usize) -> Result<FlatCells, AllocError>
        ensures { IfOk result (λ cells. cells ≡ []) }
    {
        Ok(FlatCells {
            cells: Vec::with_capacity(alloc, count)?,
            bytes: Vec::new(alloc),
        })
    }

    // Puts a cell in last.
    fn push<'a>(&mut self, cell: &KeyCell<'a>) -> Result<(), AllocError>
        ensures { OnOk result (self.new ≡ self.old ++ datum_in cell.now ∷ []) }
    {
        match cell {
            KeyCell::Num(number) => self.push_number(*number),
            KeyCell::Text(bytes) => self.push_text(bytes.as_slice()),
        }
    }

    fn push_number(&mut self, number: i128) -> Result<(), AllocError>
        ensures { OnOk result (self.new ≡ self.old ++ Whole number ∷ []) }
    {
        self.cells.push(FlatCell::Num(number))?;
        Ok(())
    }

    // Memory is taken before anything changes.
    fn push_text(&mut self, text: &[u8]) -> Result<(), AllocError>
        ensures { OnOk result (self.new ≡ self.old ++ Bytes text.now ∷ []) }
    {
        self.cells.reserve(1)?;
        self.bytes.extend_from_slice(text)?;
        self.cells.push_reserved(FlatCell::Text(text.len()));
        Ok(())
    }

    /// Puts the cells of a key in last.
    pub(crate) fn push_key<'a>(&mut self, key: &[KeyCell<'a>]) -> Result<(), AllocError>
        ensures { OnOk result (self.new ≡ self.old ++ map datum_in key.now) }
    {
        for cell in key {
            self.push(cell)?;
        }
        Ok(())
    }

    /// All cells, to be read from the first on.
    pub(crate) fn unread(&self) -> UnreadCells<'_>
        ensures { result ≡ self.now }
    {
        UnreadCells {
            cells: &self.cells,
            bytes: &self.bytes,
        }
    }
}

/// The cells that are left to be read, seen as the list of what they are.
#[derive(Drop)]
pub(crate) struct UnreadCells<'a> {
    cells: &'a [FlatCell],
    bytes: &'a [u8],
}

impl<'a> Model for UnreadCells<'a> {
    ghost use Rattle.std.specs.Prelude.{List};
    ghost use Rattle.trace_format.specs.Cells.{Datum};

    ghost Value = { List Datum };

    ghost use Rattle.hist_entries.specs.FlatCells.{cells_of, IsTextOf};

    ghost view = { λ c. cells_of c.cells.now c.bytes.now };

    ghost invariant = { λ c. IsTextOf c.cells.now c.bytes.now };
}

impl<'a> UnreadCells<'a> {
    // Reads the value of the next cell.
    fn next_value(&mut self, alloc: Global) -> Result<Value, AllocError>
        requires { 0 < length self.old }
        ensures { IfOk result (λ value. self.old ≡ datum_of value ∷ self.new) }
    {
        let [cell, cells @ ..] = self.cells else {
            unreachable!()
        };
        match *cell {
            FlatCell::Num(number) => {
                self.cells = cells;
                Ok(Value::Num(number))
            }
            FlatCell::Text(length) => {
                let (text, bytes) = self.bytes.split_at(length);
                let text = Vec::from_slice(alloc, text)?;
                self.cells = cells;
                self.bytes = bytes;
                Ok(Value::Text(text))
            }
        }
    }

    /// Reads the values of the next so many cells.
    pub(crate) fn next_values(
        &mut self,
        alloc: Global,
        count: usize,
    ) -> Result<Vec<Value>, AllocError>
        requires { count ≤ length self.old }
        ensures values { IfOk result (λ values. self.old ≡ map datum_of values.items ++ self.new) }
        ensures count { IfOk result (λ values. vec_len values ≡ count) }
    {
        let mut values = Vec::with_capacity(alloc, count)?;
        for _ in 0..count {
            values.push_reserved(self.next_value(alloc)?);
        }
        Ok(values)
    }
}
