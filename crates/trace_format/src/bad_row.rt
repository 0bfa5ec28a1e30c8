//! Why pairs of names and values give no row, in a box: so that a refusal, and each answer that may be one, is small.

ghost use Rattle.std.specs.Prelude.{◌≡◌, IfOk};

use crate::fault::RowCause;
use std::alloc::{AllocError, Global};
use std::marker::Model;
use trace_lex::Text;

/// At which name pairs give no row of an event, why, and which of them is to blame.
#[derive(Clone, Debug, PartialEq, Eq, Drop)]
pub struct BadRow {
    /// The name of the first pair whose name is unknown or repeated or whose value is wrong; else of the first field with no pair.
    pub field: Text,
    /// What is wrong with this pair, or that the field is missing.
    pub cause: RowCause,
    /// The pair's index, from 0; none, if a field is missing.
    pub pair: Option<usize>,
}

/// One in a box. Contracts see what it holds.
#[derive(Debug, Drop)]
pub struct BoxedBadRow {
    row: Box<BadRow>,
}

impl Model for BoxedBadRow {
    ghost use Rattle.trace_format.specs.declared.bad_row.BadRow.{BadRow};

    ghost Value = { BadRow };

    ghost view = { λ b. b.row.value };
}

impl BoxedBadRow {
    /// One that is put into a box.
    pub fn new(alloc: Global, row: BadRow) -> Result<BoxedBadRow, AllocError>
        ensures { IfOk result (λ boxed. boxed ≡ row) }
    {
        Ok(BoxedBadRow {
            row: Box::new(alloc, row)?,
        })
    }

    /// What it holds.
    pub fn get(&self) -> &BadRow
        ensures { result.now ≡ self.now }
    {
        &self.row
    }
}

/// Two are equal if they hold the same.
impl PartialEq for BoxedBadRow {
    ghost use Rattle.trace_format.specs.contracts.bad_row.BadRowPartialEq.TheImpl.Laws.{laws-law};

    ghost eq = { ⟦<BadRow as PartialEq>⟧.eq };

    ghost laws = { laws-law };

    fn eq(&self, other: &BoxedBadRow) -> bool {
        *self.get() == *other.get()
    }
}

impl Eq for BoxedBadRow {
    ghost use Rattle.trace_format.specs.contracts.bad_row.BadRowEq.TheImpl.Laws.{laws-law};

    ghost laws = { laws-law };
}

/// A clone holds the same. It takes an allocation.
impl Clone for BoxedBadRow {
    ghost is_clone = { λ row copy. copy ≡ row };

    fn clone(&self) -> Result<BoxedBadRow, AllocError> {
        Ok(BoxedBadRow {
            row: self.row.clone()?,
        })
    }
}
