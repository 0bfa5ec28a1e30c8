//! Pairs that are slices of other memory, so that an emission is read without a copy of its names and values.

ghost use Rattle.std.specs.Prelude.{◌≡◌, IfOk};

use crate::pair::Pair;
use std::alloc::{AllocError, Global};
use std::marker::Model;

/// A pair whose name and value lie elsewhere, as in the line of a script. In contracts it is the same value as a [`Pair`].
#[derive(Drop)]
pub struct BorrowedPair<'a> {
    name: &'a [u8],
    value: &'a [u8],
}

impl<'a> Model for BorrowedPair<'a> {
    ghost use Rattle.trace_format.specs.declared.pair.Pair.{Pair};

    ghost Value = { Pair };

    ghost view = { λ p. record { name = p.name.now; value = p.value.now } };
}

impl<'a> BorrowedPair<'a> {
    /// The pair of a name and a value.
    pub fn new(name: &'a [u8], value: &'a [u8]) -> BorrowedPair<'a>
        ensures { result ≡ record { name = name.now; value = value.now } }
    {
        BorrowedPair { name, value }
    }

    /// The name and the value of an owned pair.
    pub fn of(pair: &'a Pair) -> BorrowedPair<'a>
        ensures { result ≡ pair.now }
    {
        BorrowedPair::new(pair.name.as_bytes(), pair.value.as_bytes())
    }

    /// The field's name.
    pub fn name(&self) -> &'a [u8]
        ensures { result.now ≡ self.now.name }
    {
        self.name
    }

    /// The text of its value.
    pub fn value(&self) -> &'a [u8]
        ensures { result.now ≡ self.now.value }
    {
        self.value
    }
}

/// The names and the values of owned pairs, in the same order.
pub fn borrowed<'a>(alloc: Global, pairs: &'a [Pair]) -> Result<Vec<BorrowedPair<'a>>, AllocError>
    ensures { IfOk result (λ v. v.items ≡ pairs.now) }
{
    let mut list = Vec::with_capacity(alloc, pairs.len())?;
    for pair in pairs {
        list.push_reserved(BorrowedPair::of(pair));
    }
    Ok(list)
}
