//! Strings and pairs that lie elsewhere.

ghost use Rattle.std.specs.Prelude.{◌≡◌, IfOk};

use crate::pairs::Pairs;
use std::alloc::{AllocError, Global};
use std::marker::Model;
use trace_format::BorrowedPair;
use trace_lex::Text;

/// Bytes that lie elsewhere. Contracts see them as their list.
#[derive(Drop)]
pub struct Bytes<'a> {
    bytes: &'a [u8],
}

impl<'a> Model for Bytes<'a> {
    ghost use Rattle.std.specs.Prelude.{List, ℕ};

    ghost Value = { List ℕ };

    ghost view = { λ b. b.bytes.now };
}

impl<'a> Bytes<'a> {
    /// These bytes.
    #[inline(always)]
    pub fn new(bytes: &'a [u8]) -> Bytes<'a>
        ensures { result ≡ bytes.entry.now }
    {
        Bytes { bytes }
    }

    /// Where they lie.
    #[inline(always)]
    pub fn as_bytes(&self) -> &'a [u8]
        ensures { result.now ≡ self.now }
    {
        self.bytes
    }

    /// A copy.
    pub(crate) fn copied(&self, alloc: Global) -> Result<Text, AllocError>
        ensures { IfOk result (λ text. text ≡ self.now) }
    {
        Text::from_slice(alloc, self.bytes)
    }
}

/// Pairs that lie elsewhere. Contracts see them as their list.
#[derive(Drop)]
pub struct BorrowedPairs<'a> {
    pairs: &'a [BorrowedPair<'a>],
}

impl<'a> Model for BorrowedPairs<'a> {
    ghost use Rattle.std.specs.Prelude.{List};
    ghost use Rattle.trace_format.specs.declared.pair.Pair.{Pair};

    ghost Value = { List Pair };

    ghost view = { λ p. p.pairs.now };
}

impl<'a> BorrowedPairs<'a> {
    /// These pairs.
    #[inline(always)]
    pub fn new(pairs: &'a [BorrowedPair<'a>]) -> BorrowedPairs<'a>
        ensures { result ≡ pairs.entry.now }
    {
        BorrowedPairs { pairs }
    }

    /// Where they lie.
    #[inline(always)]
    pub fn as_slice(&self) -> &'a [BorrowedPair<'a>]
        ensures { result.now ≡ self.now }
    {
        self.pairs
    }

    /// Copies.
    pub(crate) fn copied(&self, alloc: Global) -> Result<Pairs, AllocError>
        ensures { IfOk result (λ copies. copies ≡ self.now) }
    {
        copies(alloc, self.pairs)
    }
}

// Copies of these pairs.
fn copies(alloc: Global, pairs: &[BorrowedPair<'_>]) -> Result<Pairs, AllocError>
    ensures { IfOk result (λ copies. copies ≡ pairs.now) }
{
    let mut copies = Pairs::new(alloc);
    for pair in pairs {
        copies.push(alloc, pair.name(), pair.value())?;
    }
    Ok(copies)
}
