//! The pairs of an emission where a history keeps them.

ghost use Rattle.std.specs.Prelude.{◌≡◌, ◌==◌, length, IfOk};
ghost use Rattle.std.specs.Iterator.{YieldsFirst, item_count};
ghost use Rattle.command_log.specs.EntryDecoding.{pairs_in};

use crate::decode::Reader;
use std::alloc::{AllocError, Global};
use std::marker::Model;
use trace_command::Pairs;
use trace_format::BorrowedPair;

/// An iterator over the pairs of an emission in a history, in the order given, seen as the list of those that are left. A pair is read where it lies,
/// so no memory is taken.
#[derive(Drop)]
pub struct PairRefs<'a> {
    bytes: &'a [u8],
    left: usize,
}

impl<'a> Model for PairRefs<'a> {
    ghost use Rattle.std.specs.Prelude.{List};
    ghost use Rattle.trace_format.specs.declared.pair.Pair.{Pair};
    ghost use Rattle.command_log.specs.EntryDecoding.{pairs_in};

    ghost Value = { List Pair };

    ghost view = { λ pairs. pairs_in pairs.left pairs.bytes.now };
}

impl<'a> PairRefs<'a> {
    /// So many pairs from the first byte on.
    pub(crate) fn new(bytes: &'a [u8], left: usize) -> PairRefs<'a>
        ensures { result ≡ pairs_in left bytes.entry.now }
    {
        PairRefs { bytes, left }
    }

    /// How many are left.
    pub fn len(&self) -> usize
        ensures { result ≡ length self.now }
    {
        self.left
    }

    /// Whether none is left.
    pub fn is_empty(&self) -> bool
        ensures { result ≡ (length self.now == 0) }
    {
        self.left == 0
    }

    /// All that are left, with strings of their own. It fails only if memory is refused.
    pub fn to_pairs(&self, alloc: Global) -> Result<Pairs, AllocError>
        ensures { IfOk result (λ pairs. pairs ≡ self.now) }
    {
        let mut pairs = Pairs::new(alloc);
        for pair in PairRefs::new(self.bytes, self.left) {
            pairs.push(alloc, pair.name(), pair.value())?;
        }
        Ok(pairs)
    }
}

impl<'a> Iterator for PairRefs<'a> {
    type Item = BorrowedPair<'a>;

    ghost next_gives = { YieldsFirst (λ pairs. pairs) };

    ghost remaining = { item_count (λ pairs. pairs) };

    fn next(&mut self) -> Option<BorrowedPair<'a>> {
        if self.left == 0 {
            return None;
        }
        let mut reader = Reader::new(self.bytes);
        let pair = reader.pair();
        self.bytes = reader.left();
        self.left -= 1;
        Some(pair)
    }
}
