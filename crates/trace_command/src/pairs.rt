//! The pairs of an emission.

ghost use Rattle.std.specs.Prelude.{◌≡◌, [], ◌∷◌, ◌++◌, ◌↔◌, IfOk, IsTrue, OnOk, OnErr};
ghost use Rattle.trace_command.specs.PairLists.{pairs_in, IsOne};

use std::alloc::{AllocError, Global};
use std::marker::Model;
use std::{mem, slice};
use trace_format::{BorrowedPair, Pair, borrowed};
use trace_lex::Text;

/// Where pairs lie. Most emissions have one pair, which takes no block of its own.
#[derive(Drop)]
enum PairList {
    One(Pair),
    Many(Vec<Pair>),
}

/// The pairs of an emission, in the order given.
pub struct Pairs {
    list: PairList,
}

impl Drop for Pairs {
    // Not derived, so that no crate above proves the drops of its parts.
    fn drop(self) {
        let Pairs { list: _ } = self;
    }
}

impl Model for Pairs {
    ghost use Rattle.std.specs.Prelude.{List};
    ghost use Rattle.trace_format.specs.declared.pair.Pair.{Pair};

    ghost Value = { List Pair };

    ghost use Rattle.trace_command.specs.PairLists.{pairs_in};

    ghost view = { λ p. pairs_in p.list };
}

impl From<Pair> for Pairs {
    ghost from_gives = { λ pair result. result ≡ pair ∷ [] };

    fn from(pair: Pair) -> Pairs {
        Pairs {
            list: PairList::One(pair),
        }
    }
}

impl From<Vec<Pair>> for Pairs {
    ghost from_gives = { λ pairs result. result ≡ pairs.items };

    fn from(pairs: Vec<Pair>) -> Pairs {
        Pairs {
            list: PairList::Many(pairs),
        }
    }
}

// Where lent pairs lie.
#[derive(Drop)]
enum LentList<'a> {
    One(BorrowedPair<'a>),
    Many(Vec<BorrowedPair<'a>>),
}

/// Pairs whose strings are those of others.
#[derive(Drop)]
pub struct LentPairs<'a> {
    list: LentList<'a>,
}

impl<'a> Model for LentPairs<'a> {
    ghost use Rattle.std.specs.Prelude.{List};
    ghost use Rattle.trace_format.specs.declared.pair.Pair.{Pair};

    ghost Value = { List Pair };

    ghost use Rattle.trace_command.specs.PairLists.{lent_in};

    ghost view = { λ p. lent_in p.list };
}

impl<'a> LentPairs<'a> {
    /// No pair.
    pub fn none(alloc: Global) -> LentPairs<'a>
        ensures { result ≡ [] }
    {
        LentPairs {
            list: LentList::Many(Vec::new(alloc)),
        }
    }

    /// The pairs.
    pub fn as_slice(&self) -> &[BorrowedPair<'a>]
        ensures { result.now ≡ self.now }
    {
        match &self.list {
            LentList::One(pair) => slice::from_ref(pair),
            LentList::Many(pairs) => pairs,
        }
    }
}

/// Pairs are equal if they are the same in the same order.
impl PartialEq for Pairs {
    ghost use Rattle.std.specs.Cmp.Lexicographic.{pointwise, lists_per};
    ghost use Rattle.trace_format.specs.contracts.pair.PairPartialEq.TheImpl.Laws.{laws-law};

    ghost eq = { pointwise ⟦<Pair as PartialEq>⟧.eq };

    ghost laws = { lists_per laws-law };

    #[tactic(auto, using(crate::proofs::EqualLemmas::pairs_decided))]
    fn eq(&self, other: &Pairs) -> bool
        ensures value { result ≡ pointwise ⟦<Pair as PartialEq>⟧.eq self.now other.now }
        ensures same { IsTrue result ↔ (self.now ≡ other.now) }
    {
        self.as_slice() == other.as_slice()
    }
}

impl Eq for Pairs {
    ghost use Rattle.std.specs.Cmp.Lexicographic.{lists_equiv};
    ghost use Rattle.trace_format.specs.contracts.pair.PairEq.TheImpl.Laws.{laws-law};

    ghost laws = { lists_equiv laws-law };
}

/// A clone is of the same pairs.
impl Clone for Pairs {
    ghost is_clone = { λ pairs copy. copy ≡ pairs };

    fn clone(&self) -> Result<Pairs, AllocError> {
        match &self.list {
            PairList::One(pair) => Ok(Pairs::from(pair.clone()?)),
            PairList::Many(pairs) => Ok(Pairs::from(pairs.clone()?)),
        }
    }
}

impl Pairs {
    /// No pair.
    pub fn new(alloc: Global) -> Pairs
        ensures { result ≡ [] }
    {
        Pairs::from(Vec::new(alloc))
    }

    /// Puts the pair of a field's name and the value that is written for it at the end.
    pub fn push(&mut self, alloc: Global, name: &[u8], value: &[u8]) -> Result<(), AllocError>
        ensures ok { OnOk result (self.new ≡ self.old ++ record { name = name.now; value = value.now } ∷ []) }
        ensures err { OnErr result (self.new ≡ self.old) }
    {
        let name = Text::from_slice(alloc, name)?;
        let value = Text::from_slice(alloc, value)?;
        let pair = Pair { name, value };
        self.push_pair(alloc, pair)
    }

    // Puts a pair at the end.
    fn push_pair(&mut self, alloc: Global, pair: Pair) -> Result<(), AllocError>
        ensures ok { OnOk result (self.new ≡ self.old ++ pair ∷ []) }
        ensures err { OnErr result (self.new ≡ self.old) }
    {
        if self.as_slice().is_empty() {
            self.list = PairList::One(pair);
            return Ok(());
        }
        match &mut self.list {
            PairList::One(_) => push_second(alloc, &mut self.list, pair),
            PairList::Many(pairs) => {
                pairs.push(pair)?;
                Ok(())
            }
        }
    }

    /// The pairs, lent. For a lone one no list is allocated.
    pub fn lend(&self, alloc: Global) -> Result<LentPairs<'_>, AllocError>
        ensures { IfOk result (λ lent. lent ≡ self.now) }
    {
        match self.as_slice() {
            [pair] => Ok(LentPairs {
                list: LentList::One(BorrowedPair::of(pair)),
            }),
            pairs => Ok(LentPairs {
                list: LentList::Many(borrowed(alloc, pairs)?),
            }),
        }
    }

    /// The pairs.
    pub fn as_slice(&self) -> &[Pair]
        ensures { result.now ≡ self.now }
    {
        match &self.list {
            PairList::One(pair) => slice::from_ref(pair),
            PairList::Many(pairs) => pairs,
        }
    }
}

// Puts a pair after the only one.
fn push_second(alloc: Global, list: &mut PairList, pair: Pair) -> Result<(), AllocError>
    requires { IsOne list.old }
    ensures ok { OnOk result (pairs_in list.new ≡ pairs_in list.old ++ pair ∷ []) }
    ensures err { OnErr result (list.new ≡ list.old) }
{
    let mut pairs = Vec::with_capacity(alloc, 2)?;
    let PairList::One(first) = mem::replace(list, PairList::Many(Vec::new(alloc))) else {
        unreachable!()
    };
    pairs.push_reserved(first);
    pairs.push_reserved(pair);
    *list = PairList::Many(pairs);
    Ok(())
}
