//! The syntax of filters, read token by token.

ghost use Rattle.std.specs.Prelude.{◌≡◌, ◌≤◌, ◌<◌, ◌+◌, ◌∷◌, List, ℕ, Bool, true, false, length, reverse, sum, Some, None};
ghost use Rattle.trace_filter.specs.Grammar.{open_count};
ghost use Rattle.trace_filter.specs.Tokens.{spots_from};
ghost use Rattle.trace_filter.specs.Syntax.{start, reading};
ghost use Rattle.trace_filter.specs.private.Seen.{IsCauseOf};

use crate::fault::FilterCause;
use crate::token::{Token, next_token};
use arrayvec::ArrayVec;
use std::marker::Model;

/// At most so many `!` and `(` are open at once.
const DEEPEST: usize = 16;

/// So many are open where the first too many was read.
const TOO_MANY: usize = DEEPEST + 1;

/// What may stand next in a filter.
#[derive(Clone, Copy, PartialEq, Eq)]
pub(crate) enum Due {
    /// A `!`, a `(` or a field's name.
    Operand,
    /// A comparison, behind a name.
    Operator,
    /// A value, behind a comparison.
    Value,
    /// A `&&`, a `||`, a `)` or the end, behind an operand.
    Joint,
}

/// What the tokens of a text come to.
#[derive(Clone, Copy, PartialEq, Eq)]
pub(crate) enum Verdict {
    Fine,
    /// Over 16 `!` and `(` are open at once.
    TooDeep,
    /// At this byte begins the first token with which no filter goes on, or the text ends here, where more was to come.
    WrongAt(usize),
}

/// The part of a filter that was read.
#[derive(Drop)]
pub(crate) struct Reader {
    due: Due,
    /// How many `!` are open inside the innermost open `(`.
    bangs: usize,
    /// For each open `(`, innermost last, how many `!` are open before it.
    outer: ArrayVec<usize, TOO_MANY>,
}

impl Model for Reader {
    ghost use Rattle.std.specs.Prelude.{reverse};
    ghost use Rattle.trace_filter.specs.Syntax.{Standing};

    ghost Value = { Standing };

    ghost view = { λ r. record { due = r.due; opened = record { bangs = r.bangs; outer = reverse r.outer.items } } };
}

impl Reader {
    ghost use Rattle.trace_filter.specs.Syntax.{step, may_end as ends, Takes};
    ghost use Rattle.trace_filter.specs.private.Seen.{token_of};

    fn new() -> Reader
        ensures { result ≡ start }
    {
        Reader {
            due: Due::Operand,
            bangs: 0,
            outer: ArrayVec::new(),
        }
    }

    /// Takes one more token, and says whether it may stand there.
    #[tactic(auto, unfolding(crate::specs::Syntax::step))]
    fn take(&mut self, token: Token) -> bool
        requires { open_count self.old.opened ≤ 16 }
        ensures { Takes (step self.old (token_of token.entry)) result self.new }
    {
        match (self.due, token) {
            (Due::Operand, Token::Bang) => self.bangs += 1,
            (Due::Operand, Token::Open) => {
                self.outer.push(self.bangs);
                self.bangs = 0;
            }
            (Due::Operand, Token::Name(_)) => self.due = Due::Operator,
            (Due::Operator, Token::Compare(_)) => self.due = Due::Value,
            (Due::Value, Token::Value(_)) => {
                self.bangs = 0;
                self.due = Due::Joint;
            }
            (Due::Joint, Token::AndAnd | Token::OrOr) => self.due = Due::Operand,
            (Due::Joint, Token::Close) => {
                if self.outer.pop().is_none() {
                    return false;
                }
                self.bangs = 0;
            }
            _ => return false,
        }
        true
    }

    /// How many `!` and `(` are open.
    #[tactic(auto, using(crate::proofs::Sums::sums))]
    fn depth(&self) -> usize
        requires { open_count self.now.opened ≤ 17 }
        ensures { result ≡ open_count self.now.opened }
    {
        self.bangs + self.outer.len() + total(&self.outer)
    }

    /// Whether the filter may end there.
    fn may_end(&self) -> bool
        ensures { result ≡ ends self.now.due self.now.opened.outer }
    {
        self.due == Due::Joint && self.outer.is_empty()
    }
}

fn total(counts: &[usize]) -> usize
    requires { sum counts.now ≤ 17 }
    ensures { result ≡ sum counts.now }
{
    counts.iter().sum()
}

/// What the tokens of a text come to, which is the front of one of so many bytes, and what could go on after the last of them that was taken.
pub(crate) fn read_syntax(text: &[u8], len: usize) -> (Verdict, FilterCause)
    ensures verdict { result.0 ≡ reading start (spots_from false 0 0 text.now) len }
    ensures cause { length text.now ≤ len → IsCauseOf (spots_from false 0 0 text.now) result.0 result.1 }
{
    let mut reader = Reader::new();
    let mut cause = FilterCause::Operand;
    let mut from = 0;
    let mut value_due = false;
    while let Some(spot) = next_token(text, from, value_due) {
        if !reader.take(spot.token) {
            return (Verdict::WrongAt(spot.at), cause);
        }
        if reader.depth() > DEEPEST {
            return (Verdict::TooDeep, cause);
        }
        cause = spot.token.cause_after();
        from = spot.end;
        value_due = spot.token.is_comparison();
    }
    if reader.may_end() {
        (Verdict::Fine, cause)
    } else {
        (Verdict::WrongAt(len), cause)
    }
}
