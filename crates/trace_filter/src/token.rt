//! The tokens of a filter.

ghost use Rattle.std.specs.Prelude.{◌≡◌, ◌≤◌, ◌<◌, [], ◌∷◌, length, drop, nat_lt, if◌then◌else◌, IfNone, IfSome};
ghost use Rattle.std.specs.List.{prefix_len, list_all};
ghost use Rattle.trace_lex.specs.Names.{is_name as spec_is_name, is_name_byte as spec_name_byte};
ghost use Rattle.trace_filter.specs.Tokens.{Name, Illegible, is_quote as spec_quote, is_word_byte as spec_word_byte, begins_with as spec_begins_with, quoted_piece as spec_quoted_piece, word_piece as spec_word_piece, name_piece as spec_name_piece, longest as spec_longest, symbol_piece as spec_symbol_piece, piece_of, is_comparison as spec_comparison, spots_from};
ghost use Rattle.trace_filter.specs.FilterCauses.{is_sign as spec_sign, cause_after as spec_cause_after};
ghost use Rattle.trace_filter.specs.private.Seen.{token_of, IsPiece, IsNextToken};

use crate::fault::FilterCause;
use trace_lex::{blanks_len, is_blank, is_name, is_name_byte, len_before, rest_of};

/// How a test compares a field's value with a written one.
#[derive(Clone, Copy, PartialEq, Eq)]
pub(crate) enum Comparison {
    Eq,
    Ne,
    Le,
    Ge,
    Lt,
    Gt,
    /// `&`: the two patterns have a common bit.
    BitAnd,
    /// `~`: the text matches a glob.
    Glob,
}

/// A value as written.
#[derive(Clone, Copy)]
pub(crate) enum Literal<'a> {
    Word(&'a [u8]),
    /// The bytes between two quotes.
    Quoted(&'a [u8]),
}

#[derive(Clone, Copy)]
pub(crate) enum Token<'a> {
    Open,
    Close,
    Bang,
    AndAnd,
    OrOr,
    Compare(Comparison),
    Name(&'a [u8]),
    Value(Literal<'a>),
    /// What no filter has: a `=` or a `|` by itself, an open quote, a run of letters and digits that is no name.
    Illegible,
}

impl Token<'_> {
    /// Whether a value is due behind the token.
    pub(crate) fn is_comparison(&self) -> bool
        ensures { result ≡ spec_comparison (token_of self.now) }
    {
        matches!(self, Token::Compare(_))
    }

    /// What could go on after the token.
    pub(crate) fn cause_after(&self) -> FilterCause
        ensures { result ≡ spec_cause_after (token_of self.now) }
    {
        match self {
            Token::Open | Token::Bang | Token::AndAnd | Token::OrOr | Token::Illegible => {
                FilterCause::Operand
            }
            Token::Name(_) => FilterCause::Operator,
            Token::Compare(_) => FilterCause::Value,
            Token::Close | Token::Value(Literal::Quoted(_)) => FilterCause::Joint,
            Token::Value(Literal::Word(word)) => {
                if is_signs(word) {
                    FilterCause::JointAfterSigns
                } else {
                    FilterCause::Joint
                }
            }
        }
    }
}

/// A token with its offset in the text.
#[derive(Clone, Copy)]
pub(crate) struct Spot<'a> {
    /// The offset of its first byte.
    pub(crate) at: usize,
    /// The offset behind its last.
    pub(crate) end: usize,
    pub(crate) token: Token<'a>,
}

/// A token, and how many bytes behind its first it takes.
#[derive(Clone, Copy)]
pub(crate) struct ReadToken<'a> {
    token: Token<'a>,
    more: usize,
}

fn is_quote(byte: u8) -> bool
    ensures { result ≡ spec_quote byte }
{
    byte == b'"' || byte == b'\''
}

fn is_word_byte(byte: u8) -> bool
    ensures { result ≡ spec_word_byte byte }
{
    let is_parenthesis = byte == b'(' || byte == b')';
    let is_joint = byte == b'&' || byte == b'|';
    !(is_blank(byte) || ((is_parenthesis || is_joint) || is_quote(byte)))
}

/// Whether operators other than `&` have this byte.
pub fn is_sign(byte: u8) -> bool
    ensures { result ≡ spec_sign byte }
{
    matches!(byte, b'=' | b'!' | b'<' | b'>' | b'~')
}

fn is_signs(word: &[u8]) -> bool
    ensures { result ≡ list_all spec_sign word.now }
{
    word.iter().all(|byte| is_sign(*byte))
}

/// How many bytes of a bare word a text begins with.
fn word_len(text: &[u8]) -> usize
    ensures value { result ≡ prefix_len spec_word_byte text.now }
    ensures bound { result ≤ length text.now }
{
    text.iter().take_while(|byte| is_word_byte(**byte)).count()
}

/// How many bytes at a text's front may stand in a name.
fn name_len(text: &[u8]) -> usize
    ensures value { result ≡ prefix_len spec_name_byte text.now }
    ensures bound { result ≤ length text.now }
{
    text.iter().take_while(|byte| is_name_byte(**byte)).count()
}

/// Whether a text begins with a byte.
fn begins_with(byte: u8, text: &[u8]) -> bool
    ensures { result ≡ spec_begins_with byte text.now }
{
    match text {
        [] => false,
        [first, ..] => *first == byte,
    }
}

fn quoted_piece(quote: u8, rest: &[u8]) -> ReadToken<'_>
    ensures { IsPiece (spec_quoted_piece quote rest.now) result rest.now }
{
    let size = len_before(quote, rest);
    if size < rest.len() {
        ReadToken {
            token: Token::Value(Literal::Quoted(&rest[..size])),
            more: size + 1,
        }
    } else {
        ReadToken {
            token: Token::Illegible,
            more: 0,
        }
    }
}

fn word_piece<'a>(bytes: &'a [u8], first: u8, rest: &'a [u8]) -> ReadToken<'a>
    requires { bytes.now ≡ first ∷ rest.now }
    ensures { IsPiece (spec_word_piece first rest.now) result rest.now }
{
    let more = word_len(rest);
    ReadToken {
        token: Token::Value(Literal::Word(&bytes[..1 + more])),
        more,
    }
}

fn name_piece<'a>(bytes: &'a [u8], first: u8, rest: &'a [u8]) -> ReadToken<'a>
    requires { bytes.now ≡ first ∷ rest.now }
    ensures { IsPiece (spec_name_piece first rest.now) result rest.now }
{
    let more = name_len(rest);
    ReadToken {
        token: name_token(&bytes[..1 + more]),
        more,
    }
}

/// A run of bytes that may stand in a name, as a token.
fn name_token(run: &[u8]) -> Token<'_>
    ensures { token_of result ≡ (if spec_is_name run.now then Name run.now else Illegible) }
{
    if is_name(run) {
        Token::Name(run)
    } else {
        Token::Illegible
    }
}

/// One of two tokens: the longer, where the byte follows.
fn longest<'a>(byte: u8, rest: &[u8], long: Token<'a>, short: Token<'a>) -> ReadToken<'a>
    ensures { IsPiece (spec_longest byte rest.now (token_of long.entry) (token_of short.entry)) result rest.now }
{
    if begins_with(byte, rest) {
        ReadToken {
            token: long,
            more: 1,
        }
    } else {
        ReadToken {
            token: short,
            more: 0,
        }
    }
}

/// A token of one byte.
fn single(token: Token<'_>) -> ReadToken<'_>
    ensures token { token_of result.token ≡ token_of token.entry }
    ensures more { result.more ≡ 0 }
{
    ReadToken { token, more: 0 }
}

fn symbol_piece(first: u8, rest: &[u8]) -> ReadToken<'static>
    ensures { IsPiece (spec_symbol_piece first rest.now) result rest.now }
{
    match first {
        b'(' => single(Token::Open),
        b')' => single(Token::Close),
        b'!' => longest(b'=', rest, Token::Compare(Comparison::Ne), Token::Bang),
        b'&' => longest(
            b'&',
            rest,
            Token::AndAnd,
            Token::Compare(Comparison::BitAnd),
        ),
        b'<' => longest(
            b'=',
            rest,
            Token::Compare(Comparison::Le),
            Token::Compare(Comparison::Lt),
        ),
        b'=' => longest(b'=', rest, Token::Compare(Comparison::Eq), Token::Illegible),
        b'>' => longest(
            b'=',
            rest,
            Token::Compare(Comparison::Ge),
            Token::Compare(Comparison::Gt),
        ),
        b'|' => longest(b'|', rest, Token::OrOr, Token::Illegible),
        b'~' => single(Token::Compare(Comparison::Glob)),
        _ => single(Token::Illegible),
    }
}

/// The token that begins with a byte.
#[tactic(auto, unfolding(crate::specs::Tokens::piece_of))]
fn first_piece<'a>(value_due: bool, bytes: &'a [u8], first: u8, rest: &'a [u8]) -> ReadToken<'a>
    requires { bytes.now ≡ first ∷ rest.now }
    ensures { IsPiece (piece_of value_due first rest.now) result rest.now }
{
    if value_due {
        if is_quote(first) {
            quoted_piece(first, rest)
        } else if is_word_byte(first) {
            word_piece(bytes, first, rest)
        } else {
            symbol_piece(first, rest)
        }
    } else if is_name_byte(first) {
        name_piece(bytes, first, rest)
    } else {
        symbol_piece(first, rest)
    }
}

/// The first token from an offset on.
pub(crate) fn next_token(text: &[u8], from: usize, value_due: bool) -> Option<Spot<'_>>
    requires { from ≤ length text.now }
    ensures none { IfNone result (spots_from value_due 0 from (drop from text.now) ≡ []) }
    ensures some { IfSome result (IsNextToken text.now from value_due) }
{
    let at = from + blanks_len(rest_of(text, from));
    let bytes = rest_of(text, at);
    let (first, rest) = bytes.split_first()?;
    let piece = first_piece(value_due, bytes, *first, rest);
    Some(Spot {
        at,
        end: at + 1 + piece.more,
        token: piece.token,
    })
}
