//! The words and redirections of a line.

ghost use Rattle.std.specs.Prelude.{◌≡◌, ◌≢◌, ℕ, List, ◌<◌, ◌≤◌, ◌∷◌, [], false, IfOk, IfErr, OnOk, length, Some, None, Ok, Err};
ghost use Rattle.std.specs.List.{list_any, prefix_len};
ghost use Rattle.trace_script.specs.Tokens.{Arrow, InWord, behind, is_end, is_quote, tokens_from, tokens_of};
ghost use Rattle.trace_script.specs.private.Words.{is_plain, begins_with_quote, begins_with_arrow, BeginsToken, BeginsWord, state_in, IsWordAnd, IsUnclosed};
ghost use Rattle.trace_script.specs.Grammar.{IsWritten};
ghost use Rattle.trace_script.specs.declared.token.Token.{Token as TokenValue};
ghost use Rattle.trace_script.specs.declared.token.Token.TheVariants.{Redirect as IsRedirect};
ghost use Rattle.trace_script.specs.Outcomes.{Gives, or_fault};
ghost use Rattle.trace_script.specs.declared.fault.ScriptFault.TheVariants.{UnclosedQuote};

use trace_command::Bytes;
use trace_lex::{blanks_len, is_blank};

/// What a line is cut into. The bytes of words lie elsewhere.
#[derive(Drop)]
pub(crate) enum Token<'a> {
    /// A word, without the quotes in it.
    Word(Bytes<'a>),
    /// `>`, or to append `>>`, outside quotes.
    Redirect { append: bool },
}

/// A byte at which a word ends.
pub(crate) fn is_end(byte: u8) -> bool
    ensures { result ≡ is_end byte }
{
    is_blank(byte) || byte == b'>'
}

/// A quote of either kind.
pub(crate) fn is_quote(byte: u8) -> bool
    ensures { result ≡ is_quote byte }
{
    byte == b'\'' || byte == b'"'
}

/// A byte that a word has as it is.
fn is_plain(byte: u8) -> bool
    ensures { result ≡ is_plain byte }
{
    !(is_end(byte) || is_quote(byte))
}

/// How many bytes a string begins with that a word has as they are.
fn plain_len(text: &[u8]) -> usize
    ensures value { result ≡ prefix_len is_plain text.now }
    ensures bound { result ≤ length text.now }
{
    text.iter().take_while(|byte| is_plain(**byte)).count()
}

/// Whether a string begins with a quote.
pub(crate) fn begins_with_quote(text: &[u8]) -> bool
    ensures { result ≡ begins_with_quote text.now }
{
    match text {
        [first, ..] => is_quote(*first),
        [] => false,
    }
}

/// Whether a string begins with a `>`.
pub(crate) fn begins_with_arrow(text: &[u8]) -> bool
    ensures { result ≡ begins_with_arrow text.now }
{
    match text {
        [first, ..] => *first == b'>',
        [] => false,
    }
}

/// What is left of a line after the blanks at its front.
#[tactic(auto, using(crate::proofs::TakingLemmas::unquoted_drop))]
pub(crate) fn without_blanks(line: &[u8]) -> &[u8]
    ensures unquoted { list_any is_quote line.now ≡ false → list_any is_quote result.now ≡ false }
    ensures tokens { tokens_of result.now ≡ tokens_of line.now }
    ensures first { result.now ≢ [] → BeginsToken result.now }
    ensures shorter { length result.now ≤ length line.now }
{
    let (_, rest) = line.split_at(blanks_len(line));
    rest
}

/// The bytes at the front of a line that a word has as they are, and what follows them. Where no quote follows they are the word.
#[tactic(auto, using(crate::proofs::WordLemmas::plain_takes, crate::proofs::TakingLemmas::unquoted_drop))]
pub(crate) fn plain_part(line: &[u8]) -> (&[u8], &[u8])
    requires { BeginsWord line.now }
    ensures word { begins_with_quote result.1.now ≡ false → IsWordAnd line.now result.0.now result.1.now }
    ensures shorter { begins_with_quote result.1.now ≡ false → length result.1.now < length line.now }
    ensures unquoted { list_any is_quote line.now ≡ false → list_any is_quote result.1.now ≡ false }
{
    line.split_at(plain_len(line))
}

/// Whether the redirection that a `>` begins appends, and what follows it.
#[tactic(auto, using(crate::proofs::WordLemmas::arrow_len, crate::proofs::WordLemmas::arrows, crate::proofs::WordLemmas::single_arrow, crate::proofs::TakingLemmas::unquoted_drop))]
pub(crate) fn redirection(after: &[u8]) -> (bool, &[u8])
    ensures token { tokens_from Arrow [] after.now ≡ behind (IsRedirect result.0 ∷ []) (tokens_of result.1.now) }
    ensures shorter { length result.1.now ≤ length after.now }
    ensures unquoted { list_any is_quote after.now ≡ false → list_any is_quote result.1.now ≡ false }
{
    if begins_with_arrow(after) {
        let (_, rest) = after.split_at(1);
        return (true, rest);
    }
    (false, after)
}

/// The grammar of a line: it has tokens exactly where it can be written of blanks, redirections, and words of plain bytes and
/// quoted parts, and then they are those that its parts stand for. So a line has one reading at most.
pub fn tokens_are_as_written()
    ensures written { (line : List ℕ) (tokens : List TokenValue) → tokens_of line ≡ Some tokens → IsWritten line tokens }
    ensures read { (line : List ℕ) (tokens : List TokenValue) → IsWritten line tokens → tokens_of line ≡ Some tokens }
{}
