//! The tokens of a line, taken from its front one by one.
//!
//! A line without quotes is read where it lies, and its words are parts of it. One with quotes is cut into a list first, since a quote that is
//! not closed is told before all that is wrong with the words, and since a word in which quotes are has its bytes elsewhere: those of all its words are copied.

ghost use Rattle.std.specs.Prelude.{◌≡◌, ◌↔◌, [], ◌∷◌, ◌++◌, ◌≢◌, IsTrue, MatchOption, OnOk, Some, false};
ghost use Rattle.std.specs.List.{list_any};
ghost use Rattle.trace_script.specs.Tokens.{is_quote, tokens_of};
ghost use Rattle.trace_script.specs.private.Words.{BeginsToken};
ghost use Rattle.trace_script.specs.private.TokensLeft.{begins_with_word, tokens_left};
ghost use Rattle.trace_script.specs.declared.token.Token.TheVariants.{Word as IsWord, Redirect as IsRedirect};

use crate::token::{Token, begins_with_arrow, plain_part, redirection, without_blanks};
use std::alloc::{AllocError, Global};
use std::marker::Model;
use trace_command::Bytes;

/// How much room is kept from line to line: the bytes of words, or tokens.
pub(crate) const MOST_KEPT: usize = 512;

/// Takes all out of a list. Its room is given back, if it is more than is kept.
pub(crate) fn empty<T: Copy>(list: &mut Vec<T>, alloc: Global)
    ensures { list.new.items ≡ [] }
{
    list.clear();
    if list.capacity() > MOST_KEPT {
        *list = Vec::new(alloc);
    }
}

/// A token of a list. The bytes of its words lie elsewhere, one word behind the other.
#[derive(Clone, Copy)]
enum ListedToken {
    /// A word of so many bytes.
    Word { len: usize },
    /// `>`, or to append `>>`.
    Redirect { append: bool },
}

/// Tokens in a list, which keeps its room from line to line. Contracts see them.
#[derive(Drop)]
pub(crate) struct TokenList {
    words: Vec<u8>,
    tokens: Vec<ListedToken>,
}

impl Model for TokenList {
    ghost use Rattle.std.specs.Prelude.{List};
    ghost use Rattle.trace_script.specs.declared.token.Token.{Token};

    ghost Value = { List Token };

    ghost use Rattle.trace_script.specs.private.Listed.{listed, AreWordsOf};

    ghost view = { λ list. listed list.words.items list.tokens.items };

    ghost invariant = { λ list. AreWordsOf list.words.items list.tokens.items };
}

/// Where the tokens are that were not taken yet.
#[derive(Clone, Copy)]
enum Left<'a> {
    /// In what is left of a line without quotes, before which no blank stands.
    Unread(&'a [u8]),
    /// In a list, whose words have these bytes.
    Listed {
        words: &'a [u8],
        tokens: &'a [ListedToken],
    },
}

/// The tokens of a line that were not taken yet.
#[derive(Drop)]
pub(crate) struct Tokens<'a> {
    left: Left<'a>,
}

impl<'a> Model for Tokens<'a> {
    ghost use Rattle.std.specs.Prelude.{List};
    ghost use Rattle.trace_script.specs.declared.token.Token.{Token};

    ghost Value = { List Token };

    ghost use Rattle.trace_script.specs.private.TokensIn.{tokens_in, IsReadable};

    ghost view = { λ tokens. tokens_in tokens.left };

    ghost invariant = { λ tokens. IsReadable tokens.left };
}

/// The first token of what is left of a line without quotes, and what follows it and the blanks after it.
fn first_token(line: &[u8]) -> (Token<'_>, &[u8])
    requires unquoted { list_any is_quote line.now ≡ false }
    requires begins { BeginsToken line.now }
    ensures token { tokens_left line.entry.now ≡ result.0 ∷ tokens_left result.1.now }
    ensures unquoted { list_any is_quote result.1.now ≡ false }
    ensures begins { result.1.now ≢ [] → BeginsToken result.1.now }
{
    if begins_with_arrow(line) {
        let (_, after) = line.split_at(1);
        let (append, rest) = redirection(after);
        return (Token::Redirect { append }, without_blanks(rest));
    }
    let (word, rest) = plain_part(line);
    (Token::Word(Bytes::new(word)), without_blanks(rest))
}

impl TokenList {
    /// No token.
    pub(crate) fn new(alloc: Global) -> TokenList
        ensures { result ≡ [] }
    {
        TokenList {
            words: Vec::new(alloc),
            tokens: Vec::new(alloc),
        }
    }

    /// Takes all tokens out. What room a long line took is given back.
    pub(crate) fn clear(&mut self, alloc: Global)
        ensures { self.new ≡ [] }
    {
        empty(&mut self.words, alloc);
        empty(&mut self.tokens, alloc);
    }

    /// Puts a word at the end.
    #[tactic(auto, using(crate::proofs::ListedLemmas::word_listed, crate::proofs::ListedLemmas::word_spelled))]
    pub(crate) fn push_word(&mut self, word: &[u8]) -> Result<(), AllocError>
        ensures { OnOk result (self.new ≡ self.old ++ IsWord word.now ∷ []) }
    {
        self.tokens.reserve(1)?;
        self.words.extend_from_slice(word)?;
        self.tokens
            .push_reserved(ListedToken::Word { len: word.len() });
        Ok(())
    }

    /// Puts a redirection at the end.
    #[tactic(auto, using(crate::proofs::ListedLemmas::redirect_listed, crate::proofs::ListedLemmas::redirect_spelled))]
    pub(crate) fn push_redirect(&mut self, append: bool) -> Result<(), AllocError>
        ensures { OnOk result (self.new ≡ self.old ++ IsRedirect append ∷ []) }
    {
        self.tokens.push(ListedToken::Redirect { append })?;
        Ok(())
    }
}

impl<'a> Tokens<'a> {
    /// The tokens of a line without quotes.
    #[tactic(auto, using(crate::proofs::TakingLemmas::all_left))]
    pub(crate) fn of_line(line: &'a [u8]) -> Tokens<'a>
        requires { list_any is_quote line.now ≡ false }
        ensures { tokens_of line.entry.now ≡ Some result }
    {
        Tokens {
            left: Left::Unread(without_blanks(line)),
        }
    }

    /// The tokens of a list.
    pub(crate) fn of_list(list: &'a TokenList) -> Tokens<'a>
        ensures { result ≡ list.entry.now }
    {
        Tokens {
            left: Left::Listed {
                words: &list.words,
                tokens: &list.tokens,
            },
        }
    }

    /// Whether all tokens were taken.
    #[tactic(auto, using(crate::proofs::TakingLemmas::no_token_left, crate::proofs::TakingLemmas::no_byte_left))]
    pub(crate) fn is_empty(&self) -> bool
        ensures { IsTrue result ↔ (self.now ≡ []) }
    {
        match self.left {
            Left::Unread(line) => line.is_empty(),
            Left::Listed { tokens, .. } => tokens.is_empty(),
        }
    }

    /// Takes the next token, if one is left.
    #[tactic(auto, using(crate::proofs::TakingLemmas::no_byte_left))]
    pub(crate) fn next(&mut self) -> Option<Token<'a>>
        ensures { MatchOption result (self.old ≡ []) (λ token. self.old ≡ token ∷ self.new) }
    {
        match self.left {
            Left::Unread([]) => None,
            Left::Unread(line) => {
                let (token, rest) = first_token(line);
                self.left = Left::Unread(rest);
                Some(token)
            }
            Left::Listed { tokens: [], .. } => None,
            Left::Listed {
                words,
                tokens: [ListedToken::Word { len }, tokens @ ..],
            } => {
                let (word, words) = words.split_at(*len);
                self.left = Left::Listed { words, tokens };
                Some(Token::Word(Bytes::new(word)))
            }
            Left::Listed {
                words,
                tokens: [ListedToken::Redirect { append }, tokens @ ..],
            } => {
                self.left = Left::Listed { words, tokens };
                Some(Token::Redirect { append: *append })
            }
        }
    }

    /// Takes the next token, if it is a word.
    pub(crate) fn next_word(&mut self) -> Option<&'a [u8]>
        ensures { MatchOption result (begins_with_word self.old ≡ false) (λ word. self.old ≡ IsWord word.now ∷ self.new) }
    {
        match self.next() {
            Some(Token::Word(word)) => Some(word.as_bytes()),
            Some(Token::Redirect { .. }) | None => None,
        }
    }
}
