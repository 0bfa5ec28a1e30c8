//! A line in which quotes are, cut into its words and redirections.

ghost use Rattle.std.specs.Prelude.{◌≡◌, ℕ, List, ◌<◌, ◌∷◌, ◌++◌, [], IfOk, IfErr, OnOk, length, None, false};
ghost use Rattle.trace_script.specs.Tokens.{InWord, behind, is_end, tokens_from, tokens_of};
ghost use Rattle.trace_script.specs.private.Words.{BeginsToken, BeginsWord, state_in, IsWordAnd, IsUnclosed};
ghost use Rattle.trace_script.specs.declared.token.Token.{Token as TokenValue};
ghost use Rattle.trace_script.specs.declared.token.Token.TheVariants.{Word as IsWord};
ghost use Rattle.trace_script.specs.Outcomes.{Gives, or_fault};
ghost use Rattle.trace_script.specs.declared.fault.ScriptFault.TheVariants.{UnclosedQuote};

use crate::fault::{LineError, ScriptFault};
use crate::token::{
    begins_with_arrow, begins_with_quote, is_end, is_quote, plain_part, redirection, without_blanks,
};
use crate::tokens::{TokenList, empty};
use std::alloc::{AllocError, Global};

/// Room for the words of a line that don't lie in it as they are: those in which quotes are, and those that `echo` joins. Who reads lines keeps it from
/// line to line; what a long line took is given back at the next.
pub struct LineRoom {
    /// The tokens of a line in which quotes are.
    pub(crate) list: TokenList,
    /// A word in which quotes are, as it is read, and then the words that are joined.
    pub(crate) text: Vec<u8>,
    alloc: Global,
}

impl Drop for LineRoom {
    // Not derived, so that no crate above proves the drops of its parts.
    fn drop(self) {
        let LineRoom {
            list: _,
            text: _,
            alloc: _,
        } = self;
    }
}

impl LineRoom {
    /// Nothing is allocated before it is used.
    pub fn new(alloc: Global) -> LineRoom {
        LineRoom {
            list: TokenList::new(alloc),
            text: Vec::new(alloc),
            alloc,
        }
    }

    /// Takes all out. What a long line took is given back.
    pub(crate) fn clear(&mut self) {
        self.list.clear(self.alloc);
        empty(&mut self.text, self.alloc);
    }
}

/// Takes the next byte of a word, outside quotes or in a part within these. Outside quotes it doesn't end the word.
fn step(byte: u8, within: &mut Option<u8>, word: &mut Vec<u8>) -> Result<(), AllocError>
    requires { within.old ≡ None → is_end byte ≡ false }
    ensures { OnOk result ((bytes : List ℕ) →
        tokens_from (state_in within.new) word.new.items bytes ≡ tokens_from (state_in within.old) word.old.items (byte ∷ bytes)) }
{
    match *within {
        None if is_quote(byte) => *within = Some(byte),
        None => word.push(byte)?,
        Some(quote) if byte == quote => *within = None,
        Some(_) => word.push(byte)?,
    }
    Ok(())
}

/// Reads the word in which quotes are at the front of a line, and gives what follows it.
fn quoted_word<'l>(word: &mut Vec<u8>, line: &'l [u8]) -> Result<&'l [u8], LineError>
    requires { BeginsWord line.now }
    ensures word { IfOk result (λ rest. IsWordAnd line.now word.new.items rest.now) }
    ensures shorter { IfOk result (λ rest. length rest.now < length line.now) }
    ensures err { IfErr result (λ error. IsUnclosed error (tokens_from InWord [] line.now)) }
{
    word.clear();
    let mut within = None;
    for (index, byte) in line.iter().enumerate() {
        if within.is_none() && is_end(*byte) {
            let (_, rest) = line.split_at(index);
            return Ok(rest);
        }
        step(*byte, &mut within, word)?;
    }
    match within {
        None => Ok(&[]),
        Some(_) => Err(LineError::Fault(ScriptFault::UnclosedQuote)),
    }
}

/// Puts the word at the front of a line into the list, and gives what follows it.
fn list_word<'l>(room: &mut LineRoom, line: &'l [u8]) -> Result<&'l [u8], LineError>
    requires { BeginsWord line.now }
    ensures word { IfOk result (λ rest. (word : List ℕ) × IsWordAnd line.now word rest.now
        × (room.new.list ≡ room.old.list ++ IsWord word ∷ [])) }
    ensures shorter { IfOk result (λ rest. length rest.now < length line.now) }
    ensures err { IfErr result (λ error. IsUnclosed error (tokens_from InWord [] line.now)) }
{
    let (part, rest) = plain_part(line);
    if !begins_with_quote(rest) {
        room.list.push_word(part)?;
        return Ok(rest);
    }
    let rest = quoted_word(&mut room.text, line)?;
    room.list.push_word(&room.text)?;
    Ok(rest)
}

/// Puts the first token of a line that begins with one into the list, and gives what follows it.
#[tactic(auto, using(crate::proofs::WordLemmas::arrow_len, crate::proofs::WordLemmas::arrow_at, crate::proofs::WordLemmas::arrow_or_word, crate::proofs::WordLemmas::word_at))]
fn list_token<'l>(room: &mut LineRoom, line: &'l [u8]) -> Result<&'l [u8], LineError>
    requires { BeginsToken line.now }
    ensures token { IfOk result (λ rest. (token : TokenValue) × (tokens_of line.now ≡ behind (token ∷ []) (tokens_of rest.now))
        × (room.new.list ≡ room.old.list ++ token ∷ [])) }
    ensures shorter { IfOk result (λ rest. length rest.now < length line.now) }
    ensures err { IfErr result (λ error. IsUnclosed error (tokens_of line.now)) }
{
    if !begins_with_arrow(line) {
        return list_word(room, line);
    }
    let (_, after) = line.split_at(1);
    let (append, rest) = redirection(after);
    room.list.push_redirect(append)?;
    Ok(rest)
}

/// Cuts a line into its words and redirections, which are left in the list. A quote that is not closed is a fault.
pub(crate) fn cut(room: &mut LineRoom, line: &[u8]) -> Result<(), LineError>
    ensures { Gives (λ none. room.new.list) result (or_fault UnclosedQuote (tokens_of line.now)) }
{
    room.list.clear(room.alloc);
    let mut rest = without_blanks(line);
    while !rest.is_empty() {
        let after = list_token(room, rest)?;
        rest = without_blanks(after);
    }
    Ok(())
}
