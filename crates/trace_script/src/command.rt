//! The commands of a script, read from the words and redirections of a line.

ghost use Rattle.std.specs.Prelude.{◌≡◌, List, Ok, ◌==◌, ◌++◌, ◌∷◌, [], OnOk, position, codes};
ghost use Rattle.std.specs.Option.{option_map};
ghost use Rattle.std.specs.Str.{bytes_eq};
ghost use Rattle.trace_command.specs.Commands.{Command as CommandValue};
ghost use Rattle.trace_script.specs.declared.token.Token.{Token as TokenValue};
ghost use Rattle.trace_script.specs.Outcomes.{Gives, or_fault};
ghost use Rattle.trace_script.specs.Commands.{IsWriteOf};
ghost use Rattle.trace_script.specs.Lines.{pair_of, pairs_of, emission_with, emission_of, only_word, redirected_to, write_behind, write_of, read_of, take_of, mkdir_of, rmdir_of, named_command};
ghost use Rattle.trace_script.specs.declared.fault.ScriptFault.TheVariants.{WrongWords};

use crate::fault::{LineError, ScriptFault};
use crate::number::{cpu_number, process_id};
use crate::token::Token;
use crate::tokens::Tokens;
use std::alloc::AllocError;
use trace_command::{Bytes, Command};
use trace_format::BorrowedPair;
use trace_lex::decimal_number;

/// Where a word has its first `=`.
fn first_equals(word: &[u8]) -> Option<usize>
    ensures { result ≡ position (λ b. b == 61) word.now }
{
    word.iter().position(|byte| *byte == b'=')
}

/// The pair that a word writes: its first `=` separates the name from the value.
fn pair(word: &[u8]) -> Option<BorrowedPair<'_>>
    ensures { result ≡ pair_of word.now }
{
    let Some(at) = first_equals(word) else {
        return None;
    };
    let (name, value) = word.split_at(at);
    let (_, value) = value.split_at(1);
    Some(BorrowedPair::new(name, value))
}

/// The pairs that the tokens write, each of them a word. They are left in the list.
#[tactic(auto, using(crate::proofs::CommandLemmas::pairs_append, crate::proofs::TakenCommands::pair_taken, crate::proofs::TakenCommands::pairs_done, crate::proofs::TakenCommands::pairs_redirected, crate::proofs::TakenCommands::no_pair))]
fn take_pairs<'a>(
    tokens: &mut Tokens<'a>,
    pairs: &mut Vec<BorrowedPair<'a>>,
) -> Result<(), LineError>
    ensures { Gives (λ none. pairs.new.items) result (or_fault WrongWords (pairs_of tokens.old)) }
{
    pairs.clear();
    while let Some(token) = tokens.next() {
        let Token::Word(word) = token else {
            return Err(LineError::Fault(ScriptFault::WrongWords));
        };
        let Some(pair) = pair(word.as_bytes()) else {
            return Err(LineError::Fault(ScriptFault::WrongWords));
        };
        pairs.push(pair)?;
    }
    Ok(())
}

/// The emission of these words and pairs.
fn emission_with<'a>(
    cpu: &[u8],
    pid: &[u8],
    event: &'a [u8],
    pairs: &'a [BorrowedPair<'a>],
) -> Result<Command<'a>, LineError>
    ensures { Gives (λ command. command) result (emission_with cpu.now pid.now event.entry.now pairs.entry.now) }
{
    let (Some(cpu), Some(pid)) = (cpu_number(cpu), process_id(pid)) else {
        return Err(LineError::Fault(ScriptFault::BadNumber));
    };
    Ok(Command::emit(event, cpu, pid, pairs))
}

/// `emit CPU PID EVENT FIELD=VALUE ..`
#[tactic(auto, using(crate::proofs::TakenCommands::no_cpu, crate::proofs::TakenCommands::no_process, crate::proofs::TakenCommands::no_event, crate::proofs::TakenCommands::no_pairs_after, crate::proofs::TakenCommands::bad_pairs))]
pub(crate) fn emission<'a, 'p>(
    tokens: &mut Tokens<'a>,
    pairs: &'p mut Vec<BorrowedPair<'a>>,
) -> Result<Command<'p>, LineError>
    ensures { Gives (λ command. command) result (emission_of tokens.old) }
{
    let Some(cpu) = tokens.next_word() else {
        return Err(LineError::Fault(ScriptFault::WrongWords));
    };
    let Some(pid) = tokens.next_word() else {
        return Err(LineError::Fault(ScriptFault::WrongWords));
    };
    let Some(event) = tokens.next_word() else {
        return Err(LineError::Fault(ScriptFault::WrongWords));
    };
    if tokens.is_empty() {
        return Err(LineError::Fault(ScriptFault::WrongWords));
    }
    take_pairs(tokens, pairs)?;
    emission_with(cpu, pid, event, pairs.as_slice())
}

/// The one word that the tokens are.
#[tactic(auto, using(crate::proofs::TakenCommands::no_only_word, crate::proofs::TakenCommands::more_than_word, crate::proofs::TakenCommands::just_word))]
fn only_word<'a>(tokens: &mut Tokens<'a>) -> Result<&'a [u8], LineError>
    ensures { Gives (λ word. word.now) result (only_word tokens.old) }
{
    match tokens.next_word() {
        Some(word) if tokens.is_empty() => Ok(word),
        _ => Err(LineError::Fault(ScriptFault::WrongWords)),
    }
}

/// The write of a string to the path that follows a redirection.
fn redirected<'a>(
    append: bool,
    text: &'a [u8],
    tokens: &mut Tokens<'a>,
) -> Result<Command<'a>, LineError>
    ensures { Gives (λ command. command) result (redirected_to append text.entry.now tokens.old) }
{
    let path = only_word(tokens)?;
    Ok(Command::Write {
        path: Bytes::new(path),
        append,
        text: Bytes::new(text),
    })
}

/// Appends a word to those before it, after a space.
fn append_word(text: &mut Vec<u8>, word: &[u8]) -> Result<(), AllocError>
    ensures { OnOk result (text.new.items ≡ text.old.items ++ 32 ∷ word.now) }
{
    text.push(b' ')?;
    text.extend_from_slice(word)
}

/// What an `echo` of two words and perhaps more writes, which is put into the text.
fn write_joined<'a>(
    first: &[u8],
    second: &[u8],
    tokens: &mut Tokens<'a>,
    text: &'a mut Vec<u8>,
) -> Result<Command<'a>, LineError>
    ensures { Gives (λ command. command) result (write_behind (first.now ∷ second.now ∷ []) tokens.old) }
{
    text.clear();
    text.extend_from_slice(first)?;
    append_word(text, second)?;
    while let Some(token) = tokens.next() {
        match token {
            Token::Word(word) => append_word(text, word.as_bytes())?,
            Token::Redirect { append } => return redirected(append, text.as_slice(), tokens),
        }
    }
    Err(LineError::Fault(ScriptFault::WrongWords))
}

/// An `echo` of one word or more, the first of which was taken. One word is written as it lies.
fn write_word<'a>(
    word: &'a [u8],
    tokens: &mut Tokens<'a>,
    text: &'a mut Vec<u8>,
) -> Result<Command<'a>, LineError>
    ensures { Gives (λ command. command) result (write_behind (word.entry.now ∷ []) tokens.old) }
{
    match tokens.next() {
        Some(Token::Word(second)) => write_joined(word, second.as_bytes(), tokens, text),
        Some(Token::Redirect { append }) => redirected(append, word, tokens),
        None => Err(LineError::Fault(ScriptFault::WrongWords)),
    }
}

/// An `echo`, with `>` or `>>` before its path: what is written is the words with a space between each two.
#[tactic(auto, unfolding(crate::specs::Lines::write_of))]
fn write<'a>(tokens: &mut Tokens<'a>, text: &'a mut Vec<u8>) -> Result<Command<'a>, LineError>
    ensures { Gives (λ command. command) result (write_of tokens.old) }
{
    match tokens.next() {
        Some(Token::Word(word)) => write_word(word.as_bytes(), tokens, text),
        Some(Token::Redirect { append }) => redirected(append, &[], tokens),
        None => Err(LineError::Fault(ScriptFault::WrongWords)),
    }
}

/// `cat PATH`
#[tactic(auto, unfolding(crate::specs::Lines::read_of))]
fn read<'a>(tokens: &mut Tokens<'a>) -> Result<Command<'a>, LineError>
    ensures { Gives (λ command. command) result (read_of tokens.old) }
{
    Ok(Command::read(only_word(tokens)?))
}

/// `take N PATH`: a read of at most N records.
#[tactic(auto, unfolding(crate::specs::Lines::take_of))]
fn take<'a>(tokens: &mut Tokens<'a>) -> Result<Command<'a>, LineError>
    ensures { Gives (λ command. command) result (take_of tokens.old) }
{
    let Some(count) = tokens.next_word() else {
        return Err(LineError::Fault(ScriptFault::WrongWords));
    };
    let path = only_word(tokens)?;
    let Some(limit) = decimal_number(count, u64::MAX) else {
        return Err(LineError::Fault(ScriptFault::BadNumber));
    };
    Ok(Command::take(path, limit))
}

/// `mkdir PATH`
#[tactic(auto, unfolding(crate::specs::Lines::mkdir_of))]
fn mkdir<'a>(tokens: &mut Tokens<'a>) -> Result<Command<'a>, LineError>
    ensures { Gives (λ command. command) result (mkdir_of tokens.old) }
{
    Ok(Command::mkdir(only_word(tokens)?))
}

/// `rmdir PATH`
#[tactic(auto, unfolding(crate::specs::Lines::rmdir_of))]
fn rmdir<'a>(tokens: &mut Tokens<'a>) -> Result<Command<'a>, LineError>
    ensures { Gives (λ command. command) result (rmdir_of tokens.old) }
{
    Ok(Command::rmdir(only_word(tokens)?))
}

/// Whether a name is `emit`. Most names are, and a pattern is tested without a call.
pub(crate) fn is_emit(name: &[u8]) -> bool
    ensures { result ≡ bytes_eq name.now (codes "emit") }
{
    matches!(name, b"emit")
}

/// The command of this name, with the tokens that follow it. Its pairs are left in the list, and in the text the words that an `echo` joins.
#[tactic(auto, unfolding(crate::specs::Lines::named_command))]
pub(crate) fn command<'a, 'p>(
    name: &[u8],
    tokens: &mut Tokens<'a>,
    text: &'a mut Vec<u8>,
    pairs: &'p mut Vec<BorrowedPair<'a>>,
) -> Result<Command<'p>, LineError>
    ensures { Gives (λ command. command) result (named_command name.now tokens.old) }
{
    if is_emit(name) {
        return emission(tokens, pairs);
    }
    if name == b"echo".as_slice() {
        return write(tokens, text);
    }
    if name == b"cat".as_slice() {
        return read(tokens);
    }
    if name == b"take".as_slice() {
        return take(tokens);
    }
    if name == b"mkdir".as_slice() {
        return mkdir(tokens);
    }
    if name == b"rmdir".as_slice() {
        return rmdir(tokens);
    }
    Err(LineError::Fault(ScriptFault::UnknownCommand))
}

/// What `echo` writes: the words before its redirection, joined by one space, to the path after it; and it writes nothing else.
pub fn writes_are_as_written()
    ensures written { (tokens : List Token) (command : CommandValue) → write_of tokens ≡ Ok command → IsWriteOf tokens command }
    ensures read { (tokens : List Token) (command : CommandValue) → IsWriteOf tokens command → write_of tokens ≡ Ok command }
{}
