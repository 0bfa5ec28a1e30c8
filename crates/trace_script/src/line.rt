//! A line of a script, read as what it asks for.

ghost use Rattle.std.specs.Prelude.{◌≡◌, ℕ, List, Ok, IsTrue, false};
ghost use Rattle.std.specs.List.{list_any};
ghost use Rattle.trace_script.specs.Commands.{AsksFor, IsAskedBy};
ghost use Rattle.trace_script.specs.Faults.{HasFault};
ghost use Rattle.trace_script.specs.Outcomes.{Gives};
ghost use Rattle.trace_script.specs.private.TokensLeft.{asked_after};
ghost use Rattle.trace_script.specs.private.Words.{begins_as_end, is_block_word, block_line};
ghost use Rattle.trace_script.specs.Tokens.{is_quote, tokens_of};
ghost use Rattle.trace_script.specs.declared.fault.ScriptFault.{ScriptFault as FaultValue};
ghost use Rattle.trace_script.specs.Lines.{named_line, asked_of, says_nothing, spoken, line_of};
ghost use Rattle.trace_script.specs.declared.token.Token.{Token as TokenValue};
ghost use Rattle.trace_script.specs.declared.line.Line.{Line as LineValue};
ghost use Rattle.trace_script.specs.declared.line.Line.TheVariants.{End};

use crate::bytes::{OTHER, QUOTE, highest_rank};
use crate::command::command;
use crate::cut::{LineRoom, cut};
use crate::emission::plain_emission;
use crate::fault::{LineError, ScriptFault};
use crate::token::{Token, is_quote, without_blanks};
use crate::tokens::Tokens;
use trace_command::Command;
use trace_format::BorrowedPair;
use trace_lex::is_blank;

/// The most bytes that a line may have.
pub(crate) const MOST_BYTES: usize = 4096;

/// What a line of a script asks for.
#[derive(Drop)]
pub enum Line<'a> {
    /// Nothing: the line is empty, blank or a comment.
    Blank,
    /// This command. Its strings and pairs lie elsewhere.
    Ask(Command<'a>),
    /// `parallel`: a part begins whose threads run side by side.
    Parallel,
    /// `thread`: the commands of the part's next thread begin.
    Thread,
    /// `end`: the part ends.
    End,
}

/// Whether a name is that of a line of a parallel part.
fn is_block_word(name: &[u8]) -> bool
    ensures { result ≡ is_block_word name.now }
{
    name == b"parallel".as_slice() || name == b"thread".as_slice() || name == b"end".as_slice()
}

/// The line of a parallel part that has this name.
fn block_line<'a>(name: &[u8]) -> Line<'a>
    ensures { result ≡ block_line name.now }
{
    if name == b"parallel".as_slice() {
        return Line::Parallel;
    }
    if name == b"thread".as_slice() {
        return Line::Thread;
    }
    Line::End
}

/// The line of a name, with the tokens that follow it.
#[tactic(auto, using(crate::proofs::BlockLines::block_alone, crate::proofs::BlockLines::block_followed, crate::proofs::BlockLines::asks_command, crate::proofs::BlockLines::no_command))]
fn named<'a, 'p>(
    name: &[u8],
    tokens: &mut Tokens<'a>,
    text: &'a mut Vec<u8>,
    pairs: &'p mut Vec<BorrowedPair<'a>>,
) -> Result<Line<'p>, LineError>
    ensures { Gives (λ line. line) result (named_line name.now tokens.old) }
{
    if !is_block_word(name) {
        return Ok(Line::Ask(command(name, tokens, text, pairs)?));
    }
    if tokens.is_empty() {
        Ok(block_line(name))
    } else {
        Err(LineError::Fault(ScriptFault::WrongWords))
    }
}

/// What the tokens of a line ask for. The first of them names it.
#[tactic(auto, unfolding(crate::specs::Lines::asked_of))]
fn asked<'a, 'p>(
    mut tokens: Tokens<'a>,
    text: &'a mut Vec<u8>,
    pairs: &'p mut Vec<BorrowedPair<'a>>,
) -> Result<Line<'p>, LineError>
    ensures { Gives (λ line. line) result (asked_of tokens.entry) }
{
    match tokens.next() {
        Some(Token::Word(name)) => named(name.as_bytes(), &mut tokens, text, pairs),
        Some(Token::Redirect { .. }) | None => Err(LineError::Fault(ScriptFault::UnknownCommand)),
    }
}

/// Whether a line has no byte but blanks, or a `#` as its first other byte.
fn says_nothing(line: &[u8]) -> bool
    ensures { result ≡ says_nothing line.now }
{
    for byte in line {
        if !is_blank(*byte) {
            return *byte == b'#';
        }
    }
    true
}

/// What a line asks for in which quotes are.
fn quoted<'a, 'p>(
    room: &'a mut LineRoom,
    pairs: &'p mut Vec<BorrowedPair<'a>>,
    line: &[u8],
) -> Result<Line<'p>, LineError>
    ensures { Gives (λ line. line) result (asked_after (tokens_of line.now)) }
{
    cut(room, line)?;
    asked(Tokens::of_list(&room.list), &mut room.text, pairs)
}

/// What a line of lawful length and bytes asks for.
#[tactic(auto, unfolding(crate::specs::Lines::spoken))]
fn spoken<'a, 'p>(
    room: &'a mut LineRoom,
    pairs: &'p mut Vec<BorrowedPair<'a>>,
    line: &'a [u8],
    has_quotes: bool,
) -> Result<Line<'p>, LineError>
    requires { has_quotes ≡ false → list_any is_quote line.now ≡ false }
    ensures { Gives (λ line. line) result (spoken line.now) }
{
    if says_nothing(line) {
        return Ok(Line::Blank);
    }
    if has_quotes {
        return quoted(room, pairs, line);
    }
    asked(Tokens::of_line(line), &mut room.text, pairs)
}

/// What a line asks for that is no plain emission.
#[tactic(auto, using(crate::proofs::ByteLemmas::lawful, crate::proofs::ByteLemmas::not_lawful, crate::proofs::ByteLemmas::unquoted), unfolding(crate::specs::Lines::line_of))]
fn any_line<'a, 'p>(
    room: &'a mut LineRoom,
    pairs: &'p mut Vec<BorrowedPair<'a>>,
    line: &'a [u8],
) -> Result<Line<'p>, LineError>
    ensures { Gives (λ line. line) result (line_of line.now) }
{
    if line.len() > MOST_BYTES {
        return Err(LineError::Fault(ScriptFault::LineTooLong));
    }
    let rank = highest_rank(line);
    if rank >= OTHER {
        return Err(LineError::Fault(ScriptFault::BadByte));
    }
    room.clear();
    spoken(room, pairs, line, rank >= QUOTE)
}

/// What a line asks for. A fault is the first that is found, in the order of [`ScriptFault`]. The words of a command are slices of the line, or lie in
/// the room: those in which quotes are, and those that an `echo` joins. Pairs are left in the list.
pub fn prepare<'a, 'p>(
    room: &'a mut LineRoom,
    pairs: &'p mut Vec<BorrowedPair<'a>>,
    line: &'a [u8],
) -> Result<Line<'p>, LineError>
    ensures { Gives (λ line. line) result (line_of line.now) }
{
    let Some(head) = plain_emission(line, pairs)? else {
        return any_line(room, pairs, line);
    };
    let command = Command::emit(head.event, head.cpu, head.pid, pairs.as_slice());
    Ok(Line::Ask(command))
}

/// Whether a string begins with the first two bytes of `end`, or with a quote in the place of one of them.
fn begins_as_end(text: &[u8]) -> bool
    ensures { result ≡ begins_as_end text.now }
{
    match text {
        [first, second, ..] => {
            is_quote(*first) || (*first == b'e' && (is_quote(*second) || *second == b'n'))
        }
        _ => false,
    }
}

/// Whether a line may be an `end`. Its first bytes tell, so that who looks for an `end` needs to prepare few lines.
#[tactic(auto, using(crate::proofs::EndLines::end_begins))]
pub fn may_end(line: &[u8]) -> bool
    ensures { line_of line.now ≡ Ok End → IsTrue result }
{
    begins_as_end(without_blanks(line))
}

/// The grammar of commands: tokens ask for a command, or for a line of a parallel part, exactly where they are written as it is. So they
/// ask for one thing at most.
pub fn commands_are_as_written()
    ensures written { (tokens : List TokenValue) (line : LineValue) → asked_of tokens ≡ Ok line → IsAskedBy tokens line }
    ensures read { (tokens : List TokenValue) (line : LineValue) → IsAskedBy tokens line → asked_of tokens ≡ Ok line }
{}

/// The grammar of a line: it asks for something, or for nothing, exactly if it is written so. So it asks for one thing at most.
pub fn lines_are_as_written()
    ensures written { (text : List ℕ) (line : LineValue) → line_of text ≡ Ok line → AsksFor text line }
    ensures read { (text : List ℕ) (line : LineValue) → AsksFor text line → line_of text ≡ Ok line }
{}

/// The fault of a line: it is told exactly if the line has it, which no cause of an earlier fault allows. So a line has one fault at most.
pub fn faults_come_in_order()
    ensures found { (text : List ℕ) (fault : FaultValue) → line_of text ≡ Err fault → HasFault text fault }
    ensures told { (text : List ℕ) (fault : FaultValue) → HasFault text fault → line_of text ≡ Err fault }
{}
