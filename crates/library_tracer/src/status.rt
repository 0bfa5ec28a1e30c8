//! Outcomes as numbers, what of them is text, and what is wrong with a call in words.

ghost use Rattle.std.specs.Prelude.{◌≡◌, [], Option, None, Some, IfOk};
ghost use Rattle.trace_command.specs.declared.command.Reply.TheVariants as replies;
ghost use Rattle.trace_command.specs.declared.refusal.Refusal.TheVariants as refusals;
ghost use Rattle.trace_script.specs.declared.outcome.Outcome.TheVariants as outcomes;
ghost use Rattle.mount_replies.specs.Calls.{answer_of};
ghost use Rattle.library_tracer.specs.AskedWords.{words_asked};
ghost use Rattle.library_tracer.specs.Consoles.{outcome_of};
ghost use Rattle.library_tracer.specs.Inner.{words_in};
ghost use Rattle.library_tracer.specs.Sentences.{answer_words, explanation_in, words_of};
ghost use Rattle.library_tracer.specs.Statuses.{fault_number, offset_in, reply_in, status_of};

use crate::last::Last;
use refusal_explanations::{command_words, injection_words, sentence};
use shared_mount::Asked;
use std::alloc::{AllocError, Global};
use std::mem;
use trace_command::{Refusal, Reply};
use trace_script::{Outcome, ScriptFault};

/// The status of a line's first fault is above this number.
const FAULTS: u8 = 100;

/// The number of a script fault, from 1 to 8, in the order in which faults are looked for.
fn fault_number(fault: ScriptFault) -> u8
    ensures { result ≡ fault_number fault }
{
    match fault {
        ScriptFault::LineTooLong => 1,
        ScriptFault::BadByte => 2,
        ScriptFault::UnclosedQuote => 3,
        ScriptFault::UnknownCommand => 4,
        ScriptFault::WrongWords => 5,
        ScriptFault::BadNumber => 6,
        ScriptFault::BlockOutOfPlace => 7,
        ScriptFault::TooManyThreads => 8,
    }
}

/// The status of an outcome: 0 if it was done, a refusal's number from 1 to 24, and for a fault 101 to 108.
pub(crate) fn status_of(outcome: &Outcome) -> u8
    ensures { result ≡ status_of outcome.now }
{
    match outcome {
        Outcome::Replied(_) => 0,
        Outcome::Refused(refusal) => refusal.number(),
        Outcome::Fault(fault) => FAULTS + fault_number(*fault),
    }
}

/// What is wrong with what was asked and refused so.
fn asked_words(asked: Asked<'_>, refusal: &Refusal) -> &'static str
    ensures { result.now ≡ words_asked asked.entry refusal.now }
{
    match asked {
        Asked::Command(command) => command_words(command, refusal),
        Asked::Values(_) => injection_words(Some(refusal)),
    }
}

/// Keeps the answer of a call, that it was done or what stands in the place for answers, and tells its status.
#[inline(always)]
pub(crate) fn keep(
    last: &mut Last,
    asked: Asked<'_>,
    is_done: bool,
    answer: &mut Result<Reply, Refusal>,
) -> u8
    ensures kept { last.new.outcome ≡ outcome_of (answer_of is_done answer.old) }
    ensures words { words_in last.new ≡ answer_words (words_asked asked.entry) (answer_of is_done answer.old) }
    ensures status { result ≡ status_of last.new.outcome }
{
    if is_done {
        return keep_done(last);
    }
    keep_other(last, asked, answer)
}

/// Keeps an answer, which is taken out of its place. (It is moved here and not where calls that are done pass.)
#[inline(never)]
fn keep_other(last: &mut Last, asked: Asked<'_>, answer: &mut Result<Reply, Refusal>) -> u8
    ensures kept { last.new.outcome ≡ outcome_of answer.old }
    ensures words { words_in last.new ≡ answer_words (words_asked asked.entry) answer.old }
    ensures status { result ≡ status_of last.new.outcome }
{
    keep_answer(last, asked, mem::replace(answer, Ok(Reply::Done)))
}

/// Keeps that nothing is answered any more.
#[cold]
#[inline(never)]
pub(crate) fn keep_worn(last: &mut Last, asked: Asked<'_>) -> u8
    ensures kept { last.new.outcome ≡ outcomes.Refused refusals.Worn }
    ensures words { words_in last.new ≡ words_asked asked.entry refusals.Worn }
    ensures status { result ≡ status_of last.new.outcome }
{
    keep_answer(last, asked, Err(Refusal::Worn))
}

/// Keeps an answer to what was asked, and tells its status.
fn keep_answer(last: &mut Last, asked: Asked<'_>, answer: Result<Reply, Refusal>) -> u8
    ensures kept { last.new.outcome ≡ outcome_of answer }
    ensures words { words_in last.new ≡ answer_words (words_asked asked.entry) answer }
    ensures status { result ≡ status_of last.new.outcome }
{
    match answer {
        Ok(reply) => tell(last, Outcome::Replied(reply), ""),
        Err(refusal) => {
            let words = asked_words(asked, &refusal);
            tell(last, Outcome::Refused(refusal), words)
        }
    }
}

/// Keeps that a call was done. After another such call, as most are, there is nothing to write.
#[inline(always)]
#[tactic(auto, using(crate::proofs::WordLemmas::no_words))]
fn keep_done(last: &mut Last) -> u8
    ensures kept { last.new.outcome ≡ outcomes.Replied replies.Done }
    ensures words { words_in last.new ≡ [] }
    ensures status { result ≡ 0 }
{
    if !matches!(last.outcome, Outcome::Replied(Reply::Done)) {
        let _status = tell(last, Outcome::Replied(Reply::Done), "");
    }
    0
}

/// Keeps what a call came to, with these words, and tells its status.
pub(crate) fn tell(last: &mut Last, outcome: Outcome, words: &'static str) -> u8
    ensures kept { last.new.outcome ≡ outcome }
    ensures words { words_in last.new ≡ words_of outcome words.now }
    ensures status { result ≡ status_of outcome }
{
    *last = Last { outcome, words };
    status_of(&last.outcome)
}

/// The sentence of a call with this outcome, and these words. There is none of one that was done.
pub(crate) fn explanation_in(
    alloc: Global,
    outcome: &Outcome,
    words: &'static str,
) -> Result<Vec<u8>, AllocError>
    ensures { IfOk result (λ text. text.items ≡ explanation_in outcome.now (words_of outcome.now words.now)) }
{
    match outcome {
        Outcome::Replied(_) => Ok(Vec::new(alloc)),
        Outcome::Refused(refusal) => sentence(alloc, refusal, words),
        Outcome::Fault(_) => Vec::from_slice(alloc, words.as_bytes()),
    }
}

/// The bytes that an outcome has: what was read, or the name of the field whose value is wrong. Other outcomes have none.
pub(crate) fn reply_in(outcome: &Outcome) -> &[u8]
    ensures { result.now ≡ reply_in outcome.now }
{
    match outcome {
        Outcome::Replied(Reply::Text(text)) => text.as_bytes(),
        Outcome::Refused(Refusal::BadRow { row }) => row.get().field.as_bytes(),
        _ => &[],
    }
}

/// Where the string that was written is wrong, as how many bytes stand before that, if the refusal tells it.
pub(crate) fn offset_in(outcome: &Outcome) -> Option<usize>
    ensures { result ≡ offset_in outcome.now }
{
    match outcome {
        Outcome::Refused(
            Refusal::BadDefinition { at, .. }
            | Refusal::FilterSyntax { at, .. }
            | Refusal::NoSuchField { at }
            | Refusal::WrongOperator { at, .. }
            | Refusal::HistSyntax { at, .. },
        ) => Some(*at),
        _ => None,
    }
}
