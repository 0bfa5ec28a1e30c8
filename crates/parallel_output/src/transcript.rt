//! What the threads of a part print, put together thread by thread.

ghost use Rattle.std.specs.Prelude.{◌≡◌, ◌≢◌, ◌||◌, ◌++◌, ◌∷◌, [], All, false, is_err, length, Err, IfOk, OnOk};
ghost use Rattle.std.specs.List.{list_any};
ghost use Rattle.trace_command.specs.declared.refusal.Refusal.TheVariants.{Worn};
ghost use Rattle.parallel_output.specs.ThreadLines.{outcome_of, thread_line};
ghost use Rattle.parallel_output.specs.ThreadTexts.{numbered_text, numbered_outcomes, outcome_at, told_if};
ghost use Rattle.trace_script.specs.Rendering.{rendered};

use crate::outcome_at::OutcomeAt;
use std::alloc::{AllocError, Global};
use trace_command::{Refusal, Reply};
use trace_script::{Outcome, render};

/// The outcome of a command with this reply. `Worn` counts as out of memory.
fn replied(reply: Result<Reply, Refusal>) -> Result<Outcome, AllocError>
    ensures outcome { IfOk result (λ outcome. outcome ≡ outcome_of reply) }
    ensures unworn { OnOk result (reply ≢ Err Worn) }
{
    match reply {
        Ok(reply) => Ok(Outcome::Replied(reply)),
        Err(refusal) if matches!(refusal, Refusal::Worn) => Err(AllocError),
        Err(refusal) => Ok(Outcome::Refused(refusal)),
    }
}

/// Appends the line of a thread.
fn add_line(alloc: Global, thread: usize, text: &mut Vec<u8>) -> Result<(), AllocError>
    ensures { OnOk result (text.new.items ≡ text.old.items ++ thread_line thread) }
{
    let line = format!(in alloc; "-- thread {thread}\n")?;
    text.extend_from_slice(line.as_bytes())
}

/// Appends the output of this outcome of the line with this number.
fn add_outcome(
    alloc: Global,
    number: usize,
    outcome: &Outcome,
    text: &mut Vec<u8>,
) -> Result<(), AllocError>
    ensures { OnOk result (text.new.items ≡ text.old.items ++ rendered number outcome.now) }
{
    match outcome {
        Outcome::Replied(Reply::Text(reply)) => text.extend_from_slice(reply.as_bytes()),
        outcome => {
            let line = render(alloc, number, outcome)?;
            text.extend_from_slice(&line)
        }
    }
}

/// Appends an outcome, if somebody is told.
fn add_told(is_told: bool, one: OutcomeAt, outcomes: &mut Vec<OutcomeAt>) -> Result<(), AllocError>
    ensures { OnOk result (outcomes.new.items ≡ outcomes.old.items ++ told_if is_told (one ∷ [])) }
{
    if !is_told {
        return Ok(());
    }
    Ok(outcomes.push(one)?)
}

/// An empty list with room for the outcomes of all these commands, if somebody is told: a list that grows holds its elements twice while they are
/// moved.
fn outcomes_for(
    alloc: Global,
    numbers: &[Vec<usize>],
    is_told: bool,
) -> Result<Vec<OutcomeAt>, AllocError>
    ensures { IfOk result (λ outcomes. outcomes.items ≡ []) }
{
    if !is_told {
        return Ok(Vec::new(alloc));
    }
    let mut count: usize = 0;
    for own in numbers {
        count = count.saturating_add(own.len());
    }
    Vec::with_capacity(alloc, count)
}

/// What the first threads of a part print, whether any of their commands was refused, and, if somebody is told, the outcome of each command.
#[derive(Drop)]
pub struct Transcript {
    pub text: Vec<u8>,
    pub is_refused: bool,
    pub outcomes: Vec<OutcomeAt>,
}

impl Transcript {
    /// Of no thread yet, with room for the outcomes of all commands of the part if somebody is told. They are in the lines with these numbers.
    pub fn new(
        alloc: Global,
        numbers: &[Vec<usize>],
        is_told: bool,
    ) -> Result<Transcript, AllocError>
        ensures text { IfOk result (λ transcript. transcript.text.items ≡ []) }
        ensures refused { IfOk result (λ transcript. transcript.is_refused ≡ false) }
        ensures outcomes { IfOk result (λ transcript. transcript.outcomes.items ≡ []) }
    {
        let outcomes = outcomes_for(alloc, numbers, is_told)?;
        Ok(Transcript {
            text: Vec::new(alloc),
            is_refused: false,
            outcomes,
        })
    }

    /// Appends the output and the outcome of the command in the line with this number.
    fn add_reply(
        &mut self,
        alloc: Global,
        number: usize,
        reply: Result<Reply, Refusal>,
        is_told: bool,
    ) -> Result<(), AllocError>
        ensures text { OnOk result (self.new.text.items ≡ self.old.text.items ++ rendered number (outcome_of reply)) }
        ensures refused { OnOk result (self.new.is_refused ≡ (self.old.is_refused || is_err reply)) }
        ensures outcomes { OnOk result (self.new.outcomes.items ≡ self.old.outcomes.items ++ told_if is_told (outcome_at number reply ∷ [])) }
        ensures unworn { OnOk result (reply ≢ Err Worn) }
    {
        self.is_refused |= reply.is_err();
        let outcome = replied(reply)?;
        add_outcome(alloc, number, &outcome, &mut self.text)?;
        add_told(is_told, OutcomeAt { number, outcome }, &mut self.outcomes)
    }

    /// Appends the output and the outcomes of a thread's commands, which are in the lines with these numbers.
    fn add_replies(
        &mut self,
        alloc: Global,
        numbers: &[usize],
        replies: Vec<Result<Reply, Refusal>>,
        is_told: bool,
    ) -> Result<(), AllocError>
        requires { length numbers.now ≡ length replies.items }
        ensures text { OnOk result (self.new.text.items ≡ self.old.text.items ++ numbered_text numbers.now replies.items) }
        ensures refused { OnOk result (self.new.is_refused ≡ (self.old.is_refused || list_any is_err replies.items)) }
        ensures outcomes { OnOk result (self.new.outcomes.items
            ≡ self.old.outcomes.items ++ told_if is_told (numbered_outcomes numbers.now replies.items)) }
        ensures unworn { OnOk result (All (λ reply. reply ≢ Err Worn) replies.items) }
    {
        let mut i = 0;
        for reply in replies {
            self.add_reply(alloc, numbers[i], reply, is_told)?;
            i += 1;
        }
        Ok(())
    }

    /// With a thread's line at the end, and the output and the outcomes of its commands, which are in the lines with these numbers. `Worn` counts as
    /// out of memory. An error leaves no transcript.
    pub fn with_thread(
        mut self,
        alloc: Global,
        thread: usize,
        numbers: &[usize],
        replies: Vec<Result<Reply, Refusal>>,
        is_told: bool,
    ) -> Result<Transcript, AllocError>
        requires { length numbers.now ≡ length replies.items }
        ensures text { IfOk result (λ more. more.text.items
            ≡ self.text.items ++ (thread_line thread ++ numbered_text numbers.now replies.items)) }
        ensures refused { IfOk result (λ more. more.is_refused ≡ (self.is_refused || list_any is_err replies.items)) }
        ensures outcomes { IfOk result (λ more. more.outcomes.items
            ≡ self.outcomes.items ++ told_if is_told (numbered_outcomes numbers.now replies.items)) }
        ensures unworn { OnOk result (All (λ reply. reply ≢ Err Worn) replies.items) }
    {
        add_line(alloc, thread, &mut self.text)?;
        self.add_replies(alloc, numbers, replies, is_told)?;
        Ok(self)
    }
}
