//! Outcomes of lines and parts, written and told to a writer that hears.

ghost use Rattle.std.specs.Prelude.{◌≡◌, ◌≢◌, ◌≤◌, ◌↔◌, ℕ, List, [], ◌∷◌, ◌++◌, map, IfOk, IsSome, OnOk, OnErr, IsErrOf};
ghost use Rattle.ticket_lock.specs.declared.views.View.{View};
ghost use Rattle.trace_command.specs.declared.command.Entry.{Entry};
ghost use Rattle.script_reader.specs.ScriptLines.{lines_of};
ghost use Rattle.script_reader.specs.Sources.{HasRisen};
ghost use Rattle.trace_session.specs.Devices.{AppendsFront, Passes};
ghost use Rattle.trace_session.specs.Heard.{Hears, IsWrittenFirst, heard_of};
ghost use Rattle.trace_session.specs.private.HeardItems.{AreInOrder, IsLeft, heard_each, left_at};
ghost use Rattle.trace_session.specs.Passes.{IsSessionPass, progress_of};
ghost use Rattle.trace_session.specs.private.AnswersTold.{IsTurnOf};
ghost use Rattle.trace_session.specs.private.LineRuns.{IsLineGiven, IsLineRun, outlet};
ghost use Rattle.trace_session.specs.Sessions.{Progress, text_of, status_of};

use crate::device::Sink;
use crate::line::outcome_of;
use crate::output::write_outcome;
use crate::part_text::PartOutput;
use crate::replies::Replies;
use crate::status::Status;
use parallel_output::OutcomeAt;
use script_reader::{LinesFrom, Stop};
use std::alloc::Global;
use trace_command::{Refusal, Reply};
use trace_script::Outcome;

/// The status of a single line.
fn line_status(outcome: &Option<Outcome>) -> Status
    ensures { result ≡ status_of (outcome.now ∷ []) }
{
    match outcome {
        Some(Outcome::Fault(_)) => Status::Fault,
        Some(Outcome::Refused(_)) => Status::Refused,
        Some(Outcome::Replied(_)) | None => Status::Done,
    }
}

/// Flushes before the writer is told of a refusal or a fault, so that its report follows that line's output; before any outcome, if it wants the
/// output first.
fn write_before<W: Sink>(status: Status, waiting: &mut Replies, writer: &mut W) -> Result<(), Stop>
    ensures written { OnOk result (Passes (W.contents writer.old) waiting.old (W.contents writer.new) waiting.new []) }
    ensures all { OnOk result (IsWrittenFirst W.wants_first status → waiting.new ≡ []) }
    ensures failures { OnOk result (W.failures writer.new ≡ W.failures writer.old) }
    ensures memory { IsErrOf result Stop.Memory → ⊥ }
    ensures stopped { IsErrOf result Stop.Stopped → ⊥ }
    ensures failed { OnErr result (HasRisen (W.failures writer.old) (W.failures writer.new)
        × AppendsFront (W.contents writer.old) (W.contents writer.new) waiting.old) }
    ensures heard { W.heard writer.new ≡ W.heard writer.old }
{
    match status {
        Status::Done if !writer.wants_output_first() => Ok(()),
        _ => waiting.flush(writer),
    }
}

/// Tells a writer that hears the outcome of the line with this number; before a refusal or a fault, all output is written.
fn tell<W: Sink>(
    number: usize,
    line: &[u8],
    outcome: &Option<Outcome>,
    replies: &mut Replies,
    writer: &mut W,
) -> Result<(), Stop>
    ensures written { OnOk result (Passes (W.contents writer.old) replies.old (W.contents writer.new) replies.new []) }
    ensures failures { OnOk result (W.failures writer.new ≡ W.failures writer.old) }
    ensures memory { IsErrOf result Stop.Memory → ⊥ }
    ensures stopped { IsErrOf result Stop.Stopped → ⊥ }
    ensures failed { OnErr result (HasRisen (W.failures writer.old) (W.failures writer.new)
        × AppendsFront (W.contents writer.old) (W.contents writer.new) replies.old) }
    ensures heard { OnOk result (Hears (W.heard writer.old) (W.heard writer.new)
        (heard_of number line.now outcome.now (W.contents writer.new) ∷ [])) }
    ensures all { OnOk result (IsSome (W.heard writer.old) → IsWrittenFirst W.wants_first (status_of (outcome.now ∷ [])) → replies.new ≡ []) }
    ensures unheard { OnErr result (W.heard writer.new ≡ W.heard writer.old) }
{
    if !writer.hears() {
        return Ok(());
    }
    write_before(line_status(outcome), replies, writer)?;
    writer.hear(number, line, outcome);
    Ok(())
}

/// Appends the output of the line with this number to the replies, tells its outcome, and returns the line's own status. A writer that hears has
/// heard of this line and its outcome, and of a refusal or a fault once all output was written. It is kept out of line, so that emissions that are
/// done don't take its room.
#[inline(never)]
pub(crate) fn give<W: Sink>(
    alloc: Global,
    number: usize,
    line: &[u8],
    outcome: &Option<Outcome>,
    replies: &mut Replies,
    writer: &mut W,
) -> Result<Status, Stop>
    ensures { IsLineGiven W.wants_first number line.now outcome.now
        (outlet (W.contents writer.old) (W.failures writer.old) (W.heard writer.old) replies.old)
        (outlet (W.contents writer.new) (W.failures writer.new) (W.heard writer.new) replies.new) result }
{
    write_outcome(alloc, number, outcome, replies, writer)?;
    tell(number, line, outcome, replies, writer)?;
    Ok(line_status(outcome))
}

/// Gives the outcome of a line whose command got this answer, as `give` does, or tells why the session stops. It is kept out of line, so that emissions
/// that are done don't take the room of the outcome.
#[inline(never)]
#[tactic(auto, using(crate::proofs::Stepping::no_fault, crate::proofs::EmissionTurns::told_faultless))]
pub(crate) fn give_answer<W: Sink>(
    alloc: Global,
    number: usize,
    line: &[u8],
    answer: Result<Reply, Refusal>,
    replies: &mut Replies,
    writer: &mut W,
) -> Result<Status, Stop>
    ensures run { (view : View Entry) (after : Progress) → IsTurnOf view line.now answer after
        → IsLineRun W.wants_first number line.now (λ g. IsSessionPass g view) (progress_of view) after
        (outlet (W.contents writer.old) (W.failures writer.old) (W.heard writer.old) replies.old)
        (outlet (W.contents writer.new) (W.failures writer.new) (W.heard writer.new) replies.new) result }
    ensures faultless { IfOk result (λ status. status ≢ Status.Fault) }
{
    match outcome_of(answer) {
        Ok(outcome) => give(alloc, number, line, &outcome, replies, writer),
        Err(stop) => Err(stop),
    }
}

/// Tells a writer the outcome of the command in the line with this number, which is one of these lines.
fn hear_line<W: Sink>(lines: &mut LinesFrom<'_>, number: usize, outcome: Outcome, writer: &mut W)
    requires { (line : List ℕ) × IsLeft lines.old number line }
    ensures later { (later : ℕ) (line : List ℕ) → number ≤ later
        → IsLeft lines.old later line ↔ IsLeft lines.new later line }
    ensures bytes { W.contents writer.new ≡ W.contents writer.old }
    ensures failures { W.failures writer.new ≡ W.failures writer.old }
    ensures heard { Hears (W.heard writer.old) (W.heard writer.new)
        (heard_of number (left_at lines.old number) (Some outcome) (W.contents writer.old) ∷ []) }
{
    let Some(line) = lines.find(number) else {
        unreachable!()
    };
    writer.hear(number, line, &Some(outcome));
}

/// Tells a writer the outcome of each of these commands, with its line. The first line of the string has this number.
fn hear_each<W: Sink>(first: usize, text: &[u8], outcomes: Vec<OutcomeAt>, writer: &mut W)
    requires { AreInOrder first first (lines_of text.now) (map (λ one. one.number) outcomes.items) }
    ensures bytes { W.contents writer.new ≡ W.contents writer.old }
    ensures failures { W.failures writer.new ≡ W.failures writer.old }
    ensures heard { Hears (W.heard writer.old) (W.heard writer.new)
        (heard_each first (lines_of text.now) (W.contents writer.old) outcomes.items) }
{
    let mut lines = LinesFrom::new(first, text);
    for OutcomeAt { number, outcome } in outcomes {
        hear_line(&mut lines, number, outcome, writer);
    }
}

/// Tells a writer that hears the outcome of each command of a part. The string begins with the part's first line, which has this number. If a command
/// was refused, or the writer wants the output first, all output is written before.
fn tell_part<W: Sink>(
    number: usize,
    text: &[u8],
    status: Status,
    outcomes: Vec<OutcomeAt>,
    waiting: &mut Replies,
    writer: &mut W,
) -> Result<(), Stop>
    requires { AreInOrder number number (lines_of text.now) (map (λ one. one.number) outcomes.items) }
    ensures written { OnOk result (Passes (W.contents writer.old) waiting.old (W.contents writer.new) waiting.new []) }
    ensures failures { OnOk result (W.failures writer.new ≡ W.failures writer.old) }
    ensures memory { IsErrOf result Stop.Memory → ⊥ }
    ensures stopped { IsErrOf result Stop.Stopped → ⊥ }
    ensures failed { OnErr result (HasRisen (W.failures writer.old) (W.failures writer.new)
        × AppendsFront (W.contents writer.old) (W.contents writer.new) waiting.old) }
    ensures heard { OnOk result (Hears (W.heard writer.old) (W.heard writer.new)
        (heard_each number (lines_of text.now) (W.contents writer.new) outcomes.items)) }
    ensures all { OnOk result (IsSome (W.heard writer.old) → IsWrittenFirst W.wants_first status → waiting.new ≡ []) }
    ensures unheard { OnErr result (W.heard writer.new ≡ W.heard writer.old) }
{
    if !writer.hears() {
        return Ok(());
    }
    write_before(status, waiting, writer)?;
    hear_each(number, text, outcomes, writer);
    Ok(())
}

/// Appends the output of a part to the replies, tells the outcomes, and returns the part's own status. The string begins with the part's first line,
/// which has this number. A writer that hears has heard of each command of the part with its line, and if one was refused, once all output was
/// written.
pub(crate) fn give_part<W: Sink>(
    number: usize,
    text: &[u8],
    given: PartOutput,
    replies: &mut Replies,
    writer: &mut W,
) -> Result<Status, Stop>
    requires { AreInOrder number number (lines_of text.now) (map (λ one. one.number) given.outcomes.items) }
    ensures status { IfOk result (λ status. status ≡ given.status) }
    ensures written { OnOk result (Passes (W.contents writer.old) replies.old (W.contents writer.new) replies.new given.text.items) }
    ensures failures { OnOk result (W.failures writer.new ≡ W.failures writer.old) }
    ensures memory { IsErrOf result Stop.Memory → ⊥ }
    ensures stopped { IsErrOf result Stop.Stopped → ⊥ }
    ensures device { IsErrOf result Stop.Device → HasRisen (W.failures writer.old) (W.failures writer.new)
        × AppendsFront (W.contents writer.old) (W.contents writer.new) (replies.old ++ given.text.items) }
    ensures heard { OnOk result (Hears (W.heard writer.old) (W.heard writer.new)
        (heard_each number (lines_of text.now) (W.contents writer.new) given.outcomes.items)) }
    ensures all { OnOk result (IsSome (W.heard writer.old) → IsWrittenFirst W.wants_first given.status → replies.new ≡ []) }
    ensures unheard { OnErr result (W.heard writer.new ≡ W.heard writer.old) }
{
    let PartOutput {
        text: written,
        status,
        outcomes,
    } = given;
    replies.add(writer, &written)?;
    tell_part(number, text, status, outcomes, replies, writer)?;
    Ok(status)
}
