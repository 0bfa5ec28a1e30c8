//! A single line, run through the lock.

ghost use Rattle.std.specs.Prelude.{◌≡◌, ◌≢◌, ◌⊎◌, ℕ, List, Option, false, Ok, Err, IfOk, IfErr, OnErr, IsErrOf};
ghost use Rattle.ticket_lock.specs.Calls.{view_of, IsOf, IsWorn};
ghost use Rattle.trace_command.specs.Commands.{Command as CommandValue};
ghost use Rattle.trace_command.specs.declared.command.Config.{Config};
ghost use Rattle.trace_command.specs.declared.refusal.Refusal.TheVariants as refusal;
ghost use Rattle.tracer_specification.specs.History.{answer_to};
ghost use Rattle.trace_script.specs.Lines.{line_of};
ghost use Rattle.trace_session.specs.Passes.{IsSessionPass, IsRefusedEarly, progress_of};
ghost use Rattle.trace_session.specs.private.AnswersTold.{IsTold};
ghost use Rattle.trace_session.specs.Sessions.{Progress, answered, is_fault, turn_of};

use script_reader::Stop;
use shared_book::SharedBook;
use std::sync::Wait;
use ticket_lock::{Pass, TicketLock};
use trace_command::{Command, Refusal, Reply};
use trace_script::{Line, Outcome, ScriptFault};
use trace_workers::ask;

/// The outcome of a line that is no command. Out of line, so that commands don't pay for what the other lines drop.
#[inline(never)]
#[tactic(auto, unfolding(crate::specs::Sessions::turn_of))]
pub(crate) fn unasked(said: Result<Line<'_>, ScriptFault>) -> Option<Outcome>
    ensures { (g : Config) (before : Progress) (text : List ℕ) → ((command : CommandValue) → said.entry ≢ Ok (Line.Ask command)) → said.entry ≡ line_of text
        → turn_of g before text ≡ record { outcome = result; progress = before } }
{
    match said {
        Ok(Line::Blank | Line::Ask(_)) => None,
        Ok(Line::Parallel | Line::Thread | Line::End) => {
            Some(Outcome::Fault(ScriptFault::BlockOutOfPlace))
        }
        Err(fault) => Some(Outcome::Fault(fault)),
    }
}

/// The outcome of a line whose command was answered so, or why the session stops. It is kept out of line, so that emissions that are done don't pay
/// for moving their answer.
#[inline(never)]
pub(crate) fn outcome_of(answer: Result<Reply, Refusal>) -> Result<Option<Outcome>, Stop>
    ensures told { IfOk result (λ outcome. IsTold answer outcome) }
    ensures stop { IfErr result (λ stop. stop ≡ Stop.Memory) }
    ensures memory { OnErr result ((answer ≡ Err refusal.Memory) ⊎ (answer ≡ Err refusal.Worn)) }
{
    match answer {
        Ok(reply) => Ok(Some(Outcome::Replied(reply))),
        Err(refusal) if matches!(refusal, Refusal::Worn | Refusal::Memory) => Err(Stop::Memory),
        Err(refusal) => Ok(Some(Outcome::Refused(refusal))),
    }
}

/// Runs the command of a line: its answer, of which `outcome_of` tells the line's outcome. Its ticket is the number of commands before it, refused ones
/// included. If all tickets are drawn, which no script can reach, the session stops as if out of memory. A refusal found before anything is allocated is
/// the answer even if memory is refused. It is inlined, so that its answer is not moved.
#[inline(always)]
#[tactic(auto, using(crate::proofs::EarlyRefusals::memory_is_late, crate::proofs::EarlyRefusals::all_drawn))]
pub(crate) fn ask_command<B: SharedBook, R: Wait>(
    rt: &R,
    lock: &TicketLock<B>,
    pass: Pass<B>,
    command: &Command<'_>,
) -> (Pass<B>, Result<Reply, Refusal>)
    requires { IsOf lock.now pass }
    ensures of { IsOf lock.now result.0 }
    ensures session { (g : Config) → IsSessionPass g (view_of pass) → IsSessionPass g (view_of result.0) }
    ensures turn { (outcome : Option Outcome) → IsTold result.1 outcome → (g : Config) (text : List ℕ) → IsSessionPass g (view_of pass)
        → line_of text ≡ Ok (Line.Ask command.now)
        → turn_of g (progress_of (view_of pass)) text
        ≡ record { outcome = outcome; progress = progress_of (view_of result.0) } }
    ensures early { IfErr result.1 (λ told. (told ≡ refusal.Memory) ⊎ (told ≡ refusal.Worn) → (g : Config)
        → IsSessionPass g (view_of pass) → IsRefusedEarly g (view_of pass) command.now
        → IsWorn (view_of pass) (view_of result.0)) }
{
    ask(rt, lock, pass, command)
}
