//! A part: its threads run concurrently, and their output is assembled.

ghost use Rattle.std.specs.Prelude.{◌≡◌, ◌≤◌, List, true, vec_len, IfOk, OnOk, IsErrOf};
ghost use Rattle.ticket_lock.specs.Calls.{view_of, IsOf};
ghost use Rattle.trace_command.specs.declared.command.Config.{Config};
ghost use Rattle.script_reader.specs.PartReads.{commands_in};
ghost use Rattle.trace_session.specs.Gated.{commands_asked};
ghost use Rattle.trace_session.specs.Parts.{Given, PartMayGive};
ghost use Rattle.parallel_output.specs.ThreadTexts.{told_if};
ghost use Rattle.trace_session.specs.PartTexts.{AreOutcomesOf};
ghost use Rattle.trace_session.specs.Passes.{IsSessionPass, progress_of};
ghost use Rattle.trace_session.specs.Sessions.{status_of};
ghost use Rattle.parallel_output.specs.declared.outcome_at.OutcomeAt.{OutcomeAt};
ghost use Rattle.trace_workers.specs.Gates.{LetsAllPass, StopsOne};

use crate::environment::Environment;
use crate::part_split::split_threads;
use crate::part_text::{PartOutput, write_threads};
use script_reader::Stop;
use script_reader::part_line::PartLine;
use shared_book::SharedBook;
use std::sync::Wait;
use std::thread::Threads;
use ticket_lock::Pass;
use trace_workers::{BlockFault, Gate, run_block_of};

/// Runs the threads of a part concurrently, and returns the output and, if somebody is told, each command's outcome.
///
/// `Memory` if it was refused, if a thread could not be started, or if all tickets are drawn, which no script can reach. After a fault nothing is to
/// be written for the part, though some of its commands may have been done: the pass has seen them.
pub fn run_part<B: SharedBook + Send, R: Threads + Wait + Sync, G: Gate + Sync>(
    env: &Environment<'_, B, R, G>,
    pass: Pass<B>,
    threads: Vec<Vec<PartLine<'_>>>,
    is_told: bool,
) -> (Pass<B>, Result<PartOutput, Stop>)
    requires of { IsOf env.now.lock.now pass }
    requires session { (g : Config) × IsSessionPass g (view_of pass) }
    requires few { vec_len threads ≤ 8 }
    ensures of { IsOf env.now.lock.now result.0 }
    ensures session { (g : Config) → IsSessionPass g (view_of pass) → IsSessionPass g (view_of result.0) }
    ensures given { IfOk result.1 (λ written. (g : Config) → IsSessionPass g (view_of pass)
        → (given : Given) × PartMayGive g (commands_in threads.entry.items) (progress_of (view_of pass)) (progress_of (view_of result.0)) given
        × (given.text ≡ written.text.items) × (written.status ≡ status_of given.outcomes)
        × (told : List OutcomeAt) × AreOutcomesOf (commands_in threads.entry.items) given.outcomes told
        × (written.outcomes.items ≡ told_if is_told told)) }
    ensures gate { OnOk result.1 (LetsAllPass (G.may_answer env.now.gate.now) (commands_asked (commands_in threads.entry.items))) }
    ensures stopped { IsErrOf result.1 Stop.Stopped
        → StopsOne (G.may_answer env.now.gate.now) (commands_asked (commands_in threads.entry.items)) }
    ensures open { G.is_open env.now.gate.now ≡ true → IsErrOf result.1 Stop.Stopped → ⊥ }
    ensures device { IsErrOf result.1 Stop.Device → ⊥ }
{
    let Ok((numbers, lines)) = split_threads(env.alloc, threads) else {
        return (pass, Err(Stop::Memory));
    };
    let (pass, replied) = run_block_of(env.rt, env.alloc, env.lock, env.gate, pass, lines);
    let done = match replied {
        Ok(done) => done,
        Err(BlockFault::Stopped) => return (pass, Err(Stop::Stopped)),
        Err(BlockFault::Memory | BlockFault::NoThread) => return (pass, Err(Stop::Memory)),
    };
    match write_threads(env.alloc, &numbers, done, is_told) {
        Ok(written) => (pass, Ok(written)),
        Err(stop) => (pass, Err(stop)),
    }
}
