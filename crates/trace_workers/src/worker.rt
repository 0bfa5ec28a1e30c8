//! One worker of a block: it runs the commands of its part in order.

ghost use Rattle.std.specs.Prelude.{◌≡◌, ◌≢◌, ◌<◌, ◌≤◌, ◌+◌, ◌++◌, ◌∷◌, [], map, ◌↔◌, IsTrue, Err, Some, None, List, Result, length, vec_len, vec_capacity, true};
ghost use Rattle.ticket_lock.specs.Calls.{view_of, IsOf};
ghost use Rattle.trace_workers.specs.PartRuns.{HasAsked, IsGated};
ghost use Rattle.trace_workers.specs.declared.fault.BlockFault.TheVariants.{Stopped};
ghost use Rattle.trace_command.specs.Commands.{Command};
ghost use Rattle.trace_command.specs.declared.command.Reply.{Reply};
ghost use Rattle.trace_command.specs.declared.refusal.Refusal.{Refusal};
ghost use Rattle.trace_command.specs.declared.refusal.Refusal.TheVariants.{Memory};

use crate::asked::Asked;
use crate::call::ask_in;
use crate::environment::Environment;
use crate::fault::BlockFault;
use crate::gate::{Gate, Point};
use shared_book::SharedBook;
use std::sync::Wait;
use ticket_lock::Pass;
use trace_command::{Refusal, Reply};

/// A worker between two calls: its pass, and the replies so far.
#[derive(Drop)]
pub struct Worker<B: SharedBook> {
    pub pass: Pass<B>,
    pub replies: Vec<Result<Reply, Refusal>>,
}

// Whether memory was refused to a command.
fn is_memory(answer: &Result<Reply, Refusal>) -> bool
    ensures { IsTrue result ↔ (answer.now ≡ Err Memory) }
{
    match answer {
        Err(Refusal::Memory) => true,
        _ => false,
    }
}

// Runs one command of a part. The gate is asked before and after it, never while the lock is held. Nor is it held as the command is read.
fn take_turn<B: SharedBook, R: Wait, G: Gate, C: Asked + Drop>(
    env: &Environment<'_, B, R, G>,
    worker: Worker<B>,
    command: C,
    thread: u32,
) -> (Worker<B>, Option<BlockFault>)
    requires of { IsOf env.now.lock.now worker.pass }
    requires named { (view_of worker.pass).low < (view_of worker.pass).end }
    requires room { vec_len worker.replies < vec_capacity worker.replies }
    ensures of { IsOf env.now.lock.now result.0.pass }
    ensures capacity { vec_capacity result.0.replies ≡ vec_capacity worker.replies }
    ensures len { result.1 ≡ None → vec_len result.0.replies ≡ vec_len worker.replies + 1 }
    ensures asked { (answers : List (Result Reply Refusal)) × (result.0.replies.items ≡ worker.replies.items ++ answers)
        × HasAsked (view_of worker.pass) (view_of result.0.pass) (C.command command ∷ []) answers result.1 }
    ensures open { G.is_open env.now.gate.now ≡ true → result.1 ≢ Some Stopped }
    // As many commands were run before this one as there are replies.
    ensures gate { (asked : List Command) → length asked ≡ vec_len worker.replies
        → IsGated (G.may_answer env.now.gate.now thread) asked worker.replies.items None
        → IsGated (G.may_answer env.now.gate.now thread) (asked ++ C.command command ∷ []) result.0.replies.items result.1 }
{
    let Worker { pass, mut replies } = worker;
    let call = replies.len() as u64;
    if !env.gate.arrive(thread, call, Point::Asking) {
        return (Worker { pass, replies }, Some(BlockFault::Stopped));
    }
    let (pass, answer) = ask_in(env.rt, env.alloc, env.lock, pass, command);
    let goes_on = env.gate.arrive(thread, call, Point::Answered);
    if is_memory(&answer) {
        return (Worker { pass, replies }, Some(BlockFault::Memory));
    }
    replies.push_reserved(answer);
    let fault = if goes_on {
        None
    } else {
        Some(BlockFault::Stopped)
    };
    (Worker { pass, replies }, fault)
}

/// Runs the commands of a part in order, and stops at the first fault. The replies have room reserved.
pub fn ask_part<B: SharedBook, R: Wait, G: Gate, C: Asked + Drop>(
    env: &Environment<'_, B, R, G>,
    worker: Worker<B>,
    commands: Vec<C>,
    thread: u32,
) -> (Worker<B>, Option<BlockFault>)
    requires of { IsOf env.now.lock.now worker.pass }
    requires named { (view_of worker.pass).low < (view_of worker.pass).end }
    requires empty { worker.replies.items ≡ [] }
    requires room { vec_len worker.replies + vec_len commands ≤ vec_capacity worker.replies }
    ensures of { IsOf env.now.lock.now result.0.pass }
    ensures asked { HasAsked (view_of worker.pass) (view_of result.0.pass) (map C.command commands.items) result.0.replies.items result.1 }
    ensures open { G.is_open env.now.gate.now ≡ true → result.1 ≢ Some Stopped }
    ensures gate { IsGated (G.may_answer env.now.gate.now thread) (map C.command commands.items) result.0.replies.items result.1 }
{
    let mut mine = worker;
    for command in commands {
        let (next, fault) = take_turn(env, mine, command, thread);
        mine = next;
        if let Some(fault) = fault {
            return (mine, Some(fault));
        }
    }
    (mine, None)
}
