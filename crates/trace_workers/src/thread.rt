//! The thread of one part.

ghost use Rattle.std.specs.Prelude.{◌≡◌, ◌≢◌, ◌+◌, ◌<◌, ◌≤◌, [], map, vec_len, vec_capacity, Some, IfOk, IfErr, true};
ghost use Rattle.ticket_lock.specs.Calls.{view_of, IsOf};
ghost use Rattle.trace_workers.specs.PartRuns.{HasAsked, IsGated};
ghost use Rattle.trace_workers.specs.declared.fault.BlockFault.TheVariants.{Stopped};

use crate::asked::Asked;
use crate::environment::Environment;
use crate::fault::BlockFault;
use crate::gate::Gate;
use crate::part::Part;
use crate::worker::{Worker, ask_part};
use shared_book::SharedBook;
use std::alloc::Global;
use std::snapshot::Snapshot;
use std::sync::Wait;
use std::sync::atomic::{AtomicBool, Ordering};
use std::thread::Promise;
use ticket_lock::{Pass, TicketLock};
use trace_command::{Refusal, Reply};

/// What a part's thread returns: the pass, the replies so far, and why it stopped early, if it did.
#[derive(Drop)]
pub struct Returned<B: SharedBook> {
    pub pass: Pass<B>,
    pub part: Part,
    pub fault: Option<BlockFault>,
}

/// A thread's arguments, as its contract names them. Takes no memory.
pub struct Given<B: SharedBook, G, C> {
    pub lock: Snapshot<TicketLock<B>>,
    pub pass: Snapshot<Pass<B>>,
    pub commands: Snapshot<Vec<C>>,
    pub thread: Snapshot<u32>,
    pub gate: Snapshot<G>,
}

impl<B: SharedBook, G, C> Drop for Given<B, G, C> {
    fn drop(self) {
        let Given {
            lock: _,
            pass: _,
            commands: _,
            thread: _,
            gate: _,
        } = self;
    }
}

impl<B: SharedBook, G: Gate, C: Asked> Promise<Returned<B>> for Given<B, G, C> {
    ghost kept_by = { λ given result. IsOf given.lock.value result.pass
        × (result.part.by ≡ (view_of given.pass.value).low)
        × HasAsked (view_of given.pass.value) (view_of result.pass) (map C.command given.commands.value.items) result.part.replies.items result.fault
        × (G.is_open given.gate.value ≡ true → result.fault ≢ Some Stopped)
        × IsGated (G.may_answer given.gate.value given.thread.value) (map C.command given.commands.value.items) result.part.replies.items result.fault };
}

// Room for the replies to so many commands, unless the block has failed to start a thread.
fn room_for(
    alloc: Global,
    commands: usize,
    missed: &AtomicBool,
) -> Result<Vec<Result<Reply, Refusal>>, BlockFault>
    ensures room { IfOk result (λ replies. (replies.items ≡ []) × (vec_len replies + commands ≤ vec_capacity replies)) }
    ensures fault { IfErr result (λ fault. fault ≢ Stopped) }
{
    if missed.load(Ordering::SeqCst) {
        return Err(BlockFault::NoThread);
    }
    match Vec::with_capacity(alloc, commands) {
        Ok(replies) => Ok(replies),
        Err(_) => Err(BlockFault::Memory),
    }
}

/// Runs the commands of a part. If the block has failed to start a thread, it runs none and returns the pass, so that no names are lost.
pub fn run_part<B: SharedBook, R: Wait, G: Gate, C: Asked + Drop>(
    env: &Environment<'_, B, R, G>,
    pass: Pass<B>,
    commands: Vec<C>,
    thread: u32,
) -> Returned<B>
    requires of { IsOf env.now.lock.now pass }
    requires named { (view_of pass).low < (view_of pass).end }
    ensures of { IsOf env.now.lock.now result.pass }
    ensures by { result.part.by ≡ (view_of pass).low }
    ensures asked { HasAsked (view_of pass) (view_of result.pass) (map C.command commands.items) result.part.replies.items result.fault }
    ensures open { G.is_open env.now.gate.now ≡ true → result.fault ≢ Some Stopped }
    ensures gate { IsGated (G.may_answer env.now.gate.now thread) (map C.command commands.items) result.part.replies.items result.fault }
{
    let by = pass.names().start;
    match room_for(env.alloc, commands.len(), env.missed) {
        Ok(replies) => {
            let worker = Worker { pass, replies };
            let (Worker { pass, replies }, fault) = ask_part(env, worker, commands, thread);
            Returned {
                pass,
                part: Part { by, replies },
                fault,
            }
        }
        Err(fault) => {
            let replies = Vec::new(env.alloc);
            Returned {
                pass,
                part: Part { by, replies },
                fault: Some(fault),
            }
        }
    }
}
