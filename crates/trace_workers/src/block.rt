//! A block: parts that run concurrently, each on a thread of its own.
//!
//! The pass with all names is split once for each part, the last part first. The upper half goes to that part's thread, and the parts before it share
//! the lower half:
//!
//!     0 .. 65536          root
//!     0 .. 32768          | 32768 .. 65536   the last part
//!     0 .. 16384  | 16384 .. 32768           the part before
//!     0 .. 8192 | 8192 .. 16384              ...
//!
//! When a part has ended, its half is joined again with what is below it. So the pass that comes back has all names, whether or not the parts ran to
//! their ends, and it has seen what all of them did. Nobody acts under the names that are left over.

ghost use Rattle.std.specs.Prelude.{◌≡◌, ◌≢◌, ◌+◌, ◌-◌, ◌<◌, ◌≤◌, ◌^◌, [], map, length, vec_len, vec_capacity, Option, Some, None, true, IfOk, IfErr, OnErr, List};
ghost use Rattle.std.specs.List.{AllZip};
ghost use Rattle.ticket_lock.specs.Calls.{view_of, IsOf};
ghost use Rattle.ticket_lock.specs.Views.{HasAllNames};
ghost use Rattle.tracer_specification.specs.Blocks.{Trail};
ghost use Rattle.trace_workers.specs.BlockRuns.{trails_of, commands_of, Begins, IsAfterBlock};
ghost use Rattle.trace_workers.specs.Ends.{EndAs, reported};
ghost use Rattle.trace_workers.specs.Gates.{LetsAllPass, LetsBegunPass, StopsOne};
ghost use Rattle.trace_workers.specs.PartRuns.{HasRun, HasAsked, IsGated, AreWhole, SeesCallers, begun_trails};
ghost use Rattle.trace_workers.specs.declared.fault.BlockFault.{BlockFault};
ghost use Rattle.trace_workers.specs.declared.fault.BlockFault.TheVariants.{Stopped};

use crate::asked::Asked;
use crate::environment::Environment;
use crate::fault::{BlockFault, first_of};
use crate::gate::Gate;
use crate::part::Part;
use crate::thread::{Given, Returned, run_part};
use core::thread::Stack;
use shared_book::{SharedBook, join};
use std::alloc::{AllocError, Global};
use std::snapshot::Snapshot;
use std::sync::Wait;
use std::sync::atomic::{AtomicBool, Ordering};
use std::thread;
use std::thread::{Scope, Threads};
use ticket_lock::{Pass, TicketLock};
use trace_command::OwnedCommand;

/// The bytes of a thread's stack. Eight parts need 4 MiB, whatever the system's settings. In a trial a part used less than a tenth of its stack.
const STACK_BYTES: usize = 512 * 1024;

// The result of some parts: their passes joined, what each of them ran, and the fault to report.
#[derive(Drop)]
struct Ended<B: SharedBook> {
    pass: Pass<B>,
    done: Vec<Part>,
    fault: Option<BlockFault>,
}

// Runs the last part on a thread of its own under the upper half of the names, and the parts before it under the lower half. `done` has room for
// their results. If a thread can't be started, `missed` is set, and the part, called here, only returns its pass, with the fault `NoThread`.
fn run_parts<
    's,
    B: SharedBook + Send + 's,
    E,
    R: Threads + Wait + Sync,
    G: Gate + Sync,
    C: Asked + Send + Drop + 's,
>(
    scope: &Scope<'s, E>,
    env: &Environment<'s, B, R, G>,
    pass: Pass<B>,
    mut parts: Vec<Vec<C>>,
    done: Vec<Part>,
) -> Ended<B>
    requires of { IsOf env.now.lock.now pass }
    requires names { 2 ^ vec_len parts ≤ (view_of pass).end - (view_of pass).low }
    requires few { vec_len parts ≤ 8 }
    requires empty { done.items ≡ [] }
    requires room { vec_len done + vec_len parts ≤ vec_capacity done }
    ensures of { IsOf env.now.lock.now result.pass }
    ensures run { HasRun (view_of pass) (view_of result.pass) (begun_trails (commands_of C.command parts.items) result.done.items) }
    ensures length { length result.done.items ≡ length parts.items }
    ensures room { (vec_len result.done ≡ vec_len done + vec_len parts) × (vec_capacity result.done ≡ vec_capacity done) }
    ensures whole { result.fault ≡ None → AreWhole (commands_of C.command parts.items) result.done.items }
    ensures callers { SeesCallers (view_of pass) (view_of result.pass) }
    ensures open { G.is_open env.now.gate.now ≡ true → result.fault ≢ Some Stopped }
    ensures begun { LetsBegunPass (G.may_answer env.now.gate.now) (begun_trails (commands_of C.command parts.items) result.done.items) }
    ensures gate { result.fault ≡ None → LetsAllPass (G.may_answer env.now.gate.now) (commands_of C.command parts.items) }
    ensures stopped { result.fault ≡ Some Stopped → StopsOne (G.may_answer env.now.gate.now) (commands_of C.command parts.items) }
    ensures ends { (ends : List (Option BlockFault)) × (result.fault ≡ reported ends)
        × EndAs (G.may_answer env.now.gate.now) 0 (commands_of C.command parts.items) (begun_trails (commands_of C.command parts.items) result.done.items) ends }
{
    let Some(commands) = parts.pop() else {
        return Ended {
            pass,
            done,
            fault: None,
        };
    };
    let Environment {
        rt,
        alloc,
        lock,
        gate,
        missed,
    } = *env;
    let Ok((lower, upper)) = lock.split(pass) else {
        unreachable!()
    };
    let thread = parts.len() as u32;
    let given = Given {
        lock: Snapshot::of(lock),
        pass: Snapshot::of(&upper),
        commands: Snapshot::of(&commands),
        thread: Snapshot::of(&thread),
        gate: Snapshot::of(gate),
    };
    let started = Stack::new().stack_size(STACK_BYTES).spawn_scoped_with(
        scope,
        given,
        move || -> Returned<B>
            requires { IsOf lock.now upper × ((view_of upper).low < (view_of upper).end) }
            ensures { IsOf lock.entry.now result.pass × (result.part.by ≡ (view_of upper).low)
                × HasAsked (view_of upper) (view_of result.pass) (map C.command commands.items) result.part.replies.items result.fault
                × (G.is_open gate.entry.now ≡ true → result.fault ≢ Some Stopped)
                × IsGated (G.may_answer gate.entry.now thread) (map C.command commands.items) result.part.replies.items result.fault }
        {
            let env = Environment {
                rt,
                alloc,
                lock,
                gate,
                missed,
            };
            run_part(&env, upper, commands, thread)
        },
    );
    if started.is_err() {
        missed.store(true, Ordering::SeqCst);
    }
    let others = run_parts(scope, env, lower, parts, done);
    let returned = match started {
        Ok(handle) => handle.join(rt),
        Err(refused) => (refused.value)(),
    };
    let Ended {
        pass: lower,
        mut done,
        fault: before,
    } = others;
    let Returned {
        pass: upper,
        part,
        fault,
    } = returned;
    done.push_reserved(part);
    Ended {
        pass: join(lock, lower, upper),
        done,
        fault: first_of(before, fault),
    }
}

// Room for the results of so many parts. For none of them no memory is taken.
fn room_for_results(alloc: Global, parts: usize) -> Result<Vec<Part>, AllocError>
    ensures empty { IfOk result (λ done. (done.items ≡ []) × (vec_len done ≡ 0)) }
    ensures room { IfOk result (λ done. vec_len done + parts ≤ vec_capacity done) }
    ensures memory { OnErr result (0 < parts) }
{
    if parts == 0 {
        return Ok(Vec::new(alloc));
    }
    Vec::with_capacity(alloc, parts)
}

/// Runs a block as [`run_block`] does, whose parts keep their commands in a form of their own: what is said there of the commands is said here of
/// the commands that the parts ask for.
pub fn run_block_of<
    'a,
    B: SharedBook + Send,
    R: Threads + Wait + Sync,
    G: Gate + Sync,
    C: Asked + Send + Drop,
>(
    rt: &'a R,
    alloc: Global,
    lock: &'a TicketLock<B>,
    gate: &'a G,
    root: Pass<B>,
    parts: Vec<Vec<C>>,
) -> (Pass<B>, Result<Vec<Part>, BlockFault>)
    requires of { IsOf lock.now root }
    requires names { HasAllNames (view_of root) }
    requires few { vec_len parts ≤ 8 }
    ensures of { IsOf lock.now result.0 }
    ensures names { HasAllNames (view_of result.0) }
    ensures done { IfOk result.1 (λ done. (vec_len done ≡ vec_len parts)
        × IsAfterBlock (view_of root) (view_of result.0) (trails_of (commands_of C.command parts.items) done.items)) }
    ensures fault { IfErr result.1 (λ fault. (trails : List Trail) × AllZip Begins (commands_of C.command parts.items) trails
        × IsAfterBlock (view_of root) (view_of result.0) trails × LetsBegunPass (G.may_answer gate.now) trails
        × (ends : List (Option BlockFault)) × (Some fault ≡ reported ends) × EndAs (G.may_answer gate.now) 0 (commands_of C.command parts.items) trails ends) }
    ensures open { G.is_open gate.now ≡ true → IfErr result.1 (λ fault. fault ≢ Stopped) }
    ensures gate { IfOk result.1 (λ done. LetsAllPass (G.may_answer gate.now) (commands_of C.command parts.items)) }
    ensures stopped { IfErr result.1 (λ fault. fault ≡ Stopped
        → StopsOne (G.may_answer gate.now) (commands_of C.command parts.items)) }
{
    let Ok(done) = room_for_results(alloc, parts.len()) else {
        return (root, Err(BlockFault::Memory));
    };
    let missed = AtomicBool::new(false);
    let block = Environment {
        rt,
        alloc,
        lock,
        gate,
        missed: &missed,
    };
    let env = &block;
    let ended = thread::scope(
        thread::scope_env(),
        rt,
        |scope| -> Ended<B>
            requires { IsOf env.now.lock.now root × HasAllNames (view_of root) × (vec_len parts ≤ 8) × (done.items ≡ [])
                × (vec_len done + vec_len parts ≤ vec_capacity done) }
            ensures { IsOf env.entry.now.lock.now result.pass
                × HasRun (view_of root) (view_of result.pass) (begun_trails (commands_of C.command parts.items) result.done.items)
                × (length result.done.items ≡ length parts.items)
                × (vec_len result.done ≡ vec_len done + vec_len parts)
                × (result.fault ≡ None → AreWhole (commands_of C.command parts.items) result.done.items)
                × SeesCallers (view_of root) (view_of result.pass)
                × (G.is_open env.entry.now.gate.now ≡ true → result.fault ≢ Some Stopped)
                × LetsBegunPass (G.may_answer env.entry.now.gate.now) (begun_trails (commands_of C.command parts.items) result.done.items)
                × (result.fault ≡ None → LetsAllPass (G.may_answer env.entry.now.gate.now) (commands_of C.command parts.items))
                × (result.fault ≡ Some Stopped → StopsOne (G.may_answer env.entry.now.gate.now) (commands_of C.command parts.items))
                × ((ends : List (Option BlockFault)) × (result.fault ≡ reported ends) × EndAs (G.may_answer env.entry.now.gate.now) 0
                (commands_of C.command parts.items) (begun_trails (commands_of C.command parts.items) result.done.items) ends) }
        { run_parts(scope, env, root, parts, done) },
    );
    let Ended { pass, done, fault } = ended;
    match fault {
        None => (pass, Ok(done)),
        Some(fault) => (pass, Err(fault)),
    }
}

/// Runs parts concurrently, each on its own thread under a caller's number of its own, and returns their replies in the order of the parts, once all
/// threads have ended. There may be no parts, and a part may have no commands.
///
/// Each part runs its commands in order and asks the gate before and after each. All of them extend one history, in whatever order their turns come
/// (`IsBlock`). A part stops at the first command that is refused memory, or if the gate answers `false`. If a part stops early or a thread can't be
/// started, the result is a fault without replies, but the pass still has all names and has seen what was done.
///
/// It waits for turns and threads, so neither that it returns nor the order of turns is promised.
pub fn run_block<B: SharedBook + Send, R: Threads + Wait + Sync, G: Gate + Sync>(
    rt: &R,
    alloc: Global,
    lock: &TicketLock<B>,
    root: Pass<B>,
    parts: Vec<Vec<OwnedCommand>>,
    gate: &G,
) -> (Pass<B>, Result<Vec<Part>, BlockFault>)
    requires of { IsOf lock.now root }
    requires names { HasAllNames (view_of root) }
    requires few { vec_len parts ≤ 8 }
    ensures of { IsOf lock.now result.0 }
    ensures names { HasAllNames (view_of result.0) }
    // Each part's replies are the trail of its commands, starting from what the root had seen.
    ensures done { IfOk result.1 (λ done. (vec_len done ≡ vec_len parts)
        × IsAfterBlock (view_of root) (view_of result.0) (trails_of (map (λ part. part.items) parts.items) done.items)) }
    // After a fault the same is true of the first commands of each part, with replies that are not returned. The gate let each part come that far, and
    // the fault is the first in `BlockFault` of those for which parts ended early: `Stopped` only where the gate may have answered `false` as the
    // part's replies end, `NoThread` only for a part without a reply.
    ensures fault { IfErr result.1 (λ fault. (trails : List Trail) × AllZip Begins (map (λ part. part.items) parts.items) trails
        × IsAfterBlock (view_of root) (view_of result.0) trails × LetsBegunPass (G.may_answer gate.now) trails
        × (ends : List (Option BlockFault)) × (Some fault ≡ reported ends) × EndAs (G.may_answer gate.now) 0 (map (λ part. part.items) parts.items) trails ends) }
    ensures open { G.is_open gate.now ≡ true → IfErr result.1 (λ fault. fault ≢ Stopped) }
    // The gate let each command of each part pass, at both points and by the command's own indexes, as far as `may_answer` tells. Not stated: that it
    // was asked at `Asking` before the command, and at `Answered` after it.
    ensures gate { IfOk result.1 (λ done. LetsAllPass (G.may_answer gate.now) (map (λ part. part.items) parts.items)) }
    ensures stopped { IfErr result.1 (λ fault. fault ≡ Stopped
        → StopsOne (G.may_answer gate.now) (map (λ part. part.items) parts.items)) }
{
    run_block_of(rt, alloc, lock, gate, root, parts)
}
