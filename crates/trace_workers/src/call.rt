//! One call of a worker: its command is read, and then asked through the lock.

ghost use Rattle.std.specs.Prelude.{◌≡◌, ◌≢◌, Err, IfOk, IfErr};
ghost use Rattle.ticket_lock.specs.Calls.{view_of, IsOf};
ghost use Rattle.tracer_specification.specs.History.{IsLegal};
ghost use Rattle.shared_book.specs.Bases.{numbers_of};
ghost use Rattle.shared_book.specs.Asks.{GoesOn, IsDone, IsRefused, IsUndone};
ghost use Rattle.trace_command.specs.declared.command.Config.{Config};
ghost use Rattle.trace_command.specs.declared.refusal.Refusal.TheVariants.{Memory};
ghost use Rattle.trace_workers.specs.Readies.{command_of};

use crate::asked::{Asked, Ready};
use shared_book::{SharedBook, ask};
use std::alloc::Global;
use std::sync::Wait;
use ticket_lock::{Pass, TicketLock};
use trace_command::{Command, OwnedCommand, Refusal, Reply};

// Asks the book for a command with strings of its own, as `ask_in` does for what was read.
#[tactic(auto, using(crate::proofs::Working::refused_unless_memory, crate::proofs::Working::undone, crate::proofs::Asking::stays, crate::proofs::Asking::idle))]
fn ask_owned<B: SharedBook, R: Wait>(
    rt: &R,
    alloc: Global,
    lock: &TicketLock<B>,
    pass: Pass<B>,
    command: &OwnedCommand,
) -> (Pass<B>, Result<Reply, Refusal>)
    requires { IsOf lock.now pass }
    ensures of { IsOf lock.now result.0 }
    ensures goes_on { GoesOn (view_of pass) (view_of result.0) }
    ensures done { IfOk result.1 (IsDone (view_of pass) (view_of result.0) command.now) }
    ensures refused { IfErr result.1 (λ refusal. refusal ≢ Memory
        → IsRefused (view_of pass) (view_of result.0) command.now refusal) }
    ensures memory { result.1 ≡ Err Memory → IsUndone (view_of pass) (view_of result.0) }
    ensures legal { (g : Config) → numbers_of g ≡ (view_of pass).base → IsLegal g (view_of pass).seen → IsLegal g (view_of result.0).seen }
{
    match command.lend_pairs(alloc) {
        Ok(lent) => ask(rt, lock, pass, &command.lent(lent.as_slice())),
        Err(_) => (pass, Err(Refusal::Memory)),
    }
}

// Asks the book for a command that was read, likewise.
#[tactic(auto, using(crate::proofs::Working::refused_unless_memory, crate::proofs::Working::undone, crate::proofs::Asking::stays, crate::proofs::Asking::idle))]
fn ask_ready<B: SharedBook, R: Wait>(
    rt: &R,
    alloc: Global,
    lock: &TicketLock<B>,
    pass: Pass<B>,
    ready: Ready<'_>,
) -> (Pass<B>, Result<Reply, Refusal>)
    requires { IsOf lock.now pass }
    ensures of { IsOf lock.now result.0 }
    ensures goes_on { GoesOn (view_of pass) (view_of result.0) }
    ensures done { IfOk result.1 (IsDone (view_of pass) (view_of result.0) (command_of ready.entry)) }
    ensures refused { IfErr result.1 (λ refusal. refusal ≢ Memory
        → IsRefused (view_of pass) (view_of result.0) (command_of ready.entry) refusal) }
    ensures memory { result.1 ≡ Err Memory → IsUndone (view_of pass) (view_of result.0) }
    ensures legal { (g : Config) → numbers_of g ≡ (view_of pass).base → IsLegal g (view_of pass).seen → IsLegal g (view_of result.0).seen }
{
    match ready {
        Ready::Command(command) => ask_owned(rt, alloc, lock, pass, &command),
        Ready::Emission {
            event,
            cpu,
            pid,
            pairs,
        } => ask(rt, lock, pass, &Command::emit(event, cpu, pid, &pairs)),
    }
}

/// Reads what asks for a command, and then asks the book for it, as [`ask`] does. Memory may be refused before the book is asked; then no ticket
/// needs to be drawn. The lock is not held as it reads.
#[tactic(auto, using(crate::proofs::Working::refused_unless_memory, crate::proofs::Working::undone, crate::proofs::Asking::stays, crate::proofs::Asking::idle, crate::proofs::Asking::done_as, crate::proofs::Asking::refused_as))]
pub fn ask_in<B: SharedBook, R: Wait, C: Asked>(
    rt: &R,
    alloc: Global,
    lock: &TicketLock<B>,
    pass: Pass<B>,
    asked: C,
) -> (Pass<B>, Result<Reply, Refusal>)
    requires { IsOf lock.now pass }
    ensures of { IsOf lock.now result.0 }
    ensures goes_on { GoesOn (view_of pass) (view_of result.0) }
    ensures done { IfOk result.1 (IsDone (view_of pass) (view_of result.0) (C.command asked)) }
    ensures refused { IfErr result.1 (λ refusal. refusal ≢ Memory
        → IsRefused (view_of pass) (view_of result.0) (C.command asked) refusal) }
    ensures memory { result.1 ≡ Err Memory → IsUndone (view_of pass) (view_of result.0) }
    ensures legal { (g : Config) → numbers_of g ≡ (view_of pass).base → IsLegal g (view_of pass).seen → IsLegal g (view_of result.0).seen }
{
    match asked.read(alloc, &pass) {
        Ok(ready) => ask_ready(rt, alloc, lock, pass, ready),
        Err(_) => (pass, Err(Refusal::Memory)),
    }
}
