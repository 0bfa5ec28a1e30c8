//! One call: a turn at the lock, in which the book runs a command; for who can't wait, the same by tries.

ghost use Rattle.std.specs.Prelude.{◌≡◌, IfOk, IfErr, MatchResult};
ghost use Rattle.ticket_lock.specs.Calls.{view_of, drawn_view, drawn_ticket, held_view, held_ticket, held_value, IsOf, IsTicketOf, IsTurnOf, HasLooked};
ghost use Rattle.ticket_lock.specs.declared.views.View.{View};
ghost use Rattle.tracer_specification.specs.History.{IsLegal};
ghost use Rattle.shared_book.specs.Bases.{numbers_of};
ghost use Rattle.shared_book.specs.Asks.{GoesOn, IsDone, IsRefused};
ghost use Rattle.shared_book.specs.private.Turns.{IsTurnAfter, Comes};
ghost use Rattle.trace_command.specs.declared.command.Config.{Config};
ghost use Rattle.trace_command.specs.declared.command.Entry.{Entry};

use crate::book::SharedBook;
use std::sync::Wait;
use ticket_lock::{Drawn, Held, Pass, TicketLock, TryAcquireError};
use trace_command::{Command, Refusal, Reply};

/// Takes a turn at the lock, runs a command under the pass's first name, and returns the pass with the answer.
///
/// It waits for its turn, and the answer follows from everything done before: a command that is done becomes the history's next entry, a refused one
/// leaves none. `Worn` exactly if all tickets are drawn; then nothing was run. The lock is held only while the book answers. It is inlined, so that its
/// answer is not moved.
#[inline(always)]
pub fn ask<B: SharedBook, R: Wait>(
    rt: &R,
    lock: &TicketLock<B>,
    pass: Pass<B>,
    command: &Command<'_>,
) -> (Pass<B>, Result<Reply, Refusal>)
    requires { IsOf lock.now pass }
    ensures of { IsOf lock.now result.0 }
    ensures goes_on { GoesOn (view_of pass) (view_of result.0) }
    ensures done { IfOk result.1 (IsDone (view_of pass) (view_of result.0) command.now) }
    ensures refused { IfErr result.1 (IsRefused (view_of pass) (view_of result.0) command.now) }
    ensures legal { (g : Config) → numbers_of g ≡ (view_of pass).base → IsLegal g (view_of pass).seen → IsLegal g (view_of result.0).seen }
{
    match lock.acquire(rt, pass) {
        Ok(held) => ask_in_turn(lock, held, command),
        Err(worn) => (worn.pass, Err(Refusal::Worn)),
    }
}

/// As `ask`, but it waits for nobody: if somebody else has a turn, or is in line for one, the pass comes back and nothing was run.
#[inline(always)]
pub fn try_ask<B: SharedBook>(
    lock: &TicketLock<B>,
    pass: Pass<B>,
    command: &Command<'_>,
) -> Result<(Pass<B>, Result<Reply, Refusal>), Pass<B>>
    requires { IsOf lock.now pass }
    ensures of { MatchResult result (λ r. IsOf lock.now r.0) (λ p. IsOf lock.now p) }
    ensures goes_on { IfOk result (λ r. GoesOn (view_of pass) (view_of r.0)) }
    ensures done { IfOk result (λ r. IfOk r.1 (IsDone (view_of pass) (view_of r.0) command.now)) }
    ensures refused { IfOk result (λ r. IfErr r.1 (IsRefused (view_of pass) (view_of r.0) command.now)) }
    ensures legal { IfOk result (λ r.
        (g : Config) → numbers_of g ≡ (view_of pass).base → IsLegal g (view_of pass).seen → IsLegal g (view_of r.0).seen) }
    ensures busy { IfErr result (λ p. HasLooked (view_of pass) (view_of p)) }
{
    match lock.try_acquire(pass) {
        Ok(held) => Ok(ask_in_turn(lock, held, command)),
        Err(TryAcquireError::Busy(pass)) => Err(pass),
        Err(TryAcquireError::Worn(worn)) => Ok((worn.pass, Err(Refusal::Worn))),
    }
}

/// As `ask`, of a caller that is in line: if its ticket isn't served yet, it comes back and nothing was run. The ticket knows what its pass knew before
/// it was drawn.
#[inline(always)]
pub fn ask_in_line<B: SharedBook>(
    lock: &TicketLock<B>,
    drawn: Drawn<B>,
    command: &Command<'_>,
) -> Result<(Pass<B>, Result<Reply, Refusal>), Drawn<B>>
    requires { IsTicketOf lock.now drawn }
    ensures of { MatchResult result (λ r. IsOf lock.now r.0) (λ d. IsTicketOf lock.now d) }
    ensures goes_on { IfOk result (λ r. GoesOn (drawn_view drawn) (view_of r.0)) }
    ensures done { IfOk result (λ r. IfOk r.1 (IsDone (drawn_view drawn) (view_of r.0) command.now)) }
    ensures refused { IfOk result (λ r. IfErr r.1 (IsRefused (drawn_view drawn) (view_of r.0) command.now)) }
    ensures legal { IfOk result (λ r.
        (g : Config) → numbers_of g ≡ (drawn_view drawn).base → IsLegal g (drawn_view drawn).seen → IsLegal g (view_of r.0).seen) }
    ensures busy { IfErr result (λ d. (drawn_view d ≡ drawn_view drawn) × (drawn_ticket d ≡ drawn_ticket drawn)) }
{
    match lock.try_enter(drawn) {
        Ok(held) => Ok(ask_in_turn(lock, held, command)),
        Err(drawn) => Err(drawn),
    }
}

// Has the book run a command in a turn, and ends the turn.
#[inline(always)]
fn ask_in_turn<B: SharedBook>(
    lock: &TicketLock<B>,
    held: Held<B>,
    command: &Command<'_>,
) -> (Pass<B>, Result<Reply, Refusal>)
    requires of { IsTurnOf lock.now held }
    requires turn { (v : View Entry) × IsTurnAfter B.entries B.base B.ticket B.by v (held_view held) (held_ticket held) (held_value held) }
    ensures of { IsOf lock.now result.0 }
    ensures comes { (v : View Entry) → IsTurnAfter B.entries B.base B.ticket B.by v (held_view held) (held_ticket held) (held_value held)
        → Comes v (view_of result.0) command.now result.1 }
{
    let mut held = held;
    let ticket = held.ticket();
    let by = held.by();
    let answer = held.value().answer(ticket, by, command);
    (lock.release(held), answer)
}
