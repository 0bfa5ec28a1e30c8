//! A turn of a caller: something is asked, served, told or looked at, and the turn ends.

ghost use Rattle.std.specs.Prelude.{◌≡◌, ◌≢◌, ◌≤◌, true, false, [], vec_capacity};
ghost use Rattle.ticket_lock.specs.Calls.{view_of, held_view, held_ticket, held_value, IsOf, IsTurnOf};
ghost use Rattle.ticket_lock.specs.declared.views.View.{View};
ghost use Rattle.mount_replies.specs.Mounted.{most_reply};
ghost use Rattle.mount_replies.specs.Calls.{answer_of};
ghost use Rattle.shared_mount.specs.AskedRequests.{request_after};
ghost use Rattle.shared_mount.specs.LiveMountSeen.{SharedTerms};
ghost use Rattle.shared_mount.specs.MountCallers.{HadTicket, IsLookedAt, IsToldOf, Serves, TakesTurn, calls};
ghost use Rattle.shared_mount.specs.MountEntries.{EntrySeen};
ghost use Rattle.shared_mount.specs.private.MountTurns.{IsTurnAfter, TakenIn};

use crate::asked::Asked;
use crate::caller::Caller;
use crate::live_mount::LiveMount;
use crate::look::Look;
use crate::served::{Called, Served};
use ticket_lock::{Held, TicketLock};
use trace_command::{Refusal, Reply};

/// Has the mounted tracer run what is asked, looks at it, and ends the turn. Tells also whether something is owed then.
#[inline(always)]
pub(crate) fn call_in_turn<L: Look>(
    lock: &TicketLock<LiveMount>,
    held: Held<LiveMount>,
    asked: Asked<'_>,
    look: &L,
    answer: &mut Result<Reply, Refusal>,
) -> (Caller, Called<L::Answer>)
    requires of { IsTurnOf lock.now held }
    requires turn { (v : View EntrySeen) × IsTurnAfter v (held_view held) (held_ticket held) (held_value held) }
    ensures of { IsOf lock.now result.0.pass }
    ensures ticket { HadTicket (held_ticket held) (view_of result.0.pass) }
    ensures takes { (v : View EntrySeen) (g : SharedTerms) → TakenIn v (held_view held) (held_ticket held) (held_value held) g
        → TakesTurn g v (view_of result.0.pass) (calls (λ found. request_after found asked.entry) (answer_of result.1.is_done answer.new)) result.1.owes }
    ensures looked { (v : View EntrySeen) (g : SharedTerms) → TakenIn v (held_view held) (held_ticket held) (held_value held) g
        → IsToldOf g (L.tells look.now) (view_of result.0.pass).seen result.1.told }
{
    let mut held = held;
    let ticket = held.ticket();
    let by = held.by();
    let mount = held.value();
    let is_done = mount.call(ticket, by, asked, answer);
    let told = look.look(mount.tracer());
    let owes = mount.owes();
    let called = Called {
        is_done,
        told,
        owes,
    };
    let pass = lock.release(held);
    (Caller { pass }, called)
}

/// Serves a request, if nothing is owed, and ends the turn.
pub(crate) fn answer_in_turn(
    lock: &TicketLock<LiveMount>,
    held: Held<LiveMount>,
    asked: &[u8],
    reply: &mut Vec<u8>,
) -> (Caller, Served)
    requires of { IsTurnOf lock.now held }
    requires turn { (v : View EntrySeen) × IsTurnAfter v (held_view held) (held_ticket held) (held_value held) }
    requires room { most_reply ≤ vec_capacity reply.old }
    requires empty { reply.old.items ≡ [] }
    requires some { asked.now ≢ [] }
    ensures of { IsOf lock.now result.0.pass }
    ensures ticket { HadTicket (held_ticket held) (view_of result.0.pass) }
    ensures serves { (v : View EntrySeen) (g : SharedTerms) → TakenIn v (held_view held) (held_ticket held) (held_value held) g
        → Serves g asked.now reply.new.items true v (view_of result.0.pass) result.1 }
    ensures capacity { vec_capacity reply.old ≤ vec_capacity reply.new }
{
    let mut held = held;
    let ticket = held.ticket();
    let by = held.by();
    let mount = held.value();
    if mount.owes() {
        let pass = lock.release(held);
        return (Caller { pass }, Served::NotNow);
    }
    mount.answer(ticket, by, asked, reply);
    let owes = mount.owes();
    let pass = lock.release(held);
    (Caller { pass }, Served::Done { owes })
}

/// Tells something that is owed, if anything is, and ends the turn.
pub(crate) fn tell_in_turn(
    lock: &TicketLock<LiveMount>,
    held: Held<LiveMount>,
    reply: &mut Vec<u8>,
) -> (Caller, Served)
    requires of { IsTurnOf lock.now held }
    requires turn { (v : View EntrySeen) × IsTurnAfter v (held_view held) (held_ticket held) (held_value held) }
    requires room { most_reply ≤ vec_capacity reply.old }
    requires empty { reply.old.items ≡ [] }
    ensures of { IsOf lock.now result.0.pass }
    ensures ticket { HadTicket (held_ticket held) (view_of result.0.pass) }
    ensures serves { (v : View EntrySeen) (g : SharedTerms) → TakenIn v (held_view held) (held_ticket held) (held_value held) g
        → Serves g [] reply.new.items false v (view_of result.0.pass) result.1 }
    ensures capacity { vec_capacity reply.old ≤ vec_capacity reply.new }
{
    let mut held = held;
    let ticket = held.ticket();
    let by = held.by();
    let mount = held.value();
    let is_owing = mount.owes();
    if is_owing {
        mount.tell_owed(ticket, by, reply);
        let owes = mount.owes();
        let pass = lock.release(held);
        return (Caller { pass }, Served::Done { owes });
    }
    let pass = lock.release(held);
    (Caller { pass }, Served::NotNow)
}

/// Looks at the tracer, and ends the turn.
#[inline(always)]
pub(crate) fn look_in_turn<L: Look>(
    lock: &TicketLock<LiveMount>,
    held: Held<LiveMount>,
    look: &L,
) -> (Caller, L::Answer)
    requires of { IsTurnOf lock.now held }
    requires turn { (v : View EntrySeen) × IsTurnAfter v (held_view held) (held_ticket held) (held_value held) }
    ensures of { IsOf lock.now result.0.pass }
    ensures ticket { HadTicket (held_ticket held) (view_of result.0.pass) }
    ensures looked { (v : View EntrySeen) (g : SharedTerms) → TakenIn v (held_view held) (held_ticket held) (held_value held) g
        → IsLookedAt g (L.tells look.now) v (view_of result.0.pass) result.1 }
{
    let mut held = held;
    let answer = look.look(held.value().tracer());
    let pass = lock.release(held);
    (Caller { pass }, answer)
}
