//! A turn of a caller in which a file is read, and of one that shows a trace only a copy is taken.

ghost use Rattle.std.specs.Prelude.{◌≡◌, List, ◌∷◌, [], ◌++◌};
ghost use Rattle.ticket_lock.specs.Calls.{view_of, held_view, held_ticket, held_value, IsOf, IsTurnOf};
ghost use Rattle.ticket_lock.specs.declared.views.View.{View};
ghost use Rattle.trace_command.specs.Requests.{request_of};
ghost use Rattle.trace_command.specs.declared.command.CommandOf.TheVariants as commands;
ghost use Rattle.tracer.specs.LateReads.{replied};
ghost use Rattle.shared_mount.specs.LiveMountSeen.{SharedTerms, numbers_of};
ghost use Rattle.shared_mount.specs.MountCallers.{HadTicket, TakesTurn, calls};
ghost use Rattle.shared_mount.specs.MountEntries.{DidCall, EntrySeen};
ghost use Rattle.shared_mount.specs.private.MountTurns.{IsTurnAfter, TakenIn};

use crate::caller::Caller;
use crate::entry::Entry;
use crate::history::bytes_of;
use crate::live_mount::LiveMount;
use ghost_list::{GhostList, Lists};
use std::snapshot::Snapshot;
use ticket_lock::{Held, TicketLock};
use trace_command::Refusal;
use trace_instance::LateReply;

/// Has the mounted tracer read a file, by a copy, and ends the turn. Tells also whether something is owed then.
pub(crate) fn copy_in_turn(
    lock: &TicketLock<LiveMount>,
    held: Held<LiveMount>,
    path: &[u8],
    most: Option<u64>,
) -> (Caller, Result<LateReply, Refusal>, bool)
    requires of { IsTurnOf lock.now held }
    requires turn { (v : View EntrySeen) × IsTurnAfter v (held_view held) (held_ticket held) (held_value held) }
    ensures of { IsOf lock.now result.0.pass }
    ensures ticket { HadTicket (held_ticket held) (view_of result.0.pass) }
    ensures takes { (v : View EntrySeen) (g : SharedTerms) → TakenIn v (held_view held) (held_ticket held) (held_value held) g
        → TakesTurn g v (view_of result.0.pass) (calls (λ found. request_of (commands.Read path.now most)) (replied result.1)) result.2 }
{
    let mut held = held;
    let ticket = held.ticket();
    let by = held.by();
    let mount = held.value();
    let answer = mount.copy(ticket, by, path, most);
    let owes = mount.owes();
    let pass = lock.release(held);
    (Caller { pass }, answer, owes)
}

// One read more, by a copy.
#[derive(Drop)]
struct CopiedRead {
    past: Snapshot<GhostList<Entry>>,
    ticket: u64,
    by: u32,
    path: GhostList<u8>,
    most: Option<u64>,
    answer: Snapshot<Result<LateReply, Refusal>>,
}

struct Longer;

impl Lists<CopiedRead, Entry> for Longer {
    ghost items = { λ one. one.past.value.items ++ record {
      ticket = one.ticket;
      by = one.by;
      deed = DidCall (request_of (commands.Read one.path.items one.most)) (replied one.answer.value);
    } ∷ [] };
}

/// The history with the entry of a read by a copy: its answer is the one that the copy means.
pub(crate) fn with_copy(
    past: &GhostList<Entry>,
    ticket: u64,
    by: u32,
    path: &[u8],
    most: Option<u64>,
    answer: &Result<LateReply, Refusal>,
) -> GhostList<Entry>
    ensures { result.items ≡ past.now.items ++ record {
      ticket = ticket;
      by = by;
      deed = DidCall (request_of (commands.Read path.now most)) (replied answer.now);
    } ∷ [] }
{
    let one = CopiedRead {
        past: Snapshot::of(past),
        ticket,
        by,
        path: bytes_of(path),
        most,
        answer: Snapshot::of(answer),
    };
    GhostList::of::<CopiedRead, Longer>(&one)
}
