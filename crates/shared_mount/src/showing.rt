//! Turns of a caller that serves a request of a text which was made beside the turns: one in which a trace is copied, and one in which the request is served.

ghost use Rattle.std.specs.Prelude.{◌≡◌, ◌≢◌, ◌≤◌, [], ◌∷◌, ◌++◌, vec_capacity, IfSome};
ghost use Rattle.ticket_lock.specs.Calls.{view_of, held_view, held_ticket, held_value, IsOf, IsTurnOf};
ghost use Rattle.ticket_lock.specs.declared.views.View.{View};
ghost use Rattle.mount_replies.specs.Mounted.{most_reply};
ghost use Rattle.mount_replies.specs.ShownTexts.{IsCopied};
ghost use Rattle.shared_mount.specs.LiveMountSeen.{SharedTerms};
ghost use Rattle.shared_mount.specs.MountCallers.{HadTicket, IsIdle};
ghost use Rattle.shared_mount.specs.MountEntries.{DidShow, EntrySeen, done_in};
ghost use Rattle.shared_mount.specs.ShownMounts.{IsShownIn, ServesOf};
ghost use Rattle.shared_mount.specs.private.MountTurns.{IsTurnAfter, TakenIn};

use crate::caller::Caller;
use crate::entry::Entry;
use crate::history::bytes_of;
use crate::live_mount::LiveMount;
use crate::served::Served;
use ghost_list::{GhostList, Lists};
use mount_replies::{CopiedText, ShownText};
use std::snapshot::Snapshot;
use ticket_lock::{Held, TicketLock};

/// Copies that whose long text a request wants, if it wants one, and ends the turn. Nothing is done.
pub(crate) fn copy_wanted_in_turn(
    lock: &TicketLock<LiveMount>,
    held: Held<LiveMount>,
    asked: &[u8],
) -> (Caller, Option<CopiedText>)
    requires of { IsTurnOf lock.now held }
    requires turn { (v : View EntrySeen) × IsTurnAfter v (held_view held) (held_ticket held) (held_value held) }
    ensures of { IsOf lock.now result.0.pass }
    ensures ticket { HadTicket (held_ticket held) (view_of result.0.pass) }
    ensures idle { (v : View EntrySeen) (g : SharedTerms) → TakenIn v (held_view held) (held_ticket held) (held_value held) g
        → IsIdle g v (view_of result.0.pass) }
    ensures copied { (v : View EntrySeen) (g : SharedTerms) → TakenIn v (held_view held) (held_ticket held) (held_value held) g
        → IfSome result.1 (IsCopied g.mount (done_in (view_of result.0.pass).seen)) }
{
    let mut held = held;
    let copied = held.value().copy_wanted(asked);
    let pass = lock.release(held);
    (Caller { pass }, copied)
}

/// Serves a request of this text, if it wants it and nothing is owed, and ends the turn.
pub(crate) fn show_in_turn(
    lock: &TicketLock<LiveMount>,
    held: Held<LiveMount>,
    asked: &[u8],
    shown: ShownText,
    reply: &mut Vec<u8>,
) -> (Caller, Served)
    requires of { IsTurnOf lock.now held }
    requires turn { (v : View EntrySeen) × IsTurnAfter v (held_view held) (held_ticket held) (held_value held) }
    requires shown { IsShownIn (held_value held).terms (held_value held).entries shown }
    requires room { most_reply ≤ vec_capacity reply.old }
    requires empty { reply.old.items ≡ [] }
    requires some { asked.now ≢ [] }
    ensures of { IsOf lock.now result.0.pass }
    ensures ticket { HadTicket (held_ticket held) (view_of result.0.pass) }
    ensures serves { (v : View EntrySeen) (g : SharedTerms) → TakenIn v (held_view held) (held_ticket held) (held_value held) g
        → ServesOf g shown asked.now reply.new.items v (view_of result.0.pass) result.1 }
    ensures capacity { vec_capacity reply.old ≤ vec_capacity reply.new }
{
    let mut held = held;
    let ticket = held.ticket();
    let by = held.by();
    let mount = held.value();
    if mount.owes() {
        let pass = lock.release(held);
        return (Caller { pass }, Served::NotNow);
    }
    mount.answer_shown(ticket, by, asked, shown, reply);
    let owes = mount.owes();
    let pass = lock.release(held);
    (Caller { pass }, Served::Done { owes })
}

// One request more that was served of a text.
#[derive(Drop)]
struct Showing {
    past: Snapshot<GhostList<Entry>>,
    ticket: u64,
    by: u32,
    shown: Snapshot<ShownText>,
    asked: GhostList<u8>,
    bytes: GhostList<u8>,
}

struct Longer;

impl Lists<Showing, Entry> for Longer {
    ghost items = { λ one. one.past.value.items ++ record {
      ticket = one.ticket;
      by = one.by;
      deed = DidShow one.shown.value one.asked.items one.bytes.items;
    } ∷ [] };
}

/// The history with the entry of a request that was served of a text.
pub(crate) fn with_shown(
    past: &GhostList<Entry>,
    ticket: u64,
    by: u32,
    shown: Snapshot<ShownText>,
    asked: &[u8],
    bytes: &[u8],
) -> GhostList<Entry>
    ensures { result.items ≡ past.now.items ++ record {
      ticket = ticket;
      by = by;
      deed = DidShow shown.value asked.now bytes.now;
    } ∷ [] }
{
    let one = Showing {
        past: Snapshot::of(past),
        ticket,
        by,
        shown,
        asked: bytes_of(asked),
        bytes: bytes_of(bytes),
    };
    GhostList::of::<Showing, Longer>(&one)
}
