//! The history of a mounted tracer: it is for clauses only, and takes no bytes.

ghost use Rattle.std.specs.Prelude.{◌≡◌, List, [], ◌∷◌, ◌++◌};
ghost use Rattle.trace_command.specs.Requests.{Request};
ghost use Rattle.mount_replies.specs.Calls.{answer_of};
ghost use Rattle.shared_mount.specs.AskedRequests.{request_after};
ghost use Rattle.shared_mount.specs.MountEntries.{DidCall, DidExchange};
ghost use Rattle.shared_mount.specs.private.Exchanges.{IsDoneIn};

use crate::asked::Asked;
use crate::done::Done;
use crate::entry::Entry;
use crate::exchange::Exchange;
use ghost_list::{GhostList, Lists};
use std::snapshot::Snapshot;
use trace_command::{Refusal, Reply};

// Before the first turn.
struct Nothing;

impl Lists<(), Entry> for Nothing {
    ghost items = { λ _. [] };
}

/// The history before the first turn.
#[inline(always)]
pub(crate) fn nothing_done() -> GhostList<Entry>
    ensures { result.items ≡ [] }
{
    GhostList::of::<(), Nothing>(&())
}

// One call more.
#[derive(Drop)]
struct Call<'a> {
    past: Snapshot<GhostList<Entry>>,
    ticket: u64,
    by: u32,
    asked: Snapshot<Asked<'a>>,
    is_done: bool,
    answer: Snapshot<Result<Reply, Refusal>>,
}

struct Longer;

impl<'a> Lists<Call<'a>, Entry> for Longer {
    ghost items = { λ one. one.past.value.items ++ record {
      ticket = one.ticket;
      by = one.by;
      deed = DidCall (request_after one.past.value.items one.asked.value) (answer_of one.is_done one.answer.value);
    } ∷ [] };
}

/// The history with the entry of a call.
#[inline(always)]
pub(crate) fn with_call(
    past: &GhostList<Entry>,
    ticket: u64,
    by: u32,
    asked: &Asked<'_>,
    is_done: bool,
    answer: &Result<Reply, Refusal>,
) -> GhostList<Entry>
    ensures { result.items ≡ past.now.items ++ record {
      ticket = ticket;
      by = by;
      deed = DidCall (request_after past.now.items asked.now) (answer_of is_done answer.now);
    } ∷ [] }
{
    let one = Call {
        past: Snapshot::of(past),
        ticket,
        by,
        asked: Snapshot::of(asked),
        is_done,
        answer: Snapshot::of(answer),
    };
    GhostList::of::<Call<'_>, Longer>(&one)
}

// One exchange more.
#[derive(Drop)]
struct Addition {
    exchange: Snapshot<Exchange>,
    done: Snapshot<Done>,
    ticket: u64,
    by: u32,
}

impl Lists<Addition, Entry> for Longer {
    ghost items = { λ one. one.exchange.value.past.value.items ++ record {
      ticket = one.ticket;
      by = one.by;
      deed = DidExchange one.exchange.value.asked.items one.exchange.value.bytes.items one.done.value.commands;
    } ∷ [] };
}

/// The history with the entry of an exchange, in which some commands were done.
pub(crate) fn with_exchange(exchange: &Exchange, ticket: u64, by: u32) -> GhostList<Entry>
    requires { (commands : List Request) × IsDoneIn exchange.now commands }
    ensures { (commands : List Request) × IsDoneIn exchange.now commands × (result.items ≡ exchange.now.past.value.items ++ record {
      ticket = ticket;
      by = by;
      deed = DidExchange exchange.now.asked.items exchange.now.bytes.items commands;
    } ∷ []) }
{
    let done = Done::within(exchange);
    let one = Addition {
        exchange: Snapshot::of(exchange),
        done: Snapshot::of(&done),
        ticket,
        by,
    };
    GhostList::of::<Addition, Longer>(&one)
}

// The bytes of a request, or of a reply.
struct Bytes;

impl<'a> Lists<&'a [u8], u8> for Bytes {
    ghost items = { λ bytes. bytes.now };
}

/// Bytes, for clauses only.
#[inline(always)]
pub(crate) fn bytes_of(bytes: &[u8]) -> GhostList<u8>
    ensures { result.items ≡ bytes.now }
{
    GhostList::of::<&[u8], Bytes>(&bytes)
}
