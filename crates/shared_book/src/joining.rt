//! Passes that come together.

ghost use Rattle.std.specs.Prelude.{◌≡◌};
ghost use Rattle.ticket_lock.specs.Calls.{view_of, IsOf, IsMet};

use crate::book::SharedBook;
use ticket_lock::{Pass, TicketLock};

/// One pass with the names of both, as `TicketLock::join`. What both had seen is in it, whose entries' tickets and callers are read from themselves.
pub fn join<B: SharedBook>(lock: &TicketLock<B>, first: Pass<B>, second: Pass<B>) -> Pass<B>
    requires first { IsOf lock.now first }
    requires second { IsOf lock.now second }
    requires adjacent { (view_of first).end ≡ (view_of second).low }
    ensures of { IsOf lock.now result }
    ensures met { IsMet (λ entry. entry.ticket) (λ entry. entry.by) (view_of first) (view_of second) (view_of result) }
{
    lock.join(first, second)
}
