//! A ticket that was drawn and is not served yet.
ghost use Rattle.std.specs.Prelude.{◌≡◌, ◌+◌, ◌<◌, ◌^◌, true, length};
ghost use Rattle.ticket_lock.specs.Views.{is_waiting};

use crate::entries::Logged;
use crate::passes::PassSeat;
use std::fmt;
use std::fmt::{Debug, Formatter};

/// The ticket that a pass has drawn, in place of the pass. `TicketLock::try_enter` makes a turn of it once the ticket is served. It cannot be dropped:
/// no later ticket would ever be served.
pub struct Drawn<T: Logged> {
    pub(crate) seat: PassSeat<T>,
    pub(crate) low: u32,
    pub(crate) end: u32,
    pub(crate) ticket: u64,
    ghost low_is: { low ≡ seat.me.0.low },
    ghost end_is: { end ≡ seat.me.0.end },
    ghost named: { low < end },
    ghost waiting: { is_waiting ticket seat.me.0.stage ≡ true },
    ghost front_is: { seat.me.0.front ≡ ticket + 1 },
    ghost empty_handed: { length seat.me.1 ≡ 0 },
    ghost few: { ticket < 2 ^ 63 },
}

impl<T: Logged> Drawn<T> {
    ghost use Rattle.ticket_lock.specs.Calls.{drawn_ticket};

    /// The ticket.
    pub fn ticket(&self) -> u64
        ensures { result ≡ drawn_ticket self.now }
    {
        self.ticket
    }

    /// Gives the ticket up, unserved: no later ticket of its lock will ever be served.
    pub fn abandon(self) {
        let Drawn {
            seat: _,
            low: _,
            end: _,
            ticket: _,
        } = self;
    }
}

impl<T: Logged> Debug for Drawn<T> {
    fn fmt<W: fmt::Write>(&self, f: &mut Formatter<W>) -> fmt::Result {
        let ticket = self.ticket;
        write!(f, "Drawn({ticket})")
    }
}
