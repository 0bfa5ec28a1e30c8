//! A turn of a pass, in which it has the value.
ghost use Rattle.std.specs.Prelude.{◌≡◌, ◌<◌, ◌≤◌, ◌^◌, true};
ghost use Rattle.std.specs.Borrow.{sem};
ghost use Rattle.ticket_lock.specs.Views.{is_holding, is_blank};

use crate::entries::Logged;
use crate::passes::PassSeat;
use std::fmt;
use std::fmt::{Debug, Formatter};

/// The seat of the pass whose ticket is served. The slot that it has taken is empty.
pub struct Turn<T: Logged> {
    pub(crate) seat: PassSeat<T>,
    pub(crate) low: u32,
    pub(crate) end: u32,
    pub(crate) ticket: u64,
    ghost low_is: { low ≡ seat.me.0.low },
    ghost end_is: { end ≡ seat.me.0.end },
    ghost named: { low < end },
    ghost holding: { is_holding ticket seat.me.0.stage ≡ true },
    ghost blank: { is_blank seat.me.1 ≡ true },
    ghost few: { ticket < 2 ^ 63 },
    ghost bounded: { seat.me.0.front ≤ 2 ^ 63 },
}

/// The value, for as long as the pass's ticket is served. It has to be given to `TicketLock::release`: it cannot be dropped.
pub struct Held<T: Logged> {
    pub(crate) turn: Turn<T>,
    pub(crate) value: Box<T>,
}

impl<T: Logged> Held<T> {
    ghost use Rattle.ticket_lock.specs.Calls.{held_view, held_ticket, held_value, LendsValue};

    /// The ticket that is served.
    pub fn ticket(&self) -> u64
        ensures { result ≡ held_ticket self.now }
    {
        self.turn.ticket
    }

    /// The caller's number under which the pass asks, the first of its names.
    pub fn by(&self) -> u32
        ensures { result ≡ (held_view self.now).low }
    {
        self.turn.low
    }

    /// The value, for reading and writing. `TicketLock::release` says what may be written.
    pub fn value(&mut self) -> &mut T
        ensures* writes_back { sem 𝓛 (LendsValue T.row T.Entry.row T.Logged self.entry result) }
        ensures value { result.now ≡ held_value self.old }
    {
        &mut self.value
    }
}

impl<T: Logged> Debug for Held<T> {
    fn fmt<W: fmt::Write>(&self, f: &mut Formatter<W>) -> fmt::Result {
        f.pad("Held { .. }")
    }
}
