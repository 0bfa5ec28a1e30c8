//! The right to ask.
ghost use Rattle.std.specs.Prelude.{◌≡◌, ◌<◌, ◌≤◌, ◌^◌, true, length};
ghost use Rattle.ticket_lock.specs.Views.{is_idle};

use crate::entries::Logged;
use crate::views::View;
use atomic_table::Seat;
use std::error::Error;
use std::fmt;
use std::fmt::{Debug, Display, Formatter};
use std::ops::Range;

/// A pass's seat at the lock's table.
pub(crate) type PassSeat<T> = Seat<Option<Box<T>>, View<<T as Logged>::Entry>>;

/// The right to ask a lock for its value, as any of a range of callers. It asks under the first number of the range.
#[derive(Drop)]
pub struct Pass<T: Logged> {
    pub(crate) seat: PassSeat<T>,
    pub(crate) low: u32,
    pub(crate) end: u32,
    ghost low_is: { low ≡ seat.me.0.low },
    ghost end_is: { end ≡ seat.me.0.end },
    ghost named: { low < end },
    ghost idle: { is_idle seat.me.0.stage ≡ true },
    ghost empty_handed: { length seat.me.1 ≡ 0 },
    pub ghost bounded: { seat.me.0.front ≤ 2 ^ 63 },
}

impl<T: Logged> Pass<T> {
    ghost use Rattle.ticket_lock.specs.Calls.{view_of};

    /// The callers' numbers that it has, from the first up to below the end.
    pub fn names(&self) -> Range<u32>
        ensures start { result.start ≡ (view_of self.now).low }
        ensures end { result.end ≡ (view_of self.now).end }
    {
        self.low..self.end
    }
}

/// The answer of a lock whose tickets are all drawn: it serves nobody any more. The pass comes back.
#[derive(Drop)]
pub struct Worn<T: Logged> {
    pub pass: Pass<T>,
}

/// Why a try took no turn. The pass comes back.
#[derive(Drop)]
pub enum TryAcquireError<T: Logged> {
    /// Somebody was in line, or drew the ticket first. A later try may take a turn.
    Busy(Pass<T>),
    /// All tickets are drawn.
    Worn(Worn<T>),
}

impl<T: Logged> Debug for Pass<T> {
    fn fmt<W: fmt::Write>(&self, f: &mut Formatter<W>) -> fmt::Result {
        let low = self.low;
        let end = self.end;
        write!(f, "Pass({low}..{end})")
    }
}

impl<T: Logged> Debug for Worn<T> {
    fn fmt<W: fmt::Write>(&self, f: &mut Formatter<W>) -> fmt::Result {
        let pass = &self.pass;
        write!(f, "Worn({pass:?})")
    }
}

impl<T: Logged> Display for Worn<T> {
    fn fmt<W: fmt::Write>(&self, f: &mut Formatter<W>) -> fmt::Result {
        f.write_str("all tickets are drawn")
    }
}

impl<T: Logged> Error for Worn<T> {}

impl<T: Logged> Debug for TryAcquireError<T> {
    fn fmt<W: fmt::Write>(&self, f: &mut Formatter<W>) -> fmt::Result {
        match self {
            TryAcquireError::Busy(pass) => write!(f, "Busy({pass:?})"),
            TryAcquireError::Worn(worn) => write!(f, "{worn:?}"),
        }
    }
}

impl<T: Logged> Display for TryAcquireError<T> {
    fn fmt<W: fmt::Write>(&self, f: &mut Formatter<W>) -> fmt::Result {
        match self {
            TryAcquireError::Busy(_) => f.write_str("somebody else is in line"),
            TryAcquireError::Worn(worn) => write!(f, "{worn}"),
        }
    }
}

impl<T: Logged> Error for TryAcquireError<T> {}
