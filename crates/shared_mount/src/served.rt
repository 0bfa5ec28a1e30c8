//! What a try came to that serves the mount, and why a try had no turn.

use crate::caller::Caller;
use crate::live_mount::LiveMount;
use ticket_lock::TryAcquireError;

/// What a turn came to in which a request was to be served, or what is owed to be told.
#[derive(Clone, Copy)]
pub enum Served {
    /// It was done. Whether something is owed now.
    Done { owes: bool },
    /// Nothing was done: something is owed, which is to be told before the next request is served; or nothing is, and there is nothing to tell.
    NotNow,
}

/// What a call came to that had a turn.
#[derive(Drop)]
pub struct Called<A> {
    /// Whether it was done, and nothing is replied. Otherwise its answer stands in the place that the call was given for it.
    pub is_done: bool,
    /// What the look told.
    pub told: A,
    /// Whether something is owed then.
    pub owes: bool,
}

/// Why a try had no turn whose caller comes back beside it. Nothing was done.
#[derive(Clone, Copy)]
pub enum Missed {
    /// Somebody else has a turn, is in line for one, or drew the ticket first. A later try may have one.
    Busy,
    /// All tickets are drawn: nobody has a turn any more.
    Worn,
}

/// Why a try had no turn. Nothing was done, and the caller comes back.
#[derive(Drop)]
pub enum NoTurn {
    /// Somebody else has a turn, is in line for one, or drew the ticket first. A later try may have one.
    Busy(Caller),
    /// All tickets are drawn: nobody has a turn any more.
    Worn(Caller),
}

impl NoTurn {
    ghost use Rattle.std.specs.Prelude.{◌≡◌};
    ghost use Rattle.ticket_lock.specs.Calls as lock;
    ghost use Rattle.ticket_lock.specs.declared.views.View.{View};
    ghost use Rattle.shared_mount.specs.MountCallers.{HasFailed, caller_in};
    ghost use Rattle.shared_mount.specs.MountEntries.{EntrySeen};

    /// Why a try of a caller had no turn, by why one of its pass had none.
    pub(crate) fn of(error: TryAcquireError<LiveMount>) -> NoTurn
        ensures pass { (caller_in result).pass ≡ lock.pass_of error }
        ensures failed { (v : View EntrySeen) → lock.HasFailed v error → HasFailed v result }
    {
        match error {
            TryAcquireError::Busy(pass) => NoTurn::Busy(Caller { pass }),
            TryAcquireError::Worn(worn) => NoTurn::Worn(Caller { pass: worn.pass }),
        }
    }
}
