//! Why a block returned no replies.

ghost use Rattle.std.specs.Prelude.{◌≡◌, Some};
ghost use Rattle.trace_workers.specs.Ends.{told_fault};

use std::error::Error;
use std::fmt;
use std::fmt::{Display, Formatter};

/// Why a block returned no replies. Of several faults, the first in this list is reported.
#[derive(Clone, Copy, Debug, PartialEq, Eq, Drop)]
pub enum BlockFault {
    /// Memory was refused, for a command or for the replies.
    Memory,
    /// The gate answered `false`.
    Stopped,
    /// A thread could not be started.
    NoThread,
}

impl Display for BlockFault {
    ghost use Rattle.trace_workers.specs.Faults.{shown_fault};

    ghost output = { λ fault. Some (shown_fault fault) };

    #[tactic(auto, unfolding(crate::specs::Faults::shown_fault))]
    fn fmt<W: fmt::Write>(&self, f: &mut Formatter<W>) -> fmt::Result {
        f.write_str(match self {
            BlockFault::Memory => "out of memory",
            BlockFault::Stopped => "the gate stopped a worker",
            BlockFault::NoThread => "a thread could not be started",
        })
    }
}

impl Error for BlockFault {}

// The one of two faults that is reported.
pub(crate) fn first_of(one: Option<BlockFault>, other: Option<BlockFault>) -> Option<BlockFault>
    ensures { result ≡ told_fault one other }
{
    match (one, other) {
        (None, other) => other,
        (one, None) => one,
        (Some(BlockFault::Memory), _) | (_, Some(BlockFault::Memory)) => Some(BlockFault::Memory),
        (Some(BlockFault::Stopped), _) | (_, Some(BlockFault::Stopped)) => {
            Some(BlockFault::Stopped)
        }
        (Some(BlockFault::NoThread), Some(BlockFault::NoThread)) => Some(BlockFault::NoThread),
    }
}
