//! What ends a session early, or the reading of its script.

use std::alloc::{AllocError, AllocFailed};

/// Why a session stopped before its end. The reading of a script is never `Stopped`.
#[derive(Clone, Copy, PartialEq, Eq)]
pub enum Stop {
    /// Memory was refused.
    Memory,
    /// A read or a write failed, or the script is too long.
    Device,
    /// The gate stopped a part.
    Stopped,
}

impl From<AllocError> for Stop {
    ghost use Rattle.std.specs.Prelude.{◌≡◌};
    ghost use Rattle.script_reader.specs.declared.stop.Stop.TheVariants.{Memory};

    ghost from_gives = { λ _ stop. stop ≡ Memory };

    fn from(_error: AllocError) -> Stop {
        Stop::Memory
    }
}

impl<T: Drop> From<AllocFailed<T>> for Stop {
    ghost use Rattle.std.specs.Prelude.{◌≡◌};
    ghost use Rattle.script_reader.specs.declared.stop.Stop.TheVariants.{Memory};

    ghost from_gives = { λ _ stop. stop ≡ Memory };

    fn from(_error: AllocFailed<T>) -> Stop {
        Stop::Memory
    }
}
