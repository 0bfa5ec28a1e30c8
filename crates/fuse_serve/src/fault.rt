//! How a service ends, and what stops it.

use std::alloc::AllocError;

/// How a service ended, with every request that was read whole answered.
#[derive(Clone, Copy, Debug, PartialEq, Eq)]
pub enum Ended {
    /// The input ended, between two requests.
    AtEnd,
    /// The device is gone (ENODEV, ECONNABORTED), as after `umount`.
    Gone,
    /// The server wanted to end.
    Asked,
}

/// What stopped a service.
#[derive(Clone, Copy, Debug, PartialEq, Eq)]
pub enum Fault {
    /// Memory was refused for the buffers, before anything was read.
    Memory,
    /// The bytes read can't be cut into requests, or the input ended within one.
    Unframed,
    /// A read failed.
    Read,
    /// A reply could not be written whole.
    Write,
}

impl From<AllocError> for Fault {
    ghost use Rattle.std.specs.Prelude.{◌≡◌};
    ghost use Rattle.fuse_serve.specs.declared.fault.Fault.TheVariants.{Memory};

    ghost from_gives = { λ _ fault. fault ≡ Memory };

    fn from(_error: AllocError) -> Fault {
        Fault::Memory
    }
}
