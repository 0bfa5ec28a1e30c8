//! What C holds of a tracer.

ghost use Rattle.std.specs.Prelude.{◌≡◌, is_some, true};
ghost use Rattle.tracectl_c.specs.declared.tracer_handle.TheConstants.{OPEN};

use crate::sealed_passes::SealedPasses;

/// The `state` of a handle that is open. Memory that is no handle hardly ever has it.
pub(crate) const OPEN: u64 = 0x7472_6163_6563_746c;

/// A pointer to the passes of a tracer, or none. A handle of zeros is closed.
#[repr(C)]
#[derive(Drop)]
pub struct TracerHandle {
    pub(crate) state: u64,
    pub(crate) sealed: SealedPasses,
    ghost fits: { state ≡ OPEN → is_some sealed.passes ≡ true },
}
