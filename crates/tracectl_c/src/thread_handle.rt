//! What C holds of a thread that has joined a tracer.

ghost use Rattle.std.specs.Prelude.{◌≡◌, true};
ghost use Rattle.tracectl_c.specs.Owned.{has_caller};
ghost use Rattle.tracectl_c.specs.declared.thread_handle.TheConstants.{JOINED};

use crate::sealed_console::SealedConsole;

/// The `state` of a handle whose thread has joined. Memory that is no handle hardly ever has it.
pub(crate) const JOINED: u64 = 0x7472_6163_6563_746a;

/// A pointer to a console, whose caller is there, or none. A handle of zeros has none.
#[repr(C)]
#[derive(Drop)]
pub struct ThreadHandle {
    pub(crate) state: u64,
    pub(crate) sealed: SealedConsole,
    ghost fits: { state ≡ JOINED → has_caller sealed.console ≡ true },
}
