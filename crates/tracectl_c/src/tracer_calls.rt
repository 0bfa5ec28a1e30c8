//! The passes taken out of a tracer's handle and put back.

ghost use Rattle.std.specs.Prelude.{◌≡◌, Some, None, is_some};
ghost use Rattle.std.specs.Option.{option_map};
ghost use Rattle.tracectl_c.specs.Handles.{passes_of};

use crate::parts::Parts;
use crate::sealed_passes::SealedPasses;
use crate::tracer_handle::{OPEN, TracerHandle};
use library_tracer::Passes;
use std::alloc::Global;
use std::{mem, ptr};

impl TracerHandle {
    /// Whether there are passes.
    #[tactic(auto, using(crate::proofs::TracerLemmas::is_open))]
    pub(crate) fn is_open(&self) -> bool
        ensures { result ≡ is_some (passes_of self.now) }
    {
        self.state == OPEN
    }

    /// Takes the passes out, which closes the handle.
    #[tactic(auto, using(crate::proofs::TracerLemmas::is_open, crate::proofs::TracerLemmas::open_passes, crate::proofs::TracerLemmas::no_passes))]
    pub(crate) fn take(&mut self, alloc: Global) -> Option<Box<Passes, Global>>
        ensures taken { option_map (λ passes. passes.value) result ≡ passes_of self.old }
        ensures closed { passes_of self.new ≡ None }
    {
        if self.state != OPEN {
            return None;
        }
        let TracerHandle { state: _, sealed } = mem::replace(self, closed(alloc));
        Some(sealed.into_parts().into_box())
    }

    /// Puts passes in, which opens the handle.
    pub(crate) fn keep(&mut self, passes: Box<Passes, Global>)
        ensures { passes_of self.new ≡ Some passes.value }
    {
        let sealed = SealedPasses::of(Parts::of(passes));
        let _closed = mem::replace(
            self,
            TracerHandle {
                state: OPEN,
                sealed,
            },
        );
    }
}

/// A handle that is closed.
fn closed(alloc: Global) -> TracerHandle
    ensures { passes_of result ≡ None }
{
    let at = ptr::null_mut();
    let sealed = SealedPasses::nothing(at, alloc);
    TracerHandle { state: 0, sealed }
}
