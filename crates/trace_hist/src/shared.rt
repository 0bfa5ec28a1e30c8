//! What a hist trigger says, kept once for the trigger and its table.

ghost use Rattle.std.specs.Prelude.{◌≡◌, IfOk};

use std::alloc::{AllocError, Global};
use std::marker::Model;
use std::ops::Deref;
use std::sync::Arc;
use trace_trigger::HistSpec;

/// What a hist trigger says, of which the trigger and the histogram of its table have a share each. It is read by `Deref`, and never changes.
#[derive(Drop)]
pub struct SharedSpec {
    spec: Arc<HistSpec, Global>,
}

impl Model for SharedSpec {
    ghost use Rattle.std.specs.Arc.{arc_value};
    ghost use Rattle.trace_trigger.specs.HistSpecs.{SpecSeen};

    ghost Value = { SpecSeen };

    ghost view = { λ s. arc_value s.spec };
}

impl SharedSpec {
    /// The first share of what a string says. It takes a block of memory.
    pub fn new(alloc: Global, spec: HistSpec) -> Result<SharedSpec, AllocError>
        ensures { IfOk result (λ shared. shared ≡ spec) }
    {
        let spec = Arc::new(alloc, spec)?;
        Ok(SharedSpec { spec })
    }

    /// One more share. It takes no memory, and fails only where there are 2^63 shares.
    pub fn share(&self) -> Result<SharedSpec, AllocError>
        ensures { IfOk result (λ shared. shared ≡ self.now) }
    {
        let spec = Arc::try_clone(&self.spec)?;
        Ok(SharedSpec { spec })
    }
}

impl Deref for SharedSpec {
    type Target = HistSpec;

    ghost deref_gives = { λ shared spec. spec ≡ shared };

    fn deref(&self) -> &HistSpec
        ensures { result.now ≡ self.now }
    {
        &self.spec
    }
}
