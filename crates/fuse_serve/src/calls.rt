//! The calls of a device, which only proofs read.

ghost use Rattle.std.specs.Prelude.{◌≡◌, List, [], ◌∷◌, ◌++◌};
ghost use Rattle.std.specs.Borrow.{ftrue};
ghost use Rattle.fuse_serve.specs.Calls.{Call};

use crate::outcome::Outcome;
use std::marker::{Model, PhantomData};

/// A device's calls so far, one after another. It takes no memory, and its functions do nothing when they run.
#[derive(Drop)]
pub struct Calls {
    marker: PhantomData<u8>,
    pub ghost made: { List Call },
}

impl Model for Calls {
    ghost also_owns = { λ _. ftrue };
}

impl Calls {
    /// Before the first call.
    pub fn new() -> Calls
        ensures { result.made ≡ [] }
    {
        Calls {
            marker: PhantomData,
        }
    }

    /// Adds a call: what a write was offered, or the whole buffer that a read left, and what came of it.
    pub fn add(&mut self, _bytes: &[u8], _outcome: &Outcome)
        ensures { self.new.made ≡ self.old.made ++ record { bytes = _bytes.now; outcome = _outcome.now } ∷ [] }
    {}
}
