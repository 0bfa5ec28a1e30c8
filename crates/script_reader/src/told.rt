//! The bytes that the calls of a reader or a writer told of, for clauses only.

ghost use Rattle.std.specs.Prelude.{◌≡◌, ◌++◌, ℕ, List, []};

use std::marker::{Model, PhantomData};

/// The bytes that calls told of, oldest first. It has no bytes at run time.
#[derive(Drop)]
pub struct Told {
    marker: PhantomData<u8>,
    pub ghost bytes: { List ℕ },
}

impl Model for Told {
    ghost use base.Fml.{ftrue};

    ghost also_owns = { λ _. ftrue };
}

impl Told {
    /// Before the first call.
    pub fn nothing() -> Told
        ensures { result.bytes ≡ [] }
    {
        Told {
            marker: PhantomData,
        }
    }

    /// After a call that told of these bytes.
    pub fn after(old: &Told, more: &[u8]) -> Told
        ensures { result.bytes ≡ old.now.bytes ++ more.now }
    {
        let _ = old;
        let _ = more;
        Told {
            marker: PhantomData,
        }
    }
}
