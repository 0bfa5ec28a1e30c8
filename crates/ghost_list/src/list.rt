//! A list that takes no bytes, and what it is made of.

ghost use Rattle.std.specs.Prelude.{◌≡◌, List};

use std::marker::{Model, PhantomData};

/// How a list of `T` is read off an `X`.
pub trait Lists<X, T> {
    // The list.
    ghost items: { X → List T };
}

/// A list that only clauses read. It has no bytes and owns nothing, and is what it was made of.
#[derive(Drop)]
pub struct GhostList<T> {
    marker: PhantomData<T>,
    pub ghost items: { List T },
}

impl<T> Model for GhostList<T> {
    ghost use base.Fml.{ftrue};

    ghost also_owns = { λ _. ftrue };
}

impl<T> GhostList<T> {
    /// The list that `M` reads off a value. It does nothing when it runs.
    #[inline(always)]
    pub fn of<X, M: Lists<X, T>>(x: &X) -> GhostList<T>
        ensures { result.items ≡ M.items x.now }
    {
        let _ = x;
        GhostList {
            marker: PhantomData,
        }
    }
}

// It owns nothing, so it may go to any thread, and any thread may share it.
unsafe impl<T> Send for GhostList<T> {}

unsafe impl<T> Sync for GhostList<T> {}
