//! The boxed passes of a tracer as C holds them: a pointer whose type names no other type.

ghost use Rattle.std.specs.Prelude.{◌≡◌, Option, Some, None, is_some, true};
ghost use Rattle.tracectl_c.specs.OwnedPasses.{Seen, seen_coded, sealed_owns};

use crate::parts::Parts;
use library_tracer::Passes;
use std::alloc::Global;
use std::marker::Model;

/// A box with passes, or nothing. It is not let go with passes in it: they would never be.
#[repr(C)]
#[derive(Drop)]
pub struct SealedPasses {
    at: *mut (),
    alloc: Global,
    pub ghost passes: { Option Seen } by { seen_coded },
}

impl Model for SealedPasses {
    ghost also_owns = { λ s. sealed_owns s.alloc s.at s.passes };
}

impl SealedPasses {
    /// Nothing, whatever the pointer.
    pub fn nothing(at: *mut (), alloc: Global) -> SealedPasses
        ensures { result.passes ≡ None }
    {
        SealedPasses { at, alloc }
    }

    /// A box with its passes.
    pub fn of(parts: Parts<Passes, Global>) -> SealedPasses
        ensures { result.passes ≡ Some parts.value }
    {
        let Parts { ptr, alloc } = parts;
        SealedPasses {
            at: ptr as *mut (),
            alloc,
        }
    }

    /// The box, if there is one.
    pub fn into_parts(self) -> Parts<Passes, Global>
        requires { is_some self.passes ≡ true }
        ensures { Some result.value ≡ self.passes }
    {
        let SealedPasses { at, alloc } = self;
        Parts {
            ptr: at as *mut Passes,
            alloc,
        }
    }
}

// What is sealed may go to another thread, and so may the seal.
unsafe impl Send for SealedPasses {}
