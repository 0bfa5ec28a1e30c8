//! A boxed console as C holds it: a pointer whose type names no other type.

ghost use Rattle.std.specs.Prelude.{◌≡◌, Option, Some, None, is_some, true};
ghost use Rattle.tracectl_c.specs.Owned.{Seen, seen_coded, sealed_owns};

use crate::parts::Parts;
use library_tracer::Console;
use std::alloc::Global;
use std::marker::Model;

/// A box with a console, or nothing. It is not let go with a console in it: the console would never be.
#[repr(C)]
#[derive(Drop)]
pub struct SealedConsole {
    at: *mut (),
    alloc: Global,
    pub ghost console: { Option Seen } by { seen_coded },
}

impl Model for SealedConsole {
    ghost also_owns = { λ s. sealed_owns s.alloc s.at s.console };
}

impl SealedConsole {
    /// Nothing, whatever the pointer.
    pub fn nothing(at: *mut (), alloc: Global) -> SealedConsole
        ensures { result.console ≡ None }
    {
        SealedConsole { at, alloc }
    }

    /// A box with its console.
    pub fn of(parts: Parts<Console, Global>) -> SealedConsole
        ensures { result.console ≡ Some parts.value }
    {
        let Parts { ptr, alloc } = parts;
        SealedConsole {
            at: ptr as *mut (),
            alloc,
        }
    }

    /// The box, if there is one.
    pub fn into_parts(self) -> Parts<Console, Global>
        requires { is_some self.console ≡ true }
        ensures { Some result.value ≡ self.console }
    {
        let SealedConsole { at, alloc } = self;
        Parts {
            ptr: at as *mut Console,
            alloc,
        }
    }
}

// What is sealed may go to another thread, and so may the seal.
unsafe impl Send for SealedConsole {}
