//! The console taken out of a thread's handle and put back.

ghost use Rattle.std.specs.Prelude.{◌≡◌, Some, None, is_some, IsSome, IfSome};
ghost use Rattle.std.specs.Option.{option_map};
ghost use Rattle.tracectl_c.specs.Handles.{console_of};

use crate::parts::Parts;
use crate::sealed_console::SealedConsole;
use crate::thread_handle::{JOINED, ThreadHandle};
use library_tracer::Console;
use std::alloc::Global;
use std::{mem, ptr};

impl ThreadHandle {
    /// Whether there is a console.
    #[tactic(auto, using(crate::proofs::ThreadLemmas::is_joined))]
    pub(crate) fn is_joined(&self) -> bool
        ensures { result ≡ is_some (console_of self.now) }
    {
        self.state == JOINED
    }

    /// Takes the console out, which leaves none.
    #[tactic(auto, using(crate::proofs::ThreadLemmas::has_console, crate::proofs::ThreadLemmas::console_has, crate::proofs::ThreadLemmas::open_console, crate::proofs::ThreadLemmas::no_console))]
    pub(crate) fn take(&mut self, alloc: Global) -> Option<Box<Console, Global>>
        ensures taken { option_map (λ console. console.value) result ≡ console_of self.old }
        ensures left { console_of self.new ≡ None }
        ensures caller { IfSome result (λ console. IsSome console.value.has) }
    {
        if self.state != JOINED {
            return None;
        }
        let ThreadHandle { state: _, sealed } = mem::replace(self, unjoined(alloc));
        Some(sealed.into_parts().into_box())
    }

    /// Puts a console in, whose caller is there.
    #[tactic(auto, using(crate::proofs::ThreadLemmas::may_keep))]
    pub(crate) fn keep(&mut self, console: Box<Console, Global>)
        requires { IsSome console.value.has }
        ensures { console_of self.new ≡ Some console.value }
    {
        let sealed = SealedConsole::of(Parts::of(console));
        let _left = mem::replace(
            self,
            ThreadHandle {
                state: JOINED,
                sealed,
            },
        );
    }
}

/// A handle of no thread.
fn unjoined(alloc: Global) -> ThreadHandle
    ensures { console_of result ≡ None }
{
    let at = ptr::null_mut();
    let sealed = SealedConsole::nothing(at, alloc);
    ThreadHandle { state: 0, sealed }
}
