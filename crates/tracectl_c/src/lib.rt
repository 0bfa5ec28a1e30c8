//! tracectl for C: a static library whose exports are one try each: of a call of a thread's console, or at the passes of a tracer. `tracectl.h` declares them,
//! makes of them the calls that a user makes, which try again, and says what C must uphold.
//!
//! Each module has the exports of one kind: `handles` opens, joins, leaves and closes, `asking` asks the tracer, `replies` tells what that came to, `looks`
//! looks at the tracer, and `serving` serves a mount. A thread's handle is taken apart for the call, and put together after it (`thread_calls`).
#![tactic(auto)]

ghost use Rattle.std.specs.Prelude.{◌≡◌};

mod asking;
mod handles;
mod looks;
mod parts;
mod replies;
mod sealed_console;
mod sealed_passes;
mod serving;
mod settings;
mod statuses;
mod thread_calls;
mod thread_handle;
mod tracer_calls;
mod tracer_handle;
mod value;

use thread_handle::ThreadHandle;
use tracer_handle::TracerHandle;

/// That a value may go to another thread.
fn may_go<T: Send>(value: T) -> T
    ensures { result ≡ value }
{
    value
}

/// What C hands from thread to thread may go there: a thread's handle, and a tracer's.
pub fn handles_may_go(thread: ThreadHandle, tracer: TracerHandle) -> (ThreadHandle, TracerHandle) {
    (may_go(thread), may_go(tracer))
}
