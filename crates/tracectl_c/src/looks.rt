//! Looks at the tracer, which are no commands: which events are wanted, and whether a record waits. Each is one try.

ghost use Rattle.std.specs.Prelude.{◌≡◌, Some};
ghost use Rattle.tracectl_c.specs.Calls.{TriesWaiting, TriesWanted, waiting_number};
ghost use Rattle.tracectl_c.specs.Handles.{console_of};

use crate::statuses::{BUSY, BUSY_TO_LOOK, NONE_TO_LOOK_AT, NOT_JOINED};
use crate::thread_handle::ThreadHandle;
use library_tracer::Mask;
use std::alloc::Global;
use trace_command::Refusal;

/// Tells which events are wanted, and how many commands were done by all threads. Where the status isn't 0, nothing is told.
#[unsafe(no_mangle)]
pub extern "C" fn tracectl_try_wanted(
    alloc: Global,
    thread: &mut ThreadHandle,
    mask: &mut Mask,
) -> u32
    ensures { TriesWanted (console_of thread.old) (console_of thread.new) mask.old mask.new result }
{
    let Some(mut console) = thread.take(alloc) else {
        return NOT_JOINED;
    };
    let status = match console.wanted() {
        Some(Ok(wanted)) => {
            *mask = wanted;
            0
        }
        Some(Err(refusal)) => u32::from(refusal.number()),
        None => BUSY,
    };
    thread.keep(console);
    status
}

/// Tells whether a record waits: 1 if one does and 0 if none does; or the number of the refusal, below 0.
fn told(waits: Result<bool, Refusal>) -> i32
    ensures { result ≡ waiting_number (Some waits) }
{
    match waits {
        Ok(true) => 1,
        Ok(false) => 0,
        Err(refusal) => -i32::from(refusal.number()),
    }
}

/// Whether a record waits to be read in the pipe at this path: 1 if one does, 0 if none does; or the number of the refusal that `tracectl_take` of it
/// would have, below 0. It is no command: the reply stays, too.
#[unsafe(no_mangle)]
pub extern "C" fn tracectl_try_waiting(alloc: Global, thread: &mut ThreadHandle, path: &[u8]) -> i32
    ensures { TriesWaiting path.now (console_of thread.old) (console_of thread.new) result }
{
    let Some(mut console) = thread.take(alloc) else {
        return NONE_TO_LOOK_AT;
    };
    let waits = match console.waiting(path) {
        Some(waits) => told(waits),
        None => BUSY_TO_LOOK,
    };
    thread.keep(console);
    waits
}
