//! What the thread asks that serves a mount: a request of the kernel answered, and what is owed told. Each is one try.

ghost use Rattle.std.specs.Prelude.{◌≡◌, ◌≢◌, false, []};
ghost use Rattle.library_tracer.specs.Consoles.{ServesOnce};
ghost use Rattle.library_tracer.specs.ShownReplies.{Answers};
ghost use Rattle.tracectl_c.specs.Calls.{IsNotTried, IsToldServed, TriesServing, status_of_empty};
ghost use Rattle.tracectl_c.specs.Handles.{console_of};

use crate::replies::copy_prefix;
use crate::statuses::{BAD_VALUE, BUSY, LACKS_MEMORY, NOT_JOINED, NOT_NOW};
use crate::thread_handle::ThreadHandle;
use library_tracer::Served;
use std::alloc::Global;
use trace_command::Refusal;

/// How many bytes a reply has at most.
const MOST_REPLY: usize = 131_088;

/// Tells what a try came to that serves: whether something is owed after it, the length of the reply and as much of it as there is room for.
fn tell_served(
    tried: Option<Result<Served, Refusal>>,
    bytes: &[u8],
    reply: &mut [u8],
    reply_length: &mut usize,
    owes: &mut u32,
) -> u32
    ensures { IsToldServed tried bytes.now reply.old reply.new reply_length.new owes.new result }
{
    *reply_length = bytes.len();
    copy_prefix(bytes, reply);
    *owes = u32::from(matches!(tried, Some(Ok(Served::Done { owes: true }))));
    match tried {
        Some(Ok(Served::Done { .. })) => 0,
        Some(Ok(Served::NotNow)) => NOT_NOW,
        Some(Err(refusal)) => u32::from(refusal.number()),
        None => BUSY,
    }
}

/// Serves a request of the mount, as the kernel wrote it, in one try, and tells the bytes of its reply, which are none if it has none or waits. Where
/// something is owed, it is not served: that is to be told first. A request without bytes is refused.
#[unsafe(no_mangle)]
pub extern "C" fn tracectl_try_answer(
    alloc: Global,
    thread: &mut ThreadHandle,
    request: &[u8],
    reply: &mut [u8],
    reply_length: &mut usize,
    owes: &mut u32,
) -> u32
    ensures serves { request.now ≢ []
        → TriesServing (Answers request.now) (console_of thread.old) (console_of thread.new) reply.old reply.new reply_length.new owes.new result }
    ensures empty { request.now ≡ [] → (console_of thread.new ≡ console_of thread.old)
        × IsNotTried reply.old reply.new reply_length.new owes.new (status_of_empty (console_of thread.old)) result }
{
    *reply_length = 0;
    *owes = 0;
    let Some(mut console) = thread.take(alloc) else {
        return NOT_JOINED;
    };
    if request.is_empty() {
        thread.keep(console);
        return BAD_VALUE;
    }
    let Ok(mut bytes) = Vec::with_capacity(alloc, MOST_REPLY) else {
        thread.keep(console);
        return LACKS_MEMORY;
    };
    let tried = console.answer(request, &mut bytes);
    thread.keep(console);
    tell_served(tried, &bytes, reply, reply_length, owes)
}

/// Tells something that is owed to the mount in one try, as the bytes of a message to the kernel.
#[unsafe(no_mangle)]
pub extern "C" fn tracectl_try_tell(
    alloc: Global,
    thread: &mut ThreadHandle,
    reply: &mut [u8],
    reply_length: &mut usize,
    owes: &mut u32,
) -> u32
    ensures { TriesServing (λ bytes. ServesOnce [] bytes false) (console_of thread.old) (console_of thread.new) reply.old reply.new reply_length.new owes.new result }
{
    *reply_length = 0;
    *owes = 0;
    let Some(mut console) = thread.take(alloc) else {
        return NOT_JOINED;
    };
    let Ok(mut bytes) = Vec::with_capacity(alloc, MOST_REPLY) else {
        thread.keep(console);
        return LACKS_MEMORY;
    };
    let tried = console.tell(&mut bytes);
    thread.keep(console);
    tell_served(tried, &bytes, reply, reply_length, owes)
}
