//! What the last call of a thread came to: its reply, where its string is wrong, and what is wrong, in words.

ghost use Rattle.std.specs.Prelude.{◌≡◌, length, drop};
ghost use Rattle.library_tracer.specs.Sentences.{explanation_in};
ghost use Rattle.tracectl_c.specs.Calls.{Copies, explanation_read, offset_read, reply_read, filled};
ghost use Rattle.tracectl_c.specs.Handles.{console_of};

use crate::thread_handle::ThreadHandle;
use library_tracer::Console;
use std::alloc::Global;

/// Copies a prefix of a string: as many bytes as there is room for.
pub(crate) fn copy_prefix(text: &[u8], room: &mut [u8])
    ensures { room.new ≡ filled text.now room.old }
{
    let count = text.len().min(room.len());
    room[..count].copy_from_slice(&text[..count]);
}

/// A string without its first bytes, so many; nothing, where it has fewer.
#[tactic(auto, using(crate::proofs::ReplyLemmas::none_left))]
fn rest_of(text: &[u8], from: usize) -> &[u8]
    ensures { result.now ≡ drop from text.now }
{
    if from > text.len() {
        return &[];
    }
    &text[from..]
}

/// Copies what the thread's last call replied, from this byte on and as far as there is room, and tells how many bytes there are from there on; 0 where the
/// thread has not joined.
#[unsafe(no_mangle)]
pub extern "C" fn tracectl_try_reply(
    alloc: Global,
    thread: &mut ThreadHandle,
    from: usize,
    room: &mut [u8],
) -> usize
    ensures count { result ≡ length (drop from (reply_read (console_of thread.old))) }
    ensures copied { room.new ≡ filled (drop from (reply_read (console_of thread.old))) room.old }
    ensures same { console_of thread.new ≡ console_of thread.old }
{
    let Some(console) = thread.take(alloc) else {
        return 0;
    };
    let rest = rest_of(console.reply(), from);
    copy_prefix(rest, room);
    let count = rest.len();
    thread.keep(console);
    count
}

/// Where the string of the thread's last call is wrong, as the number of bytes before that; the greatest number if its refusal has no such offset, or the
/// thread has not joined.
#[unsafe(no_mangle)]
pub extern "C" fn tracectl_try_offset(alloc: Global, thread: &mut ThreadHandle) -> usize
    ensures offset { result ≡ offset_read (console_of thread.old) }
    ensures same { console_of thread.new ≡ console_of thread.old }
{
    let Some(console) = thread.take(alloc) else {
        return usize::MAX;
    };
    let offset = console.offset().unwrap_or(usize::MAX);
    thread.keep(console);
    offset
}

/// Copies what is wrong with the last call of a console, from this byte on and as far as there is room.
fn copy_explanation(console: &Console, from: usize, room: &mut [u8]) -> usize
    ensures { Copies (drop from (explanation_in console.now.last console.now.words)) room.old room.new result }
{
    let Ok(text) = console.explanation() else {
        return 0;
    };
    let rest = rest_of(&text, from);
    copy_prefix(rest, room);
    rest.len()
}

/// Copies what is wrong with the thread's last call, a sentence, from this byte on and as far as there is room, and tells how many bytes there are from there
/// on. There are none where the call was done, memory is refused or the thread has not joined.
#[unsafe(no_mangle)]
pub extern "C" fn tracectl_try_explain(
    alloc: Global,
    thread: &mut ThreadHandle,
    from: usize,
    room: &mut [u8],
) -> usize
    ensures copied { Copies (drop from (explanation_read (console_of thread.old))) room.old room.new result }
    ensures same { console_of thread.new ≡ console_of thread.old }
{
    let Some(console) = thread.take(alloc) else {
        return 0;
    };
    let count = copy_explanation(&console, from, room);
    thread.keep(console);
    count
}
