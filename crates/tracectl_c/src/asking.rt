//! Calls that ask the tracer for something: lines, emissions, writes, reads and lists. Each is one try.

ghost use Rattle.std.specs.Prelude.{◌≡◌, [], ◌∷◌, IsSome};
ghost use Rattle.library_tracer.specs.Consoles.{Comes, Lists, said_emission, said_line};
ghost use Rattle.library_tracer.specs.LateTexts.{Reads};
ghost use Rattle.tracectl_c.specs.Calls.{ComesMasked, IsLinedUp, MasksOrLacksMemory, OrLacksMemory, Tries, TriesMasked, limit_if, said_given, said_write};
ghost use Rattle.tracectl_c.specs.GivenValues.{values_in};
ghost use Rattle.tracectl_c.specs.Handles.{console_of};

use crate::statuses::{BUSY, NOT_JOINED, status_of};
use crate::thread_handle::ThreadHandle;
use crate::value::{FEW, Value, put_few, value_in, values_in};
use library_tracer::{Console, Mask, Tried};
use std::alloc::{AllocError, Global};
use std::slice;
use trace_command::Refusal;
use trace_format::FieldValue;

/// What is wrong with a value that is neither a number nor bytes.
const NO_KIND: &str = "a value is of none of the three kinds";

/// What is wrong where memory is refused.
const NO_MEMORY: &str = "out of memory";

/// Gets a thread in line, so that a later try of it has its turn though others ask, too. `BUSY`: another got in line at the same moment, and it is to be
/// tried again.
#[unsafe(no_mangle)]
pub extern "C" fn tracectl_try_line_up(alloc: Global, thread: &mut ThreadHandle) -> u32
    ensures { IsLinedUp (console_of thread.old) (console_of thread.new) result }
{
    let Some(mut console) = thread.take(alloc) else {
        return NOT_JOINED;
    };
    let is_in_line = console.get_in_line();
    thread.keep(console);
    if is_in_line { 0 } else { BUSY }
}

/// Does a line of a script, and tells which events are wanted then, unless nothing was asked.
#[unsafe(no_mangle)]
pub extern "C" fn tracectl_try_line(
    alloc: Global,
    thread: &mut ThreadHandle,
    line: &[u8],
    mask: &mut Mask,
) -> u32
    ensures { TriesMasked (MasksOrLacksMemory (said_line line.now)) (console_of thread.old) (console_of thread.new) mask.old mask.new result }
{
    let Some(mut console) = thread.take(alloc) else {
        return NOT_JOINED;
    };
    let tried = console.line(line, mask);
    thread.keep(console);
    status_of(tried)
}

/// Does an emission. Its fields are one string: `NAME=VALUE` for each, with a byte 0 between each two.
#[unsafe(no_mangle)]
pub extern "C" fn tracectl_try_emit(
    alloc: Global,
    thread: &mut ThreadHandle,
    event: &[u8],
    cpu: u32,
    process: i32,
    fields: &[u8],
) -> u32
    ensures { Tries (OrLacksMemory (said_emission event.now cpu process fields.now)) (console_of thread.old) (console_of thread.new) result }
{
    let Some(mut console) = thread.take(alloc) else {
        return NOT_JOINED;
    };
    let tried = console.emit(event, cpu, process, fields);
    thread.keep(console);
    status_of(tried)
}

/// Asks a console for an emission of a lone value, for which no list is allocated.
fn emit_one(console: &mut Console, event: u32, cpu: u32, process: i32, value: &Value<'_>) -> Tried
    requires { IsSome console.old.has }
    ensures asked { Comes (said_given event cpu process (values_in (value.now ∷ []))) console.old console.new result }
    ensures has { IsSome console.new.has }
{
    match value_in(value) {
        Some(value) => console.emit_values(event, cpu, process, slice::from_ref(&value)),
        None => console.refuse(Refusal::BadValue, NO_KIND),
    }
}

/// Asks a console for an emission of the values of a list.
#[cold]
#[inline(never)]
fn emit_list(
    console: &mut Console,
    alloc: Global,
    event: u32,
    cpu: u32,
    process: i32,
    values: &[Value<'_>],
) -> Tried
    requires { IsSome console.old.has }
    ensures asked { OrLacksMemory (said_given event cpu process (values_in values.now)) console.old console.new result }
    ensures has { IsSome console.new.has }
{
    match values_in(alloc, values) {
        Ok(Some(values)) => console.emit_values(event, cpu, process, &values),
        Ok(None) => console.refuse(Refusal::BadValue, NO_KIND),
        Err(AllocError) => console.refuse(Refusal::Memory, NO_MEMORY),
    }
}

/// Asks a console for an emission of several values, or of none. Few are put on the stack, and no list of them is allocated.
#[inline(never)]
fn emit_several(
    console: &mut Console,
    alloc: Global,
    event: u32,
    cpu: u32,
    process: i32,
    values: &[Value<'_>],
) -> Tried
    requires { IsSome console.old.has }
    ensures asked { OrLacksMemory (said_given event cpu process (values_in values.now)) console.old console.new result }
    ensures has { IsSome console.new.has }
{
    if values.len() > FEW {
        return emit_list(console, alloc, event, cpu, process, values);
    }
    let mut room = [FieldValue::Unsigned(0); FEW];
    if put_few(values, &mut room) {
        console.emit_values(event, cpu, process, &room[..values.len()])
    } else {
        console.refuse(Refusal::BadValue, NO_KIND)
    }
}

/// Asks a console for an emission of the values that are given.
fn emit_given(
    console: &mut Console,
    alloc: Global,
    event: u32,
    cpu: u32,
    process: i32,
    values: &[Value<'_>],
) -> Tried
    requires { IsSome console.old.has }
    ensures asked { OrLacksMemory (said_given event cpu process (values_in values.now)) console.old console.new result }
    ensures has { IsSome console.new.has }
{
    match values {
        [value] => emit_one(console, event, cpu, process, value),
        _ => emit_several(console, alloc, event, cpu, process, values),
    }
}

/// Does an emission of the event of this number, from 1 in order of declaration. The values are those of its fields, in order of declaration.
#[unsafe(no_mangle)]
pub extern "C" fn tracectl_try_emit_values(
    alloc: Global,
    thread: &mut ThreadHandle,
    event: u32,
    cpu: u32,
    process: i32,
    values: &[Value<'_>],
) -> u32
    ensures { Tries (OrLacksMemory (said_given event cpu process (values_in values.now))) (console_of thread.old) (console_of thread.new) result }
{
    let Some(mut console) = thread.take(alloc) else {
        return NOT_JOINED;
    };
    let tried = emit_given(&mut console, alloc, event, cpu, process, values);
    thread.keep(console);
    status_of(tried)
}

/// Writes a string to a file, as `echo TEXT > PATH` does, or, unless `append` is 0, appends it, as `echo TEXT >> PATH`; and tells which events are wanted
/// then.
#[unsafe(no_mangle)]
pub extern "C" fn tracectl_try_write(
    alloc: Global,
    thread: &mut ThreadHandle,
    path: &[u8],
    text: &[u8],
    append: u32,
    mask: &mut Mask,
) -> u32
    ensures { TriesMasked (ComesMasked (said_write path.now append text.now)) (console_of thread.old) (console_of thread.new) mask.old mask.new result }
{
    let Some(mut console) = thread.take(alloc) else {
        return NOT_JOINED;
    };
    let tried = console.write(path, text, append != 0, mask);
    thread.keep(console);
    status_of(tried)
}

/// What is asked of a pipe: all that it has, unless `is_limited`.
fn limit_if(is_limited: u32, limit: u64) -> Option<u64>
    ensures { result ≡ limit_if is_limited limit }
{
    if is_limited == 0 { None } else { Some(limit) }
}

/// Reads a file to its end, as `cat PATH` does; or, unless `is_limited` is 0, at most so many records of a pipe, as `take LIMIT PATH`. The text of `trace`,
/// `per_cpu/cpuN/trace`, `snapshot` or an event's `hist` is made after the turn, while others have theirs.
#[unsafe(no_mangle)]
pub extern "C" fn tracectl_try_read(
    alloc: Global,
    thread: &mut ThreadHandle,
    path: &[u8],
    is_limited: u32,
    limit: u64,
) -> u32
    ensures { Tries (Reads path.now (limit_if is_limited limit)) (console_of thread.old) (console_of thread.new) result }
{
    let Some(mut console) = thread.take(alloc) else {
        return NOT_JOINED;
    };
    let tried = console.read(path, limit_if(is_limited, limit));
    thread.keep(console);
    status_of(tried)
}

/// Lists the files that there are, as `tracectl --list` does. The list is the reply.
#[unsafe(no_mangle)]
pub extern "C" fn tracectl_try_files(alloc: Global, thread: &mut ThreadHandle) -> u32
    ensures { Tries Lists (console_of thread.old) (console_of thread.new) result }
{
    let Some(mut console) = thread.take(alloc) else {
        return NOT_JOINED;
    };
    let tried = console.files();
    thread.keep(console);
    status_of(tried)
}
