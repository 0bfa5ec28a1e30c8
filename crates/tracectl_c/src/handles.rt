//! Tracers that are opened and closed, and threads that join and leave.

ghost use Rattle.std.specs.Prelude.{◌≡◌, ◌≢◌, ◌≤◌, None, Some, Option, IfSome};
ghost use Rattle.trace_command.specs.Configs.{IsInRange};
ghost use Rattle.tracer.specs.Lives.{most_done};
ghost use Rattle.library_tracer.specs.PassesSeen.{AreNew, HasClosed, HasTaken, IsOfPasses, PassesSeen, made_with};
ghost use Rattle.tracectl_c.specs.Calls.{Joins, Leaves, config_of, limit_of, owners_of};
ghost use Rattle.tracectl_c.specs.Handles.{console_of, passes_of};

use crate::settings::{Settings, config_of, limit_of, owners_of};
use crate::statuses::{
    ALREADY_JOINED, ALREADY_OPEN, BUSY, NO_PASS_LEFT, NOT_JOINED, NOT_OPEN, STILL_JOINED,
};
use crate::thread_handle::ThreadHandle;
use crate::tracer_handle::TracerHandle;
use library_tracer::{Console, JoinError, Owners, Passes};
use std::alloc::Global;
use trace_command::{Config, Refusal};

/// A tracer's passes on the heap: none if memory is refused.
fn boxed_passes(
    alloc: Global,
    config: Config,
    owners: Owners,
    limit: u64,
) -> Option<Box<Passes, Global>>
    requires in_range { IsInRange config }
    requires few { limit ≤ most_done }
    ensures { IfSome result (λ passes. AreNew (made_with config owners limit) passes.value) }
{
    let passes = Passes::new(alloc, config, owners, limit).ok()?;
    Box::new(alloc, passes).ok()
}

/// Opens a handle: a tracer of which nothing was asked, and all its passes. A handle that is open stays as it is.
#[unsafe(no_mangle)]
#[tactic(auto, unfolding(trace_command::specs::Refusals::number_of))]
pub extern "C" fn tracectl_try_open(
    alloc: Global,
    tracer: &mut TracerHandle,
    settings: &Settings,
) -> u32
    ensures open { passes_of tracer.old ≢ None → (result ≡ 201) × (passes_of tracer.new ≡ passes_of tracer.old) }
    ensures made { result ≡ 0 → IfSome (passes_of tracer.new) (AreNew (made_with (config_of settings.now) (owners_of settings.now) (limit_of settings.now)))
        × (passes_of tracer.new ≢ None) × IsInRange (config_of settings.now) }
    ensures refused { result ≢ 0 → passes_of tracer.new ≡ passes_of tracer.old }
    ensures out_of_range { passes_of tracer.old ≡ None → ¬ IsInRange (config_of settings.now) → result ≡ 4 }
    ensures memory { passes_of tracer.old ≡ None → IsInRange (config_of settings.now) → result ≢ 0 → result ≡ 23 }
{
    if tracer.is_open() {
        return ALREADY_OPEN;
    }
    let config = config_of(settings);
    if !config.is_in_range() {
        return u32::from(Refusal::BadValue.number());
    }
    let Some(passes) = boxed_passes(alloc, config, owners_of(settings), limit_of(settings)) else {
        return u32::from(Refusal::Memory.number());
    };
    tracer.keep(passes);
    0
}

/// Puts the caller of a console back that was taken and could not be kept.
fn put_back(passes: &mut Passes, mut console: Console)
    requires { (before : Option PassesSeen) × HasTaken before passes.old console }
    ensures { (before : Option PassesSeen) → HasTaken before passes.old console → passes.new ≡ before }
{
    if let Some(caller) = console.leave() {
        passes.put_back(caller);
    }
}

/// Takes a pass for a thread, and keeps its console.
fn join(alloc: Global, passes: &mut Passes, thread: &mut ThreadHandle) -> u32
    requires { console_of thread.old ≡ None }
    ensures { Joins (Some passes.old) (Some passes.new) None (console_of thread.new) result }
{
    match passes.join() {
        Ok(console) => match Box::new(alloc, console) {
            Ok(console) => {
                thread.keep(console);
                0
            }
            Err(failed) => {
                put_back(passes, failed.value);
                u32::from(Refusal::Memory.number())
            }
        },
        Err(JoinError::NoPass) => NO_PASS_LEFT,
        Err(JoinError::Memory) => u32::from(Refusal::Memory.number()),
    }
}

/// Has a thread join a tracer: it takes a pass.
#[unsafe(no_mangle)]
pub extern "C" fn tracectl_try_join(
    alloc: Global,
    tracer: &mut TracerHandle,
    thread: &mut ThreadHandle,
) -> u32
    ensures { Joins (passes_of tracer.old) (passes_of tracer.new) (console_of thread.old) (console_of thread.new) result }
{
    if thread.is_joined() {
        return ALREADY_JOINED;
    }
    let Some(mut passes) = tracer.take(alloc) else {
        return NOT_OPEN;
    };
    let status = join(alloc, &mut passes, thread);
    tracer.keep(passes);
    status
}

/// Takes a console's pass back, unless it is in line and not its turn.
fn leave(alloc: Global, passes: &mut Passes, thread: &mut ThreadHandle) -> u32
    requires { IsOfPasses (Some passes.old) (console_of thread.old) }
    ensures { Leaves (Some passes.old) (Some passes.new) (console_of thread.old) (console_of thread.new) result }
{
    let Some(mut console) = thread.take(alloc) else {
        return NOT_JOINED;
    };
    match console.leave() {
        Some(caller) => {
            passes.put_back(caller);
            drop(console);
            0
        }
        None => {
            thread.keep(console);
            BUSY
        }
    }
}

/// Has a thread leave the tracer that it joined: its pass is put back. A thread that is in line has its turn first.
#[unsafe(no_mangle)]
pub extern "C" fn tracectl_try_leave(
    alloc: Global,
    tracer: &mut TracerHandle,
    thread: &mut ThreadHandle,
) -> u32
    requires { IsOfPasses (passes_of tracer.old) (console_of thread.old) }
    ensures { Leaves (passes_of tracer.old) (passes_of tracer.new) (console_of thread.old) (console_of thread.new) result }
{
    let Some(mut passes) = tracer.take(alloc) else {
        return NOT_OPEN;
    };
    let status = leave(alloc, &mut passes, thread);
    tracer.keep(passes);
    status
}

/// Closes a handle, once all threads have left.
#[unsafe(no_mangle)]
pub extern "C" fn tracectl_try_close(alloc: Global, tracer: &mut TracerHandle) -> u32
    ensures closed { result ≡ 0 → IfSome (passes_of tracer.old) (λ passes. HasClosed passes None) × (passes_of tracer.new ≡ None) }
    ensures refused { result ≢ 0 → passes_of tracer.new ≡ passes_of tracer.old }
    ensures was_closed { passes_of tracer.old ≡ None → result ≡ 200 }
    ensures still_joined { passes_of tracer.old ≢ None → result ≢ 0 → result ≡ 206 }
{
    let Some(mut passes) = tracer.take(alloc) else {
        return NOT_OPEN;
    };
    if !passes.close() {
        tracer.keep(passes);
        return STILL_JOINED;
    }
    drop(passes);
    0
}
