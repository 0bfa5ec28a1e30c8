//! The passes of a tracer, by which threads join it and leave it.
//!
//! A lock's root pass has the names 0 to 65,535. It is split evenly, ten times, so that each of 1,024 passes has 64 names in a row, and they lie in an array
//! by name. A thread takes one and puts it back, whole, where it was: so whatever the order in which threads come and go, the array is whole once all are
//! back, and neighbours meet from left to right.
//!
//! ```text
//!   index    0          1           2          ..   1,023
//!   names    0 .. 64    64 .. 128   128 .. 192  ..   65,472 .. 65,536
//!            pass       -           pass        ..   pass                a thread has pass 1
//! ```

ghost use Rattle.std.specs.Prelude.{◌≡◌, ◌≢◌, ◌↔◌, ◌≤◌, ◌+◌, ◌*◌, ◌^◌, [], ◌++◌};
ghost use Rattle.std.specs.Prelude.{true, false, IfOk, IfErr, OnOk, IsSome, List, Option, Some, IfSome, vec_len, vec_capacity};
ghost use Rattle.std.specs.Arc.{arc_value};
ghost use Rattle.trace_command.specs.Configs.{IsInRange};
ghost use Rattle.trace_command.specs.declared.refusal.Refusal.TheVariants as refusals;
ghost use Rattle.tracer.specs.Lives.{most_done};
ghost use Rattle.shared_mount.specs.MountCallers.{caller_view, terms_of, IsCallerOf};
ghost use Rattle.shared_mount.specs.MountEntries.{EntrySeen};
ghost use Rattle.shared_mount.specs.MountHistories.{IsOneHistory};
ghost use Rattle.shared_mount.specs.declared.caller.Caller.{Caller as CallerSeen};
ghost use Rattle.library_tracer.specs.PassesSeen.{made_with};
ghost use Rattle.library_tracer.specs.Tiled.{AreFresh, AreParts, ContinuesEach, IsFirstThere, IsRootOf};

use crate::console::Console;
use shared_mount::{Caller, Owners, SharedMount};
use std::alloc::{AllocError, Global};
use std::marker::Model;
use std::mem;
use std::sync::Arc;
use trace_command::{Config, Refusal};

/// How many passes there are, and so how many threads at a time.
pub const PASSES: usize = 1024;

/// How often the root pass is split.
const SPLITS: u32 = 10;

/// How many names a pass has.
const NAMES: u32 = 64;

/// A tracer that threads share, and the passes that no thread has; or nothing any more, once it is closed.
pub struct Passes {
    alloc: Global,
    tracer: Option<Arc<SharedMount, Global>>,
    callers: Vec<Option<Caller>>,
}

impl Drop for Passes {
    // Not derived, so that no crate above proves the drops of its parts.
    fn drop(self) {
        let Passes {
            alloc: _,
            tracer: _,
            callers: _,
        } = self;
    }
}

/// Why no thread joined.
pub enum JoinError {
    /// All passes are taken.
    NoPass,
    /// There is no memory.
    Memory,
}

/// Splits a caller so often, and adds the parts to a list, from left to right.
fn split_evenly(tracer: &SharedMount, caller: Caller, times: u32, callers: &mut Vec<Option<Caller>>)
    requires of { IsCallerOf tracer.now caller }
    requires names { (caller_view caller).end ≡ (caller_view caller).low + 64 * 2 ^ times }
    requires fresh { (caller_view caller).seen ≡ [] }
    requires room { vec_len callers.old + 2 ^ times ≤ vec_capacity callers.old }
    ensures added { (added : List (Option CallerSeen)) × (callers.new.items ≡ callers.old.items ++ added)
        × AreParts tracer.now (caller_view caller).low (2 ^ times) added
        × AreFresh added }
    ensures capacity { vec_capacity callers.new ≡ vec_capacity callers.old }
    ensures len { vec_len callers.new ≡ vec_len callers.old + 2 ^ times }
{
    if times == 0 {
        callers.push_reserved(Some(caller));
        return;
    }
    match tracer.split(caller) {
        Ok((lower, upper)) => {
            split_evenly(tracer, lower, times - 1, callers);
            split_evenly(tracer, upper, times - 1, callers);
        }
        Err(_) => unreachable!(),
    }
}

impl Model for Passes {
    ghost use Rattle.std.specs.Prelude.{Option};
    ghost use Rattle.library_tracer.specs.PassesSeen.{PassesSeen};

    ghost Value = { Option PassesSeen };

    ghost use Rattle.library_tracer.specs.InnerPasses.{seen, IsSound};

    ghost view = { seen };

    ghost invariant = { IsSound };
}

impl Passes {
    ghost use Rattle.library_tracer.specs.Inner.{known_by};
    ghost use Rattle.library_tracer.specs.PassesSeen.{AreNew, CanPutBack, HasBack, HasClosed, HasTaken, IsWhole, NoneIsThere};

    /// A tracer of which nothing was asked, and all its passes. The files of its mount are these people's. `BadValue` comes exactly where a number of the
    /// configuration is out of range.
    ///
    /// The limit is by calls: once `limit` commands were done, by calls or by the mount, a call does no more. Requests of the mount heed no limit but 2^60,
    /// and the limit of the configuration says nothing of either.
    pub fn new(alloc: Global, config: Config, owners: Owners, limit: u64) -> Result<Passes, Refusal>
        requires { limit ≤ most_done }
        ensures made { IfOk result (AreNew (made_with config owners limit)) }
        ensures in_range { OnOk result (IsInRange config) }
        ensures out_of_range { ¬ IsInRange config → IfErr result (λ r. r ≡ refusals.BadValue) }
        ensures refused { IfErr result (λ r. r ≢ refusals.Memory → (r ≡ refusals.BadValue) × ¬ IsInRange config) }
    {
        let (tracer, root) = SharedMount::new(alloc, config, owners, limit)?;
        let mut callers = Vec::with_capacity(alloc, PASSES)?;
        split_evenly(&tracer, root, SPLITS, &mut callers);
        match share(alloc, tracer) {
            Ok(tracer) => Ok(Passes {
                alloc,
                tracer: Some(tracer),
                callers,
            }),
            Err(_) => Err(Refusal::Memory),
        }
    }

    /// Takes a pass for a thread, the first that is there. Where none is, or there is no memory, nothing changes.
    pub fn join(&mut self) -> Result<Console, JoinError>
        ensures taken { IfOk result (HasTaken self.old self.new) }
        ensures err { IfErr result (λ error. (self.new ≡ self.old) × (error ≡ JoinError.NoPass → NoneIsThere self.old)) }
        ensures none { NoneIsThere self.old → IfErr result (λ error. error ≡ JoinError.NoPass) }
    {
        let Some(tracer) = &self.tracer else {
            return Err(JoinError::NoPass);
        };
        let Some(index) = first_there(&self.callers) else {
            return Err(JoinError::NoPass);
        };
        let Ok(tracer) = Arc::try_clone(tracer) else {
            return Err(JoinError::Memory);
        };
        match mem::replace(&mut self.callers[index], None) {
            Some(caller) => Ok(Console::new(self.alloc, tracer, caller)),
            None => Err(JoinError::NoPass),
        }
    }

    /// Puts a pass back that a thread had.
    pub fn put_back(&mut self, caller: Caller)
        requires { CanPutBack self.old caller }
        ensures { HasBack self.old self.new (known_by caller) }
    {
        let index = (caller.names().start / NAMES) as usize;
        self.callers[index] = Some(caller);
    }

    /// Whether all passes are there.
    pub fn is_whole(&self) -> bool
        ensures { result ≡ true ↔ IsWhole self.now }
    {
        self.tracer.is_some() && self.callers.iter().all(Option::is_some)
    }

    /// Ends the tracer if all passes are there, and no thread has a console of it: they meet, from left to right, and one history has all turns.
    /// Otherwise all stays as it was. Has whether it ended.
    pub fn close(&mut self) -> bool
        ensures closed { result ≡ true → HasClosed self.old self.new }
        ensures refused { result ≡ false → self.new ≡ self.old }
    {
        if !self.is_whole() {
            return false;
        }
        let Some(tracer) = mem::replace(&mut self.tracer, None) else {
            return false;
        };
        match Arc::try_unwrap(tracer) {
            Ok(tracer) => {
                end(
                    tracer,
                    mem::replace(&mut self.callers, Vec::new(self.alloc)),
                );
                true
            }
            Err(tracer) => {
                stay_open(&mut self.tracer, tracer);
                false
            }
        }
    }
}

/// Shares a tracer, if there is memory. (What is dropped otherwise is proved here, without all passes at hand.)
fn share(alloc: Global, tracer: SharedMount) -> Result<Arc<SharedMount, Global>, AllocError>
    ensures ok { IfOk result (λ shared. arc_value shared ≡ tracer) }
{
    match Arc::new(alloc, tracer) {
        Ok(shared) => Ok(shared),
        Err(_) => Err(AllocError),
    }
}

/// Puts a tracer back that goes on.
fn stay_open(place: &mut Option<Arc<SharedMount, Global>>, tracer: Arc<SharedMount, Global>)
    ensures { place.new ≡ Some tracer }
{
    *place = Some(tracer);
}

/// The index of the first caller that is there.
fn first_there(callers: &[Option<Caller>]) -> Option<usize>
    ensures { IsFirstThere callers.now result }
{
    callers.iter().position(Option::is_some)
}

/// Has all callers meet, from left to right.
fn meet_all(tracer: &SharedMount, callers: Vec<Option<Caller>>) -> Option<Caller>
    requires { AreParts tracer.now 0 1024 callers.items }
    ensures some { IsSome result }
    ensures all { IfSome result (IsRootOf tracer.now callers.items) }
{
    let mut met = None;
    for caller in callers {
        met = match (met, caller) {
            (Some(first), Some(second)) => Some(tracer.meet(first, second)),
            (None, second) => second,
            (first, None) => first,
        };
    }
    met
}

/// Has all callers meet, and ends the lock by the one that they make.
fn end(tracer: SharedMount, callers: Vec<Option<Caller>>)
    requires { AreParts tracer 0 1024 callers.items }
    ensures { (history : List EntrySeen) × IsOneHistory (terms_of tracer) history × ContinuesEach history 0 callers.items }
{
    if let Some(root) = meet_all(&tracer, callers) {
        let _ended = tracer.close(root);
    }
}
