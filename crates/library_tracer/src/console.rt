//! The console of a thread: its calls at a tracer that threads share, and what the last of them came to.
//!
//! Nothing here waits. A call is one try: where somebody else has a turn, or is in line for one, it comes to nothing, and is to be made again. A console
//! that tried often may get in line. Then its calls have a turn once its ticket is served, and no other thread's ticket is served before that:
//!
//! ```text
//!   Idle ──── try, nobody in line ────> Idle, answered          Idle ── try, somebody in line ──> Idle, nothing was run
//!   Idle ──── get_in_line ────────────> InLine
//!   InLine ── try, ticket is served ──> Idle, answered        InLine ── try, it is not ─────────> InLine, nothing was run
//! ```

mod asking;
mod copying;
mod looking;
mod serving;
mod showing;

ghost use Rattle.std.specs.Prelude.{◌≡◌, ◌⊎◌, [], false, true, Some, IsSome, IfOk, IfSome, IfNone};
ghost use Rattle.std.specs.Arc.{arc_value};
ghost use Rattle.trace_command.specs.declared.command.Reply.TheVariants as replies;
ghost use Rattle.trace_script.specs.declared.outcome.Outcome.TheVariants as outcomes;
ghost use Rattle.shared_mount.specs.MountCallers.{terms_of, IsCallerOf};
ghost use Rattle.shared_mount.specs.declared.shared.SharedMount.{SharedMount as SharedSeen};
ghost use Rattle.library_tracer.specs.Consoles.{Tells, Comes, HasLeft, IsBusy, IsOfTracer, IsWornOut};
ghost use Rattle.library_tracer.specs.Inner.{known_by};
ghost use Rattle.library_tracer.specs.Sentences.{explanation_in};
ghost use Rattle.library_tracer.specs.Statuses.{offset_in, reply_in, status_of};
ghost use Rattle.library_tracer.specs.private.Tries.{caller_back, idle_after, queued_after, told_in_line, told_of};

use crate::last::Last;
use crate::queued::Queued;
use crate::status::{self, tell};
use mount_replies::ShownText;
use shared_mount::{Caller, InLine, NoTurn, Nothing, SharedMount};
use std::alloc::{AllocError, Global};
use std::marker::Model;
use std::mem;
use std::sync::Arc;
use trace_command::{Refusal, Reply};
use trace_script::Outcome;

/// What is wrong where memory is refused.
const NO_MEMORY: &str = "out of memory";

/// What is wrong where nothing is answered any more.
const ALL_DRAWN: &str = "all tickets are drawn";

/// The console of a thread: a caller of a tracer that is shared, and what its last call came to.
pub struct Console {
    alloc: Global,
    tracer: Arc<SharedMount, Global>,
    idle: Option<Caller>,
    queued: Option<Queued>,
    last: Last,
    /// Where the tracer puts an answer that is more than that a call was done.
    answer: Result<Reply, Refusal>,
    /// The number of the kernel's request for which a text was looked for last, until it is served of one, and what was made for it, if it wants one.
    looked: Option<u64>,
    shown: Option<ShownText>,
}

impl Drop for Console {
    // Not derived, so that no crate above proves the drops of its parts.
    fn drop(self) {
        let Console {
            alloc: _,
            tracer: _,
            idle: _,
            queued: _,
            last: _,
            answer: _,
            looked: _,
            shown: _,
        } = self;
    }
}

/// What a try came to.
#[derive(Clone, Copy)]
pub enum Tried {
    /// The call was made, with this status. Whether something is owed to the mount then, as the reply of a read that waits for a record: somebody has to tell
    /// it (`Console::tell`).
    Told { status: u8, owes: bool },
    /// Somebody else has a turn or is in line for one: nothing was run, and the last outcome is as it was.
    Busy,
}

impl Model for Console {
    ghost use Rattle.library_tracer.specs.ConsolesSeen.{ConsoleSeen};

    ghost Value = { ConsoleSeen };

    ghost use Rattle.library_tracer.specs.Inner.{seen, IsSound};

    ghost view = { seen };

    ghost invariant = { IsSound };
}

impl Console {
    /// The console of a caller, of which nothing was asked.
    pub fn new(alloc: Global, tracer: Arc<SharedMount, Global>, caller: Caller) -> Console
        requires { IsCallerOf (arc_value tracer) caller }
        ensures { result ≡ record {
          tracer = (arc_value tracer).lock.table.shared.table_id;
          terms = terms_of (arc_value tracer);
          has = Some (known_by caller);
          is_in_line = false;
          last = outcomes.Replied replies.Done;
          words = [];
        } }
    {
        Console {
            alloc,
            tracer,
            idle: Some(caller),
            queued: None,
            last: Last {
                outcome: Outcome::Replied(Reply::Done),
                words: "",
            },
            answer: Ok(Reply::Done),
            looked: None,
            shown: None,
        }
    }

    /// Gets in line, so that a later call has its turn though others ask, too, and tells whether it is in line. It waits for nobody. It is not where another
    /// got in line at the same moment, or where all tickets are drawn, which the next call tells.
    pub fn get_in_line(&mut self) -> bool
        requires { IsSome self.old.has }
        ensures line { result ≡ self.new.is_in_line }
        ensures same { IsBusy (record self.old { is_in_line = result }) self.new ⊎ IsWornOut self.old self.new }
        ensures stays { self.old.is_in_line ≡ true → self.new ≡ self.old }
        ensures has { IsSome self.new.has }
    {
        match mem::replace(&mut self.idle, None) {
            Some(caller) => match self.tracer.draw(caller) {
                Ok(line) => {
                    line_up(&mut self.queued, line);
                    true
                }
                Err(NoTurn::Busy(caller)) => {
                    settle(&mut self.idle, caller);
                    false
                }
                Err(NoTurn::Worn(caller)) => {
                    settle(&mut self.idle, caller);
                    false
                }
            },
            None => self.queued.is_some(),
        }
    }

    /// Tells that a call was refused before anything was asked, and what is wrong with it, in words.
    pub fn refuse(&mut self, refusal: Refusal, words: &'static str) -> Tried
        requires { IsSome self.old.has }
        ensures comes { Comes (Tells (outcomes.Refused refusal) words.now) self.old self.new result }
        ensures has { IsSome self.new.has }
    {
        self.told(Outcome::Refused(refusal), words)
    }

    /// Tells what a call came to that asked nothing, with these words.
    fn told(&mut self, outcome: Outcome, words: &'static str) -> Tried
        ensures comes { Comes (Tells outcome words.now) self.old self.new result }
        ensures has { IsSome self.old.has → IsSome self.new.has }
    {
        let status = tell(&mut self.last, outcome, words);
        Tried::Told {
            status,
            owes: false,
        }
    }

    /// The status of the last call: 0 if it was done, the number of its refusal, or 100 and the number of its fault.
    pub fn status(&self) -> u8
        ensures { result ≡ status_of self.now.last }
    {
        status::status_of(&self.last.outcome)
    }

    /// The bytes that the last call gave: what was read, or the name of the field whose value is wrong.
    pub fn reply(&self) -> &[u8]
        ensures { result.now ≡ reply_in self.now.last }
    {
        status::reply_in(&self.last.outcome)
    }

    /// Where the string of the last call is wrong, as how many bytes stand before that, if its refusal tells it.
    pub fn offset(&self) -> Option<usize>
        ensures { result ≡ offset_in self.now.last }
    {
        status::offset_in(&self.last.outcome)
    }

    /// What is wrong with the last call, in a sentence; of one that was done there is none.
    pub fn explanation(&self) -> Result<Vec<u8>, AllocError>
        ensures { IfOk result (λ text. text.items ≡ explanation_in self.now.last self.now.words) }
    {
        status::explanation_in(self.alloc, &self.last.outcome, self.last.words)
    }

    /// Gives the caller back, and the console leaves: one that is in line has its turn first. Nothing is done where that isn't its yet.
    pub fn leave(&mut self) -> Option<Caller>
        requires { IsSome self.old.has }
        ensures gone { IfSome result (λ caller. HasLeft self.old self.new (known_by caller)) }
        ensures of { (shared : SharedSeen) → IsOfTracer shared self.old → IfSome result (λ caller. IsCallerOf shared caller) }
        ensures busy { IfNone result ((self.new ≡ self.old) × (self.old.is_in_line ≡ true)) }
    {
        if self.queued.is_some() {
            return self.leave_line();
        }
        forget(&mut self.shown);
        mem::replace(&mut self.idle, None)
    }

    /// As `leave`, of a caller that is in line.
    fn leave_line(&mut self) -> Option<Caller>
        requires { self.old.is_in_line ≡ true }
        ensures gone { IfSome result (λ caller. HasLeft self.old self.new (known_by caller)) }
        ensures of { (shared : SharedSeen) → IsOfTracer shared self.old → IfSome result (λ caller. IsCallerOf shared caller) }
        ensures busy { IfNone result (self.new ≡ self.old) }
    {
        match self.look_in_line(&Nothing) {
            Some(_) => {
                forget(&mut self.shown);
                mem::replace(&mut self.idle, None)
            }
            None => None,
        }
    }
}

/// Puts a caller where it is idle. (The drop of what was there is proved once, here.)
#[inline(always)]
fn settle(idle: &mut Option<Caller>, caller: Caller)
    ensures { idle.new ≡ Some caller }
{
    *idle = Some(caller);
}

/// Puts a caller where it is in line.
#[inline(always)]
fn line_up(queued: &mut Option<Queued>, line: InLine)
    ensures { queued.new ≡ Some (record { line = line }) }
{
    *queued = Some(Queued { line });
}

/// Puts back the caller that a try gave back, and tells what the try came to: nothing, where somebody else has a turn.
#[inline(always)]
fn settle_tried<T>(
    idle: &mut Option<Caller>,
    tried: Result<(Caller, T), NoTurn>,
) -> Option<Result<T, Refusal>>
    ensures idle { idle.new ≡ Some (caller_back tried) }
    ensures told { result ≡ told_of tried }
{
    match tried {
        Ok((caller, told)) => {
            settle(idle, caller);
            Some(Ok(told))
        }
        Err(NoTurn::Busy(caller)) => {
            settle(idle, caller);
            None
        }
        Err(NoTurn::Worn(caller)) => {
            settle(idle, caller);
            Some(Err(Refusal::Worn))
        }
    }
}

/// As `settle_tried`, of one that was in line, and is again where its ticket is not served yet.
#[inline(always)]
fn settle_in_line<T>(
    idle: &mut Option<Caller>,
    queued: &mut Option<Queued>,
    tried: Result<(Caller, T), InLine>,
) -> Option<Result<T, Refusal>>
    ensures idle { idle.new ≡ idle_after idle.old tried }
    ensures queued { queued.new ≡ queued_after queued.old tried }
    ensures told { result ≡ told_in_line tried }
{
    match tried {
        Ok((caller, told)) => {
            settle(idle, caller);
            Some(Ok(told))
        }
        Err(line) => {
            line_up(queued, line);
            None
        }
    }
}

/// Drops a text that is kept for a request.
#[inline(always)]
fn forget(shown: &mut Option<ShownText>)
    ensures { shown.new ≡ None }
{
    *shown = None;
}
