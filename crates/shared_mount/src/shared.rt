//! A mounted tracer behind a lock, and its callers' turns.
//!
//! The root caller has all callers' numbers. It is split, and callers that are neighbours meet again:
//!
//! ```text
//!   0 .. 65536                      the root caller
//!   0 .. 32768   |   32768 .. 65536 two callers, for two threads
//!   0 .. 65536                      they have met, and know what both had seen
//! ```
//!
//! Nothing waits. A `try_` has a turn if nobody is in line; `draw` puts a caller in line, whose turn an `_in_line` tries.

mod copying;
mod showing;

ghost use Rattle.std.specs.Prelude.{◌≡◌, ◌≢◌, ◌↔◌, ◌+◌, ◌<◌, ◌≤◌, true, false, [], vec_capacity, IfOk, IfErr, IsOk, OnOk, MatchResult};
ghost use Rattle.ticket_lock.specs.Calls.{IsRoot, AreHalves, IsMet, HasLooked};
ghost use Rattle.ticket_lock.specs.Views.{HasAllNames};
ghost use Rattle.trace_command.specs.Configs.{IsInRange};
ghost use Rattle.trace_command.specs.declared.refusal.Refusal.TheVariants as refusal;
ghost use Rattle.tracer.specs.Lives.{most_done};
ghost use Rattle.mount_replies.specs.Mounted.{most_reply};
ghost use Rattle.mount_replies.specs.Calls.{answer_of};
ghost use Rattle.shared_mount.specs.AskedRequests.{request_after};
ghost use Rattle.shared_mount.specs.LiveMountSeen.{numbers_of};
ghost use Rattle.shared_mount.specs.MountEntries.{caller_of, ticket_of};
ghost use Rattle.shared_mount.specs.MountHistories.{IsOneHistory};

use crate::asked::Asked;
use crate::caller::{Caller, InLine};
use crate::live_mount::LiveMount;
use crate::look::Look;
use crate::served::{Called, Missed, NoTurn, Served};
use crate::turn::{answer_in_turn, call_in_turn, look_in_turn, tell_in_turn};
use mount_replies::Owners;
use std::alloc::Global;
use ticket_lock::{TicketLock, TryAcquireError};
use trace_command::{Config, Refusal, Reply};

/// A mounted tracer that callers share.
pub struct SharedMount {
    lock: TicketLock<LiveMount>,
    config: Config,
    owners: Owners,
    limit: u64,
}

impl Drop for SharedMount {
    // Not derived, so that no crate above proves the drops of its parts.
    fn drop(self) {
        let SharedMount {
            lock: _,
            config: _,
            owners: _,
            limit: _,
        } = self;
    }
}

impl SharedMount {
    ghost use Rattle.shared_mount.specs.MountCallers.{caller_in, caller_view, line_ticket, line_view, terms_of, calls, HadTicket, HasFailed, HasMissed, IsCallerOf, IsInLineOf, IsLookedAt, IsToldOf, Serves, TakesTurn};

    /// A tracer that was just mounted, and its root caller, which has all numbers from 0 to 65,535. Its files are these people's, and
    /// once `limit` commands were done calls do nothing more. Refused with `BadValue` exactly if a number of the configuration is out of range, otherwise
    /// only with `Memory`.
    pub fn new(
        alloc: Global,
        config: Config,
        owners: Owners,
        limit: u64,
    ) -> Result<(SharedMount, Caller), Refusal>
        requires { limit ≤ most_done }
        ensures of { IfOk result (λ r. IsCallerOf r.0 r.1) }
        ensures root { IfOk result (λ r. IsRoot [] (numbers_of (terms_of r.0)) 0 (caller_view r.1)) }
        ensures config { IfOk result (λ r. (r.0.config ≡ config) × (r.0.owners ≡ owners) × (r.0.limit ≡ limit)) }
        ensures in_range { OnOk result (IsInRange config) }
        ensures out_of_range { ¬ IsInRange config → IfErr result (λ r. r ≡ refusal.BadValue) }
        ensures refused { IfErr result (λ r. r ≢ refusal.Memory → (r ≡ refusal.BadValue) × ¬ IsInRange config) }
    {
        let mount = LiveMount::new(alloc, config, owners, limit)?;
        match TicketLock::starting_at(alloc, 0, mount) {
            Ok((lock, pass)) => {
                let shared = SharedMount {
                    lock,
                    config,
                    owners,
                    limit,
                };
                Ok((shared, Caller { pass }))
            }
            Err(_) => Err(Refusal::Memory),
        }
    }

    /// The configuration that it was made with.
    pub fn config(&self) -> &Config
        ensures { result.now ≡ self.now.config }
    {
        &self.config
    }

    /// Cuts a caller's numbers into two halves, the lower one first, each with a caller of its own, which knows what the caller knew. A caller with one
    /// number comes back.
    pub fn split(&self, caller: Caller) -> Result<(Caller, Caller), Caller>
        requires { IsCallerOf self.now caller }
        ensures ok { IsOk result ↔ ((caller_view caller).low + 1 < (caller_view caller).end) }
        ensures of { MatchResult result (λ h. IsCallerOf self.now h.0 × IsCallerOf self.now h.1) (λ c. IsCallerOf self.now c) }
        ensures halves { IfOk result (λ h. AreHalves (caller_view caller) (caller_view h.0) (caller_view h.1)) }
        ensures err { IfErr result (λ c. caller_view c ≡ caller_view caller) }
    {
        match self.lock.split(caller.into_pass()) {
            Ok((lower, upper)) => Ok((Caller { pass: lower }, Caller { pass: upper })),
            Err(pass) => Err(Caller { pass }),
        }
    }

    /// One caller with the numbers of both, of which the second's begin where the first's end. It has seen what both had seen.
    pub fn meet(&self, first: Caller, second: Caller) -> Caller
        requires first { IsCallerOf self.now first }
        requires second { IsCallerOf self.now second }
        requires adjacent { (caller_view first).end ≡ (caller_view second).low }
        ensures of { IsCallerOf self.now result }
        ensures met { IsMet ticket_of caller_of (caller_view first) (caller_view second) (caller_view result) }
    {
        let pass = self.lock.join(first.into_pass(), second.into_pass());
        Caller { pass }
    }

    /// Has the mounted tracer run what is asked under the caller's first number, if nobody has a turn or is in line for one. In the same turn it looks at the
    /// tracer, after what was asked, and tells whether something is owed then. The answer follows from everything done before, by calls and by the mount.
    #[inline(always)]
    pub fn try_call<L: Look>(
        &self,
        caller: Caller,
        asked: Asked<'_>,
        look: &L,
        answer: &mut Result<Reply, Refusal>,
    ) -> (Caller, Result<Called<L::Answer>, Missed>)
        requires { IsCallerOf self.now caller }
        ensures of { IsCallerOf self.now result.0 }
        ensures called { IfOk result.1 (λ r. TakesTurn (terms_of self.now) (caller_view caller) (caller_view result.0)
            (calls (λ found. request_after found asked.entry) (answer_of r.is_done answer.new)) r.owes) }
        ensures looked { IfOk result.1 (λ r. IsToldOf (terms_of self.now) (L.tells look.now) (caller_view result.0).seen r.told) }
        ensures missed { IfErr result.1 (HasMissed (caller_view caller) (caller_view result.0)) }
    {
        match self.lock.try_acquire(caller.into_pass()) {
            Ok(held) => {
                let (caller, called) = call_in_turn(&self.lock, held, asked, look, answer);
                (caller, Ok(called))
            }
            Err(TryAcquireError::Busy(pass)) => (Caller { pass }, Err(Missed::Busy)),
            Err(TryAcquireError::Worn(worn)) => { (Caller { pass: worn.pass }, Err(Missed::Worn)) }
        }
    }

    /// Puts a caller in line, though others may be in line, whose turns come first. The caller comes back where another drew at the same moment, or where
    /// all tickets are drawn.
    #[inline(always)]
    pub fn draw(&self, caller: Caller) -> Result<InLine, NoTurn>
        requires { IsCallerOf self.now caller }
        ensures of { MatchResult result (λ line. IsInLineOf self.now line) (λ no. IsCallerOf self.now (caller_in no)) }
        ensures looked { IfOk result (λ line. HasLooked (caller_view caller) (line_view line)) }
        ensures failed { IfErr result (HasFailed (caller_view caller)) }
    {
        match self.lock.try_draw(caller.into_pass()) {
            Ok(drawn) => Ok(InLine { drawn }),
            Err(error) => Err(NoTurn::of(error)),
        }
    }

    /// As `try_call`, of a caller that is in line: if its ticket isn't served yet, it comes back as it was and nothing was run.
    #[inline(always)]
    pub fn call_in_line<L: Look>(
        &self,
        line: InLine,
        asked: Asked<'_>,
        look: &L,
        answer: &mut Result<Reply, Refusal>,
    ) -> Result<(Caller, Called<L::Answer>), InLine>
        requires { IsInLineOf self.now line }
        ensures of { MatchResult result (λ r. IsCallerOf self.now r.0) (λ l. IsInLineOf self.now l) }
        ensures called { IfOk result (λ r. TakesTurn (terms_of self.now) (line_view line) (caller_view r.0)
            (calls (λ found. request_after found asked.entry) (answer_of r.1.is_done answer.new)) r.1.owes) }
        ensures looked { IfOk result (λ r. IsToldOf (terms_of self.now) (L.tells look.now) (caller_view r.0).seen r.1.told) }
        ensures ticket { IfOk result (λ r. HadTicket (line_ticket line) (caller_view r.0)) }
        ensures busy { IfErr result (λ l. line_view l ≡ line_view line) }
        ensures kept { IfErr result (λ l. line_ticket l ≡ line_ticket line) }
    {
        let InLine { drawn } = line;
        match self.lock.try_enter(drawn) {
            Ok(held) => Ok(call_in_turn(&self.lock, held, asked, look, answer)),
            Err(drawn) => Err(InLine { drawn }),
        }
    }

    /// Looks at the tracer in a turn, if nobody has one or is in line for one. Nothing is done.
    pub fn try_look<L: Look>(&self, caller: Caller, look: &L) -> Result<(Caller, L::Answer), NoTurn>
        requires { IsCallerOf self.now caller }
        ensures of { MatchResult result (λ r. IsCallerOf self.now r.0) (λ no. IsCallerOf self.now (caller_in no)) }
        ensures looked { IfOk result (λ r. IsLookedAt (terms_of self.now) (L.tells look.now) (caller_view caller) (caller_view r.0) r.1) }
        ensures failed { IfErr result (HasFailed (caller_view caller)) }
    {
        match self.lock.try_acquire(caller.into_pass()) {
            Ok(held) => Ok(look_in_turn(&self.lock, held, look)),
            Err(error) => Err(NoTurn::of(error)),
        }
    }

    /// As `try_look`, of a caller that is in line.
    pub fn look_in_line<L: Look>(
        &self,
        line: InLine,
        look: &L,
    ) -> Result<(Caller, L::Answer), InLine>
        requires { IsInLineOf self.now line }
        ensures of { MatchResult result (λ r. IsCallerOf self.now r.0) (λ l. IsInLineOf self.now l) }
        ensures looked { IfOk result (λ r. IsLookedAt (terms_of self.now) (L.tells look.now) (line_view line) (caller_view r.0) r.1) }
        ensures ticket { IfOk result (λ r. HadTicket (line_ticket line) (caller_view r.0)) }
        ensures busy { IfErr result (λ l. line_view l ≡ line_view line) }
        ensures kept { IfErr result (λ l. line_ticket l ≡ line_ticket line) }
    {
        let InLine { drawn } = line;
        match self.lock.try_enter(drawn) {
            Ok(held) => Ok(look_in_turn(&self.lock, held, look)),
            Err(drawn) => Err(InLine { drawn }),
        }
    }

    /// Serves a request in a turn, if nobody has one or is in line for one: `reply`, which is empty and has the room, gets the bytes of its reply, none if
    /// it has none or waits. Where something is owed, nothing is done.
    pub fn try_answer(
        &self,
        caller: Caller,
        asked: &[u8],
        reply: &mut Vec<u8>,
    ) -> Result<(Caller, Served), NoTurn>
        requires of { IsCallerOf self.now caller }
        requires room { most_reply ≤ vec_capacity reply.old }
        requires empty { reply.old.items ≡ [] }
        requires some { asked.now ≢ [] }
        ensures of { MatchResult result (λ r. IsCallerOf self.now r.0) (λ no. IsCallerOf self.now (caller_in no)) }
        ensures serves { IfOk result (λ r. Serves (terms_of self.now) asked.now reply.new.items true (caller_view caller) (caller_view r.0) r.1) }
        ensures failed { IfErr result (λ no. HasFailed (caller_view caller) no × (reply.new.items ≡ [])) }
        ensures capacity { vec_capacity reply.old ≤ vec_capacity reply.new }
    {
        match self.lock.try_acquire(caller.into_pass()) {
            Ok(held) => Ok(answer_in_turn(&self.lock, held, asked, reply)),
            Err(error) => Err(NoTurn::of(error)),
        }
    }

    /// Tells something that is owed in a turn, if nobody has one or is in line for one: `reply`, which is empty and has the room, gets the bytes. Where
    /// nothing is owed, nothing is done.
    pub fn try_tell(&self, caller: Caller, reply: &mut Vec<u8>) -> Result<(Caller, Served), NoTurn>
        requires of { IsCallerOf self.now caller }
        requires room { most_reply ≤ vec_capacity reply.old }
        requires empty { reply.old.items ≡ [] }
        ensures of { MatchResult result (λ r. IsCallerOf self.now r.0) (λ no. IsCallerOf self.now (caller_in no)) }
        ensures serves { IfOk result (λ r. Serves (terms_of self.now) [] reply.new.items false (caller_view caller) (caller_view r.0) r.1) }
        ensures failed { IfErr result (λ no. HasFailed (caller_view caller) no × (reply.new.items ≡ [])) }
        ensures capacity { vec_capacity reply.old ≤ vec_capacity reply.new }
    {
        match self.lock.try_acquire(caller.into_pass()) {
            Ok(held) => Ok(tell_in_turn(&self.lock, held, reply)),
            Err(error) => Err(NoTurn::of(error)),
        }
    }

    /// As `try_answer`, of a caller that is in line: if its ticket isn't served yet, it comes back as it was and nothing was done.
    pub fn answer_in_line(
        &self,
        line: InLine,
        asked: &[u8],
        reply: &mut Vec<u8>,
    ) -> Result<(Caller, Served), InLine>
        requires of { IsInLineOf self.now line }
        requires room { most_reply ≤ vec_capacity reply.old }
        requires empty { reply.old.items ≡ [] }
        requires some { asked.now ≢ [] }
        ensures of { MatchResult result (λ r. IsCallerOf self.now r.0) (λ l. IsInLineOf self.now l) }
        ensures serves { IfOk result (λ r. Serves (terms_of self.now) asked.now reply.new.items true (line_view line) (caller_view r.0) r.1) }
        ensures ticket { IfOk result (λ r. HadTicket (line_ticket line) (caller_view r.0)) }
        ensures busy { IfErr result (λ l. (line_view l ≡ line_view line) × (reply.new.items ≡ [])) }
        ensures kept { IfErr result (λ l. line_ticket l ≡ line_ticket line) }
        ensures capacity { vec_capacity reply.old ≤ vec_capacity reply.new }
    {
        let InLine { drawn } = line;
        match self.lock.try_enter(drawn) {
            Ok(held) => Ok(answer_in_turn(&self.lock, held, asked, reply)),
            Err(drawn) => Err(InLine { drawn }),
        }
    }

    /// As `try_tell`, of a caller that is in line.
    pub fn tell_in_line(
        &self,
        line: InLine,
        reply: &mut Vec<u8>,
    ) -> Result<(Caller, Served), InLine>
        requires of { IsInLineOf self.now line }
        requires room { most_reply ≤ vec_capacity reply.old }
        requires empty { reply.old.items ≡ [] }
        ensures of { MatchResult result (λ r. IsCallerOf self.now r.0) (λ l. IsInLineOf self.now l) }
        ensures serves { IfOk result (λ r. Serves (terms_of self.now) [] reply.new.items false (line_view line) (caller_view r.0) r.1) }
        ensures ticket { IfOk result (λ r. HadTicket (line_ticket line) (caller_view r.0)) }
        ensures busy { IfErr result (λ l. (line_view l ≡ line_view line) × (reply.new.items ≡ [])) }
        ensures kept { IfErr result (λ l. line_ticket l ≡ line_ticket line) }
        ensures capacity { vec_capacity reply.old ≤ vec_capacity reply.new }
    {
        let InLine { drawn } = line;
        match self.lock.try_enter(drawn) {
            Ok(held) => Ok(tell_in_turn(&self.lock, held, reply)),
            Err(drawn) => Err(InLine { drawn }),
        }
    }

    /// Ends the lock, by the caller that has all numbers, and returns the mounted tracer. The theorem: there is one history of all turns of all callers, and
    /// each answer and each reply follows from all that comes before it.
    pub fn close(self, caller: Caller) -> LiveMount
        requires of { IsCallerOf self caller }
        requires all_names { HasAllNames (caller_view caller) }
        ensures terms { result.terms ≡ terms_of self }
        ensures seen { result.entries ≡ (caller_view caller).seen }
        ensures history { IsOneHistory (terms_of self) result.entries }
    {
        let SharedMount {
            lock,
            config: _,
            owners: _,
            limit: _,
        } = self;
        lock.close(caller.into_pass())
    }
}
