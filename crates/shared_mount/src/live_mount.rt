//! A mounted tracer whose history is for clauses only.

mod copying;
mod showing;

ghost use Rattle.std.specs.Prelude.{◌≡◌, ◌≢◌, ◌≤◌, All, true, false, List, [], ◌∷◌, ◌++◌, vec_capacity, IfOk, IfErr, IfSome, OnOk};
ghost use Rattle.std.specs.Option.{option_map};
ghost use Rattle.trace_command.specs.Configs.{IsInRange};
ghost use Rattle.trace_command.specs.Requests.{Request};
ghost use Rattle.trace_command.specs.declared.refusal.Refusal.TheVariants as refusal;
ghost use Rattle.tracer.specs.Lives.{IsLive, most_done};
ghost use Rattle.mount_replies.specs.Calls.{IsCommanded, answer_of};
ghost use Rattle.mount_replies.specs.Mounted.{IsMounted, most_reply, past_after};
ghost use Rattle.mount_replies.specs.Watches.{AreKnown, Covers, slots_of};
ghost use Rattle.mount_replies.specs.declared.wanted_events.Wanted.TheVariants.{Unknown};
ghost use Rattle.shared_mount.specs.AskedRequests.{request_after};
ghost use Rattle.shared_mount.specs.LiveMountSeen.{numbers_of};
ghost use Rattle.shared_mount.specs.MountEntries.{DidCall, DidExchange, EntrySeen, caller_of, done_in, ticket_of};
ghost use Rattle.shared_mount.specs.MountHistories.{IsNext, IsOwing, WereTaken};

use crate::asked::Asked;
use crate::entry::Entry;
use crate::exchange::Exchange;
use crate::history::{bytes_of, nothing_done, with_call, with_exchange};
use ghost_list::GhostList;
use mount_replies::{Mount, Owners, Watch};
use std::alloc::Global;
use std::marker::Model;
use std::snapshot::Snapshot;
use ticket_lock::Logged;
use trace_command::{Config, Refusal, Reply};
use tracer::Tracer;

/// A mounted tracer and the history of all turns, of which it keeps nothing in memory. While reads wait, also the pipes that they wait for: these stay the
/// same over calls, so an emission costs a look at each pipe, and not at each read; and none where no instance of these pipes wants the event.
pub struct LiveMount {
    mount: Mount,
    watch: Option<Watch>,
    limit: u64,
    past: GhostList<Entry>,
}

impl Drop for LiveMount {
    // Not derived, so that no crate above proves the drops of its parts.
    fn drop(self) {
        let LiveMount {
            mount: _,
            watch: _,
            limit: _,
            past: _,
        } = self;
    }
}

impl Model for LiveMount {
    ghost use Rattle.shared_mount.specs.LiveMountSeen.{LiveMountSeen};

    ghost Value = { LiveMountSeen };

    ghost use Rattle.shared_mount.specs.LiveMounts.{seen, IsSound};

    ghost view = { seen };

    ghost invariant = { IsSound };
}

// After a command nothing is known of the events that instances of watched pipes want.
pub(crate) fn forget_events(watch: &mut Option<Watch>)
    ensures slots { option_map slots_of watch.new ≡ option_map slots_of watch.old }
    ensures events { IfSome watch.new (λ w. All (λ wanted. wanted ≡ Unknown) w.events) }
{
    if let Some(watch) = watch {
        watch.forget_events();
    }
}

// Has the mounted tracer run what is asked, unless so many commands were done. Where the parked reads wait for some pipes, an emission by values looks at
// these, if an instance of theirs may want its event.
#[inline(always)]
#[tactic(auto, using(crate::proofs::KnownEvents::fresh_known))]
fn run(
    mount: &mut Mount,
    watch: &mut Option<Watch>,
    limit: u64,
    asked: Asked<'_>,
    answer: &mut Result<Reply, Refusal>,
) -> bool
    requires limit { limit ≤ most_done }
    requires covers { IfSome watch.old (λ watch. Covers mount.old.files mount.old.parked watch.slots) }
    ensures commanded { (entries : List EntrySeen) → IsMounted (done_in entries) mount.old
        → IfSome watch.old (AreKnown mount.old.live.config.cpus (done_in entries))
        → IsCommanded limit (done_in entries) mount.old mount.new (request_after entries asked.entry) (answer_of result answer.new) }
    ensures slots { option_map slots_of watch.new ≡ option_map slots_of watch.old }
    ensures known { (entries : List EntrySeen) → IsMounted (done_in entries) mount.old
        → IfSome watch.old (AreKnown mount.old.live.config.cpus (done_in entries))
        → IfSome watch.new (AreKnown mount.old.live.config.cpus
        (past_after (answer_of result answer.new) (request_after entries asked.entry) (done_in entries))) }
{
    match asked {
        Asked::Command(command) => {
            forget_events(watch);
            mount.call_within(limit, command, answer)
        }
        Asked::Values(emission) => match watch {
            Some(watch) => mount.call_values_watched(limit, emission, watch, answer),
            None => mount.call_values_within(limit, emission, answer),
        },
    }
}

impl LiveMount {
    /// A tracer that was just mounted, with no history. Its files are these people's, and once `limit` commands were done calls do nothing more. Refused with `BadValue` exactly if a number of the configuration is
    /// out of range, otherwise only with `Memory`.
    pub fn new(
        alloc: Global,
        config: Config,
        owners: Owners,
        limit: u64,
    ) -> Result<LiveMount, Refusal>
        requires { limit ≤ most_done }
        ensures made { IfOk result (λ mount. mount ≡ record {
          terms = record {
            mount = record { config = config; uid = owners.uid; gid = owners.gid; mode = owners.mode };
            limit = limit;
          };
          entries = [];
          owes = false;
        }) }
        ensures in_range { OnOk result (IsInRange config) }
        ensures out_of_range { ¬ IsInRange config → IfErr result (λ r. r ≡ refusal.BadValue) }
        ensures refused { IfErr result (λ r. r ≢ refusal.Memory → (r ≡ refusal.BadValue) × ¬ IsInRange config) }
    {
        let mount = Mount::new(alloc, config, owners)?;
        Ok(LiveMount {
            mount,
            watch: None,
            limit,
            past: nothing_done(),
        })
    }

    /// Runs what a call asks, or refuses it. The call and its answer become the history's next entry, under this ticket and caller's number.
    #[inline(always)]
    pub fn call(
        &mut self,
        ticket: u64,
        by: u32,
        asked: Asked<'_>,
        answer: &mut Result<Reply, Refusal>,
    ) -> bool
        ensures left { self.new.entries ≡ self.old.entries ++ record {
          ticket = ticket;
          by = by;
          deed = DidCall (request_after self.old.entries asked.entry) (answer_of result answer.new);
        } ∷ [] }
        ensures next { IsNext self.old.terms self.old.entries (DidCall (request_after self.old.entries asked.entry) (answer_of result answer.new)) self.new.owes }
        ensures terms { self.new.terms ≡ self.old.terms }
    {
        let is_done = run(&mut self.mount, &mut self.watch, self.limit, asked, answer);
        self.past = with_call(&self.past, ticket, by, &asked, is_done, answer);
        is_done
    }

    /// Serves a request, where nothing is owed: `reply`, which is empty and has the room, gets the bytes of its reply, none if it has none or waits. The
    /// request, its reply and the commands that it did become the history's next entry.
    pub fn answer(&mut self, ticket: u64, by: u32, asked: &[u8], reply: &mut Vec<u8>)
        requires room { most_reply ≤ vec_capacity reply.old }
        requires empty { reply.old.items ≡ [] }
        requires some { asked.now ≢ [] }
        requires nothing_owed { self.old.owes ≡ false }
        ensures left { (commands : List Request)
            × (self.new.entries ≡ self.old.entries ++ record { ticket = ticket; by = by; deed = DidExchange asked.now reply.new.items commands } ∷ [])
            × IsNext self.old.terms self.old.entries (DidExchange asked.now reply.new.items commands) self.new.owes }
        ensures terms { self.new.terms ≡ self.old.terms }
        ensures capacity { vec_capacity reply.old ≤ vec_capacity reply.new }
    {
        let before = Snapshot::of(&self.mount);
        self.mount.answer(asked, reply);
        self.watch = self.mount.watch(); // A read may wait from now on.
        let exchange = Exchange {
            past: Snapshot::of(&self.past),
            before,
            after: Snapshot::of(&self.mount),
            asked: bytes_of(asked),
            bytes: bytes_of(reply),
        };
        self.past = with_exchange(&exchange, ticket, by);
    }

    /// Tells something that is owed: `reply`, which is empty and has the room, gets the bytes. They and the commands that were done for them become the
    /// history's next entry.
    pub fn tell_owed(&mut self, ticket: u64, by: u32, reply: &mut Vec<u8>)
        requires room { most_reply ≤ vec_capacity reply.old }
        requires empty { reply.old.items ≡ [] }
        requires owes { self.old.owes ≡ true }
        ensures left { (commands : List Request)
            × (self.new.entries ≡ self.old.entries ++ record { ticket = ticket; by = by; deed = DidExchange [] reply.new.items commands } ∷ [])
            × IsNext self.old.terms self.old.entries (DidExchange [] reply.new.items commands) self.new.owes }
        ensures terms { self.new.terms ≡ self.old.terms }
        ensures capacity { vec_capacity reply.old ≤ vec_capacity reply.new }
    {
        let before = Snapshot::of(&self.mount);
        self.mount.tell_owed(reply);
        self.watch = self.mount.watch();
        let exchange = Exchange {
            past: Snapshot::of(&self.past),
            before,
            after: Snapshot::of(&self.mount),
            asked: bytes_of(&[]),
            bytes: bytes_of(reply),
        };
        self.past = with_exchange(&exchange, ticket, by);
    }

    /// Whether something has to be told before the next request is served.
    #[inline(always)]
    pub fn owes(&self) -> bool
        ensures is { result ≡ self.now.owes }
        ensures owing { IsOwing self.now.terms self.now.entries self.now.owes }
    {
        self.mount.owes()
    }

    /// The tracer, which has the state that the commands of all turns led to.
    #[inline(always)]
    pub fn tracer(&self) -> &Tracer
        ensures lives { IsLive result.now.config (done_in self.now.entries) result.now }
        ensures config { result.now.config ≡ self.now.terms.mount.config }
        ensures taken { WereTaken self.now.terms self.now.entries }
    {
        self.mount.tracer()
    }
}

/// A lock sees a live mount's history, and as its base, which no turn changes, what it was mounted with.
impl Logged for LiveMount {
    type Entry = Entry;

    ghost entries = { λ mount. mount.entries };

    ghost base = { λ mount. numbers_of mount.terms };

    ghost ticket = { ticket_of };

    ghost by = { caller_of };
}
