//! Reads of which only a copy is taken: the tracer is let go, and the text is made of the copy.

ghost use Rattle.std.specs.Prelude.{◌≡◌, ◌<◌, ◌≤◌, List, ◌∷◌, Ok, IfOk, IfErr, OnOk, OnErr};
ghost use Rattle.trace_command.specs.Requests.{Request, FitsItsTypes};
ghost use Rattle.trace_command.specs.declared.refusal.Refusal.TheVariants as refusal;
ghost use Rattle.tracer_state.specs.AddressedRequests.{DeclaresAtTop, read_at};
ghost use Rattle.tracer_state.specs.LateReads.{prepared_by, prepared_of};
ghost use Rattle.tracer_state.specs.States.{IsPrepared, TakesMemory};
ghost use Rattle.tracer.specs.LateReads.{replied};
ghost use Rattle.tracer.specs.Lives.{IsLive, IsCall, IsPreparedWithin, IsReadyFor, most_done};

use super::{MOST_DONE, Tracer};
use crate::discard::let_go_late;
use trace_command::{Address, Refusal};
use trace_instance::LateReply;
use tracer_state::PreparedLate;

impl Tracer {
    /// As `read_at`, but of a file that shows a long text, a trace or histograms, only a copy is taken, and the reply is made of it later
    /// (`LateReply::reply`), whatever is done to the tracer until then. The copy of a trace takes at most the memory of the pages of the rings that are shown,
    /// and that of the declared events; that of histograms the memory of their entries.
    pub fn copy_at(&mut self, address: Address<'_>, most: Option<u64>) -> Result<LateReply, Refusal>
        requires { DeclaresAtTop address }
        ensures call { (past : List Request) → IsLive self.old.config past self.old
            → IsCall past self.new (read_at address.entry most) (replied result) }
        ensures config { self.new.config ≡ self.old.config }
    {
        let prepared = self.prepare_copy_at(MOST_DONE, address, most)?;
        self.carry_out_late(prepared)
    }

    /// As `prepare_read_at`, but of a file that shows a long text only a copy is taken.
    pub fn prepare_copy_at(
        &self,
        limit: u64,
        address: Address<'_>,
        most: Option<u64>,
    ) -> Result<PreparedLate, Refusal>
        requires { DeclaresAtTop address }
        ensures prepared { (past : List Request) → IsLive self.now.config past self.now
            → IsPreparedWithin limit self.now.config past (read_at address.entry most) self.now.state (prepared_of result) }
        ensures ready { IfOk result (λ late. IsReadyFor self.now (prepared_by late)) }
        ensures room { OnOk result (self.now.done < limit) }
        ensures fits { OnOk result (FitsItsTypes (read_at address.entry most)) }
    {
        let read = self
            .state
            .prepare_copy(self.alloc, &self.config, address, most)?;
        if self.done >= limit {
            let_go_late(read);
            return Err(Refusal::HistoryFull);
        }
        Ok(read)
    }

    /// Makes the change that was prepared for a read, as `carry_out` does, and returns its reply to be made: the read is done.
    pub fn carry_out_late(&mut self, prepared: PreparedLate) -> Result<LateReply, Refusal>
        requires ready { IsReadyFor self.old (prepared_by prepared) }
        requires room { self.old.done < most_done }
        ensures done { OnOk result ((past : List Request) (request : Request) → IsLive self.old.config past self.old
            → IsPrepared self.old.config past request self.old.state (Ok (prepared_by prepared))
            → IsLive self.new.config (request ∷ past) self.new) }
        ensures late { IfOk result (λ late. late ≡ prepared.late) }
        ensures refused { OnErr result ((past : List Request) → IsLive self.old.config past self.old
            → IsLive self.new.config past self.new) }
        ensures memory { IfErr result (λ r. r ≡ refusal.Memory) }
        ensures takes_memory { OnErr result (TakesMemory self.old.state prepared.change) }
        ensures config { self.new.config ≡ self.old.config }
    {
        let late = self.state.carry_out_late(&self.config, prepared)?;
        self.done += 1;
        Ok(late)
    }
}
