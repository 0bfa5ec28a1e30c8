//! Reads of records of which no text is made.

ghost use Rattle.std.specs.Prelude.{◌≡◌, ◌<◌, List, ◌∷◌, Some, Ok, IfOk, IfErr, OnOk, OnErr};
ghost use Rattle.trace_command.specs.Requests.{Request};
ghost use Rattle.trace_command.specs.declared.command.Reply.{Reply};
ghost use Rattle.trace_command.specs.declared.refusal.Refusal.TheVariants as refusal;
ghost use Rattle.tracer_state.specs.AddressedRequests.{read_at};
ghost use Rattle.tracer_state.specs.States.{IsPrepared, TakesMemory};
ghost use Rattle.tracer_state.specs.PreparedTakes.{with_reply};
ghost use Rattle.tracer.specs.Lives.{IsLive, most_done};
ghost use Rattle.tracer.specs.TakingCalls.{IsReadyToTake, IsTakePreparedWithin, IsTakingCall};

use super::{MOST_DONE, Tracer};
use crate::discard::let_go_take;
use trace_command::{Address, Refusal};
use tracer_state::Change;

impl Tracer {
    /// As `read_at` of at most so many records, but no text is made of them: it is done, or refused as `read_at` refuses it.
    pub fn take_at(&mut self, address: Address<'_>, most: u64) -> Result<(), Refusal>
        ensures call { (past : List Request) → IsLive self.old.config past self.old
            → IsTakingCall past self.new (read_at address.entry (Some most)) result }
        ensures config { self.new.config ≡ self.old.config }
    {
        let change = self.prepare_take_at(address, most)?;
        self.carry_out_take(change)
    }

    // As `prepare_read_at`, for as many commands as a tracer does, but the change alone.
    fn prepare_take_at(&self, address: Address<'_>, most: u64) -> Result<Change, Refusal>
        ensures prepared { (past : List Request) → IsLive self.now.config past self.now
            → IsTakePreparedWithin most_done self.now.config past (read_at address.entry (Some most)) self.now.state result }
        ensures ready { IfOk result (IsReadyToTake self.now) }
        ensures room { OnOk result (self.now.done < most_done) }
    {
        let change = self.state.prepare_take(&self.config, address, most)?;
        if self.done >= MOST_DONE {
            let_go_take(change);
            return Err(Refusal::HistoryFull);
        }
        Ok(change)
    }

    // Makes the change that was prepared for a read: the read is done.
    fn carry_out_take(&mut self, change: Change) -> Result<(), Refusal>
        requires ready { IsReadyToTake self.old change }
        requires room { self.old.done < most_done }
        ensures done { OnOk result ((past : List Request) (request : Request) (reply : Reply) → IsLive self.old.config past self.old
            → IsPrepared self.old.config past request self.old.state (Ok (with_reply change reply))
            → IsLive self.new.config (request ∷ past) self.new) }
        ensures refused { OnErr result ((past : List Request) → IsLive self.old.config past self.old
            → IsLive self.new.config past self.new) }
        ensures memory { IfErr result (λ r. r ≡ refusal.Memory) }
        ensures takes_memory { OnErr result (TakesMemory self.old.state change) }
        ensures config { self.new.config ≡ self.old.config }
    {
        self.state.commit(&self.config, change)?;
        self.done += 1;
        Ok(())
    }
}
