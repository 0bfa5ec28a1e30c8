//! The two phases of a command: what can be refused, and then what changes.

ghost use Rattle.std.specs.Prelude.{◌≡◌, ◌≢◌, ◌<◌, List, ◌∷◌, Ok, Some, IfOk, IfErr, OnOk, OnErr};
ghost use Rattle.trace_command.specs.Refusals.{IsRefusal};
ghost use Rattle.trace_command.specs.Requests.{Request, MakeInstance, RemoveInstance, FitsItsTypes, request_of};
ghost use Rattle.trace_command.specs.declared.refusal.Refusal.TheVariants as refusal;
ghost use Rattle.tracer_specification.specs.LateMemory.{TakesMemoryLate};
ghost use Rattle.tracer_specification.specs.Settings.{declared_events, ticks};
ghost use Rattle.trace_instance.specs.MemoryTaken.{TakesNoMemory};
ghost use Rattle.tracer_state.specs.AddressedRequests.{DeclaresAtTop, read_at, write_at};
ghost use Rattle.tracer_state.specs.States.{IsPrepared, IsPreparedEmission, TakesMemory};
ghost use Rattle.tracer_state.specs.ValueEmissions.{emission_by};
ghost use Rattle.tracer.specs.Lives.{IsLive, IsPreparedWithin, IsReadyFor, CanDeliver, limited_answer, most_done};

use super::Tracer;
use crate::discard::let_go_change;
use trace_command::{Address, Command, Refusal, Reply};
use trace_instance::WrittenText;
use tracer_state::{Prepared, ValuesEmission};

impl Tracer {
    /// Looks at a command other than an emission, and allocates what it needs: its change and its reply, or its refusal. It is refused with
    /// `HistoryFull` if it would be done, and as many commands as `limit` were. Nothing changes.
    pub fn prepare(&self, limit: u64, command: &Command<'_>) -> Result<Prepared, Refusal>
        requires { ticks (request_of command.now) ≡ 0 }
        ensures prepared { (past : List Request) → IsLive self.now.config past self.now
            → IsPreparedWithin limit self.now.config past (request_of command.now) self.now.state result }
        ensures ready { IfOk result (IsReadyFor self.now) }
        ensures room { OnOk result (self.now.done < limit) }
        ensures fits { OnOk result (FitsItsTypes (request_of command.now)) }
        ensures memory { (past : List Request) → IsLive self.now.config past self.now → TakesMemoryLate (request_of command.now)
            → IfErr result (λ r. r ≢ refusal.Memory) }
        ensures takes_none { (past : List Request) → IsLive self.now.config past self.now → TakesNoMemory past (request_of command.now)
            → IfOk result (λ prepared. TakesMemory self.now.state prepared.change → ⊥) }
    {
        let done = self.done;
        let prepared = self.state.prepare(self.alloc, &self.config, done, command)?;
        if done >= limit {
            let_go_change(prepared);
            return Err(Refusal::HistoryFull);
        }
        Ok(prepared)
    }

    /// As `prepare`, for a read of the file at this address, of a pipe of at most so many records.
    pub fn prepare_read_at(
        &self,
        limit: u64,
        address: Address<'_>,
        most: Option<u64>,
    ) -> Result<Prepared, Refusal>
        requires { DeclaresAtTop address }
        ensures prepared { (past : List Request) → IsLive self.now.config past self.now
            → IsPreparedWithin limit self.now.config past (read_at address.entry most) self.now.state result }
        ensures ready { IfOk result (IsReadyFor self.now) }
        ensures room { OnOk result (self.now.done < limit) }
        ensures fits { OnOk result (FitsItsTypes (read_at address.entry most)) }
    {
        let read = self
            .state
            .prepare_read(self.alloc, &self.config, address, most)?;
        if self.done >= limit {
            let_go_change(read);
            return Err(Refusal::HistoryFull);
        }
        Ok(read)
    }

    /// As `prepare`, for a write to the file at this address.
    pub fn prepare_write_at(
        &self,
        limit: u64,
        address: Address<'_>,
        append: bool,
        text: &[u8],
    ) -> Result<Prepared, Refusal>
        requires { DeclaresAtTop address }
        ensures prepared { (past : List Request) → IsLive self.now.config past self.now
            → IsPreparedWithin limit self.now.config past (write_at address.entry append text.now) self.now.state result }
        ensures ready { IfOk result (IsReadyFor self.now) }
        ensures room { OnOk result (self.now.done < limit) }
        ensures memory { (past : List Request) → IsLive self.now.config past self.now → TakesMemoryLate (write_at address.entry append text.now)
            → IfErr result (λ r. r ≢ refusal.Memory) }
        ensures takes_none { (past : List Request) → IsLive self.now.config past self.now → TakesNoMemory past (write_at address.entry append text.now)
            → IfOk result (λ prepared. TakesMemory self.now.state prepared.change → ⊥) }
    {
        let written = WrittenText {
            number: self.done,
            append,
            text,
        };
        let write = self
            .state
            .prepare_write(self.alloc, &self.config, address, written)?;
        if self.done >= limit {
            let_go_change(write);
            return Err(Refusal::HistoryFull);
        }
        Ok(write)
    }

    /// As `prepare`, for an instance that is made with this name.
    pub fn prepare_making(&self, limit: u64, name: &[u8]) -> Result<Prepared, Refusal>
        ensures prepared { (past : List Request) → IsLive self.now.config past self.now
            → IsPreparedWithin limit self.now.config past (MakeInstance (Some name.now)) self.now.state result }
        ensures ready { IfOk result (IsReadyFor self.now) }
        ensures room { OnOk result (self.now.done < limit) }
    {
        let making = self.state.prepare_making(self.alloc, &self.config, name)?;
        if self.done >= limit {
            let_go_change(making);
            return Err(Refusal::HistoryFull);
        }
        Ok(making)
    }

    /// As `prepare`, for the removal of the instance of this name.
    pub fn prepare_removal(&self, limit: u64, name: &[u8]) -> Result<Prepared, Refusal>
        ensures prepared { (past : List Request) → IsLive self.now.config past self.now
            → IsPreparedWithin limit self.now.config past (RemoveInstance (Some name.now)) self.now.state result }
        ensures ready { IfOk result (IsReadyFor self.now) }
        ensures room { OnOk result (self.now.done < limit) }
        ensures memory { IfErr result (λ r. r ≢ refusal.Memory) }
        ensures takes_none { IfOk result (λ prepared. TakesMemory self.now.state prepared.change → ⊥) }
    {
        let removal = self.state.prepare_removal(name)?;
        if self.done >= limit {
            let_go_change(removal);
            return Err(Refusal::HistoryFull);
        }
        Ok(removal)
    }

    /// Makes the change that was prepared for a command, and returns its reply: the command is done. If memory is refused, of which only some changes
    /// take any (`TakesMemory`), nothing changes.
    #[inline(always)]
    pub fn carry_out(&mut self, prepared: Prepared) -> Result<Reply, Refusal>
        requires ready { IsReadyFor self.old prepared }
        requires room { self.old.done < most_done }
        ensures done { OnOk result ((past : List Request) (request : Request) → IsLive self.old.config past self.old
            → IsPrepared self.old.config past request self.old.state (Ok prepared)
            → IsLive self.new.config (request ∷ past) self.new) }
        ensures reply { IfOk result (λ r. r ≡ prepared.reply) }
        ensures refused { OnErr result ((past : List Request) → IsLive self.old.config past self.old
            → IsLive self.new.config past self.new) }
        ensures memory { IfErr result (λ r. r ≡ refusal.Memory) }
        ensures takes_memory { OnErr result (TakesMemory self.old.state prepared.change) }
        ensures config { self.new.config ≡ self.old.config }
    {
        let reply = self.state.carry_out(&self.config, prepared)?;
        self.done += 1;
        Ok(reply)
    }

    /// Looks at an emission, and allocates what it needs: what is delivered, which the tracer keeps, or its refusal, `HistoryFull` as for `prepare`.
    /// Nothing else changes but memory reserved for tables.
    #[inline(always)]
    pub fn prepare_emission(&mut self, limit: u64, command: &Command<'_>) -> Result<(), Refusal>
        requires { ticks (request_of command.now) ≡ 1 }
        ensures prepared { (past : List Request) → IsLive self.old.config past self.old
            → OnOk result (IsPreparedEmission self.new.config past (request_of command.now) self.new.state self.new.delivery) }
        ensures refused { (past : List Request) → IsLive self.old.config past self.old
            → IfErr result (λ r. IsRefusal r (limited_answer limit self.new.config past (request_of command.now))) }
        ensures ready { OnOk result (CanDeliver self.new) }
        ensures room { OnOk result (self.new.done < limit) }
        ensures fits { OnOk result (FitsItsTypes (request_of command.now)) }
        ensures memory { ¬ TakesMemoryLate (request_of command.now) }
        ensures lives { (past : List Request) → IsLive self.old.config past self.old → IsLive self.new.config past self.new }
        ensures config { self.new.config ≡ self.old.config }
    {
        self.state
            .prepare_emission(self.alloc, &mut self.delivery, &self.config, command)?;
        if self.done >= limit {
            return Err(Refusal::HistoryFull);
        }
        Ok(())
    }

    /// As `prepare_emission`, for an emission by values.
    #[inline(always)]
    pub fn prepare_values(
        &mut self,
        limit: u64,
        emission: &ValuesEmission<'_>,
    ) -> Result<(), Refusal>
        ensures prepared { (past : List Request) → IsLive self.old.config past self.old
            → OnOk result (IsPreparedEmission self.new.config past (emission_by (declared_events past) emission.now)
            self.new.state self.new.delivery) }
        ensures refused { (past : List Request) → IsLive self.old.config past self.old → IfErr result (λ r. IsRefusal r
            (limited_answer limit self.new.config past (emission_by (declared_events past) emission.now))) }
        ensures ready { OnOk result (CanDeliver self.new) }
        ensures room { OnOk result (self.new.done < limit) }
        ensures lives { (past : List Request) → IsLive self.old.config past self.old → IsLive self.new.config past self.new }
        ensures config { self.new.config ≡ self.old.config }
    {
        self.state
            .prepare_values(self.alloc, &mut self.delivery, &self.config, emission)?;
        if self.done >= limit {
            return Err(Refusal::HistoryFull);
        }
        Ok(())
    }

    /// Delivers the emission that was prepared: it is done. Allocates nothing.
    #[inline(always)]
    pub fn deliver(&mut self)
        requires ready { CanDeliver self.old }
        requires room { self.old.done < most_done }
        ensures done { (past : List Request) (request : Request) → IsLive self.old.config past self.old
            → IsPreparedEmission self.old.config past request self.old.state self.old.delivery
            → IsLive self.new.config (request ∷ past) self.new }
        ensures config { self.new.config ≡ self.old.config }
    {
        self.state.deliver(&self.config, &self.delivery);
        self.done += 1;
    }
}
