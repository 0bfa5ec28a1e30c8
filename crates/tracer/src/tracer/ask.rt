//! Whole calls: a command is done, or refused.

ghost use Rattle.std.specs.Prelude.{◌≡◌, ◌≤◌, List, Some};
ghost use Rattle.trace_command.specs.Requests.{Request, MakeInstance, RemoveInstance, request_of};
ghost use Rattle.tracer_specification.specs.Settings.{declared_events, ticks};
ghost use Rattle.tracer_state.specs.AddressedRequests.{DeclaresAtTop, read_at, write_at};
ghost use Rattle.tracer_state.specs.ValueEmissions.{values_emission};
ghost use Rattle.tracer.specs.Lives.{IsLive, IsCall, IsCallWithin, most_done};

use super::{MOST_DONE, Tracer};
use trace_command::{Address, Command, Refusal, Reply};
use trace_format::FieldValue;
use tracer_state::ValuesEmission;

impl Tracer {
    /// Runs a command, or refuses it. The answer is the one that the commands done before it give. A refused command changes nothing.
    ///
    /// If an allocation is refused, `Memory` may replace the answer, but never `NoSuchFile`, `NotReadable`, `NotWritable`, `BadValue`, `BadTrigger`,
    /// `NoSuchEvent`, `InstanceExists`, `NoSuchInstance` or `NoSuchCpu`, and never a refusal of a command that allocates late (`TakesMemoryLate`): `rmdir`,
    /// or a write of anything but a declaration, a filter that doesn't clear, a trigger with a filter, or a hist trigger. Of these a command that takes no
    /// memory at all (`TakesNoMemory`) has just its answer: any but a trigger that is attached, and a snapshot that needs a spare side.
    #[inline(always)]
    pub fn ask(&mut self, command: &Command<'_>) -> Result<Reply, Refusal>
        ensures call { (past : List Request) → IsLive self.old.config past self.old
            → IsCall past self.new (request_of command.now) result }
        ensures config { self.new.config ≡ self.old.config }
    {
        self.ask_within(MOST_DONE, command)
    }

    /// As `ask`, but where `limit` commands were done, one that would be done is refused with `HistoryFull`.
    #[inline(always)]
    pub fn ask_within(&mut self, limit: u64, command: &Command<'_>) -> Result<Reply, Refusal>
        requires { limit ≤ most_done }
        ensures call { (past : List Request) → IsLive self.old.config past self.old
            → IsCallWithin limit past self.new (request_of command.now) result }
        ensures config { self.new.config ≡ self.old.config }
    {
        match command {
            Command::Emit { .. } => self.ask_emission(limit, command),
            _ => self.ask_other(limit, command),
        }
    }

    // As `ask_within`, for an emission.
    fn ask_emission(&mut self, limit: u64, command: &Command<'_>) -> Result<Reply, Refusal>
        requires few { limit ≤ most_done }
        requires emits { ticks (request_of command.now) ≡ 1 }
        ensures call { (past : List Request) → IsLive self.old.config past self.old
            → IsCallWithin limit past self.new (request_of command.now) result }
        ensures config { self.new.config ≡ self.old.config }
    {
        self.prepare_emission(limit, command)?;
        self.deliver();
        Ok(Reply::Done)
    }

    /// As `ask`, for the emission of the event with this number, from 1, and values of its fields in order of declaration (`values_emission`).
    pub fn ask_values(
        &mut self,
        event: u32,
        cpu: u32,
        pid: i32,
        values: &[FieldValue<'_>],
    ) -> Result<Reply, Refusal>
        ensures call { (past : List Request) → IsLive self.old.config past self.old
            → IsCall past self.new (values_emission (declared_events past) event cpu pid values.now) result }
        ensures config { self.new.config ≡ self.old.config }
    {
        self.ask_values_within(MOST_DONE, event, cpu, pid, values)
    }

    /// As `ask_within`, for the same.
    #[inline(always)]
    pub fn ask_values_within(
        &mut self,
        limit: u64,
        event: u32,
        cpu: u32,
        pid: i32,
        values: &[FieldValue<'_>],
    ) -> Result<Reply, Refusal>
        requires { limit ≤ most_done }
        ensures call { (past : List Request) → IsLive self.old.config past self.old
            → IsCallWithin limit past self.new (values_emission (declared_events past) event cpu pid values.now) result }
        ensures config { self.new.config ≡ self.old.config }
    {
        let emission = ValuesEmission {
            event,
            cpu,
            pid,
            values,
        };
        self.prepare_values(limit, &emission)?;
        self.deliver();
        Ok(Reply::Done)
    }

    /// As `ask`, for a read of the file at this address, of a pipe of at most so many records.
    pub fn read_at(&mut self, address: Address<'_>, most: Option<u64>) -> Result<Reply, Refusal>
        requires { DeclaresAtTop address }
        ensures call { (past : List Request) → IsLive self.old.config past self.old
            → IsCall past self.new (read_at address.entry most) result }
        ensures config { self.new.config ≡ self.old.config }
    {
        let prepared = self.prepare_read_at(MOST_DONE, address, most)?;
        self.carry_out(prepared)
    }

    /// As `ask`, for a write to the file at this address: by `>` or, to append, by `>>`.
    pub fn write_at(
        &mut self,
        address: Address<'_>,
        append: bool,
        text: &[u8],
    ) -> Result<Reply, Refusal>
        requires { DeclaresAtTop address }
        ensures call { (past : List Request) → IsLive self.old.config past self.old
            → IsCall past self.new (write_at address.entry append text.now) result }
        ensures config { self.new.config ≡ self.old.config }
    {
        let prepared = self.prepare_write_at(MOST_DONE, address, append, text)?;
        self.carry_out(prepared)
    }

    /// As `ask`, for an instance that is made with this name.
    pub fn make_instance(&mut self, name: &[u8]) -> Result<Reply, Refusal>
        ensures call { (past : List Request) → IsLive self.old.config past self.old
            → IsCall past self.new (MakeInstance (Some name.now)) result }
        ensures config { self.new.config ≡ self.old.config }
    {
        let prepared = self.prepare_making(MOST_DONE, name)?;
        self.carry_out(prepared)
    }

    /// As `ask`, for the removal of the instance of this name.
    pub fn remove_instance(&mut self, name: &[u8]) -> Result<Reply, Refusal>
        ensures call { (past : List Request) → IsLive self.old.config past self.old
            → IsCall past self.new (RemoveInstance (Some name.now)) result }
        ensures config { self.new.config ≡ self.old.config }
    {
        let prepared = self.prepare_removal(MOST_DONE, name)?;
        self.carry_out(prepared)
    }

    // As `ask_within`, for a command other than an emission.
    fn ask_other(&mut self, limit: u64, command: &Command<'_>) -> Result<Reply, Refusal>
        requires few { limit ≤ most_done }
        requires other { ticks (request_of command.now) ≡ 0 }
        ensures call { (past : List Request) → IsLive self.old.config past self.old
            → IsCallWithin limit past self.new (request_of command.now) result }
        ensures config { self.new.config ≡ self.old.config }
    {
        let prepared = self.prepare(limit, command)?;
        self.carry_out(prepared)
    }
}
