//! Preparing commands, before anything changes: all their memory is allocated here, except that of the lists of events, instances, hist triggers,
//! their tables and history entries, and that of a spare side.

ghost use Rattle.std.specs.Prelude.{◌≡◌, ◌≢◌, ℕ, ◌^◌, ◌<◌, ◌≤◌, true, List, length, Option, Some, OnOk, IfOk, IfErr};
ghost use Rattle.trace_command.specs.Configs.{IsInRange};
ghost use Rattle.trace_command.specs.Paths as paths;
ghost use Rattle.trace_command.specs.Requests as requests;
ghost use Rattle.trace_command.specs.Requests.{Request, WriteFile, ReadFile};
ghost use Rattle.trace_command.specs.declared.command.Config.{Config};
ghost use Rattle.tracer_specification.specs.LateMemory.{TakesMemoryLate};
ghost use Rattle.tracer_specification.specs.Settings.{is_there, ticks};
ghost use Rattle.trace_instance.specs.MemoryTaken.{TakesNoMemory};
ghost use Rattle.tracer_state.specs.AddressedRequests.{read_at, write_at};
ghost use Rattle.tracer_state.specs.States.{StandsFor, IsPrepared, IsUsable, TakesMemory};

use crate::change::Change;
use crate::resolve::Target;
use crate::state::{Prepared, State};
use std::alloc::Global;
use trace_command::{Address, Command, Config, Refusal, Reply, address_of};
use trace_format::EventDef;
use trace_instance::{
    FileSource, InstanceChange, Shown, WrittenText, declarations, read_file, written_change,
};

impl State {
    /// Allocates what a command other than an emission needs, and returns its change and its reply.
    pub fn prepare(
        &self,
        alloc: Global,
        config: &Config,
        number: u64,
        command: &Command<'_>,
    ) -> Result<Prepared, Refusal>
        requires usable { IsUsable config.now self.now }
        requires in_range { IsInRange config.now }
        requires other { ticks (requests.request_of command.now) ≡ 0 }
        ensures prepared { (past : List Request) → length past ≡ number → StandsFor config.now self.now past
            → IsPrepared config.now past (requests.request_of command.now) self.now result }
        ensures fits { OnOk result (requests.FitsItsTypes (requests.request_of command.now)) }
        ensures memory { (past : List Request) → StandsFor config.now self.now past → TakesMemoryLate (requests.request_of command.now)
            → IfErr result (λ r. r ≢ Refusal.Memory) }
        ensures takes_none { (past : List Request) → StandsFor config.now self.now past → TakesNoMemory past (requests.request_of command.now)
            → IfOk result (λ prepared. TakesMemory self.now prepared.change → ⊥) }
    {
        match command {
            Command::Emit { .. } => unreachable!(),
            Command::Mkdir(path) => self.prepare_make(alloc, config, path.as_bytes()),
            Command::Rmdir(path) => self.prepare_remove(path.as_bytes()),
            Command::Write { path, append, text } => {
                let text = text.as_bytes();
                let append = *append;
                let written = WrittenText {
                    number,
                    append,
                    text,
                };
                self.prepare_write(alloc, config, address_of(path.as_bytes()), written)
            }
            Command::Read { path, limit } => {
                self.prepare_read(alloc, config, address_of(path.as_bytes()), *limit)
            }
        }
    }

    /// As `prepare`, for a write to the file at this address.
    pub fn prepare_write(
        &self,
        alloc: Global,
        config: &Config,
        address: Address<'_>,
        written: WrittenText<'_>,
    ) -> Result<Prepared, Refusal>
        requires usable { IsUsable config.now self.now }
        ensures prepared { (past : List Request) → length past ≡ written.entry.number → StandsFor config.now self.now past
            → IsPrepared config.now past (write_at address.entry written.entry.append written.entry.text.now) self.now result }
        ensures memory { (past : List Request) → StandsFor config.now self.now past
            → TakesMemoryLate (write_at address.entry written.entry.append written.entry.text.now) → IfErr result (λ r. r ≢ Refusal.Memory) }
        ensures takes_none { (past : List Request) → StandsFor config.now self.now past
            → TakesNoMemory past (write_at address.entry written.entry.append written.entry.text.now)
            → IfOk result (λ prepared. TakesMemory self.now prepared.change → ⊥) }
    {
        match self.resolve(config, address)? {
            Target::Declarations => self.prepare_declaration(
                alloc,
                config,
                written.append,
                written.text,
            ),
            Target::Of(index, file) => {
                let instance = &self.instances[index].instance;
                let change = written_change(alloc, &self.catalog, instance, file, written)?;
                Ok(Prepared {
                    change: Change::Instance(index, change),
                    reply: Reply::Done,
                })
            }
        }
    }

    // A declaration. Checked in this order: its text, that it is appended unless it is the first, whether the catalog can take it.
    #[tactic(auto, unfolding(tracer_specification::specs::History::declaration_answer))]
    fn prepare_declaration(
        &self,
        alloc: Global,
        config: &Config,
        append: bool,
        text: &[u8],
    ) -> Result<Prepared, Refusal>
        requires { IsUsable config.now self.now }
        ensures { (past : List Request) (name : Option (List ℕ)) → StandsFor config.now self.now past → is_there name past ≡ true
            → IsPrepared config.now past (WriteFile name (Some paths.SyntheticEvents) append text.now) self.now result }
    {
        let event = EventDef::parse(alloc, text)?;
        if !append && !self.catalog.is_empty() {
            return Err(Refusal::Busy);
        }
        let _id = self.catalog.next_id(&event, config.page_bytes as usize)?;
        Ok(Prepared {
            change: Change::Declare(event),
            reply: Reply::Done,
        })
    }

    /// As `prepare`, for a read of the file at this address; of a pipe of at most so many records.
    pub fn prepare_read(
        &self,
        alloc: Global,
        config: &Config,
        address: Address<'_>,
        limit: Option<u64>,
    ) -> Result<Prepared, Refusal>
        requires usable { IsUsable config.now self.now }
        ensures prepared { (past : List Request) → StandsFor config.now self.now past
            → IsPrepared config.now past (read_at address.entry limit) self.now result }
        ensures fits { (most : ℕ) → limit ≡ Some most → most < 2 ^ 64 }
    {
        match self.resolve(config, address)? {
            Target::Declarations => self.read_declarations(alloc, limit),
            Target::Of(index, file) => {
                let source = FileSource {
                    catalog: &self.catalog,
                    clock: self.clock,
                    instance: &self.instances[index].instance,
                };
                let Shown { change, reply } = read_file(alloc, source, file, limit)?;
                Ok(Prepared {
                    change: Change::Instance(index, change),
                    reply,
                })
            }
        }
    }

    pub(crate) fn read_declarations(
        &self,
        alloc: Global,
        limit: Option<u64>,
    ) -> Result<Prepared, Refusal>
        requires { length self.now.catalog ≤ 64 }
        ensures { (g : Config) (past : List Request) (name : Option (List ℕ)) → StandsFor g self.now past → is_there name past ≡ true
            → IsPrepared g past (ReadFile name (Some paths.SyntheticEvents) limit) self.now result }
    {
        if limit.is_some() {
            return Err(Refusal::BadValue);
        }
        let text = declarations(alloc, &self.catalog)?;
        Ok(Prepared {
            change: Change::Instance(0, InstanceChange::Keep),
            reply: Reply::Text(text),
        })
    }
}
