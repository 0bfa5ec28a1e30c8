//! Reads whose replies are made later, of a copy.

ghost use Rattle.std.specs.Prelude.{◌≡◌, ℕ, ◌^◌, ◌<◌, ◌≤◌, true, List, length, Option, Some, IfOk, IfErr, OnOk, OnErr};
ghost use Rattle.trace_command.specs.Paths as paths;
ghost use Rattle.trace_command.specs.Requests.{Request, ReadFile};
ghost use Rattle.trace_command.specs.declared.command.Config.{Config};
ghost use Rattle.tracer_specification.specs.Settings.{is_there};
ghost use Rattle.trace_command.specs.declared.refusal.Refusal.TheVariants as refusal;
ghost use Rattle.tracer_state.specs.AddressedRequests.{read_at};
ghost use Rattle.tracer_state.specs.LateReads.{prepared_of};
ghost use Rattle.tracer_state.specs.States as states;
ghost use Rattle.tracer_state.specs.States.{StandsFor, IsPrepared, IsUsable};

use crate::change::Change;
use crate::resolve::Target;
use crate::state::State;
use std::alloc::Global;
use trace_command::{Address, Config, Refusal};
use trace_instance::{Copied, FileSource, LateReply, copy_file};

/// A prepared read: its change, and its reply, which may be made later.
pub struct PreparedLate {
    pub change: Change,
    pub late: LateReply,
}

impl Drop for PreparedLate {
    // Not derived, so that no crate above proves the drops of its parts.
    fn drop(self) {
        let PreparedLate { change: _, late: _ } = self;
    }
}

impl PreparedLate {
    fn into_parts(self) -> (Change, LateReply)
        ensures { (result.0 ≡ self.change) × (result.1 ≡ self.late) }
    {
        let PreparedLate { change, late } = self;
        (change, late)
    }
}

impl State {
    /// As `prepare_read`, but of a file that shows a long text only a copy is taken.
    pub fn prepare_copy(
        &self,
        alloc: Global,
        config: &Config,
        address: Address<'_>,
        limit: Option<u64>,
    ) -> Result<PreparedLate, Refusal>
        requires usable { IsUsable config.now self.now }
        ensures prepared { (past : List Request) → StandsFor config.now self.now past
            → IsPrepared config.now past (read_at address.entry limit) self.now (prepared_of result) }
        ensures fits { (most : ℕ) → limit ≡ Some most → most < 2 ^ 64 }
    {
        match self.resolve(config, address)? {
            Target::Declarations => self.copy_declarations(alloc, limit),
            Target::Of(index, file) => {
                let source = FileSource {
                    catalog: &self.catalog,
                    clock: self.clock,
                    instance: &self.instances[index].instance,
                };
                let Copied { change, late } = copy_file(alloc, source, file, limit)?;
                Ok(PreparedLate {
                    change: Change::Instance(index, change),
                    late,
                })
            }
        }
    }

    fn copy_declarations(&self, alloc: Global, limit: Option<u64>) -> Result<PreparedLate, Refusal>
        requires { length self.now.catalog ≤ 64 }
        ensures { (g : Config) (past : List Request) (name : Option (List ℕ)) → StandsFor g self.now past → is_there name past ≡ true
            → IsPrepared g past (ReadFile name (Some paths.SyntheticEvents) limit) self.now (prepared_of result) }
    {
        let (change, reply) = self.read_declarations(alloc, limit)?.into_parts();
        Ok(PreparedLate {
            change,
            late: LateReply::Made(reply),
        })
    }

    /// Applies the change of a prepared read, as `carry_out` does, and returns its reply to be made.
    pub fn carry_out_late(
        &mut self,
        config: &Config,
        prepared: PreparedLate,
    ) -> Result<LateReply, Refusal>
        requires usable { IsUsable config.now self.old }
        requires ready { states.IsReady config.now self.old prepared.change }
        ensures done { OnOk result (states.IsStep self.old self.new prepared.change) }
        ensures late { IfOk result (λ late. late ≡ prepared.late) }
        ensures refused { OnErr result (states.IsUnchanged self.old self.new) }
        ensures memory { IfErr result (λ r. r ≡ refusal.Memory) }
        ensures takes_memory { OnErr result (states.TakesMemory self.old prepared.change) }
    {
        let (change, late) = prepared.into_parts();
        self.commit(config, change)?;
        Ok(late)
    }
}
