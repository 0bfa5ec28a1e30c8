//! Making and removing instances (ftrace.rst, "Instances").

ghost use Rattle.std.specs.Prelude.{◌≡◌, ◌≢◌, ◌≤◌, Some, List, ◌∷◌, length, IfOk, IfErr};
ghost use Rattle.trace_command.specs.Configs.{IsInRange};
ghost use Rattle.trace_command.specs.Paths as paths;
ghost use Rattle.trace_command.specs.Requests.{Request, MakeInstance, RemoveInstance};
ghost use Rattle.trace_command.specs.declared.command.Config.{Config};
ghost use Rattle.tracer_specification.specs.Settings.{declared_events};
ghost use Rattle.trace_instance.specs.Instances.{InstanceStandsFor};
ghost use Rattle.tracer_state.specs.States.{StandsFor, IsPrepared, IsUsable, TakesMemory};

use crate::change::Change;
use crate::state::{Named, Prepared, State};
use std::alloc::{AllocError, Global};
use trace_command::{Config, Limit, Refusal, Reply, instance_of};
use trace_instance::{INSTANCES, Instance};
use trace_lex::{Text, is_name};

impl State {
    /// Prepares `mkdir`. Checked in this order: the path, the name, whether the instance exists, how many there are.
    pub(crate) fn prepare_make(
        &self,
        alloc: Global,
        config: &Config,
        path: &[u8],
    ) -> Result<Prepared, Refusal>
        requires usable { IsUsable config.now self.now }
        requires in_range { IsInRange config.now }
        ensures { (past : List Request) → StandsFor config.now self.now past
            → IsPrepared config.now past (MakeInstance (paths.instance_of path.now)) self.now result }
    {
        let Some(name) = instance_of(path) else {
            return Err(Refusal::NoSuchFile);
        };
        self.prepare_making(alloc, config, name)
    }

    /// As `prepare`, for an instance that is made with this name.
    pub fn prepare_making(
        &self,
        alloc: Global,
        config: &Config,
        name: &[u8],
    ) -> Result<Prepared, Refusal>
        requires usable { IsUsable config.now self.now }
        requires in_range { IsInRange config.now }
        ensures { (past : List Request) → StandsFor config.now self.now past
            → IsPrepared config.now past (MakeInstance (Some name.now)) self.now result }
    {
        if !is_name(name) {
            return Err(Refusal::BadValue);
        }
        if self.index_of(Some(name)).is_some() {
            return Err(Refusal::InstanceExists);
        }
        if self.instances.len() >= INSTANCES {
            return Err(Refusal::TooMany {
                limit: Limit::Instances,
            });
        }
        let named = new_instance(alloc, config, name, self.catalog.len())?;
        let boxed = Box::new(alloc, named)?;
        Ok(Prepared {
            change: Change::Make(boxed),
            reply: Reply::Done,
        })
    }

    /// Prepares `rmdir`. Checked in this order: the path, whether the instance exists.
    pub(crate) fn prepare_remove(&self, path: &[u8]) -> Result<Prepared, Refusal>
        ensures prepared { (g : Config) (past : List Request) → StandsFor g self.now past
            → IsPrepared g past (RemoveInstance (paths.instance_of path.now)) self.now result }
        ensures memory { IfErr result (λ r. r ≢ Refusal.Memory) }
        ensures takes_none { IfOk result (λ prepared. TakesMemory self.now prepared.change → ⊥) }
    {
        let Some(name) = instance_of(path) else {
            return Err(Refusal::NoSuchFile);
        };
        self.prepare_removal(name)
    }

    /// As `prepare`, for the removal of the instance of this name.
    pub fn prepare_removal(&self, name: &[u8]) -> Result<Prepared, Refusal>
        ensures prepared { (g : Config) (past : List Request) → StandsFor g self.now past
            → IsPrepared g past (RemoveInstance (Some name.now)) self.now result }
        ensures memory { IfErr result (λ r. r ≢ Refusal.Memory) }
        ensures takes_none { IfOk result (λ prepared. TakesMemory self.now prepared.change → ⊥) }
    {
        let Some(index) = self.index_of(Some(name)) else {
            return Err(Refusal::NoSuchInstance);
        };
        Ok(Prepared {
            change: Change::Remove(index),
            reply: Reply::Done,
        })
    }
}

// A new instance with this name and this many events.
fn new_instance(
    alloc: Global,
    config: &Config,
    name: &[u8],
    events: usize,
) -> Result<Named, AllocError>
    requires in_range { IsInRange config.now }
    requires few { events ≤ 64 }
    ensures named { IfOk result (λ made. made.name ≡ Some name.now) }
    ensures stands { IfOk result (λ made. (past : List Request) → events ≡ length (declared_events past)
        → InstanceStandsFor config.now (Some name.now) (MakeInstance (Some name.now) ∷ past) made.instance) }
{
    Ok(Named {
        name: Some(Text::from_slice(alloc, name)?),
        instance: Instance::new(alloc, events, config.cpus, config.pages, config.page_bytes)?,
    })
}
