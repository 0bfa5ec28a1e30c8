//! The state that a book's requests lead to: the events, the clock and the instances.

ghost use Rattle.std.specs.Prelude.{◌≡◌, ◌+◌, ◌≤◌, ◌<◌, [], length, slice_index_or, All, IfOk, IfErr, OnOk, OnErr, Option};
ghost use Rattle.trace_command.specs.Configs.{IsInRange};
ghost use Rattle.trace_command.specs.declared.refusal.Refusal.TheVariants as refusal;
ghost use Rattle.tracer_state.specs.States as states;
ghost use Rattle.trace_instance.specs.Changes.{with_event, IsApplied, IsLawful};
ghost use Rattle.trace_instance.specs.MemoryTaken.{TakesMemory};
ghost use Rattle.trace_instance.specs.Deliveries.{CanCountRow, CanFire, HasFew, HasFewRows, IsWritable, most_requests, row_of};
ghost use Rattle.tracer_state.specs.declared.state.Named.{Named};
ghost use Rattle.trace_instance.specs.KeptHists.{KeysAgree};

use crate::change::Change;
use crate::plan::{EVENTS, EventPlan, replan};
use std::alloc::{AllocError, Global};
use trace_command::{Config, Refusal, Reply};
use trace_format::Catalog;
use trace_instance::{Delivery, Instance, InstanceChange};
use trace_lex::Text;

/// An instance with its name; the top one has none.
#[derive(Drop)]
pub struct Named {
    pub name: Option<Text>,
    pub instance: Instance,
}

/// The declared events, the clock, and the instances: first the top one, then the others in order of creation. Beside them the plan of each event,
/// with room for those of all events that may be declared.
pub struct State {
    pub catalog: Catalog,
    pub clock: u64,
    pub instances: Vec<Named>,
    pub plans: Vec<EventPlan>,
}

impl Drop for State {
    // Not derived, so that no crate above proves the drops of its parts.
    fn drop(self) {
        let State {
            catalog: _,
            clock: _,
            instances: _,
            plans: _,
        } = self;
    }
}

/// A prepared command: its change and its reply.
pub struct Prepared {
    pub change: Change,
    pub reply: Reply,
}

impl Drop for Prepared {
    // Not derived, for the same reason.
    fn drop(self) {
        let Prepared {
            change: _,
            reply: _,
        } = self;
    }
}

impl Prepared {
    pub(crate) fn into_parts(self) -> (Change, Reply)
        ensures { (result.0 ≡ self.change) × (result.1 ≡ self.reply) }
    {
        let Prepared { change, reply } = self;
        (change, reply)
    }
}

impl State {
    /// The state before any request: no event, and the top instance. Fails only if memory is refused.
    pub fn new(alloc: Global, config: &Config) -> Result<State, AllocError>
        requires { IsInRange config.now }
        ensures { IfOk result (λ state. states.StandsFor config.now state []) }
    {
        let instance = Instance::new(alloc, 0, config.cpus, config.pages, config.page_bytes)?;
        let top = Named {
            name: None,
            instance,
        };
        let instances = vec![in alloc; top]?;
        let plans = vec![in alloc; EventPlan::idle(); EVENTS]?;
        Ok(State {
            catalog: Catalog::new(alloc),
            clock: 0,
            instances,
            plans,
        })
    }

    /// Applies a change, and works out the plans that it may change. It may still allocate for the lists of events and of instances, a spare side, or
    /// a hist trigger; if that is refused, nothing changes.
    pub fn commit(&mut self, config: &Config, change: Change) -> Result<(), Refusal>
        requires usable { states.IsUsable config.now self.old }
        requires ready { states.IsReady config.now self.old change }
        ensures done { OnOk result (states.IsStep self.old self.new change) }
        ensures refused { OnErr result (states.IsUnchanged self.old self.new) }
        ensures memory { IfErr result (λ r. r ≡ refusal.Memory) }
        ensures takes_memory { OnErr result (states.TakesMemory self.old change) }
    {
        let touched = change.touched(self.catalog.len());
        self.make_change(config, change)?;
        replan(
            &mut self.plans,
            &self.instances,
            touched.first,
            touched.count,
        );
        Ok(())
    }

    // Likewise, but leaves the plans.
    fn make_change(&mut self, config: &Config, change: Change) -> Result<(), Refusal>
        requires usable { states.IsUsable config.now self.old }
        requires ready { states.IsReady config.now self.old change }
        ensures done { OnOk result (states.HasChanged self.old self.new change) }
        ensures refused { OnErr result (states.IsUnchanged self.old self.new) }
        ensures plans { self.new.plans ≡ self.old.plans }
        ensures memory { IfErr result (λ r. r ≡ refusal.Memory) }
        ensures takes_memory { OnErr result (states.TakesMemory self.old change) }
    {
        match change {
            Change::Declare(event) => {
                self.catalog.add(event, config.page_bytes as usize)?;
                add_event(&mut self.instances);
            }
            Change::Make(named) => self.instances.push(Box::into_inner(named))?,
            Change::Remove(index) => {
                let _named = self.instances.remove(index);
            }
            Change::Instance(index, change) => change_one(&mut self.instances, index, change)?,
        }
        Ok(())
    }

    /// Applies the change of a prepared command, as `commit` does, and returns its reply.
    pub fn carry_out(&mut self, config: &Config, prepared: Prepared) -> Result<Reply, Refusal>
        requires usable { states.IsUsable config.now self.old }
        requires ready { states.IsReady config.now self.old prepared.change }
        ensures done { OnOk result (states.IsStep self.old self.new prepared.change) }
        ensures reply { IfOk result (λ r. r ≡ prepared.reply) }
        ensures refused { OnErr result (states.IsUnchanged self.old self.new) }
        ensures memory { IfErr result (λ r. r ≡ refusal.Memory) }
        ensures takes_memory { OnErr result (states.TakesMemory self.old prepared.change) }
    {
        let (change, reply) = prepared.into_parts();
        self.commit(config, change)?;
        Ok(reply)
    }

    /// Delivers an emission to all instances. Allocates nothing.
    #[inline(always)]
    pub fn deliver(&mut self, config: &Config, delivery: &Delivery)
        requires usable { states.IsUsable config.now self.old }
        requires ready { states.CanEmit self.old delivery.now }
        requires early { self.old.clock < most_requests }
        requires few { All (λ n. HasFew n.instance) self.old.instances.items }
        requires few_rows { All (λ n. HasFewRows n.instance) self.old.instances.items }
        ensures { states.IsEmitted self.old self.new delivery.now }
    {
        self.clock += 1;
        if delivery.wanted {
            deliver_each(&mut self.instances, delivery);
        }
    }
}

// Adds an event to each instance.
fn add_event(instances: &mut [Named])
    requires { All (λ n. (length n.instance.enabled < 64) × (length n.instance.filters < 64) × (length n.instance.triggers < 64)
        × (length n.instance.hists < 64)) instances.old }
    ensures { states.EachCame (λ i j. j ≡ with_event i) instances.old instances.new }
{
    for i in 0..instances.len() {
        instances[i].instance.add_event();
    }
}

// Changes the instance at this index. If memory is refused, nothing changes.
fn change_one(
    instances: &mut [Named],
    index: usize,
    change: InstanceChange,
) -> Result<(), AllocError>
    requires index { index < length instances.old }
    requires lawful { (d : Named) → IsLawful (slice_index_or instances.old index d).instance change }
    ensures changed { OnOk result (states.OneCame (IsApplied change) index instances.old instances.new) }
    ensures refused { OnErr result (instances.new ≡ instances.old) }
    ensures takes_memory { OnErr result ((d : Named) → TakesMemory (slice_index_or instances.old index d).instance change) }
{
    instances[index].instance.apply(change)
}

// Delivers an emission to each instance.
fn deliver_each(instances: &mut [Named], delivery: &Delivery)
    requires few_instances { length instances.old ≤ 8 }
    requires event { All (λ n. delivery.now.event < length n.instance.triggers) instances.old }
    requires record { states.AllReached (IsWritable delivery.now) delivery.now.reaches instances.old }
    requires hists { All (λ n. delivery.now.event < length n.instance.hists) instances.old }
    requires agree { All (λ n. KeysAgree (slice_index_or n.instance.hists delivery.now.event [])) instances.old }
    requires passed { states.ArePassed (row_of delivery.now) delivery.now.event delivery.now.passed instances.old }
    requires counted { All (λ n. CanCountRow (row_of delivery.now) delivery.now.event n.instance) instances.old }
    requires few_rows { All (λ n. HasFewRows n.instance) instances.old }
    requires few { All (λ n. HasFew n.instance) instances.old }
    requires spare { states.AllReached CanFire delivery.now.reaches instances.old }
    ensures { states.EachDelivered delivery.now instances.old instances.new }
{
    for i in 0..instances.len() {
        instances[i]
            .instance
            .deliver(delivery, delivery.reaches[i], &delivery.passed[i]);
    }
}
