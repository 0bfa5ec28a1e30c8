//! Emissions: a row is built once, each filter is evaluated once, and each table that counts the row has its memory reserved, before any instance is
//! written to. All of it is kept in one `Delivery`, in the memory of the emissions before, so that most take no allocation.

ghost use Rattle.std.specs.Prelude.{◌≡◌, ◌<◌, ◌≤◌, true, false, List, [], length, All, slice_index_or, IfErr, OnOk, OnErr};
ghost use Rattle.trace_command.specs.Configs.{IsInRange};
ghost use Rattle.trace_command.specs.Refusals.{IsRefusal};
ghost use Rattle.trace_command.specs.Requests as requests;
ghost use Rattle.trace_command.specs.Requests.{Request, request_of};
ghost use Rattle.trace_format.specs.Cells.{IsRowOf, record_size_of};
ghost use Rattle.trace_format.specs.declared.pair.Pair.{Pair as PairSeen};
ghost use Rattle.tracer_specification.specs.History.{answer_with_room, emission_answer};
ghost use Rattle.tracer_specification.specs.LateMemory.{TakesMemoryLate};
ghost use Rattle.tracer_specification.specs.Settings.{declared_events, ticks};
ghost use Rattle.tracer_state.specs.EventPlans.{IsPlanOf};
ghost use Rattle.tracer_state.specs.private.Emissions as emissions;
ghost use Rattle.tracer_state.specs.ValueEmissions.{emission_by};
ghost use Rattle.trace_instance.specs.Instances.{IsAlike};
ghost use Rattle.tracer_state.specs.States.{StandsFor, IsPreparedEmission, IsStateAlike, IsUsable, EachCame, ArePassed, NeedsHitMemory};
ghost use Rattle.trace_instance.specs.Deliveries.{CanCountRow, most_requests};

use crate::plan::EventPlan;
use crate::reach::reach_planned;
use crate::resolve::{Found, find_likely, find_numbered};
use crate::row::record;
use crate::state::{Named, State};
use std::alloc::{AllocError, Global};
use trace_command::{Command, Config, Refusal};
use trace_format::{Emission, FieldValue, Row, payload_size};
use trace_instance::{Delivery, INSTANCES, MOST_TRIGGERS, Passed};

/// An emission by values: of the event with this number, from 1, and values of its fields in order of declaration.
#[derive(Clone, Copy)]
pub struct ValuesEmission<'a> {
    pub event: u32,
    pub cpu: u32,
    pub pid: i32,
    pub values: &'a [FieldValue<'a>],
}

impl State {
    /// Prepares an emission, in this order: its CPU, its event, its row, what it does in each instance, its record, if an instance
    /// records it, and the memory of its hist triggers. A refused one leaves a delivery that means nothing. It is inlined, so that an emission's parts
    /// are not moved.
    #[inline(always)]
    #[tactic(auto, unfolding(tracer_specification::specs::History::emission_answer))]
    pub fn prepare_emission(
        &mut self,
        alloc: Global,
        delivery: &mut Delivery,
        config: &Config,
        command: &Command<'_>,
    ) -> Result<(), Refusal>
        requires usable { IsUsable config.now self.old }
        requires in_range { IsInRange config.now }
        requires emits { ticks (request_of command.now) ≡ 1 }
        ensures alike { IsStateAlike self.old self.new }
        ensures prepared { (past : List Request) → StandsFor config.now self.old past
            → OnOk result (IsPreparedEmission config.now past (request_of command.now) self.new delivery.new) }
        ensures refused { (past : List Request) → StandsFor config.now self.old past
            → IfErr result (λ r. IsRefusal r (answer_with_room config.now past (request_of command.now))) }
        ensures fits { OnOk result (requests.FitsItsTypes (request_of command.now)) }
        ensures memory { ¬ TakesMemoryLate (request_of command.now) }
    {
        let Command::Emit {
            event,
            cpu,
            pid,
            pairs,
        } = command
        else {
            unreachable!()
        };
        if *cpu >= config.cpus {
            return Err(Refusal::NoSuchCpu);
        }
        let Some(found) = find_likely(&self.catalog, delivery.event, event.as_bytes()) else {
            return Err(Refusal::NoSuchEvent);
        };
        delivery.row.rebuild(alloc, found.event, pairs.as_slice())?;
        delivery.cpu = *cpu;
        delivery.pid = *pid;
        let plan = &self.plans[found.index];
        prepare_row(plan, &mut self.instances, self.clock, found, delivery)?;
        Ok(())
    }

    /// Likewise, for an emission by values.
    #[inline(always)]
    pub fn prepare_values(
        &mut self,
        alloc: Global,
        delivery: &mut Delivery,
        config: &Config,
        emission: &ValuesEmission<'_>,
    ) -> Result<(), Refusal>
        requires usable { IsUsable config.now self.old }
        requires in_range { IsInRange config.now }
        ensures alike { IsStateAlike self.old self.new }
        ensures prepared { (past : List Request) → StandsFor config.now self.old past
            → OnOk result (IsPreparedEmission config.now past (emission_by (declared_events past) emission.now) self.new delivery.new) }
        ensures refused { (past : List Request) → StandsFor config.now self.old past
            → IfErr result (λ r. IsRefusal r (answer_with_room config.now past (emission_by (declared_events past) emission.now))) }
    {
        let ValuesEmission {
            event,
            cpu,
            pid,
            values,
        } = *emission;
        if cpu >= config.cpus {
            return Err(Refusal::NoSuchCpu);
        }
        let Some(found) = find_numbered(&self.catalog, event) else {
            return Err(Refusal::NoSuchEvent);
        };
        delivery.row.rebuild_of_values(alloc, found.event, values)?;
        delivery.cpu = cpu;
        delivery.pid = pid;
        let plan = &self.plans[found.index];
        prepare_row(plan, &mut self.instances, self.clock, found, delivery)?;
        Ok(())
    }
}

// Prepares the emission of an event that was found, whose row, CPU and process the delivery has, in this order: what it does in each instance, its
// record, and the memory of its hist triggers.
#[inline(always)]
fn prepare_row(
    plan: &EventPlan,
    instances: &mut [Named],
    clock: u64,
    found: Found<'_>,
    delivery: &mut Delivery,
) -> Result<(), AllocError>
    requires planned { IsPlanOf found.index plan.now instances.old }
    requires few { length instances.old ≤ 8 }
    requires each { All (λ n. emissions.HasEventAt found.index n.instance) instances.old }
    requires early { clock ≤ most_requests }
    requires index { found.index < 64 }
    requires fields { length found.event.now.fields ≤ 16 }
    requires row { IsRowOf found.event.now delivery.old.row }
    ensures alike { EachCame IsAlike instances.old instances.new }
    ensures given { OnOk result (delivery.new ≡ record delivery.new {
      event = found.entry.index;
      row = delivery.old.row;
      cpu = delivery.old.cpu;
      pid = delivery.old.pid;
    }) }
    ensures reserved { OnOk result (emissions.IsReserved clock found.entry.event.now instances.old instances.new delivery.new) }
{
    let (index, cpu, pid) = (found.index, delivery.cpu, delivery.pid);
    delivery.event = index;
    let row = &delivery.row;
    let emission = Emission { row, cpu, pid };
    let reached = reach_planned(plan, instances, index, emission, &mut delivery.reaches);
    delivery.wanted = reached.recorded | reached.triggered;
    write_ahead(
        clock,
        reached.recorded,
        found,
        pid,
        row,
        &mut delivery.record,
    )?;
    let emission = Emission { row, cpu, pid };
    reserve_if(
        reached.triggered,
        instances,
        index,
        emission,
        &mut delivery.passed,
    )?;
    Ok(())
}

// Makes the record of an emission of an event that was found, if some instance records it.
#[inline(always)]
fn write_ahead(
    clock: u64,
    recorded: bool,
    found: Found<'_>,
    pid: i32,
    row: &Row,
    bytes: &mut Vec<u8>,
) -> Result<(), AllocError>
    requires early { clock ≤ most_requests }
    requires index { found.index < 64 }
    requires fields { length found.event.now.fields ≤ 16 }
    requires row { IsRowOf found.event.now row.now }
    ensures ahead { OnOk result (emissions.IsAhead clock found.entry.index row.now pid recorded bytes.new.items) }
    ensures length { OnOk result (recorded ≡ true → length bytes.new.items ≡ record_size_of found.entry.event.now) }
{
    if !recorded {
        return Ok(());
    }
    let size = payload_size(found.event);
    record(clock + 1, pid, found.index as u16 + 1, size, row, bytes)
}

// As `reserve_each`, if some instance may have hist triggers of the event. The emission comes by value, as in `reach_planned`.
#[inline(always)]
fn reserve_if(
    triggered: bool,
    instances: &mut [Named],
    event: usize,
    emission: Emission<'_>,
    passed: &mut [Passed; INSTANCES],
) -> Result<(), AllocError>
    requires none { triggered ≡ false → All (λ n. slice_index_or n.instance.hists event [] ≡ []) instances.old }
    requires few { length instances.old ≤ 8 }
    requires each { All (λ n. emissions.HasEventAt event n.instance) instances.old }
    ensures alike { EachCame IsAlike instances.old instances.new }
    ensures passed { OnOk result (ArePassed emission.entry event passed.new instances.old) }
    ensures counted { OnOk result (All (λ n. CanCountRow emission.entry event n.instance) instances.new) }
{
    if triggered {
        return reserve_each(instances, event, &emission, passed);
    }
    *passed = [[false; MOST_TRIGGERS]; INSTANCES];
    Ok(())
}

// Evaluates the filters of the hist triggers of the event at this index for a row, in each instance, and reserves memory to count it for those that
// it passes.
#[inline(always)]
fn reserve_each(
    instances: &mut [Named],
    event: usize,
    emission: &Emission,
    passed: &mut [Passed; INSTANCES],
) -> Result<(), AllocError>
    requires few { length instances.old ≤ 8 }
    requires each { All (λ n. emissions.HasEventAt event n.instance) instances.old }
    ensures alike { EachCame IsAlike instances.old instances.new }
    ensures passed { OnOk result (ArePassed emission.now event passed.new instances.old) }
    ensures counted { OnOk result (All (λ n. CanCountRow emission.now event n.instance) instances.new) }
    ensures memory { OnErr result (NeedsHitMemory emission.now event instances.old) }
{
    for i in 0..instances.len() {
        if instances[i].instance.has_hists(event) {
            passed[i] = instances[i].instance.reserve(event, emission)?;
        } else {
            passed[i] = [false; MOST_TRIGGERS];
        }
    }
    Ok(())
}
