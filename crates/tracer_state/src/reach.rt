//! What an emission does in each instance, apart from hist triggers: read off the event's plan, or asked of the instance.

ghost use Rattle.std.specs.Prelude.{◌≡◌, ◌≤◌, false, [], length, slice_index_or, All};
ghost use Rattle.trace_instance.specs.Plans.{plan_of};
ghost use Rattle.trace_instance.specs.Rows.{reach_of};
ghost use Rattle.tracer_state.specs.EventPlans.{IsPlanOf};
ghost use Rattle.tracer_state.specs.private.Emissions as emissions;

use crate::plan::{EventPlan, asks, unasked};
use crate::state::Named;
use trace_format::Emission;
use trace_instance::{INSTANCES, Instance, Plan, Reach};

/// What an emission does in any instance.
#[derive(Clone, Copy)]
pub(crate) struct Reached {
    /// Whether some instance records it.
    pub recorded: bool,
    /// Whether some instance has a snapshot trigger that acts, or hist triggers of its event.
    pub triggered: bool,
}

/// What an emission of the event at this index, which has this plan, does in each instance, and what it does in any. The emission comes
/// by value, so that it is put together only if an instance is asked.
#[inline(always)]
pub(crate) fn reach_planned(
    plan: &EventPlan,
    instances: &[Named],
    event: usize,
    emission: Emission<'_>,
    reaches: &mut [Reach; INSTANCES],
) -> Reached
    requires planned { IsPlanOf event plan.now instances.now }
    requires few { length instances.now ≤ 8 }
    requires each { All (λ n. emissions.HasEventAt event n.instance) instances.now }
    ensures reached { emissions.AreReached event emission.entry reaches.new result.recorded instances.now }
    ensures quiet { emissions.AreQuiet event reaches.new result.triggered instances.now }
{
    if !plan.asks {
        *reaches = plan.reaches;
        return Reached {
            recorded: plan.recorded,
            triggered: false,
        };
    }
    reach_each(plan, instances, event, &emission, reaches)
}

// As `reach_planned`, where some instance is asked.
#[inline(always)]
fn reach_each(
    plan: &EventPlan,
    instances: &[Named],
    event: usize,
    emission: &Emission,
    reaches: &mut [Reach; INSTANCES],
) -> Reached
    requires planned { IsPlanOf event plan.now instances.now }
    requires few { length instances.now ≤ 8 }
    requires each { All (λ n. emissions.HasEventAt event n.instance) instances.now }
    ensures reached { emissions.AreReached event emission.now reaches.new result.recorded instances.now }
    ensures quiet { emissions.AreQuiet event reaches.new result.triggered instances.now }
{
    let mut recorded = false;
    let mut triggered = false;
    for i in 0..instances.len() {
        let here = reach_one(plan.each[i], &instances[i].instance, event, emission);
        reaches[i] = here.reach;
        recorded |= here.reach.records;
        triggered |= here.triggered;
    }
    Reached {
        recorded,
        triggered,
    }
}

// What an emission does in an instance, and whether a trigger of its event may do anything there.
#[derive(Clone, Copy)]
struct OneReached {
    reach: Reach,
    triggered: bool,
}

// What an emission of the event at this index, which has this plan there, does in an instance.
#[inline(always)]
fn reach_one(plan: Plan, instance: &Instance, event: usize, emission: &Emission) -> OneReached
    requires planned { plan ≡ plan_of instance.now event }
    requires event { emissions.HasEventAt event instance.now }
    ensures reach { result.reach ≡ reach_of instance.now event emission.now }
    ensures snapshot_fires { result.triggered ≡ false → result.reach.snapshot_fires ≡ false }
    ensures hists { result.triggered ≡ false → slice_index_or instance.now.hists event [] ≡ [] }
{
    if !asks(plan) {
        return OneReached {
            reach: unasked(plan),
            triggered: false,
        };
    }
    let reach = instance.reach(event, emission);
    OneReached {
        reach,
        triggered: reach.snapshot_fires | instance.has_hists(event),
    }
}
