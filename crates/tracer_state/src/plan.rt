//! The plans of events: what an emission of each does in each instance, as far as the settings say it alone. They are worked out when a setting
//! changes and not when an event is emitted, so an emission asks only the filters and triggers that are there, and no instance if there are none.
//!
//! ```text
//!                    instance 0   1         2        ..
//!     event 0, idle  Nothing      Nothing   Nothing
//!     event 1        Record       Nothing   Record        what it does is all in the plan
//!     event 2        Record       Nothing   Ask           its filters and triggers in 2 decide
//! ```

ghost use Rattle.std.specs.Prelude.{◌≡◌, ◌≢◌, ℕ, ◌+◌, ◌≤◌, ◌<◌, false, length, slice_index_or};
ghost use Rattle.trace_instance.specs.declared.plan.Plan.TheVariants as planned;
ghost use Rattle.tracer_state.specs.EventPlans as plans;
ghost use Rattle.tracer_state.specs.EventPlans.{IsPlanOf};
ghost use Rattle.tracer_state.specs.declared.plan.EventPlan.{EventPlan as Kept};

use crate::state::Named;
use trace_instance::{INSTANCES, Plan, Reach};

/// The most events that may be declared.
pub(crate) const EVENTS: usize = 64;

/// What an emission of an event does, by instance, in their order.
#[derive(Clone, Copy)]
pub struct EventPlan {
    pub each: [Plan; INSTANCES],
    /// What it does in each in which nothing has to be asked.
    pub reaches: [Reach; INSTANCES],
    /// Whether some instance records it whatever its row.
    pub recorded: bool,
    /// Whether a filter or a trigger has to be asked in some instance. If not, and none records it, the event is idle.
    pub asks: bool,
}

impl EventPlan {
    /// The plan of an event that no instance knows.
    pub(crate) fn idle() -> EventPlan {
        EventPlan {
            each: [Plan::Nothing; INSTANCES],
            reaches: [unasked(Plan::Nothing); INSTANCES],
            recorded: false,
            asks: false,
        }
    }

    /// The plan of the event at this index.
    pub(crate) fn new(instances: &[Named], event: usize) -> EventPlan
        ensures { IsPlanOf event result instances.now }
    {
        let idle = EventPlan::idle();
        let mut each = idle.each;
        let mut reaches = idle.reaches;
        let mut recorded = false;
        let mut some_asks = false;
        for i in 0..instances.len().min(INSTANCES) {
            let plan = instances[i].instance.plan(event);
            let reach = unasked(plan);
            each[i] = plan;
            reaches[i] = reach;
            recorded |= reach.records;
            some_asks |= asks(plan);
        }
        EventPlan {
            each,
            reaches,
            recorded,
            asks: some_asks,
        }
    }
}

/// What an emission does in an instance that isn't asked.
#[inline(always)]
pub(crate) fn unasked(plan: Plan) -> Reach
    ensures { result ≡ plans.unasked plan }
{
    match plan {
        Plan::Record => Reach {
            records: true,
            snapshot_fires: false,
        },
        Plan::Nothing | Plan::Ask => Reach {
            records: false,
            snapshot_fires: false,
        },
    }
}

/// Whether the instance has to be asked.
#[inline(always)]
pub(crate) fn asks(plan: Plan) -> bool
    ensures { result ≡ false → plan ≢ planned.Ask }
{
    matches!(plan, Plan::Ask)
}

/// Works out the plans of this many events from an index on.
pub(crate) fn replan(plans: &mut Vec<EventPlan>, instances: &[Named], first: usize, count: usize)
    requires { first + count ≤ length plans.old.items }
    ensures many { length plans.new.items ≡ length plans.old.items }
    ensures planned { (event : ℕ) (p : Kept) → first ≤ event → event < first + count
        → IsPlanOf event (slice_index_or plans.new.items event p) instances.now }
    ensures before { (event : ℕ) (p : Kept) → event < first → slice_index_or plans.new.items event p ≡ slice_index_or plans.old.items event p }
    ensures after { (event : ℕ) (p : Kept) → first + count ≤ event
        → slice_index_or plans.new.items event p ≡ slice_index_or plans.old.items event p }
{
    for event in first..first + count {
        plans[event] = EventPlan::new(instances, event);
    }
}
