//! Plans: what an emission of an event does in an instance, as far as the instance's settings say it for every row. They change only with a setting,
//! so whoever owns the instances can keep them, as a kernel keeps the flags of `struct trace_event_file`.

ghost use Rattle.std.specs.Prelude.{◌≡◌, ◌&&◌, ◌||◌, is_some};
ghost use Rattle.trace_instance.specs.Plans as plans;
ghost use Rattle.trace_instance.specs.WantedEvents.{may_act};

use crate::change::InstanceChange;
use crate::event::InstanceEvent;
use crate::tables::Table;

/// What an emission of an event does in an instance.
#[derive(Clone, Copy)]
pub enum Plan {
    /// It isn't recorded, and the event has no triggers.
    Nothing,
    /// It is recorded, and the event has no triggers.
    Record,
    /// A filter or a trigger decides, by the row.
    Ask,
}

impl InstanceEvent {
    /// Whether an instance that is recording or not, with these tables, wants its emissions: it records them, or a trigger may act on them.
    pub(crate) fn is_wanted(&self, tracing: bool, tables: &[Table]) -> bool
        ensures { result ≡ ((tracing && self.now.enabled) || may_act self.now.triggers.snapshot self.now.triggers.hists tables.now) }
    {
        tracing && self.enabled || self.triggers.may_act(tables)
    }

    /// What an emission does, in an instance that is recording or not.
    pub(crate) fn plan(&self, tracing: bool) -> Plan
        ensures { result ≡ plans.planned (tracing && self.now.enabled) self.now.filter (is_some self.now.triggers.snapshot) self.now.triggers.hists }
    {
        if !self.triggers.is_empty() {
            return Plan::Ask;
        }
        match (tracing && self.enabled, &self.filter) {
            (false, _) => Plan::Nothing,
            (true, None) => Plan::Record,
            (true, Some(_)) => Plan::Ask,
        }
    }
}

/// Events next to one another: the index of the first, and how many.
#[derive(Clone, Copy)]
pub struct Touched {
    pub first: usize,
    pub count: usize,
}

impl InstanceChange {
    /// The events whose plans the change may change, where so many are declared.
    pub fn touched(&self, events: usize) -> Touched
        ensures { result ≡ plans.touched events self.now }
    {
        match self {
            InstanceChange::Switch(event, _)
            | InstanceChange::SetFilter(event, _)
            | InstanceChange::Triggers(event, _, _) => Touched {
                first: *event,
                count: 1,
            },
            InstanceChange::SwitchAll(_)
            | InstanceChange::SetFilters(_)
            | InstanceChange::ClearFilters
            | InstanceChange::SetTracing(_) => Touched {
                first: 0,
                count: events,
            },
            InstanceChange::Keep
            | InstanceChange::SetOverwrite(_)
            | InstanceChange::Clear
            | InstanceChange::ClearCpu(_)
            | InstanceChange::Take(_)
            | InstanceChange::TakeCpu(_, _)
            | InstanceChange::TakeSnapshot
            | InstanceChange::FreeSpare
            | InstanceChange::ClearSpare => Touched { first: 0, count: 0 },
        }
    }
}
