//! What an instance keeps of an event: a kernel's `struct trace_event_file`.

ghost use Rattle.std.specs.Prelude.{◌≡◌, ◌&&◌, false, not, None, is_some, [], length};
ghost use Rattle.std.specs.List.{list_all, list_any};
ghost use Rattle.trace_instance.specs.KeptHists.{uses_table};
ghost use Rattle.trace_instance.specs.Rows.{kept_acts, kept_holds};
ghost use Rattle.trace_instance.specs.EventLists.{with_filters};
ghost use Rattle.trace_instance.specs.declared.event.InstanceEvent.{InstanceEvent as Kept};

use crate::change::FilterChange;
use crate::trigger::passes;
use crate::trigger_list::TriggerList;
use std::alloc::Global;
use trace_filter::Filter;
use trace_format::Emission;

/// An event in an instance: whether it is enabled, its filter and its triggers. An emission reads one of these in each instance.
#[derive(Drop)]
pub(crate) struct InstanceEvent {
    pub(crate) enabled: bool,
    pub(crate) filter: Option<Filter>,
    pub(crate) triggers: TriggerList,
}

impl InstanceEvent {
    /// An event as it is declared: disabled, without filter or triggers.
    pub(crate) fn new(alloc: Global) -> InstanceEvent
        ensures { result ≡ record { enabled = false; filter = None; triggers = record { snapshot = None; hists = []; room = 0 } } }
    {
        InstanceEvent {
            enabled: false,
            filter: None,
            triggers: TriggerList::new(alloc),
        }
    }

    /// Whether an emission is recorded, if the instance records: the event is enabled and its filter passes.
    #[inline(always)]
    pub(crate) fn records(&self, emission: &Emission) -> bool
        ensures { result ≡ (self.now.enabled && kept_holds self.now.filter emission.now) }
    {
        self.enabled && passes(self.filter.as_ref(), emission)
    }

    /// Whether an emission makes the snapshot trigger act.
    #[inline(always)]
    pub(crate) fn snapshot_fires(&self, emission: &Emission) -> bool
        ensures { result ≡ kept_acts self.now.triggers.snapshot emission.now }
    {
        match self.triggers.snapshot() {
            Some(trigger) => trigger.acts(emission),
            None => false,
        }
    }
}

/// Whether no event is enabled.
pub(crate) fn none_on(events: &[InstanceEvent]) -> bool
    ensures { result ≡ list_all (λ (e : Kept). not e.enabled) events.now }
{
    events.iter().all(|event| !event.enabled)
}

/// Whether any event is disabled.
pub(crate) fn some_off(events: &[InstanceEvent]) -> bool
    ensures { result ≡ list_any (λ (e : Kept). not e.enabled) events.now }
{
    events.iter().any(|event| !event.enabled)
}

/// Whether any event has a snapshot trigger.
pub(crate) fn has_snapshot_trigger(events: &[InstanceEvent]) -> bool
    ensures { result ≡ list_any (λ (e : Kept). is_some e.triggers.snapshot) events.now }
{
    events
        .iter()
        .any(|event| event.triggers.snapshot().is_some())
}

/// Whether any hist trigger counts in the table with this number.
pub(crate) fn is_used(events: &[InstanceEvent], table: u64) -> bool
    ensures { result ≡ list_any (λ (e : Kept). uses_table table e.triggers.hists) events.now }
{
    events.iter().any(|event| event.triggers.uses(table))
}

/// Changes each event's filter.
pub(crate) fn change_filters(events: &mut [InstanceEvent], changes: Vec<FilterChange>)
    requires { length changes.items ≡ length events.old }
    ensures { events.new ≡ with_filters changes.items events.old }
{
    let mut i = 0;
    for change in changes {
        change.apply(&mut events[i].filter);
        i += 1;
    }
}
