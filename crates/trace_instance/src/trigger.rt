//! A trigger as an instance keeps it (events.rst, "Event triggers").

ghost use Rattle.std.specs.Prelude.{◌≡◌, Some, option_copied};
ghost use Rattle.std.specs.Option.{option_and_then};
ghost use Rattle.tracer_specification.specs.Triggers as triggers;
ghost use Rattle.trace_instance.specs.Rows.{kept_acts, kept_holds};
ghost use Rattle.trace_instance.specs.Deliveries.{acted_once};
ghost use Rattle.trace_instance.specs.private.Commands.{shown_kept, shown_of};
ghost use Rattle.trace_instance.specs.TriggerLists as lists;
ghost use Rattle.trace_text.specs.ShownTriggers.{shown_trigger};

use crate::hists::AttachedHist;
use crate::tables::Table;
use trace_filter::Filter;
use trace_format::Emission;
use trace_text::Shown;
use trace_trigger::SnapshotTrigger;

/// A trigger that takes a snapshot for each emission of its event that passes its filter: this many more times, or without limit.
#[derive(Drop)]
pub struct AttachedSnapshot {
    /// How many requests had been done before the one that attached it.
    pub number: u64,
    pub left: Option<u32>,
    pub filter: Option<Filter>,
}

impl AttachedSnapshot {
    /// The trigger that a string describes, attached by the request with this number.
    pub(crate) fn new(number: u64, written: SnapshotTrigger) -> AttachedSnapshot
        ensures { result ≡ record { number = number; left = written.count; filter = written.filter } }
    {
        AttachedSnapshot {
            number,
            left: written.count,
            filter: written.filter,
        }
    }

    /// The trigger as its file shows it.
    pub(crate) fn shown(&self) -> Shown<'_>
        ensures { shown_trigger result ≡ shown_kept self.now }
    {
        Shown::Snapshot {
            left: self.left.map(u64::from),
            filter: self.filter.as_ref().map(|filter| filter.text()),
        }
    }

    /// Whether it may act once more: it has times left, or no limit.
    pub(crate) fn has_times_left(&self) -> bool
        ensures { result ≡ triggers.is_left self.now.left }
    {
        is_left(self.left)
    }

    /// Whether the trigger acts on an emission of its event.
    pub(crate) fn acts(&self, emission: &Emission) -> bool
        ensures { result ≡ kept_acts (Some self.now) emission.now }
    {
        is_left(self.left) && passes(self.filter.as_ref(), emission)
    }

    /// Counts down after the trigger acted.
    pub(crate) fn count_down(&mut self)
        ensures { self.new ≡ acted_once self.old }
    {
        if let Some(left) = self.left {
            self.left = Some(left.saturating_sub(1));
        }
    }
}

/// A trigger of either kind.
#[derive(Drop)]
pub(crate) enum EventTrigger {
    Snapshot(AttachedSnapshot),
    Hist(AttachedHist),
}

impl EventTrigger {
    /// The snapshot trigger, if one was found.
    pub(crate) fn snapshot(found: Option<&EventTrigger>) -> Option<&AttachedSnapshot>
        ensures { option_copied result ≡ option_and_then lists.snapshot_of (option_copied found.entry) }
    {
        match found {
            Some(EventTrigger::Snapshot(snapshot)) => Some(snapshot),
            _ => None,
        }
    }

    /// The hist trigger, if one was found.
    pub(crate) fn hist(found: Option<&EventTrigger>) -> Option<&AttachedHist>
        ensures { option_copied result ≡ option_and_then lists.hist_of (option_copied found.entry) }
    {
        match found {
            Some(EventTrigger::Hist(hist)) => Some(hist),
            _ => None,
        }
    }

    pub(crate) fn is_snapshot(&self) -> bool
        ensures { result ≡ lists.is_snapshot self.now }
    {
        matches!(self, EventTrigger::Snapshot(_))
    }

    /// The trigger, with its table if it has one, as the event's files show it.
    pub(crate) fn shown<'a>(&'a self, tables: &'a [Table]) -> Shown<'a>
        requires { lists.HasTable tables.now self.now }
        ensures { shown_trigger result ≡ shown_of tables.now self.now }
    {
        match self {
            EventTrigger::Snapshot(snapshot) => snapshot.shown(),
            EventTrigger::Hist(hist) => hist.shown(tables),
        }
    }

    /// Counts a snapshot trigger down after it acted.
    pub(crate) fn count_snapshot_down(&mut self)
        ensures { self.new ≡ lists.counted self.old }
    {
        if let EventTrigger::Snapshot(snapshot) = self {
            snapshot.count_down();
        }
    }
}

// Whether the trigger may act once more.
fn is_left(left: Option<u32>) -> bool
    ensures { result ≡ triggers.is_left left }
{
    left != Some(0)
}

/// Whether an emission passes a filter, if there is one.
#[tactic(auto, unfolding(crate::specs::Rows::kept_holds))]
pub(crate) fn passes(filter: Option<&Filter>, emission: &Emission) -> bool
    ensures { result ≡ kept_holds (option_copied filter.entry) emission.now }
{
    match filter {
        Some(filter) => filter.passes(emission.row, emission.cpu, emission.pid),
        None => true,
    }
}
