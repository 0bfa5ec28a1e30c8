//! Changes: what a command does to an instance.

ghost use Rattle.std.specs.Prelude.{◌≡◌};
ghost use Rattle.trace_instance.specs.Changes as changes;

use crate::hists::{AttachedHist, MOST_TRIGGERS, Passed};
use crate::trigger::AttachedSnapshot;
use std::alloc::Global;
use trace_buffer::CPUS;
use trace_filter::Filter;
use trace_format::Row;
use trace_hist::{Action, Hist, HistSpec};

/// The most instances that there may be, counting the top one.
pub const INSTANCES: usize = 8;

/// A change to one instance. Events are named by their index among the declared ones.
#[derive(Drop)]
pub enum InstanceChange {
    Keep,
    /// Enables or disables an event.
    Switch(usize, bool),
    /// Enables or disables all events.
    SwitchAll(bool),
    /// Sets or clears an event's filter.
    SetFilter(usize, Option<Filter>),
    /// Changes each event's filter.
    SetFilters(Vec<FilterChange>),
    /// Clears all filters.
    ClearFilters,
    /// Changes an event's triggers, first removing its hist triggers unless the string is appended.
    Triggers(usize, bool, TriggerChange),
    /// Turns overwriting on or off.
    SetOverwrite(bool),
    /// Turns recording on or off.
    SetTracing(bool),
    /// Empties all rings of the live side.
    Clear,
    /// Empties one CPU's ring of the live side.
    ClearCpu(u32),
    /// Consumes this many records of each CPU.
    Take([u64; CPUS]),
    /// Consumes up to this many records of one CPU.
    TakeCpu(u32, u64),
    /// Swaps the sides, making a spare first if there is none.
    TakeSnapshot,
    /// Frees the spare side.
    FreeSpare,
    /// Empties the spare side, if there is one.
    ClearSpare,
}

/// A change to an event's triggers.
#[derive(Drop)]
pub enum TriggerChange {
    Keep,
    /// Attaches this snapshot trigger, making a spare side if there is none.
    AttachSnapshot(AttachedSnapshot),
    /// Removes the snapshot trigger.
    DetachSnapshot,
    /// Attaches a hist trigger to an existing table.
    AttachHist(AttachedHist),
    /// Attaches a hist trigger with a table of its own.
    MakeHist(Box<NewHist>),
    /// Removes the hist trigger that matches this, if there is one.
    DetachHist(Box<HistSpec>),
    /// Applies an action to the table with this number, that of the matching hist trigger.
    AskTable(u64, Action),
}

/// A hist trigger, and the table that is made with it.
#[derive(Drop)]
pub struct NewHist {
    pub attached: AttachedHist,
    pub hist: Hist,
}

/// A change to an event's filter.
#[derive(Drop)]
pub enum FilterChange {
    Keep,
    Set(Filter),
}

impl FilterChange {
    /// Whether it sets a filter.
    pub(crate) fn sets(&self) -> bool
        ensures { result ≡ changes.is_set self.now }
    {
        matches!(self, FilterChange::Set(_))
    }

    /// Applies the change.
    pub(crate) fn apply(self, filter: &mut Option<Filter>)
        ensures { filter.new ≡ changes.changed_filter self filter.old }
    {
        match self {
            FilterChange::Keep => {}
            FilterChange::Set(new) => *filter = Some(new),
        }
    }
}

/// What an emission does in an instance, apart from hist triggers.
#[derive(Clone, Copy)]
pub struct Reach {
    /// Whether its record is written.
    pub records: bool,
    /// Whether it makes the event's snapshot trigger act.
    pub snapshot_fires: bool,
}

/// A prepared emission: the index of its event; its row, with CPU and process; whether it may do anything at all; in each instance, in their order,
/// what it does and which hist triggers' filters it passes; and its record, which is one only if an instance records it.
///
/// A tracer keeps one for all its emissions, whose row and record are made anew in the memory of those before.
#[derive(Drop)]
pub struct Delivery {
    pub event: usize,
    pub row: Row,
    pub cpu: u32,
    pub pid: i32,
    pub wanted: bool,
    pub reaches: [Reach; INSTANCES],
    pub passed: [Passed; INSTANCES],
    pub record: Vec<u8>,
}

impl Delivery {
    /// A delivery of nothing, which has no memory yet.
    pub fn new(alloc: Global) -> Delivery {
        let nothing = Reach {
            records: false,
            snapshot_fires: false,
        };
        Delivery {
            event: 0,
            row: Row::new(alloc),
            cpu: 0,
            pid: 0,
            wanted: false,
            reaches: [nothing; INSTANCES],
            passed: [[false; MOST_TRIGGERS]; INSTANCES],
            record: Vec::new(alloc),
        }
    }
}
