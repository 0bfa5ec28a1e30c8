//! A hist trigger as an instance keeps it (histogram.rst, "hist triggers").

ghost use Rattle.std.specs.Prelude.{◌≡◌, true, is_some};
ghost use Rattle.trace_trigger.specs.SameSpecs.{is_passed};
ghost use Rattle.trace_instance.specs.private.Commands.{shown_attached};
ghost use Rattle.trace_instance.specs.private.SharedTables as sharing;
ghost use Rattle.trace_instance.specs.KeptHists as kept;
ghost use Rattle.trace_instance.specs.KeptHists.{table_numbered};
ghost use Rattle.trace_instance.specs.WantedEvents.{is_active};
ghost use Rattle.trace_text.specs.ShownTriggers.{shown_trigger};

use crate::tables;
use crate::tables::Table;
use trace_format::Emission;
use trace_hist::{HistSpec, SharedSpec};
use trace_text::Shown;

/// The most triggers, of all kinds, that an event may have in an instance.
pub const MOST_TRIGGERS: usize = 4;

/// Whether an emission passes each hist trigger's filter, by its index among the hist triggers; `false` beyond the last one.
pub type Passed = [bool; MOST_TRIGGERS];

/// An attached hist trigger.
#[derive(Drop)]
pub struct AttachedHist {
    /// How many requests had been done before the one that attached it.
    pub number: u64,
    /// The number of the table in which it counts.
    pub table: u64,
    pub spec: SharedSpec,
}

impl AttachedHist {
    /// The trigger with its table, as its files show it.
    pub(crate) fn shown<'a>(&'a self, tables: &'a [Table]) -> Shown<'a>
        requires { is_some (table_numbered self.now.table tables.now) ≡ true }
        ensures { shown_trigger result ≡ shown_attached tables.now self.now }
    {
        match tables::hist_of(tables, self.table) {
            Some(hist) => Shown::Hist(&self.spec, hist),
            None => unreachable!(),
        }
    }

    /// Whether an emission of its event passes its filter, if it has one.
    pub(crate) fn passes(&self, emission: &Emission) -> bool
        ensures { result ≡ is_passed self.now.spec.filter emission.now }
    {
        self.spec.passes(emission.row, emission.cpu, emission.pid)
    }

    /// Whether it counts rows: its table is not paused.
    pub(crate) fn is_active(&self, tables: &[Table]) -> bool
        ensures { result ≡ is_active tables.now self.now }
    {
        match tables::hist_of(tables, self.table) {
            Some(hist) => !hist.is_paused(),
            None => false,
        }
    }

    /// Whether it matches: the same name, keys, values, sort keys and filter.
    pub(crate) fn says_same(&self, spec: &HistSpec) -> bool
        ensures { result ≡ kept.says_same spec.now self.now }
    {
        spec.same(&self.spec)
    }

    /// Whether a string names its table.
    pub(crate) fn is_named_by(&self, spec: &HistSpec) -> bool
        ensures { result ≡ sharing.names_table_of spec.now self.now }
    {
        match (spec.name(), self.spec.name()) {
            (Some(name), Some(other)) => name == other,
            _ => false,
        }
    }
}
