//! The tables of an instance's hist triggers (histogram.rst, "hist triggers"): a trigger counts in one, and triggers of one name share one.

ghost use Rattle.std.specs.Prelude.{◌≡◌, ℕ, ◌==◌, if◌then◌else◌, position, option_map, option_copied, IfSome, OnOk, OnErr};
ghost use Rattle.std.specs.List.{filter};
ghost use Rattle.trace_hist.specs.Hists.{HasRoom, IsReservedAs};
ghost use Rattle.trace_instance.specs.KeptHists as kept;
ghost use Rattle.trace_instance.specs.KeptHists.{table_numbered, kept_at};
ghost use Rattle.trace_instance.specs.EventLists.{all_hists};
ghost use Rattle.trace_instance.specs.private.Tables as steps;
ghost use Rattle.trace_instance.specs.declared.tables.Table.{Table as TableSeen};

use crate::event;
use crate::event::InstanceEvent;
use std::alloc::AllocError;
use trace_format::Emission;
use trace_hist::{Action, Hist, HistSpec};

/// A table, with the number by which triggers know it: that of the request that made it with its first trigger.
#[derive(Drop)]
pub struct Table {
    pub number: u64,
    pub hist: Hist,
}

impl Table {
    // Applies an action.
    fn ask(&mut self, action: Action)
        ensures number { self.new.number ≡ self.old.number }
        ensures asked { kept.kept_table self.new.hist ≡ kept.asked action (kept.kept_table self.old.hist) }
    {
        match action {
            Action::Attach => {}
            Action::Pause => self.hist.pause(),
            Action::Continue => self.hist.resume(),
            Action::Clear => self.hist.clear(),
        }
    }
}

// The index of the table with this number.
fn index_of(tables: &[Table], number: u64) -> Option<usize>
    ensures { result ≡ position (λ (t : TableSeen). t.number == number) tables.now }
{
    tables.iter().position(|table| table.number == number)
}

/// The histogram of the table with this number.
pub(crate) fn hist_of(tables: &[Table], number: u64) -> Option<&Hist>
    ensures { option_copied result ≡ table_numbered number tables.now }
{
    let index = index_of(tables, number)?;
    Some(&tables[index].hist)
}

/// Applies an action to the table with this number.
pub(crate) fn ask(tables: &mut [Table], number: u64, action: Action)
    ensures { (other : ℕ) → kept_at other tables.new
        ≡ (if number == other then option_map (kept.asked action) (kept_at other tables.old) else kept_at other tables.old) }
{
    if let Some(index) = index_of(tables, number) {
        tables[index].ask(action);
    }
}

/// Reserves memory in the table with this number to count a row, as a trigger reads it.
pub(crate) fn reserve(
    tables: &mut [Table],
    number: u64,
    by: &HistSpec,
    emission: &Emission,
) -> Result<(), AllocError>
    ensures alike { (other : ℕ) → kept_at other tables.new ≡ kept_at other tables.old }
    ensures others { (other : ℕ) → (other ≡ number → ⊥) → table_numbered other tables.new ≡ table_numbered other tables.old }
    ensures ready { OnOk result (IfSome (table_numbered number tables.new)
        (λ hist. IsReservedAs hist by.now emission.now)) }
    ensures memory { OnErr result (kept.NeedsMemoryIn by.now emission.now (table_numbered number tables.old)) }
{
    let Some(index) = index_of(tables, number) else {
        return Ok(());
    };
    tables[index].hist.reserve_hit_as(by, emission)
}

/// Counts a row in the table with this number, as a trigger reads it.
pub(crate) fn hit(tables: &mut [Table], number: u64, by: &HistSpec, emission: &Emission)
    requires ready { IfSome (table_numbered number tables.old)
        (λ hist. IsReservedAs hist by.now emission.now) }
    requires few { IfSome (table_numbered number tables.old) HasRoom }
    ensures hit { steps.IsCounted by.now emission.now (table_numbered number tables.old) (table_numbered number tables.new) }
    ensures others { (other : ℕ) → (other ≡ number → ⊥) → table_numbered other tables.new ≡ table_numbered other tables.old }
{
    if let Some(index) = index_of(tables, number) {
        tables[index].hist.hit_as(by, emission);
    }
}

/// Drops the tables that no trigger uses any more.
#[tactic(auto, using(crate::proofs::EachEvent::each_event))]
pub(crate) fn keep_used(tables: &mut Vec<Table>, events: &[InstanceEvent])
    ensures { tables.new.items ≡ filter (λ (t : TableSeen). kept.is_used t.number (all_hists events.now)) tables.old.items }
{
    tables.retain(|table| event::is_used(events, table.number));
}
