//! What a histogram has counted: its entries and totals, and where the next row is counted.

ghost use Rattle.std.specs.Prelude.{◌≡◌, ◌≢◌, ◌+◌, ◌<◌, false, length, IfOk, OnOk, OnErr};
ghost use Rattle.hist_entries.specs.HistEntries.{is_among};
ghost use Rattle.hist_entries.specs.RowPlaces.{In, IsPlaceOf, entry_keys, most_rows};
ghost use Rattle.trace_hist.specs.TriggerHits.{hit_of};
ghost use Rattle.trace_hist.specs.private.Steps.{after_hit, none_kept};

use crate::totals::Totals;
use hist_entries::{EntriesCopy, EntryTable, Next, copy_entries, count_row, shown_with};
use std::alloc::{AllocError, Global};
use std::marker::Model;
use trace_format::Emission;
use trace_trigger::HistSpec;

/// The entries and totals of a histogram.
#[derive(Drop)]
pub(crate) struct Counts {
    kept: EntryTable,
    // How many rows were counted into entries, and how many had none.
    hits: u64,
    dropped: u64,
    next: Next,
}

impl Model for Counts {
    ghost use Rattle.trace_hist.specs.Stored.{Kept};

    ghost Value = { Kept };

    ghost use Rattle.trace_hist.specs.Stored.{seen, IsSound};

    ghost view = { seen };

    ghost invariant = { IsSound };
}

impl Counts {
    /// Of no rows, with room for so many entries of so many sums.
    pub(crate) fn new(alloc: Global, size: usize, width: usize) -> Counts
        ensures { result ≡ none_kept size width }
    {
        Counts {
            kept: EntryTable::new(alloc, size, width),
            hits: 0,
            dropped: 0,
            next: Next::Unknown,
        }
    }

    /// Makes room for a row of an emission, which a trigger reads, so that `count` can count it.
    pub(crate) fn reserve(
        &mut self,
        alloc: Global,
        by: &HistSpec,
        emission: &Emission,
    ) -> Result<(), AllocError>
        ensures size { self.new.size ≡ self.old.size }
        ensures width { self.new.width ≡ self.old.width }
        ensures table { self.new.table ≡ self.old.table }
        ensures place { OnOk result (IsPlaceOf self.new.next self.old.size self.old.table.entries (hit_of by.now emission.now).key) }
        ensures err { OnErr result (self.new ≡ self.old) }
        ensures room { OnErr result (length self.old.table.entries < self.old.size) }
        ensures new { OnErr result (is_among (entry_keys self.old.table.entries) (hit_of by.now emission.now).key ≡ false) }
        ensures unreserved { OnErr result (self.old.next ≢ In (hit_of by.now emission.now).key) }
    {
        self.next = self.kept.reserve(alloc, by.keys(), emission)?;
        Ok(())
    }

    /// Counts a row of an emission, which a trigger reads, where that was reserved. What was reserved stays so.
    pub(crate) fn count(&mut self, by: &HistSpec, emission: &Emission)
        requires place { IsPlaceOf self.old.next self.old.size self.old.table.entries (hit_of by.now emission.now).key }
        requires few { self.old.table.hits + self.old.table.dropped < most_rows }
        ensures { self.new ≡ after_hit self.old (hit_of by.now emission.now) }
    {
        match self.next {
            Next::At(index) => {
                self.kept.shown = shown_with(&self.kept.entries, self.kept.shown, index);
                count_row(&mut self.kept.entries, index, by.value_sources(), emission);
                self.hits += 1;
            }
            Next::Dropped => self.dropped += 1,
            Next::Unknown => unreachable!(),
        }
    }

    /// Forgets all rows. The memory that was taken stays.
    pub(crate) fn clear(&mut self)
        ensures { self.new ≡ none_kept self.old.size self.old.width }
    {
        self.kept.clear();
        self.hits = 0;
        self.dropped = 0;
        self.next = Next::Unknown;
    }

    /// How many rows were counted, into how many entries, and how many had none.
    pub(crate) fn totals(&self) -> Totals
        ensures hits { result.hits ≡ self.now.table.hits }
        ensures entries { result.entries ≡ length self.now.table.entries }
        ensures dropped { result.dropped ≡ self.now.table.dropped }
    {
        Totals {
            hits: self.hits,
            entries: self.kept.shown as u64,
            dropped: self.dropped,
        }
    }

    /// A copy of the entries that are shown, in first-seen order.
    pub(crate) fn copy_entries(&self, alloc: Global) -> Result<EntriesCopy, AllocError>
        ensures { IfOk result (λ copy. copy ≡ self.now.table.entries) }
    {
        copy_entries(alloc, &self.kept.entries, self.kept.shown)
    }
}
