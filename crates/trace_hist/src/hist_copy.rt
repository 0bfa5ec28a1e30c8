//! A copy of a histogram, for a reader that makes its text while the histogram goes on counting.

ghost use Rattle.std.specs.Prelude.{◌≡◌, length, map, IfOk};
ghost use Rattle.hist_entries.specs.PrintOrder.{row_in, printed};
ghost use Rattle.trace_hist.specs.HistCopies as copies;

use crate::shared::SharedSpec;
use crate::sort::rows_in_order;
use crate::totals::Totals;
use hist_entries::{EntriesCopy, HistRow};
use std::alloc::{AllocError, Global};
use std::marker::Model;

/// What a histogram showed when it was copied: its trigger, whether it was paused, its totals and its entries.
#[derive(Drop)]
pub struct HistCopy {
    spec: SharedSpec,
    paused: bool,
    totals: Totals,
    entries: EntriesCopy,
}

impl Model for HistCopy {
    ghost use Rattle.trace_hist.specs.HistCopies.{Copied};

    ghost Value = { Copied };

    ghost use Rattle.trace_hist.specs.HistCopies.{copied_of, IsCounted};

    ghost view = { λ c. copied_of c.spec c.paused c.totals c.entries };

    ghost invariant = { λ c. IsCounted c.totals c.entries };
}

impl HistCopy {
    // The copy that has these.
    pub(crate) fn new(
        spec: SharedSpec,
        paused: bool,
        totals: Totals,
        entries: EntriesCopy,
    ) -> HistCopy
        requires { copies.IsCounted totals entries }
        ensures { result ≡ copies.copied_of spec paused totals entries }
    {
        HistCopy {
            spec,
            paused,
            totals,
            entries,
        }
    }

    /// Whether it was paused.
    pub fn is_paused(&self) -> bool
        ensures { result ≡ self.now.paused }
    {
        self.paused
    }

    /// How many rows were counted, into how many entries, and how many had no room.
    pub fn totals(&self) -> Totals
        ensures { result ≡ record {
          hits = self.now.table.hits;
          entries = length self.now.table.entries;
          dropped = self.now.table.dropped;
        } }
    {
        self.totals
    }

    /// The entries in print order: by the sort keys in turn, those that tie in order of first occurrence. The only error is that memory is refused.
    pub fn rows(&self, alloc: Global) -> Result<Vec<HistRow>, AllocError>
        ensures { IfOk result (λ shown. map row_in shown.items ≡ printed self.now.spec.sort_sources self.now.table.entries) }
    {
        rows_in_order(alloc, self.spec.sort_sources(), &self.entries)
    }
}
