//! Histograms: what a hist trigger has counted.
//!
//! A histogram stands for the list of rows that it has counted, and all that it tells is the grouping of that list: the first distinct keys, as many
//! as there is room for, each with the number of rows that had it and the sums of their values. Nothing else is kept of a row. A table has an entry
//! for each key, in first-seen order; an entry has a count and the sums:
//!
//! ```text
//!                       key          count   sums
//!   index 0             ["a", 1]         3   [30]
//!         1             ["b", 1]         1    [5]
//!   shown = 2  -------------------------------------------- entries from here on are not shown
//!         2             ["a", 2]         0    [0]           reserved: at most one
//! ```
//!
//! A row is counted in two phases, since an emission may reach many histograms and is refused as a whole where memory is short:
//!
//! ```text
//!   reserve_hit   finds the entry of the row's key, and notes its index (`next`). A new key is put in last, with a count of 0, or
//!                 dropped where the table is full. Only a new entry takes memory, and before anything changes
//!   hit           adds the row to the entry at that index. If that is the reserved one, it is shown from then on
//! ```
//!
//! The entry of a key is found by a hint, mostly (hints.rt of hist_entries): the entry that a hint names is compared with the row, and only if the
//! key is not its own is the key looked up by its hash.
//!
//! `next` stays after a hit, so that it counts another row with the same key, which another trigger reads. If a row is not counted after all (the emission
//! was refused), the reserved entry is left at the end and not shown. The next `reserve_hit` of another key takes it out, unless it is refused or the
//! histogram is paused, and so does `clear`. A paused histogram reserves nothing.
//!
//! Several triggers may count in one table, also triggers of several events: each call has a form that says which trigger reads the row
//! (`reserve_hit_as`, `hit_as`). Two of one event, with the same keys, read the same key of a row, so it is reserved once and counted twice.
//!
//! Sums have 128 bits. A row's number is from -2^63 to 2^64 - 1, and a histogram counts so few rows (`HasRoom`) that no sum overflows.

ghost use Rattle.std.specs.Prelude.{◌≡◌, [], IsOk, IfOk, OnOk, OnErr, length, IsTrue, ◌↔◌, false, true};
ghost use Rattle.trace_trigger.specs.declared.spec.Action.TheVariants as actions;
ghost use Rattle.trace_hist.specs.HistCopies.{copied};
ghost use Rattle.trace_hist.specs.Hists.{StandsFor, IsReserved, IsReservedAs, NeedsEntry, NeedsEntryAs, HasRoom, IsReservedFor, IsCountedFor};

use crate::counts::Counts;
use crate::hist_copy::HistCopy;
use crate::shared::SharedSpec;
use crate::totals::Totals;
use std::alloc::{AllocError, Global};
use std::marker::Model;
use trace_format::{Emission, Row};
use trace_trigger::{Action, HistSpec};

/// The histogram of a trigger: an entry for each key, with a count and sums.
#[derive(Drop)]
pub struct Hist {
    alloc: Global,
    spec: SharedSpec,
    paused: bool,
    counts: Counts,
}

impl Model for Hist {
    ghost use Rattle.trace_hist.specs.Hists.{Seen};

    ghost Value = { Seen };

    ghost use Rattle.trace_hist.specs.private.Steps.{AreOf};
    ghost use Rattle.trace_hist.specs.Stored.{seen_of};

    ghost view = { λ h. seen_of h.spec h.paused h.counts };

    ghost invariant = { λ h. AreOf h.spec h.counts };
}

impl Hist {
    /// The histogram of a trigger, with nothing counted. It is paused where the trigger asks for it. It takes no memory, and never fails.
    pub fn new(alloc: Global, spec: SharedSpec) -> Result<Hist, AllocError>
        ensures ok { IsOk result }
        ensures stands { IfOk result (λ hist. StandsFor hist []) }
        ensures spec { IfOk result (λ hist. hist.spec ≡ spec) }
        ensures paused { IfOk result (λ hist. IsTrue hist.paused ↔ (spec.action ≡ actions.Pause)) }
    {
        let paused = matches!(spec.action(), Action::Pause);
        let counts = Counts::new(alloc, spec.size() as usize, spec.value_sources().len());
        Ok(Hist {
            alloc,
            spec,
            paused,
            counts,
        })
    }

    /// Makes room for a row, so that `hit` can count it: an entry for its key, if it has none, the table isn't full and the histogram isn't
    /// paused. In all other cases it takes no memory and succeeds. All that can be seen stays as it was, also where memory is refused.
    pub fn reserve_hit(&mut self, row: &Row, cpu: u32, pid: i32) -> Result<(), AllocError>
        ensures reserved { OnOk result (IsReservedFor self.old.spec
            (record { values = row.now.values; cpu = cpu; pid = pid }) self.old self.new) }
        ensures err { OnErr result (self.new ≡ self.old) }
        // Memory is taken, and may be refused, only for a new entry.
        ensures memory { OnErr result (NeedsEntry self.old
            (record { values = row.now.values; cpu = cpu; pid = pid })) }
    {
        if self.paused {
            return Ok(());
        }
        self.counts
            .reserve(self.alloc, &self.spec, &Emission { row, cpu, pid })
    }

    /// The same for a row that another trigger of this table reads: an entry for the key that the row has by that trigger.
    pub fn reserve_hit_as(&mut self, by: &HistSpec, emission: &Emission) -> Result<(), AllocError>
        ensures reserved { OnOk result (IsReservedFor by.now emission.now self.old self.new) }
        ensures err { OnErr result (self.new ≡ self.old) }
        // Memory is taken, and may be refused, only for a new entry.
        ensures memory { OnErr result (NeedsEntryAs self.old by.now emission.now) }
    {
        if self.paused {
            return Ok(());
        }
        self.counts.reserve(self.alloc, by, emission)
    }

    /// Counts a row of the trigger's event, which was emitted on a CPU by a process, unless the trigger is paused. It doesn't look at the
    /// filter: ask `passes` first. The last call that changes it was a `reserve_hit` of this row, or hits after it of rows with the same key. It
    /// takes no memory.
    pub fn hit(&mut self, row: &Row, cpu: u32, pid: i32)
        requires reserved { IsReserved self.old
            (record { values = row.now.values; cpu = cpu; pid = pid }) }
        requires few { HasRoom self.old }
        ensures { IsCountedFor self.old.spec
            (record { values = row.now.values; cpu = cpu; pid = pid }) self.old self.new }
    {
        if !self.paused {
            self.counts.count(&self.spec, &Emission { row, cpu, pid });
        }
    }

    /// The same for a row that another trigger of this table reads: its key and numbers are those that the row has by that trigger.
    pub fn hit_as(&mut self, by: &HistSpec, emission: &Emission)
        requires reserved { IsReservedAs self.old by.now emission.now }
        requires few { HasRoom self.old }
        ensures { IsCountedFor by.now emission.now self.old self.new }
    {
        if self.paused {
            return;
        }
        self.counts.count(by, emission);
    }

    /// Stops counting: rows that come are passed over.
    pub fn pause(&mut self)
        ensures { self.new ≡ record self.old { paused = true } }
    {
        self.paused = true;
    }

    /// Goes on counting.
    pub fn resume(&mut self)
        ensures { self.new ≡ record self.old { paused = false } }
    {
        self.paused = false;
    }

    /// Empties it. Whether it is paused stays, and so does the memory that was taken.
    pub fn clear(&mut self)
        ensures stands { StandsFor self.new [] }
        ensures spec { self.new.spec ≡ self.old.spec }
        ensures paused { self.new.paused ≡ self.old.paused }
    {
        self.counts.clear();
    }

    /// Whether it is paused.
    pub fn is_paused(&self) -> bool
        ensures { result ≡ self.now.paused }
    {
        self.paused
    }

    /// The trigger.
    pub fn spec(&self) -> &HistSpec
        ensures { result.now ≡ self.now.spec }
    {
        &self.spec
    }

    /// How many rows were counted, into how many entries, and how many had no room. It takes no memory.
    pub fn totals(&self) -> Totals
        ensures { result ≡ record {
          hits = self.now.table.hits;
          entries = length self.now.table.entries;
          dropped = self.now.table.dropped;
        } }
    {
        self.counts.totals()
    }

    /// A copy of what it shows, of which the entries are put into print order later. It takes a few blocks of memory, however many entries there are.
    /// The only error is that memory is refused.
    pub fn copy(&self) -> Result<HistCopy, AllocError>
        ensures { IfOk result (λ copy. copy ≡ copied self.now) }
    {
        let spec = self.spec.share()?;
        let entries = self.counts.copy_entries(self.alloc)?;
        Ok(HistCopy::new(spec, self.paused, self.counts.totals(), entries))
    }
}
