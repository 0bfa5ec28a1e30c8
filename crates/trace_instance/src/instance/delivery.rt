//! An emission in one instance: what it does is worked out, its hist triggers' memory is reserved, and then it is applied.

ghost use Rattle.std.specs.Prelude.{◌≡◌, ◌≤◌, ◌<◌, ◌==◌, [], true, not, is_some, length, slice_index_or, IfOk, OnOk, OnErr};
ghost use Rattle.trace_record.specs.Record.{IsRecord};
ghost use Rattle.trace_buffer.specs.Buffers as buffers;
ghost use Rattle.trace_instance.specs.Instances.{IsAlike, passed_in};
ghost use Rattle.trace_instance.specs.KeptHists.{KeysAgree};
ghost use Rattle.trace_instance.specs.Plans.{plan_of};
ghost use Rattle.trace_instance.specs.WantedEvents.{wants_event};
ghost use Rattle.trace_instance.specs.Rows as rows;
ghost use Rattle.trace_instance.specs.Deliveries.{CanCountRow, NeedsRowMemory, CanFire, HasFewRows, row_of, IsDelivered, IsOffered, IsExchanged, IsWritable, IsWritten, HasFew};

use super::Instance;
use crate::change::{Delivery, Reach};
use crate::hists::Passed;
use crate::plan::Plan;
use std::alloc::AllocError;
use trace_format::Emission;

impl Instance {
    /// Whether the event at this index has hist triggers.
    pub fn has_hists(&self, event: usize) -> bool
        requires { event < length self.now.hists }
        ensures { result ≡ not (length (slice_index_or self.now.hists event []) == 0) }
    {
        self.events[event].triggers.has_hists()
    }

    /// What an emission of the event at this index does here, as far as the settings say it for every row. If there is no such event: nothing.
    pub fn plan(&self, event: usize) -> Plan
        ensures { result ≡ plan_of self.now event }
    {
        if event >= self.events.len() {
            return Plan::Nothing;
        }
        self.events[event].plan(self.tracing)
    }

    /// Whether it wants the emissions of the event at this index, whatever their rows are: it is recording and the event is enabled (events.rst, "Using
    /// Event Tracing"), a hist trigger of the event is not paused, or its snapshot trigger has times left or no limit ("Event triggers"). Filters are
    /// not asked. If there is no such event: no.
    pub fn wants(&self, event: usize) -> bool
        ensures { result ≡ wants_event self.now event }
    {
        event < self.events.len() && self.events[event].is_wanted(self.tracing, &self.tables)
    }

    /// Evaluates the filters of the hist triggers of the event at this index for a row, and reserves memory to count it for those that it passes.
    pub fn reserve(&mut self, event: usize, emission: &Emission) -> Result<Passed, AllocError>
        requires event { event < length self.old.hists }
        requires agree { KeysAgree (slice_index_or self.old.hists event []) }
        ensures passed { IfOk result (λ passed. passed ≡ passed_in emission.now event self.old) }
        ensures alike { IsAlike self.old self.new }
        ensures ready { OnOk result (CanCountRow emission.now event self.new) }
        // Memory is taken, and may be refused, only for a row that needs a new entry in some table.
        ensures memory { OnErr result (NeedsRowMemory emission.now event self.old) }
    {
        self.events[event]
            .triggers
            .reserve(&mut self.tables, emission)
    }

    /// What an emission of the event at this index does here, apart from hist triggers: whether it is recorded (recording is on, the event is
    /// enabled, its filter passes) and whether the event's snapshot trigger acts (only its own filter and count matter).
    pub fn reach(&self, event: usize, emission: &Emission) -> Reach
        requires enabled { event < length self.now.enabled }
        requires filters { event < length self.now.filters }
        requires triggers { event < length self.now.triggers }
        ensures { result ≡ rows.reach_of self.now event emission.now }
    {
        Reach {
            records: self.records(event, emission),
            snapshot_fires: self.snapshot_fires(event, emission),
        }
    }

    // Whether an emission of the event at this index is recorded here.
    #[inline(always)]
    fn records(&self, event: usize, emission: &Emission) -> bool
        requires enabled { event < length self.now.enabled }
        requires filters { event < length self.now.filters }
        ensures { result ≡ rows.records self.now event emission.now }
    {
        self.tracing && self.events[event].records(emission)
    }

    // Whether it makes the event's snapshot trigger act.
    #[inline(always)]
    fn snapshot_fires(&self, event: usize, emission: &Emission) -> bool
        requires { event < length self.now.triggers }
        ensures { result ≡ rows.snapshot_fires self.now event emission.now }
    {
        self.events[event].snapshot_fires(emission)
    }

    /// Applies a prepared emission: writes its record, if any, over older ones if the ring is full and overwriting is on; counts its row in the hist
    /// triggers whose filters it passes; then swaps the sides if the snapshot trigger acts.
    pub fn deliver(&mut self, delivery: &Delivery, reach: Reach, passed: &Passed)
        requires event { delivery.now.event < length self.old.triggers }
        requires hists { delivery.now.event < length self.old.hists }
        requires passed { passed.now ≡ passed_in (row_of delivery.now) delivery.now.event self.old }
        requires agree { KeysAgree (slice_index_or self.old.hists delivery.now.event []) }
        requires counted { CanCountRow (row_of delivery.now) delivery.now.event self.old }
        requires few_rows { HasFewRows self.old }
        requires record { IsWritable delivery.now reach self.old }
        requires few { HasFew self.old }
        requires spare { CanFire reach self.old }
        ensures { IsDelivered delivery.now reach self.old self.new }
    {
        self.write(delivery, reach);
        self.offer(delivery, passed);
        if reach.snapshot_fires {
            self.exchange(delivery.event);
        }
    }

    // Writes an emission's record, if this instance records it.
    fn write(&mut self, delivery: &Delivery, reach: Reach)
        requires record { IsWritable delivery.now reach self.old }
        requires few { HasFew self.old }
        ensures { IsWritten delivery.now reach self.old self.new }
    {
        if reach.records {
            let _put = self
                .sides
                .live_mut()
                .put(delivery.cpu, &delivery.record, self.overwrite);
        }
    }

    // Counts an emission's row in the hist triggers of its event whose filters it passes.
    fn offer(&mut self, delivery: &Delivery, passed: &Passed)
        requires hists { delivery.now.event < length self.old.hists }
        requires passed { passed.now ≡ passed_in (row_of delivery.now) delivery.now.event self.old }
        requires agree { KeysAgree (slice_index_or self.old.hists delivery.now.event []) }
        requires counted { CanCountRow (row_of delivery.now) delivery.now.event self.old }
        requires few_rows { HasFewRows self.old }
        ensures { IsOffered delivery.now self.old self.new }
    {
        let emission = Emission {
            row: &delivery.row,
            cpu: delivery.cpu,
            pid: delivery.pid,
        };
        self.events[delivery.event]
            .triggers
            .hit(&mut self.tables, passed, &emission);
    }

    // Swaps the sides for the snapshot trigger of the event at this index, and counts the trigger down.
    fn exchange(&mut self, event: usize)
        requires event { event < length self.old.triggers }
        requires spare { is_some self.old.sides.spare ≡ true }
        ensures { IsExchanged event self.old self.new }
    {
        self.events[event].triggers.count_snapshot_down();
        self.sides.swap_armed();
    }
}
