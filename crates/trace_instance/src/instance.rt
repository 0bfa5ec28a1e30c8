//! A trace instance: which events it records, their triggers, and its rings.

mod delivery;

ghost use Rattle.std.specs.Prelude.{◌≡◌, ◌%◌, ◌≤◌, ◌<◌, true, false, not, is_some, None, if◌then◌else◌, List, [], length, slice_index_or, slice_set, replicate, IfOk, OnOk, OnErr};
ghost use Rattle.std.specs.List.{list_all, list_any};
ghost use Rattle.page_ring.specs.Events as event;
ghost use Rattle.trace_buffer.specs.Buffers as buffers;
ghost use Rattle.trace_buffer.specs.Families.{cpu_stats};
ghost use Rattle.trace_snapshot.specs.Sides.{IsNewSide};
ghost use Rattle.trace_instance.specs.Changes as changes;
ghost use Rattle.trace_instance.specs.Changes.{with_event};
ghost use Rattle.trace_instance.specs.EventLists as lists;
ghost use Rattle.trace_instance.specs.MemoryTaken.{TakesMemory, TriggersTakeMemory};
ghost use Rattle.trace_instance.specs.private.Tables.{AreSet};
ghost use Rattle.trace_instance.specs.declared.change.TriggerChange.TheVariants as attaching;

use crate::change::{InstanceChange, NewHist, TriggerChange};
use crate::event::InstanceEvent;
use crate::hists::AttachedHist;
use crate::tables::Table;
use crate::trigger::{AttachedSnapshot, EventTrigger};
use crate::{event, tables};
use page_ring::RingStats;
use std::alloc::{AllocError, Global};
use std::marker::Model;
use trace_buffer::Buffer;
use trace_filter::Filter;
use trace_snapshot::Sides;

/// The most events that may be declared.
pub(crate) const EVENTS: usize = 64;

/// A trace instance, as in ftrace.rst, "Instances": each has switches, filters, triggers, options and rings of its own.
pub struct Instance {
    alloc: Global,
    // The declared events, in their order.
    events: Vec<InstanceEvent>,
    // The tables of hist triggers, newest first. Each is used by some trigger.
    tables: Vec<Table>,
    overwrite: bool,
    tracing: bool,
    sides: Sides,
}

impl Drop for Instance {
    // Not derived, so that no crate above proves the drops of its parts.
    fn drop(self) {
        let Instance {
            alloc: _,
            events: _,
            tables: _,
            overwrite: _,
            tracing: _,
            sides: _,
        } = self;
    }
}

impl Model for Instance {
    ghost use Rattle.std.specs.Prelude.{◌≤◌, vec_len, vec_capacity};
    ghost use Rattle.trace_instance.specs.Instances.{InstanceSeen};
    ghost use Rattle.trace_instance.specs.EventLists.{all_enabled, all_filters, all_hists, all_triggers};

    ghost Value = { InstanceSeen };

    ghost view = { λ i. record { enabled = all_enabled i.events.items; filters = all_filters i.events.items; triggers = all_triggers i.events.items; hists = all_hists i.events.items; tables = i.tables.items; overwrite = i.overwrite; tracing = i.tracing; sides = i.sides } };

    ghost invariant = { λ i. (vec_len i.events ≤ 64) × (64 ≤ vec_capacity i.events) };
}

impl Instance {
    /// An instance with this many events, all disabled and without filters or triggers, with empty rings of this shape and no spare side.
    pub fn new(
        alloc: Global,
        events: usize,
        cpus: u32,
        pages: u32,
        page_bytes: u32,
    ) -> Result<Instance, AllocError>
        requires events { events ≤ 64 }
        requires cpus { (1 ≤ cpus) × (cpus ≤ 8) }
        requires pages { (2 ≤ pages) × (pages ≤ 1024) }
        requires page_bytes { (64 ≤ page_bytes) × (page_bytes ≤ 4080) × (page_bytes % 8 ≡ 0) }
        ensures enabled { IfOk result (λ instance. instance.enabled ≡ replicate events false) }
        ensures filters { IfOk result (λ instance. instance.filters ≡ replicate events None) }
        ensures triggers { IfOk result (λ instance. instance.triggers ≡ replicate events None) }
        ensures hists { IfOk result (λ instance. instance.hists ≡ replicate events []) }
        ensures tables { IfOk result (λ instance. instance.tables ≡ []) }
        ensures overwrite { IfOk result (λ instance. instance.overwrite ≡ true) }
        ensures tracing { IfOk result (λ instance. instance.tracing ≡ true) }
        ensures live { IfOk result (λ instance. IsNewSide cpus pages page_bytes instance.sides.live) }
        ensures spare { IfOk result (λ instance. instance.sides.spare ≡ None) }
        ensures cpus { IfOk result (λ instance. instance.sides.cpus ≡ cpus) }
        ensures pages { IfOk result (λ instance. instance.sides.pages ≡ pages) }
        ensures page_bytes { IfOk result (λ instance. instance.sides.page_bytes ≡ page_bytes) }
    {
        let mut instance = Instance {
            alloc,
            events: Vec::with_capacity(alloc, EVENTS)?,
            tables: Vec::new(alloc),
            overwrite: true,
            tracing: true,
            sides: Sides::new(alloc, cpus, pages, page_bytes)?,
        };
        for _event in 0..events {
            instance.add_event();
        }
        Ok(instance)
    }

    /// The event at this index.
    pub(crate) fn event(&self, event: usize) -> &InstanceEvent
        requires { event < length self.now.hists }
        ensures enabled { result.now.enabled ≡ slice_index_or self.now.enabled event false }
        ensures filter { result.now.filter ≡ slice_index_or self.now.filters event None }
        ensures snapshot { result.now.triggers.snapshot ≡ slice_index_or self.now.triggers event None }
        ensures hists { result.now.triggers.hists ≡ slice_index_or self.now.hists event [] }
    {
        &self.events[event]
    }

    /// All events.
    pub(crate) fn events(&self) -> &[InstanceEvent]
        ensures { lists.all_hists result.now ≡ self.now.hists }
    {
        &self.events
    }

    /// Whether there is an event at this index and it is enabled.
    pub fn is_enabled(&self, event: usize) -> bool
        ensures { result ≡ slice_index_or self.now.enabled event false }
    {
        event < self.events.len() && self.events[event].enabled
    }

    /// Whether no event is enabled.
    #[tactic(auto, using(crate::proofs::EachEvent::each_event))]
    pub(crate) fn none_on(&self) -> bool
        ensures { result ≡ list_all not self.now.enabled }
    {
        event::none_on(&self.events)
    }

    /// Whether any event is disabled.
    #[tactic(auto, using(crate::proofs::EachEvent::each_event))]
    pub(crate) fn some_off(&self) -> bool
        ensures { result ≡ list_any not self.now.enabled }
    {
        event::some_off(&self.events)
    }

    /// The tables of hist triggers.
    pub(crate) fn tables(&self) -> &[Table]
        ensures { result.now ≡ self.now.tables }
    {
        &self.tables
    }

    /// Whether any event has a snapshot trigger.
    #[tactic(auto, using(crate::proofs::EachEvent::each_event))]
    pub(crate) fn has_snapshot_trigger(&self) -> bool
        ensures { result ≡ list_any is_some self.now.triggers }
    {
        event::has_snapshot_trigger(&self.events)
    }

    /// Whether records may overwrite older ones.
    pub(crate) fn overwrites(&self) -> bool
        ensures { result ≡ self.now.overwrite }
    {
        self.overwrite
    }

    /// Whether emissions are recorded.
    pub fn is_tracing(&self) -> bool
        ensures { result ≡ self.now.tracing }
    {
        self.tracing
    }

    /// The rings of the live side.
    pub fn buffer(&self) -> &Buffer
        ensures { result.now ≡ self.now.sides.live }
    {
        self.sides.live()
    }

    /// Both sides.
    pub(crate) fn sides(&self) -> &Sides
        ensures { result.now ≡ self.now.sides }
    {
        &self.sides
    }

    /// What the `stats` file shows of a CPU's ring of the live side (ftrace.rst, "The File System").
    pub fn stats(&self, cpu: u32) -> RingStats
        requires { cpu < buffers.cpus self.now.sides.live }
        ensures { (family : List (List event.Event)) → buffers.StandsFor self.now.sides.live family
            → result ≡ cpu_stats self.now.sides.live.pages self.now.sides.live.page_bytes family cpu }
    {
        self.sides.live().stats(cpu)
    }

    /// Adds an event, disabled, without filter or triggers.
    pub fn add_event(&mut self)
        requires enabled { length self.old.enabled < 64 }
        requires filters { length self.old.filters < 64 }
        requires triggers { length self.old.triggers < 64 }
        requires hists { length self.old.hists < 64 }
        ensures { self.new ≡ with_event self.old }
    {
        self.events.push_reserved(InstanceEvent::new(self.alloc));
    }

    /// Applies a change. Fails only if memory is refused for a spare side, where there is none, or for a trigger, and then changes nothing.
    pub fn apply(&mut self, change: InstanceChange) -> Result<(), AllocError>
        requires { changes.IsLawful self.old change }
        ensures applied { OnOk result (changes.IsApplied change self.old self.new) }
        ensures refused { OnErr result (self.new ≡ self.old) }
        ensures memory { OnErr result (TakesMemory self.old change) }
    {
        match change {
            InstanceChange::Keep => {}
            InstanceChange::Switch(event, flag) => self.switch(event, flag),
            InstanceChange::SwitchAll(flag) => self.switch_all(flag),
            InstanceChange::SetFilter(event, filter) => self.set_filter(event, filter),
            InstanceChange::SetFilters(changes) => {
                event::change_filters(&mut self.events, changes);
            }
            InstanceChange::ClearFilters => self.clear_filters(),
            InstanceChange::Triggers(event, append, change) => {
                self.set_triggers(event, append, change)?;
                tables::keep_used(&mut self.tables, &self.events);
            }
            InstanceChange::SetOverwrite(flag) => self.overwrite = flag,
            InstanceChange::SetTracing(flag) => self.tracing = flag,
            InstanceChange::Clear => self.sides.live_mut().clear(),
            InstanceChange::ClearCpu(cpu) => self.sides.live_mut().clear_cpu(cpu),
            InstanceChange::Take(counts) => self.sides.live_mut().take_each(&counts),
            InstanceChange::TakeCpu(cpu, count) => {
                let _taken = self.sides.live_mut().take_cpu(cpu, count);
            }
            InstanceChange::TakeSnapshot => self.sides.take_snapshot()?,
            InstanceChange::FreeSpare => self.sides.free(),
            InstanceChange::ClearSpare => self.sides.clear_spare(),
        }
        Ok(())
    }

    // Enables or disables the event at this index.
    #[tactic(auto, using(crate::proofs::EachEvent::each_event))]
    fn switch(&mut self, event: usize, flag: bool)
        requires { event < length self.old.enabled }
        ensures { self.new ≡ record self.old { enabled = slice_set self.old.enabled event flag } }
    {
        self.events[event].enabled = flag;
    }

    // Enables or disables all events.
    fn switch_all(&mut self, flag: bool)
        ensures { self.new ≡ record self.old { enabled = replicate (length self.old.enabled) flag } }
    {
        for event in 0..self.events.len() {
            self.switch(event, flag);
        }
    }

    // Sets or clears the filter of the event at this index.
    #[tactic(auto, using(crate::proofs::EachEvent::each_event))]
    fn set_filter(&mut self, event: usize, filter: Option<Filter>)
        requires { event < length self.old.filters }
        ensures { self.new ≡ record self.old { filters = slice_set self.old.filters event filter } }
    {
        self.events[event].filter = filter;
    }

    // Clears all filters.
    fn clear_filters(&mut self)
        ensures { self.new ≡ record self.old { filters = replicate (length self.old.filters) None } }
    {
        for event in 0..self.events.len() {
            self.set_filter(event, None);
        }
    }

    // Changes the triggers of the event at this index, first removing its hist triggers unless the string is appended. Drops no table.
    fn set_triggers(
        &mut self,
        event: usize,
        append: bool,
        change: TriggerChange,
    ) -> Result<(), AllocError>
        requires triggers { event < length self.old.triggers }
        requires hists { event < length self.old.hists }
        requires possible { changes.IsPossible change (slice_index_or self.old.triggers event None) (if append then slice_index_or self.old.hists event [] else []) }
        ensures applied { OnOk result (AreSet event append change self.old self.new) }
        ensures refused { OnErr result (self.new ≡ self.old) }
        ensures memory { OnErr result (TriggersTakeMemory change) }
    {
        match change {
            TriggerChange::Keep => self.events[event].triggers.keep(append),
            TriggerChange::AttachSnapshot(trigger) => self.arm(event, append, trigger)?,
            TriggerChange::DetachSnapshot => self.events[event].triggers.detach_snapshot(append),
            TriggerChange::AttachHist(attached) => self.join(event, append, attached)?,
            TriggerChange::MakeHist(made) => self.make(event, append, made)?,
            TriggerChange::DetachHist(spec) => {
                self.events[event].triggers.detach_hist(append, &spec);
            }
            TriggerChange::AskTable(table, action) => {
                self.events[event].triggers.keep(append);
                tables::ask(&mut self.tables, table, action);
            }
        }
        Ok(())
    }

    // Attaches a snapshot trigger, making a spare side if there is none.
    fn arm(
        &mut self,
        event: usize,
        append: bool,
        trigger: AttachedSnapshot,
    ) -> Result<(), AllocError>
        requires triggers { event < length self.old.triggers }
        requires hists { event < length self.old.hists }
        requires possible { changes.IsPossible (attaching.AttachSnapshot trigger) (slice_index_or self.old.triggers event None) (if append then slice_index_or self.old.hists event [] else []) }
        ensures armed { OnOk result (AreSet event append (attaching.AttachSnapshot trigger) self.old self.new) }
        ensures refused { OnErr result (self.new ≡ self.old) }
    {
        let triggers = &mut self.events[event].triggers;
        triggers.reserve_one()?;
        self.sides.arm()?;
        triggers.attach(append, EventTrigger::Snapshot(trigger));
        Ok(())
    }

    // Attaches a hist trigger to an existing table, and applies the string's action to that table.
    fn join(&mut self, event: usize, append: bool, attached: AttachedHist) -> Result<(), AllocError>
        requires triggers { event < length self.old.triggers }
        requires hists { event < length self.old.hists }
        requires possible { changes.IsPossible (attaching.AttachHist attached) (slice_index_or self.old.triggers event None) (if append then slice_index_or self.old.hists event [] else []) }
        ensures joined { OnOk result (AreSet event append (attaching.AttachHist attached) self.old self.new) }
        ensures refused { OnErr result (self.new ≡ self.old) }
    {
        let table = attached.table;
        let action = attached.spec.action();
        let triggers = &mut self.events[event].triggers;
        triggers.reserve_one()?;
        triggers.attach(append, EventTrigger::Hist(attached));
        tables::ask(&mut self.tables, table, action);
        Ok(())
    }

    // Attaches a hist trigger with a table of its own.
    fn make(&mut self, event: usize, append: bool, made: Box<NewHist>) -> Result<(), AllocError>
        requires triggers { event < length self.old.triggers }
        requires hists { event < length self.old.hists }
        requires possible { changes.IsPossible (attaching.MakeHist made) (slice_index_or self.old.triggers event None) (if append then slice_index_or self.old.hists event [] else []) }
        ensures made { OnOk result (AreSet event append (attaching.MakeHist made) self.old self.new) }
        ensures refused { OnErr result (self.new ≡ self.old) }
    {
        self.tables.reserve(1)?;
        let triggers = &mut self.events[event].triggers;
        triggers.reserve_one()?;
        let NewHist { attached, hist } = Box::into_inner(made);
        let number = attached.table;
        triggers.attach(append, EventTrigger::Hist(attached));
        self.tables.insert(0, Table { number, hist }).unwrap();
        Ok(())
    }
}
