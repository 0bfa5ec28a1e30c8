//! The triggers of an event, of either kind, as an instance keeps them: a kernel's `triggers` of `struct trace_event_file`.

ghost use Rattle.std.specs.Prelude.{◌≡◌, ℕ, ◌+◌, ◌<◌, ◌≤◌, ◌==◌, ◌||◌, not, if◌then◌else◌, is_some, [], ◌∷◌, ◌++◌, length, map, None, All, Any, IfOk, OnOk, OnErr, option_copied};
ghost use Rattle.std.specs.List.{find, list_any};
ghost use Rattle.trace_instance.specs.Changes.{IsNewest};
ghost use Rattle.trace_instance.specs.Deliveries.{counted_down};
ghost use Rattle.trace_instance.specs.FileAnswers.{AreThere};
ghost use Rattle.trace_instance.specs.KeptHists as kept;
ghost use Rattle.trace_instance.specs.KeptHists.{kept_at};
ghost use Rattle.trace_instance.specs.private.Commands.{shown_attached, shown_of};
ghost use Rattle.trace_instance.specs.private.SharedTables as sharing;
ghost use Rattle.trace_instance.specs.TriggerLists as lists;
ghost use Rattle.trace_instance.specs.WantedEvents as wanted;
ghost use Rattle.trace_text.specs.HistText.{hist_text};
ghost use Rattle.trace_text.specs.ShownTriggers.{shown_trigger};

use crate::hists::{AttachedHist, MOST_TRIGGERS, Passed};
use crate::tables;
use crate::tables::Table;
use crate::trigger::{AttachedSnapshot, EventTrigger};
use std::alloc::{AllocError, Global};
use std::marker::Model;
use trace_format::Emission;
use trace_hist::HistSpec;
use trace_text::Shown;

/// The triggers of an event, in the order in which they were attached: at most one for snapshots, and hist triggers.
#[derive(Drop)]
pub(crate) struct TriggerList {
    triggers: Vec<EventTrigger>,
}

impl Model for TriggerList {
    ghost use Rattle.std.specs.Prelude.{◌≡◌, ◌≤◌, ◌-◌, length, vec_len, vec_capacity};
    ghost use Rattle.trace_instance.specs.TriggerLists.{TriggersSeen, hists_in, in_order, snapshot_in};

    ghost Value = { TriggersSeen };

    ghost view = { λ l. record { snapshot = snapshot_in l.triggers.items; hists = hists_in l.triggers.items; room = vec_capacity l.triggers - vec_len l.triggers } };

    ghost invariant = { λ l. (length (hists_in l.triggers.items) ≤ 4)
        × (l.triggers.items ≡ in_order (snapshot_in l.triggers.items) (hists_in l.triggers.items)) };
}

impl TriggerList {
    /// No triggers.
    pub(crate) fn new(alloc: Global) -> TriggerList
        ensures { result ≡ record { snapshot = None; hists = []; room = 0 } }
    {
        TriggerList {
            triggers: Vec::new(alloc),
        }
    }

    /// Whether there is a hist trigger.
    pub(crate) fn has_hists(&self) -> bool
        ensures { result ≡ not (length self.now.hists == 0) }
    {
        self.triggers.iter().any(|trigger| !trigger.is_snapshot())
    }

    pub(crate) fn is_empty(&self) -> bool
        ensures { result ≡ not (is_some self.now.snapshot || not (length self.now.hists == 0)) }
    {
        self.triggers.is_empty()
    }

    /// How many there are, or with `>`, which removes the hist triggers, how many remain.
    pub(crate) fn count(&self, append: bool) -> usize
        ensures { result ≡ (if append then length self.now.hists else 0) + (if is_some self.now.snapshot then 1 else 0) }
    {
        if append {
            self.triggers.len()
        } else {
            self.snapshot().is_some() as usize
        }
    }

    pub(crate) fn snapshot(&self) -> Option<&AttachedSnapshot>
        ensures { option_copied result ≡ self.now.snapshot }
    {
        EventTrigger::snapshot(self.triggers.iter().find(|trigger| trigger.is_snapshot()))
    }

    /// The hist trigger that matches.
    pub(crate) fn matching(&self, spec: &HistSpec) -> Option<&AttachedHist>
        ensures { option_copied result ≡ find (kept.says_same spec.now) self.now.hists }
    {
        EventTrigger::hist(
            self.triggers.iter().find(
                |trigger| matches!(trigger, EventTrigger::Hist(hist) if hist.says_same(spec)),
            ),
        )
    }

    /// The first hist trigger whose table a string names.
    pub(crate) fn named_by(&self, spec: &HistSpec) -> Option<&AttachedHist>
        ensures { option_copied result ≡ find (sharing.names_table_of spec.now) self.now.hists }
    {
        EventTrigger::hist(
            self.triggers.iter().find(
                |trigger| matches!(trigger, EventTrigger::Hist(hist) if hist.is_named_by(spec)),
            ),
        )
    }

    /// Whether any of them counts in the table with this number.
    pub(crate) fn uses(&self, table: u64) -> bool
        ensures { result ≡ kept.uses_table table self.now.hists }
    {
        self.triggers.iter().any(
            |trigger| matches!(trigger, EventTrigger::Hist(hist) if hist.table == table),
        )
    }

    /// Whether a trigger may act on an emission, whatever its row is: a hist trigger whose table is not paused, or a snapshot trigger with times left
    /// or no limit.
    pub(crate) fn may_act(&self, tables: &[Table]) -> bool
        ensures { result ≡ wanted.may_act self.now.snapshot self.now.hists tables.now }
    {
        self.has_active_hist(tables) || self.has_times_left()
    }

    // Whether the table of a hist trigger is not paused.
    fn has_active_hist(&self, tables: &[Table]) -> bool
        ensures { result ≡ list_any (wanted.is_active tables.now) self.now.hists }
    {
        self.triggers.iter().any(
            |trigger| matches!(trigger, EventTrigger::Hist(hist) if hist.is_active(tables)),
        )
    }

    // Whether the snapshot trigger, if there is one, may act once more.
    fn has_times_left(&self) -> bool
        ensures { result ≡ wanted.has_times_left self.now.snapshot }
    {
        match self.snapshot() {
            Some(snapshot) => snapshot.has_times_left(),
            None => false,
        }
    }

    /// Removes the hist triggers, unless the string is appended.
    pub(crate) fn keep(&mut self, append: bool)
        ensures snapshot { self.new.snapshot ≡ self.old.snapshot }
        ensures hists { self.new.hists ≡ (if append then self.old.hists else []) }
        ensures room { self.old.room ≤ self.new.room }
    {
        if !append {
            self.triggers.retain(|trigger| trigger.is_snapshot());
        }
    }

    /// Removes the snapshot trigger, and the hist triggers unless the string is appended.
    pub(crate) fn detach_snapshot(&mut self, append: bool)
        ensures snapshot { self.new.snapshot ≡ None }
        ensures hists { self.new.hists ≡ (if append then self.old.hists else []) }
    {
        self.keep(append);
        self.triggers.retain(|trigger| !trigger.is_snapshot());
    }

    /// Removes the hist trigger that matches, or all of them unless the string is appended.
    pub(crate) fn detach_hist(&mut self, append: bool, spec: &HistSpec)
        ensures snapshot { self.new.snapshot ≡ self.old.snapshot }
        ensures hists { self.new.hists ≡ kept.without_same spec.now (if append then self.old.hists else []) }
    {
        self.keep(append);
        self.triggers.retain(
            |trigger| !matches!(trigger, EventTrigger::Hist(hist) if hist.says_same(spec)),
        );
    }

    /// Takes the memory to attach one more.
    pub(crate) fn reserve_one(&mut self) -> Result<(), AllocError>
        ensures snapshot { self.new.snapshot ≡ self.old.snapshot }
        ensures hists { self.new.hists ≡ self.old.hists }
        ensures room { OnOk result (0 < self.new.room) }
        ensures refused { OnErr result (self.new ≡ self.old) }
    {
        self.triggers.reserve(1)
    }

    /// Attaches a trigger, first removing the hist triggers unless its string is appended.
    pub(crate) fn attach(&mut self, append: bool, trigger: EventTrigger)
        requires newest { IsNewest (lists.number_of trigger) self.old.snapshot (if append then self.old.hists else []) }
        requires only { lists.IsOnly trigger self.old.snapshot }
        requires room { 0 < self.old.room }
        ensures snapshot { self.new.snapshot ≡ lists.with_snapshot trigger self.old.snapshot }
        ensures hists { self.new.hists ≡ (if append then self.old.hists else []) ++ lists.hists_in (trigger ∷ []) }
    {
        self.keep(append);
        self.triggers.push_reserved(trigger);
    }

    /// Counts the snapshot trigger down after it acted.
    pub(crate) fn count_snapshot_down(&mut self)
        ensures snapshot { self.new.snapshot ≡ counted_down self.old.snapshot }
        ensures hists { self.new.hists ≡ self.old.hists }
    {
        for i in 0..self.triggers.len() {
            self.triggers[i].count_snapshot_down();
        }
    }

    /// The triggers as the event's files show them, of which the `hist` file shows those that are hist triggers.
    pub(crate) fn shown<'a>(
        &'a self,
        alloc: Global,
        tables: &'a [Table],
    ) -> Result<Vec<Shown<'a>>, AllocError>
        requires { AreThere tables.now self.now.hists }
        ensures all { IfOk result (λ shown. map shown_trigger shown.items
            ≡ map (shown_of tables.now) (lists.in_order self.now.snapshot self.now.hists)) }
        ensures hists { IfOk result (λ shown. hist_text (map shown_trigger shown.items)
            ≡ hist_text (map (shown_attached tables.now) self.now.hists)) }
    {
        let mut shown = Vec::new(alloc);
        for trigger in &self.triggers {
            shown.push(trigger.shown(tables))?;
        }
        Ok(shown)
    }

    /// Evaluates each hist trigger's filter for a row, reserves memory to count it in the tables of those that it passes, and returns which these are.
    pub(crate) fn reserve(
        &self,
        tables: &mut [Table],
        emission: &Emission,
    ) -> Result<Passed, AllocError>
        requires agree { kept.KeysAgree self.now.hists }
        ensures passed { IfOk result (λ passed. passed ≡ kept.passed emission.now self.now.hists) }
        ensures alike { (number : ℕ) → kept_at number tables.new ≡ kept_at number tables.old }
        ensures ready { OnOk result (All (kept.CanCount emission.now tables.new) self.now.hists) }
        // Memory is taken, and may be refused, only for a new entry in the table of one of them.
        ensures memory { OnErr result (Any (kept.NeedsMemory emission.now tables.old) self.now.hists) }
    {
        let mut passed = [false; MOST_TRIGGERS];
        let mut k = 0;
        for trigger in &self.triggers {
            match trigger {
                EventTrigger::Snapshot(_) => {}
                EventTrigger::Hist(hist) => {
                    let passes = hist.passes(emission);
                    if passes {
                        tables::reserve(tables, hist.table, &hist.spec, emission)?;
                    }
                    passed[k] = passes;
                    k += 1;
                }
            }
        }
        Ok(passed)
    }

    /// Counts a row in the table of each hist trigger whose filter it passes, unless that table is paused.
    pub(crate) fn hit(&self, tables: &mut [Table], passed: &Passed, emission: &Emission)
        requires agree { kept.KeysAgree self.now.hists }
        requires passed { passed.now ≡ kept.passed emission.now self.now.hists }
        requires ready { All (kept.CanCount emission.now tables.old) self.now.hists }
        requires few { All (kept.HasRoomToCount tables.old) self.now.hists }
        ensures { kept.AreHit emission.now self.now.hists tables.old tables.new }
    {
        let mut k = 0;
        for trigger in &self.triggers {
            match trigger {
                EventTrigger::Snapshot(_) => {}
                EventTrigger::Hist(hist) => {
                    if passed[k] {
                        tables::hit(tables, hist.table, &hist.spec, emission);
                    }
                    k += 1;
                }
            }
        }
    }
}
