//! Trigger strings: the change that a string written to an event's `trigger` file makes (events.rst, "Event triggers"; histogram.rst, "hist
//! triggers").

ghost use Rattle.std.specs.Prelude.{◌≡◌, ◌≢◌, ◌<◌, ◌≤◌, true, false, [], length, slice_index_or, None, Ok, option_copied, OnOk, IfOk, IfErr};
ghost use Rattle.trace_trigger.specs.TriggerTexts.{HasFilter, is_hist_text};
ghost use Rattle.trace_instance.specs.MemoryTaken.{TriggersTakeMemory, attaches_none};
ghost use Rattle.trace_instance.specs.private.Attaching as attaching;
ghost use Rattle.trace_instance.specs.EventLists.{all_hists};
ghost use Rattle.trace_instance.specs.private.SharedTables as sharing;

use crate::change::{NewHist, TriggerChange};
use crate::event::InstanceEvent;
use crate::hists::{AttachedHist, MOST_TRIGGERS};
use crate::instance::Instance;
use crate::trigger::AttachedSnapshot;
use crate::write::WrittenText;
use std::alloc::Global;
use trace_command::{Limit, Refusal};
use trace_format::EventDef;
use trace_hist::{Action, Hist, HistSpec, SharedSpec};
use trace_trigger::{SnapshotTrigger, TriggerText};

/// An event of an instance, whose triggers a string changes, and all events there, whose hist triggers' tables it may name.
#[derive(Clone, Copy)]
pub(crate) struct EventTriggers<'a> {
    own: &'a InstanceEvent,
    all: &'a [InstanceEvent],
    // The index of the event.
    event: usize,
}

impl<'a> EventTriggers<'a> {
    /// The triggers of the event at this index.
    pub(crate) fn of(instance: &'a Instance, event: usize) -> EventTriggers<'a>
        requires { event < length instance.now.hists }
        ensures snapshot { result.own.now.triggers.snapshot ≡ slice_index_or instance.now.triggers event None }
        ensures hists { result.own.now.triggers.hists ≡ slice_index_or instance.now.hists event [] }
        ensures all { all_hists result.all.now ≡ instance.now.hists }
        ensures event { result.event ≡ event }
    {
        EventTriggers {
            own: instance.event(event),
            all: instance.events(),
            event,
        }
    }

    /// The change that a string written for the event makes.
    pub(crate) fn written(
        self,
        alloc: Global,
        event: &EventDef,
        written: WrittenText<'_>,
    ) -> Result<TriggerChange, Refusal>
        ensures change { attaching.IsChangeOf event.now self.entry written.entry result }
        ensures memory { (HasFilter written.entry.text.now → ⊥) → is_hist_text written.entry.text.now ≡ false
            → IfErr result (λ r. r ≢ Refusal.Memory) }
        ensures takes_none { is_hist_text written.entry.text.now ≡ false → attaches_none written.entry.text.now ≡ true
            → IfOk result (λ change. TriggersTakeMemory change → ⊥) }
    {
        match TriggerText::parse(alloc, written.text, event)? {
            TriggerText::Nothing => Ok(TriggerChange::Keep),
            TriggerText::AttachSnapshot(trigger) => self.attached(written, trigger),
            TriggerText::RemoveSnapshot if self.own.triggers.snapshot().is_some() => Ok(
                TriggerChange::DetachSnapshot,
            ),
            TriggerText::RemoveSnapshot => Err(Refusal::NoSuchTrigger),
            TriggerText::Hist(spec) => self.asked(alloc, written, spec),
            TriggerText::RemoveHist(spec) => self.removed(alloc, written, spec),
        }
    }

    // A snapshot trigger, of which an event has at most one.
    fn attached(
        self,
        written: WrittenText<'_>,
        trigger: SnapshotTrigger,
    ) -> Result<TriggerChange, Refusal>
        ensures change { attaching.IsAttached trigger self.entry written.entry result }
        ensures memory { IfErr result (λ r. r ≢ Refusal.Memory) }
    {
        if self.own.triggers.snapshot().is_some() {
            return Err(Refusal::TriggerExists);
        }
        self.check_room(written.append)?;
        Ok(TriggerChange::AttachSnapshot(AttachedSnapshot::new(written.number, trigger)))
    }

    // A hist trigger: the string's action on the table of the matching one, or a new one if none matches.
    fn asked(
        self,
        alloc: Global,
        written: WrittenText<'_>,
        spec: HistSpec,
    ) -> Result<TriggerChange, Refusal>
        ensures { attaching.IsAsked spec self.entry written.entry result }
    {
        if let Some(hist) = self.matching(written.append, &spec) {
            return asked_again(hist.table, spec.action());
        }
        if !attaches(spec.action()) {
            return Err(Refusal::NoSuchTrigger);
        }
        self.check_room(written.append)?;
        match self.named_by(written.append, &spec) {
            Some(other) => joined(alloc, written, spec, other),
            None => made(alloc, written, spec),
        }
    }

    // The first of the remaining hist triggers of all events whose table a string names.
    fn named_by(self, append: bool, spec: &HistSpec) -> Option<&'a AttachedHist>
        ensures { option_copied result ≡ sharing.named_in spec.now (sharing.left_of self.entry append) }
    {
        for i in 0..self.all.len() {
            if append || i != self.event {
                let named = self.all[i].triggers.named_by(spec);
                if named.is_some() {
                    return named;
                }
            }
        }
        None
    }

    // Removes the matching hist trigger. With `>` there may be none, since that removes all of the event's hist triggers.
    fn removed(
        self,
        alloc: Global,
        written: WrittenText<'_>,
        spec: HistSpec,
    ) -> Result<TriggerChange, Refusal>
        ensures { attaching.IsRemovedHist spec self.entry written.entry result }
    {
        if written.append && self.own.triggers.matching(&spec).is_none() {
            return Err(Refusal::NoSuchTrigger);
        }
        Ok(TriggerChange::DetachHist(Box::new(alloc, spec)?))
    }

    // The matching hist trigger, among those that remain.
    fn matching(self, append: bool, spec: &HistSpec) -> Option<&'a AttachedHist>
        ensures { option_copied result ≡ attaching.same_left spec.now self.entry append }
    {
        if append {
            self.own.triggers.matching(spec)
        } else {
            None
        }
    }

    // `TooMany` if the triggers that remain leave no room for one more.
    fn check_room(self, append: bool) -> Result<(), Refusal>
        ensures room { OnOk result (attaching.kept_count self.entry append < 4) }
        ensures full { IfErr result (λ refusal. (refusal ≡ Refusal.TooMany Limit.Triggers) × (4 ≤ attaching.kept_count self.entry append)) }
    {
        if self.own.triggers.count(append) < MOST_TRIGGERS {
            Ok(())
        } else {
            Err(Refusal::TooMany {
                limit: Limit::Triggers,
            })
        }
    }
}

// The action of a string whose hist trigger is attached already. It can't be attached again.
fn asked_again(table: u64, action: Action) -> Result<TriggerChange, Refusal>
    ensures { result ≡ attaching.asked_change table action }
{
    match action {
        Action::Attach => Err(Refusal::TriggerExists),
        Action::Pause | Action::Continue | Action::Clear => {
            Ok(TriggerChange::AskTable(table, action))
        }
    }
}

// A hist trigger that shares the table of another one, which it names, if it fits.
fn joined(
    alloc: Global,
    written: WrittenText<'_>,
    spec: HistSpec,
    other: &AttachedHist,
) -> Result<TriggerChange, Refusal>
    ensures { attaching.IsJoinedChange written.entry.number spec other.now result }
{
    if !spec.fits(&other.spec) {
        return Err(Refusal::TriggerExists);
    }
    Ok(TriggerChange::AttachHist(AttachedHist {
        number: written.number,
        table: other.table,
        spec: SharedSpec::new(alloc, spec)?,
    }))
}

// A hist trigger with a table of its own, which share what the string says.
fn made(alloc: Global, written: WrittenText<'_>, spec: HistSpec) -> Result<TriggerChange, Refusal>
    ensures { attaching.IsMadeChange written.entry.number spec result }
{
    let spec = SharedSpec::new(alloc, spec)?;
    let hist = Hist::new(alloc, spec.share()?)?;
    let attached = AttachedHist {
        number: written.number,
        table: written.number,
        spec,
    };
    let made = NewHist { attached, hist };
    Ok(TriggerChange::MakeHist(Box::new(alloc, made)?))
}

// Whether a string attaches a hist trigger if none matches.
fn attaches(action: Action) -> bool
    ensures { result ≡ attaching.attaches action }
{
    match action {
        Action::Attach | Action::Pause => true,
        Action::Continue | Action::Clear => false,
    }
}
