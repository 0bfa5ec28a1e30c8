//! Writes to the files of an instance.

ghost use Rattle.std.specs.Prelude.{◌≡◌, ◌≢◌, ℕ, ◌≤◌, ◌<◌, Bool, List, [], length, map, Option, Some, None, is_some, true, IfOk, IfErr, OnOk, Ok};
ghost use Rattle.std.specs.List.{list_any};
ghost use Rattle.trace_format.specs.Catalogs.{AreEvents};
ghost use Rattle.trace_command.specs.Paths as paths;
ghost use Rattle.trace_command.specs.Refusals.{IsRefusal};
ghost use Rattle.trace_command.specs.Requests.{Request};
ghost use Rattle.trace_command.specs.declared.command.Config.{Config};
ghost use Rattle.trace_command.specs.declared.command.Reply.TheVariants.{Done};
ghost use Rattle.trace_command.specs.declared.file_name.TopFile.TheVariants as top;
ghost use Rattle.tracer_specification.specs.History as history;
ghost use Rattle.tracer_specification.specs.LateMemory.{WriteTakesMemoryLate};
ghost use Rattle.tracer_specification.specs.Settings as settings;
ghost use Rattle.tracer_specification.specs.Settings.{declared_events};
ghost use Rattle.trace_instance.specs.Changes.{change_of, is_set};
ghost use Rattle.trace_instance.specs.FileAnswers.{IsWriteChange};
ghost use Rattle.trace_instance.specs.private.Commands.{IsWrittenFilter};
ghost use Rattle.trace_instance.specs.Files.{HasEvent, IsThere, file_at, name_at};
ghost use Rattle.trace_instance.specs.Instances.{InstanceSeen, InstanceStandsFor};
ghost use Rattle.trace_instance.specs.MemoryTaken.{TakesMemory, WriteTakesNoMemory};

use crate::attach::EventTriggers;
use crate::change::{FilterChange, InstanceChange};
use crate::file::{File, event_at};
use crate::instance::Instance;
use std::alloc::{AllocError, Global};
use trace_command::{CpuFile, EventFile, Refusal, TopFile};
use trace_filter::{Filter, FilterFault};
use trace_format::{Catalog, EventDef};
use trace_lex::{trim, written_number};

/// A write: its string, whether it is appended, and its number (how many requests were done before it).
#[derive(Clone, Copy)]
pub struct WrittenText<'a> {
    pub number: u64,
    pub append: bool,
    pub text: &'a [u8],
}

/// The change that a write to a file of an instance makes.
pub fn written_change(
    alloc: Global,
    catalog: &Catalog,
    instance: &Instance,
    file: File,
    written: WrittenText<'_>,
) -> Result<InstanceChange, Refusal>
    requires few { length catalog.now ≤ 64 }
    requires event { HasEvent catalog.now file }
    requires triggers { length instance.now.triggers ≡ length catalog.now }
    requires hists { length instance.now.hists ≡ length catalog.now }
    ensures change { (g : Config) (name : Option (List ℕ)) (past : List Request) → length past ≡ written.entry.number → catalog.now ≡ declared_events past → AreEvents [] catalog.now
        → InstanceStandsFor g name past instance.now
        → IsThere g.cpus catalog.now file → IsWriteChange g name past written.entry.append written.entry.text.now (file_at catalog.now file) result }
    ensures memory { WriteTakesMemoryLate (file_at catalog.now file) written.entry.text.now → IfErr result (λ r. r ≢ Refusal.Memory) }
    ensures takes_none { WriteTakesNoMemory (is_some instance.now.sides.spare) (file_at catalog.now file) written.entry.text.now
        → IfOk result (λ change. TakesMemory instance.now change → ⊥) }
{
    match file {
        File::OfInstance(file) => change_of_instance(alloc, catalog, instance, file, written),
        File::OfCpu(cpu, file) => change_of_cpu(cpu, file, written.append),
        File::OfEvent(event, file) => {
            change_of_event(alloc, catalog, instance, event, file, written)
        }
    }
}

// The change that a write to a file of the instance itself makes.
fn change_of_instance(
    alloc: Global,
    catalog: &Catalog,
    instance: &Instance,
    file: TopFile,
    written: WrittenText<'_>,
) -> Result<InstanceChange, Refusal>
    requires few { length catalog.now ≤ 64 }
    ensures change { (g : Config) (name : Option (List ℕ)) (past : List Request) → catalog.now ≡ declared_events past → AreEvents [] catalog.now
        → InstanceStandsFor g name past instance.now
        → IsWriteChange g name past written.entry.append written.entry.text.now (paths.OfInstance file) result }
    ensures memory { WriteTakesMemoryLate (paths.OfInstance file) written.entry.text.now → IfErr result (λ r. r ≢ Refusal.Memory) }
    ensures takes_none { WriteTakesNoMemory (is_some instance.now.sides.spare) (paths.OfInstance file) written.entry.text.now
        → IfOk result (λ change. TakesMemory instance.now change → ⊥) }
{
    let WrittenText { text, append, .. } = written;
    match file {
        // Any string empties the rings, unless it is appended.
        TopFile::Trace => {
            if append {
                Ok(InstanceChange::Keep)
            } else {
                Ok(InstanceChange::Clear)
            }
        }
        TopFile::Overwrite => match written_flag(text) {
            Some(flag) => Ok(InstanceChange::SetOverwrite(flag)),
            None => Err(Refusal::BadValue),
        },
        TopFile::TraceOptions => match written_option(text) {
            Some(flag) => Ok(InstanceChange::SetOverwrite(flag)),
            None => Err(Refusal::BadValue),
        },
        TopFile::TracingOn => match written_tracing(text) {
            Some(flag) => Ok(InstanceChange::SetTracing(flag)),
            None => Err(Refusal::BadValue),
        },
        TopFile::Snapshot => written_snapshot(instance, text),
        TopFile::EventsEnable => match written_flag(text) {
            Some(flag) => Ok(InstanceChange::SwitchAll(flag)),
            None => Err(Refusal::BadValue),
        },
        TopFile::EventsFilter => written_filters(alloc, catalog, text),
        _ => Err(Refusal::NotWritable),
    }
}

// The change that a write to a file of a CPU makes.
fn change_of_cpu(cpu: u32, file: CpuFile, append: bool) -> Result<InstanceChange, Refusal>
    ensures change { (g : Config) (name : Option (List ℕ)) (past : List Request) (text : List ℕ) → cpu < g.cpus
        → IsWriteChange g name past append text (paths.OfCpu cpu file) result }
    ensures memory { IfErr result (λ r. r ≢ Refusal.Memory) }
    ensures takes_none { (i : InstanceSeen) → IfOk result (λ change. TakesMemory i change → ⊥) }
{
    match file {
        CpuFile::Trace => {
            if append {
                Ok(InstanceChange::Keep)
            } else {
                Ok(InstanceChange::ClearCpu(cpu))
            }
        }
        _ => Err(Refusal::NotWritable),
    }
}

// The change that a write to a file of an event makes.
fn change_of_event(
    alloc: Global,
    catalog: &Catalog,
    instance: &Instance,
    event: usize,
    file: EventFile,
    written: WrittenText<'_>,
) -> Result<InstanceChange, Refusal>
    requires few { length catalog.now ≤ 64 }
    requires event { event < length catalog.now }
    requires triggers { length instance.now.triggers ≡ length catalog.now }
    requires hists { length instance.now.hists ≡ length catalog.now }
    ensures change { (g : Config) (name : Option (List ℕ)) (past : List Request) → length past ≡ written.entry.number → catalog.now ≡ declared_events past → AreEvents [] catalog.now
        → InstanceStandsFor g name past instance.now
        → IsWriteChange g name past written.entry.append written.entry.text.now (paths.OfEvent (name_at catalog.now event) file) result }
    ensures memory { WriteTakesMemoryLate (paths.OfEvent (name_at catalog.now event) file) written.entry.text.now → IfErr result (λ r. r ≢ Refusal.Memory) }
    ensures takes_none { (spare : Bool) → WriteTakesNoMemory spare (paths.OfEvent (name_at catalog.now event) file) written.entry.text.now
        → IfOk result (λ change. TakesMemory instance.now change → ⊥) }
{
    let WrittenText { text, append, .. } = written;
    match file {
        EventFile::Enable => match written_flag(text) {
            Some(flag) => Ok(InstanceChange::Switch(event, flag)),
            None => Err(Refusal::BadValue),
        },
        EventFile::Filter => {
            let filter = written_filter(alloc, text, event_at(catalog, event))?;
            Ok(InstanceChange::SetFilter(event, filter))
        }
        EventFile::Trigger => {
            let triggers = EventTriggers::of(instance, event);
            let change = triggers.written(alloc, event_at(catalog, event), written)?;
            Ok(InstanceChange::Triggers(event, append, change))
        }
        _ => Err(Refusal::NotWritable),
    }
}

// The change that a number written to `snapshot` makes (ftrace.rst, "Snapshot"). The spare side is not freed while any event has a snapshot trigger,
// which needs it.
#[tactic(auto, unfolding(tracer_specification::specs::History::snapshot_answer, tracer_specification::specs::Snapshots::written_snapshot))]
fn written_snapshot(instance: &Instance, text: &[u8]) -> Result<InstanceChange, Refusal>
    ensures change { (g : Config) (name : Option (List ℕ)) (past : List Request) (append : Bool) → InstanceStandsFor g name past instance.now
        → IsWriteChange g name past append text.now (paths.OfInstance top.Snapshot) result }
    ensures memory { IfErr result (λ r. r ≢ Refusal.Memory) }
    ensures takes_none { WriteTakesNoMemory (is_some instance.now.sides.spare) (paths.OfInstance top.Snapshot) text.now
        → IfOk result (λ change. TakesMemory instance.now change → ⊥) }
{
    match written_number(text) {
        None => Err(Refusal::BadValue),
        Some(0) if instance.has_snapshot_trigger() => Err(Refusal::Busy),
        Some(0) => Ok(InstanceChange::FreeSpare),
        Some(1) => Ok(InstanceChange::TakeSnapshot),
        Some(_) => Ok(InstanceChange::ClearSpare),
    }
}

/// The setting of a switch that a string writes: 0 or 1.
#[tactic(auto, unfolding(tracer_specification::specs::Settings::written_flag))]
fn written_flag(text: &[u8]) -> Option<bool>
    ensures { result ≡ settings.written_flag text.now }
{
    match written_number(text)? {
        0 => Some(false),
        1 => Some(true),
        _ => None,
    }
}

// The setting of `tracing_on` that a string writes: any number but 0 turns recording on.
#[tactic(auto, unfolding(tracer_specification::specs::Settings::written_tracing))]
fn written_tracing(text: &[u8]) -> Option<bool>
    ensures { result ≡ settings.written_tracing text.now }
{
    let number = written_number(text)?;
    Some(number != 0)
}

// The setting of an option that its word writes.
#[tactic(auto, unfolding(tracer_specification::specs::Settings::written_option))]
fn written_option(text: &[u8]) -> Option<bool>
    ensures { result ≡ settings.written_option text.now }
{
    if text == b"overwrite".as_slice() {
        return Some(true);
    }
    if text == b"nooverwrite".as_slice() {
        return Some(false);
    }
    None
}

// Whether a string written to a filter clears it.
#[tactic(auto, unfolding(tracer_specification::specs::Settings::clears_filter))]
fn clears_filter(text: &[u8]) -> bool
    ensures { result ≡ settings.clears_filter text.now }
{
    trim(text) == b"0".as_slice()
}

// The filter of an event that a string writes; `None` if it clears.
fn written_filter(alloc: Global, text: &[u8], event: &EventDef) -> Result<Option<Filter>, Refusal>
    ensures filter { IsWrittenFilter text.now event.now result }
    ensures memory { settings.clears_filter text.now ≡ true → IfErr result (λ r. r ≢ Refusal.Memory) }
{
    if clears_filter(text) {
        return Ok(None);
    }
    Ok(Some(Filter::parse(alloc, text, event)?))
}

// A filter for all events: a string that clears, or a filter for those that can take it, at least one.
fn written_filters(alloc: Global, catalog: &Catalog, text: &[u8]) -> Result<InstanceChange, Refusal>
    requires { length catalog.now ≤ 64 }
    ensures change { (g : Config) (name : Option (List ℕ)) (past : List Request) (append : Bool) → catalog.now ≡ declared_events past → AreEvents [] catalog.now
        → IsWriteChange g name past append text.now (paths.OfInstance top.EventsFilter) result }
    ensures memory { settings.clears_filter text.now ≡ true → IfErr result (λ r. r ≢ Refusal.Memory) }
    ensures takes_none { (i : InstanceSeen) → IfOk result (λ change. TakesMemory i change → ⊥) }
{
    if catalog.is_empty() {
        return Err(Refusal::NoSuchEvent);
    }
    if clears_filter(text) {
        return Ok(InstanceChange::ClearFilters);
    }
    let Taken { changes, some } = filter_changes(alloc, catalog, text)?;
    check_filter_of_all(alloc, catalog, text, some)?;
    Ok(InstanceChange::SetFilters(changes))
}

/// The changes that a filter for all events makes, and whether any event can take it.
#[derive(Drop)]
struct Taken {
    changes: Vec<FilterChange>,
    some: bool,
}

// The change that a filter for all events makes to the filter of one.
fn filter_change(alloc: Global, event: &EventDef, text: &[u8]) -> Result<FilterChange, AllocError>
    ensures { IfOk result (λ change. change ≡ change_of text.now event.now) }
{
    match Filter::parse(alloc, text, event) {
        Ok(filter) => Ok(FilterChange::Set(filter)),
        Err(FilterFault::Memory) => Err(AllocError),
        Err(_) => Ok(FilterChange::Keep),
    }
}

// Likewise for all events.
fn filter_changes(alloc: Global, events: &Catalog, text: &[u8]) -> Result<Taken, AllocError>
    requires { length events.now ≤ 64 }
    ensures changes { IfOk result (λ taken. taken.changes.items ≡ map (change_of text.now) events.now) }
    ensures some { IfOk result (λ taken. taken.some ≡ list_any (λ event. is_set (change_of text.now event)) events.now) }
{
    let mut changes = Vec::new(alloc);
    let mut some = false;
    for i in 0..events.len() {
        let change = filter_change(alloc, event_at(events, i), text)?;
        some |= change.sets();
        changes.push(change)?;
    }
    Ok(Taken { changes, some })
}

// Refuses a filter for all events that no event can take, for the first event's reason. There is at least one event.
fn check_filter_of_all(
    alloc: Global,
    events: &Catalog,
    text: &[u8],
    some: bool,
) -> Result<(), Refusal>
    requires one { 0 < length events.now }
    requires few { length events.now ≤ 64 }
    requires some { some ≡ list_any (λ event. is_set (change_of text.now event)) events.now }
    ensures done { OnOk result (history.filter_of_all_answer text.now events.now ≡ Ok Done) }
    ensures refused { IfErr result (λ refusal. IsRefusal refusal (history.filter_of_all_answer text.now events.now)) }
{
    if some {
        return Ok(());
    }
    let _filter = written_filter(alloc, text, event_at(events, 0))?;
    Ok(())
}
