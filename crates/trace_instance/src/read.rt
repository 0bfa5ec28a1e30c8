//! Reads of the files of an instance.

ghost use Rattle.std.specs.Prelude.{◌≡◌, ℕ, ◌+◌, ◌<◌, ◌≤◌, List, [], length, map, slice_index_or, Option, Some, None, IfOk, IfSome};
ghost use Rattle.trace_command.specs.Requests.{Request};
ghost use Rattle.trace_command.specs.Paths as paths;
ghost use Rattle.trace_command.specs.declared.command.Config.{Config};
ghost use Rattle.trace_command.specs.declared.file_name.CpuFile.TheVariants as per_cpu;
ghost use Rattle.trace_command.specs.declared.file_name.TopFile.TheVariants as top;
ghost use Rattle.tracer_specification.specs.FileTexts as file_texts;
ghost use Rattle.tracer_specification.specs.History as history;
ghost use Rattle.tracer_specification.specs.Settings.{declared_events};
ghost use Rattle.trace_buffer.specs.Buffers as buffers;
ghost use Rattle.trace_format.specs.Definitions.{Definition};
ghost use Rattle.record_text.specs.FormatText as texts;
ghost use Rattle.trace_text.specs.TriggerText.{trigger_text as trigger_text_of};
ghost use Rattle.trace_text.specs.HistText.{hist_text as hist_text_of};
ghost use Rattle.trace_instance.specs.FileAnswers.{AreThere, HasAll, IsRead, IsReadable, IsSource};
ghost use Rattle.trace_instance.specs.private.Commands.{shown_attached, shown_of};
ghost use Rattle.trace_instance.specs.TriggerLists.{in_order};
ghost use Rattle.trace_instance.specs.Files.{IsThere, file_at, name_at};

use crate::change::InstanceChange;
use crate::file::{File, event_at};
use crate::instance::Instance;
use crate::text::{filter_text, flag_text, mixture_text, option_text};
use record_text::{
    declaration_text, format_text, pipe_text, snapshot_text, stats_text, trace_text,
};
use std::alloc::{AllocError, Global};
use trace_buffer::count_each;
use trace_command::{CpuFile, EventFile, Refusal, Reply, TopFile};
use trace_format::Catalog;
use trace_lex::Text;
use trace_text::{hist_text, trigger_text};

/// What a read shows, and the change that it makes to the instance: only reads of a pipe consume records.
#[derive(Drop)]
pub struct Shown {
    pub change: InstanceChange,
    pub reply: Reply,
}

/// What a read of any file may use: the declared events, the clock, and an instance.
#[derive(Clone, Copy)]
pub struct FileSource<'a> {
    pub catalog: &'a Catalog,
    pub clock: u64,
    pub instance: &'a Instance,
}

/// Reads a file of an instance.
pub fn read_file(
    alloc: Global,
    source: FileSource<'_>,
    file: File,
    limit: Option<u64>,
) -> Result<Shown, Refusal>
    requires few { length source.catalog.now ≤ 64 }
    requires file { IsReadable source file }
    ensures { (g : Config) (name : Option (List ℕ)) (past : List Request)
        → IsSource g name past source.entry → IsThere g.cpus source.entry.catalog.now file
        → IsRead g name past limit (file_at source.entry.catalog.now file) result }
{
    match file {
        File::OfInstance(TopFile::TracePipe) => return read_pipe(alloc, source, limit),
        File::OfCpu(cpu, CpuFile::TracePipe) => return read_cpu_pipe(alloc, source, cpu, limit),
        File::OfInstance(TopFile::EventsFilter) => return Err(Refusal::NotReadable),
        _ => {}
    }
    if limit.is_some() {
        return Err(Refusal::BadValue);
    }
    let text = match file {
        File::OfInstance(file) => text_of_instance(alloc, source, file),
        File::OfCpu(cpu, file) => text_of_cpu(alloc, source, cpu, file),
        File::OfEvent(event, file) => text_of_event(alloc, source, event, file),
    }?;
    Ok(Shown {
        change: InstanceChange::Keep,
        reply: Reply::Text(text),
    })
}

// The text of a file of the instance itself that is read whole; empty for the others.
fn text_of_instance(
    alloc: Global,
    source: FileSource<'_>,
    file: TopFile,
) -> Result<Text, AllocError>
    ensures { (g : Config) (name : Option (List ℕ)) (past : List Request)
        → IsSource g name past source.entry
        → IfOk result (λ text. text ≡ history.text_of g name past (paths.OfInstance file)) }
{
    let instance = source.instance;
    match file {
        TopFile::Trace => trace(alloc, source, None),
        TopFile::Overwrite => flag_text(alloc, instance.overwrites()),
        TopFile::TraceOptions => option_text(alloc, instance.overwrites()),
        TopFile::TracingOn => flag_text(alloc, instance.is_tracing()),
        TopFile::Snapshot => snapshot(alloc, source),
        TopFile::EventsEnable => mixture_text(alloc, instance.none_on(), instance.some_off()),
        TopFile::TracePipe | TopFile::EventsFilter => Ok(Text::new(alloc)),
    }
}

// Likewise for a file of a CPU.
fn text_of_cpu(
    alloc: Global,
    source: FileSource<'_>,
    cpu: u32,
    file: CpuFile,
) -> Result<Text, AllocError>
    requires { cpu < buffers.cpus source.instance.now.sides.live }
    ensures { (g : Config) (name : Option (List ℕ)) (past : List Request)
        → IsSource g name past source.entry
        → IfOk result (λ text. text ≡ history.text_of g name past (paths.OfCpu cpu file)) }
{
    match file {
        CpuFile::Trace => trace(alloc, source, Some(cpu)),
        CpuFile::Stats => stats(alloc, source, cpu),
        CpuFile::TracePipe => Ok(Text::new(alloc)),
    }
}

// Likewise for a file of an event.
fn text_of_event(
    alloc: Global,
    source: FileSource<'_>,
    event: usize,
    file: EventFile,
) -> Result<Text, AllocError>
    requires few { length source.catalog.now ≤ 64 }
    requires event { HasAll source event }
    ensures { (g : Config) (name : Option (List ℕ)) (past : List Request)
        → IsSource g name past source.entry
        → IfOk result (λ text. text ≡ history.text_of g name past (paths.OfEvent (name_at source.entry.catalog.now event) file)) }
{
    let instance = source.instance;
    match file {
        EventFile::Enable => flag_text(alloc, instance.is_enabled(event)),
        EventFile::Filter => filter_text(alloc, instance.event(event).filter.as_ref()),
        EventFile::Trigger => triggers(alloc, instance, event),
        EventFile::Hist => histograms(alloc, instance, event),
        EventFile::Format => format(alloc, source.catalog, event),
    }
}

// The trace of one CPU or of all.
#[tactic(auto, unfolding(tracer_specification::specs::FileTexts::shown_trace))]
fn trace(alloc: Global, source: FileSource<'_>, cpu: Option<u32>) -> Result<Text, AllocError>
    requires { IfSome cpu (λ cpu. cpu < buffers.cpus source.instance.now.sides.live) }
    ensures { (g : Config) (name : Option (List ℕ)) (past : List Request)
        → IsSource g name past source.entry
        → IfOk result (λ text. text ≡ file_texts.shown_trace g name past cpu) }
{
    trace_text(alloc, source.catalog, source.instance.buffer(), cpu)
}

#[tactic(auto, unfolding(tracer_specification::specs::FileTexts::cpu_stats_text))]
fn stats(alloc: Global, source: FileSource<'_>, cpu: u32) -> Result<Text, AllocError>
    requires { cpu < buffers.cpus source.instance.now.sides.live }
    ensures { (g : Config) (name : Option (List ℕ)) (past : List Request)
        → IsSource g name past source.entry
        → IfOk result (λ text. text ≡ file_texts.cpu_stats_text g name past cpu) }
{
    stats_text(alloc, source.instance.stats(cpu), source.clock)
}

fn format(alloc: Global, catalog: &Catalog, event: usize) -> Result<Text, AllocError>
    requires inside { event < length catalog.now }
    requires few { length catalog.now ≤ 64 }
    ensures { (d : Definition) → IfOk result (λ text. text
        ≡ texts.format_text (event + 1) (slice_index_or catalog.now event d)) }
{
    format_text(alloc, event as u16 + 1, event_at(catalog, event))
}

// What the spare side holds.
#[tactic(auto, unfolding(tracer_specification::specs::FileTexts::shown_snapshot))]
fn snapshot(alloc: Global, source: FileSource<'_>) -> Result<Text, AllocError>
    ensures { (g : Config) (name : Option (List ℕ)) (past : List Request)
        → IsSource g name past source.entry
        → IfOk result (λ text. text ≡ file_texts.shown_snapshot g name past) }
{
    snapshot_text(alloc, source.catalog, source.instance.sides())
}

// The triggers of an event, in the order in which they were attached.
fn triggers(alloc: Global, instance: &Instance, event: usize) -> Result<Text, AllocError>
    requires triggers { event < length instance.now.triggers }
    requires hists { event < length instance.now.hists }
    requires tables { AreThere instance.now.tables (slice_index_or instance.now.hists event []) }
    ensures { IfOk result (λ text. text ≡ trigger_text_of (map (shown_of instance.now.tables)
        (in_order (slice_index_or instance.now.triggers event None) (slice_index_or instance.now.hists event [])))) }
{
    let kept = instance.event(event);
    let shown = kept.triggers.shown(alloc, instance.tables())?;
    trigger_text(alloc, &shown)
}

// The hist triggers of an event with their entries and totals.
fn histograms(alloc: Global, instance: &Instance, event: usize) -> Result<Text, AllocError>
    requires hists { event < length instance.now.hists }
    requires tables { AreThere instance.now.tables (slice_index_or instance.now.hists event []) }
    ensures { IfOk result (λ text. text
        ≡ hist_text_of (map (shown_attached instance.now.tables) (slice_index_or instance.now.hists event []))) }
{
    let kept = instance.event(event);
    let shown = kept.triggers.shown(alloc, instance.tables())?;
    hist_text(alloc, &shown)
}

/// The declarations of all events, one on each line.
#[tactic(auto, unfolding(tracer_specification::specs::FileTexts::declarations_text))]
pub fn declarations(alloc: Global, catalog: &Catalog) -> Result<Text, AllocError>
    requires few { length catalog.now ≤ 64 }
    ensures { (past : List Request) → catalog.now ≡ declared_events past
        → IfOk result (λ text. text ≡ file_texts.declarations_text past) }
{
    let mut out = Vec::new(alloc);
    for i in 0..catalog.len() {
        let line = declaration_text(alloc, event_at(catalog, i))?;
        out.extend_from_slice(line.as_bytes())?;
    }
    Ok(Text::from(out))
}

// A read of the pipe of all CPUs, up to a limit. The string is built before anything is consumed. The records are looked for once: the change only
// says how many of each CPU they are.
#[tactic(auto, unfolding(tracer_specification::specs::FileTexts::shown_pipe))]
fn read_pipe(alloc: Global, source: FileSource<'_>, limit: Option<u64>) -> Result<Shown, Refusal>
    ensures { (g : Config) (name : Option (List ℕ)) (past : List Request)
        → IsSource g name past source.entry → IsRead g name past limit (paths.OfInstance top.TracePipe) result }
{
    // Theorems: a buffer has one list of events per CPU, and taking this many of each leaves the same as taking the records shown.
    trace_buffer::laws::one_list_each();
    trace_buffer::laws::reads_of_each_leave_the_same();
    let buffer = source.instance.buffer();
    // Brings in what is known of the buffer, which bounds the lists.
    let _cpus = buffer.cpus();
    let most = limit.unwrap_or(u64::MAX);
    let taken = buffer.preview_any(most)?;
    let text = pipe_text(alloc, source.catalog, &taken)?;
    Ok(Shown {
        change: InstanceChange::Take(count_each(&taken)),
        reply: Reply::Text(text),
    })
}

// Likewise for a CPU's pipe.
#[tactic(auto, unfolding(tracer_specification::specs::FileTexts::shown_cpu_pipe))]
fn read_cpu_pipe(
    alloc: Global,
    source: FileSource<'_>,
    cpu: u32,
    limit: Option<u64>,
) -> Result<Shown, Refusal>
    requires { cpu < buffers.cpus source.instance.now.sides.live }
    ensures { (g : Config) (name : Option (List ℕ)) (past : List Request)
        → IsSource g name past source.entry
        → cpu < g.cpus → IsRead g name past limit (paths.OfCpu cpu per_cpu.TracePipe) result }
{
    let most = limit.unwrap_or(u64::MAX);
    let taken = source.instance.buffer().preview_cpu(cpu, most)?;
    let text = pipe_text(alloc, source.catalog, &taken)?;
    Ok(Shown {
        change: InstanceChange::TakeCpu(cpu, most),
        reply: Reply::Text(text),
    })
}
