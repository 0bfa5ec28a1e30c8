//! Reads of the files of an instance of which only a copy is taken at first: the text is made of it later, when the tracer was let go.

ghost use Rattle.std.specs.Prelude.{◌≡◌, ℕ, ◌<◌, ◌≤◌, List, [], length, map, slice_index_or, Option, Some, None, IfOk, IfSome};
ghost use Rattle.trace_command.specs.Requests.{Request};
ghost use Rattle.trace_command.specs.Paths as paths;
ghost use Rattle.trace_command.specs.declared.command.Config.{Config};
ghost use Rattle.trace_command.specs.declared.file_name.TopFile.TheVariants as top;
ghost use Rattle.trace_buffer.specs.Buffers as buffers;
ghost use Rattle.record_text.specs.CopyText as copies;
ghost use Rattle.trace_text.specs.CopiedHists as copied;
ghost use Rattle.trace_text.specs.HistText.{hist_text as hist_text_of};
ghost use Rattle.trace_instance.specs.FileAnswers.{AreThere, HasAll, IsRead, IsReadable, IsSource};
ghost use Rattle.trace_instance.specs.Files.{IsThere, file_at};
ghost use Rattle.trace_instance.specs.private.Commands.{shown_attached};
ghost use Rattle.trace_instance.specs.LateReplies.{hist_file, reply_of, shown_of, trace_file};

use crate::change::InstanceChange;
use crate::file::File;
use crate::instance::Instance;
use crate::read::{FileSource, Shown, read_file};
use record_text::{TraceCopy, copied_snapshot_text, snapshot_copy, trace_copy};
use std::alloc::{AllocError, Global};
use trace_command::{CpuFile, EventFile, Refusal, Reply, TopFile};
use trace_format::Catalog;
use trace_text::{CopiedHist, copied_hist_text, copy_hists};

/// The reply of a read that was done.
#[derive(Drop)]
pub enum LateReply {
    /// One that is there already.
    Made(Reply),
    /// The text of a trace, to be made of a copy of it and of the events that were declared.
    Trace(Catalog, TraceCopy),
    /// The text of an event's `hist` file, to be made of copies of its hist triggers and their histograms.
    Hists(Vec<CopiedHist>),
}

impl LateReply {
    /// The reply, whatever was done to the tracer since the read. The only error is that memory is refused.
    pub fn reply(self, alloc: Global) -> Result<Reply, AllocError>
        ensures { IfOk result (λ reply. reply ≡ reply_of self) }
    {
        match self {
            LateReply::Made(reply) => Ok(reply),
            LateReply::Trace(catalog, copy) => {
                let text = copy.text(alloc, &catalog)?;
                Ok(Reply::Text(text))
            }
            LateReply::Hists(hists) => {
                let text = copied_hist_text(alloc, &hists)?;
                Ok(Reply::Text(text))
            }
        }
    }
}

/// What a read will show, and the change that it makes to the instance.
#[derive(Drop)]
pub struct Copied {
    pub change: InstanceChange,
    pub late: LateReply,
}

/// As `read_file`, but of a file that shows a trace or histograms, which may be long, only a copy is taken. Of a trace it takes at most the memory of the
/// pages of the rings that are shown, and that of the declared events; of histograms that of their entries, in a few blocks.
pub fn copy_file(
    alloc: Global,
    source: FileSource<'_>,
    file: File,
    limit: Option<u64>,
) -> Result<Copied, Refusal>
    requires few { length source.catalog.now ≤ 64 }
    requires file { IsReadable source file }
    ensures { (g : Config) (name : Option (List ℕ)) (past : List Request)
        → IsSource g name past source.entry → IsThere g.cpus source.entry.catalog.now file
        → IsRead g name past limit (file_at source.entry.catalog.now file) (shown_of result) }
{
    match (file, limit) {
        (File::OfInstance(TopFile::Trace), None) => copy_trace(source, None),
        (File::OfCpu(cpu, CpuFile::Trace), None) => copy_trace(source, Some(cpu)),
        (File::OfInstance(TopFile::Snapshot), None) => copy_snapshot(alloc, source),
        (File::OfEvent(event, EventFile::Hist), None) => copy_histograms(alloc, source, event),
        _ => {
            let Shown { change, reply } = read_file(alloc, source, file, limit)?;
            Ok(Copied {
                change,
                late: LateReply::Made(reply),
            })
        }
    }
}

// A copy of the trace of one CPU or of all.
fn copy_trace(source: FileSource<'_>, cpu: Option<u32>) -> Result<Copied, Refusal>
    requires { IfSome cpu (λ cpu. cpu < buffers.cpus source.instance.now.sides.live) }
    ensures { (g : Config) (name : Option (List ℕ)) (past : List Request)
        → IsSource g name past source.entry → IsRead g name past None (trace_file cpu) (shown_of result) }
{
    let copy = trace_copy(source.instance.buffer(), cpu)?;
    let events = source.catalog.copy()?;
    Ok(Copied {
        change: InstanceChange::Keep,
        late: LateReply::Trace(events, copy),
    })
}

// A copy of what the spare side holds.
fn copy_snapshot(alloc: Global, source: FileSource<'_>) -> Result<Copied, Refusal>
    ensures { (g : Config) (name : Option (List ℕ)) (past : List Request)
        → IsSource g name past source.entry → IsRead g name past None (paths.OfInstance top.Snapshot) (shown_of result) }
{
    let copy = snapshot_copy(source.instance.sides())?;
    let late = late_snapshot(alloc, source.catalog, copy)?;
    Ok(Copied {
        change: InstanceChange::Keep,
        late,
    })
}

// Copies of the hist triggers of an event and their histograms.
fn copy_histograms(alloc: Global, source: FileSource<'_>, event: usize) -> Result<Copied, Refusal>
    requires { HasAll source event }
    ensures { (g : Config) (name : Option (List ℕ)) (past : List Request)
        → IsSource g name past source.entry → IsRead g name past None (hist_file source.entry.catalog.now event) (shown_of result) }
{
    let hists = copied_histograms(alloc, source.instance, event)?;
    Ok(Copied {
        change: InstanceChange::Keep,
        late: LateReply::Hists(hists),
    })
}

// The copies.
fn copied_histograms(
    alloc: Global,
    instance: &Instance,
    event: usize,
) -> Result<Vec<CopiedHist>, AllocError>
    requires hists { event < length instance.now.hists }
    requires tables { AreThere instance.now.tables (slice_index_or instance.now.hists event []) }
    ensures { IfOk result (λ hists. copied.copied_hist_text hists.items
        ≡ hist_text_of (map (shown_attached instance.now.tables) (slice_index_or instance.now.hists event []))) }
{
    let kept = instance.event(event);
    let shown = kept.triggers.shown(alloc, instance.tables())?;
    copy_hists(alloc, &shown)
}

// The reply that shows a copied spare side, or that there is none.
fn late_snapshot(
    alloc: Global,
    catalog: &Catalog,
    copy: Option<TraceCopy>,
) -> Result<LateReply, AllocError>
    ensures { IfOk result (λ late. reply_of late ≡ Reply.Text (copies.copied_snapshot_text catalog.now copy)) }
{
    match copy {
        Some(copy) => {
            let events = catalog.copy()?;
            Ok(LateReply::Trace(events, copy))
        }
        None => {
            let text = copied_snapshot_text(alloc, catalog, &None)?;
            Ok(LateReply::Made(Reply::Text(text)))
        }
    }
}
