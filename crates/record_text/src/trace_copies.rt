//! What a trace shows, copied: a reader lets go of the rings, and makes the text of the copy.

ghost use Rattle.std.specs.Prelude.{◌≡◌, ◌+◌, ◌*◌, ◌^◌, ◌<◌, ◌≤◌, ◌++◌, List, IfOk, IfSome, OnOk};
ghost use Rattle.page_ring.specs.Events.{Event};
ghost use Rattle.trace_buffer.specs.Buffers as seen;
ghost use Rattle.trace_buffer.specs.Buffers.{StandsFor};
ghost use Rattle.trace_format.specs.Definitions.{Definition};
ghost use Rattle.record_text.specs.BufferText as files;
ghost use Rattle.record_text.specs.CopyText as copies;

use crate::trace::{push_kept, push_merged, push_trace_head};
use page_ring::RingCopy;
use std::alloc::{AllocError, Global};
use trace_buffer::{Buffer, BufferCopy};
use trace_format::{Catalog, Text};

/// What `trace` showed when it was copied: of all CPUs, or of one.
#[derive(Drop)]
pub enum TraceCopy {
    OfAll(BufferCopy),
    OfCpu(CpuCopy),
}

/// The ring of a CPU, and how many CPUs there are.
#[derive(Drop)]
pub struct CpuCopy {
    pub cpu: u32,
    pub cpus: u32,
    pub ring: RingCopy,
}

/// Copies what `trace_text` shows. It takes at most the memory of the rings' pages. The only error is that memory is refused.
pub fn trace_copy(buffer: &Buffer, cpu: Option<u32>) -> Result<TraceCopy, AllocError>
    requires { IfSome cpu (λ cpu. cpu < seen.cpus buffer.now) }
    ensures { IfOk result (λ copy. (events : List Definition) (family : List (List Event)) → StandsFor buffer.now family
        → copies.copied_text events copy ≡ files.trace_text events buffer.now.pages buffer.now.page_bytes family cpu) }
{
    match cpu {
        Some(cpu) => {
            let ring = buffer.copy_cpu(cpu)?;
            let cpus = buffer.cpus();
            Ok(TraceCopy::OfCpu(CpuCopy { cpu, cpus, ring }))
        }
        None => {
            let copy = buffer.copy()?;
            Ok(TraceCopy::OfAll(copy))
        }
    }
}

impl TraceCopy {
    /// The text of what was copied, with these events. The only error is that memory is refused.
    pub fn text(&self, alloc: Global, catalog: &Catalog) -> Result<Text, AllocError>
        ensures { IfOk result (λ text. text ≡ copies.copied_text catalog.now self.now) }
    {
        let mut text = Vec::new(alloc);
        match self {
            TraceCopy::OfAll(copy) => push_trace_of_all(&mut text, alloc, catalog, copy)?,
            TraceCopy::OfCpu(copy) => push_trace_of_cpu(&mut text, catalog, copy)?,
        }
        Ok(Text::from(text))
    }
}

/// How many records the rings kept, and how many had been lost to overwriting.
#[derive(Clone, Copy)]
struct Counts {
    kept: u128,
    overrun: u128,
}

/// The counts of all CPUs.
fn counts_of_all(copy: &BufferCopy) -> Counts
    ensures kept { result.kept ≡ copies.copied_entries copy.now }
    ensures overrun { result.overrun ≡ copies.copied_overrun copy.now }
    ensures small { (result.kept ≤ 8 * 2 ^ 64) × (result.overrun ≤ 8 * 2 ^ 64) }
{
    let cpus = copy.cpus();
    let mut kept = 0;
    let mut overrun = 0;
    for cpu in 0..cpus {
        let counts = copy.stats(cpu);
        kept += u128::from(counts.entries);
        overrun += u128::from(counts.overrun);
    }
    Counts { kept, overrun }
}

/// Appends the trace of all CPUs.
#[tactic(auto, unfolding(crate::specs::CopyText::all_copied_text))]
fn push_trace_of_all(
    out: &mut Vec<u8>,
    alloc: Global,
    catalog: &Catalog,
    copy: &BufferCopy,
) -> Result<(), AllocError>
    ensures { OnOk result (out.new.items ≡ out.old.items ++ copies.all_copied_text catalog.now copy.now) }
{
    let counts = counts_of_all(copy);
    let written = counts.kept + counts.overrun;
    push_trace_head(out, counts.kept, written, copy.cpus())?;
    let records = copy.merged(alloc)?;
    push_merged(out, catalog, &records)
}

/// Appends the trace of one CPU.
#[tactic(auto, unfolding(crate::specs::CopyText::cpu_copied_text))]
fn push_trace_of_cpu(out: &mut Vec<u8>, catalog: &Catalog, copy: &CpuCopy) -> Result<(), AllocError>
    ensures { OnOk result (out.new.items ≡ out.old.items ++ copies.cpu_copied_text catalog.now copy.now) }
{
    let stats = copy.ring.stats();
    let kept = u128::from(stats.entries);
    let written = kept + u128::from(stats.overrun);
    push_trace_head(out, kept, written, copy.cpus)?;
    push_kept(out, catalog, copy.cpu, copy.ring.kept())
}
