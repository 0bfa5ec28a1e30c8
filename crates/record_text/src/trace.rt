//! The `trace` file: its head, and a line for each record that is kept.
//!
//! The records are copied first, and the text is made of the copy (trace_copies.rt). It is built in one vector, which becomes the reply.

ghost use Rattle.std.specs.Prelude.{◌≡◌, ◌<◌, ◌++◌, List, map, IfOk, IfSome, OnOk};
ghost use Rattle.std.specs.List.{flat_map};
ghost use Rattle.page_ring.specs.Events.{Event};
ghost use Rattle.page_ring.specs.Account.{Reading};
ghost use Rattle.trace_buffer.specs.Buffers as seen;
ghost use Rattle.trace_buffer.specs.Buffers.{StandsFor};
ghost use Rattle.trace_buffer.specs.CpuReadings.{kept_reading};
ghost use Rattle.record_text.specs.BufferText as files;
ghost use Rattle.record_text.specs.RecordText.{record_line};
ghost use Rattle.record_text.specs.TraceText as texts;

use crate::append::{push, push_number, push_with_number};
use crate::record::push_record_line;
use crate::trace_copies::trace_copy;
use page_ring::{Kept, KeptRecords};
use std::alloc::{AllocError, Global};
use trace_buffer::Buffer;
use trace_format::{Catalog, Text};

/// Appends the lines before the counts.
#[tactic(auto, unfolding(crate::specs::TraceText::trace_title))]
fn push_trace_title(out: &mut Vec<u8>) -> Result<(), AllocError>
    ensures { OnOk result (out.new.items ≡ out.old.items ++ texts.trace_title) }
{
    push(
        out,
        b"# tracer: nop\n#\n# entries-in-buffer/entries-written: ",
    )
}

/// Appends the head of `trace` ("Output format" of ftrace.rst): how many records are kept, how many are kept or were lost to overwriting,
/// and the number of CPUs.
#[tactic(auto, unfolding(crate::specs::TraceText::trace_head))]
pub(crate) fn push_trace_head(
    out: &mut Vec<u8>,
    kept: u128,
    written: u128,
    cpus: u32,
) -> Result<(), AllocError>
    ensures { OnOk result (out.new.items ≡ out.old.items ++ texts.trace_head kept written cpus) }
{
    push_trace_title(out)?;
    push_number(out, kept)?;
    push_with_number(out, b"/", written)?;
    push_with_number(out, b"   #P:", cpus)?;
    push(out, b"\n#\n")
}

/// Appends the lines of records of several CPUs.
pub(crate) fn push_merged(
    out: &mut Vec<u8>,
    catalog: &Catalog,
    records: &[(u32, Kept<'_>)],
) -> Result<(), AllocError>
    ensures { OnOk result (out.new.items
        ≡ out.old.items ++ flat_map (files.reading_line catalog.now) (map kept_reading records.now)) }
{
    for (cpu, kept) in records {
        push_record_line(out, catalog, *cpu, kept.rec)?;
    }
    Ok(())
}

/// Appends the lines of records of one CPU.
pub(crate) fn push_kept(
    out: &mut Vec<u8>,
    catalog: &Catalog,
    cpu: u32,
    records: KeptRecords<'_>,
) -> Result<(), AllocError>
    ensures { OnOk result (out.new.items
        ≡ out.old.items ++ flat_map (λ (r : Reading). record_line catalog.now cpu r.rec) records.entry) }
{
    for kept in records {
        push_record_line(out, catalog, cpu, kept.rec)?;
    }
    Ok(())
}

/// What `trace` shows of all CPUs, or `per_cpu/cpuN/trace` of one ("The File System" and "Output format" of ftrace.rst): the head,
/// with how many records are kept, how many are kept or were lost to overwriting, and the number of all CPUs; and a line for each kept
/// record, of all CPUs by timestamp. Nothing is consumed.
pub fn trace_text(
    alloc: Global,
    catalog: &Catalog,
    buffer: &Buffer,
    cpu: Option<u32>,
) -> Result<Text, AllocError>
    requires { IfSome cpu (λ cpu. cpu < seen.cpus buffer.now) }
    ensures { IfOk result (λ text. (family : List (List Event)) → StandsFor buffer.now family
        → text ≡ files.trace_text catalog.now buffer.now.pages buffer.now.page_bytes family cpu) }
{
    trace_copy(buffer, cpu)?.text(alloc, catalog)
}
