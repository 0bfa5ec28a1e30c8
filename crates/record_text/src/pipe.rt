//! The `trace_pipe` file: the lines of the records that a read consumes.
//!
//! The text is built in one vector, which becomes the reply. A record's bytes are read where the ring keeps them.

ghost use Rattle.std.specs.Prelude.{◌≡◌, ◌++◌, map, IfOk, OnOk};
ghost use Rattle.std.specs.List.{flat_map};
ghost use Rattle.trace_buffer.specs.CpuReadings.{taken_reading};
ghost use Rattle.record_text.specs.BufferText as files;
ghost use Rattle.record_text.specs.TraceText as texts;

use crate::append::{push, push_with_number};
use crate::record::push_record_line;
use std::alloc::{AllocError, Global};
use trace_buffer::Taken;
use trace_format::{Catalog, Text};

/// Room for a usual line, so that the text of one record seldom grows.
const USUAL_LINE: usize = 96;

/// Appends the line that says how many records of a CPU were lost; nothing if none was.
#[tactic(auto, unfolding(crate::specs::TraceText::lost_line))]
pub(crate) fn push_lost_line(out: &mut Vec<u8>, cpu: u32, lost: u64) -> Result<(), AllocError>
    ensures { OnOk result (out.new.items ≡ out.old.items ++ texts.lost_line cpu lost) }
{
    if lost == 0 {
        return Ok(());
    }
    push_with_number(out, b"CPU:", cpu)?;
    push_with_number(out, b" [LOST ", lost)?;
    push(out, b" EVENTS]\n")
}

/// Appends the lines of a record.
#[tactic(auto, unfolding(crate::specs::BufferText::taken_lines))]
fn push_taken_lines(
    out: &mut Vec<u8>,
    catalog: &Catalog,
    taken: &Taken<'_>,
) -> Result<(), AllocError>
    ensures { OnOk result (out.new.items
        ≡ out.old.items ++ files.taken_lines catalog.now (taken_reading taken.now)) }
{
    push_lost_line(out, taken.cpu, taken.lost)?;
    push_record_line(out, catalog, taken.cpu, taken.rec)
}

/// Appends the lines of all records.
fn push_taken(out: &mut Vec<u8>, catalog: &Catalog, taken: &[Taken<'_>]) -> Result<(), AllocError>
    ensures { OnOk result (out.new.items
        ≡ out.old.items ++ flat_map (files.taken_lines catalog.now) (map taken_reading taken.now)) }
{
    for record in taken {
        push_taken_lines(out, catalog, record)?;
    }
    Ok(())
}

/// What `trace_pipe` shows of the records that a read consumes, of all CPUs or of one ("The File System" of ftrace.rst): a line for
/// each, after the line that says how many records of its CPU were lost before it, if there were any.
#[tactic(auto, unfolding(crate::specs::BufferText::pipe_text))]
pub fn pipe_text(alloc: Global, catalog: &Catalog, taken: &[Taken<'_>]) -> Result<Text, AllocError>
    ensures { IfOk result (λ text. text
        ≡ files.pipe_text catalog.now (map taken_reading taken.now)) }
{
    let room = if taken.is_empty() { 0 } else { USUAL_LINE };
    let mut text = Vec::with_capacity(alloc, room)?;
    push_taken(&mut text, catalog, taken)?;
    Ok(Text::from(text))
}
