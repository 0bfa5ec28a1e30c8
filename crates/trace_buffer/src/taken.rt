//! A record as a consuming read takes it.

ghost use Rattle.std.specs.Prelude.{◌≡◌, ℕ, ◌<◌, ◌++◌, map, take, slice_index_or, OnOk};
ghost use Rattle.trace_buffer.specs.CpuReadings.{taken_reading};
ghost use Rattle.trace_buffer.specs.Families.{on_cpu};
ghost use Rattle.trace_buffer.specs.CpuCounts.{count_of};

use crate::CPUS;
use page_ring::{Kept, KeptRecords};
use std::alloc::AllocError;

/// A record that a consuming read takes, with the CPU of its ring.
#[derive(Clone, Copy)]
pub struct Taken<'a> {
    /// The CPU.
    pub cpu: u32,
    /// How many records were lost between it and the one consumed before it in its ring.
    pub lost: u64,
    /// Its bytes.
    pub rec: &'a [u8],
}

impl<'a> Taken<'a> {
    ghost use Rattle.std.specs.Prelude.{◌≡◌};
    ghost use Rattle.page_ring.specs.Reading.{reading};
    ghost use Rattle.trace_buffer.specs.CpuReadings.{taken_reading};
    ghost use Rattle.trace_buffer.specs.Families.{on_cpu};

    pub(crate) fn new(cpu: u32, kept: Kept<'a>) -> Taken<'a>
        ensures { taken_reading result ≡ on_cpu cpu (reading kept.entry) }
    {
        Taken {
            cpu,
            lost: kept.lost,
            rec: kept.rec,
        }
    }
}

/// Appends what the first `limit` consuming reads of a CPU's ring would take.
pub(crate) fn push_taken<'a>(
    out: &mut Vec<Taken<'a>>,
    cpu: u32,
    records: KeptRecords<'a>,
    limit: u64,
) -> Result<(), AllocError>
    ensures { OnOk result (map taken_reading out.new.items
        ≡ map taken_reading out.old.items ++ map (on_cpu cpu) (take limit records.entry)) }
{
    let mut left = limit;
    for kept in records {
        if left == 0 {
            break;
        }
        out.push(Taken::new(cpu, kept))?;
        left -= 1;
    }
    Ok(())
}

/// How many of these records are of each CPU.
pub fn count_each(records: &[Taken<'_>]) -> [u64; CPUS]
    ensures { (cpu : ℕ) → cpu < 8 → slice_index_or result cpu 0 ≡ count_of cpu (map taken_reading records.now) }
{
    let mut counts = [0; CPUS];
    for i in 0..records.len() {
        let cpu = records[i].cpu as usize;
        if cpu < CPUS {
            counts[cpu] += 1;
        }
    }
    counts
}
