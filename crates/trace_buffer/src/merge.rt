//! Kept records of several CPUs in one list, by timestamp.

ghost use Rattle.std.specs.Prelude.{◌≡◌, ◌++◌, map, IfOk, OnOk};
ghost use Rattle.trace_buffer.specs.CpuReadings.{kept_reading};
ghost use Rattle.trace_buffer.specs.Families.{on_cpu};
ghost use Rattle.trace_buffer.specs.Orders.{by_timestamp};

use crate::times::time_of;
use page_ring::{Kept, KeptRecords};
use std::alloc::AllocError;

/// Appends the records that a CPU's ring keeps.
pub(crate) fn push_kept<'a>(
    out: &mut Vec<(u32, Kept<'a>)>,
    cpu: u32,
    records: KeptRecords<'a>,
) -> Result<(), AllocError>
    ensures { OnOk result (map kept_reading out.new.items
        ≡ map kept_reading out.old.items ++ map (on_cpu cpu) records.entry) }
{
    for kept in records {
        out.push((cpu, kept))?;
    }
    Ok(())
}

/// Orders records by timestamp; those of one timestamp stay in the order that they have. The sort finds runs that are in order already, such
/// as the records of one CPU mostly are, and merges these.
pub(crate) fn sort_by_time(records: &mut Vec<(u32, Kept<'_>)>) -> Result<(), AllocError>
    ensures { OnOk result (map kept_reading records.new.items
        ≡ by_timestamp (map kept_reading records.old.items)) }
{
    records.sort_by_key(|entry| time_of(entry.1.rec))?;
    Ok(())
}
