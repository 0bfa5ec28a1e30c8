//! When records were written, and which of several CPUs' first records was written the earliest.

ghost use Rattle.std.specs.Prelude.{◌≡◌, slice_index};
ghost use Rattle.trace_record.specs.Record.{timestamp};
ghost use Rattle.trace_buffer.specs.private.Nexts.{sooner_of};

use trace_record::HEAD_SIZE;

/// A CPU, and the timestamp of the first record that its ring keeps.
#[derive(Clone, Copy)]
pub(crate) struct Next {
    pub cpu: u32,
    pub ts: u64,
}

/// Of a CPU's first record, written at `ts`, and the next one of the CPUs after it, the earlier one; this CPU's where neither is earlier.
pub(crate) fn sooner(cpu: u32, ts: Option<u64>, later: Option<Next>) -> Option<Next>
    ensures { result ≡ sooner_of cpu ts later }
{
    let Some(ts) = ts else {
        return later;
    };
    match later {
        Some(next) if next.ts < ts => later,
        _ => Some(Next { cpu, ts }),
    }
}

fn byte_at(rec: &[u8], at: usize) -> u8
    ensures { result ≡ slice_index rec.now at }
{
    rec.get(at).copied().unwrap_or(0)
}

// The same of fewer bytes than a record's head has.
#[tactic(auto, unfolding(trace_record::specs::Record::timestamp))]
fn time_of_few(rec: &[u8]) -> u64
    ensures { result ≡ timestamp rec.now }
{
    u64::from_le_bytes([
        byte_at(rec, 0),
        byte_at(rec, 1),
        byte_at(rec, 2),
        byte_at(rec, 3),
        byte_at(rec, 4),
        byte_at(rec, 5),
        byte_at(rec, 6),
        byte_at(rec, 7),
    ])
}

/// When a record was written. Unlike `trace_record::timestamp` it takes bytes of any length, and reads zeros where there are none, since a
/// list of kept records doesn't tell that each has a head.
#[inline]
pub(crate) fn time_of(rec: &[u8]) -> u64
    ensures { result ≡ timestamp rec.now }
{
    if rec.len() >= HEAD_SIZE {
        return trace_record::timestamp(rec);
    }
    time_of_few(rec)
}
