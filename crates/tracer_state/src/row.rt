//! The bytes of records. All but a change of their length is inlined into the emissions that are recorded.

ghost use Rattle.std.specs.Prelude.{◌≡◌, ◌<◌, ◌≤◌, ◌+◌, ◌-◌, ◌^◌, ◌++◌, length, take, drop, replicate, OnOk};
ghost use Rattle.trace_record.specs.Record.{IsRecord, head_bytes, padding, record_size};
ghost use Rattle.trace_format.specs.Cells.{size_of_all, payload_of};
ghost use Rattle.tracer_specification.specs.Emissions.{record_bytes};

use std::alloc::AllocError;
use trace_format::Row;
use trace_record::{HEAD_SIZE, Head, record_size, write_head};

/// Makes the record of an emission, whose row has a payload of this many bytes, over that of an earlier one.
#[inline(always)]
#[tactic(auto, unfolding(tracer_specification::specs::Emissions::record_bytes))]
pub(crate) fn record(
    timestamp: u64,
    pid: i32,
    id: u16,
    size: usize,
    row: &Row,
    bytes: &mut Vec<u8>,
) -> Result<(), AllocError>
    requires size { size ≡ size_of_all row.now.kinds }
    requires small { size < 2 ^ 12 }
    ensures bytes { OnOk result (bytes.new.items ≡ record_bytes timestamp pid id row.now) }
    ensures is_record { OnOk result (IsRecord bytes.new.items) }
    ensures size { OnOk result (length bytes.new.items ≡ record_size size) }
{
    fit(bytes, record_size(size))?;
    let head = Head {
        ts: timestamp,
        pid,
        event: id,
        payload: size as u16,
    };
    write_record(head, row, size, bytes);
    Ok(())
}

// Gives the bytes this length.
#[inline(always)]
fn fit(bytes: &mut Vec<u8>, len: usize) -> Result<(), AllocError>
    ensures { OnOk result (length bytes.new.items ≡ len) }
{
    if bytes.len() == len {
        return Ok(());
    }
    resize(bytes, len)
}

// Likewise, where they have another length: the event is not that of the emission before.
#[inline(never)]
fn resize(bytes: &mut Vec<u8>, len: usize) -> Result<(), AllocError>
    ensures { OnOk result (length bytes.new.items ≡ len) }
{
    bytes.clear();
    bytes.resize(len, 0)
}

// Writes a record over any bytes of its length.
#[inline(always)]
fn write_record(head: Head, row: &Row, size: usize, out: &mut [u8])
    requires size { size ≡ size_of_all row.now.kinds }
    requires small { size < 2 ^ 12 }
    requires payload { head.payload ≡ size }
    requires length { length out.old ≡ record_size size }
    ensures bytes { out.new ≡ head_bytes head ++ payload_of row.now ++ replicate (padding size) 0 }
    ensures length { length (payload_of row.now) ≡ size }
    ensures is_record { IsRecord out.new }
{
    clear_end(out);
    write_payload(row, size, out);
    write_head(head, out);
}

// Writes zeros over the last eight bytes: those after a payload are among them.
#[inline(always)]
fn clear_end(out: &mut [u8])
    requires { 8 ≤ length out.old }
    ensures bytes { out.new ≡ take (length out.old - 8) out.old ++ replicate 8 0 }
    ensures length { length out.new ≡ length out.old }
{
    let end = out.len() - 8;
    out[end..].copy_from_slice(&[0; 8]);
}

// Writes a row's payload after the head.
#[inline(always)]
fn write_payload(row: &Row, size: usize, out: &mut [u8])
    requires size { size ≡ size_of_all row.now.kinds }
    requires small { size < 2 ^ 12 }
    requires room { 16 + size ≤ length out.old }
    ensures bytes { out.new ≡ take 16 out.old ++ payload_of row.now ++ drop (16 + size) out.old }
    ensures length { length (payload_of row.now) ≡ size }
{
    row.encode(&mut out[HEAD_SIZE..HEAD_SIZE + size]);
}
