//! A whole record: its size, and where its payload lies.

ghost use Rattle.std.specs.Prelude.{◌≡◌, ◌+◌, ◌<◌, ◌≤◌, ◌^◌, length};
ghost use Rattle.trace_record.specs.Record as records;

use crate::head::{HEAD_SIZE, Head};

/// How many bytes a record with a payload of so many bytes takes: its head, the payload, and as few zeros as make it a multiple of 8.
pub fn record_size(payload: usize) -> usize
    requires { payload < 2 ^ 32 }
    ensures size { result ≡ records.record_size payload }
    ensures bound { result < payload + 24 }
{
    HEAD_SIZE + payload.div_ceil(8) * 8
}

/// The length of the record that the bytes begin with, as its head tells.
pub fn told_length(bytes: &[u8]) -> usize
    requires { 16 ≤ length bytes.now }
    ensures { result ≡ records.told_length bytes.now }
{
    record_size(usize::from(u16::from_le_bytes([bytes[14], bytes[15]])))
}

/// The payload of a record with this head: as many bytes as the head tells, following the head, or as many as there are.
pub fn payload_in<'a>(head: &Head, rec: &'a [u8]) -> &'a [u8]
    ensures { result.now ≡ records.payload_in head.now rec.now }
{
    let rest = rec.get(HEAD_SIZE..).unwrap_or(&[]);
    rest.get(..usize::from(head.payload)).unwrap_or(rest)
}
