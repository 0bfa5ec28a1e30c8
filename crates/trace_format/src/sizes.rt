//! How many bytes an event's payload and record take.

ghost use Rattle.std.specs.Prelude.{◌≡◌, ◌<◌, ◌≤◌, ◌^◌, length};
ghost use Rattle.trace_format.specs.Cells.{payload_size_of, record_size_of};

use crate::event::EventDef;

/// How many bytes the payload of an event takes: those of its fields.
pub fn payload_size(def: &EventDef) -> usize
    requires { length def.now.fields ≤ 16 }
    ensures size { result ≡ payload_size_of def.now }
    ensures bound { result < 2 ^ 12 }
{
    def.payload_size()
}

/// How many bytes a record of an event takes: a head of 16 bytes, the payload, and as few more as make it a multiple of 8.
pub fn record_size(def: &EventDef) -> usize
    requires { length def.now.fields ≤ 16 }
    ensures size { result ≡ record_size_of def.now }
    ensures bound { result < 2 ^ 13 }
{
    trace_record::record_size(payload_size(def))
}
