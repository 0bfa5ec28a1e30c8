//! Numbers in bytes, the low byte first.

ghost use Rattle.std.specs.Prelude.{◌+◌, ◌≤◌, length, take, drop};
ghost use Rattle.fuse_wire.specs.Parts.{U32, U64, IsPart};

/// The number of four bytes at an offset.
#[inline(always)]
pub(crate) fn u32_at(bytes: &[u8], at: usize) -> u32
    requires { at + 4 ≤ length bytes.now }
    ensures { IsPart (U32 result) (take 4 (drop at bytes.now)) }
{
    u32::from_le_bytes([bytes[at], bytes[at + 1], bytes[at + 2], bytes[at + 3]])
}

/// The number of eight bytes at an offset.
#[inline(always)]
pub(crate) fn u64_at(bytes: &[u8], at: usize) -> u64
    requires { at + 8 ≤ length bytes.now }
    ensures { IsPart (U64 result) (take 8 (drop at bytes.now)) }
{
    u64::from_le_bytes([
        bytes[at],
        bytes[at + 1],
        bytes[at + 2],
        bytes[at + 3],
        bytes[at + 4],
        bytes[at + 5],
        bytes[at + 6],
        bytes[at + 7],
    ])
}
