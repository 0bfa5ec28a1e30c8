//! Words: eight bytes each.
//!
//! A struct of linux/fuse.h takes a multiple of eight bytes, and none of its numbers crosses one. So it is put together as an array of words,
//! which is then appended as bytes by one move.

ghost use Rattle.std.specs.Prelude.{◌≡◌, ◌++◌};
ghost use Rattle.std.specs.Int.{w16, w32, w64};
ghost use Rattle.fuse_wire.specs.Parts.{number_bytes};

/// Eight bytes.
pub(crate) type Word = [u8; 8];

/// A number of eight bytes.
#[inline(always)]
pub(crate) fn word(number: u64) -> Word
    ensures { result ≡ number_bytes w64 number }
{
    number.to_le_bytes()
}

/// Two numbers of four bytes.
#[inline(always)]
pub(crate) fn pair(first: u32, second: u32) -> Word
    ensures { result ≡ number_bytes w32 first ++ number_bytes w32 second }
{
    let a = first.to_le_bytes();
    let b = second.to_le_bytes();
    [a[0], a[1], a[2], a[3], b[0], b[1], b[2], b[3]]
}

/// Two numbers of two bytes, and one of four.
#[inline(always)]
pub(crate) fn triple(first: u16, second: u16, third: u32) -> Word
    ensures { result
        ≡ number_bytes w16 first ++ number_bytes w16 second ++ number_bytes w32 third }
{
    let a = first.to_le_bytes();
    let b = second.to_le_bytes();
    let c = third.to_le_bytes();
    [a[0], a[1], b[0], b[1], c[0], c[1], c[2], c[3]]
}
