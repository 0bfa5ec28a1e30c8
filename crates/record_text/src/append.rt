//! Numbers as texts of bytes.

ghost use Rattle.std.specs.Prelude.{◌≡◌, ◌+◌, ◌≤◌, ◌++◌, length, drop, OnOk, OnErr};
ghost use Rattle.std.specs.Fmt.{decimal};

use itoa::{Buffer, Integer, write_digits};
use std::alloc::AllocError;

/// Appends bytes.
#[inline]
pub fn push(out: &mut Vec<u8>, text: &[u8]) -> Result<(), AllocError>
    ensures text { OnOk result (out.new.items ≡ out.old.items ++ text.now) }
    ensures refused { OnErr result (out.new.items ≡ out.old.items) }
{
    out.extend_from_slice(text)
}

/// Appends three strings of bytes, one after the other.
pub fn push_three(
    out: &mut Vec<u8>,
    first: &[u8],
    second: &[u8],
    third: &[u8],
) -> Result<(), AllocError>
    ensures { OnOk result (out.new.items ≡ out.old.items ++ first.now ++ second.now ++ third.now) }
{
    out.extend_from_slice(first)?;
    out.extend_from_slice(second)?;
    out.extend_from_slice(third)
}

/// Appends a number in decimal, one below 0 with its sign.
pub fn push_number<N: Integer>(out: &mut Vec<u8>, n: N) -> Result<(), AllocError>
    ensures { OnOk result (out.new.items ≡ out.old.items ++ N.text n) }
{
    out.extend_from_slice(Buffer::new().format(n).as_bytes())
}

/// Appends bytes, and a number in decimal after them.
pub fn push_with_number<N: Integer>(out: &mut Vec<u8>, text: &[u8], n: N) -> Result<(), AllocError>
    ensures { OnOk result (out.new.items ≡ out.old.items ++ text.now ++ N.text n) }
{
    out.extend_from_slice(text)?;
    push_number(out, n)
}

/// Writes bytes so that they end at `end`, and returns where they begin.
#[inline(always)]
pub(crate) fn put_before(bytes: &mut [u8], end: usize, text: &[u8]) -> usize
    requires room { length text.now ≤ end }
    requires inside { end ≤ length bytes.old }
    ensures start { result + length text.now ≡ end }
    ensures text { drop result bytes.new ≡ text.now ++ drop end bytes.old }
{
    let start = end - text.len();
    bytes[start..end].copy_from_slice(text);
    start
}

/// Writes a number in decimal so that it ends at `end`, and returns where it begins.
#[inline(always)]
pub(crate) fn put_number_before(bytes: &mut [u8], end: usize, n: u64) -> usize
    requires room { 20 ≤ end }
    requires inside { end ≤ length bytes.old }
    ensures start { result + length (decimal n) ≡ end }
    ensures short { end ≤ result + 20 }
    ensures text { drop result bytes.new ≡ decimal n ++ drop end bytes.old }
{
    write_digits(n, bytes, end)
}
