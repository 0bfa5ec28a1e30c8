//! Where the fields of an event lie in its records.

ghost use Rattle.std.specs.Prelude.{◌≡◌, ◌≤◌, ◌<◌, ◌+◌, ◌^◌};
ghost use Rattle.kernel_pages.specs.KernelFormats as formats;

use trace_format::Kind;

/// Where an event's own fields begin: behind the common ones.
pub(crate) const FIRST_OFFSET: u128 = 8;

/// What a record's length is a multiple of.
const WORD: u128 = 4;

/// What a field's first byte lies at a multiple of: a number's size, and anywhere for a text.
fn alignment(kind: Kind) -> usize
    ensures value { result ≡ formats.alignment kind }
    ensures range { (1 ≤ result) × (result ≤ 8) }
{
    match kind {
        Kind::Number(number) => number.size(),
        Kind::Char(_) => 1,
    }
}

/// The first multiple of a step from an offset on.
fn aligned(step: u128, at: u128) -> u128
    requires step { (1 ≤ step) × (step ≤ 8) }
    requires at { at < 2 ^ 100 }
    ensures value { result ≡ formats.aligned step at }
    ensures range { (at ≤ result) × (result < at + step) }
{
    (at + (step - 1)) / step * step
}

/// Where a field begins that follows what ends at an offset.
pub(crate) fn start_of(at: u128, kind: Kind) -> u128
    requires { at < 2 ^ 100 }
    ensures value { result ≡ formats.start_of at kind }
    ensures range { (at ≤ result) × (result < at + 8) }
{
    aligned(alignment(kind) as u128, at)
}

/// Where a record ends whose last field ends at an offset.
pub(crate) fn end_of_record(at: u128) -> u128
    requires { at < 2 ^ 100 }
    ensures value { result ≡ formats.aligned 4 at }
    ensures range { (at ≤ result) × (result < at + 4) }
{
    aligned(WORD, at)
}
