//! The buckets that a key's values are put into (histogram.rst, "hist triggers").

ghost use Rattle.std.specs.Prelude.{◌≡◌};
ghost use Rattle.hist_entries.specs.Buckets as buckets;
ghost use Rattle.hist_entries.specs.Numbers.{IsFieldNumber};

use crate::number::Number;
use trace_format::Modifier;

/// The number of a value's bucket, by which entries are grouped and sorted: k of 2^k, the least value of a bucket of N, or else the value itself.
#[inline(never)]
pub(crate) fn bucket_of(modifier: Modifier, number: &Number) -> i128
    ensures { result ≡ buckets.bucket_of modifier number.now }
{
    match modifier {
        Modifier::Plain | Modifier::Hex => number.value(),
        Modifier::Log2 => i128::from(log2_of(number.value())),
        Modifier::Buckets(size) => lowest_of(size, number.value()),
    }
}

/// The least k from 0 for which a number is at most 2^k.
fn log2_of(number: i128) -> u32
    requires { IsFieldNumber number }
    ensures { result ≡ buckets.log2_of number }
{
    let mut power: i128 = 1;
    for exponent in 0..64 {
        if number <= power {
            return exponent;
        }
        power *= 2;
    }
    64
}

/// The greatest multiple of a size that is at most a number.
fn lowest_of(size: u32, number: i128) -> i128
    requires { IsFieldNumber number }
    ensures { result ≡ buckets.lowest_of size number }
{
    number - number.rem_euclid(i128::from(size.max(1)))
}
