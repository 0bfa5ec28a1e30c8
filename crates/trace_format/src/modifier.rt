//! How a key's values are put into buckets (histogram.rst, "hist triggers").

ghost use Rattle.std.specs.Prelude.{◌≡◌};
ghost use Rattle.trace_format.specs.Modifiers.{modifier_of, buckets_of};

use trace_lex::{decimal_number, has_leading_zero};

/// How a key's values are put into buckets, each of which has an entry, and how a bucket is shown.
#[derive(Clone, Copy, PartialEq, Eq)]
pub enum Modifier {
    /// No modifier: each value is a bucket of its own, and shown as it is.
    Plain,
    /// `.hex`: each value is a bucket of its own, and shown in hexadecimal.
    Hex,
    /// `.log2`: up to 2^k, for the least k from 0.
    Log2,
    /// `.buckets=N`: N values from a multiple of N on. N is 1 at least.
    Buckets(u32),
}

impl Modifier {
    /// What a key's suffix says, if it is empty or a modifier's.
    pub fn read(suffix: &[u8]) -> Option<Modifier>
        ensures { result ≡ modifier_of suffix.now }
    {
        if suffix.is_empty() {
            Some(Modifier::Plain)
        } else if suffix == b".hex".as_slice() {
            Some(Modifier::Hex)
        } else if suffix == b".log2".as_slice() {
            Some(Modifier::Log2)
        } else {
            Modifier::read_buckets(suffix.strip_prefix(b".buckets=".as_slice())?)
        }
    }

    /// Buckets of as many values as digits say: from 1 to 2^32 - 1, with no leading 0.
    fn read_buckets(digits: &[u8]) -> Option<Modifier>
        ensures { result ≡ buckets_of digits.now }
    {
        if has_leading_zero(digits) {
            return None;
        }
        match decimal_number(digits, u64::from(u32::MAX)) {
            Some(size) if size > 0 => Some(Modifier::Buckets(size as u32)),
            _ => None,
        }
    }
}
