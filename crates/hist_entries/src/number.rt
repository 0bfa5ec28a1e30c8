//! The numbers that are summed.

ghost use Rattle.std.specs.Prelude.{◌≡◌};
ghost use Rattle.hist_entries.specs.Numbers.{IsFieldNumber};

use std::marker::Model;

/// A number that a field, a CPU or a process may have: from -2^63 to 2^64 - 1. No list in memory is long enough for the sum of such numbers to
/// overflow an `i128`.
#[derive(Drop)]
pub(crate) struct Number {
    value: i128,
}

impl Model for Number {
    ghost use Rattle.std.specs.Prelude.{ℤ};

    ghost Value = { ℤ };

    ghost use Rattle.hist_entries.specs.Numbers.{IsFieldNumber};

    ghost view = { λ n. n.value };

    ghost invariant = { λ n. IsFieldNumber n.value };
}

impl Number {
    pub(crate) fn new(value: i128) -> Number
        requires { IsFieldNumber value }
        ensures { result ≡ value }
    {
        Number { value }
    }

    pub(crate) fn value(&self) -> i128
        ensures value { result ≡ self.now }
        ensures range { IsFieldNumber self.now }
    {
        self.value
    }
}
