//! What a script is read from. Contracts see the bytes that it gave, those that it will give, where it states them, and how many calls failed.

ghost use Rattle.std.specs.Prelude.{◌≡◌, ℕ, Bool, List, [], Option, length};
ghost use Rattle.std.specs.Io.{ReadsAtMost};
ghost use Rattle.std.specs.Io.KnownBytes.{ReadConsumes};
ghost use Rattle.script_reader.specs.Sources.{failures_after_read, given_after, is_end_after};

use crate::told::Told;
use std::io;
use std::io::Read;

/// What gives the bytes of a script.
pub trait Source {
    /// The bytes that reads will give from here on, where they are known.
    ghost remaining: { Self → Option (List ℕ) };

    /// The bytes that its reads gave, as these told them.
    ghost given: { Self → List ℕ };

    /// Whether its last read found the end: it gave none, though it had room.
    ghost has_ended: { Self → Bool };

    /// How many calls failed.
    ghost failures: { Self → ℕ };

    /// Reads some bytes into the front of `buf`, and gives their number; none at the end.
    fn read(&mut self, buf: &mut [u8]) -> io::Result<usize>
        ensures bound { ReadsAtMost result buf.new }
        ensures bytes { ReadConsumes (remaining self.old) (remaining self.new) result buf.new }
        ensures given { given self.new ≡ given_after (given self.old) result buf.new }
        ensures ended { has_ended self.new ≡ is_end_after (length buf.new) result }
        ensures failures { failures self.new ≡ failures_after_read (failures self.old) result };
}

/// A reader of std, what its calls gave, and how many of them failed.
#[derive(Drop)]
pub struct Input<R> {
    pub device: R,
    failures: u64,
    has_ended: bool,
    told: Told,
}

impl<R: Read> Input<R> {
    /// The reader, before its first call.
    pub fn new(device: R) -> Input<R>
        ensures device { result.device ≡ device }
        ensures failures { result.failures ≡ 0 }
        ensures told { result.told.bytes ≡ [] }
    {
        Input {
            device,
            failures: 0,
            has_ended: false,
            told: Told::nothing(),
        }
    }
}

impl<R: Read> Source for Input<R> {
    ghost remaining = { λ input. R.remaining input.device };

    ghost given = { λ input. input.told.bytes };

    ghost has_ended = { λ input. input.has_ended };

    ghost failures = { λ input. input.failures };

    fn read(&mut self, buf: &mut [u8]) -> io::Result<usize> {
        let result = self.device.read(buf);
        self.has_ended = !buf.is_empty() && matches!(result, Ok(0));
        match result {
            Ok(count) => self.told = Told::after(&self.told, &buf[..count]),
            Err(_) => self.failures = self.failures.saturating_add(1),
        }
        result
    }
}
