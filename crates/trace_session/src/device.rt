//! What a session writes to; what it reads from is a `Source` of script_reader. Contracts see its bytes and what it heard, if the device states them,
//! and how many of its calls failed. A writer of std states the bytes that its calls took, whatever it is.

ghost use Rattle.std.specs.Prelude.{◌≡◌, ℕ, Bool, false, List, [], ◌∷◌, Option, None, Some, length};
ghost use Rattle.std.specs.Io.{WritesAtMost};
ghost use Rattle.std.specs.Io.KnownBytes.{Appends, WriteAppends};
ghost use Rattle.trace_session.specs.Devices.{Appends_prop, failures_after_write};
ghost use Rattle.trace_session.specs.Heard.{Heard, Hears, heard_of};

use script_reader::Told;
use std::io;
use std::io::Write;
use std::snapshot::Snapshot;
use trace_script::Outcome;

/// What takes the bytes that a session writes.
pub trait Sink {
    /// The bytes that it holds, if known.
    ghost contents: { Self → Option (List ℕ) };

    /// How many calls failed, or took none of the bytes offered, if any were.
    ghost failures: { Self → ℕ };

    /// What it heard, oldest first, if it hears and states that.
    ghost heard: { Self → Option (List Heard) };

    /// Whether it wants all output so far written before it hears of any line.
    ghost wants_first: { Bool };

    /// Takes some bytes from the beginning of `buf`, and returns how many.
    fn write(&mut self, buf: &[u8]) -> io::Result<usize>
        ensures bound { WritesAtMost result buf.now }
        ensures bytes { WriteAppends (contents self.old) (contents self.new) result buf.now }
        ensures failures { failures self.new ≡ failures_after_write (length buf.now) (failures self.old) result }
        ensures heard { heard self.new ≡ heard self.old };

    /// Whether to tell it the outcome of each line.
    fn hears(&self) -> bool
        ensures { result ≡ false → heard self.now ≡ None };

    /// Whether to write all output so far before telling it an outcome. Each reply is then written by itself.
    fn wants_output_first(&self) -> bool
        ensures { result ≡ wants_first };

    /// Tells it the outcome of the line with this number. Before a refusal or a fault, all output so far is written; if `wants_output_first`, before
    /// any outcome. A parallel part's commands are told in the order of their lines, once all have run, and after the part's output is written if one
    /// was refused. It may report elsewhere; its own bytes stay as they are, and this counts as no failed call.
    fn hear(&mut self, number: usize, line: &[u8], outcome: &Option<Outcome>)
        ensures bytes { contents self.new ≡ contents self.old }
        ensures failures { failures self.new ≡ failures self.old }
        ensures heard { Hears (heard self.old) (heard self.new)
            (heard_of number line.now outcome.now (contents self.old) ∷ []) };
}

/// A writer of std, the bytes that its calls took, and how many of them failed, or took none of the bytes offered, if any were. It hears nothing.
#[derive(Drop)]
pub struct Output<W: Write> {
    pub device: W,
    failures: u64,
    /// The writer before the first call.
    start: Snapshot<W>,
    told: Told,
    pub ghost appended: { Appends (W.contents start.value) (W.contents device) told.bytes } by { Appends_prop _ _ _ },
}

impl<W: Write> Output<W> {
    /// The writer, before its first call.
    pub fn new(device: W) -> Output<W>
        ensures device { result.device ≡ device }
        ensures failures { result.failures ≡ 0 }
        ensures start { result.start.value ≡ device }
        ensures told { result.told.bytes ≡ [] }
    {
        let start = Snapshot::of(&device);
        Output {
            device,
            failures: 0,
            start,
            told: Told::nothing(),
        }
    }
}

impl<W: Write> Sink for Output<W> {
    ghost contents = { λ output. Some output.told.bytes };

    ghost failures = { λ output. output.failures };

    ghost heard = { λ _. None };

    ghost wants_first = { false };

    fn write(&mut self, buf: &[u8]) -> io::Result<usize> {
        let result = self.device.write(buf);
        let is_failure = match result {
            Ok(count) => {
                self.told = Told::after(&self.told, &buf[..count]);
                count == 0 && !buf.is_empty()
            }
            Err(_) => true,
        };
        if is_failure {
            self.failures = self.failures.saturating_add(1);
        }
        result
    }

    fn hears(&self) -> bool {
        false
    }

    fn wants_output_first(&self) -> bool {
        false
    }

    fn hear(&mut self, _number: usize, _line: &[u8], _outcome: &Option<Outcome>) {}
}
