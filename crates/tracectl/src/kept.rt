//! A session's script or output, with the system's reason for which its last call failed.

ghost use Rattle.std.specs.Prelude.{◌≡◌};

use std::io;
use trace_script::Outcome;
use trace_session::{Sink, Source};

/// A source or a sink, and the system's number of why its last call failed, if it did and the system told.
#[derive(Drop)]
pub struct Kept<D> {
    pub device: D,
    reason: Option<i32>,
}

/// The system's number of why a call failed, if it did.
fn reason_of(answer: &io::Result<usize>) -> Option<i32> {
    match answer {
        Ok(_) => None,
        Err(error) => error.raw_os_error(),
    }
}

impl<D> Kept<D> {
    /// The device, before its first call.
    pub fn new(device: D) -> Kept<D>
        ensures { result.device ≡ device }
    {
        Kept {
            device,
            reason: None,
        }
    }

    /// Why its last call failed.
    pub fn reason(&self) -> Option<io::Error> {
        self.reason.map(io::Error::from_raw_os_error)
    }
}

impl<S: Source> Source for Kept<S> {
    ghost remaining = { λ kept. S.remaining kept.device };

    ghost given = { λ kept. S.given kept.device };

    ghost has_ended = { λ kept. S.has_ended kept.device };

    ghost failures = { λ kept. S.failures kept.device };

    fn read(&mut self, buf: &mut [u8]) -> io::Result<usize> {
        let result = self.device.read(buf);
        self.reason = reason_of(&result);
        result
    }
}

impl<S: Sink> Sink for Kept<S> {
    ghost contents = { λ kept. S.contents kept.device };

    ghost failures = { λ kept. S.failures kept.device };

    ghost heard = { λ kept. S.heard kept.device };

    ghost wants_first = { S.wants_first };

    fn write(&mut self, buf: &[u8]) -> io::Result<usize> {
        let result = self.device.write(buf);
        self.reason = reason_of(&result);
        result
    }

    fn hears(&self) -> bool {
        self.device.hears()
    }

    fn wants_output_first(&self) -> bool {
        self.device.wants_output_first()
    }

    fn hear(&mut self, number: usize, line: &[u8], outcome: &Option<Outcome>) {
        self.device.hear(number, line, outcome);
    }
}
