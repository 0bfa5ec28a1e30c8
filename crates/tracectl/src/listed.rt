//! A session's output, with the names of what its lines make, so that the files that there are can be listed after it.

ghost use Rattle.std.specs.Prelude.{◌≡◌, OnOk};
ghost use Rattle.std.specs.Io.KnownBytes.{Appends};
ghost use Rattle.file_list.specs.Listings.{listing};

use crate::stop::Failure;
use file_list::Names;
use std::alloc::Global;
use std::io;
use std::io::Write;
use trace_script::Outcome;
use trace_session::{Sink, Status};

/// The output of a session, and the names of the events and instances that there are, if the files are to be listed.
#[derive(Drop)]
pub struct Listed<S> {
    output: S,
    names: Names,
    lists: bool,
    /// Memory was refused for a name.
    has_failed: bool,
}

/// Writes the list of the files that there are, with so many CPUs.
fn write_list<W: Write>(names: &Names, cpus: u32, output: &mut W) -> io::Result<()>
    ensures { OnOk result (Appends (W.contents output.old) (W.contents output.new) (listing cpus names.now)) }
{
    let text = names.list(cpus)?;
    output.write_all(&text)
}

impl<S: Sink> Listed<S> {
    /// The output, before the first line.
    pub fn new(alloc: Global, output: S, lists: bool) -> Listed<S> {
        Listed {
            output,
            names: Names::new(alloc),
            lists,
            has_failed: false,
        }
    }

    /// The status of a session that ended with this one, and of the list of the files that there are then. They are listed if that was asked for and
    /// the session was not cut off.
    pub fn end<W: Write + Drop>(
        &self,
        cpus: u32,
        status: Status,
        mut output: W,
    ) -> Result<Status, Failure> {
        match status {
            Status::Memory | Status::Device | Status::Stopped => Ok(status),
            Status::Done | Status::Refused | Status::Fault if !self.lists => Ok(status),
            Status::Done | Status::Refused | Status::Fault if self.has_failed => Ok(Status::Memory),
            Status::Done | Status::Refused | Status::Fault => {
                match write_list(&self.names, cpus, &mut output) {
                    Ok(()) => Ok(status),
                    Err(error) if error.kind() == io::ErrorKind::OutOfMemory => Ok(Status::Memory),
                    Err(error) => Err(Failure::Write(error)),
                }
            }
        }
    }
}

impl<S: Sink> Sink for Listed<S> {
    ghost contents = { λ listed. S.contents listed.output };

    ghost failures = { λ listed. S.failures listed.output };

    ghost heard = { λ listed. S.heard listed.output };

    ghost wants_first = { S.wants_first };

    fn write(&mut self, buf: &[u8]) -> io::Result<usize> {
        self.output.write(buf)
    }

    fn hears(&self) -> bool {
        self.lists || self.output.hears()
    }

    fn wants_output_first(&self) -> bool {
        self.output.wants_output_first()
    }

    fn hear(&mut self, number: usize, line: &[u8], outcome: &Option<Outcome>) {
        self.output.hear(number, line, outcome);
        if let Some(outcome) = outcome {
            if self.lists && self.names.hear(line, outcome).is_err() {
                self.has_failed = true;
            }
        }
    }
}
