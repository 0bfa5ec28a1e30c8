//! The output of a part and the outcomes of its commands. All of it is assembled before any of it is written, so that running out of memory never
//! leaves half a part written.

ghost use Rattle.std.specs.Prelude.{◌≡◌, if◌then◌else◌, All, IfOk, OnOk, IsErrOf};
ghost use Rattle.tracer_specification.specs.Blocks.{IsUnworn};
ghost use Rattle.parallel_output.specs.ThreadTexts.{told_if};
ghost use Rattle.trace_session.specs.Parts.{outcomes_in};
ghost use Rattle.trace_session.specs.PartTexts.{numbered_threads, outcomes_of_threads, replies_in, items_in, AreNumbered};
ghost use Rattle.trace_session.specs.Sessions.{status_of};

use crate::status::Status;
use parallel_output::{OutcomeAt, Transcript};
use script_reader::Stop;
use std::alloc::Global;
use trace_workers::Part;

/// The output of a part, the status of its commands, and the outcome of each of them, in the order of their lines, if somebody is told.
#[derive(Drop)]
pub struct PartOutput {
    pub text: Vec<u8>,
    pub status: Status,
    pub outcomes: Vec<OutcomeAt>,
}

/// The output of a part from that of its threads.
fn finish(transcript: Transcript) -> PartOutput
    ensures text { result.text.items ≡ transcript.text.items }
    ensures status { result.status ≡ (if transcript.is_refused then Status.Refused else Status.Done) }
    ensures outcomes { result.outcomes.items ≡ transcript.outcomes.items }
{
    PartOutput {
        text: transcript.text,
        status: if transcript.is_refused {
            Status::Refused
        } else {
            Status::Done
        },
        outcomes: transcript.outcomes,
    }
}

/// The output of the threads of a part, whose commands are in the lines with these numbers. Their outcomes are kept only if somebody is told.
pub(crate) fn write_threads(
    alloc: Global,
    numbers: &[Vec<usize>],
    done: Vec<Part>,
    is_told: bool,
) -> Result<PartOutput, Stop>
    requires { AreNumbered (items_in numbers.now) (replies_in done.items) }
    ensures text { IfOk result (λ written.
        written.text.items ≡ numbered_threads 0 (items_in numbers.now) (replies_in done.items)) }
    ensures status { IfOk result (λ written. written.status ≡ status_of (outcomes_in (replies_in done.items))) }
    ensures outcomes { IfOk result (λ written.
        written.outcomes.items ≡ told_if is_told (outcomes_of_threads (items_in numbers.now) (replies_in done.items))) }
    ensures unworn { OnOk result (All IsUnworn (replies_in done.items)) }
    ensures device { IsErrOf result Stop.Device → ⊥ }
    ensures stopped { IsErrOf result Stop.Stopped → ⊥ }
{
    let mut transcript = Transcript::new(alloc, numbers, is_told)?;
    let mut thread = 0;
    for part in done {
        transcript = transcript.with_thread(
            alloc,
            thread,
            &numbers[thread],
            part.replies,
            is_told,
        )?;
        thread += 1;
    }
    Ok(finish(transcript))
}
