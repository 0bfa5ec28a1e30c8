//! The output of a session's lines.

ghost use Rattle.std.specs.Prelude.{◌≡◌, [], ◌++◌, OnOk, IsErrOf};
ghost use Rattle.script_reader.specs.Sources.{HasRisen};
ghost use Rattle.trace_session.specs.Devices.{AppendsFront, Passes};
ghost use Rattle.trace_session.specs.Sessions.{text_of};

use crate::device::Sink;
use crate::replies::Replies;
use script_reader::Stop;
use std::alloc::Global;
use trace_command::Reply;
use trace_script::{Outcome, render};

/// Appends the output of the line with this number to the replies: a reply's bytes as they are, anything else rendered. A command without a reply has
/// none.
#[tactic(auto, using(crate::proofs::DeviceLemmas::Passes_nothing))]
pub(crate) fn write_outcome<W: Sink>(
    alloc: Global,
    number: usize,
    outcome: &Option<Outcome>,
    replies: &mut Replies,
    writer: &mut W,
) -> Result<(), Stop>
    ensures written { OnOk result (Passes (W.contents writer.old) replies.old (W.contents writer.new) replies.new
        (text_of number outcome.now)) }
    ensures failures { OnOk result (W.failures writer.new ≡ W.failures writer.old) }
    ensures memory { IsErrOf result Stop.Memory
        → Passes (W.contents writer.old) replies.old (W.contents writer.new) replies.new [] }
    ensures unfailed { IsErrOf result Stop.Memory → W.failures writer.new ≡ W.failures writer.old }
    ensures stopped { IsErrOf result Stop.Stopped → ⊥ }
    ensures device { IsErrOf result Stop.Device → HasRisen (W.failures writer.old) (W.failures writer.new)
        × AppendsFront (W.contents writer.old) (W.contents writer.new) (replies.old ++ text_of number outcome.now) }
    ensures heard { W.heard writer.new ≡ W.heard writer.old }
{
    match outcome {
        None | Some(Outcome::Replied(Reply::Done)) => Ok(()),
        Some(Outcome::Replied(Reply::Text(text))) => replies.add(writer, text.as_bytes()),
        Some(outcome) => {
            let text = render(alloc, number, outcome)?;
            replies.add(writer, &text)
        }
    }
}
