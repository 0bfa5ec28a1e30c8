//! Calls that read by a copy.

ghost use Rattle.std.specs.Prelude.{◌≡◌, [], ◌∷◌, ◌++◌};
ghost use Rattle.trace_command.specs.Requests.{request_of};
ghost use Rattle.trace_command.specs.declared.command.CommandOf.TheVariants as commands;
ghost use Rattle.tracer.specs.LateReads.{replied};
ghost use Rattle.shared_mount.specs.MountEntries.{DidCall};
ghost use Rattle.shared_mount.specs.MountHistories.{IsNext};

use super::{LiveMount, forget_events};
use crate::copying::with_copy;
use trace_command::Refusal;
use trace_instance::LateReply;

impl LiveMount {
    /// As `call`, of a read of the file at this path, of a pipe of at most so many records; but of a file that shows a long text only a copy is taken, and the
    /// reply is made of it later (`LateReply::reply`). The answer in the history is the one that the copy means.
    pub fn copy(
        &mut self,
        ticket: u64,
        by: u32,
        path: &[u8],
        most: Option<u64>,
    ) -> Result<LateReply, Refusal>
        ensures left { self.new.entries ≡ self.old.entries ++ record {
          ticket = ticket;
          by = by;
          deed = DidCall (request_of (commands.Read path.now most)) (replied result);
        } ∷ [] }
        ensures next { IsNext self.old.terms self.old.entries (DidCall (request_of (commands.Read path.now most)) (replied result)) self.new.owes }
        ensures terms { self.new.terms ≡ self.old.terms }
    {
        forget_events(&mut self.watch);
        let answer = self.mount.copy_within(self.limit, path, most);
        self.past = with_copy(&self.past, ticket, by, path, most, &answer);
        answer
    }
}
