//! Calls that read by a copy: the text is made of it after the turn, while others have theirs.

ghost use Rattle.std.specs.Prelude.{◌≡◌, IfOk, IfErr, MatchResult};
ghost use Rattle.trace_command.specs.Requests.{request_of};
ghost use Rattle.trace_command.specs.declared.command.CommandOf.TheVariants as commands;
ghost use Rattle.tracer.specs.LateReads.{replied};
ghost use Rattle.shared_mount.specs.MountCallers.{caller_in, caller_view, line_ticket, line_view, terms_of, calls, HadTicket, HasFailed, IsCallerOf, IsInLineOf, TakesTurn};

use super::SharedMount;
use crate::caller::{Caller, InLine};
use crate::copying::copy_in_turn;
use crate::served::NoTurn;
use trace_command::Refusal;
use trace_instance::LateReply;

impl SharedMount {
    /// As `try_call`, of a read of the file at this path, of a pipe of at most so many records; but of a file that shows a long text only a copy is taken, and
    /// the caller makes the reply of it after the turn (`LateReply::reply`). The answer in the history is the one that the copy means, whether the reply is made
    /// or not.
    pub fn try_copy(
        &self,
        caller: Caller,
        path: &[u8],
        most: Option<u64>,
    ) -> Result<(Caller, Result<LateReply, Refusal>, bool), NoTurn>
        requires { IsCallerOf self.now caller }
        ensures of { MatchResult result (λ r. IsCallerOf self.now r.0) (λ no. IsCallerOf self.now (caller_in no)) }
        ensures called { IfOk result (λ r. TakesTurn (terms_of self.now) (caller_view caller) (caller_view r.0)
            (calls (λ found. request_of (commands.Read path.now most)) (replied r.1)) r.2) }
        ensures failed { IfErr result (HasFailed (caller_view caller)) }
    {
        match self.lock.try_acquire(caller.into_pass()) {
            Ok(held) => Ok(copy_in_turn(&self.lock, held, path, most)),
            Err(error) => Err(NoTurn::of(error)),
        }
    }

    /// As `try_copy`, of a caller that is in line: if its ticket isn't served yet, it comes back as it was and nothing was run.
    pub fn copy_in_line(
        &self,
        line: InLine,
        path: &[u8],
        most: Option<u64>,
    ) -> Result<(Caller, Result<LateReply, Refusal>, bool), InLine>
        requires { IsInLineOf self.now line }
        ensures of { MatchResult result (λ r. IsCallerOf self.now r.0) (λ l. IsInLineOf self.now l) }
        ensures called { IfOk result (λ r. TakesTurn (terms_of self.now) (line_view line) (caller_view r.0)
            (calls (λ found. request_of (commands.Read path.now most)) (replied r.1)) r.2) }
        ensures ticket { IfOk result (λ r. HadTicket (line_ticket line) (caller_view r.0)) }
        ensures busy { IfErr result (λ l. line_view l ≡ line_view line) }
        ensures kept { IfErr result (λ l. line_ticket l ≡ line_ticket line) }
    {
        let InLine { drawn } = line;
        match self.lock.try_enter(drawn) {
            Ok(held) => Ok(copy_in_turn(&self.lock, held, path, most)),
            Err(drawn) => Err(InLine { drawn }),
        }
    }
}
