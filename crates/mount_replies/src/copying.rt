//! Reads of the program that has the mounted tracer whose replies are made later: they are calls (`calls.rt`), but of a file that shows a long text only
//! a copy is taken, so that whoever shares the mounted tracer gives it back before the text is made.

ghost use Rattle.std.specs.Prelude.{◌≤◌, List};
ghost use Rattle.trace_command.specs.Requests.{Request, request_of};
ghost use Rattle.trace_command.specs.declared.command.CommandOf.TheVariants as commands;
ghost use Rattle.tracer.specs.LateReads.{replied};
ghost use Rattle.tracer.specs.Lives.{most_done};
ghost use Rattle.mount_replies.specs.Calls.{IsCommanded};
ghost use Rattle.mount_replies.specs.Mounted.{IsMounted};
ghost use Rattle.mount_replies.specs.private.Commandings.{RunsWithin};

use crate::mount::Mount;
use trace_command::{Refusal, address_of};
use trace_instance::LateReply;

impl Mount {
    /// As `call_within`, for a read of the file at this path, of a pipe of at most so many records; but of a file that shows a long text only a copy is
    /// taken, and the reply is made of it later (`LateReply::reply`), whatever is done to the mounted tracer until then.
    pub fn copy_within(
        &mut self,
        limit: u64,
        path: &[u8],
        most: Option<u64>,
    ) -> Result<LateReply, Refusal>
        requires { limit ≤ most_done }
        ensures { (past : List Request) → IsMounted past self.old
            → IsCommanded limit past self.old self.new (request_of (commands.Read path.now most)) (replied result) }
    {
        let answer = self.take_copy(limit, path, most);
        self.look_for_owed();
        answer
    }

    // Reads, or where as many commands were done as the limit says, has the tracer refuse it.
    fn take_copy(
        &mut self,
        limit: u64,
        path: &[u8],
        most: Option<u64>,
    ) -> Result<LateReply, Refusal>
        requires { limit ≤ most_done }
        ensures { RunsWithin limit self.old self.new (request_of (commands.Read path.now most)) (replied result) }
    {
        let prepared = self.live.prepare_copy_at(limit, address_of(path), most)?;
        self.live.carry_out_late(prepared)
    }
}
