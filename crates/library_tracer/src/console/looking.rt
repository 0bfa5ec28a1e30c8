//! What is looked up in a turn in which nothing is asked.

ghost use Rattle.std.specs.Prelude.{◌≡◌, true, None, Some, Err, IsSome, IsOk, IfSome, MatchResult, IfNone};
ghost use Rattle.std.specs.Option.{MatchOption};
ghost use Rattle.shared_mount.specs.MountCallers.{IsToldOf};
ghost use Rattle.library_tracer.specs.Consoles.{Lists, Looks, TellsWaiting};
ghost use Rattle.library_tracer.specs.Masks.{IsMaskOf};

use super::{ALL_DRAWN, Console, NO_MEMORY, Tried, forget, settle_in_line, settle_tried};
use crate::looks::{Files, Waiting, Wanted};
use crate::mask::Mask;
use shared_mount::Look;
use std::alloc::AllocError;
use std::mem;
use trace_command::{Refusal, Reply};
use trace_lex::Text;
use trace_script::Outcome;

impl Console {
    /// Lists the files that there are, as `tracectl --list` does: a line for each, which has `r`, `w` or `rw`, a space and the file's path. This is no
    /// command.
    pub fn files(&mut self) -> Tried
        requires { IsSome self.old.has }
        ensures comes { Lists self.old self.new result }
        ensures has { IsSome self.new.has }
    {
        let alloc = self.alloc;
        match self.look(&Files { alloc }) {
            Some(Ok(Ok(text))) => self.told(Outcome::Replied(Reply::Text(Text::from(text))), ""),
            Some(Ok(Err(AllocError))) => self.told(Outcome::Refused(Refusal::Memory), NO_MEMORY),
            Some(Err(refusal)) => self.told(Outcome::Refused(refusal), ALL_DRAWN),
            None => Tried::Busy,
        }
    }

    /// Which events are wanted, and how many commands were done by all threads and by the mount. Nothing, where somebody else has a turn. This is no
    /// command: it takes no memory and keeps what the last call came to.
    pub fn wanted(&mut self) -> Option<Result<Mask, Refusal>>
        requires { IsSome self.old.has }
        ensures comes { Looks IsMaskOf self.old self.new result }
        ensures has { IsSome self.new.has }
    {
        self.look(&Wanted)
    }

    /// Whether a record waits to be read in the pipe at this path. It is refused as `take` of the path is; nothing is told where somebody else has a turn.
    /// This is no command: it takes no memory and keeps what the last call came to.
    pub fn waiting(&mut self, path: &[u8]) -> Option<Result<bool, Refusal>>
        requires { IsSome self.old.has }
        ensures comes { TellsWaiting path.now self.old self.new result }
        ensures has { IsSome self.new.has }
    {
        flat(self.look(&Waiting { path }))
    }
}

impl Console {
    /// Looks something up in the tracer, in one try.
    fn look<L: Look>(&mut self, look: &L) -> Option<Result<L::Answer, Refusal>>
        requires { IsSome self.old.has }
        ensures comes { Looks (IsToldOf self.old.terms (L.tells look.now)) self.old self.new result }
        ensures has { IsSome self.new.has }
        ensures in_line { self.old.is_in_line ≡ true → IfSome result (λ seen. IsOk seen) }
        ensures waits { self.old.is_in_line ≡ true → IfNone result (self.new ≡ self.old) }
    {
        forget(&mut self.shown);
        match mem::replace(&mut self.idle, None) {
            Some(caller) => {
                let tried = self.tracer.try_look(caller, look);
                settle_tried(&mut self.idle, tried)
            }
            None => self.look_in_line(look),
        }
    }

    /// As `look`, of a caller that is in line.
    pub(super) fn look_in_line<L: Look>(&mut self, look: &L) -> Option<Result<L::Answer, Refusal>>
        requires { self.old.is_in_line ≡ true }
        ensures comes { Looks (IsToldOf self.old.terms (L.tells look.now)) self.old self.new result }
        ensures has { IsSome self.new.has }
        ensures in_line { IfSome result (λ seen. IsOk seen) }
        ensures waits { IfNone result (self.new ≡ self.old) }
    {
        forget(&mut self.shown);
        let queued = mem::replace(&mut self.queued, None)?;
        let tried = self.tracer.look_in_line(queued.into_line(), look);
        settle_in_line(&mut self.idle, &mut self.queued, tried)
    }
}

/// What was seen, or why it was not.
fn flat(seen: Option<Result<Result<bool, Refusal>, Refusal>>) -> Option<Result<bool, Refusal>>
    ensures { MatchOption seen (result ≡ None) (λ one. MatchResult one (λ waits. result ≡ Some waits) (λ refusal. result ≡ Some (Err refusal))) }
{
    match seen {
        Some(Ok(waits)) => Some(waits),
        Some(Err(refusal)) => Some(Err(refusal)),
        None => None,
    }
}
