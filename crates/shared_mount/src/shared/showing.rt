//! Requests that are served of a text which was made beside the turns.

ghost use Rattle.std.specs.Prelude.{◌≡◌, ◌≢◌, ◌≤◌, [], vec_capacity, IfOk, IfErr, IfSome, MatchResult};
ghost use Rattle.mount_replies.specs.Mounted.{most_reply};
ghost use Rattle.mount_replies.specs.ShownTexts.{IsCopied};
ghost use Rattle.shared_mount.specs.MountCallers.{caller_in, caller_view, line_ticket, line_view, terms_of, HadTicket, HasFailed, IsCallerOf, IsIdle, IsInLineOf};
ghost use Rattle.shared_mount.specs.MountEntries.{done_in};
ghost use Rattle.shared_mount.specs.ShownMounts.{IsShownIn, ServesOf};

use super::SharedMount;
use crate::caller::{Caller, InLine};
use crate::served::{NoTurn, Served};
use crate::showing::{copy_wanted_in_turn, show_in_turn};
use mount_replies::{CopiedText, ShownText};

impl SharedMount {
    /// Copies that whose long text a request wants, if it wants one, in a turn, if nobody has one or is in line for one. Nothing is done. The caller makes
    /// the text after the turn (`CopiedText::text`), while others have theirs, and then has the request served of it (`try_answer_shown`).
    pub fn try_copy_wanted(
        &self,
        caller: Caller,
        asked: &[u8],
    ) -> Result<(Caller, Option<CopiedText>), NoTurn>
        requires { IsCallerOf self.now caller }
        ensures of { MatchResult result (λ r. IsCallerOf self.now r.0) (λ no. IsCallerOf self.now (caller_in no)) }
        ensures idle { IfOk result (λ r. IsIdle (terms_of self.now) (caller_view caller) (caller_view r.0)) }
        ensures copied { IfOk result (λ r. IfSome r.1 (IsCopied (terms_of self.now).mount (done_in (caller_view r.0).seen))) }
        ensures failed { IfErr result (HasFailed (caller_view caller)) }
    {
        match self.lock.try_acquire(caller.into_pass()) {
            Ok(held) => Ok(copy_wanted_in_turn(&self.lock, held, asked)),
            Err(error) => Err(NoTurn::of(error)),
        }
    }

    /// As `try_copy_wanted`, of a caller that is in line.
    pub fn copy_wanted_in_line(
        &self,
        line: InLine,
        asked: &[u8],
    ) -> Result<(Caller, Option<CopiedText>), InLine>
        requires { IsInLineOf self.now line }
        ensures of { MatchResult result (λ r. IsCallerOf self.now r.0) (λ l. IsInLineOf self.now l) }
        ensures idle { IfOk result (λ r. IsIdle (terms_of self.now) (line_view line) (caller_view r.0)) }
        ensures copied { IfOk result (λ r. IfSome r.1 (IsCopied (terms_of self.now).mount (done_in (caller_view r.0).seen))) }
        ensures ticket { IfOk result (λ r. HadTicket (line_ticket line) (caller_view r.0)) }
        ensures busy { IfErr result (λ l. line_view l ≡ line_view line) }
        ensures kept { IfErr result (λ l. line_ticket l ≡ line_ticket line) }
    {
        let InLine { drawn } = line;
        match self.lock.try_enter(drawn) {
            Ok(held) => Ok(copy_wanted_in_turn(&self.lock, held, asked)),
            Err(drawn) => Err(InLine { drawn }),
        }
    }

    /// As `try_answer`, of a long text that its file showed after turns that the caller has seen, if the request wants it. The text comes back where there was no
    /// turn.
    pub fn try_answer_shown(
        &self,
        caller: Caller,
        asked: &[u8],
        shown: ShownText,
        reply: &mut Vec<u8>,
    ) -> Result<(Caller, Served), (NoTurn, ShownText)>
        requires of { IsCallerOf self.now caller }
        requires shown { IsShownIn (terms_of self.now) (caller_view caller).seen shown }
        requires room { most_reply ≤ vec_capacity reply.old }
        requires empty { reply.old.items ≡ [] }
        requires some { asked.now ≢ [] }
        ensures of { MatchResult result (λ r. IsCallerOf self.now r.0) (λ no. IsCallerOf self.now (caller_in no.0)) }
        ensures serves { IfOk result (λ r. ServesOf (terms_of self.now) shown asked.now reply.new.items (caller_view caller) (caller_view r.0) r.1) }
        ensures failed { IfErr result (λ no. HasFailed (caller_view caller) no.0 × (reply.new.items ≡ [])) }
        ensures back { IfErr result (λ no. no.1 ≡ shown) }
        ensures capacity { vec_capacity reply.old ≤ vec_capacity reply.new }
    {
        match self.lock.try_acquire(caller.into_pass()) {
            Ok(held) => Ok(show_in_turn(&self.lock, held, asked, shown, reply)),
            Err(error) => Err((NoTurn::of(error), shown)),
        }
    }

    /// As `try_answer_shown`, of a caller that is in line.
    pub fn answer_shown_in_line(
        &self,
        line: InLine,
        asked: &[u8],
        shown: ShownText,
        reply: &mut Vec<u8>,
    ) -> Result<(Caller, Served), (InLine, ShownText)>
        requires of { IsInLineOf self.now line }
        requires shown { IsShownIn (terms_of self.now) (line_view line).seen shown }
        requires room { most_reply ≤ vec_capacity reply.old }
        requires empty { reply.old.items ≡ [] }
        requires some { asked.now ≢ [] }
        ensures of { MatchResult result (λ r. IsCallerOf self.now r.0) (λ l. IsInLineOf self.now l.0) }
        ensures serves { IfOk result (λ r. ServesOf (terms_of self.now) shown asked.now reply.new.items (line_view line) (caller_view r.0) r.1) }
        ensures ticket { IfOk result (λ r. HadTicket (line_ticket line) (caller_view r.0)) }
        ensures busy { IfErr result (λ l. (line_view l.0 ≡ line_view line) × (reply.new.items ≡ [])) }
        ensures kept { IfErr result (λ l. line_ticket l.0 ≡ line_ticket line) }
        ensures back { IfErr result (λ l. l.1 ≡ shown) }
        ensures capacity { vec_capacity reply.old ≤ vec_capacity reply.new }
    {
        let InLine { drawn } = line;
        match self.lock.try_enter(drawn) {
            Ok(held) => Ok(show_in_turn(&self.lock, held, asked, shown, reply)),
            Err(drawn) => Err((InLine { drawn }, shown)),
        }
    }
}
