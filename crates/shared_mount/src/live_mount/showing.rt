//! Requests that are served of a text which was made beside the turns.

ghost use Rattle.std.specs.Prelude.{◌≡◌, ◌≢◌, ◌≤◌, Bool, false, [], ◌∷◌, ◌++◌, vec_capacity, IfSome};
ghost use Rattle.mount_replies.specs.Mounted.{most_reply};
ghost use Rattle.mount_replies.specs.ShownTexts.{IsCopied};
ghost use Rattle.shared_mount.specs.MountEntries.{Deed, done_in};
ghost use Rattle.shared_mount.specs.MountHistories.{IsNext, WereTaken};
ghost use Rattle.shared_mount.specs.ShownMounts.{IsShownIn, shows};

use super::LiveMount;
use crate::exchange::Exchange;
use crate::history::{bytes_of, with_exchange};
use crate::showing::with_shown;
use mount_replies::{CopiedText, ShownText};
use std::snapshot::Snapshot;

impl LiveMount {
    /// A copy of that whose long text a request wants, if it wants one. Nothing is done.
    pub fn copy_wanted(&self, asked: &[u8]) -> Option<CopiedText>
        ensures copied { IfSome result (IsCopied self.now.terms.mount (done_in self.now.entries)) }
        ensures taken { WereTaken self.now.terms self.now.entries }
    {
        self.mount.copy_wanted(asked)
    }

    /// As `answer`, of a long text that its file showed after earlier turns, if the request wants it.
    pub fn answer_shown(
        &mut self,
        ticket: u64,
        by: u32,
        asked: &[u8],
        shown: ShownText,
        reply: &mut Vec<u8>,
    )
        requires room { most_reply ≤ vec_capacity reply.old }
        requires empty { reply.old.items ≡ [] }
        requires some { asked.now ≢ [] }
        requires nothing_owed { self.old.owes ≡ false }
        requires shown { IsShownIn self.old.terms self.old.entries shown }
        ensures left { (of_text : Bool) × (deed : Deed) × shows of_text shown asked.now reply.new.items self.old.entries deed
            × (self.new.entries ≡ self.old.entries ++ record { ticket = ticket; by = by; deed = deed } ∷ [])
            × IsNext self.old.terms self.old.entries deed self.new.owes }
        ensures terms { self.new.terms ≡ self.old.terms }
        ensures capacity { vec_capacity reply.old ≤ vec_capacity reply.new }
    {
        let before = Snapshot::of(&self.mount);
        let text = Snapshot::of(&shown);
        let is_shown = self.mount.answer_shown(asked, shown, reply);
        self.watch = self.mount.watch();
        if is_shown {
            self.past = with_shown(&self.past, ticket, by, text, asked, reply);
            return;
        }
        let exchange = Exchange {
            past: Snapshot::of(&self.past),
            before,
            after: Snapshot::of(&self.mount),
            asked: bytes_of(asked),
            bytes: bytes_of(reply),
        };
        self.past = with_exchange(&exchange, ticket, by);
    }
}
