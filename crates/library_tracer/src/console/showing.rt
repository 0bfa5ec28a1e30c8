//! Requests of the mount that want the text of a trace or of a histogram, which may be long. It is made beside the turns, of a copy, while others have theirs:
//!
//! ```text
//!   turn       nothing is done         copy
//!   after it   others have turns       copy ──> text
//!   turn       the request is served   text ──> reply
//! ```
//!
//! Where the second turn can't be had, the text is kept for the next try at the request. Another call drops it: it is made again then.

ghost use Rattle.std.specs.Prelude.{◌≡◌, ◌≢◌, ◌≤◌, [], vec_capacity, true, None, Some, IsSome, IfSome};
ghost use Rattle.mount_replies.specs.Mounted.{most_reply};
ghost use Rattle.mount_replies.specs.ShownTexts.{IsCopied};
ghost use Rattle.mount_replies.specs.declared.shown.CopiedText.{CopiedText};
ghost use Rattle.shared_mount.specs.MountEntries.{done_in};
ghost use Rattle.library_tracer.specs.Consoles.{Looks};
ghost use Rattle.library_tracer.specs.ShownReplies.{Answers, AnswersOnce, IsShownTo};
ghost use Rattle.library_tracer.specs.private.MadeTexts.{IsMadeOf};

use super::{Console, forget, line_up, settle, settle_in_line, settle_tried};
use fuse_wire::{Operation, decode};
use mount_replies::{CopiedText, ShownText};
use shared_mount::{NoTurn, Served};
use std::alloc::Global;
use std::mem;
use trace_command::Refusal;

impl Console {
    /// Serves a request of the mount, as the kernel wrote it, in one try: `reply`, which is empty and has the room, gets the bytes of its reply, none if it
    /// has none or waits. Where something is owed, nothing is done. It keeps what the last call came to. The text of a trace or a histogram that the request
    /// wants is made between two turns.
    pub fn answer(&mut self, request: &[u8], reply: &mut Vec<u8>) -> Option<Result<Served, Refusal>>
        requires has { IsSome self.old.has }
        requires room { most_reply ≤ vec_capacity reply.old }
        requires empty { reply.old.items ≡ [] }
        requires some { request.now ≢ [] }
        ensures serves { Answers request.now reply.new.items self.old self.new result }
        ensures has { IsSome self.new.has }
        ensures capacity { vec_capacity reply.old ≤ vec_capacity reply.new }
    {
        let number = number_of(request);
        let shown = mem::replace(&mut self.shown, None);
        if is_to_look(self.looked, number) {
            return self.answer_anew(request, number, reply);
        }
        self.answer_of(request, shown, reply)
    }

    // As `answer`, of a request for which no text was looked for.
    fn answer_anew(
        &mut self,
        request: &[u8],
        number: Option<u64>,
        reply: &mut Vec<u8>,
    ) -> Option<Result<Served, Refusal>>
        requires has { IsSome self.old.has }
        requires room { most_reply ≤ vec_capacity reply.old }
        requires empty { reply.old.items ≡ [] }
        requires some { request.now ≢ [] }
        ensures serves { Answers request.now reply.new.items self.old self.new result }
        ensures has { IsSome self.new.has }
        ensures capacity { vec_capacity reply.old ≤ vec_capacity reply.new }
    {
        match self.copy_wanted(request)? {
            Ok(copied) => {
                self.looked = number;
                let shown = made(self.alloc, copied);
                self.answer_of(request, shown, reply)
            }
            Err(refusal) => Some(Err(refusal)),
        }
    }

    // As `answer`, of this text, if there is one.
    fn answer_of(
        &mut self,
        request: &[u8],
        shown: Option<ShownText>,
        reply: &mut Vec<u8>,
    ) -> Option<Result<Served, Refusal>>
        requires has { IsSome self.old.has }
        requires shown { IfSome shown (IsShownTo self.old) }
        requires room { most_reply ≤ vec_capacity reply.old }
        requires empty { reply.old.items ≡ [] }
        requires some { request.now ≢ [] }
        ensures serves { AnswersOnce request.now reply.new.items self.old self.new result }
        ensures has { IsSome self.new.has }
        ensures capacity { vec_capacity reply.old ≤ vec_capacity reply.new }
    {
        match shown {
            Some(shown) => self.answer_shown(request, shown, reply),
            None => self.answer_as_ever(request, reply),
        }
    }

    // As `answer`, of this text, which is kept where there is no turn.
    fn answer_shown(
        &mut self,
        request: &[u8],
        shown: ShownText,
        reply: &mut Vec<u8>,
    ) -> Option<Result<Served, Refusal>>
        requires has { IsSome self.old.has }
        requires shown { IsShownTo self.old shown }
        requires room { most_reply ≤ vec_capacity reply.old }
        requires empty { reply.old.items ≡ [] }
        requires some { request.now ≢ [] }
        ensures serves { AnswersOnce request.now reply.new.items self.old self.new result }
        ensures has { IsSome self.new.has }
        ensures capacity { vec_capacity reply.old ≤ vec_capacity reply.new }
    {
        forget(&mut self.shown);
        match mem::replace(&mut self.idle, None) {
            Some(caller) => match self.tracer.try_answer_shown(caller, request, shown, reply) {
                Ok((caller, served)) => {
                    settle(&mut self.idle, caller);
                    self.looked = None;
                    Some(Ok(served))
                }
                Err((no_turn, shown)) => match no_turn {
                    NoTurn::Busy(caller) => {
                        settle(&mut self.idle, caller);
                        keep_shown(&mut self.shown, shown);
                        None
                    }
                    NoTurn::Worn(caller) => {
                        settle(&mut self.idle, caller);
                        Some(Err(Refusal::Worn))
                    }
                },
            },
            None => self.answer_shown_in_line(request, shown, reply),
        }
    }

    // As `answer_shown`, of a caller that is in line.
    fn answer_shown_in_line(
        &mut self,
        request: &[u8],
        shown: ShownText,
        reply: &mut Vec<u8>,
    ) -> Option<Result<Served, Refusal>>
        requires line { self.old.is_in_line ≡ true }
        requires shown { IsShownTo self.old shown }
        requires room { most_reply ≤ vec_capacity reply.old }
        requires empty { reply.old.items ≡ [] }
        requires some { request.now ≢ [] }
        ensures serves { AnswersOnce request.now reply.new.items self.old self.new result }
        ensures has { IsSome self.new.has }
        ensures capacity { vec_capacity reply.old ≤ vec_capacity reply.new }
    {
        forget(&mut self.shown);
        let queued = mem::replace(&mut self.queued, None)?;
        match self
            .tracer
            .answer_shown_in_line(queued.into_line(), request, shown, reply)
        {
            Ok((caller, served)) => {
                settle(&mut self.idle, caller);
                self.looked = None;
                Some(Ok(served))
            }
            Err((line, shown)) => {
                line_up(&mut self.queued, line);
                keep_shown(&mut self.shown, shown);
                None
            }
        }
    }

    // Copies the trace or the histogram whose text a request wants, if it wants one, in one try.
    fn copy_wanted(&mut self, request: &[u8]) -> Option<Result<Option<CopiedText>, Refusal>>
        requires { IsSome self.old.has }
        ensures comes { Looks (λ entries copied. IfSome copied (IsCopied self.old.terms.mount (done_in entries))) self.old self.new result }
        ensures has { IsSome self.new.has }
    {
        forget(&mut self.shown);
        match mem::replace(&mut self.idle, None) {
            Some(caller) => {
                let tried = self.tracer.try_copy_wanted(caller, request);
                settle_tried(&mut self.idle, tried)
            }
            None => self.copy_wanted_in_line(request),
        }
    }

    // As `copy_wanted`, of a caller that is in line.
    fn copy_wanted_in_line(&mut self, request: &[u8]) -> Option<Result<Option<CopiedText>, Refusal>>
        requires { self.old.is_in_line ≡ true }
        ensures comes { Looks (λ entries copied. IfSome copied (IsCopied self.old.terms.mount (done_in entries))) self.old self.new result }
        ensures has { IsSome self.new.has }
    {
        forget(&mut self.shown);
        let queued = mem::replace(&mut self.queued, None)?;
        let tried = self.tracer.copy_wanted_in_line(queued.into_line(), request);
        settle_in_line(&mut self.idle, &mut self.queued, tried)
    }
}

/// The number of a request that may want a text which is made beside the turns.
fn number_of(request: &[u8]) -> Option<u64> {
    let Ok(request) = decode(request) else {
        return None;
    };
    let may_want = match &request.operation {
        Operation::Lookup { name } => has_late_text(name.as_slice()),
        Operation::GetAttr => true,
        Operation::Read { offset, .. } => *offset == 0,
        _ => false,
    };
    if may_want { Some(request.unique) } else { None }
}

/// Whether a file of this name shows a trace or a histogram.
fn has_late_text(name: &[u8]) -> bool {
    name == b"trace".as_slice() || name == b"snapshot".as_slice() || name == b"hist".as_slice()
}

/// Whether a text is to be looked for: a request may want one, and it is not the one of which that is known.
fn is_to_look(looked: Option<u64>, number: Option<u64>) -> bool {
    match (looked, number) {
        (Some(looked), Some(number)) => looked != number,
        (None, Some(_)) => true,
        (_, None) => false,
    }
}

/// The text of a copy, if there is one and memory is not refused.
fn made(alloc: Global, copied: Option<CopiedText>) -> Option<ShownText>
    ensures { IfSome result (λ shown. (one : CopiedText) × (copied ≡ Some one) × IsMadeOf one shown) }
{
    match copied?.text(alloc) {
        Ok(shown) => Some(shown),
        Err(_) => None,
    }
}

/// Keeps a text for the next try.
fn keep_shown(kept: &mut Option<ShownText>, shown: ShownText)
    ensures { kept.new ≡ Some shown }
{
    *kept = Some(shown);
}
