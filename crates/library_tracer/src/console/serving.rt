//! Serving a mount: one of the kernel's requests, or something that is owed to it, in one try.

ghost use Rattle.std.specs.Prelude.{◌≡◌, ◌≢◌, ◌≤◌, [], vec_capacity, false, true, IsSome};
ghost use Rattle.mount_replies.specs.Mounted.{most_reply};
ghost use Rattle.library_tracer.specs.Consoles.{ServesOnce};

use super::{Console, forget, settle_in_line, settle_tried};
use shared_mount::Served;
use std::mem;
use trace_command::Refusal;

impl Console {
    /// As `answer`, of no text that was made beside the turns.
    pub(super) fn answer_as_ever(
        &mut self,
        request: &[u8],
        reply: &mut Vec<u8>,
    ) -> Option<Result<Served, Refusal>>
        requires has { IsSome self.old.has }
        requires room { most_reply ≤ vec_capacity reply.old }
        requires empty { reply.old.items ≡ [] }
        requires some { request.now ≢ [] }
        ensures serves { ServesOnce request.now reply.new.items true self.old self.new result }
        ensures has { IsSome self.new.has }
        ensures capacity { vec_capacity reply.old ≤ vec_capacity reply.new }
    {
        forget(&mut self.shown);
        match mem::replace(&mut self.idle, None) {
            Some(caller) => {
                let tried = self.tracer.try_answer(caller, request, reply);
                settle_tried(&mut self.idle, tried)
            }
            None => self.answer_in_line(request, reply),
        }
    }

    // As `answer_as_ever`, of a caller that is in line.
    fn answer_in_line(
        &mut self,
        request: &[u8],
        reply: &mut Vec<u8>,
    ) -> Option<Result<Served, Refusal>>
        requires line { self.old.is_in_line ≡ true }
        requires room { most_reply ≤ vec_capacity reply.old }
        requires empty { reply.old.items ≡ [] }
        requires some { request.now ≢ [] }
        ensures serves { ServesOnce request.now reply.new.items true self.old self.new result }
        ensures has { IsSome self.new.has }
        ensures capacity { vec_capacity reply.old ≤ vec_capacity reply.new }
    {
        forget(&mut self.shown);
        let queued = mem::replace(&mut self.queued, None)?;
        let tried = self
            .tracer
            .answer_in_line(queued.into_line(), request, reply);
        settle_in_line(&mut self.idle, &mut self.queued, tried)
    }

    /// Tells something that is owed to the mount, in one try: `reply`, which is empty and has the room, gets the bytes. Where nothing is owed, nothing is
    /// done. It keeps what the last call came to.
    pub fn tell(&mut self, reply: &mut Vec<u8>) -> Option<Result<Served, Refusal>>
        requires has { IsSome self.old.has }
        requires room { most_reply ≤ vec_capacity reply.old }
        requires empty { reply.old.items ≡ [] }
        ensures serves { ServesOnce [] reply.new.items false self.old self.new result }
        ensures has { IsSome self.new.has }
        ensures capacity { vec_capacity reply.old ≤ vec_capacity reply.new }
    {
        forget(&mut self.shown);
        match mem::replace(&mut self.idle, None) {
            Some(caller) => {
                let tried = self.tracer.try_tell(caller, reply);
                settle_tried(&mut self.idle, tried)
            }
            None => self.tell_in_line(reply),
        }
    }

    // As `tell`, of a caller that is in line.
    fn tell_in_line(&mut self, reply: &mut Vec<u8>) -> Option<Result<Served, Refusal>>
        requires line { self.old.is_in_line ≡ true }
        requires room { most_reply ≤ vec_capacity reply.old }
        requires empty { reply.old.items ≡ [] }
        ensures serves { ServesOnce [] reply.new.items false self.old self.new result }
        ensures has { IsSome self.new.has }
        ensures capacity { vec_capacity reply.old ≤ vec_capacity reply.new }
    {
        forget(&mut self.shown);
        let queued = mem::replace(&mut self.queued, None)?;
        let tried = self.tracer.tell_in_line(queued.into_line(), reply);
        settle_in_line(&mut self.idle, &mut self.queued, tried)
    }
}
