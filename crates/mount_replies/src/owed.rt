//! What a mounted tracer has to tell before it answers the next request: the replies of parked reads that wait no more, and that a polled pipe is
//! ready.
//!
//! Whether it owes something is worked out after each request that may have changed it (`look_for_owed`), so that to be asked costs nothing. Where no
//! read is parked and no poll is to be told, that is a look at two empty lists. Of the parked reads of one dry pipe the first asks the tracer
//! (`dry_pipes.rt`). After an emission by the program only the pipes that reads wait for are looked at, while all are dry (`watch.rt`).

ghost use Rattle.std.specs.Prelude.{◌≡◌, ◌<◌, ◌≤◌, ℕ, true, [], List, length, Some, is_some, position, vec_capacity, IfSome};
ghost use Rattle.trace_command.specs.Requests.{Request};
ghost use Rattle.mount_replies.specs.Mounted.{HasLedTo, IsMounted, IsOwedCalled, IsReplying, IsWaking, most_reply, service_of, terms_of};
ghost use Rattle.mount_replies.specs.Owed.{is_due, is_ready, owed};
ghost use Rattle.mount_replies.specs.Services.{file_at};
ghost use Rattle.mount_replies.specs.private.DryPipes.{AreDryNow};

use crate::dry_pipes::DryPipes;
use crate::mount::Mount;
use crate::parked::Parked;
use crate::telling::{tell_error, tell_wakeup};
use fuse_wire::Errno;

impl Mount {
    /// Whether a parked read waits no more, where these pipes are known to be dry.
    pub(crate) fn is_due(&self, read: &Parked, pipes: &mut DryPipes) -> bool
        requires dry { AreDryNow self.now pipes.old }
        ensures is { (past : List Request) → HasLedTo past self.now
            → result ≡ is_due (terms_of self.now) (service_of past self.now) read.now }
        ensures dry { AreDryNow self.now pipes.new }
    {
        read.interrupted || !self.waits_at(read.handle, pipes)
    }

    // The index of the oldest parked read that waits no more.
    fn next_due(&self) -> Option<usize>
        ensures is { (past : List Request) → HasLedTo past self.now
            → result ≡ position (is_due (terms_of self.now) (service_of past self.now)) self.now.parked }
        ensures within { IfSome result (λ index. index < length self.now.parked) }
    {
        let mut pipes = DryPipes::new();
        for index in 0..self.parked.len() {
            if self.is_due(&self.parked[index], &mut pipes) {
                return Some(index);
            }
        }
        None
    }

    // Whether a poll of the file of this handle is to be told, and there is something to tell.
    fn is_ready(&self, handle: u64) -> bool
        ensures { (past : List Request) → HasLedTo past self.now
            → result ≡ is_ready (terms_of self.now) (service_of past self.now) (file_at handle self.now.files) }
    {
        match self.files.get(handle) {
            Some(file) => file.polls().wakeup.is_some() && self.has_news(file),
            None => false,
        }
    }

    // The handle of the first file of which a poll is to be told that it is ready.
    fn next_ready(&self) -> Option<u64>
        ensures { (past : List Request) → HasLedTo past self.now
            → result ≡ position (is_ready (terms_of self.now) (service_of past self.now)) self.now.files }
    {
        if !self.files.may_wake() {
            return None;
        }
        for handle in 0..self.files.count() as u64 {
            if self.is_ready(handle) {
                return Some(handle);
            }
        }
        None
    }

    /// Works out whether something is owed, after what may have changed it.
    pub(crate) fn look_for_owed(&mut self)
        ensures rest { self.new ≡ record self.old { owes = self.new.owes } }
        ensures owes { (past : List Request) → HasLedTo past self.old
            → self.new.owes ≡ is_some (owed (terms_of self.old) (service_of past self.old)) }
    {
        self.owes = self.next_due().is_some() || self.next_ready().is_some();
    }

    /// Whether something has to be told before the next request is answered.
    pub fn owes(&self) -> bool
        ensures { result ≡ self.now.owes }
    {
        self.owes
    }

    /// Tells something that is owed: `reply`, which is empty and has the room, gets the bytes of a parked read's reply, or of the message that a
    /// polled file is ready.
    pub fn tell_owed(&mut self, reply: &mut Vec<u8>)
        requires room { most_reply ≤ vec_capacity reply.old }
        requires empty { reply.old.items ≡ [] }
        requires owes { self.old.owes ≡ true }
        ensures told { (past : List Request) → IsMounted past self.old → IsOwedCalled past self.old self.new reply.new.items }
        ensures capacity { vec_capacity reply.old ≤ vec_capacity reply.new }
    {
        match self.next_due() {
            Some(index) => self.answer_parked(index, reply),
            None => self.wake_next(reply),
        }
        self.look_for_owed();
    }

    // Takes a parked read that waits no more off the list, and tells its reply.
    fn answer_parked(&mut self, index: usize, out: &mut Vec<u8>)
        requires room { most_reply ≤ vec_capacity out.old }
        requires empty { out.old.items ≡ [] }
        requires within { index < length self.old.parked }
        ensures told { (past : List Request) → HasLedTo past self.old
            → position (is_due (terms_of self.old) (service_of past self.old)) self.old.parked ≡ Some index
            → IsReplying past self.old self.new index out.new.items }
        ensures capacity { vec_capacity out.old ≤ vec_capacity out.new }
    {
        let read = self.parked.remove(index);
        if read.interrupted {
            tell_error(read.unique, Errno::EINTR, out);
            self.files.note_dry_read(read.handle, false);
        } else {
            self.read(read, 0, false, 0, out);
        }
    }

    // Tells the poll of the first file that is ready.
    fn wake_next(&mut self, out: &mut Vec<u8>)
        requires room { most_reply ≤ vec_capacity out.old }
        ensures told { (past : List Request) (handle : ℕ) → HasLedTo past self.old
            → position (is_ready (terms_of self.old) (service_of past self.old)) self.old.files ≡ Some handle
            → IsWaking past self.old self.new handle out.new.items }
        ensures capacity { vec_capacity out.old ≤ vec_capacity out.new }
    {
        let Some(handle) = self.next_ready() else {
            return;
        };
        let Some(wakeup) = self.files.wakeup(handle) else {
            return;
        };
        tell_wakeup(wakeup, out);
        self.files.forget_wakeup(handle);
        self.files.look_for_wakeups();
    }
}
