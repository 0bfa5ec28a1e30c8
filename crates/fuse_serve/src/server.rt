//! What answers requests.

ghost use Rattle.std.specs.Prelude.{◌≡◌, ℕ, Bool, true, false, List, [], ◌≤◌, vec_capacity};
ghost use Rattle.fuse_serve.specs.Framing.{IsRequest};

use crate::framing::MOST_BYTES;

/// What answers requests.
pub trait Server {
    /// The replies that it may give: in the first state it may answer this request by this reply, and be in the second state then. If the request is
    /// empty, the reply is a message that it owes.
    ghost answers: { Self → List ℕ → Self → List ℕ → Type 0 };

    /// Whether it wants the service to end.
    ghost ends: { Self → Bool };

    /// Whether it owes a message: one that it is to send before it answers the next request, as the reply to an earlier request that had to wait.
    ghost owes: { Self → Bool };

    /// Answers a whole request, if it owes nothing: leaves the bytes of its reply in `reply`, none if it has none, or none yet. `reply` has room for
    /// a long reply, and keeps it.
    fn answer(&mut self, request: &[u8], reply: &mut Vec<u8>)
        requires whole { IsRequest request.now }
        requires idle { owes self.old ≡ false }
        requires empty { reply.old.items ≡ [] }
        requires room { MOST_BYTES ≤ vec_capacity reply.old }
        ensures answers { answers self.old request.now self.new reply.new.items }
        ensures room { vec_capacity reply.old ≤ vec_capacity reply.new };

    /// Leaves the bytes of a message that it owes in `reply`, the one that comes next.
    fn tell_owed(&mut self, reply: &mut Vec<u8>)
        requires owes { owes self.old ≡ true }
        requires empty { reply.old.items ≡ [] }
        requires room { MOST_BYTES ≤ vec_capacity reply.old }
        ensures answers { answers self.old [] self.new reply.new.items }
        ensures room { vec_capacity reply.old ≤ vec_capacity reply.new };

    /// Whether it wants the service to end. It is asked before each message.
    fn has_ended(&self) -> bool
        ensures { result ≡ ends self.now };

    /// Whether it owes a message. It is asked before each message.
    fn owes(&self) -> bool
        ensures { result ≡ owes self.now };
}
