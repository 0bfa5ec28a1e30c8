//! What was written to an open `inject`: a stream of lines.

ghost use Rattle.std.specs.Prelude.{◌≡◌};
ghost use Rattle.mount_replies.specs.Services.{no_stream, without_rest};

use std::alloc::Global;
use std::mem;
use trace_lex::Text;

/// Whether it is a stream of lines, as it is once a newline was written; and the line that has not ended, with the lock owner and the process of the write
/// that left it.
#[derive(Drop)]
pub struct Stream {
    pub is_stream: bool,
    pub rest: Text,
    pub lock_owner: u64,
    pub pid: u32,
}

impl Stream {
    /// Nothing was written.
    pub(crate) fn new(alloc: Global) -> Stream
        ensures { result ≡ no_stream }
    {
        Stream {
            is_stream: false,
            rest: Text::new(alloc),
            lock_owner: 0,
            pid: 0,
        }
    }

    /// Nothing is kept of it.
    pub(crate) fn without_rest(mut self, alloc: Global) -> Stream
        ensures { result ≡ without_rest self }
    {
        self.rest = Text::new(alloc);
        self
    }

    /// Takes out what is kept of it.
    pub(crate) fn take_rest(&mut self, alloc: Global) -> Text
        ensures value { result ≡ self.old.rest }
        ensures after { self.new ≡ without_rest self.old }
    {
        mem::replace(&mut self.rest, Text::new(alloc))
    }
}
