//! What requests are read from and replies are written to.

ghost use Rattle.std.specs.Prelude.{◌≡◌, ◌∷◌, ◌++◌, ℕ, List, [], Option};
ghost use Rattle.std.specs.Io.{ReadsAtMost, WritesAtMost};
ghost use Rattle.std.specs.Io.KnownBytes.{ReadConsumes, WriteAppends};
ghost use Rattle.fuse_serve.specs.Calls.{Call, read_call, write_call};

use std::io;

/// What gives the bytes of requests and takes those of replies.
pub trait Device {
    /// Its calls so far, one after another, reads and writes.
    ghost calls: { Self → List Call };

    /// The bytes that reads will give from now on, if known.
    ghost remaining: { Self → Option (List ℕ) };

    /// The bytes that it holds of what was written, if known.
    ghost contents: { Self → Option (List ℕ) };

    /// Reads some bytes into the beginning of `buf`, and returns how many; none at the end.
    fn read(&mut self, buf: &mut [u8]) -> io::Result<usize>
        ensures call { calls self.new ≡ calls self.old ++ read_call buf.new result ∷ [] }
        ensures bound { ReadsAtMost result buf.new }
        ensures bytes { ReadConsumes (remaining self.old) (remaining self.new) result buf.new }
        ensures contents { contents self.new ≡ contents self.old };

    /// Takes some bytes from the beginning of `buf`, and returns how many.
    fn write(&mut self, buf: &[u8]) -> io::Result<usize>
        ensures call { calls self.new ≡ calls self.old ++ write_call buf.now result ∷ [] }
        ensures bound { WritesAtMost result buf.now }
        ensures bytes { WriteAppends (contents self.old) (contents self.new) result buf.now }
        ensures remaining { remaining self.new ≡ remaining self.old };
}
