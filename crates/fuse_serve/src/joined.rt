//! A reader and a writer as one device.

ghost use Rattle.std.specs.Prelude.{◌≡◌, []};

use crate::calls::Calls;
use crate::device::Device;
use crate::outcome::Outcome;
use std::io;
use std::io::{Read, Write};

/// A reader and a writer of std as one device, and the calls of both.
#[derive(Drop)]
pub struct Joined<R, W> {
    pub reader: R,
    pub writer: W,
    pub calls: Calls,
}

impl<R, W> Joined<R, W> {
    /// The device, before its first call.
    pub fn new(reader: R, writer: W) -> Joined<R, W>
        ensures reader { result.reader ≡ reader }
        ensures writer { result.writer ≡ writer }
        ensures calls { result.calls.made ≡ [] }
    {
        Joined {
            reader,
            writer,
            calls: Calls::new(),
        }
    }
}

impl<R: Read, W: Write> Device for Joined<R, W> {
    ghost calls = { λ joined. joined.calls.made };

    ghost remaining = { λ joined. R.remaining joined.reader };

    ghost contents = { λ joined. W.contents joined.writer };

    fn read(&mut self, buf: &mut [u8]) -> io::Result<usize> {
        let result = self.reader.read(buf);
        self.calls.add(buf, &Outcome::Read(result));
        result
    }

    fn write(&mut self, buf: &[u8]) -> io::Result<usize> {
        let result = self.writer.write(buf);
        self.calls.add(buf, &Outcome::Written(result));
        result
    }
}
